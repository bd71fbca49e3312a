//! The kernel: its events.

ghost use Rattle.market_floor.specs.Reaction.{most_posted};
ghost use Rattle.std.specs.Prelude.{◌≡◌, ◌<◌, ◌≤◌, ◌+◌, ◌-◌, ◌^◌, true, List, Some, None, OnOk, OnErr, IfOk, IfErr, IsNone, All, max};
ghost use Rattle.market_types.specs.declared.feed.Feed.{Feed};
ghost use Rattle.market_types.specs.Told.{event};
ghost use Rattle.market_types.specs.Timely.{IsTimely};
ghost use Rattle.event_queue.specs.Waiting.{least};
ghost use Rattle.kernel_core.specs.Edited.{IsEditOf};
ghost use Rattle.kernel_core.specs.Seen.{afresh, first_waiting, folded, seen_told};
ghost use Rattle.kernel_core.specs.Step.{Fits, answer_by, end_of, event_of, raised};
ghost use Rattle.kernel_core.specs.Until.{advanced, advanced_by, until};

use crate::keeper::{EventSeen, Keeper};
use crate::kernel::{Kernel, next_of};
use crate::mail_laws::mail_stays_sound;
use crate::post::send_all;
use crate::stepped::Stepped;
use crate::telling::{meet, tell};
use market_floor::laws::floors_stay_sound;
use market_floor::{Happening, Opening, applied_by};
use market_rules::Edit;
use market_types::{End, Memory, Message, Time, Trace};
use outside::{Ledger, Steps};
use std::alloc::Global;

// The event of a number in which a message is put back or delivered, so that its receiver's own time is then this one, in
// nanoseconds past midnight. Its fee is that of what happened.
fn seen_of<'a>(
    m: &'a Message,
    number: u32,
    put_back: bool,
    until: Time,
    out: &Happening,
) -> EventSeen<'a>
    ensures { (before : List Feed) → (after : List Feed) → seen_told result before after ≡ record { number = number; time = m.now.time; seq = m.now.seq; from = m.now.from; to = m.now.to; put_back = put_back; until = until; fee = out.now.fee; body = m.now.body; before = before; after = after } }
{
    EventSeen {
        number,
        time: m.time,
        seq: m.seq,
        from: m.from,
        to: m.to,
        put_back,
        until,
        fee: out.fee,
        body: &m.body,
    }
}

impl Kernel {
    // The event of the next message, unless the state is ended. The answer is its end, or whether the keeper took the event: it
    // is made all the same.
    fn happen<K: Keeper>(
        &mut self,
        alloc: Global,
        o: &Opening,
        keeper: &mut K,
    ) -> Result<Result<bool, End>, Memory>
        requires fits { Fits o.now self.old }
        ensures ended { IfOk result (λ r. IfErr r (λ end. end_of o.now self.old ≡ Some end)) }
        ensures same { IfOk result (λ r. OnErr r (self.new ≡ self.old)) }
        ensures keeper_same { IfOk result (λ r. OnErr r (K.told keeper.new ≡ K.told keeper.old)) }
        ensures going { IfOk result (λ r. OnOk r (end_of o.now self.old ≡ None)) }
        ensures next { IfOk result (λ r. OnOk r (least self.old.post.waiting ≡ Some (first_waiting self.old))) }
        ensures state { IfOk result (λ r. OnOk r (self.new ≡ (event_of o.now self.old (first_waiting self.old)).state)) }
        ensures taken { IfOk result (λ r. IfOk r (λ kept. kept ≡ true → K.told keeper.new ≡ K.with (K.told keeper.old) (event_of o.now self.old (first_waiting self.old)).entry)) }
        ensures sure { IfOk result (λ r. IfOk r (λ kept. K.is_sure → kept ≡ true)) }
        ensures timely { IfOk result (λ r. OnOk r (IsTimely (event (event_of o.now self.old (first_waiting self.old)).entry))) }
        ensures fitting { Fits o.now self.new }
        ensures drops { IfOk result (λ r. OnOk r (self.new.post.dropped ≤ most_posted)) }
        ensures counted { IfOk result (λ r. OnOk r (self.new.events ≡ self.old.events + 1)) }
        ensures refused { OnErr result (self.new ≡ self.old) }
        ensures keeper_refused { OnErr result (K.told keeper.new ≡ K.told keeper.old) }
    {
        mail_stays_sound();
        floors_stay_sound();
        let m = match next_of(&self.mail, self.events, o) {
            Ok(m) => m,
            Err(end) => return Ok(Err(end)),
        };
        let Ok(()) = keeper.room() else {
            return Err(Memory);
        };
        let time = m.time;
        let from = m.to;
        let to = usize::from(from);
        let number = self.events + 1;
        let own = self.own[to];
        let applied = self.applied;
        let is_due = o.dated.is_due(applied, time);
        let out = &mut self.happening;
        let Ok(until) = meet(alloc, o, applied, is_due, own, m, &mut self.floor, out) else {
            return Err(Memory);
        };
        let seen = seen_of(m, number, time < own, until, out);
        let kept = tell(alloc, &seen, out, keeper);
        self.applied = applied_by(o, applied, is_due, time);
        self.events = number;
        self.time = time;
        if time < own {
            self.mail.delay_least(own);
            return Ok(Ok(kept));
        }
        self.mail.drop_least();
        let postings = &self.happening.postings;
        send_all(&mut self.mail, o, &self.groups, from, until, postings);
        self.own[to] = until;
        Ok(Ok(kept))
    }

    // One event, unless the state is ended, told to a keeper. The counter ticks once for an event and for nothing else. After
    // want of memory kernel and counter are those after the event, where it was made, and else as they were.
    pub(crate) fn step_into<K: Keeper, L: Ledger>(
        &mut self,
        alloc: Global,
        o: &Opening,
        keeper: &mut K,
        steps: &mut Steps<L>,
    ) -> Result<Stepped, Memory>
        requires fits { Fits o.now self.old }
        requires count { steps.old + 1 < 2 ^ 64 }
        ensures answer { IfOk result (λ a. a ≡ answer_by self.old (end_of o.now self.old)) }
        ensures events { IfOk result (λ a. self.new.events ≡ self.old.events + raised a) }
        ensures kept { OnOk result (K.told keeper.new ≡ folded K.with (K.told keeper.old) (advanced_by (self.new.events - self.old.events) o.now (afresh self.old)).entries) }
        ensures made { self.new ≡ (advanced_by (self.new.events - self.old.events) o.now (afresh self.old)).state }
        ensures timely { All IsTimely (advanced_by (self.new.events - self.old.events) o.now (afresh self.old)).entries }
        ensures ticks { steps.new + self.old.events ≡ steps.old + self.new.events }
        ensures grows { self.old.events ≤ self.new.events }
        ensures one { self.new.events ≤ self.old.events + 1 }
        ensures fitting { Fits o.now self.new }
        ensures offsets { self.new.floor.offsets ≡ self.old.floor.offsets }
        ensures editable { (e : Edit) → IsEditOf self.old e → IsEditOf self.new e }
        ensures drops { self.new.post.dropped ≤ max self.old.post.dropped most_posted }
        ensures refused { OnErr result (K.is_sure → self.new ≡ self.old) }
        ensures keeper_refused { OnErr result (K.is_sure → K.told keeper.new ≡ K.told keeper.old) }
    {
        let Ok(happened) = self.happen(alloc, o, keeper) else {
            return Err(Memory);
        };
        let kept = match happened {
            Ok(kept) => kept,
            Err(end) => return Ok(Stepped::Ended(end)),
        };
        steps.tick();
        if kept {
            return Ok(Stepped::Event(self.events));
        }
        Err(Memory)
    }

    /// One event, unless the state is ended. The counter ticks once for an event and for nothing else.
    ///
    /// # Errors
    /// Want of memory alone. Kernel and counter are then as they were, and so are the trace's entries (its kept places may
    /// have grown).
    pub fn step<L: Ledger>(
        &mut self,
        alloc: Global,
        o: &Opening,
        trace: &mut Trace,
        steps: &mut Steps<L>,
    ) -> Result<Stepped, Memory>
        requires fits { Fits o.now self.old }
        requires count { steps.old + 1 < 2 ^ 64 }
        ensures answer { IfOk result (λ a. a ≡ answer_by self.old (end_of o.now self.old)) }
        ensures made { OnOk result (record { state = self.new; entries = trace.new.list } ≡ advanced o.now (record { state = self.old; entries = trace.old.list })) }
        ensures events { IfOk result (λ a. self.new.events ≡ self.old.events + raised a) }
        ensures ticks { IfOk result (λ a. steps.new ≡ steps.old + raised a) }
        ensures fitting { Fits o.now self.new }
        ensures timely { All IsTimely trace.old.list → All IsTimely trace.new.list }
        ensures offsets { self.new.floor.offsets ≡ self.old.floor.offsets }
        ensures editable { (e : Edit) → IsEditOf self.old e → IsEditOf self.new e }
        ensures drops { self.new.post.dropped ≤ max self.old.post.dropped most_posted }
        ensures kernel_refused { OnErr result (self.new ≡ self.old) }
        ensures trace_refused { OnErr result (trace.new.list ≡ trace.old.list) }
        ensures steps_refused { OnErr result (steps.new ≡ steps.old) }
    {
        self.step_into(alloc, o, trace, steps)
    }

    /// Events until so many of them stand or the state is ended: then the answer is its end. A keeper takes each as it is made.
    ///
    /// # Errors
    /// Want of memory alone. Kernel and counter are then those after the events that were made, and what the keeper took is left
    /// open, unless it is one that refuses nothing.
    pub fn run_into<K: Keeper, L: Ledger>(
        &mut self,
        alloc: Global,
        o: &Opening,
        stop: u32,
        keeper: &mut K,
        steps: &mut Steps<L>,
    ) -> Result<Option<End>, Memory>
        requires fits { Fits o.now self.old }
        requires count { steps.old + (stop - self.old.events) < 2 ^ 64 }
        ensures answer { IfOk result (λ e. e ≡ end_of o.now self.new) }
        ensures reached { IfOk result (λ e. IsNone e → stop ≤ self.new.events) }
        ensures ran { OnOk result (self.new ≡ (until o.now stop (afresh self.old)).state) }
        ensures kept { OnOk result (K.told keeper.new ≡ folded K.with (K.told keeper.old) (until o.now stop (afresh self.old)).entries) }
        ensures made { self.new ≡ (advanced_by (self.new.events - self.old.events) o.now (afresh self.old)).state }
        ensures made_kept { K.is_sure → K.told keeper.new ≡ folded K.with (K.told keeper.old) (advanced_by (self.new.events - self.old.events) o.now (afresh self.old)).entries }
        ensures timely { All IsTimely (advanced_by (self.new.events - self.old.events) o.now (afresh self.old)).entries }
        ensures ticks { steps.new + self.old.events ≡ steps.old + self.new.events }
        ensures grows { self.old.events ≤ self.new.events }
        ensures within { self.new.events ≤ (until o.now stop (afresh self.old)).state.events }
        ensures time { self.old.time ≤ o.now.close → self.new.time ≤ o.now.close }
        ensures offsets { self.new.floor.offsets ≡ self.old.floor.offsets }
        ensures editable { (e : Edit) → IsEditOf self.old e → IsEditOf self.new e }
        ensures drops { self.new.post.dropped ≤ max self.old.post.dropped most_posted }
        ensures fitting { Fits o.now self.new }
    {
        'events: while self.events() < stop {
            let Ok(stepped) = self.step_into(alloc, o, keeper, steps) else {
                return Err(Memory);
            };
            match stepped {
                Stepped::Ended(end) => return Ok(Some(end)),
                Stepped::Event(_) => {}
            }
        }
        Ok(self.end(o))
    }

    /// Events until so many of them stand or the state is ended: then the answer is its end.
    ///
    /// # Errors
    /// Want of memory alone. Kernel, trace and counter are then those after the events that were made.
    pub fn run_until<L: Ledger>(
        &mut self,
        alloc: Global,
        o: &Opening,
        stop: u32,
        trace: &mut Trace,
        steps: &mut Steps<L>,
    ) -> Result<Option<End>, Memory>
        requires fits { Fits o.now self.old }
        requires count { steps.old + (stop - self.old.events) < 2 ^ 64 }
        ensures answer { IfOk result (λ e. e ≡ end_of o.now self.new) }
        ensures reached { IfOk result (λ e. IsNone e → stop ≤ self.new.events) }
        ensures ran { OnOk result (record { state = self.new; entries = trace.new.list } ≡ until o.now stop (record { state = self.old; entries = trace.old.list })) }
        ensures made { record { state = self.new; entries = trace.new.list } ≡ advanced_by (self.new.events - self.old.events) o.now (record { state = self.old; entries = trace.old.list }) }
        ensures ticks { steps.new + self.old.events ≡ steps.old + self.new.events }
        ensures grows { self.old.events ≤ self.new.events }
        ensures within { self.new.events ≤ (until o.now stop (record { state = self.old; entries = trace.old.list })).state.events }
        ensures time { self.old.time ≤ o.now.close → self.new.time ≤ o.now.close }
        ensures timely { All IsTimely trace.old.list → All IsTimely trace.new.list }
        ensures offsets { self.new.floor.offsets ≡ self.old.floor.offsets }
        ensures editable { (e : Edit) → IsEditOf self.old e → IsEditOf self.new e }
        ensures drops { self.new.post.dropped ≤ max self.old.post.dropped most_posted }
        ensures fitting { Fits o.now self.new }
    {
        self.run_into(alloc, o, stop, trace, steps)
    }
}

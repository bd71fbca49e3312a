//! The kernel: its events up to a time.

ghost use Rattle.market_floor.specs.Reaction.{most_posted};
ghost use Rattle.std.specs.Prelude.{◌≡◌, ◌<◌, ◌≤◌, ◌⊎◌, ◌+◌, ◌-◌, ◌^◌, true, false, OnOk, IfOk, IsNone, All, max};
ghost use Rattle.market_types.specs.Timely.{IsTimely};
ghost use Rattle.kernel_core.specs.Due.{due_by, until_time};
ghost use Rattle.kernel_core.specs.Edited.{IsEditOf};
ghost use Rattle.kernel_core.specs.Seen.{afresh, folded};
ghost use Rattle.kernel_core.specs.Step.{Fits, end_of};
ghost use Rattle.kernel_core.specs.Until.{advanced_by};

use crate::keeper::Keeper;
use crate::kernel::Kernel;
use crate::stepped::Stepped;
use market_floor::Opening;
use market_rules::Edit;
use market_types::{End, Memory, Time, Trace};
use outside::{Ledger, Steps};
use std::alloc::Global;

impl Kernel {
    /// Whether the state isn't ended and its next message is due at or before a time, in nanoseconds past midnight.
    pub fn due_by(&self, o: &Opening, when: Time) -> bool
        ensures { result ≡ due_by o.now when self.now }
    {
        match self.next(o) {
            Ok(m) => m.time <= when,
            Err(_) => false,
        }
    }

    // Whether fewer than so many events stand and the next is due at or before a time.
    fn is_due(&self, o: &Opening, when: Time, most: u32) -> bool
        ensures going { result ≡ true → (self.now.events < most) × (due_by o.now when self.now ≡ true) }
        ensures over { result ≡ false → (most ≤ self.now.events) ⊎ (due_by o.now when self.now ≡ false) }
    {
        if self.events() < most {
            self.due_by(o, when)
        } else {
            false
        }
    }

    /// Events while fewer than so many stand and the next is due at or before a time, in nanoseconds past midnight. The answer
    /// is the state's end, if it is ended. A keeper takes each event as it is made.
    ///
    /// # Errors
    /// Want of memory alone. Kernel and counter are then those after the events that were made, and what the keeper took is left
    /// open, unless it is one that refuses nothing.
    pub fn run_into_time<K: Keeper, L: Ledger>(
        &mut self,
        alloc: Global,
        o: &Opening,
        when: Time,
        most: u32,
        keeper: &mut K,
        steps: &mut Steps<L>,
    ) -> Result<Option<End>, Memory>
        requires fits { Fits o.now self.old }
        requires count { steps.old + (most - self.old.events) < 2 ^ 64 }
        ensures answer { IfOk result (λ e. e ≡ end_of o.now self.new) }
        ensures reached { IfOk result (λ e. IsNone e → (most ≤ self.new.events) ⊎ (due_by o.now when self.new ≡ false)) }
        ensures ran { OnOk result (self.new ≡ (until_time o.now when most (afresh self.old)).state) }
        ensures kept { OnOk result (K.told keeper.new ≡ folded K.with (K.told keeper.old) (until_time o.now when most (afresh self.old)).entries) }
        ensures made { self.new ≡ (advanced_by (self.new.events - self.old.events) o.now (afresh self.old)).state }
        ensures made_kept { K.is_sure → K.told keeper.new ≡ folded K.with (K.told keeper.old) (advanced_by (self.new.events - self.old.events) o.now (afresh self.old)).entries }
        ensures timely { All IsTimely (advanced_by (self.new.events - self.old.events) o.now (afresh self.old)).entries }
        ensures ticks { steps.new + self.old.events ≡ steps.old + self.new.events }
        ensures grows { self.old.events ≤ self.new.events }
        ensures within { self.new.events ≤ (until_time o.now when most (afresh self.old)).state.events }
        ensures time { self.old.time ≤ o.now.close → self.new.time ≤ o.now.close }
        ensures offsets { self.new.floor.offsets ≡ self.old.floor.offsets }
        ensures editable { (e : Edit) → IsEditOf self.old e → IsEditOf self.new e }
        ensures drops { self.new.post.dropped ≤ max self.old.post.dropped most_posted }
        ensures fitting { Fits o.now self.new }
    {
        'events: while self.is_due(o, when, most) {
            let Ok(stepped) = self.step_into(alloc, o, keeper, steps) else {
                return Err(Memory);
            };
            match stepped {
                Stepped::Ended(_) => unreachable!(),
                Stepped::Event(_) => {}
            }
        }
        Ok(self.end(o))
    }

    /// Events while fewer than so many stand and the next is due at or before a time, in nanoseconds past midnight. The answer
    /// is the state's end, if it is ended.
    ///
    /// # Errors
    /// Want of memory alone. Kernel, trace and counter are then those after the events that were made.
    pub fn run_until_time<L: Ledger>(
        &mut self,
        alloc: Global,
        o: &Opening,
        when: Time,
        most: u32,
        trace: &mut Trace,
        steps: &mut Steps<L>,
    ) -> Result<Option<End>, Memory>
        requires fits { Fits o.now self.old }
        requires count { steps.old + (most - self.old.events) < 2 ^ 64 }
        ensures answer { IfOk result (λ e. e ≡ end_of o.now self.new) }
        ensures reached { IfOk result (λ e. IsNone e → (most ≤ self.new.events) ⊎ (due_by o.now when self.new ≡ false)) }
        ensures ran { OnOk result (record { state = self.new; entries = trace.new.list } ≡ until_time o.now when most (record { state = self.old; entries = trace.old.list })) }
        ensures made { record { state = self.new; entries = trace.new.list } ≡ advanced_by (self.new.events - self.old.events) o.now (record { state = self.old; entries = trace.old.list }) }
        ensures ticks { steps.new + self.old.events ≡ steps.old + self.new.events }
        ensures grows { self.old.events ≤ self.new.events }
        ensures within { self.new.events ≤ (until_time o.now when most (record { state = self.old; entries = trace.old.list })).state.events }
        ensures time { self.old.time ≤ o.now.close → self.new.time ≤ o.now.close }
        ensures timely { All IsTimely trace.old.list → All IsTimely trace.new.list }
        ensures offsets { self.new.floor.offsets ≡ self.old.floor.offsets }
        ensures editable { (e : Edit) → IsEditOf self.old e → IsEditOf self.new e }
        ensures drops { self.new.post.dropped ≤ max self.old.post.dropped most_posted }
        ensures fitting { Fits o.now self.new }
    {
        self.run_into_time(alloc, o, when, most, trace, steps)
    }
}

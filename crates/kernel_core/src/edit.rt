//! The kernel: the edits of a branch.

ghost use Rattle.std.specs.Prelude.{◌≡◌, ◌<◌, ◌≤◌, ◌+◌, ◌^◌, ℕ, true, All, OnOk, OnErr, IfOk};
ghost use Rattle.market_types.specs.Timely.{AreTimely, IsTimely};
ghost use Rattle.market_rules.specs.EditRanges.{is_near_zero};
ghost use Rattle.latency_model.specs.Tables.{group_count};
ghost use Rattle.market_floor.specs.Edited.{edited_floor};
ghost use Rattle.kernel_core.specs.Edited.{IsEditOf, IsMailEdit, IsTableEdit, changed_by, edited_one, mail_after, tables_after};
ghost use Rattle.kernel_core.specs.Step.{Fits};

use crate::Mail;
use crate::kernel::Kernel;
use crate::mail_laws::mail_stays_sound;
use agent_shell::laws::parameters_stay_those_of_the_kind;
use latency_model::Groups;
use market_floor::Opening;
use market_rules::Edit;
use market_types::{EditMark, Entry, FeedList, Memory, Time, Trace};
use std::alloc::Global;

// An edit of the latencies of a pair replaces its numbers.
fn edit_tables(groups: &mut Groups, edit: &Edit)
    requires { IsTableEdit (group_count groups.old) edit.now }
    ensures tables { groups.new ≡ tables_after edit.now groups.old }
    ensures groups { group_count groups.new ≡ group_count groups.old }
{
    if let Edit::Latency {
        from,
        to,
        base,
        jitter,
    } = edit
    {
        groups.set(*from, *to, *base, *jitter);
    }
}

// An edit that injects an order at a time.
fn edit_mail(mail: &mut Mail, time: Time, edit: &Edit)
    requires edit { IsMailEdit 511 edit.now }
    requires time { time < 2 ^ 62 }
    requires numbers { mail.old.next_seq < 2 ^ 48 }
    requires drops { mail.old.dropped < 2 ^ 63 }
    ensures { mail.new ≡ mail_after time edit.now mail.old }
{
    if let Edit::Inject {
        agent,
        after,
        message,
    } = edit
    {
        mail.inject(*agent, time + *after, *message);
    }
}

impl Kernel {
    // An edit of the state, and its feed.
    fn change(&mut self, alloc: Global, edit: &Edit) -> Result<FeedList, Memory>
        requires edit { IsEditOf self.old edit.now }
        requires drops { self.old.post.dropped < 2 ^ 63 }
        requires offsets { All (λ n. is_near_zero (2 ^ 62) n ≡ true) self.old.floor.offsets }
        ensures state { OnOk result (self.new ≡ changed_by self.old edit.now) }
        ensures feed { IfOk result (λ l. l.list ≡ (edited_floor self.old.time edit.now self.old.floor).feed) }
        ensures timely { IfOk result (λ l. AreTimely l.list) }
        ensures fitting { (o : Opening) → Fits o self.old → Fits o self.new }
        ensures refused { OnErr result (self.new ≡ self.old) }
    {
        mail_stays_sound();
        let Ok(feed) = self.floor.edit(alloc, self.time, edit) else {
            return Err(Memory);
        };
        edit_tables(&mut self.groups, edit);
        edit_mail(&mut self.mail, self.time, edit);
        Ok(feed)
    }

    /// One edit of a branch, of this index among its edits: its mark joins the trace. It is no event.
    ///
    /// # Errors
    /// Want of memory alone. The kernel is then as it was, and so are the trace's entries (its kept places may have grown).
    pub fn apply(
        &mut self,
        alloc: Global,
        o: &Opening,
        edit: &Edit,
        branch: u16,
        index: u16,
        trace: &mut Trace,
    ) -> Result<(), Memory>
        requires fits { Fits o.now self.old }
        requires edit { IsEditOf self.old edit.now }
        requires drops { self.old.post.dropped < 2 ^ 63 }
        requires offsets { All (λ n. is_near_zero (2 ^ 62) n ≡ true) self.old.floor.offsets }
        ensures made { OnOk result (record { state = self.new; entries = trace.new.list } ≡ edited_one branch index edit.now (record { state = self.old; entries = trace.old.list })) }
        ensures events { self.new.events ≡ self.old.events }
        ensures time { self.new.time ≡ self.old.time }
        ensures fitting { Fits o.now self.new }
        ensures offsets { (far : ℕ) → All (λ n. is_near_zero far n ≡ true) self.old.floor.offsets → All (λ n. is_near_zero (far + 2000000000) n ≡ true) self.new.floor.offsets }
        ensures editable { (e : Edit) → IsEditOf self.old e → IsEditOf self.new e }
        ensures dropped { self.new.post.dropped ≤ self.old.post.dropped + 1 }
        ensures timely { All IsTimely trace.old.list → All IsTimely trace.new.list }
        ensures kernel_refused { OnErr result (self.new ≡ self.old) }
        ensures trace_refused { OnErr result (trace.new.list ≡ trace.old.list) }
    {
        parameters_stay_those_of_the_kind();
        let _o = o;
        let Ok(()) = trace.reserve(1) else {
            return Err(Memory);
        };
        let Ok(feed) = self.change(alloc, edit) else {
            return Err(Memory);
        };
        trace.put(Entry::Edit(EditMark {
            events: self.events,
            time: self.time,
            branch,
            index,
            letter: edit.letter(),
            feed,
        }));
        Ok(())
    }
}

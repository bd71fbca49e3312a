//! Who takes the events of a run as they are made.

ghost use Rattle.std.specs.Prelude.{◌≡◌, IsOk, OnOk};
ghost use Rattle.market_types.specs.Timely.{AreTimely};
ghost use Rattle.kernel_core.specs.Seen.{seen_told};

use market_types::{AgentNo, Body, FeedList, Memory, Time};
use std::alloc::Global;

/// An event, told where its message stands: all of it but its feeds.
#[derive(Clone, Copy)]
pub struct EventSeen<'a> {
    /// The event's number, from 1.
    pub number: u32,
    /// The time of the event in nanoseconds past midnight.
    pub time: Time,
    /// The sequence number of the message.
    pub seq: u64,
    pub from: AgentNo,
    pub to: AgentNo,
    /// Whether the message was put back.
    pub put_back: bool,
    /// The receiver's own time after the event, in nanoseconds past midnight.
    pub until: Time,
    /// The sum of the fees that the event took, in millionths of a dollar.
    pub fee: i64,
    pub body: &'a Body,
}

/// Takes each event of a run as it is made.
pub trait Keeper {
    ghost use Rattle.market_types.specs.Told.{EventTold};

    /// What can be said of all that was taken.
    ghost Told: { Type 0 };

    /// What was taken so far.
    ghost told: { Self → Told };

    /// What was taken once one event more came.
    ghost with: { Told → EventTold → Told };

    /// Room was made for an event.
    ghost ready: { Self → Type 0 };

    /// Once room was made, an event is never refused.
    ghost is_sure: { Type 0 };

    /// Makes room for one event.
    ///
    /// # Errors
    /// Want of memory alone.
    fn room(&mut self) -> Result<(), Memory>
        ensures same { told self.new ≡ told self.old }
        ensures made { OnOk result (ready self.new) };

    /// Takes an event, with the feed of the dated changes before it and its own. What the two lists hold afterwards is left
    /// open.
    ///
    /// # Errors
    /// Want of memory alone. What was taken is then left open.
    fn event(
        &mut self,
        alloc: Global,
        seen: &EventSeen,
        before: &mut FeedList,
        after: &mut FeedList,
    ) -> Result<(), Memory>
        requires room { ready self.old }
        requires before_timely { AreTimely before.old.list }
        requires after_timely { AreTimely after.old.list }
        ensures taken { OnOk result (told self.new ≡ with (told self.old) (seen_told seen.now before.old.list after.old.list)) }
        ensures sure { is_sure → IsOk result };
}

//! One event, and a list of events from the opening system.

ghost use Rattle.std.specs.Prelude.{◌≡◌, ◌+◌, ◌-◌, ◌<◌, ◌≤◌, ◌^◌, All, IfOk, OnErr, IsTrue, IsFalse, length};
ghost use Rattle.shelf_core.specs.Possible.{possible};
ghost use Rattle.shelf_core.specs.After.{opening, after, left_by};
ghost use Rattle.shelf_core.specs.Orderly.{Orderly, IsSmall, IsSmallEvent};
ghost use Rattle.shelf_core.specs.Law.{Keeps, Law};

use crate::{Event, SeatView, System};
use plain_lists::{Memory, Sequence};
use std::alloc::Global;

impl System {
    /// The opening system: nothing is laid, and there is one seat, number 0.
    ///
    /// # Errors
    /// `Memory`.
    pub fn opening(alloc: Global) -> Result<System, Memory>
        ensures opening { IfOk result (λ s. s ≡ opening) }
        ensures orderly { IfOk result (λ s. Orderly s) }
    {
        let Ok(view) = SeatView::new(alloc, 0) else {
            return Err(Memory);
        };
        let mut views = Sequence::empty(alloc);
        let Ok(()) = views.push(view) else {
            drop(views);
            return Err(Memory);
        };
        Ok(System {
            plan: None,
            claims: Sequence::empty(alloc),
            places: Sequence::empty(alloc),
            home: Sequence::empty(alloc),
            done: 0,
            stopped: false,
            views,
        })
    }
}

/// Makes an event where it is possible, and answers whether it is. An event that isn't possible changes nothing.
///
/// # Errors
/// `Memory`: the system is then unchanged.
pub fn step(alloc: Global, s: &mut System, e: &Event) -> Result<bool, Memory>
    requires orderly { Orderly s.old }
    requires small { IsSmall s.old.plan }
    requires small_event { IsSmallEvent e.now }
    requires seats { length s.old.views < 2 ^ 32 - 1 }
    ensures answer { IfOk result (λ answer. answer ≡ possible s.old e.now) }
    ensures made { IfOk result (λ answer. IsTrue answer → s.new ≡ after s.old e.now) }
    ensures not_made { IfOk result (λ answer. IsFalse answer → s.new ≡ s.old) }
    ensures refused { OnErr result (s.new ≡ s.old) }

    // What the law says of one event, and what the next step asks.
    ensures stays_orderly { Orderly s.new }
    ensures keeps { Keeps s.old s.new }
    ensures stays_small { IsSmall s.new.plan }
    ensures one_more { length s.new.views ≤ length s.old.views + 1 }
{
    if !s.is_possible(e) {
        return Ok(false);
    }
    s.apply(alloc, e)?;
    Ok(true)
}

/// The system that a list of events leaves of the opening one.
///
/// # Errors
/// `Memory`.
pub fn law(alloc: Global, events: &[Event]) -> Result<System, Memory>
    requires small { All IsSmallEvent events.now }
    requires few { length events.now < 2 ^ 32 - 2 }
    ensures left { IfOk result (λ s. s ≡ left_by events.now) }

    // The law holds of each prefix of the list, whatever the answer.
    ensures law { Law events.now }
{
    let mut s = System::opening(alloc)?;
    for event in events {
        let Ok(_made) = step(alloc, &mut s, event) else {
            drop(s);
            return Err(Memory);
        };
    }
    Ok(s)
}

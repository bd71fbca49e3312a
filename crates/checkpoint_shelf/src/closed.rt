//! A shelf that no thread shares any more.

ghost use Rattle.std.specs.Prelude.{◌≡◌};

use crate::about::Held;
use crate::shelved::Shelved;
use crate::steps::{Inner, InnerSeat};
use atomic_table::Closed;
use shelf_core::ShelfPlan;
use std::alloc::Global;
use std::marker::Model;
use std::snapshot::Snapshot;

/// A closed shelf. Contracts see what it was laid out for, and the system that it was when it was closed.
pub struct ClosedShelf<C: Shelved> {
    pub(crate) closed: Closed<Held<C>, Global>,
    pub(crate) plan: ShelfPlan,
    pub(crate) told: Snapshot<Inner<C>>,
    pub(crate) last: Snapshot<InnerSeat<C>>,
}

impl<C: Shelved> Model for ClosedShelf<C> {
    ghost use Rattle.std.specs.Prelude.{◌≡◌};
    ghost use Rattle.std.specs.Mem.Slots.{slots_items, IsFull};
    ghost use Rattle.checkpoint_shelf.specs.Told.{ClosedTold};
    ghost use Rattle.checkpoint_shelf.specs.Closing.{closed_system, IsClosed};

    ghost Value = { ClosedTold C.Course };

    ghost view = { λ s. record { plan = s.told.value.key.plan; course = s.told.value.key.course.value; system = closed_system s.told.value.key.plan s.told.value.key.seats (slots_items s.closed.words) s.last.value.me.0.seen } };

    ghost invariant = { λ s. (s.told.value.key.plan ≡ s.plan) × IsFull s.closed.words × IsFull s.closed.slots × IsClosed C.key_of C.course_of s.told.value.key (slots_items s.closed.words) (slots_items s.closed.slots) s.last.value.me.0.seen };
}

impl<C: Shelved> ClosedShelf<C> {
    /// What it was laid out for.
    pub fn plan(&self) -> &ShelfPlan
        ensures { result.now ≡ self.now.plan }
    {
        &self.plan
    }
}

impl<C: Shelved + Drop> Drop for ClosedShelf<C> {
    fn drop(self) {
        let ClosedShelf {
            mut closed,
            plan: _,
            told: _,
            last: _,
        } = self;
        let mut i = 0;
        while i < closed.slot_count() {
            drop(closed.take(i));
            i += 1;
        }
        closed.free();
    }
}

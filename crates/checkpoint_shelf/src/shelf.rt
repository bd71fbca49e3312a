//! The shelf that seats share.

use crate::about::{About, Held, View};
use crate::law::Law;
use crate::shelved::Shelved;
use atomic_table::Table;
use shelf_core::ShelfPlan;
use std::alloc::Global;
use std::marker::Model;

/// The shelf. Contracts see which one it is and what it was laid out for.
#[derive(Drop)]
pub struct Shelf<C: Shelved> {
    pub(crate) table: Table<Held<C>, View<C>, About<C>, Law<C>, Global>,
    pub(crate) plan: ShelfPlan,
}

impl<C: Shelved> Model for Shelf<C> {
    ghost use Rattle.std.specs.Prelude.{◌≡◌, ◌+◌};
    ghost use Rattle.shelf_core.specs.Plan.{place_count};
    ghost use Rattle.checkpoint_shelf.specs.Told.{ShelfTold, told_of};
    ghost use Rattle.checkpoint_shelf.specs.Holds.{AboutFits};

    ghost Value = { ShelfTold C.Course };

    ghost view = { λ s. told_of s.table.shared.table_id s.table.shared.key };

    ghost invariant = { λ s. (s.table.shared.key.plan ≡ s.plan) × AboutFits s.table.shared.key × (s.table.shared.table_id.words ≡ 1 + place_count s.table.shared.key.plan + s.table.shared.key.plan.segments) × (s.table.shared.table_id.slots ≡ place_count s.table.shared.key.plan) };
}

//! A shelf is closed.

ghost use Rattle.std.specs.Prelude.{◌≡◌, ℕ, ◌+◌, ◌-◌, ◌<◌, [], ◌∷◌, length, map, replicate, true, false, Some};
ghost use Rattle.shelf_core.specs.Plan.{place_count};
ghost use Rattle.shelf_core.specs.Views.{spent_view};
ghost use Rattle.shelf_core.specs.Orderly.{Orderly};
ghost use Rattle.shelf_core.specs.Settled.{IsSettled};
ghost use Rattle.checkpoint_shelf.specs.Holds.{AboutFits, IsSeat, both};
ghost use Rattle.checkpoint_shelf.specs.Told.{told_of};
ghost use Rattle.checkpoint_shelf.specs.Seats.{AllBack, AreLater, all_in, gathered};

use crate::about::{About, Held, View};
use crate::closed::ClosedShelf;
use crate::law::{Law, Meets};
use crate::seat::ShelfSeat;
use crate::shelf::Shelf;
use crate::shelved::Shelved;
use crate::steps::{Inner, InnerSeat};
use atomic_table::Table;
use shelf_core::ShelfPlan;
use std::alloc::Global;
use std::snapshot::Snapshot;

// The first seat takes in another.
fn meet<C: Shelved>(table: &Inner<C>, first: &mut InnerSeat<C>, number: u32, other: InnerSeat<C>)
    requires words { 0 < table.now.table_id.words }
    requires table { first.old.table_id ≡ table.now.table_id }
    requires others { other.table_id ≡ table.now.table_id }
    requires leads { first.old.me.0.leads ≡ true }
    requires other { IsSeat table.now.key number other.me }
    requires later { 0 < number }
    requires bare { other.me.0.seen.turns ≡ [] }
    ensures table { first.new.table_id ≡ first.old.table_id }
    ensures first { first.new.me ≡ (both first.old.me.0 other.me.0, first.old.me.1) }
{
    let _ = number;
    table.join_seat::<Meets<C>>(first, other);
}

// The shelf without its table's threads.
fn seal<C: Shelved>(
    table: Table<Held<C>, View<C>, About<C>, Law<C>, Global>,
    plan: ShelfPlan,
    first: InnerSeat<C>,
) -> ClosedShelf<C>
    requires plan { table.shared.key.plan ≡ plan }
    requires fits { AboutFits table.shared.key }
    requires slots { table.shared.table_id.slots ≡ place_count table.shared.key.plan }
    requires table { first.table_id ≡ table.shared.table_id }
    requires leads { first.me.0.leads ≡ true }
    requires made { first.me.0.made ≡ table.shared.key.seats }
    requires met { first.me.0.met + 1 ≡ table.shared.key.seats }
    ensures about { (result.plan ≡ table.shared.key.plan) × (result.course ≡ table.shared.key.course.value) }
    ensures plan { result.system.plan ≡ Some table.shared.key.plan }
    ensures views { result.system.views ≡ first.me.0.seen ∷ replicate (table.shared.key.seats - 1) spent_view }
    ensures orderly { Orderly result.system }
{
    let told = Snapshot::of(&table.shared);
    let last = Snapshot::of(&first);
    let closed = table.close_with(first);
    ClosedShelf {
        closed,
        plan,
        told,
        last,
    }
}

// The first seat takes in all others.
fn gather<C: Shelved>(table: &Inner<C>, first: &mut InnerSeat<C>, mut others: Vec<ShelfSeat<C>>)
    requires words { 0 < table.now.table_id.words }
    requires table { first.old.table_id ≡ table.now.table_id }
    requires leads { first.old.me.0.leads ≡ true }
    requires others { AreLater (told_of table.now.table_id table.now.key) others.items }
    ensures table { first.new.table_id ≡ first.old.table_id }
    ensures seen { first.new.me.0.seen ≡ gathered first.old.me.0.seen (map (λ s. s.view) others.items) }
    ensures leads { first.new.me.0.leads ≡ true }
    ensures made { first.new.me.0.made ≡ first.old.me.0.made }
    ensures met { first.new.me.0.met ≡ first.old.me.0.met + length others.items }
{
    while let Some(seat) = others.pop() {
        let ShelfSeat { seat, number } = seat;
        meet(table, first, number, seat);
    }
    others.destroy_empty();
}

impl<C: Shelved> Shelf<C> {
    /// Closes the shelf, once all its seats are handed back.
    pub fn close(self, mut seats: Vec<ShelfSeat<C>>) -> ClosedShelf<C>
        requires { AllBack self seats.items }
        ensures about { (result.plan ≡ self.plan) × (result.course ≡ self.course) }

        // The system that the shelf was: the first seat took in all others.
        ensures plan { result.system.plan ≡ Some self.plan }
        ensures views { result.system.views ≡ all_in (map (λ s. s.view) seats.items) ∷ replicate (self.seats - 1) spent_view }
        ensures orderly { Orderly result.system }

        // No seat is at work any more: each place is Free or Ready, all claims are the joined seat's, and the done number is its count.
        ensures settled { IsSettled result.system (all_in (map (λ s. s.view) seats.items)) }
    {
        let Shelf { table, plan } = self;
        let first = seats.remove(0);
        let ShelfSeat {
            seat: mut first,
            number: _,
        } = first;
        gather(&table.shared, &mut first, seats);
        seal(table, plan, first)
    }
}

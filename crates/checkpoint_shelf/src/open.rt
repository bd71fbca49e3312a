//! A shelf is laid out, and its seats are made.

ghost use Rattle.std.specs.Prelude.{◌≡◌, ℕ, ◌+◌, ◌<◌, ◌≤◌, ◌^◌, length, [], ◌∷◌, ◌++◌, IfOk, OnOk, All, Some};
ghost use Rattle.shelf_core.specs.Plan.{place_count};
ghost use Rattle.checkpoint_shelf.specs.Plans.{PlanFits, SeatsFit};
ghost use Rattle.checkpoint_shelf.specs.Holds.{AboutFits, led, follower};
ghost use Rattle.checkpoint_shelf.specs.Seats.{NewFrom};
ghost use Rattle.checkpoint_shelf.specs.Told.{told_of};

use crate::about::About;
use crate::law::Cuts;
use crate::seat::ShelfSeat;
use crate::shelf::Shelf;
use crate::shelved::Shelved;
use crate::steps::{Inner, InnerSeat};
use atomic_table::Table;
use plain_lists::Memory;
use shelf_core::ShelfPlan;
use std::alloc::Global;
use std::snapshot::Snapshot;

// Another seat, which the first seat makes.
fn cut<C: Shelved>(table: &Inner<C>, first: &mut InnerSeat<C>, number: u32) -> InnerSeat<C>
    requires words { 0 < table.now.table_id.words }
    requires table { first.old.table_id ≡ table.now.table_id }
    requires first { first.old.me ≡ (led table.now.key number, []) }
    requires more { number < table.now.key.seats }
    ensures table { first.new.table_id ≡ first.old.table_id }
    ensures first { first.new.me ≡ (led table.now.key (number + 1), []) }
    ensures new { (result.table_id ≡ first.old.table_id) × (result.me ≡ (follower table.now.key number, [])) }
{
    let _ = number;
    table.split_seat::<Cuts<C>>(first)
}

// A shelf with its table, and the first seat.
fn lay<C: Shelved + Drop>(
    alloc: Global,
    about: About<C>,
) -> Result<(Shelf<C>, InnerSeat<C>), Memory>
    requires fits { AboutFits about }
    ensures shelf { IfOk result (λ r. (r.0.plan ≡ about.plan) × (r.0.seats ≡ about.seats) × (r.0.course ≡ about.course.value)) }
    ensures seat { IfOk result (λ r. (r.1.table_id ≡ r.0.table) × (r.1.me ≡ (led about 1, []))) }
{
    let count = about.plan.forks.len() + about.plan.places as usize;
    let Ok(words) = Vec::from_elem(alloc, 0u64, 1 + count + about.plan.segments as usize) else {
        drop(about);
        return Err(Memory);
    };
    match Table::vacant(alloc, words.as_slice(), count, &about) {
        Err(_) => {
            drop(words);
            drop(about);
            Err(Memory)
        }
        Ok((table, seat)) => {
            drop(words);
            let About {
                plan,
                seats: _,
                course: _,
            } = about;
            Ok((Shelf { table, plan }, seat))
        }
    }
}

// Puts a seat behind others.
fn keep<C: Shelved>(all: &mut Vec<ShelfSeat<C>>, seat: ShelfSeat<C>) -> Result<(), Memory>
    ensures { OnOk result (all.new.items ≡ all.old.items ++ seat ∷ []) }
{
    match all.push(seat) {
        Ok(()) => Ok(()),
        Err(_) => Err(Memory),
    }
}

// Puts a seat before others.
fn keep_first<C: Shelved>(all: &mut Vec<ShelfSeat<C>>, seat: ShelfSeat<C>) -> Result<(), Memory>
    ensures { OnOk result (all.new.items ≡ seat ∷ all.old.items) }
{
    match all.insert(0, seat) {
        Ok(()) => Ok(()),
        Err(_) => Err(Memory),
    }
}

// The seats of a table, by the first of them, in the order of their numbers.
fn seated<C: Shelved>(
    alloc: Global,
    table: &Inner<C>,
    mut first: InnerSeat<C>,
    seats: u32,
) -> Result<Vec<ShelfSeat<C>>, Memory>
    requires words { 0 < table.now.table_id.words }
    requires fits { AboutFits table.now.key }
    requires seats { seats ≡ table.now.key.seats }
    requires table { first.table_id ≡ table.now.table_id }
    requires first { first.me ≡ (led table.now.key 1, []) }
    ensures count { IfOk result (λ r. length r.items ≡ seats) }
    ensures each { IfOk result (λ r. NewFrom (told_of table.now.table_id table.now.key) 0 r.items) }
{
    let mut all = Vec::new(alloc);
    for number in 1..seats {
        let seat = cut(table, &mut first, number);
        let Ok(()) = keep(&mut all, ShelfSeat { seat, number }) else {
            drop(all);
            drop(first);
            return Err(Memory);
        };
    }
    let seat = ShelfSeat {
        seat: first,
        number: 0,
    };
    let Ok(()) = keep_first(&mut all, seat) else {
        drop(all);
        return Err(Memory);
    };
    Ok(all)
}

impl<C: Shelved + Drop> Shelf<C> {
    /// A shelf that is laid out for a plan, and its seats, in the order of their numbers.
    ///
    /// # Errors
    /// `Memory`.
    pub fn open(
        alloc: Global,
        course: &C::Course,
        plan: ShelfPlan,
        seats: u32,
    ) -> Result<(Shelf<C>, Vec<ShelfSeat<C>>), Memory>
        requires plan { PlanFits plan }
        requires seats { SeatsFit seats }
        ensures shelf { IfOk result (λ r. (r.0.plan ≡ plan) × (r.0.seats ≡ seats) × (r.0.course ≡ course.now)) }
        ensures count { IfOk result (λ r. length r.1.items ≡ seats) }
        ensures seats { IfOk result (λ r. NewFrom r.0 0 r.1.items) }
        ensures each { IfOk result (λ r. All (λ seat. seat.shelf ≡ Some r.0) r.1.items) }
    {
        let about = About {
            plan,
            seats,
            course: Snapshot::of(course),
        };
        let (shelf, first) = lay(alloc, about)?;
        let Ok(all) = seated(alloc, &shelf.table.shared, first, seats) else {
            drop(shelf);
            return Err(Memory);
        };
        Ok((shelf, all))
    }
}

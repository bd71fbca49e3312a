//! Plans and seats for the tests.

ghost use Rattle.std.specs.Prelude.{◌≡◌, ◌<◌, ◌+◌, IfOk, IfSome, IsFalse, IsSome, IsTrue, Some, length, []};
ghost use Rattle.std.specs.Arc.{arc_value};
ghost use Rattle.shelf_core.specs.Plan.{place_of};
ghost use Rattle.shelf_core.specs.Views.{new_view, times};
ghost use Rattle.shelf_core.specs.Made.{Stays};
ghost use Rattle.checkpoint_shelf.specs.Plans.{PlanFits};
ghost use Rattle.checkpoint_shelf.specs.Seats.{NewFrom};

use super::Item;
use checkpoint_shelf::{Begun, Key, PlaceWord, Shelf, ShelfPlan, ShelfSeat};
use plain_lists::{Memory, Sequence, copied};
use std::alloc::Global;
use std::process::Abort;
use std::sync::Arc;

pub(super) const FORK: Key = Key {
    segment: 0,
    event: 2,
};

// Five segments, of which the first is forked at event 2.
fn fork_plan(alloc: Global) -> Result<ShelfPlan, Memory>
    ensures fits { IfOk result (λ plan. PlanFits plan) }
    ensures segments { IfOk result (λ plan. plan.segments ≡ 5) }
{
    let forks = copied(alloc, &[FORK])?;
    Ok(ShelfPlan {
        segments: 5,
        forks: Sequence::new(forks),
        grid: Sequence::empty(alloc),
        places: 0,
    })
}

// The two seats of a new shelf.
fn two_new(
    shelf: &Shelf<Item>,
    mut seats: Vec<ShelfSeat<Item>>,
) -> Option<(ShelfSeat<Item>, ShelfSeat<Item>)>
    requires new { NewFrom shelf.now 0 seats.items }
    requires two { length seats.items ≡ 2 }
    ensures zero { IfSome result (λ both. (both.0.shelf ≡ Some shelf.now) × (both.0.view ≡ new_view 0)) }
    ensures one { IfSome result (λ both. (both.1.shelf ≡ Some shelf.now) × (both.1.view ≡ new_view 1)) }
{
    let _ = shelf;
    let Some(one) = seats.pop() else { return None };
    let Some(zero) = seats.pop() else { return None };
    Some((zero, one))
}

// A new shelf of course 7, and its two seats.
pub(super) fn opened(
    rt: &impl Abort,
    alloc: Global,
    plan: ShelfPlan,
) -> (Shelf<Item>, ShelfSeat<Item>, ShelfSeat<Item>)
    requires fits { PlanFits plan }
    ensures shelf { (result.0.plan ≡ plan) × (result.0.seats ≡ 2) × (result.0.course ≡ 7) }
    ensures zero { (result.1.shelf ≡ Some result.0) × (result.1.view ≡ new_view 0) }
    ensures one { (result.2.shelf ≡ Some result.0) × (result.2.view ≡ new_view 1) }
{
    let (shelf, seats) = Shelf::<Item>::open(alloc, &7, plan, 2).expect(rt, "memory");
    let (zero, one) = two_new(&shelf, seats).expect(rt, "two seats");
    (shelf, zero, one)
}

// The same of five segments, of which the first is forked.
pub(super) fn fork_shelf(
    rt: &impl Abort,
    alloc: Global,
) -> (Shelf<Item>, ShelfSeat<Item>, ShelfSeat<Item>)
    ensures shelf { (result.0.plan.segments ≡ 5) × (result.0.seats ≡ 2) × (result.0.course ≡ 7) }
    ensures zero { (result.1.shelf ≡ Some result.0) × (result.1.view ≡ new_view 0) }
    ensures one { (result.2.shelf ≡ Some result.0) × (result.2.view ≡ new_view 1) }
{
    let plan = fork_plan(alloc).expect(rt, "memory");
    opened(rt, alloc, plan)
}

// A value of a key for a shelf of course 7, or none.
pub(super) fn value_of(alloc: Global, k: Key, is_there: bool) -> Result<Option<Arc<Item>>, Memory>
    ensures { IfOk result (λ value. IfSome value (λ a. ((arc_value a).key ≡ k) × ((arc_value a).course ≡ 7))) }
{
    if !is_there {
        return Ok(None);
    }
    Ok(Some(Arc::new(alloc, Item { key: k, course: 7 })?))
}

// Claims a segment.
#[tactic(auto, using(checkpoint_shelf::proofs::Trials::can_count))]
pub(super) fn claimed(shelf: &Shelf<Item>, seat: &mut ShelfSeat<Item>, segment: u32) -> bool
    requires seat { seat.old.shelf ≡ Some shelf.now }
    requires segment { segment < shelf.now.plan.segments }
    ensures same { seat.new.shelf ≡ seat.old.shelf }
    ensures numbers { seat.new.view.numbers ≡ seat.old.view.numbers }
    ensures turns { seat.new.view.turns ≡ seat.old.view.turns }
    ensures mine { IsTrue result → 0 < times segment seat.new.view.claims }
    ensures more { IsTrue result → seat.new.view.counts < length seat.new.view.claims }
    ensures counts { seat.new.view.counts ≡ seat.old.view.counts }
    ensures one { IsTrue result → length seat.new.view.claims ≡ length seat.old.view.claims + 1 }
    ensures none { IsFalse result → seat.new.view.claims ≡ seat.old.view.claims }
{
    shelf.claim(seat, segment)
}

// Begins at the place of a key, and spends the turn: with a value, or with none. Whether there was a turn.
pub(super) fn fill(
    shelf: &Shelf<Item>,
    seat: &mut ShelfSeat<Item>,
    k: Key,
    value: Option<Arc<Item>>,
) -> bool
    requires seat { seat.old.shelf ≡ Some shelf.now }
    requires claim { 0 < times k.segment seat.old.view.claims }
    requires place { IsSome (place_of shelf.now.plan k) }
    requires value { IfSome value (λ a. ((arc_value a).key ≡ k) × ((arc_value a).course ≡ shelf.now.course)) }
    ensures same { seat.new.shelf ≡ seat.old.shelf }
    ensures stays { Stays seat.old.view seat.new.view }
    ensures turns { seat.new.view.turns ≡ seat.old.view.turns }
{
    match shelf.begin(seat, k) {
        Begun::Taken(_) => false,
        Begun::Turn(turn) => {
            match value {
                Some(value) => shelf.publish(seat, turn, value),
                None => shelf.abandon(seat, turn),
            }
            true
        }
    }
}

// The word at which `begin` of a key gives no turn; a turn is spent with no value.
pub(super) fn refusal(shelf: &Shelf<Item>, seat: &mut ShelfSeat<Item>, k: Key) -> Option<PlaceWord>
    requires seat { seat.old.shelf ≡ Some shelf.now }
    requires claim { 0 < times k.segment seat.old.view.claims }
    requires place { IsSome (place_of shelf.now.plan k) }
    ensures same { seat.new.shelf ≡ seat.old.shelf }
    ensures stays { Stays seat.old.view seat.new.view }
    ensures turns { seat.new.view.turns ≡ seat.old.view.turns }
{
    match shelf.begin(seat, k) {
        Begun::Taken(word) => Some(word),
        Begun::Turn(turn) => {
            shelf.abandon(seat, turn);
            None
        }
    }
}

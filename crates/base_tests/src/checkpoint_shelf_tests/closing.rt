//! A shelf that is closed.

ghost use Rattle.std.specs.Prelude.{◌≡◌, ◌<◌, IfSome, IsSome, Some, []};
ghost use Rattle.std.specs.Arc.{arc_value};
ghost use Rattle.shelf_core.specs.Views.{new_view};

use super::Item;
use super::seats::{FORK, claimed, fill, fork_shelf, value_of};
use crate::facts::equal;
use checkpoint_shelf::{ClosedShelf, Key, Shelf, ShelfSeat};
use std::alloc::Global;
use std::process::Abort;
use std::sync::Arc;

// A seat claims a segment and spends the turn of a key of it, with a value or with none.
fn spend(shelf: &Shelf<Item>, seat: &mut ShelfSeat<Item>, k: Key, value: Option<Arc<Item>>) -> bool
    requires seat { seat.old.shelf ≡ Some shelf.now }
    requires segment { k.segment < shelf.now.plan.segments }
    requires value { IfSome value (λ a. ((arc_value a).key ≡ k) × ((arc_value a).course ≡ shelf.now.course)) }
    ensures same { seat.new.shelf ≡ seat.old.shelf }
    ensures numbers { seat.new.view.numbers ≡ seat.old.view.numbers }
    ensures turns { seat.new.view.turns ≡ seat.old.view.turns }
{
    if shelf.place_of(k).is_none() || !claimed(shelf, seat, k.segment) {
        return false;
    }
    fill(shelf, seat, k, value)
}

// A shelf is closed, once two seats handed it back.
pub(super) fn closed(
    rt: &impl Abort,
    alloc: Global,
    shelf: Shelf<Item>,
    zero: ShelfSeat<Item>,
    one: ShelfSeat<Item>,
) -> ClosedShelf<Item>
    requires two { shelf.seats ≡ 2 }
    requires zero { (zero.shelf ≡ Some shelf) × (zero.view.numbers ≡ (new_view 0).numbers) × (zero.view.turns ≡ []) }
    requires one { (one.shelf ≡ Some shelf) × (one.view.numbers ≡ (new_view 1).numbers) × (one.view.turns ≡ []) }
{
    let mut seats = Vec::new(alloc);
    seats.push(zero).expect(rt, "memory");
    seats.push(one).expect(rt, "memory");
    shelf.close(seats)
}

// Whether the turn of a fork was got and spent, with a value or with none, and the value is there at the end.
fn closed_fork(rt: &impl Abort, alloc: Global, with_value: bool) -> (bool, bool) {
    let value = value_of(alloc, FORK, with_value).expect(rt, "memory");
    let (shelf, mut zero, one) = fork_shelf(rt, alloc);
    let spent = spend(&shelf, &mut zero, FORK, value);
    let closed = closed(rt, alloc, shelf, zero, one);
    let is_there = closed.get(FORK).is_some();
    drop(closed);
    (spent, is_there)
}

#[test]
fn a_closed_shelf_has_what_was_published(rt: HostRuntime) {
    equal(&rt, closed_fork(&rt, rt.alloc(), true), (true, true));
    equal(&rt, closed_fork(&rt, rt.alloc(), false), (true, false));
}

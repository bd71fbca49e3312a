//! A turn that is spent without a value.

ghost use Rattle.std.specs.Prelude.{◌≡◌, ◌<◌, IsSome, Some, length};
ghost use Rattle.shelf_core.specs.Plan.{place_of};
ghost use Rattle.shelf_core.specs.Views.{times};

use super::seats::{FORK, claimed, fill, fork_shelf};
use super::{Item, is_not_yet};
use crate::facts::{equal, holds};
use checkpoint_shelf::{Key, PlaceWord, Progress, Shelf, ShelfSeat};

// A seat abandons its turn, another finds the place free, and the first gets the turn again and counts the segment; the
// other sets the stop bit.
fn abandoned(
    shelf: &Shelf<Item>,
    zero: &mut ShelfSeat<Item>,
    one: &mut ShelfSeat<Item>,
    k: Key,
) -> (bool, bool, bool, Progress)
    requires zero { zero.old.shelf ≡ Some shelf.now }
    requires one { one.old.shelf ≡ Some shelf.now }
    requires claim { 0 < times k.segment zero.old.view.claims }
    requires more { zero.old.view.counts < length zero.old.view.claims }
    requires place { IsSome (place_of shelf.now.plan k) }
{
    let first = fill(shelf, zero, k, None);
    let free = is_not_yet(shelf.find(one, k), PlaceWord::Free);
    let again = fill(shelf, zero, k, None);
    shelf.count(zero);
    shelf.stop(one);
    (first, free, again, shelf.progress(zero))
}

#[test]
fn an_abandoned_turn_leaves_the_place_free(rt: HostRuntime) {
    let (shelf, mut zero, mut one) = fork_shelf(&rt, rt.alloc());
    assert!(rt; shelf.place_of(FORK).is_some());
    assert!(rt; claimed(&shelf, &mut zero, FORK.segment));
    let (first, free, again, progress) = abandoned(&shelf, &mut zero, &mut one, FORK);
    drop(one);
    drop(zero);
    drop(shelf);
    let expected = Progress {
        done: 1,
        stopped: true,
    };
    holds(&rt, first && free && again);
    equal(&rt, progress, expected);
}

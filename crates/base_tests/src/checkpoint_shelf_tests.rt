//! Two seats at one fork.

mod abandoned;
mod closing;
mod hammer;
mod seats;

ghost use Rattle.std.specs.Prelude.{◌≡◌, ◌<◌, IsSome, Some};
ghost use Rattle.std.specs.Arc.{arc_value};
ghost use Rattle.shelf_core.specs.Plan.{place_of};
ghost use Rattle.shelf_core.specs.Views.{times};

use self::seats::{FORK, claimed, fork_shelf, refusal};
use crate::facts::holds;
use checkpoint_shelf::{Begun, Found, Key, PlaceWord, Shelf, ShelfSeat, Shelved};
use plain_lists::Memory;
use std::process::Abort;
use std::sync::Arc;

// A value that is its key and its course.
#[derive(Drop)]
struct Item {
    key: Key,
    course: u32,
}

impl Shelved for Item {
    type Course = u32;

    ghost key_of = { λ i. i.key };

    ghost course_of = { λ i. i.course };

    fn key(&self) -> Key {
        self.key
    }

    fn course(&self) -> &u32 {
        &self.course
    }
}

// Two seats at one fork: each call answers as it must.
fn meet_at_a_fork(
    rt: &impl Abort,
    shelf: &Shelf<Item>,
    zero: &mut ShelfSeat<Item>,
    one: &mut ShelfSeat<Item>,
    k: Key,
    value: Arc<Item>,
)
    requires zero { zero.old.shelf ≡ Some shelf.now }
    requires one { one.old.shelf ≡ Some shelf.now }
    requires key { (k.segment < shelf.now.plan.segments) × IsSome (place_of shelf.now.plan k) }
    requires value { ((arc_value value).key ≡ k) × ((arc_value value).course ≡ shelf.now.course) }
{
    assert!(rt; claimed(shelf, zero, k.segment));
    holds(rt, !shelf.claim(one, k.segment));
    holds(rt, is_not_yet(shelf.find(one, k), PlaceWord::Free));
    let turn = match shelf.begin(zero, k) {
        Begun::Taken(_) => panic!(rt; "no turn at a free place"),
        Begun::Turn(turn) => turn,
    };
    holds(rt, is_not_yet(shelf.find(one, k), PlaceWord::Writing(0)));
    holds(rt, refusal(shelf, zero, k) == Some(PlaceWord::Writing(0)));
    shelf.publish(zero, turn, value);
    shelf.count(zero);
    meet_its_value(rt, shelf, zero, one, k);
}

// Two seats at a fork whose value is there: each call answers as it must.
fn meet_its_value(
    rt: &impl Abort,
    shelf: &Shelf<Item>,
    zero: &mut ShelfSeat<Item>,
    one: &mut ShelfSeat<Item>,
    k: Key,
)
    requires zero { zero.old.shelf ≡ Some shelf.now }
    requires one { one.old.shelf ≡ Some shelf.now }
    requires claim { 0 < times k.segment zero.old.view.claims }
    requires place { IsSome (place_of shelf.now.plan k) }
{
    holds(rt, is_here(shelf.find(one, k), k));
    holds(rt, refusal(shelf, zero, k) == Some(PlaceWord::Ready(k)));
    shelf.stop(one);
    let progress = shelf.progress(zero);
    holds(rt, progress.stopped && progress.done == 1);
}

fn is_not_yet(found: Result<Found<Item>, Memory>, expected: PlaceWord) -> bool {
    match found {
        Ok(Found::NotYet(word)) => word == expected,
        _ => false,
    }
}

fn is_here(found: Result<Found<Item>, Memory>, k: Key) -> bool {
    match found {
        Ok(Found::Here(value)) => value.key() == k,
        _ => false,
    }
}

#[test]
fn two_seats_at_one_fork(rt: HostRuntime) {
    let (shelf, mut zero, mut one) = fork_shelf(&rt, rt.alloc());
    let other = Key {
        segment: 1,
        event: 50,
    };
    holds(&rt, shelf.place_of(other).is_none());
    let item = Item {
        key: FORK,
        course: 7,
    };
    let value = Arc::new(rt.alloc(), item).expect(&rt, "memory");
    assert!(rt; shelf.place_of(FORK).is_some());
    meet_at_a_fork(&rt, &shelf, &mut zero, &mut one, FORK, value);
    drop(one);
    drop(zero);
    drop(shelf);
}

//! Values that are found.

ghost use Rattle.std.specs.Prelude.{◌≡◌, ◌≢◌, ℕ, ◌+◌, Some, None, true, IfOk, OnErr, IsSome};
ghost use Rattle.std.specs.Arc.{arc_value};
ghost use Rattle.shelf_core.specs.Plan.{place_of, place_count, is_in};
ghost use Rattle.checkpoint_shelf.specs.Holds.{IsSeat};
ghost use Rattle.shelf_core.specs.Made.{Same, Stays};
ghost use Rattle.shelf_core.specs.Calls.{Borrowed, Missed, LentElsewhere, LentKnown};
ghost use Rattle.checkpoint_shelf.specs.Answers.{MatchFound, IfHere, IfNotYet};

use crate::begun::Found;
use crate::law::Aim;
use crate::seat::ShelfSeat;
use crate::shelf::Shelf;
use crate::shelved::Shelved;
use crate::steps::{Inner, InnerSeat, give_back, lend};
use plain_lists::Memory;
use shelf_core::Key;
use std::marker::Brand;
use std::sync::Arc;

// Shares the value of a key, where it is there.
fn borrow<C: Shelved, B: Aim>(
    table: &Inner<C>,
    seat: &mut InnerSeat<C>,
    number: u32,
    place: u32,
    key: Key,
) -> Result<Found<C>, Memory>
    requires words { table.now.table_id.words ≡ 1 + place_count table.now.key.plan + table.now.key.plan.segments }
    requires slots { table.now.table_id.slots ≡ place_count table.now.key.plan }
    requires table { seat.old.table_id ≡ table.now.table_id }
    requires seat { IsSeat table.now.key number seat.old.me }
    requires place { place_of table.now.key.plan key ≡ Some place }
    requires aim { B.key ≡ key }
    ensures table { seat.new.table_id ≡ seat.old.table_id }
    ensures seat { IsSeat table.now.key number seat.new.me }
    ensures found { IfOk result (λ found. MatchFound found
        (λ a. (C.key_of (arc_value a) ≡ key) × (C.course_of (arc_value a) ≡ table.now.key.course.value) × Borrowed table.now.key.plan key seat.old.me.0.seen seat.new.me.0.seen)
        (λ word. Missed table.now.key.plan key word seat.old.me.0.seen seat.new.me.0.seen)) }
    ensures refused { OnErr result (Borrowed table.now.key.plan key seat.old.me.0.seen seat.new.me.0.seen) }
{
    let value = match lend::<C, B>(table, seat, number, place, key) {
        Err(word) => return Ok(Found::NotYet(word)),
        Ok(value) => value,
    };
    let copy = Arc::try_clone(&value);
    give_back::<C, B>(table, seat, number, place, key, value);
    match copy {
        Ok(copy) => Ok(Found::Here(copy)),
        Err(_) => Err(Memory),
    }
}

impl<C: Shelved> Shelf<C> {
    /// The value of a key, if it is there: it is lent to the seat, shared and returned.
    ///
    /// # Errors
    /// `Memory`, once the value was returned.
    pub fn find(&self, seat: &mut ShelfSeat<C>, key: Key) -> Result<Found<C>, Memory>
        requires seat { seat.old.shelf ≡ Some self.now }
        requires place { IsSome (place_of self.now.plan key) }
        ensures same { seat.new.shelf ≡ seat.old.shelf }

        // The answer, and what it says of the value, or of the word at the step.
        ensures found { IfOk result (λ found. MatchFound found
            (λ a. (C.key_of (arc_value a) ≡ key) × (C.course_of (arc_value a) ≡ self.now.course) × Borrowed self.now.plan key seat.old.view seat.new.view)
            (λ word. Missed self.now.plan key word seat.old.view seat.new.view)) }
        ensures refused { OnErr result (Borrowed self.now.plan key seat.old.view seat.new.view) }

        // The key of a value that was shared is found; but for that the seat has what it had.
        ensures stays { Stays seat.old.view seat.new.view }
        ensures turns { seat.new.view.turns ≡ seat.old.view.turns }
        ensures got { IfOk result (λ found. IfHere found (λ a. is_in key seat.new.view.found ≡ true)) }
        ensures kept { IfOk result (λ found. IfNotYet found (λ word. Same seat.old.view seat.new.view)) }
        ensures elsewhere { IfOk result (λ found. IfNotYet found (λ word. LentElsewhere seat.old.view word)) }

        // A key that the seat knows is there, or lent to another seat.
        ensures known { is_in key seat.old.view.known ≡ true → IfOk result (λ found. IfNotYet found (λ word. LentKnown key seat.old.view word)) }
    {
        let Some(place) = self.place_of(key) else {
            unreachable!()
        };
        borrow::<C, Brand>(&self.table.shared, &mut seat.seat, seat.number, place, key)
    }
}

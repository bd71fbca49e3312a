//! The turns of places: to get one, and to spend it.

ghost use Rattle.std.specs.Prelude.{◌≡◌, ◌≢◌, ℕ, ◌+◌, ◌<◌, ◌≤◌, ◌++◌, ◌∷◌, [], Some, None, true, false, IfSome, IfNone, IsSome, length};
ghost use Rattle.std.specs.Arc.{arc_value};
ghost use Rattle.shelf_core.specs.Plan.{place_of, place_count, is_sole, is_in};
ghost use Rattle.shelf_core.specs.Words.{is_held};
ghost use Rattle.shelf_core.specs.Views.{times, has_turn, other_turns};
ghost use Rattle.checkpoint_shelf.specs.Holds.{IsSeat};
ghost use Rattle.shelf_core.specs.Possible.{allows};
ghost use Rattle.shelf_core.specs.Made.{Same, Stays};
ghost use Rattle.shelf_core.specs.Calls.{Began, Refused, Published, Abandoned, LentElsewhere, WritingOwn};
ghost use Rattle.checkpoint_shelf.specs.Answers.{MatchBegun, IfTaken, begun_of};

use crate::begun::{Begun, Turn};
use crate::law::Aim;
use crate::seat::ShelfSeat;
use crate::shelf::Shelf;
use crate::shelved::Shelved;
use crate::steps::{Inner, InnerSeat, hand_in, let_go, look, take_turn};
use shelf_core::{Key, PlaceWord, ShelfPlan};
use std::marker::Brand;
use std::sync::Arc;

// Whether a value of a key may be written at a place where this word stands.
fn may_write(plan: &ShelfPlan, place: u32, key: Key, word: PlaceWord) -> bool
    ensures { result ≡ allows plan.now place key word }
{
    match word {
        PlaceWord::Free => true,
        PlaceWord::Writing(_) => false,
        PlaceWord::Ready(other) => plan.forks.len() <= place as usize && other != key,
        PlaceWord::Lent(_, _) => false,
    }
}

// Takes the turn at the place of a key. The answer is otherwise the word of the place.
fn begin_at<C: Shelved + Drop, B: Aim>(
    table: &Inner<C>,
    seat: &mut InnerSeat<C>,
    number: u32,
    plan: &ShelfPlan,
    place: u32,
    key: Key,
) -> Option<PlaceWord>
    requires words { table.now.table_id.words ≡ 1 + place_count table.now.key.plan + table.now.key.plan.segments }
    requires slots { table.now.table_id.slots ≡ place_count table.now.key.plan }
    requires table { seat.old.table_id ≡ table.now.table_id }
    requires seat { IsSeat table.now.key number seat.old.me }
    requires plan { plan.now ≡ table.now.key.plan }
    requires place { place_of table.now.key.plan key ≡ Some place }
    requires claim { 0 < times key.segment seat.old.me.0.seen.claims }
    requires aim { B.key ≡ key }
    ensures table { seat.new.table_id ≡ seat.old.table_id }
    ensures seat { IsSeat table.now.key number seat.new.me }
    ensures turn { IfNone result (Began table.now.key.plan key seat.old.me.0.seen seat.new.me.0.seen) }
    ensures taken { IfSome result (λ word. Refused table.now.key.plan key word seat.old.me.0.seen seat.new.me.0.seen) }
{
    if (place as usize) < plan.forks.len() {
        return take_turn::<C, B>(table, seat, number, place, key, PlaceWord::Free);
    }
    let first = look(table, seat, number, place);
    if !may_write(plan, place, key, first) {
        return Some(first);
    }
    take_turn::<C, B>(table, seat, number, place, key, first)
}

// The answer of `begin`.
fn begun(key: Key, answer: Option<PlaceWord>) -> Begun
    ensures { result ≡ begun_of key answer }
{
    match answer {
        None => Begun::Turn(Turn { key }),
        Some(word) => Begun::Taken(word),
    }
}

impl<C: Shelved> Shelf<C> {
    /// The place of a key: that of fork `i` is `i`, and the grid keys have the places behind those of the forks in turn.
    /// `None` where the key is neither, and for a grid key where there are no places for the grid.
    pub fn place_of(&self, key: Key) -> Option<u32>
        ensures { result ≡ place_of self.now.plan key }
    {
        self.plan.rising_place_of(key)
    }
}

impl<C: Shelved + Drop> Shelf<C> {
    /// Takes the turn to give the place of a key its value.
    pub fn begin(&self, seat: &mut ShelfSeat<C>, key: Key) -> Begun
        requires seat { seat.old.shelf ≡ Some self.now }
        requires claim { 0 < times key.segment seat.old.view.claims }
        requires place { IsSome (place_of self.now.plan key) }
        ensures same { seat.new.shelf ≡ seat.old.shelf }

        // The answer, and what it says of the last step's word.
        ensures begun { MatchBegun result
            (λ turn. (turn ≡ key) × Began self.now.plan key seat.old.view seat.new.view)
            (λ word. Refused self.now.plan key word seat.old.view seat.new.view) }

        // A turn is one more, of a key of which the seat had none; but for that the seat has what it had.
        ensures stays { Stays seat.old.view seat.new.view }
        ensures turn { MatchBegun result
            (λ turn. (has_turn turn seat.old.view.turns ≡ false) × (has_turn turn seat.new.view.turns ≡ true) × ((place : ℕ) × (seat.new.view.turns ≡ seat.old.view.turns ++ (place, turn) ∷ [])))
            (λ word. seat.new.view.turns ≡ seat.old.view.turns) }
        ensures kept { IfTaken result (λ word. Same seat.old.view seat.new.view) }
        ensures elsewhere { IfTaken result (λ word. LentElsewhere seat.old.view word) }
        ensures own { IfTaken result (λ word. WritingOwn self.now.plan key seat.old.view word) }

        // At a sole key, at which the seat has no turn, the value is there, and the seat knows it.
        ensures sole { is_sole self.now.plan key ≡ true → has_turn key seat.old.view.turns ≡ false → IfTaken result (λ word. (is_held key (Some word) ≡ true) × (is_in key seat.new.view.known ≡ true)) }
    {
        let Some(place) = self.place_of(key) else {
            unreachable!()
        };
        let answer = begin_at::<C, Brand>(
            &self.table.shared,
            &mut seat.seat,
            seat.number,
            &self.plan,
            place,
            key,
        );
        begun(key, answer)
    }

    /// Spends a turn: the value is there.
    pub fn publish(&self, seat: &mut ShelfSeat<C>, turn: Turn, value: Arc<C>)
        requires seat { seat.old.shelf ≡ Some self.now }
        requires turn { has_turn turn seat.old.view.turns ≡ true }
        requires key { C.key_of (arc_value value) ≡ turn }
        requires course { C.course_of (arc_value value) ≡ self.now.course }
        ensures same { seat.new.shelf ≡ seat.old.shelf }
        ensures published { Published self.now.plan turn seat.old.view seat.new.view }

        // The turn is gone, and of a sole key the seat knows the value; but for that it has what it had.
        ensures stays { Stays seat.old.view seat.new.view }
        ensures spent { seat.new.view.turns ≡ other_turns turn seat.old.view.turns }
        ensures known { is_sole self.now.plan turn ≡ true → is_in turn seat.new.view.known ≡ true }
    {
        let Turn { key } = turn;
        let number = seat.number;
        let Some(place) = self.place_of(key) else {
            unreachable!()
        };
        hand_in::<C, Brand>(
            &self.table.shared,
            &mut seat.seat,
            number,
            place,
            key,
            value,
        );
    }

    /// Spends a turn without a value: the place is free again.
    pub fn abandon(&self, seat: &mut ShelfSeat<C>, turn: Turn)
        requires seat { seat.old.shelf ≡ Some self.now }
        requires turn { has_turn turn seat.old.view.turns ≡ true }
        ensures same { seat.new.shelf ≡ seat.old.shelf }
        ensures abandoned { Abandoned self.now.plan turn seat.old.view seat.new.view }

        // The turn is gone; but for that the seat has what it had.
        ensures stays { Stays seat.old.view seat.new.view }
        ensures spent { seat.new.view.turns ≡ other_turns turn seat.old.view.turns }
    {
        let Turn { key } = turn;
        let number = seat.number;
        let Some(place) = self.place_of(key) else {
            unreachable!()
        };
        let_go::<C, Brand>(&self.table.shared, &mut seat.seat, number, place, key);
    }
}

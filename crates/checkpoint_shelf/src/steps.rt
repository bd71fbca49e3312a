//! The steps on the words of places, each through a seat of the table.

ghost use Rattle.std.specs.Prelude.{◌≡◌, ◌≢◌, ℕ, ◌+◌, ◌<◌, ◌∷◌, [], Some, None, true, false, IfOk, IfErr, IfSome, IfNone, IsSome};
ghost use Rattle.std.specs.Arc.{arc_value};
ghost use Rattle.atomic_table.specs.Table.{rest};
ghost use Rattle.shelf_core.specs.Plan.{place_of, place_count};
ghost use Rattle.shelf_core.specs.Views.{times, turns_at, has_turn};
ghost use Rattle.shelf_core.specs.After.{with_turn, without_turn, having_published, with_loan, having_returned};
ghost use Rattle.shelf_core.specs.declared.words.PlaceWord.TheVariants.{Ready as ready_word, Writing as writing_word};
ghost use Rattle.shelf_core.specs.declared.words.Word.TheVariants.{Place as place_word};
ghost use Rattle.shelf_core.specs.declared.words.Seen.TheVariants.{Place as place_seen};
ghost use Rattle.shelf_core.specs.declared.event.Event.TheVariants.{Begin as begin_event, Publish as publish_event, Abandon as abandon_event, Lend as lend_event, Return as return_event};
ghost use Rattle.checkpoint_shelf.specs.Codes.{WordFits};
ghost use Rattle.checkpoint_shelf.specs.Holds.{IsSeat, seeing};
ghost use Rattle.shelf_core.specs.Possible.{allows};
ghost use Rattle.shelf_core.specs.Made.{Makes, Sees};

use crate::about::{About, Held, View};
use crate::code::{decode, encode};
use crate::law::{Abandons, Aim, Begins, Brings, Law, Lends, Looks, Publishes, Returns};
use crate::shelved::Shelved;
use atomic_table::{Seat, Shared};
use shelf_core::{Key, PlaceWord};
use std::sync::Arc;

pub(crate) type Inner<C> = Shared<Held<C>, View<C>, About<C>, Law<C>>;

pub(crate) type InnerSeat<C> = Seat<Held<C>, View<C>>;

// Loads the word of a place.
pub(crate) fn look<C: Shelved>(
    table: &Inner<C>,
    seat: &mut InnerSeat<C>,
    number: u32,
    place: u32,
) -> PlaceWord
    requires words { table.now.table_id.words ≡ 1 + place_count table.now.key.plan + table.now.key.plan.segments }
    requires table { seat.old.table_id ≡ table.now.table_id }
    requires seat { IsSeat table.now.key number seat.old.me }
    requires place { place < place_count table.now.key.plan }
    ensures table { seat.new.table_id ≡ seat.old.table_id }
    ensures seat { IsSeat table.now.key number seat.new.me }
    ensures fits { WordFits result }
    ensures seen { Sees table.now.key.plan (place_word place) (place_seen place result) seat.old.me.0.seen seat.new.me.0.seen }
{
    let _ = number;
    let found = table.load::<Looks>(seat, place as usize + 1);
    decode(found)
}

// Takes the turn at a place whose word is still `want`. The answer is the word that it is in place of that.
pub(crate) fn take_turn<C: Shelved + Drop, B: Aim>(
    table: &Inner<C>,
    seat: &mut InnerSeat<C>,
    number: u32,
    place: u32,
    key: Key,
    want: PlaceWord,
) -> Option<PlaceWord>
    requires words { table.now.table_id.words ≡ 1 + place_count table.now.key.plan + table.now.key.plan.segments }
    requires slots { table.now.table_id.slots ≡ place_count table.now.key.plan }
    requires table { seat.old.table_id ≡ table.now.table_id }
    requires seat { IsSeat table.now.key number seat.old.me }
    requires place { place_of table.now.key.plan key ≡ Some place }
    requires claim { 0 < times key.segment seat.old.me.0.seen.claims }
    requires fits { WordFits want }
    requires allowed { allows table.now.key.plan place key want ≡ true }
    requires aim { B.key ≡ key }
    ensures table { seat.new.table_id ≡ seat.old.table_id }
    ensures seat { IsSeat table.now.key number seat.new.me }
    ensures turn { IfNone result ((seat.new.me.0.seen ≡ with_turn place key seat.old.me.0.seen) × Makes table.now.key.plan (λ n. begin_event n key) seat.old.me.0.seen seat.new.me.0.seen) }
    ensures taken { IfSome result (λ word. (word ≢ want) × WordFits word × Sees table.now.key.plan (place_word place) (place_seen place word) seat.old.me.0.seen seat.new.me.0.seen) }
{
    let old = encode(want);
    let mine = encode(PlaceWord::Writing(number));
    let found = table.compare_exchange::<Begins<B>>(seat, place as usize + 1, old, mine);
    if found != old {
        return Some(decode(found));
    }
    let before = table.exchange(seat, place as usize, None);
    drop(before);
    None
}

// Ends what a slot gave, where it held no value.
fn end_none<C: Shelved>(held: Held<C>)
    requires { held ≡ None }
{
    let None = held else { unreachable!() };
}

// The value that a slot gave.
fn held_value<C: Shelved>(held: Held<C>) -> Arc<C>
    requires { IsSome held }
    ensures { held ≡ Some result }
{
    let Some(value) = held else { unreachable!() };
    value
}

// Spends a turn: the value goes to its place.
pub(crate) fn hand_in<C: Shelved, B: Aim>(
    table: &Inner<C>,
    seat: &mut InnerSeat<C>,
    number: u32,
    place: u32,
    key: Key,
    value: Arc<C>,
)
    requires words { table.now.table_id.words ≡ 1 + place_count table.now.key.plan + table.now.key.plan.segments }
    requires slots { table.now.table_id.slots ≡ place_count table.now.key.plan }
    requires table { seat.old.table_id ≡ table.now.table_id }
    requires seat { IsSeat table.now.key number seat.old.me }
    requires place { place_of table.now.key.plan key ≡ Some place }
    requires turn { has_turn key seat.old.me.0.seen.turns ≡ true }
    requires key { C.key_of (arc_value value) ≡ key }
    requires course { C.course_of (arc_value value) ≡ table.now.key.course.value }
    requires aim { B.key ≡ key }
    ensures table { seat.new.table_id ≡ seat.old.table_id }
    ensures seat { IsSeat table.now.key number seat.new.me }
    ensures steps { (m : _) × (word : _) × Sees table.now.key.plan (place_word place) (place_seen place word) seat.old.me.0.seen m × Makes table.now.key.plan (λ n. publish_event n key) m seat.new.me.0.seen × (seat.new.me.0.seen ≡ having_published (Some table.now.key.plan) key m) }
{
    let _ = number;
    table.load::<Brings>(seat, place as usize + 1);
    let before = table.exchange(seat, place as usize, Some(value));
    end_none(before);
    table.store::<Publishes<B>>(seat, place as usize + 1, encode(PlaceWord::Ready(key)));
}

// Spends a turn without a value.
pub(crate) fn let_go<C: Shelved, B: Aim>(
    table: &Inner<C>,
    seat: &mut InnerSeat<C>,
    number: u32,
    place: u32,
    key: Key,
)
    requires words { table.now.table_id.words ≡ 1 + place_count table.now.key.plan + table.now.key.plan.segments }
    requires slots { table.now.table_id.slots ≡ place_count table.now.key.plan }
    requires table { seat.old.table_id ≡ table.now.table_id }
    requires seat { IsSeat table.now.key number seat.old.me }
    requires place { place_of table.now.key.plan key ≡ Some place }
    requires turn { has_turn key seat.old.me.0.seen.turns ≡ true }
    requires aim { B.key ≡ key }
    ensures table { seat.new.table_id ≡ seat.old.table_id }
    ensures seat { IsSeat table.now.key number seat.new.me }
    ensures steps { (m : _) × (word : _) × Sees table.now.key.plan (place_word place) (place_seen place word) seat.old.me.0.seen m × Makes table.now.key.plan (λ n. abandon_event n key) m seat.new.me.0.seen × (seat.new.me.0.seen ≡ without_turn key m) }
{
    let _ = (number, key);
    table.load::<Brings>(seat, place as usize + 1);
    table.store::<Abandons<B>>(seat, place as usize + 1, 0);
}

// Takes the value of a key on loan. The answer is otherwise the word of its place.
pub(crate) fn lend<C: Shelved, B: Aim>(
    table: &Inner<C>,
    seat: &mut InnerSeat<C>,
    number: u32,
    place: u32,
    key: Key,
) -> Result<Arc<C>, PlaceWord>
    requires words { table.now.table_id.words ≡ 1 + place_count table.now.key.plan + table.now.key.plan.segments }
    requires slots { table.now.table_id.slots ≡ place_count table.now.key.plan }
    requires table { seat.old.table_id ≡ table.now.table_id }
    requires seat { IsSeat table.now.key number seat.old.me }
    requires place { place_of table.now.key.plan key ≡ Some place }
    requires aim { B.key ≡ key }
    ensures table { seat.new.table_id ≡ seat.old.table_id }
    ensures lent { IfOk result (λ a. (C.key_of (arc_value a) ≡ key) × (C.course_of (arc_value a) ≡ table.now.key.course.value) × (seat.new.me ≡ (seeing seat.old.me.0 (with_loan (Some table.now.key.plan) place key seat.old.me.0.seen), (place, None) ∷ seat.old.me.1)) × Makes table.now.key.plan (λ n. lend_event n key) seat.old.me.0.seen seat.new.me.0.seen) }
    ensures not { IfErr result (λ word. (word ≢ ready_word key) × WordFits word × IsSeat table.now.key number seat.new.me × Sees table.now.key.plan (place_word place) (place_seen place word) seat.old.me.0.seen seat.new.me.0.seen) }
{
    let old = encode(PlaceWord::Ready(key));
    let mine = encode(PlaceWord::Lent(key, number));
    let found = table.compare_exchange::<Lends<B>>(seat, place as usize + 1, old, mine);
    if found != old {
        return Err(decode(found));
    }
    let held = table.exchange(seat, place as usize, None);
    Ok(held_value(held))
}

// Returns the value that the seat has on loan.
pub(crate) fn give_back<C: Shelved, B: Aim>(
    table: &Inner<C>,
    seat: &mut InnerSeat<C>,
    number: u32,
    place: u32,
    key: Key,
    value: Arc<C>,
)
    requires words { table.now.table_id.words ≡ 1 + place_count table.now.key.plan + table.now.key.plan.segments }
    requires slots { table.now.table_id.slots ≡ place_count table.now.key.plan }
    requires table { seat.old.table_id ≡ table.now.table_id }
    requires seat { (was : _) × IsSeat table.now.key number was × (seat.old.me ≡ (seeing was.0 (with_loan (Some table.now.key.plan) place key was.0.seen), (place, None) ∷ was.1)) }
    requires place { place_of table.now.key.plan key ≡ Some place }
    requires key { C.key_of (arc_value value) ≡ key }
    requires course { C.course_of (arc_value value) ≡ table.now.key.course.value }
    requires aim { B.key ≡ key }
    ensures table { seat.new.table_id ≡ seat.old.table_id }
    ensures seat { IsSeat table.now.key number seat.new.me }
    ensures returned { seat.new.me.0.seen ≡ having_returned key seat.old.me.0.seen }
    ensures step { Makes table.now.key.plan return_event seat.old.me.0.seen seat.new.me.0.seen }
{
    let _ = number;
    let before = table.exchange(seat, place as usize, Some(value));
    end_none(before);
    table.store::<Returns<B>>(seat, place as usize + 1, encode(PlaceWord::Ready(key)));
}

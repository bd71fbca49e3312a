//! Laws of floors.

ghost use Rattle.std.specs.Prelude.{◌≡◌, ◌<◌, ◌≤◌, ◌^◌, ℕ, All, None, length, true};
ghost use Rattle.market_types.specs.declared.message.Message.{Message};
ghost use Rattle.market_rules.specs.Changes.{dates_refusal};
ghost use Rattle.market_rules.specs.EditRanges.{is_among, is_in_range, is_near_zero};
ghost use Rattle.market_rules.specs.declared.edit.Edit.{Edit};
ghost use Rattle.market_floor.specs.declared.opening.Opening.{Opening};
ghost use Rattle.market_floor.specs.Edited.{IsEdit, IsParamOf, edited_floor};
ghost use Rattle.market_floor.specs.Floor.{FloorState, offset_at};
ghost use Rattle.market_floor.specs.Reaction.{reaction};
ghost use Rattle.market_floor.specs.Ruled.{ruled};
ghost use Rattle.market_floor.specs.Sound.{IsSoundFloor};

use agent_shell::laws::traders_stay_in_range;
use market_rules::laws::first_changes_are_due;

/// What holds of a floor after so many events holds of it after more.
pub fn floors_stay_sound()
    ensures { (n m : ℕ) (f : FloorState) → n ≤ m → IsSoundFloor n f → IsSoundFloor m f }
{
    traders_stay_in_range();
}

/// An edit in its ranges, of a stock and a trader that there are, with a parameter of the trader's kind, can be made
/// where the offset of each stock is small.
pub fn edits_in_their_ranges_can_be_made()
    ensures { (f : FloorState) (groups : ℕ) (e : Edit) →
        is_among (length f.exchange.stocks) (length f.parties) groups e ≡ true →
        is_in_range e ≡ true →
        IsParamOf f e →
        length f.offsets ≡ length f.exchange.stocks →
        ((stock : ℕ) → stock < length f.offsets → is_near_zero (2 ^ 62) (offset_at f stock) ≡ true) →
        IsEdit f e }
{}

/// Dated changes, a message and an edit leave as many stocks and traders as there are.
pub fn floors_keep_their_size()
    ensures dated_stocks { (o : Opening) (applied time : ℕ) (f : FloorState) →
        length (ruled o applied time f).floor.exchange.stocks ≡ length f.exchange.stocks }
    ensures dated_traders { (o : Opening) (applied time : ℕ) (f : FloorState) →
        length (ruled o applied time f).floor.parties ≡ length f.parties }
    ensures stocks { (o : Opening) (f : FloorState) (m : Message) →
        length (reaction o f m).floor.exchange.stocks ≡ length f.exchange.stocks }
    ensures traders { (o : Opening) (f : FloorState) (m : Message) →
        length (reaction o f m).floor.parties ≡ length f.parties }
    ensures edited_stocks { (time : ℕ) (e : Edit) (f : FloorState) →
        length (edited_floor time e f).floor.exchange.stocks ≡ length f.exchange.stocks }
    ensures edited_traders { (time : ℕ) (e : Edit) (f : FloorState) →
        length (edited_floor time e f).floor.parties ≡ length f.parties }
{}

/// Dated changes are told with their dates, which are no later than the event; an event's feed has the time of the
/// event, and an edit's that of the edit.
pub fn feeds_are_timely()
    ensures dated { (o : Opening) (applied time : ℕ) (f : FloorState) → dates_refusal o.dated ≡ None →
        All (λ x. x.time ≤ time) (ruled o applied time f).feed }
    ensures events { (o : Opening) (f : FloorState) (m : Message) → All (λ x. x.time ≡ m.time) (reaction o f m).feed }
    ensures edits { (time : ℕ) (e : Edit) (f : FloorState) → All (λ x. x.time ≡ time) (edited_floor time e f).feed }
{
    first_changes_are_due();
}

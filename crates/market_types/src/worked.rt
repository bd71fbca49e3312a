//! Laws by computation on the definitions.

ghost use Rattle.std.specs.Prelude.{◌≡◌, ℕ, [], Result, codes, true, false};
ghost use Rattle.market_types.specs.Readers.{price_of, shares_of, symbol_of, token_of};
ghost use Rattle.market_types.specs.Sides.{opposite_of, is_same_side};
ghost use Rattle.market_types.specs.Told.{event_told, edit_told};
ghost use Rattle.market_types.specs.declared.entry.Record.{Record};
ghost use Rattle.market_types.specs.declared.entry.EditMark.{EditMark};

use crate::error::TypeError;
use crate::limits::{
    HIGHEST_PRICE, LAST_TIME, LONGEST_DELAY, MOST_EVENTS, MOST_STOCKS, MOST_TRADERS, MOST_WAITING,
};
use crate::order::Side;

/// Entries that differ only in the places that their lists keep for more tell the same.
pub fn kept_places_are_not_told()
    ensures before { (r : Record) (n : ℕ) → event_told (record r { before = record { list = r.before.list; spare = n } }) ≡ event_told r }
    ensures after { (r : Record) (n : ℕ) → event_told (record r { after = record { list = r.after.list; spare = n } }) ≡ event_told r }
    ensures feed { (m : EditMark) (n : ℕ) → edit_told (record m { feed = record { list = m.feed.list; spare = n } }) ≡ edit_told m }
{}

/// The readers' ranges at their ends.
pub fn ranges_at_their_ends()
    ensures no_price { price_of 0 ≡ Err TypeError.BadPrice }
    ensures greatest_price { price_of 1999999900 ≡ Ok 1999999900 }
    ensures above_price { price_of 1999999901 ≡ Err TypeError.BadPrice }
    ensures greatest_size { shares_of 999999 ≡ Ok 999999 }
    ensures above_size { shares_of 1000000 ≡ Err TypeError.BadShares }
    ensures no_symbol { symbol_of [] ≡ Err TypeError.BadSymbol }
    ensures symbol { symbol_of (codes "ABM") ≡ Ok (record { 0 = codes "ABM     " }) }
    ensures inner_blank { symbol_of (codes "A M") ≡ Err TypeError.BadSymbol }
    ensures long_symbol { symbol_of (codes "ABCDEFGHI") ≡ Err TypeError.BadSymbol }
    ensures token { token_of (codes "T0001") ≡ Ok (record { 0 = codes "T0001         " }) }
    ensures longest_token { token_of (codes "T0001000000001") ≡ Ok (record { 0 = codes "T0001000000001" }) }
    ensures long_token { token_of (codes "T00010000000012") ≡ Err TypeError.BadToken }
    ensures dash { token_of (codes "T-1") ≡ Err TypeError.BadToken }
{}

/// The limits in numbers: what the code keeps is what the definitions say.
pub fn limits_in_numbers()
    ensures price { HIGHEST_PRICE ≡ 1999999900 }
    ensures delay { LONGEST_DELAY ≡ 3600000000000 }
    ensures time { LAST_TIME ≡ 86399999999999 }
    ensures traders { MOST_TRADERS ≡ 511 }
    ensures stocks { MOST_STOCKS ≡ 16 }
    ensures events { MOST_EVENTS ≡ 1000000 }
    ensures waiting { MOST_WAITING ≡ 65536 }
{}

/// Each side's opposite has that side as its own.
pub fn opposite_sides()
    ensures buy { opposite_of Side.Buy ≡ Side.Sell }
    ensures sell { opposite_of Side.Sell ≡ Side.Buy }
    ensures twice { (side : Side) → opposite_of (opposite_of side) ≡ side }
    ensures unlike { (side : Side) → is_same_side side (opposite_of side) ≡ false }
    ensures like { (side : Side) → is_same_side side side ≡ true }
{}

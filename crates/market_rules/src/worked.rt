//! What the definitions give on worked examples.

ghost use Rattle.std.specs.Prelude.{◌≡◌, ◌∷◌, [], None, Some, true, false, pos, negsuc};
ghost use Rattle.market_rules.specs.Changes.{dates_refusal, dated_by};
ghost use Rattle.market_rules.specs.EditRanges.{is_among, is_in_range};
ghost use Rattle.market_rules.specs.Edits.{letter_of};
ghost use Rattle.market_rules.specs.Fees.{fee_of};
ghost use Rattle.market_rules.specs.Nearest.{down_of, up_of};
ghost use Rattle.market_rules.specs.Refusals.{table_refusal};
ghost use Rattle.market_rules.specs.Ticks.{tick_of, is_allowed};
ghost use Rattle.market_rules.specs.Worked.{
  band,
  two_bands,
  uneven_bands,
  halt_at,
  three_halts,
  rebate_and_charge,
};

use crate::edit::{Edit, Param};
use crate::error::RuleError;

/// Ticks at the edge of a band, and the allowed prices next to a number.
pub fn ticks_of_two_bands()
    ensures below { tick_of two_bands 999999 ≡ 100 }
    ensures edge { tick_of two_bands 1000000 ≡ 500 }
    ensures on_tick { is_allowed two_bands 999900 ≡ true }
    ensures off_tick { is_allowed two_bands 1000100 ≡ false }
    ensures down { down_of two_bands (pos 1000499) ≡ pos 1000000 }
    ensures down_to_zero { down_of two_bands (pos 99) ≡ pos 0 }
    ensures down_below_zero { down_of two_bands (negsuc 0) ≡ pos 0 }
    ensures up_to_the_edge { up_of two_bands (pos 999950) ≡ pos 1000000 }
    ensures up { up_of two_bands (pos 1000001) ≡ pos 1000500 }
    ensures up_below_zero { up_of two_bands (negsuc 499) ≡ pos 0 }
    ensures up_past_a_tick { up_of uneven_bands (pos 950) ≡ pos 1000 }
{}

/// Refused bands: the first reason of the list, and of it the least index.
pub fn refused_bands()
    ensures none { table_refusal two_bands ≡ None }
    ensures no_band { table_refusal [] ≡ Some (RuleError.BandsNotRising 0) }
    ensures equal_starts { table_refusal (band 0 0 ∷ band 0 100 ∷ []) ≡ Some (RuleError.BandsNotRising 1) }
    ensures falling { table_refusal (band 0 1 ∷ band 5 1 ∷ band 4 1 ∷ []) ≡ Some (RuleError.BandsNotRising 2) }
    ensures zero_tick { table_refusal (band 7 100 ∷ band 100 0 ∷ []) ≡ Some (RuleError.ZeroTick 1) }
    ensures first_band { table_refusal (band 100 100 ∷ []) ≡ Some (RuleError.BandOffTick 0) }
    ensures off_tick { table_refusal (band 0 100 ∷ band 150 100 ∷ []) ≡ Some (RuleError.BandOffTick 1) }
{}

/// Dates may be equal, and a change counts from its own nanosecond on.
pub fn changes_at_their_dates()
    ensures equal { dates_refusal three_halts ≡ None }
    ensures earlier { dates_refusal (halt_at 5 ∷ halt_at 6 ∷ halt_at 4 ∷ []) ≡ Some (RuleError.DatesNotRising 2) }
    ensures before { dated_by three_halts 4 ≡ 0 }
    ensures at { dated_by three_halts 5 ≡ 2 }
    ensures between { dated_by three_halts 6 ≡ 2 }
    ensures all { dated_by three_halts 7 ≡ 3 }
{}

/// A rebate of 20 millionths a share for liquidity that is added (flag `A`), and 30 for liquidity that is taken
/// (flag `R`).
pub fn fees_of_a_hundred_shares()
    ensures added { fee_of rebate_and_charge 65 100 ≡ negsuc 1999 }
    ensures taken { fee_of rebate_and_charge 82 100 ≡ pos 3000 }
{}

/// The letters of edits in ASCII.
pub fn letters_of_edits()
    ensures tick { letter_of (Edit.Tick 0 two_bands) ≡ 116 }
    ensures fee { letter_of (Edit.Fee 0 rebate_and_charge) ≡ 102 }
    ensures halt { letter_of (Edit.Halt 0) ≡ 104 }
    ensures resume { letter_of (Edit.Resume 0) ≡ 114 }
    ensures latency { letter_of (Edit.Latency 0 1 500 0) ≡ 108 }
    ensures silence { letter_of (Edit.Silence 1) ≡ 115 }
    ensures series { letter_of (Edit.Series 0 (negsuc 4)) ≡ 118 }
{}

/// Edits at the ends of their ranges, in a market of one stock, three traders and two groups.
pub fn edits_at_their_ends()
    ensures table { is_in_range (Edit.Tick 0 two_bands) ≡ true }
    ensures no_table { is_in_range (Edit.Tick 0 []) ≡ false }
    ensures fees { is_in_range (Edit.Fee 0 rebate_and_charge) ≡ true }
    ensures hour { is_in_range (Edit.Latency 0 1 3600000000000 0) ≡ true }
    ensures past_an_hour { is_in_range (Edit.Latency 0 1 3600000000001 0) ≡ false }
    ensures levels { is_in_range (Edit.Agent 1 Param.Levels 8) ≡ true }
    ensures no_shares { is_in_range (Edit.Agent 1 Param.Size 0) ≡ false }
    ensures least_offset { is_in_range (Edit.Series 0 (negsuc 1999999999)) ≡ true }
    ensures lower_offset { is_in_range (Edit.Series 0 (negsuc 2000000000)) ≡ false }
    ensures last_trader { is_among 1 3 2 (Edit.Silence 3) ≡ true }
    ensures exchange { is_among 1 3 2 (Edit.Silence 0) ≡ false }
    ensures other_stock { is_among 1 3 2 (Edit.Halt 1) ≡ false }
    ensures other_group { is_among 1 3 2 (Edit.Latency 0 2 0 0) ≡ false }
{}

//! What the definitions give on worked examples.

ghost use Rattle.std.specs.Prelude.{◌≡◌, pos, negsuc};
ghost use Rattle.fundamental_series.specs.Made.{by_rows, rule_value, value_of};
ghost use Rattle.fundamental_series.specs.Value.{clamped, floor_of, value_after, with_offset_of};
ghost use Rattle.fundamental_series.specs.Worked.{calm, made_by, shocked, two_rows};

use draw_streams::worked::{COUNTING_KEY, ZERO_KEY};

/// From 10.00 dollars a tenth of the distance to 11.00 at each step; and from 10.0001 half of the
/// distance to 10.00, which rounds down to a whole step.
pub fn values_without_shocks()
    ensures first { value_after ZERO_KEY 0 (calm 100000 110000 100000) 1 ≡ 101000 }
    ensures second { value_after ZERO_KEY 0 (calm 100000 110000 100000) 2 ≡ 101900 }
    ensures rounded_down { value_after ZERO_KEY 0 (calm 100001 100000 500000) 1 ≡ 100000 }
    ensures after_the_close { rule_value (made_by ZERO_KEY (calm 100000 110000 100000)) 9999 ≡ 101900 }
    ensures within_a_step { rule_value (made_by ZERO_KEY (calm 100000 110000 100000)) 1199 ≡ 101000 }
{}

/// Stocks 0 and 1 take their shocks from streams 8,589,934,592 and 8,589,934,593. The values are those
/// of another program, which was written from the rule apart from this one.
pub fn values_with_shocks()
    ensures first { value_after ZERO_KEY 0 shocked 1 ≡ 99697 }
    ensures second { value_after ZERO_KEY 0 shocked 2 ≡ 100183 }
    ensures other_stock { value_after COUNTING_KEY 1 shocked 1 ≡ 100215 }
{}

/// A row holds from its own time on.
pub fn values_by_rows()
    ensures first { value_of (by_rows two_rows) 900 ≡ 99000 }
    ensures before { value_of (by_rows two_rows) 1499 ≡ 99000 }
    ensures from { value_of (by_rows two_rows) 1500 ≡ 98000 }
    ensures after { value_of (by_rows two_rows) 99999 ≡ 98000 }
{}

/// Quotients go down, and prices stay within their range, also with an offset.
pub fn values_at_their_bounds()
    ensures down { floor_of (negsuc 0) 1000000 ≡ negsuc 0 }
    ensures exact { floor_of (negsuc 1999999) 1000000 ≡ negsuc 1 }
    ensures up { floor_of (pos 1999999) 1000000 ≡ pos 1 }
    ensures least { clamped (negsuc 101000) ≡ 1 }
    ensures greatest { clamped (pos 2000000000) ≡ 1999999900 }
    ensures raised { with_offset_of 100000 (pos 500) ≡ 100500 }
    ensures lowered { with_offset_of 100000 (negsuc 99999) ≡ 1 }
    ensures within { with_offset_of 1999999800 (pos 101) ≡ 1999999900 }
{}

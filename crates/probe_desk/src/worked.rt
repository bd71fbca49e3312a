//! What the definitions give on a small trace.

ghost use Rattle.std.specs.Prelude.{◌≡◌, pos, negsuc, Some, take, drop};
ghost use Rattle.probe_desk.specs.Columns.{volume, spread_sum, price_range, fees};
ghost use Rattle.probe_desk.specs.Probe.{column_of};
ghost use Rattle.probe_desk.specs.Sums.{joined, sums_of};
ghost use Rattle.probe_desk.specs.Worked.{entries};

/// Two executions of the taker and one of the maker, a quote with both sides and one without, an edit, and a record
/// that was put back: 60 shares, a spread of 200, prices from 100,000 to 100,300, and 25 of fees. The
/// sums say the same, of the whole and of its parts.
pub fn small_trace()
    ensures volume { column_of volume entries ≡ pos 60 }
    ensures spread { column_of spread_sum entries ≡ pos 200 }
    ensures range { column_of price_range entries ≡ pos 300 }
    ensures fees { column_of fees entries ≡ pos 25 }
    ensures sums { sums_of entries ≡ record { volume = pos 60; spread = pos 200; fees = pos 25; span = Some (record { least = 100000; greatest = 100300 }) } }
    ensures parts { joined (sums_of (take 3 entries)) (sums_of (drop 3 entries)) ≡ sums_of entries }
{}

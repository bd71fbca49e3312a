//! Laws of sums.

ghost use Rattle.std.specs.Prelude.{◌≡◌, ◌++◌, ◌<◌, ◌^◌, List};
ghost use Rattle.market_types.specs.Told.{EntryTold};
ghost use Rattle.probe_desk.specs.Probe.{column_of};
ghost use Rattle.probe_desk.specs.declared.column.Column.{Column};
ghost use Rattle.probe_desk.specs.Sums.{joined, meaning_of, moved, number_of, sums_of};

/// The sums of entries one after another are those of both parts together. A column of entries that move the sums by less than
/// 2 ^ 127, back and forth, is a number of their sums.
pub fn columns_are_sums()
    ensures parts { (xs ys : List EntryTold) → sums_of (xs ++ ys) ≡ joined (sums_of xs) (sums_of ys) }
    ensures columns { (k : Column) (es : List EntryTold) → moved es < 2 ^ 127 → column_of (meaning_of k) es ≡ number_of k (sums_of es) }
{}

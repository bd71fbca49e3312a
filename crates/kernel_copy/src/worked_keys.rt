//! Numbers of a segment's states on known stops.

ghost use Rattle.std.specs.Prelude.{◌≡◌, true, false};
ghost use Rattle.branch_tree.specs.declared.stop.Stop.TheVariants.{At, When};
ghost use Rattle.kernel_copy.specs.Segmentwise.{fork_number, is_past};

/// The key of an end at an event number has that number, and each key of an end at a time has one number.
pub fn numbers_of_ends()
    ensures event { fork_number (At 6) ≡ 6 }
    ensures time { fork_number (When 36900000000000) ≡ 16777215 }
{}

/// A run that ended after 4 events stays there up to its stop at 6 events. A run to a time has no number past its end.
pub fn numbers_past_an_end()
    ensures own { is_past 4 (At 6) 4 ≡ false }
    ensures between { is_past 4 (At 6) 5 ≡ true }
    ensures stop { is_past 4 (At 6) 6 ≡ true }
    ensures above { is_past 4 (At 6) 7 ≡ false }
    ensures time { is_past 4 (When 6) 5 ≡ false }
{}

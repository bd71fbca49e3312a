//! What the definitions give on a worked course.

ghost use Rattle.std.specs.Prelude.{◌≡◌, [], ◌∷◌, ◌++◌};
ghost use Rattle.kernel_copy.specs.declared.kept.Keep.TheVariants as keep;
ghost use Rattle.kernel_copy.specs.Kept.{entries, frames, frames_of, kept_as, kept_with, nothing, tallied};
ghost use Rattle.kernel_copy.specs.Tallies.{tally_of};
ghost use Rattle.branch_tree.specs.declared.stop.Stop.TheVariants.{At, When};
ghost use Rattle.kernel_core.specs.State.{State};
ghost use Rattle.kernel_copy.specs.Ran.{ran_as, ran_with};
ghost use Rattle.trace_bundle.specs.Bundle.{bundle_of, stop_written};
ghost use Rattle.trace_bundle.specs.Worked.{forked_course, halt_at, halt_bytes, quiet_bundle, quiet_course, quiet_course_by_time, two_watchers};

/// The bundle of two branches without an event has these 785 bytes, and so it has where one leaves at a time.
pub fn a_quiet_bundle()
    ensures number { bundle_of quiet_course ≡ quiet_bundle }
    ensures time { bundle_of quiet_course_by_time ≡ quiet_bundle }
{}

/// Two watchers wake at 1000, and the exchange hears them at 1005. A branch that leaves at a time has as its stop the events by
/// then, also where no more come; one that leaves at an event number has that one, though the run has six events.
pub fn stops_that_are_written()
    ensures root { stop_written (forked_course two_watchers (When 1005)) 0 ≡ 0 }
    ensures between { stop_written (forked_course two_watchers (When 1004)) 1 ≡ 2 }
    ensures heard { stop_written (forked_course two_watchers (When 1005)) 1 ≡ 4 }
    ensures all { stop_written (forked_course two_watchers (When 2000)) 1 ≡ 6 }
    ensures number { stop_written (forked_course two_watchers (At 50)) 1 ≡ 50 }
{}

/// Of two edits, the second is kept behind the first: as its frame's 20 bytes where frames are kept, as the entry where entries
/// are. Of both there is the tally of 40 bytes where a tally is kept. A run that goes on ends in the second state.
pub fn edits_that_are_kept()
    ensures frames { kept_with (kept_as keep.Frames (halt_at 0 ∷ [])) (halt_at 1 ∷ []) ≡ frames (halt_bytes 0 ++ halt_bytes 1) }
    ensures entries { kept_with (kept_as keep.Entries (halt_at 0 ∷ [])) (halt_at 1 ∷ []) ≡ entries (halt_at 0 ∷ halt_at 1 ∷ []) }
    ensures tally { kept_with (kept_as keep.Tallied (halt_at 0 ∷ [])) (halt_at 1 ∷ []) ≡ tallied (tally_of (halt_bytes 0 ++ halt_bytes 1)) }
    ensures size { (tally_of (halt_bytes 0 ++ halt_bytes 1)).count ≡ 40 }
    ensures nothing { kept_with (kept_as keep.Nothing (halt_at 0 ∷ [])) (halt_at 1 ∷ []) ≡ nothing }
    ensures bytes { frames_of (entries (halt_at 0 ∷ halt_at 1 ∷ [])) ≡ halt_bytes 0 ++ halt_bytes 1 }
    ensures run { (s t : State) → ran_with (ran_as keep.Frames (record { state = s; entries = halt_at 0 ∷ [] })) (record { state = t; entries = halt_at 1 ∷ [] }) ≡ record { state = t; kept = frames (halt_bytes 0 ++ halt_bytes 1) } }
{}

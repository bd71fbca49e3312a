//! Laws of runs of segments.

ghost use Rattle.std.specs.Prelude.{◌≡◌, ℕ, List, length, map};
ghost use Rattle.bundle_frames.specs.declared.closing.Closing.{Closing};
ghost use Rattle.branch_tree.specs.Segments.{segments_in};
ghost use Rattle.kernel_copy.specs.Courses.{CourseTold};
ghost use Rattle.kernel_copy.specs.Kept.{KeepsFrames, KeepsTally, KeptTold};
ghost use Rattle.kernel_copy.specs.Outcomes.{outcome_told, outcomes_before};
ghost use Rattle.kernel_copy.specs.declared.kept.Keep.{Keep};
ghost use Rattle.kernel_copy.specs.declared.kept.Keep.TheVariants as keeping;
ghost use Rattle.kernel_copy.specs.declared.run.Outcome.{Outcome};
ghost use Rattle.trace_bundle.specs.Outcomes.{all_told, outcome_at};
ghost use Rattle.trace_bundle.specs.Ran.{IsFramedRunOf, IsListedRunOf, IsRunOf, IsTalliedRunOf};

/// The outcomes of all segments in order of number, as workers give them, are a run of the course, whatever was kept;
/// where frames were, or a tally, it is one with them, and where the entries were, one that holds them themselves.
pub fn outcomes_are_a_run()
    ensures run { (c : CourseTold) (keep : Keep) (xs : List Outcome) → map outcome_told xs ≡ outcomes_before c keep (length (segments_in c.plan)) →
        IsRunOf c (length xs) (λ s. (outcome_at (all_told xs) s).kept) (λ s. (outcome_at (all_told xs) s).closing) }
    ensures framed { (c : CourseTold) (keep : Keep) (xs : List Outcome) → KeepsFrames keep → map outcome_told xs ≡ outcomes_before c keep (length (segments_in c.plan)) →
        IsFramedRunOf c (length xs) (λ s. (outcome_at (all_told xs) s).kept) (λ s. (outcome_at (all_told xs) s).closing) }
    ensures tallied { (c : CourseTold) (keep : Keep) (xs : List Outcome) → KeepsTally keep → map outcome_told xs ≡ outcomes_before c keep (length (segments_in c.plan)) →
        IsTalliedRunOf c (length xs) (λ s. (outcome_at (all_told xs) s).kept) (λ s. (outcome_at (all_told xs) s).closing) }
    ensures listed { (c : CourseTold) (xs : List Outcome) → map outcome_told xs ≡ outcomes_before c keeping.Entries (length (segments_in c.plan)) →
        IsListedRunOf c (length xs) (λ s. (outcome_at (all_told xs) s).kept) (λ s. (outcome_at (all_told xs) s).closing) }
{}

/// A run that holds the entries themselves is a run of the course, and one with the frames.
pub fn listed_runs_are_runs()
    ensures run { (c : CourseTold) (held : ℕ) (kept_of : ℕ → KeptTold) (closing_of : ℕ → Closing) → IsListedRunOf c held kept_of closing_of → IsRunOf c held kept_of closing_of }
    ensures framed { (c : CourseTold) (held : ℕ) (kept_of : ℕ → KeptTold) (closing_of : ℕ → Closing) → IsListedRunOf c held kept_of closing_of → IsFramedRunOf c held kept_of closing_of }
{}

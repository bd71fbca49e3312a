//! What is so of the full run of each branch.

ghost use Rattle.std.specs.Prelude.{ℕ, IsSome};
ghost use Rattle.kernel_core.specs.Step.{end_of};
ghost use Rattle.kernel_copy.specs.Courses.{CourseTold};
ghost use Rattle.study_report.specs.Difference.{IsNumbered};
ghost use Rattle.study_report.specs.Tables.{run_of};

/// The records of each branch's full run are numbered 1, 2, 3 and so on, whatever the opening and the branches are.
pub fn runs_are_numbered()
    ensures { (c : CourseTold) (b : ℕ) → IsNumbered (run_of c b).entries }
{}

/// Each branch's full run has ended.
pub fn runs_have_ended()
    ensures { (c : CourseTold) (b : ℕ) → IsSome (end_of c.opening (run_of c b).state) }
{}

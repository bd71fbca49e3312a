//! What reading answers of what was written.

ghost use Rattle.std.specs.Prelude.{◌≡◌, ℕ, All};
ghost use Rattle.kernel_copy.specs.Courses.{CourseTold, IsCourse};
ghost use Rattle.trace_bundle.specs.Bundle.{bundle_of};
ghost use Rattle.bundle_reader.specs.Bundle.{IsBranch, IsBundle, IsSplit, bundle_bytes};
ghost use Rattle.audit_desk.specs.Back.{branch_back, bundle_back};
ghost use Rattle.audit_desk.specs.Ranges.{IsInRange};

use kernel_copy::laws::courses_stay_in_range;
use market_laws::fields::{edits_are_marked, feeds_are_of_their_kinds, feeds_stay_in_range};

/// What is written of a course is the bytes of what tells the branches' full runs with their feed as reading splits it. That is
/// a bundle, which reading answers, where each name has 1 to 32 bytes and the fields of events, of the messages behind them and
/// of closings are in their ranges; all other fields are so in every course.
pub fn bundles_come_back()
    ensures bytes { (c : CourseTold) → bundle_bytes (bundle_back c) ≡ bundle_of c }
    ensures split { (c : CourseTold) (b : ℕ) → IsSplit (branch_back c b).entries }
    ensures branches { (c : CourseTold) → IsCourse c → All (IsBranch (bundle_back c).stocks (bundle_back c).agents) (bundle_back c).branches }
    ensures bundle { (c : CourseTold) → IsCourse c → IsInRange c → IsBundle (bundle_back c) }
{
    feeds_are_of_their_kinds();
    feeds_stay_in_range();
    edits_are_marked();
    courses_stay_in_range();
}

//! The bundle of a study that the rules accept passes its audit.

ghost use Rattle.std.specs.Prelude.{◌≡◌, ℕ, List, Option, None, Ok, All};
ghost use Rattle.toml.specs.Data.{Members};
ghost use Rattle.kernel_copy.specs.Courses.{CourseTold, IsCourse};
ghost use Rattle.trace_bundle.specs.Bundle.{bundle_of};
ghost use Rattle.bundle_reader.specs.Told.{BundleTold};
ghost use Rattle.bundle_reader.specs.Reading.{read, reading_of};
ghost use Rattle.audit_desk.specs.Back.{bundle_back};
ghost use Rattle.market_laws.specs.Texts.{AreMessagesSpelled};
ghost use Rattle.study_rules.specs.Accepted.{StudyTold, study_of};
ghost use Rattle.audit_desk.specs.Agrees.{Agrees};
ghost use Rattle.audit_desk.specs.Audited.{audit_of};
ghost use Rattle.audit_desk.specs.Clipped.{AreNamed, clipped};

use crate::laws::a_passed_audit_says_equal;
use crate::readable::{
    accepted_bundles_always_read, accepted_studies_are_courses, bundles_always_read,
    what_fits_stays,
};
use kernel_copy::laws::courses_stay_in_range;
use market_laws::laws::{live_orders_of_courses_are_small, runs_are_what_the_exchange_met};
use market_laws::shown::feeds_tell_the_books;

/// In no branch of a course does the feed tell other books than the closing: every message of the feed can be applied, and the
/// displayed orders and trading states that it tells are the closing's, order by order and field by field. So an audit finds
/// nothing in what is told of the course's runs, nor in what the fields of its bundle hold of it.
pub fn feeds_tell_the_closings()
    ensures agree { (c : CourseTold) → IsCourse c → All (Agrees (bundle_back c).stocks) (bundle_back c).branches }
    ensures told { (c : CourseTold) → IsCourse c → audit_of (bundle_back c) ≡ None }
    ensures clipped { (c : CourseTold) → IsCourse c → audit_of (clipped (bundle_back c)) ≡ None }
{
    courses_stay_in_range();
    runs_are_what_the_exchange_met();
    feeds_tell_the_books();
    live_orders_of_courses_are_small();
    what_fits_stays();
    a_passed_audit_says_equal();
}

/// The bytes that are written of a course read as a bundle in which an audit finds nothing. So it is of every study that the
/// rules accept: of its bytes an audit answers neither that they are no bundle nor that a branch fails.
pub fn honest_bundles_pass()
    ensures course { (c : CourseTold) → IsCourse c → AreMessagesSpelled c → AreNamed c → (b : BundleTold) → reading_of (bundle_of c) ≡ read b → audit_of b ≡ None }
    ensures study { (t : Members) (series : Option (List ℕ)) (s : StudyTold) → study_of t series ≡ Ok s → (b : BundleTold) × (reading_of (bundle_of s.course) ≡ read b) × (audit_of b ≡ None) }
{
    feeds_tell_the_closings();
    bundles_always_read();
    accepted_studies_are_courses();
    accepted_bundles_always_read();
}

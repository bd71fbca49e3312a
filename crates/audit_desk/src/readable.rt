//! The bytes that are written of a course always read as a bundle.

ghost use Rattle.std.specs.Prelude.{◌≡◌, ◌^◌, ◌+◌, ◌-◌, ℕ, List, Option, Ok, All, length, map, negsuc, pos};
ghost use Rattle.toml.specs.Data.{Members};
ghost use Rattle.market_types.specs.declared.feed.Feed.{Feed};
ghost use Rattle.wire_fields.specs.Wire.{IsInRange};
ghost use Rattle.itch_codec.specs.Messages.{feed_wire};
ghost use Rattle.branch_tree.specs.Names.{IsNameLength};
ghost use Rattle.bundle_frames.specs.declared.closing.Closing.{Closing};
ghost use Rattle.kernel_copy.specs.Courses.{CourseTold, IsCourse};
ghost use Rattle.feed_rebuild.specs.Fold.{Told, fold, told_what};
ghost use Rattle.audit_desk.specs.Audited.{displayed, states_of};
ghost use Rattle.trace_bundle.specs.Bundle.{bundle_of};
ghost use Rattle.bundle_reader.specs.Told.{BundleTold};
ghost use Rattle.bundle_reader.specs.Bundle.{IsBundle, bundle_bytes};
ghost use Rattle.bundle_reader.specs.Reading.{read, reading_of};
ghost use Rattle.study_rules.specs.Accepted.{StudyTold, study_of};
ghost use Rattle.audit_desk.specs.Back.{bundle_back};
ghost use Rattle.audit_desk.specs.Ranges.{IsInRange as IsCourseInRange};
ghost use Rattle.market_laws.specs.Texts.{AreMessagesSpelled};
ghost use Rattle.audit_desk.specs.Clipped.{AreNamed, IsComparable, TellsBooks, clipped, clipped_closing, clipped_feed};
ghost use Rattle.audit_desk.specs.ClippedWorked.{comes_at, one_branch};

use crate::accepted_laws::accepted_messages_are_spelled;
use crate::trip_laws::bundles_come_back;
use branch_tree::Branch;
use bundle_reader::laws::bytes_are_read_as_told;
use kernel_copy::Course;
use kernel_copy::closing_laws::agents_have_all_positions;
use kernel_copy::laws::courses_stay_in_range;
use market_laws::fields::{edits_are_marked, feeds_stay_in_range, texts_stay_in_range};

/// A bundle is written as the same bytes where each number is taken as its field holds it.
pub fn fields_hold_last_bytes()
    ensures { (b : BundleTold) → bundle_bytes (clipped b) ≡ bundle_bytes b }
{}

/// Messages whose fields are in their ranges are left as they are. What a message tells the books stays where these numbers of it
/// fit, and so does what a closing is compared with; the trading states always do.
pub fn what_fits_stays()
    ensures message { (m : Feed) → IsInRange (feed_wire m) → clipped_feed m ≡ m }
    ensures told { (t : Told) (m : Feed) → TellsBooks m → told_what t (clipped_feed m).locate (clipped_feed m).what ≡ told_what t m.locate m.what }
    ensures feed { (stocks : ℕ) (feed : List Feed) → All TellsBooks feed → fold stocks (map clipped_feed feed) ≡ fold stocks feed }
    ensures displayed { (c : Closing) → All IsComparable c.orders → displayed (clipped_closing c) ≡ displayed c }
    ensures states { (c : Closing) → states_of (clipped_closing c) ≡ states_of c }
{}

/// The bytes that are written of a course are read as a bundle, whatever its runs come to, where the orders that its edits inject
/// are ones that a message can hold and each branch has a name: a number never spoils a frame. Where all numbers fit their fields
/// it is the bundle that tells the runs.
pub fn bundles_always_read()
    ensures bundle { (c : CourseTold) → IsCourse c → AreMessagesSpelled c → AreNamed c → IsBundle (clipped (bundle_back c)) }
    ensures read { (c : CourseTold) → IsCourse c → AreMessagesSpelled c → AreNamed c → reading_of (bundle_of c) ≡ read (clipped (bundle_back c)) }
    ensures fitting { (c : CourseTold) → IsCourse c → AreMessagesSpelled c → IsCourseInRange c → clipped (bundle_back c) ≡ bundle_back c }
{
    fields_hold_last_bytes();
    courses_stay_in_range();
    agents_have_all_positions();
    feeds_stay_in_range();
    edits_are_marked();
    texts_stay_in_range();
    bundles_come_back();
    bytes_are_read_as_told();
}

// The names of branches.
fn names_fit(branches: &[Branch])
    ensures { All (λ b. IsNameLength (length b.name)) branches.now }
{
    for i in 0..branches.len() {
        let _ = branches[i].name.len();
    }
}

/// Each branch of a course has a name, by the type of names.
pub fn branches_have_names(course: &Course)
    ensures { AreNamed course.now }
{
    names_fit(course.plan().branches());
}

/// What is accepted is a course, each of whose branches has a name.
pub fn accepted_studies_are_courses()
    ensures course { (t : Members) (series : Option (List ℕ)) (s : StudyTold) → study_of t series ≡ Ok s → IsCourse s.course }
    ensures named { (t : Members) (series : Option (List ℕ)) (s : StudyTold) → study_of t series ≡ Ok s → AreNamed s.course }
{}

/// The bytes that are written of an accepted study are read as a bundle.
pub fn accepted_bundles_always_read()
    ensures { (t : Members) (series : Option (List ℕ)) (s : StudyTold) → study_of t series ≡ Ok s → reading_of (bundle_of s.course) ≡ read (clipped (bundle_back s.course)) }
{
    accepted_studies_are_courses();
    accepted_messages_are_spelled();
    bundles_always_read();
}

/// A price, a fee and a count that are too large for their fields are taken as their last bytes, a fee as a signed number. A
/// number that fits and a text stay.
pub fn numbers_too_large()
    ensures large { clipped (one_branch (2 ^ 32 + 5) (pos (2 ^ 64 - 1)) (2 ^ 65 + 3)) ≡ one_branch 5 (negsuc 0) 3 }
    ensures fitting { clipped (one_branch (2 ^ 32 - 1) (negsuc 4) (2 ^ 64 - 1)) ≡ one_branch (2 ^ 32 - 1) (negsuc 4) (2 ^ 64 - 1) }
    ensures told { clipped_feed (comes_at (2 ^ 32)) ≡ comes_at 0 }
{}

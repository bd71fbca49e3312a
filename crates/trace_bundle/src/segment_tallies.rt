//! The tallies of segments' own entries, and those of a bundle's parts with them.

ghost use Rattle.std.specs.Prelude.{ℕ, List, IfOk, length};
ghost use Rattle.branch_tree.specs.Segments.{segments_in};
ghost use Rattle.kernel_copy.specs.Kept.{IsWritable, kept_told};
ghost use Rattle.trace_bundle.specs.Ran.{IsTalliedRunOf};
ghost use Rattle.kernel_copy.specs.Tallies.{IsTallyOf};
ghost use Rattle.trace_bundle.specs.Tallied.{AreTalliesOf, IsKeptOf};

use crate::carrier::Carrier;
use crate::ran::RunOutcomes;
use kernel_copy::laws::courses_stay_in_range;
use kernel_copy::{Course, Kept, Tally};
use plain_lists::Memory;
use std::alloc::Global;

/// The tally of each segment's own entries, with which the parts of a bundle are carried to a tally: the bytes of a segment are
/// summed once, however many branches have them.
#[derive(Drop)]
pub(crate) struct SegmentTallies {
    tallies: Vec<Tally>,
}

// The tally of the frames of what is kept: bytes are read where they lie, and a tally stands already.
fn of_kept(alloc: Global, kept: &Kept) -> Result<Tally, Memory>
    requires { IsWritable (kept_told kept.now) }
    ensures { (bytes : List ℕ) → IsKeptOf (kept_told kept.now) bytes → IfOk result (λ t. IsTallyOf t bytes 1) }
{
    match kept {
        Kept::Frames(bytes) => Ok(Tally::new().with(bytes)),
        Kept::Tallied(tally) => tally.tally(),
        Kept::Entries(_) | Kept::Nothing => {
            let mut bytes = Vec::new(alloc);
            kept.put(&mut bytes)?;
            Ok(Tally::new().with(&bytes))
        }
    }
}

/// The tally of each segment's own entries.
///
/// # Errors
/// Want of memory alone.
pub(crate) fn segment_tallies<W: RunOutcomes>(
    alloc: Global,
    course: &Course,
    ran: &W,
) -> Result<SegmentTallies, Memory>
    requires { IsTalliedRunOf course.now (W.count ran.now) (W.kept_of ran.now) (W.closing_of ran.now) }
    ensures { IfOk result (λ s. AreTalliesOf course.now (length (segments_in course.now.plan)) s.tallies.items) }
{
    courses_stay_in_range();
    let count = course.plan().segments().len() as u32;
    let mut tallies = Vec::new(alloc);
    for segment in 0..count {
        tallies.push(of_kept(alloc, ran.kept(segment))?)?;
    }
    Ok(SegmentTallies { tallies })
}

impl Carrier<Tally> for SegmentTallies {
    ghost use Rattle.std.specs.Prelude.{OnOk};
    ghost use Rattle.trace_bundle.specs.Tallied.{IsOwnTally, IsWith};
    ghost use Rattle.trace_bundle.specs.Carrying.{with-behind, with-nothing};

    type Error = Memory;

    ghost Carried = { λ d e bytes parts r. OnOk r (IsWith d e bytes parts) };

    ghost IsOwn = { λ s k kept bytes. IsOwnTally s.tallies.items k bytes };

    fn bytes(&self, to: &mut Tally, bytes: &[u8]) -> Result<(), Memory> {
        *to = to.with(bytes);
        Ok(())
    }

    fn segment(&self, to: &mut Tally, segment: u32, _kept: &Kept) -> Result<(), Memory> {
        *to = to.followed_by(self.tallies[segment as usize]);
        Ok(())
    }

    ghost nothing = { with-nothing };

    ghost behind = { with-behind };

    ghost cut = { λ d e a b m n error c. tt };

    ghost memory = { λ d a n refused error c. tt };
}

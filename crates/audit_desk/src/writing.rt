//! A study's bundle as one list of bytes.

ghost use Rattle.std.specs.Prelude.{◌≡◌, IfOk};
ghost use Rattle.trace_bundle.specs.Bundle.{bundle_of};
ghost use Rattle.trace_bundle.specs.Ran.{IsFramedRunOf};

use kernel_copy::Course;
use market_types::Memory;
use std::alloc::Global;
use trace_bundle::{RunOutcomes, ToBytes, send_bundle};

/// The bytes of a study's bundle, from a run of its segments: what the program writes, in one piece.
///
/// # Errors
/// Want of memory alone.
pub fn written<W: RunOutcomes>(alloc: Global, course: &Course, ran: &W) -> Result<Vec<u8>, Memory>
    requires { IsFramedRunOf course.now (W.count ran.now) (W.kept_of ran.now) (W.closing_of ran.now) }
    ensures { IfOk result (λ v. v.items ≡ bundle_of course.now) }
{
    let mut out = Vec::new(alloc);
    send_bundle(alloc, course, ran, &ToBytes, &mut out)?;
    Ok(out)
}

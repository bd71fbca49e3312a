//! Parts of a bundle that are put behind bytes in memory.

ghost use Rattle.std.specs.Prelude.{◌≡◌, ◌<◌, ◌++◌, OnOk, OnErr, length};
ghost use Rattle.trace_bundle.specs.Bundle.{trace_of};
ghost use Rattle.trace_bundle.specs.Ran.{IsFramedRunOf};

use crate::carrier::Carrier;
use crate::ran::RunOutcomes;
use crate::send::send_branch;
use kernel_copy::{Course, Kept};
use plain_lists::Memory;

/// Carries the parts of a bundle to a vector. What stands in the vector after want of memory is left open.
#[derive(Clone, Copy)]
pub struct ToBytes;

impl Carrier<Vec<u8>> for ToBytes {
    ghost use Rattle.std.specs.Prelude.{◌≡◌, ◌++◌, OnOk};
    ghost use Rattle.kernel_copy.specs.Kept.{frames_of};
    ghost use Rattle.trace_bundle.specs.Carrying.{bytes-behind, bytes-nothing};

    type Error = Memory;

    ghost Carried = { λ d e bytes parts r. OnOk r (e.items ≡ d.items ++ bytes) };

    ghost IsOwn = { λ s k kept bytes. frames_of kept ≡ bytes };

    fn bytes(&self, to: &mut Vec<u8>, bytes: &[u8]) -> Result<(), Memory> {
        to.extend_from_slice(bytes)?;
        Ok(())
    }

    fn segment(&self, to: &mut Vec<u8>, _segment: u32, kept: &Kept) -> Result<(), Memory> {
        kept.put(to)
    }

    ghost nothing = { λ d. bytes-nothing d.items };

    ghost behind = { λ d e f. bytes-behind d.items e.items f.items };

    ghost cut = { λ d e a b m n error c. tt };

    ghost memory = { λ d a n refused error c. tt };
}

/// Appends the trace of a branch, which is that of its full run. No other branch's bytes are held.
///
/// # Errors
/// Want of memory alone. The bytes are then as they were.
pub fn write_branch<W: RunOutcomes>(
    course: &Course,
    ran: &W,
    branch: u16,
    out: &mut Vec<u8>,
) -> Result<(), Memory>
    requires branch { branch < length course.now.plan.branches }
    requires ran { IsFramedRunOf course.now (W.count ran.now) (W.kept_of ran.now) (W.closing_of ran.now) }
    ensures appended { OnOk result (out.new.items ≡ out.old.items ++ trace_of course.now branch) }
    ensures refused { OnErr result (out.new.items ≡ out.old.items) }
{
    let alloc = *out.allocator();
    let mut bytes = Vec::new(alloc);
    send_branch(alloc, course, ran, branch, &ToBytes, &mut bytes)?;
    out.extend_from_slice(&bytes)?;
    Ok(())
}

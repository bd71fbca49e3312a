//! Full runs as the entries of their segments, one after another.

ghost use Rattle.std.specs.Prelude.{◌≡◌, ◌<◌, IfOk, length};
ghost use Rattle.std.specs.List.{flat_map};
ghost use Rattle.trace_bundle.specs.Ran.{IsListedRunOf};
ghost use Rattle.study_report.specs.Chains.{AreSegments, entries_along};
ghost use Rattle.study_report.specs.Tables.{run_of};

use crate::chains::chain_of;
use kernel_copy::Course;
use market_types::Memory;
use probe_desk::Summed;
use std::alloc::Global;
use trace_bundle::{RunOutcomes, summed_of_segment};

/// The own entries of segments, one after another.
pub(crate) fn parts_along<'a, W: RunOutcomes>(
    alloc: Global,
    course: &Course,
    ran: &'a W,
    chain: &[u32],
) -> Result<Vec<&'a Summed>, Memory>
    requires chain { AreSegments course.now chain.now }
    requires ran { IsListedRunOf course.now (W.count ran.now) (W.kept_of ran.now) (W.closing_of ran.now) }
    ensures { IfOk result (λ v. flat_map (λ t. t.now.list) v.items ≡ entries_along course.now chain.now) }
{
    let mut parts = Vec::new(alloc);
    for i in 0..chain.len() {
        parts.push(summed_of_segment(course, ran, chain[i]))?;
    }
    Ok(parts)
}

/// The entries of the segments that a branch's full run goes along, in order.
pub(crate) fn parts_of<'a, W: RunOutcomes>(
    alloc: Global,
    course: &Course,
    ran: &'a W,
    branch: u16,
) -> Result<Vec<&'a Summed>, Memory>
    requires branch { branch < length course.now.plan.branches }
    requires ran { IsListedRunOf course.now (W.count ran.now) (W.kept_of ran.now) (W.closing_of ran.now) }
    ensures { IfOk result (λ v. flat_map (λ t. t.now.list) v.items ≡ (run_of course.now branch).entries) }
{
    let chain = chain_of(alloc, course, branch)?;
    parts_along(alloc, course, ran, chain.as_slice())
}

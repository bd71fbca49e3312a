//! The small parts of a study's bundle: all but the entries.

ghost use Rattle.std.specs.Prelude.{◌≡◌, ◌<◌, ◌+◌, ◌++◌, OnOk, OnErr, IfOk, length};
ghost use Rattle.bundle_frames.specs.Frames.{branch_frame, end_frame};
ghost use Rattle.branch_tree.specs.Plan.{branch_at};
ghost use Rattle.kernel_copy.specs.Full.{full_run};
ghost use Rattle.trace_bundle.specs.Bundle.{end_of_trace, header_of, opening_of_trace, parent_written};
ghost use Rattle.trace_bundle.specs.Ran.{IsRunOf};

use crate::ends::closing_of_branch;
use crate::feed::{put_opening, system_event};
use crate::forks::stop_written;
use crate::ran::RunOutcomes;
use bundle_frames::{Written, put_branch, put_end, put_header};
use kernel_copy::Course;
use market_types::Memory;
use std::alloc::Global;

// How many agents a course has, with the exchange.
fn agents(course: &Course) -> u16
    ensures { result ≡ length course.now.opening.traders + 1 }
{
    course.opening().traders.as_slice().len() as u16 + 1
}

// How many stocks a course has.
fn stocks(course: &Course) -> u16
    ensures { result ≡ length course.now.opening.stocks }
{
    course.opening().stocks.as_slice().len() as u16
}

// How many branches a course has.
fn branches(course: &Course) -> u16
    ensures { result ≡ length course.now.plan.branches }
{
    course.plan().branches().len() as u16
}

/// Appends the header of a study's bundle.
///
/// # Errors
/// Want of memory alone. The bytes are then as they were.
pub fn write_header(course: &Course, out: &mut Vec<u8>) -> Result<(), Memory>
    ensures appended { OnOk result (out.new.items ≡ out.old.items ++ header_of course.now) }
    ensures refused { OnErr result (out.new.items ≡ out.old.items) }
{
    put_header(out, agents(course), stocks(course), branches(course))
}

/// Appends the frame of a branch with this event number as its stop. The root's parent is written as 65,535.
///
/// # Errors
/// Want of memory alone. The bytes are then as they were.
pub fn put_branch_head(
    out: &mut Vec<u8>,
    course: &Course,
    branch: u16,
    stop: u32,
) -> Result<(), Memory>
    requires { branch < length course.now.plan.branches }
    ensures appended { OnOk result (out.new.items ≡ out.old.items ++ branch_frame branch (parent_written course.now branch) stop (branch_at course.now.plan.branches branch).name) }
    ensures refused { OnErr result (out.new.items ≡ out.old.items) }
{
    let b = &course.plan().branches()[usize::from(branch)];
    b.name.know_length();
    let parent = if branch == 0 { u16::MAX } else { b.parent };
    put_branch(out, branch, parent, stop, b.name.as_slice())
}

/// The header of a study's bundle.
pub(crate) fn header_bytes(alloc: Global, course: &Course) -> Result<Vec<u8>, Memory>
    ensures { IfOk result (λ v. v.items ≡ header_of course.now) }
{
    let mut bytes = Vec::new(alloc);
    write_header(course, &mut bytes)?;
    Ok(bytes)
}

/// What stands in the trace of a branch before the entries: its frame, and the feed of the opening.
pub(crate) fn opening_bytes<W: RunOutcomes>(
    alloc: Global,
    course: &Course,
    ran: &W,
    branch: u16,
) -> Result<Vec<u8>, Memory>
    requires branch { branch < length course.now.plan.branches }
    requires ran { IsRunOf course.now (W.count ran.now) (W.kept_of ran.now) (W.closing_of ran.now) }
    ensures { IfOk result (λ v. v.items ≡ opening_of_trace course.now branch) }
{
    let mut bytes = Vec::new(alloc);
    put_branch_head(
        &mut bytes,
        course,
        branch,
        stop_written(course, ran, branch),
    )?;
    put_opening(&mut bytes, course.opening())?;
    Ok(bytes)
}

/// What stands in the trace of a branch behind the entries: the end of the feed, and the closing of its full run.
pub(crate) fn ending_bytes<W: RunOutcomes>(
    alloc: Global,
    course: &Course,
    ran: &W,
    branch: u16,
) -> Result<Vec<u8>, Memory>
    requires branch { branch < length course.now.plan.branches }
    requires ran { IsRunOf course.now (W.count ran.now) (W.kept_of ran.now) (W.closing_of ran.now) }
    ensures { IfOk result (λ v. v.items ≡ end_of_trace course.now (full_run course.now.opening course.now.plan branch)) }
{
    let closing = closing_of_branch(course, ran, branch);
    let mut bytes = Vec::new(alloc);
    system_event(closing.counts.time, b'C').put(&mut bytes)?;
    closing.put(&mut bytes)?;
    Ok(bytes)
}

/// The end of a bundle of so many branches.
pub(crate) fn end_bytes(alloc: Global, branches: u16) -> Result<Vec<u8>, Memory>
    ensures { IfOk result (λ v. v.items ≡ end_frame branches) }
{
    let mut bytes = Vec::new(alloc);
    put_end(&mut bytes, branches)?;
    Ok(bytes)
}

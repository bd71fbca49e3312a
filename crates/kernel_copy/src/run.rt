//! How a segment of a course is run, from where it goes on to what its end tells.

ghost use Rattle.std.specs.Prelude.{◌≡◌, ◌<◌, ◌≤◌, ◌+◌, ◌-◌, ◌^◌, [], Some, Ok, OnOk, IfOk, length, option_map, nat_lt, All};
ghost use Rattle.branch_tree.specs.Planned.{IsTree};
ghost use Rattle.branch_tree.specs.Segments.{segments_in, segment_at, last_of};
ghost use Rattle.kernel_core.specs.Edited.{IsEditOf, edited_from};
ghost use Rattle.kernel_core.specs.Open.{opened};
ghost use Rattle.kernel_core.specs.Step.{Fits};
ghost use Rattle.kernel_core.specs.Seen.{folded};
ghost use Rattle.kernel_core.specs.Until.{until};
ghost use Rattle.market_types.specs.Timely.{IsTimely};
ghost use Rattle.kernel_copy.specs.Closing.{closing_at};
ghost use Rattle.kernel_copy.specs.Courses.{kept_of};
ghost use Rattle.kernel_copy.specs.Kept.{entries, frames, kept_told, kept_with, tallied};
ghost use Rattle.kernel_copy.specs.Ran.{ran_told, ran_with};
ghost use Rattle.kernel_copy.specs.Reached.{IsReached};
ghost use Rattle.kernel_copy.specs.UntilStop.{until_part};
ghost use Rattle.kernel_copy.specs.Segmentwise.{afresh, segment_end, started_from};

use crate::checkpoint::Checkpoint;
use crate::closing_of;
use crate::course::Course;
use crate::frame_bytes::FrameBytes;
use crate::kept::Kept;
use crate::keys::number_of_end;
use crate::laws::courses_stay_in_range;
use crate::summed_events::SummedEvents;
use crate::tallied::Tallied;
use crate::unkept::Unkept;
use branch_tree::{BranchPlan, Stop};
use bundle_frames::Closing;
use kernel_core::{Keeper, Kernel};
use market_floor::Opening;
use market_rules::Edit;
use market_types::{Memory, Trace};
use outside::{Ledger, Steps};
use probe_desk::Summed;
use shelf_core::Key;
use std::alloc::Global;
use std::mem::replace;
use std::sync::Arc;

/// What a segment's run gave.
#[derive(Drop)]
pub struct Outcome {
    /// The segment's number.
    pub segment: u32,
    /// What is kept of its own entries.
    pub kept: Kept,
    /// How many events stand at its end.
    pub events: u32,
    /// The closing of its end.
    pub closing: Closing,
}

/// A segment's run, as far as it went.
#[derive(Drop)]
pub struct Ran {
    /// What is kept of its own entries.
    pub kept: Kept,
    /// The kernel.
    pub kernel: Kernel,
}

// Lets a kernel go on to a stop, and to no more than so many events. A keeper takes each event as it is made.
fn run_part<K: Keeper, L: Ledger>(
    alloc: Global,
    o: &Opening,
    stop: Stop,
    most: u32,
    kernel: &mut Kernel,
    keeper: &mut K,
    steps: &mut Steps<L>,
) -> Result<(), Memory>
    requires fits { Fits o.now kernel.old }
    requires count { steps.old + (most - kernel.old.events) < 2 ^ 64 }
    ensures state { OnOk result (kernel.new ≡ (until_part o.now stop most (afresh kernel.old)).state) }
    ensures kept { OnOk result (K.told keeper.new ≡ folded K.with (K.told keeper.old) (until_part o.now stop most (afresh kernel.old)).entries) }
    ensures made { kernel.new ≡ (until o.now kernel.new.events (afresh kernel.old)).state }
    ensures ticks { steps.new + kernel.old.events ≡ steps.old + kernel.new.events }
    ensures grows { kernel.old.events ≤ kernel.new.events }
    ensures within { kernel.new.events ≤ (until_part o.now stop most (afresh kernel.old)).state.events }
    ensures fitting { Fits o.now kernel.new }
{
    match stop {
        Stop::At(events) => {
            kernel.run_into(alloc, o, events.min(most), keeper, steps)?;
            Ok(())
        }
        Stop::When(time) => {
            kernel.run_into_time(alloc, o, time, most, keeper, steps)?;
            Ok(())
        }
    }
}

// The highest event number at which a run to a stop can end, under a limit of events.
fn last_number(stop: Stop, limit: u32) -> u32 {
    match stop {
        Stop::At(events) => events.min(limit),
        Stop::When(_) => limit,
    }
}

// Runs a kernel on to a stop, and to no more than so many events, and appends the frames of each event to bytes.
fn run_in_frames<L: Ledger>(
    alloc: Global,
    o: &Opening,
    stop: Stop,
    most: u32,
    kernel: &mut Kernel,
    bytes: &mut Vec<u8>,
    steps: &mut Steps<L>,
) -> Result<(), Memory>
    requires fits { Fits o.now kernel.old }
    requires count { steps.old + (most - kernel.old.events) < 2 ^ 64 }
    ensures state { OnOk result (kernel.new ≡ (until_part o.now stop most (afresh kernel.old)).state) }
    ensures kept { OnOk result (frames bytes.new.items ≡ kept_with (frames bytes.old.items) (until_part o.now stop most (afresh kernel.old)).entries) }
    ensures made { kernel.new ≡ (until o.now kernel.new.events (afresh kernel.old)).state }
    ensures ticks { steps.new + kernel.old.events ≡ steps.old + kernel.new.events }
    ensures grows { kernel.old.events ≤ kernel.new.events }
    ensures within { kernel.new.events ≤ (until_part o.now stop most (afresh kernel.old)).state.events }
    ensures fitting { Fits o.now kernel.new }
{
    let mut frames = FrameBytes {
        bytes: replace(bytes, Vec::new(alloc)),
    };
    frames.expect(last_number(stop, o.limit).saturating_sub(kernel.events()));
    let ran = run_part(alloc, o, stop, most, kernel, &mut frames, steps);
    *bytes = frames.bytes;
    ran
}

// Runs a kernel on to a stop, and to no more than so many events, and packs each event and adds it
// to the sums.
fn run_summed<L: Ledger>(
    alloc: Global,
    o: &Opening,
    stop: Stop,
    most: u32,
    kernel: &mut Kernel,
    summed: &mut Summed,
    steps: &mut Steps<L>,
) -> Result<(), Memory>
    requires fits { Fits o.now kernel.old }
    requires count { steps.old + (most - kernel.old.events) < 2 ^ 64 }
    ensures state { OnOk result (kernel.new ≡ (until_part o.now stop most (afresh kernel.old)).state) }
    ensures kept { OnOk result (entries summed.new.list ≡ kept_with (entries summed.old.list) (until_part o.now stop most (afresh kernel.old)).entries) }
    ensures made { kernel.new ≡ (until o.now kernel.new.events (afresh kernel.old)).state }
    ensures ticks { steps.new + kernel.old.events ≡ steps.old + kernel.new.events }
    ensures grows { kernel.old.events ≤ kernel.new.events }
    ensures within { kernel.new.events ≤ (until_part o.now stop most (afresh kernel.old)).state.events }
    ensures fitting { Fits o.now kernel.new }
{
    let mut events = SummedEvents {
        summed: replace(summed, Summed::new(alloc)),
    };
    let left = last_number(stop, o.limit)
        .min(most)
        .saturating_sub(kernel.events());
    events.summed.expect(left as usize);
    let ran = run_part(alloc, o, stop, most, kernel, &mut events, steps);
    drop(replace(summed, events.summed));
    ran
}

// Runs a kernel on to a stop, and to no more than so many events, and tallies the frames of each event.
fn run_tallied<L: Ledger>(
    alloc: Global,
    o: &Opening,
    stop: Stop,
    most: u32,
    kernel: &mut Kernel,
    tally: &mut Tallied,
    steps: &mut Steps<L>,
) -> Result<(), Memory>
    requires fits { Fits o.now kernel.old }
    requires count { steps.old + (most - kernel.old.events) < 2 ^ 64 }
    ensures state { OnOk result (kernel.new ≡ (until_part o.now stop most (afresh kernel.old)).state) }
    ensures kept { OnOk result (tallied tally.new ≡ kept_with (tallied tally.old) (until_part o.now stop most (afresh kernel.old)).entries) }
    ensures made { kernel.new ≡ (until o.now kernel.new.events (afresh kernel.old)).state }
    ensures ticks { steps.new + kernel.old.events ≡ steps.old + kernel.new.events }
    ensures grows { kernel.old.events ≤ kernel.new.events }
    ensures within { kernel.new.events ≤ (until_part o.now stop most (afresh kernel.old)).state.events }
    ensures fitting { Fits o.now kernel.new }
{
    run_part(alloc, o, stop, most, kernel, tally, steps)
}

impl Ran {
    /// Lets a run go on to a stop, and to no more than so many events.
    ///
    /// # Errors
    /// Want of memory alone. The kernel is then the one after the events that were made, and what is kept is left open.
    pub fn run_to<L: Ledger>(
        &mut self,
        alloc: Global,
        o: &Opening,
        stop: Stop,
        most: u32,
        steps: &mut Steps<L>,
    ) -> Result<(), Memory>
        requires fits { Fits o.now self.old.kernel }
        requires count { steps.old + (most - self.old.kernel.events) < 2 ^ 64 }
        ensures ran { OnOk result (ran_told self.new ≡ ran_with (ran_told self.old) (until_part o.now stop most (afresh self.old.kernel))) }
        ensures made { self.new.kernel ≡ (until o.now self.new.kernel.events (afresh self.old.kernel)).state }
        ensures ticks { steps.new + self.old.kernel.events ≡ steps.old + self.new.kernel.events }
        ensures grows { self.old.kernel.events ≤ self.new.kernel.events }
        ensures within { self.new.kernel.events ≤ (until_part o.now stop most (afresh self.old.kernel)).state.events }
        ensures fitting { Fits o.now self.new.kernel }
    {
        match &mut self.kept {
            Kept::Entries(summed) => {
                run_summed(alloc, o, stop, most, &mut self.kernel, summed, steps)
            }
            Kept::Frames(bytes) => {
                run_in_frames(alloc, o, stop, most, &mut self.kernel, bytes, steps)
            }
            Kept::Tallied(tally) => {
                run_tallied(alloc, o, stop, most, &mut self.kernel, tally, steps)
            }
            Kept::Nothing => {
                run_part(alloc, o, stop, most, &mut self.kernel, &mut Unkept, steps)
            }
        }
    }
}

// Makes a branch's edits one after another, and enters each.
fn apply_all(
    alloc: Global,
    o: &Opening,
    branch: u16,
    edits: &[Edit],
    kernel: &mut Kernel,
    trace: &mut Trace,
) -> Result<(), Memory>
    requires reached { IsReached o.now 4080 kernel.old }
    requires few { length edits.now ≤ 16 }
    requires edits { All (λ e. IsEditOf (opened o.now) e) edits.now }
    ensures made { OnOk result (record { state = kernel.new; entries = trace.new.list } ≡ edited_from branch 0 edits.now (record { state = kernel.old; entries = trace.old.list })) }
    ensures timely { All IsTimely trace.old.list → All IsTimely trace.new.list }
    ensures fitting { Fits o.now kernel.new }
{
    for (i, edit) in edits.iter().enumerate() {
        kernel.apply(alloc, o, edit, branch, i as u16, trace)?;
    }
    Ok(())
}

/// Whether a segment isn't its branch's last, so that others go on from its end.
pub fn goes_on(plan: &BranchPlan, segment: u32) -> bool
    requires tree { IsTree plan.now.branches plan.now.limit }
    requires segment { segment < length (segments_in plan.now) }
    ensures { result ≡ nat_lt segment (last_of plan.now.branches (segment_at plan.now segment).branch) }
{
    let branch = plan.segments()[segment as usize].branch;
    let numbers = plan.segments_of(branch);
    segment < numbers[numbers.len() - 1]
}

/// A checkpoint of a segment's end, unless the segment is its branch's last.
///
/// # Errors
/// Want of memory alone.
pub fn kept_end(
    alloc: Global,
    course: &Arc<Course>,
    segment: u32,
    kernel: &Kernel,
) -> Result<Option<Arc<Checkpoint>>, Memory>
    requires segment { segment < length (segments_in course.now.value.plan) }
    requires state { kernel.now ≡ (segment_end course.now.value.opening course.now.value.plan (segment_at course.now.value.plan segment)).state }
    ensures { IfOk result (λ k. option_map (λ c. c.value) k ≡ kept_of course.now.value segment) }
{
    let plan = course.plan();
    if !goes_on(plan, segment) {
        return Ok(None);
    }
    let event = number_of_end(plan.segments()[segment as usize].stop);
    let end = Checkpoint::keep(alloc, course, Key { segment, event }, kernel)?;
    Ok(Some(end))
}

/// Lets a kernel at a segment's end go on as this branch, whose edits are made and entered where it is another branch than
/// the segment's.
///
/// # Errors
/// Want of memory alone. Which of the edits kernel and trace then have is left open.
pub fn go_on(
    alloc: Global,
    course: &Course,
    branch: u16,
    parent: u32,
    kernel: &mut Kernel,
    trace: &mut Trace,
) -> Result<(), Memory>
    requires segment { parent < length (segments_in course.now.plan) }
    requires branch { branch < length course.now.plan.branches }
    requires end { kernel.old ≡ (segment_end course.now.opening course.now.plan (segment_at course.now.plan parent)).state }
    requires empty { trace.old.list ≡ [] }
    ensures state { OnOk result (record { state = kernel.new; entries = trace.new.list } ≡ started_from course.now.opening course.now.plan branch (Some parent)) }
    ensures timely { All IsTimely trace.new.list }
    ensures fits { Fits course.now.opening kernel.new }
{
    courses_stay_in_range();
    if course.segment(parent).branch == branch {
        return Ok(());
    }
    let edits = course.edits(branch);
    apply_all(alloc, course.opening(), branch, edits, kernel, trace)
}

// What a segment's run tells, with its closing if there was memory for it.
fn told(
    segment: u32,
    events: u32,
    kept: Kept,
    closing: Result<Closing, Memory>,
) -> Result<Outcome, Memory>
    ensures segment { IfOk result (λ x. x.segment ≡ segment) }
    ensures kept { IfOk result (λ x. kept_told x.kept ≡ kept_told kept) }
    ensures events { IfOk result (λ x. x.events ≡ events) }
    ensures closing { IfOk result (λ x. closing ≡ Ok x.closing) }
{
    match closing {
        Ok(closing) => Ok(Outcome {
            segment,
            events,
            kept,
            closing,
        }),
        Err(refused) => {
            drop(kept);
            Err(refused)
        }
    }
}

/// What a segment's run tells.
///
/// # Errors
/// Want of memory alone.
pub fn outcome_at(alloc: Global, o: &Opening, segment: u32, ran: Ran) -> Result<Outcome, Memory>
    requires { Fits o.now ran.kernel }
    ensures segment { IfOk result (λ x. x.segment ≡ segment) }
    ensures kept { IfOk result (λ x. kept_told x.kept ≡ kept_told ran.kept) }
    ensures events { IfOk result (λ x. x.events ≡ ran.kernel.events) }
    ensures closing { IfOk result (λ x. x.closing ≡ closing_at o.now ran.kernel) }
{
    let closing = closing_of(alloc, o, &ran.kernel);
    let events = ran.kernel.events();
    drop(ran.kernel);
    told(segment, events, ran.kept, closing)
}

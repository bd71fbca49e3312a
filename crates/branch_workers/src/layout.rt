//! The shelf of a course.

ghost use Rattle.std.specs.Prelude.{◌≡◌, ◌<◌, ◌≤◌, ◌++◌, ◌-◌, IfOk, OnOk, length};
ghost use Rattle.branch_tree.specs.Planned.{IsTree};
ghost use Rattle.checkpoint_shelf.specs.Plans.{PlanFits};
ghost use Rattle.checkpoint_shelf.specs.Seats.{NewFrom};
ghost use Rattle.branch_workers.specs.Layout.{fork_keys, grid_keys, grid_of, layout, start_number, stop_number};
ghost use Rattle.branch_workers.specs.Runs.{IsShelfOf};

use branch_tree::{BranchPlan, Segment, Stop};
use checkpoint_shelf::{Key, Shelf, ShelfPlan, ShelfSeat};
use kernel_copy::{Checkpoint, Course, goes_on, number_of_end};
use market_types::Memory;
use plain_lists::Sequence;
use std::alloc::Global;

// The keys of the ends from which others go on.
fn forks(alloc: Global, plan: &BranchPlan) -> Result<Sequence<Key>, Memory>
    requires tree { IsTree plan.now.branches plan.now.limit }
    ensures { IfOk result (λ keys. keys ≡ fork_keys plan.now) }
{
    let mut keys = Sequence::empty(alloc);
    for (number, segment) in plan.segments().iter().enumerate() {
        let segment_number = number as u32;
        if goes_on(plan, segment_number) {
            keys.push(Key {
                segment: segment_number,
                event: number_of_end(segment.stop),
            })?;
        }
    }
    Ok(keys)
}

// The event number above which the grid of a segment with this start lies.
pub(crate) fn start_number(start: Stop) -> u32
    ensures { result ≡ start_number start }
{
    match start {
        Stop::At(events) => events,
        Stop::When(_) => 0,
    }
}

// The event number below which the grid of a segment with this stop lies.
pub(crate) fn stop_number(limit: u32, stop: Stop) -> u32
    ensures { result ≡ stop_number limit stop }
{
    match stop {
        Stop::At(events) => events,
        Stop::When(_) => limit,
    }
}

// The keys of a segment's grid join others: the stride is taken so many times, from the first multiple above the start on, as
// long as that is below the stop.
fn add_grid(
    keys: &mut Sequence<Key>,
    limit: u32,
    stride: u32,
    number: u32,
    segment: Segment,
) -> Result<(), Memory>
    requires stride { 0 < stride }
    requires start { start_number segment.start < 16777216 }
    ensures { OnOk result (keys.new ≡ keys.old ++ grid_of limit stride number segment) }
{
    let start = start_number(segment.start);
    let stop = stop_number(limit, segment.stop);
    let first = start / stride + 1;
    let past = stop.div_ceil(stride);
    for factor in first..past {
        let event = factor * stride;
        keys.push(Key {
            segment: number,
            event,
        })?;
    }
    Ok(())
}

// The keys of the grid.
fn grid(alloc: Global, plan: &BranchPlan, stride: u32) -> Result<Sequence<Key>, Memory>
    requires stride { 0 < stride }
    requires tree { IsTree plan.now.branches plan.now.limit }
    requires limit { plan.now.limit < 16777216 }
    ensures { IfOk result (λ keys. keys ≡ grid_keys plan.now stride) }
{
    let limit = plan.limit();
    let mut keys = Sequence::empty(alloc);
    for (number, segment) in plan.segments().iter().enumerate() {
        add_grid(&mut keys, limit, stride, number as u32, *segment)?;
    }
    Ok(keys)
}

// What a course's shelf is laid out for.
fn shelf_plan(alloc: Global, course: &Course, stride: u32, places: u32) -> Result<ShelfPlan, Memory>
    requires stride { 0 < stride }
    requires places { places ≤ 128 }
    ensures value { IfOk result (λ p. p ≡ layout course.now.plan stride places) }
    ensures fits { IfOk result PlanFits }
{
    let plan = course.plan();
    let Ok(forks) = forks(alloc, plan) else {
        return Err(Memory);
    };
    let Ok(grid) = grid(alloc, plan, stride) else {
        drop(forks);
        return Err(Memory);
    };
    Ok(ShelfPlan {
        segments: plan.segments().len() as u32,
        forks,
        grid,
        places,
    })
}

// The shelf on which a course's segments meet, with so many places for a stride's grid, and a seat for each worker.
pub fn open_shelf(
    alloc: Global,
    course: &Course,
    stride: u32,
    places: u32,
    workers: u32,
) -> Result<(Shelf<Checkpoint>, Vec<ShelfSeat<Checkpoint>>), Memory>
    requires stride { 0 < stride }
    requires places { places ≤ 128 }
    requires workers { (0 < workers) × (workers ≤ 64) }
    ensures shelf { IfOk result (λ r. IsShelfOf course.now stride r.0) }
    ensures plan { IfOk result (λ r. (r.0.plan ≡ layout course.now.plan stride places) × (r.0.seats ≡ workers)) }
    ensures fits { IfOk result (λ r. PlanFits r.0.plan) }
    ensures count { IfOk result (λ r. length r.1.items ≡ workers) }
    ensures seats { IfOk result (λ r. NewFrom r.0 0 r.1.items) }
{
    let Ok(plan) = shelf_plan(alloc, course, stride, places) else {
        return Err(Memory);
    };
    Shelf::open(alloc, course, plan, workers)
}

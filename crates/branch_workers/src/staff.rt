//! Workers are made ready.

ghost use Rattle.std.specs.Prelude.{◌≡◌, ℕ, ◌+◌, ◌<◌, ◌≤◌, ◌∷◌, [], All, IfOk, OnOk, Some, false, length, map};
ghost use Rattle.branch_tree.specs.Segments.{segments_in};
ghost use Rattle.branch_workers.specs.Claims.{HasPushed};
ghost use Rattle.branch_workers.specs.Workers.{AreNumbered};

use crate::worker::Worker;
use branch_deques::{Lane, Room, open_lanes};
use checkpoint_shelf::ShelfSeat;
use kernel_copy::{Checkpoint, Course};
use market_types::Memory;
use outside::{Ledger, Steps};
use std::alloc::Global;

// The workers' lanes, with the root's first segment on the first.
pub(crate) fn first_lanes<B: Room>(
    alloc: Global,
    course: &Course,
    workers: u32,
    count: u32,
) -> Result<Vec<Lane<B>>, Memory>
    requires some { 0 < workers }
    requires room { count ≡ B.room }
    requires count { count ≡ length (segments_in course.now.plan) }
    ensures count { IfOk result (λ lanes. length lanes.items ≡ workers) }
    ensures pushed { IfOk result (λ lanes. All (λ lane. HasPushed course.now.plan [] lane.own.view.pushed) lanes.items) }
{
    course.know_course();
    let Ok(mut lanes) = open_lanes::<B>(alloc, workers, count) else {
        return Err(Memory);
    };
    lanes[0].push(0);
    Ok(lanes)
}

// A worker for each seat, in order, each with a lane.
pub(crate) fn staff<L: Ledger, B: Room>(
    alloc: Global,
    mut seats: Vec<ShelfSeat<Checkpoint>>,
    mut lanes: Vec<Lane<B>>,
) -> Result<Vec<Worker<L, B>>, Memory>
    requires count { length seats.items ≡ length lanes.items }
    requires few { length seats.items ≤ 64 }
    ensures seats { IfOk result (λ workers. map (λ w. w.seat) workers.items ≡ seats.items) }
    ensures lanes { IfOk result (λ workers. map (λ w. w.lane) workers.items ≡ lanes.items) }
    ensures numbers { IfOk result (λ workers. AreNumbered (map (λ w. w.number) workers.items)) }
    ensures idle { IfOk result (λ workers. All (λ w. (w.steps ≡ 0) × (w.outcomes.items ≡ []) × (w.finished ≡ false)) workers.items) }
{
    let Ok(mut workers) = Vec::with_capacity(alloc, seats.len()) else {
        drop(lanes);
        drop(seats);
        return Err(Memory);
    };
    for number in 0..seats.len() {
        let seat = seats.remove(0);
        let lane = lanes.remove(0);
        workers.push_reserved(Worker {
            number: number as u32,
            seat,
            lane,
            steps: Steps::new(),
            outcomes: Vec::new(alloc),
            finished: false,
        });
    }
    drop(lanes);
    drop(seats);
    Ok(workers)
}

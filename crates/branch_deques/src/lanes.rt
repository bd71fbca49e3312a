//! The lanes of a set of workers.

ghost use Rattle.std.specs.Prelude.{◌≡◌, ℕ, ◌+◌, ◌<◌, [], ◌∷◌, ◌++◌, IfOk, OnOk, All, length, map, slice_get, Some};
ghost use Rattle.branch_deques.specs.Lanes.{fresh};
ghost use Rattle.branch_deques.specs.Told.{fresh_end, round, own_lanes, AreOpened};

use crate::end::{OtherLane, OwnLane};
use crate::lane::Lane;
use crate::rule::Room;
use plain_lists::Memory;
use std::alloc::Global;

/// A lane for each worker, in the order of their numbers, each with room for `room` pushes of segments below `room`.
///
/// # Errors
/// `Memory`.
pub fn open_lanes<B: Room>(alloc: Global, workers: u32, room: u32) -> Result<Vec<Lane<B>>, Memory>
    requires { room ≡ B.room }
    ensures count { IfOk result (λ lanes. length lanes.items ≡ workers) }
    ensures opened { IfOk result (λ lanes. AreOpened lanes.items) }
    ensures fresh { IfOk result (λ lanes. All (λ lane. lane.own.view ≡ fresh) lanes.items) }
{
    let mut lanes = own_lanes::<B>(alloc, workers, room)?;
    for number in 0..lanes.len() {
        let Ok(others) = ends_for(alloc, lanes.as_slice(), number) else {
            drop(lanes);
            return Err(Memory);
        };
        lanes[number].others = others;
    }
    Ok(lanes)
}

// So many lanes, with no ends of one another.
fn own_lanes<B: Room>(alloc: Global, workers: u32, room: u32) -> Result<Vec<Lane<B>>, Memory>
    requires { room ≡ B.room }
    ensures count { IfOk result (λ lanes. length lanes.items ≡ workers) }
    ensures fresh { IfOk result (λ lanes. All (λ lane. lane.own.view ≡ fresh) lanes.items) }
{
    let mut lanes = Vec::new(alloc);
    for _ in 0..workers {
        let Ok(own) = OwnLane::open(alloc, room) else {
            drop(lanes);
            return Err(Memory);
        };
        let Ok(()) = keep(alloc, &mut lanes, own) else {
            drop(lanes);
            return Err(Memory);
        };
    }
    Ok(lanes)
}

// Puts a lane with no ends of others behind other lanes.
fn keep<B: Room>(alloc: Global, lanes: &mut Vec<Lane<B>>, own: OwnLane<B>) -> Result<(), Memory>
    ensures { OnOk result (lanes.new.items ≡ lanes.old.items ++ record { own = own; others = [] } ∷ []) }
{
    let others = Vec::new(alloc);
    match lanes.push(Lane { own, others }) {
        Ok(()) => Ok(()),
        Err(_) => Err(Memory),
    }
}

// An end of each of the lanes but the one at `number`, from the next higher on.
fn ends_for<B: Room>(
    alloc: Global,
    lanes: &[Lane<B>],
    number: usize,
) -> Result<Vec<OtherLane<B>>, Memory>
    requires { number < length lanes.now }
    ensures { IfOk result (λ ends. ends.items ≡ map fresh_end (round number (own_lanes lanes.now))) }
{
    let mut ends = Vec::new(alloc);
    let Ok(()) = add_ends(&mut ends, &lanes[number + 1..]) else {
        drop(ends);
        return Err(Memory);
    };
    let Ok(()) = add_ends(&mut ends, &lanes[..number]) else {
        drop(ends);
        return Err(Memory);
    };
    Ok(ends)
}

// Adds an end of each of these lanes.
fn add_ends<B: Room>(ends: &mut Vec<OtherLane<B>>, lanes: &[Lane<B>]) -> Result<(), Memory>
    ensures { OnOk result (ends.new.items ≡ ends.old.items ++ map fresh_end (own_lanes lanes.now)) }
{
    for lane in lanes {
        ends.push(lane.own.other()?)?;
    }
    Ok(())
}

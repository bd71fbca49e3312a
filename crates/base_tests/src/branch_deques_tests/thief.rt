//! A lane from which another thread takes.

ghost use Rattle.std.specs.Prelude.{◌≡◌, []};

use super::{last_lane, pop_one, pop_some, take_one};
use crate::facts::{equal, holds};
use branch_deques::{Lane, Memory, Room, open_lanes};
use std::alloc::Global;
use std::marker::Brand;
use std::process::Abort;
use std::sync::Wait;
use std::sync::atomic::{AtomicBool, Ordering};
use std::thread;
use std::thread::Threads;

// Pushes all segments in order, and after each second one pops one, if it is to pop: what it popped. Then others are told
// that no more is pushed.
fn push_and_tell<B: Room, R: Abort>(
    rt: &R,
    alloc: Global,
    mut lane: Lane<B>,
    room: u32,
    pops: bool,
    is_over: &AtomicBool,
) -> (Lane<B>, Vec<u32>)
    requires room { room ≡ B.room }
    requires fresh { lane.own.view.pushed ≡ [] }
{
    let mut got = Vec::new(alloc);
    for segment in 0..room {
        lane.push(segment);
        if pops && segment % 2 == 1 {
            pop_one(rt, &mut lane, &mut got);
        }
    }
    is_over.store(true, Ordering::SeqCst);
    (lane, got)
}

// Takes from the other lane until nothing more is pushed and it finds none, or it tried too often.
fn take_all<B: Room, R: Wait + Abort>(
    rt: &R,
    alloc: Global,
    mut lane: Lane<B>,
    is_over: &AtomicBool,
) -> Vec<u32> {
    let mut got = Vec::new(alloc);
    for _ in 0..1_000_000_000 {
        let was_over = is_over.load(Ordering::SeqCst);
        if !take_one(rt, &mut lane, &mut got) && was_over {
            break;
        }
    }
    drop(lane);
    got
}

// The segments up to a room are pushed on the first lane by one thread, while another takes from it: what the owner
// popped, in the end until there was none, and what the other took.
fn share_all<B: Room + Send, R: Threads + Wait + Abort + Sync>(
    rt: &R,
    alloc: Global,
    room: u32,
    pops: bool,
) -> (Vec<u32>, Vec<u32>)
    requires room { room ≡ B.room }
{
    let mut lanes = open_lanes::<B>(alloc, 2, room).expect(rt, "memory");
    let second = last_lane(rt, &mut lanes);
    let first = last_lane(rt, &mut lanes);
    drop(lanes);
    let is_over = AtomicBool::new(false);
    let shared = &is_over;
    let (owner, taken) = thread::join(
        rt,
        move || push_and_tell(rt, alloc, first, room, pops, shared),
        move || take_all(rt, alloc, second, shared),
    );
    let (mut first, mut popped) = owner;
    pop_some(rt, &mut first, room, &mut popped);
    drop(first);
    (popped, taken)
}

fn share_thousand<R: Threads + Wait + Abort + Sync>(
    rt: &R,
    alloc: Global,
    pops: bool,
) -> (Vec<u32>, Vec<u32>) {
    share_all::<Brand, R>(rt, alloc, 1000, pops)
}

// What two lists hold together, in order.
fn together(popped: &[u32], taken: &[u32], alloc: Global) -> Result<Vec<u32>, Memory> {
    let mut both = Vec::new(alloc);
    both.extend_from_slice(popped)?;
    both.extend_from_slice(taken)?;
    both.sort()?;
    Ok(both)
}

// Compares what two threads took with all that was pushed.
fn assert_each_once(rt: &impl Abort, alloc: Global, popped: &[u32], taken: &[u32]) {
    holds(rt, popped.is_sorted() && taken.is_sorted());
    let both = together(popped, taken, alloc).expect(rt, "memory");
    equal(rt, both.len(), 1000);
    holds(rt, both.iter().copied().eq(0..1000));
    drop(both);
}

#[test]
fn two_threads_take_each_once(rt: HostRuntime) {
    for round in 0..20 {
        let pops = round % 2 == 1;
        let (popped, taken) = share_thousand(&rt, rt.alloc(), pops);
        holds(&rt, pops || popped.is_empty());
        assert_each_once(&rt, rt.alloc(), popped.as_slice(), taken.as_slice());
        drop(taken);
        drop(popped);
    }
}

//! Lanes: what an owner pops, and what others take.

mod thief;

ghost use Rattle.std.specs.Prelude.{◌≡◌, [], All};
ghost use Rattle.branch_deques.specs.Lanes.{fresh};

use crate::facts::holds;
use branch_deques::{Lane, Room, open_lanes};
use std::alloc::Global;
use std::marker::Brand;
use std::process::Abort;
use std::sync::Wait;

// The last of some lanes on which nothing was pushed.
fn last_lane<B: Room>(rt: &impl Abort, lanes: &mut Vec<Lane<B>>) -> Lane<B>
    requires { All (λ lane. lane.own.view ≡ fresh) lanes.old.items }
    ensures fresh { result.own.view ≡ fresh }
    ensures rest { All (λ lane. lane.own.view ≡ fresh) lanes.new.items }
{
    lanes.pop().expect(rt, "a lane")
}

// The segments 0, 1 and 2 are pushed on the first lane, which the second lane takes from until it finds none, and whose
// owner then pops until there is none: what came out, and whether the owner found none.
fn share_three<B: Room, R: Wait + Abort>(rt: &R, alloc: Global, room: u32) -> (Vec<u32>, bool)
    requires room { room ≡ B.room }
    requires three { room ≡ 3 }
{
    let mut lanes = open_lanes::<B>(alloc, 2, room).expect(rt, "memory");
    let mut second = last_lane(rt, &mut lanes);
    let mut first = last_lane(rt, &mut lanes);
    drop(lanes);
    let mut got = Vec::new(alloc);
    push_three(&mut first);
    take_some(rt, &mut second, &mut got);
    drop(second);
    let stolen = got.len();
    pop_some(rt, &mut first, 4, &mut got);
    drop(first);
    let all_stolen = got.len() == stolen;
    (got, all_stolen)
}

fn push_three<B: Room>(lane: &mut Lane<B>)
    requires fresh { lane.old.own.view.pushed ≡ [] }
    requires three { B.room ≡ 3 }
{
    lane.push(0);
    lane.push(1);
    lane.push(2);
}

// Takes one segment, if it finds one: whether it did.
fn take_one<B: Room, R: Wait + Abort>(rt: &R, lane: &mut Lane<B>, got: &mut Vec<u32>) -> bool {
    match lane.steal_round(rt) {
        Some(segment) => {
            got.push(segment).expect(rt, "memory");
            true
        }
        None => false,
    }
}

fn take_some<B: Room, R: Wait + Abort>(rt: &R, lane: &mut Lane<B>, got: &mut Vec<u32>) {
    for _ in 0..4 {
        take_one(rt, lane, got);
    }
}

// Pops one segment, if there is one.
fn pop_one<B: Room>(rt: &impl Abort, lane: &mut Lane<B>, got: &mut Vec<u32>)
    ensures { lane.new.own.view.pushed ≡ lane.old.own.view.pushed }
{
    if let Some(segment) = lane.pop() {
        got.push(segment).expect(rt, "memory");
    }
}

// Pops so many times.
fn pop_some<B: Room>(rt: &impl Abort, lane: &mut Lane<B>, tries: u32, got: &mut Vec<u32>) {
    for _ in 0..tries {
        pop_one(rt, lane, got);
    }
}

fn share_picked<R: Wait + Abort>(rt: &R, alloc: Global) -> (Vec<u32>, bool) {
    share_three::<Brand, R>(rt, alloc, 3)
}

// The segments 0, 1 and 2 are pushed on a lane, whose owner then pops four times: what came out.
fn pop_three<B: Room, R: Abort>(rt: &R, alloc: Global, room: u32) -> Vec<u32>
    requires room { room ≡ B.room }
    requires three { room ≡ 3 }
{
    let mut lanes = open_lanes::<B>(alloc, 1, room).expect(rt, "memory");
    let mut only = last_lane(rt, &mut lanes);
    drop(lanes);
    let mut got = Vec::new(alloc);
    push_three(&mut only);
    pop_some(rt, &mut only, 4, &mut got);
    drop(only);
    got
}

fn pop_picked<R: Abort>(rt: &R, alloc: Global) -> Vec<u32> {
    pop_three::<Brand, R>(rt, alloc, 3)
}

// Of three lanes the first and the third get a segment each: what the second takes from them in four rounds.
fn take_from_two<B: Room, R: Wait + Abort>(rt: &R, alloc: Global, room: u32) -> Vec<u32>
    requires room { room ≡ B.room }
    requires three { room ≡ 3 }
{
    let mut lanes = open_lanes::<B>(alloc, 3, room).expect(rt, "memory");
    let mut third = last_lane(rt, &mut lanes);
    let mut second = last_lane(rt, &mut lanes);
    let mut first = last_lane(rt, &mut lanes);
    drop(lanes);
    first.push(0);
    third.push(2);
    let mut got = Vec::new(alloc);
    take_some(rt, &mut second, &mut got);
    drop(first);
    drop(second);
    drop(third);
    got
}

fn take_picked<R: Wait + Abort>(rt: &R, alloc: Global) -> Vec<u32> {
    take_from_two::<Brand, R>(rt, alloc, 3)
}

// A lane crosses threads.
fn crosses<T: Send>(_: &T) {}

fn lanes_cross<B: Room + Send>(lane: &Lane<B>) {
    crosses(lane);
}

#[test]
fn a_thief_takes_each_once(rt: HostRuntime) {
    let (got, all_stolen) = share_picked(&rt, rt.alloc());
    holds(&rt, got.as_slice() == [0, 1, 2].as_slice());
    holds(&rt, all_stolen);
}

#[test]
fn an_owner_pops_each_in_order(rt: HostRuntime) {
    let got = pop_picked(&rt, rt.alloc());
    holds(&rt, got.as_slice() == [0, 1, 2].as_slice());
}

#[test]
fn the_next_higher_lane_is_first(rt: HostRuntime) {
    let got = take_picked(&rt, rt.alloc());
    holds(&rt, got.as_slice() == [2, 0].as_slice());
}

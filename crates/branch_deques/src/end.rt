//! The two kinds of ends of a lane.

ghost use Rattle.std.specs.Prelude.{◌≡◌, ℕ, ◌<◌, ◌^◌, [], ◌∷◌, IfOk, IfSome, MatchOption, length};
ghost use Rattle.crossbeam_deque.specs.Handles.{view, IsPassOf, stealer_deque, stealer_flavor};
ghost use Rattle.branch_deques.specs.Lanes.{fresh, Pushed, Took};
ghost use Rattle.branch_deques.specs.Told.{fresh_end};

use crate::rule::{Owner, Pushes, Room, Takes, Thief, ThiefPass};
use crossbeam_deque::Steal;
use plain_lists::Memory;
use std::alloc::Global;
use std::marker::Model;
use std::sync::Wait;

/// The end at which a worker pushes and pops on its own lane. Contracts see which lane it is, and what was done there.
#[derive(Drop)]
pub struct OwnLane<B: Room> {
    owner: Owner<B>,
}

impl<B: Room> Model for OwnLane<B> {
    ghost use Rattle.std.specs.Prelude.{◌≡◌, ◌<◌, ◌≤◌, ◌^◌, length};
    ghost use Rattle.crossbeam_deque.specs.Handles.{worker_deque, worker_flavor, worker_view, worker_index, worker_capacity};
    ghost use Rattle.branch_deques.specs.Told.{EndTold};

    ghost Value = { EndTold };

    ghost view = { λ o. record { lane = worker_deque o.owner; view = worker_view o.owner } };

    ghost invariant = { λ o. (worker_flavor o.owner ≡ 0) × (worker_index o.owner ≤ length (worker_view o.owner).pushed) × (B.room ≤ worker_capacity o.owner) × (B.room < 2 ^ 32) };
}

/// The end at which a worker takes from another's lane. Contracts see which lane it is, and what it took there.
#[derive(Drop)]
pub struct OtherLane<B: Room> {
    thief: Thief<B>,
    pass: ThiefPass,
}

impl<B: Room> Model for OtherLane<B> {
    ghost use Rattle.std.specs.Prelude.{◌≡◌};
    ghost use Rattle.crossbeam_deque.specs.Handles.{view as pass_view, IsPassOf, stealer_deque, stealer_flavor};
    ghost use Rattle.branch_deques.specs.Told.{EndTold};

    ghost Value = { EndTold };

    ghost view = { λ o. record { lane = stealer_deque o.thief; view = pass_view o.pass } };

    ghost invariant = { λ o. IsPassOf (stealer_deque o.thief) o.pass × (stealer_flavor o.thief ≡ 0) };
}

impl<B: Room> OwnLane<B> {
    // A lane on which nothing was done.
    pub(crate) fn open(alloc: Global, room: u32) -> Result<OwnLane<B>, Memory>
        requires { room ≡ B.room }
        ensures { IfOk result (λ own. own.view ≡ fresh) }
    {
        let owner = Owner::<B>::fifo_as(alloc, room as usize)?;
        Ok(OwnLane { owner })
    }

    // An end of this lane for another worker.
    pub(crate) fn other(&self) -> Result<OtherLane<B>, Memory>
        ensures { IfOk result (λ other. other ≡ fresh_end self.now.lane) }
    {
        let thief = self.owner.stealer()?;
        let pass = thief.pass();
        Ok(OtherLane { thief, pass })
    }

    // Pushes a segment behind those that the lane holds.
    pub(crate) fn push(&mut self, segment: u32)
        requires few { length self.old.view.pushed < B.room }
        requires segment { segment < B.room }
        ensures same { self.new.lane ≡ self.old.lane }
        ensures pushed { Pushed B.room (segment ∷ []) self.old.view self.new.view }
    {
        match self.owner.push_as::<Pushes<B>>(segment) {
            Ok(()) => {}
            Err(_) => unreachable!(),
        }
    }

    // Takes the first segment that the lane holds.
    pub(crate) fn pop(&mut self) -> Option<u32>
        ensures same { self.new.lane ≡ self.old.lane }
        ensures taken { MatchOption result
            (self.new.view ≡ self.old.view)
            (λ segment. Took B.room (segment ∷ []) self.old.view self.new.view) }
    {
        self.owner.pop_as::<Takes<B>>()
    }
}

impl<B: Room> OtherLane<B> {
    // Takes the first segment that the lane holds, and tries again where another taker was first.
    pub(crate) fn steal<R: Wait>(&mut self, rt: &R) -> Option<u32>
        ensures same { self.new.lane ≡ self.old.lane }
        ensures taken { MatchOption result
            (self.new.view ≡ self.old.view)
            (λ segment. Took B.room (segment ∷ []) self.old.view self.new.view) }
    {
        for _ in rt.forever() {
            match self.thief.steal_as::<Takes<B>>(&mut self.pass) {
                Steal::Success(segment) => return Some(segment),
                Steal::Empty => return None,
                Steal::Retry => {}
            }
        }
        unreachable!()
    }
}

//! What a pass of a lane knows, and the rule of a lane.

use crossbeam_deque::protocol::{Outcome, Protocol};
use crossbeam_deque::{Pass, Stealer, Worker};
use std::alloc::Global;
use std::collections::LinkedList;
use std::marker::{Brand, PhantomData};

/// What one pass did on a lane: a lane's owner has one, and so has each other lane that takes from it. No value of it is
/// made.
pub struct LaneView {
    /// The segments that it pushed, in order.
    pub pushed: LinkedList<u32>,
    /// The segments that it took, in order.
    pub taken: LinkedList<u32>,
}

/// The number below which all segments of a set of lanes are. It is a fact alone: each call of a program picks it.
pub trait Room {
    ghost use Rattle.std.specs.Prelude.{ℕ};

    ghost room: { ℕ };
}

impl Room for Brand {
    ghost room = { 0 };
}

// The rule of a lane.
pub struct LaneRule<B> {
    of: PhantomData<B>,
}

impl<B: Room> Protocol<u32, LaneView> for LaneRule<B> {
    ghost use Rattle.branch_deques.specs.Lanes.{Stands, fresh};

    ghost holds = { Stands B.room };

    ghost first = { fresh };

    ghost guest = { fresh };
}

// A segment is pushed.
pub(crate) struct Pushes<B> {
    of: PhantomData<B>,
}

impl<B: Room> Outcome<u32, LaneView> for Pushes<B> {
    ghost use Rattle.branch_deques.specs.Lanes.{Pushed};

    ghost then = { λ v xs w. Pushed B.room xs v w };
}

// A segment is taken, by the lane's owner or by another. A call that finds none is told nothing: what it could be told is
// of its own view, which is the same before and after.
pub(crate) struct Takes<B> {
    of: PhantomData<B>,
}

impl<B: Room> Outcome<u32, LaneView> for Takes<B> {
    ghost use Rattle.branch_deques.specs.Lanes.{Took};

    ghost then = { λ v xs w. Took B.room xs v w };
}

pub(crate) type Owner<B> = Worker<u32, Global, LaneView, LaneRule<B>>;

pub(crate) type Thief<B> = Stealer<u32, Global, LaneView, LaneRule<B>>;

pub(crate) type ThiefPass = Pass<u32, LaneView>;

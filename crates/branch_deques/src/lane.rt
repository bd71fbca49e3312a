//! A worker's lane.

ghost use Rattle.std.specs.Prelude.{◌≡◌, ℕ, ◌+◌, ◌<◌, [], ◌∷◌, IfSome, MatchOption, length};
ghost use Rattle.branch_deques.specs.Lanes.{Pushed, Took};
ghost use Rattle.branch_deques.specs.Told.{Stole};

use crate::end::{OtherLane, OwnLane};
use crate::rule::Room;
use std::marker::Model;
use std::sync::Wait;

/// The lane of one worker, with its ends of all other lanes. It is first in, first out.
#[derive(Drop)]
pub struct Lane<B: Room> {
    pub(crate) own: OwnLane<B>,
    pub(crate) others: Vec<OtherLane<B>>,
}

impl<B: Room> Model for Lane<B> {
    ghost use Rattle.branch_deques.specs.Told.{LaneTold};

    ghost Value = { LaneTold };

    ghost view = { λ l. record { own = l.own; others = l.others.items } };
}

impl<B: Room> Lane<B> {
    /// Pushes a segment on the own lane, behind those that it holds. Fewer than the lane's room were pushed before.
    pub fn push(&mut self, segment: u32)
        requires few { length self.old.own.view.pushed < B.room }
        requires segment { segment < B.room }
        ensures lane { self.new.own.lane ≡ self.old.own.lane }
        ensures pushed { Pushed B.room (segment ∷ []) self.old.own.view self.new.own.view }
        ensures more { length self.new.own.view.pushed ≡ length self.old.own.view.pushed + 1 }
        ensures others { self.new.others ≡ self.old.others }
    {
        self.own.push(segment);
    }

    /// Takes the first segment that the own lane holds. `None`: nothing was taken. No clause tells why: that it looks at the
    /// lane, and that the lane is empty then, is shown by tests alone.
    pub fn pop(&mut self) -> Option<u32>
        ensures lane { self.new.own.lane ≡ self.old.own.lane }
        ensures taken { MatchOption result
            (self.new.own.view ≡ self.old.own.view)
            (λ segment. Took B.room (segment ∷ []) self.old.own.view self.new.own.view) }
        ensures below { IfSome result (λ segment. segment < B.room) }
        ensures others { self.new.others ≡ self.old.others }
    {
        self.own.pop()
    }

    /// Looks at each other lane in turn, from the next higher number round, and takes the first segment that one holds.
    /// Where another taker was first it looks at that lane again. `None`: nothing was taken. No clause tells why, nor in what
    /// order it looks: that it looks at each, in this order, is shown by tests alone. That it looks again is left to review.
    pub fn steal_round<R: Wait>(&mut self, rt: &R) -> Option<u32>
        ensures own { self.new.own ≡ self.old.own }
        ensures taken { MatchOption result
            (self.new.others ≡ self.old.others)
            (λ segment. Stole B.room segment self.old.others self.new.others) }
        ensures below { IfSome result (λ segment. segment < B.room) }
    {
        for other in self.others.iter_mut() {
            if let Some(segment) = other.steal(rt) {
                return Some(segment);
            }
        }
        None
    }
}

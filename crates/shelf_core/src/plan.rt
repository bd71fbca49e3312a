//! The keys of checkpoints, and the plan of their places.

use plain_lists::Sequence;

/// The key of a checkpoint: a segment and an event number of its branch.
#[derive(Clone, Copy, PartialEq, Eq, Debug)]
pub struct Key {
    /// The segment's number.
    pub segment: u32,
    /// The event number at which the state stands.
    pub event: u32,
}

/// What a shelf is laid out for.
#[derive(Drop)]
pub struct ShelfPlan {
    /// The number of segments.
    pub segments: u32,
    /// The keys that have a place of their own, in the order of the places.
    pub forks: Sequence<Key>,
    /// The keys that share the places behind those of the forks, in turn.
    pub grid: Sequence<Key>,
    /// The number of places that the grid keys share.
    pub places: u32,
}

//! The shared system.

use crate::{ClaimWord, Key, PlaceWord, SeatView, ShelfPlan};
use plain_lists::Sequence;

/// The shared system: its words and values, and the views of its seats.
#[derive(Drop)]
pub struct System {
    /// The plan, once it is laid. Until then no word exists.
    pub plan: Option<ShelfPlan>,
    /// The word of each segment.
    pub claims: Sequence<ClaimWord>,
    /// The word of each place: first those of the forks, then those that the grid keys share.
    pub places: Sequence<PlaceWord>,
    /// The value at home at each place, by its key.
    pub home: Sequence<Option<Key>>,
    /// The done number: how many segments were counted as done.
    pub done: u32,
    /// The stop bit.
    pub stopped: bool,
    /// The views of the seats, in the order of their numbers.
    pub views: Sequence<SeatView>,
}

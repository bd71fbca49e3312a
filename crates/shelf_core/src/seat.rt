//! What one seat knows and has.

use crate::{Key, Seen};
use plain_lists::Sequence;

/// The view of a seat.
#[derive(Drop)]
pub struct SeatView {
    /// The seat's own number, then those of the seats that joined it.
    pub numbers: Sequence<u32>,
    /// Whether the seat joined another: it then has nothing and makes no step.
    pub spent: bool,
    /// The segments that it claimed.
    pub claims: Sequence<u32>,
    /// How many segments it counted as done.
    pub counts: u32,
    /// The places that it is to fill, each with the key of the value.
    pub turns: Sequence<(u32, Key)>,
    /// The place whose value is lent to it, with the value's key.
    pub loan: Option<(u32, Key)>,
    /// The sole keys whose values it saw on the shelf.
    pub known: Sequence<Key>,
    /// The done number that it last loaded.
    pub done_seen: u32,
    /// Whether it saw or set the stop bit.
    pub stopped: bool,
    /// The keys of the values that it took on loan and returned.
    pub found: Sequence<Key>,
    /// The number of its loads, modulo 2^64.
    pub loads: u64,
    /// Its last two loads, the newest first.
    pub saw: Sequence<Seen>,
}

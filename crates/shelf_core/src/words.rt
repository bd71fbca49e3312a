//! The words that the seats share.

use crate::Key;

/// The word of a segment.
#[derive(Clone, Copy, PartialEq, Eq)]
pub enum ClaimWord {
    /// No seat has claimed the segment.
    Open,
    /// The seat with this number has.
    Taken(u32),
}

/// The word of a place.
#[derive(Clone, Copy, PartialEq, Eq, Debug)]
pub enum PlaceWord {
    /// The place has no value.
    Free,
    /// The seat with this number is to give it one.
    Writing(u32),
    /// The value of this key is at home.
    Ready(Key),
    /// The value of this key is lent to the seat with this number.
    Lent(Key, u32),
}

/// The name of a word.
#[derive(Clone, Copy)]
pub enum Word {
    /// The word of a segment, by the segment's number.
    Claim(u32),
    /// The word of a place, by the place's number.
    Place(u32),
    /// The done word.
    Done,
}

/// A word by its name, and what stood in it.
#[derive(Clone, Copy, PartialEq, Eq)]
pub enum Seen {
    /// A segment's number and its word.
    Claim(u32, ClaimWord),
    /// A place's number and its word.
    Place(u32, PlaceWord),
    /// The done number and the stop bit.
    Done(u32, bool),
}

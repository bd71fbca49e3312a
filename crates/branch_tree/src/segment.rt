//! Segments of branches.

use crate::stop::Stop;

/// A part of a branch's own run, between two stops.
#[derive(Clone, Copy)]
pub struct Segment {
    /// The branch's number.
    pub branch: u16,
    /// The stop from which it runs.
    pub start: Stop,
    /// The stop to which it runs.
    pub stop: Stop,
    /// The number of the segment from whose end it goes on; none for the root's first.
    pub parent: Option<u32>,
}

//! What a mark names.

/// A branch and the number of one of its events.
#[derive(Clone, Copy, PartialEq, Eq)]
pub struct Target {
    /// The branch's number; 0 is the root's.
    pub branch: u16,
    /// The event's number; 0 names the state before the first event.
    pub event: u32,
}

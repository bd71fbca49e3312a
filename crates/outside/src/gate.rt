//! What a worker passes before it runs a segment.

/// A gate in front of each segment's first step.
pub trait Gate {
    /// Called by worker number `worker` once it has claimed segment number `segment` and before it makes the
    /// segment's first step. It may wait.
    fn pass(&self, worker: u32, segment: u32);
}

/// The gate that is always open: `pass` returns at once.
#[derive(Clone, Copy)]
pub struct OpenGate;

impl Gate for OpenGate {
    fn pass(&self, _worker: u32, _segment: u32) {}
}

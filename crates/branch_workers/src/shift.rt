//! What the steps of workers share.

use checkpoint_shelf::Shelf;
use kernel_copy::{Checkpoint, Course, Keep};
use std::alloc::Global;
use std::sync::Arc;

/// What each step of a worker borrows.
#[derive(Drop)]
pub struct Shift<'a, G> {
    /// Where memory comes from.
    pub alloc: Global,
    /// The course whose segments are run.
    pub course: &'a Arc<Course>,
    /// The shelf on which they meet.
    pub shelf: &'a Shelf<Checkpoint>,
    /// The stride of the shelf's grid.
    pub stride: u32,
    /// What is to be kept of the entries of each segment.
    pub keep: Keep,
    /// What a worker passes before the first step of each segment.
    pub gate: &'a G,
}

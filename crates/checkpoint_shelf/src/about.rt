//! What a shelf is told once, and what a seat knows.

use crate::shelved::Shelved;
use shelf_core::{SeatView, ShelfPlan};
use std::snapshot::Snapshot;
use std::sync::Arc;

/// What a shelf is told once.
#[derive(Drop)]
pub struct About<C: Shelved> {
    pub(crate) plan: ShelfPlan,
    pub(crate) seats: u32,
    pub(crate) course: Snapshot<C::Course>,
}

/// What a seat knows: the core's view, what the shelf is, and the number of seats that the first seat made and took
/// in again. No value of it is made.
pub struct View<C: Shelved> {
    pub(crate) seen: SeatView,
    pub(crate) about: Option<About<C>>,
    pub(crate) leads: bool,
    pub(crate) made: u32,
    pub(crate) met: u32,
}

/// What a slot has.
pub type Held<C> = Option<Arc<C>>;

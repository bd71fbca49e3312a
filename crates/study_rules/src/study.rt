//! An accepted study, and why a study isn't accepted.

ghost use Rattle.std.specs.Prelude.{◌≡◌};
ghost use Rattle.latency_model.specs.Tables.{group_count};

use kernel_copy::Course;
use std::sync::Arc;
use study_market::Refusal;
use thiserror::Error;

/// An accepted study.
#[derive(Drop)]
pub struct Study {
    /// What all its branches share: what a run starts from, and the tree of the branches.
    pub course: Arc<Course>,
    /// A run keeps a copy of itself each so many events: 100 to 1,000,000.
    pub stride: u32,
    /// How many latency groups a run starts with: 1 to 32.
    pub(crate) groups: u32,
    ghost counted: { groups ≡ group_count course.value.opening.groups },
}

/// Why a study isn't accepted.
#[derive(Clone, Copy, PartialEq, Eq, Debug, Error)]
pub enum AcceptError {
    /// The first broken rule, with the least place at which it is broken.
    #[error("the study is refused")]
    Refused(Refusal),
    /// Want of memory.
    #[error("out of memory")]
    Memory,
}

//! The errors of the outside.

use thiserror::Error;

/// A write that a sink did not take.
#[derive(Clone, Copy, PartialEq, Eq, Debug, Error)]
#[error("write failed")]
pub struct Failed;

/// Why a library gave no answer.
#[derive(Clone, Copy, PartialEq, Eq, Debug, Error)]
pub enum FetchError {
    /// The read failed, and the library's count of faults rose.
    #[error("read failed")]
    Failed,
    /// An allocation was refused; no fault was counted.
    #[error("out of memory")]
    Memory,
}

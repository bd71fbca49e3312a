//! Any state of a branch again, from the nearest state that a closed shelf holds: which state a line asks for, and what it costs at most.
#![tactic(auto)]

pub mod after_work;
mod aimed;
mod chain;
mod desk;
mod finding;
pub mod laws;
pub mod left;
mod named;
mod near;
mod past;
mod reach;
mod target;
pub mod worked;
pub mod worked_targets;

pub use aimed::{Aimed, aim};
pub use command_words::Mark;
pub use desk::{RewindError, Rewound, reached, rewind};
pub use finding::nearest;
pub use kernel_copy::{Checkpoint, Course, Key};
pub use named::{branch_named, place_named};
pub use past::{Past, first_past};
pub use plain_lists::{Memory, Sequence};
pub use reach::has_more;
pub use target::Target;

//! Why acts and answers are refused.

use branch_tree::PlanError;

/// Why an act changes nothing, or why there is no answer.
#[derive(Clone, Copy, PartialEq, Eq, Debug)]
pub enum SessionError {
    /// The tree with the branch more is none.
    Plan(PlanError),
    /// The tree hasn't the branch; or it is the root, which has no edits and stays.
    NoBranch,
    /// The event is past the branch's last, which has this number.
    NoEvent(u32),
    /// Want of memory.
    Memory,
}

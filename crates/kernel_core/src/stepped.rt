//! What a step answers.

use market_types::End;

/// What a step did.
#[derive(Clone, Copy, PartialEq, Eq)]
pub enum Stepped {
    /// The event of this number was made.
    Event(u32),
    /// The state is ended, and stays as it is.
    Ended(End),
}

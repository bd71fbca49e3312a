//! What an agent gives to the mail.

use market_types::{AgentNo, Body, Time};

/// One message that is to leave for an agent, or a wakeup that the agent asks for.
#[derive(Clone, Copy)]
pub enum Posting {
    To {
        to: AgentNo,
        body: Body,
        /// Nanoseconds from the end of the agent's computation to its leaving.
        extra: Time,
    },
    /// In nanoseconds past midnight.
    WakeAt(Time),
}

/// A posting whose message stays where it is.
#[derive(Clone, Copy)]
pub enum PostingSeen<'a> {
    To {
        to: AgentNo,
        body: &'a Body,
        /// Nanoseconds from the end of the agent's computation to its leaving.
        extra: Time,
    },
    /// In nanoseconds past midnight.
    WakeAt(Time),
}

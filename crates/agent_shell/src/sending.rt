//! What an agent sends.

use market_types::{Body, Roomy, Time};

/// One message to the exchange, or a wakeup that the agent asks for.
#[derive(Clone, Copy)]
pub enum Sending {
    To {
        body: Body,
        /// Nanoseconds from the end of the agent's computation to its leaving.
        extra: Time,
    },
    /// In nanoseconds past midnight.
    WakeAt(Time),
}

/// Sendings in the order in which they are to join.
pub type Sends = Roomy<Sending>;

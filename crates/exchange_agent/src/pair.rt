//! Pairs of an agent and an order token.

use market_types::AgentNo;

/// An agent and the bytes of an order token, in order of the agent and then of the bytes.
#[derive(Clone, Copy)]
pub struct Pair {
    pub agent: AgentNo,
    pub token: [u8; 14],
}

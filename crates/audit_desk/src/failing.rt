//! What tells a bundle's feed from its closings.

/// A branch whose closing isn't what its feed tells.
#[derive(Clone, Copy)]
pub struct Failing {
    /// The branch's number, from 0 for the root.
    pub branch: usize,
    /// The reference of the first message of its feed that can't be applied, or the least one of an order that
    /// stands in the feed's books or in the closing alone or differs in a field; 0 where only the order of the
    /// list or a trading state differs, or where a trading action is of no stock.
    pub reference: u64,
}

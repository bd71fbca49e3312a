//! The events of the shared system.

use crate::{Key, ShelfPlan, Word};

/// One step on one word, through one seat. The first number of each but `Lay` is that seat's.
#[derive(Drop)]
pub enum Event {
    /// The shelf is laid out.
    Lay(ShelfPlan),
    /// The seat claims a segment.
    Claim(u32, u32),
    /// The seat gets the turn to give a key's place its value.
    Begin(u32, Key),
    /// The seat spends its turn: the value of this key is there.
    Publish(u32, Key),
    /// The seat spends its turn without a value.
    Abandon(u32, Key),
    /// The value of this key is lent to the seat.
    Lend(u32, Key),
    /// The seat returns the value that it has on loan.
    Return(u32),
    /// The seat counts one of its claims as done.
    Count(u32),
    /// The seat sets the stop bit.
    Stop(u32),
    /// The seat reads a word.
    Load(u32, Word),
    /// A new seat is made.
    Split(u32),
    /// The seat takes in another seat, which is spent.
    Join(u32, u32),
}

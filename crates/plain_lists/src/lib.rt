//! What every crate of the simulator stands on: the one list that contracts compare, an equal copy of a slice,
//! and the error for want of memory.
#![tactic(auto)]

mod copies;
mod memory;
mod sequence;

pub use copies::copied;
pub use memory::Memory;
pub use sequence::Sequence;

//! Why a value could not be read.

use thiserror::Error;

/// Why a number or a text is none of its type.
#[derive(Clone, Copy, PartialEq, Eq, Debug, Error)]
pub enum TypeError {
    #[error("a price is from 0.0001 to 199999.99 dollars")]
    BadPrice,
    #[error("a size is from 1 to 999999 shares")]
    BadShares,
    #[error("a symbol has 1 to 8 visible ASCII bytes")]
    BadSymbol,
    #[error("a token has 1 to 14 ASCII letters and digits")]
    BadToken,
}

/// Why bytes are no message or no frame. Lengths and offsets are in bytes, offsets from 0.
#[derive(Clone, Copy, PartialEq, Eq, Debug, Error)]
pub enum CodecError {
    /// The first byte is the type of no message that may stand here.
    #[error("unknown message type {0}")]
    UnknownType(u8),
    /// The message has the first length, and its type needs the second.
    #[error("a message of {0} bytes where {1} are needed")]
    WrongLength(usize, usize),
    /// The field at this offset is out of its range: the first such field.
    #[error("a bad field at offset {0}")]
    BadField(usize),
    /// The input ends within a frame; it has so many bytes.
    #[error("a frame is cut with {0} bytes left")]
    Cut(usize),
}

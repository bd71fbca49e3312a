//! What a library answers.

/// What a library holds under a name.
#[derive(Drop)]
pub enum Fetched {
    /// The name is not held.
    Absent,
    /// More bytes are held than were asked for.
    TooLong,
    /// The held bytes, all of them.
    Whole(Vec<u8>),
}

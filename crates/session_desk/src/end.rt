//! Why acts give no bytes.

/// A rewind past its branch's last event.
#[derive(Clone, Copy)]
pub struct PastAct {
    /// The number of the act, from 0.
    pub act: u32,
    /// The number of the branch's last event in the tree as it stands then.
    pub last: u32,
}

/// Why the acts of a session give no bytes.
#[derive(Clone, Copy)]
pub enum SessionEnd {
    /// The first rewind past its branch's last event.
    NoEvent(PastAct),
    /// Want of memory.
    Memory,
}

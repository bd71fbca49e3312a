//! Where a branch leaves its parent.

ghost use Rattle.std.specs.Prelude.{◌≡◌};
ghost use Rattle.branch_tree.specs.Stops.{number_of, is_time, same_kind, is_within, no_earlier};

use market_types::Time;

/// Where a run stops: at an event number or at a time.
#[derive(Clone, Copy, PartialEq, Eq)]
pub enum Stop {
    /// So many events stand.
    At(u32),
    /// No message waits that is due at or before this time, in nanoseconds past midnight.
    When(Time),
}

impl Stop {
    /// The event number or the time.
    pub fn number(self) -> u64
        ensures { result ≡ number_of self }
    {
        match self {
            Stop::At(events) => u64::from(events),
            Stop::When(time) => time,
        }
    }

    /// Whether it is a time.
    pub fn is_time(self) -> bool
        ensures { result ≡ is_time self }
    {
        match self {
            Stop::At(_) => false,
            Stop::When(_) => true,
        }
    }

    /// Whether two stops are of one kind.
    pub fn is_like(self, other: Stop) -> bool
        ensures { result ≡ same_kind self other }
    {
        match (self, other) {
            (Stop::At(_), Stop::At(_)) | (Stop::When(_), Stop::When(_)) => true,
            _ => false,
        }
    }

    /// Whether it is a time, or an event number within the limit of events.
    pub fn is_within(self, limit: u32) -> bool
        ensures { result ≡ is_within limit self }
    {
        match self {
            Stop::At(events) => events <= limit,
            Stop::When(_) => true,
        }
    }

    /// Whether it isn't less than another stop of its kind.
    pub fn is_from(self, other: Stop) -> bool
        ensures { result ≡ no_earlier other self }
    {
        match (other, self) {
            (Stop::At(from), Stop::At(events)) => from <= events,
            (Stop::When(from), Stop::When(time)) => from <= time,
            _ => true,
        }
    }
}

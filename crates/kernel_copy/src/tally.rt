//! How many bytes there are, and their sum.

ghost use Rattle.std.specs.Prelude.{◌≡◌, ◌+◌, ◌*◌, ◌^◌, ◌≤◌, ◌++◌, [], ℕ, List, length, sum};
ghost use Rattle.kernel_copy.specs.Tallies.{IsTallyOf};

/// How many bytes there are, and their sum. Each is kept in 128 bits and stands still at their last value, which no bytes that a
/// memory holds reach.
#[derive(Clone, Copy, PartialEq, Eq)]
pub struct Tally {
    /// How many.
    pub count: u128,
    /// Their sum.
    pub total: u128,
}

// The sum of at most 256 bytes, in a number that several bytes are added to at a time.
fn part_total(bytes: &[u8]) -> u16
    requires { length bytes.now ≤ 256 }
    ensures value { result ≡ sum bytes.now }
    ensures small { result ≤ 255 * length bytes.now }
{
    let mut total = 0;
    for byte in bytes {
        total += u16::from(*byte);
    }
    total
}

// The sum of bytes.
pub(crate) fn total(bytes: &[u8]) -> u128
    ensures value { result ≡ sum bytes.now }
    ensures small { result ≤ 255 * length bytes.now }
{
    let mut total = 0;
    for part in bytes.chunks(256) {
        total += u128::from(part_total(part));
    }
    total
}

impl Tally {
    /// The tally of no bytes.
    pub fn new() -> Tally
        ensures { IsTallyOf result [] 0 }
    {
        Tally { count: 0, total: 0 }
    }

    /// The tally with these bytes behind those before.
    pub fn with(self, bytes: &[u8]) -> Tally
        ensures { (before : List ℕ) (parts : ℕ) → self.count ≤ 2 ^ 96 → IsTallyOf self before parts → IsTallyOf result (before ++ bytes.now) (parts + 1) }
    {
        Tally {
            count: self.count.saturating_add(bytes.len() as u128),
            total: self.total.saturating_add(total(bytes)),
        }
    }

    /// The tally of these bytes with those of another tally behind them.
    pub fn followed_by(self, next: Tally) -> Tally
        ensures { (before after : List ℕ) (parts more : ℕ) → self.count ≤ 2 ^ 96 → next.count ≤ 2 ^ 96 → IsTallyOf self before parts → IsTallyOf next after more → IsTallyOf result (before ++ after) (parts + more) }
    {
        Tally {
            count: self.count.saturating_add(next.count),
            total: self.total.saturating_add(next.total),
        }
    }
}

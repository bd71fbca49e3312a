//! A counter of simulated steps, whose parts have to be joined back.

ghost use Rattle.std.specs.Prelude.{◌≡◌, ◌+◌, ◌<◌, ◌^◌};

use std::marker::{Model, PhantomData};

/// A mark that tells one kind of counter from another.
pub trait Ledger {}

/// The mark of the simulator's own counter.
#[derive(Clone, Copy)]
pub struct Counted;

impl Ledger for Counted {}

/// A count of steps, which contracts see as a number. It cannot be dropped: a part is spent by `join`, and the
/// whole by `close`.
pub struct Steps<L: Ledger> {
    count: u64,
    mark: PhantomData<L>,
}

impl<L: Ledger> Model for Steps<L> {
    ghost use Rattle.std.specs.Prelude.{ℕ, ◌<◌, ◌^◌};

    ghost Value = { ℕ };

    ghost view = { λ s. s.count };

    ghost invariant = { λ s. s.count < 2 ^ 64 };
}

impl<L: Ledger> Steps<L> {
    /// A counter at zero.
    pub fn new() -> Steps<L>
        ensures { result ≡ 0 }
    {
        Steps {
            count: 0,
            mark: PhantomData,
        }
    }

    /// The steps that were counted so far.
    pub fn count(&self) -> u64
        ensures { result ≡ self.now }
    {
        self.count
    }

    /// Counts one step.
    pub fn tick(&mut self)
        requires { self.old + 1 < 2 ^ 64 }
        ensures { self.new ≡ self.old + 1 }
    {
        self.count += 1;
    }

    /// A part at zero, to be joined back.
    pub fn split(&self) -> Steps<L>
        ensures { result ≡ 0 }
    {
        Steps::new()
    }

    /// Adds the steps of a part, and spends it.
    pub fn join(&mut self, part: Steps<L>)
        requires { self.old + part < 2 ^ 64 }
        ensures { self.new ≡ self.old + part }
    {
        let Steps { count, mark: _ } = part;
        self.count += count;
    }

    /// Ends the counter, and answers its number.
    pub fn close(self) -> u64
        ensures { result ≡ self }
    {
        let Steps { count, mark: _ } = self;
        count
    }
}

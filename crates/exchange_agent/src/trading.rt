//! Whether a stock trades.

ghost use Rattle.std.specs.Prelude.{◌≡◌, ◌==◌, not};
ghost use Rattle.exchange_agent.specs.State.{trades};
ghost use Rattle.exchange_agent.specs.View.{trading_letter};

/// A stock's trading state.
#[derive(Clone, Copy)]
pub enum Trading {
    /// Orders are taken.
    Open,
    /// Orders are rejected.
    Halted,
}

impl Trading {
    /// Its letter in messages: `T` is open, `H` is halted.
    pub fn letter(self) -> u8
        ensures { result ≡ trading_letter self }
    {
        match self {
            Trading::Open => b'T',
            Trading::Halted => b'H',
        }
    }

    /// Whether orders are rejected.
    pub fn is_halted(self) -> bool
        ensures { result ≡ not (trading_letter self == trades) }
    {
        self == Trading::Halted
    }
}

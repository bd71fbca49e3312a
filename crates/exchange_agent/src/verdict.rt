//! What the exchange finds of an Enter.

ghost use Rattle.std.specs.Prelude.{◌≡◌};
ghost use Rattle.exchange_agent.specs.Enter.{reason_letter};

/// Which line of the table answers an Enter.
#[derive(Clone, Copy)]
pub enum Verdict {
    /// The pair of agent and token is remembered.
    Ignored,
    /// Rejected with this reason, and the pair is not remembered.
    Forgotten(Reason),
    /// Rejected with this reason.
    Refused(Reason),
    /// Accepted at the stock of this number.
    Accepted(usize),
}

/// Why an Enter is rejected.
#[derive(Clone, Copy)]
pub enum Reason {
    /// No stock has the symbol.
    UnknownStock,
    /// The stock is halted.
    Halted,
    /// The price is out of range or off its tick.
    Price,
    /// The terms or the size are not taken, or there is no room.
    Other,
}

impl Reason {
    /// Its letter in the reply: `S`, `H`, `X` or `O`.
    pub fn letter(self) -> u8
        ensures { result ≡ reason_letter self }
    {
        match self {
            Reason::UnknownStock => b'S',
            Reason::Halted => b'H',
            Reason::Price => b'X',
            Reason::Other => b'O',
        }
    }
}

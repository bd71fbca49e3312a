//! The middles that momentum remembers.

ghost use Rattle.std.specs.Prelude.{◌≡◌, ◌<◌, ◌≤◌, ◌+◌, ◌*◌, ◌^◌, [], IfOk, OnOk, OnErr, length, sum};
ghost use Rattle.agent_shell.specs.Momentum.{remembered};

use market_types::Memory;
use std::alloc::Global;
use std::marker::Model;

/// Middles of quotes, the latest last.
#[derive(Drop)]
pub struct History {
    middles: Vec<u32>,
}

impl Model for History {
    ghost use Rattle.std.specs.Prelude.{ℕ, List};

    ghost Value = { List ℕ };

    ghost view = { λ h. h.middles.items };
}

impl History {
    /// Nothing is remembered.
    pub fn new(alloc: Global) -> History
        ensures { result ≡ [] }
    {
        History {
            middles: Vec::new(alloc),
        }
    }

    /// The middles in order.
    pub fn as_slice(&self) -> &[u32]
        ensures { result.now ≡ self.now }
    {
        self.middles.as_slice()
    }

    /// A middle joins, and the last `long` are kept.
    pub fn remember(&mut self, long: u32, middle: u32) -> Result<(), Memory>
        requires { length self.old ≤ long }
        ensures remembered { OnOk result (self.new ≡ remembered long middle self.old) }
        ensures refused { OnErr result (self.new ≡ self.old) }
    {
        self.middles.push(middle)?;
        if self.middles.len() > long as usize {
            self.middles.remove(0);
        }
        Ok(())
    }

    /// An equal history.
    pub fn copy(&self) -> Result<History, Memory>
        ensures { IfOk result (λ h. h ≡ self.now) }
    {
        let middles = self.middles.clone()?;
        Ok(History { middles })
    }
}

/// The sum of at most 64 middles.
pub fn sum_of(middles: &[u32]) -> u64
    requires { length middles.now ≤ 64 }
    ensures value { result ≡ sum middles.now }
    ensures bound { result ≤ 64 * 2 ^ 32 }
{
    let mut total = 0;
    for middle in middles {
        total += u64::from(*middle);
    }
    total
}

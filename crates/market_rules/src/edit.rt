//! What a branch changes where it forks.

ghost use Rattle.std.specs.Prelude.{◌≡◌, IfOk};
ghost use Rattle.market_rules.specs.Edits.{letter_of};

use crate::fees::FeeTable;
use crate::ticks::TickTable;
use market_types::{AgentNo, Inbound, Memory, StockNo, Time};
use std::alloc::Global;

/// A parameter of a trader.
#[derive(Clone, Copy, PartialEq, Eq)]
pub enum Param {
    /// The shares of an order.
    Size,
    /// The time from one wakeup to the next, in nanoseconds.
    Every,
    /// The most that is drawn on top of that time, in nanoseconds.
    Wobble,
    /// The computation delay, in nanoseconds.
    Delay,
    /// How far off a guess of the value is at most, with four implied decimals.
    Noise,
    /// How far price and value are apart before an order is sent, with four implied decimals.
    Margin,
    /// Half of the spread that a maker quotes, with four implied decimals.
    Half,
    /// The distance of a maker's price levels, with four implied decimals.
    Step,
    /// How many price levels a maker quotes.
    Levels,
    /// How long a maker pauses, in nanoseconds.
    Pause,
}

/// A change that a branch makes where it forks, at the time of its state.
#[derive(PartialEq, Eq, Drop)]
pub enum Edit {
    /// Another tick table.
    Tick {
        stock: StockNo,
        table: TickTable,
    },
    /// Other fees.
    Fee {
        stock: StockNo,
        fees: FeeTable,
    },
    /// Trading in a stock stops.
    Halt {
        stock: StockNo,
    },
    /// Trading in a stock goes on.
    Resume {
        stock: StockNo,
    },
    /// Another base and jitter from one group to another, in nanoseconds.
    Latency {
        from: u8,
        to: u8,
        base: Time,
        jitter: u32,
    },
    /// Another value of one parameter of a trader.
    Agent {
        agent: AgentNo,
        name: Param,
        value: u64,
    },
    /// A trader sends nothing from now on.
    Silence {
        agent: AgentNo,
    },
    /// A message from a trader to the exchange, due so many nanoseconds after the state's time.
    Inject {
        agent: AgentNo,
        after: Time,
        message: Inbound,
    },
    /// Added to the offset of a stock's value, with four implied decimals.
    Series {
        stock: StockNo,
        offset: i64,
    },
}

impl Edit {
    /// The letter by which records and bundles name the kind of an edit.
    pub fn letter(&self) -> u8
        ensures { result ≡ letter_of self.now }
    {
        match self {
            Edit::Tick { .. } => b't',
            Edit::Fee { .. } => b'f',
            Edit::Halt { .. } => b'h',
            Edit::Resume { .. } => b'r',
            Edit::Latency { .. } => b'l',
            Edit::Agent { .. } => b'p',
            Edit::Silence { .. } => b's',
            Edit::Inject { .. } => b'i',
            Edit::Series { .. } => b'v',
        }
    }

    /// An equal edit.
    pub fn copy(&self, alloc: Global) -> Result<Edit, Memory>
        ensures { IfOk result (λ e. e ≡ self.now) }
    {
        match self {
            Edit::Tick { stock, table } => {
                let table = table.copy(alloc)?;
                Ok(Edit::Tick {
                    stock: *stock,
                    table,
                })
            }
            Edit::Fee { stock, fees } => Ok(Edit::Fee {
                stock: *stock,
                fees: *fees,
            }),
            Edit::Halt { stock } => Ok(Edit::Halt { stock: *stock }),
            Edit::Resume { stock } => Ok(Edit::Resume { stock: *stock }),
            Edit::Latency {
                from,
                to,
                base,
                jitter,
            } => Ok(Edit::Latency {
                from: *from,
                to: *to,
                base: *base,
                jitter: *jitter,
            }),
            Edit::Agent { agent, name, value } => Ok(Edit::Agent {
                agent: *agent,
                name: *name,
                value: *value,
            }),
            Edit::Silence { agent } => Ok(Edit::Silence { agent: *agent }),
            Edit::Inject {
                agent,
                after,
                message,
            } => Ok(Edit::Inject {
                agent: *agent,
                after: *after,
                message: *message,
            }),
            Edit::Series { stock, offset } => Ok(Edit::Series {
                stock: *stock,
                offset: *offset,
            }),
        }
    }
}

//! The parameters of a trader.

ghost use Rattle.std.specs.Prelude.{◌≡◌};
ghost use Rattle.agent_shell.specs.Parameters.{IsOwnParam, kind_with, setting_with};

use market_rules::Param;
use market_types::{StockNo, Time};

/// A kind of trader with its own parameters. Sizes are shares, and distances of prices have four implied decimals.
#[derive(Clone, Copy, PartialEq, Eq)]
pub enum Kind {
    /// Asks for quotes and trades nothing.
    Watcher,
    /// Buys or sells by the toss of a coin.
    Noise {
        size: u32,
    },
    /// Trades on a guess of the value that is off by up to `noise`, where it gains `margin` or more a share.
    Value {
        size: u32,
        noise: u32,
        margin: u32,
    },
    /// Compares the mean of the last `short` middles with that of the last `long`.
    Momentum {
        size: u32,
        short: u32,
        long: u32,
    },
    /// Quotes both sides of a centre at `levels` levels, `pause` nanoseconds apart.
    Maker {
        size: u32,
        half: u32,
        step: u32,
        levels: u32,
        pause: Time,
    },
}

/// How a maker quotes its levels. Distances of prices have four implied decimals.
#[derive(Clone, Copy)]
pub struct Levels {
    /// The shares of each order.
    pub size: u32,
    /// From the centre to the first level.
    pub half: u32,
    /// From one level to the next.
    pub step: u32,
    /// Nanoseconds from one level to the next.
    pub pause: Time,
}

/// One trader as a study gives it.
#[derive(Clone, Copy)]
pub struct TraderSetting {
    pub kind: Kind,
    /// Its latency group.
    pub group: u8,
    pub stock: StockNo,
    /// Its first wakeup, in nanoseconds past midnight.
    pub first: Time,
    /// From one wakeup to the next at least, in nanoseconds.
    pub every: Time,
    /// The most that is drawn on top of that, in nanoseconds.
    pub wobble: u32,
    /// The computation delay, in nanoseconds.
    pub delay: Time,
    /// Its cash at the opening, in millionths of a dollar.
    pub cash: i64,
}

impl Kind {
    // The kind with one of its parameters replaced.
    fn with(mut self, name: Param, value: u64) -> Kind
        requires { IsOwnParam self name value }
        ensures { result ≡ kind_with self name value }
    {
        match (&mut self, name) {
            (Kind::Noise { size }, Param::Size) => *size = value as u32,
            (Kind::Value { size, .. }, Param::Size) => *size = value as u32,
            (Kind::Momentum { size, .. }, Param::Size) => *size = value as u32,
            (Kind::Maker { size, .. }, Param::Size) => *size = value as u32,
            (Kind::Value { noise, .. }, Param::Noise) => *noise = value as u32,
            (Kind::Value { margin, .. }, Param::Margin) => *margin = value as u32,
            (Kind::Maker { half, .. }, Param::Half) => *half = value as u32,
            (Kind::Maker { step, .. }, Param::Step) => *step = value as u32,
            (Kind::Maker { levels, .. }, Param::Levels) => *levels = value as u32,
            (Kind::Maker { pause, .. }, Param::Pause) => *pause = value,
            _ => {}
        }
        self
    }
}

impl TraderSetting {
    /// The setting with one parameter replaced.
    pub fn with(self, name: Param, value: u64) -> TraderSetting
        requires { IsOwnParam self.kind name value }
        ensures value { result ≡ setting_with name value self }
        ensures stock { result.stock ≡ self.stock }
        ensures group { result.group ≡ self.group }
    {
        match name {
            Param::Every => TraderSetting {
                every: value,
                ..self
            },
            Param::Wobble => TraderSetting {
                wobble: value as u32,
                ..self
            },
            Param::Delay => TraderSetting {
                delay: value,
                ..self
            },
            _ => TraderSetting {
                kind: self.kind.with(name, value),
                ..self
            },
        }
    }
}

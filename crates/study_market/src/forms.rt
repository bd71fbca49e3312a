//! The keys of a study's top table, of its exchange, its latencies, its stocks, its changes and its agents, in order.

use study_file::{Key, Kind};

// A key that has to be there.
macro_rules! needed {
    ($name:literal, $kind:ident) => {
        own!($name, $kind, &[])
    };
}

// A key that may be left out.
macro_rules! spare {
    ($name:literal, $kind:ident) => {
        Key {
            name: $name,
            kind: Kind::$kind,
            needed: false,
            with: &[],
        }
    };
}

// A key that tables of these kinds have.
macro_rules! own {
    ($name:literal, $kind:ident, $with:expr) => {
        Key {
            name: $name,
            kind: Kind::$kind,
            needed: true,
            with: $with,
        }
    };
}

/// The keys of the top table.
pub(crate) const TOP_KEYS: [Key; 13] = [
    needed!("version", Number),
    needed!("key", Text),
    needed!("open", Number),
    needed!("close", Number),
    needed!("events", Number),
    spare!("stride", Number),
    spare!("series", Text),
    needed!("exchange", SubTable),
    needed!("latency", SubTable),
    needed!("stock", Tables),
    spare!("change", Tables),
    needed!("agent", Tables),
    spare!("branch", Tables),
];

/// The keys of the exchange.
pub(crate) const EXCHANGE_KEYS: [Key; 2] = [needed!("group", Number), needed!("delay", Number)];

/// The keys of the latencies.
pub(crate) const LATENCY_KEYS: [Key; 2] = [needed!("base", Rows), needed!("jitter", Rows)];

/// The keys of a stock.
pub(crate) const STOCK_KEYS: [Key; 10] = [
    needed!("symbol", Text),
    needed!("bands", Pairs),
    needed!("add", Number),
    needed!("take", Number),
    needed!("series", Text),
    own!("start", Number, &["rule"]),
    own!("mean", Number, &["rule"]),
    own!("pull", Number, &["rule"]),
    own!("shock", Number, &["rule"]),
    own!("every", Number, &["rule"]),
];

/// The keys of a change.
pub(crate) const CHANGE_KEYS: [Key; 6] = [
    needed!("time", Number),
    needed!("stock", Text),
    needed!("kind", Text),
    own!("bands", Pairs, &["tick"]),
    own!("add", Number, &["fee"]),
    own!("take", Number, &["fee"]),
];

/// The keys of an agent.
pub(crate) const AGENT_KEYS: [Key; 19] = [
    needed!("kind", Text),
    needed!("group", Number),
    needed!("stock", Text),
    needed!("first", Number),
    needed!("every", Number),
    spare!("wobble", Number),
    spare!("delay", Number),
    spare!("cash", Number),
    spare!("count", Number),
    spare!("spread", Number),
    own!("size", Number, &["noise", "value", "momentum", "maker"]),
    own!("noise", Number, &["value"]),
    own!("margin", Number, &["value"]),
    own!("short", Number, &["momentum"]),
    own!("long", Number, &["momentum"]),
    own!("half", Number, &["maker"]),
    own!("step", Number, &["maker"]),
    own!("levels", Number, &["maker"]),
    own!("pause", Number, &["maker"]),
];

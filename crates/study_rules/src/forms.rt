//! The keys of an edit, in order.

use study_file::{Key, Kind};

// A key that edits of these kinds have; every kind, where none is named.
macro_rules! own {
    ($name:literal, $kind:ident, $with:expr) => {
        Key {
            name: $name,
            kind: Kind::$kind,
            needed: true,
            with: $with,
        }
    };
}

/// The keys of an edit.
pub(crate) const EDIT_KEYS: [Key; 15] = [
    own!("kind", Text, &[]),
    own!("stock", Text, &["tick", "fee", "halt", "resume", "series"]),
    own!("bands", Pairs, &["tick"]),
    own!("add", Number, &["fee"]),
    own!("take", Number, &["fee"]),
    own!("from", Number, &["latency"]),
    own!("to", Number, &["latency"]),
    own!("base", Number, &["latency"]),
    own!("jitter", Number, &["latency"]),
    own!("agent", Number, &["agent", "silence", "inject"]),
    own!("name", Text, &["agent"]),
    own!("value", Number, &["agent"]),
    own!("after", Number, &["inject"]),
    own!("message", HexText, &["inject"]),
    own!("offset", Number, &["series"]),
];

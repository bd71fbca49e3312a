//! How a run ends.

ghost use Rattle.std.specs.Prelude.{◌≡◌, ◌⊎◌, string_bytes};

use crate::status::Status;
use std::alloc::Global;

/// A status, and what its line names.
#[derive(Drop)]
pub struct Ending {
    /// How the run ends.
    pub status: Status,
    /// What its line names: a file, a stock's symbol, or an argument or an act, behind which the last event of its branch may stand.
    /// Empty where it names nothing.
    pub name: String,
}

/// An end whose line names nothing.
pub fn nameless(alloc: Global, status: Status) -> Ending
    ensures { result.status ≡ status }
{
    Ending {
        status,
        name: String::new(alloc),
    }
}

/// An end whose line names this, where there is memory for the name.
pub fn named(alloc: Global, status: Status, name: &str) -> Ending
    ensures { (result.status ≡ Status.Memory) ⊎ ((result.status ≡ status) × (string_bytes result.name ≡ name.now)) }
{
    match String::from_str(alloc, name) {
        Ok(name) => Ending { status, name },
        Err(_) => nameless(alloc, Status::Memory),
    }
}

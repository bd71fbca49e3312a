//! The one call of the program: words, a library and sinks in, a status out; and that call over the system's files and
//! streams.
#![tactic(auto)]

mod audits;
mod crosses;
mod ending;
mod find;
mod found;
pub mod laws;
mod notes;
mod perform;
mod rewinds;
mod send;
mod sessions;
mod simulate;
mod status;
mod system;
mod top;
pub mod worked;

pub use notes::write_note;
pub use status::Status;
pub use system::{run_command_line, run_words};
pub use top::run;

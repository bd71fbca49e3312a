//! The words of a command line, and what they ask for.
#![tactic(auto)]

mod asked;
mod given;
mod laws;
mod line;
mod mark;
mod number;
mod text;
pub mod worked;

pub use asked::{Asked, Crossing, Request, Task, ask};
pub use given::words_behind_name;
pub use laws::marks_are_spelled;
pub use mark::Mark;
pub use text::Text;

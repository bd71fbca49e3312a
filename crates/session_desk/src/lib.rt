//! A session: the acts that a script says beside a study, the tree of branches that they change, and what they answer, each
//! answer that of the full run over the tree as it then stands, from the nearest state that the closed shelf of the study holds.
//!
//! Contracts see a session as the study's course, the branches of the tree, and for each whether it is still the study's own.
#![tactic(auto)]

mod act;
mod act_answer;
mod acts;
mod answers;
pub mod carried_laws;
mod carrying;
mod changes;
mod copies;
mod edits;
mod end;
mod error;
mod frames;
mod keys;
pub mod laws;
mod list;
mod named;
mod numbers;
mod onward;
mod script;
pub mod script_laws;
mod script_worked;
mod session;
mod walk;
pub mod worked;

pub use act::{Act, ScriptError};
pub use branch_tree::{Branch, PlanError};
pub use carrying::carry_out;
pub use changes::first_refused;
pub use end::{PastAct, SessionEnd};
pub use error::SessionError;
pub use kernel_copy::{Checkpoint, Course};
pub use numbers::forks_by_number;
pub use script::read_script;
pub use script_worked::{branches_come_and_go, frames_of_answers, the_tree_refuses};
pub use session::Session;

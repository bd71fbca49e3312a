//! A study's branches, and whether the whole study is accepted.
#![tactic(auto)]

mod acceptance;
mod beside_rule;
mod edit_list;
mod edit_rules;
mod entries;
mod forms;
mod keys;
pub mod laws;
mod made;
mod names;
mod refusal;
mod scope;
mod stops;
mod study;
pub mod worked;

pub use acceptance::accept;
pub use edit_list::read_edit_list;
pub use made::branches;
pub use study::{AcceptError, Study};
pub use study_market::Refusal;

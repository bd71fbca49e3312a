//! The tree of a study's branches: which segments it takes to run each branch, and what each goes on from.
#![tactic(auto)]

mod branch;
mod branch_plan;
mod children;
mod cuts;
mod error;
mod lay;
mod lists;
mod name;
mod refusals;
mod segment;
mod stop;
pub mod worked;

pub use branch::{Branch, copy_edits};
pub use branch_plan::{BranchPlan, plan};
pub use error::PlanError;
pub use name::{Name, is_name};
pub use segment::Segment;
pub use stop::Stop;

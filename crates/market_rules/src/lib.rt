//! The rules of a market that a study gives and its branches change: tick tables, fees, dated changes and
//! edits.
//!
//! A tick table is seen by contracts as its list of bands and a list of dated changes as that list; both keep
//! what their constructors accept.
#![tactic(auto)]

mod bands;
mod changes;
mod edit;
mod error;
mod fees;
pub mod laws;
mod refusals;
mod ticks;
mod view;
pub mod worked;

pub use bands::Band;
pub use changes::{Change, Dated, DatedList};
pub use edit::{Edit, Param};
pub use error::RuleError;
pub use fees::FeeTable;
pub use ticks::TickTable;
pub use view::View;

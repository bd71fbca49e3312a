//! The displayed books and trading states that a feed tells, and whether they are those of a closing.
//!
//! Contracts see what was rebuilt as the displayed orders in the order in which the feed told them, and the
//! trading state of each stock. A feed whose orders come and go takes a step of logarithmic length for each
//! message, whatever it tells.
#![tactic(auto)]

mod compared;
mod entries;
pub mod laws;
mod rebuilt;
mod retold;
mod shown;
pub mod worked;

pub use rebuilt::{Rebuilt, rebuild};
pub use shown::{AuditError, Misfit, Shown};

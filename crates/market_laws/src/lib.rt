//! What every run of an exchange keeps, what every run of every study keeps of its market, and how its entries fit their
//! fields.
//!
//! A run's exchange comes from the opening by messages and changes of rules, one after another. So what every run of an exchange
//! keeps, each state of each branch of each study keeps.
#![tactic(auto)]

pub mod exchange_worked;
pub mod fields;
pub mod laws;
pub mod named;
pub mod shown;
pub mod small;
pub mod worked;

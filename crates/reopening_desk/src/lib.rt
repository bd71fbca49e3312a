//! A reopening in a state: the orders of a file, what they and a stock's book come to, and the frames that tell of it.
#![tactic(auto)]

mod answer;
mod book;
mod fields;
mod file;
pub mod file_laws;
mod file_worked;
mod frames;
mod joining;
pub mod laws;
mod layouts;
mod number;
mod stock;
mod whole;
mod worked;

pub use answer::reopening;
pub use file::{OrdersError, read_orders};
pub use file_worked::{faulty_files, small_files};
pub use frames::{put_cross, put_part};
pub use joining::join;
pub use layouts::{CROSS, PART};
pub use stock::{StockNamed, stock_named};
pub use whole::{Reopening, put_reopening};
pub use worked::{one_of_each, published_kinds, published_layouts, reopenings};

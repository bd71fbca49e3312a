//! A study's market, stocks, series, changes and traders: which rule a table breaks first, and what a run starts from.
#![tactic(auto)]

pub mod agent_worked;
mod agents;
mod bands;
mod cells;
mod change_parts;
mod changes;
mod counts;
mod dates;
mod early_refusal;
mod entries;
mod file;
mod forms;
mod kind;
mod late;
mod latencies;
mod market_parts;
mod market_table;
pub mod part_worked;
mod parts;
mod reading;
mod records;
mod refusal;
mod row;
mod series;
pub mod series_worked;
mod stock;
mod stock_parts;
mod tables;
mod traders;
pub mod worked;

pub use bands::read_ticks;
pub use early_refusal::{ReadError, Refusal};
pub use file::{SeriesError, read_series};
pub use late::late_stock;
pub use market_parts::stride;
pub use market_table::group_number;
pub use records::next_record;
pub use refusal::read_opening;
pub use stock::{few_stocks, stock_symbol};
pub use stock_parts::read_fees;
pub use tables::SeriesTables;

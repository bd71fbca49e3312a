//! A study file: as TOML tables, with keys of their types and no other; and the text of the large study.
#![tactic(auto)]

mod entries;
mod keys;
pub mod large_worked;
mod look;
mod raw;
mod text;
mod values;
pub mod worked;

pub use entries::{EntryRule, first_failing};
pub use keys::{Key, Kind, broken_key, has_form, has_keys, is_hex, is_word, needed, own, spare};
pub use look::{integer_at, member, table_at, text_at};
pub use raw::{RawStudy, StudyError, read_tables, series_name};
pub use text::study_text;
pub use toml::{Table, Value};
pub use values::{
    broken_unless, has_between, is_at_most, is_between, is_kind, is_second_version, is_within,
    list_at, list_in, number_at, number_in, number_or, string_at,
};

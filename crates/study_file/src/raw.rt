//! The table that a study's bytes say.

ghost use Rattle.std.specs.Prelude.{◌≡◌, IfOk, IfErr, None, Some, codes, option_map};
ghost use Rattle.toml.specs.View.{table_view};
ghost use Rattle.study_file.specs.Tables.{table_of, text_at as string_at};

use crate::look::text_at;
use std::alloc::Global;
use thiserror::Error;
use toml::Table;

/// Why a study's bytes give no table.
#[derive(Debug, Drop, Error)]
pub enum StudyError {
    /// They are not UTF-8, or no TOML document.
    #[error("the study is no TOML table")]
    NotToml,
    /// Want of memory.
    #[error("out of memory")]
    Memory,
}

/// A study as it is read.
#[derive(Drop)]
pub struct RawStudy {
    /// The whole document.
    pub table: Table,
}

/// Reads the TOML table that the bytes are the text of.
pub fn read_tables(alloc: Global, bytes: &[u8]) -> Result<RawStudy, StudyError>
    ensures table { IfOk result (λ raw. table_of bytes.now ≡ Some (table_view raw.table)) }
    ensures refused { IfErr result (λ e. e ≡ StudyError.NotToml → table_of bytes.now ≡ None) }
{
    match toml::table_from_slice(alloc, bytes) {
        Ok(table) => Ok(RawStudy { table }),
        Err(e) => {
            if e.is_memory() {
                Err(StudyError::Memory)
            } else {
                Err(StudyError::NotToml)
            }
        }
    }
}

/// The name of the series file, where the study's `series` is a text.
pub fn series_name(raw: &RawStudy) -> Option<&str>
    ensures { option_map (λ name. name.now) result ≡ string_at (codes "series") (table_view raw.now.table) }
{
    text_at(&raw.table, "series")
}

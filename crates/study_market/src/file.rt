//! Reading a series file.

ghost use Rattle.std.specs.Prelude.{◌≡◌, ◌≤◌, None, Some, Ok, Err, ℕ, List, true, if◌then◌else◌, length, map, IfOk, IfErr};
ghost use Rattle.toml.specs.View.{view};
ghost use Rattle.csv.specs.Reading.{Ready, default_config, is_flexible, reader_config, reader_state, reader_trim, source_of, strip_bom};
ghost use Rattle.csv.specs.Records.{fields_of};
ghost use Rattle.csv.specs.declared.parser.State.TheVariants as st;
ghost use Rattle.csv.specs.declared.reader.Trim.TheVariants as trim;
ghost use Rattle.study_market.specs.Records.{records_of};
ghost use Rattle.study_market.specs.Rows.{after_record, at_end, read_rows, rows_from};

use crate::records::next_record;
use crate::row::{is_header, read_row};
use crate::tables::SeriesTables;
use csv::{ByteRecord, Reader, ReaderBuilder};
use market_types::Memory;
use std::alloc::Global;
use study_file::Value;
use thiserror::Error;

/// Why a series file gives no rows.
#[derive(Debug, Drop, Error)]
pub enum SeriesError {
    /// The number of the first record that is refused, from 0, the header's.
    #[error("record {0} is refused")]
    Refused(u32),
    /// Want of memory.
    #[error("out of memory")]
    Memory,
}

// The rows after the record of a number, if it isn't refused; whether it is taken.
fn take_record(
    stocks: &[Value],
    number: u32,
    tables: &mut SeriesTables,
    line: &ByteRecord,
) -> Result<bool, Memory>
    requires { length tables.old ≡ length stocks.now }
    ensures taken { IfOk result (λ taken. after_record (map view stocks.now) number tables.old (fields_of line.now) ≡ (if taken then Some tables.new else None)) }
    ensures length { length tables.new ≡ length tables.old }
{
    if number == 0 {
        return Ok(is_header(line));
    }
    if 1_000_000 < number {
        return Ok(false);
    }
    match read_row(stocks, line) {
        Some(row) => tables.take(row),
        None => Ok(false),
    }
}

// What the file comes to where it ends before the record of a number.
fn finished(number: u32, tables: SeriesTables) -> Result<SeriesTables, SeriesError>
    ensures rows { IfOk result (λ t. at_end number tables ≡ Ok t) }
    ensures refused { IfErr result (λ e. (refused : ℕ) → e ≡ SeriesError.Refused refused → at_end number tables ≡ Err refused) }
{
    if number == 0 {
        return Err(SeriesError::Refused(0));
    }
    Ok(tables)
}

// A reader of the records of a text, each of any number of cells.
fn record_reader(alloc: Global, text: &[u8]) -> Reader<&[u8]>
    ensures untrimmed { reader_trim result ≡ trim.None }
    ensures flexible { is_flexible result ≡ true }
    ensures ready { Ready result }
    ensures config { reader_config result ≡ default_config }
    ensures source { source_of (λ s. Some s.now) result ≡ Some (strip_bom text.now) }
    ensures state { reader_state result ≡ st.StartRecord }
{
    ReaderBuilder::new()
        .has_headers(false)
        .flexible(true)
        .from_reader(alloc, text)
}

// Takes the records of a reader, from the header on; how many there are.
fn take_records(
    stocks: &[Value],
    reader: &mut Reader<&[u8]>,
    line: &mut ByteRecord,
    tables: &mut SeriesTables,
) -> Result<u32, SeriesError>
    requires length { length tables.old ≡ length stocks.now }
    requires untrimmed { reader_trim reader.old ≡ trim.None }
    requires flexible { is_flexible reader.old ≡ true }
    requires ready { Ready reader.old }
    requires config { reader_config reader.old ≡ default_config }
    requires state { reader_state reader.old ≡ st.StartRecord }
    ensures rows { IfOk result (λ number. (text : List ℕ) → source_of (λ s. Some s.now) reader.old ≡ Some (strip_bom text) → rows_from (map view stocks.now) 0 tables.old (records_of text) ≡ at_end number tables.new) }
    ensures refused { IfErr result (λ e. (number : ℕ) → e ≡ SeriesError.Refused number → (text : List ℕ) → source_of (λ s. Some s.now) reader.old ≡ Some (strip_bom text) → rows_from (map view stocks.now) 0 tables.old (records_of text) ≡ Err number) }
{
    let mut number = 0;
    'records: loop {
        let Ok(found) = next_record(reader, line) else {
            return Err(SeriesError::Memory);
        };
        if !found {
            return Ok(number);
        }
        let Ok(taken) = take_record(stocks, number, tables, line) else {
            return Err(SeriesError::Memory);
        };
        if !taken {
            return Err(SeriesError::Refused(number));
        }
        number += 1;
    }
}

/// The rows of each stock that the text of a series file says, of a study with these stocks. The text is read one record at a
/// time, and what is kept of a record is a time and a value.
pub fn read_series(
    alloc: Global,
    stocks: &[Value],
    text: &[u8],
) -> Result<SeriesTables, SeriesError>
    ensures rows { IfOk result (λ tables. read_rows (map view stocks.now) text.now ≡ Ok tables) }
    ensures refused { IfErr result (λ e. (number : ℕ) → e ≡ SeriesError.Refused number → read_rows (map view stocks.now) text.now ≡ Err number) }
{
    let Ok(mut tables) = SeriesTables::empty(alloc, stocks.len()) else {
        return Err(SeriesError::Memory);
    };
    let mut reader = record_reader(alloc, text);
    let mut line = ByteRecord::new(alloc);
    match take_records(stocks, &mut reader, &mut line, &mut tables) {
        Ok(number) => finished(number, tables),
        Err(error) => Err(error),
    }
}

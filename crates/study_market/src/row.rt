//! The row that a record says.

ghost use Rattle.std.specs.Prelude.{◌≡◌, if◌then◌else◌, ◌<◌, ◌^◌, map, length, true, position, Some, None, IfSome};
ghost use Rattle.std.specs.Int.{is_in_range};
ghost use Rattle.std.specs.List.{list_all};
ghost use Rattle.toml.specs.View.{view};
ghost use Rattle.csv.specs.Records.{fields_of};
ghost use Rattle.study_market.specs.Records.{is_header as header, is_digits as digits, number_after as number_from, number_of as whole_of, is_time as time_in, is_value as value_in, is_stock_of as stock_in, field_of, timed_row, row_of as row_said, row_in};

use crate::stock::{is_by_rows, stock_symbol};
use csv::ByteRecord;
use fundamental_series::SeriesRow;
use market_types::Time;
use study_file::Value;

/// A row of a series file: the place of its stock in the study, and the stock's value from a time on.
#[derive(Clone, Copy)]
pub struct FileRow {
    /// The place of the stock, from 0.
    pub stock: usize,
    pub row: SeriesRow,
}

// Whether a byte is a digit.
fn is_digit(byte: u8) -> bool
    ensures { result ≡ is_in_range 48 57 byte }
{
    matches!(byte, b'0'..=b'9')
}

// Whether each byte is a digit.
fn each_is_digit(text: &[u8]) -> bool
    ensures { result ≡ list_all (is_in_range 48 57) text.now }
{
    text.iter().all(|byte| is_digit(*byte))
}

// Whether a text is 1 to so many digits.
fn is_digits(most: usize, text: &[u8]) -> bool
    ensures { result ≡ digits most text.now }
{
    1 <= text.len() && text.len() <= most && each_is_digit(text)
}

// The number that digits say after those of another number, which is below 100,000,000,000,000.
fn number_after(number: u64, text: &[u8]) -> u64
    requires digits { list_all (is_in_range 48 57) text.now ≡ true }
    requires small { number_from number text.now < 10 ^ 14 }
    ensures { result ≡ number_from number text.now }
{
    match text.split_first() {
        Some((digit, rest)) => number_after(number * 10 + u64::from(*digit - b'0'), rest),
        None => number,
    }
}

// The number that 1 to 14 digits say.
fn number_of(text: &[u8]) -> u64
    requires { digits 14 text.now ≡ true }
    ensures { result ≡ whole_of text.now }
{
    number_after(0, text)
}

// The time that a text says, where it is one.
fn read_time(text: &[u8]) -> Option<Time>
    ensures { result ≡ (if time_in text.now then Some (whole_of text.now) else None) }
{
    if !is_digits(14, text) {
        return None;
    }
    let time = number_of(text);
    if time <= 86_399_999_999_999 {
        Some(time)
    } else {
        None
    }
}

// The value that a text says, where it is a price.
fn read_value(text: &[u8]) -> Option<u32>
    ensures { result ≡ (if value_in text.now then Some (whole_of text.now) else None) }
{
    if !is_digits(10, text) {
        return None;
    }
    let value = number_of(text);
    if 1 <= value && value <= 1_999_999_900 {
        Some(value as u32)
    } else {
        None
    }
}

// Whether a stock's values go by rows and this is its symbol.
fn is_stock_of(stock: &Value, symbol: &[u8]) -> bool
    ensures { result ≡ stock_in symbol.now (view stock.now) }
{
    is_by_rows(stock) && stock_symbol(stock).as_bytes() == symbol
}

// The place of the stock by rows that has a symbol.
fn place_of(stocks: &[Value], symbol: &[u8]) -> Option<usize>
    ensures { result ≡ position (λ v. stock_in symbol.now (view v)) stocks.now }
{
    stocks.iter().position(|stock| is_stock_of(stock, symbol))
}

// The place of the stock by rows that has a symbol.
fn stock_of(stocks: &[Value], symbol: &[u8]) -> Option<usize>
    ensures place { result ≡ position (stock_in symbol.now) (map view stocks.now) }
    ensures within { IfSome result (λ at. at < length stocks.now) }
{
    place_of(stocks, symbol)
}

// The row of a stock that a time and a value say.
fn timed(stock: usize, time: &[u8], value: &[u8]) -> Option<FileRow>
    ensures row { result ≡ timed_row stock time.now value.now }
    ensures stock { IfSome result (λ r. r.stock ≡ stock) }
{
    let time = read_time(time)?;
    let value = read_value(value)?;
    Some(FileRow {
        stock,
        row: SeriesRow { time, value },
    })
}

// A field of a record, and the empty one where it has none.
fn field(line: &ByteRecord, at: usize) -> &[u8]
    ensures { result.now ≡ field_of (fields_of line.now) at }
{
    match line.get(at) {
        Some(field) => field,
        None => &[],
    }
}

/// Whether a record is the names of the columns.
pub fn is_header(line: &ByteRecord) -> bool
    ensures { result ≡ header (fields_of line.now) }
{
    line.len() == 3
        && field(line, 0) == b"symbol".as_slice()
        && field(line, 1) == b"time".as_slice()
        && field(line, 2) == b"value".as_slice()
}

// The row that a symbol, a time and a value say, if they say one.
fn row_of(stocks: &[Value], symbol: &[u8], time: &[u8], value: &[u8]) -> Option<FileRow>
    ensures row { result ≡ row_said (map view stocks.now) symbol.now time.now value.now }
    ensures within { IfSome result (λ r. r.stock < length stocks.now) }
{
    match stock_of(stocks, symbol) {
        Some(stock) => timed(stock, time, value),
        None => None,
    }
}

/// The row that a record says, if it says one.
pub fn read_row(stocks: &[Value], line: &ByteRecord) -> Option<FileRow>
    ensures row { result ≡ row_in (map view stocks.now) (fields_of line.now) }
    ensures within { IfSome result (λ r. r.stock < length stocks.now) }
{
    if line.len() != 3 {
        return None;
    }
    row_of(stocks, field(line, 0), field(line, 1), field(line, 2))
}

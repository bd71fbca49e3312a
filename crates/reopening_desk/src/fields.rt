//! The order that a record says.

ghost use Rattle.std.specs.Prelude.{◌≡◌};
ghost use Rattle.csv.specs.Records.{fields_of};
ghost use Rattle.study_market.specs.Records.{field_of};
ghost use Rattle.reopening_desk.specs.Fields.{is_trader, price_in, shares_in, side_in};
ghost use Rattle.reopening_desk.specs.Orders.{is_header, order_in, order_of};

use crate::number::read_number;
use csv::ByteRecord;
use market_types::{Side, read_price, read_shares};
use reopen_cross::Interest;

// Whether a text is the number of one of so many traders, from 1.
fn is_trader(traders: usize, text: &[u8]) -> bool
    ensures { result ≡ is_trader traders text.now }
{
    match read_number(3, text) {
        Some(agent) => 1 <= agent && agent <= traders as u64,
        None => false,
    }
}

// The side that a letter says.
fn side_in(text: &[u8]) -> Option<Side>
    ensures { result ≡ side_in text.now }
{
    if text == b"B".as_slice() {
        Some(Side::Buy)
    } else if text == b"S".as_slice() {
        Some(Side::Sell)
    } else {
        None
    }
}

// The shares that a text says.
fn shares_in(text: &[u8]) -> Option<u32>
    ensures { result ≡ shares_in text.now }
{
    read_shares(read_number(6, text)?).ok()
}

// The price that a text says, with four implied decimals.
fn price_in(text: &[u8]) -> Option<u32>
    ensures { result ≡ price_in text.now }
{
    read_price(read_number(10, text)?).ok()
}

// The displayed order that a side, shares and a price say, numbered by its record.
fn order_of(number: u32, side: &[u8], shares: &[u8], price: &[u8]) -> Option<Interest>
    ensures { result ≡ order_of number (side_in side.now) (shares_in shares.now) (price_in price.now) }
{
    let side = side_in(side)?;
    let left = shares_in(shares)?;
    let price = price_in(price)?;
    Some(Interest {
        reference: u64::from(number),
        side,
        price,
        left,
        shown: true,
    })
}

// A field of a record, and the empty one where it has none.
fn field(line: &ByteRecord, at: usize) -> &[u8]
    ensures { result.now ≡ field_of (fields_of line.now) at }
{
    match line.get(at) {
        Some(field) => field,
        None => &[],
    }
}

/// Whether a record is the names of the columns.
pub fn is_header(line: &ByteRecord) -> bool
    ensures { result ≡ is_header (fields_of line.now) }
{
    line.len() == 4
        && field(line, 0) == b"agent".as_slice()
        && field(line, 1) == b"side".as_slice()
        && field(line, 2) == b"shares".as_slice()
        && field(line, 3) == b"price".as_slice()
}

/// The order that the record of a number says, if it says one: its agent is one of so many traders.
pub fn read_order(traders: usize, number: u32, line: &ByteRecord) -> Option<Interest>
    ensures { result ≡ order_in traders number (fields_of line.now) }
{
    if line.len() != 4 || !is_trader(traders, field(line, 0)) {
        return None;
    }
    order_of(number, field(line, 1), field(line, 2), field(line, 3))
}

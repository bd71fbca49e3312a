//! Reading a file of orders.

ghost use Rattle.std.specs.Prelude.{◌≡◌, ◌++◌, None, Some, Ok, Err, ℕ, if◌then◌else◌, IfOk, IfErr, option_map};
ghost use Rattle.csv.specs.Records.{fields_of};
ghost use Rattle.reopening_desk.specs.Filed.{AreFiled};
ghost use Rattle.reopening_desk.specs.Orders.{at_end, before, orders_of, said_by};

use crate::fields::{is_header, read_order};
use csv::{ByteRecord, ReaderBuilder};
use market_types::Memory;
use reopen_cross::Interest;
use std::alloc::Global;
use study_market::next_record;
use thiserror::Error;

/// Why a file gives no orders.
#[derive(Clone, Copy, PartialEq, Eq, Debug, Error)]
pub enum OrdersError {
    /// The number of the first record that breaks a rule, from 0, the header's.
    #[error("record {0} is refused")]
    Refused(u32),
    #[error("out of memory")]
    Memory,
}

// Puts what the record of a number says behind the orders, if it isn't refused; whether it is taken.
fn take_record(
    traders: usize,
    number: u32,
    orders: &mut Vec<Interest>,
    line: &ByteRecord,
) -> Result<bool, Memory>
    ensures { IfOk result (λ taken. option_map (λ more. orders.old.items ++ more) (said_by traders number (fields_of line.now)) ≡ (if taken then Some orders.new.items else None)) }
{
    if number == 0 {
        return Ok(is_header(line));
    }
    if 16_384 < number {
        return Ok(false);
    }
    match read_order(traders, number, line) {
        Some(order) => {
            orders.push(order)?;
            Ok(true)
        }
        None => Ok(false),
    }
}

// What the file says where it ends before the record of a number.
fn finished(number: u32, orders: Vec<Interest>) -> Result<Vec<Interest>, OrdersError>
    ensures orders { IfOk result (λ v. before orders.items (at_end number) ≡ Ok v.items) }
    ensures refused { IfErr result (λ e. (refused : ℕ) → e ≡ OrdersError.Refused refused → before orders.items (at_end number) ≡ Err refused) }
{
    if number == 0 {
        return Err(OrdersError::Refused(0));
    }
    Ok(orders)
}

/// The orders that the text of a file says, in a study with so many traders: prices in dollars with four implied
/// decimals, all displayed, the reference of each the number of its record. The text is read one record at a time.
pub fn read_orders(alloc: Global, traders: usize, text: &[u8]) -> Result<Vec<Interest>, OrdersError>
    ensures orders { IfOk result (λ orders. orders_of traders text.now ≡ Ok orders.items) }
    ensures filed { IfOk result (λ orders. AreFiled orders.items) }
    ensures refused { IfErr result (λ e. (number : ℕ) → e ≡ OrdersError.Refused number → orders_of traders text.now ≡ Err number) }
{
    let mut reader = ReaderBuilder::new()
        .has_headers(false)
        .flexible(true)
        .from_reader(alloc, text);
    let mut line = ByteRecord::new(alloc);
    let mut orders = Vec::new(alloc);
    let mut number = 0;
    'records: loop {
        let Ok(found) = next_record(&mut reader, &mut line) else {
            drop(orders);
            drop(line);
            drop(reader);
            return Err(OrdersError::Memory);
        };
        if !found {
            drop(line);
            drop(reader);
            return finished(number, orders);
        }
        let Ok(taken) = take_record(traders, number, &mut orders, &line) else {
            drop(orders);
            drop(line);
            drop(reader);
            return Err(OrdersError::Memory);
        };
        if !taken {
            drop(orders);
            drop(line);
            drop(reader);
            return Err(OrdersError::Refused(number));
        }
        number += 1;
    }
}

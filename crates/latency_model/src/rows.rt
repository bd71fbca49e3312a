//! Rows of numbers.

ghost use Rattle.std.specs.Prelude.{◌≡◌, ◌<◌, [], IfOk, Some, length, map, slice_get, slice_index_or, vec_len};
ghost use Rattle.latency_model.specs.Tables.{with_number};

use market_types::{Memory, copied};
use std::alloc::Global;

// Equal rows.
pub fn copied_rows<T: Copy + Drop>(alloc: Global, rows: &[Vec<T>]) -> Result<Vec<Vec<T>>, Memory>
    ensures { IfOk result (λ copy. map (λ row. row.items) copy.items ≡ map (λ row. row.items) rows.now) }
{
    let mut copy = Vec::new(alloc);
    for row in rows {
        copy.push(copied(alloc, row.as_slice())?)?;
    }
    Ok(copy)
}

// The number in a row and a column.
pub fn read<T: Copy>(rows: &[Vec<T>], row: usize, column: usize) -> T
    requires row { row < length rows.now }
    requires column { column < length (slice_index_or (map (λ row. row.items) rows.now) row []) }
    ensures { slice_get (slice_index_or (map (λ row. row.items) rows.now) row []) column ≡ Some result }
{
    rows[row][column]
}

// Writes a number into a row and a column.
pub fn write<T: Copy + Drop>(rows: &mut Vec<Vec<T>>, row: usize, column: usize, value: T)
    requires row { row < vec_len rows.old }
    requires column { column < length (slice_index_or (map (λ row. row.items) rows.old.items) row []) }
    ensures { map (λ row. row.items) rows.new.items ≡ with_number (map (λ row. row.items) rows.old.items) row column value }
{
    rows[row][column] = value;
}

//! Fields of a line, one after another.

ghost use Rattle.std.specs.Prelude.{◌≡◌, ◌++◌, ◌∷◌, [], OnOk, IfOk, map, decimal};
ghost use Rattle.std.specs.Fmt.{signed_decimal};
ghost use Rattle.csv.specs.Records.{fields_of, partial_of};
ghost use Rattle.study_report.specs.Table.{columns, header_of, parent_text, end_text, branch_fields, row_fields};

use crate::row::TableRow;
use branch_tree::Name;
use csv::ByteRecord;
use market_types::{End, Memory};
use probe_desk::Probe;
use std::alloc::Global;

fn add(line: &mut ByteRecord, field: &[u8]) -> Result<(), Memory>
    requires { partial_of line.old ≡ [] }
    ensures fields { OnOk result (fields_of line.new ≡ fields_of line.old ++ field.now ∷ []) }
    ensures partial { OnOk result (partial_of line.new ≡ []) }
{
    line.push_field(field)?;
    Ok(())
}

fn add_number(line: &mut ByteRecord, alloc: Global, number: u32) -> Result<(), Memory>
    requires { partial_of line.old ≡ [] }
    ensures fields { OnOk result (fields_of line.new ≡ fields_of line.old ++ decimal number ∷ []) }
    ensures partial { OnOk result (partial_of line.new ≡ []) }
{
    let text = format!(in alloc; "{number}")?;
    add(line, text.as_bytes())
}

// Appends a number of a probe.
fn add_value(line: &mut ByteRecord, alloc: Global, value: i128) -> Result<(), Memory>
    requires { partial_of line.old ≡ [] }
    ensures fields { OnOk result (fields_of line.new ≡ fields_of line.old ++ signed_decimal value ∷ []) }
    ensures partial { OnOk result (partial_of line.new ≡ []) }
{
    let text = format!(in alloc; "{value}")?;
    add(line, text.as_bytes())
}

// Appends to an empty line the heads of the columns that each table has.
fn add_heads(line: &mut ByteRecord) -> Result<(), Memory>
    requires partial { partial_of line.old ≡ [] }
    requires empty { fields_of line.old ≡ [] }
    ensures fields { OnOk result (fields_of line.new ≡ columns) }
    ensures partial { OnOk result (partial_of line.new ≡ []) }
{
    add(line, b"branch")?;
    add(line, b"parent")?;
    add(line, b"stop")?;
    add(line, b"events")?;
    add(line, b"end")?;
    add(line, b"first_difference")
}

// The heads of the columns that each table has.
fn column_heads(alloc: Global) -> Result<ByteRecord, Memory>
    ensures fields { IfOk result (λ line. fields_of line ≡ columns) }
    ensures partial { IfOk result (λ line. partial_of line ≡ []) }
{
    let mut line = ByteRecord::new(alloc);
    match add_heads(&mut line) {
        Ok(()) => Ok(line),
        Err(memory) => {
            drop(line);
            Err(memory)
        }
    }
}

fn add_names(line: &mut ByteRecord, probes: &[Box<dyn Probe>]) -> Result<(), Memory>
    requires { partial_of line.old ≡ [] }
    ensures { OnOk result (fields_of line.new ≡ fields_of line.old ++ map (λ p. title p) probes.now) }
{
    for probe in probes {
        let name = probe.as_ref().name();
        add(line, name.as_bytes())?;
    }
    Ok(())
}

/// The first line of a table.
pub fn header(alloc: Global, probes: &[Box<dyn Probe>]) -> Result<ByteRecord, Memory>
    ensures { IfOk result (λ line. fields_of line ≡ header_of (map (λ p. title p) probes.now)) }
{
    let mut line = column_heads(alloc)?;
    match add_names(&mut line, probes) {
        Ok(()) => Ok(line),
        Err(memory) => {
            drop(line);
            Err(memory)
        }
    }
}

// The name of a branch's parent; nothing for the root.
fn parent_name(parent: &Option<Name>) -> &[u8]
    ensures { result.now ≡ parent_text parent.now }
{
    match parent {
        Some(name) => name.as_slice(),
        None => &[],
    }
}

// How an end is called.
fn end_name(end: End) -> &'static [u8]
    ensures { result.now ≡ end_text end }
{
    match end {
        End::Quiet => b"Quiet",
        End::Closed => b"Closed",
        End::EventLimit => b"EventLimit",
        End::QueueFull => b"QueueFull",
    }
}

// Appends to an empty line what a row says of its branch before the numbers of the probes.
fn add_branch(line: &mut ByteRecord, alloc: Global, row: &TableRow) -> Result<(), Memory>
    requires partial { partial_of line.old ≡ [] }
    requires empty { fields_of line.old ≡ [] }
    ensures fields { OnOk result (fields_of line.new ≡ branch_fields row.now) }
    ensures partial { OnOk result (partial_of line.new ≡ []) }
{
    add(line, row.name.as_slice())?;
    add(line, parent_name(&row.parent))?;
    add_number(line, alloc, row.stop)?;
    add_number(line, alloc, row.events)?;
    add(line, end_name(row.end))?;
    add_number(line, alloc, row.difference)
}

// What a row says of its branch before the numbers of the probes.
fn branch_line(alloc: Global, row: &TableRow) -> Result<ByteRecord, Memory>
    ensures fields { IfOk result (λ line. fields_of line ≡ branch_fields row.now) }
    ensures partial { IfOk result (λ line. partial_of line ≡ []) }
{
    let mut line = ByteRecord::new(alloc);
    match add_branch(&mut line, alloc, row) {
        Ok(()) => Ok(line),
        Err(memory) => {
            drop(line);
            Err(memory)
        }
    }
}

// Appends the numbers of probes.
fn add_values(line: &mut ByteRecord, alloc: Global, values: &[i128]) -> Result<(), Memory>
    requires { partial_of line.old ≡ [] }
    ensures { OnOk result (fields_of line.new ≡ fields_of line.old ++ map signed_decimal values.now) }
{
    for value in values {
        add_value(line, alloc, *value)?;
    }
    Ok(())
}

/// The fields of a row.
pub fn row_line(alloc: Global, row: &TableRow) -> Result<ByteRecord, Memory>
    ensures { IfOk result (λ line. fields_of line ≡ row_fields row.now) }
{
    let mut line = branch_line(alloc, row)?;
    add_values(&mut line, alloc, row.values.as_slice())?;
    Ok(line)
}

//! The text of a table.

ghost use Rattle.std.specs.Prelude.{◌≡◌, IfOk, OnOk, All, Some, false, map, length};
ghost use Rattle.std.specs.List.{flat_map};
ghost use Rattle.std.specs.Io.KnownBytes.{Appends};
ghost use Rattle.csv.specs.Records.{fields_of};
ghost use Rattle.csv.specs.Writing.{default_writer, fields_written, has_written, text_written, writer_setup};
ghost use Rattle.study_report.specs.declared.row.TableRow.{TableRow};
ghost use Rattle.study_report.specs.Table.{line_of, row_fields, table_of};

use crate::lines::{header, row_line};
use crate::row::TableRow;
use csv::{ByteRecord, Writer, WriterBuilder};
use market_types::Memory;
use probe_desk::Probe;
use std::alloc::Global;

fn put_line(writer: &mut Writer<Vec<u8>>, line: &ByteRecord) -> Result<(), Memory>
    requires setup { writer_setup writer.old ≡ default_writer }
    requires fields { fields_written writer.old ≡ 0 }
    requires wrote { has_written writer.old ≡ false }
    ensures setup { OnOk result (writer_setup writer.new ≡ default_writer) }
    ensures fields { OnOk result (fields_written writer.new ≡ 0) }
    ensures wrote { OnOk result (has_written writer.new ≡ false) }
    ensures text { OnOk result (Appends (text_written (λ v. Some v.items) writer.old) (text_written (λ v. Some v.items) writer.new) (line_of (fields_of line.now))) }
{
    match writer.write_byte_record(line) {
        Ok(()) => Ok(()),
        Err(_) => Err(Memory),
    }
}

// Appends the lines of rows.
fn put_rows(writer: &mut Writer<Vec<u8>>, alloc: Global, rows: &[TableRow]) -> Result<(), Memory>
    requires setup { writer_setup writer.old ≡ default_writer }
    requires fields { fields_written writer.old ≡ 0 }
    requires wrote { has_written writer.old ≡ false }
    ensures { OnOk result (Appends (text_written (λ v. Some v.items) writer.old) (text_written (λ v. Some v.items) writer.new) (flat_map (λ r. line_of (row_fields r)) rows.now)) }
{
    for row in rows {
        let line = row_line(alloc, row)?;
        put_line(writer, &line)?;
    }
    Ok(())
}

/// The table of these rows in comma-separated values, with the names of the probes as heads of their columns. Each line
/// ends with a newline.
pub fn table(alloc: Global, rows: &[TableRow], probes: &[Box<dyn Probe>]) -> Result<Vec<u8>, Memory>
    requires { All (λ (r : TableRow). length r.values ≡ length probes.now) rows.now }
    ensures { IfOk result (λ text. text.items ≡ table_of rows.now (map (λ p. title p) probes.now)) }
{
    let head = header(alloc, probes)?;
    let mut writer = WriterBuilder::new().from_writer(Vec::new(alloc));
    let put = put_line(&mut writer, &head);
    drop(head);
    if let Err(memory) = put {
        drop(writer);
        return Err(memory);
    }
    if let Err(memory) = put_rows(&mut writer, alloc, rows) {
        drop(writer);
        return Err(memory);
    }
    match writer.into_inner() {
        Ok(text) => Ok(text),
        Err(error) => {
            drop(error);
            Err(Memory)
        }
    }
}

//! The records of a text of comma-separated values, one at a time.

ghost use Rattle.std.specs.Prelude.{◌≡◌, Some, true, IfOk, OnOk};
ghost use Rattle.csv.specs.Reading.{ReadRecord, Ready, is_flexible, reader_trim, took_first};
ghost use Rattle.csv.specs.Records.{fields_of};
ghost use Rattle.csv.specs.declared.reader.Trim.TheVariants as trim;

use csv::{ByteRecord, ErrorKind, Reader};
use market_types::Memory;

/// Reads the next record, of any number of cells, into `line`; whether there was one.
pub fn next_record(reader: &mut Reader<&[u8]>, line: &mut ByteRecord) -> Result<bool, Memory>
    requires flexible { is_flexible reader.old ≡ true }
    requires untrimmed { reader_trim reader.old ≡ trim.None }
    requires ready { Ready reader.old }
    ensures reads { IfOk result (λ found. ReadRecord (λ s. Some s.now) reader.old reader.new found (fields_of line.new)) }
    ensures ready { OnOk result (took_first reader.new ≡ true) }
    ensures flexible { OnOk result (is_flexible reader.new ≡ true) }
{
    match reader.read_byte_record(line) {
        Ok(found) => Ok(found),
        Err(error) => match error.kind() {
            // Reading a slice never fails, but csv's contract rules out no failure of its source.
            ErrorKind::OutOfMemory | ErrorKind::Io(_) => Err(Memory),
            _ => unreachable!(),
        },
    }
}

//! Messages field by field.

ghost use Rattle.std.specs.Prelude.{◌≡◌, ◌+◌, ◌≤◌, ◌<◌, ◌^◌, ◌∷◌, ◌++◌, map, take, drop, length, IsTrue};
ghost use Rattle.wire_fields.specs.Kinds.{width};
ghost use Rattle.wire_fields.specs.Numbers.{number_bytes};
ghost use Rattle.wire_fields.specs.Values.{side_letter, spelled, told, HasWidth};
ghost use Rattle.wire_fields.specs.Wire.{spelling, spelled_fields, total_width, HaveWidths};

use crate::kind::Kind;
use market_types::{Side, Symbol, Token};

/// A field's value.
#[derive(Clone, Copy)]
pub enum Value {
    Number(u64),
    Byte(u8),
    Two([u8; 2]),
    Four([u8; 4]),
    Side(Side),
    Symbol(Symbol),
    Token(Token),
}

/// The letter of a side.
pub fn side_letter(side: Side) -> u8
    ensures { result ≡ side_letter side }
{
    match side {
        Side::Buy => b'B',
        Side::Sell => b'S',
    }
}

/// A message that has exactly `N` bytes: its type's letter, and its fields in order.
pub fn message<const N: usize>(letter: u8, kinds: &[Kind], values: &[Value]) -> [u8; N]
    requires widths { HaveWidths kinds.now values.now }
    requires size { 1 + total_width kinds.now ≡ N }
    ensures { result ≡ spelling (record { letter = letter; kinds = kinds.now; values = map told values.now }) }
{
    let mut bytes = [0; N];
    write(&mut bytes, letter, kinds, values);
    bytes
}

/// Fields without a type's letter, one after another, that have exactly `N` bytes.
pub fn fields<const N: usize>(kinds: &[Kind], values: &[Value]) -> [u8; N]
    requires widths { HaveWidths kinds.now values.now }
    requires size { total_width kinds.now ≡ N }
    ensures { result ≡ spelled_fields kinds.now (map told values.now) }
{
    let mut bytes = [0; N];
    write_fields(&mut bytes, kinds, values);
    bytes
}

// Writes a message into the first bytes of `out`: its type's letter, and its fields in order.
pub(crate) fn write(out: &mut [u8], letter: u8, kinds: &[Kind], values: &[Value])
    requires widths { HaveWidths kinds.now values.now }
    requires room { 1 + total_width kinds.now ≤ length out.old }
    ensures { out.new ≡ spelling (record { letter = letter; kinds = kinds.now; values = map told values.now })
        ++ drop (1 + total_width kinds.now) out.old }
{
    out[0] = letter;
    write_fields(&mut out[1..], kinds, values);
}

// Writes fields into the first bytes of `out`.
fn write_fields(out: &mut [u8], kinds: &[Kind], values: &[Value])
    requires widths { HaveWidths kinds.now values.now }
    requires room { total_width kinds.now ≤ length out.old }
    ensures { out.new ≡ spelled_fields kinds.now (map told values.now) ++ drop (total_width kinds.now) out.old }
{
    let mut at = 0;
    for (i, kind) in kinds.iter().enumerate() {
        let end = at + kind.width();
        put(&mut out[at..end], kind, &values[i]);
        at = end;
    }
}

// Writes one field.
fn put(out: &mut [u8], kind: &Kind, value: &Value)
    requires width { length out.old ≡ width kind.now }
    requires fits { HasWidth kind.now value.now }
    ensures { out.new ≡ spelled kind.now (told value.now) }
{
    match value {
        Value::Number(number) => put_number(out, *number),
        Value::Byte(byte) => out.copy_from_slice(&[*byte]),
        Value::Two(bytes) => out.copy_from_slice(bytes),
        Value::Four(bytes) => out.copy_from_slice(bytes),
        Value::Side(side) => out.copy_from_slice(&[side_letter(*side)]),
        Value::Symbol(symbol) => out.copy_from_slice(&symbol.0),
        Value::Token(token) => out.copy_from_slice(&token.0),
    }
}

// Writes as many of a number's last bytes as there is room for.
fn put_number(out: &mut [u8], number: u64)
    requires { length out.old ≤ 8 }
    ensures { out.new ≡ number_bytes (length out.old) number }
{
    out.copy_from_slice(&number.to_be_bytes()[8 - out.len()..]);
}

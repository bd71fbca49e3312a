//! The bytes of one message.

ghost use Rattle.std.specs.Prelude.{◌≡◌, ◌+◌, ◌≤◌, map, length, [], ◌∷◌, ◌++◌, IsTrue, ◌↔◌};
ghost use Rattle.wire_fields.specs.Values.{told};
ghost use Rattle.wire_fields.specs.Wire.{spelling, total_width, HaveWidths};

use crate::checking::total_width;
use crate::kind::Kind;
use crate::writing::{Value, write};
use std::marker::Model;

/// A message of at most `N` bytes, seen as the list of its bytes.
#[derive(Drop)]
pub struct MessageBytes<const N: usize> {
    bytes: [u8; N],
    len: usize,
}

impl<const N: usize> Model for MessageBytes<N> {
    ghost use Rattle.std.specs.Prelude.{List, ℕ, ◌≤◌, take};

    ghost Value = { List ℕ };

    ghost view = { λ a. take a.len a.bytes };

    ghost invariant = { λ a. a.len ≤ N };
}

impl<const N: usize> MessageBytes<N> {
    /// A message of a type's letter and its fields in order.
    pub fn of(letter: u8, kinds: &[Kind], values: &[Value]) -> MessageBytes<N>
        requires widths { HaveWidths kinds.now values.now }
        requires room { 1 + total_width kinds.now ≤ N }
        ensures spelling { result ≡ spelling (record { letter = letter; kinds = kinds.now; values = map told values.now }) }
        ensures size { length result ≤ N }
    {
        let mut bytes = [0; N];
        write(&mut bytes, letter, kinds, values);
        MessageBytes {
            bytes,
            len: 1 + total_width(kinds),
        }
    }

    /// A message that has only its type's letter yet.
    pub fn begun(letter: u8) -> MessageBytes<N>
        requires room { 1 ≤ N }
        ensures { result ≡ letter ∷ [] }
    {
        let mut bytes = [0; N];
        bytes[0] = letter;
        MessageBytes { bytes, len: 1 }
    }

    /// Appends `M` bytes.
    pub fn push<const M: usize>(&mut self, more: &[u8; M])
        requires room { length self.old + M ≤ N }
        ensures bytes { self.new ≡ self.old ++ more.now }
        ensures size { length self.new ≡ length self.old + M }
    {
        let start = self.len;
        let bytes = &mut self.bytes[..];
        bytes[start..start + M].copy_from_slice(more);
        self.len = start + M;
    }

    /// The bytes of a message that has all `N`.
    pub fn to_array(&self) -> [u8; N]
        requires { length self.now ≡ N }
        ensures { result ≡ self.now }
    {
        self.bytes
    }

    /// The bytes in order.
    pub fn as_slice(&self) -> &[u8]
        ensures bytes { result.now ≡ self.now }
        ensures size { length result.now ≤ N }
    {
        &self.bytes[..self.len]
    }

    /// How many bytes the message has.
    pub fn len(&self) -> usize
        ensures { result ≡ length self.now }
    {
        self.len
    }

    /// Whether it has none.
    pub fn is_empty(&self) -> bool
        ensures { IsTrue result ↔ (self.now ≡ []) }
    {
        self.as_slice().is_empty()
    }
}

//! Names of branches.

ghost use Rattle.std.specs.Prelude.{◌≡◌, ◌≤◌, length, IfSome, IfNone, Some, None};
ghost use Rattle.std.specs.List.{list_all};
ghost use Rattle.branch_tree.specs.Names.{name_of, is_name_byte, is_name};

use std::marker::Model;

/// The most bytes of a name.
pub const LONGEST: usize = 32;

/// A name of 1 to 32 bytes, seen as their list.
#[derive(Drop)]
pub struct Name {
    bytes: [u8; LONGEST],
    len: usize,
}

impl Model for Name {
    ghost use Rattle.std.specs.Prelude.{List, ℕ, take};
    ghost use Rattle.branch_tree.specs.Names.{IsNameLength};

    ghost Value = { List ℕ };

    ghost view = { λ a. take a.len a.bytes };

    ghost invariant = { λ a. IsNameLength a.len };
}

impl Name {
    /// These bytes, unless they are none or more than 32. It takes no memory.
    pub fn new(text: &[u8]) -> Option<Name>
        ensures { result ≡ name_of text.now }
    {
        if text.is_empty() || text.len() > LONGEST {
            return None;
        }
        let mut bytes = [0; LONGEST];
        bytes[..text.len()].copy_from_slice(text);
        Some(Name {
            bytes,
            len: text.len(),
        })
    }

    /// The bytes.
    pub fn as_slice(&self) -> &[u8]
        ensures { result.now ≡ self.now }
    {
        &self.bytes[..self.len]
    }

    /// How many bytes it has: 1 to 32.
    pub fn len(&self) -> usize
        ensures value { result ≡ length self.now }
        ensures some { 1 ≤ result }
        ensures few { result ≤ 32 }
    {
        self.len
    }

    /// What holds of each name: it has 1 to 32 bytes. A proof has these facts behind a call.
    pub fn know_length(&self)
        ensures some { 1 ≤ length self.now }
        ensures few { length self.now ≤ 32 }
    {
        let _len = self.len();
    }

    /// An equal name.
    pub fn copy(&self) -> Name
        ensures { result ≡ self.now }
    {
        Name {
            bytes: self.bytes,
            len: self.len,
        }
    }
}

fn is_name_byte(byte: u8) -> bool
    ensures { result ≡ is_name_byte byte }
{
    matches!(byte, b'a'..=b'z' | b'0'..=b'9' | b'_' | b'-')
}

fn are_name_bytes(text: &str) -> bool
    ensures { result ≡ list_all is_name_byte text.now }
{
    text.as_bytes().iter().all(|byte| is_name_byte(*byte))
}

/// Whether a text may name a study's branch: 1 to 32 bytes of `a` to `z`, `0` to `9`, `_` and `-`.
pub fn is_name(text: &str) -> bool
    ensures { result ≡ is_name text.now }
{
    matches!(text.len(), 1..=32) && are_name_bytes(text)
}

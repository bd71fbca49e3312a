//! Whether a table has its keys with their types and no other.

ghost use Rattle.std.specs.Prelude.{◌≡◌, ◌==◌, ◌&&◌, not, map, filter, position, length, string_bytes, is_some, IfSome, ◌<◌};
ghost use Rattle.std.specs.List.{list_all, list_any};
ghost use Rattle.std.specs.Map.{keys_of};
ghost use Rattle.std.specs.Str.{bytes_eq};
ghost use Rattle.toml.specs.Data.{as_table as table_in};
ghost use Rattle.toml.specs.View.{table_view, view};
ghost use Rattle.study_file.specs.Keys.{is_number as number, is_pair as pair, is_array_of as array_of, is_of as of_kind, is_hex_digit as hex_digit, belongs as belongs_to, key_holds as holds_in, broken_key as broken_key_in, has_keys as keys_in, has_form as form_in, has_no_other as no_other_in, keys_for, needed as needed_key, spare as spare_key, own as own_key};
ghost use Rattle.study_file.specs.Tables.{is_named};
ghost use Rattle.study_file.specs.KeyRules.{rule_of};

use crate::look::{member, text_at};
use toml::value::Array;
use toml::{Table, Value};

/// The type of the value at a key.
#[derive(Clone, Copy, PartialEq, Eq)]
pub enum Kind {
    /// A whole number.
    Number,
    /// A text.
    Text,
    /// A text of lower-case hexadecimal digits.
    HexText,
    /// A table.
    SubTable,
    /// An array of tables.
    Tables,
    /// An array of arrays of numbers.
    Rows,
    /// An array of arrays of two numbers.
    Pairs,
}

/// A key that a table may have.
#[derive(Clone, Copy, PartialEq, Eq)]
pub struct Key<'a> {
    /// Its name.
    pub name: &'a str,
    /// The type of its value.
    pub kind: Kind,
    /// Whether it has to be there.
    pub needed: bool,
    /// The kinds of table that have it; every kind, where none is named.
    pub with: &'a [&'a str],
}

fn is_number(value: &Value) -> bool
    ensures { result ≡ number (view value.now) }
{
    value.as_integer().is_some()
}

fn is_table(value: &Value) -> bool
    ensures { result ≡ is_some (table_in (view value.now)) }
{
    value.as_table().is_some()
}

fn each_is_number(array: &Array) -> bool
    ensures { result ≡ list_all (λ v. number (view v)) array.now.items }
{
    array.iter().all(|item| is_number(item))
}

fn are_two_numbers(array: &Array) -> bool
    ensures { result ≡ (length array.now.items == 2 && list_all (λ v. number (view v)) array.now.items) }
{
    array.len() == 2 && each_is_number(array)
}

fn is_row(value: &Value) -> bool
    ensures { result ≡ array_of number (view value.now) }
{
    match value.as_array() {
        Some(items) => each_is_number(items),
        None => false,
    }
}

fn is_pair(value: &Value) -> bool
    ensures { result ≡ pair (view value.now) }
{
    match value.as_array() {
        Some(items) => are_two_numbers(items),
        None => false,
    }
}

fn are_rows(value: &Value) -> bool
    ensures { result ≡ array_of (array_of number) (view value.now) }
{
    match value.as_array() {
        Some(items) => items.iter().all(|item| is_row(item)),
        None => false,
    }
}

fn are_pairs(value: &Value) -> bool
    ensures { result ≡ array_of pair (view value.now) }
{
    match value.as_array() {
        Some(items) => items.iter().all(|item| is_pair(item)),
        None => false,
    }
}

fn are_tables(value: &Value) -> bool
    ensures { result ≡ array_of (λ x. is_some (table_in x)) (view value.now) }
{
    match value.as_array() {
        Some(items) => items.iter().all(|item| is_table(item)),
        None => false,
    }
}

// Whether a byte is a digit of lower-case hexadecimal.
fn is_hex_digit(byte: u8) -> bool
    ensures { result ≡ hex_digit byte }
{
    matches!(byte, b'0'..=b'9' | b'a'..=b'f')
}

/// Whether a text has no byte but digits of lower-case hexadecimal.
pub fn is_hex(text: &str) -> bool
    ensures { result ≡ list_all hex_digit text.now }
{
    text.as_bytes().iter().all(|byte| is_hex_digit(*byte))
}

// Whether a value has the type.
fn is_of(kind: Kind, value: &Value) -> bool
    ensures { result ≡ of_kind kind (view value.now) }
{
    match kind {
        Kind::Number => is_number(value),
        Kind::Text => value.as_str().is_some(),
        Kind::HexText => match value.as_str() {
            Some(text) => is_hex(text),
            None => false,
        },
        Kind::SubTable => is_table(value),
        Kind::Tables => are_tables(value),
        Kind::Rows => are_rows(value),
        Kind::Pairs => are_pairs(value),
    }
}

// Whether a key is one of a table of this kind.
fn belongs(word: &str, key: &Key) -> bool
    ensures { result ≡ belongs_to word.now (rule_of key.now) }
{
    key.with.is_empty() || is_word(key.with, word)
}

// Whether a key is there with its type, or may be left out and is.
fn key_holds(table: &Table, key: &Key) -> bool
    ensures { result ≡ holds_in (table_view table.now) (rule_of key.now) }
{
    match member(table, key.name) {
        Some(value) => is_of(key.kind, value),
        None => !key.needed,
    }
}

// The place of the first key of a table of this kind that is missing or of another type.
fn first_unheld(table: &Table, word: &str, keys: &[Key]) -> Option<usize>
    ensures { result ≡ position (λ k. not (holds_in (table_view table.now) (rule_of k))) (filter (λ k. belongs_to word.now (rule_of k)) keys.now) }
{
    keys.iter()
        .filter(|key| belongs(word, key))
        .position(|key| !key_holds(table, key))
}

// Whether a table of this kind has a key of this name.
fn knows(word: &str, keys: &[Key], name: &str) -> bool
    ensures { result ≡ list_any (λ k. bytes_eq k.name.now name.now) (filter (λ k. belongs_to word.now (rule_of k)) keys.now) }
{
    keys.iter()
        .filter(|key| belongs(word, key))
        .any(|key| key.name == name)
}

// Whether a table of this kind has no other key.
fn has_no_other(table: &Table, word: &str, keys: &[Key]) -> bool
    ensures { result ≡ list_all (λ name. list_any (λ k. bytes_eq k.name.now (string_bytes name)) (filter (λ k. belongs_to word.now (rule_of k)) keys.now)) (keys_of table.now.entries) }
{
    table.keys().all(|name| knows(word, keys, name.as_str()))
}

// The place, in the list of the keys of a table of this kind, of the first that is missing or of another type.
fn place_unheld(table: &Table, word: &str, keys: &[Key]) -> Option<usize>
    ensures place { result ≡ position (λ key. not (holds_in (table_view table.now) key)) (keys_for word.now (map rule_of keys.now)) }
    ensures low { IfSome result (λ at. at < length keys.now) }
{
    first_unheld(table, word, keys)
}

// Whether a table of this kind has no key but its own.
fn has_known(table: &Table, word: &str, keys: &[Key]) -> bool
    ensures { result ≡ no_other_in (keys_for word.now (map rule_of keys.now)) (table_view table.now) }
{
    has_no_other(table, word, keys)
}

/// The place at which a table of this kind hasn't its keys with their types and no other: the number, from 1, of the first
/// key that is missing or of another type, else 99 for another key. There are fewer than 99 keys.
pub fn broken_key(table: &Table, word: &str, keys: &[Key]) -> Option<u32>
    requires few { length keys.now < 99 }
    ensures { result ≡ broken_key_in word.now (map rule_of keys.now) (table_view table.now) }
{
    match place_unheld(table, word, keys) {
        Some(at) => Some(at as u32 + 1),
        None => {
            if has_known(table, word, keys) {
                None
            } else {
                Some(99)
            }
        }
    }
}

/// Whether a table of this kind has its keys with their types and no other.
pub fn has_keys(table: &Table, word: &str, keys: &[Key]) -> bool
    requires few { length keys.now < 99 }
    ensures { result ≡ keys_in word.now (map rule_of keys.now) (table_view table.now) }
{
    broken_key(table, word, keys).is_none()
}

/// Whether a word is one of these.
pub fn is_word(words: &[&str], word: &str) -> bool
    ensures { result ≡ is_named (map (λ w. w.now) words.now) word.now }
{
    words.iter().any(|known| *known == word)
}

/// Whether the kind of a table is known, by the text at one of its keys, and it has the keys of its kind with their types
/// and no other.
pub fn has_form(table: &Table, by: &str, words: &[&str], keys: &[Key]) -> bool
    requires few { length keys.now < 99 }
    ensures { result ≡ form_in (record { by = by.now; words = map (λ w. w.now) words.now; keys = map rule_of keys.now }) (table_view table.now) }
{
    match text_at(table, by) {
        Some(word) => is_word(words, word) && has_keys(table, word, keys),
        None => false,
    }
}

/// A key that has to be there.
pub fn needed<'a>(name: &'a str, kind: Kind) -> Key<'a>
    ensures { rule_of result ≡ needed_key name.now kind }
{
    Key {
        name,
        kind,
        needed: true,
        with: &[],
    }
}

/// A key that may be left out.
pub fn spare<'a>(name: &'a str, kind: Kind) -> Key<'a>
    ensures { rule_of result ≡ spare_key name.now kind }
{
    Key {
        name,
        kind,
        needed: false,
        with: &[],
    }
}

/// A key that tables of these kinds have.
pub fn own<'a>(name: &'a str, kind: Kind, with: &'a [&'a str]) -> Key<'a>
    ensures { rule_of result ≡ own_key name.now kind (map (λ w. w.now) with.now) }
{
    Key {
        name,
        kind,
        needed: true,
        with,
    }
}

//! What is found in a table.

ghost use Rattle.std.specs.Prelude.{◌≡◌, option_map};
ghost use Rattle.toml.specs.Data.{get_member};
ghost use Rattle.toml.specs.View.{array_view, table_view, view};
ghost use Rattle.study_file.specs.Tables.{integer_at as whole_number_at, text_at as string_at, table_at as members_at, array_at as items_at};

use toml::value::Array;
use toml::{Table, Value};

/// The value at a key of a table, where there is one.
pub fn member<'a>(table: &'a Table, key: &str) -> Option<&'a Value>
    ensures { option_map (λ v. view v.now) result ≡ get_member key.now (table_view table.now) }
{
    table.get(key)
}

/// The whole number at a key, where there is one.
pub fn integer_at(table: &Table, key: &str) -> Option<i64>
    ensures { result ≡ whole_number_at key.now (table_view table.now) }
{
    match member(table, key) {
        Some(value) => value.as_integer(),
        None => None,
    }
}

/// The text at a key, where there is one.
pub fn text_at<'a>(table: &'a Table, key: &str) -> Option<&'a str>
    ensures { option_map (λ s. s.now) result ≡ string_at key.now (table_view table.now) }
{
    match member(table, key) {
        Some(value) => value.as_str(),
        None => None,
    }
}

/// The table at a key, where there is one.
pub fn table_at<'a>(table: &'a Table, key: &str) -> Option<&'a Table>
    ensures { option_map (λ t. table_view t.now) result ≡ members_at key.now (table_view table.now) }
{
    match member(table, key) {
        Some(value) => value.as_table(),
        None => None,
    }
}

/// The array at a key, where there is one.
pub fn array_at<'a>(table: &'a Table, key: &str) -> Option<&'a Array>
    ensures { option_map (λ a. array_view a.now) result ≡ items_at key.now (table_view table.now) }
{
    match member(table, key) {
        Some(value) => value.as_array(),
        None => None,
    }
}

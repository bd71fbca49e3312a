//! A rule that each table of an array is to keep.

ghost use Rattle.std.specs.Prelude.{◌≡◌, ◌≤◌, Bool, not, map, length, position, IfSome, ◌<◌};
ghost use Rattle.toml.specs.Data.{Members, as_table as table_in};
ghost use Rattle.toml.specs.View.{table_view, view};
ghost use Rattle.study_file.specs.Keys.{passes};
ghost use Rattle.study_file.specs.Values.{first_failing as first_failing_in};

use toml::{Table, Value};

/// A rule that each table of an array is to keep.
pub trait EntryRule {
    /// Which tables keep it.
    ghost kept_by: { Self → Members → Bool };

    /// Whether a table keeps it.
    fn is_kept(&self, entry: &Table) -> bool
        ensures { result ≡ kept_by self.now (table_view entry.now) };
}

// Whether a value is a table that keeps the rule.
fn keeps<R: EntryRule>(rule: &R, value: &Value) -> bool
    ensures { result ≡ passes (R.kept_by rule.now) (table_in (view value.now)) }
{
    match value.as_table() {
        Some(entry) => rule.is_kept(entry),
        None => false,
    }
}

// The place of the first value that doesn't keep the rule.
fn place_failing<R: EntryRule>(rule: &R, values: &[Value]) -> Option<usize>
    ensures { result ≡ position (λ v. not (passes (R.kept_by rule.now) (table_in (view v)))) values.now }
{
    values.iter().position(|value| !keeps(rule, value))
}

/// The place of the first of at most 1,024 values that isn't a table which keeps the rule.
pub fn first_failing<R: EntryRule>(rule: &R, values: &[Value]) -> Option<u32>
    requires few { length values.now ≤ 1024 }
    ensures { result ≡ first_failing_in (R.kept_by rule.now) (map view values.now) }
{
    match place_failing(rule, values) {
        Some(at) => Some(at as u32),
        None => None,
    }
}

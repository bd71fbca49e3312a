//! Reading the entries of a list in one pass.

ghost use Rattle.std.specs.Prelude.{◌≡◌, ◌≤◌, ◌+◌, ◌++◌, List, true, None, Some, map, length, IfOk, IfErr};
ghost use Rattle.std.specs.List.{flat_map};
ghost use Rattle.toml.specs.Data.{Data, as_table};
ghost use Rattle.toml.specs.View.{view};
ghost use Rattle.study_market.specs.declared.early_refusal.Refusal.{Refusal};
ghost use Rattle.study_market.specs.EntryTests.{Test, rise_above, failed_test, first_among, placed as placed_at};

use crate::early_refusal::{ReadError, Refusal, earlier};
use market_types::Memory;
use std::alloc::Global;
use study_file::Value;

/// Reads what each entry of a list says, where it keeps some rules.
pub(crate) trait EntryReading {
    type Item: Drop;

    /// The rules that an entry is to keep, in their order.
    ghost tests: { Self → List Test };

    /// What an entry that keeps them says.
    ghost items_of: { Self → Data → List Self.Item };

    /// Puts what an entry says behind the list, or tells the number of the first rule that it breaks.
    fn read(
        &self,
        alloc: Global,
        entry: &Value,
        list: &mut Vec<Self::Item>,
    ) -> Result<Option<u32>, Memory>
        ensures broken { IfOk result (λ rule. rule ≡ failed_test (tests self.now) (as_table (view entry.now))) }
        ensures said { IfOk result (λ rule. rule ≡ None → list.new.items ≡ list.old.items ++ items_of self.now (view entry.now)) };

    ghost rising: { (r : Self) → rise_above 0 (tests r) ≡ true };
}

// A rule that the entry at a place breaks.
fn placed(place: u32, rule: Option<u32>) -> Option<Refusal>
    ensures { result ≡ placed_at place rule }
{
    match rule {
        Some(rule) => Some(Refusal { rule, place }),
        None => None,
    }
}

/// Puts what at most 1,024 entries say behind the list, in order, or tells the first rule that one of them breaks, with the first
/// that does; the first of the entries stands at a place.
pub(crate) fn push_entries<R: EntryReading>(
    alloc: Global,
    reading: &R,
    place: u32,
    entries: &[Value],
    list: &mut Vec<R::Item>,
) -> Result<Option<Refusal>, Memory>
    requires few { place + length entries.now ≤ 1024 }
    ensures broken { IfOk result (λ found. found ≡ first_among (R.tests reading.now) place (map view entries.now)) }
    ensures said { IfOk result (λ found. found ≡ None → list.new.items ≡ list.old.items ++ flat_map (R.items_of reading.now) (map view entries.now)) }
{
    match entries.split_first() {
        Some((entry, rest)) => {
            let rule = reading.read(alloc, entry, list)?;
            let later = push_entries(alloc, reading, place + 1, rest, list)?;
            Ok(earlier(placed(place, rule), later))
        }
        None => Ok(None),
    }
}

/// What at most 1,024 entries say, in order.
///
/// # Errors
/// The first rule that one of them breaks, with the first that does; or want of memory.
pub(crate) fn read_entries<R: EntryReading>(
    alloc: Global,
    reading: &R,
    entries: &[Value],
) -> Result<Vec<R::Item>, ReadError>
    requires few { length entries.now ≤ 1024 }
    ensures kept { IfOk result (λ _. first_among (R.tests reading.now) 0 (map view entries.now) ≡ None) }
    ensures said { IfOk result (λ list. list.items ≡ flat_map (R.items_of reading.now) (map view entries.now)) }
    ensures refused { IfErr result (λ e. (r : Refusal) → e ≡ ReadError.Refused r → first_among (R.tests reading.now) 0 (map view entries.now) ≡ Some r) }
{
    let mut list = Vec::new(alloc);
    match push_entries(alloc, reading, 0, entries, &mut list)? {
        Some(refusal) => Err(ReadError::Refused(refusal)),
        None => Ok(list),
    }
}

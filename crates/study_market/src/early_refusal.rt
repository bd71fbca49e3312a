//! Which rule a study breaks first: the one that is told, and those of the market.

ghost use Rattle.std.specs.Prelude.{◌≡◌, None, Some, IfOk, IfErr};
ghost use Rattle.toml.specs.View.{table_view};
ghost use Rattle.study_market.specs.declared.early_refusal.Refusal.{Refusal};
ghost use Rattle.study_market.specs.EntryTests.{earlier as earlier_of, broken_at};
ghost use Rattle.study_market.specs.FirstBroken.{first_of_rules, market_rules};

use crate::market_table::{
    cells_broken, day_broken, exchange_broken, key_broken, limits_broken, parts_broken,
    squares_broken, top_keys_broken, version_broken,
};
use market_types::Memory;
use study_file::Table;
use thiserror::Error;

/// A broken rule and the least place at which it is broken.
#[derive(Clone, Copy, PartialEq, Eq, Debug)]
pub struct Refusal {
    /// The number of the rule, from 1.
    pub rule: u32,
    /// Which of the things that the rule speaks of breaks it: a key, an entry, a record, a number of a row.
    pub place: u32,
}

/// The earlier of two broken rules: that of the lower number, or the first of two of one number.
pub(crate) fn earlier(first: Option<Refusal>, later: Option<Refusal>) -> Option<Refusal>
    ensures { result ≡ earlier_of first later }
{
    match (first, later) {
        (Some(first), Some(later)) => {
            if later.rule < first.rule {
                Some(later)
            } else {
                Some(first)
            }
        }
        (Some(first), None) => Some(first),
        (None, later) => later,
    }
}

/// Why a part of a study isn't read.
#[derive(Clone, Copy, PartialEq, Eq, Debug, Error)]
pub enum ReadError {
    /// The first broken rule, with the least place at which it is broken.
    #[error("the study is refused")]
    Refused(Refusal),
    /// Want of memory.
    #[error("out of memory")]
    Memory,
}

impl From<Memory> for ReadError {
    ghost use Rattle.study_market.specs.declared.early_refusal.ReadError.TheVariants as error;

    ghost from_gives = { λ _ e. e ≡ error.Memory };

    fn from(_refused: Memory) -> ReadError {
        ReadError::Memory
    }
}

/// A rule, where it is broken at a place.
pub(crate) fn broken(rule: u32, place: Option<u32>) -> Option<Refusal>
    ensures { result ≡ broken_at rule place }
{
    match place {
        Some(place) => Some(Refusal { rule, place }),
        None => None,
    }
}

/// Goes on where nothing broken was found.
pub(crate) fn keep(found: Option<Refusal>) -> Result<(), ReadError>
    ensures kept { IfOk result (λ _. found ≡ None) }
    ensures refused { IfErr result (λ e. (r : Refusal) → e ≡ ReadError.Refused r → found ≡ Some r) }
{
    match found {
        Some(refusal) => Err(ReadError::Refused(refusal)),
        None => Ok(()),
    }
}

/// Goes on where a rule isn't broken.
pub(crate) fn unbroken(rule: u32, place: Option<u32>) -> Result<(), ReadError>
    ensures kept { IfOk result (λ _. place ≡ None) }
    ensures refused { IfErr result (λ e. (r : Refusal) → e ≡ ReadError.Refused r → broken_at rule place ≡ Some r) }
{
    match place {
        Some(place) => Err(ReadError::Refused(Refusal { rule, place })),
        None => Ok(()),
    }
}

/// Goes on where none of the rules of the top table, of the exchange and of the latencies is broken.
///
/// # Errors
/// The first broken one of these rules.
pub(crate) fn keep_market_rules(table: &Table) -> Result<(), ReadError>
    ensures kept { IfOk result (λ _. first_of_rules market_rules (table_view table.now) ≡ None) }
    ensures refused { IfErr result (λ e. (r : Refusal) → e ≡ ReadError.Refused r → first_of_rules market_rules (table_view table.now) ≡ Some r) }
{
    unbroken(1, top_keys_broken(table))?;
    unbroken(2, version_broken(table))?;
    unbroken(3, key_broken(table))?;
    unbroken(4, day_broken(table))?;
    unbroken(5, limits_broken(table))?;
    unbroken(6, parts_broken(table))?;
    unbroken(7, squares_broken(table))?;
    unbroken(8, cells_broken(table))?;
    unbroken(9, exchange_broken(table))
}

//! The dated changes.

ghost use Rattle.std.specs.Prelude.{◌≡◌, ◌≤◌, map, length, None, Some, is_some, IfOk, IfErr, IfSome};
ghost use Rattle.toml.specs.View.{table_view, view};
ghost use Rattle.study_market.specs.declared.early_refusal.Refusal.{Refusal};
ghost use Rattle.study_market.specs.StockRules.{symbol_in, stock_count_broken as rule_10};
ghost use Rattle.study_market.specs.ChangeRules.{has_new_rules};
ghost use Rattle.study_market.specs.EntryTests.{failed_test, change_tests};
ghost use Rattle.study_market.specs.FirstBroken.{first_of_rules};
ghost use Rattle.study_market.specs.FirstOfMarket.{change_rules};
ghost use Rattle.study_market.specs.Changes.{change_of, dated_of, changes_of};

use crate::bands::read_ticks;
use crate::changes::first_no_change;
use crate::dates::first_before;
use crate::early_refusal::{ReadError, Refusal, unbroken};
use crate::entries::{natural_at, stock_named};
use crate::market_parts::{close, start};
use crate::reading::{EntryReading, read_entries};
use crate::stock::few_stocks;
use crate::stock_parts::read_fees;
use market_rules::{Change, Dated, DatedList};
use market_types::Memory;
use std::alloc::Global;
use study_file::{Table, Value, is_kind, list_at, string_at};

// The change of a stock's rules that an entry says, where its bands or fees are in their ranges.
#[tactic(auto, using(crate::proofs::OneKind::tick_rules, crate::proofs::OneKind::fee_rules, crate::proofs::OneKind::no_rules))]
fn read_change(alloc: Global, table: &Table) -> Result<Option<Change>, Memory>
    ensures kept { IfOk result (λ read. is_some read ≡ has_new_rules (table_view table.now)) }
    ensures said { IfOk result (λ read. IfSome read (λ change. change ≡ change_of (table_view table.now))) }
{
    if is_kind(table, "tick") {
        match read_ticks(alloc, table)? {
            Some(ticks) => Ok(Some(Change::Tick(ticks))),
            None => Ok(None),
        }
    } else if is_kind(table, "fee") {
        match read_fees(table) {
            Some(fees) => Ok(Some(Change::Fee(fees))),
            None => Ok(None),
        }
    } else if is_kind(table, "halt") {
        Ok(Some(Change::Halt))
    } else {
        Ok(Some(Change::Resume))
    }
}

// The dated change of one of at most 16 stocks that an entry says, or the number of the first rule that it breaks.
fn read_dated(alloc: Global, stocks: &[Value], table: &Table) -> Result<Result<Dated, u32>, Memory>
    requires few { length stocks.now ≤ 16 }
    ensures kept { IfOk result (λ read. IfOk read (λ _. failed_test (change_tests (map symbol_in (map view stocks.now))) (Some (table_view table.now)) ≡ None)) }
    ensures said { IfOk result (λ read. IfOk read (λ d. d ≡ dated_of (map symbol_in (map view stocks.now)) (table_view table.now))) }
    ensures broken { IfOk result (λ read. IfErr read (λ rule. failed_test (change_tests (map symbol_in (map view stocks.now))) (Some (table_view table.now)) ≡ Some rule)) }
{
    let Some(stock) = stock_named(stocks, string_at(table, "stock")) else {
        return Ok(Err(23));
    };
    let Some(change) = read_change(alloc, table)? else {
        return Ok(Err(24));
    };
    Ok(Ok(Dated {
        time: natural_at(table, "time"),
        stock,
        change,
    }))
}

// Dated changes of one of these stocks.
#[derive(Drop)]
struct ChangeReading<'a> {
    stocks: &'a [Value],
    ghost few: { length stocks.now ≤ 16 },
}

impl<'a> EntryReading for ChangeReading<'a> {
    type Item = Dated;

    ghost use Rattle.std.specs.Prelude.{◌∷◌, [], map, refl};
    ghost use Rattle.toml.specs.View.{view};
    ghost use Rattle.study_market.specs.StockRules.{symbol_in};
    ghost use Rattle.study_market.specs.EntryTests.{change_tests};
    ghost use Rattle.study_market.specs.Entries.{entry_of};
    ghost use Rattle.study_market.specs.Changes.{dated_of};

    ghost tests = { λ reading. change_tests (map symbol_in (map view reading.stocks.now)) };

    ghost items_of = { λ reading d. dated_of (map symbol_in (map view reading.stocks.now)) (entry_of d) ∷ [] };

    fn read(
        &self,
        alloc: Global,
        entry: &Value,
        list: &mut Vec<Dated>,
    ) -> Result<Option<u32>, Memory> {
        let Some(table) = entry.as_table() else {
            return Ok(Some(23));
        };
        match read_dated(alloc, self.stocks, table)? {
            Ok(dated) => {
                list.push(dated)?;
                Ok(None)
            }
            Err(rule) => Ok(Some(rule)),
        }
    }

    ghost rising = { λ _. refl };
}

// The dated changes of a study of 1 to 16 stocks, in order.
#[tactic(auto, using(crate::proofs::EntryOrder::after_kept, crate::proofs::EntryOrder::at_broken))]
fn read_list(alloc: Global, table: &Table) -> Result<Vec<Dated>, ReadError>
    requires { rule_10 (table_view table.now) ≡ None }
    ensures kept { IfOk result (λ _. first_of_rules change_rules (table_view table.now) ≡ None) }
    ensures said { IfOk result (λ list. list.items ≡ changes_of (table_view table.now)) }
    ensures refused { IfErr result (λ e. (r : Refusal) → e ≡ ReadError.Refused r → first_of_rules change_rules (table_view table.now) ≡ Some r) }
{
    let entries = list_at(table, "change");
    unbroken(21, first_no_change(0, entries))?;
    unbroken(22, first_before(start(table), close(table), 0, entries))?;
    let reading = ChangeReading {
        stocks: few_stocks(table),
    };
    read_entries(alloc, &reading, entries)
}

/// The dated changes of a study of 1 to 16 stocks.
///
/// # Errors
/// The first broken rule of the changes; or want of memory.
pub fn read_changes(alloc: Global, table: &Table) -> Result<DatedList, ReadError>
    requires { rule_10 (table_view table.now) ≡ None }
    ensures kept { IfOk result (λ _. first_of_rules change_rules (table_view table.now) ≡ None) }
    ensures said { IfOk result (λ dated. dated ≡ changes_of (table_view table.now)) }
    ensures refused { IfErr result (λ e. (r : Refusal) → e ≡ ReadError.Refused r → first_of_rules change_rules (table_view table.now) ≡ Some r) }
{
    let list = read_list(alloc, table)?;
    match DatedList::new(list) {
        Ok(dated) => Ok(dated),
        // Dates that fall break the rule of the dates.
        Err(_) => Err(ReadError::Refused(Refusal { rule: 22, place: 0 })),
    }
}

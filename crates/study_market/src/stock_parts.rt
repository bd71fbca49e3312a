//! The stocks and the rules that they open with.

ghost use Rattle.std.specs.Prelude.{◌≡◌, Some, None, is_some, IfOk, IfErr, IfSome};
ghost use Rattle.toml.specs.View.{table_view};
ghost use Rattle.study_market.specs.declared.early_refusal.Refusal.{Refusal};
ghost use Rattle.study_market.specs.StockRules.{is_fee, has_fees};
ghost use Rattle.study_file.specs.Values.{number_at as number_of};
ghost use Rattle.study_market.specs.EntryTests.{failed_test, stock_tests};
ghost use Rattle.study_market.specs.FirstBroken.{first_of_rules, stock_rules};
ghost use Rattle.study_market.specs.Stocks.{fees_of, stock_of, stock_rules_of};

use crate::bands::read_ticks;
use crate::early_refusal::{ReadError, broken, earlier, unbroken};
use crate::market_table::span;
use crate::reading::{EntryReading, push_entries};
use crate::stock::{
    few_stocks, has_pace, has_prices, has_stock_keys, repeat_broken, series_broken,
    stock_count_broken,
};
use exchange_agent::StockRules;
use market_rules::FeeTable;
use market_types::{Memory, read_symbol};
use std::alloc::Global;
use study_file::{Table, Value, is_between, number_at, string_at};

// A fee, where it is in its range.
fn read_fee(table: &Table, key: &str) -> Option<i32>
    ensures kept { is_some result ≡ is_fee (number_of key.now (table_view table.now)) }
    ensures said { IfSome result (λ fee. fee ≡ number_of key.now (table_view table.now)) }
{
    let fee = number_at(table, key);
    if is_between(-1_000_000, 1_000_000, fee) {
        Some(fee as i32)
    } else {
        None
    }
}

/// The fees of a table, where they are in their ranges.
pub fn read_fees(table: &Table) -> Option<FeeTable>
    ensures kept { is_some result ≡ has_fees (table_view table.now) }
    ensures said { IfSome result (λ fees. fees ≡ fees_of (table_view table.now)) }
{
    let add = read_fee(table, "add")?;
    let take = read_fee(table, "take")?;
    Some(FeeTable { add, take })
}

// The symbol, ticks and fees of a stock, or the number of the first rule that it breaks, where the market is open for `span`
// nanoseconds.
fn read_stock(alloc: Global, span: u64, stock: &Table) -> Result<Result<StockRules, u32>, Memory>
    ensures kept { IfOk result (λ read. IfOk read (λ _. failed_test (stock_tests span) (Some (table_view stock.now)) ≡ None)) }
    ensures said { IfOk result (λ read. IfOk read (λ rules. rules ≡ stock_of (table_view stock.now))) }
    ensures broken { IfOk result (λ read. IfErr read (λ rule. failed_test (stock_tests span) (Some (table_view stock.now)) ≡ Some rule)) }
{
    if !has_stock_keys(stock) {
        return Ok(Err(11));
    }
    let Ok(symbol) = read_symbol(string_at(stock, "symbol").as_bytes()) else {
        return Ok(Err(12));
    };
    let Some(ticks) = read_ticks(alloc, stock)? else {
        return Ok(Err(14));
    };
    let Some(fees) = read_fees(stock) else {
        return Ok(Err(15));
    };
    if !has_prices(stock) {
        return Ok(Err(16));
    }
    if !has_pace(span, stock) {
        return Ok(Err(17));
    }
    Ok(Ok(StockRules {
        symbol,
        ticks,
        fees,
    }))
}

// Stocks of a market that is open for so many nanoseconds.
#[derive(Drop)]
struct StockReading {
    span: u64,
}

impl EntryReading for StockReading {
    type Item = StockRules;

    ghost use Rattle.std.specs.Prelude.{◌∷◌, [], refl};
    ghost use Rattle.study_market.specs.EntryTests.{stock_tests};
    ghost use Rattle.study_market.specs.Entries.{entry_of};
    ghost use Rattle.study_market.specs.Stocks.{stock_of};

    ghost tests = { λ reading. stock_tests reading.span };

    ghost items_of = { λ _ d. stock_of (entry_of d) ∷ [] };

    fn read(
        &self,
        alloc: Global,
        entry: &Value,
        list: &mut Vec<StockRules>,
    ) -> Result<Option<u32>, Memory> {
        let Some(stock) = entry.as_table() else {
            return Ok(Some(11));
        };
        match read_stock(alloc, self.span, stock)? {
            Ok(rules) => {
                list.push(rules)?;
                Ok(None)
            }
            Err(rule) => Ok(Some(rule)),
        }
    }

    ghost rising = { λ _. refl };
}

/// The symbol, ticks and fees of each stock of a study.
///
/// # Errors
/// The first broken rule of the stocks; or want of memory.
#[tactic(auto, using(crate::proofs::EntryOrder::after_kept, crate::proofs::EntryOrder::at_broken))]
pub fn read_stocks(alloc: Global, table: &Table) -> Result<Vec<StockRules>, ReadError>
    ensures kept { IfOk result (λ _. first_of_rules stock_rules (table_view table.now) ≡ None) }
    ensures said { IfOk result (λ stocks. stocks.items ≡ stock_rules_of (table_view table.now)) }
    ensures refused { IfErr result (λ e. (r : Refusal) → e ≡ ReadError.Refused r → first_of_rules stock_rules (table_view table.now) ≡ Some r) }
{
    unbroken(10, stock_count_broken(table))?;
    let reading = StockReading { span: span(table) };
    let mut stocks = Vec::new(alloc);
    let found = push_entries(alloc, &reading, 0, few_stocks(table), &mut stocks)?;
    let found = earlier(found, broken(13, repeat_broken(table)));
    match earlier(found, broken(18, series_broken(table))) {
        Some(refusal) => Err(ReadError::Refused(refusal)),
        None => Ok(stocks),
    }
}

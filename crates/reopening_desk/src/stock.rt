//! Stocks by their symbols.

ghost use Rattle.std.specs.Prelude.{◌≡◌, ◌<◌, ◌≤◌, IfSome, length, position};
ghost use Rattle.reopening_desk.specs.Stocks.{has_symbol, stock_of};

use exchange_agent::StockRules;
use market_types::{StockNo, Symbol, read_symbol};

/// A stock by its symbol.
#[derive(Clone, Copy)]
pub struct StockNamed {
    pub number: StockNo,
    pub symbol: Symbol,
}

fn has_symbol(rules: &StockRules, symbol: &Symbol) -> bool
    ensures { result ≡ has_symbol symbol.now rules.now }
{
    rules.symbol.0 == symbol.0
}

// The place of the first stock of a symbol.
fn place_of(stocks: &[StockRules], symbol: &Symbol) -> Option<usize>
    ensures first { result ≡ position (has_symbol symbol.now) stocks.now }
    ensures within { IfSome result (λ i. i < length stocks.now) }
{
    stocks.iter().position(|rules| has_symbol(rules, symbol))
}

/// The first stock of a symbol, which is written with no spaces behind it. `None` exactly where no stock has it.
pub fn stock_named(stocks: &[StockRules], text: &[u8]) -> Option<StockNamed>
    requires { length stocks.now ≤ 16 }
    ensures named { result ≡ stock_of stocks.now text.now }
    ensures exists { IfSome result (λ s. s.number < length stocks.now) }
    ensures few { IfSome result (λ s. s.number < 16) }
{
    let symbol = read_symbol(text).ok()?;
    let place = place_of(stocks, &symbol)?;
    Some(StockNamed {
        number: place as u16,
        symbol,
    })
}

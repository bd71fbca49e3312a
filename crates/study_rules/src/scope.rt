//! What a study's edits may speak of.

ghost use Rattle.std.specs.Prelude.{◌≡◌, ◌≤◌, ◌<◌, ◌==◌, map, length, position, slice_index_or, codes, [], None, IfSome};
ghost use Rattle.std.specs.List.{before_first};
ghost use Rattle.std.specs.Str.{bytes_eq};
ghost use Rattle.toml.specs.View.{table_view, view};
ghost use Rattle.study_file.specs.Values.{string_at as text_of};
ghost use Rattle.study_market.specs.MarketRules.{squares_broken as rule_7};
ghost use Rattle.study_market.specs.StockRules.{symbol_in, stock_count_broken as rule_10};
ghost use Rattle.study_market.specs.AgentRules.{count_of, counts_broken as rule_25};
ghost use Rattle.study_rules.specs.Entries.{entry_of};
ghost use Rattle.study_rules.specs.Fitting.{word_of};
ghost use Rattle.study_rules.specs.Scope.{kinds_of, kinds_in, written_symbol, scope_of, scope_of_opening};
ghost use Rattle.study_rules.specs.Speakable.{symbols_among, kinds_among};
ghost use Rattle.study_rules.specs.EditRules.{kind_of_trader as trader_kind};

use crate::study::Study;
use agent_shell::{Kind, TraderSetting};
use exchange_agent::StockRules;
use market_types::{AgentNo, StockNo};
use std::marker::Model;
use study_file::{Table, Value, list_at, number_or, string_at};
use study_market::{few_stocks, group_number, stock_symbol};

// Where the stocks stand.
#[derive(Clone, Copy)]
enum Stocks<'a> {
    // In the entries of a study.
    Entries(&'a [Value]),
    // In what a run starts from.
    Rules(&'a [StockRules]),
}

// Where the traders stand.
#[derive(Clone, Copy)]
enum Traders<'a> {
    // In the entries of a study.
    Agents(&'a [Value]),
    // In what a run starts from.
    Settings(&'a [TraderSetting]),
}

/// The stocks, the traders and how many latency groups there are: what an edit may speak of.
#[derive(Drop)]
pub struct Scope<'a> {
    stocks: Stocks<'a>,
    traders: Traders<'a>,
    groups: u32,
}

impl<'a> Model for Scope<'a> {
    ghost use Rattle.study_rules.specs.Scope.{Scope as Speakable, IsSmall};
    ghost use Rattle.study_rules.specs.Speakable.{symbols_among, kinds_among};

    ghost Value = { Speakable };

    ghost view = { λ s. record { stocks = symbols_among s.stocks; kinds = kinds_among s.traders; groups = s.groups } };

    ghost invariant = { λ s. IsSmall (record { stocks = symbols_among s.stocks; kinds = kinds_among s.traders; groups = s.groups }) };
}

/// What a study's edits may speak of.
pub fn study_scope(table: &Table) -> Scope<'_>
    requires square { rule_7 (table_view table.now) ≡ None }
    requires stocks { rule_10 (table_view table.now) ≡ None }
    requires traders { rule_25 (table_view table.now) ≡ None }
    ensures { result ≡ scope_of (table_view table.now) }
{
    Scope {
        stocks: Stocks::Entries(few_stocks(table)),
        traders: Traders::Agents(list_at(table, "agent")),
        groups: group_number(table),
    }
}

/// What edits may speak of beside what the runs of an accepted study start from.
pub fn opening_scope(study: &Study) -> Scope<'_>
    ensures { result ≡ scope_of_opening study.now.course.value.opening }
{
    let opening = study.course.opening();
    Scope {
        stocks: Stocks::Rules(opening.stocks.as_slice()),
        traders: Traders::Settings(opening.traders.as_slice()),
        groups: study.groups,
    }
}

// How many traders an entry makes.
fn count_in(entry: &Value) -> u64
    ensures { result ≡ count_of (entry_of (view entry.now)) }
{
    match entry.as_table() {
        Some(agent) => number_or(agent, "count", 1).unsigned_abs(),
        None => 1,
    }
}

// The kind of an entry's traders.
fn kind_in(entry: &Value) -> &str
    ensures { result.now ≡ text_of (codes "kind") (entry_of (view entry.now)) }
{
    match entry.as_table() {
        Some(agent) => string_at(agent, "kind"),
        None => "",
    }
}

// How many traders entries make.
fn count_all(entries: &[Value]) -> u64
    requires { length (kinds_of (map view entries.now)) ≤ 511 }
    ensures { result ≡ length (kinds_of (map view entries.now)) }
{
    match entries.split_first() {
        Some((entry, rest)) => count_in(entry) + count_all(rest),
        None => 0,
    }
}

// The kind of the trader of a number, from 0.
fn kind_at(entries: &[Value], number: u64) -> &str
    ensures { result.now ≡ slice_index_or (kinds_of (map view entries.now)) number [] }
{
    match entries.split_first() {
        Some((entry, rest)) => {
            let count = count_in(entry);
            if number < count {
                kind_in(entry)
            } else {
                kind_at(rest, number - count)
            }
        }
        None => "",
    }
}

// The word of a trader's kind.
fn kind_word(kind: Kind) -> &'static str
    ensures { result.now ≡ word_of kind }
{
    match kind {
        Kind::Watcher => "watcher",
        Kind::Noise { .. } => "noise",
        Kind::Value { .. } => "value",
        Kind::Momentum { .. } => "momentum",
        Kind::Maker { .. } => "maker",
    }
}

// The kind of the trader of a number, from 0, by the traders' parameters.
fn word_at(settings: &[TraderSetting], number: u64) -> &'static str
    ensures { result.now ≡ slice_index_or (map word_of (kinds_in settings.now)) number [] }
{
    match settings.get(number as usize) {
        Some(setting) => kind_word(setting.kind),
        None => "",
    }
}

// The place of the stock of a symbol, by the entries of the stocks.
fn stock_place(stocks: &[Value], symbol: &str) -> Option<usize>
    ensures place { result ≡ position (λ name. bytes_eq name symbol.now) (map symbol_in (map view stocks.now)) }
    ensures within { IfSome result (λ at. at < length (map symbol_in (map view stocks.now))) }
{
    stocks
        .iter()
        .position(|stock| stock_symbol(stock) == symbol)
}

// The place of the first space.
fn first_space(bytes: &[u8]) -> Option<usize>
    ensures { result ≡ position (λ c. c == 32) bytes.now }
{
    bytes.iter().position(|byte| *byte == b' ')
}

// The bytes before the first space.
fn before_spaces(bytes: &[u8]) -> &[u8]
    ensures { result.now ≡ before_first (λ c. c == 32) bytes.now }
{
    match first_space(bytes) {
        Some(end) => &bytes[..end],
        None => bytes,
    }
}

// Whether a stock has a symbol, without the spaces on its right.
fn is_called(stock: &StockRules, symbol: &str) -> bool
    ensures { result ≡ bytes_eq (written_symbol stock.now) symbol.now }
{
    before_spaces(stock.symbol.0.as_slice()) == symbol.as_bytes()
}

// The place of the stock of a symbol, by the rules that stocks open with.
fn rules_place(stocks: &[StockRules], symbol: &str) -> Option<usize>
    ensures place { result ≡ position (λ name. bytes_eq name symbol.now) (map written_symbol stocks.now) }
    ensures within { IfSome result (λ at. at < length (map written_symbol stocks.now)) }
{
    stocks.iter().position(|stock| is_called(stock, symbol))
}

// The place of the stock of a symbol, wherever the stocks stand.
fn place_among(stocks: Stocks<'_>, symbol: &str) -> Option<usize>
    ensures place { result ≡ position (λ name. bytes_eq name symbol.now) (symbols_among stocks.entry) }
    ensures within { IfSome result (λ at. at < length (symbols_among stocks.entry)) }
{
    match stocks {
        Stocks::Entries(entries) => stock_place(entries, symbol),
        Stocks::Rules(rules) => rules_place(rules, symbol),
    }
}

// How many traders there are, wherever they stand.
fn count_among(traders: Traders<'_>) -> u64
    requires { length (kinds_among traders) ≤ 511 }
    ensures { result ≡ length (kinds_among traders.entry) }
{
    match traders {
        Traders::Agents(entries) => count_all(entries),
        Traders::Settings(settings) => settings.len() as u64,
    }
}

// The kind of the trader of a number, from 0, wherever the traders stand.
fn kind_among<'a>(traders: Traders<'a>, number: u64) -> &'a str
    ensures { result.now ≡ slice_index_or (kinds_among traders.entry) number [] }
{
    match traders {
        Traders::Agents(entries) => kind_at(entries, number),
        Traders::Settings(settings) => word_at(settings, number),
    }
}

impl<'a> Scope<'a> {
    /// The number of the stock of a symbol.
    pub fn stock(&self, symbol: &str) -> Option<StockNo>
        ensures { result ≡ position (λ name. bytes_eq name symbol.now) self.now.stocks }
    {
        match place_among(self.stocks, symbol) {
            Some(at) => Some(at as StockNo),
            None => None,
        }
    }

    /// How many traders there are.
    pub fn trader_count(&self) -> u64
        ensures count { result ≡ length self.now.kinds }
        ensures few { result ≤ 511 }
    {
        count_among(self.traders)
    }

    /// The kind of the trader of a number, from 1 on.
    pub fn kind_of_trader(&self, trader: AgentNo) -> &str
        ensures { result.now ≡ trader_kind self.now trader }
    {
        kind_among(self.traders, u64::from(trader.saturating_sub(1)))
    }

    /// How many latency groups there are.
    pub fn groups(&self) -> u32
        ensures count { result ≡ self.now.groups }
        ensures few { result ≤ 32 }
    {
        self.groups
    }
}

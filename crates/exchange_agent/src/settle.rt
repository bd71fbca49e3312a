//! What a match settles.

ghost use Rattle.std.specs.Prelude.{◌≡◌, ◌<◌, ◌≤◌, ◌+◌, ◌*◌, ◌^◌, ◌-◌, ◌++◌, ◌∷◌, [], ℕ, ℤ, pos, neg_ℤ, ◌+ℤ◌, length, All, unsigned_abs};
ghost use Rattle.exchange_agent.specs.Settle.{added, removed, both_fees_of, cash_after, execution_of, fed, gained, match_told, money_gained, positions_after, shares_gained, settled, tally_after, worth_of};
ghost use Rattle.exchange_agent.specs.Sound.{IsFar, IsSmall, IsWithin};
ghost use Rattle.market_rules.specs.Fees.{each_of, fee_of};
ghost use Rattle.exchange_agent.specs.View.{stock_of, way_at};

use crate::handled::Handled;
use crate::listing::Listing;
use market_rules::FeeTable;
use market_types::{AgentNo, Body, Feed, Money, Reply, Side, Symbol, Time, Token, What};
use price_time_book::Fill;

/// The order that came: when it is handled, whose it is, its stock's locate number, its side and its token.
#[derive(Clone, Copy)]
pub struct Taking {
    pub time: Time,
    pub agent: AgentNo,
    pub locate: u16,
    pub side: Side,
    pub token: Token,
}

// A trader's cash gains so much.
fn gain_money(accounts: &mut Vec<Money>, agent: AgentNo, n: Money)
    requires trader { 1 ≤ agent }
    requires exists { agent ≤ length accounts.old.items }
    requires small { All (IsWithin (2 ^ 120)) accounts.old.items }
    requires gain { IsWithin (2 ^ 80) n }
    ensures { accounts.new.items ≡ gained agent n accounts.old.items }
{
    let at = usize::from(agent) - 1;
    accounts[at] = sum_of(accounts[at], n);
}

// A sum of money.
fn sum_of(a: Money, b: Money) -> Money
    requires a { IsWithin (2 ^ 120) a }
    requires b { IsWithin (2 ^ 80) b }
    ensures { result ≡ a +ℤ b }
{
    a + b
}

// A trader's position gains so many shares.
fn gain_shares(accounts: &mut Vec<i64>, agent: AgentNo, n: i64)
    requires trader { 1 ≤ agent }
    requires exists { agent ≤ length accounts.old.items }
    requires small { All (IsWithin (2 ^ 60)) accounts.old.items }
    requires gain { IsWithin (2 ^ 40) n }
    ensures { accounts.new.items ≡ gained agent n accounts.old.items }
{
    accounts[usize::from(agent) - 1] += n;
}

// What a side gains in shares.
fn shares_for(side: Side, shares: u32) -> i64
    ensures value { result ≡ shares_gained side shares }
    ensures size { IsWithin shares result }
{
    match side {
        Side::Buy => i64::from(shares),
        Side::Sell => -i64::from(shares),
    }
}

// What a side gains in money.
fn money_for(side: Side, amount: u64) -> Money
    ensures value { result ≡ money_gained side amount }
    ensures size { IsWithin amount result }
{
    match side {
        Side::Buy => -i128::from(amount),
        Side::Sell => i128::from(amount),
    }
}

// What a match costs in millionths of a dollar.
fn worth(fill: &Fill) -> u64
    requires { fill.now.shares < 1000000 }
    ensures value { result ≡ worth_of fill.now }
    ensures bound { result ≤ 2 ^ 39 * fill.now.shares }
{
    100 * u64::from(fill.resting.price) * u64::from(fill.shares)
}

// What a side gains in money by a match, less its fee.
fn net_for(side: Side, fill: &Fill, fee: i64) -> Money
    requires few { fill.now.shares < 1000000 }
    requires fee { IsWithin (2 ^ 31 * fill.now.shares) fee }
    ensures value { result ≡ money_gained side (worth_of fill.now) +ℤ neg_ℤ fee }
    ensures size { IsWithin (2 ^ 40 * fill.now.shares) result }
{
    money_for(side, worth(fill)) - i128::from(fee)
}

// The fee for one share.
fn each(fees: &FeeTable, flag: u8) -> i32
    ensures value { result ≡ each_of fees.now flag }
    ensures size { unsigned_abs result ≤ 2147483648 }
{
    if flag == b'A' { fees.add } else { fees.take }
}

// The fee of one side of a match.
fn fee(fees: &FeeTable, flag: u8, shares: u32) -> i64
    requires { shares < 1000000 }
    ensures value { result ≡ fee_of fees.now flag shares }
    ensures size { IsWithin (2 ^ 31 * shares) result }
{
    let _each = each(fees, flag);
    fees.fee(flag, shares)
}

// The traders' cash after a match.
fn settle_money(cash: &mut Vec<Money>, taking: &Taking, fill: &Fill, fees: &FeeTable)
    requires few { fill.now.shares < 1000000 }
    requires trader { 1 ≤ taking.now.agent }
    requires exists { taking.now.agent ≤ length cash.old.items }
    requires resting_trader { 1 ≤ fill.now.resting.agent }
    requires resting_exists { fill.now.resting.agent ≤ length cash.old.items }
    requires small { All (IsWithin (2 ^ 100)) cash.old.items }
    ensures value { cash.new.items ≡ cash_after fees.now taking.now.agent taking.now.side fill.now cash.old.items }
    ensures moves { (b : ℕ) → All (IsWithin b) cash.old.items → All (IsWithin (b + 2 ^ 41 * fill.now.shares)) cash.new.items }
{
    let added = fee(fees, b'A', fill.shares);
    let gain = net_for(taking.side.opposite(), fill, added);
    gain_money(cash, fill.resting.agent, gain);
    let removed = fee(fees, b'R', fill.shares);
    let gain = net_for(taking.side, fill, removed);
    gain_money(cash, taking.agent, gain);
}

// The traders' positions after a match.
fn settle_shares(positions: &mut Vec<i64>, taking: &Taking, fill: &Fill)
    requires few { fill.now.shares < 1000000 }
    requires trader { 1 ≤ taking.now.agent }
    requires exists { taking.now.agent ≤ length positions.old.items }
    requires resting_trader { 1 ≤ fill.now.resting.agent }
    requires resting_exists { fill.now.resting.agent ≤ length positions.old.items }
    requires small { All (IsWithin (2 ^ 50)) positions.old.items }
    ensures value { positions.new.items ≡ positions_after taking.now.agent taking.now.side fill.now positions.old.items }
    ensures moves { (b : ℕ) → All (IsWithin b) positions.old.items → All (IsWithin (b + 2 * fill.now.shares)) positions.new.items }
{
    let gain = shares_for(taking.side.opposite(), fill.shares);
    gain_shares(positions, fill.resting.agent, gain);
    let gain = shares_for(taking.side, fill.shares);
    gain_shares(positions, taking.agent, gain);
}

// The fees of both sides of a match.
fn both_fees(fees: &FeeTable, fill: &Fill) -> i64
    requires { fill.now.shares < 1000000 }
    ensures value { result ≡ both_fees_of fees.now fill.now }
    ensures size { IsWithin (2 ^ 32 * fill.now.shares) result }
{
    let added = fee(fees, b'A', fill.shares);
    let removed = fee(fees, b'R', fill.shares);
    added + removed
}

// A sum of money with a fee.
fn raised(sum: Money, fee: i64) -> Money
    requires { IsWithin (2 ^ 100) sum }
    ensures { result ≡ sum +ℤ fee }
{
    sum + i128::from(fee)
}

// A sum of fees.
fn summed(sum: i64, fee: i64) -> i64
    requires sum { IsWithin (2 ^ 60) sum }
    requires fee { IsWithin (2 ^ 60) fee }
    ensures { result ≡ sum +ℤ fee }
{
    sum + fee
}

// The reply Executed of a match.
fn execution(time: Time, token: Token, flag: u8, number: u64, fill: &Fill) -> Body
    ensures { result ≡ execution_of time token flag number fill.now }
{
    Body::Answer(Reply::Executed {
        time,
        token,
        shares: fill.shares,
        price: fill.resting.price,
        flag,
        number,
    })
}

// What the feed tells of a match: of a hidden order neither its reference nor its side.
fn told(symbol: Symbol, number: u64, fill: &Fill) -> What
    ensures { result ≡ match_told symbol number fill.now }
{
    if fill.resting.shown {
        What::Executed {
            reference: fill.resting.reference,
            shares: fill.shares,
            number,
        }
    } else {
        What::Trade {
            reference: 0,
            side: Side::Buy,
            shares: fill.shares,
            stock: symbol,
            price: fill.resting.price,
            number,
        }
    }
}

// What is told of a match: to the resting order's agent, to the incoming one's, and to the feed.
fn tell(taking: &Taking, symbol: Symbol, fill: &Fill, number: u64, out: &mut Handled)
    requires room { 2 ≤ out.old.replies.spare }
    requires feed_room { 1 ≤ out.old.feed.spare }
    ensures replies { out.new.replies ≡ record { list = out.old.replies.list ++ record { to = fill.now.resting.agent; body = execution_of taking.now.time fill.now.resting.token added number fill.now } ∷ record { to = taking.now.agent; body = execution_of taking.now.time taking.now.token removed number fill.now } ∷ []; spare = out.old.replies.spare - 2 } }
    ensures feed { out.new.feed ≡ record { list = out.old.feed.list ++ fed taking.now.locate taking.now.time symbol number fill.now ∷ []; spare = out.old.feed.spare - 1 } }
    ensures fee { out.new.fee ≡ out.old.fee }
{
    out.reply(
        fill.resting.agent,
        execution(taking.time, fill.resting.token, b'A', number, fill),
    );
    out.reply(
        taking.agent,
        execution(taking.time, taking.token, b'R', number, fill),
    );
    out.tell(Feed {
        locate: taking.locate,
        tracking: 0,
        time: taking.time,
        what: told(symbol, number, fill),
    });
}

impl Listing {
    // One match is settled in the stock's tally.
    fn count(&mut self, taking: &Taking, fill: &Fill)
        requires few { fill.now.shares < 1000000 }
        requires trader { 1 ≤ taking.now.agent }
        requires exists { taking.now.agent ≤ length self.old.positions.items }
        requires resting_trader { 1 ≤ fill.now.resting.agent }
        requires resting_exists { fill.now.resting.agent ≤ length self.old.positions.items }
        requires positions { All (IsWithin (2 ^ 50)) self.old.positions.items }
        requires matched { self.old.matched ≤ 2 ^ 50 }
        requires taken { IsWithin (2 ^ 100) self.old.taken }
        ensures tally { (stock_of self.new).tally ≡ tally_after self.old.fees taking.now.agent taking.now.side fill.now (stock_of self.old).tally }
        ensures rest { stock_of self.new ≡ record (stock_of self.old) { tally = (stock_of self.new).tally } }
        ensures book { self.new.book ≡ self.old.book }
        ensures positions { (b : ℕ) → All (IsWithin b) self.old.positions.items → All (IsWithin (b + 2 * fill.now.shares)) self.new.positions.items }
        ensures taken { (b : ℕ) → IsWithin b self.old.taken → IsWithin (b + 2 ^ 32 * fill.now.shares) self.new.taken }
    {
        settle_shares(&mut self.positions, taking, fill);
        self.last = fill.resting.price;
        self.matched += u64::from(fill.shares);
        self.taken = raised(self.taken, both_fees(&self.fees, fill));
    }

    /// One match is told and settled, once the book gave its shares.
    pub fn settle(
        &mut self,
        taking: &Taking,
        fill: &Fill,
        cash: &mut Vec<Money>,
        matches: &mut u64,
        out: &mut Handled,
    )
        requires few { fill.now.shares < 1000000 }
        requires trader { 1 ≤ taking.now.agent }
        requires exists { taking.now.agent ≤ length cash.old.items }
        requires resting_trader { 1 ≤ fill.now.resting.agent }
        requires resting_exists { fill.now.resting.agent ≤ length cash.old.items }
        requires traders { length self.old.positions.items ≡ length cash.old.items }
        requires far { IsFar (way_at self.old cash.old.items matches.old out.old) }
        requires room { 2 ≤ out.old.replies.spare }
        requires feed_room { 1 ≤ out.old.feed.spare }
        ensures cash { cash.new.items ≡ cash_after self.old.fees taking.now.agent taking.now.side fill.now cash.old.items }
        ensures tally { (stock_of self.new).tally ≡ tally_after self.old.fees taking.now.agent taking.now.side fill.now (stock_of self.old).tally }
        ensures rest { stock_of self.new ≡ record (stock_of self.old) { tally = (stock_of self.new).tally } }
        ensures book { self.new.book ≡ self.old.book }
        ensures matches { matches.new ≡ matches.old + 1 }
        ensures replies { out.new.replies ≡ record { list = out.old.replies.list ++ record { to = fill.now.resting.agent; body = execution_of taking.now.time fill.now.resting.token added (matches.old + 1) fill.now } ∷ record { to = taking.now.agent; body = execution_of taking.now.time taking.now.token removed (matches.old + 1) fill.now } ∷ []; spare = out.old.replies.spare - 2 } }
        ensures feed { out.new.feed ≡ record { list = out.old.feed.list ++ fed taking.now.locate taking.now.time self.old.symbol (matches.old + 1) fill.now ∷ []; spare = out.old.feed.spare - 1 } }
        ensures fee { out.new.fee ≡ out.old.fee +ℤ both_fees_of self.old.fees fill.now }
        ensures small { (orders shares : ℕ) → 1 ≤ fill.now.shares → IsSmall orders shares (way_at self.old cash.old.items matches.old out.old) → IsSmall orders (shares + fill.now.shares) (way_at self.new cash.new.items matches.new out.new) }
    {
        settle_money(cash, taking, fill, &self.fees);
        self.count(taking, fill);
        *matches += 1;
        tell(taking, self.symbol, fill, *matches, out);
        let fees = both_fees(&self.fees, fill);
        out.fee = summed(out.fee, fees);
    }
}

ghost use Rattle.std.specs.Prelude.{IfOk};
ghost use Rattle.reopening_desk.specs.Filed.{AreFiled};

use crate::facts::{equal, holds};
use crate::reopen_cross_tests::{FIVE, TWO, list_of};
use market_types::{HIGHEST_PRICE, Side};
use reopen_cross::Interest;
use reopening_desk::{OrdersError, join, read_orders};
use std::alloc::{AllocError, Global};
use std::process::Abort;

const TRADERS: usize = 3;

// A file whose orders have these lines.
fn file_of(alloc: Global, lines: &str) -> Result<String, AllocError> {
    let mut text = String::new(alloc);
    text.push_str("agent,side,shares,price\n")?;
    text.push_str(lines)?;
    Ok(text)
}

// A file of so many equal orders.
fn long_file(alloc: Global, count: u32) -> Result<String, AllocError> {
    let mut text = file_of(alloc, "")?;
    for _ in 0..count {
        text.push_str("3,S,1,1\n")?;
    }
    Ok(text)
}

// What a file says in a study of three traders.
fn told(alloc: Global, text: &str) -> Result<Vec<Interest>, OrdersError>
    ensures { IfOk result (λ orders. AreFiled orders.items) }
{
    read_orders(alloc, TRADERS, text.as_bytes())
}

// Why a file is refused.
fn refusal(alloc: Global, text: &str) -> Option<OrdersError> {
    match told(alloc, text) {
        Ok(orders) => {
            drop(orders);
            None
        }
        Err(error) => Some(error),
    }
}

// Why a file whose orders have these lines is refused.
fn lines_refusal(rt: &impl Abort, alloc: Global, lines: &str) -> Option<OrdersError> {
    let text = file_of(alloc, lines).expect(rt, "memory");
    let refusal = refusal(alloc, text.as_str());
    drop(text);
    refusal
}

// Whether a file whose orders have these lines says these orders.
fn says(rt: &impl Abort, alloc: Global, lines: &str, want: &[Interest]) -> bool {
    let text = file_of(alloc, lines).expect(rt, "memory");
    let orders = told(alloc, text.as_str()).expect(rt, "orders");
    drop(text);
    let are_said = orders.as_slice() == want;
    drop(orders);
    are_said
}

const NO_HEADERS: [&str; 11] = [
    "",
    "\n\r\n\n",
    "1,B,100,100200\n",
    "agent,side,price,shares\n1,B,100200,100\n",
    "Agent,side,shares,price\n",
    "agent,side,shares\n",
    "agent,side,shares,price,\n",
    "agent, side,shares,price\n",
    "agent;side;shares;price\n",
    "\"agent,side,shares,price\"\n",
    "agent,side,shares,\"price\nprice\"\n",
];

#[test]
fn files_without_the_header_are_refused(rt: HostRuntime) {
    for text in NO_HEADERS.iter() {
        let refusal = refusal(rt.alloc(), text);
        equal(&rt, refusal, Some(OrdersError::Refused(0)));
    }
}

const HEADERS: [&str; 4] = [
    "agent,side,shares,price",
    "agent,side,shares,price\r\n\r\n",
    "\n\nagent,\"side\",shares,\"price\"\n",
    "\u{feff}agent,side,shares,price\n",
];

// How many orders a file says.
fn count(rt: &impl Abort, alloc: Global, text: &str) -> usize {
    let orders = told(alloc, text).expect(rt, "orders");
    let count = orders.len();
    drop(orders);
    count
}

#[test]
fn headers_alone_say_no_orders(rt: HostRuntime) {
    for text in HEADERS.iter() {
        equal(&rt, count(&rt, rt.alloc(), text), 0);
    }
}

// Lines, each with the record for which they are refused.
const FAULTY: [(&str, u32); 26] = [
    ("1,B,100\n", 1),
    ("1,B,100,100200,\n", 1),
    ("1\n", 1),
    ("0,B,100,100200\n", 1),
    ("4,B,100,100200\n", 1),
    ("0001,B,100,100200\n", 1),
    (",B,100,100200\n", 1),
    ("+1,B,100,100200\n", 1),
    ("1,b,100,100200\n", 1),
    ("1,BS,100,100200\n", 1),
    ("1,,100,100200\n", 1),
    ("1,B,0,100200\n", 1),
    ("1,B,1000000,100200\n", 1),
    ("1,B,0000100,100200\n", 1),
    ("1,B,1e2,100200\n", 1),
    ("1,B,-1,100200\n", 1),
    ("1,B,100,0\n", 1),
    ("1,B,100,1999999901\n", 1),
    ("1,B,100,99999999999\n", 1),
    ("1,B,100,01999999900\n", 1),
    ("1,B,100,10.02\n", 1),
    ("1,B,100,100200 \n", 1),
    ("1,B,1\"00\",100200\n", 1),
    ("1,B,100,\"100200\n2,S,100,100200\n", 1),
    ("1,B,100,100200\n\n\n2,S,0,100200\n3,X,1,1\n", 2),
    ("1,B,100,100200\n2,S,7,100200\nagent,side,shares,price\n", 3),
];

#[test]
fn faulty_orders_are_refused(rt: HostRuntime) {
    for (lines, record) in FAULTY.iter() {
        let refusal = lines_refusal(&rt, rt.alloc(), lines);
        equal(&rt, refusal, Some(OrdersError::Refused(*record)));
    }
}

// A displayed order to buy.
const BUY: Interest = Interest {
    reference: 1,
    side: Side::Buy,
    price: 100_200,
    left: 100,
    shown: true,
};

// The next one, to sell.
const SELL: Interest = Interest {
    reference: 2,
    side: Side::Sell,
    price: HIGHEST_PRICE,
    left: 999_999,
    shown: true,
};

// The last of a long file.
const LAST: Interest = Interest {
    reference: 16_384,
    side: Side::Sell,
    price: 1,
    left: 1,
    shown: true,
};

// Lines, each with the orders that they say.
const READ: [(&str, &[Interest]); 7] = [
    ("", &[]),
    ("\r\n\n", &[]),
    ("1,B,100,100200", &[BUY]),
    ("01,B,000100,0000100200\n", &[BUY]),
    (
        "001,B,100,100200\r\n003,S,999999,1999999900\r\n",
        &[BUY, SELL],
    ),
    ("1,B,100,100200\r003,S,999999,1999999900\r", &[BUY, SELL]),
    (
        "\"2\",\"B\",\"100\",\"100200\"\n\n3,S,999999,1999999900\n",
        &[BUY, SELL],
    ),
];

#[test]
fn orders_are_read(rt: HostRuntime) {
    for (lines, want) in READ.iter() {
        holds(&rt, says(&rt, rt.alloc(), lines, want));
    }
}

// A file of 16,384 orders is read to its end.
fn assert_all_read(rt: &impl Abort, alloc: Global) {
    let text = long_file(alloc, 16_384).expect(rt, "memory");
    let orders = told(alloc, text.as_str()).expect(rt, "orders");
    drop(text);
    equal(rt, orders.len(), 16_384);
    equal(rt, orders.last().copied(), Some(LAST));
    drop(orders);
}

#[test]
fn a_file_has_at_most_16384_orders(rt: HostRuntime) {
    assert_all_read(&rt, rt.alloc());
    let text = long_file(rt.alloc(), 16_385).expect(&rt, "memory");
    let refusal = refusal(rt.alloc(), text.as_str());
    drop(text);
    equal(&rt, refusal, Some(OrdersError::Refused(16_385)));
}

// The two orders to buy and those of a file.
fn joined(rt: &impl Abort, alloc: Global, lines: &str) -> Vec<Interest> {
    let text = file_of(alloc, lines).expect(rt, "memory");
    let orders = told(alloc, text.as_str()).expect(rt, "orders");
    drop(text);
    let mut list = list_of(alloc, &TWO).expect(rt, "memory");
    assert!(rt; list.len() <= 16_384);
    let last = list.len() as u64;
    join(&mut list, last, orders.as_slice()).expect(rt, "memory");
    drop(orders);
    list
}

#[test]
fn a_file_joins_a_book(rt: HostRuntime) {
    let alloc = rt.alloc();
    let list = joined(
        &rt,
        alloc,
        "2,S,150,100000\n2,S,100,100100\n2,S,100,100200\n",
    );
    let five = list_of(alloc, &FIVE).expect(&rt, "memory");
    holds(&rt, list.as_slice() == five.as_slice());
    drop(five);
    drop(list);
}

use crate::facts::holds;
use market_types::{Symbol, Token, TypeError, read_price, read_shares, read_symbol, read_token};
use std::test::*;

// Numbers, each with the price that it is read as.
const PRICES: [(u64, Result<u32, TypeError>); 5] = [
    (0, Err(TypeError::BadPrice)),
    (1, Ok(1)),
    (1_999_999_900, Ok(1_999_999_900)),
    (1_999_999_901, Err(TypeError::BadPrice)),
    (1 << 32 | 1, Err(TypeError::BadPrice)),
];

// Numbers, each with the shares that it is read as.
const SHARES: [(u64, Result<u32, TypeError>); 3] = [
    (0, Err(TypeError::BadShares)),
    (999_999, Ok(999_999)),
    (1_000_000, Err(TypeError::BadShares)),
];

#[test]
fn numbers(rt: HostRuntime) {
    for (n, want) in PRICES.iter() {
        holds(&rt, read_price(*n) == *want);
    }
    for (n, want) in SHARES.iter() {
        holds(&rt, read_shares(*n) == *want);
    }
}

#[test]
fn names(rt: HostRuntime) {
    holds(&rt, read_symbol(b"") == Err(TypeError::BadSymbol));
    holds(&rt, read_symbol(b"ABM") == Ok(Symbol(*b"ABM     ")));
    holds(&rt, read_symbol(b"ABCDEFGH") == Ok(Symbol(*b"ABCDEFGH")));
    holds(&rt, read_symbol(b"A M") == Err(TypeError::BadSymbol));
    holds(&rt, read_symbol(b"ABCDEFGHI") == Err(TypeError::BadSymbol));
    holds(
        &rt,
        read_token(b"T0001000000001") == Ok(Token(*b"T0001000000001")),
    );
    holds(
        &rt,
        read_token(b"T00010000000011") == Err(TypeError::BadToken),
    );
    holds(&rt, read_token(b"t1") == Ok(Token(*b"t1            ")));
    holds(&rt, read_token(b"T-1") == Err(TypeError::BadToken));
}

ghost use Rattle.std.specs.Prelude.{◌≡◌, ◌<◌, ◌^◌};

use crate::facts::holds;
use itch_codec::{decode_feed, encode_feed, frame, frame_of_two, unframe};
use market_types::{CodecError, Feed, Side, Symbol, What};
use std::test::*;

const STOCK: Symbol = Symbol(*b"ABM     ");

const SYSTEM_BYTES: [u8; 12] = *b"S\x00\x00\x00\x00\x00\x00\x00\x00\x03\xe8O";

const DIRECTORY_BYTES: [u8; 39] =
    *b"R\x00\x01\x00\x00\x00\x00\x00\x00\x03\xe8ABM     QN\x00\x00\x00\x64NCZ TNN N\x00\x00\x00\x00N";

const TRADING_BYTES: [u8; 25] = *b"H\x00\x01\x00\x00\x00\x00\x00\x00\x03\xe8ABM     T     ";

const ADD_BYTES: [u8; 36] =
    *b"A\x00\x01\x00\x00\x00\x00\x00\x00\x07\xd0\x00\x00\x00\x00\x00\x00\x00\x01B\x00\x0f\x42\x3fABM     \x00\x01\x86\xa0";

const EXECUTED_BYTES: [u8; 31] =
    *b"E\x00\x01\x00\x00\x00\x00\x00\x00\x0b\xb8\x00\x00\x00\x00\x00\x00\x00\x02\x00\x00\x00\xc8\x00\x00\x00\x00\x00\x00\x00\x01";

const CANCEL_BYTES: [u8; 23] =
    *b"X\x00\x01\x00\x00\x00\x00\x00\x00\x0b\xb8\x00\x00\x00\x00\x00\x00\x00\x02\x00\x00\x00\x96";

const DELETE_BYTES: [u8; 19] =
    *b"D\x00\x00\x00\x00\x00\x00\x00\x00\x00\x00\x00\x00\x00\x00\x00\x00\x00\x00";

const TRADE_BYTES: [u8; 44] =
    *b"P\x00\x02\x00\x03\x01\x02\x03\x04\x05\x06\x00\x00\x00\x00\x00\x00\x00\x09S\x00\x00\x00\x64ABM     \x00\x01\x86\xa0\x00\x00\x00\x00\x00\x00\x00\x07";

const CROSS_BYTES: [u8; 40] =
    *b"Q\x00\x01\x00\x00\x00\x00\x00\x00\x0b\xb8\x00\x00\x00\x01\x00\x00\x01\xf4ABM     \x00\x01\x86\xa0\x00\x00\x00\x00\x00\x00\x00\x08H";

fn goes_both_ways(m: &Feed, bytes: &[u8]) -> bool
    requires { m.now.time < 2 ^ 48 }
{
    encode_feed(m).as_slice() == bytes && decode_feed(bytes) == Ok(*m)
}

fn feed(locate: u16, time: u64, what: What) -> Feed
    ensures { result.time ≡ time }
{
    Feed {
        locate,
        tracking: 0,
        time,
        what,
    }
}

#[test]
fn states_both_ways(rt: HostRuntime) {
    let system = feed(0, 1000, What::System { code: b'O' });
    holds(&rt, goes_both_ways(&system, &SYSTEM_BYTES));
    let directory = What::Directory {
        stock: STOCK,
        category: b'Q',
        financial: b'N',
        lot: 100,
        lots_only: b'N',
        class: b'C',
        sub_type: *b"Z ",
        authenticity: b'T',
        short_sale: b'N',
        ipo: b'N',
        tier: b' ',
        etp: b'N',
        leverage: 0,
        inverse: b'N',
    };
    holds(
        &rt,
        goes_both_ways(&feed(1, 1000, directory), &DIRECTORY_BYTES),
    );
    let trading = What::Trading {
        stock: STOCK,
        state: b'T',
        reserved: b' ',
        reason: *b"    ",
    };
    holds(&rt, goes_both_ways(&feed(1, 1000, trading), &TRADING_BYTES));
}

#[test]
fn orders_both_ways(rt: HostRuntime) {
    let add = What::Add {
        reference: 1,
        side: Side::Buy,
        shares: 999_999,
        stock: STOCK,
        price: 100_000,
    };
    holds(&rt, goes_both_ways(&feed(1, 2000, add), &ADD_BYTES));
    let executed = What::Executed {
        reference: 2,
        shares: 200,
        number: 1,
    };
    holds(
        &rt,
        goes_both_ways(&feed(1, 3000, executed), &EXECUTED_BYTES),
    );
    let cancel = What::Cancel {
        reference: 2,
        shares: 150,
    };
    holds(&rt, goes_both_ways(&feed(1, 3000, cancel), &CANCEL_BYTES));
    holds(
        &rt,
        goes_both_ways(&feed(0, 0, What::Delete { reference: 0 }), &DELETE_BYTES),
    );
}

#[test]
fn trades_both_ways(rt: HostRuntime) {
    let trade = Feed {
        locate: 2,
        tracking: 3,
        time: 0x0102_0304_0506,
        what: What::Trade {
            reference: 9,
            side: Side::Sell,
            shares: 100,
            stock: STOCK,
            price: 100_000,
            number: 7,
        },
    };
    holds(&rt, goes_both_ways(&trade, &TRADE_BYTES));
    let cross = What::Cross {
        shares: 0x0001_0000_01f4,
        stock: STOCK,
        price: 100_000,
        number: 8,
        kind: b'H',
    };
    holds(&rt, goes_both_ways(&feed(1, 3000, cross), &CROSS_BYTES));
}

// Whether bytes are refused so.
fn is_refused(bytes: &[u8], error: CodecError) -> bool {
    decode_feed(bytes) == Err(error)
}

#[test]
fn refused_codes(rt: HostRuntime) {
    holds(&rt, is_refused(&[], CodecError::WrongLength(0, 1)));
    holds(&rt, is_refused(b"Z", CodecError::UnknownType(0x5a)));
    holds(&rt, is_refused(b"D", CodecError::WrongLength(1, 19)));
    let mut other_state = TRADING_BYTES;
    other_state[19] = b'X';
    holds(&rt, is_refused(&other_state, CodecError::BadField(19)));
    other_state[11] = b' ';
    holds(&rt, is_refused(&other_state, CodecError::BadField(11)));
}

// Whether the first frame of some bytes has this payload, and leaves this rest.
fn unframes(bytes: &[u8], payload: &[u8], rest: &[u8]) -> bool {
    match unframe(bytes) {
        Ok((first, left)) => first == payload && left == rest,
        Err(_) => false,
    }
}

// Whether some bytes begin with no frame, since they are cut off.
fn is_cut(bytes: &[u8], length: usize) -> bool {
    unframe(bytes).err() == Some(CodecError::Cut(length))
}

// A payload and an empty one are framed, and whether each call went well.
fn frames_two(out: &mut Vec<u8>) -> bool {
    frame(b"abc", out).is_ok() & frame(&[], out).is_ok()
}

#[test]
fn frames(rt: HostRuntime) {
    let mut out = Vec::new(rt.alloc());
    holds(&rt, frames_two(&mut out));
    holds(&rt, out.as_slice() == b"\x00\x03abc\x00\x00".as_slice());
    holds(&rt, unframes(out.as_slice(), b"abc", b"\x00\x00"));
    holds(&rt, unframes(&[0, 0], b"", b""));
    holds(&rt, is_cut(b"\x00\x03\x57", 3) & is_cut(b"\x00", 1));
    let mut parts = Vec::new(rt.alloc());
    holds(&rt, frame_of_two(b"ab", b"c", &mut parts).is_ok());
    holds(&rt, parts.as_slice() == b"\x00\x03abc".as_slice());
}

use crate::facts::holds;
use market_types::{Cancel, CodecError, Enter, Inbound, Reply, Side, Symbol, Token};
use ouch_codec::{decode_in, decode_out, encode_cancel, encode_enter, encode_reply};
use std::test::*;

const TOKEN: Token = Token(*b"T0001000000001");

const STOCK: Symbol = Symbol(*b"ABM     ");

const ENTER_BYTES: [u8; 49] =
    *b"OT0001000000001B\x00\x0f\x42\x3fABM     \x00\x01\x86\xa0\x00\x01\x86\x9fABIDYPN\x00\x00\x00\x00NN";

const CANCEL_BYTES: [u8; 19] = *b"XT0001000000001\x00\x00\x01\x5e";

const SYSTEM_BYTES: [u8; 10] = *b"S\x00\x00\x00\x00\x00\x00\x07\xd0C";

const ACCEPTED_BYTES: [u8; 66] =
    *b"A\x00\x00\x00\x00\x00\x00\x07\xd0T0001000000001B\x00\x0f\x42\x3fABM     \x00\x01\x86\xa0\x00\x01\x86\x9fABIDY\x00\x00\x00\x00\x00\x00\x00\x01PN\x00\x00\x00\x00NL ";

const CANCELED_BYTES: [u8; 28] =
    *b"C\x00\x00\x00\x00\x00\x00\x07\xd0T0001000000001\x00\x00\x00\x64I";

const EXECUTED_BYTES: [u8; 40] =
    *b"E\x00\x00\x00\x00\x00\x00\x0b\xb8T0001000000001\x00\x00\x00\xc8\x00\x01\x86\xa0A\x00\x00\x00\x00\x00\x00\x00\x01";

const REJECTED_BYTES: [u8; 24] = *b"J\x00\x00\x00\x00\x00\x00\x07\xd0T0001000000001O";

const ENTER: Enter = Enter {
    token: TOKEN,
    side: Side::Buy,
    shares: 999_999,
    stock: STOCK,
    price: 100_000,
    tif: 99_999,
    firm: *b"ABID",
    display: b'Y',
    capacity: b'P',
    sweep: b'N',
    minimum: 0,
    cross: b'N',
    customer: b'N',
};

const CANCEL: Cancel = Cancel {
    token: TOKEN,
    shares: 350,
};

const ACCEPTED: Reply = Reply::Accepted {
    time: 2000,
    token: TOKEN,
    side: Side::Buy,
    shares: 999_999,
    stock: STOCK,
    price: 100_000,
    tif: 99_999,
    firm: *b"ABID",
    display: b'Y',
    reference: 1,
    capacity: b'P',
    sweep: b'N',
    minimum: 0,
    cross: b'N',
    state: b'L',
    bbo: b' ',
};

#[test]
fn orders_both_ways(rt: HostRuntime) {
    holds(&rt, encode_enter(&ENTER) == ENTER_BYTES);
    holds(&rt, decode_in(&ENTER_BYTES) == Ok(Inbound::Enter(ENTER)));
    holds(&rt, encode_cancel(&CANCEL) == CANCEL_BYTES);
    holds(&rt, decode_in(&CANCEL_BYTES) == Ok(Inbound::Cancel(CANCEL)));
}

fn goes_both_ways(reply: Reply, bytes: &[u8]) -> bool {
    encode_reply(&reply).as_slice() == bytes && decode_out(bytes) == Ok(reply)
}

#[test]
fn replies_both_ways(rt: HostRuntime) {
    let time = 2000;
    let token = TOKEN;
    let system = Reply::System { time, code: b'C' };
    holds(&rt, goes_both_ways(system, &SYSTEM_BYTES));
    holds(&rt, goes_both_ways(ACCEPTED, &ACCEPTED_BYTES));
    let canceled = Reply::Canceled {
        time,
        token,
        decrement: 100,
        reason: b'I',
    };
    holds(&rt, goes_both_ways(canceled, &CANCELED_BYTES));
    let executed = Reply::Executed {
        time: 3000,
        token,
        shares: 200,
        price: 100_000,
        flag: b'A',
        number: 1,
    };
    holds(&rt, goes_both_ways(executed, &EXECUTED_BYTES));
    let rejected = Reply::Rejected {
        time,
        token,
        reason: b'O',
    };
    holds(&rt, goes_both_ways(rejected, &REJECTED_BYTES));
    holds(&rt, encode_reply(&rejected).len() == 24);
    holds(&rt, !encode_reply(&rejected).is_empty());
}

#[test]
fn refused_codes(rt: HostRuntime) {
    let mut longer = [0; 50];
    longer[..49].copy_from_slice(&ENTER_BYTES);
    holds(
        &rt,
        decode_in(&longer) == Err(CodecError::WrongLength(50, 49)),
    );
    let mut other_side = ENTER_BYTES;
    other_side[15] = b'T';
    holds(&rt, decode_in(&other_side) == Err(CodecError::BadField(15)));
    other_side[41] = 0;
    holds(&rt, decode_in(&other_side) == Err(CodecError::BadField(15)));
    holds(&rt, decode_in(&[]) == Err(CodecError::WrongLength(0, 1)));
    holds(&rt, decode_out(&[]) == Err(CodecError::WrongLength(0, 1)));
    holds(
        &rt,
        decode_in(&ACCEPTED_BYTES) == Err(CodecError::UnknownType(b'A')),
    );
    holds(
        &rt,
        decode_out(&ENTER_BYTES) == Err(CodecError::UnknownType(b'O')),
    );
    let mut inner_blank = ENTER_BYTES;
    inner_blank[21] = b' ';
    holds(
        &rt,
        decode_in(&inner_blank) == Err(CodecError::BadField(20)),
    );
    let mut blank_first = ENTER_BYTES;
    blank_first[1] = b' ';
    holds(&rt, decode_in(&blank_first) == Err(CodecError::BadField(1)));
}

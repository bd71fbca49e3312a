//! Replies of the exchange.

ghost use Rattle.std.specs.Prelude.{◌≡◌, ◌≤◌, ◌∷◌, ◌++◌, length, IfOk, Ok};
ghost use Rattle.std.specs.Result.{result_err};
ghost use Rattle.wire_fields.specs.Wire.{IsInRange, IsSpelled, AreGood, spelling, wire_in, refusal};
ghost use Rattle.wire_fields.specs.Numbers.{number_bytes};
ghost use Rattle.ouch_codec.specs.Outbound.{reply_wire, reply_layout};
ghost use Rattle.market_types.specs.declared.reply.Reply.{Reply};
ghost use Rattle.market_types.specs.declared.reply.Reply.TheVariants as reply;

use crate::layouts::{
    ACCEPTED, ACCEPTED_TYPE, CANCELED, CANCELED_TYPE, EXECUTED, EXECUTED_TYPE, REJECTED,
    REJECTED_TYPE, SYSTEM, SYSTEM_TYPE,
};
use market_types::{CodecError, Reply, Side, Symbol, Token};
use wire_fields::{
    Kind, MessageBytes, MessageType, Value, array_at, byte_at, decode, side_at, side_letter,
    u32_at, u64_at,
};

/// The bytes of a reply, at most 66, seen as their list.
pub type ReplyBytes = MessageBytes<66>;

/// The bytes of a reply. A field out of its range is written as it stands.
pub fn encode_reply(m: &Reply) -> ReplyBytes
    ensures spelling { result ≡ spelling (reply_wire m.now) }
    ensures spelled { IsInRange (reply_wire m.now) → IsSpelled result (reply_wire m.now) }
    ensures size { length result ≤ 66 }
{
    match *m {
        Reply::System { time, code } => ReplyBytes::of(
            SYSTEM_TYPE,
            &SYSTEM,
            &[Value::Number(time), Value::Byte(code)],
        ),
        Reply::Accepted {
            time,
            token,
            side,
            shares,
            stock,
            price,
            tif,
            firm,
            display,
            reference,
            capacity,
            sweep,
            minimum,
            cross,
            state,
            bbo,
        } => accepted(
            time, token, side, shares, stock, price, tif, firm, display, reference, capacity,
            sweep, minimum, cross, state, bbo,
        ),
        Reply::Canceled {
            time,
            token,
            decrement,
            reason,
        } => canceled(time, token, decrement, reason),
        Reply::Executed {
            time,
            token,
            shares,
            price,
            flag,
            number,
        } => executed(time, token, shares, price, flag, number),
        Reply::Rejected {
            time,
            token,
            reason,
        } => ReplyBytes::of(
            REJECTED_TYPE,
            &REJECTED,
            &[
                Value::Number(time),
                Value::Token(token),
                Value::Byte(reason),
            ],
        ),
    }
}

// A reply's type, its time, and the token of the order that it answers.
fn started(letter: u8, time: u64, token: Token) -> ReplyBytes
    ensures bytes { result ≡ letter ∷ number_bytes 8 time ++ token.0 }
    ensures size { length result ≡ 23 }
{
    let mut bytes = ReplyBytes::begun(letter);
    bytes.push(&time.to_be_bytes());
    bytes.push(&token.0);
    bytes
}

// An Order Accepted.
fn accepted(
    time: u64,
    token: Token,
    side: Side,
    shares: u32,
    stock: Symbol,
    price: u32,
    tif: u32,
    firm: [u8; 4],
    display: u8,
    reference: u64,
    capacity: u8,
    sweep: u8,
    minimum: u32,
    cross: u8,
    state: u8,
    bbo: u8,
) -> ReplyBytes
    ensures spelling { result ≡ spelling (reply_wire (reply.Accepted time token side shares stock price tif firm display reference capacity sweep minimum cross state bbo)) }
    ensures size { length result ≤ 66 }
{
    let mut bytes = started(ACCEPTED_TYPE, time, token);
    bytes.push(&[side_letter(side)]);
    bytes.push(&shares.to_be_bytes());
    bytes.push(&stock.0);
    bytes.push(&price.to_be_bytes());
    bytes.push(&tif.to_be_bytes());
    bytes.push(&firm);
    bytes.push(&[display]);
    bytes.push(&reference.to_be_bytes());
    bytes.push(&[capacity]);
    bytes.push(&[sweep]);
    bytes.push(&minimum.to_be_bytes());
    bytes.push(&[cross]);
    bytes.push(&[state]);
    bytes.push(&[bbo]);
    bytes
}

// A Canceled Order.
fn canceled(time: u64, token: Token, decrement: u32, reason: u8) -> ReplyBytes
    ensures spelling { result ≡ spelling (reply_wire (reply.Canceled time token decrement reason)) }
    ensures size { length result ≤ 66 }
{
    let mut bytes = started(CANCELED_TYPE, time, token);
    bytes.push(&decrement.to_be_bytes());
    bytes.push(&[reason]);
    bytes
}

// An Executed Order.
fn executed(
    time: u64,
    token: Token,
    shares: u32,
    price: u32,
    flag: u8,
    match_number: u64,
) -> ReplyBytes
    ensures spelling { result ≡ spelling (reply_wire (reply.Executed time token shares price flag match_number)) }
    ensures size { length result ≤ 66 }
{
    let mut bytes = started(EXECUTED_TYPE, time, token);
    bytes.push(&shares.to_be_bytes());
    bytes.push(&price.to_be_bytes());
    bytes.push(&[flag]);
    bytes.push(&match_number.to_be_bytes());
    bytes
}

// The types of replies.
#[derive(Clone, Copy)]
pub(crate) enum ReplyType {
    System,
    Accepted,
    Canceled,
    Executed,
    Rejected,
}

impl MessageType for ReplyType {
    ghost use Rattle.ouch_codec.specs.Outbound.{reply_wire, reply_layout};
    ghost use Rattle.ouch_codec.specs.OutboundBack.{reply_of, reply_letter, reply_kinds, reply_told, reply_back};

    type Message = Reply;

    ghost wire = { reply_wire };

    ghost message = { reply_of };

    ghost layout = { reply_layout };

    ghost letter = { reply_letter };

    ghost kinds = { reply_kinds };

    ghost told = { reply_told };

    ghost back = { reply_back };

    fn of_letter(first: u8) -> Option<ReplyType> {
        match first {
            SYSTEM_TYPE => Some(ReplyType::System),
            ACCEPTED_TYPE => Some(ReplyType::Accepted),
            CANCELED_TYPE => Some(ReplyType::Canceled),
            EXECUTED_TYPE => Some(ReplyType::Executed),
            REJECTED_TYPE => Some(ReplyType::Rejected),
            _ => None,
        }
    }

    fn fields(self) -> &'static [Kind] {
        match self {
            ReplyType::System => &SYSTEM,
            ReplyType::Accepted => &ACCEPTED,
            ReplyType::Canceled => &CANCELED,
            ReplyType::Executed => &EXECUTED,
            ReplyType::Rejected => &REJECTED,
        }
    }

    fn read(self, bytes: &[u8]) -> Reply {
        match self {
            ReplyType::System => system_at(bytes),
            ReplyType::Accepted => accepted_at(bytes),
            ReplyType::Canceled => canceled_at(bytes),
            ReplyType::Executed => executed_at(bytes),
            ReplyType::Rejected => rejected_at(bytes),
        }
    }
}

/// The reply that these bytes are. What it refuses, the first that applies: a type other than `S`, `A`, `C`, `E` and
/// `J`, another length than the type's, where 1 is needed of the empty input, and the least offset of a field out of its
/// range.
pub fn decode_out(bytes: &[u8]) -> Result<Reply, CodecError>
    ensures spelled { IfOk result (λ m. IsSpelled bytes.now (reply_wire m)) }
    ensures only { (m : Reply) → IsSpelled bytes.now (reply_wire m) → result ≡ Ok m }
    ensures refused { result_err result ≡ refusal reply_layout bytes.now }
{
    decode::<ReplyType>(bytes)
}

fn system_at(bytes: &[u8]) -> Reply
    requires { length bytes.now ≡ 10 }
    ensures { reply_wire result ≡ wire_in SYSTEM_TYPE SYSTEM bytes.now }
{
    Reply::System {
        time: u64_at(bytes, 1),
        code: byte_at(bytes, 9),
    }
}

fn accepted_at(bytes: &[u8]) -> Reply
    requires length { length bytes.now ≡ 66 }
    requires good { AreGood ACCEPTED 1 bytes.now }
    ensures { reply_wire result ≡ wire_in ACCEPTED_TYPE ACCEPTED bytes.now }
{
    Reply::Accepted {
        time: u64_at(bytes, 1),
        token: Token(array_at(bytes, 9)),
        side: side_at(bytes, 23),
        shares: u32_at(bytes, 24),
        stock: Symbol(array_at(bytes, 28)),
        price: u32_at(bytes, 36),
        tif: u32_at(bytes, 40),
        firm: array_at(bytes, 44),
        display: byte_at(bytes, 48),
        reference: u64_at(bytes, 49),
        capacity: byte_at(bytes, 57),
        sweep: byte_at(bytes, 58),
        minimum: u32_at(bytes, 59),
        cross: byte_at(bytes, 63),
        state: byte_at(bytes, 64),
        bbo: byte_at(bytes, 65),
    }
}

fn canceled_at(bytes: &[u8]) -> Reply
    requires { length bytes.now ≡ 28 }
    ensures { reply_wire result ≡ wire_in CANCELED_TYPE CANCELED bytes.now }
{
    Reply::Canceled {
        time: u64_at(bytes, 1),
        token: Token(array_at(bytes, 9)),
        decrement: u32_at(bytes, 23),
        reason: byte_at(bytes, 27),
    }
}

fn executed_at(bytes: &[u8]) -> Reply
    requires { length bytes.now ≡ 40 }
    ensures { reply_wire result ≡ wire_in EXECUTED_TYPE EXECUTED bytes.now }
{
    Reply::Executed {
        time: u64_at(bytes, 1),
        token: Token(array_at(bytes, 9)),
        shares: u32_at(bytes, 23),
        price: u32_at(bytes, 27),
        flag: byte_at(bytes, 31),
        number: u64_at(bytes, 32),
    }
}

fn rejected_at(bytes: &[u8]) -> Reply
    requires { length bytes.now ≡ 24 }
    ensures { reply_wire result ≡ wire_in REJECTED_TYPE REJECTED bytes.now }
{
    Reply::Rejected {
        time: u64_at(bytes, 1),
        token: Token(array_at(bytes, 9)),
        reason: byte_at(bytes, 23),
    }
}

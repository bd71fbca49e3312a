//! The fields of each frame of a bundle after its letter, in order. Signed numbers are in two's complement, and those
//! of sixteen bytes are written as two numbers of eight, the higher half first.

use wire_fields::Kind;

const BYTE: Kind = Kind::Byte;

const DELIVERED: Kind = Kind::Either(*b"DP");

const BODY_KIND: Kind = Kind::OneOf(*b"wioaq");

const SILENCED: Kind = Kind::Either(*b"YN");

const SHORT: Kind = Kind::Number(2);

const WORD: Kind = Kind::Number(4);

const LONG: Kind = Kind::Number(8);

/// `h`, the header: version, agents with the exchange, stocks, branches.
pub const HEADER: [Kind; 4] = [SHORT, SHORT, SHORT, SHORT];

/// `b`, a branch before its name: its number, its parent's, its stop, the length of its name.
pub const BRANCH: [Kind; 4] = [SHORT, SHORT, WORD, BYTE];

/// `e`, an event before the body of its message: the event's number, its time, the message's number, sender,
/// receiver, delivered or put back, the receiver's own time afterwards, fee, kind of body.
pub const EVENT: [Kind; 9] = [
    WORD, LONG, LONG, SHORT, SHORT, DELIVERED, LONG, LONG, BODY_KIND,
];

/// `w`, a waiting message before its body: when it is due, its number, sender, receiver, kind of body.
pub const WAITING: [Kind; 5] = [LONG, LONG, SHORT, SHORT, BODY_KIND];

/// The body of a question: stock.
pub const ASK: [Kind; 1] = [SHORT];

/// The body of a quote: stock, state, bid, its shares, ask, its shares, last price.
pub const QUOTE: [Kind; 7] = [SHORT, BYTE, WORD, LONG, WORD, LONG, WORD];

/// `d`, an edit: events before it, time, branch, index among the branch's edits, letter of its kind.
pub const EDIT: [Kind; 5] = [WORD, LONG, SHORT, SHORT, BYTE];

/// `c`, the counters of a closing: the end's letter, events, time, next message number, waiting and dropped
/// messages, ignored enters and cancels, orders, matches.
pub const COUNTS: [Kind; 10] = [BYTE, WORD, LONG, LONG, WORD, LONG, LONG, LONG, LONG, LONG];

/// `s`, a stock of a closing: its number, state, last price, matched shares, fees, series offset, live orders.
pub const STOCK: [Kind; 8] = [SHORT, BYTE, WORD, LONG, LONG, LONG, LONG, WORD];

/// `l`, a live order of a closing: reference, agent, token as it stands, side, intended and open shares, stock, price, time in
/// force.
pub const ORDER: [Kind; 9] = [
    LONG,
    SHORT,
    Kind::Bytes(14),
    Kind::Side,
    WORD,
    WORD,
    SHORT,
    WORD,
    WORD,
];

/// `a`, an agent of a closing before its positions: its number, silenced or not, own time, tokens given, draws made,
/// settled cash, own cash, own position, orders in its own list, quotes heard.
pub const AGENT: [Kind; 12] = [
    SHORT, SILENCED, LONG, WORD, LONG, LONG, LONG, LONG, LONG, LONG, SHORT, WORD,
];

/// One settled position of an agent.
pub const POSITION: [Kind; 1] = [LONG];

/// `z`, the end of the bundle: branches.
pub const END: [Kind; 1] = [SHORT];

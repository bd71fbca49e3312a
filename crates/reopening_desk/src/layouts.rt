//! The fields of the frames of a reopening after their letter, in order.

use wire_fields::Kind;

const WORD: Kind = Kind::Number(4);

const LONG: Kind = Kind::Number(8);

/// `f`, what an order trades: its side, its reference, the shares that it trades.
pub const PART: [Kind; 3] = [Kind::Side, LONG, WORD];

/// `k`, a crossing price with its certificate: price, shares, shares to buy and to sell there, the cut, the shares to sell up to
/// it, the shares to buy beyond it.
pub const CROSS: [Kind; 7] = [WORD, LONG, LONG, LONG, WORD, LONG, LONG];

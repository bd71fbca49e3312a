//! The messages' fields in order, each by the name that OUCH 4.2 gives it, and the letters of their types.

use wire_fields::Kind;

// In nanoseconds past midnight.
const TIMESTAMP: Kind = Kind::Number(8);

const ORDER_TOKEN: Kind = Kind::Alphanumeric(14);

const BUY_SELL_INDICATOR: Kind = Kind::Side;

const SHARES: Kind = Kind::Number(4);

const STOCK: Kind = Kind::Text(8);
// With four implied decimals.
const PRICE: Kind = Kind::Number(4);
// In seconds.
const TIME_IN_FORCE: Kind = Kind::Number(4);

const FIRM: Kind = Kind::Letters(4);

const DISPLAY: Kind = Kind::Letters(1);

const CAPACITY: Kind = Kind::Letters(1);

const INTERMARKET_SWEEP_ELIGIBILITY: Kind = Kind::Letters(1);

const MINIMUM_QUANTITY: Kind = Kind::Number(4);

const CROSS_TYPE: Kind = Kind::Letters(1);

const CUSTOMER_TYPE: Kind = Kind::Letters(1);

const EVENT_CODE: Kind = Kind::Letters(1);

const ORDER_REFERENCE_NUMBER: Kind = Kind::Number(8);

const ORDER_STATE: Kind = Kind::OrderState;

const BBO_WEIGHT_INDICATOR: Kind = Kind::Byte;

const DECREMENT_SHARES: Kind = Kind::Number(4);

const REASON: Kind = Kind::Letters(1);

const EXECUTED_SHARES: Kind = Kind::Number(4);

const EXECUTION_PRICE: Kind = Kind::Number(4);

const LIQUIDITY_FLAG: Kind = Kind::Letters(1);

const MATCH_NUMBER: Kind = Kind::Number(8);

/// The type of Enter Order.
pub const ENTER_TYPE: u8 = b'O';
/// Enter Order.
pub const ENTER: [Kind; 13] = [
    ORDER_TOKEN,
    BUY_SELL_INDICATOR,
    SHARES,
    STOCK,
    PRICE,
    TIME_IN_FORCE,
    FIRM,
    DISPLAY,
    CAPACITY,
    INTERMARKET_SWEEP_ELIGIBILITY,
    MINIMUM_QUANTITY,
    CROSS_TYPE,
    CUSTOMER_TYPE,
];

/// The type of Cancel Order.
pub const CANCEL_TYPE: u8 = b'X';
/// Cancel Order.
pub const CANCEL: [Kind; 2] = [ORDER_TOKEN, SHARES];

/// The type of System Event.
pub const SYSTEM_TYPE: u8 = b'S';
/// System Event.
pub const SYSTEM: [Kind; 2] = [TIMESTAMP, EVENT_CODE];

/// The type of Order Accepted.
pub const ACCEPTED_TYPE: u8 = b'A';
/// Order Accepted.
pub const ACCEPTED: [Kind; 16] = [
    TIMESTAMP,
    ORDER_TOKEN,
    BUY_SELL_INDICATOR,
    SHARES,
    STOCK,
    PRICE,
    TIME_IN_FORCE,
    FIRM,
    DISPLAY,
    ORDER_REFERENCE_NUMBER,
    CAPACITY,
    INTERMARKET_SWEEP_ELIGIBILITY,
    MINIMUM_QUANTITY,
    CROSS_TYPE,
    ORDER_STATE,
    BBO_WEIGHT_INDICATOR,
];

/// The type of Canceled Order.
pub const CANCELED_TYPE: u8 = b'C';
/// Canceled Order.
pub const CANCELED: [Kind; 4] = [TIMESTAMP, ORDER_TOKEN, DECREMENT_SHARES, REASON];

/// The type of Executed Order.
pub const EXECUTED_TYPE: u8 = b'E';
/// Executed Order.
pub const EXECUTED: [Kind; 6] = [
    TIMESTAMP,
    ORDER_TOKEN,
    EXECUTED_SHARES,
    EXECUTION_PRICE,
    LIQUIDITY_FLAG,
    MATCH_NUMBER,
];

/// The type of Rejected Order.
pub const REJECTED_TYPE: u8 = b'J';
/// Rejected Order.
pub const REJECTED: [Kind; 3] = [TIMESTAMP, ORDER_TOKEN, REASON];

//! The messages' fields in order, each by the name that ITCH 5.0 gives it, and the letters of their types.

use wire_fields::Kind;

const STOCK_LOCATE: Kind = Kind::Number(2);

const TRACKING_NUMBER: Kind = Kind::Number(2);
// In nanoseconds past midnight.
const TIMESTAMP: Kind = Kind::Number(6);

const EVENT_CODE: Kind = Kind::Letters(1);

const STOCK: Kind = Kind::Text(8);

const MARKET_CATEGORY: Kind = Kind::Letters(1);

const FINANCIAL_STATUS_INDICATOR: Kind = Kind::Letters(1);

const ROUND_LOT_SIZE: Kind = Kind::Number(4);

const ROUND_LOTS_ONLY: Kind = Kind::Letters(1);

const ISSUE_CLASSIFICATION: Kind = Kind::Letters(1);

const ISSUE_SUB_TYPE: Kind = Kind::Letters(2);

const AUTHENTICITY: Kind = Kind::Letters(1);

const SHORT_SALE_THRESHOLD_INDICATOR: Kind = Kind::Letters(1);

const IPO_FLAG: Kind = Kind::Letters(1);

const LULD_REFERENCE_PRICE_TIER: Kind = Kind::Letters(1);

const ETP_FLAG: Kind = Kind::Letters(1);

const ETP_LEVERAGE_FACTOR: Kind = Kind::Number(4);

const INVERSE_INDICATOR: Kind = Kind::Letters(1);

const TRADING_STATE: Kind = Kind::TradingState;

const RESERVED: Kind = Kind::Letters(1);

const REASON: Kind = Kind::Letters(4);

const ORDER_REFERENCE_NUMBER: Kind = Kind::Number(8);

const BUY_SELL_INDICATOR: Kind = Kind::Side;

const SHARES: Kind = Kind::Number(4);
// With four implied decimals.
const PRICE: Kind = Kind::Number(4);

const EXECUTED_SHARES: Kind = Kind::Number(4);

const MATCH_NUMBER: Kind = Kind::Number(8);

const CANCELED_SHARES: Kind = Kind::Number(4);

const CROSS_SHARES: Kind = Kind::Number(8);
// With four implied decimals.
const CROSS_PRICE: Kind = Kind::Number(4);
// Cross Type.
const TYPE_OF_CROSS: Kind = Kind::Letters(1);

/// The type of System Event.
pub const SYSTEM_TYPE: u8 = b'S';
/// System Event.
pub const SYSTEM: [Kind; 4] = [STOCK_LOCATE, TRACKING_NUMBER, TIMESTAMP, EVENT_CODE];

/// The type of Stock Directory.
pub const DIRECTORY_TYPE: u8 = b'R';
/// Stock Directory.
pub const DIRECTORY: [Kind; 17] = [
    STOCK_LOCATE,
    TRACKING_NUMBER,
    TIMESTAMP,
    STOCK,
    MARKET_CATEGORY,
    FINANCIAL_STATUS_INDICATOR,
    ROUND_LOT_SIZE,
    ROUND_LOTS_ONLY,
    ISSUE_CLASSIFICATION,
    ISSUE_SUB_TYPE,
    AUTHENTICITY,
    SHORT_SALE_THRESHOLD_INDICATOR,
    IPO_FLAG,
    LULD_REFERENCE_PRICE_TIER,
    ETP_FLAG,
    ETP_LEVERAGE_FACTOR,
    INVERSE_INDICATOR,
];

/// The type of Stock Trading Action.
pub const TRADING_TYPE: u8 = b'H';
/// Stock Trading Action.
pub const TRADING: [Kind; 7] = [
    STOCK_LOCATE,
    TRACKING_NUMBER,
    TIMESTAMP,
    STOCK,
    TRADING_STATE,
    RESERVED,
    REASON,
];

/// The type of Add Order without MPID attribution.
pub const ADD_TYPE: u8 = b'A';
/// Add Order without MPID attribution.
pub const ADD: [Kind; 8] = [
    STOCK_LOCATE,
    TRACKING_NUMBER,
    TIMESTAMP,
    ORDER_REFERENCE_NUMBER,
    BUY_SELL_INDICATOR,
    SHARES,
    STOCK,
    PRICE,
];

/// The type of Order Executed.
pub const EXECUTED_TYPE: u8 = b'E';
/// Order Executed.
pub const EXECUTED: [Kind; 6] = [
    STOCK_LOCATE,
    TRACKING_NUMBER,
    TIMESTAMP,
    ORDER_REFERENCE_NUMBER,
    EXECUTED_SHARES,
    MATCH_NUMBER,
];

/// The type of Order Cancel.
pub const CANCEL_TYPE: u8 = b'X';
/// Order Cancel.
pub const CANCEL: [Kind; 5] = [
    STOCK_LOCATE,
    TRACKING_NUMBER,
    TIMESTAMP,
    ORDER_REFERENCE_NUMBER,
    CANCELED_SHARES,
];

/// The type of Order Delete.
pub const DELETE_TYPE: u8 = b'D';
/// Order Delete.
pub const DELETE: [Kind; 4] = [
    STOCK_LOCATE,
    TRACKING_NUMBER,
    TIMESTAMP,
    ORDER_REFERENCE_NUMBER,
];

/// The type of Trade Message, non-cross.
pub const TRADE_TYPE: u8 = b'P';
/// Trade Message, non-cross.
pub const TRADE: [Kind; 9] = [
    STOCK_LOCATE,
    TRACKING_NUMBER,
    TIMESTAMP,
    ORDER_REFERENCE_NUMBER,
    BUY_SELL_INDICATOR,
    SHARES,
    STOCK,
    PRICE,
    MATCH_NUMBER,
];

/// The type of Cross Trade.
pub const CROSS_TYPE: u8 = b'Q';
/// Cross Trade.
pub const CROSS: [Kind; 8] = [
    STOCK_LOCATE,
    TRACKING_NUMBER,
    TIMESTAMP,
    CROSS_SHARES,
    STOCK,
    CROSS_PRICE,
    MATCH_NUMBER,
    TYPE_OF_CROSS,
];

//! Orders to the exchange.

ghost use Rattle.std.specs.Prelude.{◌≡◌, length, IfOk, Ok};
ghost use Rattle.std.specs.Result.{result_err};
ghost use Rattle.wire_fields.specs.Wire.{IsInRange, IsSpelled, AreGood, spelling, wire_in, refusal};
ghost use Rattle.ouch_codec.specs.Inbound.{inbound_wire, inbound_layout};
ghost use Rattle.market_types.specs.declared.order.Inbound.TheVariants as inbound;
ghost use Rattle.market_types.specs.declared.order.Inbound.{Inbound};

use crate::layouts::{CANCEL, CANCEL_TYPE, ENTER, ENTER_TYPE};
use market_types::{Cancel, CodecError, Enter, Inbound, Symbol, Token};
use wire_fields::{
    Kind, MessageBytes, MessageType, array_at, byte_at, decode, side_at, side_letter, u32_at,
};

/// The 49 bytes of an Enter Order. A field out of its range is written as it stands.
pub fn encode_enter(m: &Enter) -> [u8; 49]
    ensures spelling { result ≡ spelling (inbound_wire (inbound.Enter m.now)) }
    ensures spelled { IsInRange (inbound_wire (inbound.Enter m.now)) → IsSpelled result (inbound_wire (inbound.Enter m.now)) }
{
    let mut bytes = MessageBytes::<49>::begun(ENTER_TYPE);
    bytes.push(&m.token.0);
    bytes.push(&[side_letter(m.side)]);
    bytes.push(&m.shares.to_be_bytes());
    bytes.push(&m.stock.0);
    bytes.push(&m.price.to_be_bytes());
    bytes.push(&m.tif.to_be_bytes());
    bytes.push(&m.firm);
    bytes.push(&[m.display]);
    bytes.push(&[m.capacity]);
    bytes.push(&[m.sweep]);
    bytes.push(&m.minimum.to_be_bytes());
    bytes.push(&[m.cross]);
    bytes.push(&[m.customer]);
    bytes.to_array()
}

/// The 19 bytes of a Cancel Order. A field out of its range is written as it stands.
pub fn encode_cancel(m: &Cancel) -> [u8; 19]
    ensures spelling { result ≡ spelling (inbound_wire (inbound.Cancel m.now)) }
    ensures spelled { IsInRange (inbound_wire (inbound.Cancel m.now)) → IsSpelled result (inbound_wire (inbound.Cancel m.now)) }
{
    let mut bytes = MessageBytes::<19>::begun(CANCEL_TYPE);
    bytes.push(&m.token.0);
    bytes.push(&m.shares.to_be_bytes());
    bytes.to_array()
}

// The types of orders.
#[derive(Clone, Copy)]
pub(crate) enum OrderType {
    Enter,
    Cancel,
}

impl MessageType for OrderType {
    ghost use Rattle.ouch_codec.specs.Inbound.{inbound_wire, inbound_layout};
    ghost use Rattle.ouch_codec.specs.InboundBack.{inbound_of, order_letter, order_kinds, inbound_told, inbound_back};

    type Message = Inbound;

    ghost wire = { inbound_wire };

    ghost message = { inbound_of };

    ghost layout = { inbound_layout };

    ghost letter = { order_letter };

    ghost kinds = { order_kinds };

    ghost told = { inbound_told };

    ghost back = { inbound_back };

    fn of_letter(first: u8) -> Option<OrderType> {
        match first {
            ENTER_TYPE => Some(OrderType::Enter),
            CANCEL_TYPE => Some(OrderType::Cancel),
            _ => None,
        }
    }

    fn fields(self) -> &'static [Kind] {
        match self {
            OrderType::Enter => &ENTER,
            OrderType::Cancel => &CANCEL,
        }
    }

    fn read(self, bytes: &[u8]) -> Inbound {
        match self {
            OrderType::Enter => enter_at(bytes),
            OrderType::Cancel => cancel_at(bytes),
        }
    }
}

/// The order that these bytes are. What it refuses, the first that applies: a type other than `O` and `X`, another
/// length than the type's, where 1 is needed of the empty input, and the least offset of a field out of its range.
pub fn decode_in(bytes: &[u8]) -> Result<Inbound, CodecError>
    ensures spelled { IfOk result (λ m. IsSpelled bytes.now (inbound_wire m)) }
    ensures only { (m : Inbound) → IsSpelled bytes.now (inbound_wire m) → result ≡ Ok m }
    ensures refused { result_err result ≡ refusal inbound_layout bytes.now }
{
    decode::<OrderType>(bytes)
}

// The Enter Order of these bytes.
fn enter_at(bytes: &[u8]) -> Inbound
    requires length { length bytes.now ≡ 49 }
    requires good { AreGood ENTER 1 bytes.now }
    ensures { inbound_wire result ≡ wire_in ENTER_TYPE ENTER bytes.now }
{
    Inbound::Enter(Enter {
        token: Token(array_at(bytes, 1)),
        side: side_at(bytes, 15),
        shares: u32_at(bytes, 16),
        stock: Symbol(array_at(bytes, 20)),
        price: u32_at(bytes, 28),
        tif: u32_at(bytes, 32),
        firm: array_at(bytes, 36),
        display: byte_at(bytes, 40),
        capacity: byte_at(bytes, 41),
        sweep: byte_at(bytes, 42),
        minimum: u32_at(bytes, 43),
        cross: byte_at(bytes, 47),
        customer: byte_at(bytes, 48),
    })
}

// The Cancel Order of these bytes.
fn cancel_at(bytes: &[u8]) -> Inbound
    requires { length bytes.now ≡ 19 }
    ensures { inbound_wire result ≡ wire_in CANCEL_TYPE CANCEL bytes.now }
{
    Inbound::Cancel(Cancel {
        token: Token(array_at(bytes, 1)),
        shares: u32_at(bytes, 15),
    })
}

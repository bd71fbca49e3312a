//! The body of a message.

ghost use Rattle.std.specs.Prelude.{◌≡◌, ◌≢◌, IfSome, Some, slice_get};
ghost use Rattle.market_types.specs.declared.message.Body.{Body};
ghost use Rattle.bundle_reader.specs.Bodies.{IsBody};

use crate::market_body::{MarketBody, MarketType};
use market_types::Body;
use ouch_codec::{decode_in, decode_out};
use wire_fields::decode;

/// The body of these bytes, of which the first is the letter of its kind: a wakeup, an order inbound, its answer outbound, a
/// question or a quote. `None` exactly where they are no body: another letter, another length, or a field out of its range.
pub fn read_body(bytes: &[u8]) -> Option<Body>
    ensures body { IfSome result (λ b. IsBody bytes.now b) }
    ensures only { (b : Body) → IsBody bytes.now b → result ≡ Some b }
{
    let Some(first) = bytes.first() else {
        return None;
    };
    match first {
        b'w' => wakeup(bytes),
        b'i' => order(bytes),
        b'o' => answer(bytes),
        _ => market(bytes),
    }
}

// A wakeup has no more bytes.
fn wakeup(bytes: &[u8]) -> Option<Body>
    requires { slice_get bytes.now 0 ≡ Some 119 }
    ensures body { IfSome result (λ b. IsBody bytes.now b) }
    ensures only { (b : Body) → IsBody bytes.now b → result ≡ Some b }
{
    if bytes.len() == 1 {
        Some(Body::Wake)
    } else {
        None
    }
}

// An order behind its letter.
fn order(bytes: &[u8]) -> Option<Body>
    requires { slice_get bytes.now 0 ≡ Some 105 }
    ensures body { IfSome result (λ b. IsBody bytes.now b) }
    ensures only { (b : Body) → IsBody bytes.now b → result ≡ Some b }
{
    match decode_in(&bytes[1..]) {
        Ok(order) => Some(Body::Order(order)),
        Err(_) => None,
    }
}

// An answer behind its letter.
fn answer(bytes: &[u8]) -> Option<Body>
    requires { slice_get bytes.now 0 ≡ Some 111 }
    ensures body { IfSome result (λ b. IsBody bytes.now b) }
    ensures only { (b : Body) → IsBody bytes.now b → result ≡ Some b }
{
    match decode_out(&bytes[1..]) {
        Ok(reply) => Some(Body::Answer(reply)),
        Err(_) => None,
    }
}

// A question or a quote, with its letter.
fn market(bytes: &[u8]) -> Option<Body>
    requires wakeup { slice_get bytes.now 0 ≢ Some 119 }
    requires order { slice_get bytes.now 0 ≢ Some 105 }
    requires answer { slice_get bytes.now 0 ≢ Some 111 }
    ensures body { IfSome result (λ b. IsBody bytes.now b) }
    ensures only { (b : Body) → IsBody bytes.now b → result ≡ Some b }
{
    match decode::<MarketType>(bytes) {
        Ok(MarketBody::Ask(stock)) => Some(Body::Ask(stock)),
        Ok(MarketBody::Quote(quote)) => Some(Body::Quote(quote)),
        Err(_) => None,
    }
}

//! Laws of the messages, and their definitions on worked examples.

ghost use Rattle.std.specs.Prelude.{◌≡◌, ℕ, ◌+◌, List, [], ◌∷◌, ◌++◌, codes, Some, None};
ghost use Rattle.market_types.specs.declared.order.Inbound.{Inbound};
ghost use Rattle.market_types.specs.declared.order.Inbound.TheVariants as inbound;
ghost use Rattle.market_types.specs.declared.order.Side.TheVariants as side;
ghost use Rattle.market_types.specs.declared.reply.Reply.{Reply};
ghost use Rattle.market_types.specs.declared.error.CodecError.TheVariants.{WrongLength, UnknownType, BadField};
ghost use Rattle.wire_fields.specs.Wire.{places, total_width, spelling, IsSpelled, refusal};
ghost use Rattle.ouch_codec.specs.Inbound.{inbound_wire, inbound_layout};
ghost use Rattle.ouch_codec.specs.Outbound.{reply_wire, reply_layout};

use crate::inbound::OrderType;
use crate::layouts::{ACCEPTED, CANCEL, CANCELED, ENTER, EXECUTED, REJECTED, SYSTEM};
use crate::outbound::ReplyType;
use wire_fields::one_message;

/// The offset and the width of each field, behind the letter of the type.
pub fn published_layouts()
    ensures enter { places ENTER 1 ≡ (1, 14) ∷ (15, 1) ∷ (16, 4) ∷ (20, 8) ∷ (28, 4) ∷ (32, 4) ∷ (36, 4) ∷ (40, 1) ∷ (41, 1) ∷ (42, 1)
        ∷ (43, 4) ∷ (47, 1) ∷ (48, 1) ∷ [] }
    ensures cancel { places CANCEL 1 ≡ (1, 14) ∷ (15, 4) ∷ [] }
    ensures system { places SYSTEM 1 ≡ (1, 8) ∷ (9, 1) ∷ [] }
    ensures accepted { places ACCEPTED 1 ≡ (1, 8) ∷ (9, 14) ∷ (23, 1) ∷ (24, 4) ∷ (28, 8) ∷ (36, 4) ∷ (40, 4) ∷ (44, 4) ∷ (48, 1)
        ∷ (49, 8) ∷ (57, 1) ∷ (58, 1) ∷ (59, 4) ∷ (63, 1) ∷ (64, 1) ∷ (65, 1) ∷ [] }
    ensures canceled { places CANCELED 1 ≡ (1, 8) ∷ (9, 14) ∷ (23, 4) ∷ (27, 1) ∷ [] }
    ensures executed { places EXECUTED 1 ≡ (1, 8) ∷ (9, 14) ∷ (23, 4) ∷ (27, 4) ∷ (31, 1) ∷ (32, 8) ∷ [] }
    ensures rejected { places REJECTED 1 ≡ (1, 8) ∷ (9, 14) ∷ (23, 1) ∷ [] }
{}

/// The letter of each type, of orders and of replies.
pub fn published_types()
    ensures enter { inbound_layout 79 ≡ Some ENTER }
    ensures cancel { inbound_layout 88 ≡ Some CANCEL }
    ensures system { reply_layout 83 ≡ Some SYSTEM }
    ensures accepted { reply_layout 65 ≡ Some ACCEPTED }
    ensures canceled { reply_layout 67 ≡ Some CANCELED }
    ensures executed { reply_layout 69 ≡ Some EXECUTED }
    ensures rejected { reply_layout 74 ≡ Some REJECTED }
    ensures no_order { inbound_layout 65 ≡ None }
    ensures no_reply { reply_layout 79 ≡ None }
{}

/// Each value has one spelling, and bytes spell one value.
pub fn one_spelling()
    ensures order_bytes { (a b : List ℕ) (m : Inbound) → IsSpelled a (inbound_wire m) → IsSpelled b (inbound_wire m) → a ≡ b }
    ensures order { (bytes : List ℕ) (a b : Inbound) → IsSpelled bytes (inbound_wire a) → IsSpelled bytes (inbound_wire b) → a ≡ b }
    ensures reply_bytes { (a b : List ℕ) (m : Reply) → IsSpelled a (reply_wire m) → IsSpelled b (reply_wire m) → a ≡ b }
    ensures reply { (bytes : List ℕ) (a b : Reply) → IsSpelled bytes (reply_wire a) → IsSpelled bytes (reply_wire b) → a ≡ b }
{
    one_message::<OrderType>();
    one_message::<ReplyType>();
}

/// An Enter Order of 999,999 shares at 10.00 dollars, byte by byte.
pub fn entered_order()
    ensures { spelling (inbound_wire (inbound.Enter (record {
      token = record { 0 = codes "T0001000000001" };
      side = side.Buy;
      shares = 999999;
      stock = record { 0 = codes "ABM     " };
      price = 100000;
      tif = 99999;
      firm = codes "ABID";
      display = 89;
      capacity = 80;
      sweep = 78;
      minimum = 0;
      cross = 78;
      customer = 78;
    })))
        ≡ codes "OT0001000000001B" ++ (0x00 ∷ 0x0f ∷ 0x42 ∷ 0x3f ∷ []) ++ codes "ABM     " ++ (0x00 ∷ 0x01 ∷ 0x86 ∷ 0xa0 ∷ [])
        ++ (0x00 ∷ 0x01 ∷ 0x86 ∷ 0x9f ∷ []) ++ codes "ABIDYPN" ++ (0 ∷ 0 ∷ 0 ∷ 0 ∷ []) ++ codes "NN" }
{}

/// Why bytes are no order: the first reason that applies.
#[tactic(auto, unfolding(wire_fields::specs::Wire::fault, wire_fields::specs::Kinds::is_good))]
pub fn refused_orders()
    ensures empty { refusal inbound_layout [] ≡ Some (WrongLength 0 1) }
    ensures unknown { refusal inbound_layout (codes "A") ≡ Some (UnknownType 65) }
    ensures short { refusal inbound_layout (codes "XT0001000000001") ≡ Some (WrongLength 15 19) }
    ensures long { refusal inbound_layout (codes "X              " ++ (0 ∷ 0 ∷ 0 ∷ 0 ∷ 0 ∷ [])) ≡ Some (WrongLength 20 19) }
    ensures blank_first { refusal inbound_layout (codes "X 0001000000001" ++ (0 ∷ 0 ∷ 0 ∷ 0 ∷ [])) ≡ Some (BadField 1) }
{}

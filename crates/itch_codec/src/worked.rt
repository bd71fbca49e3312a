//! Laws of the messages and frames, and their definitions on worked examples.

ghost use Rattle.std.specs.Prelude.{◌≡◌, ℕ, ◌≤◌, List, [], ◌∷◌, ◌++◌, length, codes, Ok, Err, Some, None};
ghost use Rattle.market_types.specs.declared.order.Side.TheVariants as side;
ghost use Rattle.market_types.specs.declared.feed.Feed.{Feed};
ghost use Rattle.market_types.specs.declared.feed.What.TheVariants as what;
ghost use Rattle.market_types.specs.declared.error.CodecError.TheVariants.{WrongLength, UnknownType, BadField, Cut};
ghost use Rattle.wire_fields.specs.Wire.{places, spelling, IsSpelled, refusal};
ghost use Rattle.itch_codec.specs.Messages.{feed_wire, feed_layout};
ghost use Rattle.itch_codec.specs.Frames.{framed, unframed};

use crate::layouts::{ADD, CANCEL, CROSS, DELETE, DIRECTORY, EXECUTED, SYSTEM, TRADE, TRADING};
use crate::reading::FeedType;
use wire_fields::one_message;

/// The offset and the width of each field, behind the letter of the type.
pub fn published_layouts()
    ensures system { places SYSTEM 1 ≡ (1, 2) ∷ (3, 2) ∷ (5, 6) ∷ (11, 1) ∷ [] }
    ensures directory { places DIRECTORY 1 ≡ (1, 2) ∷ (3, 2) ∷ (5, 6) ∷ (11, 8) ∷ (19, 1) ∷ (20, 1) ∷ (21, 4) ∷ (25, 1) ∷ (26, 1)
        ∷ (27, 2) ∷ (29, 1) ∷ (30, 1) ∷ (31, 1) ∷ (32, 1) ∷ (33, 1) ∷ (34, 4) ∷ (38, 1) ∷ [] }
    ensures trading { places TRADING 1 ≡ (1, 2) ∷ (3, 2) ∷ (5, 6) ∷ (11, 8) ∷ (19, 1) ∷ (20, 1) ∷ (21, 4) ∷ [] }
    ensures add { places ADD 1 ≡ (1, 2) ∷ (3, 2) ∷ (5, 6) ∷ (11, 8) ∷ (19, 1) ∷ (20, 4) ∷ (24, 8) ∷ (32, 4) ∷ [] }
    ensures executed { places EXECUTED 1 ≡ (1, 2) ∷ (3, 2) ∷ (5, 6) ∷ (11, 8) ∷ (19, 4) ∷ (23, 8) ∷ [] }
    ensures cancel { places CANCEL 1 ≡ (1, 2) ∷ (3, 2) ∷ (5, 6) ∷ (11, 8) ∷ (19, 4) ∷ [] }
    ensures delete { places DELETE 1 ≡ (1, 2) ∷ (3, 2) ∷ (5, 6) ∷ (11, 8) ∷ [] }
    ensures trade { places TRADE 1 ≡ (1, 2) ∷ (3, 2) ∷ (5, 6) ∷ (11, 8) ∷ (19, 1) ∷ (20, 4) ∷ (24, 8) ∷ (32, 4) ∷ (36, 8) ∷ [] }
    ensures cross { places CROSS 1 ≡ (1, 2) ∷ (3, 2) ∷ (5, 6) ∷ (11, 8) ∷ (19, 8) ∷ (27, 4) ∷ (31, 8) ∷ (39, 1) ∷ [] }
{}

/// The letter of each type.
pub fn published_types()
    ensures system { feed_layout 83 ≡ Some SYSTEM }
    ensures directory { feed_layout 82 ≡ Some DIRECTORY }
    ensures trading { feed_layout 72 ≡ Some TRADING }
    ensures add { feed_layout 65 ≡ Some ADD }
    ensures executed { feed_layout 69 ≡ Some EXECUTED }
    ensures cancel { feed_layout 88 ≡ Some CANCEL }
    ensures delete { feed_layout 68 ≡ Some DELETE }
    ensures trade { feed_layout 80 ≡ Some TRADE }
    ensures cross { feed_layout 81 ≡ Some CROSS }
    ensures unknown { feed_layout 70 ≡ None }
{}

/// Each value has one spelling, and bytes spell one value.
pub fn one_spelling()
    ensures bytes { (a b : List ℕ) (m : Feed) → IsSpelled a (feed_wire m) → IsSpelled b (feed_wire m) → a ≡ b }
    ensures message { (bytes : List ℕ) (a b : Feed) → IsSpelled bytes (feed_wire a) → IsSpelled bytes (feed_wire b) → a ≡ b }
{
    one_message::<FeedType>();
}

/// An order of 999,999 shares at 10.00 dollars is added, and the start of the messages, byte by byte.
pub fn added_order()
    ensures add { spelling (feed_wire (record { locate = 1; tracking = 0; time = 2000; what = what.Add 1 side.Buy 999999 (record { 0 = codes "ABM     " }) 100000 }))
        ≡ codes "A" ++ (0 ∷ 1 ∷ 0 ∷ 0 ∷ 0 ∷ 0 ∷ 0 ∷ 0 ∷ 0x07 ∷ 0xd0 ∷ 0 ∷ 0 ∷ 0 ∷ 0 ∷ 0 ∷ 0 ∷ 0 ∷ 1 ∷ []) ++ codes "B" ++ (0x00 ∷ 0x0f ∷ 0x42 ∷ 0x3f ∷ [])
        ++ codes "ABM     " ++ (0x00 ∷ 0x01 ∷ 0x86 ∷ 0xa0 ∷ []) }
    ensures start { spelling (feed_wire (record { locate = 0; tracking = 0; time = 1000; what = what.System 79 }))
        ≡ codes "S" ++ (0 ∷ 0 ∷ 0 ∷ 0 ∷ 0 ∷ 0 ∷ 0 ∷ 0 ∷ 0x03 ∷ 0xe8 ∷ []) ++ codes "O" }
{}

/// Why bytes are no feed message: the first reason that applies.
#[tactic(auto, unfolding(wire_fields::specs::Wire::fault, wire_fields::specs::Kinds::is_good))]
pub fn refused_feed()
    ensures empty { refusal feed_layout [] ≡ Some (WrongLength 0 1) }
    ensures unknown { refusal feed_layout (codes "Z") ≡ Some (UnknownType 90) }
    ensures short { refusal feed_layout (codes "S") ≡ Some (WrongLength 1 12) }
    ensures code { refusal feed_layout (codes "S" ++ (0 ∷ 0 ∷ 0 ∷ 0 ∷ 0 ∷ 0 ∷ 0 ∷ 0 ∷ 0 ∷ 0 ∷ 0 ∷ [])) ≡ Some (BadField 11) }
    ensures delete { refusal feed_layout (codes "D" ++ (0 ∷ 0 ∷ 0 ∷ 0 ∷ 0 ∷ 0 ∷ 0 ∷ 0 ∷ 0 ∷ 0 ∷ 0 ∷ 0 ∷ 0 ∷ 0 ∷ 0 ∷ 0 ∷ 0 ∷ 0 ∷ [])) ≡ None }
{}

/// Frames of a few bytes.
pub fn small_frames()
    ensures two { framed (7 ∷ 8 ∷ []) ≡ 0 ∷ 2 ∷ 7 ∷ 8 ∷ [] }
    ensures empty { unframed (0 ∷ 0 ∷ []) ≡ Ok ([], []) }
    ensures rest { unframed (0 ∷ 1 ∷ 7 ∷ 8 ∷ []) ≡ Ok (7 ∷ [], 8 ∷ []) }
    ensures cut { unframed (0x00 ∷ 0x03 ∷ 0x57 ∷ []) ≡ Err (Cut 3) }
    ensures no_length { unframed (0 ∷ []) ≡ Err (Cut 1) }
    ensures again { (payload rest : List ℕ) → length payload ≤ 65535 → unframed (framed payload ++ rest) ≡ Ok (payload, rest) }
{}

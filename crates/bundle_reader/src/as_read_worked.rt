//! What small bytes are read as.

ghost use Rattle.std.specs.Prelude.{◌≡◌, [], ◌∷◌, ◌++◌, ◌-◌, ◌^◌, codes, false, true, negsuc, pos, None, Some};
ghost use Rattle.market_types.specs.declared.feed.What.TheVariants as what;
ghost use Rattle.market_types.specs.declared.message.Body.TheVariants as body;
ghost use Rattle.market_types.specs.declared.order.Side.TheVariants.{Sell};
ghost use Rattle.bundle_reader.specs.declared.frame.Frame.TheVariants as frame;
ghost use Rattle.bundle_reader.specs.FramesRead.{body_behind, frame_in, joined, positions_in};
ghost use Rattle.bundle_reader.specs.Reading.{bad_frame, bad_order, cut, read, reading_of};

/// Bytes that are no bundle: none, half a length, fewer than a length says, an empty frame, an unknown letter, a
/// header of version 2, an end where the header must stand.
#[tactic(auto, unfolding(crate::specs::Reading::reading_of, crate::specs::FramesRead::frame_in, crate::specs::Messages::message_in, crate::specs::Order::taken, wire_fields::specs::Values::is_in_range, wire_fields::specs::Kinds::is_good))]
pub fn bytes_that_are_no_bundle()
    ensures empty { reading_of [] ≡ cut 0 }
    ensures half { reading_of (0 ∷ []) ≡ cut 1 }
    ensures short { reading_of (0 ∷ 3 ∷ codes "z") ≡ cut 3 }
    ensures nothing { reading_of (0 ∷ 0 ∷ []) ≡ bad_frame 0 }
    ensures unknown { reading_of (0 ∷ 1 ∷ codes "x") ≡ bad_frame 0 }
    ensures version { reading_of (0 ∷ 9 ∷ codes "h" ++ (0 ∷ 2 ∷ 0 ∷ 0 ∷ 0 ∷ 0 ∷ 0 ∷ 0 ∷ [])) ≡ bad_frame 0 }
    ensures place { reading_of (0 ∷ 3 ∷ codes "z" ++ (0 ∷ 0 ∷ [])) ≡ bad_order 0 }
{}

/// A header that says no branches, and the end: a bundle, if that is all.
#[tactic(auto, unfolding(crate::specs::Reading::reading_of, crate::specs::FramesRead::frame_in, crate::specs::Messages::message_in, crate::specs::Order::taken, wire_fields::specs::Values::is_in_range, wire_fields::specs::Kinds::is_good))]
pub fn the_smallest_bundle()
    ensures whole { reading_of (0 ∷ 9 ∷ codes "h" ++ (0 ∷ 1 ∷ 0 ∷ 2 ∷ 0 ∷ 1 ∷ 0 ∷ 0 ∷ 0 ∷ 3 ∷ codes "z" ++ (0 ∷ 0 ∷ []))) ≡ read (record { agents = 2; stocks = 1; branches = [] }) }
    ensures followed { reading_of (0 ∷ 9 ∷ codes "h" ++ (0 ∷ 1 ∷ 0 ∷ 2 ∷ 0 ∷ 1 ∷ 0 ∷ 0 ∷ 0 ∷ 3 ∷ codes "z" ++ (0 ∷ 0 ∷ 7 ∷ []))) ≡ bad_order 16 }
    ensures cut_short { reading_of (0 ∷ 9 ∷ codes "h" ++ (0 ∷ 1 ∷ 0 ∷ 2 ∷ 0 ∷ 1 ∷ 0 ∷ 0 ∷ 0 ∷ 3 ∷ codes "z" ++ (0 ∷ []))) ≡ cut 4 }
    ensures another_count { reading_of (0 ∷ 9 ∷ codes "h" ++ (0 ∷ 1 ∷ 0 ∷ 2 ∷ 0 ∷ 1 ∷ 0 ∷ 0 ∷ 0 ∷ 3 ∷ codes "z" ++ (0 ∷ 1 ∷ []))) ≡ bad_order 11 }
{}

/// Frames behind their lengths: an end, one with a byte more, a branch with a name of one byte and with none, and a
/// message of the feed.
#[tactic(auto, unfolding(crate::specs::FramesRead::frame_in, crate::specs::Messages::message_in, wire_fields::specs::Values::is_in_range, wire_fields::specs::Kinds::is_good))]
pub fn small_frames()
    ensures end { frame_in None (codes "z" ++ (0 ∷ 2 ∷ [])) ≡ Some (frame.End 2) }
    ensures longer { frame_in None (codes "z" ++ (0 ∷ 2 ∷ 0 ∷ [])) ≡ None }
    ensures branch { frame_in (Some 1) (codes "b" ++ (0 ∷ 0 ∷ 255 ∷ 255 ∷ 0 ∷ 0 ∷ 0 ∷ 5 ∷ 1 ∷ codes "x")) ≡ Some (frame.Branch (record { branch = 0; parent = 65535; stop = 5; name = codes "x" })) }
    ensures unnamed { frame_in (Some 1) (codes "b" ++ (0 ∷ 0 ∷ 255 ∷ 255 ∷ 0 ∷ 0 ∷ 0 ∷ 5 ∷ 0 ∷ [])) ≡ None }
    ensures message { frame_in (Some 1) (codes "S" ++ (0 ∷ 0 ∷ 0 ∷ 0 ∷ 0 ∷ 0 ∷ 0 ∷ 0 ∷ 0 ∷ 7 ∷ codes "O")) ≡ Some (frame.Message (record { locate = 0; tracking = 0; time = 7; what = what.System 79 })) }
{}

/// A live order of 100 shares to sell, of which 60 are open at ten dollars: shown with the letter `l`, hidden with `n`. Its
/// side is `B` or `S`.
#[tactic(auto, unfolding(crate::specs::FramesRead::frame_in, crate::specs::Messages::message_in, wire_fields::specs::Values::is_in_range, wire_fields::specs::Kinds::is_good))]
pub fn live_orders()
    ensures shown { frame_in (Some 1) (codes "l" ++ (0 ∷ 0 ∷ 0 ∷ 0 ∷ 0 ∷ 0 ∷ 0 ∷ 9 ∷ 0 ∷ 1 ∷ codes "AAAAAAAAAAAAAA" ++ codes "S" ++ (0 ∷ 0 ∷ 0 ∷ 100 ∷ 0 ∷ 0 ∷ 0 ∷ 60 ∷ 0 ∷ 0 ∷ 0 ∷ 1 ∷ 134 ∷ 160 ∷ 0 ∷ 0 ∷ 0 ∷ 5 ∷ []))) ≡ Some (frame.Order (record { reference = 9; agent = 1; token = record { 0 = codes "AAAAAAAAAAAAAA" }; side = Sell; intended = 100; left = 60; stock = 0; price = 100000; tif = 5; shown = true })) }
    ensures hidden { frame_in (Some 1) (codes "n" ++ (0 ∷ 0 ∷ 0 ∷ 0 ∷ 0 ∷ 0 ∷ 0 ∷ 9 ∷ 0 ∷ 1 ∷ codes "AAAAAAAAAAAAAA" ++ codes "S" ++ (0 ∷ 0 ∷ 0 ∷ 100 ∷ 0 ∷ 0 ∷ 0 ∷ 60 ∷ 0 ∷ 0 ∷ 0 ∷ 1 ∷ 134 ∷ 160 ∷ 0 ∷ 0 ∷ 0 ∷ 5 ∷ []))) ≡ Some (frame.Order (record { reference = 9; agent = 1; token = record { 0 = codes "AAAAAAAAAAAAAA" }; side = Sell; intended = 100; left = 60; stock = 0; price = 100000; tif = 5; shown = false })) }
    ensures no_side { frame_in (Some 1) (codes "n" ++ (0 ∷ 0 ∷ 0 ∷ 0 ∷ 0 ∷ 0 ∷ 0 ∷ 9 ∷ 0 ∷ 1 ∷ codes "AAAAAAAAAAAAAA" ++ codes "X" ++ (0 ∷ 0 ∷ 0 ∷ 100 ∷ 0 ∷ 0 ∷ 0 ∷ 60 ∷ 0 ∷ 0 ∷ 0 ∷ 1 ∷ 134 ∷ 160 ∷ 0 ∷ 0 ∷ 0 ∷ 5 ∷ []))) ≡ None }
{}

/// Bodies behind their letters, and numbers in two's complement.
#[tactic(auto, unfolding(crate::specs::FramesRead::frame_in, crate::specs::Messages::message_in, wire_fields::specs::Values::is_in_range, wire_fields::specs::Kinds::is_good))]
pub fn bodies_and_numbers()
    ensures wakeup { body_behind 119 [] ≡ Some body.Wake }
    ensures longer { body_behind 119 (0 ∷ []) ≡ None }
    ensures question { body_behind 97 (0 ∷ 3 ∷ []) ≡ Some (body.Ask 3) }
    ensures unknown { body_behind 98 [] ≡ None }
    ensures positions { positions_in 2 (255 ∷ 255 ∷ 255 ∷ 255 ∷ 255 ∷ 255 ∷ 255 ∷ 254 ∷ 0 ∷ 0 ∷ 0 ∷ 0 ∷ 0 ∷ 0 ∷ 1 ∷ 0 ∷ []) ≡ negsuc 1 ∷ pos 256 ∷ [] }
    ensures halves { joined (2 ^ 64 - 1) (2 ^ 64 - 5) ≡ negsuc 4 }
{}

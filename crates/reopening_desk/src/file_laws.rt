//! What the orders of a file are.

ghost use Rattle.std.specs.Prelude.{◌≡◌, ◌≤◌, ◌++◌, ℕ, List, All, Ok, Err, length, map};
ghost use Rattle.reopen_cross.specs.declared.cross.Interest.{Interest};
ghost use Rattle.reopen_cross.specs.Orderly.{AreInterests};
ghost use Rattle.reopening_desk.specs.Filed.{AreFiled, numbered_after};
ghost use Rattle.reopening_desk.specs.Orders.{orders_of};
ghost use Rattle.study_market.specs.Records.{records_of};
ghost use Rattle.reopening_desk.specs.Told.{AreSaidBy, IsFirstFaulty};

/// What a file says is at most 16,384 orders in their ranges, numbered 1, 2, 3 and so on.
pub fn a_file_says_orders()
    ensures { (traders : ℕ) (text : List ℕ) (orders : List Interest) → orders_of traders text ≡ Ok orders → AreFiled orders }
{}

/// The first record of a file that is taken is the header, and each behind it says an order. What is told of a file
/// that is refused is the number of the first record that breaks a rule; 0 where there is no record.
pub fn the_first_faulty_record_is_told()
    ensures taken { (traders : ℕ) (text : List ℕ) (orders : List Interest) → orders_of traders text ≡ Ok orders → AreSaidBy traders (records_of text) orders }
    ensures refused { (traders : ℕ) (text : List ℕ) (n : ℕ) → orders_of traders text ≡ Err n → IsFirstFaulty traders (records_of text) n }
{}

/// A file's orders come behind those of a book, under the references after the book's last.
pub fn a_file_joins_a_book()
    ensures { (book orders : List Interest) (last : ℕ) → AreInterests book → length book ≤ 16384 →
        All (λ (o : Interest). o.reference ≤ last) book → AreFiled orders →
        AreInterests (book ++ map (numbered_after last) orders) }
{}

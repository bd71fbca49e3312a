//! A file's orders behind those of a book.

ghost use Rattle.std.specs.Prelude.{◌≡◌, ◌≤◌, ◌<◌, ◌^◌, ◌++◌, All, OnOk, length, map};
ghost use Rattle.reopen_cross.specs.declared.cross.Interest.{Interest};
ghost use Rattle.reopen_cross.specs.Orderly.{AreInterests};
ghost use Rattle.reopening_desk.specs.Filed.{AreFiled, numbered_after};

use market_types::Memory;
use reopen_cross::Interest;

/// Puts the orders of a file behind those of a book, of which this is the last reference or a greater number: under
/// the references after it. After want of memory some of them are there.
pub fn join(list: &mut Vec<Interest>, last: u64, orders: &[Interest]) -> Result<(), Memory>
    requires book { AreInterests list.old.items }
    requires few { length list.old.items ≤ 16384 }
    requires last { All (λ (o : Interest). o.reference ≤ last) list.old.items }
    requires small { last < 2 ^ 63 }
    requires orders { AreFiled orders.now }
    ensures joined { OnOk result (list.new.items ≡ list.old.items ++ map (numbered_after last) orders.now) }
    ensures interests { OnOk result (AreInterests list.new.items) }
{
    for order in orders {
        list.push(Interest {
            reference: last + order.reference,
            ..*order
        })?;
    }
    Ok(())
}

//! What is appended to the bytes of a bundle, one item or all of a list.

ghost use Rattle.std.specs.Prelude.{◌≡◌, ◌++◌, ℕ, List, OnOk, All};
ghost use Rattle.std.specs.List.{flat_map};

use market_types::Memory;

/// What stands in a bundle as bytes.
pub trait Written {
    /// Its bytes.
    ghost bytes: { Self → List ℕ };

    /// What has to hold of it to be written.
    ghost fits: { Self → Type 0 };

    /// Appends its bytes. What stands in `out` after want of memory is left open: who keeps `out` then makes the bytes
    /// in a vector of its own first.
    fn put(&self, out: &mut Vec<u8>) -> Result<(), Memory>
        requires { fits self.now }
        ensures { OnOk result (out.new.items ≡ out.old.items ++ bytes self.now) };
}

/// Appends the bytes of items in order. What stands in `out` after want of memory is left open, as in `put`.
pub fn put_all<W: Written>(out: &mut Vec<u8>, items: &[W]) -> Result<(), Memory>
    requires { All W.fits items.now }
    ensures { OnOk result (out.new.items ≡ out.old.items ++ flat_map W.bytes items.now) }
{
    for item in items {
        item.put(out)?;
    }
    Ok(())
}

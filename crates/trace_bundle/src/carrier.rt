//! How the parts of a bundle come to where they go.

ghost use Rattle.std.specs.Prelude.{◌≤◌, ◌+◌, ◌++◌, [], ℕ, List, Result, Ok, Err};
ghost use Rattle.kernel_copy.specs.Kept.{IsWritable, KeptTold, kept_told};
ghost use Rattle.plain_lists.specs.declared.memory.Memory.{Memory as NoMemory};

use kernel_copy::Kept;
use plain_lists::Memory;

/// Carries the parts of a bundle to a `D`, one behind another.
pub trait Carrier<D> {
    /// Why a part did not come whole. Want of memory can be the reason of each.
    type Error: From<Memory>;

    /// These bytes came in at most so many parts, or why not all of them did: the `D` before, and after.
    ghost Carried: { D → D → List ℕ → ℕ → Result (Unit {0}) Self.Error → Type 0 };

    /// It takes what is kept of a segment's own entries as these bytes.
    ghost IsOwn: { Self → ℕ → KeptTold → List ℕ → Type 0 };

    /// Carries a small part: a header, what stands around the entries of a branch, an end.
    fn bytes(&self, to: &mut D, bytes: &[u8]) -> Result<(), Self::Error>
        ensures { Carried to.old to.new bytes.now 1 result };

    /// Carries what is kept of a segment's own entries, as bytes that it takes for it.
    fn segment(&self, to: &mut D, segment: u32, kept: &Kept) -> Result<(), Self::Error>
        requires writable { IsWritable (kept_told kept.now) }
        requires own { (bytes : List ℕ) × IsOwn self.now segment (kept_told kept.now) bytes }
        ensures { (bytes : List ℕ) → IsOwn self.now segment (kept_told kept.now) bytes → Carried to.old to.new bytes 1 result };

    /// No bytes are no part.
    ghost nothing: { (d : D) → Carried d d [] 0 (Ok tt) };

    /// Bytes come behind those that came whole.
    ghost behind: { (d e f : D) (a b : List ℕ) (m n most : ℕ) (r : Result (Unit {0}) Self.Error) →
        Carried d e a m (Ok tt) → Carried e f b n r → m + n ≤ most → Carried d f (a ++ b) most r };

    /// Where bytes did not come whole, none came behind them.
    ghost cut: { (d e : D) (a b : List ℕ) (m n : ℕ) (error : Self.Error) → Carried d e a m (Err error) → Carried d e (a ++ b) n (Err error) };

    /// Bytes for which there is no memory do not come.
    ghost memory: { (d : D) (a : List ℕ) (n : ℕ) (refused : NoMemory) (error : Self.Error) → Self.Error.from_gives refused error → Carried d d a n (Err error) };
}

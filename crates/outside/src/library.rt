//! Where files come from.

ghost use Rattle.std.specs.Prelude.{◌≡◌, ◌≤◌, ℕ, List, Option, IfOk, IfSome, IsErrOf};
ghost use Rattle.outside.specs.Rose.{Rose};
ghost use Rattle.outside.specs.Files.{held, content, AtMost};
ghost use Rattle.outside.specs.Fetched.{content_of};

use crate::{FetchError, Fetched};
use std::alloc::Global;

/// Files under names, which no call changes.
pub trait Library {
    /// The files as pairs of a name and its bytes, where the library tells them.
    ghost files: { Self → Option (List (List ℕ × List ℕ)) };

    /// How many fetches failed, as the library counts them.
    ghost faults: { Self → ℕ };

    /// Fetches the bytes under a name, unless they are more than `most`.
    ///
    /// # Errors
    /// `Failed` where a read failed: the count of faults then rose. `Memory` for want of memory. The count
    /// stands still at every answer other than `Failed`.
    fn fetch(&mut self, alloc: Global, name: &str, most: u64) -> Result<Fetched, FetchError>
        ensures answer { IfSome (files self.old) (λ files.
            IfOk result (λ fetched. content_of fetched ≡ content (held files name.now) most)) }

        // This also holds where nothing is told.
        ensures within { IfOk result (λ fetched. AtMost most (content_of fetched)) }
        ensures same { files self.new ≡ files self.old }
        ensures failed { IsErrOf result FetchError.Failed → Rose (faults self.old) (faults self.new) }
        ensures steady { ¬ (IsErrOf result FetchError.Failed) → faults self.new ≡ faults self.old }
        ensures never_falls { faults self.old ≤ faults self.new };
}

//! What the writing of a branch takes.

ghost use Rattle.std.specs.Prelude.{◌≡◌, ◌<◌, ℕ};
ghost use Rattle.bundle_frames.specs.declared.closing.Closing.{Closing as ClosingData};
ghost use Rattle.kernel_copy.specs.Kept.{KeptTold, kept_told};

use bundle_frames::Closing;
use kernel_copy::Kept;

/// What a run of a course's segments gave, by the number of the segment.
pub trait RunOutcomes {
    /// How many segments it holds.
    ghost count: { Self → ℕ };

    /// What is kept of a segment's own entries.
    ghost kept_of: { Self → ℕ → KeptTold };

    /// The closing of a segment's end.
    ghost closing_of: { Self → ℕ → ClosingData };

    /// What is kept of a segment's own entries.
    fn kept(&self, segment: u32) -> &Kept
        requires { segment < count self.now }
        ensures { kept_told result.now ≡ kept_of self.now segment };

    /// The closing of a segment's end.
    fn closing(&self, segment: u32) -> &Closing
        requires { segment < count self.now }
        ensures { result.now ≡ closing_of self.now segment };
}

//! What the reader's relations say, as what bytes are read as.

ghost use Rattle.std.specs.Prelude.{◌≡◌, ◌<◌, ℕ, List, Option, Some, Result, IfErr, IfOk, slice_index_or};
ghost use Rattle.bundle_reader.specs.declared.frame.Frame.{Frame};
ghost use Rattle.bundle_reader.specs.declared.bundle.Bundle.{Bundle};
ghost use Rattle.bundle_reader.specs.declared.bundle.BundleError.{BundleError};
ghost use Rattle.bundle_reader.specs.Frames.{IsFrame};
ghost use Rattle.bundle_reader.specs.Told.{BundleTold, bundle_told};
ghost use Rattle.bundle_reader.specs.Bundle.{IsBundle, bundle_bytes};
ghost use Rattle.bundle_reader.specs.Reads.{Stops};
ghost use Rattle.bundle_reader.specs.FramesRead.{frame_in};
ghost use Rattle.bundle_reader.specs.Reading.{IsReadAs, IsRefusedAs, IsTold, read, reading_of};

/// The bytes of a bundle are read as it. Bytes at which reading stops are read as the reason. So what the reader answers
/// is, by its clauses, what the bytes are read as, unless memory ran out.
pub fn bytes_are_read_as_told()
    ensures bundle { (b : BundleTold) → (bytes : List ℕ) → IsBundle b → bytes ≡ bundle_bytes b → reading_of bytes ≡ read b }
    ensures stopped { (bytes : List ℕ) → (e : BundleError) → Stops bytes e → IsRefusedAs e (reading_of bytes) }
    ensures answered { (bytes : List ℕ) → (r : Result Bundle BundleError) → IfOk r (λ b. bytes ≡ bundle_bytes (bundle_told b)) → IfOk r (λ b. IsBundle (bundle_told b)) → IfErr r (Stops bytes) → IsReadAs r (reading_of bytes) }
{}

/// What is read of bytes is so by the reader's relations: the bytes are those of the bundle that is read, or reading
/// stops at them for the reason that is read.
pub fn what_is_read_is_told()
    ensures { (bytes : List ℕ) → ((i : ℕ) → slice_index_or bytes i 0 < 256) → IsTold bytes (reading_of bytes) }
{}

/// What bytes behind a length are as a frame, in a bundle of so many stocks: one exactly where they are written of
/// a frame whose fields are in their ranges.
pub fn frames_are_found()
    ensures frame { (stocks : Option ℕ) → (bytes : List ℕ) → (f : Frame) → IsFrame stocks bytes f → frame_in stocks bytes ≡ Some f }
    ensures written { (stocks : Option ℕ) → (bytes : List ℕ) → (f : Frame) → frame_in stocks bytes ≡ Some f → IsFrame stocks bytes f }
{}

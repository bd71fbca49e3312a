//! Bytes read as a bundle.

ghost use Rattle.bundle_reader.specs.Reading.{IsReadAs, reading_of};

use crate::{Bundle, BundleError, read_bundle};
use std::alloc::Global;

/// The bundle that these bytes are, or why they are none: what `reading_of` gives of the bytes, unless memory ran
/// out.
///
/// # Errors
/// `Cut`, `BadFrame` and `BadOrder`, the first that applies in the order of the bytes, and `Memory`.
pub fn read(alloc: Global, bytes: &[u8]) -> Result<Bundle, BundleError>
    ensures answer { IsReadAs result (reading_of bytes.now) }
{
    read_bundle(alloc, bytes)
}

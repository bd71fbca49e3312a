//! Files that lie where the program runs.

use anyhow::{Result, bail};
use outside::{Fetched, FileLibrary, Library};
use std::alloc::Global;
use std::rt::Files;
use std::str::from_utf8;

// The most bytes of a file.
const MOST: u64 = 1_000_000;

/// The bytes of a file.
///
/// # Errors
/// Where there is no such file, where it is too long or cannot be read, and where memory is wanting.
pub fn bytes_of<R: Files>(rt: &R, alloc: Global, name: &str) -> Result<Vec<u8>> {
    match FileLibrary::new(rt).fetch(alloc, name, MOST) {
        Ok(Fetched::Whole(bytes)) => Ok(bytes),
        _ => bail!("{name} was not read"),
    }
}

/// The text of a file.
///
/// # Errors
/// As for its bytes, and where they are no text.
pub fn text_of<R: Files>(rt: &R, alloc: Global, name: &str) -> Result<String> {
    let bytes = bytes_of(rt, alloc, name)?;
    Ok(String::from_str(alloc, from_utf8(&bytes)?)?)
}

//! The system's files as a library. It tells no content: what a file holds, no clause knows.

ghost use Rattle.std.specs.Prelude.{◌≡◌, ◌≤◌, IfOk, IfSome, Some, length};
ghost use Rattle.outside.specs.Files.{AtMost, content};
ghost use Rattle.outside.specs.Fetched.{content_of};

use crate::{FetchError, Fetched, Library};
use std::alloc::Global;
use std::fs;
use std::io::{ErrorKind, Read};
use std::marker::Model;
use std::rt::Files;

/// A library whose names are paths. Contracts see its count of faults.
#[derive(Drop)]
pub struct FileLibrary<'a, R: Files> {
    system: &'a R,
    faults: u64,
}

impl<'a, R: Files> Model for FileLibrary<'a, R> {
    ghost use Rattle.std.specs.Prelude.{ℕ};

    ghost Value = { ℕ };

    ghost view = { λ l. l.faults };
}

impl<'a, R: Files> FileLibrary<'a, R> {
    /// The files of this system, with no fault counted.
    pub fn new(system: &'a R) -> Self
        ensures { result ≡ 0 }
    {
        FileLibrary { system, faults: 0 }
    }
}

impl<R: Files> Library for FileLibrary<'_, R> {
    ghost use Rattle.std.specs.Prelude.{None};

    ghost files = { λ _. None };

    ghost faults = { λ library. library };

    fn fetch(&mut self, alloc: Global, name: &str, most: u64) -> Result<Fetched, FetchError> {
        let answer = open_and_read(self.system, alloc, name, most);
        if let Err(FetchError::Failed) = answer {
            self.faults = self.faults.saturating_add(1);
        }
        answer
    }
}

// Opens a path and reads it to its end. A path that is not found is `Absent`.
fn open_and_read<R: Files>(
    system: &R,
    alloc: Global,
    path: &str,
    most: u64,
) -> Result<Fetched, FetchError>
    ensures within { IfOk result (λ fetched. AtMost most (content_of fetched)) }
{
    match fs::open(system, path) {
        Ok(mut file) => read_whole(alloc, &mut file, most),
        Err(e) if e.kind() == ErrorKind::NotFound => Ok(Fetched::Absent),
        Err(_) => Err(FetchError::Failed),
    }
}

// Bytes that are asked for in one read.
const BLOCK: usize = 4096;

// Reads to the end. Each turn takes at least one byte, so the turns run out only at too many bytes. Of a reader that
// tells its bytes, the answer is exactly these.
fn read_whole<F: Read>(alloc: Global, file: &mut F, most: u64) -> Result<Fetched, FetchError>
    ensures answer { IfSome (F.remaining file.old) (λ bytes.
        IfOk result (λ fetched. content_of fetched ≡ content (Some bytes) most)) }
    ensures within { IfOk result (λ fetched. AtMost most (content_of fetched)) }
{
    let mut bytes = Vec::new(alloc);
    let mut block = [0; BLOCK];
    for _ in 0..=most {
        let count = match file.read(&mut block) {
            Ok(count) => count,
            Err(_) => return Err(FetchError::Failed),
        };
        if count == 0 {
            return Ok(Fetched::Whole(bytes));
        }
        if bytes.extend_from_slice(&block[..count]).is_err() {
            return Err(FetchError::Memory);
        }
        if bytes.len() as u64 > most {
            return Ok(Fetched::TooLong);
        }
    }
    Ok(Fetched::TooLong)
}

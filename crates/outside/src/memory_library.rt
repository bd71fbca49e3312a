//! A library over files in memory, some of whose calls fail.

ghost use Rattle.std.specs.Prelude.{◌≡◌, Some, IfOk, IfErr};
ghost use Rattle.outside.specs.Files.{held, content, files_in, AtMost};
ghost use Rattle.outside.specs.Fetched.{content_of};
ghost use Rattle.outside.specs.Fakes.{is_listed as is_listed_in};

use crate::{FetchError, Fetched, Library, Memory};
use std::alloc::Global;
use std::marker::Model;

/// A library over files in memory.
#[derive(Drop)]
pub struct MemoryLibrary {
    held: Vec<(String, Vec<u8>)>,
    failing: Vec<u32>,
    calls: u64,
    faults: u64,
}

impl Model for MemoryLibrary {
    ghost use Rattle.outside.specs.Files.{files_in};
    ghost use Rattle.outside.specs.Fakes.{LibraryTold};

    ghost Value = { LibraryTold };

    ghost view = { λ l. record { files = files_in l.held.items; failing = l.failing.items; calls = l.calls; faults = l.faults } };
}

impl MemoryLibrary {
    ghost use Rattle.std.specs.Prelude.{◌≡◌, ◌≢◌, IfOk, IsOk, AllPairs, string_bytes};
    ghost use Rattle.outside.specs.Files.{files_in};

    /// A library of these files, as pairs of a name and its bytes, the names distinct. The calls whose numbers
    /// are in `failing` fail; the first call is number 1.
    ///
    /// # Errors
    /// None comes today: the files are kept as they were given.
    pub fn new(files: Vec<(String, Vec<u8>)>, failing: Vec<u32>) -> Result<MemoryLibrary, Memory>
        requires { AllPairs (λ a b. string_bytes a.0 ≢ string_bytes b.0) files.items }
        ensures made { IsOk result }
        ensures holds { IfOk result (λ library. library ≡
            record { files = files_in files.items; failing = failing.items; calls = 0; faults = 0 }) }
    {
        Ok(MemoryLibrary {
            held: files,
            failing,
            calls: 0,
            faults: 0,
        })
    }
}

impl Library for MemoryLibrary {
    ghost use Rattle.std.specs.Prelude.{◌≡◌, ◌≤◌, ◌↔◌, [], Some, IfOk, IfSome, IsErrOf, IsTrue};
    ghost use Rattle.outside.specs.Rose.{Rose, raised};
    ghost use Rattle.outside.specs.Files.{held, content, AtMost};
    ghost use Rattle.outside.specs.Fetched.{content_of};
    ghost use Rattle.outside.specs.Fakes.{is_listed};

    ghost files = { λ library. Some library.files };

    ghost faults = { λ library. library.faults };

    fn fetch(&mut self, alloc: Global, name: &str, most: u64) -> Result<Fetched, FetchError>
        ensures answer { IfOk result (λ fetched. content_of fetched ≡ content (held self.old.files name.now) most) }
        ensures within { IfOk result (λ fetched. AtMost most (content_of fetched)) }
        ensures same { self.new.files ≡ self.old.files }
        ensures failed { IsErrOf result FetchError.Failed → Rose self.old.faults self.new.faults }
        ensures steady { ¬ (IsErrOf result FetchError.Failed) → self.new.faults ≡ self.old.faults }
        ensures never_falls { self.old.faults ≤ self.new.faults }

        // The calls that are to fail do so, and no others.
        ensures fails { IsErrOf result FetchError.Failed ↔ IsTrue (is_listed self.old.failing (raised self.old.calls)) }
        ensures counted { IsErrOf result FetchError.Failed → self.new.faults ≡ raised self.old.faults }
        ensures counts { self.new.calls ≡ raised self.old.calls }
        ensures same_calls { self.new.failing ≡ self.old.failing }

        // With no call that is to fail, it never fails.
        ensures quiet { self.old.failing ≡ [] → ¬ (IsErrOf result FetchError.Failed) }
    {
        self.calls = self.calls.saturating_add(1);
        if is_listed(&self.failing, self.calls) {
            self.faults = self.faults.saturating_add(1);
            return Err(FetchError::Failed);
        }
        copy_of(alloc, &self.held, name, most)
    }
}

// The bytes under a name, copied where they are at most `most`.
fn copy_of(
    alloc: Global,
    files: &[(String, Vec<u8>)],
    name: &str,
    most: u64,
) -> Result<Fetched, FetchError>
    ensures answer { IfOk result (λ fetched. content_of fetched ≡ content (held (files_in files.now) name.now) most) }
    ensures within { IfOk result (λ fetched. AtMost most (content_of fetched)) }
    ensures memory { IfErr result (λ e. e ≡ FetchError.Memory) }
{
    for (file, bytes) in files {
        if file.as_str() == name {
            return copied(alloc, bytes, most);
        }
    }
    Ok(Fetched::Absent)
}

// These bytes, copied where they are at most `most`.
fn copied(alloc: Global, bytes: &[u8], most: u64) -> Result<Fetched, FetchError>
    ensures answer { IfOk result (λ fetched. content_of fetched ≡ content (Some bytes.now) most) }
    ensures within { IfOk result (λ fetched. AtMost most (content_of fetched)) }
    ensures memory { IfErr result (λ e. e ≡ FetchError.Memory) }
{
    if bytes.len() as u64 > most {
        return Ok(Fetched::TooLong);
    }
    match bytes.to_vec(alloc) {
        Ok(copy) => Ok(Fetched::Whole(copy)),
        Err(_) => Err(FetchError::Memory),
    }
}

/// Whether the call with this number is to fail.
pub(crate) fn is_listed(failing: &[u32], call: u64) -> bool
    ensures { result ≡ is_listed_in failing.now call }
{
    failing.iter().any(|number| u64::from(*number) == call)
}

//! From words and a library to a study or a bundle.

ghost use Rattle.std.specs.Prelude.{◌≡◌, ◌<◌, ◌≤◌, ◌∷◌, [], ℕ, List, Option, None, Some, IfOk, OnOk, option_map, string_bytes};
ghost use Rattle.toml.specs.Data.{Members};
ghost use Rattle.toml.specs.View.{table_view};
ghost use Rattle.outside.specs.Files.{content, held};
ghost use Rattle.study_file.specs.LargeStudy.{large_study};
ghost use Rattle.study_file.specs.Tables.{table_of};
ghost use Rattle.study_rules.specs.Accepted.{StudyTold, study_of, study_told};
ghost use Rattle.command_words.specs.Ranges.{IsRequest, IsTask};
ghost use Rattle.command_words.specs.declared.asked.Request.{Request as RequestTold};
ghost use Rattle.command_words.specs.declared.asked.Request.TheVariants.{Bundle, File, Large};
ghost use Rattle.abides_run.specs.Ahead.{Ahead, bundle_ahead, bytes_ahead, file_ahead, judged, large_ahead, named_ahead, request_ahead, settled, study_ahead, tabled};
ghost use Rattle.abides_run.specs.AllFound.{verdict_on_all};
ghost use Rattle.abides_run.specs.Fetched.{files_of, named as named_file, series_after};
ghost use Rattle.abides_run.specs.Ranges.{IsStride, places_in};
ghost use Rattle.abides_run.specs.Searched.{AreAsked, Fits, LibraryTold, Searched, Unasked};
ghost use Rattle.abides_run.specs.Verdict.{Files, large_limit, most_bundle_bytes, most_bytes, series_of};
ghost use Rattle.abides_run.specs.Words.{IsLarge, asked_of, further_of, texts, workers_of};

use crate::ending::{Ending, nameless};
use crate::found::{Found, FoundStudy, Simulation};
use crate::status::Status;
use command_words::{Request, Task, ask};
use outside::{FetchError, Fetched, Library};
use plain_lists::Memory;
use std::alloc::Global;
use study_file::{RawStudy, StudyError, read_tables, series_name, study_text};
use study_rules::{AcceptError, Study, accept};

// Each file but a bundle may have so many bytes.
const MOST_BYTES: u64 = 16_777_216;

// A bundle may have so many.
const MOST_BUNDLE_BYTES: u64 = 1_073_741_824;

// Each branch of the large study has at most so many events.
const LARGE_LIMIT: u32 = 20_000;

// Nothing that is asked for but a rewind, a cross and a session goes on from a state on the way.
const NO_PLACES: u32 = 0;

// The bytes that the library holds under a name, of which there may be so many. There is memory for the name before the library is
// asked, so that a failed read is told as one.
fn fetch_file<L: Library>(
    alloc: Global,
    name: &str,
    most: u64,
    library: &mut L,
) -> Result<Vec<u8>, Ending>
    ensures { (next : Files → List ℕ → Ahead) → AreAsked (List ℕ) next → Searched
        (λ files. file_ahead name.now (next files) (content (held files name.now) most))
        (λ files bytes. next files bytes.items)
        (name.now ∷ [])
        (record { files = L.files library.old; faults = L.faults library.old })
        (record { files = L.files library.new; faults = L.faults library.new })
        result }
{
    let Ok(told) = String::from_str(alloc, name) else {
        return Err(nameless(alloc, Status::Memory));
    };
    match library.fetch(alloc, name, most) {
        Ok(Fetched::Whole(bytes)) => {
            drop(told);
            Ok(bytes)
        }
        Ok(Fetched::Absent) => Err(Ending {
            status: Status::NoStudy,
            name: told,
        }),
        Ok(Fetched::TooLong) => Err(Ending {
            status: Status::TooLong,
            name: told,
        }),
        Err(FetchError::Failed) => Err(Ending {
            status: Status::ReadFault,
            name: told,
        }),
        Err(FetchError::Memory) => {
            drop(told);
            Err(nameless(alloc, Status::Memory))
        }
    }
}

// The bytes of a file besides the study's, where there is a name.
fn fetch_named<L: Library>(
    alloc: Global,
    name: Option<&str>,
    library: &mut L,
) -> Result<Option<Vec<u8>>, Ending>
    ensures { (next : Files → Option (List ℕ) → Ahead) → AreAsked (Option (List ℕ)) next → Searched
        (λ files. named_ahead files (next files) (option_map (λ name. name.now) name.entry))
        (λ files found. next files (option_map (λ bytes. bytes.items) found))
        (named_file (option_map (λ name. name.now) name.entry))
        (record { files = L.files library.old; faults = L.faults library.old })
        (record { files = L.files library.new; faults = L.faults library.new })
        result }
{
    let Some(name) = name else {
        return Ok(None);
    };
    match fetch_file(alloc, name, MOST_BYTES, library) {
        Ok(bytes) => Ok(Some(bytes)),
        Err(ending) => Err(ending),
    }
}

// The table that a study's bytes say, which break rule 0 where they say none.
fn tables(alloc: Global, bytes: &[u8]) -> Result<RawStudy, Ending>
    ensures table { IfOk result (λ raw. table_of bytes.now ≡ Some (table_view raw.table)) }
    ensures searched { (next : Files → Members → Ahead) (library : LibraryTold) → Searched
        (λ files. tabled (next files) (table_of bytes.now))
        (λ files raw. next files (table_view raw.table))
        [] library library result }
{
    match read_tables(alloc, bytes) {
        Ok(raw) => Ok(raw),
        Err(StudyError::NotToml) => { Err(nameless(alloc, Status::Refused { rule: 0, place: 0 })) }
        Err(StudyError::Memory) => Err(nameless(alloc, Status::Memory)),
    }
}

// The study that a table says, with the bytes of its series file where it names one.
fn accept_study(alloc: Global, raw: &RawStudy, series: Option<&[u8]>) -> Result<Study, Ending>
    ensures stride { IfOk result (λ s. IsStride s.stride) }
    ensures searched { (next : Files → StudyTold → Ahead) (library : LibraryTold) → Searched
        (λ files. judged (next files)
        (study_of (table_view raw.now.table) (option_map (λ text. text.now) series.entry)))
        (λ files s. next files (study_told s))
        [] library library result }
{
    match accept(alloc, raw, series) {
        Ok(study) => Ok(study),
        Err(AcceptError::Refused(refusal)) => Err(nameless(
            alloc,
            Status::Refused {
                rule: refusal.rule,
                place: refusal.place,
            },
        )),
        Err(AcceptError::Memory) => Err(nameless(alloc, Status::Memory)),
    }
}

// The study that bytes say, with its series file from the library where they name one.
fn read_study<L: Library>(alloc: Global, bytes: &[u8], library: &mut L) -> Result<Study, Ending>
    ensures stride { IfOk result (λ s. IsStride s.stride) }
    ensures searched { (next : Files → StudyTold → Ahead) → AreAsked StudyTold next → Searched
        (λ files. bytes_ahead files (next files) bytes.now)
        (λ files s. next files (study_told s))
        (series_after (table_of bytes.now))
        (record { files = L.files library.old; faults = L.faults library.old })
        (record { files = L.files library.new; faults = L.faults library.new })
        result }
{
    let raw = match tables(alloc, bytes) {
        Ok(raw) => raw,
        Err(ending) => return Err(ending),
    };
    let series = match fetch_named(alloc, series_name(&raw), library) {
        Ok(series) => series,
        Err(ending) => {
            drop(raw);
            return Err(ending);
        }
    };
    let study = accept_study(alloc, &raw, series.as_deref());
    drop(series);
    drop(raw);
    study
}

// The name of the file that a task names besides the study's.
fn further_name<'b>(task: &'b Task<'_>) -> Option<&'b str>
    ensures { option_map (λ name. name.now) result ≡ further_of task.now }
{
    match task {
        Task::Run | Task::Check | Task::Table | Task::Rewind(..) => None,
        Task::Cross(crossing, _) => Some(crossing.file.as_str()),
        Task::Session(script, _) => Some(script.as_str()),
    }
}

// How many grid places keep states for a task.
fn places_of(task: &Task<'_>) -> u32
    ensures { result ≡ places_in task.now }
{
    match task {
        Task::Run | Task::Check | Task::Table => NO_PLACES,
        Task::Rewind(_, places) | Task::Cross(_, places) | Task::Session(_, places) => *places,
    }
}

// The study that a file says, what is to be done with it and the file that it is done with, or how the search ends without one.
fn find_file<'a, L: Library>(
    alloc: Global,
    task: Task<'a>,
    workers: u32,
    name: &str,
    library: &mut L,
) -> Result<Found<'a>, Ending>
    requires task { IsTask task }
    requires workers { (0 < workers) × (workers ≤ 64) }
    ensures fits { IfOk result (Fits (Some (File task.entry name.now)) (Some workers)) }
    ensures searched { (bytes : List ℕ) × Searched
        (λ files. study_ahead files task.entry name.now (content (held files name.now) most_bytes))
        (λ files found. settled (verdict_on_all found))
        (files_of (Some (File task.entry name.now)) bytes)
        (record { files = L.files library.old; faults = L.faults library.old })
        (record { files = L.files library.new; faults = L.faults library.new })
        result }
{
    let bytes = match fetch_file(alloc, name, MOST_BYTES, library) {
        Ok(bytes) => bytes,
        Err(ending) => {
            drop(task);
            return Err(ending);
        }
    };
    let study = match read_study(alloc, &bytes, library) {
        Ok(study) => study,
        Err(ending) => {
            drop(bytes);
            drop(task);
            return Err(ending);
        }
    };
    drop(bytes);
    let further = match fetch_named(alloc, further_name(&task), library) {
        Ok(further) => further,
        Err(ending) => {
            drop(study);
            drop(task);
            return Err(ending);
        }
    };
    let places = places_of(&task);
    let simulation = Simulation {
        study,
        places,
        workers,
    };
    Ok(Found::Study(FoundStudy {
        task,
        simulation,
        further,
    }))
}

// The large study of a number, or how the search ends without one. No file is fetched.
fn find_large<'a>(alloc: Global, number: u32, workers: u32) -> Result<Found<'a>, Ending>
    requires workers { (0 < workers) × (workers ≤ 64) }
    ensures fits { IfOk result (Fits (Some (Large number)) (Some workers)) }
    ensures searched { (library : LibraryTold) → Searched
        (λ files. large_ahead (large_study number large_limit))
        (λ files found. settled (verdict_on_all found))
        [] library library result }
{
    let text = match study_text(alloc, number, LARGE_LIMIT) {
        Ok(text) => text,
        Err(Memory) => return Err(nameless(alloc, Status::Memory)),
    };
    let bytes = text.as_bytes();
    let count = bytes.len();
    let raw = match tables(alloc, bytes) {
        Ok(raw) => raw,
        Err(ending) => {
            drop(text);
            return Err(ending);
        }
    };
    let study = match accept_study(alloc, &raw, None) {
        Ok(study) => study,
        Err(ending) => {
            drop(raw);
            drop(text);
            return Err(ending);
        }
    };
    drop(raw);
    drop(text);
    let simulation = Simulation {
        study,
        places: NO_PLACES,
        workers,
    };
    Ok(Found::Large {
        simulation,
        bytes: count,
    })
}

// The bytes of a bundle's file, or how the search ends without them.
fn find_bundle<'a, L: Library>(
    alloc: Global,
    name: &str,
    library: &mut L,
) -> Result<Found<'a>, Ending>
    ensures fits { (workers : Option ℕ) → IfOk result (Fits (Some (Bundle name.now)) workers) }
    ensures searched { Searched
        (λ files. bundle_ahead name.now (content (held files name.now) most_bundle_bytes))
        (λ files found. settled (verdict_on_all found))
        (name.now ∷ [])
        (record { files = L.files library.old; faults = L.faults library.old })
        (record { files = L.files library.new; faults = L.faults library.new })
        result }
{
    match fetch_file(alloc, name, MOST_BUNDLE_BYTES, library) {
        Ok(bytes) => Ok(Found::Bundle(bytes)),
        Err(ending) => Err(ending),
    }
}

// The study that is asked for, what is to be done with it and by how many workers, or the bytes of the bundle; or how the search
// ends without them.
fn find_request<'a, L: Library>(
    alloc: Global,
    request: Request<'a>,
    workers: u32,
    library: &mut L,
) -> Result<Found<'a>, Ending>
    requires request { IsRequest request }
    requires workers { (0 < workers) × (workers ≤ 64) }
    ensures fits { IfOk result (Fits (Some request.entry) (Some workers)) }
    ensures searched { (bytes : List ℕ) × Searched
        (λ files. request_ahead files request.entry)
        (λ files found. settled (verdict_on_all found))
        (files_of (Some request.entry) bytes)
        (record { files = L.files library.old; faults = L.faults library.old })
        (record { files = L.files library.new; faults = L.faults library.new })
        result }
    ensures unread { IsLarge (Some request.entry) → L.faults library.new ≡ L.faults library.old }
{
    match request {
        Request::File(task, study) => find_file(alloc, task, workers, study.as_str(), library),
        Request::Large(number) => find_large(alloc, number, workers),
        Request::Bundle(name) => find_bundle(alloc, name.as_str(), library),
    }
}

/// The study that the words ask for, what is to be done with it and by how many workers, or the bytes of the bundle; or how the
/// search ends without them. Faulty words ask for nothing, and end it before the library is asked.
pub fn find_asked<'a, L: Library>(
    alloc: Global,
    words: &'a [String],
    library: &mut L,
) -> Result<Found<'a>, Ending>
    ensures fits { let line = texts words.entry.now in
        IfOk result (Fits (asked_of line) (workers_of line)) }
    ensures searched { (request : RequestTold) → asked_of (texts words.entry.now) ≡ Some request →
        (bytes : List ℕ) × Searched
        (λ files. request_ahead files request)
        (λ files found. settled (verdict_on_all found))
        (files_of (Some request) bytes)
        (record { files = L.files library.old; faults = L.faults library.old })
        (record { files = L.files library.new; faults = L.faults library.new })
        result }
    ensures faulty { asked_of (texts words.entry.now) ≡ None → Unasked
        (record { files = L.files library.old; faults = L.faults library.old })
        (record { files = L.files library.new; faults = L.faults library.new })
        result }
    ensures unread { IsLarge (asked_of (texts words.entry.now)) →
        L.faults library.new ≡ L.faults library.old }
{
    match ask(alloc, words) {
        Ok(Some(asked)) => find_request(alloc, asked.request, asked.workers, library),
        Ok(None) => Err(nameless(alloc, Status::Usage)),
        Err(Memory) => Err(nameless(alloc, Status::Memory)),
    }
}

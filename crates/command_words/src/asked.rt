//! What the words ask for.

ghost use Rattle.std.specs.Prelude.{◌≡◌, [], IfOk, IfSome, map, slice_index_or, string_bytes};
ghost use Rattle.command_words.specs.Line.{parts_seen};
ghost use Rattle.command_words.specs.Asked.{alone, rewind_of, big_of, cross_of, session_of, request_of, asked_in, asked_of};
ghost use Rattle.command_words.specs.Ranges.{IsInRange};

use crate::line::{Line, read_line};
use crate::mark::{Mark, read_mark, read_marks};
use crate::number::{read_count, read_number};
use crate::text::Text;
use plain_lists::{Memory, Sequence};
use std::alloc::Global;

/// Which stock would reopen, at which state, and with whose orders.
#[derive(Drop)]
pub struct Crossing<'a> {
    /// The branch and the event of the state.
    pub mark: Mark<'a>,
    /// The stock's symbol as it was given, which may be empty.
    pub symbol: Text<'a>,
    /// The name of the file of orders, which is not empty.
    pub file: Text<'a>,
}

/// What is to be done with a study. While it is simulated for a state on the way, so many grid places, 0 to 128, keep states.
#[derive(Drop)]
pub enum Task<'a> {
    /// `run STUDY`: its bundle is written.
    Run,
    /// `check STUDY`: its counts are written, and nothing is simulated.
    Check,
    /// `table STUDY`: the table that compares its branches is written.
    Table,
    /// `rewind STUDY B:E...`: the states at these marks are written, 1 to 64 of them in order. The number is that of the places.
    Rewind(Sequence<Mark<'a>>, u32),
    /// `cross STUDY B:E SYMBOL FILE`: what a stock's reopening would come to is written. The number is that of the places.
    Cross(Crossing<'a>, u32),
    /// `session STUDY SCRIPT`: the acts of a script are carried out over its tree of branches and their answers written. The
    /// script's file has this name, which is not empty. The number is that of the places.
    Session(Text<'a>, u32),
}

/// A study with what is to be done with it, or a bundle.
#[derive(Drop)]
pub enum Request<'a> {
    /// A task, and the name of the study's file, which is not empty.
    File(Task<'a>, Text<'a>),
    /// `big NUMBER`, of 1 to 4 digits: the lines that tell of the run of the large study of this number.
    Large(u32),
    /// `audit BUNDLE`: the audit of the bundle whose file has this name, which is not empty.
    Bundle(Text<'a>),
}

/// What a command line asks for.
#[derive(Drop)]
pub struct Asked<'a> {
    /// A study with what is to be done with it, or a bundle.
    pub request: Request<'a>,
    /// How many workers are to do it: 1 to 64.
    pub workers: u32,
}

// A request that takes no further words.
fn alone<'a>(request: Request<'a>, more: &[&'a str]) -> Option<Request<'a>>
    ensures { result ≡ alone request.entry (map (λ word. word.now) more.now) }
{
    if more.is_empty() { Some(request) } else { None }
}

// A rewind to each of 1 to 64 marks.
fn rewind<'a>(
    alloc: Global,
    study: &'a str,
    more: &[&'a str],
    places: u32,
) -> Result<Option<Request<'a>>, Memory>
    ensures { IfOk result (λ request. request ≡ rewind_of study.now (map (λ word. word.now) more.now) places) }
{
    if more.is_empty() || more.len() > 64 {
        return Ok(None);
    }
    match read_marks(alloc, more)? {
        Some(marks) => Ok(Some(Request::File(Task::Rewind(marks, places), Text::new(study)))),
        None => Ok(None),
    }
}

// A large study by its number.
fn big<'a>(study: &'a str, more: &[&'a str]) -> Option<Request<'a>>
    ensures { result ≡ big_of study.now (map (λ word. word.now) more.now) }
{
    let number = read_number(4, study)?;
    alone(Request::Large(number), more)
}

// A cross with a mark, a symbol and the name of a file.
fn cross<'a>(study: &'a str, more: &[&'a str], places: u32) -> Option<Request<'a>>
    ensures { result ≡ cross_of study.now (map (λ word. word.now) more.now) places }
{
    if more.len() != 3 || more[2].is_empty() {
        return None;
    }
    let crossing = Crossing {
        mark: read_mark(more[0])?,
        symbol: Text::new(more[1]),
        file: Text::new(more[2]),
    };
    Some(Request::File(Task::Cross(crossing, places), Text::new(study)))
}

// A session with the name of its script.
fn session<'a>(study: &'a str, more: &[&'a str], places: u32) -> Option<Request<'a>>
    ensures { result ≡ session_of study.now (map (λ word. word.now) more.now) places }
{
    if more.len() != 1 || more[0].is_empty() {
        return None;
    }
    let script = Text::new(more[0]);
    Some(Request::File(Task::Session(script, places), Text::new(study)))
}

// What the command of this name asks for.
fn request_named<'a>(
    alloc: Global,
    name: &'a str,
    study: &'a str,
    more: &[&'a str],
    places: u32,
) -> Result<Option<Request<'a>>, Memory>
    ensures { IfOk result (λ request. request ≡ request_of name.now study.now (map (λ word. word.now) more.now) places) }
{
    match name {
        "run" => Ok(alone(Request::File(Task::Run, Text::new(study)), more)),
        "table" => Ok(alone(Request::File(Task::Table, Text::new(study)), more)),
        "check" => Ok(alone(Request::File(Task::Check, Text::new(study)), more)),
        "rewind" => rewind(alloc, study, more, places),
        "big" => Ok(big(study, more)),
        "cross" => Ok(cross(study, more, places)),
        "audit" => Ok(alone(Request::Bundle(Text::new(study)), more)),
        "session" => Ok(session(study, more, places)),
        _ => Ok(None),
    }
}

// What a line asks for.
fn asked_in<'a>(alloc: Global, line: &Line<'a>) -> Result<Option<Asked<'a>>, Memory>
    ensures { IfOk result (λ asked. asked ≡ asked_in (parts_seen line.now)) }
{
    if line.study.is_empty() {
        return Ok(None);
    }
    let Some(workers) = read_count(1, 64, line.workers) else {
        return Ok(None);
    };
    let Some(places) = read_count(0, 128, line.places) else {
        return Ok(None);
    };
    let more = line.more.as_slice();
    match request_named(alloc, line.command, line.study, more, places)? {
        Some(request) => Ok(Some(Asked { request, workers })),
        None => Ok(None),
    }
}

/// What the words ask for, which are the command line without the program's name. `None` exactly where they are no
/// command line, or where a number, a study or a further word is not what the command takes. `Memory` may come at any
/// time, and is the only error.
pub fn ask<'a>(alloc: Global, words: &'a [String]) -> Result<Option<Asked<'a>>, Memory>
    ensures asked { IfOk result (λ asked. asked ≡ asked_of (map string_bytes words.entry.now)) }
    ensures in_range { IfOk result (λ asked. IfSome asked IsInRange) }
{
    match read_line(alloc, words)? {
        Some(line) => asked_in(alloc, &line),
        None => Ok(None),
    }
}

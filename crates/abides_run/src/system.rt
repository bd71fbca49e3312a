//! The program as the system runs it: words of the command line, files and streams in, an exit status out. It stands
//! apart from `main` so that a program of cases shows the same functions.

ghost use Rattle.std.specs.Prelude.{◌≡◌, ◌⊎◌, IfOk, IfErr, OnErr, drop};
ghost use Rattle.std.specs.Process.{exit_status};
ghost use Rattle.abides_run.specs.Code.{code_of};
ghost use Rattle.abides_run.specs.Words.{texts};
ghost use Rattle.abides_run.specs.Ended.{Ended, EndedAs, TellsFaulty};

use crate::{Status, run, write_note};
use command_words::words_behind_name;
use outside::{Counted, FileLibrary, OpenGate, Sink, Steps};
use probe_desk::{Fees, Probe, Range, SpreadSum, Volume};
use std::alloc::{AllocError, Global};
use std::env;
use std::io::ErrorKind;
use std::process::ExitCode;
use std::rt::{Env, Files};
use std::sync::Wait;
use std::thread::Threads;

/// Runs the command line over the system's files. What its command writes goes to `out`, the line for the status to `notes`, and
/// the number of the status is the exit status. It may wait.
pub fn run_command_line<R: Env + Files + AllocGlobal + Threads + Wait + Sync, O: Sink, N: Sink>(
    rt: &R,
    out: &mut O,
    notes: &mut N,
) -> ExitCode
    ensures { EndedAs (exit_status result)
        (record { faults = O.faults out.old; taken = O.taken out.old })
        (record { faults = O.faults out.new; taken = O.taken out.new })
        (record { faults = N.faults notes.old; taken = N.taken notes.old })
        (record { faults = N.faults notes.new; taken = N.taken notes.new }) }
{
    exit_code(run_line(rt, out, notes))
}

// The number of a status is its exit status.
fn exit_code(status: Status) -> ExitCode
    ensures { exit_status result ≡ code_of status }
{
    ExitCode::from(status.code())
}

// Runs the command line. Words that can't be had leave their line.
fn run_line<R: Env + Files + AllocGlobal + Threads + Wait + Sync, O: Sink, N: Sink>(
    rt: &R,
    out: &mut O,
    notes: &mut N,
) -> Status
    ensures { Ended result
        (record { faults = O.faults out.old; taken = O.taken out.old })
        (record { faults = O.faults out.new; taken = O.taken out.new })
        (record { faults = N.faults notes.old; taken = N.taken notes.old })
        (record { faults = N.faults notes.new; taken = N.taken notes.new }) }
{
    match given_words(rt) {
        Ok(given) => run_given(rt, given, out, notes),
        Err(status) => write_note(rt.alloc(), "", status, notes),
    }
}

// Runs what the system gave: the program's name, and the words behind it.
fn run_given<R: Files + AllocGlobal + Threads + Wait + Sync, O: Sink, N: Sink>(
    rt: &R,
    given: Vec<String>,
    out: &mut O,
    notes: &mut N,
) -> Status
    ensures ended { Ended result
        (record { faults = O.faults out.old; taken = O.taken out.old })
        (record { faults = O.faults out.new; taken = O.taken out.new })
        (record { faults = N.faults notes.old; taken = N.taken notes.old })
        (record { faults = N.faults notes.new; taken = N.taken notes.new }) }
    ensures asked { TellsFaulty (texts (drop 1 given.items)) result }
{
    let words = words_behind_name(given);
    run_words(rt, &words, out, notes)
}

/// Runs the words of a command line, without the program's name, over the system's files. A table has a column for each of the
/// program's probes. It may wait.
pub fn run_words<R: Files + AllocGlobal + Threads + Wait + Sync, O: Sink, N: Sink>(
    rt: &R,
    words: &[String],
    out: &mut O,
    notes: &mut N,
) -> Status
    ensures ended { Ended result
        (record { faults = O.faults out.old; taken = O.taken out.old })
        (record { faults = O.faults out.new; taken = O.taken out.new })
        (record { faults = N.faults notes.old; taken = N.taken notes.old })
        (record { faults = N.faults notes.new; taken = N.taken notes.new }) }
    ensures asked { TellsFaulty (texts words.now) result }
{
    match run_with_probes(rt, words, out, notes) {
        Ok(status) => status,
        Err(_) => write_note(rt.alloc(), "", Status::Memory, notes),
    }
}

// The program's probes, each in a box.
#[derive(Drop)]
struct Boxes {
    // The first column's.
    volume: Box<Volume>,
    // The second's.
    spread: Box<SpreadSum>,
    // The third's.
    range: Box<Range>,
    // The last's.
    fees: Box<Fees>,
}

// The probes in their boxes.
fn boxed_probes(alloc: Global) -> Result<Boxes, AllocError> {
    let volume = Box::new(alloc, Volume::new())?;
    let spread = Box::new(alloc, SpreadSum::new())?;
    let range = Box::new(alloc, Range::new())?;
    let fees = Box::new(alloc, Fees::new())?;
    Ok(Boxes {
        volume,
        spread,
        range,
        fees,
    })
}

// Makes the probes, in the order of their columns, and runs words with them. Nothing is done where there is no memory for
// the probes.
fn run_with_probes<R: Files + AllocGlobal + Threads + Wait + Sync, O: Sink, N: Sink>(
    rt: &R,
    words: &[String],
    out: &mut O,
    notes: &mut N,
) -> Result<Status, AllocError>
    ensures ended { IfOk result (λ status. Ended status
        (record { faults = O.faults out.old; taken = O.taken out.old })
        (record { faults = O.faults out.new; taken = O.taken out.new })
        (record { faults = N.faults notes.old; taken = N.taken notes.old })
        (record { faults = N.faults notes.new; taken = N.taken notes.new })) }
    ensures asked { IfOk result (TellsFaulty (texts words.now)) }
    ensures stand { OnErr result ((out.new ≡ out.old) × (notes.new ≡ notes.old)) }
{
    let alloc = rt.alloc();
    let boxes = boxed_probes(alloc)?;
    let all: [Box<dyn Probe>; 4] = [boxes.volume, boxes.spread, boxes.range, boxes.fees];
    let probes = Vec::from_array(alloc, all)?;
    Ok(run_with(rt, words, probes, out, notes))
}

// Runs words with these probes over the system's files.
fn run_with<R: Files + AllocGlobal + Threads + Wait + Sync, O: Sink, N: Sink>(
    rt: &R,
    words: &[String],
    probes: Vec<Box<dyn Probe>>,
    out: &mut O,
    notes: &mut N,
) -> Status
    ensures ended { Ended result
        (record { faults = O.faults out.old; taken = O.taken out.old })
        (record { faults = O.faults out.new; taken = O.taken out.new })
        (record { faults = N.faults notes.old; taken = N.taken notes.old })
        (record { faults = N.faults notes.new; taken = N.taken notes.new }) }
    ensures asked { TellsFaulty (texts words.now) result }
{
    let mut library = FileLibrary::new(rt);
    let mut steps: Steps<Counted> = Steps::new();
    let status = run(
        rt,
        rt.alloc(),
        words,
        &mut library,
        out,
        notes,
        probes,
        &OpenGate,
        &mut steps,
    );
    steps.close();
    status
}

// The program's name and the words behind it. Words that are no text are faulty words.
fn given_words<R: Env + AllocGlobal>(rt: &R) -> Result<Vec<String>, Status>
    ensures { IfErr result (λ status. (status ≡ Status.Usage) ⊎ (status ≡ Status.Memory)) }
{
    let given = match env::args(rt) {
        Ok(given) => given,
        Err(e) => {
            return if e.kind() == ErrorKind::OutOfMemory {
                Err(Status::Memory)
            } else {
                Err(Status::Usage)
            };
        }
    };
    let Ok(given) = given.collect(rt.alloc()) else {
        return Err(Status::Memory);
    };
    Ok(given)
}

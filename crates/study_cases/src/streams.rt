//! Three command lines over the system's own files and streams, each with what it writes.

use abides_run::{Status, run_command_line, run_words};
use outside::Sink;
use std::alloc::{AllocError, Global};
use std::rt::{Env, Files};
use std::sync::Wait;
use std::thread::Threads;

// Words of a command line.
fn words(alloc: Global, texts: &[&str]) -> Result<Vec<String>, AllocError> {
    let mut words = Vec::new(alloc);
    for text in texts {
        words.push(String::from_str(alloc, text)?)?;
    }
    Ok(words)
}

/// Runs the program's own command line, which has a word that is no text; a table, where each probe has its own column in the
/// order of their names; and a study that isn't there. What they write goes to `out`, their lines to `notes`. The answer is the
/// status of the last.
///
/// # Errors
/// Where memory is wanting for the words.
pub fn tell_streams<R: Env + Files + AllocGlobal + Threads + Wait + Sync, O: Sink, N: Sink>(
    rt: &R,
    alloc: Global,
    out: &mut O,
    notes: &mut N,
) -> Result<Status, AllocError> {
    let _ = run_command_line(rt, out, notes);
    let table = words(alloc, &["table", "fees.toml"])?;
    let _ = run_words(rt, &table, out, notes);
    let missing = words(alloc, &["run", "missing.toml"])?;
    Ok(run_words(rt, &missing, out, notes))
}

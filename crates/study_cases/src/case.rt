//! Cases as the lines of a file.
//!
//! A line has columns, with a tab between two: the name of the case; the words of the program with a space between two; the
//! files that are its study and its series file, which the program finds as `s` and `t`; the number of the read that fails,
//! or 0; and then three columns for each change of both files: a text that is taken out where it first stands, how often a
//! text stands there instead, and that text. In a changed text `\n` is the end of a line and `\r` a carriage return. A line
//! that begins with `#` is no case.

use crate::files::{bytes_of, text_of};
use crate::judge::{Given, tell};
use anyhow::{Result, bail};
use std::alloc::{AllocError, Global};
use std::rt::Files;
use std::str::from_utf8;
use std::sync::Wait;
use std::thread::Threads;

// A text as a column says it.
fn unfolded(alloc: Global, column: &str) -> Result<String, AllocError> {
    let text = column.replace(alloc, "\\n", "\n")?;
    text.replace(alloc, "\\r", "\r")
}

// A text with one change, as its three columns say it.
fn changed(alloc: Global, text: &str, change: &[&str]) -> Result<String> {
    let [old, times, new] = change else {
        bail!("a change has three columns");
    };
    let times: u32 = times.parse()?;
    let (old, new) = (unfolded(alloc, old)?, unfolded(alloc, new)?);
    let Some((before, after)) = text.split_once(old.as_str()) else {
        return Ok(String::from_str(alloc, text)?);
    };
    let mut made = String::from_str(alloc, before)?;
    for _ in 0..times {
        made.push_str(new.as_str())?;
    }
    made.push_str(after)?;
    Ok(made)
}

// The bytes of a file with these changes one after another. Only a text can be changed.
fn changed_bytes<R: Files>(rt: &R, alloc: Global, name: &str, changes: &[&str]) -> Result<Vec<u8>> {
    let mut bytes = bytes_of(rt, alloc, name)?;
    for change in changes.chunks(3) {
        let text = changed(alloc, from_utf8(&bytes)?, change)?;
        bytes = text.into_bytes();
    }
    Ok(bytes)
}

// Runs the case of a line, and prints how it ended.
fn tell_case<R: Files + Print + Threads + Wait + Sync>(
    rt: &R,
    alloc: Global,
    line: &str,
) -> Result<()> {
    let mut columns = Vec::new(alloc);
    for column in line.split('\t') {
        columns.push(column)?;
    }
    let [name, words, study, series, failing, changes @ ..] = columns.as_slice() else {
        bail!("{line}: a case has at least five columns");
    };
    let given = Given {
        study: changed_bytes(rt, alloc, study, changes)?,
        series: changed_bytes(rt, alloc, series, changes)?,
        failing: failing.parse()?,
    };
    tell(rt, alloc, name, words, given)
}

/// Runs the cases of a file in order, and prints how each ended, a line for each.
///
/// # Errors
/// Where the file or one that it names is not read, where a line is no case, and where memory is wanting.
pub fn tell_cases<R: Files + Print + Threads + Wait + Sync>(
    rt: &R,
    alloc: Global,
    name: &str,
) -> Result<()> {
    let cases = text_of(rt, alloc, name)?;
    for line in cases.lines() {
        if !line.starts_with('#') {
            tell_case(rt, alloc, line)?;
        }
    }
    Ok(())
}

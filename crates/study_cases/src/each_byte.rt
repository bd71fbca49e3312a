//! A study that is cut after each of its bytes, or has one bit of each byte turned.

use crate::files::bytes_of;
use crate::judge::{Given, tell};
use anyhow::{Result, bail};
use std::alloc::Global;
use std::rt::Files;
use std::sync::Wait;
use std::thread::Threads;

// Runs these bytes as a study that has no series file.
fn tell_bytes<R: Print + Threads + Wait + Sync>(
    rt: &R,
    alloc: Global,
    name: &str,
    study: Vec<u8>,
) -> Result<()> {
    let given = Given {
        study,
        series: Vec::new(alloc),
        failing: 0,
    };
    tell(rt, alloc, name, "run s", given)
}

/// Cuts a file before and after each of its bytes.
///
/// # Errors
/// Where the file is not read, where memory is wanting, or where printing fails.
pub fn tell_cuts<R: Files + Print + Threads + Wait + Sync>(
    rt: &R,
    alloc: Global,
    name: &str,
) -> Result<()> {
    let bytes = bytes_of(rt, alloc, name)?;
    for length in 0..=bytes.len() {
        let Some(cut) = bytes.get(..length) else {
            bail!("no such length");
        };
        let case = format!(in alloc; "cut {length}")?;
        tell_bytes(rt, alloc, case.as_str(), cut.to_vec(alloc)?)?;
    }
    Ok(())
}

/// Turns the lowest bit of each byte of a file.
///
/// # Errors
/// Where the file is not read, where memory is wanting, or where printing fails.
pub fn tell_turns<R: Files + Print + Threads + Wait + Sync>(
    rt: &R,
    alloc: Global,
    name: &str,
) -> Result<()> {
    let bytes = bytes_of(rt, alloc, name)?;
    for place in 0..bytes.len() {
        let mut turned = bytes.to_vec(alloc)?;
        if let Some(byte) = turned.get_mut(place) {
            *byte ^= 1;
        }
        let case = format!(in alloc; "turned {place}")?;
        tell_bytes(rt, alloc, case.as_str(), turned)?;
    }
    Ok(())
}

//! Runs the program over studies that stand in files, a case a line, and prints how each case ended; first of all at three
//! command lines over the system's own files and streams, with the status of whose last it ends.
#![tactic(auto)]

mod case;
mod each_byte;
mod files;
mod judge;
mod streams;

use anyhow::Result;
use case::tell_cases;
use each_byte::{tell_cuts, tell_turns};
use outside::OutSink;
use std::process::ExitCode;
use streams::tell_streams;

fn main(rt: HostRuntime) -> Result<ExitCode> {
    let alloc = rt.alloc();
    let mut out = OutSink::new(rt.stdout());
    let mut notes = OutSink::new(rt.stdout());
    let status = tell_streams(&rt, alloc, &mut out, &mut notes)?;
    tell_cases(&rt, alloc, "cases.tsv")?;
    tell_cases(&rt, alloc, "drawn.tsv")?;
    tell_cases(&rt, alloc, "times.tsv")?;
    tell_cuts(&rt, alloc, "small.toml")?;
    tell_turns(&rt, alloc, "small.toml")?;
    Ok(ExitCode::from(status.code()))
}

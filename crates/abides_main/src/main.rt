//! The program.
#![tactic(auto)]

use abides_run::{Status, run_command_line, write_note};
use outside::{ErrSink, OutSink};
use std::alloc::Global;
use std::process;
use std::process::ExitCode;

// Bytes of a page.
const PAGE: usize = 4_096;

// The stack that a run has from its start on, in pages: 1,280 kB, where the deepest run that was measured took 1,200 kB.
const STACK_PAGES: usize = 320;

// What the allocator is asked for before, in pages: 4 MB, more than it has in store at the start, so that the system gives it.
const ASKED_PAGES: usize = 1_024;

// Writes to a page and reads from it. The answer is always true, which no compiler sees: else it could leave the page out.
#[inline(never)]
fn is_written(page: &mut [u8; PAGE], seed: usize) -> bool {
    page[seed % PAGE] = 1;
    page[seed / 2 % PAGE] < 2
}

// Whether the system has as many addresses as a run's stack takes, and more. They are given back at once.
#[inline(never)]
fn has_addresses(alloc: Global, seed: usize) -> bool {
    let Ok(mut pages) = Vec::with_capacity(alloc, ASKED_PAGES) else {
        return false;
    };
    if pages.push([0; PAGE]).is_err() {
        return false;
    }
    is_written(&mut pages[0], seed)
}

// Uses the whole stack of a run once, so that the system gives it. It stays given.
#[inline(never)]
fn has_stack(seed: usize) -> bool {
    let mut pages = [[0; PAGE]; STACK_PAGES];
    is_written(&mut pages[seed % STACK_PAGES], seed)
}

// Has the system give a run's stack at the start. A stack that grew later, where a limit of address space was used up, would end
// the program by a signal. So the memory is asked for first, which can be refused.
fn takes_stack(alloc: Global, seed: usize) -> bool {
    has_addresses(alloc, seed) && has_stack(seed)
}

fn main(rt: HostRuntime) -> ExitCode {
    // Any number that no compiler knows.
    let seed = process::id(rt.process()) as usize;
    let mut notes = ErrSink::new(rt.stderr());
    if !takes_stack(rt.alloc(), seed) {
        let status = write_note(rt.alloc(), "", Status::Memory, &mut notes);
        return ExitCode::from(status.code());
    }
    let mut out = OutSink::new(rt.stdout());
    run_command_line(&rt, &mut out, &mut notes)
}

//! The line that a status leaves.

ghost use Rattle.std.specs.Prelude.{◌≡◌, ◌⊎◌, IfOk, IsOk, string_bytes};
ghost use Rattle.abides_run.specs.Headline.{Noted};
ghost use Rattle.abides_run.specs.Notes.{note};

use crate::status::Status;
use outside::{Sink, write_all};
use std::alloc::{AllocError, Global};

// The line as text.
fn note_text(alloc: Global, name: &str, status: Status) -> Result<String, AllocError>
    ensures text { IfOk result (λ text. string_bytes text ≡ note name.now status) }
    ensures silent { status ≡ Status.Ok → IsOk result }
{
    match status {
        Status::Ok => Ok(String::new(alloc)),
        Status::Usage => String::from_str(
            alloc,
            "usage: abides COMMAND STUDY [MORE...] [--workers N] [--places N]\n",
        ),
        Status::NoStudy => format!(in alloc; "no such file: {name}\n"),
        Status::TooLong => format!(in alloc; "file too long: {name}\n"),
        Status::Refused { rule, place } => {
            format!(in alloc; "study refused: rule {rule}, place {place}\n")
        }
        Status::ReadFault => format!(in alloc; "read failed: {name}\n"),
        Status::WriteFault => String::from_str(alloc, "write failed\n"),
        Status::NoBranch => format!(in alloc; "no branch: {name}\n"),
        Status::NoStock => format!(in alloc; "no stock: {name}\n"),
        Status::BadOrders { number } => { format!(in alloc; "orders refused: record {number}\n") }
        Status::BadBundle { reason, at } => format!(in alloc; "bad bundle: {reason} at {at}\n"),
        Status::AuditFailed { branch, reference } => {
            format!(in alloc; "audit failed: branch {branch}, reference {reference}\n")
        }
        Status::BadScript { act } => format!(in alloc; "script refused: act {act}\n"),
        Status::ActRefused { act } => format!(in alloc; "act refused: {act}\n"),
        Status::NoEvent => format!(in alloc; "no event: {name}\n"),
        Status::Memory => String::from_str(alloc, "out of memory\n"),
    }
}

/// Writes the line for a status, which speaks of this name. Where there is no memory for the line, that is the
/// status. A line that cannot be written is dropped.
pub fn write_note<N: Sink>(alloc: Global, name: &str, status: Status, notes: &mut N) -> Status
    ensures kept { (result ≡ status) ⊎ ((result ≡ Status.Memory) × ¬ (status ≡ Status.Ok)) }
    ensures noted { Noted name.now (N.faults notes.old) (N.faults notes.new) (N.taken notes.old) (N.taken notes.new) result }
{
    match note_text(alloc, name, status) {
        Ok(text) => {
            let _ = write_all(notes, text.as_bytes());
            status
        }
        Err(_) => {
            let _ = write_all(notes, b"out of memory\n");
            Status::Memory
        }
    }
}

//! The audit of a bundle: whether each branch's displayed books are those that its feed tells.

ghost use Rattle.std.specs.Prelude.{◌≡◌, ◌++◌, ◌∷◌, [], ℕ, IfOk, codes, string_bytes};
ghost use Rattle.std.specs.Fmt.{decimal};
ghost use Rattle.bundle_reader.specs.Told.{bundle_told};
ghost use Rattle.bundle_reader.specs.Reading.{IsReadAs, reading_of};
ghost use Rattle.abides_run.specs.Audits.{status_for};
ghost use Rattle.abides_run.specs.Output.{Probes, audit_line};
ghost use Rattle.abides_run.specs.Performed.{Finished, Performed};
ghost use Rattle.abides_run.specs.Verdict.{verdict_on_read};

use crate::ending::{Ending, nameless};
use crate::send::send;
use crate::status::Status;
use audit_desk::{audit, displayed_orders};
use bundle_reader::{Bundle, BundleError, read};
use outside::Sink;
use plain_lists::Memory;
use std::alloc::{AllocError, Global};

// The bundle that bytes are, which are let go.
fn read_whole(alloc: Global, bytes: Vec<u8>) -> Result<Bundle, BundleError>
    ensures { IsReadAs result (reading_of bytes.items) }
{
    read(alloc, &bytes)
}

// The status for bytes that are no bundle.
fn status_for(error: BundleError) -> Status
    ensures { result ≡ status_for error }
{
    match error {
        BundleError::Cut(left) => Status::BadBundle {
            reason: 1,
            at: left,
        },
        BundleError::BadFrame(at) => Status::BadBundle { reason: 2, at },
        BundleError::BadOrder(at) => Status::BadBundle { reason: 3, at },
        BundleError::Memory => Status::Memory,
    }
}

// The line with these counts.
fn counts_text(alloc: Global, branches: usize, orders: u128) -> Result<String, AllocError>
    ensures { IfOk result (λ text. string_bytes text ≡ codes "audit ok: branches " ++ decimal branches ++ codes ", orders " ++ decimal orders ++ 10 ∷ []) }
{
    format!(in alloc; "audit ok: branches {branches}, orders {orders}\n")
}

// The line of an audit that finds nothing.
fn line_of(alloc: Global, bundle: &Bundle) -> Result<String, AllocError>
    ensures { IfOk result (λ text. string_bytes text ≡ audit_line (bundle_told bundle.now)) }
{
    counts_text(alloc, bundle.branches.len(), displayed_orders(bundle))
}

// Writes that a bundle passes its audit.
fn send_passed<O: Sink>(alloc: Global, bundle: &Bundle, out: &mut O) -> Status
    ensures { (reads steps : ℕ) → Performed (audit_line (bundle_told bundle.now)) 0 0 0
        (record { reads = reads; writes = O.faults out.old; taken = O.taken out.old; steps = steps })
        (record { reads = reads; writes = O.faults out.new; taken = O.taken out.new; steps = steps })
        result }
{
    let text = match line_of(alloc, bundle) {
        Ok(text) => text,
        Err(_) => return Status::Memory,
    };
    match send(out, text.as_bytes()) {
        Ok(()) => Status::Ok,
        Err(status) => status,
    }
}

/// Audits the bundle that bytes are, and writes how many branches it has and how many displayed orders its closings tell, where
/// none of them fails. Bytes that are no bundle, and the first branch that fails, are told before the first byte is written.
pub fn audit_bundle<O: Sink>(alloc: Global, bytes: Vec<u8>, out: &mut O) -> Ending
    ensures { (reads steps : ℕ) (probes : Probes) → Finished (verdict_on_read (reading_of bytes.items)) probes []
        (record { reads = reads; writes = O.faults out.old; taken = O.taken out.old; steps = steps })
        (record { reads = reads; writes = O.faults out.new; taken = O.taken out.new; steps = steps })
        result.status (string_bytes result.name) }
{
    let bundle = match read_whole(alloc, bytes) {
        Ok(bundle) => bundle,
        Err(error) => return nameless(alloc, status_for(error)),
    };
    match audit(alloc, &bundle) {
        Ok(None) => {
            let status = send_passed(alloc, &bundle, out);
            drop(bundle);
            nameless(alloc, status)
        }
        Ok(Some(failing)) => {
            let (branch, reference) = (failing.branch, failing.reference);
            drop(bundle);
            nameless(alloc, Status::AuditFailed { branch, reference })
        }
        Err(Memory) => {
            drop(bundle);
            nameless(alloc, Status::Memory)
        }
    }
}

//! Bytes, and the parts of a study's bundle, to a sink.

ghost use Rattle.std.specs.Prelude.{◌≡◌, IfErr, OnOk};
ghost use Rattle.trace_bundle.specs.Ran.{IsFramedRunOf};
ghost use Rattle.abides_run.specs.Output.{study_bundle};
ghost use Rattle.abides_run.specs.Performed.{Sent};

use crate::status::Status;
use kernel_copy::{Course, Kept};
use outside::{Sink, write_all};
use std::alloc::Global;
use trace_bundle::{Carrier, RunOutcomes};

/// Sends bytes to a sink.
pub fn send<O: Sink>(out: &mut O, bytes: &[u8]) -> Result<(), Status>
    ensures { Sent bytes.now (O.faults out.old) (O.faults out.new) (O.taken out.old) (O.taken out.new) result }
{
    match write_all(out, bytes) {
        Ok(()) => Ok(()),
        Err(_) => Err(Status::WriteFault),
    }
}

/// The status with which bytes were sent.
pub fn sent_status(sent: Result<(), Status>) -> Status
    ensures ok { OnOk sent (result ≡ Status.Ok) }
    ensures refused { IfErr sent (λ status. result ≡ status) }
{
    match sent {
        Ok(()) => Status::Ok,
        Err(status) => status,
    }
}

/// Carries the parts of a bundle to a sink: with no copy, where their bytes are kept.
#[derive(Clone, Copy)]
pub struct ToSink {
    /// Where entries are put into bytes.
    pub alloc: Global,
}

impl<O: Sink> Carrier<O> for ToSink {
    ghost use Rattle.kernel_copy.specs.Kept.{frames_of};
    ghost use Rattle.abides_run.specs.Performed.{Sent};
    ghost use Rattle.abides_run.specs.Sending.{sent_before, sent_behind, sent_nothing, unsent_for_memory};

    type Error = Status;

    ghost Carried = { λ d e bytes parts r. Sent bytes (O.faults d) (O.faults e) (O.taken d) (O.taken e) r };

    ghost IsOwn = { λ s k kept bytes. frames_of kept ≡ bytes };

    fn bytes(&self, to: &mut O, bytes: &[u8]) -> Result<(), Status> {
        send(to, bytes)
    }

    fn segment(&self, to: &mut O, _segment: u32, kept: &Kept) -> Result<(), Status> {
        if let Kept::Frames(bytes) = kept {
            return send(to, bytes);
        }
        let mut bytes = Vec::new(self.alloc);
        kept.put(&mut bytes)?;
        send(to, &bytes)
    }

    ghost nothing = { λ d. sent_nothing (O.faults d) (O.taken d) };

    ghost behind = { λ d e f a b m n most r first second few. sent_behind a b (O.faults d) (O.faults e) (O.faults f) (O.taken d) (O.taken e) (O.taken f) r first.whole first.steady second };

    ghost cut = { λ d e a b m n. sent_before a b (O.faults d) (O.faults e) (O.taken d) (O.taken e) };

    ghost memory = { λ d a n refused. unsent_for_memory a (O.faults d) (O.taken d) };
}

/// Sends the bundle of a study whose segments ran, the trace of one branch after another.
pub fn send_bundle<O: Sink, W: RunOutcomes>(
    alloc: Global,
    course: &Course,
    ran: &W,
    out: &mut O,
) -> Result<(), Status>
    requires { IsFramedRunOf course.now (W.count ran.now) (W.kept_of ran.now) (W.closing_of ran.now) }
    ensures { Sent (study_bundle course.now) (O.faults out.old) (O.faults out.new) (O.taken out.old) (O.taken out.new) result }
{
    trace_bundle::send_bundle(alloc, course, ran, &ToSink { alloc }, out)
}

//! The one call that the program makes.

ghost use Rattle.std.specs.Prelude.{◌≡◌, ◌≤◌, ◌^◌, ℕ, List, map, string_bytes};
ghost use Rattle.abides_run.specs.Words.{texts};
ghost use Rattle.abides_run.specs.Headline.{Answered, Honest, Named, Noted};

use crate::ending::Ending;
use crate::find::find_asked;
use crate::notes::write_note;
use crate::perform::perform;
use crate::status::Status;
use audit_desk::honest::honest_bundles_pass;
use outside::{Gate, Ledger, Library, Sink, Steps};
use probe_desk::Probe;
use std::alloc::Global;
use std::sync::Wait;
use std::thread::Threads;

// All but the note.
fn answer<R: Threads + Wait + Sync, L: Library, O: Sink, G: Gate + Sync, D: Ledger + Send>(
    rt: &R,
    alloc: Global,
    words: &[String],
    library: &mut L,
    out: &mut O,
    probes: &mut [Box<dyn Probe>],
    gate: &G,
    steps: &mut Steps<D>,
) -> Ending
    requires { steps.old ≤ 2 ^ 63 }
    ensures answered { Answered (L.files library.old) (texts words.now)
        (record { meanings = map (λ p. meaning p) probes.old; titles = map (λ p. title p) probes.old })
        (record { reads = L.faults library.old; writes = O.faults out.old; taken = O.taken out.old; steps = steps.old })
        (record { reads = L.faults library.new; writes = O.faults out.new; taken = O.taken out.new; steps = steps.new })
        result.status }
    ensures named { Named (L.files library.old) (texts words.now) result.status (string_bytes result.name) }

    // A fault of the library or of out is never told as want of memory here.
    ensures wanting { result.status ≡ Status.Memory → (L.faults library.new ≡ L.faults library.old) × (O.faults out.new ≡ O.faults out.old) }
    ensures files { L.files library.new ≡ L.files library.old }
{
    match find_asked(alloc, words, library) {
        Ok(found) => perform(rt, alloc, found, probes, out, gate, steps),
        Err(ending) => ending,
    }
}

/// Does what the words ask for: the study's file, the series file that it names, a further file or a bundle come from the
/// library, the bundle, the line of counts, the table, the lines of a large study, the states of a rewind, the frames of a cross,
/// the answers of a session or the line of an audit go to `out`, and the line for the status to `notes`. The words are the command
/// line without the program's name; each simulated event ticks `steps` once. So many workers as the words say simulate the study's
/// segments, each in a thread of its own where `rt` can make one; each passes the gate before the first step of a segment. It may
/// wait.
///
/// What is promised of it are the fields of two records. `Answered` has the output, the rise of the counter, the cause of
/// each status and the status of each cause, what stands at a refusal, and that want of memory is the only other end.
/// `Noted` has the line of the status, with the file or the argument that the status speaks of, and `Named` which that is. `Honest`
/// says that the bundle of a study that the rules accept passes its audit.
pub fn run<
    R: Threads + Wait + Sync,
    L: Library,
    O: Sink,
    N: Sink,
    G: Gate + Sync,
    D: Ledger + Send,
>(
    rt: &R,
    alloc: Global,
    words: &[String],
    library: &mut L,
    out: &mut O,
    notes: &mut N,
    probes: Vec<Box<dyn Probe>>,
    gate: &G,
    steps: &mut Steps<D>,
) -> Status
    requires { steps.old ≤ 2 ^ 63 }
    ensures answered { Answered (L.files library.old) (texts words.now)
        (record { meanings = map (λ p. meaning p) probes.items; titles = map (λ p. title p) probes.items })
        (record { reads = L.faults library.old; writes = O.faults out.old; taken = O.taken out.old; steps = steps.old })
        (record { reads = L.faults library.new; writes = O.faults out.new; taken = O.taken out.new; steps = steps.new })
        result }
    ensures noted { (name : List ℕ) × Named (L.files library.old) (texts words.now) result name
        × Noted name (N.faults notes.old) (N.faults notes.new) (N.taken notes.old) (N.taken notes.new) result }
    ensures honest { Honest (L.files library.old) (texts words.now) result }
    ensures files { L.files library.new ≡ L.files library.old }
{
    honest_bundles_pass();
    let mut probes = probes;
    let ending = answer(rt, alloc, words, library, out, &mut probes, gate, steps);
    let status = write_note(alloc, ending.name.as_str(), ending.status, notes);
    drop(ending);
    drop(probes);
    status
}

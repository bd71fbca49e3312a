//! Where bytes go.

ghost use Rattle.std.specs.Prelude.{◌≡◌, ◌<◌, ◌≤◌, ℕ, List, Option, IfOk, OnOk, OnErr, length, take};
ghost use Rattle.outside.specs.Rose.{Rose};
ghost use Rattle.outside.specs.Taken.{appended, TookPrefix};

use crate::Failed;

/// A taker of bytes.
pub trait Sink {
    /// The bytes that the sink took so far, where it tells them.
    ghost taken: { Self → Option (List ℕ) };

    /// How many writes failed, as the sink counts them.
    ghost faults: { Self → ℕ };

    /// Takes a first part of a piece, and answers how many bytes it took: at least one of a piece that is not
    /// empty.
    ///
    /// # Errors
    /// `Failed` where nothing was taken of the piece: the count of faults then rose. A write that can take
    /// nothing of a piece that is not empty is such a fault. At `Ok` the count stands still.
    fn write(&mut self, piece: &[u8]) -> Result<usize, Failed>
        ensures within { IfOk result (λ n. n ≤ length piece.now) }
        ensures some { IfOk result (λ n. 0 < length piece.now → 0 < n) }
        ensures appends { IfOk result (λ n. taken self.new ≡ appended (taken self.old) (take n piece.now)) }
        ensures nothing { OnErr result (taken self.new ≡ taken self.old) }
        ensures steady { OnOk result (faults self.new ≡ faults self.old) }
        ensures failed { OnErr result (Rose (faults self.old) (faults self.new)) }
        ensures never_falls { faults self.old ≤ faults self.new };
}

/// Writes a whole piece to a sink, which may take it in several parts.
///
/// # Errors
/// `Failed` where a write failed, only where the sink's count of faults rose. The sink has then taken a first
/// part of the piece and nothing else.
pub fn write_all<S: Sink>(sink: &mut S, piece: &[u8]) -> Result<(), Failed>
    ensures ok { OnOk result (S.taken sink.new ≡ appended (S.taken sink.old) piece.now) }
    ensures cut { OnErr result (TookPrefix (S.taken sink.old) (S.taken sink.new) piece.now) }
    ensures steady { OnOk result (S.faults sink.new ≡ S.faults sink.old) }
    ensures failed { OnErr result (Rose (S.faults sink.old) (S.faults sink.new)) }
    ensures never_falls { S.faults sink.old ≤ S.faults sink.new }
{
    let mut done = 0;
    while done < piece.len() {
        match sink.write(&piece[done..]) {
            Ok(count) => done += count,
            Err(Failed) => return Err(Failed),
        }
    }
    Ok(())
}

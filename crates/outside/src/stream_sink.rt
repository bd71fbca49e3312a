//! The standard output and the standard error as sinks. As sinks they tell no content; what their stream tells that it
//! was given, a clause of their own says.

ghost use Rattle.std.specs.Prelude.{◌≡◌, ◌≤◌, ◌<◌, IfOk, length, take};
ghost use Rattle.std.specs.Io.KnownBytes.{Appends};

use crate::{Failed, Sink};
use std::io::Write;
use std::marker::Model;
use std::rt::{Stderr, Stdout};

/// A stream as a sink, which flushes at each write. Contracts see its count of faults, and what the stream tells that it
/// was given.
#[derive(Drop)]
pub struct StreamSink<W: Write + Drop> {
    stream: W,
    faults: u64,
}

/// The standard output as a sink.
pub type OutSink = StreamSink<Stdout>;

/// The standard error as a sink.
pub type ErrSink = StreamSink<Stderr>;

impl<W: Write + Drop> Model for StreamSink<W> {
    ghost use Rattle.outside.specs.Streams.{StreamTold};

    ghost Value = { StreamTold };

    ghost view = { λ s. record { faults = s.faults; given = W.contents s.stream } };
}

impl<W: Write + Drop> StreamSink<W> {
    /// A sink into this stream, with no fault counted.
    pub fn new(stream: W) -> StreamSink<W>
        ensures { result ≡ record { faults = 0; given = W.contents stream } }
    {
        StreamSink { stream, faults: 0 }
    }
}

impl<W: Write + Drop> Sink for StreamSink<W> {
    ghost use Rattle.std.specs.Prelude.{◌≡◌, ◌≤◌, ◌<◌, None, IfOk, OnOk, OnErr, length, take};
    ghost use Rattle.std.specs.Io.KnownBytes.{Appends};
    ghost use Rattle.outside.specs.Rose.{Rose};

    ghost taken = { λ _. None };

    ghost faults = { λ sink. sink.faults };

    fn write(&mut self, piece: &[u8]) -> Result<usize, Failed>
        ensures within { IfOk result (λ n. n ≤ length piece.now) }
        ensures some { IfOk result (λ n. 0 < length piece.now → 0 < n) }
        ensures steady { OnOk result (self.new.faults ≡ self.old.faults) }
        ensures failed { OnErr result (Rose self.old.faults self.new.faults) }
        ensures never_falls { self.old.faults ≤ self.new.faults }

        // What the stream tells that it was given.
        ensures given { IfOk result (λ n. Appends self.old.given self.new.given (take n piece.now)) }
    {
        let count = write_flushed(&mut self.stream, piece);
        if count.is_err() {
            self.faults = self.faults.saturating_add(1);
        }
        count
    }
}

// Writes a first part of a piece, and sends it on. A refused flush fails, and so does a write that takes
// nothing of a piece that is not empty.
fn write_flushed<W: Write>(stream: &mut W, piece: &[u8]) -> Result<usize, Failed>
    ensures within { IfOk result (λ n. n ≤ length piece.now) }
    ensures some { IfOk result (λ n. 0 < length piece.now → 0 < n) }
    ensures bytes { IfOk result (λ n. Appends (W.contents stream.old) (W.contents stream.new) (take n piece.now)) }
{
    let count = match stream.write(piece) {
        Ok(count) => count,
        Err(_) => return Err(Failed),
    };
    if stream.flush().is_err() || (count == 0 && !piece.is_empty()) {
        return Err(Failed);
    }
    Ok(count)
}

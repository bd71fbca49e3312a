//! The words that messages take for their latency.

ghost use Rattle.std.specs.Prelude.{◌≡◌};
ghost use Rattle.draw_streams.specs.Draw.{draw_of};

use draw_streams::Stream;
use latency_model::JITTER_STREAM;
use std::marker::Model;

/// The words of messages, by their numbers. It keeps those round the last one, so that messages that follow one another
/// take theirs from one block. A contract sees nothing of what is kept: no word depends on it.
#[derive(Drop)]
pub(crate) struct Jitter {
    stream: Stream,
}

impl Model for Jitter {
    ghost use Rattle.std.specs.Prelude.{◌≡◌};

    ghost Value = { Unit {0} };

    ghost view = { λ j. tt };

    ghost invariant = { λ j. j.stream ≡ 0 };
}

impl Jitter {
    // No word is kept yet.
    pub(crate) fn new() -> Jitter {
        Jitter {
            stream: Stream::new(JITTER_STREAM),
        }
    }

    // The word of the message with this number under a key.
    pub(crate) fn word(&mut self, key: &[u8; 32], seq: u64) -> u32
        ensures { result ≡ draw_of key.now 0 seq }
    {
        self.stream.draw(key, seq)
    }
}

//! A sink into memory, which takes so much in all and in a call, and some of whose calls fail.

use crate::memory_library::is_listed;
use crate::{Failed, Memory, Sink};
use std::alloc::Global;
use std::marker::Model;

/// A sink into memory.
#[derive(Drop)]
pub struct MemorySink {
    bytes: Vec<u8>,
    room: usize,
    most: usize,
    failing: Vec<u32>,
    calls: u64,
    faults: u64,
}

impl Model for MemorySink {
    ghost use Rattle.std.specs.Prelude.{◌≤◌, vec_len, vec_capacity};
    ghost use Rattle.outside.specs.Fakes.{SinkTold};

    ghost Value = { SinkTold };

    ghost view = { λ s. record { bytes = s.bytes.items; room = s.room; most = s.most; failing = s.failing.items; calls = s.calls; faults = s.faults } };

    ghost invariant = { λ s. (s.room ≤ vec_capacity s.bytes) × (vec_len s.bytes ≤ s.room) };
}

impl MemorySink {
    ghost use Rattle.std.specs.Prelude.{◌≡◌, [], IfOk};

    /// An empty sink that takes at most `room` bytes in all and at most `most` bytes a call. The calls whose
    /// numbers are in `failing` fail; the first call is number 1.
    ///
    /// # Errors
    /// `Memory` where the room is not to be had.
    pub fn new(
        alloc: Global,
        room: usize,
        most: usize,
        failing: Vec<u32>,
    ) -> Result<MemorySink, Memory>
        ensures { IfOk result (λ sink. sink ≡
            record { bytes = []; room = room; most = most; failing = failing.items; calls = 0; faults = 0 }) }
    {
        let bytes = Vec::with_capacity(alloc, room)?;
        Ok(MemorySink {
            bytes,
            room,
            most,
            failing,
            calls: 0,
            faults: 0,
        })
    }

    /// The bytes that the sink took.
    pub fn taken(&self) -> &[u8]
        ensures { result.now ≡ self.now.bytes }
    {
        &self.bytes
    }
}

impl Sink for MemorySink {
    ghost use Rattle.std.specs.Prelude.{◌≡◌, ◌+◌, ◌<◌, ◌≤◌, [], Some, None, IfOk, IsOk, OnOk, OnErr, MatchResult, length, take};
    ghost use Rattle.outside.specs.Rose.{Rose, raised};
    ghost use Rattle.outside.specs.Taken.{appended};
    ghost use Rattle.outside.specs.Fakes.{accepted};

    ghost taken = { λ sink. Some sink.bytes };

    ghost faults = { λ sink. sink.faults };

    fn write(&mut self, piece: &[u8]) -> Result<usize, Failed>
        ensures within { IfOk result (λ n. n ≤ length piece.now) }
        ensures some { IfOk result (λ n. 0 < length piece.now → 0 < n) }
        ensures appends { IfOk result (λ n. Some self.new.bytes ≡ appended (Some self.old.bytes) (take n piece.now)) }
        ensures nothing { OnErr result (Some self.new.bytes ≡ Some self.old.bytes) }
        ensures steady { OnOk result (self.new.faults ≡ self.old.faults) }
        ensures failed { OnErr result (Rose self.old.faults self.new.faults) }
        ensures never_falls { self.old.faults ≤ self.new.faults }

        // The very answer, which takes no memory.
        ensures answer { MatchResult result (λ n. accepted self.old piece.now ≡ Some n) (λ _. accepted self.old piece.now ≡ None) }
        ensures counted { OnErr result (self.new.faults ≡ raised self.old.faults) }
        ensures counts { self.new.calls ≡ raised self.old.calls }
        ensures same { (self.new.room ≡ self.old.room) × (self.new.most ≡ self.old.most) × (self.new.failing ≡ self.old.failing) }

        // With no call that is to fail, and room, it never fails.
        ensures quiet { self.old.failing ≡ [] → length self.old.bytes + length piece.now ≤ self.old.room →
            0 < self.old.most → IsOk result }
    {
        self.calls = self.calls.saturating_add(1);
        let room = self.room - self.bytes.len();
        let count = piece.len().min(self.most).min(room);
        if is_listed(&self.failing, self.calls) || (count == 0 && !piece.is_empty()) {
            self.faults = self.faults.saturating_add(1);
            return Err(Failed);
        }
        match self.bytes.extend_from_slice(&piece[..count]) {
            Ok(()) => Ok(count),
            Err(_) => unreachable!(),
        }
    }
}

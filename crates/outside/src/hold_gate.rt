//! A gate that holds one segment until another is passed.

use crate::Gate;
use std::sync::atomic::Ordering::SeqCst;
use std::sync::atomic::{AtomicBool, AtomicU32};
use std::thread;

/// A gate that holds the pass of one segment until another's was called, or until its turns are spent.
///
/// No contract says what `exceeded` and `passes` answer: what a cell holds is shown by tests alone.
#[derive(Drop)]
pub struct HoldGate {
    held: u32,
    until: u32,
    turns: u32,
    opened: AtomicBool,
    exceeded: AtomicBool,
    passes: AtomicU32,
}

impl HoldGate {
    /// Holds segment number `held` until segment number `until` is passed, at most for so many turns.
    pub fn new(held: u32, until: u32, turns: u32) -> HoldGate {
        HoldGate {
            held,
            until,
            turns,
            opened: AtomicBool::new(false),
            exceeded: AtomicBool::new(false),
            passes: AtomicU32::new(0),
        }
    }

    /// Whether the turns were spent.
    pub fn exceeded(&self) -> bool {
        self.exceeded.load(SeqCst)
    }

    /// How often `pass` was called.
    pub fn passes(&self) -> u32 {
        self.passes.load(SeqCst)
    }
}

impl Gate for HoldGate {
    fn pass(&self, _worker: u32, segment: u32) {
        self.passes.fetch_add(1, SeqCst);
        if segment == self.until {
            self.opened.store(true, SeqCst);
        }
        if segment != self.held {
            return;
        }
        for _ in 0..self.turns {
            if self.opened.load(SeqCst) {
                return;
            }
            thread::yield_now();
        }
        self.exceeded.store(true, SeqCst);
    }
}

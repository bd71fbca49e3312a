//! What a worker does while there is nothing for it to do.

use std::sync::Wait;
use std::thread::Parker;
use std::time::Duration;

// Rests for 50 microseconds: short beside a segment's run, and long enough that those who wait leave the processors, and
// what these share, to the workers that run one.
pub(crate) fn rest<R: Wait>(rt: &R) {
    Parker::new().park_timeout(rt, Duration::from_micros(50));
}

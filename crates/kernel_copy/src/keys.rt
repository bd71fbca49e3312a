//! Keys of a segment's states.

ghost use Rattle.std.specs.Prelude.{◌≡◌};
ghost use Rattle.kernel_copy.specs.Segmentwise.{fork_number};

use branch_tree::Stop;

/// The number in the key of the end of a segment that stops at a time. No run has so many events.
pub const END_AT_A_TIME: u32 = 16_777_215;

/// The number in the key of the end of a segment with this stop.
pub fn number_of_end(stop: Stop) -> u32
    ensures { result ≡ fork_number stop }
{
    match stop {
        Stop::At(events) => events,
        Stop::When(_) => END_AT_A_TIME,
    }
}

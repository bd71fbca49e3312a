//! What the definitions give on worked examples.

ghost use Rattle.std.specs.Prelude.{◌≡◌};
ghost use Rattle.latency_model.specs.Latency.{delay_of, latency_of};
ghost use Rattle.latency_model.specs.Tables.{with_pair};
ghost use Rattle.latency_model.specs.Worked.{one_group, square, two_groups};

use draw_streams::worked::ZERO_KEY;

/// Latencies within one group with base 0: message 1 has the word 0x903df1a0 of the zero key, whose
/// part of 10 is 5, and message 16 has 0xbee7079f, whose part is 7.
pub fn latencies_under_the_zero_key()
    ensures without_jitter { latency_of ZERO_KEY (one_group 0 0) 0 0 1 ≡ 0 }
    ensures little_jitter { latency_of ZERO_KEY (one_group 0 9) 0 0 1 ≡ 5 }
    ensures next_block { latency_of ZERO_KEY (one_group 0 9) 0 0 16 ≡ 7 }
    ensures most_jitter { latency_of ZERO_KEY (one_group 0 4294967295) 0 0 1 ≡ 2419978656 }
{}

/// The sender's group picks the row, and an edit of a pair leaves the opposite pair as it is.
pub fn pairs_of_two_groups()
    ensures row { delay_of two_groups 0 1 7 ≡ 20 }
    ensures edited { with_pair two_groups 1 0 50 5 ≡ record { base = square 10 20 50 40; jitter = square 0 0 5 4 } }
{}

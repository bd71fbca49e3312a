//! How order tokens are hashed.

ghost use Rattle.std.specs.Prelude.{◌*◌, ◌%◌, ◌^◌};
ghost use Rattle.agent_shell.specs.Hashing.{mixed};

use std::hash::{BuildHasher, Hasher};

/// Makes the hasher of a token. A trader's tokens end in digits that rise by one, so the last bytes alone tell most of
/// its open ones apart: the others needn't be read.
#[derive(Clone, Copy)]
pub struct TokenHashing;

/// A hasher that keeps the last four bytes, where each comes by a write of its own.
#[derive(Clone, Copy)]
pub struct TokenHasher {
    number: u64,
}

impl BuildHasher for TokenHashing {
    type Hasher = TokenHasher;

    ghost build_hasher = { λ _. record { number = 0 } };

    fn build_hasher(&self) -> TokenHasher {
        TokenHasher { number: 0 }
    }
}

impl Hasher for TokenHasher {
    ghost write = { λ h bytes. record { number = mixed h.number bytes } };

    ghost finish = { λ h. (h.number * 0x9e37_79b9_7f4a_7c15) % 2 ^ 64 };

    fn finish(&self) -> u64 {
        self.number.wrapping_mul(0x9e37_79b9_7f4a_7c15)
    }

    fn write(&mut self, bytes: &[u8]) {
        if bytes.len() == 0 {
            return;
        }
        self.number = self.number % 0x100_0000 * 0x100 + u64::from(bytes[0]);
    }
}

//! How raw texts are hashed.
ghost use Rattle.std.specs.Prelude.{◌≡◌};

use std::hash::{BuildHasher, DefaultHasher, Hasher};

/// The prime by which what is left counts.
const PRIME: u64 = 4_294_967_291;

/// Takes bytes for the digits of a number, and keeps what a prime leaves of its value at a base. A text is hashed behind the eight bytes of its
/// length, so two texts of at most n bytes share what is left at no more than n + 8 bases, and who doesn't know the base can't name many that do.
#[derive(Clone, Copy)]
pub struct TextHasher {
    base: u64,
    left: u64,
}

impl Hasher for TextHasher {
    ghost use Rattle.series_cache.specs.Hashes.{fed, spread};

    ghost write = { fed };

    ghost finish = { λ h. spread h.left };

    /// The upper bits tell as much as the lower ones.
    fn finish(&self) -> u64 {
        self.left.wrapping_mul(0x9e37_79b9_7f4a_7c15)
    }

    fn write(&mut self, bytes: &[u8]) {
        for byte in bytes {
            self.left = self
                .left
                .wrapping_mul(self.base)
                .wrapping_add(u64::from(*byte))
                % PRIME;
        }
    }
}

/// Begins each hash at one base.
#[derive(Clone, Copy)]
pub struct Seeded {
    hasher: TextHasher,
}

impl Seeded {
    /// At a base that a seeded hasher picks.
    pub(crate) fn new(seed: DefaultHasher) -> Seeded {
        let base = seed.finish() % PRIME;
        Seeded {
            hasher: TextHasher { base, left: 1 },
        }
    }
}

impl BuildHasher for Seeded {
    type Hasher = TextHasher;

    ghost build_hasher = { λ s. s.hasher };

    fn build_hasher(&self) -> TextHasher {
        self.hasher
    }
}

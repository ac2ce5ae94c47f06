//! Hashes of page numbers.

ghost use Rattle.std.specs.Prelude.{◌≡◌};
ghost use Rattle.row_pages.specs.Hashes.{hash_of};

use std::hash::{BuildHasher, Hasher};

/// An odd number near 2^64 divided by the golden ratio.
const SPREAD: u64 = 0x9E37_79B9_7F4A_7C15;

/// What makes hashers of page numbers.
#[derive(Clone, Copy)]
pub(super) struct PageHashes;

/// The hash of a page number, by one multiplication: page numbers follow one another, so their hashes differ in their lowest bits.
#[derive(Clone, Copy)]
pub(super) struct PageHasher {
    state: u64,
}

impl BuildHasher for PageHashes {
    type Hasher = PageHasher;

    ghost build_hasher = { λ _. record { state = 0 } };

    fn build_hasher(&self) -> PageHasher {
        PageHasher { state: 0 }
    }
}

impl Hasher for PageHasher {
    ghost write = { λ _ bytes. record { state = hash_of bytes } };

    ghost finish = { λ s. s.state };

    fn finish(&self) -> u64 {
        self.state
    }

    fn write(&mut self, bytes: &[u8]) {
        self.state = hash(bytes);
    }
}

/// The number that 8 bytes are, the lowest first, spread; 0 of any others.
fn hash(bytes: &[u8]) -> u64
    ensures { result ≡ hash_of bytes.now }
{
    match bytes {
        [a, b, c, d, e, f, g, h] => {
            u64::from_le_bytes([*a, *b, *c, *d, *e, *f, *g, *h]).wrapping_mul(SPREAD)
        }
        _ => 0,
    }
}

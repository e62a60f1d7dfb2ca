//! A hash of names, and of keys that are made of a few numbers.

ghost use Rattle.std.specs.Prelude.{◌≡◌};
ghost use Rattle.bundle_scope_denote.specs.Mixed.{folded, mix, mix_bytes, mixed_by};

use crate::salt::Salt;
use std::hash::{BuildHasher, Hasher};

/// Makes hashers for the tables over a list: of its names, and of numbers that this program gives, as those of its scopes
/// and names. They begin with the list's salt, since of all names and of all pairs of such numbers a stranger can choose
/// those that meet in one place, and fold each number in by one product, as the kit's own hasher for such tables does,
/// but take a number as it is and not byte by byte. Of a text each byte is a number, but where it has eight; and who
/// chooses texts does not choose what the salt has made stand before them.
#[derive(Clone, Copy)]
pub struct Mixed {
    begun: Mixer,
}

impl Mixed {
    /// That of the tables over a list with this salt.
    pub fn of(salt: &Salt) -> Mixed
        ensures { result ≡ mixed_by salt.now }
    {
        Mixed {
            begun: Mixer {
                state: salt.build_hasher().finish(),
            },
        }
    }
}

impl BuildHasher for Mixed {
    type Hasher = Mixer;

    ghost build_hasher = { λ mixed. mixed.begun };

    fn build_hasher(&self) -> Mixer {
        self.begun
    }
}

const MULTIPLIER: u64 = 0x9e37_79b9_7f4a_7c15;

/// What was folded in so far.
#[derive(Clone, Copy)]
pub struct Mixer {
    state: u64,
}

impl Mixer {
    // Folds one more number in.
    fn mix(&mut self, number: u64)
        ensures { self.new ≡ mix self.old number }
    {
        self.state = folded(self.state ^ number, MULTIPLIER);
    }
}

// The two halves of a product, joined by xor.
fn folded(a: u64, b: u64) -> u64
    ensures { result ≡ folded a b }
{
    let product = a as u128 * b as u128;
    (product & 0xFFFF_FFFF_FFFF_FFFF) as u64 ^ (product >> 64) as u64
}

impl Hasher for Mixer {
    ghost write = { mix_bytes };

    ghost finish = { λ mixer. mixer.state };

    fn finish(&self) -> u64 {
        self.state
    }

    fn write(&mut self, bytes: &[u8]) {
        if bytes.len() == 8 {
            let number = u64::from_le_bytes([
                bytes[0], bytes[1], bytes[2], bytes[3], bytes[4], bytes[5], bytes[6], bytes[7],
            ]);
            self.mix(number);
            return;
        }
        for byte in bytes {
            self.mix(*byte as u64);
        }
    }

    fn write_usize(&mut self, i: usize) {
        self.mix(i as u64);
    }
}

//! A hash of the symbols of a list, whose key is made of these symbols themselves.

ghost use Rattle.std.specs.Prelude.{◌≡◌, ◌++◌, ◌<◌, ◌≤◌, List, ℕ, length, map};
ghost use Rattle.sha2.specs.Hashers.{Holds512};
ghost use Rattle.sha2.specs.Sha512.{sha512};
ghost use Rattle.bundle_syntax.specs.Item.{item_of};
ghost use Rattle.bundle_scope_denote.specs.Salted.{few, message_of, salted, salt_bytes, unsalted};

use bundle_syntax::Piece;
use sha2::{Digest, Sha512};
use std::hash::{BuildHasher, DefaultHasher, Hasher};

/// Makes hashers for tables whose keys hold symbols of one list: SipHash-1-3 (Aumasson and Bernstein), begun
/// with the digest of all these symbols. Whoever chooses symbols that would meet in such a table has changed
/// the digest, and with it where each of them goes; and the same list always has the same tables, without a
/// random number. Of a list of few pieces nothing is digested: whoever makes all its symbols meet has made
/// tables of a few names, which are soon gone over.
#[derive(Clone, Copy)]
pub struct Salt {
    begun: DefaultHasher,
}

impl BuildHasher for Salt {
    type Hasher = DefaultHasher;

    ghost build_hasher = { λ salt. salt.begun };

    fn build_hasher(&self) -> DefaultHasher {
        self.begun
    }
}

// A list of fewer pieces needs no digest.
const FEW: usize = 256;

/// The salt of a list: that of the SHA-512 digest of its identifiers' symbols, each with the byte
/// 255 behind it, which stands in no text. A list of fewer than 256 pieces has one that begins with nothing, which
/// is the same for all of them.
pub fn salt_of<'a>(pieces: &[Piece<'a>]) -> Salt
    ensures few { length pieces.now < few → result ≡ unsalted }
    ensures many { few ≤ length pieces.now →
        result ≡ salted (sha512 (message_of (map item_of pieces.now))) }
{
    if pieces.len() < FEW {
        unsalted()
    } else {
        salted_by(pieces)
    }
}

// The salt that begins with nothing.
fn unsalted() -> Salt
    ensures { result ≡ unsalted }
{
    Salt {
        begun: DefaultHasher::new(),
    }
}

// The salt of the digest of a list's symbols.
fn salted_by<'a>(pieces: &[Piece<'a>]) -> Salt
    ensures { result ≡ salted (sha512 (message_of (map item_of pieces.now))) }
{
    let mut digest = Sha512::new();
    for piece in pieces {
        tell(&mut digest, *piece);
    }
    begun_with(digest.finalize())
}

// Adds the symbol of an identifier to a message.
fn tell<'a>(digest: &mut Sha512, piece: Piece<'a>)
    ensures { (message : List ℕ) →
        Holds512 digest.old message →
        Holds512 digest.new (message ++ salt_bytes (item_of piece.entry)) }
{
    if let Piece::Ident { sym, .. } = piece {
        digest.update(sym);
        digest.update(b"\xff");
    }
}

// The salt of a digest.
fn begun_with(digest: [u8; 64]) -> Salt
    ensures { result ≡ salted digest }
{
    let mut begun = DefaultHasher::new();
    begun.write(&digest);
    Salt { begun }
}

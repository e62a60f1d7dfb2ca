//! The tokens of a text (ECMA-262, 12).

ghost use Rattle.std.specs.Prelude.{◌≤◌, ◌<◌, ◌^◌, length};

use crate::byte::byte_at;
use crate::fault::ScanError;
use crate::gap::{Gap, Goal, gap_at};
use crate::name::{is_plain_start, name_at, name_from};
use crate::number::number_at;
use crate::scanned::Scanned;
use crate::sign::{lone_sign, punctuator};
use crate::string::{chunk_at, regex_at, string_at};
use crate::token::{Tok, Token};

/// The token behind the white space and the comments that begin at this place.
pub fn token_at(text: &[u8], from: usize, goal: Goal) -> Token
    requires short { length text.now < 2 ^ 32 }
    ensures ordered { result.from ≤ result.to }
    ensures within { result.to ≤ length text.now }
{
    let gap = gap_at(text, from, goal);
    let scanned = if gap.open {
        Scanned::bad(ScanError::Comment, text.len())
    } else {
        scan(text, gap.to)
    };
    made(text, gap, scanned)
}

/// The slash that is looked at read anew, as a regular expression (12.9.5).
pub fn regex_token(text: &[u8], slash: Token) -> Token
    requires short { length text.now < 2 ^ 32 }
    ensures ordered { result.from ≤ result.to }
    ensures within { result.to ≤ length text.now }
{
    let from = slash.from as usize;
    let gap = Gap {
        to: from,
        newline: slash.newline,
        noted: slash.noted,
        open: false,
    };
    made(text, gap, regex_at(text, from.saturating_add(1)))
}

/// The part of a template that begins at this place (12.9.6).
pub fn chunk_token(text: &[u8], from: usize) -> Token
    requires short { length text.now < 2 ^ 32 }
    ensures ordered { result.from ≤ result.to }
    ensures within { result.to ≤ length text.now }
{
    let gap = Gap {
        to: from,
        newline: false,
        noted: false,
        open: false,
    };
    made(text, gap, chunk_at(text, from))
}

// The token that begins at this place, where no white space and no comment is.
#[inline]
fn scan(text: &[u8], at: usize) -> Scanned {
    let byte = match text.get(at) {
        Some(byte) => *byte,
        None => return Scanned::plain(Tok::End, at),
    };
    if is_plain_start(byte) {
        return name_from(text, at);
    }
    let alone = lone_sign(byte);
    if alone != Tok::Bad {
        return Scanned::plain(alone, at.saturating_add(1));
    }
    match byte {
        b'\'' | b'"' => string_at(text, at.saturating_add(1), byte),
        b'0'..=b'9' => number_at(text, at),
        b'.' if byte_at(text, at.saturating_add(1)).is_ascii_digit() => number_at(text, at),
        b'#' => private(text, at.saturating_add(1)),
        b'\\' | 128..=255 => match name_at(text, at) {
            Some(name) => name,
            None => sign(text, at),
        },
        _ => sign(text, at),
    }
}

// The private name whose name begins here.
fn private(text: &[u8], from: usize) -> Scanned {
    match name_at(text, from) {
        Some(name) if name.fault.is_none() => Scanned {
            kind: Tok::PrivateName,
            ..name
        },
        Some(name) => name,
        None => Scanned::bad(ScanError::PrivateName, from),
    }
}

// The punctuator that begins here.
fn sign(text: &[u8], at: usize) -> Scanned {
    let sign = punctuator(
        byte_at(text, at),
        byte_at(text, at.saturating_add(1)),
        byte_at(text, at.saturating_add(2)),
        byte_at(text, at.saturating_add(3)),
    );
    let to = at.saturating_add(sign.length);
    if sign.kind == Tok::Bad {
        Scanned::bad(ScanError::Character, to)
    } else {
        Scanned::plain(sign.kind, to)
    }
}

// The token behind the gap, which ends within the text.
#[inline]
fn made(text: &[u8], gap: Gap, scanned: Scanned) -> Token
    requires short { length text.now < 2 ^ 32 }
    ensures ordered { result.from ≤ result.to }
    ensures within { result.to ≤ length text.now }
{
    let Gap {
        to: from,
        newline,
        noted,
        ..
    } = gap;
    let Scanned {
        kind,
        to,
        escaped,
        fault,
    } = scanned;
    let from = from.min(text.len());
    let to = to.min(text.len()).max(from);
    Token {
        kind,
        newline,
        noted,
        escaped,
        fault,
        from: from as u32,
        to: to as u32,
    }
}

//! Numeric literals of strict code (ECMA-262, 12.9.3).

use crate::byte::{byte_at, hex_value};
use crate::fault::ScanError;
use crate::name::begins_name;
use crate::scanned::Scanned;
use crate::token::Tok;

// The part of a decimal literal that was read last.
#[derive(Clone, Copy)]
enum Part {
    Whole,
    Point,
    Fraction,
    Mark,
    Sign,
    Exponent,
}

/// The numeric literal that begins here, with a digit or with a point before one.
pub fn number_at(text: &[u8], from: usize) -> Scanned {
    if byte_at(text, from) != b'0' {
        return decimal(text, from);
    }
    let digits = from.saturating_add(2);
    match byte_at(text, from.saturating_add(1)) {
        b'x' | b'X' => radix(text, digits, 16),
        b'o' | b'O' => radix(text, digits, 8),
        b'b' | b'B' => radix(text, digits, 2),
        b'0'..=b'9' => Scanned::bad(ScanError::LegacyNumber, digits),
        b'_' => Scanned::bad(ScanError::Separator, digits),
        _ => decimal(text, from),
    }
}

// The literal in this base whose digits begin here.
fn radix(text: &[u8], from: usize, base: u32) -> Scanned {
    let mut digit = false;
    for at in from..text.len() {
        let byte = text[at];
        if is_digit(byte, base) {
            digit = true;
        } else if byte == b'_' {
            if !digit || !is_digit(byte_at(text, at + 1), base) {
                return Scanned::bad(ScanError::Separator, at);
            }
            digit = false;
        } else if !digit {
            return Scanned::bad(ScanError::Digits, at);
        } else if byte == b'n' {
            return finished(text, Tok::BigInt, at + 1);
        } else {
            return finished(text, Tok::Num, at);
        }
    }
    if digit {
        Scanned::plain(Tok::Num, text.len())
    } else {
        Scanned::bad(ScanError::Digits, text.len())
    }
}

fn is_digit(byte: u8, base: u32) -> bool {
    match hex_value(byte) {
        Some(value) => value < base,
        None => false,
    }
}

// The decimal literal that begins here.
fn decimal(text: &[u8], from: usize) -> Scanned {
    let mut part = Part::Whole;
    for at in from..text.len() {
        let byte = text[at];
        if byte == b'_' {
            if at == from
                || !byte_at(text, at - 1).is_ascii_digit()
                || !byte_at(text, at + 1).is_ascii_digit()
            {
                return Scanned::bad(ScanError::Separator, at);
            }
        } else if byte == b'n' && matches!(part, Part::Whole) {
            return finished(text, Tok::BigInt, at + 1);
        } else {
            match part_behind(part, byte) {
                Some(next) => part = next,
                None => return decimal_end(text, part, at),
            }
        }
    }
    decimal_end(text, part, text.len())
}

// The part of a decimal literal that goes on with this byte; none where the literal ends before it.
fn part_behind(part: Part, byte: u8) -> Option<Part> {
    match byte {
        b'0'..=b'9' => Some(match part {
            Part::Point => Part::Fraction,
            Part::Mark | Part::Sign => Part::Exponent,
            _ => part,
        }),
        b'.' if matches!(part, Part::Whole) => Some(Part::Point),
        b'e' | b'E' if matches!(part, Part::Whole | Part::Point | Part::Fraction) => {
            Some(Part::Mark)
        }
        b'+' | b'-' if matches!(part, Part::Mark) => Some(Part::Sign),
        _ => None,
    }
}

fn decimal_end(text: &[u8], part: Part, to: usize) -> Scanned {
    if matches!(part, Part::Mark | Part::Sign) {
        Scanned::bad(ScanError::Digits, to)
    } else {
        finished(text, Tok::Num, to)
    }
}

// The literal that ends here, behind which no name and no digit may begin.
fn finished(text: &[u8], kind: Tok, to: usize) -> Scanned {
    if byte_at(text, to).is_ascii_digit() || begins_name(text, to) {
        Scanned::bad(ScanError::BehindNumber, to)
    } else {
        Scanned::plain(kind, to)
    }
}

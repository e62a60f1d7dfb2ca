//! Escapes in names, strings and templates (ECMA-262, 12.7, 12.9.4 and 12.9.6).

ghost use Rattle.std.specs.Prelude.{◌<◌, IfSome};

use crate::byte::hex_value;
use crate::fault::ScanError;

/// What the characters before are part of.
#[derive(Clone, Copy)]
pub enum Mode {
    /// Of no escape.
    Plain,
    /// A backslash stands before.
    Backslash,
    /// `\u` stands before.
    Opening,
    /// So many hexadecimal digits of `\x` or `\u` are left, behind digits of this value.
    Hex {
        left: u8,
        value: u32,
        error: ScanError,
    },
    /// `\u{` stands before.
    Brace,
    /// `\u{` and digits of this value stand before.
    Braced {
        value: u32,
    },
    /// A backslash and the carriage return of a line end of two characters stand before.
    Return,
}

/// What the next character of an escape does.
#[derive(Clone, Copy)]
pub enum EscapeStep {
    /// The escape goes on.
    Go(Mode),
    /// It ends, and gives this number of a code unit or a code point.
    Gives(u32),
    /// It ends, and gives nothing: the end of a line.
    Nothing,
    /// It is none.
    Refused(ScanError),
}

/// What this character does in an escape, with the byte behind it.
pub fn next_step(mode: Mode, c: char, next: u8) -> EscapeStep {
    match mode {
        Mode::Plain => EscapeStep::Go(Mode::Backslash),
        Mode::Backslash => escaped(c, next),
        Mode::Opening => if c == '{' {
            EscapeStep::Go(Mode::Brace)
        } else {
            hex(c, 4, 0, ScanError::UnicodeEscape)
        },
        Mode::Hex { left, value, error } => hex(c, left, value, error),
        Mode::Brace => match digit(c) {
            Some(value) => EscapeStep::Go(Mode::Braced { value }),
            None => EscapeStep::Refused(ScanError::UnicodeEscape),
        },
        Mode::Braced { value } => braced(c, value),
        Mode::Return => EscapeStep::Nothing,
    }
}

fn digit(c: char) -> Option<u32>
    ensures { IfSome result (λ value. value < 16) }
{
    match u8::try_from(c as u32) {
        Ok(byte) => hex_value(byte),
        Err(_) => None,
    }
}

// Behind a backslash.
fn escaped(c: char, next: u8) -> EscapeStep {
    match c {
        'n' => EscapeStep::Gives(10),
        't' => EscapeStep::Gives(9),
        'r' => EscapeStep::Gives(13),
        'b' => EscapeStep::Gives(8),
        'f' => EscapeStep::Gives(12),
        'v' => EscapeStep::Gives(11),
        '0' if !next.is_ascii_digit() => EscapeStep::Gives(0),
        '0'..='9' => EscapeStep::Refused(ScanError::OctalEscape),
        'x' => EscapeStep::Go(Mode::Hex {
            left: 2,
            value: 0,
            error: ScanError::HexEscape,
        }),
        'u' => EscapeStep::Go(Mode::Opening),
        '\r' if next == b'\n' => EscapeStep::Go(Mode::Return),
        '\r' | '\n' | '\u{2028}' | '\u{2029}' => EscapeStep::Nothing,
        _ => EscapeStep::Gives(c as u32),
    }
}

// A digit of a number of so many.
fn hex(c: char, left: u8, value: u32, error: ScanError) -> EscapeStep {
    match digit(c) {
        Some(digit) if value < 65536 => {
            let value = value * 16 + digit;
            if left > 1 {
                EscapeStep::Go(Mode::Hex {
                    left: left - 1,
                    value,
                    error,
                })
            } else {
                EscapeStep::Gives(value)
            }
        }
        _ => EscapeStep::Refused(error),
    }
}

// A digit of a number in braces, or the brace behind it.
fn braced(c: char, value: u32) -> EscapeStep {
    if c == '}' {
        return EscapeStep::Gives(value);
    }
    match digit(c) {
        Some(digit) if value < 1114112 && value * 16 + digit < 1114112 => {
            EscapeStep::Go(Mode::Braced {
                value: value * 16 + digit,
            })
        }
        _ => EscapeStep::Refused(ScanError::UnicodeEscape),
    }
}

/// Whether the number is that of the first half of a surrogate pair.
pub fn is_high(number: u32) -> bool {
    (number & 0xFFFFFC00) == 0xD800
}

/// Whether the number is that of the second half of a surrogate pair.
pub fn is_low(number: u32) -> bool {
    (number & 0xFFFFFC00) == 0xDC00
}

/// The code point of a surrogate pair.
pub fn pair(high: u32, low: u32) -> u32
    ensures { result < 1114112 }
{
    65536 + (high & 1023) * 1024 + (low & 1023)
}

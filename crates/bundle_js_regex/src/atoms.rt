//! Escapes and characters (ECMA-262, 22.2.1 and B.1.2).

ghost use Rattle.std.specs.Prelude.{◌<◌, IfSome};

use crate::fault::RegexError;
use crate::pattern::Pattern;
use bundle_js_scan::byte::{char_at, hex_value, is_inner};
use bundle_js_scan::escape::{is_high, is_low, pair};

/// An atom of a class (`ClassAtom`): one character, by its number, or an escape that stands for many.
#[derive(Clone, Copy, PartialEq, Eq, Debug)]
pub enum ClassAtom {
    One(u32),
    Many,
}

impl Pattern<'_> {
    /// Reads the escape that stands here outside of classes, and says whether it may be repeated.
    pub fn escape(&mut self) -> Result<bool, RegexError> {
        match self.ahead(1) {
            b'b' | b'B' => {
                self.skip(2);
                Ok(false)
            }
            b'1'..=b'9' => {
                self.back_reference()?;
                Ok(true)
            }
            b'k' if self.unicode || self.named => {
                self.skip(2);
                self.refer()?;
                Ok(true)
            }
            _ => {
                let _atom = self.atom_escape(false)?;
                Ok(true)
            }
        }
    }

    // Reads the reference to a group by its number, or what its digits are where there is no such group.
    fn back_reference(&mut self) -> Result<(), RegexError> {
        let mut number: usize = 0;
        let mut size: usize = 1;
        for _ in self.at..self.source.len() {
            match self.ahead(size) {
                byte @ b'0'..=b'9' if number <= 65535 => {
                    number = number * 10 + byte as usize - 48;
                    size = size.saturating_add(1);
                }
                _ => break,
            }
        }
        if number <= self.groups {
            self.skip(size);
        } else if self.unicode {
            return Err(RegexError::Decimal);
        } else {
            self.skip(2);
        }
        Ok(())
    }

    /// Reads an escape that gives a character or a set of them.
    pub fn atom_escape(&mut self, class: bool) -> Result<ClassAtom, RegexError> {
        if self.at.saturating_add(1) >= self.source.len() {
            return Err(RegexError::Backslash);
        }
        match self.ahead(1) {
            b'd' | b'D' | b's' | b'S' | b'w' | b'W' => {
                self.skip(2);
                Ok(ClassAtom::Many)
            }
            b'p' | b'P' if self.unicode => {
                self.skip(2);
                self.property()?;
                Ok(ClassAtom::Many)
            }
            b'c' => self.control(class),
            b'0'..=b'7' => self.octal(),
            b'x' => {
                self.skip(2);
                let number = self.hex(2);
                self.number_or(number, b'x', RegexError::Escape)
            }
            b'u' => {
                self.skip(2);
                let number = self.unicode_escape(self.unicode);
                self.number_or(number, b'u', RegexError::Unicode)
            }
            letter => self.identity(letter, class),
        }
    }

    // The number of an escape; without `u` its letter where it has none.
    fn number_or(
        &self,
        number: Option<u32>,
        letter: u8,
        error: RegexError,
    ) -> Result<ClassAtom, RegexError> {
        match number {
            Some(number) => Ok(ClassAtom::One(number)),
            None if self.unicode => Err(error),
            None => Ok(ClassAtom::One(letter as u32)),
        }
    }

    // A character behind a backslash that stands for itself or for a control character.
    fn identity(&mut self, letter: u8, class: bool) -> Result<ClassAtom, RegexError> {
        self.skip(1);
        let control = match letter {
            b'f' => 12,
            b'n' => 10,
            b'r' => 13,
            b't' => 9,
            b'v' => 11,
            _ => 0,
        };
        if control > 0 {
            self.skip(1);
            return Ok(ClassAtom::One(control));
        }
        let allowed = if self.unicode {
            is_syntax(letter) || (class && letter == b'-')
        } else {
            letter != b'k' || !self.named
        };
        if allowed {
            Ok(ClassAtom::One(self.unit()))
        } else {
            Err(RegexError::Escape)
        }
    }

    // The escape `\c` that stands here; without `u` its backslash alone where it names no control character.
    fn control(&mut self, class: bool) -> Result<ClassAtom, RegexError> {
        let letter = self.ahead(2);
        let wide = class && !self.unicode && (letter.is_ascii_digit() || letter == b'_');
        if letter.is_ascii_alphabetic() || wide {
            self.skip(3);
            Ok(ClassAtom::One((letter & 31) as u32))
        } else if self.unicode {
            Err(RegexError::Escape)
        } else {
            self.skip(1);
            Ok(ClassAtom::One(92))
        }
    }

    // The escape of octal digits that stands here: with `u` only `\0` before no digit.
    fn octal(&mut self) -> Result<ClassAtom, RegexError> {
        let first = octal_value(self.ahead(1)).unwrap_or(0);
        if self.unicode {
            if first > 0 || self.ahead(2).is_ascii_digit() {
                return Err(RegexError::Decimal);
            }
            self.skip(2);
            return Ok(ClassAtom::One(0));
        }
        self.skip(2);
        let mut number = first;
        for _ in 0..2 {
            match octal_value(self.ahead(0)) {
                Some(digit) if number < 32 => {
                    number = number * 8 + digit;
                    self.skip(1);
                }
                _ => break,
            }
        }
        Ok(ClassAtom::One(number))
    }

    // The number of so many hexadecimal digits that stand here; none, and stays, where they do not.
    fn hex(&mut self, count: usize) -> Option<u32> {
        let mut number: u32 = 0;
        for k in 0..count {
            let digit = hex_value(self.ahead(k))?;
            number = (number & 0xFFFFFFF) * 16 + digit;
        }
        self.skip(count);
        Some(number)
    }

    /// The number that stands here behind `\u`: in braces or of a surrogate pair only where `wide` is set. None,
    /// and stays, where none does.
    pub fn unicode_escape(&mut self, wide: bool) -> Option<u32> {
        if wide && self.ahead(0) == b'{' {
            return self.braced();
        }
        let high = self.hex(4)?;
        if wide && is_high(high) && self.ahead(0) == b'\\' && self.ahead(1) == b'u' {
            let start = self.at;
            self.skip(2);
            match self.hex(4) {
                Some(low) if is_low(low) => return Some(pair(high, low)),
                _ => self.at = start,
            }
        }
        Some(high)
    }

    // The number in braces that stands here.
    fn braced(&mut self) -> Option<u32> {
        let mut number: u32 = hex_value(self.ahead(1))?;
        let mut size: usize = 2;
        for _ in self.at..self.source.len() {
            match hex_value(self.ahead(size)) {
                Some(digit) if number < 1114112 => number = number * 16 + digit,
                _ => break,
            }
            size = size.saturating_add(1);
        }
        if self.ahead(size) != b'}' || number >= 1114112 {
            return None;
        }
        self.skip(size.saturating_add(1));
        Some(number)
    }

    /// The code point that stands here.
    pub fn code_point(&mut self) -> u32 {
        let number = char_at(self.source.as_bytes(), self.at) as u32;
        self.skip(match self.ahead(0) {
            0..=127 => 1,
            128..=223 => 2,
            224..=239 => 3,
            _ => 4,
        });
        number
    }

    /// The character that stands here: with `u` a code point, else a code unit of UTF-16, of which a character of
    /// four bytes has two.
    pub fn unit(&mut self) -> u32 {
        let byte = self.ahead(0);
        if byte < 240 && !is_inner(byte) || self.unicode {
            return self.code_point();
        }
        let start = if is_inner(byte) {
            self.at.saturating_sub(2)
        } else {
            self.at
        };
        let number = char_at(self.source.as_bytes(), start) as u32;
        self.skip(2);
        if is_inner(byte) {
            0xDC00 + (number & 1023)
        } else {
            0xD7C0 + number / 1024
        }
    }
}

// The value of an octal digit.
fn octal_value(byte: u8) -> Option<u32>
    ensures { IfSome result (λ value. value < 8) }
{
    match byte {
        b'0'..=b'7' => Some(byte as u32 - 48),
        _ => None,
    }
}

// Whether the character is one of the syntax, which `u` lets an escape stand for (`SyntaxCharacter`).
fn is_syntax(byte: u8) -> bool {
    matches!(
        byte,
        b'^' | b'$'
            | b'\\'
            | b'.'
            | b'*'
            | b'+'
            | b'?'
            | b'('
            | b')'
            | b'['
            | b']'
            | b'{'
            | b'}'
            | b'|'
            | b'/'
    )
}

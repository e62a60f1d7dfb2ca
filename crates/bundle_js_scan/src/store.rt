//! The store of the texts that are not those of the source.

use crate::byte::{byte_at, char_at, is_inner};
use crate::escape::{EscapeStep, Mode, is_high, is_low, next_step, pair};
use crate::token::{Tok, Token};
use std::alloc::{AllocError, Global};

/// The texts of tokens whose text is not that of the source, one behind the other in the order of the source.
#[derive(Drop)]
pub struct Store {
    texts: String,
    // Where each of them ends.
    ends: Vec<u32>,
    // Where the token of each begins in the source.
    begins: Vec<u32>,
}

impl Store {
    /// No texts.
    pub fn new(alloc: Global) -> Store {
        Store {
            texts: String::new(alloc),
            ends: Vec::new(alloc),
            begins: Vec::new(alloc),
        }
    }

    /// Adds the text of a token behind those before, where it is not that of the source. A name's and a string's escapes
    /// are replaced by what they give, and a string has no quotes, a private name no `#`; a part of a template has line
    /// feeds for carriage returns.
    pub fn cook(&mut self, source: &str, token: Token) -> Result<(), AllocError> {
        if !token.escaped {
            return Ok(());
        }
        let text = source.as_bytes();
        let from = token.from as usize;
        let to = token.to as usize;
        match token.kind {
            Tok::Str => self.push_cooked(text, from.saturating_add(1), to.saturating_sub(1))?,
            Tok::PrivateName => self.push_cooked(text, from.saturating_add(1), to)?,
            Tok::TplPart | Tok::TplLast => self.push_raw(text, from, token.raw_end() as usize)?,
            _ => self.push_cooked(text, from, to)?,
        }
        self.begins.push(token.from)?;
        self.ends
            .push(u32::try_from(self.texts.len()).unwrap_or(u32::MAX))?;
        Ok(())
    }

    /// The text of the token that begins at this byte of the source; none where that has none here.
    pub fn text(&self, byte: u32) -> Option<&str> {
        let at = self.begins.as_slice().binary_search(&byte).ok()?;
        let from = match at {
            0 => 0,
            _ => *self.ends.get(at - 1)? as usize,
        };
        let to = *self.ends.get(at)? as usize;
        if from <= to {
            self.texts.as_str().get(from..to)
        } else {
            None
        }
    }

    // Adds the text from here to there with its escapes replaced.
    fn push_cooked(&mut self, text: &[u8], from: usize, to: usize) -> Result<(), AllocError> {
        let mut mode = Mode::Plain;
        let mut high = 0;
        for at in from..to {
            let byte = byte_at(text, at);
            if is_inner(byte) {
                continue;
            }
            let c = char_at(text, at);
            if matches!(mode, Mode::Plain) && byte != b'\\' {
                self.texts.push(c)?;
                continue;
            }
            let next = byte_at(text, at.saturating_add(1));
            mode = match next_step(mode, c, next) {
                EscapeStep::Go(next) => next,
                EscapeStep::Gives(number) => {
                    high = self.push_number(high, number)?;
                    Mode::Plain
                }
                EscapeStep::Nothing | EscapeStep::Refused(_) => Mode::Plain,
            };
        }
        Ok(())
    }

    // Adds the character of this number, and gives the first half of a surrogate pair that is to wait for its
    // second, 0 where none does.
    fn push_number(&mut self, high: u32, number: u32) -> Result<u32, AllocError> {
        if is_high(number) {
            return Ok(number);
        }
        let number = if is_low(number) {
            pair(high, number)
        } else {
            number
        };
        self.texts
            .push(char::from_u32(number).unwrap_or('\u{FFFD}'))?;
        Ok(0)
    }

    // Adds the text from here to there with line feeds for carriage returns.
    fn push_raw(&mut self, text: &[u8], from: usize, to: usize) -> Result<(), AllocError> {
        for at in from..to {
            let byte = byte_at(text, at);
            if byte == b'\r' {
                if byte_at(text, at.saturating_add(1)) != b'\n' {
                    self.texts.push('\n')?;
                }
            } else if !is_inner(byte) {
                self.texts.push(char_at(text, at))?;
            }
        }
        Ok(())
    }
}

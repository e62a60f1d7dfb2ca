//! A pattern that is read, and its terms (ECMA-262, 22.2.1).

ghost use Rattle.std.specs.Prelude.{◌≤◌, ⊤, length, MatchResult};

use crate::fault::{RegexError, RegexRefusal};
use crate::flags::unicode_of;
use crate::survey::survey_of;
use bundle_js_scan::byte::byte_at;
use std::alloc::Global;
use std::collections::BTreeMap;

/// What a group is.
#[derive(Clone, Copy, PartialEq, Eq, Debug)]
pub enum RegexGroup {
    /// It captures, or only groups.
    Plain,
    /// It looks ahead.
    Ahead,
    /// It looks behind.
    Behind,
}

/// A reference to a group by its name, and its place.
#[derive(Drop)]
pub struct BackReference {
    pub name: String,
    pub at: usize,
}

/// A pattern, the place up to which it is read, and what was read so far.
#[derive(Drop)]
pub struct Pattern<'a> {
    pub source: &'a str,
    pub at: usize,
    /// Whether it has the flag `u`.
    pub unicode: bool,
    /// How many groups it captures.
    pub groups: usize,
    /// Whether one of its groups has a name.
    pub named: bool,
    /// The groups that are open.
    pub open: Vec<RegexGroup>,
    /// The names of groups, with their places.
    pub names: BTreeMap<String, usize>,
    pub references: Vec<BackReference>,
    pub alloc: Global,
}

/// Checks the text of a pattern and its flags: an error with the byte of the pattern at which reading stopped.
pub fn check(alloc: Global, pattern: &str, flags: &str) -> Result<(), RegexRefusal>
    ensures { MatchResult result (λ _. ⊤) (λ refusal. refusal.at ≤ length pattern.now) }
{
    let unicode = match unicode_of(flags) {
        Ok(unicode) => unicode,
        Err(error) => return Err(RegexRefusal { error, at: 0 }),
    };
    let seen = survey_of(pattern.as_bytes());
    let mut reader = Pattern {
        source: pattern,
        at: 0,
        unicode,
        groups: seen.groups,
        named: seen.named,
        open: Vec::new(alloc),
        names: BTreeMap::new(alloc),
        references: Vec::new(alloc),
        alloc,
    };
    match reader.terms() {
        Ok(()) => Ok(()),
        Err(error) => {
            let at = reader.at.min(pattern.len());
            Err(RegexRefusal { error, at })
        }
    }
}

/// Checks a literal with its slashes and flags: an error with the byte of the literal at which reading stopped.
pub fn check_literal(alloc: Global, literal: &str) -> Result<(), RegexRefusal>
    ensures { MatchResult result (λ _. ⊤) (λ refusal. refusal.at ≤ length literal.now) }
{
    let end = match literal.rfind('/') {
        Some(end) if end > 0 => end,
        _ => {
            return Err(RegexRefusal {
                error: RegexError::Flag,
                at: 0,
            });
        }
    };
    let pattern = literal.get(1..end).unwrap_or("");
    let flags = literal
        .get(end.saturating_add(1)..literal.len())
        .unwrap_or("");
    match check(alloc, pattern, flags) {
        Ok(()) => Ok(()),
        Err(RegexRefusal { error, at }) => {
            let at = at.saturating_add(1).min(literal.len());
            Err(RegexRefusal { error, at })
        }
    }
}

impl Pattern<'_> {
    /// The byte so far behind the place, and 0 behind the end.
    pub fn ahead(&self, far: usize) -> u8 {
        byte_at(self.source.as_bytes(), self.at.saturating_add(far))
    }

    /// Whether the pattern is read.
    pub fn is_end(&self) -> bool {
        self.at >= self.source.len()
    }

    /// Goes so many bytes on.
    pub fn skip(&mut self, count: usize) {
        self.at = self.at.saturating_add(count);
    }

    /// Goes on over the byte where it stands here.
    pub fn eat(&mut self, byte: u8) -> bool {
        let here = !self.is_end() && self.ahead(0) == byte;
        if here {
            self.skip(1);
        }
        here
    }

    // Reads the whole pattern. Each term takes a byte at least.
    fn terms(&mut self) -> Result<(), RegexError> {
        if self.groups > 32767 {
            return Err(RegexError::Groups);
        }
        for _ in 0..self.source.len() {
            if self.is_end() {
                break;
            }
            self.term()?;
        }
        if self.open.len() > 0 {
            return Err(RegexError::OpenGroup);
        }
        self.resolve()
    }

    // Reads a term, or one of the signs between terms.
    fn term(&mut self) -> Result<(), RegexError> {
        match self.ahead(0) {
            b'^' | b'$' | b'|' => {
                self.skip(1);
                Ok(())
            }
            b'(' => self.open_group(),
            b')' => {
                let group = self.close_group()?;
                self.quantifier(group)
            }
            b'*' | b'+' | b'?' => Err(RegexError::Nothing),
            b'[' => {
                self.skip(1);
                self.class()?;
                self.quantifier(RegexGroup::Plain)
            }
            b'\\' => {
                if self.escape()? {
                    self.quantifier(RegexGroup::Plain)
                } else {
                    Ok(())
                }
            }
            b'{' | b'}' | b']' => self.bracket(),
            _ => {
                self.skip(1);
                self.quantifier(RegexGroup::Plain)
            }
        }
    }

    // A bracket that is a character by itself, without `u` alone.
    fn bracket(&mut self) -> Result<(), RegexError> {
        if self.ahead(0) == b'{' && self.interval().is_some() {
            Err(RegexError::Nothing)
        } else if self.unicode {
            Err(RegexError::Bracket)
        } else {
            self.skip(1);
            self.quantifier(RegexGroup::Plain)
        }
    }

    // The quantifier behind an atom or a group of this kind, if one stands there.
    fn quantifier(&mut self, group: RegexGroup) -> Result<(), RegexError> {
        match self.ahead(0) {
            b'*' | b'+' | b'?' => self.skip(1),
            b'{' => match self.interval() {
                Some((least, greatest)) => if least > greatest {
                    return Err(RegexError::Numbers);
                },
                None if self.unicode => return Err(RegexError::Brace),
                None => return Ok(()),
            },
            _ => return Ok(()),
        }
        let _lazy = self.eat(b'?');
        match group {
            RegexGroup::Plain => Ok(()),
            RegexGroup::Ahead if !self.unicode => Ok(()),
            _ => Err(RegexError::Quantifier),
        }
    }

    // The numbers of the quantifier in braces that begins here, and goes behind it; none, and stays, where none
    // does.
    fn interval(&mut self) -> Option<(u32, u32)> {
        let start = self.at;
        self.skip(1);
        let numbers = self.interval_numbers();
        if numbers.is_none() {
            self.at = start;
        }
        numbers
    }

    fn interval_numbers(&mut self) -> Option<(u32, u32)> {
        let least = self.number()?;
        if self.eat(b'}') {
            return Some((least, least));
        }
        if !self.eat(b',') {
            return None;
        }
        if self.eat(b'}') {
            return Some((least, u32::MAX));
        }
        let greatest = self.number()?;
        if self.eat(b'}') {
            Some((least, greatest))
        } else {
            None
        }
    }

    // The number whose digits begin here, cut at 2 ^ 31 - 1 as V8 does.
    fn number(&mut self) -> Option<u32> {
        if !self.ahead(0).is_ascii_digit() {
            return None;
        }
        let mut number: u32 = 0;
        for _ in self.at..self.source.len() {
            match self.ahead(0) {
                byte @ b'0'..=b'9' => {
                    number = number.saturating_mul(10).saturating_add(byte as u32 - 48);
                    self.skip(1);
                }
                _ => break,
            }
        }
        Some(number.min(2147483647))
    }
}

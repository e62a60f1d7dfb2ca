//! Names (ECMA-262, 12.7).

use crate::byte::{byte_at, char_at, is_inner};
use crate::escape::{EscapeStep, Mode, next_step};
use crate::fault::ScanError;
use crate::scanned::Scanned;
use crate::token::{Tok, is_name};
use crate::word::word_kind;

/// Whether a name may begin with the character.
pub fn is_start(c: char) -> bool {
    match c {
        'a'..='z' | 'A'..='Z' | '$' | '_' => true,
        '\0'..='\u{7F}' => false,
        _ => unicode_ident::is_xid_start(c) || is_compatible(c),
    }
}

/// Whether a name may hold the character behind its first.
pub fn is_part(c: char) -> bool {
    match c {
        'a'..='z' | 'A'..='Z' | '0'..='9' | '$' | '_' | '\u{200C}' | '\u{200D}' => true,
        '\0'..='\u{7F}' => false,
        _ => unicode_ident::is_xid_continue(c) || is_compatible(c),
    }
}

// Whether the character has the property ID_Start, or ID_Continue, and only its compatible forms have not
// (UAX 31, 5.1).
fn is_compatible(c: char) -> bool {
    matches!(
        c,
        '\u{37A}' | '\u{E33}' | '\u{EB3}' | '\u{309B}' | '\u{309C}' | '\u{FC5E}'..='\u{FC63}'
            | '\u{FDFA}'
            | '\u{FDFB}'
            | '\u{FE70}'
            | '\u{FE72}'
            | '\u{FE74}'
            | '\u{FE76}'
            | '\u{FE78}'
            | '\u{FE7A}'
            | '\u{FE7C}'
            | '\u{FE7E}'
            | '\u{FF9E}'
            | '\u{FF9F}'
    )
}

/// Whether a name begins at this place, be it with an escape.
pub fn begins_name(text: &[u8], at: usize) -> bool {
    let byte = byte_at(text, at);
    byte == b'\\' || (at < text.len() && is_start(char_at(text, at)))
}

/// Where the characters of names that begin here end, none of them an escape.
pub fn parts_end(text: &[u8], from: usize) -> usize {
    for at in from..text.len() {
        let byte = text[at];
        if !is_inner(byte) && !is_part(char_at(text, at)) {
            return at;
        }
    }
    text.len()
}

// Whether the byte is a letter of ASCII.
#[inline]
fn is_letter(byte: u8) -> bool {
    (byte | 32).wrapping_sub(b'a') < 26
}

/// Whether a name begins with this byte of ASCII.
#[inline]
pub fn is_plain_start(byte: u8) -> bool {
    is_letter(byte) || byte == b'$' || byte == b'_'
}

// Whether a name may hold this byte of ASCII behind its first.
#[inline]
fn is_plain_part(byte: u8) -> bool {
    is_plain_start(byte) || byte.wrapping_sub(b'0') < 10
}

/// The name that begins here, of any characters; none where none does.
pub fn name_at(text: &[u8], from: usize) -> Option<Scanned> {
    let byte = byte_at(text, from);
    if is_plain_start(byte) {
        Some(name_from(text, from))
    } else if byte == b'\\' || byte >= 128 {
        wide_name(text, from)
    } else {
        None
    }
}

/// The name that begins here with a byte of ASCII.
pub fn name_from(text: &[u8], from: usize) -> Scanned {
    for at in from..text.len() {
        let byte = text[at];
        if is_letter(byte) {
            continue;
        }
        if !is_plain_part(byte) {
            if byte == b'\\' || byte >= 128 {
                return match wide_name(text, from) {
                    Some(name) => name,
                    None => Scanned::plain(Tok::Ident, at),
                };
            }
            return plain_name(text, from, at);
        }
    }
    plain_name(text, from, text.len())
}

// The name from here to there.
#[inline]
fn plain_name(text: &[u8], from: usize, to: usize) -> Scanned {
    let kind = match text.get(from..to) {
        Some(word) => word_kind(word),
        None => Tok::Ident,
    };
    Scanned::plain(kind, to)
}

// A name with escapes or characters beyond ASCII, as far as it is read: its first characters, and how many.
#[derive(Drop)]
struct NamePrefix {
    word: [u8; 12],
    size: usize,
}

impl NamePrefix {
    // Whether the name may go on with this character.
    fn takes(&self, c: char) -> bool {
        if self.size == 0 {
            is_start(c)
        } else {
            is_part(c)
        }
    }

    // Adds a character.
    fn add(&mut self, c: char) {
        if self.size < 12 {
            self.word[self.size] = u8::try_from(c as u32).unwrap_or(255);
            self.size += 1;
        }
    }

    // What the name is that ends here.
    fn ends(&self, escaped: bool, to: usize) -> Option<Scanned> {
        if self.size == 0 {
            return None;
        }
        let kind = match self.word.as_slice().get(..self.size) {
            Some(word) => word_kind(word),
            None => Tok::Ident,
        };
        Some(Scanned {
            kind: if escaped { escaped_kind(kind) } else { kind },
            to,
            escaped,
            fault: None,
        })
    }
}

// What a word is where it holds an escape.
fn escaped_kind(kind: Tok) -> Tok {
    match kind {
        Tok::Arguments | Tok::Await | Tok::Constructor | Tok::Eval | Tok::Prototype => kind,
        _ if is_name(kind) => Tok::Ident,
        _ => Tok::Escaped,
    }
}

// The name that begins here, with escapes or characters beyond ASCII.
fn wide_name(text: &[u8], from: usize) -> Option<Scanned> {
    let mut name = NamePrefix {
        word: [0; 12],
        size: 0,
    };
    let mut mode = Mode::Plain;
    let mut escaped = false;
    for at in from..text.len() {
        if is_inner(text[at]) {
            continue;
        }
        let c = char_at(text, at);
        match name_step(mode, c) {
            EscapeStep::Go(next) => {
                mode = next;
                escaped = true;
            }
            EscapeStep::Gives(number) => match char::from_u32(number) {
                Some(c) if name.takes(c) => {
                    name.add(c);
                    mode = Mode::Plain;
                }
                _ if matches!(mode, Mode::Plain) => return name.ends(escaped, at),
                _ => return Some(Scanned::bad(ScanError::NameEscape, at)),
            },
            EscapeStep::Nothing | EscapeStep::Refused(_) => {
                return Some(Scanned::bad(ScanError::NameEscape, at));
            }
        }
    }
    if matches!(mode, Mode::Plain) {
        name.ends(escaped, text.len())
    } else {
        Some(Scanned::bad(ScanError::NameEscape, text.len()))
    }
}

// What the character does in a name, in which `\u` begins the only escapes.
fn name_step(mode: Mode, c: char) -> EscapeStep {
    match mode {
        Mode::Plain if c != '\\' => EscapeStep::Gives(c as u32),
        Mode::Backslash if c != 'u' => EscapeStep::Refused(ScanError::NameEscape),
        _ => next_step(mode, c, 0),
    }
}

//! Strings, parts of templates and regular expressions (ECMA-262, 12.9.4 to 12.9.6).

use crate::byte::{byte_at, char_at, is_inner, is_line_end};
use crate::escape::{EscapeStep, Mode, is_high, is_low, next_step};
use crate::fault::ScanError;
use crate::name::parts_end;
use crate::scanned::Scanned;
use crate::token::Tok;

/// The string of strict code whose text begins here, behind its quote.
pub fn string_at(text: &[u8], from: usize, quote: u8) -> Scanned {
    for at in from..text.len() {
        let byte = text[at];
        if byte == quote {
            return Scanned::plain(Tok::Str, at + 1);
        } else if byte == b'\\' {
            return escaped_string(text, at, quote);
        } else if byte == b'\n' || byte == b'\r' {
            return Scanned::bad(ScanError::Quote, at);
        }
    }
    Scanned::bad(ScanError::Quote, text.len())
}

// The string whose first escape begins here.
fn escaped_string(text: &[u8], from: usize, quote: u8) -> Scanned {
    let mut mode = Mode::Plain;
    let mut half = false;
    for at in from..text.len() {
        let byte = text[at];
        if is_inner(byte) {
            continue;
        }
        if matches!(mode, Mode::Plain) {
            if byte == b'\\' {
                mode = Mode::Backslash;
            } else if half {
                return Scanned::bad(ScanError::Surrogate, at);
            } else if byte == quote {
                return Scanned {
                    kind: Tok::Str,
                    to: at + 1,
                    escaped: true,
                    fault: None,
                };
            } else if byte == b'\n' || byte == b'\r' {
                return Scanned::bad(ScanError::Quote, at);
            }
            continue;
        }
        match next_step(mode, char_at(text, at), byte_at(text, at + 1)) {
            EscapeStep::Go(next) => mode = next,
            EscapeStep::Gives(number) => {
                if half != is_low(number) {
                    return Scanned::bad(ScanError::Surrogate, at);
                }
                half = is_high(number);
                mode = Mode::Plain;
            }
            EscapeStep::Nothing => mode = Mode::Plain,
            EscapeStep::Refused(error) => return Scanned::bad(error, at),
        }
    }
    Scanned::bad(ScanError::Quote, text.len())
}

/// The part of a template that begins here, up to its back quote or `${`. Its fault is an escape that only a
/// tagged template may hold.
pub fn chunk_at(text: &[u8], from: usize) -> Scanned {
    let mut mode = Mode::Plain;
    let mut fault = None;
    let mut escaped = false;
    for at in from..text.len() {
        let byte = text[at];
        if is_inner(byte) {
            continue;
        }
        escaped = escaped || byte == b'\r';
        if !matches!(mode, Mode::Plain) {
            match next_step(mode, char_at(text, at), byte_at(text, at + 1)) {
                EscapeStep::Go(next) => {
                    mode = next;
                    continue;
                }
                EscapeStep::Gives(_) | EscapeStep::Nothing => {
                    mode = Mode::Plain;
                    continue;
                }
                EscapeStep::Refused(error) => {
                    let begun = matches!(mode, Mode::Backslash);
                    mode = Mode::Plain;
                    fault = fault.or(Some(error));
                    if begun {
                        continue;
                    }
                }
            }
        }
        let (kind, size) = match byte {
            b'`' => (Tok::TplLast, 1),
            b'$' if byte_at(text, at + 1) == b'{' => (Tok::TplPart, 2),
            b'\\' => {
                mode = Mode::Backslash;
                continue;
            }
            _ => continue,
        };
        return Scanned {
            kind,
            to: at.saturating_add(size),
            escaped,
            fault,
        };
    }
    Scanned::bad(ScanError::Template, text.len())
}

/// The regular expression whose text begins here, behind its slash, with its flags.
pub fn regex_at(text: &[u8], from: usize) -> Scanned {
    let mut escaped = false;
    let mut class = false;
    for at in from..text.len() {
        let byte = text[at];
        if is_line_end(text, at) {
            return Scanned::bad(ScanError::Regex, at);
        } else if escaped {
            escaped = false;
        } else if byte == b'\\' {
            escaped = true;
        } else if byte == b'[' {
            class = true;
        } else if byte == b']' {
            class = false;
        } else if byte == b'/' && !class {
            return flags_at(text, at + 1);
        }
    }
    Scanned::bad(ScanError::Regex, text.len())
}

// The flags of a regular expression that begin here.
fn flags_at(text: &[u8], from: usize) -> Scanned {
    let to = parts_end(text, from);
    if byte_at(text, to) == b'\\' {
        Scanned::bad(ScanError::NameEscape, to)
    } else {
        Scanned::plain(Tok::Regex, to)
    }
}

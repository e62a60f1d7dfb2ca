//! White space, line ends and comments between tokens (ECMA-262, 12.2 to 12.5 and B.1.1).

use crate::byte::{byte_at, char_at, is_inner, is_line_end};

/// What a text is read as: an ECMAScript module, or a CommonJS module, in which HTML-like comments are
/// comments (ECMA-262, B.1.1).
#[derive(Clone, Copy, PartialEq, Eq, Debug)]
pub enum Goal {
    Module,
    CommonJs,
}

/// What stands before a token: where it ends, whether a line ends in it, whether it holds a comment that is
/// kept, and whether it ends with the begin of a comment that has no end.
#[derive(Clone, Copy)]
pub struct Gap {
    pub to: usize,
    pub newline: bool,
    pub noted: bool,
    pub open: bool,
}

/// A comment that begins with `/*!` or holds `@license` or `@preserve`: the bytes from its first slash to its
/// end, without the line end behind it.
#[derive(Clone, Copy)]
pub struct Comment {
    pub from: u32,
    pub to: u32,
}

// A comment of any kind. Only one that is marked may be kept.
#[derive(Clone, Copy)]
struct Remark {
    to: usize,
    newline: bool,
    ended: bool,
    marked: bool,
}

// A run of white space and line ends.
#[derive(Clone, Copy)]
struct Space {
    to: usize,
    newline: bool,
}

/// The white space and the comments that begin here.
#[inline]
pub fn gap_at(text: &[u8], from: usize, goal: Goal) -> Gap {
    if from > 0 && begins_token(byte_at(text, from)) {
        return Gap {
            to: from,
            newline: false,
            noted: false,
            open: false,
        };
    }
    wide_gap(text, from, goal)
}

// Whether with this byte neither white space nor a comment begins.
#[inline]
fn begins_token(byte: u8) -> bool {
    byte > b' ' && byte < 128 && !matches!(byte, b'/' | b'#' | b'<' | b'-')
}

// The white space and the comments that begin here, be they none.
fn wide_gap(text: &[u8], from: usize, goal: Goal) -> Gap {
    let mut gap = Gap {
        to: from,
        newline: from == 0,
        noted: false,
        open: false,
    };
    for _ in from..text.len() {
        let space = space_at(text, gap.to);
        gap.newline = gap.newline || space.newline;
        gap.to = space.to;
        match remark_at(text, space.to, gap.newline, goal) {
            None => return gap,
            Some(remark) => {
                if !remark.ended {
                    gap.open = true;
                    return gap;
                }
                gap.noted = gap.noted || (remark.marked && is_kept(text, space.to, remark.to));
                gap.newline = gap.newline || remark.newline;
                gap.to = remark.to;
            }
        }
    }
    gap
}

/// The first comment that is kept of those that begin between these places.
pub fn kept_in(text: &[u8], from: usize, end: usize, goal: Goal) -> Option<Comment> {
    let mut at = from;
    for _ in from..end {
        let start = space_at(text, at).to;
        let remark = remark_at(text, start, true, goal)?;
        if start >= end {
            return None;
        }
        if is_kept(text, start, remark.to) {
            let from = u32::try_from(start).ok()?;
            let to = u32::try_from(remark.to).ok()?;
            return Some(Comment { from, to });
        }
        at = remark.to;
    }
    None
}

// The white space and the line ends that begin here.
fn space_at(text: &[u8], from: usize) -> Space {
    let mut newline = false;
    for at in from..text.len() {
        let byte = text[at];
        if byte > b' ' {
            if byte < 128 {
                return Space { to: at, newline };
            }
            if !is_inner(byte) {
                if is_line_end(text, at) {
                    newline = true;
                } else if !is_space(char_at(text, at)) {
                    return Space { to: at, newline };
                }
            }
        } else if byte == b'\n' || byte == b'\r' {
            newline = true;
        } else if !matches!(byte, b' ' | b'\t' | 11 | 12) {
            return Space { to: at, newline };
        }
    }
    Space {
        to: text.len().max(from),
        newline,
    }
}

// Whether the character beyond ASCII is white space (ECMA-262, 12.2).
fn is_space(c: char) -> bool {
    matches!(
        c,
        '\u{A0}' | '\u{1680}' | '\u{2000}'..='\u{200A}'
            | '\u{202F}'
            | '\u{205F}'
            | '\u{3000}'
            | '\u{FEFF}'
    )
}

// The comment that begins here, if one does. `fresh` says whether nothing but white space and comments stands
// before it on its line.
#[inline]
fn remark_at(text: &[u8], at: usize, fresh: bool, goal: Goal) -> Option<Remark> {
    if matches!(byte_at(text, at), b'/' | b'#' | b'<' | b'-') {
        sign_at(text, at, fresh, goal)
    } else {
        None
    }
}

// The same behind one of the bytes that comments begin with.
fn sign_at(text: &[u8], at: usize, fresh: bool, goal: Goal) -> Option<Remark> {
    let next = byte_at(text, at.saturating_add(1));
    match byte_at(text, at) {
        b'/' => {
            if next == b'/' {
                Some(line_at(text, at))
            } else if next == b'*' {
                Some(block_at(text, at.saturating_add(2)))
            } else {
                None
            }
        }
        b'#' if at == 0 && next == b'!' => Some(line_at(text, at)),
        b'<' if goal == Goal::CommonJs && begins(text, at, b"<!--") => Some(line_at(text, at)),
        b'-' if goal == Goal::CommonJs && fresh && begins(text, at, b"-->") => {
            Some(line_at(text, at))
        }
        _ => None,
    }
}

// Whether these bytes stand here.
fn begins(text: &[u8], at: usize, word: &[u8]) -> bool {
    for k in 0..word.len() {
        if byte_at(text, at.saturating_add(k)) != word[k] {
            return false;
        }
    }
    true
}

// Whether the byte ends no comment and no line, and does not mark what is kept.
#[inline]
fn is_inside(byte: u8) -> bool {
    byte == b' ' || (byte > b'@' && byte < 226)
}

// The comment that goes on to the end of its line.
fn line_at(text: &[u8], from: usize) -> Remark {
    let mut marked = false;
    for at in from..text.len() {
        let byte = text[at];
        if is_inside(byte) {
            continue;
        }
        marked = marked || byte == b'@';
        if byte == b'\n' || byte == b'\r' || (byte == 226 && is_line_end(text, at)) {
            return Remark {
                to: at,
                newline: false,
                ended: true,
                marked,
            };
        }
    }
    Remark {
        to: text.len(),
        newline: false,
        ended: true,
        marked,
    }
}

// The comment whose text begins here, behind `/*`.
fn block_at(text: &[u8], from: usize) -> Remark {
    let mut newline = false;
    let mut marked = byte_at(text, from) == b'!';
    for at in from..text.len() {
        let byte = text[at];
        if is_inside(byte) {
            continue;
        }
        match byte {
            b'*' => if byte_at(text, at + 1) == b'/' {
                return Remark {
                    to: at.saturating_add(2),
                    newline,
                    ended: true,
                    marked,
                };
            },
            b'@' => marked = true,
            b'\n' | b'\r' => newline = true,
            226 => newline = newline || is_line_end(text, at),
            _ => {}
        }
    }
    Remark {
        to: text.len(),
        newline,
        ended: false,
        marked,
    }
}

// Whether the comment from here to there is kept.
fn is_kept(text: &[u8], from: usize, to: usize) -> bool {
    if byte_at(text, from) != b'/' {
        return false;
    }
    if begins(text, from, b"/*!") {
        return true;
    }
    for at in from..to {
        if byte_at(text, at) == b'@'
            && (begins(text, at, b"@license") || begins(text, at, b"@preserve"))
        {
            return true;
        }
    }
    false
}

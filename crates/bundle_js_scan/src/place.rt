//! Lines and columns.

ghost use Rattle.std.specs.Prelude.{◌≤◌, ◌+◌};

use crate::byte::{byte_at, is_inner, is_separator};

/// A place in a text as tools name it: the line from 1 on, the column from 0 on in UTF-16 code units.
#[derive(Clone, Copy)]
pub struct Position {
    pub line: usize,
    pub column: usize,
}

/// The line and the column of the character at this byte of the text. Lines end as ECMA-262 has it (12.3).
pub fn position_at(text: &str, at: usize) -> Position
    ensures first { 1 ≤ result.line }
    ensures within { result.line + result.column ≤ at + 1 }
{
    let text = text.as_bytes();
    let mut line: usize = 1;
    let mut column: usize = 0;
    for k in 0..at.min(text.len()) {
        if ends_line(text, k) {
            line += 1;
            column = 0;
        } else if begins_unit(text, k) {
            column += 1;
        }
    }
    Position { line, column }
}

// Whether a code unit of UTF-16 stands for the byte: the first of a character, or the second of four.
fn begins_unit(text: &[u8], at: usize) -> bool {
    !is_inner(byte_at(text, at)) || byte_at(text, at.saturating_sub(1)) >= 240
}

// Whether a line ends with the character whose first byte stands here.
fn ends_line(text: &[u8], at: usize) -> bool {
    match byte_at(text, at) {
        b'\n' => true,
        b'\r' => byte_at(text, at.saturating_add(1)) != b'\n',
        226 => is_separator(text, at),
        _ => false,
    }
}

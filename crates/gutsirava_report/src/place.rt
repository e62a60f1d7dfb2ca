//! Places in files.

ghost use Rattle.std.specs.Prelude.{◌≡◌, ◌≤◌, ◌+◌, ◌++◌, length, false, None, IfOk, IsSomeAnd};
ghost use Rattle.gutsirava_report.specs.Fronts.{has_byte, line_place, IsFront, IsLineAt};
ghost use Rattle.std.specs.String.{string_bytes};
ghost use Rattle.gutsirava_report.specs.Lines.{is_line_end, line_ends};

use std::alloc::{AllocError, Global};
use unicode_width::UnicodeWidthChar;

/// How many bytes of a line are shown before the mark, and how many from it on.
const MOST: usize = 72;

/// A place in a file: a stretch of a line, or the file alone.
pub struct FilePlace {
    /// What the file is called.
    pub path: String,
    /// The stretch, if the message speaks of one.
    pub stretch: Option<Stretch>,
}

/// A stretch of a line, and what of the line is shown around it.
pub struct Stretch {
    /// The line, from 1 on. Lines end at a line feed, a carriage return, or the two together.
    pub line: usize,
    /// The column of the first character, from 1 on, in characters.
    pub column: usize,
    /// The line before the stretch, or its end.
    pub before: String,
    /// Whether more of the line stands before that.
    pub has_more_before: bool,
    /// The stretch as far as its first line, or its front.
    pub marked: String,
    /// The line behind the stretch, or its front.
    pub after: String,
    /// Whether more of the line stands behind that.
    pub has_more_after: bool,
}

impl Drop for FilePlace {
    fn drop(self) {
        let FilePlace {
            path: _path,
            stretch: _stretch,
        } = self;
    }
}

impl Drop for Stretch {
    fn drop(self) {
        let Stretch {
            line: _line,
            column: _column,
            before: _before,
            has_more_before: _has_more_before,
            marked: _marked,
            after: _after,
            has_more_after: _has_more_after,
        } = self;
    }
}

impl FilePlace {
    /// The file with no line.
    pub fn of_file(alloc: Global, path: &str) -> Result<FilePlace, AllocError>
        ensures path { IfOk result (λ place. string_bytes place.path ≡ path.now) }
        ensures whole { IfOk result (λ place. place.stretch ≡ None) }
    {
        Ok(FilePlace {
            path: String::from_str(alloc, path)?,
            stretch: None,
        })
    }

    /// The stretch of the file's whole text from the byte `at` to the byte `end`. Bytes within a character, or behind
    /// the text, stand for the character's first and for the text's end.
    pub fn in_text(
        alloc: Global,
        path: &str,
        text: &str,
        at: usize,
        end: usize,
    ) -> Result<FilePlace, AllocError>
        ensures path { IfOk result (λ place. string_bytes place.path ≡ path.now) }
        ensures line { IfOk result (λ place. IsSomeAnd place.stretch
            (λ it. IsLineAt text.now at it.line)) }
    {
        Ok(FilePlace {
            path: String::from_str(alloc, path)?,
            stretch: Some(stretch_at(alloc, text, at, end)?),
        })
    }
}

fn stretch_at(alloc: Global, text: &str, at: usize, end: usize) -> Result<Stretch, AllocError>
    ensures from_1 { IfOk result (λ stretch. (1 ≤ stretch.line) × (1 ≤ stretch.column)) }
    ensures line { IfOk result (λ stretch. IsLineAt text.now at stretch.line) }
{
    let (front, rest) = split(text, before_line_feed(text, at));
    let line = line_after(front);
    let column = last_line(front).chars().count().saturating_add(1);
    let (front, rest) = from_base(text, front, rest);
    let width = end.saturating_sub(front.len());
    let before = last_line(front);
    let (marked, after) = split(first_line(rest), width);
    let shown_before = back_of(before, MOST);
    let shown_marked = front_of(marked, MOST);
    let shown_after = front_of(after, MOST.saturating_sub(marked.len()));
    Ok(Stretch {
        line,
        column,
        before: String::from_str(alloc, shown_before)?,
        has_more_before: shown_before.len() < before.len(),
        marked: String::from_str(alloc, shown_marked)?,
        after: String::from_str(alloc, shown_after)?,
        has_more_after: shown_marked.len() < marked.len() || shown_after.len() < after.len(),
    })
}

// The text in two, at the byte or at the first of its character.
fn split(text: &str, at: usize) -> (&str, &str)
    ensures whole { result.0.now ++ result.1.now ≡ text.now }
    ensures within { length result.0.now ≤ at }
    ensures front { IsFront text.now at result.0.now }
{
    text.split_at(text.floor_char_boundary(at))
}

// The byte, or the one before it where the two are a carriage return and a line feed: they end one line.
fn before_line_feed(text: &str, at: usize) -> usize
    ensures { result ≡ line_place text.now at }
{
    let text = text.as_bytes();
    let before = at.saturating_sub(1);
    if has_byte(text, before, b'\r') && has_byte(text, at, b'\n') {
        before
    } else {
        at
    }
}

fn has_byte(text: &[u8], at: usize, byte: u8) -> bool
    ensures { result ≡ has_byte text.now at byte }
{
    match text.get(at) {
        Some(here) => *here == byte,
        None => false,
    }
}

// Whether a line ends with the byte, which follows a carriage return or not.
fn ends_line(follows_return: bool, byte: u8) -> bool
    ensures { result ≡ is_line_end follows_return byte }
{
    byte == b'\r' || (byte == b'\n' && !follows_return)
}

// The line in which the text ends, from 1 on.
#[tactic(auto, using(std::proofs::lemmas::Grind::common_steps, crate::proofs::LineLemmas::line_ends_more, crate::proofs::LineLemmas::line_ends_none))]
fn line_after(text: &str) -> usize
    ensures { result ≡ 1 + line_ends false text.now }
{
    let mut line: usize = 1;
    let mut follows_return = false;
    for byte in text.as_bytes() {
        if ends_line(follows_return, *byte) {
            line += 1;
        }
        follows_return = *byte == b'\r';
    }
    line
}

fn last_line(text: &str) -> &str {
    let line = text.rsplit_once('\n').map_or(text, |(_, line)| line);
    line.rsplit_once('\r').map_or(line, |(_, line)| line)
}

fn first_line(text: &str) -> &str {
    let line = text.split_once('\n').map_or(text, |(line, _)| line);
    line.split_once('\r').map_or(line, |(line, _)| line)
}

// The text in two as it is, or before the character that the second part's first is joined to, as a mark to its letter.
fn from_base<'a>(text: &'a str, front: &'a str, rest: &'a str) -> (&'a str, &'a str) {
    let is_joined = rest.chars().next().is_some_and(|c| c.width() == Some(0));
    match front.chars().next_back() {
        Some(base) if is_joined && base != '\n' && base != '\r' => {
            split(text, front.len().saturating_sub(base.len_utf8()))
        }
        _ => (front, rest),
    }
}

// The last bytes of a text, at most so many and those of a character.
fn back_of(text: &str, most: usize) -> &str {
    split(text, text.len().saturating_sub(most)).1
}

// The first bytes of a text, at most so many.
fn front_of(text: &str, most: usize) -> &str
    ensures { length result.now ≤ most }
{
    split(text, most).0
}

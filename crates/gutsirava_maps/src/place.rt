//! Lines and columns.

ghost use Rattle.std.specs.Prelude.{◌≡◌, ◌<◌, All, length};
ghost use Rattle.gutsirava_maps.specs.Places.{IsMarkOf, byte_at, ends_line, is_separator, stepped, units_of};

use std::alloc::{AllocError, Global};

/// How many bytes lie at most between two marks.
const STRIDE: usize = 4096;

/// A place in a text: the line and the column, both from 0 on, the column in UTF-16 code units. What 32 bits cannot
/// number is the greatest that they can.
#[derive(Clone, Copy, PartialEq, Eq, Debug)]
pub struct LineColumn {
    pub line: u32,
    pub column: u32,
}

/// A byte of a text, with its place.
#[derive(Clone, Copy)]
pub struct PlaceMark {
    pub at: usize,
    pub place: LineColumn,
}

/// A text that is gone over.
#[derive(Drop)]
pub struct TextCursor<'t> {
    text: &'t [u8],
    here: PlaceMark,
    /// Bytes that were passed, each behind the one before it.
    marks: Vec<PlaceMark>,
    ghost here_is: { IsMarkOf text.now here },
    ghost marks_are: { All (IsMarkOf text.now) marks.items },
}

/// Where a text begins.
const BEGIN: PlaceMark = PlaceMark {
    at: 0,
    place: LineColumn { line: 0, column: 0 },
};

impl<'t> TextCursor<'t> {
    ghost use Rattle.std.specs.Prelude.{◌≡◌, ◌≤◌, ◌<◌, ◌+◌, min, All, IfOk, OnOk, length};
    ghost use Rattle.gutsirava_maps.specs.Places.{IsMarkOf, place_in};

    /// At the begin of a text.
    #[tactic(auto, using(std::proofs::lemmas::Grind::common_steps, crate::proofs::PlaceLemmas::begin_is))]
    pub fn new(alloc: Global, text: &'t str) -> TextCursor<'t>
        ensures { result.text.now ≡ text.now }
    {
        TextCursor {
            text: text.as_bytes(),
            here: BEGIN,
            marks: Vec::new(alloc),
        }
    }

    /// The place of a byte, or of the end where there is none. Lines end as ECMA-262 has it (12.3). It takes the time of
    /// the way from the last one on, or of at most 4,096 bytes where that is behind. Refused only for memory.
    pub fn place_of(&mut self, at: usize) -> Result<LineColumn, AllocError>
        ensures same { self.new.text.now ≡ self.old.text.now }
        ensures place { IfOk result (λ place.
            place ≡ place_in self.old.text.now (min at (length self.old.text.now))) }
    {
        let at = at.min(self.text.len());
        if at < self.here.at {
            self.back_to(at);
        }
        self.go_to(at)?;
        Ok(self.here.place)
    }

    // Goes back to the last mark that is not behind a byte.
    #[tactic(auto, using(std::proofs::lemmas::Grind::common_steps, crate::proofs::PlaceLemmas::begin_is))]
    fn back_to(&mut self, at: usize)
        ensures same { self.new.text.now ≡ self.old.text.now }
        ensures before { self.new.here.at ≤ at }
    {
        self.here = BEGIN;
        while let Some(mark) = self.marks.pop() {
            if mark.at <= at {
                self.here = mark;
                break;
            }
        }
    }

    // Goes on to a byte, which is not behind the text's end.
    fn go_to(&mut self, at: usize) -> Result<(), AllocError>
        requires before { self.old.here.at ≤ at }
        requires within { at ≤ length self.old.text.now }
        ensures same { self.new.text.now ≡ self.old.text.now }
        ensures there { OnOk result (self.new.here.at ≡ at) }
    {
        while self.here.at < at {
            self.note()?;
            self.step();
        }
        Ok(())
    }

    // Notes where it stands, where a mark is due.
    fn note(&mut self) -> Result<(), AllocError>
        ensures same { self.new.text.now ≡ self.old.text.now }
        ensures here { self.new.here ≡ self.old.here }
    {
        if self.here.at % STRIDE == 0 {
            self.marks.push(self.here)?;
        }
        Ok(())
    }

    // Goes on to the next byte.
    #[tactic(auto, using(std::proofs::lemmas::Grind::common_steps, crate::proofs::PlaceLemmas::place_step))]
    fn step(&mut self)
        requires { self.old.here.at < length self.old.text.now }
        ensures same { self.new.text.now ≡ self.old.text.now }
        ensures there { self.new.here.at ≡ self.old.here.at + 1 }
    {
        let at = self.here.at;
        let place = stepped(self.text, at, self.here.place);
        self.here = PlaceMark { at: at + 1, place };
    }
}

// The place behind a byte that has this place.
fn stepped(text: &[u8], at: usize, place: LineColumn) -> LineColumn
    requires { at < length text.now }
    ensures { result ≡ stepped text.now at place }
{
    if ends_line(text, at) {
        return LineColumn {
            line: place.line.saturating_add(1),
            column: 0,
        };
    }
    LineColumn {
        line: place.line,
        column: place.column.saturating_add(units_of(text[at])),
    }
}

// How many code units of UTF-16 the character has of which this is the first byte; of any other byte, none.
fn units_of(byte: u8) -> u32
    ensures { result ≡ units_of byte }
{
    if byte < 128 {
        1
    } else if byte < 192 {
        0
    } else if byte < 240 {
        1
    } else {
        2
    }
}

// Whether a line ends with the character whose first byte stands here.
fn ends_line(text: &[u8], at: usize) -> bool
    ensures { result ≡ ends_line text.now at }
{
    match byte_at(text, at) {
        10 => true,
        13 => byte_at(text, at.saturating_add(1)) != 10,
        226 => is_separator(text, at),
        _ => false,
    }
}

// Whether the bytes here are those of U+2028 or U+2029.
fn is_separator(text: &[u8], at: usize) -> bool
    ensures { result ≡ is_separator text.now at }
{
    let last = byte_at(text, at.saturating_add(2));
    byte_at(text, at.saturating_add(1)) == 128 && (last == 168 || last == 169)
}

// The byte at a place; behind the end, 0.
fn byte_at(text: &[u8], at: usize) -> u8
    ensures { result ≡ byte_at text.now at }
{
    match text.get(at) {
        Some(byte) => *byte,
        None => 0,
    }
}

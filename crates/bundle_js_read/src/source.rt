//! A text that was read.

ghost use Rattle.std.specs.Prelude.{◌≡◌, ◌≤◌, length, IfErr, MatchResult};
ghost use Rattle.bundle_js_pieces.specs.Brackets.{IsBracketed};
ghost use Rattle.bundle_js_read.specs.Doubts as doubts;

use crate::doubts::{has_declaration, has_doubt};
use crate::error::{ReadError, ReadErrorKind};
use crate::foreign::foreign_at;
use bundle_js_errors::{Early, EarlyError, check};
use bundle_js_parse::{Parsed, parse};
use bundle_js_pieces::{PieceError, Placed, RecordTexts, pieces};
use bundle_js_record::reader::Stop;
use bundle_js_scan::gap::Goal;
use bundle_syntax::{ExportMetadata, Piece};
use std::alloc::Global;

/// A comment that a bundle keeps, whole, and the piece of the list in front of which it stands: the number of
/// the pieces where it stands behind all.
#[derive(Clone, Copy, PartialEq, Eq, Debug)]
pub struct KeptComment<'a> {
    pub piece: usize,
    pub text: &'a str,
}

/// The text of a module that was read: what its list is made of. The list borrows from it.
#[derive(Drop)]
pub struct SourceModule<'a> {
    pub text: &'a str,
    parsed: Parsed,
    notes: ExportMetadata,
}

/// What was read of a text, without the text: it can be kept where that moves.
#[derive(Drop)]
pub struct SourceRecords {
    parsed: Parsed,
}

impl<'a> SourceModule<'a> {
    /// The module of a text of which these are the records. Of another text's records `pieces` is refused as
    /// `ReadErrorKind::Internal`, or gives the list of no module that stands here.
    pub fn with_records(text: &'a str, records: SourceRecords) -> SourceModule<'a>
        ensures text { result.text.now ≡ text.now }
        ensures records { result.parsed ≡ records.parsed }
    {
        let SourceRecords { parsed } = records;
        SourceModule {
            text,
            parsed,
            notes: ExportMetadata::default(),
        }
    }

    /// What was read, without the text: `with_records` makes the module of it again.
    pub fn into_records(self) -> SourceRecords
        ensures { result.parsed ≡ self.entry.parsed }
    {
        let SourceModule { parsed, .. } = self;
        SourceRecords { parsed }
    }

    /// Whether the text, which was read as an ECMAScript module, is no CommonJS module for sure: it has a declaration that
    /// only an ECMAScript module may have, and tokens that are the same in both. They are not where a comment like those
    /// of HTML begins (ECMA-262, B.1.1), or where `await` stands before what is a division behind a name. Where this says
    /// no, the text may still be no CommonJS module.
    pub fn is_no_common_js(&self) -> bool
        ensures { result ≡ doubts.is_no_common_js self.now.text.now self.now.parsed.records.items }
    {
        let records = self.parsed.records.as_slice();
        has_declaration(records) && !has_doubt(self.text, records)
    }

    /// Reads a text as a module of this goal (ECMA-262, 16.2; a CommonJS module is the body of a function in
    /// strict code). Nests take memory and no stack. Refused where the text is none, with the place in the text
    /// that is wrong first, and for memory. What declares or exports a name twice is read.
    pub fn read(alloc: Global, text: &'a str, goal: Goal) -> Result<SourceModule<'a>, ReadError>
        ensures { MatchResult result (λ source. source.text.now ≡ text.now)
            (λ error. error.at ≤ length text.now) }
    {
        let parsed = match parse(alloc, text, goal) {
            Ok(parsed) => parsed,
            Err((stop, at)) => {
                return Err(ReadError {
                    kind: kind_of(text, stop, at),
                    at,
                });
            }
        };
        let source = SourceModule {
            text,
            parsed,
            notes: ExportMetadata::default(),
        };
        match source.checked(alloc) {
            Ok(()) => Ok(source),
            Err(ReadError { kind, at }) => Err(ReadError {
                kind,
                at: within(text, at),
            }),
        }
    }

    // Refused where there is an early error.
    fn checked(&self, alloc: Global) -> Result<(), ReadError> {
        match check(alloc, self.texts(), self.parsed.records.as_slice()) {
            Ok(()) => Ok(()),
            Err(EarlyError::Early(early, at)) => Err(ReadError {
                kind: ReadErrorKind::Early(early),
                at,
            }),
            Err(EarlyError::Text) => Err(ReadError {
                kind: ReadErrorKind::Internal,
                at: 0,
            }),
            Err(EarlyError::OutOfMemory) => Err(ReadError {
                kind: ReadErrorKind::OutOfMemory,
                at: 0,
            }),
        }
    }

    fn texts(&self) -> RecordTexts<'_> {
        RecordTexts {
            source: self.text,
            store: &self.parsed.store,
            notes: &self.notes,
        }
    }

    /// The list of the module's tree, and the place of each piece in the text. Refused where more nodes lie in
    /// each other than `most`, and for memory.
    pub fn pieces(&self, alloc: Global, most: usize) -> Result<Placed<'_>, ReadError>
        ensures { MatchResult result (λ list. IsBracketed list.pieces.items)
            (λ error. error.at ≤ length self.now.text.now) }
    {
        match pieces(alloc, self.texts(), self.parsed.records.as_slice()) {
            Ok(placed) if placed.depth > most => Err(ReadError {
                kind: ReadErrorKind::TooDeep,
                at: within(self.text, placed.deepest),
            }),
            Ok(placed) => Ok(placed),
            Err(error) => Err(ReadError {
                kind: match error {
                    PieceError::Text => ReadErrorKind::Internal,
                    PieceError::OutOfMemory => ReadErrorKind::OutOfMemory,
                },
                at: 0,
            }),
        }
    }

    /// The comments that a bundle keeps, in the order of the text: those that begin with `/*!` or hold
    /// `@license` or `@preserve`. The list is that of `pieces`. Refused only for memory.
    pub fn comments(
        &self,
        alloc: Global,
        list: &Placed<'_>,
    ) -> Result<Vec<KeptComment<'_>>, ReadError>
        ensures { IfErr result (λ error. error.at ≤ length self.now.text.now) }
    {
        let mut comments = Vec::new(alloc);
        let mut piece = 0;
        for comment in self.parsed.comments.as_slice() {
            piece = begin_behind(list, piece, comment.from);
            let text: &str = self.text;
            let kept = KeptComment {
                piece,
                text: text
                    .get(comment.from as usize..comment.to as usize)
                    .unwrap_or(""),
            };
            if comments.push(kept).is_err() {
                return Err(ReadError {
                    kind: ReadErrorKind::OutOfMemory,
                    at: 0,
                });
            }
        }
        Ok(comments)
    }
}

// The first begin of a node in the list, from this piece on, that stands at this byte or behind it; the number
// of the pieces where there is none.
fn begin_behind(list: &Placed<'_>, piece: usize, byte: u32) -> usize {
    for at in piece..list.pieces.len() {
        let is_behind = match list.places.get(at) {
            Some(place) => *place >= byte,
            None => false,
        };
        if is_behind && matches!(list.pieces[at], Piece::Open { .. }) {
            return at;
        }
    }
    list.pieces.len()
}

// A byte of the text, 0 where there is no such byte.
fn within(text: &str, at: u32) -> u32
    ensures { result ≤ length text.now }
{
    if at as usize <= text.len() { at } else { 0 }
}

// What is wrong where reading stopped at this byte.
fn kind_of(text: &str, stop: Stop, at: u32) -> ReadErrorKind {
    match stop {
        Stop::OutOfMemory => ReadErrorKind::OutOfMemory,
        Stop::Unexpected | Stop::Reserved => match foreign_at(text, at as usize) {
            Some(kind) => kind,
            None => ReadErrorKind::Syntax(stop),
        },
        _ => ReadErrorKind::Syntax(stop),
    }
}

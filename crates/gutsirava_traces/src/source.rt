//! A source of a map, while the map is made.

ghost use Rattle.std.specs.Prelude.{◌≡◌};

use crate::trace::SourceTrace;
use gutsirava_maps::{LineColumn, TextCursor};
use std::alloc::{AllocError, Global};

/// A source of a map, with its number there.
#[derive(Drop)]
pub struct SourceFile<'x> {
    pub(crate) number: u32,
    pub(crate) text: &'x str,
    pub(crate) trace: &'x SourceTrace,
    cursor: TextCursor<'x>,
    ghost over: { cursor.text.now ≡ text.now },
}

impl<'x> SourceFile<'x> {
    ghost use Rattle.std.specs.Prelude.{◌≡◌, IfOk};
    ghost use Rattle.gutsirava_traces.specs.Told.{known, place_within};

    /// Of this text.
    pub fn new(alloc: Global, number: u32, text: &'x str, trace: &'x SourceTrace) -> SourceFile<'x>
        ensures { known result ≡ record {
          number = number;
          text = text.now;
          places = trace.now.places.items;
          statements = trace.now.statements.items;
        } }
    {
        SourceFile {
            number,
            text,
            trace,
            cursor: TextCursor::new(alloc, text),
        }
    }

    /// The place of a byte.
    pub(crate) fn place_of(&mut self, at: u32) -> Result<LineColumn, AllocError>
        ensures same { known self.new ≡ known self.old }
        ensures place { IfOk result (λ place. place ≡ place_within self.old.text.now at) }
    {
        self.cursor.place_of(at as usize)
    }
}

//! A map that is made of the items of a bundle, one after the other.

ghost use Rattle.std.specs.Prelude.{◌≤◌};

use crate::ends::end_of;
use crate::mark::MapMark;
use crate::name::{has_name, name_at};
use crate::shape::{PieceShape, shape_of};
use crate::source::SourceFile;
use crate::trace::NOWHERE;
use crate::walk::StatementWalk;
use bundle_syntax::{Node, Piece};
use gutsirava_maps::{MapOrigin, Mappings, NameList, TextCursor};
use std::alloc::{AllocError, Global};

/// How many nodes end behind the statements of a function that loads a module: its block, and those around that.
const BACK: usize = 7;

/// The list of a bundle, with the place of each piece in the text that was printed of it.
#[derive(Clone, Copy)]
pub struct PrintedList<'x, 'a> {
    pub pieces: &'x [Piece<'a>],
    pub offsets: &'x [u32],
}

impl<'a> PrintedList<'_, 'a> {
    ghost use Rattle.std.specs.Prelude.{◌≡◌, ◌≤◌};
    ghost use Rattle.gutsirava_traces.specs.Ends.{end_of};
    ghost use Rattle.gutsirava_traces.specs.Told.{offset_of};

    /// The place behind the node that begins at a place, or behind the leaf there; behind the end, the place itself.
    pub fn behind(&self, at: usize) -> usize
        ensures value { result ≡ end_of self.now.pieces.now at }
        ensures behind { at ≤ result }
    {
        end_of(self.pieces, at)
    }

    pub(crate) fn offset(&self, at: usize) -> u32
        ensures { result ≡ offset_of self.now at }
    {
        self.offsets.get(at).copied().unwrap_or(0)
    }

    pub(crate) fn shape(&self, at: usize) -> PieceShape {
        match self.pieces.get(at) {
            Some(piece) => shape_of(piece),
            None => PieceShape::End,
        }
    }

    pub(crate) fn name(&self, at: usize) -> Option<&'a str> {
        match self.pieces.get(at) {
            Some(Piece::Ident { sym, .. }) => Some(*sym),
            _ => None,
        }
    }
}

/// A map that is being made.
#[derive(Drop)]
pub struct MapMaker<'x> {
    alloc: Global,
    pub mappings: Mappings,
    pub names: NameList,
    /// The text of the bundle, and where in it the print of the list begins.
    text: TextCursor<'x>,
    base: usize,
    /// What is told last, and not yet put down.
    mark: Option<MapMark>,
}

impl<'x> MapMaker<'x> {
    ghost use Rattle.std.specs.Prelude.{◌≡◌, ◌≢◌, ◌≤◌, ◌++◌, [], List, None, String, IfOk, OnOk, slice_get, string_bytes};
    ghost use Rattle.std.specs.declared.alloc.Global.{Global};
    ghost use Rattle.gutsirava_maps.specs.Mapping.{first_segment};
    ghost use Rattle.gutsirava_traces.specs.Ends.{end_of};
    ghost use Rattle.gutsirava_traces.specs.Told.{begin_of, known, offset_of, waits_at, IsFinished, IsNameAt, IsOneTold, IsTold, StatementBegins, Tells, TellsFrom, TellsParts};
    ghost use Rattle.gutsirava_traces.specs.Traces.{place_of};

    /// Of a bundle with this text, in which the print of the list begins at a byte.
    pub fn new(alloc: Global, text: &'x str, base: usize) -> MapMaker<'x>
        ensures segments { string_bytes result.mappings.text ≡ [] }
        ensures last { result.mappings.last ≡ first_segment }
        ensures names { result.names.names.items ≡ [] }
        ensures text { result.text.text.now ≡ text.now }
        ensures base { result.base ≡ base }
        ensures waits { result.mark ≡ None }
    {
        MapMaker {
            alloc,
            mappings: Mappings::new(alloc),
            names: NameList::new(alloc),
            text: TextCursor::new(alloc, text),
            base,
            mark: None,
        }
    }

    /// Takes in an item, which begins at a place of the list, that stands for a statement of a source. Gives the place
    /// behind it. Each place that is told is that of a piece of the source's list, from the statement's begin on, and each
    /// name stands there; along the bundle's list neither goes back. Where a statement stands in the bundle and its begin in
    /// the source, its first piece is told. Refused only for memory, and where 32 bits cannot number the names.
    pub fn add_statement(
        &mut self,
        list: PrintedList<'_, '_>,
        at: usize,
        source: &mut SourceFile<'_>,
        statement: usize,
    ) -> Result<usize, AllocError>
        ensures behind { IfOk result (λ behind. at ≤ behind) }
        ensures told { IfOk result (λ behind. TellsFrom list.entry at behind
            (begin_of (known source.old) statement) source.old source.new self.old self.new) }
        ensures begun { IfOk result (λ behind. StatementBegins
            (slice_get (known source.old).statements statement) list.entry at behind
            source.old source.new self.old self.new) }
    {
        match source.trace.statement(statement) {
            Some(own) => {
                let walk = StatementWalk::new(self.alloc, list, at, own);
                let behind = walk.run(self, source)?;
                Ok(behind)
            }
            None => {
                let behind = self.add_other(list, at)?;
                Ok(behind)
            }
        }
    }

    /// Takes in an item, which begins at a place of the list and has the statements of a source in a function. Gives the
    /// place behind it. What is told of each statement is as `add_statement` has it.
    pub fn add_function(
        &mut self,
        list: PrintedList<'_, '_>,
        at: usize,
        source: &mut SourceFile<'_>,
    ) -> Result<usize, AllocError>
        ensures behind { IfOk result (λ behind. at ≤ behind) }
        ensures told { IfOk result (λ behind. TellsParts list.entry at source.old self.old
            behind source.new self.new) }
    {
        self.tell_other(list, at)?;
        let begin = begin_of_body(list, at);
        let next = self.add_statements(list, begin, source)?;
        self.tell_other(list, next)?;
        Ok(next.saturating_add(BACK))
    }

    // Takes in all statements of a source, of which the first begins at a place of the list. Gives the place behind them.
    fn add_statements(
        &mut self,
        list: PrintedList<'_, '_>,
        begin: usize,
        source: &mut SourceFile<'_>,
    ) -> Result<usize, AllocError>
        ensures behind { IfOk result (λ behind. begin ≤ behind) }
        ensures told { IfOk result (λ behind. TellsParts list.entry begin source.old self.old
            behind source.new self.new) }
    {
        let mut next = begin;
        for statement in 0..source.trace.statements.len() {
            next = self.add_statement(list, next, source, statement)?;
        }
        Ok(next)
    }

    /// Takes in an item, which begins at a place of the list, that stands for nothing in a source. Gives the place behind
    /// it.
    pub fn add_other(&mut self, list: PrintedList<'_, '_>, at: usize) -> Result<usize, AllocError>
        ensures behind { IfOk result (λ behind. behind ≡ end_of list.entry.pieces.now at) }
        ensures told { OnOk result (IsTold self.old self.new
            (record { offset = offset_of list.entry at; origin = None })) }
    {
        self.tell_other(list, at)?;
        Ok(list.behind(at))
    }

    // Tells that a piece comes from no source.
    fn tell_other(&mut self, list: PrintedList<'_, '_>, at: usize) -> Result<(), AllocError>
        ensures { OnOk result (IsTold self.old self.new
            (record { offset = offset_of list.entry at; origin = None })) }
    {
        self.tell(MapMark {
            offset: list.offset(at),
            origin: None,
        })
    }

    /// Puts down what is left.
    pub fn finish(&mut self) -> Result<(), AllocError>
        ensures { OnOk result (IsFinished self.old self.new) }
    {
        self.put_down()
    }

    // Tells that a piece comes from where a piece of a source's list stands, with the name that stands there; of what
    // stands nowhere, nothing.
    #[tactic(auto, using(std::proofs::lemmas::Grind::common_steps, crate::proofs::ToldLemmas::tells_none))]
    pub(crate) fn tell_piece(
        &mut self,
        list: PrintedList<'_, '_>,
        at: usize,
        source: &mut SourceFile<'_>,
        own: usize,
    ) -> Result<(), AllocError>
        ensures tells { OnOk result (Tells list.entry
            (record { first = at; last = at; own = own; own_last = own })
            source.old source.new self.old self.new) }
        ensures one { OnOk result (place_of (known source.old).places own ≢ NOWHERE
            → IsOneTold list.entry at own source.old source.new self.old self.new) }
    {
        let place = source.trace.place(own);
        if place == NOWHERE {
            return Ok(());
        }
        let name = self.name_of(list, at, source, place)?;
        let origin = MapOrigin {
            source: source.number,
            place: source.place_of(place)?,
            name,
        };
        self.tell(MapMark {
            offset: list.offset(at),
            origin: Some(origin),
        })
    }

    // The number of the name that is told of a piece, which comes from a place of a source.
    fn name_of(
        &mut self,
        list: PrintedList<'_, '_>,
        at: usize,
        source: &SourceFile<'_>,
        place: u32,
    ) -> Result<Option<u32>, AllocError>
        ensures name { IfOk result (IsNameAt source.now.text.now place self.new.names.names.items) }
        ensures kept { (more : List (String Global)) ×
            (self.new.names.names.items ≡ self.old.names.names.items ++ more) }
        ensures same { self.new ≡ record self.old { names = self.new.names } }
    {
        match list.name(at) {
            Some(sym) => self.changed_name(sym, source.text, place as usize),
            None => Ok(None),
        }
    }

    // The number of the name that stands at a place of a source, where that is another one.
    fn changed_name(
        &mut self,
        sym: &str,
        text: &str,
        place: usize,
    ) -> Result<Option<u32>, AllocError>
        ensures name { IfOk result (IsNameAt text.now place self.new.names.names.items) }
        ensures kept { (more : List (String Global)) ×
            (self.new.names.names.items ≡ self.old.names.names.items ++ more) }
        ensures same { self.new ≡ record self.old { names = self.new.names } }
    {
        if has_name(text, place, sym) {
            return Ok(None);
        }
        let name = name_at(text, place);
        if name.is_empty() {
            return Ok(None);
        }
        Ok(Some(self.names.number_of(name)?))
    }

    // Puts down what was told before, unless it is of the same byte.
    fn tell(&mut self, mark: MapMark) -> Result<(), AllocError>
        ensures { OnOk result (IsTold self.old self.new mark) }
    {
        if self.waits_at(mark.offset) {
            self.mark = Some(mark);
            return Ok(());
        }
        self.put_down()?;
        self.mark = Some(mark);
        Ok(())
    }

    // Whether something of this byte waits.
    fn waits_at(&self, offset: u32) -> bool
        ensures { result ≡ waits_at self.now.mark offset }
    {
        match &self.mark {
            Some(mark) => mark.offset == offset,
            None => false,
        }
    }

    // Puts down what waits.
    fn put_down(&mut self) -> Result<(), AllocError>
        ensures { OnOk result (IsFinished self.old self.new) }
    {
        let Some(mark) = self.mark.take() else {
            return Ok(());
        };
        let at = self.base.saturating_add(mark.offset as usize);
        let place = self.text.place_of(at)?;
        self.mappings.add(place, mark.origin)
    }
}

// Where the statements of the function begin that an item has, which begins at a place.
fn begin_of_body(list: PrintedList<'_, '_>, at: usize) -> usize
    ensures { at ≤ result }
{
    for next in at..list.pieces.len() {
        if is_block(list.pieces.get(next)) {
            return next.saturating_add(1);
        }
    }
    at.max(list.pieces.len())
}

fn is_block(piece: Option<&Piece<'_>>) -> bool {
    matches!(
        piece,
        Some(Piece::Open {
            node: Node::BlockStmt,
            ..
        })
    )
}

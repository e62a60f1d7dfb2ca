//! The text that grows from a list.

ghost use Rattle.std.specs.Prelude.{◌≤◌, string_len, IfOk};

use crate::closes::{Closes, number_of};
use crate::context::{PrintContext, Start, name_needs_parens, needs_parens, slot_of};
use crate::frame::{Arrival, Last, PrintFrame, Wrap};
use crate::level::Level;
use crate::punctuation::{opening_of, separator_before};
use crate::text::Charset;
use bundle_syntax::{Node, Piece};
use std::alloc::{AllocError, Global};

/// A comment, whole, and the place in the list of the statement in front of which it stands.
#[derive(Clone, Copy, Debug)]
pub struct LeadingComment<'c> {
    pub piece: u32,
    pub text: &'c str,
}

/// A text that grows, and what of the list is still open.
#[derive(Drop)]
pub struct Printer<'p, 'a> {
    pub(crate) pieces: &'p [Piece<'a>],
    pub(crate) comments: &'p [LeadingComment<'p>],
    pub(crate) charset: Charset,
    pub(crate) closes: Closes,
    pub text: String,
    pub(crate) frames: Vec<PrintFrame<'p, 'a>>,
    pub(crate) depth: usize,
    /// How many comments have been written.
    pub(crate) told: usize,
}

impl<'p, 'a> Printer<'p, 'a> {
    /// A printer of these pieces, which are items in `root`.
    pub fn new(
        alloc: Global,
        root: &'p Node<'a>,
        pieces: &'p [Piece<'a>],
        comments: &'p [LeadingComment<'p>],
        charset: Charset,
    ) -> Result<Printer<'p, 'a>, AllocError> {
        let closes = Closes::of(alloc, pieces)?;
        let mut frames = Vec::new(alloc);
        frames.push(PrintFrame::new(root, 0, 0, PrintContext::inside(Level::Sequence)))?;
        Ok(Printer {
            pieces,
            comments,
            charset,
            closes,
            text: String::new(alloc),
            frames,
            depth: 0,
            told: 0,
        })
    }

    /// Writes the piece at this place, and gives the place in the text where it begins, in bytes.
    pub fn write(&mut self, at: usize, piece: &'p Piece<'a>) -> Result<u32, AllocError>
        ensures grows { string_len self.old.text ≤ string_len self.new.text }
        ensures place { IfOk result (λ place. place ≤ string_len self.new.text) }
    {
        match piece {
            Piece::Open { field, node } => self.open(at, *field, node),
            Piece::Ident { field, sym, .. } => self.name(at, *field, sym),
            Piece::Hole { field } => self.hole(at, *field),
            Piece::Close => self.close(at),
        }
    }

    /// Writes what stands behind the last piece.
    pub fn finish(&mut self) -> Result<(), AllocError>
        ensures grows { string_len self.old.text ≤ string_len self.new.text }
    {
        self.tell(usize::MAX)?;
        if self.text.is_empty() {
            Ok(())
        } else {
            self.text.push('\n')
        }
    }

    fn open(&mut self, at: usize, field: u8, node: &'p Node<'a>) -> Result<u32, AllocError>
        ensures grows { string_len self.old.text ≤ string_len self.new.text }
        ensures place { IfOk result (λ place. place ≤ string_len self.new.text) }
    {
        let arrival = self.arrive(at, field, Some(node))?;
        let offset = self.offset(arrival);
        let mut frame = PrintFrame::new(node, at, offset, arrival.context);
        frame.wrap = arrival.wrap;
        frame.is_deeper = arrival.is_deeper;
        if !arrival.is_written {
            if needs_parens(node, arrival.context, self.next(at)) || self.is_refused(at, arrival) {
                frame.wrap = Wrap::Parens;
                frame.context = PrintContext::inside(Level::Sequence);
                self.text.push('(')?;
            }
            self.write_opening(at, opening_of(node))?;
        }
        if matches!(node, Node::Tpl) {
            frame.quasi = self.first_quasi(at);
        }
        self.frames.push(frame)?;
        Ok(offset)
    }

    fn name(&mut self, at: usize, field: u8, sym: &'a str) -> Result<u32, AllocError>
        ensures grows { string_len self.old.text ≤ string_len self.new.text }
        ensures place { IfOk result (λ place. place ≤ string_len self.new.text) }
    {
        let arrival = self.arrive(at, field, None)?;
        let offset = self.offset(arrival);
        if arrival.is_written {
            return Ok(offset);
        }
        if name_needs_parens(sym, arrival.context.start, self.next(at)) {
            self.text.push('(')?;
            self.text.push_str(sym)?;
            self.text.push(')')?;
        } else {
            self.text.push_str(sym)?;
        }
        Ok(offset)
    }

    fn hole(&mut self, at: usize, field: u8) -> Result<u32, AllocError>
        ensures grows { string_len self.old.text ≤ string_len self.new.text }
        ensures place { IfOk result (λ place. place ≤ string_len self.new.text) }
    {
        let arrival = self.arrive(at, field, None)?;
        if let Some(frame) = self.frames.last_mut() {
            frame.last = Last::Hole;
        }
        Ok(self.offset(arrival))
    }

    fn close(&mut self, at: usize) -> Result<u32, AllocError>
        ensures grows { string_len self.old.text ≤ string_len self.new.text }
        ensures place { IfOk result (λ place. place ≤ string_len self.new.text) }
    {
        if self.frames.len() > 1
            && let Some(frame) = self.frames.pop()
        {
            self.write_ending(at, frame)?;
            if frame.is_deeper {
                self.depth = self.depth.saturating_sub(1);
            }
        }
        Ok(number_of(self.text.len()))
    }

    // Where in the text a child begins: here, or, if it has been written, where the node around it does.
    fn offset(&self, arrival: Arrival) -> u32
        ensures { result ≤ string_len self.now.text }
    {
        let end = number_of(self.text.len());
        match self.frames.last() {
            Some(frame) if arrival.is_written => frame.offset.min(end),
            _ => end,
        }
    }

    // The piece behind one.
    pub(crate) fn next(&self, at: usize) -> Option<&'p Piece<'a>> {
        self.pieces.get(at.saturating_add(1))
    }

    // The node that begins at this place of the list.
    pub(crate) fn node_at(&self, at: usize) -> Option<&'p Node<'a>> {
        match self.pieces.get(at)? {
            Piece::Open { node, .. } => Some(node),
            _ => None,
        }
    }

    // Where what stands behind the node or name at this place begins.
    pub(crate) fn behind(&self, at: usize) -> usize {
        self.closes.end_of(at).saturating_add(1)
    }

    // Whether a property at this place is the left side of a `for of` and called `async`, which V8 takes for the
    // name `async` alone.
    fn is_refused(&self, at: usize, arrival: Arrival) -> bool {
        arrival.context.start == Start::ForOf
            && matches!(
                self.node_at(at),
                Some(Node::MemberExpr | Node::SuperPropExpr)
            )
            && self.ends_in_async(at)
    }

    // Whether the last word of the node at this place is `async`.
    fn ends_in_async(&self, at: usize) -> bool {
        match self.node_at(self.closes.end_of(at).saturating_sub(2)) {
            Some(Node::IdentName { sym }) => *sym == "async",
            _ => false,
        }
    }

    // Whether the node around that at this place has no child behind it.
    pub(crate) fn is_last(&self, at: usize) -> bool {
        matches!(self.pieces.get(self.behind(at)), None | Some(Piece::Close))
    }

    // Where the first text of the template stands that begins at this place: the texts end the template.
    fn first_quasi(&self, at: usize) -> usize {
        let end = self.closes.end_of(at);
        let mut first = end;
        for _ in at..end {
            match self.node_at(first.saturating_sub(2)) {
                Some(Node::TplElement { .. }) => first = first.saturating_sub(2),
                _ => return first,
            }
        }
        first
    }

    // Writes what stands before a child, and says how it begins.
    fn arrive(
        &mut self,
        at: usize,
        field: u8,
        child: Option<&'p Node<'a>>,
    ) -> Result<Arrival, AllocError>
        ensures grows { string_len self.old.text ≤ string_len self.new.text }
    {
        let Some(frame) = self.frames.last().copied() else {
            return Ok(Arrival::plain(PrintContext::inside(Level::Sequence)));
        };
        let mut context = frame
            .context
            .of_child(slot_of(frame.node, field, frame.behind == 0));
        if matches!(frame.node, Node::IfStmt) && field == 1 && !self.is_last(at) {
            context.no_else = true;
        }
        let separator = separator_before(frame.node, frame.behind, field);
        let arrival = self.write_separator(separator, frame, at, child, context)?;
        if let Some(frame) = self.frames.last_mut() {
            frame.behind = field.saturating_add(1);
            frame.last = arrival.last;
        }
        Ok(arrival)
    }
}

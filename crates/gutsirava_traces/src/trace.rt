//! What is kept of the list of a module.

ghost use Rattle.std.specs.Prelude.{◌≡◌, Some};
ghost use Rattle.std.specs.Option.{option_copied};
ghost use Rattle.gutsirava_traces.specs.Statements.{begin_by, is_text, is_text_node, own_begin, within};

use crate::ends::depth_behind;
use crate::shape::{PieceShape, is_open, shape_of};
use bundle_syntax::{Node, Piece};
use std::alloc::{AllocError, Global};

/// The place of what stands in no source.
pub const NOWHERE: u32 = u32::MAX;

/// How a statement stands in a bundle.
#[derive(Clone, Copy, PartialEq, Eq, Debug)]
pub(crate) enum OwnForm {
    /// As it is.
    Same,
    /// As the value of a constant: the expression of an `export default`.
    Constant,
    /// As a declaration, with a name where it has none: the function or class of an `export default`.
    Declaration,
    /// Not at all: a comment, for which a string stood that is in no source.
    Gone,
}

/// A statement that a module states (ECMA-262, 16.2.3.7).
#[derive(Clone, Copy)]
pub(crate) struct OwnBegin {
    /// Where the node begins in the list that stands in a bundle.
    pub(crate) at: usize,
    pub(crate) form: OwnForm,
}

/// What is kept of the list of a module: what each piece is, and where it stands in the module's source.
#[derive(Drop)]
pub struct SourceTrace {
    pub(crate) shapes: Vec<PieceShape>,
    pub(crate) places: Vec<u32>,
    pub(crate) statements: Vec<OwnBegin>,
}

impl SourceTrace {
    ghost use Rattle.std.specs.Prelude.{◌≡◌, ◌+◌, ◌<◌, ◌≤◌, ◌++◌, IfOk, OnOk, length, slice_get, vec_len};
    ghost use Rattle.gutsirava_traces.specs.Statements.{form_of, stated, statements_on};
    ghost use Rattle.gutsirava_traces.specs.Traces.{place_of};

    /// Of the list of a module as it is handed to the linker, with the place of each piece in the module's source, or
    /// `NOWHERE`. Refused only for memory.
    pub fn of(
        alloc: Global,
        pieces: &[Piece<'_>],
        places: Vec<u32>,
    ) -> Result<SourceTrace, AllocError>
        ensures shapes { IfOk result (λ it. vec_len it.shapes ≡ length pieces.now) }
        ensures places { IfOk result (λ it. it.places ≡ places) }
        ensures statements { IfOk result (λ it.
            it.statements.items ≡ statements_on places.items pieces.now 0 0 pieces.now) }
    {
        let mut trace = SourceTrace {
            shapes: Vec::with_capacity(alloc, pieces.len())?,
            places,
            statements: Vec::new(alloc),
        };
        let mut depth: usize = 0;
        for at in 0..pieces.len() {
            let piece = &pieces[at];
            trace.take(pieces, at, depth, piece)?;
            depth = depth_behind(depth, piece);
        }
        Ok(trace)
    }

    // Takes in a piece, which stands at a place of a list, where so many nodes are open.
    fn take(
        &mut self,
        pieces: &[Piece<'_>],
        at: usize,
        depth: usize,
        piece: &Piece<'_>,
    ) -> Result<(), AllocError>
        ensures shapes { OnOk result (vec_len self.new.shapes ≡ vec_len self.old.shapes + 1) }
        ensures places { self.new.places ≡ self.old.places }
        ensures statements { OnOk result (self.new.statements.items ≡ self.old.statements.items
            ++ stated self.old.places.items pieces.now at depth piece.now) }
    {
        self.shapes.push(shape_of(piece))?;
        if depth != 1 {
            return Ok(());
        }
        match own_begin(piece, at) {
            Some(begin) => {
                let form = self.form_of(begin.form, pieces, at);
                self.statements.push(OwnBegin { form, ..begin })?;
                Ok(())
            }
            None => Ok(()),
        }
    }

    // How the statement of an item stands in a bundle: a comment does not.
    fn form_of(&self, form: OwnForm, pieces: &[Piece<'_>], at: usize) -> OwnForm
        ensures { result ≡ form_of self.now.places.items pieces.now at form }
    {
        if self.place(at) == NOWHERE && is_text(pieces.get(at.saturating_add(1))) {
            OwnForm::Gone
        } else {
            form
        }
    }

    /// The statement of this number.
    pub(crate) fn statement(&self, number: usize) -> Option<OwnBegin>
        ensures { result ≡ slice_get self.now.statements.items number }
    {
        self.statements.get(number).copied()
    }

    /// The shape at a place; behind the end, that of an end.
    pub(crate) fn shape(&self, at: usize) -> PieceShape {
        self.shapes.get(at).copied().unwrap_or(PieceShape::End)
    }

    /// The place in the source.
    pub(crate) fn place(&self, at: usize) -> u32
        ensures { result ≡ place_of self.now.places.items at }
    {
        self.places.get(at).copied().unwrap_or(NOWHERE)
    }

    /// The place behind the node that begins at a place, or behind the leaf there; behind the end, the place itself.
    pub(crate) fn behind(&self, at: usize) -> usize
        ensures { at ≤ result }
    {
        let mut depth: usize = 0;
        for next in at..self.shapes.len() {
            depth = depth_by(depth, self.shape(next));
            if depth == 0 {
                return next.saturating_add(1);
            }
        }
        at.max(self.shapes.len())
    }
}

// How many nodes are open behind a piece, where so many are before it.
fn depth_by(depth: usize, shape: PieceShape) -> usize {
    if is_open(shape) {
        depth.saturating_add(1)
    } else if matches!(shape, PieceShape::End) {
        depth.saturating_sub(1)
    } else {
        depth
    }
}

// The statement that a module states where a piece begins one of its items.
fn own_begin(piece: &Piece<'_>, at: usize) -> Option<OwnBegin>
    ensures { result ≡ own_begin piece.now at }
{
    match piece {
        Piece::Open { node, .. } => begin_by(node, at),
        Piece::Close => None,
        Piece::Ident { .. } => None,
        Piece::Hole { .. } => None,
    }
}

// The statement that the node at a place states.
#[tactic(auto, unfolding(crate::specs::Statements::begin_by))]
fn begin_by(node: &Node<'_>, at: usize) -> Option<OwnBegin>
    ensures { result ≡ begin_by node.now at }
{
    match node {
        Node::ImportDecl { .. } => None,
        Node::NamedExport { .. } => None,
        Node::ExportAll { .. } => None,
        Node::EmptyStmt => None,
        Node::ExportDecl => within(at, OwnForm::Same),
        Node::ExportDefaultExpr => within(at, OwnForm::Constant),
        Node::ExportDefaultDecl => within(at, OwnForm::Declaration),
        _ => Some(OwnBegin {
            at,
            form: OwnForm::Same,
        }),
    }
}

// What begins behind the begin of the node at a place.
fn within(at: usize, form: OwnForm) -> Option<OwnBegin>
    ensures { result ≡ Some (within at form) }
{
    Some(OwnBegin {
        at: at.saturating_add(1),
        form,
    })
}

// Whether a string begins with a piece.
fn is_text(piece: Option<&Piece<'_>>) -> bool
    ensures { result ≡ is_text (option_copied piece.entry) }
{
    match piece {
        Some(Piece::Open { node, .. }) => is_text_node(node),
        _ => false,
    }
}

#[tactic(auto, unfolding(crate::specs::Statements::is_text_node))]
fn is_text_node(node: &Node<'_>) -> bool
    ensures { result ≡ is_text_node node.now }
{
    matches!(node, Node::Str { .. })
}

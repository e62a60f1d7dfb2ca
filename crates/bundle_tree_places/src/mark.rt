//! The marks of a tree, and its occurrences.

ghost use Rattle.std.specs.Prelude.{◌≡◌, ◌++◌, ◌∷◌, [], OnOk, IfOk, map, option_to_list};
ghost use Rattle.bundle_syntax.specs.Item.{head_of, item_of};
ghost use Rattle.bundle_rules.specs.Places.{is_binding};
ghost use Rattle.bundle_rules.specs.Rebuilds as rebuilds;
ghost use Rattle.bundle_rules.specs.Rebuilds.{Begins, BeginsWord, Occurs, listed, marks_of_item};
ghost use Rattle.bundle_tree_places.specs.Marks.{listed_as, listed_of, mark_of};

use bundle_syntax::{Node as Head, Piece, Role};
use std::alloc::{AllocError, Global};

/// An identifier, borrowed from the tree: its text, and the number of its context.
#[derive(Clone, Copy, PartialEq, Eq, Debug)]
pub struct Name<'a> {
    pub sym: &'a str,
    pub ctxt: u32,
}

/// An identifier that binds a name or refers to one.
#[derive(Clone, Copy)]
pub struct OccurrenceRef<'a> {
    pub id: Name<'a>,
    pub binding: bool,
}

/// A node: one by its name, or an identifier that is a plain word.
#[derive(Clone, Copy, PartialEq, Eq, Debug)]
pub enum Node<'a> {
    Named(Head<'a>),
    Word { sym: &'a str },
}

/// One mark of a tree. `field` is the number of the field, from 0 on, in which a node lies in the node
/// around it.
#[derive(Clone, Copy)]
pub enum MarkRef<'a> {
    /// A node begins.
    Open { field: u8, node: Node<'a> },
    /// The innermost open node ends.
    Close,
    /// An identifier that binds or refers.
    Ident(OccurrenceRef<'a>),
}

/// The marks of a tree, in its order. Refused only where memory runs out.
pub fn marks_of<'a>(alloc: Global, pieces: &[Piece<'a>]) -> Result<Vec<MarkRef<'a>>, AllocError>
    ensures { IfOk result (λ marks.
        map mark_of marks.items ≡ rebuilds.marks_of (map item_of pieces.now)) }
{
    let mut marks = Vec::new(alloc);
    for piece in pieces {
        add_marks(&mut marks, piece)?;
    }
    Ok(marks)
}

// Adds the marks of one element of the list.
fn add_marks<'a>(marks: &mut Vec<MarkRef<'a>>, piece: &Piece<'a>) -> Result<(), AllocError>
    ensures { OnOk result
        (map mark_of marks.new.items
        ≡ map mark_of marks.old.items ++ marks_of_item (item_of piece.now)) }
{
    match piece {
        Piece::Open { field, node } => marks.push(node_mark(*field, *node))?,
        Piece::Ident {
            field,
            sym,
            role: Role::Word,
            ..
        } => {
            marks.push(word_mark(*field, sym))?;
            marks.push(MarkRef::Close)?;
        }
        Piece::Ident {
            sym,
            ctxt,
            role,
            ..
        } => {
            marks.push(ident_mark(sym, *ctxt, *role))?;
        }
        Piece::Hole { .. } => {}
        Piece::Close => marks.push(MarkRef::Close)?,
    }
    Ok(())
}

// The mark of a node that begins.
fn node_mark<'a>(field: u8, head: Head<'a>) -> MarkRef<'a>
    ensures { mark_of result ≡ Begins field (head_of head.entry) }
{
    let node = Node::Named(head);
    MarkRef::Open { field, node }
}

// The mark of a plain word that begins.
fn word_mark<'a>(field: u8, sym: &'a str) -> MarkRef<'a>
    ensures { mark_of result ≡ BeginsWord field sym.now }
{
    let node = Node::Word { sym };
    MarkRef::Open { field, node }
}

// The mark of an identifier that binds or refers.
fn ident_mark<'a>(sym: &'a str, ctxt: u32, role: Role) -> MarkRef<'a>
    ensures { mark_of result ≡ Occurs (sym.now, ctxt) (is_binding role) }
{
    let id = Name { sym, ctxt };
    let binding = role == Role::Binding;
    MarkRef::Ident(OccurrenceRef { id, binding })
}

/// The identifiers of a tree that bind or refer, in its order. Refused only where memory runs out.
pub fn occurrences_of<'a>(
    alloc: Global,
    pieces: &[Piece<'a>],
) -> Result<Vec<OccurrenceRef<'a>>, AllocError>
    ensures { IfOk result (λ occurrences.
        map listed_of occurrences.items ≡ listed (map item_of pieces.now)) }
{
    let mut occurrences = Vec::new(alloc);
    for piece in pieces {
        if let Some(occurrence) = occurrence_of(*piece) {
            occurrences.push(occurrence)?;
        }
    }
    Ok(occurrences)
}

// The occurrence that an element of the list is.
fn occurrence_of<'a>(piece: Piece<'a>) -> Option<OccurrenceRef<'a>>
    ensures { map listed_of (option_to_list result) ≡ listed_as (item_of piece.entry) }
{
    match piece {
        Piece::Ident {
            sym,
            ctxt,
            role: Role::Binding,
            ..
        } => Some(OccurrenceRef {
            id: Name { sym, ctxt },
            binding: true,
        }),
        Piece::Ident {
            sym,
            ctxt,
            role: Role::Reference,
            ..
        } => Some(OccurrenceRef {
            id: Name { sym, ctxt },
            binding: false,
        }),
        _ => None,
    }
}

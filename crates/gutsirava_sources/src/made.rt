//! A list that is being made.

ghost use Rattle.std.specs.Prelude.{◌≡◌, OnOk, fold};
ghost use Rattle.bundle_syntax.specs.Item.{head_of, item_of};
ghost use Rattle.gutsirava_sources.specs.Written.{node_head, part_item};

use bundle_syntax::{ExportMetadata, Node, Piece, Role};
use std::alloc::AllocError;

/// The origin of what stands in no text.
pub const NO_ORIGIN: u32 = u32::MAX;

/// The value of the string that stands for a comment. No string of a program has it that is a statement.
pub const COMMENT: &str = "\0comment";

/// A node that is put down.
#[derive(Clone, Copy)]
pub(crate) enum FormNode<'a> {
    Import(&'a ExportMetadata),
    Export(&'a ExportMetadata),
    ImportSpecifier,
    ExportSpecifier,
    Statement,
    Call,
    Argument,
    ComputedKey,
}

/// A part of what is put down.
#[derive(Clone, Copy)]
pub(crate) enum FormPart<'a> {
    /// The begin of a node in a field.
    Begin(u8, FormNode<'a>),
    /// An identifier in a field.
    Name(u8, &'a str, Role),
    /// The begin of a string in a field.
    Text(u8, &'a str),
    /// The begin of the string that stands for a comment.
    Comment(&'a str),
    /// The end of a node.
    End,
}

fn node_of<'a>(node: FormNode<'a>) -> Node<'a>
    ensures { head_of result ≡ node_head node.entry }
{
    match node {
        FormNode::Import(meta) => Node::ImportDecl { meta },
        FormNode::Export(meta) => Node::NamedExport { meta },
        FormNode::ImportSpecifier => Node::ImportNamedSpecifier,
        FormNode::ExportSpecifier => Node::ExportNamedSpecifier,
        FormNode::Statement => Node::ExprStmt,
        FormNode::Call => Node::CallExpr,
        FormNode::Argument => Node::ExprOrSpread { spread: false },
        FormNode::ComputedKey => Node::ComputedPropName,
    }
}

fn piece_of<'a>(part: FormPart<'a>) -> Piece<'a>
    ensures { item_of result ≡ part_item part.entry }
{
    match part {
        FormPart::Begin(field, node) => Piece::Open {
            field,
            node: node_of(node),
        },
        FormPart::Name(field, sym, role) => Piece::Ident {
            field,
            sym,
            ctxt: 0,
            role,
        },
        FormPart::Text(field, value) => Piece::Open {
            field,
            node: Node::Str { value, raw: None },
        },
        FormPart::Comment(text) => Piece::Open {
            field: 0,
            node: Node::Str {
                value: COMMENT,
                raw: Some(text),
            },
        },
        FormPart::End => Piece::Close,
    }
}

/// A list that is being made.
#[derive(Drop)]
pub(crate) struct MadeList<'a> {
    pub list: Vec<Piece<'a>>,
    /// How many comments stand in it.
    pub told: usize,
    /// Where that is asked for, the origin of each piece: the place in the list of the text at which it stands, or of
    /// what it stands for.
    pub origins: Option<Vec<u32>>,
    /// The origin of what is put down next.
    pub origin: u32,
}

impl<'a> MadeList<'a> {
    ghost use Rattle.gutsirava_sources.specs.Written.{added, added_part, from_nowhere, from_place, noted, written_of};

    /// Puts down a piece.
    pub(crate) fn add(&mut self, piece: Piece<'a>) -> Result<(), AllocError>
        ensures { OnOk result (written_of self.new
            ≡ added (written_of self.old) (item_of piece.entry)) }
    {
        self.note()?;
        self.list.push(piece)?;
        Ok(())
    }

    // Notes the origin of a piece, where that is asked for.
    fn note(&mut self) -> Result<(), AllocError>
        ensures { OnOk result (written_of self.new
            ≡ record (written_of self.old)
            { origins = noted (written_of self.old).origins self.old.origin }) }
    {
        match &mut self.origins {
            Some(origins) => {
                origins.push(self.origin)?;
                Ok(())
            }
            None => Ok(()),
        }
    }

    /// Sets the place in the list of the text at which stands what is put down next, or what that stands for.
    pub(crate) fn set_origin(&mut self, place: usize)
        ensures { written_of self.new ≡ from_place place (written_of self.old) }
    {
        self.origin = place.min(NO_ORIGIN as usize) as u32;
    }

    /// What is put down next stands for nothing in the text.
    pub(crate) fn set_no_origin(&mut self)
        ensures { written_of self.new ≡ from_nowhere (written_of self.old) }
    {
        self.origin = NO_ORIGIN;
    }

    /// Puts down parts.
    pub(crate) fn add_all(&mut self, parts: &[FormPart<'a>]) -> Result<(), AllocError>
        ensures { OnOk result (written_of self.new
            ≡ fold added_part (written_of self.old) parts.now) }
    {
        for part in parts {
            self.add(piece_of(*part))?;
        }
        Ok(())
    }
}

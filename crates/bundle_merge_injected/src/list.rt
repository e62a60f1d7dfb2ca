//! Each form as a list of pieces, for a linker that merges lists: a writer adds it behind what it has.
//!
//! A method is refused only where memory runs out; then a part of the form may stand at the end. Where it takes
//! `no_notes`, that is `NO_NOTES`.

macro_rules! open {
    ($field:expr, $node:expr) => {
        Piece::Open {
            field: $field,
            node: $node,
        }
    };
}

macro_rules! name {
    ($field:expr, $name:expr, $role:expr) => {
        Piece::Ident {
            field: $field,
            sym: $name.sym,
            ctxt: $name.ctxt,
            role: $role,
        }
    };
}

macro_rules! string {
    ($field:expr, $value:expr) => {
        Piece::Open {
            field: $field,
            node: Node::Str {
                value: $value,
                raw: None,
            },
        }
    };
}

mod common_js;
mod import;
mod object;

ghost use Rattle.std.specs.Prelude.{◌≡◌, ◌++◌, [], OnOk, map};
ghost use Rattle.bundle_syntax.specs.Item.{item_of};

use bundle_syntax::{ExportMetadata, Piece};
use std::alloc::{AllocError, Global};
use std::marker::Model;

/// What is noted on what a linker adds, but for the object of a namespace: nothing.
pub const NO_NOTES: ExportMetadata = ExportMetadata {
    injected: false,
    export_ctxt: None,
};

/// A list of pieces that grows at its end. Clauses see its items.
#[derive(Drop)]
pub struct PieceWriter<'a> {
    pieces: Vec<Piece<'a>>,
}

impl<'a> Model for PieceWriter<'a> {
    ghost use Rattle.std.specs.Prelude.{List, map};
    ghost use Rattle.bundle_syntax.specs.Item.{Item, item_of};

    ghost Value = { List Item };

    ghost view = { λ writer. map item_of writer.pieces.items };
}

impl<'a> PieceWriter<'a> {
    /// One that has written nothing.
    pub fn new(alloc: Global) -> PieceWriter<'a>
        ensures { result ≡ [] }
    {
        let pieces = Vec::new(alloc);
        PieceWriter { pieces }
    }

    /// What is written.
    pub fn as_slice(&self) -> &[Piece<'a>]
        ensures { map item_of result.now ≡ self.now }
    {
        self.pieces.as_slice()
    }

    // Adds these pieces.
    #[tactic(auto, using(std::proofs::lemmas::Grind::common_steps))]
    fn add(&mut self, pieces: &[Piece<'a>]) -> Result<(), AllocError>
        ensures { OnOk result (self.new ≡ self.old ++ map item_of pieces.now) }
    {
        self.pieces.extend_from_slice(pieces)
    }
}

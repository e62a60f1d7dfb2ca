//! The walk over a tree that gives its list.

ghost use Rattle.std.specs.Prelude.{◌≡◌, ◌++◌, ◌∷◌, [], IfOk, OnOk, map};
ghost use Rattle.std.specs.List.{flat_map};
ghost use Rattle.bundle_syntax.specs.Item.{head_of, item_of, Open, Hole, Close};
ghost use Rattle.bundle_tree_listed.specs.Tree as tree;
ghost use Rattle.bundle_tree_listed.specs.Tree.{ident_items, key_value_prop_items, module_item_items};

pub mod classes;
pub mod decls;
pub mod exprs;
pub mod modules;
pub mod names;
pub mod pats;
pub mod props;
pub mod stmts;

use bundle_syntax::{Node, Piece, Role};
use bundle_tree_ast::{Ident, KeyValueProp, ModuleItem, Str};
use std::alloc::{AllocError, Global};
use std::marker::Model;

/// The list of what was met so far. Each method adds what one child gives, `field` being the number of
/// the child's field in the node around it. Clauses see the items that the pieces stand for.
#[derive(Drop)]
pub struct Walk<'a> {
    pieces: Vec<Piece<'a>>,
}

impl<'a> Model for Walk<'a> {
    ghost use Rattle.std.specs.Prelude.{List, map};
    ghost use Rattle.bundle_syntax.specs.Item.{Item, item_of};

    ghost Value = { List Item };

    ghost view = { λ walk. map item_of walk.pieces.items };
}

impl<'a> Walk<'a> {
    /// A walk that has met nothing.
    pub fn new(alloc: Global) -> Walk<'a>
        ensures { result ≡ [] }
    {
        Walk {
            pieces: Vec::new(alloc),
        }
    }

    /// A walk that has met nothing, with room for so many pieces.
    pub fn with_room(alloc: Global, count: usize) -> Result<Walk<'a>, AllocError>
        ensures { IfOk result (λ walk. walk ≡ []) }
    {
        let pieces = Vec::with_capacity(alloc, count)?;
        Ok(Walk { pieces })
    }

    /// Adds the lists of these items, one after the other.
    #[tactic(auto, using(bundle_tree_listed::proofs::Rows::rows))]
    pub fn each_module_item(&mut self, field: u8, items: &'a [ModuleItem]) -> Result<(), AllocError>
        ensures { OnOk result
            (self.new ≡ self.old ++ flat_map (module_item_items field) items.now) }
    {
        for item in items {
            self.module_item(field, item)?;
        }
        Ok(())
    }

    /// Adds the lists of these properties, one after the other.
    #[tactic(auto, using(bundle_tree_listed::proofs::Rows::rows))]
    pub fn each_key_value_prop(
        &mut self,
        field: u8,
        properties: &'a [KeyValueProp],
    ) -> Result<(), AllocError>
        ensures { OnOk result
            (self.new ≡ self.old ++ flat_map (key_value_prop_items field) properties.now) }
    {
        for property in properties {
            self.key_value_prop(field, property)?;
        }
        Ok(())
    }

    /// What was met, as a list.
    pub fn into_pieces(self) -> Vec<Piece<'a>>
        ensures { map item_of result.items ≡ self.entry }
    {
        self.pieces
    }

    fn add(&mut self, piece: Piece<'a>) -> Result<(), AllocError>
        ensures { OnOk result (self.new ≡ self.old ++ item_of piece.entry ∷ []) }
    {
        self.pieces.push(piece)?;
        Ok(())
    }

    /// Adds where a node begins.
    pub fn open(&mut self, field: u8, node: Node<'a>) -> Result<(), AllocError>
        ensures { OnOk result (self.new ≡ self.old ++ Open field (head_of node.entry) ∷ []) }
    {
        self.add(Piece::Open { field, node })
    }

    /// Adds where a node ends.
    pub fn close(&mut self) -> Result<(), AllocError>
        ensures { OnOk result (self.new ≡ self.old ++ Close ∷ []) }
    {
        self.add(Piece::Close)
    }

    pub(crate) fn hole(&mut self, field: u8) -> Result<(), AllocError>
        ensures { OnOk result (self.new ≡ self.old ++ Hole field ∷ []) }
    {
        self.add(Piece::Hole { field })
    }

    /// Adds the list of an identifier, in this role. Refused only where memory runs out.
    pub fn ident(&mut self, field: u8, role: Role, ident: &'a Ident) -> Result<(), AllocError>
        ensures { OnOk result (self.new ≡ self.old ++ ident_items role field ident.now) }
    {
        let sym = ident.sym.as_str();
        let ctxt = ident.ctxt.as_u32();
        self.add(Piece::Ident {
            field,
            sym,
            ctxt,
            role,
        })
    }
}

/// What the names of an export list are: names of the module that `from` gives, or else of this one.
pub(crate) fn role_of_names(src: &Option<Str>) -> Role
    ensures { result ≡ tree.role_of_names src.now }
{
    match src {
        Some(_) => Role::Word,
        None => Role::Reference,
    }
}

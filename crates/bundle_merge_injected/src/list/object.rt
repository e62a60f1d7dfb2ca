//! Objects that are returned, and the object of a namespace.

ghost use Rattle.std.specs.Prelude.{◌≡◌, ◌++◌, OnOk, map};
ghost use Rattle.bundle_rules.specs.Forms as forms;
ghost use Rattle.bundle_rules.specs.Forms.{returned_key, returned_property};
ghost use Rattle.bundle_tree_places.specs.Marks.{ident_of};
ghost use Rattle.bundle_merge_injected.specs.Listed as listed;
ghost use Rattle.bundle_merge_injected.specs.Listed.{pair_of};

use super::PieceWriter;
use crate::name::Pair;
use bundle_syntax::{ExportMetadata, Node, Piece, Role, VarDeclKind};
use bundle_tree_places::{Name, is_ascii_identifier};
use std::alloc::AllocError;

impl<'a> PieceWriter<'a> {
    /// `return { k: l, .. };` (ECMA-262, 13.2.5 and 14.10).
    pub fn returned_object<'b: 'a>(&mut self, pairs: &[Pair<'b>]) -> Result<(), AllocError>
        ensures { OnOk result
            (self.new ≡ self.old ++ forms.returned_object (map pair_of pairs.now)) }
    {
        self.add(&[open!(0, Node::ReturnStmt), open!(0, Node::ObjectLit)])?;
        for pair in pairs {
            self.returned_property(*pair)?;
        }
        self.add(&[Piece::Close, Piece::Close])
    }

    // `k: l`
    fn returned_property(&mut self, pair: Pair<'a>) -> Result<(), AllocError>
        ensures { OnOk result
            (self.new ≡ self.old ++ returned_property (pair_of pair.entry)) }
    {
        self.add(&[open!(0, Node::KeyValueProp)])?;
        self.key(pair.name)?;
        self.add(&[name!(1, pair.local, Role::Reference), Piece::Close])
    }

    /// The key of a property. A plain `__proto__` would set the prototype (ECMA-262, B.3.1), so it is computed.
    pub(super) fn key(&mut self, name: &'a str) -> Result<(), AllocError>
        ensures { OnOk result (self.new ≡ self.old ++ returned_key name.now) }
    {
        let text = string!(0, name);
        if name == "__proto__" {
            self.add(&[
                open!(0, Node::ComputedPropName),
                text,
                Piece::Close,
                Piece::Close,
            ])
        } else if is_ascii_identifier(name) {
            self.add(&[open!(0, Node::IdentName { sym: name }), Piece::Close])
        } else {
            self.add(&[text, Piece::Close])
        }
    }

    /// `const object = function () { return { k: l, .. }; }();`, with these notes on the declaration. Its properties
    /// are those of a namespace (ECMA-262, 10.4.6), in the order that is handed in.
    pub fn namespace_object<'b: 'a>(
        &mut self,
        object: Name<'a>,
        pairs: &[Pair<'b>],
        notes: &'a ExportMetadata,
    ) -> Result<(), AllocError>
        ensures { OnOk result (self.new ≡ self.old
            ++ listed.namespace_object notes.now (ident_of object.entry) (map pair_of pairs.now)) }
    {
        let declaration = Node::VarDecl {
            kind: VarDeclKind::Const,
            meta: notes,
        };
        let function = Node::Function {
            is_generator: false,
            is_async: false,
        };
        self.add(&[
            open!(0, declaration),
            open!(1, Node::VarDeclarator),
            open!(0, Node::BindingIdent),
            name!(0, object, Role::Binding),
            Piece::Close,
            open!(1, Node::CallExpr),
            open!(0, Node::FnExpr),
            open!(1, function),
            open!(1, Node::BlockStmt),
        ])?;
        self.returned_object(pairs)?;
        self.add(&[
            Piece::Close,
            Piece::Close,
            Piece::Close,
            Piece::Close,
            Piece::Close,
            Piece::Close,
        ])
    }
}

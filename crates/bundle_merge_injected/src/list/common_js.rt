//! CommonJS modules: the helper that runs one at its first call, and the statement that loads one.

ghost use Rattle.std.specs.Prelude.{◌≡◌, ◌++◌, [], OnOk, None, Some, codes, map};
ghost use Rattle.bundle_syntax.specs.Item.{FnExpr, ReturnStmt};
ghost use Rattle.bundle_tree_listed.specs.Tree.{node};
ghost use Rattle.std.specs.Option.{option_map};
ghost use Rattle.bundle_rules.specs.Statements as statements;
ghost use Rattle.bundle_tree_places.specs.Marks.{ident_of};
ghost use Rattle.bundle_merge_injected.specs.Listed as listed;
ghost use Rattle.bundle_merge_injected.specs.Listed.{pair_of};

use super::PieceWriter;
use crate::common_js::HelperNames;
use crate::name::Pair;
use bundle_syntax::{AssignOp, ExportMetadata, Node, Piece, Role, UnaryOp, VarDeclKind};
use bundle_tree_places::Name;
use std::alloc::AllocError;

impl<'a> PieceWriter<'a> {
    /// The statement by which a module loads a CommonJS module: `load();`, `var { n: l, .. } = load();`,
    /// `var whole = load();` or `var whole = load(), { n: l, .. } = whole;`.
    pub fn load_statement<'b: 'a>(
        &mut self,
        load: Name<'a>,
        whole: Option<Name<'a>>,
        names: &[Pair<'b>],
        no_notes: &'a ExportMetadata,
    ) -> Result<(), AllocError>
        requires { no_notes.now ≡ statements.no_notes }
        ensures { OnOk result
            (self.new ≡ self.old ++ listed.load_statement (ident_of load.entry)
            (option_map ident_of whole.entry) (map pair_of names.now)) }
    {
        match whole {
            Some(whole) => self.load_whole(load, whole, names, no_notes),
            None => self.load_names(load, names, no_notes),
        }
    }

    // `load();` or `var { n: l, .. } = load();`
    fn load_names<'b: 'a>(
        &mut self,
        load: Name<'a>,
        names: &[Pair<'b>],
        no_notes: &'a ExportMetadata,
    ) -> Result<(), AllocError>
        requires { no_notes.now ≡ statements.no_notes }
        ensures { OnOk result
            (self.new ≡ self.old
            ++ listed.load_statement (ident_of load.entry) None (map pair_of names.now)) }
    {
        if names.is_empty() {
            return self.add(&[
                open!(0, Node::ExprStmt),
                open!(0, Node::CallExpr),
                name!(0, load, Role::Reference),
                Piece::Close,
                Piece::Close,
            ]);
        }
        let declaration = Node::VarDecl {
            kind: VarDeclKind::Var,
            meta: no_notes,
        };
        self.add(&[open!(0, declaration), open!(1, Node::VarDeclarator)])?;
        self.load_pattern(names)?;
        self.add(&[
            open!(1, Node::CallExpr),
            name!(0, load, Role::Reference),
            Piece::Close,
            Piece::Close,
            Piece::Close,
        ])
    }

    // `var whole = load();` or `var whole = load(), { n: l, .. } = whole;`
    fn load_whole<'b: 'a>(
        &mut self,
        load: Name<'a>,
        whole: Name<'a>,
        names: &[Pair<'b>],
        no_notes: &'a ExportMetadata,
    ) -> Result<(), AllocError>
        requires { no_notes.now ≡ statements.no_notes }
        ensures { OnOk result
            (self.new ≡ self.old ++ listed.load_statement (ident_of load.entry)
            (Some (ident_of whole.entry)) (map pair_of names.now)) }
    {
        let declaration = Node::VarDecl {
            kind: VarDeclKind::Var,
            meta: no_notes,
        };
        self.add(&[
            open!(0, declaration),
            open!(1, Node::VarDeclarator),
            open!(0, Node::BindingIdent),
            name!(0, whole, Role::Binding),
            Piece::Close,
            open!(1, Node::CallExpr),
            name!(0, load, Role::Reference),
            Piece::Close,
            Piece::Close,
        ])?;
        if names.is_empty() {
            return self.add(&[Piece::Close]);
        }
        self.add(&[open!(1, Node::VarDeclarator)])?;
        self.load_pattern(names)?;
        self.add(&[name!(1, whole, Role::Reference), Piece::Close, Piece::Close])
    }

    // `{ n: l, .. }`, as a pattern.
    fn load_pattern<'b: 'a>(&mut self, names: &[Pair<'b>]) -> Result<(), AllocError>
        ensures { OnOk result
            (self.new ≡ self.old ++ listed.load_pattern (map pair_of names.now)) }
    {
        self.add(&[open!(0, Node::ObjectPat)])?;
        for pair in names {
            self.load_property(*pair)?;
        }
        self.add(&[Piece::Close])
    }

    // `n: l`, in a pattern.
    fn load_property(&mut self, pair: Pair<'a>) -> Result<(), AllocError>
        ensures { OnOk result
            (self.new ≡ self.old ++ listed.load_property (pair_of pair.entry)) }
    {
        self.add(&[open!(0, Node::KeyValuePatProp)])?;
        self.key(pair.name)?;
        self.add(&[
            open!(1, Node::BindingIdent),
            name!(0, pair.local, Role::Binding),
            Piece::Close,
            Piece::Close,
        ])
    }

    /// `function helper(func) { var module; return function () { if (!module) { module = { exports: {} };
    /// func.call(module.exports, module, module.exports); } return module.exports; }; }`.
    pub fn helper(
        &mut self,
        names: HelperNames<'a>,
        no_notes: &'a ExportMetadata,
    ) -> Result<(), AllocError>
        requires { no_notes.now ≡ statements.no_notes }
        ensures { OnOk result
            (self.new ≡ self.old ++ listed.helper_function (ident_of names.entry.helper)
            (ident_of names.entry.func) (ident_of names.entry.module_object)) }
    {
        let declaration = Node::VarDecl {
            kind: VarDeclKind::Var,
            meta: no_notes,
        };
        let function = Node::Function {
            is_generator: false,
            is_async: false,
        };
        self.add(&[
            open!(0, Node::FnDecl),
            name!(0, names.helper, Role::Binding),
            open!(1, function),
            open!(0, Node::Param),
            open!(0, Node::BindingIdent),
            name!(0, names.func, Role::Binding),
            Piece::Close,
            Piece::Close,
            open!(1, Node::BlockStmt),
            open!(0, declaration),
            open!(1, Node::VarDeclarator),
            open!(0, Node::BindingIdent),
            name!(0, names.module_object, Role::Binding),
            Piece::Close,
            Piece::Close,
            Piece::Close,
        ])?;
        self.loader(names)?;
        self.add(&[Piece::Close, Piece::Close, Piece::Close])
    }

    // `return function () { if (!module) { .. } return module.exports; };`
    fn loader(&mut self, names: HelperNames<'a>) -> Result<(), AllocError>
        ensures { OnOk result
            (self.new ≡ self.old ++ node 0 ReturnStmt (node 0 FnExpr (listed.function_in 1 []
            (listed.loads_once (ident_of names.entry.func) (ident_of names.entry.module_object)
            ++ listed.returns_exports (ident_of names.entry.module_object))))) }
    {
        let function = Node::Function {
            is_generator: false,
            is_async: false,
        };
        self.add(&[
            open!(0, Node::ReturnStmt),
            open!(0, Node::FnExpr),
            open!(1, function),
            open!(1, Node::BlockStmt),
            open!(0, Node::IfStmt),
            open!(0, Node::UnaryExpr { op: UnaryOp::Bang }),
            name!(1, names.module_object, Role::Reference),
            Piece::Close,
            open!(1, Node::BlockStmt),
        ])?;
        self.first_load(names)?;
        self.add(&[
            Piece::Close,
            Piece::Close,
            open!(0, Node::ReturnStmt),
            open!(0, Node::MemberExpr),
            name!(0, names.module_object, Role::Reference),
            open!(1, Node::IdentName { sym: "exports" }),
            Piece::Close,
            Piece::Close,
            Piece::Close,
            Piece::Close,
            Piece::Close,
            Piece::Close,
            Piece::Close,
        ])
    }

    // `module = { exports: {} }; func.call(module.exports, module, module.exports);`
    fn first_load(&mut self, names: HelperNames<'a>) -> Result<(), AllocError>
        ensures { OnOk result
            (self.new ≡ self.old ++ (listed.makes_module (ident_of names.entry.module_object)
            ++ listed.runs_module (ident_of names.entry.func)
            (ident_of names.entry.module_object))) }
    {
        self.add(&[
            open!(0, Node::ExprStmt),
            open!(
                0,
                Node::AssignExpr {
                    op: AssignOp::Assign
                }
            ),
            open!(1, Node::BindingIdent),
            name!(0, names.module_object, Role::Reference),
            Piece::Close,
            open!(2, Node::ObjectLit),
            open!(0, Node::KeyValueProp),
            open!(0, Node::IdentName { sym: "exports" }),
            Piece::Close,
            open!(1, Node::ObjectLit),
            Piece::Close,
            Piece::Close,
            Piece::Close,
            Piece::Close,
            Piece::Close,
            open!(0, Node::ExprStmt),
            open!(0, Node::CallExpr),
            open!(0, Node::MemberExpr),
            name!(0, names.func, Role::Reference),
            open!(1, Node::IdentName { sym: "call" }),
            Piece::Close,
            Piece::Close,
        ])?;
        self.exports_argument(names.module_object)?;
        self.add(&[
            open!(1, Node::ExprOrSpread { spread: false }),
            name!(1, names.module_object, Role::Reference),
            Piece::Close,
        ])?;
        self.exports_argument(names.module_object)?;
        self.add(&[Piece::Close, Piece::Close])
    }

    // `module.exports`, as an argument.
    fn exports_argument(&mut self, module_object: Name<'a>) -> Result<(), AllocError>
        ensures { OnOk result (self.new ≡ self.old ++ listed.argument
            (listed.member 1 (ident_of module_object.entry) (codes "exports"))) }
    {
        self.add(&[
            open!(1, Node::ExprOrSpread { spread: false }),
            open!(1, Node::MemberExpr),
            name!(0, module_object, Role::Reference),
            open!(1, Node::IdentName { sym: "exports" }),
            Piece::Close,
            Piece::Close,
            Piece::Close,
        ])
    }
}

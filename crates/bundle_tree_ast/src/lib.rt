//! The syntax tree of ECMAScript 2022 (ECMA-262, 13th edition), under swc's names.
//!
//! A node that leads back to several kinds of nodes stands in the cycle `ast`; one that leads back to
//! one kind alone is generic in it, with a default, so that its plain name is the node of the tree.
#![tactic(auto)]

pub mod class;
pub mod debug;
pub mod decl;
pub mod expr;
pub mod module;
pub mod pat;
pub mod prop;
pub mod stmt;

pub use bundle_syntax::ident::{BindingIdent, Ident, IdentName, PrivateName};
pub use bundle_syntax::kind::{ExportMetadata, MetaPropKind, MethodKind, VarDeclKind};
pub use bundle_syntax::lit::{BigInt, Lit, Number, Regex, Str, TplElement};
pub use bundle_syntax::operator::{AssignOp, BinaryOp, UnaryOp, UpdateOp};
pub use bundle_syntax::specifier::{ExportSpecifier, ImportSpecifier, ModuleExportName};
pub use class::{Class, ClassMember, Function, Param};
pub use decl::{Decl, VarDecl, VarDeclarator};
pub use expr::{
    ArrowBody, Callee, Expr, ExprOrSpread, MemberExpr, OptCall, OptChainBase, ParenExpr,
    SuperPropExpr, Tpl,
};
pub use module::{DefaultDecl, Module, ModuleDecl, ModuleItem};
pub use pat::{ArrayPat, AssignTarget, ObjectPat, ObjectPatProp, Pat, RestPat};
pub use prop::{
    ComputedPropName, KeyValueProp, MemberProp, Prop, PropName, PropOrSpread, SuperProp,
};
pub use stmt::{BlockStmt, CatchClause, ForHead, ForInit, Stmt, SwitchCase};

//! The leaves of the syntax tree: identifiers, literals, operators, and what names stand in imports
//! and exports; and a piece of the full list of a tree: a node's beginning with every value that stands in it,
//! an identifier with its role, a hole, an end, with the list's model, over which all else is stated.
#![tactic(auto)]

pub mod ident;
pub mod kind;
pub mod lit;
pub mod operator;
pub mod piece;
pub mod specifier;

pub use ident::{BindingIdent, Ident, IdentName, PrivateName};
pub use kind::{ExportMetadata, MetaPropKind, MethodKind, VarDeclKind};
pub use lit::{BigInt, Lit, Number, Regex, Str, TplElement};
pub use operator::{AssignOp, BinaryOp, UnaryOp, UpdateOp};
pub use piece::{Node, Piece, Role};
pub use specifier::{ExportSpecifier, ImportSpecifier, ModuleExportName};

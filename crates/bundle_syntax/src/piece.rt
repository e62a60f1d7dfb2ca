//! One element of the list of a tree.

use crate::kind::{ExportMetadata, MetaPropKind, MethodKind, VarDeclKind};
use crate::operator::{AssignOp, BinaryOp, UnaryOp, UpdateOp};

/// One element of the list of a tree, borrowed from the tree. `field` is the number of the field, from
/// 0 on, in which the element lies in the node around it; fields that hold no node count too.
#[derive(Clone, Copy)]
pub enum Piece<'a> {
    /// A node begins.
    Open {
        field: u8,
        node: Node<'a>,
    },
    /// An identifier, with the number of its context.
    Ident {
        field: u8,
        sym: &'a str,
        ctxt: u32,
        role: Role,
    },
    /// A place of a list that has no element, as in `[a, , b]`.
    Hole {
        field: u8,
    },
    /// The innermost open node ends.
    Close,
}

/// What an identifier is where it stands (ECMA-262, 8.2 and 13.1).
#[derive(Clone, Copy, PartialEq, Eq, Debug)]
pub enum Role {
    /// It declares a name.
    Binding,
    /// It denotes what some declaration, or none, binds to the name.
    Reference,
    /// It is a name of another module's, and denotes nothing here.
    Word,
}

/// A node by its name, with each value that stands in it and is no node. `has_args` says whether a
/// `new` has a list of arguments, which may be empty.
#[derive(Clone, Copy, PartialEq, Eq, Debug)]
pub enum Node<'a> {
    // Modules (ECMA-262, 16.2).
    Module,
    ImportDecl {
        meta: &'a ExportMetadata,
    },
    ImportNamedSpecifier,
    ImportDefaultSpecifier,
    ImportStarAsSpecifier,
    ExportDecl,
    NamedExport {
        meta: &'a ExportMetadata,
    },
    ExportNamespaceSpecifier,
    ExportNamedSpecifier,
    ExportDefaultDecl,
    ExportDefaultExpr,
    ExportAll {
        meta: &'a ExportMetadata,
    },
    // Statements (ECMA-262, 14).
    BlockStmt,
    EmptyStmt,
    DebuggerStmt,
    WithStmt,
    ReturnStmt,
    LabeledStmt,
    BreakStmt,
    ContinueStmt,
    IfStmt,
    SwitchStmt,
    SwitchCase,
    ThrowStmt,
    TryStmt,
    CatchClause,
    WhileStmt,
    DoWhileStmt,
    ForStmt,
    ForInStmt,
    ForOfStmt {
        is_await: bool,
    },
    ExprStmt,
    // Declarations (ECMA-262, 14.3, 15.2 and 15.7).
    ClassDecl,
    FnDecl,
    VarDecl {
        kind: VarDeclKind,
        meta: &'a ExportMetadata,
    },
    VarDeclarator,
    // Expressions (ECMA-262, 13).
    ThisExpr,
    ArrayLit,
    ObjectLit,
    FnExpr,
    UnaryExpr {
        op: UnaryOp,
    },
    UpdateExpr {
        op: UpdateOp,
        prefix: bool,
    },
    BinExpr {
        op: BinaryOp,
    },
    AssignExpr {
        op: AssignOp,
    },
    MemberExpr,
    SuperPropExpr,
    CondExpr,
    CallExpr,
    NewExpr {
        has_args: bool,
    },
    SeqExpr,
    Tpl,
    TplElement {
        raw: &'a str,
    },
    TaggedTpl,
    ArrowExpr {
        is_async: bool,
    },
    ClassExpr,
    YieldExpr {
        delegate: bool,
    },
    MetaPropExpr {
        kind: MetaPropKind,
    },
    AwaitExpr,
    ParenExpr,
    OptChainExpr {
        optional: bool,
    },
    OptCall,
    ExprOrSpread {
        spread: bool,
    },
    Super,
    Import,
    // Names and literals (ECMA-262, 12.7 and 13.2.3).
    IdentName {
        sym: &'a str,
    },
    PrivateName {
        sym: &'a str,
    },
    Str {
        value: &'a str,
        raw: Option<&'a str>,
    },
    Bool {
        value: bool,
    },
    Null,
    Number {
        raw: &'a str,
    },
    BigInt {
        raw: &'a str,
    },
    Regex {
        raw: &'a str,
    },
    // Properties of object literals (ECMA-262, 13.2.5).
    SpreadElement,
    KeyValueProp,
    GetterProp,
    SetterProp,
    MethodProp,
    ComputedPropName,
    // Patterns (ECMA-262, 14.3.3).
    BindingIdent,
    ArrayPat,
    ObjectPat,
    RestPat,
    AssignPat,
    KeyValuePatProp,
    AssignPatProp,
    // Functions and classes (ECMA-262, 15).
    Function {
        is_generator: bool,
        is_async: bool,
    },
    Param,
    Class,
    Constructor,
    ClassMethod {
        kind: MethodKind,
        is_static: bool,
    },
    PrivateMethod {
        kind: MethodKind,
        is_static: bool,
    },
    ClassProp {
        is_static: bool,
    },
    PrivateProp {
        is_static: bool,
    },
    StaticBlock,
}

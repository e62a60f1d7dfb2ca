//! Statements (ECMA-262, 14).

use crate::decl::{Decl, VarDecl};
use crate::expr::Expr;
use crate::pat::Pat;
use bundle_syntax::ident::IdentName;

/// Statements in braces (ECMA-262, 14.2). Also the body of a function, method or `catch`.
#[derive(PartialEq, Drop, Debug)]
pub struct BlockStmt<S = Stmt> {
    pub stmts: Vec<S>,
}

/// A statement or a declaration.
#[cycle(ast)]
#[derive(PartialEq)]
pub enum Stmt {
    BlockStmt(BlockStmt),
    EmptyStmt,
    DebuggerStmt,
    WithStmt {
        obj: Expr,
        body: Box<Stmt>,
    },
    ReturnStmt {
        arg: Option<Expr>,
    },
    LabeledStmt {
        label: IdentName,
        body: Box<Stmt>,
    },
    BreakStmt {
        label: Option<IdentName>,
    },
    ContinueStmt {
        label: Option<IdentName>,
    },
    IfStmt {
        test: Expr,
        cons: Box<Stmt>,
        alt: Option<Box<Stmt>>,
    },
    SwitchStmt {
        discriminant: Expr,
        cases: Vec<SwitchCase>,
    },
    ThrowStmt {
        arg: Expr,
    },
    TryStmt {
        block: BlockStmt,
        handler: Option<CatchClause>,
        finalizer: Option<BlockStmt>,
    },
    WhileStmt {
        test: Expr,
        body: Box<Stmt>,
    },
    DoWhileStmt {
        body: Box<Stmt>,
        test: Expr,
    },
    ForStmt {
        init: Option<ForInit>,
        test: Option<Expr>,
        update: Option<Expr>,
        body: Box<Stmt>,
    },
    ForInStmt {
        left: ForHead,
        right: Expr,
        body: Box<Stmt>,
    },
    ForOfStmt {
        is_await: bool,
        left: ForHead,
        right: Expr,
        body: Box<Stmt>,
    },
    Decl(Decl),
    ExprStmt {
        expr: Expr,
    },
}

/// Lets go of a statement and all below it. Written by hand, so that who lets one go from another crate calls
/// this function, where a derived one would be proved anew in that crate.
impl Drop for Stmt {
    #[cycle(drop)]
    fn drop(self) {
        match self {
            Stmt::BlockStmt(_it) => {}
            Stmt::EmptyStmt => {}
            Stmt::DebuggerStmt => {}
            Stmt::WithStmt {
                obj: _obj,
                body: _body,
            } => {}
            Stmt::ReturnStmt { arg: _arg } => {}
            Stmt::LabeledStmt {
                label: _label,
                body: _body,
            } => {}
            Stmt::BreakStmt { label: _label } => {}
            Stmt::ContinueStmt { label: _label } => {}
            Stmt::IfStmt {
                test: _test,
                cons: _cons,
                alt: _alt,
            } => {}
            Stmt::SwitchStmt {
                discriminant: _discriminant,
                cases: _cases,
            } => {}
            Stmt::ThrowStmt { arg: _arg } => {}
            Stmt::TryStmt {
                block: _block,
                handler: _handler,
                finalizer: _finalizer,
            } => {}
            Stmt::WhileStmt {
                test: _test,
                body: _body,
            } => {}
            Stmt::DoWhileStmt {
                body: _body,
                test: _test,
            } => {}
            Stmt::ForStmt {
                init: _init,
                test: _test,
                update: _update,
                body: _body,
            } => {}
            Stmt::ForInStmt {
                left: _left,
                right: _right,
                body: _body,
            } => {}
            Stmt::ForOfStmt {
                is_await: _is_await,
                left: _left,
                right: _right,
                body: _body,
            } => {}
            Stmt::Decl(_it) => {}
            Stmt::ExprStmt { expr: _expr } => {}
        }
    }
}

/// A `case`, or the `default` where there is no test (ECMA-262, 14.12).
#[cycle(ast)]
#[derive(PartialEq)]
pub struct SwitchCase {
    pub test: Option<Expr>,
    pub cons: Vec<Stmt>,
}

/// Lets go of a case and all below it.
impl Drop for SwitchCase {
    #[cycle(drop)]
    fn drop(self) {
        let SwitchCase {
            test: _test,
            cons: _cons,
        } = self;
    }
}

/// The `catch` of a `try` (ECMA-262, 14.15).
#[cycle(ast)]
#[derive(PartialEq)]
pub struct CatchClause {
    pub param: Option<Pat>,
    pub body: BlockStmt,
}

/// Lets go of a `catch` and all below it.
impl Drop for CatchClause {
    #[cycle(drop)]
    fn drop(self) {
        let CatchClause {
            param: _param,
            body: _body,
        } = self;
    }
}

/// What stands first in a `for` with two semicolons (ECMA-262, 14.7.4).
#[cycle(ast)]
#[derive(PartialEq)]
pub enum ForInit {
    VarDecl(VarDecl),
    Expr(Expr),
}

/// Lets go of what stands first in a `for` and all below it.
impl Drop for ForInit {
    #[cycle(drop)]
    fn drop(self) {
        match self {
            ForInit::VarDecl(_it) => {}
            ForInit::Expr(_it) => {}
        }
    }
}

/// What a `for` .. `in` or `of` assigns or declares (ECMA-262, 14.7.5).
#[cycle(ast)]
#[derive(PartialEq)]
pub enum ForHead {
    VarDecl(VarDecl),
    Pat(Pat),
}

/// Lets go of what a `for` assigns or declares and all below it.
impl Drop for ForHead {
    #[cycle(drop)]
    fn drop(self) {
        match self {
            ForHead::VarDecl(_it) => {}
            ForHead::Pat(_it) => {}
        }
    }
}

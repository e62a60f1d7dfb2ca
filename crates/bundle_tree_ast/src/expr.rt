//! Expressions (ECMA-262, 13).

use crate::class::{Class, Function};
use crate::pat::{AssignTarget, Pat};
use crate::prop::{MemberProp, PropOrSpread, SuperProp};
use crate::stmt::BlockStmt;
use bundle_syntax::ident::{Ident, PrivateName};
use bundle_syntax::kind::MetaPropKind;
use bundle_syntax::lit::{Lit, TplElement};
use bundle_syntax::operator::{AssignOp, BinaryOp, UnaryOp, UpdateOp};

/// An expression.
#[cycle(ast)]
#[derive(PartialEq)]
pub enum Expr {
    ThisExpr,
    ArrayLit {
        elems: Vec<Option<ExprOrSpread>>,
    },
    ObjectLit {
        props: Vec<PropOrSpread>,
    },
    FnExpr {
        ident: Option<Ident>,
        function: Function,
    },
    UnaryExpr {
        op: UnaryOp,
        arg: Box<Expr>,
    },
    UpdateExpr {
        op: UpdateOp,
        prefix: bool,
        arg: Box<Expr>,
    },
    BinExpr {
        op: BinaryOp,
        left: Box<Expr>,
        right: Box<Expr>,
    },
    AssignExpr {
        op: AssignOp,
        left: AssignTarget,
        right: Box<Expr>,
    },
    MemberExpr(MemberExpr),
    SuperPropExpr(SuperPropExpr),
    CondExpr {
        test: Box<Expr>,
        cons: Box<Expr>,
        alt: Box<Expr>,
    },
    CallExpr {
        callee: Callee,
        args: Vec<ExprOrSpread>,
    },
    NewExpr {
        callee: Box<Expr>,
        args: Option<Vec<ExprOrSpread>>,
    },
    SeqExpr {
        exprs: Vec<Expr>,
    },
    Ident(Ident),
    Lit(Lit),
    Tpl(Tpl),
    TaggedTpl {
        tag: Box<Expr>,
        tpl: Tpl,
    },
    ArrowExpr {
        params: Vec<Pat>,
        body: ArrowBody,
        is_async: bool,
    },
    ClassExpr {
        ident: Option<Ident>,
        class: Class,
    },
    YieldExpr {
        arg: Option<Box<Expr>>,
        delegate: bool,
    },
    MetaPropExpr {
        kind: MetaPropKind,
    },
    AwaitExpr {
        arg: Box<Expr>,
    },
    ParenExpr(ParenExpr),
    PrivateName(PrivateName),
    OptChainExpr {
        optional: bool,
        base: OptChainBase,
    },
}

/// Lets go of an expression and all below it. Written by hand, so that who lets one go from another crate calls
/// this function, where a derived one would be proved anew in that crate.
impl Drop for Expr {
    #[cycle(drop)]
    fn drop(self) {
        match self {
            Expr::ThisExpr => {}
            Expr::ArrayLit { elems: _elems } => {}
            Expr::ObjectLit { props: _props } => {}
            Expr::FnExpr {
                ident: _ident,
                function: _function,
            } => {}
            Expr::UnaryExpr { op: _op, arg: _arg } => {}
            Expr::UpdateExpr {
                op: _op,
                prefix: _prefix,
                arg: _arg,
            } => {}
            Expr::BinExpr {
                op: _op,
                left: _left,
                right: _right,
            } => {}
            Expr::AssignExpr {
                op: _op,
                left: _left,
                right: _right,
            } => {}
            Expr::MemberExpr(_it) => {}
            Expr::SuperPropExpr(_it) => {}
            Expr::CondExpr {
                test: _test,
                cons: _cons,
                alt: _alt,
            } => {}
            Expr::CallExpr {
                callee: _callee,
                args: _args,
            } => {}
            Expr::NewExpr {
                callee: _callee,
                args: _args,
            } => {}
            Expr::SeqExpr { exprs: _exprs } => {}
            Expr::Ident(_it) => {}
            Expr::Lit(_it) => {}
            Expr::Tpl(_it) => {}
            Expr::TaggedTpl {
                tag: _tag,
                tpl: _tpl,
            } => {}
            Expr::ArrowExpr {
                params: _params,
                body: _body,
                is_async: _is_async,
            } => {}
            Expr::ClassExpr {
                ident: _ident,
                class: _class,
            } => {}
            Expr::YieldExpr {
                arg: _arg,
                delegate: _delegate,
            } => {}
            Expr::MetaPropExpr { kind: _kind } => {}
            Expr::AwaitExpr { arg: _arg } => {}
            Expr::ParenExpr(_it) => {}
            Expr::PrivateName(_it) => {}
            Expr::OptChainExpr {
                optional: _optional,
                base: _base,
            } => {}
        }
    }
}

/// An expression in parentheses (ECMA-262, 13.2.9).
#[derive(PartialEq, Drop, Debug)]
pub struct ParenExpr<E = Expr> {
    pub expr: Box<E>,
}

/// A property of an object, as `a.b`, `a[b]` or `a.#b` (ECMA-262, 13.3.2).
#[derive(PartialEq, Drop, Debug)]
pub struct MemberExpr<E = Expr> {
    pub obj: Box<E>,
    pub prop: MemberProp<E>,
}

/// A property of `super` (ECMA-262, 13.3.7).
#[derive(PartialEq, Drop, Debug)]
pub struct SuperPropExpr<E = Expr> {
    pub prop: SuperProp<E>,
}

/// What is called: `super`, `import` or an expression (ECMA-262, 13.3.6, 13.3.7 and 13.3.10).
#[derive(PartialEq, Drop, Debug)]
pub enum Callee<E = Expr> {
    Super,
    Import,
    Expr(Box<E>),
}

/// An argument or an element, with `...` before it or not (ECMA-262, 13.2.4 and 13.3.8).
#[derive(PartialEq, Drop, Debug)]
pub struct ExprOrSpread<E = Expr> {
    pub spread: bool,
    pub expr: E,
}

/// The body of an arrow function (ECMA-262, 15.3).
#[cycle(ast)]
#[derive(PartialEq)]
pub enum ArrowBody {
    BlockStmt(BlockStmt),
    Expr(Box<Expr>),
}

/// Lets go of the body of an arrow function and all below it.
impl Drop for ArrowBody {
    #[cycle(drop)]
    fn drop(self) {
        match self {
            ArrowBody::BlockStmt(_it) => {}
            ArrowBody::Expr(_it) => {}
        }
    }
}

/// One link of an optional chain (ECMA-262, 13.3.9).
#[derive(PartialEq, Drop, Debug)]
pub enum OptChainBase<E = Expr> {
    MemberExpr(MemberExpr<E>),
    OptCall(OptCall<E>),
}

/// A call in an optional chain (ECMA-262, 13.3.9).
#[derive(PartialEq, Drop, Debug)]
pub struct OptCall<E = Expr> {
    pub callee: Box<E>,
    pub args: Vec<ExprOrSpread<E>>,
}

/// A template literal (ECMA-262, 13.2.8).
#[derive(PartialEq, Drop, Debug)]
pub struct Tpl<E = Expr> {
    pub exprs: Vec<E>,
    pub quasis: Vec<TplElement>,
}

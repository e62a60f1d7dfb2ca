//! Patterns, and what is assigned to (ECMA-262, 13.15.5 and 14.3.3).

use crate::expr::{Expr, MemberExpr, ParenExpr, SuperPropExpr};
use crate::prop::PropName;
use bundle_syntax::ident::BindingIdent;

/// A pattern (ECMA-262, 14.3.3). `Expr` stands in patterns that assign and bind nothing.
#[cycle(ast)]
#[derive(PartialEq)]
pub enum Pat {
    BindingIdent(BindingIdent),
    ArrayPat(ArrayPat),
    RestPat(RestPat),
    ObjectPat(ObjectPat),
    AssignPat { left: Box<Pat>, right: Box<Expr> },
    Expr(Box<Expr>),
}

/// Lets go of a pattern and all below it. Written by hand, so that who lets one go from another crate calls
/// this function, where a derived one would be proved anew in that crate.
impl Drop for Pat {
    #[cycle(drop)]
    fn drop(self) {
        match self {
            Pat::BindingIdent(_it) => {}
            Pat::ArrayPat(_it) => {}
            Pat::RestPat(_it) => {}
            Pat::ObjectPat(_it) => {}
            Pat::AssignPat {
                left: _left,
                right: _right,
            } => {}
            Pat::Expr(_it) => {}
        }
    }
}

/// A pattern of elements (ECMA-262, 14.3.3 ArrayBindingPattern).
#[derive(PartialEq, Drop, Debug)]
pub struct ArrayPat<P = Pat> {
    pub elems: Vec<Option<P>>,
}

/// What is left over, behind `...` (ECMA-262, 14.3.3 BindingRestElement).
#[derive(PartialEq, Drop, Debug)]
pub struct RestPat<P = Pat> {
    pub arg: Box<P>,
}

/// A pattern of properties (ECMA-262, 14.3.3 ObjectBindingPattern).
#[derive(PartialEq, Drop, Debug)]
pub struct ObjectPat<O = ObjectPatProp> {
    pub props: Vec<O>,
}

/// What stands in a pattern of properties (ECMA-262, 14.3.3).
#[cycle(ast)]
#[derive(PartialEq)]
pub enum ObjectPatProp {
    KeyValuePatProp {
        key: PropName,
        value: Pat,
    },
    AssignPatProp {
        key: BindingIdent,
        value: Option<Expr>,
    },
    RestPat(RestPat),
}

/// Lets go of what stands in a pattern of properties and all below it.
impl Drop for ObjectPatProp {
    #[cycle(drop)]
    fn drop(self) {
        match self {
            ObjectPatProp::KeyValuePatProp {
                key: _key,
                value: _value,
            } => {}
            ObjectPatProp::AssignPatProp {
                key: _key,
                value: _value,
            } => {}
            ObjectPatProp::RestPat(_it) => {}
        }
    }
}

/// The left side of an assignment (ECMA-262, 13.15).
#[cycle(ast)]
#[derive(PartialEq)]
pub enum AssignTarget {
    BindingIdent(BindingIdent),
    MemberExpr(MemberExpr),
    SuperPropExpr(SuperPropExpr),
    ParenExpr(ParenExpr),
    ArrayPat(ArrayPat),
    ObjectPat(ObjectPat),
}

/// Lets go of the left side of an assignment and all below it.
impl Drop for AssignTarget {
    #[cycle(drop)]
    fn drop(self) {
        match self {
            AssignTarget::BindingIdent(_it) => {}
            AssignTarget::MemberExpr(_it) => {}
            AssignTarget::SuperPropExpr(_it) => {}
            AssignTarget::ParenExpr(_it) => {}
            AssignTarget::ArrayPat(_it) => {}
            AssignTarget::ObjectPat(_it) => {}
        }
    }
}

//! Properties of object literals, and names of properties (ECMA-262, 13.2.5 and 13.3.2).

use crate::class::Function;
use crate::expr::Expr;
use crate::pat::Pat;
use crate::stmt::BlockStmt;
use bundle_syntax::ident::{Ident, IdentName, PrivateName};
use bundle_syntax::lit::{BigInt, Number, Str};

/// What stands in an object literal (ECMA-262, 13.2.5).
#[cycle(ast)]
#[derive(PartialEq)]
pub enum PropOrSpread {
    SpreadElement { expr: Expr },
    Prop(Prop),
}

/// Lets go of what stands in an object literal and all below it.
impl Drop for PropOrSpread {
    #[cycle(drop)]
    fn drop(self) {
        match self {
            PropOrSpread::SpreadElement { expr: _expr } => {}
            PropOrSpread::Prop(_it) => {}
        }
    }
}

/// A property of an object literal (ECMA-262, 13.2.5 and 15.4).
#[cycle(ast)]
#[derive(PartialEq)]
pub enum Prop {
    Shorthand(Ident),
    KeyValueProp(KeyValueProp),
    GetterProp {
        key: PropName,
        body: BlockStmt,
    },
    SetterProp {
        key: PropName,
        param: Pat,
        body: BlockStmt,
    },
    MethodProp {
        key: PropName,
        function: Function,
    },
}

/// Lets go of a property and all below it.
impl Drop for Prop {
    #[cycle(drop)]
    fn drop(self) {
        match self {
            Prop::Shorthand(_it) => {}
            Prop::KeyValueProp(_it) => {}
            Prop::GetterProp {
                key: _key,
                body: _body,
            } => {}
            Prop::SetterProp {
                key: _key,
                param: _param,
                body: _body,
            } => {}
            Prop::MethodProp {
                key: _key,
                function: _function,
            } => {}
        }
    }
}

/// A key with its value (ECMA-262, 13.2.5).
#[derive(PartialEq, Drop, Debug)]
pub struct KeyValueProp<E = Expr> {
    pub key: PropName<E>,
    pub value: E,
}

/// A key that is computed, in brackets (ECMA-262, 13.2.5).
#[derive(PartialEq, Drop, Debug)]
pub struct ComputedPropName<E = Expr> {
    pub expr: Box<E>,
}

/// The key of a property or of a member of a class (ECMA-262, 13.2.5 PropertyName).
#[derive(PartialEq, Drop, Debug)]
pub enum PropName<E = Expr> {
    IdentName(IdentName),
    Str(Str),
    Number(Number),
    BigInt(BigInt),
    ComputedPropName(ComputedPropName<E>),
}

/// What stands behind the object of a member expression (ECMA-262, 13.3.2).
#[derive(PartialEq, Drop, Debug)]
pub enum MemberProp<E = Expr> {
    IdentName(IdentName),
    PrivateName(PrivateName),
    ComputedPropName(ComputedPropName<E>),
}

/// What stands behind `super` (ECMA-262, 13.3.7).
#[derive(PartialEq, Drop, Debug)]
pub enum SuperProp<E = Expr> {
    IdentName(IdentName),
    ComputedPropName(ComputedPropName<E>),
}

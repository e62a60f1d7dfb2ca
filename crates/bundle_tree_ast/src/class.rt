//! Functions and classes (ECMA-262, 15).

use crate::expr::Expr;
use crate::pat::Pat;
use crate::prop::PropName;
use crate::stmt::BlockStmt;
use bundle_syntax::ident::PrivateName;
use bundle_syntax::kind::MethodKind;

/// The parameters and the body of a function or a method (ECMA-262, 15.2, 15.5, 15.6 and 15.8).
#[cycle(ast)]
#[derive(PartialEq)]
pub struct Function {
    pub params: Vec<Param>,
    pub body: BlockStmt,
    pub is_generator: bool,
    pub is_async: bool,
}

/// Lets go of a function and all below it.
impl Drop for Function {
    #[cycle(drop)]
    fn drop(self) {
        let Function {
            params: _params,
            body: _body,
            is_generator: _is_generator,
            is_async: _is_async,
        } = self;
    }
}

/// A parameter (ECMA-262, 15.1).
#[derive(PartialEq, Drop, Debug)]
pub struct Param<P = Pat> {
    pub pat: P,
}

/// The heritage and the members of a class (ECMA-262, 15.7).
#[cycle(ast)]
#[derive(PartialEq)]
pub struct Class {
    pub super_class: Option<Box<Expr>>,
    pub body: Vec<ClassMember>,
}

/// Lets go of a class and all below it.
impl Drop for Class {
    #[cycle(drop)]
    fn drop(self) {
        let Class {
            super_class: _super_class,
            body: _body,
        } = self;
    }
}

/// A member of a class (ECMA-262, 15.7 ClassElement).
#[cycle(ast)]
#[derive(PartialEq)]
pub enum ClassMember {
    Constructor {
        params: Vec<Param>,
        body: BlockStmt,
    },
    ClassMethod {
        key: PropName,
        function: Function,
        kind: MethodKind,
        is_static: bool,
    },
    PrivateMethod {
        key: PrivateName,
        function: Function,
        kind: MethodKind,
        is_static: bool,
    },
    ClassProp {
        key: PropName,
        value: Option<Expr>,
        is_static: bool,
    },
    PrivateProp {
        key: PrivateName,
        value: Option<Expr>,
        is_static: bool,
    },
    StaticBlock {
        body: BlockStmt,
    },
    EmptyStmt,
}

/// Lets go of a member of a class and all below it.
impl Drop for ClassMember {
    #[cycle(drop)]
    fn drop(self) {
        match self {
            ClassMember::Constructor {
                params: _params,
                body: _body,
            } => {}
            ClassMember::ClassMethod {
                key: _key,
                function: _function,
                kind: _kind,
                is_static: _is_static,
            } => {}
            ClassMember::PrivateMethod {
                key: _key,
                function: _function,
                kind: _kind,
                is_static: _is_static,
            } => {}
            ClassMember::ClassProp {
                key: _key,
                value: _value,
                is_static: _is_static,
            } => {}
            ClassMember::PrivateProp {
                key: _key,
                value: _value,
                is_static: _is_static,
            } => {}
            ClassMember::StaticBlock { body: _body } => {}
            ClassMember::EmptyStmt => {}
        }
    }
}

//! Declarations (ECMA-262, 14.3, 15.2 and 15.7).

use crate::class::{Class, Function};
use crate::expr::Expr;
use crate::pat::Pat;
use bundle_syntax::ident::Ident;
use bundle_syntax::kind::{ExportMetadata, VarDeclKind};

/// A declaration of a class, a function or variables.
#[cycle(ast)]
#[derive(PartialEq)]
pub enum Decl {
    ClassDecl { ident: Ident, class: Class },
    FnDecl { ident: Ident, function: Function },
    VarDecl(VarDecl),
}

/// Lets go of a declaration and all below it.
impl Drop for Decl {
    #[cycle(drop)]
    fn drop(self) {
        match self {
            Decl::ClassDecl {
                ident: _ident,
                class: _class,
            } => {}
            Decl::FnDecl {
                ident: _ident,
                function: _function,
            } => {}
            Decl::VarDecl(_it) => {}
        }
    }
}

/// `var`, `let` or `const` with its declarators (ECMA-262, 14.3).
#[derive(PartialEq, Drop, Debug)]
pub struct VarDecl<D = VarDeclarator> {
    pub kind: VarDeclKind,
    pub decls: Vec<D>,
    pub meta: ExportMetadata,
}

/// A declared pattern and its first value (ECMA-262, 14.3.2 VariableDeclaration).
#[cycle(ast)]
#[derive(PartialEq)]
pub struct VarDeclarator {
    pub name: Pat,
    pub init: Option<Expr>,
}

/// Lets go of a declarator and all below it.
impl Drop for VarDeclarator {
    #[cycle(drop)]
    fn drop(self) {
        let VarDeclarator {
            name: _name,
            init: _init,
        } = self;
    }
}

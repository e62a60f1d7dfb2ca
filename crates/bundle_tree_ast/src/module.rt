//! Modules, their imports and their exports (ECMA-262, 16.2).

use crate::class::{Class, Function};
use crate::decl::Decl;
use crate::expr::Expr;
use crate::stmt::Stmt;
use bundle_syntax::ident::Ident;
use bundle_syntax::kind::ExportMetadata;
use bundle_syntax::lit::Str;
use bundle_syntax::specifier::{ExportSpecifier, ImportSpecifier};

/// A module (ECMA-262, 16.2).
#[derive(PartialEq, Debug)]
pub struct Module {
    pub body: Vec<ModuleItem>,
}

/// Lets go of a module and all below it. Written by hand, so that who lets one go from another crate calls
/// this function, where a derived one would be proved anew in that crate.
impl Drop for Module {
    fn drop(self) {
        let Module { body: _body } = self;
    }
}

impl Module {
    ghost use Rattle.std.specs.Prelude.{◌≡◌};

    /// What stands in the module, taken out of it.
    pub fn into_body(self) -> Vec<ModuleItem>
        ensures { result ≡ self.body }
    {
        let Module { body } = self;
        body
    }
}

/// What stands at the top of a module (ECMA-262, 16.2).
#[derive(PartialEq, Debug)]
pub enum ModuleItem {
    ModuleDecl(ModuleDecl),
    Stmt(Stmt),
}

/// Lets go of what stands at the top of a module and all below it.
impl Drop for ModuleItem {
    fn drop(self) {
        match self {
            ModuleItem::ModuleDecl(_it) => {}
            ModuleItem::Stmt(_it) => {}
        }
    }
}

/// An import or an export (ECMA-262, 16.2.2 and 16.2.3).
#[derive(PartialEq, Debug)]
pub enum ModuleDecl {
    ImportDecl {
        specifiers: Vec<ImportSpecifier>,
        src: Str,
        meta: ExportMetadata,
    },
    ExportDecl {
        decl: Decl,
    },
    NamedExport {
        specifiers: Vec<ExportSpecifier>,
        src: Option<Str>,
        meta: ExportMetadata,
    },
    ExportDefaultDecl {
        decl: DefaultDecl,
    },
    ExportDefaultExpr {
        expr: Expr,
    },
    ExportAll {
        src: Str,
        meta: ExportMetadata,
    },
}

/// Lets go of an import or an export and all below it.
impl Drop for ModuleDecl {
    fn drop(self) {
        match self {
            ModuleDecl::ImportDecl {
                specifiers: _specifiers,
                src: _src,
                meta: _meta,
            } => {}
            ModuleDecl::ExportDecl { decl: _decl } => {}
            ModuleDecl::NamedExport {
                specifiers: _specifiers,
                src: _src,
                meta: _meta,
            } => {}
            ModuleDecl::ExportDefaultDecl { decl: _decl } => {}
            ModuleDecl::ExportDefaultExpr { expr: _expr } => {}
            ModuleDecl::ExportAll {
                src: _src,
                meta: _meta,
            } => {}
        }
    }
}

/// The class or function of an `export default` (ECMA-262, 16.2.3).
#[derive(PartialEq, Debug)]
pub enum DefaultDecl {
    ClassExpr {
        ident: Option<Ident>,
        class: Class,
    },
    FnExpr {
        ident: Option<Ident>,
        function: Function,
    },
}

/// Lets go of the class or function of an `export default` and all below it.
impl Drop for DefaultDecl {
    fn drop(self) {
        match self {
            DefaultDecl::ClassExpr {
                ident: _ident,
                class: _class,
            } => {}
            DefaultDecl::FnExpr {
                ident: _ident,
                function: _function,
            } => {}
        }
    }
}

//! What an import or an export names.

use crate::ident::Ident;
use crate::lit::Str;

/// A name under which a module exports: an identifier or a string (ECMA-262, 16.2 ModuleExportName).
#[derive(PartialEq, Drop, Debug)]
pub enum ModuleExportName {
    Ident(Ident),
    Str(Str),
}

/// What an import declaration binds (ECMA-262, 16.2.2): `a` or `a as b`, the default, or `* as ns`.
#[derive(PartialEq, Drop, Debug)]
pub enum ImportSpecifier {
    ImportNamedSpecifier {
        local: Ident,
        imported: Option<ModuleExportName>,
    },
    ImportDefaultSpecifier {
        local: Ident,
    },
    ImportStarAsSpecifier {
        local: Ident,
    },
}

/// What an export list names (ECMA-262, 16.2.3): `* as ns`, or `a` or `a as b`.
#[derive(PartialEq, Drop, Debug)]
pub enum ExportSpecifier {
    ExportNamespaceSpecifier {
        name: ModuleExportName,
    },
    ExportNamedSpecifier {
        orig: ModuleExportName,
        exported: Option<ModuleExportName>,
    },
}

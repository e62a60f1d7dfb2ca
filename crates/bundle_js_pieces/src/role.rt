//! What identifiers are where they stand (ECMA-262, 8.2 and 13.1).

use bundle_js_record::kind::Kind;
use bundle_syntax::Role;

/// What the names of patterns in the field `field` of a node are, where those of the node itself are `names`.
/// For an export list it is what the names that it exports are.
pub fn names_in(kind: Kind, field: u8, names: Role) -> Role {
    match kind {
        Kind::VarDeclarator | Kind::Param | Kind::CatchClause | Kind::ArrowExpr => if field == 0 {
            Role::Binding
        } else {
            Role::Reference
        },
        Kind::SetterProp => if field == 1 {
            Role::Binding
        } else {
            Role::Reference
        },
        Kind::ArrayPat | Kind::ObjectPat | Kind::RestPat | Kind::AssignPat | Kind::AssignPatProp =>
            { if field == 0 { names } else { Role::Reference } }
        Kind::KeyValuePatProp => if field == 1 { names } else { Role::Reference },
        Kind::NamedExport => names,
        _ => Role::Reference,
    }
}

/// What an identifier in the field `field` of a node is, where the names of the node as a pattern are `names`.
pub fn ident_in(kind: Kind, field: u8, names: Role) -> Role {
    match kind {
        Kind::ImportNamedSpecifier => if field == 0 {
            Role::Binding
        } else {
            Role::Word
        },
        Kind::ImportDefaultSpecifier
        | Kind::ImportStarAsSpecifier
        | Kind::ClassDecl
        | Kind::FnDecl
        | Kind::ClassExpr
        | Kind::FnExpr => if field == 0 {
            Role::Binding
        } else {
            Role::Reference
        },
        Kind::ExportNamespaceSpecifier => Role::Word,
        Kind::ExportNamedSpecifier => if field == 0 { names } else { Role::Word },
        _ => Role::Reference,
    }
}

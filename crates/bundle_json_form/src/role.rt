//! Where a node stands, and what the identifiers in it are (ECMA-262, 8.2 and 13.1).

ghost use Rattle.std.specs.Prelude.{◌≡◌};
ghost use Rattle.bundle_syntax.specs.Item.{head_of};
ghost use Rattle.bundle_json_form.specs.Form.{ident_role, names_role, top as top_place};

use bundle_syntax::{Node, Role};

/// Where a node stands: the number of its field, what it is if it is an identifier, what the names of its
/// patterns are, and whether a `null` there is a place that has no element.
#[derive(Clone, Copy)]
pub struct NodePlace {
    pub field: u8,
    pub ident: Role,
    pub names: Role,
    pub has_holes: bool,
}

/// What the names of patterns in the field `field` of `node` are, where those of `node` itself are `role`.
/// For an export list it is what the names that it exports are.
pub fn role_in(node: &Node, field: u8, role: Role, has_source: bool) -> Role
    ensures { result ≡ names_role (head_of node.now) field role has_source }
{
    match node {
        Node::VarDeclarator | Node::Param | Node::CatchClause | Node::ArrowExpr { .. } => {
            if field == 0 {
                Role::Binding
            } else {
                Role::Reference
            }
        }
        Node::SetterProp => if field == 1 {
            Role::Binding
        } else {
            Role::Reference
        },
        Node::NamedExport { .. } => if has_source {
            Role::Word
        } else {
            Role::Reference
        },
        Node::ArrayPat | Node::ObjectPat | Node::RestPat | Node::AssignPat | Node::AssignPatProp =>
            { if field == 0 { role } else { Role::Reference } }
        Node::KeyValuePatProp => if field == 1 { role } else { Role::Reference },
        Node::ExportNamedSpecifier => role,
        _ => Role::Reference,
    }
}

/// What an identifier that stands in the field `field` of `node` is, where the names of `node` as a
/// pattern are `role`.
pub fn role_of_ident(node: &Node, field: u8, role: Role) -> Role
    ensures { result ≡ ident_role (head_of node.now) field role }
{
    match node {
        Node::BindingIdent => role,
        Node::ImportNamedSpecifier => if field == 0 {
            Role::Binding
        } else {
            Role::Word
        },
        Node::ImportDefaultSpecifier
        | Node::ImportStarAsSpecifier
        | Node::ClassDecl
        | Node::FnDecl
        | Node::ClassExpr
        | Node::FnExpr => if field == 0 {
            Role::Binding
        } else {
            Role::Reference
        },
        Node::ExportNamespaceSpecifier => Role::Word,
        Node::ExportNamedSpecifier => if field == 0 { role } else { Role::Word },
        _ => Role::Reference,
    }
}

impl NodePlace {
    /// Where a module stands, or a property of a list of properties.
    pub fn top() -> NodePlace
        ensures { result ≡ top_place }
    {
        NodePlace {
            field: 0,
            ident: Role::Reference,
            names: Role::Reference,
            has_holes: false,
        }
    }
}

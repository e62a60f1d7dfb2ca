//! The alias that an item makes.

ghost use Rattle.std.specs.Prelude.{◌≡◌, map, option_map, slice_get};
ghost use Rattle.bundle_tree_places.specs.Marks.{ident_of};
ghost use Rattle.bundle_syntax.specs.Item.{head_of, item_of};
ghost use Rattle.bundle_merge_modules.specs.Aliased as aliased;
ghost use Rattle.bundle_merge_modules.specs.Aliased.{alias_in, is_binding_role, is_const_head, is_declarator_head, is_pattern_head, is_reference, named_in_field};

use bundle_syntax::{Node, Piece, Role, VarDeclKind};
use bundle_tree_places::Name;

/// What the item with this list makes an alias, and of what, if it makes one.
pub(crate) fn alias_of<'a>(list: &[Piece<'a>]) -> Option<(Name<'a>, Name<'a>)>
    ensures { option_map (λ pair. (ident_of pair.0, ident_of pair.1)) result
        ≡ alias_in (map item_of list.now) }
{
    if !is_framed(list) {
        return None;
    }
    let name = bound_at(list, 3)?;
    let end = referred_at(list, 5)?;
    Some((name, end))
}

// Whether all but the two names is that of an alias.
fn is_framed<'a>(list: &[Piece<'a>]) -> bool
    ensures { result ≡ aliased.is_framed (map item_of list.now) }
{
    list.len() == 8
        && is_const_at(list, 0)
        && is_declarator_at(list, 1)
        && is_pattern_at(list, 2)
        && is_end(list, 4)
        && is_end(list, 6)
        && is_end(list, 7)
}

fn is_const_at<'a>(list: &[Piece<'a>], at: usize) -> bool
    ensures { result ≡ aliased.begins_in_field is_const_head 0 (slice_get (map item_of list.now) at) }
{
    match list.get(at) {
        Some(Piece::Open { field, node }) => *field == 0 && is_const(*node),
        _ => false,
    }
}

// Whether a node is a `const` that the linker noted as its own.
fn is_const<'a>(node: Node<'a>) -> bool
    ensures { result ≡ is_const_head (head_of node.entry) }
{
    match node {
        Node::VarDecl { kind, meta } => kind == VarDeclKind::Const && meta.injected,
        _ => false,
    }
}

fn is_declarator_at<'a>(list: &[Piece<'a>], at: usize) -> bool
    ensures { result ≡ aliased.begins_in_field is_declarator_head 1 (slice_get (map item_of list.now) at) }
{
    match list.get(at) {
        Some(Piece::Open { field, node }) => *field == 1 && is_declarator(*node),
        _ => false,
    }
}

fn is_declarator<'a>(node: Node<'a>) -> bool
    ensures { result ≡ is_declarator_head (head_of node.entry) }
{
    match node {
        Node::VarDeclarator => true,
        _ => false,
    }
}

fn is_pattern_at<'a>(list: &[Piece<'a>], at: usize) -> bool
    ensures { result ≡ aliased.begins_in_field is_pattern_head 0 (slice_get (map item_of list.now) at) }
{
    match list.get(at) {
        Some(Piece::Open { field, node }) => *field == 0 && is_pattern(*node),
        _ => false,
    }
}

fn is_pattern<'a>(node: Node<'a>) -> bool
    ensures { result ≡ is_pattern_head (head_of node.entry) }
{
    match node {
        Node::BindingIdent => true,
        _ => false,
    }
}

fn is_end<'a>(list: &[Piece<'a>], at: usize) -> bool
    ensures { result ≡ aliased.is_node_end (slice_get (map item_of list.now) at) }
{
    match list.get(at) {
        Some(Piece::Close) => true,
        _ => false,
    }
}

// The identifier at a place, if it binds in the first field.
fn bound_at<'a>(list: &[Piece<'a>], at: usize) -> Option<Name<'a>>
    ensures { option_map ident_of result
        ≡ named_in_field is_binding_role 0 (slice_get (map item_of list.now) at) }
{
    match list.get(at) {
        Some(
            Piece::Ident {
                field: 0,
                sym,
                ctxt,
                role: Role::Binding,
            },
        ) => Some(Name { sym, ctxt: *ctxt }),
        _ => None,
    }
}

// The identifier at a place, if it refers in the second field.
fn referred_at<'a>(list: &[Piece<'a>], at: usize) -> Option<Name<'a>>
    ensures { option_map ident_of result
        ≡ named_in_field is_reference 1 (slice_get (map item_of list.now) at) }
{
    match list.get(at) {
        Some(
            Piece::Ident {
                field: 1,
                sym,
                ctxt,
                role: Role::Reference,
            },
        ) => Some(Name { sym, ctxt: *ctxt }),
        _ => None,
    }
}

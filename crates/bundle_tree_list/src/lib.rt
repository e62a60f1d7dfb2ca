//! The full list of a syntax tree: where each node begins and ends, with every value that stands in
//! it, and each identifier with its role. Every field of the tree stands in the list, so trees are equal exactly
//! where their lists are.
#![tactic(auto)]

pub mod same;
pub mod walk;

ghost use Rattle.std.specs.Prelude.{◌≡◌, [], IfOk, map};
ghost use Rattle.std.specs.List.{flat_map};
ghost use Rattle.bundle_syntax.specs.Item as h;
ghost use Rattle.bundle_syntax.specs.Item.{item_of};
ghost use Rattle.bundle_tree_listed.specs.Tree.{expr_items, key_value_prop_items, module_item_items, module_items, node};

pub use bundle_syntax::{Node, Piece, Role};
use bundle_tree_ast::{Expr, KeyValueProp, Module, ModuleItem};
pub use same::{is_same, is_same_expr, is_same_module};
use std::alloc::{AllocError, Global};
pub use walk::Walk;

/// The list of the items of a module, each in field 0 as in a `Module`. Refused only where memory runs
/// out.
pub fn pieces<'a>(alloc: Global, items: &'a [ModuleItem]) -> Result<Vec<Piece<'a>>, AllocError>
    ensures { IfOk result (λ list.
        map item_of list.items ≡ flat_map (module_item_items 0) items.now) }
{
    let mut walk = walk_for(alloc, items)?;
    walk.each_module_item(0, items)?;
    Ok(walk.into_pieces())
}

/// The list of a module, from its beginning to its end. Refused only where memory runs out.
pub fn pieces_of_module<'a>(alloc: Global, tree: &'a Module) -> Result<Vec<Piece<'a>>, AllocError>
    ensures { IfOk result (λ list. map item_of list.items ≡ module_items 0 tree.now) }
{
    pieces_of_body(alloc, tree.body.as_slice())
}

/// The list of a module with this body, from its beginning to its end. Refused only where memory runs out.
pub fn pieces_of_body<'a>(
    alloc: Global,
    body: &'a [ModuleItem],
) -> Result<Vec<Piece<'a>>, AllocError>
    ensures { IfOk result (λ list.
        map item_of list.items ≡ node 0 h.Module (flat_map (module_item_items 0) body.now)) }
{
    let mut walk = walk_for(alloc, body)?;
    walk.open(0, Node::Module)?;
    walk.each_module_item(0, body)?;
    walk.close()?;
    Ok(walk.into_pieces())
}

// So many pieces have room at first for each item, and so many at most. What is not needed is never touched.
const ROOM_OF_ITEM: usize = 128;

const MOST_ROOM: usize = 1_048_576;

// A walk that has met nothing, with room for about as many pieces as these items have, so that their list seldom grows.
fn walk_for<'a>(alloc: Global, items: &[ModuleItem]) -> Result<Walk<'a>, AllocError>
    ensures { IfOk result (λ walk. walk ≡ []) }
{
    let room = items.len().saturating_mul(ROOM_OF_ITEM).min(MOST_ROOM);
    Walk::with_room(alloc, room)
}

/// The list of an expression, which stands in field 0. Refused only where memory runs out.
pub fn pieces_of_expr<'a>(alloc: Global, expr: &'a Expr) -> Result<Vec<Piece<'a>>, AllocError>
    ensures { IfOk result (λ list. map item_of list.items ≡ expr_items 0 expr.now) }
{
    let mut walk = Walk::new(alloc);
    walk.expr(0, expr)?;
    Ok(walk.into_pieces())
}

/// The list of properties, each in field 0. Refused only where memory runs out.
pub fn pieces_of_properties<'a>(
    alloc: Global,
    properties: &'a [KeyValueProp],
) -> Result<Vec<Piece<'a>>, AllocError>
    ensures { IfOk result (λ list.
        map item_of list.items ≡ flat_map (key_value_prop_items 0) properties.now) }
{
    let mut walk = Walk::new(alloc);
    walk.each_key_value_prop(0, properties)?;
    Ok(walk.into_pieces())
}

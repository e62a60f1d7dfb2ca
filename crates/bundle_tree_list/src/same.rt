//! The comparison of trees that is derived, and what it says of their lists.

ghost use Rattle.std.specs.Prelude.{◌≡◌, ◌↔◌, IsTrue};
ghost use Rattle.std.specs.List.{flat_map};
ghost use Rattle.bundle_tree_listed.specs.Tree.{expr_items, module_item_items, module_items};

use bundle_tree_ast::{Expr, Module, ModuleItem};

/// Whether the items of two modules are equal, as `==` tells: every name, value, flag and place, contexts and
/// notes included, so exactly where their lists are equal.
pub fn is_same(items: &[ModuleItem], other: &[ModuleItem]) -> bool
    ensures { IsTrue result
        ↔ (flat_map (module_item_items 0) items.now
        ≡ flat_map (module_item_items 0) other.now) }
{
    items == other
}

/// Whether two modules are equal, as `==` tells: exactly where their lists are.
pub fn is_same_module(tree: &Module, other: &Module) -> bool
    ensures { IsTrue result ↔ (module_items 0 tree.now ≡ module_items 0 other.now) }
{
    tree == other
}

/// Whether two expressions are equal, as `==` tells: exactly where their lists are.
pub fn is_same_expr(expr: &Expr, other: &Expr) -> bool
    ensures { IsTrue result ↔ (expr_items 0 expr.now ≡ expr_items 0 other.now) }
{
    expr == other
}

//! The statements of a module, copied.

ghost use Rattle.std.specs.Prelude.{◌≡◌, ◌++◌, IfOk, OnOk, flat_map};
ghost use Rattle.bundle_tree_listed.specs.Tree.{stmt_items};
ghost use Rattle.bundle_merge_forms.specs.Wrapped.{statement_items};

use bundle_tree_ast::{ModuleItem, Stmt};
use bundle_tree_rewrite::TryClone;
use std::alloc::{AllocError, Global};

/// Copies of the statements among items, in their order.
pub(crate) fn statements(alloc: Global, items: &[ModuleItem]) -> Result<Vec<Stmt>, AllocError>
    ensures { IfOk result (λ made.
        flat_map (stmt_items 0) made.items ≡ flat_map statement_items items.now) }
{
    let mut stmts = Vec::new(alloc);
    for item in items {
        add_statement(alloc, &mut stmts, item)?;
    }
    Ok(stmts)
}

// A copy of an item, if it is a statement, behind these.
fn add_statement(alloc: Global, stmts: &mut Vec<Stmt>, item: &ModuleItem) -> Result<(), AllocError>
    ensures { OnOk result (flat_map (stmt_items 0) stmts.new.items
        ≡ flat_map (stmt_items 0) stmts.old.items ++ statement_items item.now) }
{
    if let ModuleItem::Stmt(stmt) = item {
        add_copy(alloc, stmts, stmt)?;
    }
    Ok(())
}

// A copy of a statement, behind these.
fn add_copy(alloc: Global, stmts: &mut Vec<Stmt>, stmt: &Stmt) -> Result<(), AllocError>
    ensures { OnOk result (flat_map (stmt_items 0) stmts.new.items
        ≡ flat_map (stmt_items 0) stmts.old.items ++ stmt_items 0 stmt.now) }
{
    let copy = stmt.try_clone(alloc)?;
    stmts.push(copy)?;
    Ok(())
}

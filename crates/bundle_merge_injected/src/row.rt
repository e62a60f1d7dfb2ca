//! Rows of a few nodes.

ghost use Rattle.std.specs.Prelude.{◌≡◌, ◌++◌, IfOk};
ghost use Rattle.bundle_tree_listed.specs.Tree.{each_expr_or_spread_items, each_stmt_items, expr_items, expr_or_spread_items, stmt_items};
ghost use Rattle.bundle_merge_injected.specs.Listed as listed;

use bundle_tree_ast::{Expr, ExprOrSpread, Stmt};
use std::alloc::{AllocError, Global};

/// These statements, and one behind them.
pub(crate) fn with_stmt(stmts: Vec<Stmt>, stmt: Stmt) -> Result<Vec<Stmt>, AllocError>
    ensures { IfOk result
        (λ made. each_stmt_items 0 made ≡ each_stmt_items 0 stmts ++ stmt_items 0 stmt) }
{
    let mut stmts = stmts;
    stmts.push(stmt)?;
    Ok(stmts)
}

/// An argument, without `...` before it.
pub(crate) fn argument(expr: Expr) -> ExprOrSpread
    ensures { expr_or_spread_items 1 result ≡ listed.argument (expr_items 1 expr) }
{
    let spread = false;
    ExprOrSpread { spread, expr }
}

/// One argument.
pub(crate) fn one_argument(alloc: Global, expr: Expr) -> Result<Vec<ExprOrSpread>, AllocError>
    ensures { IfOk result
        (λ made. each_expr_or_spread_items 1 made ≡ listed.argument (expr_items 1 expr)) }
{
    let args = vec![in alloc; argument(expr)]?;
    Ok(args)
}

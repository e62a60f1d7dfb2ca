//! A module as the call of one function.

ghost use Rattle.std.specs.Prelude.{◌≡◌, ◌++◌, ℕ, IfOk, false, map};
ghost use Rattle.bundle_syntax.specs.Item.{ExprStmt, FnExpr, Function as FunctionHead, BlockStmt as BlockHead};
ghost use Rattle.bundle_tree_listed.specs.Tree.{each_stmt_items, expr_items, node, stmt_items};
ghost use Rattle.bundle_rules.specs.Forms.{returned_object};
ghost use Rattle.bundle_merge_injected.specs.Listed.{called, pair_of};

use crate::function::call_bare;
use crate::name::Pair;
use crate::object::return_object;
use crate::row::with_stmt;
use bundle_tree_ast::{BlockStmt, Expr, Function, ParenExpr, Stmt};
use std::alloc::{AllocError, Global};

/// The one statement `(function () { .. return { k: l, .. }; })();` that a module may be, with these statements in
/// front of the object that is returned (ECMA-262, 13.2.5 and 15.2). The function is async where that is asked for.
/// Refused only where memory runs out.
pub fn function_call<'a>(
    alloc: Global,
    stmts: Vec<Stmt>,
    pairs: &[Pair<'a>],
    is_async: bool,
) -> Result<Stmt, AllocError>
    ensures { IfOk result (λ made. stmt_items 0 made ≡ node 0 ExprStmt
        (called is_async (each_stmt_items 0 stmts ++ returned_object (map pair_of pairs.now)))) }
{
    let returned = return_object(alloc, pairs)?;
    let whole = with_stmt(stmts, returned)?;
    let expr = call_of(alloc, whole, is_async)?;
    Ok(Stmt::ExprStmt { expr })
}

// `(function () { .. })()`, or `(async function () { .. })()`.
fn call_of(alloc: Global, stmts: Vec<Stmt>, is_async: bool) -> Result<Expr, AllocError>
    ensures { IfOk result (λ made.
        expr_items 0 made ≡ called is_async (each_stmt_items 0 stmts)) }
{
    let expr = Box::new(alloc, body_of(alloc, stmts, is_async))?;
    call_bare(alloc, Expr::ParenExpr(ParenExpr { expr }))
}

// `function () { .. }`, or `async function () { .. }`.
fn body_of(alloc: Global, stmts: Vec<Stmt>, is_async: bool) -> Expr
    ensures { expr_items 0 result
        ≡ node 0 FnExpr
        (node 1 (FunctionHead false is_async) (node 1 BlockHead (each_stmt_items 0 stmts))) }
{
    let params = Vec::new(alloc);
    Expr::FnExpr {
        ident: None,
        function: Function {
            params,
            body: BlockStmt { stmts },
            is_generator: false,
            is_async,
        },
    }
}

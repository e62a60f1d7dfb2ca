//! Functions and calls.

ghost use Rattle.std.specs.Prelude.{◌≡◌, ℕ, [], IfOk, flat_map, map};
ghost use Rattle.bundle_syntax.specs.Item.{FnExpr};
ghost use Rattle.bundle_tree_listed.specs.Tree.{each_expr_or_spread_items, each_param_items, each_stmt_items, expr_items, node};
ghost use Rattle.bundle_tree_places.specs.Marks.{ident_of};
ghost use Rattle.bundle_merge_injected.specs.Listed.{call_in, function_in, parameter};

use crate::name::pattern;
use bundle_tree_ast::{BlockStmt, Callee, Expr, ExprOrSpread, Function, Param, Stmt};
use bundle_tree_places::Name;
use std::alloc::{AllocError, Global};

/// `function (p, ..) { .. }`, as an expression.
#[tactic(auto, unfolding(bundle_tree_listed::specs::Tree::stmt_items))]
pub(crate) fn function(params: Vec<Param>, stmts: Vec<Stmt>) -> Expr
    ensures { (field : ℕ) →
        expr_items field result
        ≡ node field FnExpr
        (function_in 1 (each_param_items 0 params) (each_stmt_items 0 stmts)) }
{
    Expr::FnExpr {
        ident: None,
        function: Function {
            params,
            body: BlockStmt { stmts },
            is_generator: false,
            is_async: false,
        },
    }
}

/// Parameters of these names.
#[tactic(auto, using(crate::proofs::Nodes::nodes), unfolding(bundle_tree_listed::specs::Tree::stmt_items))]
pub(crate) fn parameters<'a>(alloc: Global, names: &[Name<'a>]) -> Result<Vec<Param>, AllocError>
    ensures { IfOk result (λ made.
        each_param_items 0 made ≡ flat_map parameter (map (λ name. ident_of name) names.now)) }
{
    let mut params = Vec::new(alloc);
    for name in names {
        let pat = pattern(alloc, *name)?;
        params.push(Param { pat })?;
    }
    Ok(params)
}

/// `callee(..)`
#[tactic(auto, unfolding(bundle_tree_listed::specs::Tree::stmt_items))]
pub(crate) fn call(alloc: Global, callee: Expr, args: Vec<ExprOrSpread>) -> Result<Expr, AllocError>
    ensures { IfOk result (λ made. (field : ℕ) → expr_items field made
        ≡ call_in field (expr_items 0 callee) (each_expr_or_spread_items 1 args)) }
{
    let callee = Callee::Expr(Box::new(alloc, callee)?);
    Ok(Expr::CallExpr { callee, args })
}

/// `callee()`
pub(crate) fn call_bare(alloc: Global, callee: Expr) -> Result<Expr, AllocError>
    ensures { IfOk result (λ made.
        (field : ℕ) → expr_items field made ≡ call_in field (expr_items 0 callee) []) }
{
    let args = Vec::new(alloc);
    call(alloc, callee, args)
}

//! Expressions (ECMA-262, 13).

ghost use Rattle.std.specs.Prelude.{refl};
ghost use Rattle.bundle_tree_listed.specs.Tree.{arrow_body_items, callee_items, expr_items, expr_or_spread_items, member_expr_items, opt_call_items, opt_chain_base_items, paren_expr_items, super_prop_expr_items, tpl_items};
ghost use Rattle.bundle_tree_parse.proofs.Places.{argument_in, callee_in, member_expr_in, opt_call_in, opt_chain_base_in, paren_in, super_member_in, template_in};
ghost use Rattle.bundle_tree_parse.proofs.Trees.{arrow_body_in, expr_in};
ghost use Rattle.bundle_tree_rewrite.specs.Copies.{IsCopyBy};
ghost use Rattle.bundle_tree_rewrite.specs.Copying.{arrow_body_moves, callee_moves, copy_by, expr_moves, opt_chain_base_moves};

use crate::try_clone::TryClone;
use bundle_tree_ast::{
    ArrowBody, Callee, Expr, ExprOrSpread, MemberExpr, OptCall, OptChainBase, ParenExpr,
    SuperPropExpr, Tpl,
};
use bundle_tree_list::Walk;
use std::alloc::AllocError;

impl TryClone for Expr {
    ghost is_copy = { IsCopyBy expr_items };

    fn list<'a>(&'a self, walk: &mut Walk<'a>) -> Result<(), AllocError> {
        walk.expr(0, self)
    }

    ghost stands = { expr_in 0 };

    ghost same = { copy_by expr_items expr_moves };
}

impl TryClone for ExprOrSpread {
    ghost is_copy = { IsCopyBy expr_or_spread_items };

    fn list<'a>(&'a self, walk: &mut Walk<'a>) -> Result<(), AllocError> {
        walk.expr_or_spread(0, self)
    }

    ghost stands = { argument_in 0 };

    ghost same = { copy_by expr_or_spread_items (λ field it. refl) };
}

impl TryClone for Callee {
    ghost is_copy = { IsCopyBy callee_items };

    fn list<'a>(&'a self, walk: &mut Walk<'a>) -> Result<(), AllocError> {
        walk.callee(0, self)
    }

    ghost stands = { callee_in 0 };

    ghost same = { copy_by callee_items callee_moves };
}

impl TryClone for ArrowBody {
    ghost is_copy = { IsCopyBy arrow_body_items };

    fn list<'a>(&'a self, walk: &mut Walk<'a>) -> Result<(), AllocError> {
        walk.arrow_body(0, self)
    }

    ghost stands = { arrow_body_in 0 };

    ghost same = { copy_by arrow_body_items arrow_body_moves };
}

impl TryClone for OptChainBase {
    ghost is_copy = { IsCopyBy opt_chain_base_items };

    fn list<'a>(&'a self, walk: &mut Walk<'a>) -> Result<(), AllocError> {
        walk.opt_chain_base(0, self)
    }

    ghost stands = { opt_chain_base_in 0 };

    ghost same = { copy_by opt_chain_base_items opt_chain_base_moves };
}

impl TryClone for OptCall {
    ghost is_copy = { IsCopyBy opt_call_items };

    fn list<'a>(&'a self, walk: &mut Walk<'a>) -> Result<(), AllocError> {
        walk.opt_call(0, self)
    }

    ghost stands = { opt_call_in 0 };

    ghost same = { copy_by opt_call_items (λ field it. refl) };
}

impl TryClone for MemberExpr {
    ghost is_copy = { IsCopyBy member_expr_items };

    fn list<'a>(&'a self, walk: &mut Walk<'a>) -> Result<(), AllocError> {
        walk.member_expr(0, self)
    }

    ghost stands = { member_expr_in 0 };

    ghost same = { copy_by member_expr_items (λ field it. refl) };
}

impl TryClone for SuperPropExpr {
    ghost is_copy = { IsCopyBy super_prop_expr_items };

    fn list<'a>(&'a self, walk: &mut Walk<'a>) -> Result<(), AllocError> {
        walk.super_prop_expr(0, self)
    }

    ghost stands = { super_member_in 0 };

    ghost same = { copy_by super_prop_expr_items (λ field it. refl) };
}

impl TryClone for ParenExpr {
    ghost is_copy = { IsCopyBy paren_expr_items };

    fn list<'a>(&'a self, walk: &mut Walk<'a>) -> Result<(), AllocError> {
        walk.paren_expr(0, self)
    }

    ghost stands = { paren_in 0 };

    ghost same = { copy_by paren_expr_items (λ field it. refl) };
}

impl TryClone for Tpl {
    ghost is_copy = { IsCopyBy tpl_items };

    fn list<'a>(&'a self, walk: &mut Walk<'a>) -> Result<(), AllocError> {
        walk.tpl(0, self)
    }

    ghost stands = { template_in 0 };

    ghost same = { copy_by tpl_items (λ field it. refl) };
}

//! Statements (ECMA-262, 14).

ghost use Rattle.std.specs.Prelude.{refl};
ghost use Rattle.bundle_tree_listed.specs.Tree.{block_stmt_items, catch_clause_items, for_head_items, for_init_items, stmt_items, switch_case_items};
ghost use Rattle.bundle_tree_parse.proofs.Places.{block_in, case_in, catch_in};
ghost use Rattle.bundle_tree_parse.proofs.Trees.{init_in, loop_head_in, stmt_in};
ghost use Rattle.bundle_tree_rewrite.specs.Copies.{IsCopyBy};
ghost use Rattle.bundle_tree_rewrite.specs.Copying.{copy_by, for_head_moves, for_init_moves, stmt_moves};

use crate::try_clone::TryClone;
use bundle_tree_ast::{BlockStmt, CatchClause, ForHead, ForInit, Stmt, SwitchCase};
use bundle_tree_list::Walk;
use std::alloc::AllocError;

impl TryClone for Stmt {
    ghost is_copy = { IsCopyBy stmt_items };

    fn list<'a>(&'a self, walk: &mut Walk<'a>) -> Result<(), AllocError> {
        walk.stmt(0, self)
    }

    ghost stands = { stmt_in 0 };

    ghost same = { copy_by stmt_items stmt_moves };
}

impl TryClone for BlockStmt {
    ghost is_copy = { IsCopyBy block_stmt_items };

    fn list<'a>(&'a self, walk: &mut Walk<'a>) -> Result<(), AllocError> {
        walk.block_stmt(0, self)
    }

    ghost stands = { block_in 0 };

    ghost same = { copy_by block_stmt_items (λ field it. refl) };
}

impl TryClone for SwitchCase {
    ghost is_copy = { IsCopyBy switch_case_items };

    fn list<'a>(&'a self, walk: &mut Walk<'a>) -> Result<(), AllocError> {
        walk.switch_case(0, self)
    }

    ghost stands = { case_in 0 };

    ghost same = { copy_by switch_case_items (λ field it. refl) };
}

impl TryClone for CatchClause {
    ghost is_copy = { IsCopyBy catch_clause_items };

    fn list<'a>(&'a self, walk: &mut Walk<'a>) -> Result<(), AllocError> {
        walk.catch_clause(0, self)
    }

    ghost stands = { catch_in 0 };

    ghost same = { copy_by catch_clause_items (λ field it. refl) };
}

impl TryClone for ForInit {
    ghost is_copy = { IsCopyBy for_init_items };

    fn list<'a>(&'a self, walk: &mut Walk<'a>) -> Result<(), AllocError> {
        walk.for_init(0, self)
    }

    ghost stands = { init_in 0 };

    ghost same = { copy_by for_init_items for_init_moves };
}

impl TryClone for ForHead {
    ghost is_copy = { IsCopyBy for_head_items };

    fn list<'a>(&'a self, walk: &mut Walk<'a>) -> Result<(), AllocError> {
        walk.for_head(0, self)
    }

    ghost stands = { loop_head_in 0 };

    ghost same = { copy_by for_head_items for_head_moves };
}

//! Declarations (ECMA-262, 14.3, 15.2 and 15.7).

ghost use Rattle.std.specs.Prelude.{refl};
ghost use Rattle.bundle_tree_listed.specs.Tree.{decl_items, var_decl_items, var_declarator_items};
ghost use Rattle.bundle_tree_parse.proofs.Places.{declarator_in, var_decl_in};
ghost use Rattle.bundle_tree_parse.proofs.Trees.{decl_in};
ghost use Rattle.bundle_tree_rewrite.specs.Copies.{IsCopyBy};
ghost use Rattle.bundle_tree_rewrite.specs.Copying.{copy_by, decl_moves};

use crate::try_clone::TryClone;
use bundle_tree_ast::{Decl, VarDecl, VarDeclarator};
use bundle_tree_list::Walk;
use std::alloc::AllocError;

impl TryClone for Decl {
    ghost is_copy = { IsCopyBy decl_items };

    fn list<'a>(&'a self, walk: &mut Walk<'a>) -> Result<(), AllocError> {
        walk.decl(0, self)
    }

    ghost stands = { decl_in 0 };

    ghost same = { copy_by decl_items decl_moves };
}

impl TryClone for VarDecl {
    ghost is_copy = { IsCopyBy var_decl_items };

    fn list<'a>(&'a self, walk: &mut Walk<'a>) -> Result<(), AllocError> {
        walk.var_decl(0, self)
    }

    ghost stands = { var_decl_in 0 };

    ghost same = { copy_by var_decl_items (λ field it. refl) };
}

impl TryClone for VarDeclarator {
    ghost is_copy = { IsCopyBy var_declarator_items };

    fn list<'a>(&'a self, walk: &mut Walk<'a>) -> Result<(), AllocError> {
        walk.var_declarator(0, self)
    }

    ghost stands = { declarator_in 0 };

    ghost same = { copy_by var_declarator_items (λ field it. refl) };
}

//! Functions and classes (ECMA-262, 15).

ghost use Rattle.std.specs.Prelude.{refl};
ghost use Rattle.bundle_tree_listed.specs.Tree.{class_items, class_member_items, function_items, param_items};
ghost use Rattle.bundle_tree_parse.proofs.Places.{param_in};
ghost use Rattle.bundle_tree_parse.proofs.Trees.{class_in, function_in, member_in};
ghost use Rattle.bundle_tree_rewrite.specs.Copies.{IsCopyBy};
ghost use Rattle.bundle_tree_rewrite.specs.Copying.{class_member_moves, copy_by};

use crate::try_clone::TryClone;
use bundle_tree_ast::{Class, ClassMember, Function, Param};
use bundle_tree_list::Walk;
use std::alloc::AllocError;

impl TryClone for Function {
    ghost is_copy = { IsCopyBy function_items };

    fn list<'a>(&'a self, walk: &mut Walk<'a>) -> Result<(), AllocError> {
        walk.function(0, self)
    }

    ghost stands = { function_in 0 };

    ghost same = { copy_by function_items (λ field it. refl) };
}

impl TryClone for Param {
    ghost is_copy = { IsCopyBy param_items };

    fn list<'a>(&'a self, walk: &mut Walk<'a>) -> Result<(), AllocError> {
        walk.param(0, self)
    }

    ghost stands = { param_in 0 };

    ghost same = { copy_by param_items (λ field it. refl) };
}

impl TryClone for Class {
    ghost is_copy = { IsCopyBy class_items };

    fn list<'a>(&'a self, walk: &mut Walk<'a>) -> Result<(), AllocError> {
        walk.class(0, self)
    }

    ghost stands = { class_in 0 };

    ghost same = { copy_by class_items (λ field it. refl) };
}

impl TryClone for ClassMember {
    ghost is_copy = { IsCopyBy class_member_items };

    fn list<'a>(&'a self, walk: &mut Walk<'a>) -> Result<(), AllocError> {
        walk.class_member(0, self)
    }

    ghost stands = { member_in 0 };

    ghost same = { copy_by class_member_items class_member_moves };
}

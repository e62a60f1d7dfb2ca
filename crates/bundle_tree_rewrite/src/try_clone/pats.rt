//! Patterns (ECMA-262, 13.15.5 and 14.3.3).

ghost use Rattle.bundle_syntax.specs.declared.piece.Role.TheVariants.{Binding};
ghost use Rattle.bundle_tree_listed.specs.Tree.{array_pat_items, assign_target_items, object_pat_items, object_pat_prop_items, pat_items, rest_pat_items};
ghost use Rattle.bundle_tree_parse.proofs.Places.{array_pat_in, object_pat_in, rest_pat_in};
ghost use Rattle.bundle_tree_parse.proofs.Trees.{pat_in, pat_prop_in, target_in};
ghost use Rattle.bundle_tree_rewrite.specs.Copies.{IsCopyBy, IsPatternCopyBy};
ghost use Rattle.bundle_tree_rewrite.specs.Copying.{array_pat_copy, assign_target_moves, copy_by, object_pat_copy, object_pat_prop_copy, pat_copy, rest_pat_copy};

use crate::try_clone::TryClone;
use bundle_syntax::Role;
use bundle_tree_ast::{ArrayPat, AssignTarget, ObjectPat, ObjectPatProp, Pat, RestPat};
use bundle_tree_list::Walk;
use std::alloc::AllocError;

impl TryClone for Pat {
    ghost is_copy = { IsPatternCopyBy pat_items };

    fn list<'a>(&'a self, walk: &mut Walk<'a>) -> Result<(), AllocError> {
        walk.pat(0, Role::Binding, self)
    }

    ghost stands = { pat_in Binding 0 };

    ghost same = { pat_copy };
}

impl TryClone for ArrayPat {
    ghost is_copy = { IsPatternCopyBy array_pat_items };

    fn list<'a>(&'a self, walk: &mut Walk<'a>) -> Result<(), AllocError> {
        walk.array_pat(0, Role::Binding, self)
    }

    ghost stands = { array_pat_in Binding 0 };

    ghost same = { array_pat_copy };
}

impl TryClone for RestPat {
    ghost is_copy = { IsPatternCopyBy rest_pat_items };

    fn list<'a>(&'a self, walk: &mut Walk<'a>) -> Result<(), AllocError> {
        walk.rest_pat(0, Role::Binding, self)
    }

    ghost stands = { rest_pat_in Binding 0 };

    ghost same = { rest_pat_copy };
}

impl TryClone for ObjectPat {
    ghost is_copy = { IsPatternCopyBy object_pat_items };

    fn list<'a>(&'a self, walk: &mut Walk<'a>) -> Result<(), AllocError> {
        walk.object_pat(0, Role::Binding, self)
    }

    ghost stands = { object_pat_in Binding 0 };

    ghost same = { object_pat_copy };
}

impl TryClone for ObjectPatProp {
    ghost is_copy = { IsPatternCopyBy object_pat_prop_items };

    fn list<'a>(&'a self, walk: &mut Walk<'a>) -> Result<(), AllocError> {
        walk.object_pat_prop(0, Role::Binding, self)
    }

    ghost stands = { pat_prop_in Binding 0 };

    ghost same = { object_pat_prop_copy };
}

impl TryClone for AssignTarget {
    ghost is_copy = { IsCopyBy assign_target_items };

    fn list<'a>(&'a self, walk: &mut Walk<'a>) -> Result<(), AllocError> {
        walk.assign_target(0, self)
    }

    ghost stands = { target_in 0 };

    ghost same = { copy_by assign_target_items assign_target_moves };
}

//! Properties (ECMA-262, 13.2.5 and 13.3.2).

ghost use Rattle.std.specs.Prelude.{refl};
ghost use Rattle.bundle_tree_listed.specs.Tree.{computed_prop_name_items, key_value_prop_items, member_prop_items, prop_items, prop_name_items, prop_or_spread_items, super_prop_items};
ghost use Rattle.bundle_tree_parse.proofs.Places.{computed_key_in, member_prop_in, prop_name_in, super_prop_in};
ghost use Rattle.bundle_tree_parse.proofs.Trees.{key_value_prop_in, prop_in, prop_or_spread_in};
ghost use Rattle.bundle_tree_rewrite.specs.Copies.{IsCopyBy};
ghost use Rattle.bundle_tree_rewrite.specs.Copying.{copy_by, member_prop_moves, prop_moves, prop_name_moves, prop_or_spread_moves, super_prop_moves};

use crate::try_clone::TryClone;
use bundle_tree_ast::{
    ComputedPropName, KeyValueProp, MemberProp, Prop, PropName, PropOrSpread, SuperProp,
};
use bundle_tree_list::Walk;
use std::alloc::AllocError;

impl TryClone for PropOrSpread {
    ghost is_copy = { IsCopyBy prop_or_spread_items };

    fn list<'a>(&'a self, walk: &mut Walk<'a>) -> Result<(), AllocError> {
        walk.prop_or_spread(0, self)
    }

    ghost stands = { prop_or_spread_in 0 };

    ghost same = { copy_by prop_or_spread_items prop_or_spread_moves };
}

impl TryClone for Prop {
    ghost is_copy = { IsCopyBy prop_items };

    fn list<'a>(&'a self, walk: &mut Walk<'a>) -> Result<(), AllocError> {
        walk.prop(0, self)
    }

    ghost stands = { prop_in 0 };

    ghost same = { copy_by prop_items prop_moves };
}

impl TryClone for KeyValueProp {
    ghost is_copy = { IsCopyBy key_value_prop_items };

    fn list<'a>(&'a self, walk: &mut Walk<'a>) -> Result<(), AllocError> {
        walk.key_value_prop(0, self)
    }

    ghost stands = { key_value_prop_in 0 };

    ghost same = { copy_by key_value_prop_items (λ field it. refl) };
}

impl TryClone for PropName {
    ghost is_copy = { IsCopyBy prop_name_items };

    fn list<'a>(&'a self, walk: &mut Walk<'a>) -> Result<(), AllocError> {
        walk.prop_name(0, self)
    }

    ghost stands = { prop_name_in 0 };

    ghost same = { copy_by prop_name_items prop_name_moves };
}

impl TryClone for ComputedPropName {
    ghost is_copy = { IsCopyBy computed_prop_name_items };

    fn list<'a>(&'a self, walk: &mut Walk<'a>) -> Result<(), AllocError> {
        walk.computed_prop_name(0, self)
    }

    ghost stands = { computed_key_in 0 };

    ghost same = { copy_by computed_prop_name_items (λ field it. refl) };
}

impl TryClone for MemberProp {
    ghost is_copy = { IsCopyBy member_prop_items };

    fn list<'a>(&'a self, walk: &mut Walk<'a>) -> Result<(), AllocError> {
        walk.member_prop(0, self)
    }

    ghost stands = { member_prop_in 0 };

    ghost same = { copy_by member_prop_items member_prop_moves };
}

impl TryClone for SuperProp {
    ghost is_copy = { IsCopyBy super_prop_items };

    fn list<'a>(&'a self, walk: &mut Walk<'a>) -> Result<(), AllocError> {
        walk.super_prop(0, self)
    }

    ghost stands = { super_prop_in 0 };

    ghost same = { copy_by super_prop_items super_prop_moves };
}

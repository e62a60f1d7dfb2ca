//! Names and literals (ECMA-262, 12.7 and 13.2.3).

ghost use Rattle.std.specs.Prelude.{refl};
ghost use Rattle.bundle_syntax.specs.declared.piece.Role.TheVariants.{Binding, Word};
ghost use Rattle.bundle_tree_listed.specs.Tree.{big_int_items, binding_ident_items, ident_items, ident_name_items, lit_items, number_items, private_name_items, regex_items, str_items, tpl_element_items};
ghost use Rattle.bundle_tree_parse.proofs.Places.{big_int_in, ident_name_in, number_in, private_name_in, regex_in};
ghost use Rattle.bundle_tree_parse.proofs.Trees.{binding_ident_in, bound_name_in, lit_in, source_in, tpl_element_in};
ghost use Rattle.bundle_tree_rewrite.specs.Copies.{IsCopyBy, IsNameCopyBy};
ghost use Rattle.bundle_tree_rewrite.specs.Copying.{binding_ident_copy, copy_by, ident_copy, lit_moves};

use crate::try_clone::TryClone;
use bundle_syntax::Role;
use bundle_tree_ast::{
    BigInt, BindingIdent, Ident, IdentName, Lit, Number, PrivateName, Regex, Str, TplElement,
};
use bundle_tree_list::Walk;
use std::alloc::AllocError;

impl TryClone for Ident {
    ghost is_copy = { IsNameCopyBy ident_items };

    fn list<'a>(&'a self, walk: &mut Walk<'a>) -> Result<(), AllocError> {
        walk.ident(0, Role::Word, self)
    }

    ghost stands = { bound_name_in Word 0 };

    ghost same = { ident_copy };
}

impl TryClone for BindingIdent {
    ghost is_copy = { IsNameCopyBy binding_ident_items };

    fn list<'a>(&'a self, walk: &mut Walk<'a>) -> Result<(), AllocError> {
        walk.binding_ident(0, Role::Binding, self)
    }

    ghost stands = { binding_ident_in Binding 0 };

    ghost same = { binding_ident_copy };
}

impl TryClone for IdentName {
    ghost is_copy = { IsCopyBy ident_name_items };

    fn list<'a>(&'a self, walk: &mut Walk<'a>) -> Result<(), AllocError> {
        walk.ident_name(0, self)
    }

    ghost stands = { ident_name_in 0 };

    ghost same = { copy_by ident_name_items (λ field it. refl) };
}

impl TryClone for PrivateName {
    ghost is_copy = { IsCopyBy private_name_items };

    fn list<'a>(&'a self, walk: &mut Walk<'a>) -> Result<(), AllocError> {
        walk.private_name(0, self)
    }

    ghost stands = { private_name_in 0 };

    ghost same = { copy_by private_name_items (λ field it. refl) };
}

impl TryClone for Str {
    ghost is_copy = { IsCopyBy str_items };

    fn list<'a>(&'a self, walk: &mut Walk<'a>) -> Result<(), AllocError> {
        walk.str(0, self)
    }

    ghost stands = { source_in 0 };

    ghost same = { copy_by str_items (λ field it. refl) };
}

impl TryClone for Number {
    ghost is_copy = { IsCopyBy number_items };

    fn list<'a>(&'a self, walk: &mut Walk<'a>) -> Result<(), AllocError> {
        walk.number(0, self)
    }

    ghost stands = { number_in 0 };

    ghost same = { copy_by number_items (λ field it. refl) };
}

impl TryClone for BigInt {
    ghost is_copy = { IsCopyBy big_int_items };

    fn list<'a>(&'a self, walk: &mut Walk<'a>) -> Result<(), AllocError> {
        walk.big_int(0, self)
    }

    ghost stands = { big_int_in 0 };

    ghost same = { copy_by big_int_items (λ field it. refl) };
}

impl TryClone for Regex {
    ghost is_copy = { IsCopyBy regex_items };

    fn list<'a>(&'a self, walk: &mut Walk<'a>) -> Result<(), AllocError> {
        walk.regex(0, self)
    }

    ghost stands = { regex_in 0 };

    ghost same = { copy_by regex_items (λ field it. refl) };
}

impl TryClone for Lit {
    ghost is_copy = { IsCopyBy lit_items };

    fn list<'a>(&'a self, walk: &mut Walk<'a>) -> Result<(), AllocError> {
        walk.lit(0, self)
    }

    ghost stands = { lit_in 0 };

    ghost same = { copy_by lit_items lit_moves };
}

impl TryClone for TplElement {
    ghost is_copy = { IsCopyBy tpl_element_items };

    fn list<'a>(&'a self, walk: &mut Walk<'a>) -> Result<(), AllocError> {
        walk.tpl_element(0, self)
    }

    ghost stands = { tpl_element_in 0 };

    ghost same = { copy_by tpl_element_items (λ field it. refl) };
}

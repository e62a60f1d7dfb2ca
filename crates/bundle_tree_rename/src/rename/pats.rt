//! Patterns, and what is assigned to (ECMA-262, 13.15.5 and 14.3.3).

ghost use Rattle.std.specs.Prelude.{◌≡◌, ℕ, IfOk, unwrap_or};
ghost use Rattle.bundle_tree_ast.specs.declared.pat.ObjectPatProp.{AssignPatProp};
ghost use Rattle.bundle_tree_listed.specs.Tree.{array_pat_items, assign_target_items, each_object_pat_prop_items, each_option_pat_items, each_pat_items, object_pat_items, object_pat_prop_items, option_pat_items, pat_items, pat_place_items, rest_pat_items};
ghost use Rattle.bundle_syntax.specs.declared.piece.Role.{Role};
ghost use Rattle.bundle_tree_places.specs.Edits.{Anywhere};
ghost use Rattle.bundle_tree_rename.specs.Parts.{boxed_pat_items, with_default_items};
ghost use Rattle.bundle_tree_rename.specs.Renamed.{Renamed, RenamedPattern};

use crate::rename::Rename;
use bundle_tree_ast::{
    ArrayPat, AssignTarget, BindingIdent, Expr, ObjectPat, ObjectPatProp, Pat, RestPat,
};
use std::alloc::AllocError;

impl<'r, 'n> Rename<'r, 'n> {
    #[cycle(rename)]
    pub fn pat(&mut self, pat: &mut Pat) -> Result<(), AllocError>
        ensures { IfOk result (λ done. RenamedPattern pat_items self.old pat.old pat.new self.new) }
    {
        match pat {
            Pat::BindingIdent(it) => self.binding_ident(it),
            Pat::ArrayPat(it) => self.array_pat(it),
            Pat::RestPat(it) => self.rest_pat(it),
            Pat::ObjectPat(it) => self.object_pat(it),
            Pat::AssignPat { left, right } => {
                self.boxed_pat(left)?;
                self.boxed_expr(right)
            }
            Pat::Expr(it) => self.boxed_expr(it),
        }
    }

    #[cycle(rename)]
    pub(crate) fn boxed_pat(&mut self, boxed: &mut Box<Pat>) -> Result<(), AllocError>
        ensures { IfOk result (λ done.
            RenamedPattern boxed_pat_items self.old boxed.old boxed.new self.new) }
    {
        self.pat(boxed)
    }

    #[cycle(rename)]
    pub(crate) fn option_pat(&mut self, choice: &mut Option<Pat>) -> Result<(), AllocError>
        ensures { IfOk result (λ done.
            RenamedPattern option_pat_items self.old choice.old choice.new self.new) }
    {
        match choice {
            Some(pat) => self.pat(pat),
            None => Ok(()),
        }
    }

    #[cycle(rename)]
    pub(crate) fn pat_place(&mut self, place: &mut Option<Pat>) -> Result<(), AllocError>
        ensures { IfOk result (λ done.
            RenamedPattern pat_place_items self.old place.old place.new self.new) }
    {
        match place {
            Some(pat) => self.pat(pat),
            None => Ok(()),
        }
    }

    #[cycle(rename)]
    pub(crate) fn each_pat(&mut self, list: &mut Vec<Pat>) -> Result<(), AllocError>
        ensures { IfOk result (λ done.
            RenamedPattern each_pat_items self.old list.old list.new self.new) }
    {
        for index in 0..list.len() {
            self.pat(&mut list[index])?;
        }
        Ok(())
    }

    #[cycle(rename)]
    pub(crate) fn each_option_pat(&mut self, list: &mut Vec<Option<Pat>>) -> Result<(), AllocError>
        ensures { IfOk result (λ done.
            RenamedPattern each_option_pat_items self.old list.old list.new self.new) }
    {
        for index in 0..list.len() {
            self.pat_place(&mut list[index])?;
        }
        Ok(())
    }

    #[cycle(rename)]
    pub fn array_pat(&mut self, array_pat: &mut ArrayPat) -> Result<(), AllocError>
        ensures { IfOk result (λ done.
            RenamedPattern array_pat_items self.old array_pat.old array_pat.new self.new) }
    {
        self.each_option_pat(&mut array_pat.elems)
    }

    #[cycle(rename)]
    pub fn rest_pat(&mut self, rest_pat: &mut RestPat) -> Result<(), AllocError>
        ensures { IfOk result (λ done.
            RenamedPattern rest_pat_items self.old rest_pat.old rest_pat.new self.new) }
    {
        self.boxed_pat(&mut rest_pat.arg)
    }

    #[cycle(rename)]
    pub fn object_pat(&mut self, object_pat: &mut ObjectPat) -> Result<(), AllocError>
        ensures { IfOk result (λ done.
            RenamedPattern object_pat_items self.old object_pat.old object_pat.new self.new) }
    {
        self.each_object_pat_prop(&mut object_pat.props)
    }

    #[cycle(rename)]
    pub fn object_pat_prop(&mut self, object_pat_prop: &mut ObjectPatProp) -> Result<(), AllocError>
        ensures { IfOk result (λ done.
            RenamedPattern object_pat_prop_items self.old object_pat_prop.old object_pat_prop.new
            self.new) }
    {
        match object_pat_prop {
            ObjectPatProp::KeyValuePatProp { key, value } => {
                self.prop_name(key)?;
                self.pat(value)
            }
            ObjectPatProp::AssignPatProp { key, value } => {
                match self.short_pat_prop(key, value)? {
                    Some(pair) => {
                        *object_pat_prop = pair;
                        Ok(())
                    }
                    None => Ok(()),
                }
            }
            ObjectPatProp::RestPat(it) => self.rest_pat(it),
        }
    }

    // A shorthand property; the pair that it is spelled out as, if it is.
    #[cycle(rename)]
    pub(crate) fn short_pat_prop(
        &mut self,
        key: &mut BindingIdent,
        value: &mut Option<Expr>,
    ) -> Result<Option<ObjectPatProp>, AllocError>
        ensures { IfOk result (λ pair.
            RenamedPattern object_pat_prop_items self.old (AssignPatProp key.old value.old)
            (unwrap_or pair (AssignPatProp key.new value.new)) self.new) }
    {
        let is_spelled_out = self.spells_out(&key.id);
        if is_spelled_out {
            let id = self.new_ident(&key.id)?;
            self.option_expr(value)?;
            let name = Pat::BindingIdent(BindingIdent { id });
            let value = self.with_default(name, value.take())?;
            let key = self.plain_key(key.id.sym.as_str())?;
            Ok(Some(ObjectPatProp::KeyValuePatProp { key, value }))
        } else {
            self.ident(&mut key.id)?;
            self.option_expr(value)?;
            Ok(None)
        }
    }

    // A pattern, with its default value if it has one.
    fn with_default(&self, left: Pat, value: Option<Expr>) -> Result<Pat, AllocError>
        ensures { IfOk result (λ made.
            (role : Role) (field : ℕ) →
            pat_items role field made ≡ with_default_items role field left value) }
    {
        match value {
            None => Ok(left),
            Some(right) => {
                let left = Box::new(self.alloc, left)?;
                let right = Box::new(self.alloc, right)?;
                Ok(Pat::AssignPat { left, right })
            }
        }
    }

    #[cycle(rename)]
    pub(crate) fn each_object_pat_prop(
        &mut self,
        list: &mut Vec<ObjectPatProp>,
    ) -> Result<(), AllocError>
        ensures { IfOk result (λ done.
            RenamedPattern each_object_pat_prop_items self.old list.old list.new self.new) }
    {
        for index in 0..list.len() {
            self.object_pat_prop(&mut list[index])?;
        }
        Ok(())
    }

    #[cycle(rename)]
    pub fn assign_target(&mut self, assign_target: &mut AssignTarget) -> Result<(), AllocError>
        ensures { IfOk result (λ done.
            Renamed Anywhere assign_target_items self.old assign_target.old assign_target.new
            self.new) }
    {
        match assign_target {
            AssignTarget::BindingIdent(it) => self.binding_ident(it),
            AssignTarget::MemberExpr(it) => self.member_expr(it),
            AssignTarget::SuperPropExpr(it) => self.super_prop_expr(it),
            AssignTarget::ParenExpr(it) => self.paren_expr(it),
            AssignTarget::ArrayPat(it) => self.array_pat(it),
            AssignTarget::ObjectPat(it) => self.object_pat(it),
        }
    }
}

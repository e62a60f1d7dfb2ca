//! Patterns, and what is assigned to (ECMA-262, 13.15.5 and 14.3.3).

ghost use Rattle.std.specs.Prelude.{◌≡◌, ◌++◌, OnOk};
ghost use Rattle.bundle_tree_listed.specs.Tree.{array_pat_items, assign_target_items, each_object_pat_prop_items, each_option_pat_items, each_pat_items, object_pat_items, object_pat_prop_items, option_pat_items, pat_items, rest_pat_items};

use crate::walk::Walk;
use bundle_syntax::{Node, Role};
use bundle_tree_ast::{
    ArrayPat, AssignTarget, BindingIdent, Expr, MemberExpr, ObjectPat, ObjectPatProp, ParenExpr,
    Pat, RestPat, SuperPropExpr,
};
use std::alloc::AllocError;

impl<'a> Walk<'a> {
    /// Adds the list of a pattern, whose names have this role. Refused only where memory runs out.
    #[cycle(walk)]
    #[tactic(auto, using(bundle_tree_listed::proofs::Steps::steps))]
    pub fn pat(&mut self, field: u8, role: Role, pat: &'a Pat) -> Result<(), AllocError>
        ensures { OnOk result (self.new ≡ self.old ++ pat_items role field pat.now) }
    {
        match pat {
            Pat::BindingIdent(it) => self.binding_ident(field, role, it),
            Pat::ArrayPat(it) => self.array_pat(field, role, it),
            Pat::RestPat(it) => self.rest_pat(field, role, it),
            Pat::ObjectPat(it) => self.object_pat(field, role, it),
            Pat::AssignPat { left, right } => {
                self.open(field, Node::AssignPat)?;
                self.pat(0, role, left)?;
                self.expr(1, right)?;
                self.close()
            }
            Pat::Expr(it) => self.expr(field, it),
        }
    }

    #[cycle(walk)]
    #[tactic(auto, using(bundle_tree_listed::proofs::Steps::steps))]
    pub(crate) fn option_pat(
        &mut self,
        field: u8,
        role: Role,
        choice: &'a Option<Pat>,
    ) -> Result<(), AllocError>
        ensures { OnOk result (self.new ≡ self.old ++ option_pat_items role field choice.now) }
    {
        match choice {
            Some(pat) => self.pat(field, role, pat),
            None => Ok(()),
        }
    }

    #[cycle(walk)]
    #[tactic(auto, using(bundle_tree_listed::proofs::Rows::rows))]
    pub(crate) fn each_pat(
        &mut self,
        field: u8,
        role: Role,
        list: &'a Vec<Pat>,
    ) -> Result<(), AllocError>
        ensures { OnOk result (self.new ≡ self.old ++ each_pat_items role field list.now) }
    {
        for element in list {
            self.pat(field, role, element)?;
        }
        Ok(())
    }

    #[cycle(walk)]
    #[tactic(auto, using(bundle_tree_listed::proofs::Rows::rows))]
    pub(crate) fn each_option_pat(
        &mut self,
        field: u8,
        role: Role,
        list: &'a Vec<Option<Pat>>,
    ) -> Result<(), AllocError>
        ensures { OnOk result (self.new ≡ self.old ++ each_option_pat_items role field list.now) }
    {
        for place in list {
            match place {
                Some(element) => self.pat(field, role, element)?,
                None => self.hole(field)?,
            }
        }
        Ok(())
    }

    /// Adds the list of an array pattern, whose names have this role. Refused only where memory runs out.
    #[cycle(walk)]
    #[tactic(auto, using(bundle_tree_listed::proofs::Steps::steps))]
    pub fn array_pat(
        &mut self,
        field: u8,
        role: Role,
        array_pat: &'a ArrayPat,
    ) -> Result<(), AllocError>
        ensures { OnOk result (self.new ≡ self.old ++ array_pat_items role field array_pat.now) }
    {
        self.open(field, Node::ArrayPat)?;
        self.each_option_pat(0, role, &array_pat.elems)?;
        self.close()
    }

    /// Adds the list of a rest pattern, whose names have this role. Refused only where memory runs out.
    #[cycle(walk)]
    #[tactic(auto, using(bundle_tree_listed::proofs::Steps::steps))]
    pub fn rest_pat(
        &mut self,
        field: u8,
        role: Role,
        rest_pat: &'a RestPat,
    ) -> Result<(), AllocError>
        ensures { OnOk result (self.new ≡ self.old ++ rest_pat_items role field rest_pat.now) }
    {
        self.open(field, Node::RestPat)?;
        self.pat(0, role, &rest_pat.arg)?;
        self.close()
    }

    /// Adds the list of an object pattern, whose names have this role. Refused only where memory runs out.
    #[cycle(walk)]
    #[tactic(auto, using(bundle_tree_listed::proofs::Steps::steps))]
    pub fn object_pat(
        &mut self,
        field: u8,
        role: Role,
        object_pat: &'a ObjectPat,
    ) -> Result<(), AllocError>
        ensures { OnOk result
            (self.new ≡ self.old ++ object_pat_items role field object_pat.now) }
    {
        self.open(field, Node::ObjectPat)?;
        self.each_object_pat_prop(0, role, &object_pat.props)?;
        self.close()
    }

    /// Adds the list of a property of a pattern, whose names have this role. Refused only where memory runs out.
    #[cycle(walk)]
    #[tactic(auto, using(bundle_tree_listed::proofs::Steps::steps))]
    pub fn object_pat_prop(
        &mut self,
        field: u8,
        role: Role,
        object_pat_prop: &'a ObjectPatProp,
    ) -> Result<(), AllocError>
        ensures { OnOk result
            (self.new ≡ self.old ++ object_pat_prop_items role field object_pat_prop.now) }
    {
        match object_pat_prop {
            ObjectPatProp::KeyValuePatProp { key, value } => {
                self.open(field, Node::KeyValuePatProp)?;
                self.prop_name(0, key)?;
                self.pat(1, role, value)?;
                self.close()
            }
            ObjectPatProp::AssignPatProp { key, value } => {
                self.open(field, Node::AssignPatProp)?;
                self.binding_ident(0, role, key)?;
                self.option_expr(1, value)?;
                self.close()
            }
            ObjectPatProp::RestPat(it) => self.rest_pat(field, role, it),
        }
    }

    #[cycle(walk)]
    #[tactic(auto, using(bundle_tree_listed::proofs::Rows::rows))]
    pub(crate) fn each_object_pat_prop(
        &mut self,
        field: u8,
        role: Role,
        list: &'a Vec<ObjectPatProp>,
    ) -> Result<(), AllocError>
        ensures { OnOk result
            (self.new ≡ self.old ++ each_object_pat_prop_items role field list.now) }
    {
        for element in list {
            self.object_pat_prop(field, role, element)?;
        }
        Ok(())
    }

    /// Adds the list of what is assigned to. Refused only where memory runs out.
    #[cycle(walk)]
    #[tactic(auto, using(bundle_tree_listed::proofs::Steps::steps))]
    pub fn assign_target(
        &mut self,
        field: u8,
        assign_target: &'a AssignTarget,
    ) -> Result<(), AllocError>
        ensures { OnOk result
            (self.new ≡ self.old ++ assign_target_items field assign_target.now) }
    {
        match assign_target {
            AssignTarget::BindingIdent(it) => self.binding_ident(field, Role::Reference, it),
            AssignTarget::MemberExpr(it) => self.member_expr(field, it),
            AssignTarget::SuperPropExpr(it) => self.super_prop_expr(field, it),
            AssignTarget::ParenExpr(it) => self.paren_expr(field, it),
            AssignTarget::ArrayPat(it) => self.array_pat(field, Role::Reference, it),
            AssignTarget::ObjectPat(it) => self.object_pat(field, Role::Reference, it),
        }
    }
}

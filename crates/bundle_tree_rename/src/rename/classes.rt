//! Functions and classes (ECMA-262, 15).

ghost use Rattle.std.specs.Prelude.{IfOk};
ghost use Rattle.bundle_tree_listed.specs.Tree.{class_items, class_member_items, each_class_member_items, each_param_items, function_items, param_items};
ghost use Rattle.bundle_tree_places.specs.Edits.{Anywhere};
ghost use Rattle.bundle_tree_rename.specs.Renamed.{Renamed};

use crate::rename::Rename;
use bundle_tree_ast::{Class, ClassMember, Function, Param};
use std::alloc::AllocError;

impl<'r, 'n> Rename<'r, 'n> {
    #[cycle(rename)]
    pub fn function(&mut self, function: &mut Function) -> Result<(), AllocError>
        ensures { IfOk result (λ done.
            Renamed Anywhere function_items self.old function.old function.new self.new) }
    {
        self.each_param(&mut function.params)?;
        self.block_stmt(&mut function.body)
    }

    #[cycle(rename)]
    pub fn param(&mut self, param: &mut Param) -> Result<(), AllocError>
        ensures { IfOk result (λ done.
            Renamed Anywhere param_items self.old param.old param.new self.new) }
    {
        self.pat(&mut param.pat)
    }

    #[cycle(rename)]
    pub(crate) fn each_param(&mut self, list: &mut Vec<Param>) -> Result<(), AllocError>
        ensures { IfOk result (λ done.
            Renamed Anywhere each_param_items self.old list.old list.new self.new) }
    {
        for index in 0..list.len() {
            self.param(&mut list[index])?;
        }
        Ok(())
    }

    #[cycle(rename)]
    pub fn class(&mut self, class: &mut Class) -> Result<(), AllocError>
        ensures { IfOk result (λ done.
            Renamed Anywhere class_items self.old «class».old «class».new self.new) }
    {
        self.option_boxed_expr(&mut class.super_class)?;
        self.each_class_member(&mut class.body)
    }

    #[cycle(rename)]
    pub fn class_member(&mut self, class_member: &mut ClassMember) -> Result<(), AllocError>
        ensures { IfOk result (λ done.
            Renamed Anywhere class_member_items self.old class_member.old class_member.new
            self.new) }
    {
        match class_member {
            ClassMember::Constructor { params, body } => {
                self.each_param(params)?;
                self.block_stmt(body)
            }
            ClassMember::ClassMethod { key, function, .. } => {
                self.prop_name(key)?;
                self.function(function)
            }
            ClassMember::PrivateMethod { function, .. } => self.function(function),
            ClassMember::ClassProp { key, value, .. } => {
                self.prop_name(key)?;
                self.option_expr(value)
            }
            ClassMember::PrivateProp { value, .. } => self.option_expr(value),
            ClassMember::StaticBlock { body } => self.block_stmt(body),
            ClassMember::EmptyStmt => Ok(()),
        }
    }

    #[cycle(rename)]
    pub(crate) fn each_class_member(
        &mut self,
        list: &mut Vec<ClassMember>,
    ) -> Result<(), AllocError>
        ensures { IfOk result (λ done.
            Renamed Anywhere each_class_member_items self.old list.old list.new self.new) }
    {
        for index in 0..list.len() {
            self.class_member(&mut list[index])?;
        }
        Ok(())
    }
}

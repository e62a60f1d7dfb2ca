//! Functions and classes (ECMA-262, 15).

ghost use Rattle.std.specs.Prelude.{◌≡◌, ◌++◌, OnOk};
ghost use Rattle.bundle_tree_listed.specs.Tree.{class_items, class_member_items, each_class_member_items, each_param_items, function_items, param_items};

use crate::walk::Walk;
use bundle_syntax::{Node, Role};
use bundle_tree_ast::{Class, ClassMember, Function, Param};
use std::alloc::AllocError;

impl<'a> Walk<'a> {
    /// Adds the list of a function. Refused only where memory runs out.
    #[cycle(walk)]
    #[tactic(auto, using(bundle_tree_listed::proofs::Steps::steps))]
    pub fn function(&mut self, field: u8, function: &'a Function) -> Result<(), AllocError>
        ensures { OnOk result (self.new ≡ self.old ++ function_items field function.now) }
    {
        self.open(
            field,
            Node::Function {
                is_generator: function.is_generator,
                is_async: function.is_async,
            },
        )?;
        self.each_param(0, &function.params)?;
        self.block_stmt(1, &function.body)?;
        self.close()
    }

    /// Adds the list of a parameter. Refused only where memory runs out.
    #[cycle(walk)]
    #[tactic(auto, using(bundle_tree_listed::proofs::Steps::steps))]
    pub fn param(&mut self, field: u8, param: &'a Param) -> Result<(), AllocError>
        ensures { OnOk result (self.new ≡ self.old ++ param_items field param.now) }
    {
        self.open(field, Node::Param)?;
        self.pat(0, Role::Binding, &param.pat)?;
        self.close()
    }

    #[cycle(walk)]
    #[tactic(auto, using(bundle_tree_listed::proofs::Rows::rows))]
    pub(crate) fn each_param(&mut self, field: u8, list: &'a Vec<Param>) -> Result<(), AllocError>
        ensures { OnOk result (self.new ≡ self.old ++ each_param_items field list.now) }
    {
        for element in list {
            self.param(field, element)?;
        }
        Ok(())
    }

    /// Adds the list of a class. Refused only where memory runs out.
    #[cycle(walk)]
    #[tactic(auto, using(bundle_tree_listed::proofs::Steps::steps))]
    pub fn class(&mut self, field: u8, class: &'a Class) -> Result<(), AllocError>
        ensures { OnOk result (self.new ≡ self.old ++ class_items field class.now) }
    {
        self.open(field, Node::Class)?;
        self.option_boxed_expr(0, &class.super_class)?;
        self.each_class_member(1, &class.body)?;
        self.close()
    }

    /// Adds the list of a member of a class. Refused only where memory runs out.
    #[cycle(walk)]
    #[tactic(auto, using(bundle_tree_listed::proofs::Steps::steps))]
    pub fn class_member(
        &mut self,
        field: u8,
        class_member: &'a ClassMember,
    ) -> Result<(), AllocError>
        ensures { OnOk result (self.new ≡ self.old ++ class_member_items field class_member.now) }
    {
        match class_member {
            ClassMember::Constructor { params, body } => {
                self.open(field, Node::Constructor)?;
                self.each_param(0, params)?;
                self.block_stmt(1, body)?;
                self.close()
            }
            ClassMember::ClassMethod {
                key,
                function,
                kind,
                is_static,
            } => {
                self.open(
                    field,
                    Node::ClassMethod {
                        kind: *kind,
                        is_static: *is_static,
                    },
                )?;
                self.prop_name(0, key)?;
                self.function(1, function)?;
                self.close()
            }
            ClassMember::PrivateMethod {
                key,
                function,
                kind,
                is_static,
            } => {
                self.open(
                    field,
                    Node::PrivateMethod {
                        kind: *kind,
                        is_static: *is_static,
                    },
                )?;
                self.private_name(0, key)?;
                self.function(1, function)?;
                self.close()
            }
            ClassMember::ClassProp {
                key,
                value,
                is_static,
            } => {
                self.open(
                    field,
                    Node::ClassProp {
                        is_static: *is_static,
                    },
                )?;
                self.prop_name(0, key)?;
                self.option_expr(1, value)?;
                self.close()
            }
            ClassMember::PrivateProp {
                key,
                value,
                is_static,
            } => {
                self.open(
                    field,
                    Node::PrivateProp {
                        is_static: *is_static,
                    },
                )?;
                self.private_name(0, key)?;
                self.option_expr(1, value)?;
                self.close()
            }
            ClassMember::StaticBlock { body } => {
                self.open(field, Node::StaticBlock)?;
                self.block_stmt(0, body)?;
                self.close()
            }
            ClassMember::EmptyStmt => {
                self.open(field, Node::EmptyStmt)?;
                self.close()
            }
        }
    }

    #[cycle(walk)]
    #[tactic(auto, using(bundle_tree_listed::proofs::Rows::rows))]
    pub(crate) fn each_class_member(
        &mut self,
        field: u8,
        list: &'a Vec<ClassMember>,
    ) -> Result<(), AllocError>
        ensures { OnOk result (self.new ≡ self.old ++ each_class_member_items field list.now) }
    {
        for element in list {
            self.class_member(field, element)?;
        }
        Ok(())
    }
}

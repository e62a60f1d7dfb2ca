//! Functions and classes (ECMA-262, 15).

ghost use Rattle.std.specs.Prelude.{length};
ghost use Rattle.bundle_syntax.specs.Item.{head_of};
ghost use Rattle.bundle_tree_parse.specs.declared.build.BuildError.TheVariants.{Form};
ghost use Rattle.bundle_tree_listed.specs.Tree.{class_items, class_member_items, each_class_member_items, each_param_items, function_items, param_items};
ghost use Rattle.bundle_tree_parse.specs.Built.{Builds, BuildsNode};
ghost use Rattle.bundle_tree_parse.specs.Sorts.{AFunction, AParameter, AClass, AClassMember, AMethod, AField, holds};
ghost use Rattle.bundle_tree_parse.specs.Parse.{after_each, after_inside, taken};

use crate::build::{BuildError, Builder};
use bundle_syntax::{Node, Role};
use bundle_tree_ast::{Class, ClassMember, Function, Param};

impl<'p, 'a> Builder<'p, 'a> {
    #[cycle(build)]
    #[tactic(auto, using(crate::proofs::Parsing::building))]
    pub(crate) fn function(&mut self, room: usize, field: u8) -> Result<Function, BuildError>
        ensures { Builds result (function_items field)
            (taken room AFunction field self.old) self.old self.new }
    {
        let (node, room) = self.enter(room, field)?;
        let it = self.function_of(room, node);
        self.leave(it)
    }

    #[cycle(build)]
    #[tactic(auto, using(crate::proofs::Parsing::building))]
    fn function_of(&mut self, room: usize, node: Node<'a>) -> Result<Function, BuildError>
        ensures { BuildsNode result function_items (head_of node.entry)
            (after_inside (taken room) (holds AFunction (head_of node.entry)) self.old)
            self.old self.new }
    {
        match node {
            Node::Function {
                is_generator,
                is_async,
            } => {
                let params = self.each_param(room, 0)?;
                let body = self.block_stmt(room, 1)?;
                Ok(Function {
                    params,
                    body,
                    is_generator,
                    is_async,
                })
            }
            _ => Err(BuildError::Form),
        }
    }

    #[cycle(build)]
    #[tactic(auto, using(crate::proofs::Parsing::building))]
    fn each_param(&mut self, room: usize, field: u8) -> Result<Vec<Param>, BuildError>
        ensures { Builds result (each_param_items field)
            (after_each (taken room AParameter field) field (length self.old) self.old)
            self.old self.new }
    {
        let mut list = Vec::new(self.alloc);
        let most = self.most();
        for count in 0..most {
            if !self.is_in(field) {
                break;
            }
            let it = self.param(room, field)?;
            list.push(it)?;
        }
        list.shrink_to_fit();
        Ok(list)
    }

    #[cycle(build)]
    #[tactic(auto, using(crate::proofs::Parsing::building))]
    pub(crate) fn param(&mut self, room: usize, field: u8) -> Result<Param, BuildError>
        ensures { Builds result (param_items field)
            (taken room AParameter field self.old) self.old self.new }
    {
        let (node, room) = self.enter(room, field)?;
        let it = self.param_of(room, node);
        self.leave(it)
    }

    #[cycle(build)]
    #[tactic(auto, using(crate::proofs::Parsing::building))]
    fn param_of(&mut self, room: usize, node: Node<'a>) -> Result<Param, BuildError>
        ensures { BuildsNode result param_items (head_of node.entry)
            (after_inside (taken room) (holds AParameter (head_of node.entry)) self.old)
            self.old self.new }
    {
        match node {
            Node::Param => {
                let pat = self.pat(room, 0, Role::Binding)?;
                Ok(Param { pat })
            }
            _ => Err(BuildError::Form),
        }
    }

    #[cycle(build)]
    #[tactic(auto, using(crate::proofs::Parsing::building))]
    pub(crate) fn class(&mut self, room: usize, field: u8) -> Result<Class, BuildError>
        ensures { Builds result (class_items field)
            (taken room AClass field self.old) self.old self.new }
    {
        let (node, room) = self.enter(room, field)?;
        let it = self.class_of(room, node);
        self.leave(it)
    }

    #[cycle(build)]
    #[tactic(auto, using(crate::proofs::Parsing::building))]
    fn class_of(&mut self, room: usize, node: Node<'a>) -> Result<Class, BuildError>
        ensures { BuildsNode result class_items (head_of node.entry)
            (after_inside (taken room) (holds AClass (head_of node.entry)) self.old)
            self.old self.new }
    {
        match node {
            Node::Class => {
                let super_class = self.option_boxed_expr(room, 0)?;
                let body = self.each_class_member(room, 1)?;
                Ok(Class { super_class, body })
            }
            _ => Err(BuildError::Form),
        }
    }

    #[cycle(build)]
    #[tactic(auto, using(crate::proofs::Parsing::building))]
    fn each_class_member(&mut self, room: usize, field: u8) -> Result<Vec<ClassMember>, BuildError>
        ensures { Builds result (each_class_member_items field)
            (after_each (taken room AClassMember field) field (length self.old) self.old)
            self.old self.new }
    {
        let mut list = Vec::new(self.alloc);
        let most = self.most();
        for count in 0..most {
            if !self.is_in(field) {
                break;
            }
            let it = self.class_member(room, field)?;
            list.push(it)?;
        }
        list.shrink_to_fit();
        Ok(list)
    }

    #[cycle(build)]
    #[tactic(auto, using(crate::proofs::Parsing::building))]
    pub(crate) fn class_member(&mut self, room: usize, field: u8) -> Result<ClassMember, BuildError>
        ensures { Builds result (class_member_items field)
            (taken room AClassMember field self.old) self.old self.new }
    {
        let (node, room) = self.enter(room, field)?;
        let it = self.class_member_of(room, node);
        self.leave(it)
    }

    #[cycle(build)]
    #[tactic(auto, using(crate::proofs::Parsing::building))]
    fn class_member_of(&mut self, room: usize, node: Node<'a>) -> Result<ClassMember, BuildError>
        ensures { BuildsNode result class_member_items (head_of node.entry)
            (after_inside (taken room) (holds AClassMember (head_of node.entry)) self.old)
            self.old self.new }
    {
        match node {
            Node::EmptyStmt => Ok(ClassMember::EmptyStmt),
            Node::StaticBlock => {
                let body = self.block_stmt(room, 0)?;
                Ok(ClassMember::StaticBlock { body })
            }
            Node::Constructor => {
                let params = self.each_param(room, 0)?;
                let body = self.block_stmt(room, 1)?;
                Ok(ClassMember::Constructor { params, body })
            }
            Node::ClassMethod { .. } | Node::PrivateMethod { .. } => self.method_of(room, node),
            _ => self.prop_member_of(room, node),
        }
    }

    #[cycle(build)]
    #[tactic(auto, using(crate::proofs::Parsing::building))]
    fn method_of(&mut self, room: usize, node: Node<'a>) -> Result<ClassMember, BuildError>
        ensures { BuildsNode result class_member_items (head_of node.entry)
            (after_inside (taken room) (holds AMethod (head_of node.entry)) self.old)
            self.old self.new }
    {
        match node {
            Node::ClassMethod { kind, is_static } => {
                let key = self.prop_name(room, 0)?;
                let function = self.function(room, 1)?;
                Ok(ClassMember::ClassMethod {
                    key,
                    function,
                    kind,
                    is_static,
                })
            }
            Node::PrivateMethod { kind, is_static } => {
                let key = self.private_name(room, 0)?;
                let function = self.function(room, 1)?;
                Ok(ClassMember::PrivateMethod {
                    key,
                    function,
                    kind,
                    is_static,
                })
            }
            _ => Err(BuildError::Form),
        }
    }

    #[cycle(build)]
    #[tactic(auto, using(crate::proofs::Parsing::building))]
    fn prop_member_of(&mut self, room: usize, node: Node<'a>) -> Result<ClassMember, BuildError>
        ensures { BuildsNode result class_member_items (head_of node.entry)
            (after_inside (taken room) (holds AField (head_of node.entry)) self.old)
            self.old self.new }
    {
        match node {
            Node::ClassProp { is_static } => {
                let key = self.prop_name(room, 0)?;
                let value = self.option_expr(room, 1)?;
                Ok(ClassMember::ClassProp {
                    key,
                    value,
                    is_static,
                })
            }
            Node::PrivateProp { is_static } => {
                let key = self.private_name(room, 0)?;
                let value = self.option_expr(room, 1)?;
                Ok(ClassMember::PrivateProp {
                    key,
                    value,
                    is_static,
                })
            }
            _ => Err(BuildError::Form),
        }
    }
}

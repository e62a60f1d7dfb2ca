//! Patterns, and what is assigned to (ECMA-262, 13.15.5 and 14.3.3). `role` is what the names in them are.

ghost use Rattle.std.specs.Prelude.{Some, None, length};
ghost use Rattle.bundle_syntax.specs.Item.{head_of};
ghost use Rattle.bundle_tree_parse.specs.declared.build.BuildError.TheVariants.{Form};
ghost use Rattle.bundle_tree_listed.specs.Tree.{array_pat_items, assign_target_items, each_object_pat_prop_items, each_option_pat_items, each_pat_items, object_pat_items, object_pat_prop_items, option_pat_items, pat_items, pat_place_items, rest_pat_items};
ghost use Rattle.bundle_tree_parse.specs.Built.{Builds, BuildsNode};
ghost use Rattle.bundle_tree_parse.specs.Sorts.{APattern, AnArrayPattern, ARestPattern, AnObjectPattern, APatternProperty, ATarget, holds};
ghost use Rattle.bundle_tree_parse.specs.Parse.{after_maybe, after_each, after_place, after_inside, taken};

use crate::build::{BuildError, Builder};
use bundle_syntax::{Node, Role};
use bundle_tree_ast::{ArrayPat, AssignTarget, ObjectPat, ObjectPatProp, Pat, RestPat};

impl<'p, 'a> Builder<'p, 'a> {
    #[cycle(build)]
    #[tactic(auto, using(crate::proofs::Parsing::building))]
    pub(crate) fn pat(&mut self, room: usize, field: u8, role: Role) -> Result<Pat, BuildError>
        ensures { Builds result (pat_items role field)
            (taken room (APattern role) field self.old) self.old self.new }
    {
        if self.is_ident() {
            return Ok(Pat::Expr(self.boxed_ident(field)?));
        }
        let (node, room) = self.enter(room, field)?;
        let it = self.pat_of(room, node, role);
        self.leave(it)
    }

    #[cycle(build)]
    #[tactic(auto, using(crate::proofs::Parsing::building))]
    pub(crate) fn pat_of(
        &mut self,
        room: usize,
        node: Node<'a>,
        role: Role,
    ) -> Result<Pat, BuildError>
        ensures { BuildsNode result (pat_items role) (head_of node.entry)
            (after_inside (taken room) (holds (APattern role) (head_of node.entry)) self.old)
            self.old self.new }
    {
        match node {
            Node::BindingIdent => Ok(Pat::BindingIdent(self.binding_ident_of(node, role)?)),
            Node::ArrayPat => Ok(Pat::ArrayPat(self.array_pat_of(room, node, role)?)),
            Node::RestPat => Ok(Pat::RestPat(self.rest_pat_of(room, node, role)?)),
            Node::ObjectPat => Ok(Pat::ObjectPat(self.object_pat_of(room, node, role)?)),
            Node::AssignPat => {
                let left = self.boxed_pat(room, 0, role)?;
                let right = self.boxed_expr(room, 1)?;
                Ok(Pat::AssignPat { left, right })
            }
            _ => Ok(Pat::Expr(self.boxed_expr_of(room, node)?)),
        }
    }

    #[cycle(build)]
    #[tactic(auto, using(crate::proofs::Parsing::building))]
    fn boxed_pat(&mut self, room: usize, field: u8, role: Role) -> Result<Box<Pat>, BuildError>
        ensures { Builds result (λ made. pat_items role field made.value)
            (taken room (APattern role) field self.old) self.old self.new }
    {
        let it = self.pat(room, field, role);
        self.boxed(it)
    }

    #[cycle(build)]
    #[tactic(auto, using(crate::proofs::Parsing::building))]
    pub(crate) fn option_pat(
        &mut self,
        room: usize,
        field: u8,
        role: Role,
    ) -> Result<Option<Pat>, BuildError>
        ensures { Builds result (option_pat_items role field)
            (after_maybe (taken room (APattern role) field) field self.old) self.old self.new }
    {
        if self.is_in(field) {
            Ok(Some(self.pat(room, field, role)?))
        } else {
            Ok(None)
        }
    }

    #[cycle(build)]
    #[tactic(auto, using(crate::proofs::Parsing::building))]
    pub(crate) fn each_pat(
        &mut self,
        room: usize,
        field: u8,
        role: Role,
    ) -> Result<Vec<Pat>, BuildError>
        ensures { Builds result (each_pat_items role field)
            (after_each (taken room (APattern role) field) field (length self.old) self.old)
            self.old self.new }
    {
        let mut list = Vec::new(self.alloc);
        let most = self.most();
        for count in 0..most {
            if !self.is_in(field) {
                break;
            }
            let it = self.pat(room, field, role)?;
            list.push(it)?;
        }
        list.shrink_to_fit();
        Ok(list)
    }

    #[cycle(build)]
    #[tactic(auto, using(crate::proofs::Parsing::building))]
    fn place_of_pat(
        &mut self,
        room: usize,
        field: u8,
        role: Role,
    ) -> Result<Option<Pat>, BuildError>
        ensures { Builds result (pat_place_items role field)
            (after_place (taken room (APattern role) field) field self.old) self.old self.new }
    {
        if self.is_hole() {
            self.hole(field)?;
            Ok(None)
        } else {
            Ok(Some(self.pat(room, field, role)?))
        }
    }

    #[cycle(build)]
    #[tactic(auto, using(crate::proofs::Parsing::building))]
    fn each_place_of_pat(
        &mut self,
        room: usize,
        field: u8,
        role: Role,
    ) -> Result<Vec<Option<Pat>>, BuildError>
        ensures { Builds result (each_option_pat_items role field)
            (after_each (after_place (taken room (APattern role) field) field)
            field (length self.old) self.old)
            self.old self.new }
    {
        let mut list = Vec::new(self.alloc);
        let most = self.most();
        for count in 0..most {
            if !self.is_in(field) {
                break;
            }
            let it = self.place_of_pat(room, field, role)?;
            list.push(it)?;
        }
        list.shrink_to_fit();
        Ok(list)
    }

    #[cycle(build)]
    #[tactic(auto, using(crate::proofs::Parsing::building))]
    pub(crate) fn array_pat_of(
        &mut self,
        room: usize,
        node: Node<'a>,
        role: Role,
    ) -> Result<ArrayPat, BuildError>
        ensures { BuildsNode result (array_pat_items role) (head_of node.entry)
            (after_inside (taken room) (holds (AnArrayPattern role) (head_of node.entry)) self.old)
            self.old self.new }
    {
        match node {
            Node::ArrayPat => {
                let elems = self.each_place_of_pat(room, 0, role)?;
                Ok(ArrayPat { elems })
            }
            _ => Err(BuildError::Form),
        }
    }

    #[cycle(build)]
    #[tactic(auto, using(crate::proofs::Parsing::building))]
    pub(crate) fn rest_pat_of(
        &mut self,
        room: usize,
        node: Node<'a>,
        role: Role,
    ) -> Result<RestPat, BuildError>
        ensures { BuildsNode result (rest_pat_items role) (head_of node.entry)
            (after_inside (taken room) (holds (ARestPattern role) (head_of node.entry)) self.old)
            self.old self.new }
    {
        match node {
            Node::RestPat => {
                let arg = self.boxed_pat(room, 0, role)?;
                Ok(RestPat { arg })
            }
            _ => Err(BuildError::Form),
        }
    }

    #[cycle(build)]
    #[tactic(auto, using(crate::proofs::Parsing::building))]
    pub(crate) fn object_pat_of(
        &mut self,
        room: usize,
        node: Node<'a>,
        role: Role,
    ) -> Result<ObjectPat, BuildError>
        ensures { BuildsNode result (object_pat_items role) (head_of node.entry)
            (after_inside (taken room) (holds (AnObjectPattern role) (head_of node.entry)) self.old)
            self.old self.new }
    {
        match node {
            Node::ObjectPat => {
                let props = self.each_object_pat_prop(room, 0, role)?;
                Ok(ObjectPat { props })
            }
            _ => Err(BuildError::Form),
        }
    }

    #[cycle(build)]
    #[tactic(auto, using(crate::proofs::Parsing::building))]
    fn each_object_pat_prop(
        &mut self,
        room: usize,
        field: u8,
        role: Role,
    ) -> Result<Vec<ObjectPatProp>, BuildError>
        ensures { Builds result (each_object_pat_prop_items role field)
            (after_each (taken room (APatternProperty role) field) field (length self.old) self.old)
            self.old self.new }
    {
        let mut list = Vec::new(self.alloc);
        let most = self.most();
        for count in 0..most {
            if !self.is_in(field) {
                break;
            }
            let it = self.object_pat_prop(room, field, role)?;
            list.push(it)?;
        }
        list.shrink_to_fit();
        Ok(list)
    }

    #[cycle(build)]
    #[tactic(auto, using(crate::proofs::Parsing::building))]
    pub(crate) fn object_pat_prop(
        &mut self,
        room: usize,
        field: u8,
        role: Role,
    ) -> Result<ObjectPatProp, BuildError>
        ensures { Builds result (object_pat_prop_items role field)
            (taken room (APatternProperty role) field self.old) self.old self.new }
    {
        let (node, room) = self.enter(room, field)?;
        let it = self.object_pat_prop_of(room, node, role);
        self.leave(it)
    }

    #[cycle(build)]
    #[tactic(auto, using(crate::proofs::Parsing::building))]
    fn object_pat_prop_of(
        &mut self,
        room: usize,
        node: Node<'a>,
        role: Role,
    ) -> Result<ObjectPatProp, BuildError>
        ensures { BuildsNode result (object_pat_prop_items role) (head_of node.entry)
            (after_inside (taken room)
            (holds (APatternProperty role) (head_of node.entry)) self.old)
            self.old self.new }
    {
        match node {
            Node::RestPat => Ok(ObjectPatProp::RestPat(self.rest_pat_of(room, node, role)?)),
            Node::KeyValuePatProp => {
                let key = self.prop_name(room, 0)?;
                let value = self.pat(room, 1, role)?;
                Ok(ObjectPatProp::KeyValuePatProp { key, value })
            }
            Node::AssignPatProp => {
                let key = self.binding_ident(room, 0, role)?;
                let value = self.option_expr(room, 1)?;
                Ok(ObjectPatProp::AssignPatProp { key, value })
            }
            _ => Err(BuildError::Form),
        }
    }

    #[cycle(build)]
    #[tactic(auto, using(crate::proofs::Parsing::building))]
    pub(crate) fn assign_target(
        &mut self,
        room: usize,
        field: u8,
    ) -> Result<AssignTarget, BuildError>
        ensures { Builds result (assign_target_items field)
            (taken room ATarget field self.old) self.old self.new }
    {
        let (node, room) = self.enter(room, field)?;
        let it = self.assign_target_of(room, node);
        self.leave(it)
    }

    #[cycle(build)]
    #[tactic(auto, using(crate::proofs::Parsing::building))]
    fn assign_target_of(&mut self, room: usize, node: Node<'a>) -> Result<AssignTarget, BuildError>
        ensures { BuildsNode result assign_target_items (head_of node.entry)
            (after_inside (taken room) (holds ATarget (head_of node.entry)) self.old)
            self.old self.new }
    {
        match node {
            Node::BindingIdent => Ok(AssignTarget::BindingIdent(self.binding_ident_of(
                node,
                Role::Reference,
            )?)),
            Node::MemberExpr => Ok(AssignTarget::MemberExpr(self.member_expr_of(room, node)?)),
            Node::SuperPropExpr => Ok(AssignTarget::SuperPropExpr(self.super_prop_expr_of(
                room, node,
            )?)),
            Node::ParenExpr => Ok(AssignTarget::ParenExpr(self.paren_expr_of(room, node)?)),
            Node::ArrayPat => Ok(AssignTarget::ArrayPat(self.array_pat_of(
                room,
                node,
                Role::Reference,
            )?)),
            _ => Ok(AssignTarget::ObjectPat(self.object_pat_of(room, node, Role::Reference)?)),
        }
    }
}

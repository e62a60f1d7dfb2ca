//! Properties (ECMA-262, 13.2.5 and 13.3.2).

ghost use Rattle.std.specs.Prelude.{length};
ghost use Rattle.std.specs.List.{flat_map};
ghost use Rattle.bundle_syntax.specs.Item.{head_of};
ghost use Rattle.bundle_tree_parse.specs.declared.build.BuildError.TheVariants.{Form};
ghost use Rattle.bundle_tree_listed.specs.Tree.{computed_prop_name_items, each_prop_or_spread_items, key_value_prop_items, member_prop_items, prop_items, prop_name_items, prop_or_spread_items, super_prop_items};
ghost use Rattle.bundle_tree_parse.specs.Built.{Builds, BuildsNode};
ghost use Rattle.bundle_tree_parse.specs.Sorts.{APropertyOrSpread, AProperty, AKeyValue, AComputedKey, AKey, AMemberKey, ASuperKey, holds};
ghost use Rattle.bundle_tree_parse.specs.Parse.{after_each, after_inside, taken};

use crate::build::{BuildError, Builder};
use bundle_syntax::{Node, Role};
use bundle_tree_ast::{
    ComputedPropName, KeyValueProp, MemberProp, Prop, PropName, PropOrSpread, SuperProp,
};

impl<'p, 'a> Builder<'p, 'a> {
    #[cycle(build)]
    #[tactic(auto, using(crate::proofs::Parsing::building))]
    pub(crate) fn each_prop_or_spread(
        &mut self,
        room: usize,
        field: u8,
    ) -> Result<Vec<PropOrSpread>, BuildError>
        ensures { Builds result (each_prop_or_spread_items field)
            (after_each (taken room APropertyOrSpread field) field (length self.old) self.old)
            self.old self.new }
    {
        let mut list = Vec::new(self.alloc);
        let most = self.most();
        for count in 0..most {
            if !self.is_in(field) {
                break;
            }
            let it = self.prop_or_spread(room, field)?;
            list.push(it)?;
        }
        list.shrink_to_fit();
        Ok(list)
    }

    #[cycle(build)]
    #[tactic(auto, using(crate::proofs::Parsing::building))]
    pub(crate) fn prop_or_spread(
        &mut self,
        room: usize,
        field: u8,
    ) -> Result<PropOrSpread, BuildError>
        ensures { Builds result (prop_or_spread_items field)
            (taken room APropertyOrSpread field self.old) self.old self.new }
    {
        if self.is_ident() {
            return Ok(PropOrSpread::Prop(Prop::Shorthand(self.ident(field, Role::Reference)?)));
        }
        let (node, room) = self.enter(room, field)?;
        let it = self.prop_or_spread_of(room, node);
        self.leave(it)
    }

    #[cycle(build)]
    #[tactic(auto, using(crate::proofs::Parsing::building))]
    fn prop_or_spread_of(&mut self, room: usize, node: Node<'a>) -> Result<PropOrSpread, BuildError>
        ensures { BuildsNode result prop_or_spread_items (head_of node.entry)
            (after_inside (taken room) (holds APropertyOrSpread (head_of node.entry)) self.old)
            self.old self.new }
    {
        match node {
            Node::SpreadElement => {
                let expr = self.expr(room, 0)?;
                Ok(PropOrSpread::SpreadElement { expr })
            }
            _ => Ok(PropOrSpread::Prop(self.prop_of(room, node)?)),
        }
    }

    #[tactic(auto, using(crate::proofs::Parsing::building))]
    pub(crate) fn prop(&mut self, room: usize, field: u8) -> Result<Prop, BuildError>
        ensures { Builds result (prop_items field)
            (taken room AProperty field self.old) self.old self.new }
    {
        if self.is_ident() {
            return Ok(Prop::Shorthand(self.ident(field, Role::Reference)?));
        }
        let (node, room) = self.enter(room, field)?;
        let it = self.prop_of(room, node);
        self.leave(it)
    }

    #[cycle(build)]
    #[tactic(auto, using(crate::proofs::Parsing::building))]
    fn prop_of(&mut self, room: usize, node: Node<'a>) -> Result<Prop, BuildError>
        ensures { BuildsNode result prop_items (head_of node.entry)
            (after_inside (taken room) (holds AProperty (head_of node.entry)) self.old)
            self.old self.new }
    {
        match node {
            Node::KeyValueProp => Ok(Prop::KeyValueProp(self.key_value_prop_of(room, node)?)),
            Node::GetterProp => {
                let key = self.prop_name(room, 0)?;
                let body = self.block_stmt(room, 1)?;
                Ok(Prop::GetterProp { key, body })
            }
            Node::SetterProp => {
                let key = self.prop_name(room, 0)?;
                let param = self.pat(room, 1, Role::Binding)?;
                let body = self.block_stmt(room, 2)?;
                Ok(Prop::SetterProp { key, param, body })
            }
            Node::MethodProp => {
                let key = self.prop_name(room, 0)?;
                let function = self.function(room, 1)?;
                Ok(Prop::MethodProp { key, function })
            }
            _ => Err(BuildError::Form),
        }
    }

    #[tactic(auto, using(crate::proofs::Parsing::building))]
    pub(crate) fn key_value_prop(
        &mut self,
        room: usize,
        field: u8,
    ) -> Result<KeyValueProp, BuildError>
        ensures { Builds result (key_value_prop_items field)
            (taken room AKeyValue field self.old) self.old self.new }
    {
        let (node, room) = self.enter(room, field)?;
        let it = self.key_value_prop_of(room, node);
        self.leave(it)
    }

    #[cycle(build)]
    #[tactic(auto, using(crate::proofs::Parsing::building))]
    fn key_value_prop_of(&mut self, room: usize, node: Node<'a>) -> Result<KeyValueProp, BuildError>
        ensures { BuildsNode result key_value_prop_items (head_of node.entry)
            (after_inside (taken room) (holds AKeyValue (head_of node.entry)) self.old)
            self.old self.new }
    {
        match node {
            Node::KeyValueProp => {
                let key = self.prop_name(room, 0)?;
                let value = self.expr(room, 1)?;
                Ok(KeyValueProp { key, value })
            }
            _ => Err(BuildError::Form),
        }
    }

    #[cycle(build)]
    #[tactic(auto, using(crate::proofs::Parsing::building))]
    pub(crate) fn computed_prop_name_of(
        &mut self,
        room: usize,
        node: Node<'a>,
    ) -> Result<ComputedPropName, BuildError>
        ensures { BuildsNode result computed_prop_name_items (head_of node.entry)
            (after_inside (taken room) (holds AComputedKey (head_of node.entry)) self.old)
            self.old self.new }
    {
        match node {
            Node::ComputedPropName => {
                let expr = self.boxed_expr(room, 0)?;
                Ok(ComputedPropName { expr })
            }
            _ => Err(BuildError::Form),
        }
    }

    #[cycle(build)]
    #[tactic(auto, using(crate::proofs::Parsing::building))]
    pub(crate) fn prop_name(&mut self, room: usize, field: u8) -> Result<PropName, BuildError>
        ensures { Builds result (prop_name_items field)
            (taken room AKey field self.old) self.old self.new }
    {
        let (node, room) = self.enter(room, field)?;
        let it = self.prop_name_of(room, node);
        self.leave(it)
    }

    #[cycle(build)]
    #[tactic(auto, using(crate::proofs::Parsing::building))]
    fn prop_name_of(&mut self, room: usize, node: Node<'a>) -> Result<PropName, BuildError>
        ensures { BuildsNode result prop_name_items (head_of node.entry)
            (after_inside (taken room) (holds AKey (head_of node.entry)) self.old)
            self.old self.new }
    {
        match node {
            Node::IdentName { .. } => Ok(PropName::IdentName(self.ident_name_of(node)?)),
            Node::Str { .. } => Ok(PropName::Str(self.str_of(node)?)),
            Node::Number { .. } => Ok(PropName::Number(self.number_of(node)?)),
            Node::BigInt { .. } => Ok(PropName::BigInt(self.big_int_of(node)?)),
            _ => Ok(PropName::ComputedPropName(self.computed_prop_name_of(room, node)?)),
        }
    }

    #[cycle(build)]
    #[tactic(auto, using(crate::proofs::Parsing::building))]
    pub(crate) fn member_prop(&mut self, room: usize, field: u8) -> Result<MemberProp, BuildError>
        ensures { Builds result (member_prop_items field)
            (taken room AMemberKey field self.old) self.old self.new }
    {
        let (node, room) = self.enter(room, field)?;
        let it = self.member_prop_of(room, node);
        self.leave(it)
    }

    #[cycle(build)]
    #[tactic(auto, using(crate::proofs::Parsing::building))]
    fn member_prop_of(&mut self, room: usize, node: Node<'a>) -> Result<MemberProp, BuildError>
        ensures { BuildsNode result member_prop_items (head_of node.entry)
            (after_inside (taken room) (holds AMemberKey (head_of node.entry)) self.old)
            self.old self.new }
    {
        match node {
            Node::IdentName { .. } => Ok(MemberProp::IdentName(self.ident_name_of(node)?)),
            Node::PrivateName { .. } => Ok(MemberProp::PrivateName(self.private_name_of(node)?)),
            _ => Ok(MemberProp::ComputedPropName(self.computed_prop_name_of(room, node)?)),
        }
    }

    #[cycle(build)]
    #[tactic(auto, using(crate::proofs::Parsing::building))]
    pub(crate) fn super_prop(&mut self, room: usize, field: u8) -> Result<SuperProp, BuildError>
        ensures { Builds result (super_prop_items field)
            (taken room ASuperKey field self.old) self.old self.new }
    {
        let (node, room) = self.enter(room, field)?;
        let it = self.super_prop_of(room, node);
        self.leave(it)
    }

    #[cycle(build)]
    #[tactic(auto, using(crate::proofs::Parsing::building))]
    fn super_prop_of(&mut self, room: usize, node: Node<'a>) -> Result<SuperProp, BuildError>
        ensures { BuildsNode result super_prop_items (head_of node.entry)
            (after_inside (taken room) (holds ASuperKey (head_of node.entry)) self.old)
            self.old self.new }
    {
        match node {
            Node::IdentName { .. } => Ok(SuperProp::IdentName(self.ident_name_of(node)?)),
            _ => Ok(SuperProp::ComputedPropName(self.computed_prop_name_of(room, node)?)),
        }
    }
}

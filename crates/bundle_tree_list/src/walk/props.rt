//! Properties (ECMA-262, 13.2.5 and 13.3.2).

ghost use Rattle.std.specs.Prelude.{◌≡◌, ◌++◌, OnOk};
ghost use Rattle.bundle_tree_listed.specs.Tree.{computed_prop_name_items, each_prop_or_spread_items, key_value_prop_items, member_prop_items, prop_items, prop_name_items, prop_or_spread_items, super_prop_items};

use crate::walk::Walk;
use bundle_syntax::{Node, Role};
use bundle_tree_ast::{
    BigInt, ComputedPropName, IdentName, KeyValueProp, MemberProp, Number, PrivateName, Prop,
    PropName, PropOrSpread, Str, SuperProp,
};
use std::alloc::AllocError;

impl<'a> Walk<'a> {
    /// Adds the list of a property or a spread. Refused only where memory runs out.
    #[cycle(walk)]
    #[tactic(auto, using(bundle_tree_listed::proofs::Steps::steps))]
    pub fn prop_or_spread(
        &mut self,
        field: u8,
        prop_or_spread: &'a PropOrSpread,
    ) -> Result<(), AllocError>
        ensures { OnOk result
            (self.new ≡ self.old ++ prop_or_spread_items field prop_or_spread.now) }
    {
        match prop_or_spread {
            PropOrSpread::SpreadElement { expr } => {
                self.open(field, Node::SpreadElement)?;
                self.expr(0, expr)?;
                self.close()
            }
            PropOrSpread::Prop(it) => self.prop(field, it),
        }
    }

    #[cycle(walk)]
    #[tactic(auto, using(bundle_tree_listed::proofs::Rows::rows))]
    pub(crate) fn each_prop_or_spread(
        &mut self,
        field: u8,
        list: &'a Vec<PropOrSpread>,
    ) -> Result<(), AllocError>
        ensures { OnOk result (self.new ≡ self.old ++ each_prop_or_spread_items field list.now) }
    {
        for element in list {
            self.prop_or_spread(field, element)?;
        }
        Ok(())
    }

    /// Adds the list of a property. Refused only where memory runs out.
    #[cycle(walk)]
    #[tactic(auto, using(bundle_tree_listed::proofs::Steps::steps))]
    pub fn prop(&mut self, field: u8, prop: &'a Prop) -> Result<(), AllocError>
        ensures { OnOk result (self.new ≡ self.old ++ prop_items field prop.now) }
    {
        match prop {
            Prop::Shorthand(it) => self.ident(field, Role::Reference, it),
            Prop::KeyValueProp(it) => self.key_value_prop(field, it),
            Prop::GetterProp { key, body } => {
                self.open(field, Node::GetterProp)?;
                self.prop_name(0, key)?;
                self.block_stmt(1, body)?;
                self.close()
            }
            Prop::SetterProp { key, param, body } => {
                self.open(field, Node::SetterProp)?;
                self.prop_name(0, key)?;
                self.pat(1, Role::Binding, param)?;
                self.block_stmt(2, body)?;
                self.close()
            }
            Prop::MethodProp { key, function } => {
                self.open(field, Node::MethodProp)?;
                self.prop_name(0, key)?;
                self.function(1, function)?;
                self.close()
            }
        }
    }

    /// Adds the list of a property with a key and a value. Refused only where memory runs out.
    #[cycle(walk)]
    #[tactic(auto, using(bundle_tree_listed::proofs::Steps::steps))]
    pub fn key_value_prop(
        &mut self,
        field: u8,
        key_value_prop: &'a KeyValueProp,
    ) -> Result<(), AllocError>
        ensures { OnOk result
            (self.new ≡ self.old ++ key_value_prop_items field key_value_prop.now) }
    {
        self.open(field, Node::KeyValueProp)?;
        self.prop_name(0, &key_value_prop.key)?;
        self.expr(1, &key_value_prop.value)?;
        self.close()
    }

    /// Adds the list of a computed key. Refused only where memory runs out.
    #[cycle(walk)]
    #[tactic(auto, using(bundle_tree_listed::proofs::Steps::steps))]
    pub fn computed_prop_name(
        &mut self,
        field: u8,
        computed_prop_name: &'a ComputedPropName,
    ) -> Result<(), AllocError>
        ensures { OnOk result
            (self.new ≡ self.old ++ computed_prop_name_items field computed_prop_name.now) }
    {
        self.open(field, Node::ComputedPropName)?;
        self.expr(0, &computed_prop_name.expr)?;
        self.close()
    }

    /// Adds the list of the key of a property. Refused only where memory runs out.
    #[cycle(walk)]
    #[tactic(auto, using(bundle_tree_listed::proofs::Steps::steps))]
    pub fn prop_name(&mut self, field: u8, prop_name: &'a PropName) -> Result<(), AllocError>
        ensures { OnOk result (self.new ≡ self.old ++ prop_name_items field prop_name.now) }
    {
        match prop_name {
            PropName::IdentName(it) => self.ident_name(field, it),
            PropName::Str(it) => self.str(field, it),
            PropName::Number(it) => self.number(field, it),
            PropName::BigInt(it) => self.big_int(field, it),
            PropName::ComputedPropName(it) => self.computed_prop_name(field, it),
        }
    }

    /// Adds the list of the key of a member expression. Refused only where memory runs out.
    #[cycle(walk)]
    #[tactic(auto, using(bundle_tree_listed::proofs::Steps::steps))]
    pub fn member_prop(&mut self, field: u8, member_prop: &'a MemberProp) -> Result<(), AllocError>
        ensures { OnOk result (self.new ≡ self.old ++ member_prop_items field member_prop.now) }
    {
        match member_prop {
            MemberProp::IdentName(it) => self.ident_name(field, it),
            MemberProp::PrivateName(it) => self.private_name(field, it),
            MemberProp::ComputedPropName(it) => self.computed_prop_name(field, it),
        }
    }

    /// Adds the list of the key of a property of `super`. Refused only where memory runs out.
    #[cycle(walk)]
    #[tactic(auto, using(bundle_tree_listed::proofs::Steps::steps))]
    pub fn super_prop(&mut self, field: u8, super_prop: &'a SuperProp) -> Result<(), AllocError>
        ensures { OnOk result (self.new ≡ self.old ++ super_prop_items field super_prop.now) }
    {
        match super_prop {
            SuperProp::IdentName(it) => self.ident_name(field, it),
            SuperProp::ComputedPropName(it) => self.computed_prop_name(field, it),
        }
    }
}

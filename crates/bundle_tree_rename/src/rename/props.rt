//! Properties (ECMA-262, 13.2.5 and 13.3.2).

ghost use Rattle.std.specs.Prelude.{◌≡◌, IfOk, unwrap_or};
ghost use Rattle.bundle_rules.specs.Rebuilds as rebuilds;
ghost use Rattle.bundle_tree_ast.specs.declared.prop.Prop.{Shorthand};
ghost use Rattle.bundle_tree_listed.specs.Tree.{computed_prop_name_items, each_prop_or_spread_items, key_value_prop_items, member_prop_items, prop_items, prop_name_items, prop_or_spread_items, super_prop_items};
ghost use Rattle.bundle_tree_places.specs.Edits.{Anywhere, InObject};
ghost use Rattle.bundle_tree_rename.specs.Renamed.{Renamed};

use crate::rename::Rename;
use bundle_tree_ast::{
    ComputedPropName, Expr, Ident, IdentName, KeyValueProp, Lit, MemberProp, Prop, PropName,
    PropOrSpread, Str, SuperProp,
};
use std::alloc::AllocError;

impl<'r, 'n> Rename<'r, 'n> {
    #[cycle(rename)]
    pub fn prop_or_spread(&mut self, prop_or_spread: &mut PropOrSpread) -> Result<(), AllocError>
        ensures { IfOk result (λ done.
            Renamed InObject prop_or_spread_items self.old prop_or_spread.old prop_or_spread.new
            self.new) }
    {
        match prop_or_spread {
            PropOrSpread::SpreadElement { expr } => self.expr(expr),
            PropOrSpread::Prop(it) => self.prop(it),
        }
    }

    #[cycle(rename)]
    pub(crate) fn each_prop_or_spread(
        &mut self,
        list: &mut Vec<PropOrSpread>,
    ) -> Result<(), AllocError>
        ensures { IfOk result (λ done.
            Renamed InObject each_prop_or_spread_items self.old list.old list.new self.new) }
    {
        for index in 0..list.len() {
            self.prop_or_spread(&mut list[index])?;
        }
        Ok(())
    }

    #[cycle(rename)]
    pub fn prop(&mut self, prop: &mut Prop) -> Result<(), AllocError>
        ensures { IfOk result (λ done.
            Renamed InObject prop_items self.old prop.old prop.new self.new) }
    {
        match prop {
            Prop::Shorthand(it) => match self.shorthand(it)? {
                Some(pair) => {
                    *prop = pair;
                    Ok(())
                }
                None => Ok(()),
            },
            Prop::KeyValueProp(it) => self.key_value_prop(it),
            Prop::GetterProp { key, body } => {
                self.prop_name(key)?;
                self.block_stmt(body)
            }
            Prop::SetterProp { key, param, body } => {
                self.prop_name(key)?;
                self.pat(param)?;
                self.block_stmt(body)
            }
            Prop::MethodProp { key, function } => {
                self.prop_name(key)?;
                self.function(function)
            }
        }
    }

    // A shorthand; the pair that it is spelled out as, if it is.
    pub(crate) fn shorthand(&mut self, ident: &mut Ident) -> Result<Option<Prop>, AllocError>
        ensures { IfOk result (λ pair.
            Renamed InObject prop_items self.old (Shorthand ident.old)
            (unwrap_or pair (Shorthand ident.new)) self.new) }
    {
        let is_spelled_out = self.spells_out(ident);
        if is_spelled_out {
            let name = self.new_ident(ident)?;
            let value = Expr::Ident(name);
            let key = self.key_in_object(ident.sym.as_str())?;
            Ok(Some(Prop::KeyValueProp(KeyValueProp { key, value })))
        } else {
            self.ident(ident)?;
            Ok(None)
        }
    }

    // The key that a shorthand is spelled out with; a plain `__proto__` would set the prototype.
    fn key_in_object(&self, sym: &str) -> Result<PropName, AllocError>
        ensures { IfOk result (λ made. prop_name_items 0 made ≡ rebuilds.key_in_object sym.now) }
    {
        if sym == "__proto__" {
            let value = String::from_str(self.alloc, sym)?;
            let expr = Expr::Lit(Lit::Str(Str { value, raw: None }));
            let expr = Box::new(self.alloc, expr)?;
            Ok(PropName::ComputedPropName(ComputedPropName { expr }))
        } else {
            self.plain_key(sym)
        }
    }

    // A key that is a plain word.
    pub(crate) fn plain_key(&self, sym: &str) -> Result<PropName, AllocError>
        ensures { IfOk result (λ made. prop_name_items 0 made ≡ rebuilds.plain_key sym.now) }
    {
        let sym = String::from_str(self.alloc, sym)?;
        Ok(PropName::IdentName(IdentName { sym }))
    }

    #[cycle(rename)]
    pub fn key_value_prop(&mut self, key_value_prop: &mut KeyValueProp) -> Result<(), AllocError>
        ensures { IfOk result (λ done.
            Renamed InObject key_value_prop_items self.old key_value_prop.old key_value_prop.new
            self.new) }
    {
        self.prop_name(&mut key_value_prop.key)?;
        self.expr(&mut key_value_prop.value)
    }

    #[cycle(rename)]
    pub fn computed_prop_name(
        &mut self,
        computed_prop_name: &mut ComputedPropName,
    ) -> Result<(), AllocError>
        ensures { IfOk result (λ done.
            Renamed Anywhere computed_prop_name_items self.old computed_prop_name.old
            computed_prop_name.new self.new) }
    {
        self.boxed_expr(&mut computed_prop_name.expr)
    }

    #[cycle(rename)]
    pub fn prop_name(&mut self, prop_name: &mut PropName) -> Result<(), AllocError>
        ensures { IfOk result (λ done.
            Renamed Anywhere prop_name_items self.old prop_name.old prop_name.new self.new) }
    {
        match prop_name {
            PropName::IdentName(_) => Ok(()),
            PropName::Str(_) => Ok(()),
            PropName::Number(_) => Ok(()),
            PropName::BigInt(_) => Ok(()),
            PropName::ComputedPropName(it) => self.computed_prop_name(it),
        }
    }

    #[cycle(rename)]
    pub fn member_prop(&mut self, member_prop: &mut MemberProp) -> Result<(), AllocError>
        ensures { IfOk result (λ done.
            Renamed Anywhere member_prop_items self.old member_prop.old member_prop.new
            self.new) }
    {
        match member_prop {
            MemberProp::IdentName(_) => Ok(()),
            MemberProp::PrivateName(_) => Ok(()),
            MemberProp::ComputedPropName(it) => self.computed_prop_name(it),
        }
    }

    #[cycle(rename)]
    pub fn super_prop(&mut self, super_prop: &mut SuperProp) -> Result<(), AllocError>
        ensures { IfOk result (λ done.
            Renamed Anywhere super_prop_items self.old super_prop.old super_prop.new self.new) }
    {
        match super_prop {
            SuperProp::IdentName(_) => Ok(()),
            SuperProp::ComputedPropName(it) => self.computed_prop_name(it),
        }
    }
}

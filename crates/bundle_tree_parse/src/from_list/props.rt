//! Properties (ECMA-262, 13.2.5 and 13.3.2).

ghost use Rattle.bundle_tree_listed.specs.Tree.{computed_prop_name_items, key_value_prop_items, member_prop_items, prop_items, prop_name_items, prop_or_spread_items, super_prop_items};
ghost use Rattle.bundle_tree_parse.specs.Sorts.{AComputedKey, AKey, AKeyValue, AMemberKey, AProperty, APropertyOrSpread, ASuperKey};

use crate::build::{BuildError, Builder};
use crate::from_list::FromList;
use bundle_tree_ast::{
    ComputedPropName, KeyValueProp, MemberProp, Prop, PropName, PropOrSpread, SuperProp,
};

impl FromList for PropOrSpread {
    ghost sort = { APropertyOrSpread };

    ghost items = { prop_or_spread_items };

    fn take<'p, 'a>(
        builder: &mut Builder<'p, 'a>,
        room: usize,
        field: u8,
    ) -> Result<PropOrSpread, BuildError> {
        builder.prop_or_spread(room, field)
    }
}

impl FromList for Prop {
    ghost sort = { AProperty };

    ghost items = { prop_items };

    fn take<'p, 'a>(
        builder: &mut Builder<'p, 'a>,
        room: usize,
        field: u8,
    ) -> Result<Prop, BuildError> {
        builder.prop(room, field)
    }
}

impl FromList for KeyValueProp {
    ghost sort = { AKeyValue };

    ghost items = { key_value_prop_items };

    fn take<'p, 'a>(
        builder: &mut Builder<'p, 'a>,
        room: usize,
        field: u8,
    ) -> Result<KeyValueProp, BuildError> {
        builder.key_value_prop(room, field)
    }
}

impl FromList for PropName {
    ghost sort = { AKey };

    ghost items = { prop_name_items };

    fn take<'p, 'a>(
        builder: &mut Builder<'p, 'a>,
        room: usize,
        field: u8,
    ) -> Result<PropName, BuildError> {
        builder.prop_name(room, field)
    }
}

impl FromList for ComputedPropName {
    ghost sort = { AComputedKey };

    ghost items = { computed_prop_name_items };

    #[tactic(auto, using(crate::proofs::Parsing::building))]
    fn take<'p, 'a>(
        builder: &mut Builder<'p, 'a>,
        room: usize,
        field: u8,
    ) -> Result<ComputedPropName, BuildError> {
        let (node, room) = builder.enter(room, field)?;
        let it = builder.computed_prop_name_of(room, node);
        builder.leave(it)
    }
}

impl FromList for MemberProp {
    ghost sort = { AMemberKey };

    ghost items = { member_prop_items };

    fn take<'p, 'a>(
        builder: &mut Builder<'p, 'a>,
        room: usize,
        field: u8,
    ) -> Result<MemberProp, BuildError> {
        builder.member_prop(room, field)
    }
}

impl FromList for SuperProp {
    ghost sort = { ASuperKey };

    ghost items = { super_prop_items };

    fn take<'p, 'a>(
        builder: &mut Builder<'p, 'a>,
        room: usize,
        field: u8,
    ) -> Result<SuperProp, BuildError> {
        builder.super_prop(room, field)
    }
}

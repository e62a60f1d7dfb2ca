//! Patterns (ECMA-262, 13.15.5 and 14.3.3).

ghost use Rattle.bundle_syntax.specs.declared.piece.Role.TheVariants.{Binding};
ghost use Rattle.bundle_tree_listed.specs.Tree.{array_pat_items, assign_target_items, object_pat_items, object_pat_prop_items, pat_items, rest_pat_items};
ghost use Rattle.bundle_tree_parse.specs.Sorts.{APattern, APatternProperty, ARestPattern, ATarget, AnArrayPattern, AnObjectPattern};

use crate::build::{BuildError, Builder};
use crate::from_list::FromList;
use bundle_syntax::Role;
use bundle_tree_ast::{ArrayPat, AssignTarget, ObjectPat, ObjectPatProp, Pat, RestPat};

impl FromList for Pat {
    ghost sort = { APattern Binding };

    ghost items = { pat_items Binding };

    fn take<'p, 'a>(
        builder: &mut Builder<'p, 'a>,
        room: usize,
        field: u8,
    ) -> Result<Pat, BuildError> {
        builder.pat(room, field, Role::Binding)
    }
}

impl FromList for ArrayPat {
    ghost sort = { AnArrayPattern Binding };

    ghost items = { array_pat_items Binding };

    #[tactic(auto, using(crate::proofs::Parsing::building))]
    fn take<'p, 'a>(
        builder: &mut Builder<'p, 'a>,
        room: usize,
        field: u8,
    ) -> Result<ArrayPat, BuildError> {
        let (node, room) = builder.enter(room, field)?;
        let it = builder.array_pat_of(room, node, Role::Binding);
        builder.leave(it)
    }
}

impl FromList for RestPat {
    ghost sort = { ARestPattern Binding };

    ghost items = { rest_pat_items Binding };

    #[tactic(auto, using(crate::proofs::Parsing::building))]
    fn take<'p, 'a>(
        builder: &mut Builder<'p, 'a>,
        room: usize,
        field: u8,
    ) -> Result<RestPat, BuildError> {
        let (node, room) = builder.enter(room, field)?;
        let it = builder.rest_pat_of(room, node, Role::Binding);
        builder.leave(it)
    }
}

impl FromList for ObjectPat {
    ghost sort = { AnObjectPattern Binding };

    ghost items = { object_pat_items Binding };

    #[tactic(auto, using(crate::proofs::Parsing::building))]
    fn take<'p, 'a>(
        builder: &mut Builder<'p, 'a>,
        room: usize,
        field: u8,
    ) -> Result<ObjectPat, BuildError> {
        let (node, room) = builder.enter(room, field)?;
        let it = builder.object_pat_of(room, node, Role::Binding);
        builder.leave(it)
    }
}

impl FromList for ObjectPatProp {
    ghost sort = { APatternProperty Binding };

    ghost items = { object_pat_prop_items Binding };

    fn take<'p, 'a>(
        builder: &mut Builder<'p, 'a>,
        room: usize,
        field: u8,
    ) -> Result<ObjectPatProp, BuildError> {
        builder.object_pat_prop(room, field, Role::Binding)
    }
}

impl FromList for AssignTarget {
    ghost sort = { ATarget };

    ghost items = { assign_target_items };

    fn take<'p, 'a>(
        builder: &mut Builder<'p, 'a>,
        room: usize,
        field: u8,
    ) -> Result<AssignTarget, BuildError> {
        builder.assign_target(room, field)
    }
}

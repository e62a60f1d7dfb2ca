//! Functions and classes (ECMA-262, 15).

ghost use Rattle.bundle_tree_listed.specs.Tree.{class_items, class_member_items, function_items, param_items};
ghost use Rattle.bundle_tree_parse.specs.Sorts.{AClass, AClassMember, AFunction, AParameter};

use crate::build::{BuildError, Builder};
use crate::from_list::FromList;
use bundle_tree_ast::{Class, ClassMember, Function, Param};

impl FromList for Function {
    ghost sort = { AFunction };

    ghost items = { function_items };

    fn take<'p, 'a>(
        builder: &mut Builder<'p, 'a>,
        room: usize,
        field: u8,
    ) -> Result<Function, BuildError> {
        builder.function(room, field)
    }
}

impl FromList for Param {
    ghost sort = { AParameter };

    ghost items = { param_items };

    fn take<'p, 'a>(
        builder: &mut Builder<'p, 'a>,
        room: usize,
        field: u8,
    ) -> Result<Param, BuildError> {
        builder.param(room, field)
    }
}

impl FromList for Class {
    ghost sort = { AClass };

    ghost items = { class_items };

    fn take<'p, 'a>(
        builder: &mut Builder<'p, 'a>,
        room: usize,
        field: u8,
    ) -> Result<Class, BuildError> {
        builder.class(room, field)
    }
}

impl FromList for ClassMember {
    ghost sort = { AClassMember };

    ghost items = { class_member_items };

    fn take<'p, 'a>(
        builder: &mut Builder<'p, 'a>,
        room: usize,
        field: u8,
    ) -> Result<ClassMember, BuildError> {
        builder.class_member(room, field)
    }
}

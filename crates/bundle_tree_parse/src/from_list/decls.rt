//! Declarations (ECMA-262, 14.3, 15.2 and 15.7).

ghost use Rattle.bundle_tree_listed.specs.Tree.{decl_items, var_decl_items, var_declarator_items};
ghost use Rattle.bundle_tree_parse.specs.Sorts.{ADecl, ADeclarator, AVarDecl};

use crate::build::{BuildError, Builder};
use crate::from_list::FromList;
use bundle_tree_ast::{Decl, VarDecl, VarDeclarator};

impl FromList for Decl {
    ghost sort = { ADecl };

    ghost items = { decl_items };

    fn take<'p, 'a>(
        builder: &mut Builder<'p, 'a>,
        room: usize,
        field: u8,
    ) -> Result<Decl, BuildError> {
        builder.decl(room, field)
    }
}

impl FromList for VarDecl {
    ghost sort = { AVarDecl };

    ghost items = { var_decl_items };

    #[tactic(auto, using(crate::proofs::Parsing::building))]
    fn take<'p, 'a>(
        builder: &mut Builder<'p, 'a>,
        room: usize,
        field: u8,
    ) -> Result<VarDecl, BuildError> {
        let (node, room) = builder.enter(room, field)?;
        let it = builder.var_decl_of(room, node);
        builder.leave(it)
    }
}

impl FromList for VarDeclarator {
    ghost sort = { ADeclarator };

    ghost items = { var_declarator_items };

    fn take<'p, 'a>(
        builder: &mut Builder<'p, 'a>,
        room: usize,
        field: u8,
    ) -> Result<VarDeclarator, BuildError> {
        builder.var_declarator(room, field)
    }
}

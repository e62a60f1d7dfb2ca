//! Statements (ECMA-262, 14).

ghost use Rattle.bundle_tree_listed.specs.Tree.{block_stmt_items, catch_clause_items, for_head_items, for_init_items, stmt_items, switch_case_items};
ghost use Rattle.bundle_tree_parse.specs.Sorts.{ABlock, ACase, AHandler, ALoopHead, AStmt, AnInit};

use crate::build::{BuildError, Builder};
use crate::from_list::FromList;
use bundle_tree_ast::{BlockStmt, CatchClause, ForHead, ForInit, Stmt, SwitchCase};

impl FromList for Stmt {
    ghost sort = { AStmt };

    ghost items = { stmt_items };

    fn take<'p, 'a>(
        builder: &mut Builder<'p, 'a>,
        room: usize,
        field: u8,
    ) -> Result<Stmt, BuildError> {
        builder.stmt(room, field)
    }
}

impl FromList for BlockStmt {
    ghost sort = { ABlock };

    ghost items = { block_stmt_items };

    fn take<'p, 'a>(
        builder: &mut Builder<'p, 'a>,
        room: usize,
        field: u8,
    ) -> Result<BlockStmt, BuildError> {
        builder.block_stmt(room, field)
    }
}

impl FromList for SwitchCase {
    ghost sort = { ACase };

    ghost items = { switch_case_items };

    fn take<'p, 'a>(
        builder: &mut Builder<'p, 'a>,
        room: usize,
        field: u8,
    ) -> Result<SwitchCase, BuildError> {
        builder.switch_case(room, field)
    }
}

impl FromList for CatchClause {
    ghost sort = { AHandler };

    ghost items = { catch_clause_items };

    fn take<'p, 'a>(
        builder: &mut Builder<'p, 'a>,
        room: usize,
        field: u8,
    ) -> Result<CatchClause, BuildError> {
        builder.catch_clause(room, field)
    }
}

impl FromList for ForInit {
    ghost sort = { AnInit };

    ghost items = { for_init_items };

    fn take<'p, 'a>(
        builder: &mut Builder<'p, 'a>,
        room: usize,
        field: u8,
    ) -> Result<ForInit, BuildError> {
        builder.for_init(room, field)
    }
}

impl FromList for ForHead {
    ghost sort = { ALoopHead };

    ghost items = { for_head_items };

    fn take<'p, 'a>(
        builder: &mut Builder<'p, 'a>,
        room: usize,
        field: u8,
    ) -> Result<ForHead, BuildError> {
        builder.for_head(room, field)
    }
}

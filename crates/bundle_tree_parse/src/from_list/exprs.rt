//! Expressions (ECMA-262, 13).

ghost use Rattle.bundle_tree_listed.specs.Tree.{arrow_body_items, callee_items, expr_items, expr_or_spread_items, member_expr_items, opt_call_items, opt_chain_base_items, paren_expr_items, super_prop_expr_items, tpl_items};
ghost use Rattle.bundle_tree_parse.specs.Sorts.{ACallee, ALink, AMemberExpr, AParen, ASuperMember, ATemplate, AnArgument, AnArrowBody, AnExpr, AnOptCall};

use crate::build::{BuildError, Builder};
use crate::from_list::FromList;
use bundle_tree_ast::{
    ArrowBody, Callee, Expr, ExprOrSpread, MemberExpr, OptCall, OptChainBase, ParenExpr,
    SuperPropExpr, Tpl,
};

impl FromList for Expr {
    ghost sort = { AnExpr };

    ghost items = { expr_items };

    fn take<'p, 'a>(
        builder: &mut Builder<'p, 'a>,
        room: usize,
        field: u8,
    ) -> Result<Expr, BuildError> {
        builder.expr(room, field)
    }
}

impl FromList for ExprOrSpread {
    ghost sort = { AnArgument };

    ghost items = { expr_or_spread_items };

    fn take<'p, 'a>(
        builder: &mut Builder<'p, 'a>,
        room: usize,
        field: u8,
    ) -> Result<ExprOrSpread, BuildError> {
        builder.expr_or_spread(room, field)
    }
}

impl FromList for Callee {
    ghost sort = { ACallee };

    ghost items = { callee_items };

    fn take<'p, 'a>(
        builder: &mut Builder<'p, 'a>,
        room: usize,
        field: u8,
    ) -> Result<Callee, BuildError> {
        builder.callee(room, field)
    }
}

impl FromList for ArrowBody {
    ghost sort = { AnArrowBody };

    ghost items = { arrow_body_items };

    fn take<'p, 'a>(
        builder: &mut Builder<'p, 'a>,
        room: usize,
        field: u8,
    ) -> Result<ArrowBody, BuildError> {
        builder.arrow_body(room, field)
    }
}

impl FromList for OptChainBase {
    ghost sort = { ALink };

    ghost items = { opt_chain_base_items };

    fn take<'p, 'a>(
        builder: &mut Builder<'p, 'a>,
        room: usize,
        field: u8,
    ) -> Result<OptChainBase, BuildError> {
        builder.opt_chain_base(room, field)
    }
}

impl FromList for OptCall {
    ghost sort = { AnOptCall };

    ghost items = { opt_call_items };

    #[tactic(auto, using(crate::proofs::Parsing::building))]
    fn take<'p, 'a>(
        builder: &mut Builder<'p, 'a>,
        room: usize,
        field: u8,
    ) -> Result<OptCall, BuildError> {
        let (node, room) = builder.enter(room, field)?;
        let it = builder.opt_call_of(room, node);
        builder.leave(it)
    }
}

impl FromList for MemberExpr {
    ghost sort = { AMemberExpr };

    ghost items = { member_expr_items };

    #[tactic(auto, using(crate::proofs::Parsing::building))]
    fn take<'p, 'a>(
        builder: &mut Builder<'p, 'a>,
        room: usize,
        field: u8,
    ) -> Result<MemberExpr, BuildError> {
        let (node, room) = builder.enter(room, field)?;
        let it = builder.member_expr_of(room, node);
        builder.leave(it)
    }
}

impl FromList for SuperPropExpr {
    ghost sort = { ASuperMember };

    ghost items = { super_prop_expr_items };

    #[tactic(auto, using(crate::proofs::Parsing::building))]
    fn take<'p, 'a>(
        builder: &mut Builder<'p, 'a>,
        room: usize,
        field: u8,
    ) -> Result<SuperPropExpr, BuildError> {
        let (node, room) = builder.enter(room, field)?;
        let it = builder.super_prop_expr_of(room, node);
        builder.leave(it)
    }
}

impl FromList for ParenExpr {
    ghost sort = { AParen };

    ghost items = { paren_expr_items };

    #[tactic(auto, using(crate::proofs::Parsing::building))]
    fn take<'p, 'a>(
        builder: &mut Builder<'p, 'a>,
        room: usize,
        field: u8,
    ) -> Result<ParenExpr, BuildError> {
        let (node, room) = builder.enter(room, field)?;
        let it = builder.paren_expr_of(room, node);
        builder.leave(it)
    }
}

impl FromList for Tpl {
    ghost sort = { ATemplate };

    ghost items = { tpl_items };

    fn take<'p, 'a>(
        builder: &mut Builder<'p, 'a>,
        room: usize,
        field: u8,
    ) -> Result<Tpl, BuildError> {
        builder.tpl(room, field)
    }
}

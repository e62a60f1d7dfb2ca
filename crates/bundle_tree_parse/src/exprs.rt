//! Expressions (ECMA-262, 13).

ghost use Rattle.std.specs.Prelude.{◌≡◌, Some, None, IfOk, length};
ghost use Rattle.bundle_syntax.specs.declared.piece.Role.TheVariants.{Reference};
ghost use Rattle.bundle_syntax.specs.Item.{head_of};
ghost use Rattle.bundle_tree_parse.specs.declared.build.BuildError.TheVariants.{Form};
ghost use Rattle.bundle_tree_listed.specs.Tree.{arrow_body_items, callee_items, each_expr_items, each_expr_or_spread_items, each_option_expr_or_spread_items, expr_items, expr_or_spread_items, expr_or_spread_place_items, is_given, member_expr_items, opt_call_items, opt_chain_base_items, option_boxed_expr_items, option_each_expr_or_spread_items, option_expr_items, paren_expr_items, super_prop_expr_items, tpl_items};
ghost use Rattle.bundle_tree_parse.specs.Built.{Builds, BuildsNode};
ghost use Rattle.bundle_tree_parse.specs.Sorts.{AnExpr, AFunctionExpr, ACompoundExpr, ACallExpr, AnArgument, ACallee, AnArrowBody, AMemberExpr, ASuperMember, AParen, ATemplate, ALink, AnOptCall, holds, arguments};
ghost use Rattle.bundle_tree_parse.specs.Parse.{after_ident, after_maybe, after_each, after_place, after_slots, after_inside, taken};
ghost use Rattle.bundle_tree_ast.specs.declared.class.ClassMember.TheBlock.{back-Expr-NewExpr-1};

use crate::build::{BuildError, Builder};
use bundle_syntax::{Node, Role};
use bundle_tree_ast::{
    ArrowBody, Callee, Expr, ExprOrSpread, MemberExpr, OptCall, OptChainBase, ParenExpr,
    SuperPropExpr, Tpl,
};

impl<'p, 'a> Builder<'p, 'a> {
    #[cycle(build)]
    #[tactic(auto, using(crate::proofs::Parsing::building))]
    pub(crate) fn expr(&mut self, room: usize, field: u8) -> Result<Expr, BuildError>
        ensures { Builds result (expr_items field)
            (taken room AnExpr field self.old) self.old self.new }
    {
        if self.is_ident() {
            return Ok(Expr::Ident(self.ident(field, Role::Reference)?));
        }
        let (node, room) = self.enter(room, field)?;
        let it = self.expr_of(room, node);
        self.leave(it)
    }

    #[cycle(build)]
    #[tactic(auto, using(crate::proofs::Parsing::building))]
    pub(crate) fn expr_of(&mut self, room: usize, node: Node<'a>) -> Result<Expr, BuildError>
        ensures { BuildsNode result expr_items (head_of node.entry)
            (after_inside (taken room) (holds AnExpr (head_of node.entry)) self.old)
            self.old self.new }
    {
        match node {
            Node::Str { .. }
            | Node::Bool { .. }
            | Node::Null
            | Node::Number { .. }
            | Node::BigInt { .. }
            | Node::Regex { .. } => Ok(Expr::Lit(self.lit_of(node)?)),
            Node::PrivateName { .. } => Ok(Expr::PrivateName(self.private_name_of(node)?)),
            Node::MemberExpr => Ok(Expr::MemberExpr(self.member_expr_of(room, node)?)),
            Node::SuperPropExpr => Ok(Expr::SuperPropExpr(self.super_prop_expr_of(room, node)?)),
            Node::ParenExpr => Ok(Expr::ParenExpr(self.paren_expr_of(room, node)?)),
            Node::Tpl => Ok(Expr::Tpl(self.tpl_of(room, node)?)),
            Node::ThisExpr => Ok(Expr::ThisExpr),
            Node::MetaPropExpr { kind } => Ok(Expr::MetaPropExpr { kind }),
            Node::FnExpr | Node::ClassExpr | Node::ArrowExpr { .. } => self.function_expr_of(
                room, node,
            ),
            Node::ArrayLit | Node::ObjectLit | Node::SeqExpr | Node::TaggedTpl =>
                self.compound_expr_of(room, node),
            Node::CallExpr | Node::NewExpr { .. } | Node::OptChainExpr { .. } => self.call_expr_of(
                room, node,
            ),
            _ => self.operator_expr_of(room, node),
        }
    }

    #[cycle(build)]
    #[tactic(auto, using(crate::proofs::Parsing::building))]
    fn function_expr_of(&mut self, room: usize, node: Node<'a>) -> Result<Expr, BuildError>
        ensures { BuildsNode result expr_items (head_of node.entry)
            (after_inside (taken room) (holds AFunctionExpr (head_of node.entry)) self.old)
            self.old self.new }
    {
        match node {
            Node::FnExpr => {
                let ident = self.option_ident(0, Role::Binding)?;
                let function = self.function(room, 1)?;
                Ok(Expr::FnExpr { ident, function })
            }
            Node::ClassExpr => {
                let ident = self.option_ident(0, Role::Binding)?;
                let class = self.class(room, 1)?;
                Ok(Expr::ClassExpr { ident, class })
            }
            Node::ArrowExpr { is_async } => {
                let params = self.each_pat(room, 0, Role::Binding)?;
                let body = self.arrow_body(room, 1)?;
                Ok(Expr::ArrowExpr {
                    params,
                    body,
                    is_async,
                })
            }
            _ => Err(BuildError::Form),
        }
    }

    #[cycle(build)]
    #[tactic(auto, using(crate::proofs::Parsing::building))]
    fn compound_expr_of(&mut self, room: usize, node: Node<'a>) -> Result<Expr, BuildError>
        ensures { BuildsNode result expr_items (head_of node.entry)
            (after_inside (taken room) (holds ACompoundExpr (head_of node.entry)) self.old)
            self.old self.new }
    {
        match node {
            Node::ArrayLit => {
                let elems = self.each_option_expr_or_spread(room, 0)?;
                Ok(Expr::ArrayLit { elems })
            }
            Node::ObjectLit => {
                let props = self.each_prop_or_spread(room, 0)?;
                Ok(Expr::ObjectLit { props })
            }
            Node::SeqExpr => {
                let exprs = self.each_expr(room, 0)?;
                Ok(Expr::SeqExpr { exprs })
            }
            Node::TaggedTpl => {
                let tag = self.boxed_expr(room, 0)?;
                let tpl = self.tpl(room, 1)?;
                Ok(Expr::TaggedTpl { tag, tpl })
            }
            _ => Err(BuildError::Form),
        }
    }

    #[cycle(build)]
    #[tactic(auto, using(crate::proofs::Parsing::building))]
    fn call_expr_of(&mut self, room: usize, node: Node<'a>) -> Result<Expr, BuildError>
        ensures { BuildsNode result expr_items (head_of node.entry)
            (after_inside (taken room) (holds ACallExpr (head_of node.entry)) self.old)
            self.old self.new }
    {
        match node {
            Node::CallExpr => {
                let callee = self.callee(room, 0)?;
                let args = self.each_expr_or_spread(room, 1)?;
                Ok(Expr::CallExpr { callee, args })
            }
            Node::NewExpr { has_args } => {
                let callee = self.boxed_expr(room, 0)?;
                let args = self.args_of_new(room, has_args)?;
                Ok(Expr::NewExpr { callee, args })
            }
            Node::OptChainExpr { optional } => {
                let base = self.opt_chain_base(room, 1)?;
                Ok(Expr::OptChainExpr { optional, base })
            }
            _ => Err(BuildError::Form),
        }
    }

    #[cycle(build)]
    #[tactic(auto, using(crate::proofs::Parsing::building))]
    fn args_of_new(
        &mut self,
        room: usize,
        has_args: bool,
    ) -> Result<Option<Vec<ExprOrSpread>>, BuildError>
        ensures built { Builds result (option_each_expr_or_spread_items 1)
            (after_slots (taken room) (arguments has_args) self.old) self.old self.new }
        ensures given { IfOk result (λ made. is_given (back-Expr-NewExpr-1 made) ≡ has_args) }
    {
        if has_args {
            Ok(Some(self.each_expr_or_spread(room, 1)?))
        } else {
            Ok(None)
        }
    }

    #[cycle(build)]
    #[tactic(auto, using(crate::proofs::Parsing::building))]
    pub(crate) fn boxed_expr(&mut self, room: usize, field: u8) -> Result<Box<Expr>, BuildError>
        ensures { Builds result (λ made. expr_items field made.value)
            (taken room AnExpr field self.old) self.old self.new }
    {
        let it = self.expr(room, field);
        self.boxed(it)
    }

    #[cycle(build)]
    #[tactic(auto, using(crate::proofs::Parsing::building))]
    pub(crate) fn boxed_expr_of(
        &mut self,
        room: usize,
        node: Node<'a>,
    ) -> Result<Box<Expr>, BuildError>
        ensures { BuildsNode result (λ field made. expr_items field made.value) (head_of node.entry)
            (after_inside (taken room) (holds AnExpr (head_of node.entry)) self.old)
            self.old self.new }
    {
        let it = self.expr_of(room, node);
        self.boxed(it)
    }

    // A name that stands where an expression does.
    #[tactic(auto, using(crate::proofs::Parsing::building))]
    pub(crate) fn boxed_ident(&mut self, field: u8) -> Result<Box<Expr>, BuildError>
        ensures { Builds result (λ made. expr_items field made.value)
            (after_ident Reference field self.old) self.old self.new }
    {
        let it = self.ident(field, Role::Reference)?;
        Ok(Box::new(self.alloc, Expr::Ident(it))?)
    }

    #[cycle(build)]
    #[tactic(auto, using(crate::proofs::Parsing::building))]
    pub(crate) fn option_expr(&mut self, room: usize, field: u8) -> Result<Option<Expr>, BuildError>
        ensures { Builds result (option_expr_items field)
            (after_maybe (taken room AnExpr field) field self.old) self.old self.new }
    {
        if self.is_in(field) {
            Ok(Some(self.expr(room, field)?))
        } else {
            Ok(None)
        }
    }

    #[cycle(build)]
    #[tactic(auto, using(crate::proofs::Parsing::building))]
    pub(crate) fn option_boxed_expr(
        &mut self,
        room: usize,
        field: u8,
    ) -> Result<Option<Box<Expr>>, BuildError>
        ensures { Builds result (option_boxed_expr_items field)
            (after_maybe (taken room AnExpr field) field self.old) self.old self.new }
    {
        if self.is_in(field) {
            Ok(Some(self.boxed_expr(room, field)?))
        } else {
            Ok(None)
        }
    }

    #[cycle(build)]
    #[tactic(auto, using(crate::proofs::Parsing::building))]
    fn each_expr(&mut self, room: usize, field: u8) -> Result<Vec<Expr>, BuildError>
        ensures { Builds result (each_expr_items field)
            (after_each (taken room AnExpr field) field (length self.old) self.old)
            self.old self.new }
    {
        let mut list = Vec::new(self.alloc);
        let most = self.most();
        for count in 0..most {
            if !self.is_in(field) {
                break;
            }
            let it = self.expr(room, field)?;
            list.push(it)?;
        }
        list.shrink_to_fit();
        Ok(list)
    }

    #[cycle(build)]
    #[tactic(auto, using(crate::proofs::Parsing::building))]
    pub(crate) fn expr_or_spread(
        &mut self,
        room: usize,
        field: u8,
    ) -> Result<ExprOrSpread, BuildError>
        ensures { Builds result (expr_or_spread_items field)
            (taken room AnArgument field self.old) self.old self.new }
    {
        let (node, room) = self.enter(room, field)?;
        let it = self.expr_or_spread_of(room, node);
        self.leave(it)
    }

    #[cycle(build)]
    #[tactic(auto, using(crate::proofs::Parsing::building))]
    fn expr_or_spread_of(&mut self, room: usize, node: Node<'a>) -> Result<ExprOrSpread, BuildError>
        ensures { BuildsNode result expr_or_spread_items (head_of node.entry)
            (after_inside (taken room) (holds AnArgument (head_of node.entry)) self.old)
            self.old self.new }
    {
        match node {
            Node::ExprOrSpread { spread } => {
                let expr = self.expr(room, 1)?;
                Ok(ExprOrSpread { spread, expr })
            }
            _ => Err(BuildError::Form),
        }
    }

    #[cycle(build)]
    #[tactic(auto, using(crate::proofs::Parsing::building))]
    fn each_expr_or_spread(
        &mut self,
        room: usize,
        field: u8,
    ) -> Result<Vec<ExprOrSpread>, BuildError>
        ensures { Builds result (each_expr_or_spread_items field)
            (after_each (taken room AnArgument field) field (length self.old) self.old)
            self.old self.new }
    {
        let mut list = Vec::new(self.alloc);
        let most = self.most();
        for count in 0..most {
            if !self.is_in(field) {
                break;
            }
            let it = self.expr_or_spread(room, field)?;
            list.push(it)?;
        }
        list.shrink_to_fit();
        Ok(list)
    }

    #[cycle(build)]
    #[tactic(auto, using(crate::proofs::Parsing::building))]
    fn option_expr_or_spread(
        &mut self,
        room: usize,
        field: u8,
    ) -> Result<Option<ExprOrSpread>, BuildError>
        ensures { Builds result (expr_or_spread_place_items field)
            (after_place (taken room AnArgument field) field self.old) self.old self.new }
    {
        if self.is_hole() {
            self.hole(field)?;
            Ok(None)
        } else {
            Ok(Some(self.expr_or_spread(room, field)?))
        }
    }

    #[cycle(build)]
    #[tactic(auto, using(crate::proofs::Parsing::building))]
    fn each_option_expr_or_spread(
        &mut self,
        room: usize,
        field: u8,
    ) -> Result<Vec<Option<ExprOrSpread>>, BuildError>
        ensures { Builds result (each_option_expr_or_spread_items field)
            (after_each (after_place (taken room AnArgument field) field)
            field (length self.old) self.old)
            self.old self.new }
    {
        let mut list = Vec::new(self.alloc);
        let most = self.most();
        for count in 0..most {
            if !self.is_in(field) {
                break;
            }
            let it = self.option_expr_or_spread(room, field)?;
            list.push(it)?;
        }
        list.shrink_to_fit();
        Ok(list)
    }

    #[cycle(build)]
    #[tactic(auto, using(crate::proofs::Parsing::building))]
    pub(crate) fn callee(&mut self, room: usize, field: u8) -> Result<Callee, BuildError>
        ensures { Builds result (callee_items field)
            (taken room ACallee field self.old) self.old self.new }
    {
        if self.is_ident() {
            return Ok(Callee::Expr(self.boxed_ident(field)?));
        }
        let (node, room) = self.enter(room, field)?;
        let it = self.callee_of(room, node);
        self.leave(it)
    }

    #[cycle(build)]
    #[tactic(auto, using(crate::proofs::Parsing::building))]
    fn callee_of(&mut self, room: usize, node: Node<'a>) -> Result<Callee, BuildError>
        ensures { BuildsNode result callee_items (head_of node.entry)
            (after_inside (taken room) (holds ACallee (head_of node.entry)) self.old)
            self.old self.new }
    {
        match node {
            Node::Super => Ok(Callee::Super),
            Node::Import => Ok(Callee::Import),
            _ => Ok(Callee::Expr(self.boxed_expr_of(room, node)?)),
        }
    }

    #[cycle(build)]
    #[tactic(auto, using(crate::proofs::Parsing::building))]
    pub(crate) fn arrow_body(&mut self, room: usize, field: u8) -> Result<ArrowBody, BuildError>
        ensures { Builds result (arrow_body_items field)
            (taken room AnArrowBody field self.old) self.old self.new }
    {
        if self.is_ident() {
            return Ok(ArrowBody::Expr(self.boxed_ident(field)?));
        }
        let (node, room) = self.enter(room, field)?;
        let it = self.arrow_body_of(room, node);
        self.leave(it)
    }

    #[cycle(build)]
    #[tactic(auto, using(crate::proofs::Parsing::building))]
    fn arrow_body_of(&mut self, room: usize, node: Node<'a>) -> Result<ArrowBody, BuildError>
        ensures { BuildsNode result arrow_body_items (head_of node.entry)
            (after_inside (taken room) (holds AnArrowBody (head_of node.entry)) self.old)
            self.old self.new }
    {
        match node {
            Node::BlockStmt => Ok(ArrowBody::BlockStmt(self.block_stmt_of(room, node)?)),
            _ => Ok(ArrowBody::Expr(self.boxed_expr_of(room, node)?)),
        }
    }

    #[cycle(build)]
    #[tactic(auto, using(crate::proofs::Parsing::building))]
    pub(crate) fn member_expr_of(
        &mut self,
        room: usize,
        node: Node<'a>,
    ) -> Result<MemberExpr, BuildError>
        ensures { BuildsNode result member_expr_items (head_of node.entry)
            (after_inside (taken room) (holds AMemberExpr (head_of node.entry)) self.old)
            self.old self.new }
    {
        match node {
            Node::MemberExpr => {
                let obj = self.boxed_expr(room, 0)?;
                let prop = self.member_prop(room, 1)?;
                Ok(MemberExpr { obj, prop })
            }
            _ => Err(BuildError::Form),
        }
    }

    #[cycle(build)]
    #[tactic(auto, using(crate::proofs::Parsing::building))]
    pub(crate) fn super_prop_expr_of(
        &mut self,
        room: usize,
        node: Node<'a>,
    ) -> Result<SuperPropExpr, BuildError>
        ensures { BuildsNode result super_prop_expr_items (head_of node.entry)
            (after_inside (taken room) (holds ASuperMember (head_of node.entry)) self.old)
            self.old self.new }
    {
        match node {
            Node::SuperPropExpr => {
                let prop = self.super_prop(room, 0)?;
                Ok(SuperPropExpr { prop })
            }
            _ => Err(BuildError::Form),
        }
    }

    #[cycle(build)]
    #[tactic(auto, using(crate::proofs::Parsing::building))]
    pub(crate) fn paren_expr_of(
        &mut self,
        room: usize,
        node: Node<'a>,
    ) -> Result<ParenExpr, BuildError>
        ensures { BuildsNode result paren_expr_items (head_of node.entry)
            (after_inside (taken room) (holds AParen (head_of node.entry)) self.old)
            self.old self.new }
    {
        match node {
            Node::ParenExpr => {
                let expr = self.boxed_expr(room, 0)?;
                Ok(ParenExpr { expr })
            }
            _ => Err(BuildError::Form),
        }
    }

    #[cycle(build)]
    #[tactic(auto, using(crate::proofs::Parsing::building))]
    pub(crate) fn tpl(&mut self, room: usize, field: u8) -> Result<Tpl, BuildError>
        ensures { Builds result (tpl_items field)
            (taken room ATemplate field self.old) self.old self.new }
    {
        let (node, room) = self.enter(room, field)?;
        let it = self.tpl_of(room, node);
        self.leave(it)
    }

    #[cycle(build)]
    #[tactic(auto, using(crate::proofs::Parsing::building))]
    fn tpl_of(&mut self, room: usize, node: Node<'a>) -> Result<Tpl, BuildError>
        ensures { BuildsNode result tpl_items (head_of node.entry)
            (after_inside (taken room) (holds ATemplate (head_of node.entry)) self.old)
            self.old self.new }
    {
        match node {
            Node::Tpl => {
                let exprs = self.each_expr(room, 0)?;
                let quasis = self.each_tpl_element(room, 1)?;
                Ok(Tpl { exprs, quasis })
            }
            _ => Err(BuildError::Form),
        }
    }

    #[cycle(build)]
    #[tactic(auto, using(crate::proofs::Parsing::building))]
    pub(crate) fn opt_chain_base(
        &mut self,
        room: usize,
        field: u8,
    ) -> Result<OptChainBase, BuildError>
        ensures { Builds result (opt_chain_base_items field)
            (taken room ALink field self.old) self.old self.new }
    {
        let (node, room) = self.enter(room, field)?;
        let it = self.opt_chain_base_of(room, node);
        self.leave(it)
    }

    #[cycle(build)]
    #[tactic(auto, using(crate::proofs::Parsing::building))]
    fn opt_chain_base_of(&mut self, room: usize, node: Node<'a>) -> Result<OptChainBase, BuildError>
        ensures { BuildsNode result opt_chain_base_items (head_of node.entry)
            (after_inside (taken room) (holds ALink (head_of node.entry)) self.old)
            self.old self.new }
    {
        match node {
            Node::OptCall => Ok(OptChainBase::OptCall(self.opt_call_of(room, node)?)),
            _ => Ok(OptChainBase::MemberExpr(self.member_expr_of(room, node)?)),
        }
    }

    #[cycle(build)]
    #[tactic(auto, using(crate::proofs::Parsing::building))]
    pub(crate) fn opt_call_of(&mut self, room: usize, node: Node<'a>) -> Result<OptCall, BuildError>
        ensures { BuildsNode result opt_call_items (head_of node.entry)
            (after_inside (taken room) (holds AnOptCall (head_of node.entry)) self.old)
            self.old self.new }
    {
        match node {
            Node::OptCall => {
                let callee = self.boxed_expr(room, 0)?;
                let args = self.each_expr_or_spread(room, 1)?;
                Ok(OptCall { callee, args })
            }
            _ => Err(BuildError::Form),
        }
    }
}

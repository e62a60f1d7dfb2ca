//! Expressions (ECMA-262, 13).

ghost use Rattle.std.specs.Prelude.{◌≡◌, IfOk, is_some};
ghost use Rattle.bundle_tree_listed.specs.Tree.{arrow_body_items, callee_items, each_expr_items, each_expr_or_spread_items, each_option_expr_or_spread_items, expr_items, expr_or_spread_items, expr_or_spread_place_items, member_expr_items, opt_call_items, opt_chain_base_items, option_boxed_expr_items, option_each_expr_or_spread_items, option_expr_items, paren_expr_items, super_prop_expr_items, tpl_items};
ghost use Rattle.bundle_tree_places.specs.Edits.{Anywhere};
ghost use Rattle.bundle_tree_rename.specs.Parts.{boxed_expr_items};
ghost use Rattle.bundle_tree_rename.specs.Renamed.{Renamed};

use crate::rename::Rename;
use bundle_tree_ast::{
    ArrowBody, Callee, Expr, ExprOrSpread, MemberExpr, OptCall, OptChainBase, ParenExpr,
    SuperPropExpr, Tpl,
};
use std::alloc::AllocError;

impl<'r, 'n> Rename<'r, 'n> {
    #[cycle(rename)]
    pub fn expr(&mut self, expr: &mut Expr) -> Result<(), AllocError>
        ensures { IfOk result (λ done.
            Renamed Anywhere expr_items self.old expr.old expr.new self.new) }
    {
        match expr {
            Expr::ThisExpr => Ok(()),
            Expr::ArrayLit { elems } => self.each_option_expr_or_spread(elems),
            Expr::ObjectLit { props } => self.each_prop_or_spread(props),
            Expr::FnExpr { ident, function } => {
                self.option_ident(ident)?;
                self.function(function)
            }
            Expr::UnaryExpr { arg, .. } => self.boxed_expr(arg),
            Expr::UpdateExpr { arg, .. } => self.boxed_expr(arg),
            Expr::BinExpr { left, right, .. } => {
                self.boxed_expr(left)?;
                self.boxed_expr(right)
            }
            Expr::AssignExpr { left, right, .. } => {
                self.assign_target(left)?;
                self.boxed_expr(right)
            }
            Expr::MemberExpr(it) => self.member_expr(it),
            Expr::SuperPropExpr(it) => self.super_prop_expr(it),
            Expr::CondExpr { test, cons, alt } => {
                self.boxed_expr(test)?;
                self.boxed_expr(cons)?;
                self.boxed_expr(alt)
            }
            Expr::CallExpr { callee, args } => {
                self.callee(callee)?;
                self.each_expr_or_spread(args)
            }
            Expr::NewExpr { callee, args } => {
                self.boxed_expr(callee)?;
                self.option_each_expr_or_spread(args)
            }
            Expr::SeqExpr { exprs } => self.each_expr(exprs),
            Expr::Ident(it) => self.ident(it),
            Expr::Lit(_) => Ok(()),
            Expr::Tpl(it) => self.tpl(it),
            Expr::TaggedTpl { tag, tpl } => {
                self.boxed_expr(tag)?;
                self.tpl(tpl)
            }
            Expr::ArrowExpr { params, body, .. } => {
                self.each_pat(params)?;
                self.arrow_body(body)
            }
            Expr::ClassExpr { ident, class } => {
                self.option_ident(ident)?;
                self.class(class)
            }
            Expr::YieldExpr { arg, .. } => self.option_boxed_expr(arg),
            Expr::MetaPropExpr { .. } => Ok(()),
            Expr::AwaitExpr { arg } => self.boxed_expr(arg),
            Expr::ParenExpr(it) => self.paren_expr(it),
            Expr::PrivateName(_) => Ok(()),
            Expr::OptChainExpr { base, .. } => self.opt_chain_base(base),
        }
    }

    #[cycle(rename)]
    pub(crate) fn option_expr(&mut self, choice: &mut Option<Expr>) -> Result<(), AllocError>
        ensures { IfOk result (λ done.
            Renamed Anywhere option_expr_items self.old choice.old choice.new self.new) }
    {
        match choice {
            Some(expr) => self.expr(expr),
            None => Ok(()),
        }
    }

    #[cycle(rename)]
    pub(crate) fn each_expr(&mut self, list: &mut Vec<Expr>) -> Result<(), AllocError>
        ensures { IfOk result (λ done.
            Renamed Anywhere each_expr_items self.old list.old list.new self.new) }
    {
        for index in 0..list.len() {
            self.expr(&mut list[index])?;
        }
        Ok(())
    }

    #[cycle(rename)]
    pub(crate) fn boxed_expr(&mut self, boxed: &mut Box<Expr>) -> Result<(), AllocError>
        ensures { IfOk result (λ done.
            Renamed Anywhere boxed_expr_items self.old boxed.old boxed.new self.new) }
    {
        self.expr(boxed)
    }

    #[cycle(rename)]
    pub(crate) fn option_boxed_expr(
        &mut self,
        choice: &mut Option<Box<Expr>>,
    ) -> Result<(), AllocError>
        ensures { IfOk result (λ done.
            Renamed Anywhere option_boxed_expr_items self.old choice.old choice.new self.new) }
    {
        match choice {
            Some(expr) => self.boxed_expr(expr),
            None => Ok(()),
        }
    }

    #[cycle(rename)]
    pub fn paren_expr(&mut self, paren_expr: &mut ParenExpr) -> Result<(), AllocError>
        ensures { IfOk result (λ done.
            Renamed Anywhere paren_expr_items self.old paren_expr.old paren_expr.new self.new) }
    {
        self.boxed_expr(&mut paren_expr.expr)
    }

    #[cycle(rename)]
    pub fn member_expr(&mut self, member_expr: &mut MemberExpr) -> Result<(), AllocError>
        ensures { IfOk result (λ done.
            Renamed Anywhere member_expr_items self.old member_expr.old member_expr.new
            self.new) }
    {
        self.boxed_expr(&mut member_expr.obj)?;
        self.member_prop(&mut member_expr.prop)
    }

    #[cycle(rename)]
    pub fn super_prop_expr(&mut self, super_prop_expr: &mut SuperPropExpr) -> Result<(), AllocError>
        ensures { IfOk result (λ done.
            Renamed Anywhere super_prop_expr_items self.old super_prop_expr.old
            super_prop_expr.new self.new) }
    {
        self.super_prop(&mut super_prop_expr.prop)
    }

    #[cycle(rename)]
    pub fn callee(&mut self, callee: &mut Callee) -> Result<(), AllocError>
        ensures { IfOk result (λ done.
            Renamed Anywhere callee_items self.old callee.old callee.new self.new) }
    {
        match callee {
            Callee::Super => Ok(()),
            Callee::Import => Ok(()),
            Callee::Expr(it) => self.boxed_expr(it),
        }
    }

    #[cycle(rename)]
    pub fn expr_or_spread(&mut self, expr_or_spread: &mut ExprOrSpread) -> Result<(), AllocError>
        ensures { IfOk result (λ done.
            Renamed Anywhere expr_or_spread_items self.old expr_or_spread.old expr_or_spread.new
            self.new) }
    {
        self.expr(&mut expr_or_spread.expr)
    }

    #[cycle(rename)]
    pub(crate) fn expr_or_spread_place(
        &mut self,
        place: &mut Option<ExprOrSpread>,
    ) -> Result<(), AllocError>
        ensures { IfOk result (λ done.
            Renamed Anywhere expr_or_spread_place_items self.old place.old place.new self.new) }
    {
        match place {
            Some(element) => self.expr_or_spread(element),
            None => Ok(()),
        }
    }

    #[cycle(rename)]
    pub(crate) fn each_option_expr_or_spread(
        &mut self,
        list: &mut Vec<Option<ExprOrSpread>>,
    ) -> Result<(), AllocError>
        ensures { IfOk result (λ done.
            Renamed Anywhere each_option_expr_or_spread_items self.old list.old list.new
            self.new) }
    {
        for index in 0..list.len() {
            self.expr_or_spread_place(&mut list[index])?;
        }
        Ok(())
    }

    #[cycle(rename)]
    pub(crate) fn each_expr_or_spread(
        &mut self,
        list: &mut Vec<ExprOrSpread>,
    ) -> Result<(), AllocError>
        ensures { IfOk result (λ done.
            Renamed Anywhere each_expr_or_spread_items self.old list.old list.new self.new) }
    {
        for index in 0..list.len() {
            self.expr_or_spread(&mut list[index])?;
        }
        Ok(())
    }

    #[cycle(rename)]
    pub(crate) fn option_each_expr_or_spread(
        &mut self,
        choice: &mut Option<Vec<ExprOrSpread>>,
    ) -> Result<(), AllocError>
        ensures renamed { IfOk result (λ done.
            Renamed Anywhere option_each_expr_or_spread_items self.old choice.old choice.new
            self.new) }
        ensures given { IfOk result (λ done. is_some choice.new ≡ is_some choice.old) }
    {
        match choice {
            Some(list) => self.each_expr_or_spread(list),
            None => Ok(()),
        }
    }

    #[cycle(rename)]
    pub fn arrow_body(&mut self, arrow_body: &mut ArrowBody) -> Result<(), AllocError>
        ensures { IfOk result (λ done.
            Renamed Anywhere arrow_body_items self.old arrow_body.old arrow_body.new self.new) }
    {
        match arrow_body {
            ArrowBody::BlockStmt(it) => self.block_stmt(it),
            ArrowBody::Expr(it) => self.boxed_expr(it),
        }
    }

    #[cycle(rename)]
    pub fn opt_chain_base(&mut self, opt_chain_base: &mut OptChainBase) -> Result<(), AllocError>
        ensures { IfOk result (λ done.
            Renamed Anywhere opt_chain_base_items self.old opt_chain_base.old opt_chain_base.new
            self.new) }
    {
        match opt_chain_base {
            OptChainBase::MemberExpr(it) => self.member_expr(it),
            OptChainBase::OptCall(it) => self.opt_call(it),
        }
    }

    #[cycle(rename)]
    pub fn opt_call(&mut self, opt_call: &mut OptCall) -> Result<(), AllocError>
        ensures { IfOk result (λ done.
            Renamed Anywhere opt_call_items self.old opt_call.old opt_call.new self.new) }
    {
        self.boxed_expr(&mut opt_call.callee)?;
        self.each_expr_or_spread(&mut opt_call.args)
    }

    #[cycle(rename)]
    pub fn tpl(&mut self, tpl: &mut Tpl) -> Result<(), AllocError>
        ensures { IfOk result (λ done.
            Renamed Anywhere tpl_items self.old tpl.old tpl.new self.new) }
    {
        self.each_expr(&mut tpl.exprs)
    }
}

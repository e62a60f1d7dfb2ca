//! Expressions (ECMA-262, 13).

ghost use Rattle.std.specs.Prelude.{◌≡◌, ◌++◌, OnOk};
ghost use Rattle.bundle_tree_listed.specs.Tree.{arrow_body_items, callee_items, each_expr_items, each_expr_or_spread_items, each_option_expr_or_spread_items, expr_items, expr_or_spread_items, member_expr_items, opt_call_items, opt_chain_base_items, option_boxed_expr_items, option_each_expr_or_spread_items, option_expr_items, paren_expr_items, super_prop_expr_items, tpl_items};

use crate::walk::Walk;
use bundle_syntax::{Node, Role};
use bundle_tree_ast::{
    ArrowBody, BlockStmt, Callee, Expr, ExprOrSpread, Ident, Lit, MemberExpr, OptCall,
    OptChainBase, ParenExpr, PrivateName, SuperPropExpr, Tpl,
};
use std::alloc::AllocError;

impl<'a> Walk<'a> {
    #[cycle(walk)]
    #[tactic(auto, using(bundle_tree_listed::proofs::Steps::steps))]
    pub fn expr(&mut self, field: u8, expr: &'a Expr) -> Result<(), AllocError>
        ensures { OnOk result (self.new ≡ self.old ++ expr_items field expr.now) }
    {
        match expr {
            Expr::ThisExpr => {
                self.open(field, Node::ThisExpr)?;
                self.close()
            }
            Expr::ArrayLit { elems } => {
                self.open(field, Node::ArrayLit)?;
                self.each_option_expr_or_spread(0, elems)?;
                self.close()
            }
            Expr::ObjectLit { props } => {
                self.open(field, Node::ObjectLit)?;
                self.each_prop_or_spread(0, props)?;
                self.close()
            }
            Expr::FnExpr { ident, function } => {
                self.open(field, Node::FnExpr)?;
                self.option_ident(0, Role::Binding, ident)?;
                self.function(1, function)?;
                self.close()
            }
            Expr::UnaryExpr { op, arg } => {
                self.open(field, Node::UnaryExpr { op: *op })?;
                self.expr(1, arg)?;
                self.close()
            }
            Expr::UpdateExpr { op, prefix, arg } => {
                self.open(
                    field,
                    Node::UpdateExpr {
                        op: *op,
                        prefix: *prefix,
                    },
                )?;
                self.expr(2, arg)?;
                self.close()
            }
            Expr::BinExpr { op, left, right } => {
                self.open(field, Node::BinExpr { op: *op })?;
                self.expr(1, left)?;
                self.expr(2, right)?;
                self.close()
            }
            Expr::AssignExpr { op, left, right } => {
                self.open(field, Node::AssignExpr { op: *op })?;
                self.assign_target(1, left)?;
                self.expr(2, right)?;
                self.close()
            }
            Expr::MemberExpr(it) => self.member_expr(field, it),
            Expr::SuperPropExpr(it) => self.super_prop_expr(field, it),
            Expr::CondExpr { test, cons, alt } => {
                self.open(field, Node::CondExpr)?;
                self.expr(0, test)?;
                self.expr(1, cons)?;
                self.expr(2, alt)?;
                self.close()
            }
            Expr::CallExpr { callee, args } => {
                self.open(field, Node::CallExpr)?;
                self.callee(0, callee)?;
                self.each_expr_or_spread(1, args)?;
                self.close()
            }
            Expr::NewExpr { callee, args } => {
                self.open(
                    field,
                    Node::NewExpr {
                        has_args: args.is_some(),
                    },
                )?;
                self.expr(0, callee)?;
                self.option_each_expr_or_spread(1, args)?;
                self.close()
            }
            Expr::SeqExpr { exprs } => {
                self.open(field, Node::SeqExpr)?;
                self.each_expr(0, exprs)?;
                self.close()
            }
            Expr::Ident(it) => self.ident(field, Role::Reference, it),
            Expr::Lit(it) => self.lit(field, it),
            Expr::Tpl(it) => self.tpl(field, it),
            Expr::TaggedTpl { tag, tpl } => {
                self.open(field, Node::TaggedTpl)?;
                self.expr(0, tag)?;
                self.tpl(1, tpl)?;
                self.close()
            }
            Expr::ArrowExpr {
                params,
                body,
                is_async,
            } => {
                self.open(
                    field,
                    Node::ArrowExpr {
                        is_async: *is_async,
                    },
                )?;
                self.each_pat(0, Role::Binding, params)?;
                self.arrow_body(1, body)?;
                self.close()
            }
            Expr::ClassExpr { ident, class } => {
                self.open(field, Node::ClassExpr)?;
                self.option_ident(0, Role::Binding, ident)?;
                self.class(1, class)?;
                self.close()
            }
            Expr::YieldExpr { arg, delegate } => {
                self.open(
                    field,
                    Node::YieldExpr {
                        delegate: *delegate,
                    },
                )?;
                self.option_boxed_expr(0, arg)?;
                self.close()
            }
            Expr::MetaPropExpr { kind } => {
                self.open(field, Node::MetaPropExpr { kind: *kind })?;
                self.close()
            }
            Expr::AwaitExpr { arg } => {
                self.open(field, Node::AwaitExpr)?;
                self.expr(0, arg)?;
                self.close()
            }
            Expr::ParenExpr(it) => self.paren_expr(field, it),
            Expr::PrivateName(it) => self.private_name(field, it),
            Expr::OptChainExpr { optional, base } => {
                self.open(
                    field,
                    Node::OptChainExpr {
                        optional: *optional,
                    },
                )?;
                self.opt_chain_base(1, base)?;
                self.close()
            }
        }
    }

    #[cycle(walk)]
    #[tactic(auto, using(bundle_tree_listed::proofs::Steps::steps))]
    pub(crate) fn option_expr(
        &mut self,
        field: u8,
        choice: &'a Option<Expr>,
    ) -> Result<(), AllocError>
        ensures { OnOk result (self.new ≡ self.old ++ option_expr_items field choice.now) }
    {
        match choice {
            Some(expr) => self.expr(field, expr),
            None => Ok(()),
        }
    }

    #[cycle(walk)]
    #[tactic(auto, using(bundle_tree_listed::proofs::Rows::rows))]
    pub(crate) fn each_expr(&mut self, field: u8, list: &'a Vec<Expr>) -> Result<(), AllocError>
        ensures { OnOk result (self.new ≡ self.old ++ each_expr_items field list.now) }
    {
        for element in list {
            self.expr(field, element)?;
        }
        Ok(())
    }

    #[cycle(walk)]
    #[tactic(auto, using(bundle_tree_listed::proofs::Steps::steps))]
    pub(crate) fn option_boxed_expr(
        &mut self,
        field: u8,
        choice: &'a Option<Box<Expr>>,
    ) -> Result<(), AllocError>
        ensures { OnOk result (self.new ≡ self.old ++ option_boxed_expr_items field choice.now) }
    {
        match choice {
            Some(expr) => self.expr(field, expr),
            None => Ok(()),
        }
    }

    /// Adds the list of an expression in parentheses. Refused only where memory runs out.
    #[cycle(walk)]
    #[tactic(auto, using(bundle_tree_listed::proofs::Steps::steps))]
    pub fn paren_expr(&mut self, field: u8, paren_expr: &'a ParenExpr) -> Result<(), AllocError>
        ensures { OnOk result (self.new ≡ self.old ++ paren_expr_items field paren_expr.now) }
    {
        self.open(field, Node::ParenExpr)?;
        self.expr(0, &paren_expr.expr)?;
        self.close()
    }

    /// Adds the list of a member expression. Refused only where memory runs out.
    #[cycle(walk)]
    #[tactic(auto, using(bundle_tree_listed::proofs::Steps::steps))]
    pub fn member_expr(&mut self, field: u8, member_expr: &'a MemberExpr) -> Result<(), AllocError>
        ensures { OnOk result (self.new ≡ self.old ++ member_expr_items field member_expr.now) }
    {
        self.open(field, Node::MemberExpr)?;
        self.expr(0, &member_expr.obj)?;
        self.member_prop(1, &member_expr.prop)?;
        self.close()
    }

    /// Adds the list of a property of `super`. Refused only where memory runs out.
    #[cycle(walk)]
    #[tactic(auto, using(bundle_tree_listed::proofs::Steps::steps))]
    pub fn super_prop_expr(
        &mut self,
        field: u8,
        super_prop_expr: &'a SuperPropExpr,
    ) -> Result<(), AllocError>
        ensures { OnOk result
            (self.new ≡ self.old ++ super_prop_expr_items field super_prop_expr.now) }
    {
        self.open(field, Node::SuperPropExpr)?;
        self.super_prop(0, &super_prop_expr.prop)?;
        self.close()
    }

    /// Adds the list of what is called. Refused only where memory runs out.
    #[cycle(walk)]
    #[tactic(auto, using(bundle_tree_listed::proofs::Steps::steps))]
    pub fn callee(&mut self, field: u8, callee: &'a Callee) -> Result<(), AllocError>
        ensures { OnOk result (self.new ≡ self.old ++ callee_items field callee.now) }
    {
        match callee {
            Callee::Super => {
                self.open(field, Node::Super)?;
                self.close()
            }
            Callee::Import => {
                self.open(field, Node::Import)?;
                self.close()
            }
            Callee::Expr(it) => self.expr(field, it),
        }
    }

    /// Adds the list of an argument or an element, which may be spread. Refused only where memory runs out.
    #[cycle(walk)]
    #[tactic(auto, using(bundle_tree_listed::proofs::Steps::steps))]
    pub fn expr_or_spread(
        &mut self,
        field: u8,
        expr_or_spread: &'a ExprOrSpread,
    ) -> Result<(), AllocError>
        ensures { OnOk result
            (self.new ≡ self.old ++ expr_or_spread_items field expr_or_spread.now) }
    {
        self.open(
            field,
            Node::ExprOrSpread {
                spread: expr_or_spread.spread,
            },
        )?;
        self.expr(1, &expr_or_spread.expr)?;
        self.close()
    }

    #[cycle(walk)]
    #[tactic(auto, using(bundle_tree_listed::proofs::Rows::rows))]
    pub(crate) fn each_option_expr_or_spread(
        &mut self,
        field: u8,
        list: &'a Vec<Option<ExprOrSpread>>,
    ) -> Result<(), AllocError>
        ensures { OnOk result
            (self.new ≡ self.old ++ each_option_expr_or_spread_items field list.now) }
    {
        for place in list {
            match place {
                Some(element) => self.expr_or_spread(field, element)?,
                None => self.hole(field)?,
            }
        }
        Ok(())
    }

    #[cycle(walk)]
    #[tactic(auto, using(bundle_tree_listed::proofs::Rows::rows))]
    pub(crate) fn each_expr_or_spread(
        &mut self,
        field: u8,
        list: &'a Vec<ExprOrSpread>,
    ) -> Result<(), AllocError>
        ensures { OnOk result (self.new ≡ self.old ++ each_expr_or_spread_items field list.now) }
    {
        for element in list {
            self.expr_or_spread(field, element)?;
        }
        Ok(())
    }

    #[cycle(walk)]
    #[tactic(auto, using(bundle_tree_listed::proofs::Steps::steps))]
    pub(crate) fn option_each_expr_or_spread(
        &mut self,
        field: u8,
        choice: &'a Option<Vec<ExprOrSpread>>,
    ) -> Result<(), AllocError>
        ensures { OnOk result
            (self.new ≡ self.old ++ option_each_expr_or_spread_items field choice.now) }
    {
        match choice {
            Some(list) => self.each_expr_or_spread(field, list),
            None => Ok(()),
        }
    }

    /// Adds the list of the body of an arrow function. Refused only where memory runs out.
    #[cycle(walk)]
    #[tactic(auto, using(bundle_tree_listed::proofs::Steps::steps))]
    pub fn arrow_body(&mut self, field: u8, arrow_body: &'a ArrowBody) -> Result<(), AllocError>
        ensures { OnOk result (self.new ≡ self.old ++ arrow_body_items field arrow_body.now) }
    {
        match arrow_body {
            ArrowBody::BlockStmt(it) => self.block_stmt(field, it),
            ArrowBody::Expr(it) => self.expr(field, it),
        }
    }

    /// Adds the list of a link of an optional chain. Refused only where memory runs out.
    #[cycle(walk)]
    #[tactic(auto, using(bundle_tree_listed::proofs::Steps::steps))]
    pub fn opt_chain_base(
        &mut self,
        field: u8,
        opt_chain_base: &'a OptChainBase,
    ) -> Result<(), AllocError>
        ensures { OnOk result
            (self.new ≡ self.old ++ opt_chain_base_items field opt_chain_base.now) }
    {
        match opt_chain_base {
            OptChainBase::MemberExpr(it) => self.member_expr(field, it),
            OptChainBase::OptCall(it) => self.opt_call(field, it),
        }
    }

    /// Adds the list of a call in an optional chain. Refused only where memory runs out.
    #[cycle(walk)]
    #[tactic(auto, using(bundle_tree_listed::proofs::Steps::steps))]
    pub fn opt_call(&mut self, field: u8, opt_call: &'a OptCall) -> Result<(), AllocError>
        ensures { OnOk result (self.new ≡ self.old ++ opt_call_items field opt_call.now) }
    {
        self.open(field, Node::OptCall)?;
        self.expr(0, &opt_call.callee)?;
        self.each_expr_or_spread(1, &opt_call.args)?;
        self.close()
    }

    /// Adds the list of a template. Refused only where memory runs out.
    #[cycle(walk)]
    #[tactic(auto, using(bundle_tree_listed::proofs::Steps::steps))]
    pub fn tpl(&mut self, field: u8, tpl: &'a Tpl) -> Result<(), AllocError>
        ensures { OnOk result (self.new ≡ self.old ++ tpl_items field tpl.now) }
    {
        self.open(field, Node::Tpl)?;
        self.each_expr(0, &tpl.exprs)?;
        self.each_tpl_element(1, &tpl.quasis)?;
        self.close()
    }
}

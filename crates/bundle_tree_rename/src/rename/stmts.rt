//! Statements (ECMA-262, 14).

ghost use Rattle.std.specs.Prelude.{IfOk};
ghost use Rattle.bundle_tree_listed.specs.Tree.{block_stmt_items, catch_clause_items, each_stmt_items, each_switch_case_items, for_head_items, for_init_items, option_block_stmt_items, option_boxed_stmt_items, option_catch_clause_items, option_for_init_items, stmt_items, switch_case_items};
ghost use Rattle.bundle_tree_places.specs.Edits.{Anywhere};
ghost use Rattle.bundle_tree_rename.specs.Parts.{boxed_stmt_items};
ghost use Rattle.bundle_tree_rename.specs.Renamed.{Renamed};

use crate::rename::Rename;
use bundle_tree_ast::{BlockStmt, CatchClause, ForHead, ForInit, Stmt, SwitchCase};
use std::alloc::AllocError;

impl<'r, 'n> Rename<'r, 'n> {
    #[cycle(rename)]
    pub fn block_stmt(&mut self, block_stmt: &mut BlockStmt) -> Result<(), AllocError>
        ensures { IfOk result (λ done.
            Renamed Anywhere block_stmt_items self.old block_stmt.old block_stmt.new self.new) }
    {
        self.each_stmt(&mut block_stmt.stmts)
    }

    #[cycle(rename)]
    pub(crate) fn option_block_stmt(
        &mut self,
        choice: &mut Option<BlockStmt>,
    ) -> Result<(), AllocError>
        ensures { IfOk result (λ done.
            Renamed Anywhere option_block_stmt_items self.old choice.old choice.new self.new) }
    {
        match choice {
            Some(block_stmt) => self.block_stmt(block_stmt),
            None => Ok(()),
        }
    }

    #[cycle(rename)]
    pub fn stmt(&mut self, stmt: &mut Stmt) -> Result<(), AllocError>
        ensures { IfOk result (λ done.
            Renamed Anywhere stmt_items self.old stmt.old stmt.new self.new) }
    {
        match stmt {
            Stmt::BlockStmt(it) => self.block_stmt(it),
            Stmt::EmptyStmt => Ok(()),
            Stmt::DebuggerStmt => Ok(()),
            Stmt::WithStmt { obj, body } => {
                self.expr(obj)?;
                self.boxed_stmt(body)
            }
            Stmt::ReturnStmt { arg } => self.option_expr(arg),
            Stmt::LabeledStmt { body, .. } => self.boxed_stmt(body),
            Stmt::BreakStmt { .. } => Ok(()),
            Stmt::ContinueStmt { .. } => Ok(()),
            Stmt::IfStmt { test, cons, alt } => {
                self.expr(test)?;
                self.boxed_stmt(cons)?;
                self.option_boxed_stmt(alt)
            }
            Stmt::SwitchStmt {
                discriminant,
                cases,
            } => {
                self.expr(discriminant)?;
                self.each_switch_case(cases)
            }
            Stmt::ThrowStmt { arg } => self.expr(arg),
            Stmt::TryStmt {
                block,
                handler,
                finalizer,
            } => {
                self.block_stmt(block)?;
                self.option_catch_clause(handler)?;
                self.option_block_stmt(finalizer)
            }
            Stmt::WhileStmt { test, body } => {
                self.expr(test)?;
                self.boxed_stmt(body)
            }
            Stmt::DoWhileStmt { body, test } => {
                self.boxed_stmt(body)?;
                self.expr(test)
            }
            Stmt::ForStmt {
                init,
                test,
                update,
                body,
            } => {
                self.option_for_init(init)?;
                self.option_expr(test)?;
                self.option_expr(update)?;
                self.boxed_stmt(body)
            }
            Stmt::ForInStmt { left, right, body } => {
                self.for_head(left)?;
                self.expr(right)?;
                self.boxed_stmt(body)
            }
            Stmt::ForOfStmt {
                left,
                right,
                body,
                ..
            } => {
                self.for_head(left)?;
                self.expr(right)?;
                self.boxed_stmt(body)
            }
            Stmt::Decl(it) => self.decl(it),
            Stmt::ExprStmt { expr } => self.expr(expr),
        }
    }

    #[cycle(rename)]
    pub(crate) fn each_stmt(&mut self, list: &mut Vec<Stmt>) -> Result<(), AllocError>
        ensures { IfOk result (λ done.
            Renamed Anywhere each_stmt_items self.old list.old list.new self.new) }
    {
        for index in 0..list.len() {
            self.stmt(&mut list[index])?;
        }
        Ok(())
    }

    #[cycle(rename)]
    pub(crate) fn boxed_stmt(&mut self, boxed: &mut Box<Stmt>) -> Result<(), AllocError>
        ensures { IfOk result (λ done.
            Renamed Anywhere boxed_stmt_items self.old boxed.old boxed.new self.new) }
    {
        self.stmt(boxed)
    }

    #[cycle(rename)]
    pub(crate) fn option_boxed_stmt(
        &mut self,
        choice: &mut Option<Box<Stmt>>,
    ) -> Result<(), AllocError>
        ensures { IfOk result (λ done.
            Renamed Anywhere option_boxed_stmt_items self.old choice.old choice.new self.new) }
    {
        match choice {
            Some(stmt) => self.boxed_stmt(stmt),
            None => Ok(()),
        }
    }

    #[cycle(rename)]
    pub fn switch_case(&mut self, switch_case: &mut SwitchCase) -> Result<(), AllocError>
        ensures { IfOk result (λ done.
            Renamed Anywhere switch_case_items self.old switch_case.old switch_case.new
            self.new) }
    {
        self.option_expr(&mut switch_case.test)?;
        self.each_stmt(&mut switch_case.cons)
    }

    #[cycle(rename)]
    pub(crate) fn each_switch_case(&mut self, list: &mut Vec<SwitchCase>) -> Result<(), AllocError>
        ensures { IfOk result (λ done.
            Renamed Anywhere each_switch_case_items self.old list.old list.new self.new) }
    {
        for index in 0..list.len() {
            self.switch_case(&mut list[index])?;
        }
        Ok(())
    }

    #[cycle(rename)]
    pub fn catch_clause(&mut self, catch_clause: &mut CatchClause) -> Result<(), AllocError>
        ensures { IfOk result (λ done.
            Renamed Anywhere catch_clause_items self.old catch_clause.old catch_clause.new
            self.new) }
    {
        self.option_pat(&mut catch_clause.param)?;
        self.block_stmt(&mut catch_clause.body)
    }

    #[cycle(rename)]
    pub(crate) fn option_catch_clause(
        &mut self,
        choice: &mut Option<CatchClause>,
    ) -> Result<(), AllocError>
        ensures { IfOk result (λ done.
            Renamed Anywhere option_catch_clause_items self.old choice.old choice.new self.new) }
    {
        match choice {
            Some(catch_clause) => self.catch_clause(catch_clause),
            None => Ok(()),
        }
    }

    #[cycle(rename)]
    pub fn for_init(&mut self, for_init: &mut ForInit) -> Result<(), AllocError>
        ensures { IfOk result (λ done.
            Renamed Anywhere for_init_items self.old for_init.old for_init.new self.new) }
    {
        match for_init {
            ForInit::VarDecl(it) => self.var_decl(it),
            ForInit::Expr(it) => self.expr(it),
        }
    }

    #[cycle(rename)]
    pub(crate) fn option_for_init(&mut self, choice: &mut Option<ForInit>) -> Result<(), AllocError>
        ensures { IfOk result (λ done.
            Renamed Anywhere option_for_init_items self.old choice.old choice.new self.new) }
    {
        match choice {
            Some(for_init) => self.for_init(for_init),
            None => Ok(()),
        }
    }

    #[cycle(rename)]
    pub fn for_head(&mut self, for_head: &mut ForHead) -> Result<(), AllocError>
        ensures { IfOk result (λ done.
            Renamed Anywhere for_head_items self.old for_head.old for_head.new self.new) }
    {
        match for_head {
            ForHead::VarDecl(it) => self.var_decl(it),
            ForHead::Pat(it) => self.pat(it),
        }
    }
}

//! Statements (ECMA-262, 14).

ghost use Rattle.std.specs.Prelude.{◌≡◌, ◌++◌, OnOk};
ghost use Rattle.bundle_tree_listed.specs.Tree.{block_stmt_items, catch_clause_items, each_stmt_items, each_switch_case_items, for_head_items, for_init_items, option_block_stmt_items, option_boxed_stmt_items, option_catch_clause_items, option_for_init_items, stmt_items, switch_case_items};

use crate::walk::Walk;
use bundle_syntax::{Node, Role};
use bundle_tree_ast::{
    BlockStmt, CatchClause, Decl, Expr, ForHead, ForInit, Pat, Stmt, SwitchCase, VarDecl,
};
use std::alloc::AllocError;

impl<'a> Walk<'a> {
    /// Adds the list of a block. Refused only where memory runs out.
    #[cycle(walk)]
    #[tactic(auto, using(bundle_tree_listed::proofs::Steps::steps))]
    pub fn block_stmt(&mut self, field: u8, block_stmt: &'a BlockStmt) -> Result<(), AllocError>
        ensures { OnOk result (self.new ≡ self.old ++ block_stmt_items field block_stmt.now) }
    {
        self.open(field, Node::BlockStmt)?;
        self.each_stmt(0, &block_stmt.stmts)?;
        self.close()
    }

    #[cycle(walk)]
    #[tactic(auto, using(bundle_tree_listed::proofs::Steps::steps))]
    pub(crate) fn option_block_stmt(
        &mut self,
        field: u8,
        choice: &'a Option<BlockStmt>,
    ) -> Result<(), AllocError>
        ensures { OnOk result (self.new ≡ self.old ++ option_block_stmt_items field choice.now) }
    {
        match choice {
            Some(block_stmt) => self.block_stmt(field, block_stmt),
            None => Ok(()),
        }
    }

    /// Adds the list of a statement. Refused only where memory runs out.
    #[cycle(walk)]
    #[tactic(auto, using(bundle_tree_listed::proofs::Steps::steps))]
    pub fn stmt(&mut self, field: u8, stmt: &'a Stmt) -> Result<(), AllocError>
        ensures { OnOk result (self.new ≡ self.old ++ stmt_items field stmt.now) }
    {
        match stmt {
            Stmt::BlockStmt(it) => self.block_stmt(field, it),
            Stmt::EmptyStmt => {
                self.open(field, Node::EmptyStmt)?;
                self.close()
            }
            Stmt::DebuggerStmt => {
                self.open(field, Node::DebuggerStmt)?;
                self.close()
            }
            Stmt::WithStmt { obj, body } => {
                self.open(field, Node::WithStmt)?;
                self.expr(0, obj)?;
                self.stmt(1, body)?;
                self.close()
            }
            Stmt::ReturnStmt { arg } => {
                self.open(field, Node::ReturnStmt)?;
                self.option_expr(0, arg)?;
                self.close()
            }
            Stmt::LabeledStmt { label, body } => {
                self.open(field, Node::LabeledStmt)?;
                self.ident_name(0, label)?;
                self.stmt(1, body)?;
                self.close()
            }
            Stmt::BreakStmt { label } => {
                self.open(field, Node::BreakStmt)?;
                self.option_ident_name(0, label)?;
                self.close()
            }
            Stmt::ContinueStmt { label } => {
                self.open(field, Node::ContinueStmt)?;
                self.option_ident_name(0, label)?;
                self.close()
            }
            Stmt::IfStmt { test, cons, alt } => {
                self.open(field, Node::IfStmt)?;
                self.expr(0, test)?;
                self.stmt(1, cons)?;
                self.option_boxed_stmt(2, alt)?;
                self.close()
            }
            Stmt::SwitchStmt {
                discriminant,
                cases,
            } => {
                self.open(field, Node::SwitchStmt)?;
                self.expr(0, discriminant)?;
                self.each_switch_case(1, cases)?;
                self.close()
            }
            Stmt::ThrowStmt { arg } => {
                self.open(field, Node::ThrowStmt)?;
                self.expr(0, arg)?;
                self.close()
            }
            Stmt::TryStmt {
                block,
                handler,
                finalizer,
            } => {
                self.open(field, Node::TryStmt)?;
                self.block_stmt(0, block)?;
                self.option_catch_clause(1, handler)?;
                self.option_block_stmt(2, finalizer)?;
                self.close()
            }
            Stmt::WhileStmt { test, body } => {
                self.open(field, Node::WhileStmt)?;
                self.expr(0, test)?;
                self.stmt(1, body)?;
                self.close()
            }
            Stmt::DoWhileStmt { body, test } => {
                self.open(field, Node::DoWhileStmt)?;
                self.stmt(0, body)?;
                self.expr(1, test)?;
                self.close()
            }
            Stmt::ForStmt {
                init,
                test,
                update,
                body,
            } => {
                self.open(field, Node::ForStmt)?;
                self.option_for_init(0, init)?;
                self.option_expr(1, test)?;
                self.option_expr(2, update)?;
                self.stmt(3, body)?;
                self.close()
            }
            Stmt::ForInStmt { left, right, body } => {
                self.open(field, Node::ForInStmt)?;
                self.for_head(0, left)?;
                self.expr(1, right)?;
                self.stmt(2, body)?;
                self.close()
            }
            Stmt::ForOfStmt {
                is_await,
                left,
                right,
                body,
            } => {
                self.open(
                    field,
                    Node::ForOfStmt {
                        is_await: *is_await,
                    },
                )?;
                self.for_head(1, left)?;
                self.expr(2, right)?;
                self.stmt(3, body)?;
                self.close()
            }
            Stmt::Decl(it) => self.decl(field, it),
            Stmt::ExprStmt { expr } => {
                self.open(field, Node::ExprStmt)?;
                self.expr(0, expr)?;
                self.close()
            }
        }
    }

    #[cycle(walk)]
    #[tactic(auto, using(bundle_tree_listed::proofs::Rows::rows))]
    pub(crate) fn each_stmt(&mut self, field: u8, list: &'a Vec<Stmt>) -> Result<(), AllocError>
        ensures { OnOk result (self.new ≡ self.old ++ each_stmt_items field list.now) }
    {
        for element in list {
            self.stmt(field, element)?;
        }
        Ok(())
    }

    #[cycle(walk)]
    #[tactic(auto, using(bundle_tree_listed::proofs::Steps::steps))]
    pub(crate) fn option_boxed_stmt(
        &mut self,
        field: u8,
        choice: &'a Option<Box<Stmt>>,
    ) -> Result<(), AllocError>
        ensures { OnOk result (self.new ≡ self.old ++ option_boxed_stmt_items field choice.now) }
    {
        match choice {
            Some(stmt) => self.stmt(field, stmt),
            None => Ok(()),
        }
    }

    /// Adds the list of a case of a `switch`. Refused only where memory runs out.
    #[cycle(walk)]
    #[tactic(auto, using(bundle_tree_listed::proofs::Steps::steps))]
    pub fn switch_case(&mut self, field: u8, switch_case: &'a SwitchCase) -> Result<(), AllocError>
        ensures { OnOk result (self.new ≡ self.old ++ switch_case_items field switch_case.now) }
    {
        self.open(field, Node::SwitchCase)?;
        self.option_expr(0, &switch_case.test)?;
        self.each_stmt(1, &switch_case.cons)?;
        self.close()
    }

    #[cycle(walk)]
    #[tactic(auto, using(bundle_tree_listed::proofs::Rows::rows))]
    pub(crate) fn each_switch_case(
        &mut self,
        field: u8,
        list: &'a Vec<SwitchCase>,
    ) -> Result<(), AllocError>
        ensures { OnOk result (self.new ≡ self.old ++ each_switch_case_items field list.now) }
    {
        for element in list {
            self.switch_case(field, element)?;
        }
        Ok(())
    }

    /// Adds the list of a `catch` clause. Refused only where memory runs out.
    #[cycle(walk)]
    #[tactic(auto, using(bundle_tree_listed::proofs::Steps::steps))]
    pub fn catch_clause(
        &mut self,
        field: u8,
        catch_clause: &'a CatchClause,
    ) -> Result<(), AllocError>
        ensures { OnOk result (self.new ≡ self.old ++ catch_clause_items field catch_clause.now) }
    {
        self.open(field, Node::CatchClause)?;
        self.option_pat(0, Role::Binding, &catch_clause.param)?;
        self.block_stmt(1, &catch_clause.body)?;
        self.close()
    }

    #[cycle(walk)]
    #[tactic(auto, using(bundle_tree_listed::proofs::Steps::steps))]
    pub(crate) fn option_catch_clause(
        &mut self,
        field: u8,
        choice: &'a Option<CatchClause>,
    ) -> Result<(), AllocError>
        ensures { OnOk result
            (self.new ≡ self.old ++ option_catch_clause_items field choice.now) }
    {
        match choice {
            Some(catch_clause) => self.catch_clause(field, catch_clause),
            None => Ok(()),
        }
    }

    /// Adds the list of what a `for` loop begins with. Refused only where memory runs out.
    #[cycle(walk)]
    #[tactic(auto, using(bundle_tree_listed::proofs::Steps::steps))]
    pub fn for_init(&mut self, field: u8, for_init: &'a ForInit) -> Result<(), AllocError>
        ensures { OnOk result (self.new ≡ self.old ++ for_init_items field for_init.now) }
    {
        match for_init {
            ForInit::VarDecl(it) => self.var_decl(field, it),
            ForInit::Expr(it) => self.expr(field, it),
        }
    }

    #[cycle(walk)]
    #[tactic(auto, using(bundle_tree_listed::proofs::Steps::steps))]
    pub(crate) fn option_for_init(
        &mut self,
        field: u8,
        choice: &'a Option<ForInit>,
    ) -> Result<(), AllocError>
        ensures { OnOk result (self.new ≡ self.old ++ option_for_init_items field choice.now) }
    {
        match choice {
            Some(for_init) => self.for_init(field, for_init),
            None => Ok(()),
        }
    }

    /// Adds the list of what a `for` loop over values assigns to. Refused only where memory runs out.
    #[cycle(walk)]
    #[tactic(auto, using(bundle_tree_listed::proofs::Steps::steps))]
    pub fn for_head(&mut self, field: u8, for_head: &'a ForHead) -> Result<(), AllocError>
        ensures { OnOk result (self.new ≡ self.old ++ for_head_items field for_head.now) }
    {
        match for_head {
            ForHead::VarDecl(it) => self.var_decl(field, it),
            ForHead::Pat(it) => self.pat(field, Role::Reference, it),
        }
    }
}

//! Statements (ECMA-262, 14).

ghost use Rattle.std.specs.Prelude.{Some, None, length};
ghost use Rattle.bundle_syntax.specs.Item.{head_of};
ghost use Rattle.bundle_tree_parse.specs.declared.build.BuildError.TheVariants.{Form};
ghost use Rattle.bundle_tree_listed.specs.Tree.{block_stmt_items, catch_clause_items, each_stmt_items, each_switch_case_items, for_head_items, for_init_items, option_block_stmt_items, option_boxed_stmt_items, option_catch_clause_items, option_for_init_items, stmt_items, switch_case_items};
ghost use Rattle.bundle_tree_parse.specs.Built.{Builds, BuildsNode};
ghost use Rattle.bundle_tree_parse.specs.Sorts.{AStmt, APlainStmt, ABranchStmt, ALoop, AFor, ABlock, ACase, AHandler, AnInit, ALoopHead, holds};
ghost use Rattle.bundle_tree_parse.specs.Parse.{after_maybe, after_each, after_inside, taken};

use crate::build::{BuildError, Builder};
use bundle_syntax::{Node, Role};
use bundle_tree_ast::{BlockStmt, CatchClause, Expr, ForHead, ForInit, Pat, Stmt, SwitchCase};

impl<'p, 'a> Builder<'p, 'a> {
    #[cycle(build)]
    #[tactic(auto, using(crate::proofs::Parsing::building))]
    pub(crate) fn stmt(&mut self, room: usize, field: u8) -> Result<Stmt, BuildError>
        ensures { Builds result (stmt_items field)
            (taken room AStmt field self.old) self.old self.new }
    {
        let (node, room) = self.enter(room, field)?;
        let it = self.stmt_of(room, node);
        self.leave(it)
    }

    #[cycle(build)]
    #[tactic(auto, using(crate::proofs::Parsing::building))]
    pub(crate) fn stmt_of(&mut self, room: usize, node: Node<'a>) -> Result<Stmt, BuildError>
        ensures { BuildsNode result stmt_items (head_of node.entry)
            (after_inside (taken room) (holds AStmt (head_of node.entry)) self.old)
            self.old self.new }
    {
        match node {
            Node::BlockStmt => Ok(Stmt::BlockStmt(self.block_stmt_of(room, node)?)),
            Node::ClassDecl | Node::FnDecl | Node::VarDecl { .. } => Ok(Stmt::Decl(self.decl_of(
                room, node,
            )?)),
            Node::EmptyStmt => Ok(Stmt::EmptyStmt),
            Node::DebuggerStmt => Ok(Stmt::DebuggerStmt),
            Node::BreakStmt => {
                let label = self.option_ident_name(room, 0)?;
                Ok(Stmt::BreakStmt { label })
            }
            Node::ContinueStmt => {
                let label = self.option_ident_name(room, 0)?;
                Ok(Stmt::ContinueStmt { label })
            }
            Node::WhileStmt
            | Node::DoWhileStmt
            | Node::ForStmt
            | Node::ForInStmt
            | Node::ForOfStmt { .. } => self.loop_stmt_of(room, node),
            Node::IfStmt | Node::SwitchStmt | Node::TryStmt | Node::WithStmt | Node::LabeledStmt =>
                self.branch_stmt_of(room, node),
            _ => self.plain_stmt_of(room, node),
        }
    }

    #[cycle(build)]
    #[tactic(auto, using(crate::proofs::Parsing::building))]
    fn plain_stmt_of(&mut self, room: usize, node: Node<'a>) -> Result<Stmt, BuildError>
        ensures { BuildsNode result stmt_items (head_of node.entry)
            (after_inside (taken room) (holds APlainStmt (head_of node.entry)) self.old)
            self.old self.new }
    {
        match node {
            Node::ExprStmt => {
                let expr = self.expr(room, 0)?;
                Ok(Stmt::ExprStmt { expr })
            }
            Node::ReturnStmt => {
                let arg = self.option_expr(room, 0)?;
                Ok(Stmt::ReturnStmt { arg })
            }
            Node::ThrowStmt => {
                let arg = self.expr(room, 0)?;
                Ok(Stmt::ThrowStmt { arg })
            }
            _ => Err(BuildError::Form),
        }
    }

    #[cycle(build)]
    #[tactic(auto, using(crate::proofs::Parsing::building))]
    fn branch_stmt_of(&mut self, room: usize, node: Node<'a>) -> Result<Stmt, BuildError>
        ensures { BuildsNode result stmt_items (head_of node.entry)
            (after_inside (taken room) (holds ABranchStmt (head_of node.entry)) self.old)
            self.old self.new }
    {
        match node {
            Node::IfStmt => {
                let test = self.expr(room, 0)?;
                let cons = self.boxed_stmt(room, 1)?;
                let alt = self.option_boxed_stmt(room, 2)?;
                Ok(Stmt::IfStmt { test, cons, alt })
            }
            Node::SwitchStmt => {
                let discriminant = self.expr(room, 0)?;
                let cases = self.each_switch_case(room, 1)?;
                Ok(Stmt::SwitchStmt {
                    discriminant,
                    cases,
                })
            }
            Node::TryStmt => {
                let block = self.block_stmt(room, 0)?;
                let handler = self.option_catch_clause(room, 1)?;
                let finalizer = self.option_block_stmt(room, 2)?;
                Ok(Stmt::TryStmt {
                    block,
                    handler,
                    finalizer,
                })
            }
            Node::WithStmt => {
                let obj = self.expr(room, 0)?;
                let body = self.boxed_stmt(room, 1)?;
                Ok(Stmt::WithStmt { obj, body })
            }
            Node::LabeledStmt => {
                let label = self.ident_name(room, 0)?;
                let body = self.boxed_stmt(room, 1)?;
                Ok(Stmt::LabeledStmt { label, body })
            }
            _ => Err(BuildError::Form),
        }
    }

    #[cycle(build)]
    #[tactic(auto, using(crate::proofs::Parsing::building))]
    fn loop_stmt_of(&mut self, room: usize, node: Node<'a>) -> Result<Stmt, BuildError>
        ensures { BuildsNode result stmt_items (head_of node.entry)
            (after_inside (taken room) (holds ALoop (head_of node.entry)) self.old)
            self.old self.new }
    {
        match node {
            Node::WhileStmt => {
                let test = self.expr(room, 0)?;
                let body = self.boxed_stmt(room, 1)?;
                Ok(Stmt::WhileStmt { test, body })
            }
            Node::DoWhileStmt => {
                let body = self.boxed_stmt(room, 0)?;
                let test = self.expr(room, 1)?;
                Ok(Stmt::DoWhileStmt { body, test })
            }
            _ => self.for_stmt_of(room, node),
        }
    }

    #[cycle(build)]
    #[tactic(auto, using(crate::proofs::Parsing::building))]
    fn for_stmt_of(&mut self, room: usize, node: Node<'a>) -> Result<Stmt, BuildError>
        ensures { BuildsNode result stmt_items (head_of node.entry)
            (after_inside (taken room) (holds AFor (head_of node.entry)) self.old)
            self.old self.new }
    {
        match node {
            Node::ForStmt => {
                let init = self.option_for_init(room, 0)?;
                let test = self.option_expr(room, 1)?;
                let update = self.option_expr(room, 2)?;
                let body = self.boxed_stmt(room, 3)?;
                Ok(Stmt::ForStmt {
                    init,
                    test,
                    update,
                    body,
                })
            }
            Node::ForInStmt => {
                let left = self.for_head(room, 0)?;
                let right = self.expr(room, 1)?;
                let body = self.boxed_stmt(room, 2)?;
                Ok(Stmt::ForInStmt { left, right, body })
            }
            Node::ForOfStmt { is_await } => {
                let left = self.for_head(room, 1)?;
                let right = self.expr(room, 2)?;
                let body = self.boxed_stmt(room, 3)?;
                Ok(Stmt::ForOfStmt {
                    is_await,
                    left,
                    right,
                    body,
                })
            }
            _ => Err(BuildError::Form),
        }
    }

    #[cycle(build)]
    #[tactic(auto, using(crate::proofs::Parsing::building))]
    fn boxed_stmt(&mut self, room: usize, field: u8) -> Result<Box<Stmt>, BuildError>
        ensures { Builds result (λ made. stmt_items field made.value)
            (taken room AStmt field self.old) self.old self.new }
    {
        let it = self.stmt(room, field);
        self.boxed(it)
    }

    #[cycle(build)]
    #[tactic(auto, using(crate::proofs::Parsing::building))]
    fn option_boxed_stmt(&mut self, room: usize, field: u8) -> Result<Option<Box<Stmt>>, BuildError>
        ensures { Builds result (option_boxed_stmt_items field)
            (after_maybe (taken room AStmt field) field self.old) self.old self.new }
    {
        if self.is_in(field) {
            Ok(Some(self.boxed_stmt(room, field)?))
        } else {
            Ok(None)
        }
    }

    #[cycle(build)]
    #[tactic(auto, using(crate::proofs::Parsing::building))]
    fn each_stmt(&mut self, room: usize, field: u8) -> Result<Vec<Stmt>, BuildError>
        ensures { Builds result (each_stmt_items field)
            (after_each (taken room AStmt field) field (length self.old) self.old)
            self.old self.new }
    {
        let mut list = Vec::new(self.alloc);
        let most = self.most();
        for count in 0..most {
            if !self.is_in(field) {
                break;
            }
            let it = self.stmt(room, field)?;
            list.push(it)?;
        }
        list.shrink_to_fit();
        Ok(list)
    }

    #[cycle(build)]
    #[tactic(auto, using(crate::proofs::Parsing::building))]
    pub(crate) fn block_stmt(&mut self, room: usize, field: u8) -> Result<BlockStmt, BuildError>
        ensures { Builds result (block_stmt_items field)
            (taken room ABlock field self.old) self.old self.new }
    {
        let (node, room) = self.enter(room, field)?;
        let it = self.block_stmt_of(room, node);
        self.leave(it)
    }

    #[cycle(build)]
    #[tactic(auto, using(crate::proofs::Parsing::building))]
    pub(crate) fn block_stmt_of(
        &mut self,
        room: usize,
        node: Node<'a>,
    ) -> Result<BlockStmt, BuildError>
        ensures { BuildsNode result block_stmt_items (head_of node.entry)
            (after_inside (taken room) (holds ABlock (head_of node.entry)) self.old)
            self.old self.new }
    {
        match node {
            Node::BlockStmt => {
                let stmts = self.each_stmt(room, 0)?;
                Ok(BlockStmt { stmts })
            }
            _ => Err(BuildError::Form),
        }
    }

    #[cycle(build)]
    #[tactic(auto, using(crate::proofs::Parsing::building))]
    fn option_block_stmt(&mut self, room: usize, field: u8) -> Result<Option<BlockStmt>, BuildError>
        ensures { Builds result (option_block_stmt_items field)
            (after_maybe (taken room ABlock field) field self.old) self.old self.new }
    {
        if self.is_in(field) {
            Ok(Some(self.block_stmt(room, field)?))
        } else {
            Ok(None)
        }
    }

    #[cycle(build)]
    #[tactic(auto, using(crate::proofs::Parsing::building))]
    fn each_switch_case(&mut self, room: usize, field: u8) -> Result<Vec<SwitchCase>, BuildError>
        ensures { Builds result (each_switch_case_items field)
            (after_each (taken room ACase field) field (length self.old) self.old)
            self.old self.new }
    {
        let mut list = Vec::new(self.alloc);
        let most = self.most();
        for count in 0..most {
            if !self.is_in(field) {
                break;
            }
            let it = self.switch_case(room, field)?;
            list.push(it)?;
        }
        list.shrink_to_fit();
        Ok(list)
    }

    #[cycle(build)]
    #[tactic(auto, using(crate::proofs::Parsing::building))]
    pub(crate) fn switch_case(&mut self, room: usize, field: u8) -> Result<SwitchCase, BuildError>
        ensures { Builds result (switch_case_items field)
            (taken room ACase field self.old) self.old self.new }
    {
        let (node, room) = self.enter(room, field)?;
        let it = self.switch_case_of(room, node);
        self.leave(it)
    }

    #[cycle(build)]
    #[tactic(auto, using(crate::proofs::Parsing::building))]
    fn switch_case_of(&mut self, room: usize, node: Node<'a>) -> Result<SwitchCase, BuildError>
        ensures { BuildsNode result switch_case_items (head_of node.entry)
            (after_inside (taken room) (holds ACase (head_of node.entry)) self.old)
            self.old self.new }
    {
        match node {
            Node::SwitchCase => {
                let test = self.option_expr(room, 0)?;
                let cons = self.each_stmt(room, 1)?;
                Ok(SwitchCase { test, cons })
            }
            _ => Err(BuildError::Form),
        }
    }

    #[cycle(build)]
    #[tactic(auto, using(crate::proofs::Parsing::building))]
    fn option_catch_clause(
        &mut self,
        room: usize,
        field: u8,
    ) -> Result<Option<CatchClause>, BuildError>
        ensures { Builds result (option_catch_clause_items field)
            (after_maybe (taken room AHandler field) field self.old) self.old self.new }
    {
        if self.is_in(field) {
            Ok(Some(self.catch_clause(room, field)?))
        } else {
            Ok(None)
        }
    }

    #[cycle(build)]
    #[tactic(auto, using(crate::proofs::Parsing::building))]
    pub(crate) fn catch_clause(&mut self, room: usize, field: u8) -> Result<CatchClause, BuildError>
        ensures { Builds result (catch_clause_items field)
            (taken room AHandler field self.old) self.old self.new }
    {
        let (node, room) = self.enter(room, field)?;
        let it = self.catch_clause_of(room, node);
        self.leave(it)
    }

    #[cycle(build)]
    #[tactic(auto, using(crate::proofs::Parsing::building))]
    fn catch_clause_of(&mut self, room: usize, node: Node<'a>) -> Result<CatchClause, BuildError>
        ensures { BuildsNode result catch_clause_items (head_of node.entry)
            (after_inside (taken room) (holds AHandler (head_of node.entry)) self.old)
            self.old self.new }
    {
        match node {
            Node::CatchClause => {
                let param = self.option_pat(room, 0, Role::Binding)?;
                let body = self.block_stmt(room, 1)?;
                Ok(CatchClause { param, body })
            }
            _ => Err(BuildError::Form),
        }
    }

    #[cycle(build)]
    #[tactic(auto, using(crate::proofs::Parsing::building))]
    fn option_for_init(&mut self, room: usize, field: u8) -> Result<Option<ForInit>, BuildError>
        ensures { Builds result (option_for_init_items field)
            (after_maybe (taken room AnInit field) field self.old) self.old self.new }
    {
        if self.is_in(field) {
            Ok(Some(self.for_init(room, field)?))
        } else {
            Ok(None)
        }
    }

    #[cycle(build)]
    #[tactic(auto, using(crate::proofs::Parsing::building))]
    pub(crate) fn for_init(&mut self, room: usize, field: u8) -> Result<ForInit, BuildError>
        ensures { Builds result (for_init_items field)
            (taken room AnInit field self.old) self.old self.new }
    {
        if self.is_ident() {
            return Ok(ForInit::Expr(Expr::Ident(self.ident(field, Role::Reference)?)));
        }
        let (node, room) = self.enter(room, field)?;
        let it = self.for_init_of(room, node);
        self.leave(it)
    }

    #[cycle(build)]
    #[tactic(auto, using(crate::proofs::Parsing::building))]
    fn for_init_of(&mut self, room: usize, node: Node<'a>) -> Result<ForInit, BuildError>
        ensures { BuildsNode result for_init_items (head_of node.entry)
            (after_inside (taken room) (holds AnInit (head_of node.entry)) self.old)
            self.old self.new }
    {
        match node {
            Node::VarDecl { .. } => Ok(ForInit::VarDecl(self.var_decl_of(room, node)?)),
            _ => Ok(ForInit::Expr(self.expr_of(room, node)?)),
        }
    }

    #[cycle(build)]
    #[tactic(auto, using(crate::proofs::Parsing::building))]
    pub(crate) fn for_head(&mut self, room: usize, field: u8) -> Result<ForHead, BuildError>
        ensures { Builds result (for_head_items field)
            (taken room ALoopHead field self.old) self.old self.new }
    {
        if self.is_ident() {
            return Ok(ForHead::Pat(Pat::Expr(self.boxed_ident(field)?)));
        }
        let (node, room) = self.enter(room, field)?;
        let it = self.for_head_of(room, node);
        self.leave(it)
    }

    #[cycle(build)]
    #[tactic(auto, using(crate::proofs::Parsing::building))]
    fn for_head_of(&mut self, room: usize, node: Node<'a>) -> Result<ForHead, BuildError>
        ensures { BuildsNode result for_head_items (head_of node.entry)
            (after_inside (taken room) (holds ALoopHead (head_of node.entry)) self.old)
            self.old self.new }
    {
        match node {
            Node::VarDecl { .. } => Ok(ForHead::VarDecl(self.var_decl_of(room, node)?)),
            _ => Ok(ForHead::Pat(self.pat_of(room, node, Role::Reference)?)),
        }
    }
}

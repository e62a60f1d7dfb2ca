//! Expressions of operators (ECMA-262, 13.4 to 13.16).

ghost use Rattle.bundle_syntax.specs.Item.{head_of};
ghost use Rattle.bundle_tree_parse.specs.declared.build.BuildError.TheVariants.{Form};
ghost use Rattle.bundle_tree_listed.specs.Tree.{expr_items};
ghost use Rattle.bundle_tree_parse.specs.Built.{BuildsNode};
ghost use Rattle.bundle_tree_parse.specs.Sorts.{AnOperatorExpr, AWideOperatorExpr, holds};
ghost use Rattle.bundle_tree_parse.specs.Parse.{after_inside, taken};

use crate::build::{BuildError, Builder};
use bundle_syntax::Node;
use bundle_tree_ast::Expr;

impl<'p, 'a> Builder<'p, 'a> {
    #[cycle(build)]
    #[tactic(auto, using(crate::proofs::Parsing::building))]
    pub(crate) fn operator_expr_of(
        &mut self,
        room: usize,
        node: Node<'a>,
    ) -> Result<Expr, BuildError>
        ensures { BuildsNode result expr_items (head_of node.entry)
            (after_inside (taken room) (holds AnOperatorExpr (head_of node.entry)) self.old)
            self.old self.new }
    {
        match node {
            Node::UnaryExpr { op } => {
                let arg = self.boxed_expr(room, 1)?;
                Ok(Expr::UnaryExpr { op, arg })
            }
            Node::UpdateExpr { op, prefix } => {
                let arg = self.boxed_expr(room, 2)?;
                Ok(Expr::UpdateExpr { op, prefix, arg })
            }
            Node::YieldExpr { delegate } => {
                let arg = self.option_boxed_expr(room, 0)?;
                Ok(Expr::YieldExpr { arg, delegate })
            }
            Node::AwaitExpr => {
                let arg = self.boxed_expr(room, 0)?;
                Ok(Expr::AwaitExpr { arg })
            }
            _ => self.wide_operator_expr_of(room, node),
        }
    }

    // An operator with several operands.
    #[cycle(build)]
    #[tactic(auto, using(crate::proofs::Parsing::building))]
    fn wide_operator_expr_of(&mut self, room: usize, node: Node<'a>) -> Result<Expr, BuildError>
        ensures { BuildsNode result expr_items (head_of node.entry)
            (after_inside (taken room) (holds AWideOperatorExpr (head_of node.entry)) self.old)
            self.old self.new }
    {
        match node {
            Node::BinExpr { op } => {
                let left = self.boxed_expr(room, 1)?;
                let right = self.boxed_expr(room, 2)?;
                Ok(Expr::BinExpr { op, left, right })
            }
            Node::AssignExpr { op } => {
                let left = self.assign_target(room, 1)?;
                let right = self.boxed_expr(room, 2)?;
                Ok(Expr::AssignExpr { op, left, right })
            }
            Node::CondExpr => {
                let test = self.boxed_expr(room, 0)?;
                let cons = self.boxed_expr(room, 1)?;
                let alt = self.boxed_expr(room, 2)?;
                Ok(Expr::CondExpr { test, cons, alt })
            }
            _ => Err(BuildError::Form),
        }
    }
}

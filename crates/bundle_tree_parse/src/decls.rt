//! Declarations (ECMA-262, 14.3, 15.2 and 15.7).

ghost use Rattle.std.specs.Prelude.{length};
ghost use Rattle.bundle_syntax.specs.Item.{head_of};
ghost use Rattle.bundle_tree_parse.specs.declared.build.BuildError.TheVariants.{Form};
ghost use Rattle.bundle_tree_listed.specs.Tree.{decl_items, each_var_declarator_items, var_decl_items, var_declarator_items};
ghost use Rattle.bundle_tree_parse.specs.Built.{Builds, BuildsNode};
ghost use Rattle.bundle_tree_parse.specs.Sorts.{ADecl, AVarDecl, ADeclarator, holds};
ghost use Rattle.bundle_tree_parse.specs.Parse.{after_each, after_inside, taken};

use crate::build::{BuildError, Builder};
use bundle_syntax::{Node, Role};
use bundle_tree_ast::{Decl, VarDecl, VarDeclarator};

impl<'p, 'a> Builder<'p, 'a> {
    #[tactic(auto, using(crate::proofs::Parsing::building))]
    pub(crate) fn decl(&mut self, room: usize, field: u8) -> Result<Decl, BuildError>
        ensures { Builds result (decl_items field)
            (taken room ADecl field self.old) self.old self.new }
    {
        let (node, room) = self.enter(room, field)?;
        let it = self.decl_of(room, node);
        self.leave(it)
    }

    #[cycle(build)]
    #[tactic(auto, using(crate::proofs::Parsing::building))]
    pub(crate) fn decl_of(&mut self, room: usize, node: Node<'a>) -> Result<Decl, BuildError>
        ensures { BuildsNode result decl_items (head_of node.entry)
            (after_inside (taken room) (holds ADecl (head_of node.entry)) self.old)
            self.old self.new }
    {
        match node {
            Node::ClassDecl => {
                let ident = self.ident(0, Role::Binding)?;
                let class = self.class(room, 1)?;
                Ok(Decl::ClassDecl { ident, class })
            }
            Node::FnDecl => {
                let ident = self.ident(0, Role::Binding)?;
                let function = self.function(room, 1)?;
                Ok(Decl::FnDecl { ident, function })
            }
            _ => Ok(Decl::VarDecl(self.var_decl_of(room, node)?)),
        }
    }

    #[cycle(build)]
    #[tactic(auto, using(crate::proofs::Parsing::building))]
    pub(crate) fn var_decl_of(&mut self, room: usize, node: Node<'a>) -> Result<VarDecl, BuildError>
        ensures { BuildsNode result var_decl_items (head_of node.entry)
            (after_inside (taken room) (holds AVarDecl (head_of node.entry)) self.old)
            self.old self.new }
    {
        match node {
            Node::VarDecl { kind, meta } => {
                let decls = self.each_var_declarator(room, 1)?;
                Ok(VarDecl {
                    kind,
                    decls,
                    meta: *meta,
                })
            }
            _ => Err(BuildError::Form),
        }
    }

    #[cycle(build)]
    #[tactic(auto, using(crate::proofs::Parsing::building))]
    fn each_var_declarator(
        &mut self,
        room: usize,
        field: u8,
    ) -> Result<Vec<VarDeclarator>, BuildError>
        ensures { Builds result (each_var_declarator_items field)
            (after_each (taken room ADeclarator field) field (length self.old) self.old)
            self.old self.new }
    {
        let mut list = Vec::new(self.alloc);
        let most = self.most();
        for count in 0..most {
            if !self.is_in(field) {
                break;
            }
            let it = self.var_declarator(room, field)?;
            list.push(it)?;
        }
        list.shrink_to_fit();
        Ok(list)
    }

    #[cycle(build)]
    #[tactic(auto, using(crate::proofs::Parsing::building))]
    pub(crate) fn var_declarator(
        &mut self,
        room: usize,
        field: u8,
    ) -> Result<VarDeclarator, BuildError>
        ensures { Builds result (var_declarator_items field)
            (taken room ADeclarator field self.old) self.old self.new }
    {
        let (node, room) = self.enter(room, field)?;
        let it = self.var_declarator_of(room, node);
        self.leave(it)
    }

    #[cycle(build)]
    #[tactic(auto, using(crate::proofs::Parsing::building))]
    fn var_declarator_of(
        &mut self,
        room: usize,
        node: Node<'a>,
    ) -> Result<VarDeclarator, BuildError>
        ensures { BuildsNode result var_declarator_items (head_of node.entry)
            (after_inside (taken room) (holds ADeclarator (head_of node.entry)) self.old)
            self.old self.new }
    {
        match node {
            Node::VarDeclarator => {
                let name = self.pat(room, 0, Role::Binding)?;
                let init = self.option_expr(room, 1)?;
                Ok(VarDeclarator { name, init })
            }
            _ => Err(BuildError::Form),
        }
    }
}

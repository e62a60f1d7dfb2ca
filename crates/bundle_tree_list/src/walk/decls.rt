//! Declarations (ECMA-262, 14.3, 15.2 and 15.7).

ghost use Rattle.std.specs.Prelude.{◌≡◌, ◌++◌, OnOk};
ghost use Rattle.bundle_tree_listed.specs.Tree.{decl_items, each_var_declarator_items, var_decl_items, var_declarator_items};

use crate::walk::Walk;
use bundle_syntax::{Node, Role};
use bundle_tree_ast::{Decl, VarDecl, VarDeclarator};
use std::alloc::AllocError;

impl<'a> Walk<'a> {
    /// Adds the list of a declaration. Refused only where memory runs out.
    #[cycle(walk)]
    #[tactic(auto, using(bundle_tree_listed::proofs::Steps::steps))]
    pub fn decl(&mut self, field: u8, decl: &'a Decl) -> Result<(), AllocError>
        ensures { OnOk result (self.new ≡ self.old ++ decl_items field decl.now) }
    {
        match decl {
            Decl::ClassDecl { ident, class } => {
                self.open(field, Node::ClassDecl)?;
                self.ident(0, Role::Binding, ident)?;
                self.class(1, class)?;
                self.close()
            }
            Decl::FnDecl { ident, function } => {
                self.open(field, Node::FnDecl)?;
                self.ident(0, Role::Binding, ident)?;
                self.function(1, function)?;
                self.close()
            }
            Decl::VarDecl(it) => self.var_decl(field, it),
        }
    }

    /// Adds the list of a declaration of variables. Refused only where memory runs out.
    #[cycle(walk)]
    #[tactic(auto, using(bundle_tree_listed::proofs::Steps::steps))]
    pub fn var_decl(&mut self, field: u8, var_decl: &'a VarDecl) -> Result<(), AllocError>
        ensures { OnOk result (self.new ≡ self.old ++ var_decl_items field var_decl.now) }
    {
        self.open(
            field,
            Node::VarDecl {
                kind: var_decl.kind,
                meta: &var_decl.meta,
            },
        )?;
        self.each_var_declarator(1, &var_decl.decls)?;
        self.close()
    }

    /// Adds the list of one variable of a declaration. Refused only where memory runs out.
    #[cycle(walk)]
    #[tactic(auto, using(bundle_tree_listed::proofs::Steps::steps))]
    pub fn var_declarator(
        &mut self,
        field: u8,
        var_declarator: &'a VarDeclarator,
    ) -> Result<(), AllocError>
        ensures { OnOk result
            (self.new ≡ self.old ++ var_declarator_items field var_declarator.now) }
    {
        self.open(field, Node::VarDeclarator)?;
        self.pat(0, Role::Binding, &var_declarator.name)?;
        self.option_expr(1, &var_declarator.init)?;
        self.close()
    }

    #[cycle(walk)]
    #[tactic(auto, using(bundle_tree_listed::proofs::Rows::rows))]
    pub(crate) fn each_var_declarator(
        &mut self,
        field: u8,
        list: &'a Vec<VarDeclarator>,
    ) -> Result<(), AllocError>
        ensures { OnOk result (self.new ≡ self.old ++ each_var_declarator_items field list.now) }
    {
        for element in list {
            self.var_declarator(field, element)?;
        }
        Ok(())
    }
}

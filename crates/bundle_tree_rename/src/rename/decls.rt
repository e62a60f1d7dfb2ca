//! Declarations (ECMA-262, 14.3, 15.2 and 15.7).

ghost use Rattle.std.specs.Prelude.{IfOk};
ghost use Rattle.bundle_tree_listed.specs.Tree.{decl_items, each_var_declarator_items, var_decl_items, var_declarator_items};
ghost use Rattle.bundle_tree_places.specs.Edits.{Anywhere};
ghost use Rattle.bundle_tree_rename.specs.Renamed.{Renamed};

use crate::rename::Rename;
use bundle_tree_ast::{Decl, VarDecl, VarDeclarator};
use std::alloc::AllocError;

impl<'r, 'n> Rename<'r, 'n> {
    #[cycle(rename)]
    pub fn decl(&mut self, decl: &mut Decl) -> Result<(), AllocError>
        ensures { IfOk result (λ done.
            Renamed Anywhere decl_items self.old decl.old decl.new self.new) }
    {
        match decl {
            Decl::ClassDecl { ident, class } => {
                self.ident(ident)?;
                self.class(class)
            }
            Decl::FnDecl { ident, function } => {
                self.ident(ident)?;
                self.function(function)
            }
            Decl::VarDecl(it) => self.var_decl(it),
        }
    }

    #[cycle(rename)]
    pub fn var_decl(&mut self, var_decl: &mut VarDecl) -> Result<(), AllocError>
        ensures { IfOk result (λ done.
            Renamed Anywhere var_decl_items self.old var_decl.old var_decl.new self.new) }
    {
        self.each_var_declarator(&mut var_decl.decls)
    }

    #[cycle(rename)]
    pub fn var_declarator(&mut self, var_declarator: &mut VarDeclarator) -> Result<(), AllocError>
        ensures { IfOk result (λ done.
            Renamed Anywhere var_declarator_items self.old var_declarator.old var_declarator.new
            self.new) }
    {
        self.pat(&mut var_declarator.name)?;
        self.option_expr(&mut var_declarator.init)
    }

    #[cycle(rename)]
    pub(crate) fn each_var_declarator(
        &mut self,
        list: &mut Vec<VarDeclarator>,
    ) -> Result<(), AllocError>
        ensures { IfOk result (λ done.
            Renamed Anywhere each_var_declarator_items self.old list.old list.new self.new) }
    {
        for index in 0..list.len() {
            self.var_declarator(&mut list[index])?;
        }
        Ok(())
    }
}

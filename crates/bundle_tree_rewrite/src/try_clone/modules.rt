//! Modules, imports and exports (ECMA-262, 16.2).

ghost use Rattle.std.specs.Prelude.{refl};
ghost use Rattle.bundle_syntax.specs.declared.piece.Role.TheVariants.{Word};
ghost use Rattle.bundle_tree_listed.specs.Tree.{default_decl_items, export_specifier_items, import_specifier_items, module_decl_items, module_export_name_items, module_item_items, module_items};
ghost use Rattle.bundle_tree_parse.proofs.Trees.{default_in, export_in, import_in, inner_in, module_decl_in, module_in, module_item_in};
ghost use Rattle.bundle_tree_rewrite.specs.Copies.{IsCopyBy, IsNameCopyBy};
ghost use Rattle.bundle_tree_rewrite.specs.Copying.{copy_by, default_moves, export_copy, export_name_copy, import_moves, module_decl_moves, module_item_moves};

use crate::try_clone::TryClone;
use bundle_syntax::{Node, Role};
use bundle_tree_ast::{
    DefaultDecl, ExportSpecifier, ImportSpecifier, Module, ModuleDecl, ModuleExportName, ModuleItem,
};
use bundle_tree_list::Walk;
use std::alloc::AllocError;

impl TryClone for Module {
    ghost is_copy = { IsCopyBy module_items };

    fn list<'a>(&'a self, walk: &mut Walk<'a>) -> Result<(), AllocError> {
        walk.open(0, Node::Module)?;
        walk.each_module_item(0, &self.body)?;
        walk.close()
    }

    ghost stands = { module_in 0 };

    ghost same = { copy_by module_items (λ field it. refl) };
}

impl TryClone for ModuleItem {
    ghost is_copy = { IsCopyBy module_item_items };

    fn list<'a>(&'a self, walk: &mut Walk<'a>) -> Result<(), AllocError> {
        walk.module_item(0, self)
    }

    ghost stands = { module_item_in 0 };

    ghost same = { copy_by module_item_items module_item_moves };
}

impl TryClone for ModuleDecl {
    ghost is_copy = { IsCopyBy module_decl_items };

    fn list<'a>(&'a self, walk: &mut Walk<'a>) -> Result<(), AllocError> {
        walk.module_decl(0, self)
    }

    ghost stands = { module_decl_in 0 };

    ghost same = { copy_by module_decl_items module_decl_moves };
}

impl TryClone for DefaultDecl {
    ghost is_copy = { IsCopyBy default_decl_items };

    fn list<'a>(&'a self, walk: &mut Walk<'a>) -> Result<(), AllocError> {
        walk.default_decl(0, self)
    }

    ghost stands = { default_in 0 };

    ghost same = { copy_by default_decl_items default_moves };
}

impl TryClone for ImportSpecifier {
    ghost is_copy = { IsCopyBy import_specifier_items };

    fn list<'a>(&'a self, walk: &mut Walk<'a>) -> Result<(), AllocError> {
        walk.import_specifier(0, self)
    }

    ghost stands = { import_in 0 };

    ghost same = { copy_by import_specifier_items import_moves };
}

impl TryClone for ExportSpecifier {
    ghost is_copy = { IsNameCopyBy export_specifier_items };

    fn list<'a>(&'a self, walk: &mut Walk<'a>) -> Result<(), AllocError> {
        walk.export_specifier(0, Role::Word, self)
    }

    ghost stands = { export_in Word 0 };

    ghost same = { export_copy };
}

impl TryClone for ModuleExportName {
    ghost is_copy = { IsNameCopyBy module_export_name_items };

    fn list<'a>(&'a self, walk: &mut Walk<'a>) -> Result<(), AllocError> {
        walk.module_export_name(0, Role::Word, self)
    }

    ghost stands = { inner_in Word 0 };

    ghost same = { export_name_copy };
}

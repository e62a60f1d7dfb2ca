//! Modules, imports and exports (ECMA-262, 16.2).

ghost use Rattle.bundle_syntax.specs.declared.piece.Role.TheVariants.{Word};
ghost use Rattle.bundle_tree_listed.specs.Tree.{default_decl_items, export_specifier_items, import_specifier_items, module_decl_items, module_export_name_items, module_item_items, module_items};
ghost use Rattle.bundle_tree_parse.specs.Sorts.{ADefault, AModule, AModuleDecl, AModuleName, AnExport, AnImport, AnItem};

use crate::build::{BuildError, Builder};
use crate::from_list::FromList;
use bundle_syntax::Role;
use bundle_tree_ast::{
    DefaultDecl, ExportSpecifier, ImportSpecifier, Module, ModuleDecl, ModuleExportName, ModuleItem,
};

impl FromList for Module {
    ghost sort = { AModule };

    ghost items = { module_items };

    fn take<'p, 'a>(
        builder: &mut Builder<'p, 'a>,
        room: usize,
        field: u8,
    ) -> Result<Module, BuildError> {
        builder.module(room, field)
    }
}

impl FromList for ModuleItem {
    ghost sort = { AnItem };

    ghost items = { module_item_items };

    fn take<'p, 'a>(
        builder: &mut Builder<'p, 'a>,
        room: usize,
        field: u8,
    ) -> Result<ModuleItem, BuildError> {
        builder.module_item(room, field)
    }
}

impl FromList for ModuleDecl {
    ghost sort = { AModuleDecl };

    ghost items = { module_decl_items };

    #[tactic(auto, using(crate::proofs::Parsing::building))]
    fn take<'p, 'a>(
        builder: &mut Builder<'p, 'a>,
        room: usize,
        field: u8,
    ) -> Result<ModuleDecl, BuildError> {
        let (node, room) = builder.enter(room, field)?;
        let it = builder.module_decl_of(room, node);
        builder.leave(it)
    }
}

impl FromList for DefaultDecl {
    ghost sort = { ADefault };

    ghost items = { default_decl_items };

    fn take<'p, 'a>(
        builder: &mut Builder<'p, 'a>,
        room: usize,
        field: u8,
    ) -> Result<DefaultDecl, BuildError> {
        builder.default_decl(room, field)
    }
}

impl FromList for ImportSpecifier {
    ghost sort = { AnImport };

    ghost items = { import_specifier_items };

    fn take<'p, 'a>(
        builder: &mut Builder<'p, 'a>,
        room: usize,
        field: u8,
    ) -> Result<ImportSpecifier, BuildError> {
        builder.import_specifier(room, field)
    }
}

impl FromList for ExportSpecifier {
    ghost sort = { AnExport Word };

    ghost items = { export_specifier_items Word };

    fn take<'p, 'a>(
        builder: &mut Builder<'p, 'a>,
        room: usize,
        field: u8,
    ) -> Result<ExportSpecifier, BuildError> {
        builder.export_specifier(room, field, Role::Word)
    }
}

impl FromList for ModuleExportName {
    ghost sort = { AModuleName Word };

    ghost items = { module_export_name_items Word };

    fn take<'p, 'a>(
        builder: &mut Builder<'p, 'a>,
        room: usize,
        field: u8,
    ) -> Result<ModuleExportName, BuildError> {
        builder.module_export_name(room, field, Role::Word)
    }
}

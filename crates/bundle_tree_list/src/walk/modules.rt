//! Modules, imports and exports (ECMA-262, 16.2).

ghost use Rattle.std.specs.Prelude.{◌≡◌, ◌++◌, OnOk};
ghost use Rattle.std.specs.List.{flat_map};
ghost use Rattle.bundle_tree_listed.specs.Tree.{default_decl_items, export_specifier_items, import_specifier_items, module_decl_items, module_export_name_items, module_item_items, option_items};

use crate::walk::{Walk, role_of_names};
use bundle_syntax::{Node, Role};
use bundle_tree_ast::{
    DefaultDecl, ExportSpecifier, Ident, ImportSpecifier, ModuleDecl, ModuleExportName, ModuleItem,
    Stmt, Str,
};
use std::alloc::AllocError;

impl<'a> Walk<'a> {
    /// Adds the list of an item of a module. Refused only where memory runs out.
    pub fn module_item(&mut self, field: u8, module_item: &'a ModuleItem) -> Result<(), AllocError>
        ensures { OnOk result (self.new ≡ self.old ++ module_item_items field module_item.now) }
    {
        match module_item {
            ModuleItem::ModuleDecl(it) => self.module_decl(field, it),
            ModuleItem::Stmt(it) => self.stmt(field, it),
        }
    }

    /// Adds the list of an import or an export. Refused only where memory runs out.
    pub fn module_decl(&mut self, field: u8, module_decl: &'a ModuleDecl) -> Result<(), AllocError>
        ensures { OnOk result (self.new ≡ self.old ++ module_decl_items field module_decl.now) }
    {
        match module_decl {
            ModuleDecl::ImportDecl {
                specifiers,
                src,
                meta,
            } => {
                self.open(field, Node::ImportDecl { meta })?;
                self.each_import_specifier(0, specifiers)?;
                self.str(1, src)?;
                self.close()
            }
            ModuleDecl::ExportDecl { decl } => {
                self.open(field, Node::ExportDecl)?;
                self.decl(0, decl)?;
                self.close()
            }
            ModuleDecl::NamedExport {
                specifiers,
                src,
                meta,
            } => {
                let role = role_of_names(src);
                self.open(field, Node::NamedExport { meta })?;
                self.each_export_specifier(0, role, specifiers)?;
                self.option_str(1, src)?;
                self.close()
            }
            ModuleDecl::ExportDefaultDecl { decl } => {
                self.open(field, Node::ExportDefaultDecl)?;
                self.default_decl(0, decl)?;
                self.close()
            }
            ModuleDecl::ExportDefaultExpr { expr } => {
                self.open(field, Node::ExportDefaultExpr)?;
                self.expr(0, expr)?;
                self.close()
            }
            ModuleDecl::ExportAll { src, meta } => {
                self.open(field, Node::ExportAll { meta })?;
                self.str(0, src)?;
                self.close()
            }
        }
    }

    /// Adds the list of a specifier of an import. Refused only where memory runs out.
    pub fn import_specifier(
        &mut self,
        field: u8,
        import_specifier: &'a ImportSpecifier,
    ) -> Result<(), AllocError>
        ensures { OnOk result
            (self.new ≡ self.old ++ import_specifier_items field import_specifier.now) }
    {
        match import_specifier {
            ImportSpecifier::ImportNamedSpecifier { local, imported } => {
                self.open(field, Node::ImportNamedSpecifier)?;
                self.ident(0, Role::Binding, local)?;
                self.option_module_export_name(1, Role::Word, imported)?;
                self.close()
            }
            ImportSpecifier::ImportDefaultSpecifier { local } => {
                self.open(field, Node::ImportDefaultSpecifier)?;
                self.ident(0, Role::Binding, local)?;
                self.close()
            }
            ImportSpecifier::ImportStarAsSpecifier { local } => {
                self.open(field, Node::ImportStarAsSpecifier)?;
                self.ident(0, Role::Binding, local)?;
                self.close()
            }
        }
    }

    #[tactic(auto, using(bundle_tree_listed::proofs::Rows::rows))]
    pub(crate) fn each_import_specifier(
        &mut self,
        field: u8,
        list: &'a Vec<ImportSpecifier>,
    ) -> Result<(), AllocError>
        ensures { OnOk result
            (self.new ≡ self.old ++ flat_map (import_specifier_items field) list.now.items) }
    {
        for element in list {
            self.import_specifier(field, element)?;
        }
        Ok(())
    }

    /// Adds the list of a specifier of an export list, in which its first name has this role. Refused only where memory runs out.
    pub fn export_specifier(
        &mut self,
        field: u8,
        role: Role,
        export_specifier: &'a ExportSpecifier,
    ) -> Result<(), AllocError>
        ensures { OnOk result
            (self.new ≡ self.old ++ export_specifier_items role field export_specifier.now) }
    {
        match export_specifier {
            ExportSpecifier::ExportNamespaceSpecifier { name } => {
                self.open(field, Node::ExportNamespaceSpecifier)?;
                self.module_export_name(0, Role::Word, name)?;
                self.close()
            }
            ExportSpecifier::ExportNamedSpecifier { orig, exported } => {
                self.open(field, Node::ExportNamedSpecifier)?;
                self.module_export_name(0, role, orig)?;
                self.option_module_export_name(1, Role::Word, exported)?;
                self.close()
            }
        }
    }

    #[tactic(auto, using(bundle_tree_listed::proofs::Rows::rows))]
    pub(crate) fn each_export_specifier(
        &mut self,
        field: u8,
        role: Role,
        list: &'a Vec<ExportSpecifier>,
    ) -> Result<(), AllocError>
        ensures { OnOk result
            (self.new ≡ self.old ++ flat_map (export_specifier_items role field) list.now.items) }
    {
        for element in list {
            self.export_specifier(field, role, element)?;
        }
        Ok(())
    }

    /// Adds the list of a name of an import or export, in this role. Refused only where memory runs out.
    pub fn module_export_name(
        &mut self,
        field: u8,
        role: Role,
        module_export_name: &'a ModuleExportName,
    ) -> Result<(), AllocError>
        ensures { OnOk result
            (self.new ≡ self.old ++ module_export_name_items role field module_export_name.now) }
    {
        match module_export_name {
            ModuleExportName::Ident(it) => self.ident(field, role, it),
            ModuleExportName::Str(it) => self.str(field, it),
        }
    }

    pub(crate) fn option_module_export_name(
        &mut self,
        field: u8,
        role: Role,
        choice: &'a Option<ModuleExportName>,
    ) -> Result<(), AllocError>
        ensures { OnOk result
            (self.new
            ≡ self.old ++ option_items (module_export_name_items role field) choice.now) }
    {
        match choice {
            Some(module_export_name) => self.module_export_name(field, role, module_export_name),
            None => Ok(()),
        }
    }

    /// Adds the list of a default function or class. Refused only where memory runs out.
    pub fn default_decl(
        &mut self,
        field: u8,
        default_decl: &'a DefaultDecl,
    ) -> Result<(), AllocError>
        ensures { OnOk result (self.new ≡ self.old ++ default_decl_items field default_decl.now) }
    {
        match default_decl {
            DefaultDecl::ClassExpr { ident, class } => {
                self.open(field, Node::ClassExpr)?;
                self.option_ident(0, Role::Binding, ident)?;
                self.class(1, class)?;
                self.close()
            }
            DefaultDecl::FnExpr { ident, function } => {
                self.open(field, Node::FnExpr)?;
                self.option_ident(0, Role::Binding, ident)?;
                self.function(1, function)?;
                self.close()
            }
        }
    }
}

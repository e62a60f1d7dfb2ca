//! Modules, imports and exports (ECMA-262, 16.2).

ghost use Rattle.std.specs.Prelude.{◌≡◌, IfOk};
ghost use Rattle.bundle_syntax.specs.declared.specifier.ExportSpecifier.TheVariants.{ExportNamedSpecifier};
ghost use Rattle.bundle_tree_listed.specs.Tree.{default_decl_items, export_specifier_items, import_specifier_items, module_decl_items, module_item_items, module_items, role_of_names};
ghost use Rattle.bundle_tree_places.specs.Edits.{Anywhere};
ghost use Rattle.bundle_tree_rename.specs.Parts.{each_export_specifier_items, each_import_specifier_items, each_module_item_items, option_word_items, role_of, second_name_items};
ghost use Rattle.bundle_tree_rename.specs.Renamed.{Renamed};

use crate::rename::Rename;
use bundle_tree_ast::{
    DefaultDecl, ExportSpecifier, Ident, ImportSpecifier, Module, ModuleDecl, ModuleExportName,
    ModuleItem, Str,
};
use bundle_tree_names::SyntaxContext;
use std::alloc::AllocError;

// Whether an export list names what stands in this module, and not in the one that `from` gives.
fn are_names_own(src: &Option<Str>) -> bool
    ensures { role_of result ≡ role_of_names src.now }
{
    match src {
        Some(_) => false,
        None => true,
    }
}

impl<'r, 'n> Rename<'r, 'n> {
    pub fn module(&mut self, tree: &mut Module) -> Result<(), AllocError>
        ensures { IfOk result (λ done.
            Renamed Anywhere module_items self.old tree.old tree.new self.new) }
    {
        self.each_module_item(&mut tree.body)
    }

    pub(crate) fn each_module_item(&mut self, items: &mut Vec<ModuleItem>) -> Result<(), AllocError>
        ensures { IfOk result (λ done.
            Renamed Anywhere each_module_item_items self.old items.old items.new self.new) }
    {
        for index in 0..items.len() {
            self.module_item(&mut items[index])?;
        }
        Ok(())
    }

    pub fn module_item(&mut self, module_item: &mut ModuleItem) -> Result<(), AllocError>
        ensures { IfOk result (λ done.
            Renamed Anywhere module_item_items self.old module_item.old module_item.new
            self.new) }
    {
        match module_item {
            ModuleItem::ModuleDecl(it) => self.module_decl(it),
            ModuleItem::Stmt(it) => self.stmt(it),
        }
    }

    pub fn module_decl(&mut self, module_decl: &mut ModuleDecl) -> Result<(), AllocError>
        ensures { IfOk result (λ done.
            Renamed Anywhere module_decl_items self.old module_decl.old module_decl.new
            self.new) }
    {
        match module_decl {
            ModuleDecl::ImportDecl { specifiers, .. } => self.each_import_specifier(specifiers),
            ModuleDecl::ExportDecl { decl } => self.decl(decl),
            ModuleDecl::NamedExport {
                specifiers,
                src,
                ..
            } => {
                let are_own = are_names_own(src);
                self.each_export_specifier(are_own, specifiers)
            }
            ModuleDecl::ExportDefaultDecl { decl } => self.default_decl(decl),
            ModuleDecl::ExportDefaultExpr { expr } => self.expr(expr),
            ModuleDecl::ExportAll { .. } => Ok(()),
        }
    }

    pub fn default_decl(&mut self, default_decl: &mut DefaultDecl) -> Result<(), AllocError>
        ensures { IfOk result (λ done.
            Renamed Anywhere default_decl_items self.old default_decl.old default_decl.new
            self.new) }
    {
        match default_decl {
            DefaultDecl::ClassExpr { ident, class } => {
                self.option_ident(ident)?;
                self.class(class)
            }
            DefaultDecl::FnExpr { ident, function } => {
                self.option_ident(ident)?;
                self.function(function)
            }
        }
    }

    pub(crate) fn each_import_specifier(
        &mut self,
        list: &mut Vec<ImportSpecifier>,
    ) -> Result<(), AllocError>
        ensures { IfOk result (λ done.
            Renamed Anywhere each_import_specifier_items self.old list.old list.new self.new) }
    {
        for index in 0..list.len() {
            self.import_specifier(&mut list[index])?;
        }
        Ok(())
    }

    pub fn import_specifier(
        &mut self,
        import_specifier: &mut ImportSpecifier,
    ) -> Result<(), AllocError>
        ensures { IfOk result (λ done.
            Renamed Anywhere import_specifier_items self.old import_specifier.old
            import_specifier.new self.new) }
    {
        match import_specifier {
            ImportSpecifier::ImportNamedSpecifier { local, imported } => {
                let is_spelled_out = self.spells_out(local);
                self.second_name(imported, is_spelled_out, local)?;
                self.ident(local)
            }
            ImportSpecifier::ImportDefaultSpecifier { local } => self.ident(local),
            ImportSpecifier::ImportStarAsSpecifier { local } => self.ident(local),
        }
    }

    pub(crate) fn each_export_specifier(
        &mut self,
        are_own: bool,
        list: &mut Vec<ExportSpecifier>,
    ) -> Result<(), AllocError>
        ensures { IfOk result (λ done.
            Renamed Anywhere (each_export_specifier_items (role_of are_own)) self.old list.old
            list.new self.new) }
    {
        for index in 0..list.len() {
            self.export_specifier(are_own, &mut list[index])?;
        }
        Ok(())
    }

    // An export of a name of this module, or else of the module that `from` gives, which stays.
    pub(crate) fn export_specifier(
        &mut self,
        is_own: bool,
        export_specifier: &mut ExportSpecifier,
    ) -> Result<(), AllocError>
        ensures { IfOk result (λ done.
            Renamed Anywhere (export_specifier_items (role_of is_own)) self.old
            export_specifier.old export_specifier.new self.new) }
    {
        match export_specifier {
            ExportSpecifier::ExportNamespaceSpecifier { .. } => Ok(()),
            ExportSpecifier::ExportNamedSpecifier { orig, exported } => {
                self.export_named(is_own, orig, exported)
            }
        }
    }

    fn export_named(
        &mut self,
        is_own: bool,
        orig: &mut ModuleExportName,
        exported: &mut Option<ModuleExportName>,
    ) -> Result<(), AllocError>
        ensures { IfOk result (λ done.
            Renamed Anywhere (export_specifier_items (role_of is_own)) self.old
            (ExportNamedSpecifier orig.old exported.old)
            (ExportNamedSpecifier orig.new exported.new) self.new) }
    {
        match orig {
            ModuleExportName::Ident(local) => {
                if is_own {
                    let is_spelled_out = self.spells_out(local);
                    self.second_name(exported, is_spelled_out, local)?;
                    self.ident(local)
                } else {
                    Ok(())
                }
            }
            ModuleExportName::Str(_) => Ok(()),
        }
    }

    // The other name of a specifier; where it had none, what was its only name if that is spelled out.
    fn second_name(
        &self,
        choice: &mut Option<ModuleExportName>,
        is_spelled_out: bool,
        only: &Ident,
    ) -> Result<(), AllocError>
        ensures { IfOk result (λ done.
            option_word_items 1 choice.new
            ≡ second_name_items choice.old is_spelled_out only.now) }
    {
        match choice {
            Some(_) => Ok(()),
            None if is_spelled_out => {
                let sym = String::from_str(self.alloc, only.sym.as_str())?;
                let ctxt = SyntaxContext::empty();
                *choice = Some(ModuleExportName::Ident(Ident { sym, ctxt }));
                Ok(())
            }
            None => Ok(()),
        }
    }
}

//! The identifiers of a module that denote nothing in it: names of other modules, and those that it exports under.

ghost use Rattle.std.specs.Prelude.{◌≡◌, ℕ, flat_map};
ghost use Rattle.bundle_syntax.specs.declared.piece.Role.TheVariants as role;
ghost use Rattle.bundle_tree_listed.specs.Tree.{export_specifier_items, import_specifier_items, module_decl_items, module_export_name_items, module_item_items, option_items};
ghost use Rattle.bundle_marks.specs.Composed.{items_list};
ghost use Rattle.bundle_scope.specs.Named.{AreWordsClear, words_aside};

use bundle_tree_ast::{ExportSpecifier, ImportSpecifier, ModuleDecl, ModuleExportName, ModuleItem};
use bundle_tree_names::SyntaxContext;

/// Makes the context of each name that is imported or exported 0.
pub(crate) fn clear_words(items: &mut Vec<ModuleItem>)
    ensures same { words_aside (items_list items.new.items) ≡ words_aside (items_list items.old.items) }
    ensures clear { AreWordsClear (items_list items.new.items) }
{
    for place in 0..items.len() {
        clear_item(&mut items[place]);
    }
}

fn clear_item(item: &mut ModuleItem)
    ensures same { words_aside (module_item_items 0 item.new)
        ≡ words_aside (module_item_items 0 item.old) }
    ensures clear { AreWordsClear (module_item_items 0 item.new) }
{
    if let ModuleItem::ModuleDecl(decl) = item {
        clear_decl(decl);
    }
}

fn clear_decl(decl: &mut ModuleDecl)
    ensures same { words_aside (module_decl_items 0 decl.new)
        ≡ words_aside (module_decl_items 0 decl.old) }
    ensures clear { AreWordsClear (module_decl_items 0 decl.new) }
{
    match decl {
        ModuleDecl::ImportDecl { specifiers, .. } => clear_imports(specifiers),
        ModuleDecl::NamedExport {
            specifiers,
            src: None,
            ..
        } => clear_exports(specifiers),
        ModuleDecl::NamedExport { specifiers, .. } => clear_names(specifiers),
        ModuleDecl::ExportDecl { .. } => {}
        ModuleDecl::ExportDefaultDecl { .. } => {}
        ModuleDecl::ExportDefaultExpr { .. } => {}
        ModuleDecl::ExportAll { .. } => {}
    }
}

fn clear_imports(specifiers: &mut Vec<ImportSpecifier>)
    ensures same { words_aside (flat_map (import_specifier_items 0) specifiers.new.items)
        ≡ words_aside (flat_map (import_specifier_items 0) specifiers.old.items) }
    ensures clear { AreWordsClear (flat_map (import_specifier_items 0) specifiers.new.items) }
{
    for place in 0..specifiers.len() {
        clear_import(&mut specifiers[place]);
    }
}

// The specifiers of a list with names of this module.
fn clear_exports(specifiers: &mut Vec<ExportSpecifier>)
    ensures same { words_aside
        (flat_map (export_specifier_items role.Reference 0) specifiers.new.items)
        ≡ words_aside (flat_map (export_specifier_items role.Reference 0) specifiers.old.items) }
    ensures clear { AreWordsClear
        (flat_map (export_specifier_items role.Reference 0) specifiers.new.items) }
{
    for place in 0..specifiers.len() {
        clear_export(&mut specifiers[place]);
    }
}

// The specifiers of a list with names of another module.
fn clear_names(specifiers: &mut Vec<ExportSpecifier>)
    ensures same { words_aside (flat_map (export_specifier_items role.Word 0) specifiers.new.items)
        ≡ words_aside (flat_map (export_specifier_items role.Word 0) specifiers.old.items) }
    ensures clear { AreWordsClear
        (flat_map (export_specifier_items role.Word 0) specifiers.new.items) }
{
    for place in 0..specifiers.len() {
        clear_both(&mut specifiers[place]);
    }
}

fn clear_import(specifier: &mut ImportSpecifier)
    ensures same { words_aside (import_specifier_items 0 specifier.new)
        ≡ words_aside (import_specifier_items 0 specifier.old) }
    ensures clear { AreWordsClear (import_specifier_items 0 specifier.new) }
{
    match specifier {
        ImportSpecifier::ImportNamedSpecifier { imported, .. } => clear_option(imported),
        ImportSpecifier::ImportDefaultSpecifier { .. } => {}
        ImportSpecifier::ImportStarAsSpecifier { .. } => {}
    }
}

// The name under which a specifier exports.
fn clear_export(specifier: &mut ExportSpecifier)
    ensures same { words_aside (export_specifier_items role.Reference 0 specifier.new)
        ≡ words_aside (export_specifier_items role.Reference 0 specifier.old) }
    ensures clear { AreWordsClear (export_specifier_items role.Reference 0 specifier.new) }
{
    match specifier {
        ExportSpecifier::ExportNamespaceSpecifier { name } => clear_name(name),
        ExportSpecifier::ExportNamedSpecifier { exported, .. } => clear_option(exported),
    }
}

// The names in a specifier with names of another module.
fn clear_both(specifier: &mut ExportSpecifier)
    ensures same { words_aside (export_specifier_items role.Word 0 specifier.new)
        ≡ words_aside (export_specifier_items role.Word 0 specifier.old) }
    ensures clear { AreWordsClear (export_specifier_items role.Word 0 specifier.new) }
{
    match specifier {
        ExportSpecifier::ExportNamespaceSpecifier { name } => clear_name(name),
        ExportSpecifier::ExportNamedSpecifier { orig, exported } => {
            clear_name(orig);
            clear_option(exported);
        }
    }
}

fn clear_option(name: &mut Option<ModuleExportName>)
    ensures same { words_aside (option_items (module_export_name_items role.Word 1) name.new)
        ≡ words_aside (option_items (module_export_name_items role.Word 1) name.old) }
    ensures clear { AreWordsClear (option_items (module_export_name_items role.Word 1) name.new) }
{
    if let Some(name) = name {
        clear_name(name);
    }
}

fn clear_name(name: &mut ModuleExportName)
    ensures same { (field : ℕ) →
        words_aside (module_export_name_items role.Word field name.new)
        ≡ words_aside (module_export_name_items role.Word field name.old) }
    ensures clear { (field : ℕ) →
        AreWordsClear (module_export_name_items role.Word field name.new) }
{
    match name {
        ModuleExportName::Ident(ident) => ident.ctxt = SyntaxContext::empty(),
        ModuleExportName::Str(_) => {}
    }
}

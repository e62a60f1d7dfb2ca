//! What a module as it was loaded asks for, imports and exports (ECMA-262, 16.2.2 and 16.2.3).
//!
//! The three tables refuse the same modules, by the first fault of the tree in this order: a name that is
//! exported twice, an exported name that the module's top does not bind, a `with` statement.

ghost use Rattle.std.specs.Prelude.{◌≡◌, ◌++◌, ◌∷◌, [], IfOk, IfErr, OnOk, None, false, map, string_bytes};
ghost use Rattle.bundle_tree_names.specs.FileName.{name_of};
ghost use Rattle.bundle_syntax.specs.Item.{item_of};
ghost use Rattle.bundle_tree_listed.specs.Tree.{module_items};
ghost use Rattle.bundle_link_tables.specs.Judged.{doubled_entry_name};
ghost use Rattle.bundle_link_tables.specs.TablesOf.{entry_by_origin, export_entry_of, import_entry_of, taken_of};
ghost use Rattle.bundle_rules.specs.Bound.{is_free};
ghost use Rattle.bundle_rules.specs.Entries as the_entries;
ghost use Rattle.bundle_rules.specs.Entries.{Settings, has_import_meta};
ghost use Rattle.bundle_rules.specs.Faults.{IsFaultless};
ghost use Rattle.bundle_rules.specs.Nodes.{has_text, Text};
ghost use Rattle.bundle_rules.specs.Tables as t;
ghost use Rattle.bundle_rules.specs.Tables.{IsExportTable, IsImportTable, IsRequestTable};
ghost use Rattle.bundle_link.specs.Owned.{entry_key, entry_says, export_says, exports_say, import_says, name_says};
ghost use Rattle.bundle_link.specs.Read.{AreTablesOf};
ghost use Rattle.bundle_link.specs.Refusals.{HasExternals, IsTreeRefusal, Links};

use crate::fault::tree_refusal;
use bundle_link_tables::{
    Export, ImportRef as Read, Origin, Tables, Taken, external_texts, requests_in, tables_of,
};
use bundle_scope_denote::texts::TextSet;
use bundle_scope_denote::{ModuleKind, Reading, denotations};
use bundle_syntax::Piece;
use bundle_tree_ast::Module;
use bundle_tree_list::pieces_of_module;
use bundle_tree_names::{Config, Error, FileName};
use indexmap::IndexMap;
use std::alloc::{AllocError, Global};

/// What an import or an export takes of another module.
#[derive(Drop, PartialEq, Eq, Debug)]
pub enum ImportName {
    /// One of its names. A default import takes the name `default`.
    Named(String),
    /// Its namespace.
    Whole,
}

/// An import: the name that it binds, the module that it asks for, and what it takes of that module.
#[derive(Drop, PartialEq, Eq, Debug)]
pub struct Import {
    pub local: String,
    pub specifier: String,
    pub name: ImportName,
}

/// Where an exported name comes from. One that was imported by name is given on, and one that `import * as` binds
/// is local.
#[derive(Drop, PartialEq, Eq, Debug)]
pub enum ExportEntry {
    /// From this name of the module's own top.
    Local(String),
    /// From another module.
    Indirect { specifier: String, name: ImportName },
}

/// The exports of a module: those with a name, and the modules that it exports as a whole, each once.
#[derive(Drop)]
pub struct Exports {
    pub items: IndexMap<String, ExportEntry>,
    pub stars: Vec<String>,
}

/// The texts that are external by a configuration: made once for all modules that are read.
pub fn externals_of(alloc: Global, config: &Config) -> Result<TextSet<&str>, AllocError>
    ensures { IfOk result (λ external. HasExternals external config.now) }
{
    external_texts(alloc, &config.external_modules)
}

/// What a module asks to be loaded, each text once: what its imports and exports ask for, in the order of the
/// source, and then its literal calls of `require`, where the settings link them. External texts are left out.
pub fn requests_of(
    alloc: Global,
    file: &FileName,
    tree: &Module,
    config: &Config,
) -> Result<Vec<String>, Error>
    ensures refused { IfErr result
        (IsTreeRefusal (name_of file.now) (module_items 0 tree.now)) }
    ensures given { IfOk result (λ requests.
        (settings : Settings) →
        Links config.now settings →
        IsRequestTable settings (name_of file.now) (module_items 0 tree.now)
        (t.Given (map (λ text. string_bytes text) requests.items))) }
{
    let external = externals_of(alloc, config)?;
    requests_by(alloc, file, tree, config, &external)
}

/// The same, where these are the texts that are external (`externals_of`).
pub fn requests_by(
    alloc: Global,
    file: &FileName,
    tree: &Module,
    config: &Config,
    external: &TextSet<&str>,
) -> Result<Vec<String>, Error>
    requires { HasExternals external.now config.now }
    ensures refused { IfErr result
        (IsTreeRefusal (name_of file.now) (module_items 0 tree.now)) }
    ensures given { IfOk result (λ requests.
        (settings : Settings) →
        Links config.now settings →
        IsRequestTable settings (name_of file.now) (module_items 0 tree.now)
        (t.Given (map (λ text. string_bytes text) requests.items))) }
{
    let pieces = pieces_of_module(alloc, tree)?;
    let requests = requested(alloc, file, &pieces, config, external)?;
    Ok(owned_texts(alloc, &requests)?)
}

/// What a module imports, in the order of the source.
pub fn imports_of(
    alloc: Global,
    file: &FileName,
    tree: &Module,
    config: &Config,
) -> Result<Vec<Import>, Error>
    ensures refused { IfErr result
        (IsTreeRefusal (name_of file.now) (module_items 0 tree.now)) }
    ensures given { IfOk result (λ imports.
        IsImportTable (name_of file.now) (module_items 0 tree.now)
        (t.Given (map import_says imports.items))) }
{
    let external = externals_of(alloc, config)?;
    let tables = read(alloc, file, tree, config, &external)?;
    Ok(owned_imports(alloc, &tables.imports)?)
}

/// What a module exports, in the order of the source.
pub fn exports_of(
    alloc: Global,
    file: &FileName,
    tree: &Module,
    config: &Config,
) -> Result<Exports, Error>
    ensures refused { IfErr result
        (IsTreeRefusal (name_of file.now) (module_items 0 tree.now)) }
    ensures given { IfOk result (λ exports.
        IsExportTable (name_of file.now) (module_items 0 tree.now)
        (t.Given (exports_say exports))) }
{
    let external = externals_of(alloc, config)?;
    let tables = read(alloc, file, tree, config, &external)?;
    Ok(owned_exports(alloc, &tables)?)
}

/// The tables of a module, read as an ECMAScript module. Refused where the tree has a fault.
pub(crate) fn read<'a>(
    alloc: Global,
    file: &FileName,
    tree: &'a Module,
    config: &Config,
    external: &TextSet<&str>,
) -> Result<Tables<'a>, Error>
    requires { HasExternals external.now config.now }
    ensures refused { IfErr result
        (IsTreeRefusal (name_of file.now) (module_items 0 tree.now)) }
    ensures given { IfOk result
        (AreTablesOf config.now (name_of file.now) (module_items 0 tree.now)) }
{
    let pieces = pieces_of_module(alloc, tree)?;
    read_list(alloc, file, &pieces, config, external)
}

/// The same of the list of a module.
pub(crate) fn read_list<'a>(
    alloc: Global,
    file: &FileName,
    pieces: &[Piece<'a>],
    config: &Config,
    external: &TextSet<&str>,
) -> Result<Tables<'a>, Error>
    requires { HasExternals external.now config.now }
    ensures refused { IfErr result (IsTreeRefusal (name_of file.now) (map item_of pieces.now)) }
    ensures given { IfOk result
        (AreTablesOf config.now (name_of file.now) (map item_of pieces.now)) }
    ensures meta { IfOk result (λ tables.
        tables.has_import_meta ≡ has_import_meta (map item_of pieces.now)) }
{
    let names = denotations(alloc, pieces, ModuleKind::Es, Reading::BySymbol)?;
    let answer = tables_of(alloc, pieces, &names, config.require, external)?;
    match answer {
        Ok(tables) => Ok(tables),
        Err(fault) => Err(tree_refusal(alloc, file, fault)?),
    }
}

// What the list of a module asks to be loaded.
fn requested<'a>(
    alloc: Global,
    file: &FileName,
    pieces: &[Piece<'a>],
    config: &Config,
    external: &TextSet<&str>,
) -> Result<Vec<&'a str>, Error>
    requires { HasExternals external.now config.now }
    ensures refused { IfErr result (IsTreeRefusal (name_of file.now) (map item_of pieces.now)) }
    ensures faultless { OnOk result (IsFaultless (name_of file.now) (map item_of pieces.now)) }
    ensures given { IfOk result (λ requests.
        (settings : Settings) →
        Links config.now settings →
        map (λ request. request.now) requests.items
        ≡ the_entries.requests_of settings (is_free (map item_of pieces.now)) (map item_of pieces.now)) }
{
    let answer = requests_in(alloc, pieces, config.require, external)?;
    match answer {
        Ok(requests) => Ok(requests),
        Err(fault) => Err(tree_refusal(alloc, file, fault)?),
    }
}

// The texts, each as a text of its own.
fn owned_texts<'a>(alloc: Global, texts: &[&'a str]) -> Result<Vec<String>, AllocError>
    ensures { IfOk result (λ owned.
        map (λ text. string_bytes text) owned.items ≡ map (λ text. text.now) texts.now) }
{
    let mut owned = Vec::new(alloc);
    for text in texts {
        owned.push(String::from_str(alloc, *text)?)?;
    }
    Ok(owned)
}

// The imports, with texts of their own.
fn owned_imports<'a>(alloc: Global, imports: &[Read<'a>]) -> Result<Vec<Import>, AllocError>
    ensures { IfOk result (λ owned.
        map import_says owned.items ≡ map import_entry_of imports.now) }
{
    let mut owned = Vec::new(alloc);
    for import in imports {
        owned.push(owned_import(alloc, *import)?)?;
    }
    Ok(owned)
}

fn owned_import<'a>(alloc: Global, import: Read<'a>) -> Result<Import, AllocError>
    ensures { IfOk result (λ owned. import_says owned ≡ import_entry_of import.entry) }
{
    Ok(Import {
        local: String::from_str(alloc, import.local)?,
        specifier: String::from_str(alloc, import.specifier)?,
        name: import_name(alloc, import.taken)?,
    })
}

fn import_name<'a>(alloc: Global, taken: Taken<'a>) -> Result<ImportName, AllocError>
    ensures { IfOk result (λ name. name_says name ≡ taken_of taken.entry) }
{
    Ok(match taken {
        Taken::Named(name) => ImportName::Named(String::from_str(alloc, name)?),
        Taken::Whole => ImportName::Whole,
    })
}

// The exports, with texts of their own.
fn owned_exports<'a>(alloc: Global, tables: &Tables<'a>) -> Result<Exports, AllocError>
    ensures items { IfOk result (λ owned.
        doubled_entry_name [] (map export_entry_of tables.now.exports.items) ≡ None →
        map entry_says owned.items.entries ≡ map export_entry_of tables.now.exports.items) }
    ensures stars { IfOk result (λ owned.
        map (λ text. string_bytes text) owned.stars.items
        ≡ map (λ text. text.now) tables.now.stars.items) }
{
    let items = owned_items(alloc, &tables.exports)?;
    let stars = owned_texts(alloc, &tables.stars)?;
    Ok(Exports { items, stars })
}

// The exports that have a name, where no two have one name.
fn owned_items<'a>(
    alloc: Global,
    exports: &[Export<'a>],
) -> Result<IndexMap<String, ExportEntry>, AllocError>
    ensures { IfOk result (λ items. doubled_entry_name [] (map export_entry_of exports.now) ≡ None →
        map entry_says items.entries ≡ map export_entry_of exports.now) }
{
    let mut items = IndexMap::new(alloc);
    for export in exports {
        add_item(alloc, &mut items, *export)?;
    }
    Ok(items)
}

// Adds an export.
fn add_item<'a>(
    alloc: Global,
    items: &mut IndexMap<String, ExportEntry>,
    export: Export<'a>,
) -> Result<(), AllocError>
    ensures { has_text export.entry.name.now (map entry_key items.old.entries) ≡ false →
        OnOk result
        ((map entry_key items.new.entries
        ≡ map entry_key items.old.entries ++ export.entry.name.now ∷ [])
        × (map entry_says items.new.entries
        ≡ map entry_says items.old.entries ++ export_entry_of export.entry ∷ [])) }
{
    let name = String::from_str(alloc, export.name)?;
    let entry = export_entry(alloc, export.origin)?;
    items.insert(name, entry)?;
    Ok(())
}

fn export_entry<'a>(alloc: Global, origin: Origin<'a>) -> Result<ExportEntry, AllocError>
    ensures { IfOk result (λ entry.
        (name : Text) → export_says name entry ≡ entry_by_origin name origin.entry) }
{
    Ok(match origin {
        Origin::Local { name } => ExportEntry::Local(String::from_str(alloc, name)?),
        Origin::Indirect { specifier, taken } => ExportEntry::Indirect {
            specifier: String::from_str(alloc, specifier)?,
            name: import_name(alloc, taken)?,
        },
    })
}

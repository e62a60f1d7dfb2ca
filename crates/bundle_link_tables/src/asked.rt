//! The names that imports and indirect exports ask of other modules.

ghost use Rattle.std.specs.Prelude.{◌≡◌, ◌++◌, map, IfOk, OnOk};
ghost use Rattle.std.specs.List.{flat_map, list_any};
ghost use Rattle.bundle_rules.specs.Entries.{imports_of_item};
ghost use Rattle.bundle_rules.specs.Faults.{asked_by_export, asked_by_import};
ghost use Rattle.bundle_link_tables.specs.Asked.{asked_in, is_given_on};
ghost use Rattle.bundle_link_tables.specs.Exported.{import_by, exports_named};
ghost use Rattle.bundle_tree_places.specs.Parted.{part_items};
ghost use Rattle.bundle_link_tables.specs.TablesOf.{asked_name_of, export_entry_of, import_entry_of};

use crate::exports::add_exports;
use crate::imports::add_imports;
use crate::table::{AskedName, Export, ImportRef, Origin, Taken};
use bundle_scope_denote::texts::TextMap;
use bundle_tree_places::parts::NodeAt;
use std::alloc::{AllocError, Global};

/// The names that a module's top items ask of other modules, in the order of the source, where these are their imports and
/// their exports. `locals` holds the first import of each name that imports bind. Where nothing is given on, the imports
/// alone ask.
pub(crate) fn asked_by<'a>(
    alloc: Global,
    tops: &[NodeAt<'_, 'a>],
    imports: &[ImportRef<'a>],
    exports: &[Export<'a>],
    locals: &TextMap<&'a str, ImportRef<'a>>,
) -> Result<Vec<AskedName<'a>>, AllocError>
    requires imports { map import_entry_of imports.now
        ≡ flat_map imports_of_item (map part_items tops.now) }
    requires exports { map export_entry_of exports.now
        ≡ flat_map (exports_named (import_by locals.now)) (map part_items tops.now) }
    ensures { IfOk result (λ asked.
        map asked_name_of asked.items
        ≡ flat_map (asked_in (import_by locals.now)) (map part_items tops.now)) }
{
    if give_on(exports) {
        return asked_of(alloc, tops, locals);
    }
    let mut asked = Vec::new(alloc);
    add_all(&mut asked, imports)?;
    Ok(asked)
}

// Whether one of these exports is given on from another module.
fn give_on(exports: &[Export]) -> bool
    ensures { result ≡ list_any (λ export. is_given_on (export_entry_of export)) exports.now }
{
    exports.iter().any(|export| is_indirect(*export))
}

// Whether an export is given on from another module.
fn is_indirect(export: Export) -> bool
    ensures { result ≡ is_given_on (export_entry_of export.entry) }
{
    match export.origin {
        Origin::Local { .. } => false,
        Origin::Indirect { .. } => true,
    }
}

// The names that top items ask of other modules, item by item.
fn asked_of<'a>(
    alloc: Global,
    tops: &[NodeAt<'_, 'a>],
    locals: &TextMap<&'a str, ImportRef<'a>>,
) -> Result<Vec<AskedName<'a>>, AllocError>
    ensures { IfOk result (λ asked.
        map asked_name_of asked.items
        ≡ flat_map (asked_in (import_by locals.now)) (map part_items tops.now)) }
{
    let mut asked = Vec::new(alloc);
    for top in tops {
        add_asked(alloc, &mut asked, *top, locals)?;
    }
    Ok(asked)
}

// Adds what a top item asks for.
fn add_asked<'a>(
    alloc: Global,
    asked: &mut Vec<AskedName<'a>>,
    item: NodeAt<'_, 'a>,
    locals: &TextMap<&'a str, ImportRef<'a>>,
) -> Result<(), AllocError>
    ensures { OnOk result
        (map asked_name_of asked.new.items
        ≡ map asked_name_of asked.old.items
        ++ asked_in (import_by locals.now) (part_items item.entry)) }
{
    add_imported(alloc, asked, item)?;
    add_exported(alloc, asked, item, locals)
}

// Adds what the imports of a top item ask for.
fn add_imported<'a>(
    alloc: Global,
    asked: &mut Vec<AskedName<'a>>,
    item: NodeAt<'_, 'a>,
) -> Result<(), AllocError>
    ensures { OnOk result
        (map asked_name_of asked.new.items
        ≡ map asked_name_of asked.old.items
        ++ flat_map asked_by_import (imports_of_item (part_items item.entry))) }
{
    let mut imports = Vec::new(alloc);
    add_imports(alloc, &mut imports, item)?;
    add_all(asked, &imports)
}

// Adds what imports ask for.
fn add_all<'a>(asked: &mut Vec<AskedName<'a>>, imports: &[ImportRef<'a>]) -> Result<(), AllocError>
    ensures { OnOk result
        (map asked_name_of asked.new.items
        ≡ map asked_name_of asked.old.items
        ++ flat_map asked_by_import (map import_entry_of imports.now)) }
{
    for import in imports {
        add_by_import(asked, *import)?;
    }
    Ok(())
}

// Adds what an import asks for, unless it takes the whole.
fn add_by_import<'a>(
    asked: &mut Vec<AskedName<'a>>,
    import: ImportRef<'a>,
) -> Result<(), AllocError>
    ensures { OnOk result (map asked_name_of asked.new.items
        ≡ map asked_name_of asked.old.items ++ asked_by_import (import_entry_of import.entry)) }
{
    if let Taken::Named(name) = import.taken {
        asked.push(AskedName {
            specifier: import.specifier,
            name,
        })?;
    }
    Ok(())
}

// Adds what the exports of a top item ask for.
fn add_exported<'a>(
    alloc: Global,
    asked: &mut Vec<AskedName<'a>>,
    item: NodeAt<'_, 'a>,
    locals: &TextMap<&'a str, ImportRef<'a>>,
) -> Result<(), AllocError>
    ensures { OnOk result
        (map asked_name_of asked.new.items
        ≡ map asked_name_of asked.old.items
        ++ flat_map asked_by_export
        (exports_named (import_by locals.now) (part_items item.entry))) }
{
    let mut exports = Vec::new(alloc);
    add_exports(alloc, &mut exports, item, locals)?;
    for export in &exports {
        add_by_export(asked, *export)?;
    }
    Ok(())
}

// Adds what an indirect export asks for, unless it takes the whole.
fn add_by_export<'a>(asked: &mut Vec<AskedName<'a>>, export: Export<'a>) -> Result<(), AllocError>
    ensures { OnOk result (map asked_name_of asked.new.items
        ≡ map asked_name_of asked.old.items ++ asked_by_export (export_entry_of export.entry)) }
{
    if let Origin::Indirect {
        specifier,
        taken: Taken::Named(name),
    } = export.origin
    {
        asked.push(AskedName { specifier, name })?;
    }
    Ok(())
}

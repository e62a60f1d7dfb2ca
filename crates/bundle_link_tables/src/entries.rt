//! What the top items of a module import and export.

ghost use Rattle.std.specs.Prelude.{◌≡◌, ◌++◌, ◌∷◌, [], filter, map, not, List, IfOk, OnOk};
ghost use Rattle.bundle_syntax.specs.Item.{item_of};
ghost use Rattle.bundle_rules.specs.Entries as the_entries;
ghost use Rattle.bundle_rules.specs.Entries.{declared_requests, imports_of_item, requests_of_item, ImportEntry};
ghost use Rattle.bundle_rules.specs.Faults.{asked_names, listed_names, names_listed};
ghost use Rattle.bundle_rules.specs.Tables.{is_star, star_of};
ghost use Rattle.bundle_rules.specs.Nodes.{begins_with, each_once};
ghost use Rattle.std.specs.List.{flat_map, list_any};
ghost use Rattle.bundle_link_tables.specs.Asked.{asked_in};
ghost use Rattle.bundle_link_tables.specs.Exported.{import_by, exports_named, Finds};
ghost use Rattle.bundle_link_tables.specs.Listed.{export_listed_as};
ghost use Rattle.bundle_tree_places.specs.Parted.{part_items};
ghost use Rattle.bundle_link_tables.specs.Sources.{source_asked, has_external, star_in};
ghost use Rattle.bundle_link_tables.specs.TablesOf as tables_of;
ghost use Rattle.bundle_link_tables.specs.TablesOf.{asked_name_of, export_entry_of, import_entry_of};

use crate::asked::asked_by;
use crate::exports::exports_of;
use crate::imports::{has_declaration, imports_of};
use crate::listed::{ExportListName, listed_of};
use crate::sources::{sources_of, stars_of};
use crate::table::{AskedName, Export, ImportRef, Source};
use bundle_scope_denote::texts::{TextMap, TextSet};
use bundle_syntax::Piece;
use bundle_tree_places::parts::{NodeAt, top_items};
use std::alloc::{AllocError, Global};

/// What a module imports and gives.
#[derive(Drop)]
pub struct Entries<'a> {
    pub imports: Vec<ImportRef<'a>>,
    /// The first import of each name that imports bind.
    pub locals: TextMap<&'a str, ImportRef<'a>>,
    pub given: Interface<'a>,
    /// It has an import or export declaration.
    pub is_declared_module: bool,
}

/// What a module gives, and what it asks for.
#[derive(Drop)]
pub struct Interface<'a> {
    pub exports: Vec<Export<'a>>,
    pub asked: Vec<AskedName<'a>>,
    pub stars: TextSet<&'a str>,
    pub sources: Vec<Source<'a>>,
    pub listed: Vec<ExportListName<'a>>,
}

/// What a module imports and exports. `external` are the texts that are external.
pub fn entries_of<'a>(
    alloc: Global,
    pieces: &[Piece<'a>],
    external: &TextSet<&str>,
) -> Result<Entries<'a>, AllocError>
    ensures imports { IfOk result (λ entries.
        map import_entry_of entries.imports.items
        ≡ the_entries.imports_of (map item_of pieces.now)) }
    ensures declared { IfOk result (λ entries.
        entries.is_declared_module ≡ tables_of.has_declaration (map item_of pieces.now)) }
    ensures exports { IfOk result (λ entries.
        map export_entry_of entries.given.exports.items
        ≡ filter (λ entry. not (is_star entry))
        (the_entries.exports_of (map item_of pieces.now))) }
    ensures asked { IfOk result (λ entries.
        map asked_name_of entries.given.asked.items ≡ asked_names (map item_of pieces.now)) }
    ensures stars { IfOk result (λ entries.
        map (λ key. key.now) entries.given.stars.keys
        ≡ each_once (flat_map star_of (the_entries.exports_of (map item_of pieces.now)))) }
    ensures sources { IfOk result (λ entries.
        map source_asked entries.given.sources.items
        ≡ map (has_external external.now) (declared_requests (map item_of pieces.now))) }
    ensures locals { IfOk result (λ entries.
        Finds entries.locals (the_entries.imports_of (map item_of pieces.now))) }
    ensures listed { IfOk result (λ entries.
        map export_listed_as entries.given.listed.items ≡ listed_names (map item_of pieces.now)) }
{
    let tops = top_items(alloc, pieces)?;
    let entries = entries_in(alloc, &tops, external)?;
    Ok(entries)
}

// What the top items of a module import and give.
fn entries_in<'a>(
    alloc: Global,
    tops: &[NodeAt<'_, 'a>],
    external: &TextSet<&str>,
) -> Result<Entries<'a>, AllocError>
    ensures imports { IfOk result (λ entries.
        map import_entry_of entries.imports.items
        ≡ flat_map imports_of_item (map part_items tops.now)) }
    ensures locals { IfOk result (λ entries.
        Finds entries.locals (map import_entry_of entries.imports.items)) }
    ensures declared { IfOk result (λ entries.
        entries.is_declared_module
        ≡ list_any (λ top. begins_with the_entries.is_module_declaration (part_items top))
        tops.now) }
    ensures exports { IfOk result (λ entries.
        map export_entry_of entries.given.exports.items
        ≡ flat_map (exports_named (import_by entries.locals)) (map part_items tops.now)) }
    ensures asked { IfOk result (λ entries.
        map asked_name_of entries.given.asked.items
        ≡ flat_map (asked_in (import_by entries.locals)) (map part_items tops.now)) }
    ensures stars { IfOk result (λ entries.
        map (λ key. key.now) entries.given.stars.keys
        ≡ each_once (flat_map star_in (map part_items tops.now))) }
    ensures sources { IfOk result (λ entries.
        map source_asked entries.given.sources.items
        ≡ map (has_external external.now) (flat_map requests_of_item (map part_items tops.now))) }
    ensures listed { IfOk result (λ entries.
        map export_listed_as entries.given.listed.items
        ≡ flat_map names_listed (map part_items tops.now)) }
{
    let imports = imports_of(alloc, tops)?;
    let locals = locals_of(alloc, &imports)?;
    let given = given_in(alloc, tops, &imports, &locals, external)?;
    Ok(Entries {
        imports,
        locals,
        given,
        is_declared_module: has_declaration(tops),
    })
}

// What the top items of a module give and ask for. `imports` are their imports, and `locals` those of the names that imports
// bind.
fn given_in<'a>(
    alloc: Global,
    tops: &[NodeAt<'_, 'a>],
    imports: &[ImportRef<'a>],
    locals: &TextMap<&'a str, ImportRef<'a>>,
    external: &TextSet<&str>,
) -> Result<Interface<'a>, AllocError>
    requires { map import_entry_of imports.now
        ≡ flat_map imports_of_item (map part_items tops.now) }
    ensures exports { IfOk result (λ given.
        map export_entry_of given.exports.items
        ≡ flat_map (exports_named (import_by locals.now)) (map part_items tops.now)) }
    ensures asked { IfOk result (λ given.
        map asked_name_of given.asked.items
        ≡ flat_map (asked_in (import_by locals.now)) (map part_items tops.now)) }
    ensures stars { IfOk result (λ given.
        map (λ key. key.now) given.stars.keys
        ≡ each_once (flat_map star_in (map part_items tops.now))) }
    ensures sources { IfOk result (λ given.
        map source_asked given.sources.items
        ≡ map (has_external external.now) (flat_map requests_of_item (map part_items tops.now))) }
    ensures listed { IfOk result (λ given.
        map export_listed_as given.listed.items ≡ flat_map names_listed (map part_items tops.now)) }
{
    let exports = exports_of(alloc, tops, locals)?;
    let asked = asked_by(alloc, tops, imports, &exports, locals)?;
    let stars = stars_of(alloc, tops)?;
    let sources = sources_of(alloc, tops, external)?;
    let listed = listed_of(alloc, tops)?;
    Ok(Interface {
        exports,
        asked,
        stars,
        sources,
        listed,
    })
}

// The first import of each name that imports bind.
fn locals_of<'a>(
    alloc: Global,
    imports: &[ImportRef<'a>],
) -> Result<TextMap<&'a str, ImportRef<'a>>, AllocError>
    ensures { IfOk result (λ locals. Finds locals (map import_entry_of imports.now)) }
{
    let mut locals = TextMap::new(alloc);
    for import in imports {
        note_import(&mut locals, *import)?;
    }
    Ok(locals)
}

// Notes an import, unless one of that name was noted.
fn note_import<'a>(
    locals: &mut TextMap<&'a str, ImportRef<'a>>,
    import: ImportRef<'a>,
) -> Result<(), AllocError>
    ensures { (before : List ImportEntry) → Finds locals.old before →
        OnOk result (Finds locals.new (before ++ import_entry_of import.entry ∷ [])) }
{
    if !(&*locals).contains_key(&import.local) {
        locals.insert(import.local, import)?;
    }
    Ok(())
}

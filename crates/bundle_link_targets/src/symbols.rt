//! What targets of externals and CommonJS modules are called.

ghost use Rattle.std.specs.Prelude.{◌≡◌, ◌∷◌, ◌++◌, [], IfOk, List, OnOk, filter_map, option_map};
ghost use Rattle.std.specs.List.{cons_option, flat_map};
ghost use Rattle.bundle_rules.specs.Symbols as Symbols;
ghost use Rattle.bundle_link_tables.specs.TablesOf.{taken_of};
ghost use Rattle.bundle_link_index.specs.Says.{target_of};
ghost use Rattle.bundle_link_targets.specs.Symbols as the_symbols;
ghost use Rattle.bundle_link_targets.specs.Symbols.{Called, Calls, exported_by, exports_called, imported_by, imports_called, named_as, named_in, taken_in};

use crate::target::TargetRef;
use bundle_link_index::{Kinds, Lead};
use bundle_link_tables::{Export, ImportRef, Origin, Taken};
use bundle_scope_denote::texts::TextMap;
use bundle_tree_places::is_ascii_identifier;
use std::alloc::{AllocError, Global};

/// What targets of externals and CommonJS modules are called: as the first import that takes them does,
/// or as the first export of the whole.
pub fn symbols_of<'a>(
    alloc: Global,
    kinds: &Kinds<'_, '_, 'a>,
) -> Result<TextMap<TargetRef<'a>, &'a str>, AllocError>
    ensures { IfOk result (λ symbols. Calls symbols (named_in kinds.now)) }
{
    let mut symbols = TextMap::new(alloc);
    add_all_imports(kinds, &mut symbols)?;
    add_all_exports(kinds, &mut symbols)?;
    Ok(symbols)
}

// Notes what the imports of listed modules call targets.
fn add_all_imports<'a>(
    kinds: &Kinds<'_, '_, 'a>,
    symbols: &mut TextMap<TargetRef<'a>, &'a str>,
) -> Result<(), AllocError>
    ensures { (before : List Called) →
        Calls symbols.old before →
        OnOk result
        (Calls symbols.new (before ++ flat_map (imports_called kinds.now) kinds.now.list.now)) }
{
    for which in kinds.list {
        add_imports_of(kinds, *which, symbols)?;
    }
    Ok(())
}

// Notes what the exports of wholes of listed modules call them.
fn add_all_exports<'a>(
    kinds: &Kinds<'_, '_, 'a>,
    symbols: &mut TextMap<TargetRef<'a>, &'a str>,
) -> Result<(), AllocError>
    ensures { (before : List Called) →
        Calls symbols.old before →
        OnOk result
        (Calls symbols.new (before ++ flat_map (exports_called kinds.now) kinds.now.list.now)) }
{
    for which in kinds.list {
        add_exports_of(kinds, *which, symbols)?;
    }
    Ok(())
}

// Notes what the imports of a module call targets, if it is there.
fn add_imports_of<'a>(
    kinds: &Kinds<'_, '_, 'a>,
    which: usize,
    symbols: &mut TextMap<TargetRef<'a>, &'a str>,
) -> Result<(), AllocError>
    ensures { (before : List Called) → Calls symbols.old before →
        OnOk result (Calls symbols.new (before ++ imports_called kinds.now which)) }
{
    match kinds.tables(which) {
        Some(tables) => add_imports(kinds, which, &tables.imports, symbols),
        None => Ok(()),
    }
}

// Notes what the exports of wholes of a module call them, if it is there.
fn add_exports_of<'a>(
    kinds: &Kinds<'_, '_, 'a>,
    which: usize,
    symbols: &mut TextMap<TargetRef<'a>, &'a str>,
) -> Result<(), AllocError>
    ensures { (before : List Called) → Calls symbols.old before →
        OnOk result (Calls symbols.new (before ++ exports_called kinds.now which)) }
{
    match kinds.tables(which) {
        Some(tables) => add_exports(kinds, which, &tables.exports, symbols),
        None => Ok(()),
    }
}

// Notes what imports call targets.
fn add_imports<'a>(
    kinds: &Kinds<'_, '_, 'a>,
    which: usize,
    imports: &[ImportRef<'a>],
    symbols: &mut TextMap<TargetRef<'a>, &'a str>,
) -> Result<(), AllocError>
    ensures { (before : List Called) →
        Calls symbols.old before →
        OnOk result
        (Calls symbols.new (before ++ filter_map (imported_by kinds.now which) imports.now)) }
{
    for import in imports {
        let target = target_taken(&*kinds, which, import.specifier, import.taken);
        add_symbol(symbols, target, import.local)?;
    }
    Ok(())
}

// Notes what exports of wholes call them.
fn add_exports<'a>(
    kinds: &Kinds<'_, '_, 'a>,
    which: usize,
    exports: &[Export<'a>],
    symbols: &mut TextMap<TargetRef<'a>, &'a str>,
) -> Result<(), AllocError>
    ensures { (before : List Called) →
        Calls symbols.old before →
        OnOk result
        (Calls symbols.new (before ++ filter_map (exported_by kinds.now which) exports.now)) }
{
    for export in exports {
        let target = whole_of(&*kinds, which, *export);
        add_symbol(symbols, target, identifier_of(export.name))?;
    }
    Ok(())
}

// The whole that an export is of.
fn whole_of<'a>(
    kinds: &Kinds<'_, '_, 'a>,
    which: usize,
    export: Export<'a>,
) -> Option<TargetRef<'a>>
    ensures { option_map target_of result ≡ taken_in kinds.now which export.entry.origin }
{
    match export.origin {
        Origin::Indirect { specifier, taken } => match taken {
            Taken::Whole => target_taken(kinds, which, specifier, Taken::Whole),
            Taken::Named(_) => None,
        },
        Origin::Local { .. } => None,
    }
}

// What a module takes of an external or of a CommonJS module.
fn target_taken<'a>(
    kinds: &Kinds<'_, '_, 'a>,
    taker: usize,
    specifier: &'a str,
    taken: Taken<'a>,
) -> Option<TargetRef<'a>>
    ensures { option_map target_of result
        ≡ named_as kinds.now taker specifier.now (taken_of taken.entry) }
{
    match kinds.lead(taker, specifier) {
        Lead::External => Some(TargetRef::External { specifier, taken }),
        Lead::CommonJs(which) => Some(TargetRef::CommonJs {
            taker,
            which,
            taken,
        }),
        Lead::Module(_) => None,
        Lead::Nowhere => None,
    }
}

// Notes what a target is called, if there is one and it was not noted.
fn add_symbol<'a>(
    symbols: &mut TextMap<TargetRef<'a>, &'a str>,
    target: Option<TargetRef<'a>>,
    symbol: &'a str,
) -> Result<(), AllocError>
    ensures { (before : List Called) →
        Calls symbols.old before →
        OnOk result
        (Calls symbols.new
        (before ++ cons_option (option_map (λ t. (target_of t, symbol.now)) target.entry) [])) }
{
    match target {
        Some(target) => note_symbol(symbols, target, symbol),
        None => Ok(()),
    }
}

// Notes what a target is called, if it was not noted.
fn note_symbol<'a>(
    symbols: &mut TextMap<TargetRef<'a>, &'a str>,
    target: TargetRef<'a>,
    symbol: &'a str,
) -> Result<(), AllocError>
    ensures { (before : List Called) → Calls symbols.old before →
        OnOk result (Calls symbols.new (before ++ (target_of target.entry, symbol.now) ∷ [])) }
{
    if !(&*symbols).contains_key(&target) {
        symbols.insert(target, symbol)?;
    }
    Ok(())
}

/// A name as an identifier: one of another form is called `name`.
pub fn identifier_of(name: &str) -> &str
    ensures { result.now ≡ Symbols.identifier_of name.now }
{
    if is_ascii_identifier(name) {
        name
    } else {
        "name"
    }
}

/// What is taken without an import, and without an export of the whole, is called so.
pub fn name_else<'a>(taken: Taken<'a>) -> &'a str
    ensures { result.now ≡ the_symbols.name_else (taken_of taken.entry) }
{
    match taken {
        Taken::Named(name) => identifier_of(name),
        Taken::Whole => "name",
    }
}

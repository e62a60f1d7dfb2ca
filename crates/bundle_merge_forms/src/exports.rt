//! What a module's list of exports gives, as the properties of an object.

ghost use Rattle.std.specs.Prelude.{◌≡◌, ◌++◌, IfOk, OnOk, flat_map, map, string_bytes};
ghost use Rattle.bundle_rules.specs.Forms.{by_names};
ghost use Rattle.bundle_merge_injected.specs.Listed.{pair_of};
ghost use Rattle.bundle_merge_forms.specs.Wrapped.{exported_in, exported_under, given_by, specifiers_of};

use bundle_merge_injected::Pair;
use bundle_tree_ast::{ExportSpecifier, Ident, ModuleDecl, ModuleExportName, ModuleItem};
use bundle_tree_places::Name;
use std::alloc::{AllocError, Global};

/// What the lists of exports without `from` among items give, by names ascending.
pub(crate) fn exported<'a>(
    alloc: Global,
    items: &'a [ModuleItem],
) -> Result<Vec<Pair<'a>>, AllocError>
    ensures { IfOk result
        (λ pairs. map pair_of pairs.items ≡ by_names (flat_map exported_in items.now)) }
{
    let pairs = pairs_in(alloc, items)?;
    by_name(pairs)
}

// The pairs by names ascending; those of one name stay as they stand.
fn by_name<'a>(pairs: Vec<Pair<'a>>) -> Result<Vec<Pair<'a>>, AllocError>
    ensures { IfOk result
        (λ sorted. map pair_of sorted.items ≡ by_names (map pair_of pairs.entry.items)) }
{
    let mut pairs = pairs;
    pairs.sort_by_key(|pair| pair.name)?;
    Ok(pairs)
}

// What the lists of exports without `from` among items give, in turn.
fn pairs_in<'a>(alloc: Global, items: &'a [ModuleItem]) -> Result<Vec<Pair<'a>>, AllocError>
    ensures { IfOk result (λ pairs. map pair_of pairs.items ≡ flat_map exported_in items.now) }
{
    let mut pairs = Vec::new(alloc);
    for item in items {
        add_pairs(&mut pairs, specifiers_in(item))?;
    }
    Ok(pairs)
}

// The specifiers of an item that is a list of exports without `from`.
fn specifiers_in(item: &ModuleItem) -> &[ExportSpecifier]
    ensures { result.now ≡ specifiers_of item.now }
{
    match item {
        ModuleItem::ModuleDecl(
            ModuleDecl::NamedExport {
                specifiers,
                src: None,
                ..
            },
        ) => specifiers.as_slice(),
        _ => &[],
    }
}

// What these specifiers give, behind these pairs.
fn add_pairs<'a>(
    pairs: &mut Vec<Pair<'a>>,
    specifiers: &'a [ExportSpecifier],
) -> Result<(), AllocError>
    ensures { OnOk result (map pair_of pairs.new.items
        ≡ map pair_of pairs.old.items ++ flat_map given_by specifiers.now) }
{
    for specifier in specifiers {
        add_pair(pairs, specifier)?;
    }
    Ok(())
}

// What a specifier gives, behind these pairs: the name, with the identifier that it stands for.
fn add_pair<'a>(pairs: &mut Vec<Pair<'a>>, specifier: &'a ExportSpecifier) -> Result<(), AllocError>
    ensures { OnOk result (map pair_of pairs.new.items
        ≡ map pair_of pairs.old.items ++ given_by specifier.now) }
{
    if let ExportSpecifier::ExportNamedSpecifier {
        orig: ModuleExportName::Ident(ident),
        exported,
    } = specifier
    {
        let pair = pair_in(ident, exported);
        pairs.push(pair)?;
    }
    Ok(())
}

// The name under which an identifier is exported, with the identifier.
fn pair_in<'a>(ident: &'a Ident, exported: &'a Option<ModuleExportName>) -> Pair<'a>
    ensures { pair_of result
        ≡ (exported_under exported.now ident.now, (string_bytes ident.now.sym, ident.now.ctxt)) }
{
    let local = Name {
        sym: ident.sym.as_str(),
        ctxt: ident.ctxt.as_u32(),
    };
    Pair {
        name: name_in(exported, ident),
        local,
    }
}

// The name under which an identifier is exported.
fn name_in<'a>(name: &'a Option<ModuleExportName>, ident: &'a Ident) -> &'a str
    ensures { result.now ≡ exported_under name.now ident.now }
{
    match name {
        Some(ModuleExportName::Ident(name)) => name.sym.as_str(),
        Some(ModuleExportName::Str(name)) => name.value.as_str(),
        None => ident.sym.as_str(),
    }
}

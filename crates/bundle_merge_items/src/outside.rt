//! The items by which a bundle gets what does not stand in it as it was written: imports of externals, the helper that
//! load functions are made by, and the statements by which modules load CommonJS modules.

ghost use Rattle.std.specs.Prelude.{◌≡◌, ◌++◌, ◌∷◌, [], OnOk, IfOk, map, option_map};
ghost use Rattle.bundle_tree_places.specs.Marks.{ident_of};
ghost use Rattle.bundle_merge_injected.specs.Listed as listed;
ghost use Rattle.bundle_merge_injected.specs.Listed.{pair_of};
ghost use Rattle.bundle_merge_items.specs.Added as added;
ghost use Rattle.bundle_merge_items.specs.Added.{module_item_lists};

use crate::module::{add_item, add_stmt};
use bundle_link_tables::Taken;
use bundle_link_targets::{External, Loaded, TargetRef};
use bundle_merge_injected::{
    HelperNames, Pair, helper, import_bare, import_names, import_whole, load_statement,
};
use bundle_merge_names::{BundleNames, Label};
use bundle_tree_ast::Module;
use bundle_tree_places::Name;
use std::alloc::{AllocError, Global};

/// Adds the import declarations of an external: of the names that are meant, of the whole, or of nothing.
#[tactic(auto, using(crate::proofs::Adding::adding))]
pub(crate) fn add_external<'a>(
    alloc: Global,
    names: &BundleNames<'a>,
    external: &External<'a>,
    items: &mut Module,
) -> Result<(), AllocError>
    ensures { OnOk result (module_item_lists items.new
        ≡ module_item_lists items.old ++ added.import_declarations_of names.now external.now) }
{
    add_named_import(alloc, names, external, items)?;
    add_other_import(alloc, names, external, items)
}

// Adds the import of the names of an external that are meant, where there are some.
fn add_named_import<'a>(
    alloc: Global,
    names: &BundleNames<'a>,
    external: &External<'a>,
    items: &mut Module,
) -> Result<(), AllocError>
    ensures { OnOk result (module_item_lists items.new
        ≡ module_item_lists items.old ++ added.name_imports names.now external.now.specifier external.now.names.items) }
{
    if external.names.is_empty() {
        return Ok(());
    }
    let pairs = external_pairs(alloc, names, external)?;
    add_item(items, import_names(alloc, external.specifier, &pairs)?)
}

// Adds the import of the whole of an external, or of nothing where no name of it is taken.
fn add_other_import<'a>(
    alloc: Global,
    names: &BundleNames<'a>,
    external: &External<'a>,
    items: &mut Module,
) -> Result<(), AllocError>
    ensures { OnOk result (module_item_lists items.new ≡ module_item_lists items.old
        ++ added.other_imports names.now external.now.specifier external.now.whole external.now.names.items) }
{
    let specifier = external.specifier;
    if external.whole {
        let taken = Taken::Whole;
        let name = names.target(TargetRef::External { specifier, taken });
        add_item(items, import_whole(alloc, specifier, name)?)
    } else if external.names.is_empty() {
        add_item(items, import_bare(alloc, specifier)?)
    } else {
        Ok(())
    }
}

// The names of an external that are meant, with what stands for them.
#[tactic(auto, using(crate::proofs::Adding::adding))]
fn external_pairs<'a>(
    alloc: Global,
    names: &BundleNames<'a>,
    external: &External<'a>,
) -> Result<Vec<Pair<'a>>, AllocError>
    ensures { IfOk result (λ pairs. map pair_of pairs.items
        ≡ added.external_pairs names.now external.now.specifier external.now.names.items) }
{
    let mut pairs = Vec::new(alloc);
    for name in &external.names {
        let taken = Taken::Named(*name);
        let specifier = external.specifier;
        let local = names.target(TargetRef::External { specifier, taken });
        pairs.push(Pair { name: *name, local })?;
    }
    Ok(pairs)
}

/// Adds the helper that load functions are made by.
pub(crate) fn add_helper(
    alloc: Global,
    names: &BundleNames<'_>,
    items: &mut Module,
) -> Result<(), AllocError>
    ensures { OnOk result
        (module_item_lists items.new ≡ module_item_lists items.old ++ added.helper_of names.now ∷ []) }
{
    let helper_names = HelperNames {
        helper: names.of(Label::Helper),
        func: names.of(Label::HelperParameter),
        module_object: names.of(Label::HelperVariable),
    };
    add_stmt(items, helper(alloc, helper_names)?)
}

/// Adds the statement by which a module loads a CommonJS module.
pub(crate) fn add_load<'a>(
    alloc: Global,
    names: &BundleNames<'a>,
    taker: usize,
    loaded: &Loaded<'a>,
    items: &mut Module,
) -> Result<(), AllocError>
    ensures { OnOk result
        (module_item_lists items.new ≡ module_item_lists items.old ++ added.load_item_of names.now taker loaded.now ∷ []) }
{
    let which = loaded.which;
    let load = names.of(Label::Load { which });
    let whole = loaded_whole(names, taker, loaded);
    let pairs = loaded_pairs(alloc, names, taker, loaded)?;
    add_stmt(items, load_statement(alloc, load, whole, &pairs)?)
}

// What stands for the whole of a CommonJS module, where it is taken.
fn loaded_whole<'a>(names: &BundleNames<'a>, taker: usize, loaded: &Loaded<'a>) -> Option<Name<'a>>
    ensures { option_map ident_of result
        ≡ added.loaded_whole names.now taker loaded.now.which loaded.now.whole }
{
    if !loaded.whole {
        return None;
    }
    let which = loaded.which;
    let taken = Taken::Whole;
    Some(names.target(TargetRef::CommonJs {
        taker,
        which,
        taken,
    }))
}

// The names that are taken of a CommonJS module, with what stands for them.
#[tactic(auto, using(crate::proofs::Adding::adding))]
fn loaded_pairs<'a>(
    alloc: Global,
    names: &BundleNames<'a>,
    taker: usize,
    loaded: &Loaded<'a>,
) -> Result<Vec<Pair<'a>>, AllocError>
    ensures { IfOk result (λ pairs.
        map pair_of pairs.items ≡ added.loaded_pairs names.now taker loaded.now) }
{
    let which = loaded.which;
    let mut pairs = Vec::new(alloc);
    for name in &loaded.names {
        let taken = Taken::Named(*name);
        let local = names.target(TargetRef::CommonJs {
            taker,
            which,
            taken,
        });
        pairs.push(Pair { name: *name, local })?;
    }
    Ok(pairs)
}

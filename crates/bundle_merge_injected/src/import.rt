//! Imports of externals, and exports.

ghost use Rattle.std.specs.Prelude.{◌≡◌, IfOk, map};
ghost use Rattle.bundle_tree_listed.specs.Tree.{module_item_items};
ghost use Rattle.bundle_tree_places.specs.Marks.{ident_of};
ghost use Rattle.bundle_merge_injected.specs.Listed as listed;
ghost use Rattle.bundle_merge_injected.specs.Listed.{pair_of};

use crate::list::{NO_NOTES, PieceWriter};
use crate::name::Pair;
use bundle_tree_ast::ModuleItem;
use bundle_tree_parse::make_node;
use bundle_tree_places::Name;
use std::alloc::{AllocError, Global};

/// `import { n as l, .. } from 'specifier';`. Refused only where memory runs out.
pub fn import_names<'a>(
    alloc: Global,
    specifier: &str,
    names: &[Pair<'a>],
) -> Result<ModuleItem, AllocError>
    ensures { IfOk result (λ made. module_item_items 0 made
        ≡ listed.import_names specifier.now (map pair_of names.now)) }
{
    let mut writer = PieceWriter::new(alloc);
    writer.import_names(specifier, names, &NO_NOTES)?;
    make_node(alloc, writer.as_slice())
}

/// `import * as l from 'specifier';`. Refused only where memory runs out.
pub fn import_whole<'a>(
    alloc: Global,
    specifier: &str,
    name: Name<'a>,
) -> Result<ModuleItem, AllocError>
    ensures { IfOk result (λ made. module_item_items 0 made
        ≡ listed.import_whole specifier.now (ident_of name.entry)) }
{
    let mut writer = PieceWriter::new(alloc);
    writer.import_whole(specifier, name, &NO_NOTES)?;
    make_node(alloc, writer.as_slice())
}

/// `import 'specifier';`. Refused only where memory runs out.
pub fn import_bare(alloc: Global, specifier: &str) -> Result<ModuleItem, AllocError>
    ensures { IfOk result (λ made. module_item_items 0 made ≡ listed.import_bare specifier.now) }
{
    let mut writer = PieceWriter::new(alloc);
    writer.import_bare(specifier, &NO_NOTES)?;
    make_node(alloc, writer.as_slice())
}

/// `export * from 'specifier';`. Refused only where memory runs out.
pub fn export_star(alloc: Global, specifier: &str) -> Result<ModuleItem, AllocError>
    ensures { IfOk result (λ made. module_item_items 0 made ≡ listed.export_star specifier.now) }
{
    let mut writer = PieceWriter::new(alloc);
    writer.export_star(specifier, &NO_NOTES)?;
    make_node(alloc, writer.as_slice())
}

/// `export { l as n, .. };`. Refused only where memory runs out.
pub fn export_list<'a>(alloc: Global, names: &[Pair<'a>]) -> Result<ModuleItem, AllocError>
    ensures { IfOk result
        (λ made. module_item_items 0 made ≡ listed.export_list (map pair_of names.now)) }
{
    let mut writer = PieceWriter::new(alloc);
    writer.export_list(names, &NO_NOTES)?;
    make_node(alloc, writer.as_slice())
}

//! What the items of an entry's bundle are made for.

ghost use Rattle.std.specs.Prelude.{◌≡◌, ℕ, IfNone, IfOk, IfSome, false, length, true};
ghost use Rattle.std.specs.List.{list_any};
ghost use Rattle.bundle_rules.specs.Program as program;
ghost use Rattle.bundle_merge_causes.specs.Standing.{AreCausesTold};
ghost use Rattle.bundler_entry.specs.Caused.{AreFilesOfAll, AreItemsTold, AreShapesOfAll, IsShapeOf};
ghost use Rattle.bundler_entry.specs.Linked.{HasFiles, HasPlaces, IsCallOf, IsLinkedEntry};

use crate::call::{EntryCall, file_at, source_at};
use crate::linked::LinkedEntry;
use crate::source::ReadFile;
use bundle_link::Reached;
use bundle_link::link::setting_of;
use bundle_merge_causes::{BundleCauses, ItemCause, ModuleShape, causes_of, statement_count};
use bundle_order_sort::Block;
use bundle_tree_names::file_name::FileName;
use std::alloc::{AllocError, Global};

/// What the items of the bundle of an entry are made for. Refused only where memory runs out.
pub fn causes_in<'p, 'x>(
    alloc: Global,
    call: &EntryCall<'p, 'x>,
    linked: &LinkedEntry<'x>,
) -> Result<BundleCauses, AllocError>
    ensures { IfOk result (λ told. (p : program.Program) (entry : ℕ) →
        IsCallOf p entry call.now → IsLinkedEntry p call.now linked.now →
        AreCausesTold p told) }
{
    let modules = files_in(alloc, call, &linked.reached)?;
    let items = items_in(alloc, call, linked)?;
    Ok(BundleCauses { modules, items })
}

// The files of the modules.
fn files_in<'p, 'x>(
    alloc: Global,
    call: &EntryCall<'p, 'x>,
    reached: &Reached,
) -> Result<Vec<FileName>, AllocError>
    ensures { IfOk result (λ files.
        HasFiles call.now reached.now (length reached.now.places.items) →
        AreFilesOfAll call.now reached.now (length reached.now.places.items) files.items) }
{
    let mut files = Vec::new(alloc);
    for which in 0..reached.places.len() {
        if let Some((file, _)) = file_at(call, reached, which) {
            files.push(file.clone()?)?;
        }
    }
    Ok(files)
}

// What the items are made for, where no block is sorted.
fn items_in<'p, 'x>(
    alloc: Global,
    call: &EntryCall<'p, 'x>,
    linked: &LinkedEntry<'x>,
) -> Result<Option<Vec<ItemCause>>, AllocError>
    ensures { IfOk result (λ items. (p : program.Program) (entry : ℕ) →
        IsCallOf p entry call.now → IsLinkedEntry p call.now linked.now →
        AreItemsTold p linked.now.reached.list.items items) }
{
    if has_cycle(&linked.plan.blocks) {
        return Ok(None);
    }
    let shapes = shapes_of(alloc, call, &linked.reached)?;
    let is_call = setting_of(&call.config.base).iife;
    let causes = causes_of(alloc, &linked.linking, &shapes, is_call)?;
    Ok(Some(causes))
}

// Whether a block is sorted.
fn has_cycle(blocks: &[Block]) -> bool
    ensures { result ≡ list_any (λ block. block.is_cycle) blocks.now }
{
    blocks.iter().any(|block| block.is_cycle)
}

// The shapes of the modules.
fn shapes_of<'p, 'x>(
    alloc: Global,
    call: &EntryCall<'p, 'x>,
    reached: &Reached,
) -> Result<Vec<ModuleShape>, AllocError>
    ensures { IfOk result (λ shapes.
        HasPlaces call.now.program.now.sources.items reached.now (length reached.now.places.items) →
        AreShapesOfAll call.now reached.now (length reached.now.places.items) shapes.items) }
{
    let mut shapes = Vec::new(alloc);
    for which in 0..reached.places.len() {
        if let Some(source) = source_at(call, reached, which) {
            shapes.push(shape_of(source))?;
        }
    }
    Ok(shapes)
}

// The shape of a module.
fn shape_of(source: &ReadFile<'_>) -> ModuleShape
    ensures { IsShapeOf source.now result }
{
    ModuleShape {
        has_import_meta: source.tables.has_import_meta,
        statements: statement_count(source.tree),
    }
}

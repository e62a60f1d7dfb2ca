//! What the top items of a module import.

ghost use Rattle.std.specs.Prelude.{◌≡◌, ◌++◌, map, IfOk, OnOk};
ghost use Rattle.std.specs.List.{flat_map, list_any};
ghost use Rattle.bundle_syntax.specs.Item.{head_of, item_of};
ghost use Rattle.bundle_rules.specs.Nodes.{begins_with};
ghost use Rattle.bundle_rules.specs.Entries as entries;
ghost use Rattle.bundle_rules.specs.Entries.{imports_of_item, import_entry, taken_by};
ghost use Rattle.bundle_tree_places.specs.Heads.{is_import};
ghost use Rattle.bundle_tree_places.specs.Parted.{part_items};
ghost use Rattle.bundle_link_tables.specs.TablesOf.{import_entry_of, taken_of, entry_as};

use crate::table::{ImportRef, Taken};
use bundle_syntax::{Node, Piece};
use bundle_tree_places::nodes::is_module_declaration;
use bundle_tree_places::parts::{NodeAt, in_field, node_of, renamed_text, text_in};
use std::alloc::{AllocError, Global};

/// The imports of a module's top items, in the order of the source.
pub fn imports_of<'a>(
    alloc: Global,
    tops: &[NodeAt<'_, 'a>],
) -> Result<Vec<ImportRef<'a>>, AllocError>
    ensures { IfOk result (λ imports.
        map import_entry_of imports.items ≡ flat_map imports_of_item (map part_items tops.now)) }
{
    let mut imports = Vec::new(alloc);
    for top in tops {
        add_imports(alloc, &mut imports, *top)?;
    }
    Ok(imports)
}

/// Adds what a top item imports.
#[tactic(auto, using(std::proofs::lemmas::Grind::common_steps, crate::proofs::ImportLemmas::imports_here, crate::proofs::ImportLemmas::imports_none))]
pub(crate) fn add_imports<'a>(
    alloc: Global,
    imports: &mut Vec<ImportRef<'a>>,
    item: NodeAt<'_, 'a>,
) -> Result<(), AllocError>
    ensures { OnOk result
        (map import_entry_of imports.new.items
        ≡ map import_entry_of imports.old.items ++ imports_of_item (part_items item.entry)) }
{
    if !begins_import(item.pieces) {
        return Ok(());
    }
    let specifier = text_in(item.pieces, 1);
    for part in &in_field(alloc, item, 0)? {
        add_import(imports, *part, specifier)?;
    }
    Ok(())
}

// Whether an import declaration begins a list.
fn begins_import(pieces: &[Piece]) -> bool
    ensures { result ≡ begins_with is_import (map item_of pieces.now) }
{
    match pieces.first() {
        Some(
            Piece::Open {
                node: Node::ImportDecl { .. },
                ..
            },
        ) => true,
        _ => false,
    }
}

// Adds what an import specifier imports.
#[tactic(auto, using(std::proofs::lemmas::Grind::common_steps, crate::proofs::ImportLemmas::entry_some, crate::proofs::ImportLemmas::entry_none))]
fn add_import<'a>(
    imports: &mut Vec<ImportRef<'a>>,
    part: NodeAt<'_, 'a>,
    specifier: &'a str,
) -> Result<(), AllocError>
    ensures { OnOk result
        (map import_entry_of imports.new.items
        ≡ map import_entry_of imports.old.items
        ++ import_entry specifier.now (part_items part.entry)) }
{
    if let Some(node) = node_of(part.pieces) {
        imports.push(import_at(part, node, specifier))?;
    }
    Ok(())
}

// What an import specifier with this head imports.
fn import_at<'a>(part: NodeAt<'_, 'a>, node: Node<'a>, specifier: &'a str) -> ImportRef<'a>
    ensures { import_entry_of result
        ≡ entry_as (head_of node.entry) specifier.now (part_items part.entry) }
{
    ImportRef {
        local: text_in(part.pieces, 0),
        specifier,
        taken: taken_at(part.pieces, node),
    }
}

// What an import specifier with this head takes.
fn taken_at<'a>(pieces: &[Piece<'a>], node: Node<'a>) -> Taken<'a>
    ensures { taken_of result ≡ taken_by (head_of node.entry) (map item_of pieces.now) }
{
    match node {
        Node::ImportStarAsSpecifier => Taken::Whole,
        Node::ImportDefaultSpecifier => Taken::Named("default"),
        _ => Taken::Named(renamed_text(pieces)),
    }
}

/// Whether one of a module's top items is an import or export declaration.
pub fn has_declaration(tops: &[NodeAt]) -> bool
    ensures { result
        ≡ list_any (λ top. begins_with entries.is_module_declaration (part_items top)) tops.now }
{
    tops.iter().any(|top| begins_declaration(top.pieces))
}

// Whether an import or export declaration begins a list.
fn begins_declaration(pieces: &[Piece]) -> bool
    ensures { result ≡ begins_with entries.is_module_declaration (map item_of pieces.now) }
{
    match pieces.first() {
        Some(Piece::Open { node, .. }) => is_module_declaration(*node),
        _ => false,
    }
}

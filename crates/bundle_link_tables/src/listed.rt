//! The names in export lists without `from`.

ghost use Rattle.std.specs.Prelude.{◌≡◌, ◌++◌, map, IfOk, OnOk};
ghost use Rattle.std.specs.List.{flat_map};
ghost use Rattle.bundle_syntax.specs.Item.{item_of};
ghost use Rattle.bundle_rules.specs.Faults.{is_string_head, names_listed};
ghost use Rattle.bundle_rules.specs.Nodes.{begins_with};
ghost use Rattle.bundle_tree_places.specs.Heads.{is_named_export};
ghost use Rattle.bundle_link_tables.specs.Listed.{kept_listed, listed_alone, export_listed_as, lists_names};
ghost use Rattle.bundle_tree_places.specs.Parted.{part_items};

use crate::exports::begins_named;
use bundle_syntax::{Node, Piece};
use bundle_tree_places::parts::{NodeAt, child, in_field, name_of, string_of};
use std::alloc::{AllocError, Global};

/// A name in an export list without `from`.
#[derive(Clone, Copy)]
pub struct ExportListName<'a> {
    pub name: &'a str,
    pub is_string: bool,
}

/// The names in export lists without `from`, in the order of the source.
pub fn listed_of<'a>(
    alloc: Global,
    tops: &[NodeAt<'_, 'a>],
) -> Result<Vec<ExportListName<'a>>, AllocError>
    ensures { IfOk result (λ listed.
        map export_listed_as listed.items ≡ flat_map names_listed (map part_items tops.now)) }
{
    let mut listed = Vec::new(alloc);
    for top in tops {
        add_listed(alloc, &mut listed, *top)?;
    }
    Ok(listed)
}

// Adds what a top item lists.
#[tactic(auto, using(std::proofs::lemmas::Grind::common_steps, crate::proofs::ListedLemmas::listed_here, crate::proofs::ListedLemmas::listed_nowhere))]
fn add_listed<'a>(
    alloc: Global,
    listed: &mut Vec<ExportListName<'a>>,
    item: NodeAt<'_, 'a>,
) -> Result<(), AllocError>
    ensures { OnOk result
        (map export_listed_as listed.new.items
        ≡ map export_listed_as listed.old.items ++ names_listed (part_items item.entry)) }
{
    if !begins_list(item.pieces) {
        return Ok(());
    }
    for specifier in &in_field(alloc, item, 0)? {
        add_name(listed, *specifier)?;
    }
    Ok(())
}

// Adds the name that a specifier lists.
fn add_name<'a>(
    listed: &mut Vec<ExportListName<'a>>,
    specifier: NodeAt<'_, 'a>,
) -> Result<(), AllocError>
    ensures { OnOk result
        (map export_listed_as listed.new.items
        ≡ map export_listed_as listed.old.items ++ kept_listed (part_items specifier.entry)) }
{
    if let Some(name) = listed_at(specifier.pieces) {
        listed.push(name)?;
    }
    Ok(())
}

// The name that a specifier lists.
fn listed_at<'a>(specifier: &[Piece<'a>]) -> Option<ExportListName<'a>>
    ensures { listed_alone result ≡ kept_listed (map item_of specifier.now) }
{
    if !begins_named(specifier) {
        return None;
    }
    let first = child(specifier, 0);
    match name_of(first) {
        Some(name) => Some(ExportListName {
            name,
            is_string: begins_string(first),
        }),
        None => None,
    }
}

// Whether a string begins a list.
fn begins_string(pieces: &[Piece]) -> bool
    ensures { result ≡ begins_with is_string_head (map item_of pieces.now) }
{
    match pieces.first() {
        Some(
            Piece::Open {
                node: Node::Str { .. },
                ..
            },
        ) => true,
        _ => false,
    }
}

// Whether an export list without `from` begins a list.
fn begins_list(pieces: &[Piece]) -> bool
    ensures { result ≡ lists_names (map item_of pieces.now) }
{
    begins_named_export(pieces) && string_of(child(pieces, 1)).is_none()
}

// Whether an export list begins a list.
fn begins_named_export(pieces: &[Piece]) -> bool
    ensures { result ≡ begins_with is_named_export (map item_of pieces.now) }
{
    match pieces.first() {
        Some(
            Piece::Open {
                node: Node::NamedExport { .. },
                ..
            },
        ) => true,
        _ => false,
    }
}

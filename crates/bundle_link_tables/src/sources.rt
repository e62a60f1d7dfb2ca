//! What the top items of a module ask for.

ghost use Rattle.std.specs.Prelude.{◌≡◌, ◌++◌, map, List, IfOk, OnOk};
ghost use Rattle.std.specs.List.{flat_map};
ghost use Rattle.bundle_syntax.specs.Item.{head_of, item_of};
ghost use Rattle.bundle_rules.specs.Entries.{requests_by, requests_of_item};
ghost use Rattle.bundle_rules.specs.Nodes.{each_once, Text};
ghost use Rattle.bundle_link_tables.specs.Exported.{text_list};
ghost use Rattle.bundle_tree_places.specs.Parted.{part_items};
ghost use Rattle.bundle_link_tables.specs.Sources.{source_asked, has_external, star_by, star_in};

use crate::table::Source;
use bundle_scope_denote::texts::TextSet;
use bundle_syntax::{Node, Piece};
use bundle_tree_places::parts::{NodeAt, child, node_of, string_of, text_in};
use std::alloc::{AllocError, Global};

/// What the top items of a module ask for, in the order of the source. `external` are the texts that are external.
pub fn sources_of<'a>(
    alloc: Global,
    tops: &[NodeAt<'_, 'a>],
    external: &TextSet<&str>,
) -> Result<Vec<Source<'a>>, AllocError>
    ensures { IfOk result (λ sources.
        map source_asked sources.items
        ≡ map (has_external external.now) (flat_map requests_of_item (map part_items tops.now))) }
{
    let mut sources = Vec::new(alloc);
    for top in tops {
        add_source(&mut sources, *top, external)?;
    }
    Ok(sources)
}

// Adds what a top item asks for.
fn add_source<'a>(
    sources: &mut Vec<Source<'a>>,
    item: NodeAt<'_, 'a>,
    external: &TextSet<&str>,
) -> Result<(), AllocError>
    ensures { OnOk result
        (map source_asked sources.new.items
        ≡ map source_asked sources.old.items
        ++ map (has_external external.now) (requests_of_item (part_items item.entry))) }
{
    if let Some(specifier) = asked_by(item.pieces) {
        sources.push(Source {
            specifier,
            is_external: external.has_text(specifier),
        })?;
    }
    Ok(())
}

// What an item asks for.
fn asked_by<'a>(pieces: &[Piece<'a>]) -> Option<&'a str>
    ensures { text_list result ≡ requests_of_item (map item_of pieces.now) }
{
    match node_of(pieces) {
        Some(node) => asked_as(node, pieces),
        None => None,
    }
}

// What an item with this head asks for.
fn asked_as<'a>(node: Node<'a>, pieces: &[Piece<'a>]) -> Option<&'a str>
    ensures { text_list result ≡ requests_by (head_of node.entry) (map item_of pieces.now) }
{
    match node {
        Node::ImportDecl { .. } => Some(text_in(pieces, 1)),
        Node::NamedExport { .. } => string_of(child(pieces, 1)),
        Node::ExportAll { .. } => Some(text_in(pieces, 0)),
        _ => None,
    }
}

// What `export * from` asks for at an item.
fn star_at<'a>(pieces: &[Piece<'a>]) -> Option<&'a str>
    ensures { text_list result ≡ star_in (map item_of pieces.now) }
{
    match node_of(pieces) {
        Some(node) => star_as(node, pieces),
        None => None,
    }
}

// The same at an item with this head.
fn star_as<'a>(node: Node<'a>, pieces: &[Piece<'a>]) -> Option<&'a str>
    ensures { text_list result ≡ star_by (head_of node.entry) (map item_of pieces.now) }
{
    match node {
        Node::ExportAll { .. } => Some(text_in(pieces, 0)),
        _ => None,
    }
}

/// What `export * from` asks for, each text once, where it stands first.
pub fn stars_of<'a>(alloc: Global, tops: &[NodeAt<'_, 'a>]) -> Result<TextSet<&'a str>, AllocError>
    ensures { IfOk result (λ stars.
        map (λ key. key.now) stars.keys
        ≡ each_once (flat_map star_in (map part_items tops.now))) }
{
    let mut stars = TextSet::new(alloc);
    for top in tops {
        add_star(&mut stars, *top)?;
    }
    Ok(stars)
}

// Adds what `export * from` asks for at an item.
fn add_star<'a>(stars: &mut TextSet<&'a str>, item: NodeAt<'_, 'a>) -> Result<(), AllocError>
    ensures { (seen : List Text) →
        map (λ key. key.now) stars.old.keys ≡ each_once seen →
        OnOk result
        (map (λ key. key.now) stars.new.keys
        ≡ each_once (seen ++ star_in (part_items item.entry))) }
{
    if let Some(specifier) = star_at(item.pieces) {
        stars.insert(specifier)?;
    }
    Ok(())
}

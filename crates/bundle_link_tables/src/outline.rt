//! What decides what a module asks to be loaded, and what is wrong with it by itself.

ghost use Rattle.std.specs.Prelude.{◌≡◌, IfOk, Option, filter, map, not};
ghost use Rattle.std.specs.List.{flat_map};
ghost use Rattle.bundle_syntax.specs.Item.{item_of};
ghost use Rattle.bundle_rules.specs.Entries as the_entries;
ghost use Rattle.bundle_rules.specs.Entries.{ImportEntry, declared_requests, requests_of_item};
ghost use Rattle.bundle_rules.specs.Faults.{entry_name, listed_names, names_listed};
ghost use Rattle.bundle_rules.specs.Nodes.{Text};
ghost use Rattle.bundle_rules.specs.Tables.{is_star};
ghost use Rattle.bundle_tree_places.specs.Parted.{part_items};
ghost use Rattle.bundle_link_tables.specs.Exported.{exports_named};
ghost use Rattle.bundle_link_tables.specs.Listed.{export_listed_as};
ghost use Rattle.bundle_link_tables.specs.Sources.{source_asked, has_external};
ghost use Rattle.bundle_link_tables.specs.TablesOf.{export_entry_of};

use crate::exports::exports_of;
use crate::listed::{ExportListName, listed_of};
use crate::sources::sources_of;
use crate::table::{Export, Source};
use bundle_scope_denote::texts::{TextMap, TextSet};
use bundle_syntax::Piece;
use bundle_tree_places::parts::{NodeAt, top_items};
use std::alloc::{AllocError, Global};

/// What a module gives and asks for, whatever its imports bind.
#[derive(Drop)]
pub struct Outline<'a> {
    /// What it exports under a name: the names are right, but not where each comes from.
    pub exports: Vec<Export<'a>>,
    pub sources: Vec<Source<'a>>,
    pub listed: Vec<ExportListName<'a>>,
}

/// What a module gives and asks for, whatever its imports bind. `external` are the texts that are external.
pub fn outline_of<'a>(
    alloc: Global,
    pieces: &[Piece<'a>],
    external: &TextSet<&str>,
) -> Result<Outline<'a>, AllocError>
    ensures names { IfOk result (λ outline.
        map entry_name (map export_entry_of outline.exports.items)
        ≡ map entry_name
        (filter (λ entry. not (is_star entry)) (the_entries.exports_of (map item_of pieces.now)))) }
    ensures sources { IfOk result (λ outline.
        map source_asked outline.sources.items
        ≡ map (has_external external.now) (declared_requests (map item_of pieces.now))) }
    ensures listed { IfOk result (λ outline.
        map export_listed_as outline.listed.items ≡ listed_names (map item_of pieces.now)) }
{
    let tops = top_items(alloc, pieces)?;
    let outline = outline_in(alloc, &tops, external)?;
    Ok(outline)
}

// The same of the top items of a module: under which names they export does not hang on what imports bind.
fn outline_in<'a>(
    alloc: Global,
    tops: &[NodeAt<'_, 'a>],
    external: &TextSet<&str>,
) -> Result<Outline<'a>, AllocError>
    ensures names { IfOk result (λ outline.
        (look : Text → Option ImportEntry) →
        map entry_name (map export_entry_of outline.exports.items)
        ≡ map entry_name (flat_map (exports_named look) (map part_items tops.now))) }
    ensures sources { IfOk result (λ outline.
        map source_asked outline.sources.items
        ≡ map (has_external external.now) (flat_map requests_of_item (map part_items tops.now))) }
    ensures listed { IfOk result (λ outline.
        map export_listed_as outline.listed.items
        ≡ flat_map names_listed (map part_items tops.now)) }
{
    let none = TextMap::new(alloc);
    let exports = exports_of(alloc, tops, &none)?;
    let sources = sources_of(alloc, tops, external)?;
    let listed = listed_of(alloc, tops)?;
    Ok(Outline {
        exports,
        sources,
        listed,
    })
}

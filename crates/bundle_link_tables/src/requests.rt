//! What a module asks to be loaded, without its other tables.

ghost use Rattle.std.specs.Prelude.{◌≡◌, [], IfOk, MatchResult, filter, map, not};
ghost use Rattle.bundle_tree_names.specs.FileName.{Name};
ghost use Rattle.bundle_syntax.specs.Item.{item_of};
ghost use Rattle.bundle_rules.specs.Bound.{is_free};
ghost use Rattle.bundle_rules.specs.Declarations.{BySymbol};
ghost use Rattle.bundle_rules.specs.Entries as the_entries;
ghost use Rattle.bundle_rules.specs.Entries.{Settings, requests_of};
ghost use Rattle.bundle_rules.specs.Faults.{entry_name, listed_names, IsFaultless, IsFirstTreeFault};
ghost use Rattle.bundle_rules.specs.Scopes.{Es};
ghost use Rattle.bundle_rules.specs.Tables.{is_star};
ghost use Rattle.bundle_scope_denote.specs.Listed.{IsDenotationTable};
ghost use Rattle.bundle_link_tables.specs.Listed.{export_listed_as};
ghost use Rattle.bundle_link_tables.specs.Sources.{HasTexts};
ghost use Rattle.bundle_link_tables.specs.TablesOf.{call_entry_of, export_entry_of, fault_in};

use crate::calls::{linked_calls, may_call};
use crate::faults::{first_fault, first_unlisted_fault};
use crate::outline::{Outline, outline_of};
use crate::table::{FileFault, RequireCall};
use crate::tables::requests;
use bundle_scope_denote::texts::TextSet;
use bundle_scope_denote::{Denotations, ModuleKind, Reading, denotations};
use bundle_syntax::Piece;
use bundle_tree_places::nodes::has_with;
use std::alloc::{AllocError, Global};

/// What a module asks to be loaded, each text once, or the first fault of the module by itself: what its tables tell
/// (`tables_of`), for less. What its names denote is looked for only where something hangs on it: where a list of exports
/// without `from` stands in it, or a name `require` where literal calls of it are linked.
pub fn requests_in<'a>(
    alloc: Global,
    pieces: &[Piece<'a>],
    require: bool,
    external: &TextSet<&str>,
) -> Result<Result<Vec<&'a str>, FileFault<'a>>, AllocError>
    ensures requests { IfOk result (λ answer.
        IfOk answer (λ requests.
        (settings : Settings) →
        settings.require ≡ require →
        HasTexts external.now settings.external →
        map (λ request. request.now) requests.items
        ≡ requests_of settings (is_free (map item_of pieces.now)) (map item_of pieces.now))) }
    ensures judged { IfOk result (λ answer.
        (file : Name) →
        MatchResult answer (λ requests. IsFaultless file (map item_of pieces.now))
        (λ fault. IsFirstTreeFault file (map item_of pieces.now) (fault_in file fault))) }
{
    let outline = outline_of(alloc, pieces, external)?;
    let judged = calls_in(alloc, pieces, require, external, &outline)?;
    match judged {
        Ok(calls) => Ok(Ok(requests(alloc, &outline.sources, &calls)?)),
        Err(fault) => Ok(Err(fault)),
    }
}

// The literal calls of `require` that are linked, or the first fault, where this is what the module gives and asks for.
fn calls_in<'a>(
    alloc: Global,
    pieces: &[Piece<'a>],
    require: bool,
    external: &TextSet<&str>,
    outline: &Outline<'a>,
) -> Result<Result<Vec<RequireCall<'a>>, FileFault<'a>>, AllocError>
    requires names { map entry_name (map export_entry_of outline.now.exports.items)
        ≡ map entry_name
        (filter (λ entry. not (is_star entry)) (the_entries.exports_of (map item_of pieces.now))) }
    requires listed { map export_listed_as outline.now.listed.items
        ≡ listed_names (map item_of pieces.now) }
    ensures calls { IfOk result (λ answer.
        IfOk answer (λ calls.
        (settings : Settings) →
        settings.require ≡ require →
        HasTexts external.now settings.external →
        map call_entry_of calls.items
        ≡ the_entries.linked_calls settings (is_free (map item_of pieces.now))
        (map item_of pieces.now))) }
    ensures judged { IfOk result (λ answer.
        (file : Name) →
        MatchResult answer (λ calls. IsFaultless file (map item_of pieces.now))
        (λ fault. IsFirstTreeFault file (map item_of pieces.now) (fault_in file fault))) }
{
    if outline.listed.is_empty() && !may_call(pieces, require) {
        return no_calls(alloc, pieces, outline);
    }
    let names = denotations(alloc, pieces, ModuleKind::Es, Reading::BySymbol)?;
    calls_by(alloc, pieces, &names, require, external, outline)
}

// No calls, or the first fault, where no list of exports without `from` stands in the module.
fn no_calls<'a>(
    alloc: Global,
    pieces: &[Piece<'a>],
    outline: &Outline<'a>,
) -> Result<Result<Vec<RequireCall<'a>>, FileFault<'a>>, AllocError>
    requires names { map entry_name (map export_entry_of outline.now.exports.items)
        ≡ map entry_name
        (filter (λ entry. not (is_star entry)) (the_entries.exports_of (map item_of pieces.now))) }
    requires unlisted { listed_names (map item_of pieces.now) ≡ [] }
    ensures calls { IfOk result (λ answer. IfOk answer (λ calls. calls.items ≡ [])) }
    ensures judged { IfOk result (λ answer.
        (file : Name) →
        MatchResult answer (λ calls. IsFaultless file (map item_of pieces.now))
        (λ fault. IsFirstTreeFault file (map item_of pieces.now) (fault_in file fault))) }
{
    let first = first_unlisted_fault(alloc, pieces, &outline.exports)?;
    match first {
        Some(fault) => Ok(Err(fault)),
        None => Ok(Ok(Vec::new(alloc))),
    }
}

// The calls that are linked, or the first fault, where this is what the names of the module denote.
fn calls_by<'a>(
    alloc: Global,
    pieces: &[Piece<'a>],
    names: &Denotations<'a>,
    require: bool,
    external: &TextSet<&str>,
    outline: &Outline<'a>,
) -> Result<Result<Vec<RequireCall<'a>>, FileFault<'a>>, AllocError>
    requires table { IsDenotationTable BySymbol Es (map item_of pieces.now) names.now }
    requires names { map entry_name (map export_entry_of outline.now.exports.items)
        ≡ map entry_name
        (filter (λ entry. not (is_star entry)) (the_entries.exports_of (map item_of pieces.now))) }
    requires listed { map export_listed_as outline.now.listed.items
        ≡ listed_names (map item_of pieces.now) }
    ensures calls { IfOk result (λ answer.
        IfOk answer (λ calls.
        (settings : Settings) →
        settings.require ≡ require →
        HasTexts external.now settings.external →
        map call_entry_of calls.items
        ≡ the_entries.linked_calls settings (is_free (map item_of pieces.now))
        (map item_of pieces.now))) }
    ensures judged { IfOk result (λ answer.
        (file : Name) →
        MatchResult answer (λ calls. IsFaultless file (map item_of pieces.now))
        (λ fault. IsFirstTreeFault file (map item_of pieces.now) (fault_in file fault))) }
{
    let first = first_fault(
        alloc,
        pieces,
        names,
        &outline.exports,
        &outline.listed,
        has_with(pieces),
    )?;
    match first {
        Some(fault) => Ok(Err(fault)),
        None => Ok(Ok(linked_calls(alloc, pieces, names, require, external)?)),
    }
}

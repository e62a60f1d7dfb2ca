//! The tables of a module from its list.

ghost use Rattle.std.specs.Prelude.{◌≡◌, codes, IfOk, MatchResult, filter, map, not, string_bytes, ◌&&◌, ◌++◌, ◌∷◌, [], List, OnOk};
ghost use Rattle.std.specs.List.{flat_map};
ghost use Rattle.bundle_tree_names.specs.FileName.{Name};
ghost use Rattle.bundle_syntax.specs.Item.{item_of};
ghost use Rattle.bundle_rules.specs.Declarations.{BySymbol};
ghost use Rattle.bundle_rules.specs.Scopes.{Es};
ghost use Rattle.bundle_scope_denote.specs.Listed.{IsDenotationTable};
ghost use Rattle.bundle_rules.specs.Awaits as Awaits;
ghost use Rattle.bundle_rules.specs.Bound as bound;
ghost use Rattle.bundle_rules.specs.Bound.{is_free};
ghost use Rattle.bundle_rules.specs.Entries as the_entries;
ghost use Rattle.bundle_rules.specs.Entries.{Settings, declared_requests, requests_of};
ghost use Rattle.bundle_rules.specs.Faults.{asked_names, IsFaultless, IsFirstTreeFault};
ghost use Rattle.bundle_rules.specs.Nodes.{each_once, Text};
ghost use Rattle.bundle_rules.specs.Tables.{is_star, star_of};
ghost use Rattle.bundle_link_tables.specs.Sources.{source_asked, told_external, unexternal, unexternal_one, HasTexts};
ghost use Rattle.bundle_link_tables.specs.Exported.{Finds};
ghost use Rattle.bundle_link_tables.specs.Used.{begin_in_turn, read_places, use_entry_of, uses_of};
ghost use Rattle.bundle_link_tables.specs.TablesOf.{asked_name_of, call_entry_of, export_entry_of, fault_in, import_entry_of, uses_common_js};

use crate::calls::linked_calls;
use crate::entries::{Entries, entries_of};
use crate::faults::first_fault;
use crate::free::{has_free, names_common_js};
use crate::table::{FileFault, RequireCall, Source, Tables};
use crate::walk::{UsesFound, found_in};
use bundle_scope_denote::Denotations;
use bundle_scope_denote::texts::TextSet;
use bundle_syntax::Piece;
use bundle_tree_places::rare::{Rare, rare_in};
use std::alloc::{AllocError, Global};

/// The tables of a module, or the first fault of the module by itself: exports that are doubled are judged before
/// those that are undeclared, and these before `with`.
///
/// `denotations` are those of the list as an ECMAScript module, by symbol. `require` says whether literal
/// calls of `require` are linked, and `external` which texts are external (`external_texts`).
pub fn tables_of<'a>(
    alloc: Global,
    pieces: &[Piece<'a>],
    denotations: &Denotations<'a>,
    require: bool,
    external: &TextSet<&str>,
) -> Result<Result<Tables<'a>, FileFault<'a>>, AllocError>
    ensures meta { IfOk result (λ answer. IfOk answer (λ tables.
        tables.has_import_meta ≡ the_entries.has_import_meta (map item_of pieces.now))) }
    ensures imports { IfOk result (λ answer.
        IfOk answer (λ tables.
        map import_entry_of tables.imports.items
        ≡ the_entries.imports_of (map item_of pieces.now))) }
    ensures exports { IfOk result (λ answer.
        IfOk answer (λ tables.
        map export_entry_of tables.exports.items
        ≡ filter (λ entry. not (is_star entry))
        (the_entries.exports_of (map item_of pieces.now)))) }
    ensures asked { IfOk result (λ answer. IfOk answer (λ tables.
        map asked_name_of tables.asked.items ≡ asked_names (map item_of pieces.now))) }
    ensures stars { IfOk result (λ answer.
        IfOk answer (λ tables.
        map (λ star. star.now) tables.stars.items
        ≡ each_once (flat_map star_of (the_entries.exports_of (map item_of pieces.now))))) }
    ensures sources { IfOk result (λ answer.
        IfOk answer (λ tables.
        (texts : List Text) →
        HasTexts external.now texts →
        map source_asked tables.sources.items
        ≡ map (told_external texts) (declared_requests (map item_of pieces.now)))) }
    ensures calls { IfOk result (λ answer.
        IfOk answer (λ tables.
        (settings : Settings) →
        settings.require ≡ require →
        HasTexts external.now settings.external →
        IsDenotationTable BySymbol Es (map item_of pieces.now) denotations.now →
        map call_entry_of tables.calls.items
        ≡ the_entries.linked_calls settings (is_free (map item_of pieces.now))
        (map item_of pieces.now))) }
    ensures requests { IfOk result (λ answer.
        IfOk answer (λ tables.
        (settings : Settings) →
        settings.require ≡ require →
        HasTexts external.now settings.external →
        IsDenotationTable BySymbol Es (map item_of pieces.now) denotations.now →
        map (λ request. request.now) tables.requests.items
        ≡ requests_of settings (is_free (map item_of pieces.now)) (map item_of pieces.now))) }
    ensures script { IfOk result (λ answer. IfOk answer (λ tables.
        tables.is_script ≡ the_entries.is_script (map item_of pieces.now))) }
    ensures common_js { IfOk result (λ answer.
        IfOk answer (λ tables.
        IsDenotationTable BySymbol Es (map item_of pieces.now) denotations.now →
        tables.names_common_js ≡ uses_common_js (map item_of pieces.now))) }
    ensures arguments { IfOk result (λ answer.
        IfOk answer (λ tables.
        IsDenotationTable BySymbol Es (map item_of pieces.now) denotations.now →
        tables.has_free_arguments
        ≡ bound.has_free (map item_of pieces.now) (codes "arguments"))) }
    ensures awaits { IfOk result (λ answer.
        IfOk answer (λ tables. tables.awaits ≡ Awaits.awaits_outside (map item_of pieces.now))) }
    ensures reads { IfOk result (λ answer.
        IfOk answer (λ tables.
        map (read_places tables.reads.items) tables.uses.items
        ≡ map begin_in_turn tables.uses.items)) }
    ensures uses { IfOk result (λ answer.
        IfOk answer (λ tables.
        IsDenotationTable BySymbol Es (map item_of pieces.now) denotations.now →
        map (use_entry_of tables.reads.items) tables.uses.items
        ≡ uses_of (map item_of pieces.now))) }
    ensures judged { IfOk result (λ answer.
        (file : Name) →
        IsDenotationTable BySymbol Es (map item_of pieces.now) denotations.now →
        MatchResult answer (λ tables. IsFaultless file (map item_of pieces.now))
        (λ fault. IsFirstTreeFault file (map item_of pieces.now) (fault_in file fault))) }
{
    let entries = entries_of(alloc, pieces, external)?;
    let rare = rare_in(alloc, pieces)?;
    let given = &entries.given;
    let first = first_fault(
        alloc,
        pieces,
        denotations,
        &given.exports,
        &given.listed,
        rare.with,
    )?;
    if let Some(fault) = first {
        return Ok(Err(fault));
    }
    let made = made_of(alloc, pieces, denotations, require, external, &entries)?;
    Ok(Ok(put_together(pieces, denotations, entries, made, rare)))
}

/// The texts that are external, each once: made once for all modules whose tables are asked for.
pub fn external_texts<'t>(alloc: Global, list: &'t [String]) -> Result<TextSet<&'t str>, AllocError>
    ensures { IfOk result (λ texts. HasTexts texts (map string_bytes list.now)) }
{
    let mut texts = TextSet::new(alloc);
    for text in list {
        texts.insert(text.as_str())?;
    }
    Ok(texts)
}

// What the tables of a module have beside what it imports and gives.
#[derive(Drop)]
struct Made<'a> {
    calls: Vec<RequireCall<'a>>,
    requests: Vec<&'a str>,
    stars: Vec<&'a str>,
    found: UsesFound<'a>,
}

// What the tables of a module have beside what it imports and gives.
fn made_of<'a>(
    alloc: Global,
    pieces: &[Piece<'a>],
    denotations: &Denotations<'a>,
    require: bool,
    external: &TextSet<&str>,
    entries: &Entries<'a>,
) -> Result<Made<'a>, AllocError>
    ensures calls { IfOk result (λ made.
        (settings : Settings) →
        settings.require ≡ require →
        HasTexts external.now settings.external →
        IsDenotationTable BySymbol Es (map item_of pieces.now) denotations.now →
        map call_entry_of made.calls.items
        ≡ the_entries.linked_calls settings (is_free (map item_of pieces.now))
        (map item_of pieces.now)) }
    ensures requests { IfOk result (λ made.
        map (λ request. request.now) made.requests.items
        ≡ each_once
        (unexternal entries.now.given.sources.items
        ++ map (λ call. call.specifier.now) made.calls.items)) }
    ensures stars { IfOk result (λ made. made.stars.items ≡ entries.now.given.stars.keys) }
    ensures reads { IfOk result (λ made.
        map (read_places made.found.reads.items) made.found.uses.items
        ≡ map begin_in_turn made.found.uses.items) }
    ensures uses { IfOk result (λ made.
        Finds entries.now.locals (the_entries.imports_of (map item_of pieces.now)) →
        IsDenotationTable BySymbol Es (map item_of pieces.now) denotations.now →
        map (use_entry_of made.found.reads.items) made.found.uses.items
        ≡ uses_of (map item_of pieces.now)) }
{
    let calls = linked_calls(alloc, pieces, denotations, require, external)?;
    let requests = requests(alloc, &entries.given.sources, &calls)?;
    let stars = entries
        .given
        .stars
        .as_slice()
        .iter()
        .copied()
        .collect(alloc)?;
    let found = found_in(alloc, pieces, denotations, &entries.locals)?;
    Ok(Made {
        calls,
        requests,
        stars,
        found,
    })
}

// The tables of a module of their parts.
fn put_together<'a>(
    pieces: &[Piece<'a>],
    denotations: &Denotations<'a>,
    entries: Entries<'a>,
    made: Made<'a>,
    rare: Rare,
) -> Tables<'a>
    ensures meta { result.has_import_meta ≡ rare.import_meta }
    ensures imports { result.imports.items ≡ entries.entry.imports.items }
    ensures exports { result.exports.items ≡ entries.entry.given.exports.items }
    ensures asked { result.asked.items ≡ entries.entry.given.asked.items }
    ensures calls { result.calls.items ≡ made.entry.calls.items }
    ensures requests { result.requests.items ≡ made.entry.requests.items }
    ensures sources { result.sources.items ≡ entries.entry.given.sources.items }
    ensures stars { result.stars.items ≡ made.entry.stars.items }
    ensures script { result.is_script
        ≡ (not entries.entry.is_declared_module && not rare.import_meta) }
    ensures awaits { result.awaits ≡ rare.awaits }
    ensures reads { result.reads.items ≡ made.entry.found.reads.items }
    ensures uses { result.uses.items ≡ made.entry.found.uses.items }
    ensures common_js { IsDenotationTable BySymbol Es (map item_of pieces.now) denotations.now →
        result.names_common_js ≡ uses_common_js (map item_of pieces.now) }
    ensures arguments { IsDenotationTable BySymbol Es (map item_of pieces.now) denotations.now →
        result.has_free_arguments ≡ bound.has_free (map item_of pieces.now) (codes "arguments") }
{
    let Entries {
        imports,
        given,
        is_declared_module,
        ..
    } = entries;
    let UsesFound { uses, reads } = made.found;
    Tables {
        requests: made.requests,
        imports,
        exports: given.exports,
        asked: given.asked,
        stars: made.stars,
        sources: given.sources,
        calls: made.calls,
        uses,
        reads,
        is_script: !is_declared_module && !rare.import_meta,
        has_import_meta: rare.import_meta,
        names_common_js: names_common_js(pieces, denotations),
        awaits: rare.awaits,
        has_free_arguments: has_free(pieces, denotations, "arguments"),
    }
}

/// What a module asks to be loaded: what is not external, and the literal calls that are linked, each text once.
pub(crate) fn requests<'a>(
    alloc: Global,
    sources: &[Source<'a>],
    calls: &[RequireCall<'a>],
) -> Result<Vec<&'a str>, AllocError>
    ensures { IfOk result (λ requests.
        map (λ request. request.now) requests.items
        ≡ each_once
        (unexternal sources.now ++ map (λ call. call.specifier.now) calls.now)) }
{
    if calls.is_empty() && sources.len() < 2 {
        return only_request(alloc, sources);
    }
    let mut texts = TextSet::new(alloc);
    for source in sources {
        add_request(&mut texts, *source)?;
    }
    for call in calls {
        add_called(&mut texts, *call)?;
    }
    texts.as_slice().iter().copied().collect(alloc)
}

// What one import or export asks for, or none, unless it is external.
fn only_request<'a>(alloc: Global, sources: &[Source<'a>]) -> Result<Vec<&'a str>, AllocError>
    ensures { IfOk result (λ requests.
        map (λ request. request.now) requests.items ≡ unexternal sources.now) }
{
    let mut requests = Vec::new(alloc);
    for source in sources {
        add_unexternal(&mut requests, *source)?;
    }
    Ok(requests)
}

// Adds what an import or an export asks for, unless it is external.
#[tactic(auto, using(std::proofs::lemmas::Grind::common_steps, crate::proofs::SourceLemmas::asked_here, crate::proofs::SourceLemmas::asked_outside))]
fn add_unexternal<'a>(requests: &mut Vec<&'a str>, source: Source<'a>) -> Result<(), AllocError>
    ensures { OnOk result
        (map (λ request. request.now) requests.new.items
        ≡ map (λ request. request.now) requests.old.items ++ unexternal_one source.entry) }
{
    if !source.is_external {
        requests.push(source.specifier)?;
    }
    Ok(())
}

// Adds what an import or an export asks for to texts of which each stands once, unless it is external.
fn add_request<'a>(texts: &mut TextSet<&'a str>, source: Source<'a>) -> Result<(), AllocError>
    ensures { (seen : List Text) →
        map (λ key. key.now) texts.old.keys ≡ each_once seen →
        OnOk result
        (map (λ key. key.now) texts.new.keys ≡ each_once (seen ++ unexternal_one source.entry)) }
{
    if !source.is_external {
        texts.insert(source.specifier)?;
    }
    Ok(())
}

// Adds what a literal call asks for.
fn add_called<'a>(texts: &mut TextSet<&'a str>, call: RequireCall<'a>) -> Result<(), AllocError>
    ensures { (seen : List Text) →
        map (λ key. key.now) texts.old.keys ≡ each_once seen →
        OnOk result
        (map (λ key. key.now) texts.new.keys
        ≡ each_once (seen ++ call.entry.specifier.now ∷ [])) }
{
    texts.insert(call.specifier)?;
    Ok(())
}

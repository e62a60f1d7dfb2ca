//! What the statements of a module use: imported names with the reads around them.

ghost use Rattle.std.specs.Prelude.{◌≡◌, ◌<◌, ◌++◌, [], ◌∷◌, List, IfOk, IfSome, OnOk, length, map, slice_get};
ghost use Rattle.std.specs.List.{All, flat_map, list_any};
ghost use Rattle.bundle_syntax.specs.Item.{item_of};
ghost use Rattle.bundle_rules.specs.Declarations.{BySymbol};
ghost use Rattle.bundle_rules.specs.Scopes.{Es};
ghost use Rattle.bundle_scope_denote.specs.Listed.{IsDenotationTable};
ghost use Rattle.bundle_rules.specs.Entries.{imports_of};
ghost use Rattle.bundle_link_tables.specs.Exported.{Finds, text_list};
ghost use Rattle.bundle_tree_places.specs.Placed as placed;
ghost use Rattle.bundle_tree_places.specs.Seconds.{text_of};
ghost use Rattle.bundle_link_tables.specs.Used.{UseEntry, begin_in_turn, name_read, place_read, places_before, read_places, use_entry_of, uses_of};
ghost use Rattle.bundle_link_tables.specs.Walked as walked;
ghost use Rattle.bundle_link_tables.specs.Walked.{Begin, AreWordsRead, SaysUses, has_import, is_behind_member, is_own_binding, named_at, named_use, placed_names, pairs_at, symbol_if, uses_of_name, words_before};
ghost use Rattle.bundle_link_tables.specs.Within.{IsStated};

use crate::free::is_marked;
use crate::stated::stated_places;
use crate::table::{ImportRef, MemberRead, Use};
use bundle_scope_denote::texts::TextMap;
use bundle_scope_denote::{Denotations, Denoted, Scope, ScopeKind};
use bundle_syntax::{Node, Piece};
use bundle_tree_places::places::{ReadAt, told_places};
use std::alloc::{AllocError, Global};

/// What was found so far.
#[derive(Drop)]
pub struct UsesFound<'a> {
    pub uses: Vec<Use<'a>>,
    pub reads: Vec<MemberRead<'a>>,
}

/// A name that an import binds, and the place where it stands.
#[derive(Clone, Copy)]
pub struct ImportedName<'a> {
    place: usize,
    local: &'a str,
}

/// What the statements of a module use. `imports` are the names that its imports bind.
pub fn found_in<'a>(
    alloc: Global,
    pieces: &[Piece<'a>],
    denotations: &Denotations<'a>,
    imports: &TextMap<&'a str, ImportRef<'a>>,
) -> Result<UsesFound<'a>, AllocError>
    ensures places { IfOk result (λ found.
        map (read_places found.reads.items) found.uses.items
        ≡ map begin_in_turn found.uses.items) }
    ensures uses { IfOk result (λ found.
        Finds imports.now (imports_of (map item_of pieces.now)) →
        IsDenotationTable BySymbol Es (map item_of pieces.now) denotations.now →
        map (use_entry_of found.reads.items) found.uses.items
        ≡ uses_of (map item_of pieces.now)) }
{
    let names = names_in(alloc, pieces, denotations, imports)?;
    let stated = stated_for(alloc, pieces, &names)?;
    let told = told_for(alloc, pieces, &names)?;
    let mut found = UsesFound {
        uses: Vec::new(alloc),
        reads: Vec::new(alloc),
    };
    for name in &names {
        add_named(&mut found, &stated, &told, *name)?;
    }
    Ok(found)
}

// The names that imports bind, wherever they stand, in the order of the source.
fn names_in<'a>(
    alloc: Global,
    pieces: &[Piece<'a>],
    denotations: &Denotations<'a>,
    imports: &TextMap<&'a str, ImportRef<'a>>,
) -> Result<Vec<ImportedName<'a>>, AllocError>
    ensures { IfOk result (λ names.
        map named_at names.items
        ≡ flat_map (placed_names denotations.now (has_import imports.now) (map item_of pieces.now))
        denotations.now.occurrences.items) }
{
    let mut names = Vec::new(alloc);
    for entry in &denotations.occurrences {
        let name = name_of(pieces, denotations, imports, *entry);
        add_name(&mut names, entry.place, name)?;
    }
    Ok(names)
}

// Adds a name at a place, if there is one.
fn add_name<'a>(
    names: &mut Vec<ImportedName<'a>>,
    place: usize,
    name: Option<&'a str>,
) -> Result<(), AllocError>
    ensures { OnOk result
        (map named_at names.new.items
        ≡ map named_at names.old.items ++ pairs_at place (text_list name.entry)) }
{
    if let Some(local) = name {
        names.push(ImportedName { place, local })?;
    }
    Ok(())
}

// Of the places of these names, whether they lie in a top item that states something.
fn stated_for<'a>(
    alloc: Global,
    pieces: &[Piece<'a>],
    names: &[ImportedName<'a>],
) -> Result<Vec<bool>, AllocError>
    ensures { IfOk result (λ stated.
        All (λ name. IsStated (map item_of pieces.now) stated.items name.place) names.now) }
{
    if names.is_empty() {
        return Ok(Vec::new(alloc));
    }
    let stated = stated_places(alloc, pieces)?;
    Ok(stated)
}

// What is told of the places around these names; where none of them is read of, nothing has to be.
fn told_for<'a>(
    alloc: Global,
    pieces: &[Piece<'a>],
    names: &[ImportedName<'a>],
) -> Result<Vec<ReadAt<'a>>, AllocError>
    ensures { IfOk result (λ told.
        All (λ name. AreWordsRead (map item_of pieces.now) told.items name.place) names.now) }
{
    if are_read(pieces, names) {
        let told = told_places(alloc, pieces)?;
        return Ok(told);
    }
    Ok(Vec::new(alloc))
}

// Whether one of these names stands right behind where a member begins.
fn are_read(pieces: &[Piece], names: &[ImportedName]) -> bool
    ensures { result
        ≡ list_any (λ name. is_behind_member (map item_of pieces.now) name.place) names.now }
{
    names.iter().any(|name| is_read(pieces, name.place))
}

// Whether a member begins right before a place.
fn is_read(pieces: &[Piece], place: usize) -> bool
    ensures { result ≡ is_behind_member (map item_of pieces.now) place }
{
    place > 0 && begins_member(pieces, place - 1)
}

// Whether a member begins at a place.
#[tactic(auto, using(std::proofs::lemmas::Grind::common_steps, std::proofs::lemmas::Option::gets, crate::proofs::MarkLemmas::get_mapped))]
fn begins_member(pieces: &[Piece], place: usize) -> bool
    ensures { result ≡ walked.begins_member (slice_get (map item_of pieces.now) place) }
{
    match pieces.get(place) {
        Some(
            Piece::Open {
                node: Node::MemberExpr,
                ..
            },
        ) => true,
        _ => false,
    }
}

// The imported name that an entry is of, if it is of one.
fn name_of<'a>(
    pieces: &[Piece<'a>],
    denotations: &Denotations<'a>,
    imports: &TextMap<&'a str, ImportRef<'a>>,
    entry: Denoted,
) -> Option<&'a str>
    ensures { text_list result
        ≡ walked.imported_name denotations.now (has_import imports.now) (map item_of pieces.now)
        entry }
{
    if is_own_number(denotations, entry.binding) {
        imported_at(pieces, imports, entry.place)
    } else {
        None
    }
}

// The symbol of the identifier at a place, if an import binds it.
fn imported_at<'a>(
    pieces: &[Piece<'a>],
    imports: &TextMap<&'a str, ImportRef<'a>>,
    place: usize,
) -> Option<&'a str>
    ensures { text_list result
        ≡ symbol_if (has_import imports.now) (slice_get (map item_of pieces.now) place) }
{
    match pieces.get(place) {
        Some(Piece::Ident { sym, .. }) => {
            if imports.contains_key(sym) {
                Some(*sym)
            } else {
                None
            }
        }
        _ => None,
    }
}

// Whether a binding with a number is one of the top.
fn is_own_number<'a>(denotations: &Denotations<'a>, number: Option<usize>) -> bool
    ensures { result ≡ walked.is_own_number denotations.now number }
{
    match number {
        Some(number) => is_own(denotations, number),
        None => false,
    }
}

// The same of a number that is there.
#[tactic(auto, using(std::proofs::lemmas::Grind::common_steps, std::proofs::lemmas::Option::gets))]
fn is_own<'a>(denotations: &Denotations<'a>, number: usize) -> bool
    ensures { result
        ≡ is_own_binding denotations.now.scopes.items
        (slice_get denotations.now.bindings.items number) }
{
    match denotations.bindings.get(number) {
        Some(binding) => is_own_scope(&denotations.scopes, binding.scope),
        None => false,
    }
}

// Whether a scope is the top.
#[tactic(auto, using(std::proofs::lemmas::Grind::common_steps, std::proofs::lemmas::Option::gets))]
fn is_own_scope(scopes: &[Scope], number: usize) -> bool
    ensures { result ≡ walked.is_own_scope (slice_get scopes.now number) }
{
    match scopes.get(number) {
        Some(scope) => match scope.kind {
            ScopeKind::Top => true,
            _ => false,
        },
        None => false,
    }
}

// The word that is told of a place.
fn word_told<'a>(told: &[ReadAt<'a>], place: usize) -> Option<&'a str>
    ensures { text_of result ≡ placed.word_told told.now place }
{
    if place < told.len() {
        told[place].word
    } else {
        None
    }
}

// Notes a use of a name, if it stands in a top item that states something.
fn add_named<'a>(
    found: &mut UsesFound<'a>,
    stated: &[bool],
    told: &[ReadAt<'a>],
    name: ImportedName<'a>,
) -> Result<(), AllocError>
    ensures places { OnOk result
        (Begin (map place_read found.old.reads.items) found.old.uses.items →
        Begin (map place_read found.new.reads.items) found.new.uses.items) }
    ensures uses { OnOk result
        ((entries : List UseEntry) →
        SaysUses (map name_read found.old.reads.items) found.old.uses.items entries →
        SaysUses (map name_read found.new.reads.items) found.new.uses.items
        (entries ++ uses_of_name stated.now told.now name.entry)) }
{
    if is_marked(stated, name.place) {
        add_use(found, told, name.place, name.local)?;
    }
    Ok(())
}

// Notes a use of an imported name, with the reads around it.
fn add_use<'a>(
    found: &mut UsesFound<'a>,
    told: &[ReadAt<'a>],
    place: usize,
    local: &'a str,
) -> Result<(), AllocError>
    ensures places { OnOk result
        (Begin (map place_read found.old.reads.items) found.old.uses.items →
        Begin (map place_read found.new.reads.items) found.new.uses.items) }
    ensures uses { OnOk result
        ((entries : List UseEntry) →
        SaysUses (map name_read found.old.reads.items) found.old.uses.items entries →
        SaysUses (map name_read found.new.reads.items) found.new.uses.items
        (entries ++ named_use told.now place local.now ∷ [])) }
{
    let first_read = found.reads.len();
    add_reads(&mut found.reads, told, place)?;
    let count = found.reads.len().saturating_sub(first_read);
    found.uses.push(Use {
        place,
        local,
        first_read,
        count,
    })?;
    Ok(())
}

// Adds the reads around a place, innermost first.
fn add_reads<'a>(
    reads: &mut Vec<MemberRead<'a>>,
    told: &[ReadAt<'a>],
    place: usize,
) -> Result<(), AllocError>
    ensures places { OnOk result
        (map place_read reads.new.items
        ≡ map place_read reads.old.items
        ++ places_before place (length (words_before (placed.word_told told.now) place))) }
    ensures words { OnOk result
        (map name_read reads.new.items
        ≡ map name_read reads.old.items ++ words_before (placed.word_told told.now) place) }
{
    let mut inner = place;
    while let Some(name) = word_before(told, inner) {
        inner -= 1;
        reads.push(MemberRead { place: inner, name })?;
    }
    Ok(())
}

// The word that is told of the place right before a place.
fn word_before<'a>(told: &[ReadAt<'a>], place: usize) -> Option<&'a str>
    ensures word { text_of result ≡ walked.word_before (placed.word_told told.now) place }
    ensures some { IfSome result (λ word. 0 < place) }
{
    if place > 0 {
        word_told(told, place - 1)
    } else {
        None
    }
}

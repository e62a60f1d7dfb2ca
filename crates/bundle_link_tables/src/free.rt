//! Names that nothing binds, and names that the top of a module binds, by what names denote.

ghost use Rattle.std.specs.Prelude.{◌≡◌, ◌&&◌, ◌||◌, ◌++◌, ◌<◌, ℕ, length, map, nat_lt, slice_get, List, IfOk, OnOk};
ghost use Rattle.std.specs.List.{flat_map, list_any};
ghost use Rattle.bundle_syntax.specs.Item.{item_of};
ghost use Rattle.bundle_rules.specs.Declarations.{BySymbol};
ghost use Rattle.bundle_rules.specs.Scopes.{Es};
ghost use Rattle.bundle_scope_denote.specs.Listed.{IsDenotationTable};
ghost use Rattle.bundle_rules.specs.Bound as bound;
ghost use Rattle.bundle_rules.specs.Nodes.{Text};
ghost use Rattle.bundle_link_tables.specs.Exported.{text_list};
ghost use Rattle.bundle_link_tables.specs.Free as Free;
ghost use Rattle.bundle_link_tables.specs.Free.{declared_at_top, frees, is_place_marked, is_top_scope, names_nothing, symbol_at_top, told_top_names};
ghost use Rattle.bundle_link_tables.specs.Sources.{HasTexts};
ghost use Rattle.bundle_link_tables.specs.TablesOf.{uses_common_js};

use bundle_scope_denote::texts::TextSet;
use bundle_scope_denote::{Denotations, Denoted, Scope, ScopeKind};
use bundle_syntax::{Node, Piece};
use bundle_tree_places::parts::behind;
use std::alloc::{AllocError, Global};

/// The name that a default export without a name declares.
const DEFAULT: &str = "default";

/// For each place of a list of so many elements, whether a name stands there that nothing binds.
pub fn free_places(
    alloc: Global,
    count: usize,
    denotations: &Denotations,
) -> Result<Vec<bool>, AllocError>
    ensures { IfOk result (λ free. (place : ℕ) → is_place_marked free.items place
        ≡ (nat_lt place count && list_any (frees place) denotations.now.occurrences.items)) }
{
    let mut free = vec![in alloc; false; count]?;
    for occurrence in &denotations.occurrences {
        mark_free(&mut free, *occurrence);
    }
    Ok(free)
}

/// Whether a place is marked.
pub fn is_marked(marks: &[bool], place: usize) -> bool
    ensures { result ≡ Free.is_place_marked marks.now place }
{
    match marks.get(place) {
        Some(is) => *is,
        None => false,
    }
}

// Marks the place of an entry that denotes a global.
#[tactic(auto, using(std::proofs::lemmas::Grind::common_steps, crate::proofs::MarkLemmas::marked_one, crate::proofs::MarkLemmas::marked_none, crate::proofs::MarkLemmas::marked_past))]
fn mark_free(free: &mut Vec<bool>, occurrence: Denoted)
    ensures length { length free.new.items ≡ length free.old.items }
    ensures marked { (place : ℕ) →
        is_place_marked free.new.items place
        ≡ (is_place_marked free.old.items place
        || (nat_lt place (length free.old.items) && frees place occurrence)) }
{
    if occurrence.binding.is_some() {
        return;
    }
    if occurrence.place >= free.len() {
        return;
    }
    free[occurrence.place] = true;
}

/// Whether a name stands somewhere in a list where nothing binds it.
pub fn has_free(pieces: &[Piece], denotations: &Denotations, name: &str) -> bool
    ensures { IsDenotationTable BySymbol Es (map item_of pieces.now) denotations.now →
        result ≡ bound.has_free (map item_of pieces.now) name.now }
{
    some_free(pieces, denotations, name)
}

// The same, asked of each entry.
fn some_free(pieces: &[Piece], denotations: &Denotations, name: &str) -> bool
    ensures { result
        ≡ list_any (Free.frees_name (map item_of pieces.now) name.now)
        denotations.now.occurrences.items }
{
    denotations
        .occurrences
        .iter()
        .any(|occurrence| frees_name(pieces, *occurrence, name))
}

// Whether an entry is of a name, and denotes a global.
fn frees_name(pieces: &[Piece], occurrence: Denoted, name: &str) -> bool
    ensures { result ≡ Free.frees_name (map item_of pieces.now) name.now occurrence }
{
    occurrence.binding.is_none() && is_called(pieces, occurrence.place, name)
}

// Whether an identifier of this name stands at a place.
#[tactic(auto, using(std::proofs::lemmas::Grind::common_steps, std::proofs::lemmas::Option::gets, crate::proofs::MarkLemmas::get_mapped))]
fn is_called(pieces: &[Piece], place: usize, name: &str) -> bool
    ensures { result ≡ Free.is_ident_called name.now (slice_get (map item_of pieces.now) place) }
{
    match pieces.get(place) {
        Some(Piece::Ident { sym, .. }) => name == *sym,
        _ => false,
    }
}

/// Whether a `require`, `module` or `exports` stands in a list that nothing binds.
pub fn names_common_js(pieces: &[Piece], denotations: &Denotations) -> bool
    ensures { IsDenotationTable BySymbol Es (map item_of pieces.now) denotations.now →
        result ≡ uses_common_js (map item_of pieces.now) }
{
    let first = has_free(pieces, denotations, "require");
    let second = has_free(pieces, denotations, "module");
    let third = has_free(pieces, denotations, "exports");
    is_one(first, second, third)
}

// Whether one of these is true.
fn is_one(first: bool, second: bool, third: bool) -> bool
    ensures { result ≡ (first || (second || third)) }
{
    first || second || third
}

/// The names that the top of a module binds.
pub fn top_names<'a>(
    alloc: Global,
    pieces: &[Piece<'a>],
    denotations: &Denotations<'a>,
) -> Result<TextSet<&'a str>, AllocError>
    ensures { IfOk result (λ names.
        HasTexts names (told_top_names denotations.now (map item_of pieces.now))) }
{
    let mut names = declared_names(alloc, denotations)?;
    if !has_nameless_default(pieces) {
        return Ok(names);
    }
    names.insert(DEFAULT)?;
    Ok(names)
}

// Those that identifiers declare.
fn declared_names<'a>(
    alloc: Global,
    denotations: &Denotations<'a>,
) -> Result<TextSet<&'a str>, AllocError>
    ensures { IfOk result (λ names.
        HasTexts names
        (flat_map (declared_at_top denotations.now) denotations.now.occurrences.items)) }
{
    let mut names = TextSet::new(alloc);
    for occurrence in &denotations.occurrences {
        add_declared(&mut names, denotations, *occurrence)?;
    }
    Ok(names)
}

// Adds what an entry declares at the top.
fn add_declared<'a>(
    names: &mut TextSet<&'a str>,
    denotations: &Denotations<'a>,
    occurrence: Denoted,
) -> Result<(), AllocError>
    ensures { (before : List Text) → HasTexts names.old before →
        OnOk result (HasTexts names.new (before ++ declared_at_top denotations.now occurrence)) }
{
    match declared_name(denotations, occurrence) {
        Some(name) => {
            names.insert(name)?;
            Ok(())
        }
        None => Ok(()),
    }
}

// The name that an entry declares at the top.
fn declared_name<'a>(denotations: &Denotations<'a>, occurrence: Denoted) -> Option<&'a str>
    ensures { text_list result ≡ declared_at_top denotations.now occurrence }
{
    if !occurrence.declares {
        return None;
    }
    match occurrence.binding {
        Some(number) => name_at_top(denotations, number),
        None => None,
    }
}

// The name of a binding, if it is one of the top.
#[tactic(auto, using(std::proofs::lemmas::Grind::common_steps, std::proofs::lemmas::Option::gets))]
fn name_at_top<'a>(denotations: &Denotations<'a>, number: usize) -> Option<&'a str>
    ensures { text_list result
        ≡ symbol_at_top denotations.now.scopes.items
        (slice_get denotations.now.bindings.items number) }
{
    match denotations.bindings.get(number) {
        Some(binding) => {
            if is_top(&denotations.scopes, binding.scope) {
                Some(binding.sym)
            } else {
                None
            }
        }
        None => None,
    }
}

// Whether a scope is the top, or that of the parameters which a CommonJS module has there.
#[tactic(auto, using(std::proofs::lemmas::Grind::common_steps, std::proofs::lemmas::Option::gets))]
fn is_top(scopes: &[Scope], number: usize) -> bool
    ensures { result ≡ is_top_scope (slice_get scopes.now number) }
{
    match scopes.get(number) {
        Some(scope) => match scope.kind {
            ScopeKind::Top => true,
            ScopeKind::Wrapper => true,
            _ => false,
        },
        None => false,
    }
}

// Whether a default export without a name stands in a list.
fn has_nameless_default(pieces: &[Piece]) -> bool
    ensures { result ≡ Free.has_nameless_default (map item_of pieces.now) }
{
    for place in 0..pieces.len() {
        if begins_nameless(behind(pieces, place)) {
            return true;
        }
    }
    false
}

// Whether such an export begins a list.
fn begins_nameless(pieces: &[Piece]) -> bool
    ensures { result ≡ names_nothing (map item_of pieces.now) }
{
    match pieces.first() {
        Some(
            Piece::Open {
                node: Node::ExportDefaultExpr,
                ..
            },
        ) => true,
        Some(
            Piece::Open {
                node: Node::ExportDefaultDecl,
                ..
            },
        ) => !begins_named(behind(pieces, 1)),
        _ => false,
    }
}

// Whether a node with an identifier as its first element begins a list.
fn begins_named(pieces: &[Piece]) -> bool
    ensures { result ≡ Free.begins_named (map item_of pieces.now) }
{
    match (pieces.first(), pieces.get(1)) {
        (Some(Piece::Open { .. }), Some(Piece::Ident { .. })) => true,
        _ => false,
    }
}

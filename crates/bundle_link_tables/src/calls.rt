//! Literal calls of `require`.

ghost use Rattle.std.specs.Prelude.{◌≡◌, ◌&&◌, ◌++◌, ◌+◌, ◌-◌, ◌<◌, ◌^◌, drop, length, map, not, filter, option_map, bytes_eq, if◌then◌else◌, [], IfOk, OnOk};
ghost use Rattle.std.specs.List.{list_any};
ghost use Rattle.bundle_syntax.specs.Item.{item_of};
ghost use Rattle.bundle_rules.specs.Declarations.{BySymbol};
ghost use Rattle.bundle_rules.specs.Scopes.{Es};
ghost use Rattle.bundle_scope_denote.specs.Listed.{IsDenotationTable};
ghost use Rattle.bundle_rules.specs.Bound as bound;
ghost use Rattle.bundle_rules.specs.Entries as entries;
ghost use Rattle.bundle_rules.specs.Entries.{Settings, call_at, ends, is_call, is_end, is_plain_argument, is_require_name, require_calls, required_at};
ghost use Rattle.bundle_link_tables.specs.Free.{is_place_marked};
ghost use Rattle.bundle_tree_places.specs.Heads.{begins};
ghost use Rattle.bundle_link_tables.specs.Sources.{HasTexts};
ghost use Rattle.bundle_link_tables.specs.TablesOf.{call_entry_of};
ghost use Rattle.indexmap.specs.IndexSet.{contains_by};

use crate::free::{free_places, is_marked};
use crate::table::RequireCall;
use bundle_scope_denote::Denotations;
use bundle_scope_denote::texts::TextSet;
use bundle_syntax::{Node, Piece};
use bundle_tree_places::parts::{behind, string_of};
use std::alloc::{AllocError, Global};

/// The literal calls of `require` that are linked, in the order of the source: where `require` is on, all that are
/// of no external.
pub fn linked_calls<'a>(
    alloc: Global,
    pieces: &[Piece<'a>],
    denotations: &Denotations,
    require: bool,
    external: &TextSet<&str>,
) -> Result<Vec<RequireCall<'a>>, AllocError>
    ensures { IfOk result (λ calls.
        (settings : Settings) →
        settings.require ≡ require →
        HasTexts external.now settings.external →
        IsDenotationTable BySymbol Es (map item_of pieces.now) denotations.now →
        map call_entry_of calls.items
        ≡ entries.linked_calls settings (bound.is_free (map item_of pieces.now))
        (map item_of pieces.now)) }
{
    if !may_call(pieces, require) {
        return Ok(Vec::new(alloc));
    }
    let free = free_places(alloc, pieces.len(), denotations)?;
    let calls = calls_in(alloc, pieces, &free)?;
    let kept = unexternal(alloc, &calls, external)?;
    Ok(kept)
}

/// Whether literal calls of `require` may be linked: where `require` is on, and the name stands somewhere in the list.
pub fn may_call(pieces: &[Piece], require: bool) -> bool
    ensures { result ≡ (require && list_any is_require_name (map item_of pieces.now)) }
{
    require && has_require(pieces)
}

// Whether the name `require` stands in a list as what is called.
fn has_require(pieces: &[Piece]) -> bool
    ensures { result ≡ list_any is_require_name (map item_of pieces.now) }
{
    some_require(pieces)
}

// The same, asked of each element.
fn some_require(pieces: &[Piece]) -> bool
    ensures { result ≡ list_any (λ x. is_require_name (item_of x)) pieces.now }
{
    pieces.iter().any(|piece| is_require(*piece))
}

// Whether an element is the name `require`, as what is called.
fn is_require(piece: Piece) -> bool
    ensures { result ≡ is_require_name (item_of piece.entry) }
{
    match piece {
        Piece::Ident { field, sym, .. } => field == 0 && sym == "require",
        _ => false,
    }
}

// Those that are of no external.
fn unexternal<'a>(
    alloc: Global,
    calls: &[RequireCall<'a>],
    external: &TextSet<&str>,
) -> Result<Vec<RequireCall<'a>>, AllocError>
    ensures { IfOk result (λ kept.
        map call_entry_of kept.items
        ≡ filter (λ call. not (contains_by (λ k. bytes_eq call.specifier k.now) external.now))
        (map call_entry_of calls.now)) }
{
    let mut kept = Vec::new(alloc);
    for call in calls {
        if !external.has_text(call.specifier) {
            kept.push(*call)?;
        }
    }
    Ok(kept)
}

// The literal calls of a `require` that stands free, in the order of the source. `free` tells of each place whether a
// name stands there that nothing binds.
fn calls_in<'a>(
    alloc: Global,
    pieces: &[Piece<'a>],
    free: &[bool],
) -> Result<Vec<RequireCall<'a>>, AllocError>
    ensures { IfOk result (λ calls.
        map call_entry_of calls.items
        ≡ require_calls (is_place_marked free.now) (map item_of pieces.now)) }
{
    let mut calls = Vec::new(alloc);
    for place in 0..pieces.len() {
        add_call(&mut calls, behind(pieces, place), free, place)?;
    }
    Ok(calls)
}

// Adds the call with which a list begins, if it is one. The list begins at a place of the module's.
fn add_call<'a>(
    calls: &mut Vec<RequireCall<'a>>,
    pieces: &[Piece<'a>],
    free: &[bool],
    place: usize,
) -> Result<(), AllocError>
    requires { place < 2 ^ 64 - 1 }
    ensures { OnOk result
        (map call_entry_of calls.new.items
        ≡ map call_entry_of calls.old.items
        ++ call_at (is_place_marked free.now) place (required_at (map item_of pieces.now))) }
{
    if let Some(specifier) = required_text(pieces) {
        if is_marked(free, place + 1) {
            calls.push(RequireCall { place, specifier })?;
        }
    }
    Ok(())
}

// The text, where a list begins with `require('text')`.
fn required_text<'a>(pieces: &[Piece<'a>]) -> Option<&'a str>
    ensures { option_map (λ text. text.now) result ≡ required_at (map item_of pieces.now) }
{
    let name = after_if(begins_call(pieces), pieces);
    let argument = after_if(begins_require(name), name);
    let string = after_if(begins_argument(argument), argument);
    only_argument(string)
}

// What follows the first element of a list, or nothing.
fn after_if<'p, 'a>(passes: bool, pieces: &'p [Piece<'a>]) -> &'p [Piece<'a>]
    ensures { map item_of result.now ≡ (if passes then drop 1 (map item_of pieces.now) else []) }
{
    if passes { tail(pieces) } else { &pieces[..0] }
}

// All of a list but its first element.
fn tail<'p, 'a>(pieces: &'p [Piece<'a>]) -> &'p [Piece<'a>]
    ensures { map item_of result.now ≡ drop 1 (map item_of pieces.now) }
{
    if pieces.is_empty() {
        return pieces;
    }
    behind(pieces, 1)
}

// Whether a list begins with a call.
fn begins_call(pieces: &[Piece]) -> bool
    ensures { result ≡ begins is_call (map item_of pieces.now) }
{
    match pieces.first() {
        Some(
            Piece::Open {
                node: Node::CallExpr,
                ..
            },
        ) => true,
        _ => false,
    }
}

// Whether a list begins with the name `require`, as what is called.
fn begins_require(pieces: &[Piece]) -> bool
    ensures { result ≡ begins is_require_name (map item_of pieces.now) }
{
    match pieces.first() {
        Some(piece) => is_require(*piece),
        None => false,
    }
}

// Whether a list begins with an argument that is not spread.
fn begins_argument(pieces: &[Piece]) -> bool
    ensures { result ≡ begins is_plain_argument (map item_of pieces.now) }
{
    match pieces.first() {
        Some(
            Piece::Open {
                node: Node::ExprOrSpread { spread },
                ..
            },
        ) => !*spread,
        _ => false,
    }
}

// The text, where a list begins with a string that is the last argument of a call.
#[tactic(auto, using(std::proofs::lemmas::Grind::common_steps, crate::proofs::CallLemmas::only_by))]
fn only_argument<'a>(pieces: &[Piece<'a>]) -> Option<&'a str>
    ensures { option_map (λ text. text.now) result
        ≡ entries.only_argument (map item_of pieces.now) }
{
    if begins_ends(tail(pieces)) {
        string_of(pieces)
    } else {
        None
    }
}

// Whether a list begins with the ends of a string, of an argument and of a call.
#[tactic(auto, using(std::proofs::lemmas::Grind::common_steps, crate::proofs::CallLemmas::three_ends))]
fn begins_ends(pieces: &[Piece]) -> bool
    ensures { result ≡ ends 3 (map item_of pieces.now) }
{
    let second = tail(pieces);
    let third = tail(second);
    begins_end(pieces) && begins_end(second) && begins_end(third)
}

// Whether a list begins with an end.
fn begins_end(pieces: &[Piece]) -> bool
    ensures { result ≡ begins is_end (map item_of pieces.now) }
{
    match pieces.first() {
        Some(Piece::Close) => true,
        _ => false,
    }
}

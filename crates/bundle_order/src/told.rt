//! What the table of a list says of its places.

ghost use Rattle.std.specs.Prelude.{◌≡◌, ℕ, ◌<◌, IfOk, length, map, slice_index_or};
ghost use Rattle.bundle_syntax.specs.Item.{item_of};
ghost use Rattle.bundle_order.specs.Told as the_told;
ghost use Rattle.bundle_order.specs.Told.{no_binding_told, told_in};

use bundle_scope_denote::{Denotations, Denoted};
use bundle_syntax::Piece;
use std::alloc::{AllocError, Global};

/// What is told of a place: the number of the binding of the top that is denoted there, and whether the global
/// `Object` stands there with the context of what nothing binds.
#[derive(Clone, Copy)]
pub(crate) struct TopBinding {
    pub(crate) top: Option<usize>,
    pub(crate) is_object: bool,
}

/// What is told of each place of a list, whose top bindings are those of the scope `top`.
pub(crate) fn told_places<'a>(
    alloc: Global,
    pieces: &[Piece<'a>],
    denotations: &Denotations<'a>,
    top: usize,
) -> Result<Vec<TopBinding>, AllocError>
    ensures len { IfOk result (λ told. length told.items ≡ length pieces.now) }
    ensures each { IfOk result (λ told.
        (p : ℕ) →
        slice_index_or told.items p no_binding_told
        ≡ the_told.told_at (map item_of pieces.now) denotations.now top p) }
{
    let fresh = nothing_told(alloc, pieces.len())?;
    let told = tell(fresh, pieces, denotations, top, &denotations.occurrences);
    Ok(told)
}

// Nothing is told of so many places.
fn nothing_told(alloc: Global, count: usize) -> Result<Vec<TopBinding>, AllocError>
    ensures len { IfOk result (λ told. length told.items ≡ count) }
    ensures each { IfOk result (λ told.
        (p : ℕ) → slice_index_or told.items p no_binding_told ≡ no_binding_told) }
{
    let mut told = Vec::new(alloc);
    for _ in 0..count {
        told.push(TopBinding {
            top: None,
            is_object: false,
        })?;
    }
    Ok(told)
}

// Puts in what these entries of the table tell, where nothing is told yet.
fn tell<'a>(
    fresh: Vec<TopBinding>,
    pieces: &[Piece<'a>],
    denotations: &Denotations<'a>,
    top: usize,
    entries: &[Denoted],
) -> Vec<TopBinding>
    requires { length fresh.items ≡ length pieces.now }
    ensures len { length result.items ≡ length pieces.now }
    ensures each { ((p : ℕ) → slice_index_or fresh.items p no_binding_told ≡ no_binding_told) →
        (p : ℕ) →
        p < length pieces.now →
        slice_index_or result.items p no_binding_told
        ≡ told_in entries.now (map item_of pieces.now) denotations.now top p }
{
    let mut told = fresh;
    for denoted in entries {
        if denoted.place < pieces.len() {
            let piece = pieces[denoted.place];
            told[denoted.place] = told_of(piece, denotations, top, *denoted);
        }
    }
    told
}

// What an entry of the table tells of the element at its place.
fn told_of<'a>(
    piece: Piece<'a>,
    denotations: &Denotations<'a>,
    top: usize,
    denoted: Denoted,
) -> TopBinding
    ensures { result ≡ the_told.told_of (item_of piece.entry) denotations.now top denoted }
{
    TopBinding {
        top: top_of(denotations, top, denoted),
        is_object: denoted.binding.is_none() && is_object(piece),
    }
}

// The binding that an entry of the table tells, if it is one of the top.
fn top_of<'a>(denotations: &Denotations<'a>, top: usize, denoted: Denoted) -> Option<usize>
    ensures { result ≡ the_told.top_of denotations.now top denoted }
{
    match denoted.binding {
        None => None,
        Some(number) => match denotations.bindings.get(number) {
            None => None,
            Some(binding) => {
                if binding.scope == top {
                    Some(number)
                } else {
                    None
                }
            }
        },
    }
}

// Whether an element is an `Object` with the context of what nothing binds.
fn is_object<'a>(piece: Piece<'a>) -> bool
    ensures { result ≡ the_told.is_global_object (item_of piece.entry) }
{
    match piece {
        Piece::Ident { sym, ctxt, .. } => ctxt == 1 && sym == "Object",
        _ => false,
    }
}

//! What the occurrences of a list become once its bindings are named.

ghost use Rattle.std.specs.Prelude.{◌≡◌, ◌++◌, ℕ, IfOk, OnOk, bytes_eq, length, map, not, option_to_list, slice_get};
ghost use Rattle.bundle_syntax.specs.Item.{item_of};
ghost use Rattle.bundle_rules.specs.Idents.{idents};
ghost use Rattle.bundle_rules.specs.Rebuilds as rebuilds;
ghost use Rattle.bundle_tree_places.specs.Changes.{change_of};
ghost use Rattle.bundle_tree_places.specs.Marks.{ident_of};
ghost use Rattle.bundle_scope_names.specs.Called as Called;
ghost use Rattle.bundle_scope_names.specs.Called.{name_changes};
ghost use Rattle.bundle_scope_names.specs.Changed.{change_next, idents_as};

use crate::names::{ContextRule, Names};
use bundle_scope_denote::{Denotations, Denoted};
use bundle_syntax::{Piece, Role};
use bundle_tree_places::{Change, Name};
use std::alloc::{AllocError, Global};

/// The changes of a list's occurrences in turn by which each binding is called by its new name wherever it occurs,
/// and contexts stay or are 0. What is short is to be spelled out where a symbol changes. Refused only where memory
/// runs out.
pub fn changes_of<'c, 'a: 'c>(
    alloc: Global,
    pieces: &[Piece<'a>],
    denotations: &Denotations<'_>,
    names: &'c Names,
    contexts: ContextRule,
) -> Result<Vec<Change<'c>>, AllocError>
    ensures { IfOk result (λ changes.
        map change_of changes.items
        ≡ name_changes names.now contexts (idents (map item_of pieces.now))
        (map (λ denoted. denoted.binding) denotations.now.occurrences.items)) }
{
    let mut changes = Vec::with_capacity(alloc, denotations.occurrences.len())?;
    for piece in pieces {
        if let Some(old) = name_of(*piece) {
            add_change(&mut changes, old, &denotations.occurrences, names, contexts)?;
        }
    }
    Ok(changes)
}

// The identifier that an element of the list is, if it binds or refers.
fn name_of<'a>(piece: Piece<'a>) -> Option<Name<'a>>
    ensures { map ident_of (option_to_list result) ≡ idents_as (item_of piece.entry) }
{
    match piece {
        Piece::Ident {
            role: Role::Word,
            ..
        } => None,
        Piece::Ident { sym, ctxt, .. } => Some(Name { sym, ctxt }),
        _ => None,
    }
}

// Adds the change of the next identifier, if it denotes something.
fn add_change<'c, 'a: 'c>(
    changes: &mut Vec<Change<'c>>,
    old: Name<'a>,
    denoted: &[Denoted],
    names: &'c Names,
    contexts: ContextRule,
) -> Result<(), AllocError>
    ensures { OnOk result
        (map change_of changes.new.items
        ≡ map change_of changes.old.items
        ++ change_next names.now contexts (ident_of old.entry)
        (slice_get (map (λ denoted. denoted.binding) denoted.now) (length changes.old.items))) }
{
    let Some(binding) = binding_at(denoted, changes.len()) else {
        return Ok(());
    };
    changes.push(change_for(names, contexts, old, binding))?;
    Ok(())
}

// The binding that an occurrence denotes, or a global, where there is such an occurrence.
fn binding_at(denoted: &[Denoted], number: usize) -> Option<Option<usize>>
    ensures { result ≡ slice_get (map (λ denoted. denoted.binding) denoted.now) number }
{
    match denoted.get(number) {
        Some(denoted) => Some(denoted.binding),
        None => None,
    }
}

// What stands in the place of an identifier that denotes this binding, or a global.
fn change_for<'c, 'a: 'c>(
    names: &'c Names,
    contexts: ContextRule,
    old: Name<'a>,
    binding: Option<usize>,
) -> Change<'c>
    ensures { change_of result
        ≡ rebuilds.change_to (ident_of old.entry)
        (Called.in_context contexts (Called.called_ident names.now (ident_of old.entry) binding)) }
{
    Change {
        ident: in_context(contexts, called(names, old, binding)),
        is_spelled_out: is_renamed(names, old.sym, binding),
    }
}

// Whether what has this symbol and denotes this binding, or a global, gets another symbol.
fn is_renamed(names: &Names, sym: &str, binding: Option<usize>) -> bool
    ensures { (ctxt : ℕ) →
        result ≡ not (bytes_eq sym.now (Called.called_ident names.now (sym.now, ctxt) binding).0) }
{
    let Some(binding) = binding else {
        return false;
    };
    match names.text_of(binding) {
        None => false,
        Some(text) => sym != text,
    }
}

// What an identifier becomes that denotes this binding, or a global.
fn called<'c, 'a: 'c>(names: &'c Names, old: Name<'a>, binding: Option<usize>) -> Name<'c>
    ensures { ident_of result ≡ Called.called_ident names.now (ident_of old.entry) binding }
{
    match binding {
        None => Name {
            sym: old.sym,
            ctxt: old.ctxt,
        },
        Some(binding) => Name {
            sym: names.text_of(binding).unwrap_or(old.sym),
            ctxt: names.context_of(binding).unwrap_or(old.ctxt),
        },
    }
}

// An identifier whose context stays, or is 0.
fn in_context<'c>(contexts: ContextRule, name: Name<'c>) -> Name<'c>
    ensures { ident_of result ≡ Called.in_context contexts (ident_of name.entry) }
{
    match contexts {
        ContextRule::Keep => name,
        ContextRule::Clear => Name {
            sym: name.sym,
            ctxt: 0,
        },
    }
}

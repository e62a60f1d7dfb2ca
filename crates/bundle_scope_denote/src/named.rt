//! What the names of a list denote, and the first of them that is declared twice.

ghost use Rattle.std.specs.Prelude.{◌≡◌, IfOk, map};
ghost use Rattle.std.specs.Option.{option_map};
ghost use Rattle.bundle_syntax.specs.Item.{item_of};
ghost use Rattle.bundle_rules.specs.Declarations.{BySymbol};
ghost use Rattle.bundle_rules.specs.Doubled.{first_doubled};
ghost use Rattle.bundle_scope_denote.specs.Kinds.{kind_as};
ghost use Rattle.bundle_scope_denote.specs.Listed.{IsDenotationTable, place_and_symbol, doubled_told};

use crate::denote::{go_over_with_arguments, searched, table_of};
use crate::doubled::first_met;
use crate::salt::salt_of;
use crate::table::{Denotations, Doubled, ModuleKind, Reading};
use crate::walk::ScopeWalk;
use bundle_syntax::Piece;
use std::alloc::{AllocError, Global};

/// What the names of a list denote by symbol, and the first place at which a name is declared that may not be
/// declared there again.
#[derive(Drop)]
pub struct CheckedNames<'a> {
    pub names: Denotations<'a>,
    pub doubled: Option<Doubled<'a>>,
}

/// What `denotations` finds by symbol and what `first_doubled` finds, of one pass over the list.
/// Refused only where memory runs out.
pub fn names_and_doubled<'a>(
    alloc: Global,
    pieces: &[Piece<'a>],
    kind: ModuleKind,
) -> Result<CheckedNames<'a>, AllocError>
    ensures names { IfOk result (λ named.
        IsDenotationTable BySymbol (kind_as kind) (map item_of pieces.now) named.names) }
    ensures doubled { IfOk result (λ named.
        option_map doubled_told named.doubled
        ≡ option_map place_and_symbol (first_doubled (kind_as kind) (map item_of pieces.now))) }
{
    let mut walk = ScopeWalk::new(alloc, kind, Reading::BySymbol, salt_of(pieces));
    go_over_with_arguments(&mut walk, pieces)?;
    let doubled = first_met(alloc, &walk)?;
    let found = searched(alloc, &walk)?;
    let names = table_of(walk, found);
    Ok(CheckedNames { names, doubled })
}

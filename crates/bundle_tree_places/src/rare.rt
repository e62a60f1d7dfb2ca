//! What few modules have: `with` statements, `import.meta`, and awaits outside functions.

ghost use Rattle.std.specs.Prelude.{◌≡◌, IfOk, map};
ghost use Rattle.std.specs.List.{list_any};
ghost use Rattle.bundle_syntax.specs.Item.{head_of, item_of};
ghost use Rattle.bundle_rules.specs.Awaits as Awaits;
ghost use Rattle.bundle_rules.specs.Bundle.{is_with};
ghost use Rattle.bundle_rules.specs.Entries as entries;
ghost use Rattle.bundle_rules.specs.Nodes.{has_head};
ghost use Rattle.bundle_tree_places.specs.Heads.{begins_here};
ghost use Rattle.bundle_tree_places.specs.Rarities as rarities;

use crate::awaits::awaits_outside;
use crate::nodes::{has_import_meta, has_with};
use bundle_syntax::{MetaPropKind, Node, Piece};
use std::alloc::{AllocError, Global};

/// Of what few modules have, what stands in a list.
#[derive(Clone, Copy)]
pub struct Rare {
    /// A `with` statement.
    pub with: bool,
    /// `import.meta`.
    pub import_meta: bool,
    /// An `await` or `for await` outside functions.
    pub awaits: bool,
}

/// What stands in a list of what few modules have: in one pass, where none of it does.
#[tactic(auto, using(std::proofs::lemmas::Grind::common_steps, crate::proofs::RareLemmas::no_with, crate::proofs::RareLemmas::no_meta, crate::proofs::RareLemmas::no_await))]
pub fn rare_in<'a>(alloc: Global, pieces: &[Piece<'a>]) -> Result<Rare, AllocError>
    ensures with { IfOk result (λ rare. rare.with ≡ has_head is_with (map item_of pieces.now)) }
    ensures meta { IfOk result (λ rare.
        rare.import_meta ≡ entries.has_import_meta (map item_of pieces.now)) }
    ensures awaits { IfOk result (λ rare.
        rare.awaits ≡ Awaits.awaits_outside (map item_of pieces.now)) }
{
    if !has_rare(pieces) {
        return Ok(Rare {
            with: false,
            import_meta: false,
            awaits: false,
        });
    }
    let awaits = awaits_outside(alloc, pieces)?;
    Ok(Rare {
        with: has_with(pieces),
        import_meta: has_import_meta(pieces),
        awaits,
    })
}

// Whether one of these stands in a list, an `await` wherever it stands.
fn has_rare(pieces: &[Piece]) -> bool
    ensures { result ≡ has_head rarities.is_rare (map item_of pieces.now) }
{
    some_rare(pieces)
}

// The same, asked of each element.
fn some_rare(pieces: &[Piece]) -> bool
    ensures { result ≡ list_any (λ x. begins_here rarities.is_rare (item_of x)) pieces.now }
{
    pieces.iter().any(|piece| begins_rare(*piece))
}

// Whether one of these begins here.
fn begins_rare(piece: Piece) -> bool
    ensures { result ≡ begins_here rarities.is_rare (item_of piece.entry) }
{
    match piece {
        Piece::Open { node, .. } => is_rare(node),
        _ => false,
    }
}

// Whether a node is one of these.
fn is_rare(node: Node) -> bool
    ensures { result ≡ rarities.is_rare (head_of node.entry) }
{
    match node {
        Node::WithStmt => true,
        Node::MetaPropExpr {
            kind: MetaPropKind::ImportMeta,
        } => true,
        Node::AwaitExpr => true,
        Node::ForOfStmt { is_await } => is_await,
        _ => false,
    }
}

//! Which places of a list lie in a top item that states something.

ghost use Rattle.std.specs.Prelude.{◌≡◌, ◌+◌, ◌-◌, ◌<◌, ◌≤◌, ◌^◌, ℕ, List, IfOk, map, nat_eq, not, if◌then◌else◌};
ghost use Rattle.bundle_syntax.specs.Item.{head_of, item_of};
ghost use Rattle.bundle_rules.specs.Places.{Around, path_past};
ghost use Rattle.bundle_tree_places.specs.Stated as Stated;
ghost use Rattle.bundle_tree_places.specs.Stated.{is_in_statement};
ghost use Rattle.bundle_link_tables.specs.Within.{AreStated, IsWithinItem};

use bundle_syntax::{Node, Piece};
use bundle_tree_places::nodes::states_nothing;
use std::alloc::{AllocError, Global};

/// What a place lies in: how many nodes are open there, and whether the top item among them states something.
#[derive(Clone, Copy)]
pub struct Within {
    depth: usize,
    states: bool,
}

/// For each place of a list, whether it lies in a top item that states something.
pub fn stated_places<'a>(alloc: Global, pieces: &[Piece<'a>]) -> Result<Vec<bool>, AllocError>
    ensures { IfOk result (λ stated. AreStated (map item_of pieces.now) stated.items) }
{
    let mut stated = vec![in alloc; false; pieces.len()]?;
    let mut within = Within {
        depth: 0,
        states: false,
    };
    for (place, piece) in pieces.iter().enumerate() {
        stated[place] = is_stated(within);
        within = step_past(within, *piece);
    }
    Ok(stated)
}

// Whether what stands in these nodes lies in a top item that states something.
fn is_stated(within: Within) -> bool
    ensures { (path : List Around) → IsWithinItem within path → result ≡ is_in_statement path }
{
    if within.depth == 0 {
        false
    } else if within.depth == 1 {
        true
    } else {
        within.states
    }
}

// What lies behind an element: a node that begins is open behind it, and one that ends is not.
fn step_past<'a>(within: Within, piece: Piece<'a>) -> Within
    requires { within.depth < 2 ^ 64 - 1 }
    ensures within { (place : ℕ) (path : List Around) →
        IsWithinItem within path →
        IsWithinItem result (path_past place path (item_of piece.entry)) }
    ensures depth { result.depth ≤ within.depth + 1 }
{
    match piece {
        Piece::Open { node, .. } => Within {
            depth: within.depth + 1,
            states: states_in(within, node),
        },
        Piece::Ident { .. } => within,
        Piece::Hole { .. } => within,
        Piece::Close => Within {
            depth: within.depth.saturating_sub(1),
            states: within.states,
        },
    }
}

// Whether the top item states something, where a node has begun: right in the module, that is the node.
fn states_in<'a>(within: Within, node: Node<'a>) -> bool
    ensures { result
        ≡ (if nat_eq within.depth 1 then not (Stated.states_nothing (head_of node.entry))
        else within.states) }
{
    if within.depth == 1 {
        !states_nothing(node)
    } else {
        within.states
    }
}

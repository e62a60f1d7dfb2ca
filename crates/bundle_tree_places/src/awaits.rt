//! Where an `await` stands that only an async function or the top of a module may have.

ghost use Rattle.std.specs.Prelude.{◌≡◌, ◌∷◌, [], IfOk, map};
ghost use Rattle.bundle_syntax.specs.Item.{head_of, item_of};
ghost use Rattle.bundle_rules.specs.Awaits as Awaits;
ghost use Rattle.bundle_tree_places.specs.Nested as nested;
ghost use Rattle.bundle_tree_places.specs.Nested.{awaits_in};

use bundle_syntax::{Node, Piece};
use std::alloc::{AllocError, Global};

/// What stands directly in a node: it stands outside functions, or in one, or in one unless it is the key.
#[derive(Clone, Copy)]
pub enum Standing {
    Outside,
    Inside,
    KeyOutside,
}

/// Whether an `await` or `for await` stands outside functions (ECMA-262, 15.8 and 16.2). Functions are meant
/// with their parameters and without their keys; static blocks and values of fields are no functions.
pub fn awaits_outside<'a>(alloc: Global, pieces: &[Piece<'a>]) -> Result<bool, AllocError>
    ensures { IfOk result (λ awaits. awaits ≡ Awaits.awaits_outside (map item_of pieces.now)) }
{
    has_await(alloc, pieces)
}

// The same, by the nodes that are open.
fn has_await<'a>(alloc: Global, pieces: &[Piece<'a>]) -> Result<bool, AllocError>
    ensures { IfOk result (λ awaits.
        awaits ≡ awaits_in (Standing.Outside ∷ []) (map item_of pieces.now)) }
{
    let mut around = Standing::Outside;
    let mut outer = Vec::new(alloc);
    for piece in pieces {
        match *piece {
            Piece::Open { field, node } => {
                let is_inside = is_inside(around, field);
                if !is_inside && awaits(node) {
                    return Ok(true);
                }
                outer.push(around)?;
                around = standing_of(node, is_inside);
            }
            Piece::Close => around = outer.pop().unwrap_or(Standing::Outside),
            Piece::Ident { .. } => {}
            Piece::Hole { .. } => {}
        }
    }
    Ok(false)
}

// Whether what stands in this field of a node stands in a function.
fn is_inside(around: Standing, field: u8) -> bool
    ensures { result ≡ nested.is_inside around field }
{
    match around {
        Standing::Outside => false,
        Standing::Inside => true,
        Standing::KeyOutside => field != 0,
    }
}

// How what is directly in such a node stands, if the node stands in a function or not.
fn standing_of<'a>(node: Node<'a>, is_inside: bool) -> Standing
    ensures { result ≡ nested.standing_of (head_of node.entry) is_inside }
{
    if is_inside {
        return Standing::Inside;
    }
    match node {
        Node::Function { .. } => Standing::Inside,
        Node::Constructor => Standing::Inside,
        Node::ArrowExpr { .. } => Standing::Inside,
        Node::GetterProp => Standing::KeyOutside,
        Node::SetterProp => Standing::KeyOutside,
        _ => Standing::Outside,
    }
}

// Whether such a node is an `await` or a `for await`.
fn awaits<'a>(node: Node<'a>) -> bool
    ensures { result ≡ Awaits.awaits (head_of node.entry) }
{
    match node {
        Node::AwaitExpr => true,
        Node::ForOfStmt { is_await } => is_await,
        _ => false,
    }
}

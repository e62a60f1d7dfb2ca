//! What comes next in a list, behind the beginning of a node.

ghost use Rattle.std.specs.Prelude.{◌≡◌, Some, is_some, map, option_map, slice_get};
ghost use Rattle.bundle_syntax.specs.Item.{item_of};
ghost use Rattle.bundle_tree_rebuild.specs.Becomes as becomes;
ghost use Rattle.bundle_tree_rebuild.specs.Walked as walked;

use bundle_syntax::{Node, Piece, Role};

/// Whether a node that just began has but a name in it.
pub(crate) fn is_alone(ahead: &[Piece]) -> bool
    ensures { result ≡ walked.is_alone (map item_of ahead.now) }
{
    is_name(ahead.get(0)) && is_close(ahead.get(1))
}

/// Whether a node that just began has a member expression first.
pub(crate) fn begins_with_member(ahead: &[Piece]) -> bool
    ensures { result ≡ becomes.begins_with_member (map item_of ahead.now) }
{
    match ahead.first() {
        Some(
            Piece::Open {
                node: Node::MemberExpr,
                ..
            },
        ) => true,
        _ => false,
    }
}

/// Whether a shorthand property of a pattern that just began has a default value.
pub(crate) fn has_default(ahead: &[Piece]) -> bool
    ensures { result ≡ walked.has_default_ahead (map item_of ahead.now) }
{
    !is_close(ahead.get(3))
}

/// The symbol of the name of a shorthand property of a pattern that just began.
pub(crate) fn shorthand_symbol<'a>(ahead: &[Piece<'a>]) -> Option<&'a str>
    ensures { option_map (λ sym. sym.now) result
        ≡ walked.symbol_at (slice_get (map item_of ahead.now) 1) }
{
    match ahead.get(1) {
        Some(Piece::Ident { sym, .. }) => Some(*sym),
        _ => None,
    }
}

/// Whether a call that just began is the literal call of an identifier: it has one argument, a string that is not
/// spread.
pub(crate) fn is_literal_call(ahead: &[Piece]) -> bool
    ensures { result ≡ walked.is_call_ahead (map item_of ahead.now) }
{
    is_reference(ahead.get(0)) && is_string_argument(ahead) && is_call_end(ahead)
}

// Whether the second and third pieces are those of a string that is an argument, not spread.
fn is_string_argument(ahead: &[Piece]) -> bool
    ensures { result ≡ walked.is_string_ahead (map item_of ahead.now) }
{
    is_argument(ahead.get(1)) && is_string(ahead.get(2))
}

// Whether the string, the argument and the call end behind them.
fn is_call_end(ahead: &[Piece]) -> bool
    ensures { result ≡ walked.is_end_ahead (map item_of ahead.now) }
{
    is_close(ahead.get(3)) && is_argument_end(ahead)
}

// Whether the argument and the call end behind the string.
fn is_argument_end(ahead: &[Piece]) -> bool
    ensures { result ≡ walked.is_argument_end_ahead (map item_of ahead.now) }
{
    is_close(ahead.get(4)) && is_close(ahead.get(5))
}

/// Whether a member expression that just began is just so many static reads around an identifier: each is of a
/// plain word.
pub(crate) fn are_reads(ahead: &[Piece], count: usize) -> bool
    ensures { result ≡ walked.are_reads_ahead count (map item_of ahead.now) }
{
    match count.checked_sub(1) {
        Some(fewer) => has_read(ahead, fewer),
        None => false,
    }
}

// Whether an identifier with so many static reads around it comes next, and a plain word behind it.
fn has_read(pieces: &[Piece], count: usize) -> bool
    ensures { result
        ≡ is_some (becomes.behind_word (becomes.behind_reads count (map item_of pieces.now))) }
{
    match behind_reads(pieces, count) {
        Some(rest) => behind_word(rest).is_some(),
        None => false,
    }
}

// What stands behind an identifier with so many static reads around it.
fn behind_reads<'p, 'a>(pieces: &'p [Piece<'a>], count: usize) -> Option<&'p [Piece<'a>]>
    ensures { option_map (λ rest. map item_of rest.now) result
        ≡ becomes.behind_reads count (map item_of pieces.now) }
{
    match count.checked_sub(1) {
        Some(fewer) => {
            let rest = behind_member(pieces)?;
            let rest = behind_reads(rest, fewer)?;
            behind_word(rest)
        }
        None => behind_reference(pieces),
    }
}

// What stands behind the beginning of a member expression.
fn behind_member<'p, 'a>(pieces: &'p [Piece<'a>]) -> Option<&'p [Piece<'a>]>
    ensures { option_map (λ rest. map item_of rest.now) result
        ≡ walked.behind_member (map item_of pieces.now) }
{
    let (piece, rest) = pieces.split_first()?;
    match *piece {
        Piece::Open {
            node: Node::MemberExpr,
            ..
        } => Some(rest),
        _ => None,
    }
}

// What stands behind an identifier that refers.
fn behind_reference<'p, 'a>(pieces: &'p [Piece<'a>]) -> Option<&'p [Piece<'a>]>
    ensures { option_map (λ rest. map item_of rest.now) result
        ≡ becomes.behind_reads 0 (map item_of pieces.now) }
{
    let (piece, rest) = pieces.split_first()?;
    match *piece {
        Piece::Ident {
            role: Role::Reference,
            ..
        } => Some(rest),
        _ => None,
    }
}

// What stands behind a plain word and the end of the member expression around it.
fn behind_word<'p, 'a>(pieces: &'p [Piece<'a>]) -> Option<&'p [Piece<'a>]>
    ensures { option_map (λ rest. map item_of rest.now) result
        ≡ becomes.behind_word (Some (map item_of pieces.now)) }
{
    let (piece, rest) = pieces.split_first()?;
    match *piece {
        Piece::Open {
            node: Node::IdentName { .. },
            ..
        } => behind_end(behind_end(rest)?),
        _ => None,
    }
}

// What stands behind the end of a node.
fn behind_end<'p, 'a>(pieces: &'p [Piece<'a>]) -> Option<&'p [Piece<'a>]>
    ensures { option_map (λ rest. map item_of rest.now) result
        ≡ walked.behind_end (map item_of pieces.now) }
{
    let (piece, rest) = pieces.split_first()?;
    match *piece {
        Piece::Close => Some(rest),
        _ => None,
    }
}

fn is_close(piece: Option<&Piece>) -> bool
    ensures { result ≡ walked.is_close (option_map (λ it. item_of it.now) piece.entry) }
{
    match piece {
        Some(Piece::Close) => true,
        _ => false,
    }
}

fn is_name(piece: Option<&Piece>) -> bool
    ensures { result ≡ walked.is_name (option_map (λ it. item_of it.now) piece.entry) }
{
    match piece {
        Some(Piece::Ident { .. }) => true,
        _ => false,
    }
}

fn is_reference(piece: Option<&Piece>) -> bool
    ensures { result ≡ walked.is_reference (option_map (λ it. item_of it.now) piece.entry) }
{
    match piece {
        Some(
            Piece::Ident {
                role: Role::Reference,
                ..
            },
        ) => true,
        _ => false,
    }
}

fn is_argument(piece: Option<&Piece>) -> bool
    ensures { result ≡ walked.is_argument (option_map (λ it. item_of it.now) piece.entry) }
{
    match piece {
        Some(
            Piece::Open {
                node: Node::ExprOrSpread { spread: false },
                ..
            },
        ) => true,
        _ => false,
    }
}

fn is_string(piece: Option<&Piece>) -> bool
    ensures { result ≡ walked.is_string (option_map (λ it. item_of it.now) piece.entry) }
{
    match piece {
        Some(
            Piece::Open {
                node: Node::Str { .. },
                ..
            },
        ) => true,
        _ => false,
    }
}

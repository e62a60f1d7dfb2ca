//! What stands in the second fields of nodes, and the words of members.

ghost use Rattle.std.specs.Prelude.{◌≡◌, ℕ, zero, suc, ◌+◌, [], ◌∷◌, List, Some, None, if◌then◌else◌, IfOk, OnOk, map, reverse, slice_index_or};
ghost use Rattle.bundle_syntax.specs.Item.{Item, item_of};
ghost use Rattle.bundle_rules.specs.Nodes.{node_at};
ghost use Rattle.bundle_rules.specs.Reads.{plain_word, property_of};
ghost use Rattle.bundle_tree_places.specs.Seconds as Seconds;
ghost use Rattle.bundle_tree_places.specs.Seconds.{AreSeconds, AreTops, is_member_item, noted, second_from, text_of};

use bundle_syntax::{Node, Piece};
use std::alloc::{AllocError, Global};

/// For each place where what stands in the second field of the node that begins there begins, if something does.
pub fn seconds_of<'a>(alloc: Global, pieces: &[Piece<'a>]) -> Result<Vec<Option<usize>>, AllocError>
    ensures { IfOk result (λ seconds. AreSeconds (map item_of pieces.now) seconds.items) }
{
    let mut seconds = vec![in alloc; None; pieces.len()]?;
    let mut stack = Vec::new(alloc);
    let mut place = pieces.len();
    while place > 0 {
        place -= 1;
        let second = step_back(&mut stack, pieces[place], place)?;
        seconds[place] = second;
    }
    Ok(seconds)
}

// Goes back by an element at a place. The stack has, for each node that is still open behind it, where the first
// element of its second field begins; tells that of the innermost one behind the element.
fn step_back<'a>(
    stack: &mut Vec<Option<usize>>,
    piece: Piece<'a>,
    place: usize,
) -> Result<Option<usize>, AllocError>
    ensures tops { OnOk result
        ((rest : List Item) →
        AreTops stack.old.items (λ depth. second_from depth (place + 1) rest) →
        AreTops stack.new.items (λ depth.
        second_from depth place (item_of piece.entry ∷ rest))) }
    ensures top { IfOk result (λ second.
        (rest : List Item) →
        AreTops stack.old.items (λ depth. second_from depth (place + 1) rest) →
        second ≡ second_from zero (place + 1) rest) }
{
    let second = top_of(stack);
    match piece {
        Piece::Open { field, .. } => {
            drop_top(stack);
            note_top(stack, field, place)?;
        }
        Piece::Ident { field, .. } => note_top(stack, field, place)?,
        Piece::Hole { field } => note_top(stack, field, place)?,
        Piece::Close => push_none(stack)?,
    }
    Ok(second)
}

// What stands on top.
fn top_of(stack: &[Option<usize>]) -> Option<usize>
    ensures { result ≡ slice_index_or (reverse stack.now) zero None }
{
    match stack.last() {
        Some(top) => *top,
        None => None,
    }
}

// Takes the top away.
fn drop_top(stack: &mut Vec<Option<usize>>)
    ensures { (depth : ℕ) →
        slice_index_or (reverse stack.new.items) depth None
        ≡ slice_index_or (reverse stack.old.items) (suc depth) None }
{
    stack.pop();
}

// Puts a place on top instead of what stands there, if it is of the second field.
fn note_top(stack: &mut Vec<Option<usize>>, field: u8, place: usize) -> Result<(), AllocError>
    ensures top { OnOk result
        (slice_index_or (reverse stack.new.items) zero None
        ≡ noted field place (slice_index_or (reverse stack.old.items) zero None)) }
    ensures more { OnOk result
        ((depth : ℕ) →
        slice_index_or (reverse stack.new.items) (suc depth) None
        ≡ slice_index_or (reverse stack.old.items) (suc depth) None) }
{
    if field == 1 {
        put_top(stack, place)?;
    }
    Ok(())
}

// Puts a place on top instead of what stands there.
fn put_top(stack: &mut Vec<Option<usize>>, place: usize) -> Result<(), AllocError>
    ensures top { OnOk result (slice_index_or (reverse stack.new.items) zero None ≡ Some place) }
    ensures more { OnOk result
        ((depth : ℕ) →
        slice_index_or (reverse stack.new.items) (suc depth) None
        ≡ slice_index_or (reverse stack.old.items) (suc depth) None) }
{
    drop_top(stack);
    stack.push(Some(place))?;
    Ok(())
}

// Puts nothing on top of what stands there.
fn push_none(stack: &mut Vec<Option<usize>>) -> Result<(), AllocError>
    ensures top { OnOk result (slice_index_or (reverse stack.new.items) zero None ≡ None) }
    ensures more { OnOk result
        ((depth : ℕ) →
        slice_index_or (reverse stack.new.items) (suc depth) None
        ≡ slice_index_or (reverse stack.old.items) depth None) }
{
    stack.push(None)?;
    Ok(())
}

/// The word x, where a node `p.x` begins at a place.
pub fn property_at<'a>(
    pieces: &[Piece<'a>],
    seconds: &[Option<usize>],
    place: usize,
) -> Option<&'a str>
    ensures { AreSeconds (map item_of pieces.now) seconds.now →
        text_of result ≡ property_of (node_at (map item_of pieces.now) place) }
{
    if place < pieces.len() {
        word_in(pieces, pieces[place], second_at(seconds, place))
    } else {
        None
    }
}

// The word x of a node `p.x` with this first element, where what stands in its second field begins there.
fn word_in<'a>(pieces: &[Piece<'a>], piece: Piece<'a>, second: Option<usize>) -> Option<&'a str>
    ensures { text_of result
        ≡ (if is_member_item (item_of piece.entry) then Seconds.word_at (map item_of pieces.now)
        second else None) }
{
    match piece {
        Piece::Open {
            node: Node::MemberExpr,
            ..
        } => word_at(pieces, second),
        _ => None,
    }
}

// What stands first in the second field of the node that begins at a place.
fn second_at(seconds: &[Option<usize>], place: usize) -> Option<usize>
    ensures { result ≡ slice_index_or seconds.now place None }
{
    if place < seconds.len() {
        seconds[place]
    } else {
        None
    }
}

// The plain word that begins at a place, if there is one.
fn word_at<'a>(pieces: &[Piece<'a>], place: Option<usize>) -> Option<&'a str>
    ensures { text_of result ≡ Seconds.word_at (map item_of pieces.now) place }
{
    match place {
        None => None,
        Some(place) => {
            if place < pieces.len() {
                word_of(pieces[place])
            } else {
                None
            }
        }
    }
}

// The text of a plain word, if an element is one.
fn word_of<'a>(piece: Piece<'a>) -> Option<&'a str>
    ensures { text_of result ≡ plain_word (item_of piece.entry ∷ []) }
{
    match piece {
        Piece::Open {
            node: Node::IdentName { sym },
            ..
        } => Some(sym),
        _ => None,
    }
}

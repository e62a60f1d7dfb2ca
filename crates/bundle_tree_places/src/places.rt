//! What is told of the places of a list by the nodes around them.

ghost use Rattle.std.specs.Prelude.{◌≡◌, ◌&&◌, ◌||◌, ◌∷◌, ℕ, List, Some, None, IfOk, OnOk, map, reverse, slice_get, if◌then◌else◌};
ghost use Rattle.bundle_syntax.specs.Item.{head_of, item_of};
ghost use Rattle.bundle_rules.specs.Places.{Around, in_field, outer_path, path_past, path_to};
ghost use Rattle.bundle_rules.specs.Nodes.{field_of, node_at};
ghost use Rattle.bundle_rules.specs.Reads as reads;
ghost use Rattle.bundle_rules.specs.Reads.{property_of};
ghost use Rattle.bundle_tree_places.specs.Placed.{AreOpen, AreTold, IsOpen, IsSpot, read_in};
ghost use Rattle.bundle_tree_places.specs.Seconds.{AreSeconds, text_of};
ghost use Rattle.bundle_tree_places.specs.Stated as Stated;
ghost use Rattle.bundle_tree_places.specs.Stated.{is_in_statement};

use crate::nodes::{is_optional_chain, passes_writes, states_nothing, writes};
use crate::seconds::{property_at, seconds_of};
use bundle_syntax::{Node, Piece};
use std::alloc::{AllocError, Global};

/// What is told of a place: the word of a read that begins there and may be static, and whether what stands there
/// lies in a top item that states something.
#[derive(Clone, Copy)]
pub struct ReadAt<'a> {
    pub word: Option<&'a str>,
    pub is_stated: bool,
}

/// What is known of a place by the nodes around it.
#[derive(Clone, Copy)]
pub struct Spot {
    /// What stands there is written to.
    is_written: bool,
    /// It is the base of an optional chain.
    is_base: bool,
    /// It lies in a top item that states something.
    is_stated: bool,
}

/// An open node: whether it is written to, and whether what stands in it lies in a top item that states something.
#[derive(Clone, Copy)]
pub struct Frame<'a> {
    node: Node<'a>,
    is_written: bool,
    is_stated: bool,
}

/// What is told of each place of a list.
pub fn told_places<'a>(alloc: Global, pieces: &[Piece<'a>]) -> Result<Vec<ReadAt<'a>>, AllocError>
    ensures { IfOk result (λ told. AreTold (map item_of pieces.now) told.items) }
{
    let seconds = seconds_of(alloc, pieces)?;
    let mut told = Vec::new(alloc);
    let mut frames: Vec<Frame<'a>> = Vec::new(alloc);
    for (place, piece) in pieces.iter().enumerate() {
        told.push(tell(pieces, &seconds, &frames, place, *piece))?;
        step_past(&mut frames, *piece)?;
    }
    Ok(told)
}

// What is told of an element at a place, which stands in these open nodes.
fn tell<'a>(
    pieces: &[Piece<'a>],
    seconds: &[Option<usize>],
    frames: &[Frame<'a>],
    place: usize,
    piece: Piece<'a>,
) -> ReadAt<'a>
    ensures word { (path : List Around) →
        AreSeconds (map item_of pieces.now) seconds.now →
        AreOpen (reverse frames.now) path →
        slice_get (map item_of pieces.now) place ≡ Some (item_of piece.entry) →
        text_of result.word
        ≡ read_in (path_to path (item_of piece.entry))
        (property_of (node_at (map item_of pieces.now) place)) }
    ensures stated { (path : List Around) (field : ℕ) →
        AreOpen (reverse frames.now) path →
        field_of (item_of piece.entry) ≡ Some field →
        result.is_stated ≡ is_in_statement (path_to path (item_of piece.entry)) }
{
    match field_in(piece) {
        Some(field) => told_in(pieces, seconds, frames, place, field),
        None => ReadAt {
            word: None,
            is_stated: false,
        },
    }
}

// The field in which an element lies; an end lies in none.
fn field_in<'a>(piece: Piece<'a>) -> Option<u8>
    ensures { result ≡ field_of (item_of piece.entry) }
{
    match piece {
        Piece::Open { field, .. } => Some(field),
        Piece::Ident { field, .. } => Some(field),
        Piece::Hole { field } => Some(field),
        Piece::Close => None,
    }
}

// What is told of a place in this field of the innermost of these open nodes.
fn told_in<'a>(
    pieces: &[Piece<'a>],
    seconds: &[Option<usize>],
    frames: &[Frame<'a>],
    place: usize,
    field: u8,
) -> ReadAt<'a>
    ensures word { (path : List Around) →
        AreSeconds (map item_of pieces.now) seconds.now →
        AreOpen (reverse frames.now) path →
        text_of result.word
        ≡ read_in (in_field field path) (property_of (node_at (map item_of pieces.now) place)) }
    ensures stated { (path : List Around) →
        AreOpen (reverse frames.now) path →
        result.is_stated ≡ is_in_statement (in_field field path) }
{
    let spot = spot_at(frames, field);
    let property = property_at(pieces, seconds, place);
    ReadAt {
        word: word_read(spot, property),
        is_stated: spot.is_stated,
    }
}

// The word of a read at such a place, if it may be static there.
fn word_read<'a>(spot: Spot, word: Option<&'a str>) -> Option<&'a str>
    ensures { text_of result
        ≡ (if spot.is_written || spot.is_base then None else text_of word.entry) }
{
    if spot.is_written || spot.is_base {
        None
    } else {
        word
    }
}

// What is known of what stands in this field of the innermost of these open nodes.
fn spot_at<'a>(frames: &[Frame<'a>], field: u8) -> Spot
    ensures { (path : List Around) →
        AreOpen (reverse frames.now) path → IsSpot result (in_field field path) }
{
    if frames.len() > 0 {
        inside(frames[frames.len() - 1], field)
    } else {
        Spot {
            is_written: false,
            is_base: false,
            is_stated: false,
        }
    }
}

// What is known of what stands in this field of an open node.
fn inside<'a>(frame: Frame<'a>, field: u8) -> Spot
    ensures written { result.is_written
        ≡ (reads.writes (head_of frame.entry.node) field
        || (reads.passes_writes (head_of frame.entry.node) field && frame.entry.is_written)) }
    ensures base { result.is_base ≡ reads.is_optional_chain (head_of frame.entry.node) }
    ensures stated { result.is_stated ≡ frame.entry.is_stated }
{
    let node = frame.node;
    Spot {
        is_written: writes(node, field) || (passes_writes(node, field) && frame.is_written),
        is_base: is_optional_chain(node),
        is_stated: frame.is_stated,
    }
}

// Goes past an element: a node that begins is open behind it, and one that ends is not.
fn step_past<'a>(frames: &mut Vec<Frame<'a>>, piece: Piece<'a>) -> Result<(), AllocError>
    ensures { OnOk result
        ((place : ℕ) (path : List Around) →
        AreOpen (reverse frames.old.items) path →
        AreOpen (reverse frames.new.items) (path_past place path (item_of piece.entry))) }
{
    match piece {
        Piece::Open { field, node } => {
            let frame = frame_at(frames, field, node);
            push_frame(frames, frame)?;
            Ok(())
        }
        Piece::Ident { .. } => Ok(()),
        Piece::Hole { .. } => Ok(()),
        Piece::Close => {
            drop_frame(frames);
            Ok(())
        }
    }
}

// A node that begins in this field of the innermost of these open nodes.
fn frame_at<'a>(frames: &[Frame<'a>], field: u8, node: Node<'a>) -> Frame<'a>
    ensures { (begins : ℕ) (path : List Around) →
        AreOpen (reverse frames.now) path →
        IsOpen result (record { head = head_of node.entry; begins = begins; field = 0 })
        (in_field field path) }
{
    let spot = spot_at(frames, field);
    Frame {
        node,
        is_written: spot.is_written,
        is_stated: is_stated_in(frames, node),
    }
}

// Whether what stands in a node, in these open ones, lies in a top item that states something.
fn is_stated_in<'a>(frames: &[Frame<'a>], node: Node<'a>) -> bool
    ensures { (path : List Around) →
        AreOpen (reverse frames.now) path →
        result ≡ Stated.is_stated_in (head_of node.entry) path }
{
    if frames.len() > 1 {
        frames[frames.len() - 1].is_stated
    } else if frames.len() > 0 {
        !states_nothing(node)
    } else {
        true
    }
}

// Opens a node.
fn push_frame<'a>(frames: &mut Vec<Frame<'a>>, frame: Frame<'a>) -> Result<(), AllocError>
    ensures { OnOk result (reverse frames.new.items ≡ frame.entry ∷ reverse frames.old.items) }
{
    frames.push(frame)?;
    Ok(())
}

// Closes the innermost node.
fn drop_frame<'a>(frames: &mut Vec<Frame<'a>>)
    ensures { (path : List Around) →
        AreOpen (reverse frames.old.items) path →
        AreOpen (reverse frames.new.items) (outer_path path) }
{
    frames.pop();
}

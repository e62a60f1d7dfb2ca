//! Where something stands in the text of a module.

ghost use Rattle.std.specs.Prelude.{◌≤◌, length, IfOk, IfSome};

use crate::graph::MOST_DEPTH;
use bundle_scope_denote::{ModuleKind, first_doubled};
use bundle_syntax::{Node, Piece};
use gutsirava_sources::{Exported, Placed, SourceKind, exports_of, outline_of, read_as, taken_of};
use std::alloc::{AllocError, Global};

/// What is looked for in a module.
#[derive(Clone, Copy)]
pub(crate) enum TextSpot<'n> {
    /// The declaration of a name that is declared already.
    Doubled,
    /// The export of this name, behind so many of that name.
    Export(&'n str, usize),
    /// The export of this name, which the module does not declare.
    Undeclared(&'n str),
    /// The import of this name.
    Import(&'n str),
    With,
    Await,
    Arguments,
}

/// The bytes of a module's text in which something stands.
pub(crate) fn spot_in(
    alloc: Global,
    text: &str,
    kind: SourceKind,
    spot: TextSpot<'_>,
) -> Result<Option<(usize, usize)>, AllocError>
    ensures { IfOk result (λ found. IfSome found (λ it. (it.0 ≤ it.1) × (it.1 ≤ length text.now))) }
{
    let Ok(source) = read_as(alloc, text, kind) else {
        return Ok(None);
    };
    match source.pieces(alloc, MOST_DEPTH) {
        Ok(placed) => spot_in_list(alloc, text, &placed, kind, spot),
        Err(_) => Ok(None),
    }
}

// The same of the list of the module.
fn spot_in_list(
    alloc: Global,
    text: &str,
    placed: &Placed<'_>,
    kind: SourceKind,
    spot: TextSpot<'_>,
) -> Result<Option<(usize, usize)>, AllocError>
    ensures { IfOk result (λ found. IfSome found (λ it. (it.0 ≤ it.1) × (it.1 ≤ length text.now))) }
{
    match spot_piece(alloc, placed.pieces.as_slice(), kind, spot)? {
        Some(piece) => Ok(Some(bounds(text, placed, piece))),
        None => Ok(None),
    }
}

// The piece with which what is looked for begins.
fn spot_piece(
    alloc: Global,
    pieces: &[Piece<'_>],
    kind: SourceKind,
    spot: TextSpot<'_>,
) -> Result<Option<usize>, AllocError> {
    match spot {
        TextSpot::Doubled => doubled_piece(alloc, pieces, kind),
        TextSpot::Export(..) | TextSpot::Undeclared(_) => export_piece(alloc, pieces, spot),
        TextSpot::Import(name) => import_piece(alloc, pieces, name),
        TextSpot::With | TextSpot::Await | TextSpot::Arguments => {
            Ok(pieces.iter().position(|piece| is_spot(piece, spot)))
        }
    }
}

/// The bytes of the text in which the node or the name at a piece stands.
pub(crate) fn bounds(text: &str, placed: &Placed<'_>, piece: usize) -> (usize, usize)
    ensures { (result.0 ≤ result.1) × (result.1 ≤ length text.now) }
{
    let end = end_place(placed, piece).min(text.len());
    (place_of(placed, piece).min(end), end)
}

// The byte behind the node or the name at a piece.
fn end_place(placed: &Placed<'_>, piece: usize) -> usize {
    let at = place_of(placed, piece);
    if let Some(Piece::Ident { sym, .. }) = placed.pieces.get(piece) {
        return at.saturating_add(sym.len());
    }
    let end = place_of(placed, close_of(placed.pieces.as_slice(), piece));
    end.max(at.saturating_add(1))
}

/// The byte at which a piece stands.
pub(crate) fn place_of(placed: &Placed<'_>, piece: usize) -> usize {
    placed.places.get(piece).copied().unwrap_or(0) as usize
}

// The place at which the node that begins at another one ends.
fn close_of(pieces: &[Piece<'_>], begin: usize) -> usize {
    let mut depth: usize = 0;
    for end in begin..pieces.len() {
        match pieces.get(end) {
            Some(Piece::Open { .. }) => depth = depth.saturating_add(1),
            Some(Piece::Close) => depth = depth.saturating_sub(1),
            _ => {}
        }
        if depth == 0 {
            return end;
        }
    }
    pieces.len()
}

fn doubled_piece(
    alloc: Global,
    pieces: &[Piece<'_>],
    kind: SourceKind,
) -> Result<Option<usize>, AllocError> {
    let kind = match kind {
        SourceKind::EcmaScript => ModuleKind::Es,
        SourceKind::CommonJs => ModuleKind::Cjs,
    };
    Ok(first_doubled(alloc, pieces, kind)?.map(|doubled| doubled.place))
}

fn export_piece(
    alloc: Global,
    pieces: &[Piece<'_>],
    spot: TextSpot<'_>,
) -> Result<Option<usize>, AllocError> {
    let mut before = match spot {
        TextSpot::Export(_, before) => before,
        _ => 0,
    };
    let exports = exports_of(alloc, pieces)?;
    for export in &exports {
        if is_export(export, spot) {
            if before == 0 {
                return Ok(Some(export.piece));
            }
            before = before.saturating_sub(1);
        }
    }
    Ok(None)
}

// Whether an export is what is looked for.
fn is_export(export: &Exported<'_>, spot: TextSpot<'_>) -> bool {
    match (spot, export.declared) {
        (TextSpot::Export(name, _), _) => export.name == name,
        (TextSpot::Undeclared(name), Some(declared)) => declared == name,
        _ => false,
    }
}

fn import_piece(
    alloc: Global,
    pieces: &[Piece<'_>],
    name: &str,
) -> Result<Option<usize>, AllocError> {
    let outline = outline_of(alloc, pieces)?;
    let names = taken_of(alloc, pieces, &outline)?;
    for taken in &names {
        if taken.name == name {
            return Ok(Some(taken.piece));
        }
    }
    Ok(None)
}

// Whether a piece alone is what is looked for.
fn is_spot(piece: &Piece<'_>, spot: TextSpot<'_>) -> bool {
    match spot {
        TextSpot::With => matches!(
            piece,
            Piece::Open {
                node: Node::WithStmt,
                ..
            }
        ),
        TextSpot::Await => matches!(
            piece,
            Piece::Open {
                node: Node::AwaitExpr | Node::ForOfStmt { is_await: true },
                ..
            }
        ),
        TextSpot::Arguments => matches!(
            piece,
            Piece::Ident {
                sym: "arguments",
                ..
            }
        ),
        _ => false,
    }
}

//! The list of a module as the linker is handed it.

ghost use Rattle.std.specs.Prelude.{◌≡◌, ◌≤◌, ◌-◌, [], All, IfOk, None, Some, if◌then◌else◌, length, map, option_map};
ghost use Rattle.gutsirava_sources.specs.Rewritten.{IsRewritten};

use crate::made::{MadeList, NO_ORIGIN};
use crate::outline::SourceOutline;
use crate::rewriter::{PlacedComment, Rewriter};
use crate::stand::{Seat, Stand};
use crate::writing::write_module;
use bundle_js_read::KeptComment;
use bundle_syntax::Piece;
use std::alloc::{AllocError, Global};

/// The list of a module as the linker is handed it.
#[derive(Drop)]
pub struct RewrittenList<'a> {
    pub pieces: Vec<Piece<'a>>,
    /// Where that is asked for, for each piece the place in the list of the text at which it stands, or at which stands
    /// what it was put in the place of; `NO_ORIGIN` for what was put in beside that.
    pub origins: Option<Vec<u32>>,
}

/// The list of a module as the linker is handed it: `stands` has, for each request of the outline in turn, what stands
/// in its place. An import of a CommonJS module is split into its parts, and runs the module where it stands. A comment
/// that is kept stands as a statement, a string with the value `COMMENT` and the comment as its source text. The module is
/// made one of its kind by a last statement where nothing else in it tells. Refused only for memory.
pub fn rewritten<'p, 'a>(
    alloc: Global,
    pieces: &'p [Piece<'a>],
    outline: &'p SourceOutline<'_>,
    stands: &[Stand<'a>],
    remarks: &[KeptComment<'a>],
    seat: Seat<'a>,
) -> Result<RewrittenList<'a>, AllocError>
    ensures { IfOk result (λ it. IsRewritten pieces.now outline.now stands.now
        (map (λ remark. remark.text.now) remarks.now) seat.entry it.pieces.items
        (option_map (λ origins. origins.items) it.origins)) }
{
    let comments = comments_of(alloc, pieces, remarks)?;
    let rewriter = Rewriter {
        mains: outline.mains.as_slice(),
        comments: comments.as_slice(),
        seat,
    };
    let most = pieces.len().saturating_add(16);
    let mut made = MadeList {
        list: Vec::with_capacity(alloc, most)?,
        told: 0,
        origins: origins_of(alloc, seat.keeps_origins, most)?,
        origin: NO_ORIGIN,
    };
    write_module(&mut made, pieces, outline, stands, &rewriter)?;
    let MadeList { list, origins, .. } = made;
    Ok(RewrittenList {
        pieces: list,
        origins,
    })
}

// Room for the origins of pieces, where they are asked for.
fn origins_of(
    alloc: Global,
    keeps_origins: bool,
    most: usize,
) -> Result<Option<Vec<u32>>, AllocError>
    ensures { IfOk result (λ it. option_map (λ origins. origins.items) it
        ≡ (if keeps_origins then Some [] else None)) }
{
    if keeps_origins {
        Ok(Some(Vec::with_capacity(alloc, most)?))
    } else {
        Ok(None)
    }
}

// The comments of a module, each with the place of the statement of its top before which it stands, or of its end.
fn comments_of<'a>(
    alloc: Global,
    pieces: &[Piece<'a>],
    remarks: &[KeptComment<'a>],
) -> Result<Vec<PlacedComment<'a>>, AllocError>
    ensures texts { IfOk result (λ comments.
        map (λ comment. comment.text.now) comments.items
        ≡ map (λ remark. remark.text.now) remarks.now) }
    ensures within { IfOk result (λ comments.
        All (λ comment. comment.place ≤ length pieces.now - 1) comments.items) }
{
    let end = pieces.len().saturating_sub(1);
    let mut comments = Vec::new(alloc);
    let mut tops = Tops {
        next: 0,
        depth: 0,
        top: 1,
    };
    for remark in remarks {
        let place = tops.top_of(pieces, remark.piece).min(end);
        let text = remark.text;
        comments.push(PlacedComment { place, text })?;
    }
    Ok(comments)
}

// How far a list is gone over.
#[derive(Clone, Copy)]
struct Tops {
    next: usize,
    depth: usize,
    // Where the statement of the top begins in which the last piece lies.
    top: usize,
}

impl Tops {
    // Where the statement of the top begins in which a piece lies, that is not before those that were asked for; the end
    // of the list behind all pieces.
    fn top_of(&mut self, pieces: &[Piece<'_>], piece: usize) -> usize {
        if piece >= pieces.len() {
            return pieces.len();
        }
        for at in self.next..piece.saturating_add(1) {
            match pieces.get(at) {
                Some(Piece::Open { .. }) => {
                    if self.depth == 1 {
                        self.top = at;
                    }
                    self.depth = self.depth.saturating_add(1);
                }
                Some(Piece::Close) => self.depth = self.depth.saturating_sub(1),
                _ => {}
            }
            self.next = at.saturating_add(1);
        }
        self.top
    }
}

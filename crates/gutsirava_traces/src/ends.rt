//! Where the nodes of a list end.

ghost use Rattle.std.specs.Prelude.{◌≡◌, ◌<◌, ◌^◌, ◌-◌};
ghost use Rattle.gutsirava_traces.specs.Ends as ends;

use bundle_syntax::Piece;

/// The place behind the node that begins at a place, or behind the leaf there; behind the end, the place itself.
pub(crate) fn end_of(pieces: &[Piece<'_>], at: usize) -> usize
    ensures { result ≡ ends.end_of pieces.now at }
{
    let mut depth: usize = 0;
    for end in at..pieces.len() {
        depth = depth_behind(depth, &pieces[end]);
        if depth == 0 {
            return end + 1;
        }
    }
    at.max(pieces.len())
}

/// How many nodes are open behind a piece, where so many are before it.
#[tactic(auto, unfolding(crate::specs::Ends::depth_behind))]
pub(crate) fn depth_behind(depth: usize, piece: &Piece<'_>) -> usize
    requires { depth < 2 ^ 64 - 1 }
    ensures { result ≡ ends.depth_behind depth piece.now }
{
    match piece {
        Piece::Open { .. } => depth + 1,
        Piece::Close => depth.saturating_sub(1),
        Piece::Ident { .. } => depth,
        Piece::Hole { .. } => depth,
    }
}

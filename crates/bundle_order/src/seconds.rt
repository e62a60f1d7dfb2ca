//! What stands in the second fields of nodes: whether nothing does, and whether a member with a name is read there.

ghost use Rattle.std.specs.Prelude.{◌≡◌, None, map, slice_index_or};
ghost use Rattle.bundle_syntax.specs.Item.{item_of};
ghost use Rattle.bundle_rules.specs.Order.{is_nothing, is_text};
ghost use Rattle.bundle_rules.specs.Nodes.{in_field, node_at};
ghost use Rattle.bundle_rules.specs.Reads.{property_of};
ghost use Rattle.bundle_tree_places.specs.Seconds.{AreSeconds};
ghost use Rattle.bundle_order.specs.Seconds.{nothing_by};

use bundle_syntax::Piece;
use bundle_tree_places::seconds::property_at;

/// Whether nothing is in the second field of the node that begins at a place.
pub(crate) fn has_no_second<'a>(
    pieces: &[Piece<'a>],
    seconds: &[Option<usize>],
    place: usize,
) -> bool
    ensures { AreSeconds (map item_of pieces.now) seconds.now →
        result ≡ is_nothing (in_field 1 (node_at (map item_of pieces.now) place)) }
{
    if place < pieces.len() {
        has_nothing(pieces[place], second_at(seconds, place))
    } else {
        true
    }
}

// What stands first in the second field of the node that begins at a place.
fn second_at(seconds: &[Option<usize>], place: usize) -> Option<usize>
    ensures { result ≡ slice_index_or seconds.now place None }
{
    if place < seconds.len() {
        seconds[place]
    } else {
        None
    }
}

// Whether nothing is in the second field of the node that begins with an element, where this stands first in it.
fn has_nothing<'a>(piece: Piece<'a>, second: Option<usize>) -> bool
    ensures { result ≡ nothing_by (item_of piece.entry) second }
{
    match piece {
        Piece::Open { .. } => second.is_none(),
        _ => true,
    }
}

/// Whether a node begins at a place that reads the member with this name.
pub(crate) fn reads_member<'a>(
    pieces: &[Piece<'a>],
    seconds: &[Option<usize>],
    place: usize,
    name: &str,
) -> bool
    ensures { AreSeconds (map item_of pieces.now) seconds.now →
        result ≡ is_text name.now (property_of (node_at (map item_of pieces.now) place)) }
{
    match property_at(pieces, seconds, place) {
        Some(word) => name == word,
        None => false,
    }
}

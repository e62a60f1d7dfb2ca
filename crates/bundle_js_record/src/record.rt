//! The list in post-order: each node stands behind all that lies in it.

use crate::kind::Kind;

/// A record of the list: a node, or what covers one.
///
/// The records that lie in it are those from `start` on up to itself, so wrapping a node inserts nothing.
#[derive(Clone, Copy, Debug)]
pub struct Rec {
    pub kind: Kind,
    /// The number of its field in the node around it.
    pub field: u8,
    /// A number of the kind's own, as `Kind` says.
    pub op: u8,
    /// Whether its text is not that of the source, and stands in the store.
    pub escaped: bool,
    /// The place in the list of the first record that lies in it, its own place where it is a leaf.
    pub start: u32,
    /// The byte of the source at which it begins.
    pub from: u32,
    /// The byte of the source behind it.
    pub to: u32,
}

/// Where a node begins, in the list and in the source.
#[derive(Clone, Copy, Debug)]
pub struct NodeStart {
    pub start: u32,
    pub from: u32,
}

/// The record at this place; one of no kind where there is none.
pub fn record_at(records: &[Rec], at: usize) -> Rec {
    match records.get(at) {
        Some(rec) => *rec,
        None => Rec {
            kind: Kind::Gone,
            field: 0,
            op: 0,
            escaped: false,
            start: 0,
            from: 0,
            to: 0,
        },
    }
}

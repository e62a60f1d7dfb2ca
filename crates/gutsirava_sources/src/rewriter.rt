//! What the list is made of that the linker is handed.

ghost use Rattle.std.specs.List.Sorted.{IsNonDecreasing};

use crate::stand::Seat;

/// A comment, with the place of the statement of the module's top before which it stands, or of the module's end.
#[derive(Clone, Copy)]
pub(crate) struct PlacedComment<'a> {
    pub place: usize,
    pub text: &'a str,
}

/// What stands in the place of a node.
#[derive(Clone, Copy)]
pub(crate) enum Substitute<'a> {
    // The text that `import.meta.url` is.
    Url(&'a str),
    // The word for `import.meta`.
    Meta,
    // `module`, for `require.main`.
    Main,
    // The key `__proto__`, in brackets.
    Prototype,
}

/// What a list is made of beside the pieces of the text.
#[derive(Clone, Copy)]
pub(crate) struct Rewriter<'p, 'a> {
    /// The places of `require.main`.
    pub mains: &'p [usize],
    pub comments: &'p [PlacedComment<'a>],
    pub seat: Seat<'a>,
    ghost ascending: { IsNonDecreasing mains.now },
}

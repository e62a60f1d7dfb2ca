//! What becomes of an identifier.

use crate::mark::Name;

/// An identifier that is to stand in the place of another, and whether what is short there is spelled out.
#[derive(Clone, Copy)]
pub struct Change<'a> {
    pub ident: Name<'a>,
    pub is_spelled_out: bool,
}

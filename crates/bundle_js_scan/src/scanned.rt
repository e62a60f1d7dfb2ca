//! What was scanned of a token.

use crate::fault::ScanError;
use crate::token::Tok;

/// What a token is and where it ends, as `Token` says it.
#[derive(Clone, Copy)]
pub struct Scanned {
    pub kind: Tok,
    pub to: usize,
    pub escaped: bool,
    pub fault: Option<ScanError>,
}

impl Scanned {
    /// A token whose text is that of the source.
    #[inline]
    pub fn plain(kind: Tok, to: usize) -> Scanned {
        Scanned {
            kind,
            to,
            escaped: false,
            fault: None,
        }
    }

    /// No token.
    #[inline]
    pub fn bad(error: ScanError, to: usize) -> Scanned {
        Scanned {
            kind: Tok::Bad,
            to,
            escaped: false,
            fault: Some(error),
        }
    }
}

//! What is wrong with a text whose records are right.

use bundle_js_pieces::PieceError;
use bundle_js_regex::RegexError;
use std::alloc::{AllocError, AllocFailed};
use std::fmt;

/// What is wrong with a text whose records are right.
#[derive(Clone, Copy, PartialEq, Eq, Debug)]
pub enum Early {
    /// A label within a statement with this label (ECMA-262, 14.13.1).
    LabelTwice,
    /// `break` to a label that is none around it, or with none outside loops and `switch` (14.9.1).
    Break,
    /// `continue` to a label that is none of a loop around it, or outside loops (14.8.1).
    Continue,
    /// Two parameters of one name (15.1.1).
    ParameterTwice,
    /// Two values for `__proto__` in one object (13.2.5.1).
    ProtoTwice,
    /// Two constructors in one class (15.7.1).
    ConstructorTwice,
    /// A private name that no class around it declares (15.7.1).
    PrivateUnknown,
    /// Two private names of one class that are alike and no getter with its setter (15.7.1).
    PrivateTwice,
    /// A regular expression that is none (13.2.7.1).
    Regex(RegexError),
}

/// Writes why.
impl fmt::Display for Early {
    fn fmt<W: fmt::Write>(&self, f: &mut fmt::Formatter<W>) -> fmt::Result {
        match self {
            Early::LabelTwice => write!(f, "the label is already declared"),
            Early::Break => write!(
                f,
                "break outside of a loop, switch or statement with this label"
            ),
            Early::Continue => write!(f, "continue outside of a loop, or of one with this label"),
            Early::ParameterTwice => write!(f, "two parameters have this name"),
            Early::ProtoTwice => write!(f, "__proto__ is set twice in this object"),
            Early::ConstructorTwice => write!(f, "the class has a second constructor"),
            Early::PrivateUnknown => write!(f, "no class around this declares the private name"),
            Early::PrivateTwice => write!(f, "the private name is already declared in this class"),
            Early::Regex(error) => write!(f, "invalid regular expression: {error}"),
        }
    }
}

/// Why a list of records was not taken.
#[derive(Clone, Copy, PartialEq, Eq, Debug)]
pub enum EarlyError {
    /// What is wrong, and the byte of the source at which that stands: what stands first of all that is wrong.
    Early(Early, u32),
    /// A record has no text: the records are those of another source.
    Text,
    /// A growth was refused.
    OutOfMemory,
}

impl From<PieceError> for EarlyError {
    fn from(error: PieceError) -> EarlyError {
        match error {
            PieceError::Text => EarlyError::Text,
            PieceError::OutOfMemory => EarlyError::OutOfMemory,
        }
    }
}

impl From<AllocError> for EarlyError {
    fn from(_refused: AllocError) -> EarlyError {
        EarlyError::OutOfMemory
    }
}

impl<T: Drop> From<AllocFailed<T>> for EarlyError {
    fn from(_refused: AllocFailed<T>) -> EarlyError {
        EarlyError::OutOfMemory
    }
}

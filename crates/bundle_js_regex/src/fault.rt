//! Why a pattern or its flags are none.

use std::alloc::{AllocError, AllocFailed};
use std::fmt;

/// Why a pattern or its flags are none.
#[derive(Clone, Copy, PartialEq, Eq, Debug)]
pub enum RegexError {
    /// A flag that there is not.
    Flag,
    /// A flag twice.
    FlagTwice,
    /// The flag `v`, which ECMAScript 2022 does not have.
    SetsFlag,
    /// A group without its closing parenthesis.
    OpenGroup,
    /// A closing parenthesis without a group.
    Parenthesis,
    /// `(?` with nothing behind it that makes a group.
    Group,
    /// A name of a group that is no name.
    GroupName,
    /// A name of two groups.
    GroupTwice,
    /// More than 32,767 groups.
    Groups,
    /// A quantifier with nothing before it.
    Nothing,
    /// A quantifier whose least number is greater than its greatest.
    Numbers,
    /// A quantifier behind what may not be repeated.
    Quantifier,
    /// A brace that begins no quantifier, with `u`.
    Brace,
    /// A bracket or a brace by itself, with `u`.
    Bracket,
    /// A backslash at the end.
    Backslash,
    /// An escape that there is not.
    Escape,
    /// A decimal escape that names no group, with `u`.
    Decimal,
    /// `\u` that gives no code point, with `u`.
    Unicode,
    /// `\k` without a name in angle brackets.
    Reference,
    /// `\k` with a name that no group has.
    MissingName,
    /// A property or a value of one that there is not.
    Property,
    /// A class of characters without its closing bracket.
    OpenClass,
    /// A range of characters whose first is greater than its last.
    Range,
    /// A range from or to an escape of many characters, with `u`.
    RangeEnd,
    /// A growth was refused.
    OutOfMemory,
}

/// Why a pattern is refused, and the byte of it at which reading stopped.
#[derive(Clone, Copy, PartialEq, Eq, Debug)]
pub struct RegexRefusal {
    pub error: RegexError,
    pub at: usize,
}

/// Writes why.
impl fmt::Display for RegexError {
    fn fmt<W: fmt::Write>(&self, f: &mut fmt::Formatter<W>) -> fmt::Result {
        let reason = match self {
            RegexError::Flag => "a flag that there is not",
            RegexError::FlagTwice => "a flag twice",
            RegexError::SetsFlag => "the flag v, which ECMAScript 2022 does not have",
            RegexError::OpenGroup => "a group that is not closed",
            RegexError::Parenthesis => "a closing parenthesis without a group",
            RegexError::Group => "a group of no kind",
            RegexError::GroupName => "a group's name that is no name",
            RegexError::GroupTwice => "two groups of one name",
            RegexError::Groups => "more than 32,767 groups",
            RegexError::Nothing => "a quantifier with nothing to repeat",
            RegexError::Numbers => "a quantifier whose numbers are out of order",
            RegexError::Quantifier => "a quantifier behind what may not be repeated",
            RegexError::Brace => "a quantifier that is not complete",
            RegexError::Bracket => "a bracket or a brace by itself",
            RegexError::Backslash => "a backslash at the end",
            RegexError::Escape => "an escape that there is not",
            RegexError::Decimal => "a decimal escape without its group",
            RegexError::Unicode => "\\u without a code point",
            RegexError::Reference => "\\k without a name",
            RegexError::MissingName => "a reference to a group that there is not",
            RegexError::Property => "a property of characters that there is not",
            RegexError::OpenClass => "a class of characters that is not closed",
            RegexError::Range => "a range of characters out of order",
            RegexError::RangeEnd => "a range that begins or ends with many characters",
            RegexError::OutOfMemory => "out of memory",
        };
        write!(f, "{reason}")
    }
}

impl From<AllocError> for RegexError {
    fn from(_refused: AllocError) -> RegexError {
        RegexError::OutOfMemory
    }
}

impl<T: Drop> From<AllocFailed<T>> for RegexError {
    fn from(_refused: AllocFailed<T>) -> RegexError {
        RegexError::OutOfMemory
    }
}

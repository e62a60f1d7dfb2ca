//! Why a text has no token where one is looked for.

use std::fmt;

/// Why a text has no token where one is looked for, or why the text of a template may not be cooked.
#[derive(Clone, Copy, PartialEq, Eq, Debug)]
pub enum ScanError {
    /// A character that begins no token.
    Character,
    /// A comment that begins with `/*` and does not end.
    Comment,
    /// A string with no end on its line (ECMA-262, 12.9.4).
    Quote,
    /// A template with no end (12.9.6).
    Template,
    /// A regular expression with no end on its line (12.9.5).
    Regex,
    /// A numeric literal without its digits (12.9.3).
    Digits,
    /// A separator `_` that does not stand between two digits.
    Separator,
    /// A number that begins with `0` and goes on with a digit, which strict code refuses.
    LegacyNumber,
    /// A name or a digit right behind a numeric literal.
    BehindNumber,
    /// An escape in a name that gives no character of a name (12.7).
    NameEscape,
    /// `#` with no name behind it.
    PrivateName,
    /// `\x` without two hexadecimal digits.
    HexEscape,
    /// `\u` without four hexadecimal digits, or digits in braces up to 10FFFF.
    UnicodeEscape,
    /// An escape of octal digits, `\8` or `\9`, which strict code and templates refuse.
    OctalEscape,
    /// An escape that gives half of a surrogate pair, which a text has no form for.
    Surrogate,
}

/// Writes why.
impl fmt::Display for ScanError {
    fn fmt<W: fmt::Write>(&self, f: &mut fmt::Formatter<W>) -> fmt::Result {
        let reason = match self {
            ScanError::Character => "a character that begins no token",
            ScanError::Comment => "a comment that does not end",
            ScanError::Quote => "a string that does not end on its line",
            ScanError::Template => "a template that does not end",
            ScanError::Regex => "a regular expression that does not end on its line",
            ScanError::Digits => "a number without its digits",
            ScanError::Separator => "a numeric separator that is not between two digits",
            ScanError::LegacyNumber =>
                "an octal number or a leading zero, which strict code refuses",
            ScanError::BehindNumber => "a name or a digit right behind a number",
            ScanError::NameEscape => "an escape in a name that gives no character of a name",
            ScanError::PrivateName => "a # without a name",
            ScanError::HexEscape => "\\x without two hexadecimal digits",
            ScanError::UnicodeEscape => "\\u without a code point",
            ScanError::OctalEscape => "an octal escape, which strict code and templates refuse",
            ScanError::Surrogate => "an escape that gives half of a surrogate pair",
        };
        write!(f, "{reason}")
    }
}

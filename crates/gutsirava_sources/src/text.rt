//! The text of a file as a reader takes it.

ghost use Rattle.std.specs.Prelude.{◌≡◌, IfOk, option_copied, string_bytes};
ghost use Rattle.gutsirava_sources.specs.FileText as file;

use std::alloc::{AllocError, Global};

/// The byte order mark.
const MARK: &str = "\u{feff}";

/// The first line of a text, where it names a program (`#!`), without its end.
pub fn hashbang_of(text: &str) -> Option<&str>
    ensures { option_copied result ≡ file.hashbang_of text.now }
{
    let text = unmarked(text);
    if text.starts_with("#!") {
        Some(first_line(text))
    } else {
        None
    }
}

/// The text without a byte order mark in front, and with a comment in the place of a first line that names a program:
/// all else stands in the columns and lines in which it stood. Refused only for memory.
pub fn plain_text(alloc: Global, text: String) -> Result<String, AllocError>
    ensures { IfOk result (λ plain. string_bytes plain ≡ file.plain_text (string_bytes text)) }
{
    let inner = match text.as_str().strip_prefix(MARK) {
        Some(inner) => String::from_str(alloc, inner)?,
        None => text,
    };
    match inner.as_str().strip_prefix("#!") {
        Some(rest) => format!(in alloc; "//{rest}"),
        None => Ok(inner),
    }
}

// What stands behind a byte order mark, or all.
fn unmarked(text: &str) -> &str
    ensures { result.now ≡ file.unmarked text.now }
{
    match text.strip_prefix(MARK) {
        Some(inner) => inner,
        None => text,
    }
}

// The first line of a text, without its end.
fn first_line(text: &str) -> &str
    ensures { result.now ≡ file.first_line text.now }
{
    match text.split_once('\n') {
        Some((line, _)) => without_return(line),
        None => without_return(text),
    }
}

// A line without a carriage return at its end.
fn without_return(line: &str) -> &str
    ensures { result.now ≡ file.without_return line.now }
{
    match line.strip_suffix("\r") {
        Some(inner) => inner,
        None => line,
    }
}

//! Parts of a path that no target may have.

use gutsirava_path::read_escape;

/// Whether a part of the text, between `/` or `\`, is `.`, `..` or `node_modules`, in any case, written plainly or by
/// escapes.
pub(crate) fn has_forbidden_part(text: &str) -> bool {
    text.split(|c: char| c == '/' || c == '\\')
        .any(is_forbidden)
}

fn is_forbidden(part: &str) -> bool {
    reads_as(part, b".") || reads_as(part, b"..") || reads_as(part, b"node_modules")
}

/// Whether a part with escapes reads as a word of lowercase letters.
fn reads_as(part: &str, word: &[u8]) -> bool {
    let mut rest = part.as_bytes();
    for expected in word {
        match next_byte(rest) {
            Some((byte, others)) if byte.to_ascii_lowercase() == *expected => rest = others,
            _ => return false,
        }
    }
    rest.is_empty()
}

/// The byte in front, an escape read, and what stands behind it.
fn next_byte(text: &[u8]) -> Option<(u8, &[u8])> {
    let (first, rest) = text.split_first()?;
    if *first != b'%' {
        return Some((*first, rest));
    }
    match read_escape(rest) {
        Some(escaped) => Some(escaped),
        None => Some((*first, rest)),
    }
}

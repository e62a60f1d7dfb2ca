//! What is not of ECMAScript: JSX and TypeScript, told by what stands where reading stopped.

use crate::error::ReadErrorKind;
use bundle_js_scan::byte::byte_at;

// Whether a name may hold this byte.
fn is_part(byte: u8) -> bool {
    byte.is_ascii_alphanumeric() || byte == b'_' || byte == b'$' || byte >= 128
}

// Where the last byte before this place stands that is no white space, as the place behind it.
fn end_before(text: &[u8], at: usize) -> usize {
    for place in (0..at.min(text.len())).rev() {
        if !byte_at(text, place).is_ascii_whitespace() {
            return place.saturating_add(1);
        }
    }
    0
}

// The name that ends at this place.
fn word_before(text: &str, end: usize) -> &str {
    let bytes = text.as_bytes();
    let mut from = end;
    for place in (0..end.min(bytes.len())).rev() {
        if !is_part(byte_at(bytes, place)) {
            break;
        }
        from = place;
    }
    text.get(from..end).unwrap_or("")
}

// The name that begins at this place.
fn word_at(text: &str, from: usize) -> &str {
    let bytes = text.as_bytes();
    let mut end = from;
    for place in from..bytes.len() {
        if !is_part(byte_at(bytes, place)) {
            break;
        }
        end = place.saturating_add(1);
    }
    text.get(from..end).unwrap_or("")
}

// Whether a word of TypeScript's begins at this place, or stands right before it.
fn has_typescript_word(text: &str, at: usize, byte: u8) -> bool {
    match word_before(text, end_before(text.as_bytes(), at)) {
        "type" => is_part(byte) || byte == b'{' || byte == b'*',
        "abstract"
        | "declare"
        | "enum"
        | "interface"
        | "module"
        | "namespace"
        | "override"
        | "private"
        | "protected"
        | "public"
        | "readonly" => is_part(byte),
        _ => matches!(
            word_at(text, at),
            "as" | "satisfies" | "enum" | "interface" | "implements"
        ),
    }
}

// Whether TypeScript's syntax goes on at this place where ECMAScript's ends.
fn is_typescript(text: &str, at: usize, byte: u8, before: u8) -> bool {
    match byte {
        b':' => is_part(before) || matches!(before, b')' | b']' | b'}' | b'?'),
        b'<' => is_part(before),
        b'?' => byte_at(text.as_bytes(), at.saturating_add(1)) == b':',
        _ => has_typescript_word(text, at, byte),
    }
}

/// What stands at this place that ECMAScript has nothing of; none where it is a token like any other.
pub fn foreign_at(text: &str, at: usize) -> Option<ReadErrorKind> {
    let bytes = text.as_bytes();
    let Some(byte) = bytes.get(at).copied() else {
        return Some(ReadErrorKind::End);
    };
    let next = byte_at(bytes, at.saturating_add(1));
    let before = byte_at(bytes, end_before(bytes, at).saturating_sub(1));
    if is_typescript(text, at, byte, before) {
        Some(ReadErrorKind::TypeScript)
    } else if byte == b'<' && (next.is_ascii_alphabetic() || next == b'>') {
        Some(ReadErrorKind::Jsx)
    } else {
        None
    }
}

//! Bytes and characters of a text in UTF-8.

ghost use Rattle.std.specs.Prelude.{◌<◌, IfSome};

/// The byte at this place, and 0 behind the text.
#[inline]
pub fn byte_at(text: &[u8], at: usize) -> u8 {
    match text.get(at) {
        Some(byte) => *byte,
        None => 0,
    }
}

/// Whether the byte goes on with a character that began before it.
#[inline]
pub fn is_inner(byte: u8) -> bool {
    byte >= 128 && byte < 192
}

/// The character whose first byte stands at this place; the replacement character where none does.
pub fn char_at(text: &[u8], at: usize) -> char {
    let first = byte_at(text, at) as u32;
    if first < 128 {
        return char::from_u32(first).unwrap_or('\u{FFFD}');
    }
    let second = inner_at(text, at, 1);
    if first < 224 {
        return char::from_u32((first & 31) * 64 + second).unwrap_or('\u{FFFD}');
    }
    let third = inner_at(text, at, 2);
    if first < 240 {
        let number = (first & 15) * 4096 + second * 64 + third;
        return char::from_u32(number).unwrap_or('\u{FFFD}');
    }
    let fourth = inner_at(text, at, 3);
    let number = (first & 7) * 262144 + second * 4096 + third * 64 + fourth;
    char::from_u32(number).unwrap_or('\u{FFFD}')
}

// The six bits of a character's later byte.
fn inner_at(text: &[u8], at: usize, behind: usize) -> u32
    ensures { result < 64 }
{
    (byte_at(text, at.saturating_add(behind)) & 63) as u32
}

/// The value of a hexadecimal digit.
pub fn hex_value(byte: u8) -> Option<u32>
    ensures { IfSome result (λ value. value < 16) }
{
    match byte {
        b'0'..=b'9' => Some(byte as u32 - 48),
        b'a'..=b'f' => Some(byte as u32 - 87),
        b'A'..=b'F' => Some(byte as u32 - 55),
        _ => None,
    }
}

/// Whether a line ends at the character whose first byte stands at this place (ECMA-262, 12.3).
pub fn is_line_end(text: &[u8], at: usize) -> bool {
    match byte_at(text, at) {
        b'\n' | b'\r' => true,
        226 => is_separator(text, at),
        _ => false,
    }
}

/// Whether U+2028 or U+2029 stands at this place.
pub fn is_separator(text: &[u8], at: usize) -> bool {
    matches!(char_at(text, at), '\u{2028}' | '\u{2029}')
}

//! String literals (ECMA-262, 12.9.4).

ghost use Rattle.std.specs.Prelude.{◌≡◌, ◌<◌, ◌≤◌, [], ◌∷◌, ◌++◌, OnOk, nat_lt, string_bytes, string_len, encode_utf8_all, flat_map, option_map};
ghost use Rattle.std.specs.List.{list_all};
ghost use Rattle.std.specs.Char.{digit_char};
ghost use Rattle.std.specs.Char.Escape.{encode_utf16};
ghost use Rattle.bundle_js_print.specs.Literal.{PutsLiteral, PutsString, Writes, IsSpelling, byte_escape, unit_escape, digit_pair};

use std::alloc::AllocError;

/// Which letters a string that is put in quotes may have.
#[derive(Clone, Copy, PartialEq, Eq, Debug)]
pub enum Charset {
    /// Those of ASCII; the others are escaped.
    Ascii,
    /// All but those that end a line.
    Utf8,
}

/// Puts a string literal behind a text: its source text, if it has one that is a literal of these letters, and
/// else its value in quotes.
pub fn push_string(
    text: &mut String,
    value: &str,
    raw: Option<&str>,
    charset: Charset,
) -> Result<(), AllocError>
    ensures grows { string_len text.old ≤ string_len text.new }
    ensures reads { OnOk result (PutsString charset (string_bytes text.old)
        (string_bytes text.new) value.now (option_map (λ it. it.now) raw.entry)) }
{
    match raw {
        Some(raw) if is_literal(raw) && (charset == Charset::Utf8 || is_ascii(raw)) => {
            text.push_str(raw)
        }
        _ => push_quoted(text, value, charset),
    }
}

fn is_ascii(text: &str) -> bool
    ensures { result ≡ list_all (λ it. nat_lt it 128) text.now }
{
    text.as_bytes().iter().all(|byte| *byte < 128)
}

// What may come next in a literal.
#[derive(Clone, Copy)]
enum Expected {
    Any,
    /// What is escaped.
    Escaped,
    /// No digit, behind `\0`.
    NoDigit,
    /// The rest of a line's end, behind `\` and a carriage return.
    LineEnd,
    /// Four hexadecimal digits, or some in braces.
    Unicode,
    /// So many hexadecimal digits.
    Digits(u8),
    /// The first digit in braces.
    FirstInBraces,
    /// More of them, behind those of this number, or the closing brace.
    InBraces(u32),
    /// Nothing, since the text is no literal.
    Nothing,
}

// Whether a text is a string literal, also in strict code.
fn is_literal(raw: &str) -> bool {
    let bytes = raw.as_bytes();
    let (Some(quote), Some(end)) = (bytes.first(), bytes.last()) else {
        return false;
    };
    if bytes.len() < 2 || *quote != *end || (*quote != b'"' && *quote != b'\'') {
        return false;
    }
    let mut expected = Expected::Any;
    for (place, byte) in bytes.iter().enumerate() {
        if place != 0 && place != bytes.len() - 1 {
            expected = after(expected, *byte, *quote);
        }
    }
    matches!(
        expected,
        Expected::Any | Expected::NoDigit | Expected::LineEnd
    )
}

// What may come behind a byte of a literal.
fn after(expected: Expected, byte: u8, quote: u8) -> Expected {
    match expected {
        Expected::Any => after_plain(byte, quote),
        Expected::NoDigit => if byte.is_ascii_digit() {
            Expected::Nothing
        } else {
            after_plain(byte, quote)
        },
        Expected::LineEnd => if byte == b'\n' {
            Expected::Any
        } else {
            after_plain(byte, quote)
        },
        Expected::Escaped => after_backslash(byte),
        Expected::Unicode => if byte == b'{' {
            Expected::FirstInBraces
        } else {
            after_digit(byte, 3)
        },
        Expected::Digits(left) => after_digit(byte, left.saturating_sub(1)),
        Expected::FirstInBraces => after_brace(byte, 0),
        Expected::InBraces(number) => if byte == b'}' {
            Expected::Any
        } else {
            after_brace(byte, number)
        },
        Expected::Nothing => Expected::Nothing,
    }
}

fn after_plain(byte: u8, quote: u8) -> Expected {
    if byte == b'\\' {
        Expected::Escaped
    } else if byte == quote || byte == b'\n' || byte == b'\r' {
        Expected::Nothing
    } else {
        Expected::Any
    }
}

fn after_backslash(byte: u8) -> Expected {
    match byte {
        b'x' => Expected::Digits(2),
        b'u' => Expected::Unicode,
        b'0' => Expected::NoDigit,
        b'1'..=b'9' => Expected::Nothing,
        b'\r' => Expected::LineEnd,
        _ => Expected::Any,
    }
}

fn after_digit(byte: u8, left: u8) -> Expected {
    if !byte.is_ascii_hexdigit() {
        Expected::Nothing
    } else if left == 0 {
        Expected::Any
    } else {
        Expected::Digits(left)
    }
}

fn after_brace(byte: u8, number: u32) -> Expected {
    match char::from(byte).to_digit(16) {
        Some(digit) => {
            let number = number.saturating_mul(16).saturating_add(digit);
            if number > 0x10ffff {
                Expected::Nothing
            } else {
                Expected::InBraces(number)
            }
        }
        None => Expected::Nothing,
    }
}

// Puts a value in quotes behind a text.
fn push_quoted(text: &mut String, value: &str, charset: Charset) -> Result<(), AllocError>
    ensures grows { string_len text.old ≤ string_len text.new }
    ensures literal { OnOk result (PutsLiteral charset (string_bytes text.old)
        (string_bytes text.new) value.now) }
{
    text.push('"')?;
    for letter in value.chars() {
        push_letter(text, letter, charset)?;
    }
    text.push('"')
}

// How a letter stands in quotes.
#[derive(Clone, Copy)]
enum LetterSpelling {
    Itself,
    /// By this letter behind a backslash.
    Escaped(char),
    /// By two hexadecimal digits.
    Byte,
    /// By four for each of its units of UTF-16.
    Units,
}

fn spelling_of(letter: char, charset: Charset) -> LetterSpelling
    ensures { IsSpelling charset result letter }
{
    match letter {
        '"' | '\\' => LetterSpelling::Escaped(letter),
        '\n' => LetterSpelling::Escaped('n'),
        '\r' => LetterSpelling::Escaped('r'),
        '\t' => LetterSpelling::Escaped('t'),
        '\u{8}' => LetterSpelling::Escaped('b'),
        '\u{b}' => LetterSpelling::Escaped('v'),
        '\u{c}' => LetterSpelling::Escaped('f'),
        '\u{0}'..='\u{1f}' | '\u{7f}' => LetterSpelling::Byte,
        ' '..='~' => LetterSpelling::Itself,
        '\u{2028}' | '\u{2029}' | '\u{feff}' => LetterSpelling::Units,
        _ => match charset {
            Charset::Ascii => LetterSpelling::Units,
            Charset::Utf8 => LetterSpelling::Itself,
        },
    }
}

fn push_letter(text: &mut String, letter: char, charset: Charset) -> Result<(), AllocError>
    ensures grows { string_len text.old ≤ string_len text.new }
    ensures reads { OnOk result (Writes charset (string_bytes text.old) (string_bytes text.new)
        (encode_utf16 letter)) }
{
    match spelling_of(letter, charset) {
        LetterSpelling::Itself => text.push(letter),
        LetterSpelling::Escaped(by) => push_escaped(text, by),
        LetterSpelling::Byte => push_byte(text, letter as u32),
        LetterSpelling::Units => push_units(text, letter as u32),
    }
}

fn push_escaped(text: &mut String, by: char) -> Result<(), AllocError>
    ensures grows { string_len text.old ≤ string_len text.new }
    ensures bytes { OnOk result (string_bytes text.new
        ≡ string_bytes text.old ++ encode_utf8_all (92 ∷ by ∷ [])) }
{
    text.push('\\')?;
    text.push(by)
}

fn push_byte(text: &mut String, byte: u32) -> Result<(), AllocError>
    ensures grows { string_len text.old ≤ string_len text.new }
    ensures bytes { OnOk result (string_bytes text.new
        ≡ string_bytes text.old ++ encode_utf8_all (byte_escape byte)) }
{
    text.push_str("\\x")?;
    push_pair(text, byte)
}

// Puts a letter behind a text by its one or two units of UTF-16.
fn push_units(text: &mut String, code: u32) -> Result<(), AllocError>
    requires { code < 0x110000 }
    ensures grows { string_len text.old ≤ string_len text.new }
    ensures bytes { OnOk result (string_bytes text.new
        ≡ string_bytes text.old ++ encode_utf8_all (flat_map unit_escape (encode_utf16 code))) }
{
    if code < 0x10000 {
        return push_unit(text, code);
    }
    let rest = code - 0x10000;
    push_unit(text, 0xd800 + rest / 0x400)?;
    push_unit(text, 0xdc00 + rest % 0x400)
}

fn push_unit(text: &mut String, unit: u32) -> Result<(), AllocError>
    ensures grows { string_len text.old ≤ string_len text.new }
    ensures bytes { OnOk result (string_bytes text.new
        ≡ string_bytes text.old ++ encode_utf8_all (unit_escape unit)) }
{
    text.push_str("\\u")?;
    push_pair(text, unit / 256)?;
    push_pair(text, unit)
}

// Puts the lowest byte of a number behind a text, by its two hexadecimal digits.
fn push_pair(text: &mut String, byte: u32) -> Result<(), AllocError>
    ensures grows { string_len text.old ≤ string_len text.new }
    ensures bytes { OnOk result (string_bytes text.new
        ≡ string_bytes text.old ++ encode_utf8_all (digit_pair byte)) }
{
    text.push(digit_of(byte / 16 % 16))?;
    text.push(digit_of(byte % 16))
}

fn digit_of(digit: u32) -> char
    ensures { digit < 16 → result ≡ digit_char digit }
{
    char::from_digit(digit, 16).unwrap_or('0')
}

//! The path of an address, as Node's loader of ECMAScript modules reads a specifier: `?` and `#` end it, and `%20` is
//! a space.

ghost use Rattle.std.specs.Prelude.{◌<◌, ◌≤◌, ◌≢◌, EachIndex, IfOk, IfSome, length, slice_index, string_bytes};

use std::alloc::{AllocError, AllocFailed, Global};
use std::fmt;

/// The path that an address names, and what stands behind it.
#[derive(Drop)]
pub struct Address {
    /// The path with its escapes read.
    pub path: String,
    /// From the first `?` or `#` on; mostly empty.
    pub suffix: String,
}

/// Why an address names no path.
#[derive(Clone, Copy)]
pub enum AddressError {
    /// An escape stands for `/` or `\`.
    Separator,
    /// A `%` that begins no escape, or escapes that are no UTF-8.
    Malformed,
    Nul,
    Memory(AllocError),
}

/// Writes what the address has.
impl fmt::Display for AddressError {
    fn fmt<W: fmt::Write>(&self, f: &mut fmt::Formatter<W>) -> fmt::Result {
        let cause = match self {
            AddressError::Separator => "an escape stands for `/` or `\\`",
            AddressError::Malformed => {
                "a `%` that begins no escape, or escapes that are no UTF-8"
            }
            AddressError::Nul => "a NUL",
            AddressError::Memory(_) => "memory allocation failed",
        };
        write!(f, "{cause}")
    }
}

impl From<AllocError> for AddressError {
    fn from(refused: AllocError) -> AddressError {
        AddressError::Memory(refused)
    }
}

impl<T: Drop> From<AllocFailed<T>> for AddressError {
    fn from(refused: AllocFailed<T>) -> AddressError {
        AddressError::Memory(AllocError::from(refused))
    }
}

/// Reads the path of an address. White space at its ends, tabs and line ends count for nothing, and `\` is `/`.
pub fn decode(alloc: Global, text: &str) -> Result<Address, AddressError>
    ensures { IfOk result (λ a. let path = string_bytes a.path in
        EachIndex path (λ k. slice_index path k ≢ 0)) }
{
    let text = text.trim_matches(|c: char| c <= ' ');
    let at = text
        .find(|c: char| c == '?' || c == '#')
        .unwrap_or(text.len());
    let (raw, suffix) = text.split_at_checked(at).unwrap_or((text, ""));
    let path = read_path(alloc, raw)?;
    match read_suffix(alloc, suffix) {
        Ok(suffix) => Ok(Address { path, suffix }),
        Err(refused) => Err(AddressError::Memory(refused)),
    }
}

/// The path that a text with escapes stands for.
fn read_path(alloc: Global, text: &str) -> Result<String, AddressError>
    ensures { IfOk result (λ path. EachIndex (string_bytes path)
        (λ k. slice_index (string_bytes path) k ≢ 0)) }
{
    let bytes = read_escapes(alloc, text.as_bytes())?;
    let Ok(path) = String::from_utf8(bytes) else {
        return Err(AddressError::Malformed);
    };
    if path.contains('\0') {
        return Err(AddressError::Nul);
    }
    Ok(path)
}

/// What stands behind a path, but for a `?` or `#` with nothing behind it.
fn read_suffix(alloc: Global, suffix: &str) -> Result<String, AllocError> {
    let (query, fragment) = suffix.split_once('#').unwrap_or((suffix, ""));
    let mut text = String::new(alloc);
    if query.len() > 1 {
        text.push_str(query)?;
    }
    if !fragment.is_empty() {
        text.push('#')?;
        text.push_str(fragment)?;
    }
    Ok(text)
}

/// The bytes that a text with escapes stands for.
fn read_escapes(alloc: Global, text: &[u8]) -> Result<Vec<u8>, AddressError> {
    let mut bytes = Vec::new(alloc);
    let mut rest = text;
    while let Some((first, others)) = rest.split_first() {
        let (byte, others) = read_byte(*first, others)?;
        if let Some(byte) = byte {
            bytes.push(byte)?;
        }
        rest = others;
    }
    Ok(bytes)
}

/// The byte that a first one stands for with what stands behind it, and what is left: tabs and line ends stand for none.
fn read_byte(first: u8, rest: &[u8]) -> Result<(Option<u8>, &[u8]), AddressError>
    ensures { IfOk result (λ read. length read.1.now ≤ length rest.now) }
{
    match first {
        b'\t' | b'\n' | b'\r' => Ok((None, rest)),
        b'\\' => Ok((Some(b'/'), rest)),
        b'%' => match read_escape(rest) {
            None => Err(AddressError::Malformed),
            Some((b'/' | b'\\', _)) => Err(AddressError::Separator),
            Some((byte, others)) => Ok((Some(byte), others)),
        },
        byte => Ok((Some(byte), rest)),
    }
}

/// The byte of the two hexadecimal digits in front, and what stands behind them.
pub fn read_escape(text: &[u8]) -> Option<(u8, &[u8])>
    ensures { IfSome result (λ read. length read.1.now < length text.now) }
{
    let (high, rest) = text.split_first()?;
    let (low, rest) = rest.split_first()?;
    let high = hex_digit(*high)?;
    let low = hex_digit(*low)?;
    Some((high * 16 + low, rest))
}

fn hex_digit(byte: u8) -> Option<u8>
    ensures { IfSome result (λ d. d < 16) }
{
    match byte {
        b'0'..=b'9' => Some(byte - b'0'),
        b'a'..=b'f' => Some(byte - b'a' + 10),
        b'A'..=b'F' => Some(byte - b'A' + 10),
        _ => None,
    }
}

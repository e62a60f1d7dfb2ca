//! Texts in quotes, put behind a text.

ghost use Rattle.std.specs.Prelude.{◌≡◌, [], ◌∷◌, ◌++◌, false, string_bytes, IfOk, IsTrue, OnOk};
ghost use Rattle.json.specs.Print.{escape, escape_byte, quoted as in_quotes};

use serde_json::Value;
use std::alloc::{AllocError, Global};

/// Puts a text in quotes behind a text, as JSON has it. Refused only for memory.
pub fn push_quoted(alloc: Global, out: &mut String, text: &str) -> Result<(), AllocError>
    ensures { OnOk result (string_bytes out.new ≡ string_bytes out.old ++ in_quotes text.now) }
{
    if is_plain(text.as_bytes()) {
        out.push('"')?;
        out.push_str(text)?;
        return out.push('"');
    }
    let escaped = quoted(alloc, text)?;
    out.push_str(escaped.as_str())
}

// A text in quotes.
fn quoted(alloc: Global, text: &str) -> Result<String, AllocError>
    ensures { IfOk result (λ it. string_bytes it ≡ in_quotes text.now) }
{
    Value::String(String::from_str(alloc, text)?).to_string(alloc)
}

// Whether no byte of a text has to be escaped in quotes.
fn is_plain(bytes: &[u8]) -> bool
    ensures { IsTrue result → escape bytes.now ≡ bytes.now }
{
    for byte in bytes {
        if has_escape(*byte) {
            return false;
        }
    }
    true
}

// Whether a byte has to be escaped in quotes.
fn has_escape(byte: u8) -> bool
    ensures { result ≡ false → escape_byte byte ≡ byte ∷ [] }
{
    byte < 32 || byte == b'"' || byte == b'\\'
}

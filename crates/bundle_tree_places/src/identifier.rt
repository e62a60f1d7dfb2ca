//! Which texts are identifiers.

ghost use Rattle.std.specs.Prelude.{◌≡◌};
ghost use Rattle.std.specs.List.{list_all};
ghost use Rattle.bundle_rules.specs.Injected as injected;
ghost use Rattle.bundle_rules.specs.Injected.{is_letter_or_digit};

/// Whether a text is an identifier of ASCII letters and digits, reserved words included.
pub fn is_ascii_identifier(text: &str) -> bool
    ensures { result ≡ injected.is_ascii_identifier text.now }
{
    match text.as_bytes().split_first() {
        Some((first, rest)) => is_letter(*first) && are_parts(rest),
        None => false,
    }
}

// Whether each of these bytes is one of a letter, `_`, `$` and a digit.
fn are_parts(bytes: &[u8]) -> bool
    ensures { result ≡ list_all is_letter_or_digit bytes.now }
{
    bytes.iter().all(|byte| is_part(*byte))
}

// Whether a byte is a letter, `_` or `$`.
fn is_letter(byte: u8) -> bool
    ensures { result ≡ injected.is_letter byte }
{
    (b'a' <= byte && byte <= b'z') || (b'A' <= byte && byte <= b'Z') || byte == b'_' || byte == b'$'
}

// Whether a byte is one of these or a digit.
fn is_part(byte: u8) -> bool
    ensures { result ≡ is_letter_or_digit byte }
{
    is_letter(byte) || (b'0' <= byte && byte <= b'9')
}

//! Names as they stand in a source.

ghost use Rattle.std.specs.Prelude.{◌≡◌, ◌≤◌, ◌++◌, drop, length, slice_range};
ghost use Rattle.std.specs.Bool.{OnTrue};
ghost use Rattle.gutsirava_traces.specs.Told.{StandsAt};

use unicode_ident::is_xid_continue;

/// The identifier that stands at a place of a text; none where it has an escape.
pub(crate) fn name_at(text: &str, at: usize) -> &str
    ensures { StandsAt text.now at result.now }
{
    let rest = text.get(at..text.len()).unwrap_or("");
    let mut end: usize = 0;
    for c in rest.chars() {
        if c == '\\' {
            return "";
        }
        if !continues_name(c) {
            break;
        }
        end = end.saturating_add(c.len_utf8());
    }
    rest.get(0..end).unwrap_or("")
}

/// Whether an identifier stands at a place of a text, as it is.
pub(crate) fn has_name(text: &str, at: usize, name: &str) -> bool
    ensures { OnTrue result (StandsAt text.now at name.now) }
{
    let end = at.saturating_add(name.len());
    match text.get(at..end) {
        Some(here) => here == name && !continues_at(text, end),
        None => false,
    }
}

// Whether an identifier may go on at a place of a text.
fn continues_at(text: &str, at: usize) -> bool {
    match text.as_bytes().get(at) {
        Some(byte) if byte.is_ascii() => continues_name(*byte as char),
        Some(_) => !name_at(text, at).is_empty(),
        None => false,
    }
}

fn continues_name(c: char) -> bool {
    if c.is_ascii() {
        c.is_ascii_alphanumeric() || c == '$' || c == '_'
    } else {
        c == '\u{200c}' || c == '\u{200d}' || is_xid_continue(c)
    }
}

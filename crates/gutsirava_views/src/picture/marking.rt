//! Text in XML.

ghost use Rattle.std.specs.Prelude.{◌≡◌, ◌++◌, IfOk, OnOk, chars, flat_map, string_bytes};
ghost use Rattle.gutsirava_views.specs.Xml.{xml_char};

use std::alloc::{AllocError, Global};

/// A text as the content of an element of XML 1.0, or between the quotes of an attribute.
pub(crate) fn xml_text(alloc: Global, text: &str) -> Result<String, AllocError>
    ensures { IfOk result (λ marked. string_bytes marked ≡ flat_map xml_char (chars text.now)) }
{
    let mut marked = String::new(alloc);
    for c in text.chars() {
        push_char(&mut marked, c)?;
    }
    Ok(marked)
}

// Appends a character: one that marks, by its entity; one that XML has not, as U+FFFD.
fn push_char(text: &mut String, c: char) -> Result<(), AllocError>
    ensures { OnOk result (string_bytes text.new ≡ string_bytes text.old ++ xml_char c) }
{
    match c {
        '&' => text.push_str("&amp;"),
        '<' => text.push_str("&lt;"),
        '>' => text.push_str("&gt;"),
        '"' => text.push_str("&quot;"),
        '\0'..='\u{1f}' | '\u{fffe}' | '\u{ffff}' => text.push('\u{fffd}'),
        _ => text.push(c),
    }
}

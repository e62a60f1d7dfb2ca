//! A first look over a pattern.

use bundle_js_scan::byte::byte_at;

/// What a pattern holds: how many capturing groups, and whether one of them has a name.
#[derive(Clone, Copy)]
pub struct Survey {
    pub groups: usize,
    pub named: bool,
}

/// Counts the groups of a pattern (ECMA-262, 22.2.1.1, and B.1.2.1 for the names).
pub fn survey_of(text: &[u8]) -> Survey {
    let mut groups: usize = 0;
    let mut named = false;
    let mut escaped = false;
    let mut class = false;
    for at in 0..text.len() {
        let byte = text[at];
        if escaped {
            escaped = false;
        } else if byte == b'\\' {
            escaped = true;
        } else if class {
            class = byte != b']';
        } else if byte == b'[' {
            class = true;
        } else if byte == b'(' {
            let name = begins_name(text, at);
            named = named || name;
            if name || byte_at(text, at + 1) != b'?' {
                groups = groups.saturating_add(1);
            }
        }
    }
    Survey { groups, named }
}

// Whether the parenthesis at this place begins a group with a name.
fn begins_name(text: &[u8], at: usize) -> bool {
    byte_at(text, at.saturating_add(1)) == b'?'
        && byte_at(text, at.saturating_add(2)) == b'<'
        && !matches!(byte_at(text, at.saturating_add(3)), b'=' | b'!')
}

//! Whether a text that was read as an ECMAScript module may be a CommonJS module too.

ghost use Rattle.std.specs.Prelude.{◌≡◌, min, length, take, drop};
ghost use Rattle.std.specs.List.{list_any};
ghost use Rattle.bundle_js_read.specs.Doubts as doubts;

use bundle_js_record::kind::Kind;
use bundle_js_record::record::Rec;

/// Whether a record is that of a declaration that only an ECMAScript module may have.
pub(crate) fn has_declaration(records: &[Rec]) -> bool
    ensures { result ≡ list_any (λ rec. doubts.is_declaration rec.kind) records.now }
{
    records.iter().any(|rec| is_declaration(rec.kind))
}

/// Whether a record is that of a token that is another in a CommonJS module.
pub(crate) fn has_doubt(text: &str, records: &[Rec]) -> bool
    ensures { result ≡ list_any (doubts.is_doubtful text.now) records.now }
{
    records.iter().any(|rec| is_doubtful(text, *rec))
}

#[tactic(auto, unfolding(crate::specs::Doubts::is_declaration))]
fn is_declaration(kind: Kind) -> bool
    ensures { result ≡ doubts.is_declaration kind }
{
    matches!(
        kind,
        Kind::ImportDecl
            | Kind::ExportDecl
            | Kind::NamedExport
            | Kind::ExportDefaultDecl
            | Kind::ExportDefaultExpr
            | Kind::ExportAll
    )
}

#[tactic(auto, unfolding(crate::specs::Doubts::is_doubtful_kind))]
fn is_doubtful(text: &str, rec: Rec) -> bool
    ensures { result ≡ doubts.is_doubtful text.now rec }
{
    match rec.kind {
        Kind::UpdateExpr => ends_comment_begin(text.as_bytes(), rec.from),
        Kind::AwaitExpr => may_divide(text.as_bytes(), rec.from),
        _ => false,
    }
}

// Whether what begins at a byte is the end of `<!--`.
fn ends_comment_begin(text: &[u8], from: u32) -> bool
    ensures { result ≡ doubts.ends_comment_begin text.now from }
{
    before(text, from as usize).ends_with(b"<!")
}

// Whether behind the `await` at a byte a slash may stand, white space and comments aside.
fn may_divide(text: &[u8], from: u32) -> bool
    ensures { result ≡ doubts.may_divide text.now from }
{
    let byte = first_visible(behind(text, from as usize + 5));
    byte == b'/' || byte >= 128
}

// The first byte that is no white space; a slash where there is none.
fn first_visible(text: &[u8]) -> u8
    ensures { result ≡ doubts.first_visible text.now }
{
    for byte in text {
        if *byte > b' ' {
            return *byte;
        }
    }
    b'/'
}

// What of a text stands before a byte.
fn before(text: &[u8], at: usize) -> &[u8]
    ensures { result.now ≡ take (min at (length text.now)) text.now }
{
    &text[..at.min(text.len())]
}

// What of a text stands from a byte on.
fn behind(text: &[u8], at: usize) -> &[u8]
    ensures { result.now ≡ drop (min at (length text.now)) text.now }
{
    &text[at.min(text.len())..]
}

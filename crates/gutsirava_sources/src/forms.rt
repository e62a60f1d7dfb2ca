//! What is put down in the place of a request.

ghost use Rattle.std.specs.Prelude.{◌≡◌, OnOk, option_map, slice_get};
ghost use Rattle.gutsirava_sources.specs.Places as places;
ghost use Rattle.gutsirava_sources.specs.Rewritten as re;
ghost use Rattle.gutsirava_sources.specs.Written.{added_all, call_items, comment_items, loader_items, written_of};

use crate::made::{FormNode, FormPart, MadeList};
use crate::outline::{RequestForm, SourceRequest};
use crate::pieces::{PROTOTYPE, end_of, text_at};
use crate::rewriter::Substitute;
use crate::stand::Stand;
use bundle_syntax::{ExportMetadata, Piece, Role};
use std::alloc::AllocError;

/// The word for `import.meta` where it stays: an identifier that no program has, and that is written as what it means.
const META: &str = "import.meta";

/// The place behind a request: a declaration ends right behind its specifier; a call, behind the end of its argument.
pub(crate) fn end_of_request(request: &SourceRequest<'_>) -> usize
    ensures { result ≡ re.request_end request.now }
{
    match request.asking {
        RequestForm::Import => request.behind.saturating_add(1),
        RequestForm::Require => request.behind.saturating_add(2),
        RequestForm::Dynamic => request.behind.saturating_add(2),
    }
}

/// Puts down what stands in the place of a node in this field.
pub(crate) fn write_replacement<'a>(
    made: &mut MadeList<'a>,
    replacement: Substitute<'a>,
    field: u8,
) -> Result<(), AllocError>
    ensures { OnOk result (written_of made.new
        ≡ added_all (written_of made.old) (re.replacement_items replacement.entry field)) }
{
    match replacement {
        Substitute::Url(url) => made.add_all(&[FormPart::Text(field, url), FormPart::End]),
        Substitute::Meta => made.add_all(&[FormPart::Name(field, META, Role::Reference)]),
        Substitute::Main => made.add_all(&[FormPart::Name(field, "module", Role::Reference)]),
        Substitute::Prototype => made.add_all(&[
            FormPart::Begin(0, FormNode::ComputedKey),
            FormPart::Text(0, PROTOTYPE),
            FormPart::End,
            FormPart::End,
        ]),
    }
}

/// The place behind the node at a place in whose place this stands.
pub(crate) fn end_of_replacement(
    pieces: &[Piece<'_>],
    replacement: Substitute<'_>,
    at: usize,
) -> usize
    ensures { result ≡ re.replacement_end replacement.entry pieces.now at }
{
    match replacement {
        Substitute::Url(_) => at.saturating_add(6),
        Substitute::Meta => at.saturating_add(2),
        Substitute::Main => end_of(pieces, at),
        Substitute::Prototype => at.saturating_add(2),
    }
}

/// Puts down the piece at a place as it is.
pub(crate) fn write_piece<'a>(
    made: &mut MadeList<'a>,
    pieces: &[Piece<'a>],
    at: usize,
) -> Result<(), AllocError>
    ensures { OnOk result (written_of made.new
        ≡ added_all (written_of made.old) (re.piece_items (slice_get pieces.now at))) }
{
    match pieces.get(at) {
        Some(piece) => made.add(*piece),
        None => Ok(()),
    }
}

/// Puts down the statement that stands for a comment.
pub(crate) fn write_comment<'a>(made: &mut MadeList<'a>, text: &'a str) -> Result<(), AllocError>
    ensures { OnOk result (written_of made.new
        ≡ added_all (written_of made.old) (comment_items text.now)) }
{
    made.add_all(&[
        FormPart::Begin(0, FormNode::Statement),
        FormPart::Comment(text),
        FormPart::End,
        FormPart::End,
    ])
}

/// Puts down `name()`, in the place of `import()`.
pub(crate) fn write_call<'a>(
    made: &mut MadeList<'a>,
    field: u8,
    name: &'a str,
) -> Result<(), AllocError>
    ensures { OnOk result (written_of made.new
        ≡ added_all (written_of made.old) (call_items field name.now)) }
{
    made.add_all(&[
        FormPart::Begin(field, FormNode::Call),
        FormPart::Name(0, name, Role::Reference),
        FormPart::End,
    ])
}

/// Puts down `require('key')()`, in the place of `import()`.
pub(crate) fn write_loader<'a>(
    made: &mut MadeList<'a>,
    field: u8,
    key: &'a str,
) -> Result<(), AllocError>
    ensures { OnOk result (written_of made.new
        ≡ added_all (written_of made.old) (loader_items field key.now)) }
{
    made.add_all(&[
        FormPart::Begin(field, FormNode::Call),
        FormPart::Begin(0, FormNode::Call),
        FormPart::Name(0, "require", Role::Reference),
        FormPart::Begin(1, FormNode::Argument),
        FormPart::Text(1, key),
        FormPart::End,
        FormPart::End,
        FormPart::End,
        FormPart::End,
    ])
}

/// Puts down `import { load as name } from 'key'` where that stands for a request.
pub(crate) fn write_load<'a>(
    made: &mut MadeList<'a>,
    meta: &'a ExportMetadata,
    stand: Stand<'a>,
) -> Result<(), AllocError>
    ensures { OnOk result (written_of made.new
        ≡ re.loaded meta.now (written_of made.old) stand.entry) }
{
    let Stand::Load(key, name) = stand else {
        return Ok(());
    };
    made.add_all(&[
        FormPart::Begin(0, FormNode::Import(meta)),
        FormPart::Begin(0, FormNode::ImportSpecifier),
        FormPart::Name(0, name, Role::Binding),
        FormPart::Name(1, "load", Role::Word),
        FormPart::End,
        FormPart::Text(1, key),
        FormPart::End,
        FormPart::End,
    ])
}

/// Puts down `import 'key'`.
pub(crate) fn write_run<'a>(
    made: &mut MadeList<'a>,
    meta: &'a ExportMetadata,
    key: &'a str,
) -> Result<(), AllocError>
    ensures { OnOk result (written_of made.new
        ≡ added_all (written_of made.old) (re.run_items meta.now key.now)) }
{
    made.add_all(&[
        FormPart::Begin(0, FormNode::Import(meta)),
        FormPart::Text(1, key),
        FormPart::End,
        FormPart::End,
    ])
}

/// Puts down the specifier of a namespace whose local name stands at a place, as that of the name `namespace`.
#[tactic(auto, unfolding(crate::specs::Rewritten::namespace_items))]
pub(crate) fn write_namespace<'a>(
    made: &mut MadeList<'a>,
    pieces: &[Piece<'a>],
    at: usize,
) -> Result<(), AllocError>
    ensures { OnOk result (written_of made.new
        ≡ added_all (written_of made.old) (re.namespace_items (slice_get pieces.now at)
        (places.text_in (places.node_at pieces.now at)))) }
{
    match pieces.get(at) {
        Some(Piece::Ident { sym, role, .. }) => write_local(made, *sym, *role),
        _ => write_quoted(made, text_at(pieces, at)),
    }
}

// The same where the local name is a string, or lacks.
fn write_quoted<'a>(made: &mut MadeList<'a>, name: Option<&'a str>) -> Result<(), AllocError>
    ensures { OnOk result (written_of made.new
        ≡ added_all (written_of made.old)
        (re.quoted_items (option_map (λ text. text.now) name.entry))) }
{
    match name {
        Some(name) => write_named(made, name),
        None => write_nameless(made),
    }
}

// Puts down `namespace as 'name'` of an export.
fn write_named<'a>(made: &mut MadeList<'a>, name: &'a str) -> Result<(), AllocError>
    ensures { OnOk result (written_of made.new
        ≡ added_all (written_of made.old) (re.quoted_items (Some name.now))) }
{
    made.add_all(&[
        FormPart::Begin(0, FormNode::ExportSpecifier),
        FormPart::Name(0, "namespace", Role::Word),
        FormPart::Text(1, name),
        FormPart::End,
        FormPart::End,
    ])
}

// Puts down `namespace` of an export.
fn write_nameless(made: &mut MadeList<'_>) -> Result<(), AllocError>
    ensures { OnOk result (written_of made.new
        ≡ added_all (written_of made.old) (re.quoted_items None)) }
{
    made.add_all(&[
        FormPart::Begin(0, FormNode::ExportSpecifier),
        FormPart::Name(0, "namespace", Role::Word),
        FormPart::End,
    ])
}

// The same where the local name is an identifier: one that the module declares, or under which it exports.
fn write_local<'a>(made: &mut MadeList<'a>, sym: &'a str, role: Role) -> Result<(), AllocError>
    ensures { OnOk result (written_of made.new
        ≡ added_all (written_of made.old) (re.local_items sym.now role)) }
{
    match role {
        Role::Binding => write_imported(made, sym),
        Role::Reference => write_exported(made, sym),
        Role::Word => write_exported(made, sym),
    }
}

// Puts down `namespace as sym` of an import.
fn write_imported<'a>(made: &mut MadeList<'a>, sym: &'a str) -> Result<(), AllocError>
    ensures { OnOk result (written_of made.new
        ≡ added_all (written_of made.old) (re.imported_items sym.now)) }
{
    made.add_all(&[
        FormPart::Begin(0, FormNode::ImportSpecifier),
        FormPart::Name(0, sym, Role::Binding),
        FormPart::Name(1, "namespace", Role::Word),
        FormPart::End,
    ])
}

// Puts down `namespace as sym` of an export.
fn write_exported<'a>(made: &mut MadeList<'a>, sym: &'a str) -> Result<(), AllocError>
    ensures { OnOk result (written_of made.new
        ≡ added_all (written_of made.old) (re.exported_items sym.now)) }
{
    made.add_all(&[
        FormPart::Begin(0, FormNode::ExportSpecifier),
        FormPart::Name(0, "namespace", Role::Word),
        FormPart::Name(1, sym, Role::Word),
        FormPart::End,
    ])
}

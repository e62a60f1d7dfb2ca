//! Reading a document.

ghost use Rattle.std.specs.Prelude.{◌≡◌, ℕ, List, IsUtf8, IfOk, IfErr, OnOk};
ghost use Rattle.std.specs.Io.KnownBytes.{Consumes, IsAtEnd};
ghost use Rattle.bundle_json_form.specs.Plain.{seen};
ghost use Rattle.bundle_json_document.specs.Document.{HasNoDocument, IsDocumentText, IsNoDocumentText, IsRefusalLine, IsValueOf};
ghost use Rattle.bundle_json_document.specs.Error.{NoneIs, RefusesFor};
ghost use Rattle.bundle_json_document.specs.Parties.{hook_lists};
ghost use Rattle.bundle_json_document.specs.Writing.{AppendsOrFails};

use crate::document::Document;
use crate::error::DocumentError;
use crate::forms::{Lists, entries, files, lists};
use crate::input::{Input, InputError};
use crate::output::{Output, refuse};
use crate::parties::MetaHook;
use crate::settings::settings;
use crate::stream::{end, read_parts, read_value};
use bundle_json_form::seen::get;
use bundle_tree_ast::ExportMetadata;
use json::{Reader, Scratch, Value};
use simdutf8::compat::from_utf8;
use std::alloc::Global;

/// Reads the whole input, and then the document in it, with the properties of `import.meta` that it
/// lists.
///
/// Refused with the status 2 for an input that cannot be read and for a text that is no document, and
/// with 1 for want of memory, each with its line on `errors`. Of a line that `errors` does not take whole
/// a front is written.
pub fn read_document<R: Input, E: Output>(
    alloc: Global,
    input: &mut R,
    errors: &mut E,
) -> Result<(Document, MetaHook), u8>
    ensures document { IfOk result (λ made.
        (text : List ℕ)
        × Consumes (R.remaining input.old) (R.remaining input.new) text
        × IsDocumentText text made.0 (hook_lists made.1)) }
    ensures whole { OnOk result (IsAtEnd (R.remaining input.new)) }
    ensures no_error { OnOk result (errors.new ≡ errors.old) }
    ensures refused { IfErr result (λ status.
        (line : List ℕ)
        × IsRefusalLine (R.may_fail_read input.old)
        (HasNoDocument (R.remaining input.old) (R.remaining input.new)) status line
        × AppendsOrFails (E.may_fail_write errors.old) (E.contents errors.old)
        (E.contents errors.new) line) }
{
    let text = match input.read_whole(alloc) {
        Ok(text) => text,
        Err(InputError::Failed) => return Err(refuse(errors, b"error: input\n", 2)),
        Err(InputError::OutOfMemory) => {
            return Err(refuse(errors, b"error 22: OutOfMemory\n", 1));
        }
    };
    match parse_document(alloc, text.as_slice()) {
        Ok(made) => Ok(made),
        Err(DocumentError::Form) => Err(refuse(errors, b"error: document\n", 2)),
        Err(DocumentError::OutOfMemory) => Err(refuse(errors, b"error 22: OutOfMemory\n", 1)),
    }
}

/// The document in a text, with the properties of `import.meta` that it lists. Nothing of it borrows from the text.
///
/// Refused where the text is that of no document, and for memory.
pub fn parse_document(alloc: Global, text: &[u8]) -> Result<(Document, MetaHook), DocumentError>
    ensures document { IfOk result (λ made. IsDocumentText text.now made.0 (hook_lists made.1)) }
    ensures refused { IfErr result (RefusesFor (IsNoDocumentText text.now)) }
{
    let Ok(text) = from_utf8(text) else {
        return Err(DocumentError::Form);
    };
    let (document, lists) = document_in(alloc, text)?;
    Ok((document, MetaHook::new(lists)))
}

// The document in a text. What is refused as it is read is judged once more as one value: of equal keys the
// last holds, and one before it may be of any form.
fn document_in(alloc: Global, text: &str) -> Result<(Document, Lists), DocumentError>
    requires { IsUtf8 text.now }
    ensures ok { IfOk result (λ made. IsDocumentText text.now made.0 made.1.entries) }
    ensures refused { IfErr result (RefusesFor (IsNoDocumentText text.now)) }
{
    match streamed(alloc, text) {
        Ok(made) => Ok(made),
        Err(DocumentError::OutOfMemory) => Err(DocumentError::OutOfMemory),
        Err(DocumentError::Form) => whole(alloc, text),
    }
}

// The document in a text, one item of a module at a time.
fn streamed(alloc: Global, text: &str) -> Result<(Document, Lists), DocumentError>
    requires { IsUtf8 text.now }
    ensures { IfOk result (λ made. IsDocumentText text.now made.0 made.1.entries) }
{
    let notes = ExportMetadata::default();
    let mut scratch = Scratch::new(alloc);
    let mut reader = Reader::new(text, &mut scratch)?;
    let parts = read_parts(alloc, &mut reader, &notes)?;
    end(&mut reader)?;
    parts.document(alloc)
}

// The document in a text, as one value.
fn whole(alloc: Global, text: &str) -> Result<(Document, Lists), DocumentError>
    requires { IsUtf8 text.now }
    ensures ok { IfOk result (λ made. IsDocumentText text.now made.0 made.1.entries) }
    ensures refused { IfErr result (RefusesFor (IsNoDocumentText text.now)) }
{
    let notes = ExportMetadata::default();
    let mut scratch = Scratch::new(alloc);
    let value = value_of(alloc, text, &mut scratch)?;
    let config = settings(alloc, get(&value, "config"))?;
    let entries = entries(alloc, get(&value, "entries").ok_or(DocumentError::Form)?)?;
    let files = files(
        alloc,
        get(&value, "files").ok_or(DocumentError::Form)?,
        &notes,
    )?;
    let lists = lists(alloc, get(&value, "meta"), &notes)?;
    let document = Document {
        config,
        files,
        entries,
    };
    Ok((document, lists))
}

// The value of a text. Refused where it is no JSON, for a number in it that is not whole, and for memory.
fn value_of<'a>(
    alloc: Global,
    text: &'a str,
    scratch: &'a mut Scratch,
) -> Result<Value<'a>, DocumentError>
    requires { IsUtf8 text.now }
    ensures ok { IfOk result (λ value. IsValueOf text.now (seen value)) }
    ensures refused { IfErr result (RefusesFor (NoneIs (IsValueOf text.now))) }
{
    let mut reader = Reader::new(text, scratch)?;
    let value = read_value(alloc, &mut reader, 127)?;
    end(&mut reader)?;
    Ok(value)
}

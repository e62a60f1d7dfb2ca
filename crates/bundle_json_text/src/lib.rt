//! The JSON text of a tree: a module read of its text, and written as one (`docs/DOCUMENT.md`, "The form of trees").
#![tactic(auto)]

ghost use Rattle.std.specs.Prelude.{◌≡◌, None, Some, IfErr, IfOk, string_bytes};
ghost use Rattle.json.specs.Json.{document};
ghost use Rattle.json.specs.Value.{value_view};
ghost use Rattle.bundle_json_form.specs.Plain.{seen};
ghost use Rattle.bundle_json_form.specs.Reading.{RefusesReading};
ghost use Rattle.bundle_json_text.specs.Text.{no_text_notes, IsFormOf, IsFormOfNone, IsModuleText, Reads, ReadsNone};

pub use bundle_json_form::FormError;
use bundle_json_form::{push_tree, read_module};
use bundle_tree_ast::{ExportMetadata, Module};
use bundle_tree_list::pieces_of_module;
use bundle_tree_parse::{BuildError, build_module};
use json::{Error, Scratch, Value};
use std::alloc::{AllocError, Global};

/// The module whose form is the value of a text. Refused only where the text is no JSON or of another form, and for
/// memory. What it says under `ctxt` and `meta` is passed over.
pub fn module_from_text(alloc: Global, text: &str) -> Result<Module, FormError>
    ensures read { IfOk result (Reads text.now) }
    ensures refused { IfErr result (RefusesReading (ReadsNone text.now)) }
{
    let notes = ExportMetadata::default();
    let mut scratch = Scratch::new(alloc);
    let value = value_of(alloc, text, &mut scratch)?;
    module_of_value(alloc, &value, &notes)
}

// The value of a text. Refused only where it is no JSON, and for memory.
fn value_of<'a>(
    alloc: Global,
    text: &'a str,
    scratch: &'a mut Scratch,
) -> Result<Value<'a>, FormError>
    ensures read { IfOk result (λ value. document text.now ≡ Some (value_view value)) }
    ensures refused { IfErr result (RefusesReading (document text.now ≡ None)) }
{
    match Value::parse(alloc, text, scratch) {
        Ok(value) => Ok(value),
        Err(Error::OutOfMemory) => Err(FormError::OutOfMemory),
        Err(Error::Invalid) => Err(FormError::Form),
        Err(Error::TooLong) => Err(FormError::Form),
        Err(Error::DuplicateKey) => Err(FormError::Form),
    }
}

// The module that has this form. Refused only where it is that of none, and for memory.
fn module_of_value<'v, 'a>(
    alloc: Global,
    value: &'v Value<'a>,
    notes: &'a ExportMetadata,
) -> Result<Module, FormError>
    requires { notes.now ≡ no_text_notes }
    ensures read { IfOk result (IsFormOf (seen value.now)) }
    ensures refused { IfErr result (RefusesReading (IsFormOfNone (seen value.now))) }
{
    let pieces = read_module(alloc, value, notes)?;
    match build_module(alloc, pieces.as_slice()) {
        Ok(module) => Ok(module),
        Err(BuildError::Form) => Err(FormError::Form),
        Err(BuildError::OutOfMemory) => Err(FormError::OutOfMemory),
    }
}

/// The JSON text of a module, compact, with every field and keys in ascending order. Refused only for memory.
pub fn module_text(alloc: Global, tree: &Module) -> Result<String, AllocError>
    ensures { IfOk result (λ text. IsModuleText tree.now (string_bytes text)) }
{
    let pieces = pieces_of_module(alloc, tree)?;
    let mut text = String::new(alloc);
    push_tree(alloc, &mut text, pieces.as_slice())?;
    Ok(text)
}

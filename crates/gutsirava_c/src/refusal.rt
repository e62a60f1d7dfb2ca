//! Refusals, told with the file and the name that they mean.

ghost use Rattle.std.specs.Prelude.{◌≡◌, ◌++◌, option_map, string_bytes, IfOk, OnOk};
ghost use Rattle.serde_json.specs.Written.{compact_text};
ghost use Rattle.bundle_tree_names.specs.FileName.{name_of as name_in, text_of};
ghost use Rattle.gutsirava_c.specs.Refusal.{file_in, refusal_text as text_in, text_or_null, word_in};

use bundle_json_form::push_quoted;
use bundle_tree_names::error::Error;
use bundle_tree_names::file_name::FileName;
use std::alloc::{AllocError, Global};

/// What is told of a refusal: the line that the program writes, and a line with an object that has its file and the name
/// or the specifier that is meant, `null` where the refusal has none.
pub(crate) fn refusal_text(alloc: Global, refusal: &Error) -> Result<String, AllocError>
    ensures { IfOk result (λ text. string_bytes text ≡ text_in refusal.now) }
{
    let number = refusal.number();
    let kind = refusal.name();
    let mut text = format!(in alloc; "error {number}: {kind}\n")?;
    text.push_str("{\"file\":")?;
    push_text(alloc, &mut text, file_of(refusal))?;
    text.push_str(",\"name\":")?;
    push_text(alloc, &mut text, word_of(refusal))?;
    text.push_str("}\n")?;
    Ok(text)
}

// Puts a text in quotes, or `null`, behind a text.
fn push_text(alloc: Global, out: &mut String, text: Option<&str>) -> Result<(), AllocError>
    ensures { OnOk result (string_bytes out.new ≡ string_bytes out.old
        ++ compact_text (text_or_null (option_map (λ it. it.now) text.entry))) }
{
    match text {
        Some(text) => push_quoted(alloc, out, text),
        None => out.push_str("null"),
    }
}

// The file that a refusal means.
fn file_of(refusal: &Error) -> Option<&str>
    ensures { option_map (λ it. it.now) result ≡ file_in refusal.now }
{
    match refusal {
        Error::Load { file }
        | Error::Resolve { file, .. }
        | Error::Hook { file }
        | Error::TooManyModules { file }
        | Error::ContextsUsedUp { file }
        | Error::DoubledDeclaration { file, .. }
        | Error::DoubledExport { file, .. }
        | Error::UndeclaredExport { file, .. }
        | Error::MissingExport { file, .. }
        | Error::AmbiguousExport { file, .. }
        | Error::ExternalStarOnly { file, .. }
        | Error::StarOfCommonJs { file, .. }
        | Error::NamespaceOverExternalStar { file }
        | Error::With { file }
        | Error::RequiredEsModule { file, .. }
        | Error::RequiredEntry { file, .. }
        | Error::AwaitInCommonJs { file }
        | Error::DoubledEntry { file, .. }
        | Error::ExternalUnderIife { file, .. }
        | Error::ArgumentsUnderIife { file } => Some(path_of(file)),
        Error::OutOfMemory => None,
    }
}

// The name or the specifier that a refusal means.
fn word_of(refusal: &Error) -> Option<&str>
    ensures { option_map (λ it. it.now) result ≡ word_in refusal.now }
{
    match refusal {
        Error::Resolve { specifier, .. }
        | Error::StarOfCommonJs { specifier, .. }
        | Error::RequiredEsModule { specifier, .. }
        | Error::RequiredEntry { specifier, .. }
        | Error::ExternalUnderIife { specifier, .. } => Some(specifier.as_str()),
        Error::DoubledDeclaration { name, .. }
        | Error::DoubledExport { name, .. }
        | Error::UndeclaredExport { name, .. }
        | Error::MissingExport { name, .. }
        | Error::AmbiguousExport { name, .. }
        | Error::ExternalStarOnly { name, .. }
        | Error::DoubledEntry { name, .. } => Some(name.as_str()),
        _ => None,
    }
}

fn path_of(file: &FileName) -> &str
    ensures { result.now ≡ text_of (name_in file.now) }
{
    match file {
        FileName::Real(path) | FileName::Custom(path) => path.as_str(),
    }
}

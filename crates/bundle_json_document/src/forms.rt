//! What stands in the values of a document: entries, modules and lists of properties.

ghost use Rattle.std.specs.Prelude.{◌≡◌, IfErr, IfOk};
ghost use Rattle.serde_json.specs.Data.{object};
ghost use Rattle.bundle_json_form.specs.Plain.{seen};
ghost use Rattle.bundle_json_document.specs.Document.{no_document_notes, AreLists, AreProperties, IsEntryPair, IsArrayOf, IsMap, IsModuleForm};
ghost use Rattle.bundle_json_document.specs.Error.{NoneIs, RefusesFor};
ghost use Rattle.bundle_json_document.specs.Seen.{value_found, last_members};

use crate::error::DocumentError;
use crate::values::{Members, items_in, members_in, text_in};
use bundle_json_form::{read_module, read_properties};
use bundle_tree_ast::{ExportMetadata, KeyValueProp, Module};
use bundle_tree_names::file_name::FileName;
use bundle_tree_parse::{build_module, build_properties};
use json::Value;
use std::alloc::Global;
use std::collections::BTreeMap;

/// The properties of `import.meta`, by the names of files.
pub(crate) type Lists = BTreeMap<String, Vec<KeyValueProp>>;

/// The entries in a list. Refused where it is none, and for memory.
pub(crate) fn entries(
    alloc: Global,
    value: &Value<'_>,
) -> Result<Vec<(String, FileName)>, DocumentError>
    ensures ok { IfOk result (λ entries. IsArrayOf IsEntryPair entries.items (seen value.now)) }
    ensures refused { IfErr result
        (RefusesFor (NoneIs (λ entries. IsArrayOf IsEntryPair entries (seen value.now)))) }
{
    let items = items_in(value)?;
    let mut entries = Vec::new(alloc);
    for item in items {
        let entry = entry(alloc, item)?;
        entries.push(entry)?;
    }
    Ok(entries)
}

// An entry: a pair of its name and its file.
fn entry(alloc: Global, value: &Value<'_>) -> Result<(String, FileName), DocumentError>
    ensures ok { IfOk result (IsEntryPair (seen value.now)) }
    ensures refused { IfErr result (RefusesFor (NoneIs (IsEntryPair (seen value.now)))) }
{
    let [name, file] = items_in(value)? else {
        return Err(DocumentError::Form);
    };
    let name = text_in(alloc, name)?;
    let file = FileName::Real(text_in(alloc, file)?);
    Ok((name, file))
}

/// The modules under their names; `notes` is what is noted on what is handed in. Refused where one is of
/// another form, and for memory.
pub(crate) fn files<'v, 'a>(
    alloc: Global,
    value: &'v Value<'a>,
    notes: &'a ExportMetadata,
) -> Result<BTreeMap<String, Module>, DocumentError>
    requires { notes.now ≡ no_document_notes }
    ensures ok { IfOk result (λ files. IsMap IsModuleForm files.entries (seen value.now)) }
    ensures refused { IfErr result
        (RefusesFor (NoneIs (λ files. IsMap IsModuleForm files (seen value.now)))) }
{
    let members = members_in(alloc, value)?;
    files_in(alloc, &members, notes)
}

// The modules under the names of these members.
fn files_in<'v, 'a>(
    alloc: Global,
    members: &Members<'v, 'a>,
    notes: &'a ExportMetadata,
) -> Result<BTreeMap<String, Module>, DocumentError>
    requires { notes.now ≡ no_document_notes }
    ensures ok { IfOk result (λ files.
        IsMap IsModuleForm files.entries (object (last_members members.now.entries))) }
    ensures refused { IfErr result (RefusesFor (NoneIs (λ files.
        IsMap IsModuleForm files (object (last_members members.now.entries))))) }
{
    let mut files = BTreeMap::new(alloc);
    for (name, value) in members.iter() {
        let made = module_in(alloc, value, notes)?;
        let file = String::from_str(alloc, name)?;
        drop(files.insert(file, made)?);
    }
    Ok(files)
}

// The module that has this form.
fn module_in<'v, 'a>(
    alloc: Global,
    value: &'v Value<'a>,
    notes: &'a ExportMetadata,
) -> Result<Module, DocumentError>
    requires { notes.now ≡ no_document_notes }
    ensures ok { IfOk result (IsModuleForm (seen value.now)) }
    ensures refused { IfErr result (RefusesFor (NoneIs (IsModuleForm (seen value.now)))) }
{
    let pieces = read_module(alloc, value, notes)?;
    let made = build_module(alloc, pieces.as_slice())?;
    Ok(made)
}

/// The lists of properties under the names of their files, none where nothing is said. Refused where one
/// is of another form, and for memory.
pub(crate) fn lists<'v, 'a>(
    alloc: Global,
    value: Option<&'v Value<'a>>,
    notes: &'a ExportMetadata,
) -> Result<Lists, DocumentError>
    requires { notes.now ≡ no_document_notes }
    ensures ok { IfOk result (λ lists. AreLists (value_found value.entry) lists.entries) }
    ensures refused { IfErr result (RefusesFor (NoneIs (AreLists (value_found value.entry)))) }
{
    match value {
        None => Ok(BTreeMap::new(alloc)),
        Some(value) => {
            let members = members_in(alloc, value)?;
            lists_in(alloc, &members, notes)
        }
    }
}

// The lists of properties under the names of these members.
fn lists_in<'v, 'a>(
    alloc: Global,
    members: &Members<'v, 'a>,
    notes: &'a ExportMetadata,
) -> Result<Lists, DocumentError>
    requires { notes.now ≡ no_document_notes }
    ensures ok { IfOk result (λ lists.
        IsMap AreProperties lists.entries (object (last_members members.now.entries))) }
    ensures refused { IfErr result (RefusesFor (NoneIs (λ lists.
        IsMap AreProperties lists (object (last_members members.now.entries))))) }
{
    let mut lists = BTreeMap::new(alloc);
    for (name, value) in members.iter() {
        let made = properties_in(alloc, value, notes)?;
        let file = String::from_str(alloc, name)?;
        drop(lists.insert(file, made)?);
    }
    Ok(lists)
}

// The properties that have the forms in this list.
fn properties_in<'v, 'a>(
    alloc: Global,
    value: &'v Value<'a>,
    notes: &'a ExportMetadata,
) -> Result<Vec<KeyValueProp>, DocumentError>
    requires { notes.now ≡ no_document_notes }
    ensures ok { IfOk result (AreProperties (seen value.now)) }
    ensures refused { IfErr result (RefusesFor (NoneIs (AreProperties (seen value.now)))) }
{
    let pieces = read_properties(alloc, value, notes)?;
    let made = build_properties(alloc, pieces.as_slice())?;
    Ok(made)
}

//! The document off its text, one item of a module at a time.
//!
//! A value is let go before the next is read, so that beside the trees no more than one item of a module
//! stands in memory as a value. Of equal keys the last holds; one that is of another form is refused here,
//! also where a later one takes its place.

ghost use Rattle.std.specs.Prelude.{◌≡◌, ◌≢◌, ◌<◌, [], ◌∷◌, ◌++◌, length, List, map, IfErr, IfOk, OnErr, OnOk, Option, Some, option_map, codes};
ghost use Rattle.std.specs.List.{flat_map};
ghost use Rattle.json.specs.Json.{read_key};
ghost use Rattle.json.specs.Token.{Token as SpecToken};
ghost use Rattle.serde_json.specs.Data.{object, Data, Members};
ghost use Rattle.serde_json.specs.Find.{get_member};
ghost use Rattle.bundle_json_form.specs.Form.{top, IsForm};
ghost use Rattle.bundle_json_form.specs.Plain.{seen};
ghost use Rattle.bundle_syntax.specs.Item.{Close, Open, item_of, Module as module_head};
ghost use Rattle.bundle_tree_listed.specs.Tree.{module_item_items};
ghost use Rattle.bundle_json_document.specs.Document.{no_document_notes, AreLists, AreSettings, IsDocument, IsMap, IsModuleForm};
ghost use Rattle.bundle_json_document.specs.Error.{NoneIs, RefusesFor};
ghost use Rattle.bundle_json_document.specs.Stream.{AreItems, AreListsIn, AreDocumentParts, AreSettingsIn, IsMemberKept, IsNextValue, KeepsMember, KeepsModuleMember};

use crate::document::Document;
use crate::error::DocumentError;
use crate::forms::{Lists, entries, lists};
use crate::settings::settings;
use crate::values::{is_text, is_whole};
use bundle_json_form::read_module;
use bundle_syntax::{Node, Piece};
use bundle_tree_ast::{ExportMetadata, Module};
use bundle_tree_names::file_name::FileName;
use bundle_tree_parse::build_module;
use bundler_call::OrderedConfig;
use json::{Reader, Token, Value};
use std::alloc::Global;
use std::collections::BTreeMap;

/// What was read of a document so far: nothing under a key that did not come yet.
#[derive(Drop)]
pub(crate) struct DocumentParts {
    config: Option<OrderedConfig>,
    entries: Option<Vec<(String, FileName)>>,
    files: Option<BTreeMap<String, Module>>,
    lists: Option<Lists>,
}

impl DocumentParts {
    // Reads the value of the member under `key`, and keeps what it stands for.
    fn read_member<'a>(
        &mut self,
        alloc: Global,
        reader: &mut Reader<'a>,
        key: &str,
        notes: &'a ExportMetadata,
    ) -> Result<(), DocumentError>
        requires { notes.now ≡ no_document_notes }
        ensures ok { OnOk result (KeepsMember reader.old reader.new key.now self.old self.new) }
        ensures shorter { OnOk result (length reader.new < length reader.old) }
    {
        match key {
            "config" => self.read_config(alloc, reader),
            "entries" => self.read_entries(alloc, reader),
            "files" => self.read_files(alloc, reader, notes),
            "meta" => self.read_lists(alloc, reader, notes),
            _ => {
                read_value(alloc, reader, 126)?;
                Ok(())
            }
        }
    }

    fn read_config(&mut self, alloc: Global, reader: &mut Reader<'_>) -> Result<(), DocumentError>
        ensures ok { OnOk result
            (KeepsMember reader.old reader.new (codes "config") self.old self.new) }
        ensures shorter { OnOk result (length reader.new < length reader.old) }
    {
        let value = read_value(alloc, reader, 126)?;
        let config = settings(alloc, Some(&value))?;
        drop(self.config.replace(config));
        Ok(())
    }

    fn read_entries(&mut self, alloc: Global, reader: &mut Reader<'_>) -> Result<(), DocumentError>
        ensures ok { OnOk result
            (KeepsMember reader.old reader.new (codes "entries") self.old self.new) }
        ensures shorter { OnOk result (length reader.new < length reader.old) }
    {
        let value = read_value(alloc, reader, 126)?;
        let entries = entries(alloc, &value)?;
        drop(self.entries.replace(entries));
        Ok(())
    }

    fn read_files<'a>(
        &mut self,
        alloc: Global,
        reader: &mut Reader<'a>,
        notes: &'a ExportMetadata,
    ) -> Result<(), DocumentError>
        requires { notes.now ≡ no_document_notes }
        ensures ok { OnOk result
            (KeepsMember reader.old reader.new (codes "files") self.old self.new) }
        ensures shorter { OnOk result (length reader.new < length reader.old) }
    {
        let files = files(alloc, reader, notes)?;
        drop(self.files.replace(files));
        Ok(())
    }

    fn read_lists<'a>(
        &mut self,
        alloc: Global,
        reader: &mut Reader<'a>,
        notes: &'a ExportMetadata,
    ) -> Result<(), DocumentError>
        requires { notes.now ≡ no_document_notes }
        ensures ok { OnOk result
            (KeepsMember reader.old reader.new (codes "meta") self.old self.new) }
        ensures shorter { OnOk result (length reader.new < length reader.old) }
    {
        let value = read_value(alloc, reader, 126)?;
        let lists = lists(alloc, Some(&value), notes)?;
        drop(self.lists.replace(lists));
        Ok(())
    }

    /// The document that was read, and the lists of properties. Refused where a part is missing, and for
    /// memory.
    pub(crate) fn document(self, alloc: Global) -> Result<(Document, Lists), DocumentError>
        ensures { IfOk result (λ made.
            (ms : Members) →
            AreDocumentParts ms self →
            IsDocument (object ms) made.0
            × AreLists (get_member (codes "meta") ms) made.1.entries) }
    {
        let DocumentParts {
            config,
            entries,
            files,
            lists,
        } = self;
        let config = config_or_default(alloc, config)?;
        let files = given(files)?;
        let entries = given(entries)?;
        let lists = lists_or_none(alloc, lists);
        let document = Document {
            config,
            files,
            entries,
        };
        Ok((document, lists))
    }
}

// The settings that were read, or those to start from.
fn config_or_default(
    alloc: Global,
    config: Option<OrderedConfig>,
) -> Result<OrderedConfig, DocumentError>
    ensures { IfOk result (λ it.
        (d : Option Data) → IsMemberKept AreSettingsIn d config → AreSettings d it) }
{
    match config {
        Some(config) => Ok(config),
        None => settings(alloc, None),
    }
}

// The lists of properties that were read, or none.
fn lists_or_none(alloc: Global, lists: Option<Lists>) -> Lists
    ensures { (d : Option Data) → IsMemberKept AreListsIn d lists → AreLists d result.entries }
{
    match lists {
        Some(lists) => lists,
        None => BTreeMap::new(alloc),
    }
}

// A part that has to be there.
fn given<T: Drop>(part: Option<T>) -> Result<T, DocumentError>
    ensures { IfOk result (λ it. part ≡ Some it) }
{
    match part {
        Some(part) => Ok(part),
        None => Err(DocumentError::Form),
    }
}

/// The parts of a document, whose value comes next; `notes` is what is noted on what is handed in. Refused
/// where it is no document, for a number in it that is not whole, and for memory.
pub(crate) fn read_parts<'a>(
    alloc: Global,
    reader: &mut Reader<'a>,
    notes: &'a ExportMetadata,
) -> Result<DocumentParts, DocumentError>
    requires { notes.now ≡ no_document_notes }
    ensures { IfOk result (λ parts. (ms : Members) × IsNextValue 127 reader.old reader.new (object ms)
        × AreDocumentParts ms parts) }
{
    open_object(reader)?;
    let mut parts = DocumentParts {
        config: None,
        entries: None,
        files: None,
        lists: None,
    };
    'members: while let Some(key) = next_key(reader)? {
        parts.read_member(alloc, reader, key, notes)?;
    }
    Ok(parts)
}

/// The next value. Refused where there is none, for a number in it that is not whole, and for memory.
pub(crate) fn read_value<'a>(
    alloc: Global,
    reader: &mut Reader<'a>,
    depth: usize,
) -> Result<Value<'a>, DocumentError>
    ensures ok { IfOk result (λ value. IsNextValue depth reader.old reader.new (seen value)) }
    ensures refused { IfErr result
        (RefusesFor ((rest : List SpecToken) → NoneIs (IsNextValue depth reader.old rest))) }
    ensures shorter { OnOk result (length reader.new < length reader.old) }
{
    let value = match Value::read(alloc, reader, depth) {
        Ok(value) => value,
        Err(json::Error::OutOfMemory) => return Err(DocumentError::OutOfMemory),
        Err(_) => return Err(DocumentError::Form),
    };
    if is_whole(&value) {
        Ok(value)
    } else {
        Err(DocumentError::Form)
    }
}

// The modules under their names.
fn files<'a>(
    alloc: Global,
    reader: &mut Reader<'a>,
    notes: &'a ExportMetadata,
) -> Result<BTreeMap<String, Module>, DocumentError>
    requires { notes.now ≡ no_document_notes }
    ensures ok { IfOk result (λ files. (d : Data) × IsNextValue 126 reader.old reader.new d
        × IsMap IsModuleForm files.entries d) }
    ensures shorter { OnOk result (length reader.new < length reader.old) }
{
    open_object(reader)?;
    let mut files = BTreeMap::new(alloc);
    'members: while let Some(name) = next_key(reader)? {
        let made = module(alloc, reader, notes)?;
        let file = String::from_str(alloc, name)?;
        drop(files.insert(file, made)?);
    }
    Ok(files)
}

// What was read of a module so far.
#[derive(Drop)]
struct ModuleParts {
    is_module: bool,
    items: Module,
}

impl ModuleParts {
    // Reads the value of the member under `key`, and keeps what it stands for.
    fn read_member<'a>(
        &mut self,
        alloc: Global,
        reader: &mut Reader<'a>,
        key: &str,
        notes: &'a ExportMetadata,
    ) -> Result<(), DocumentError>
        requires { notes.now ≡ no_document_notes }
        ensures ok { OnOk result
            (KeepsModuleMember reader.old reader.new key.now self.old self.new) }
        ensures shorter { OnOk result (length reader.new < length reader.old) }
    {
        match key {
            "type" => self.read_kind(alloc, reader),
            "body" => self.read_body(alloc, reader, notes),
            _ => {
                read_value(alloc, reader, 124)?;
                Ok(())
            }
        }
    }

    fn read_kind(&mut self, alloc: Global, reader: &mut Reader<'_>) -> Result<(), DocumentError>
        ensures ok { OnOk result
            (KeepsModuleMember reader.old reader.new (codes "type") self.old self.new) }
        ensures shorter { OnOk result (length reader.new < length reader.old) }
    {
        let value = read_value(alloc, reader, 124)?;
        let is_module = is_text(&value, "Module");
        self.is_module = is_module;
        Ok(())
    }

    fn read_body<'a>(
        &mut self,
        alloc: Global,
        reader: &mut Reader<'a>,
        notes: &'a ExportMetadata,
    ) -> Result<(), DocumentError>
        requires { notes.now ≡ no_document_notes }
        ensures ok { OnOk result
            (KeepsModuleMember reader.old reader.new (codes "body") self.old self.new) }
        ensures shorter { OnOk result (length reader.new < length reader.old) }
    {
        let items = items(alloc, reader, notes)?;
        self.items = items;
        Ok(())
    }
}

// The module whose form comes next.
fn module<'a>(
    alloc: Global,
    reader: &mut Reader<'a>,
    notes: &'a ExportMetadata,
) -> Result<Module, DocumentError>
    requires { notes.now ≡ no_document_notes }
    ensures ok { IfOk result (λ it. (d : Data) × IsNextValue 125 reader.old reader.new d
        × IsModuleForm d it) }
    ensures shorter { OnOk result (length reader.new < length reader.old) }
{
    open_object(reader)?;
    let body = Vec::new(alloc);
    let mut parts = ModuleParts {
        is_module: false,
        items: Module { body },
    };
    'members: while let Some(key) = next_key(reader)? {
        parts.read_member(alloc, reader, key, notes)?;
    }
    let ModuleParts { is_module, items } = parts;
    if is_module {
        Ok(items)
    } else {
        Err(DocumentError::Form)
    }
}

// The items of a module, whose forms come next in a list.
fn items<'a>(
    alloc: Global,
    reader: &mut Reader<'a>,
    notes: &'a ExportMetadata,
) -> Result<Module, DocumentError>
    requires { notes.now ≡ no_document_notes }
    ensures ok { IfOk result (λ items. (d : Data) × IsNextValue 124 reader.old reader.new d
        × AreItems d items.body.items) }
    ensures shorter { OnOk result (length reader.new < length reader.old) }
{
    open_array(reader)?;
    let body = Vec::new(alloc);
    let mut items = Module { body };
    'turns: while !reader.take_end_array() {
        let mut more = item(alloc, reader, notes)?;
        items.body.append(&mut more.body)?;
    }
    Ok(items)
}

// The item of a module whose form comes next, alone in a module: a module is let go of by one call.
fn item<'a>(
    alloc: Global,
    reader: &mut Reader<'a>,
    notes: &'a ExportMetadata,
) -> Result<Module, DocumentError>
    requires { notes.now ≡ no_document_notes }
    ensures ok { IfOk result (λ items. (d : Data) × IsNextValue 123 reader.old reader.new d
        × IsForm no_document_notes top d (flat_map (module_item_items 0) items.body.items)) }
    ensures shorter { OnOk result (length reader.new < length reader.old) }
{
    let value = read_value(alloc, reader, 123)?;
    let pieces = read_module(alloc, &value, notes)?;
    drop(value);
    let list = alone(pieces)?;
    let made = build_module(alloc, list.as_slice())?;
    Ok(made)
}

// The list of a module that has nothing but what this list is of.
fn alone<'a>(mut pieces: Vec<Piece<'a>>) -> Result<Vec<Piece<'a>>, DocumentError>
    ensures { IfOk result (λ list. map item_of list.items
        ≡ Open 0 module_head ∷ (map item_of pieces.entry.items ++ Close ∷ [])) }
{
    let field = 0;
    let node = Node::Module;
    pieces.insert(0, Piece::Open { field, node })?;
    pieces.push(Piece::Close)?;
    Ok(pieces)
}

// The next key of an object, or none where it ends.
fn next_key<'a>(reader: &mut Reader<'a>) -> Result<Option<&'a str>, DocumentError>
    ensures key { IfOk result (λ key.
        read_key reader.old ≡ Some (option_map (λ text. text.now) key, reader.new)) }
    ensures shorter { OnOk result (length reader.new < length reader.old) }
{
    match reader.next_key() {
        Ok(key) => Ok(key),
        Err(_) => Err(DocumentError::Form),
    }
}

// Passes the brace at which an object begins.
fn open_object(reader: &mut Reader<'_>) -> Result<(), DocumentError>
    ensures { OnOk result (reader.old ≡ SpecToken.begin_object ∷ reader.new) }
{
    match reader.next() {
        Some(Token::BeginObject) => Ok(()),
        _ => Err(DocumentError::Form),
    }
}

// Passes the bracket at which an array begins.
fn open_array(reader: &mut Reader<'_>) -> Result<(), DocumentError>
    ensures { OnOk result (reader.old ≡ SpecToken.begin_array ∷ reader.new) }
{
    match reader.next() {
        Some(Token::BeginArray) => Ok(()),
        _ => Err(DocumentError::Form),
    }
}

/// Nothing more comes. Refused where something does.
pub(crate) fn end(reader: &mut Reader<'_>) -> Result<(), DocumentError>
    ensures ok { OnOk result (reader.old ≡ []) }
    ensures refused { OnErr result (reader.old ≢ []) }
{
    match reader.next() {
        None => Ok(()),
        Some(_) => Err(DocumentError::Form),
    }
}

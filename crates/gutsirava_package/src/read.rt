//! The reader of package.json. What it does not know, or what has another type than it wants, is passed over.

ghost use Rattle.std.specs.Prelude.{◌≡◌, IfOk, Some, codes, is_some, option_map, string_bytes};
ghost use Rattle.json.specs.Find.{get};
ghost use Rattle.json.specs.Value.{value_view};
ghost use Rattle.gutsirava_package.specs.Fields as fields;
ghost use Rattle.gutsirava_package.specs.Read.{IsBrowser};

use crate::browser::BrowserMap;
use crate::entries::{EntryTable, LoaderConditions};
use crate::package::{Browser, Package, PackageError, PackageType};
use crate::target::PackageTarget;
use json::{Error, Scratch, Value};
use std::alloc::{AllocError, Global};
use std::collections::BTreeMap;

/// The byte order mark.
const MARK: &str = "\u{feff}";

impl Package {
    ghost use Rattle.std.specs.Prelude.{◌≡◌, None, Some, Err, IfOk};
    ghost use Rattle.json.specs.Json.{Json, document};
    ghost use Rattle.json.specs.Value.{value_view};
    ghost use Rattle.gutsirava_package.specs.Fields as fields;
    ghost use Rattle.gutsirava_package.specs.Read.{IsPackage};

    /// Reads a package.json, of whose `exports` and `imports` it is known which conditions hold. Of a key that comes
    /// twice the last value counts; a value other than an object says nothing.
    pub fn parse(
        alloc: Global,
        text: &str,
        conditions: LoaderConditions<'_>,
    ) -> Result<Package, PackageError>
        ensures refused { result ≡ Err PackageError.Json
            → document (fields.unmarked text.now) ≡ None }
        ensures read { IfOk result (λ it. (json : Json)
            × (document (fields.unmarked text.now) ≡ Some json) × IsPackage it json) }
    {
        let text = unmarked(text);
        let mut scratch = Scratch::new(alloc);
        match Value::parse(alloc, text, &mut scratch) {
            Ok(value) => match Package::read(alloc, &value, conditions) {
                Ok(package) => Ok(package),
                Err(refused) => Err(PackageError::Memory(refused)),
            },
            Err(Error::Invalid) => Err(PackageError::Json),
            Err(_) => Err(PackageError::Memory(AllocError)),
        }
    }

    /// What a value says of a package.
    fn read(
        alloc: Global,
        value: &Value<'_>,
        conditions: LoaderConditions<'_>,
    ) -> Result<Package, AllocError>
        ensures { IfOk result (λ it. IsPackage it (value_view value.now)) }
    {
        let texts = TextFields::read(alloc, value)?;
        let maps = Maps::read(alloc, value, conditions)?;
        let browser = browser_of(alloc, value)?;
        Ok(Package {
            name: texts.name,
            module_type: type_of(value),
            main: texts.main,
            module: texts.of_bundlers,
            browser,
            exports: maps.exports,
            imports: maps.imports,
        })
    }
}

/// What stands behind a byte order mark, or all.
fn unmarked(text: &str) -> &str
    ensures { result.now ≡ fields.unmarked text.now }
{
    match text.strip_prefix(MARK) {
        Some(inner) => inner,
        None => text,
    }
}

/// The fields that are texts.
#[derive(Drop)]
struct TextFields {
    name: Option<String>,
    main: Option<String>,
    /// The field `module`.
    of_bundlers: Option<String>,
}

impl TextFields {
    ghost use Rattle.std.specs.Prelude.{◌≡◌, IfOk, codes, option_map, string_bytes};
    ghost use Rattle.json.specs.Value.{value_view};
    ghost use Rattle.gutsirava_package.specs.Fields as fields;

    fn read(alloc: Global, value: &Value<'_>) -> Result<TextFields, AllocError>
        ensures name { IfOk result (λ it. option_map string_bytes it.name
            ≡ fields.text_at (codes "name") (value_view value.now)) }
        ensures main { IfOk result (λ it. option_map string_bytes it.main
            ≡ fields.text_at (codes "main") (value_view value.now)) }
        ensures of_bundlers { IfOk result (λ it. option_map string_bytes it.of_bundlers
            ≡ fields.text_at (codes "module") (value_view value.now)) }
    {
        let name = text_of(alloc, value, "name")?;
        let main = text_of(alloc, value, "main")?;
        let of_bundlers = text_of(alloc, value, "module")?;
        Ok(TextFields {
            name,
            main,
            of_bundlers,
        })
    }
}

/// The fields that are maps to targets.
#[derive(Drop)]
struct Maps {
    exports: Option<EntryTable>,
    imports: Option<EntryTable>,
}

impl Maps {
    ghost use Rattle.std.specs.Prelude.{◌≡◌, IfOk, codes, is_some};
    ghost use Rattle.json.specs.Value.{value_view};
    ghost use Rattle.gutsirava_package.specs.Fields as fields;

    fn read(
        alloc: Global,
        value: &Value<'_>,
        conditions: LoaderConditions<'_>,
    ) -> Result<Maps, AllocError>
        ensures exports { IfOk result (λ it. is_some it.exports
            ≡ fields.says (codes "exports") (value_view value.now)) }
        ensures imports { IfOk result (λ it. is_some it.imports
            ≡ fields.says (codes "imports") (value_view value.now)) }
    {
        let exports = match map_of(alloc, value, "exports")? {
            Some(target) => Some(EntryTable::of_exports(alloc, &target, conditions)?),
            None => None,
        };
        let imports = match map_of(alloc, value, "imports")? {
            Some(target) => Some(EntryTable::of_imports(alloc, &target, conditions)?),
            None => None,
        };
        Ok(Maps { exports, imports })
    }
}

/// The text of a field that is one.
fn text_of(alloc: Global, value: &Value<'_>, key: &str) -> Result<Option<String>, AllocError>
    ensures { IfOk result (λ text. option_map string_bytes text
        ≡ fields.text_at key.now (value_view value.now)) }
{
    match text_at(value, key) {
        Some(text) => Ok(Some(String::from_str(alloc, text)?)),
        None => Ok(None),
    }
}

fn text_at<'a>(value: &Value<'a>, key: &str) -> Option<&'a str>
    ensures { option_map (λ text. text.now) result
        ≡ fields.text_at key.now (value_view value.now) }
{
    match value.get(key) {
        Some(field) => field.as_str(),
        None => None,
    }
}

fn type_of(value: &Value<'_>) -> PackageType
    ensures { result ≡ fields.type_in (fields.text_at (codes "type") (value_view value.now)) }
{
    match text_at(value, "type") {
        Some(text) => type_named(text),
        None => PackageType::Undeclared,
    }
}

fn type_named(text: &str) -> PackageType
    ensures { result ≡ fields.type_named text.now }
{
    if text == "module" {
        PackageType::EcmaScript
    } else if text == "commonjs" {
        PackageType::CommonJs
    } else {
        PackageType::Undeclared
    }
}

/// The field `browser` of a value.
fn browser_of(alloc: Global, value: &Value<'_>) -> Result<Browser, AllocError>
    ensures { IfOk result (λ it. IsBrowser it (get (codes "browser") (value_view value.now))) }
{
    match value.get("browser") {
        Some(field) => browser_in(alloc, field),
        None => Ok(Browser::Absent),
    }
}

fn browser_in(alloc: Global, field: &Value<'_>) -> Result<Browser, AllocError>
    ensures { IfOk result (λ it. IsBrowser it (Some (value_view field.now))) }
{
    match field {
        Value::String(text) => Ok(Browser::Main(String::from_str(alloc, text)?)),
        Value::Object(members) => Ok(Browser::Map(BrowserMap::of(alloc, members)?)),
        Value::Null | Value::Bool(_) | Value::Number(_) | Value::Array(_) => Ok(Browser::Absent),
    }
}

/// What `exports` or `imports` says; `null` says nothing.
fn map_of(alloc: Global, value: &Value<'_>, key: &str) -> Result<Option<PackageTarget>, AllocError>
    ensures { IfOk result (λ target. is_some target ≡ fields.says key.now (value_view value.now)) }
{
    match value.get(key) {
        None => Ok(None),
        Some(field) => {
            if field.is_null() {
                return Ok(None);
            }
            Ok(Some(target_of(alloc, field)?))
        }
    }
}

/// A value as a target. It nests as deep as the JSON does: 128 levels at most.
#[cycle(targets)]
fn target_of(alloc: Global, value: &Value<'_>) -> Result<PackageTarget, AllocError> {
    match value {
        Value::String(text) => Ok(PackageTarget::Text(String::from_str(alloc, text)?)),
        Value::Object(members) => Ok(PackageTarget::Object(entries_of(alloc, members)?)),
        Value::Array(items) => Ok(PackageTarget::Alternatives(alternatives_of(alloc, items)?)),
        Value::Null => Ok(PackageTarget::Null),
        Value::Bool(_) | Value::Number(_) => Ok(PackageTarget::Other),
    }
}

#[cycle(targets)]
fn alternatives_of(
    alloc: Global,
    items: &Vec<Value<'_>>,
) -> Result<Vec<PackageTarget>, AllocError> {
    let mut targets = Vec::new(alloc);
    for item in items {
        targets.push(target_of(alloc, item)?)?;
    }
    Ok(targets)
}

/// The entries of an object: a key that comes twice stands where it came first, with its last value.
#[cycle(targets)]
fn entries_of(
    alloc: Global,
    members: &Vec<(&str, Value<'_>)>,
) -> Result<Vec<(String, PackageTarget)>, AllocError> {
    let mut entries = Vec::new(alloc);
    let mut places = BTreeMap::new(alloc);
    for (key, value) in members {
        let target = target_of(alloc, value)?;
        put_entry(alloc, &mut entries, &mut places, *key, target)?;
    }
    Ok(entries)
}

/// Puts an entry where its key came first, or behind all others. `places` has the place of each key.
fn put_entry<'k>(
    alloc: Global,
    entries: &mut Vec<(String, PackageTarget)>,
    places: &mut BTreeMap<&'k str, usize>,
    key: &'k str,
    target: PackageTarget,
) -> Result<(), AllocError> {
    if let Some(at) = places.get(key).copied() {
        replace_target(entries, at, target);
        return Ok(());
    }
    places.insert(key, entries.len())?;
    let entry = (String::from_str(alloc, key)?, target);
    entries.push(entry)?;
    Ok(())
}

/// Gives the entry at a place another target.
fn replace_target(entries: &mut [(String, PackageTarget)], at: usize, target: PackageTarget) {
    if let Some(entry) = entries.get_mut(at) {
        entry.1 = target;
    }
}

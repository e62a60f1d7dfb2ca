//! What is asked for of source texts, in JSON.

ghost use Rattle.std.specs.Prelude.{◌≡◌, None, Some, map, codes, IfErr, IfOk, IsSome, IsSomeAnd, IsUtf8, OnOk};
ghost use Rattle.std.specs.List.{AllZip};
ghost use Rattle.json.specs.Find.{as_array, as_object, as_str, get};
ghost use Rattle.json.specs.Json.{array, object, string};
ghost use Rattle.json.specs.Value.{items_view, members_view, value_view};
ghost use Rattle.bundle_json_document.specs.Error.{NoneIs};
ghost use Rattle.gutsirava_c.specs.Request.{found, under as value_under, AreEntryPairs, AreFileTexts, AreSettings, AreTexts, Asks, AsksNothing, IsEntryPair, IsFormat, IsNoRequest, IsObjectOrNone, IsOrder, IsPlatform, IsTextOrNone, RefusesOf, TextAsks};

use crate::value::value_of;
use bundle_json_form::FormError;
use gutsirava_bundle::{BundleEntry, BundleSettings, Charset, MapSetting, OutputFormat};
use gutsirava_path::join;
use gutsirava_resolve::{Settings, TargetPlatform};
use json::{Scratch, Value};
use std::alloc::Global;
use std::collections::BTreeMap;

/// The folder in which files lie whose names begin with no `/`.
const FOLDER: &str = "/";

/// What is asked for.
#[derive(Drop)]
pub(crate) struct SourcesRequest {
    /// The texts of the files, by their paths.
    pub(crate) texts: BTreeMap<String, String>,
    pub(crate) entries: Vec<BundleEntry>,
    pub(crate) settings: BundleSettings,
    pub(crate) resolution: Settings,
}

impl SourcesRequest {
    /// What a text asks for. Refused where it is no JSON or of another form, and for memory.
    pub(crate) fn read(alloc: Global, text: &str) -> Result<SourcesRequest, FormError>
        requires { IsUtf8 text.now }
        ensures asks { IfOk result (λ it. TextAsks text.now it.settings it.entries.items) }
        ensures refused { IfErr result (RefusesOf (IsNoRequest text.now)) }
    {
        let mut scratch = Scratch::new(alloc);
        let value = value_of(alloc, text, &mut scratch)?;
        SourcesRequest::of_value(alloc, &value)
    }

    // What a value asks for.
    fn of_value(alloc: Global, value: &Value<'_>) -> Result<SourcesRequest, FormError>
        ensures asks { IfOk result (λ it. Asks (value_view value.now) it.settings it.entries.items) }
        ensures refused { IfErr result (RefusesOf (AsksNothing (value_view value.now))) }
    {
        let config = config_in(value)?;
        let settings = settings_in(alloc, config)?;
        let entries = entries_in(alloc, value.get("entries"))?;
        let resolution = resolution_in(alloc, config, settings.platform)?;
        let texts = texts_in(alloc, value.get("files"))?;
        Ok(SourcesRequest {
            texts,
            entries,
            settings,
            resolution,
        })
    }
}

// The settings, which may be left out.
fn config_in<'v, 'a>(value: &'v Value<'a>) -> Result<Option<&'v Value<'a>>, FormError>
    ensures same { IfOk result (λ config.
        found config ≡ get (codes "config") (value_view value.now)) }
    ensures in_object { OnOk result (IsObjectOrNone (get (codes "config") (value_view value.now))) }
    ensures refused { IfErr result (λ _.
        ¬ IsObjectOrNone (get (codes "config") (value_view value.now))) }
{
    let config = value.get("config");
    match config {
        None | Some(Value::Object(_)) => Ok(config),
        Some(_) => Err(FormError::Form),
    }
}

// The texts of an object, by the paths that its keys name.
fn texts_in(alloc: Global, value: Option<&Value<'_>>) -> Result<BTreeMap<String, String>, FormError>
    ensures are { OnOk result (IsSomeAnd (found value.entry) AreFileTexts) }
    ensures refused { IfErr result (RefusesOf (¬ IsSomeAnd (found value.entry) AreFileTexts)) }
{
    match value {
        Some(value) => texts_of(alloc, members_of(value)?),
        None => Err(FormError::Form),
    }
}

fn texts_of(
    alloc: Global,
    members: &[(&str, Value<'_>)],
) -> Result<BTreeMap<String, String>, FormError>
    ensures are { OnOk result (AreFileTexts (object (members_view members.now))) }
    ensures refused { IfErr result (RefusesOf
        (¬ AreFileTexts (object (members_view members.now)))) }
{
    let mut texts = BTreeMap::new(alloc);
    for (name, text) in members {
        add_text(alloc, &mut texts, name, text)?;
    }
    Ok(texts)
}

// Adds the text of a file.
fn add_text(
    alloc: Global,
    texts: &mut BTreeMap<String, String>,
    name: &str,
    text: &Value<'_>,
) -> Result<(), FormError>
    ensures is { OnOk result (IsSome (as_str (value_view text.now))) }
    ensures refused { IfErr result (RefusesOf (as_str (value_view text.now) ≡ None)) }
{
    let path = join(alloc, FOLDER, name)?;
    let text = String::from_str(alloc, text_of(text)?)?;
    texts.insert(path, text)?;
    Ok(())
}

// The entries of a list of pairs, each a name and a file.
fn entries_in(alloc: Global, value: Option<&Value<'_>>) -> Result<Vec<BundleEntry>, FormError>
    ensures are { IfOk result (λ entries.
        IsSomeAnd (found value.entry) (AreEntryPairs entries.items)) }
    ensures refused { IfErr result (RefusesOf (NoneIs (λ entries.
        IsSomeAnd (found value.entry) (AreEntryPairs entries)))) }
{
    match value {
        Some(value) => entries_of(alloc, items_of(value)?),
        None => Err(FormError::Form),
    }
}

fn entries_of(alloc: Global, pairs: &[Value<'_>]) -> Result<Vec<BundleEntry>, FormError>
    ensures are { IfOk result (λ entries.
        AllZip IsEntryPair (map value_view pairs.now) entries.items) }
    ensures refused { IfErr result (RefusesOf
        (NoneIs (AllZip IsEntryPair (map value_view pairs.now)))) }
{
    let mut entries = Vec::new(alloc);
    for pair in pairs {
        let entry = entry_of(alloc, pair)?;
        entries.push(entry)?;
    }
    Ok(entries)
}

fn entry_of(alloc: Global, pair: &Value<'_>) -> Result<BundleEntry, FormError>
    ensures is { IfOk result (IsEntryPair (value_view pair.now)) }
    ensures refused { IfErr result (RefusesOf (NoneIs (IsEntryPair (value_view pair.now)))) }
{
    let [name, file] = items_of(pair)? else {
        return Err(FormError::Form);
    };
    let name = String::from_str(alloc, text_of(name)?)?;
    let path = join(alloc, FOLDER, text_of(file)?)?;
    Ok(BundleEntry {
        name,
        path,
        text: None,
    })
}

// The members of an object.
fn members_of<'v, 'a>(value: &'v Value<'a>) -> Result<&'v [(&'a str, Value<'a>)], FormError>
    ensures are { IfOk result (λ members.
        value_view value.now ≡ object (members_view members.now)) }
    ensures refused { IfErr result (λ _. as_object (value_view value.now) ≡ None) }
{
    match value {
        Value::Object(members) => Ok(members.as_slice()),
        _ => Err(FormError::Form),
    }
}

// The items of an array.
fn items_of<'v, 'a>(value: &'v Value<'a>) -> Result<&'v [Value<'a>], FormError>
    ensures are { IfOk result (λ items. value_view value.now ≡ array (items_view items.now)) }
    ensures refused { IfErr result (λ _. as_array (value_view value.now) ≡ None) }
{
    match value {
        Value::Array(items) => Ok(items.as_slice()),
        _ => Err(FormError::Form),
    }
}

fn text_of<'a>(value: &Value<'a>) -> Result<&'a str, FormError>
    ensures is { IfOk result (λ text. value_view value.now ≡ string text.now) }
    ensures refused { IfErr result (λ _. as_str (value_view value.now) ≡ None) }
{
    match value {
        Value::String(text) => Ok(*text),
        _ => Err(FormError::Form),
    }
}

// What a bundle is to be.
fn settings_in(alloc: Global, config: Option<&Value<'_>>) -> Result<BundleSettings, FormError>
    ensures are { IfOk result (AreSettings (found config.entry)) }
    ensures refused { IfErr result (RefusesOf (NoneIs (AreSettings (found config.entry)))) }
{
    let format = format_of(under(config, "module"))?;
    let in_standard_order = is_standard(under(config, "order"))?;
    let platform = platform_of(under(config, "platform"))?;
    Ok(BundleSettings {
        format,
        in_standard_order,
        platform,
        global_name: text_or_none(alloc, under(config, "global_name"))?,
        globals: Vec::new(alloc),
        meta_url: None,
        charset: Charset::Utf8,
        keeps_comments: true,
        source_map: MapSetting::Off,
        has_insight: false,
        root: None,
        folder: String::from_str(alloc, FOLDER)?,
        output_folder: String::from_str(alloc, FOLDER)?,
    })
}

fn format_of(word: Option<&Value<'_>>) -> Result<OutputFormat, FormError>
    ensures is { IfOk result (IsFormat (found word.entry)) }
    ensures refused { IfErr result (λ _. NoneIs (IsFormat (found word.entry))) }
{
    match word {
        None => Ok(OutputFormat::Module),
        Some(Value::String(word)) => match *word {
            "Es" => Ok(OutputFormat::Module),
            "Iife" => Ok(OutputFormat::Iife),
            _ => Err(FormError::Form),
        },
        Some(_) => Err(FormError::Form),
    }
}

fn is_standard(word: Option<&Value<'_>>) -> Result<bool, FormError>
    ensures is { IfOk result (IsOrder (found word.entry)) }
    ensures refused { IfErr result (λ _. NoneIs (IsOrder (found word.entry))) }
{
    match word {
        None => Ok(true),
        Some(Value::String(word)) => match *word {
            "Standard" => Ok(true),
            "Needs" => Ok(false),
            _ => Err(FormError::Form),
        },
        Some(_) => Err(FormError::Form),
    }
}

fn platform_of(word: Option<&Value<'_>>) -> Result<TargetPlatform, FormError>
    ensures is { IfOk result (IsPlatform (found word.entry)) }
    ensures refused { IfErr result (λ _. NoneIs (IsPlatform (found word.entry))) }
{
    match word {
        None => Ok(TargetPlatform::Node),
        Some(Value::String(word)) => match *word {
            "Node" => Ok(TargetPlatform::Node),
            "Browser" => Ok(TargetPlatform::Browser),
            _ => Err(FormError::Form),
        },
        Some(_) => Err(FormError::Form),
    }
}

fn text_or_none(alloc: Global, value: Option<&Value<'_>>) -> Result<Option<String>, FormError>
    ensures is { IfOk result (IsTextOrNone (found value.entry)) }
    ensures refused { IfErr result (RefusesOf (NoneIs (IsTextOrNone (found value.entry)))) }
{
    match value {
        None => Ok(None),
        Some(value) => Ok(Some(String::from_str(alloc, text_of(value)?)?)),
    }
}

// How specifiers are resolved.
fn resolution_in(
    alloc: Global,
    config: Option<&Value<'_>>,
    platform: TargetPlatform,
) -> Result<Settings, FormError>
    ensures are { OnOk result
        (AreTexts (value_under (codes "external_modules") (found config.entry))) }
    ensures refused { IfErr result (RefusesOf
        (¬ AreTexts (value_under (codes "external_modules") (found config.entry)))) }
{
    let mut resolution = Settings::for_bundle(alloc, platform)?;
    if let Some(externals) = under(config, "external_modules") {
        add_externals(alloc, &mut resolution, items_of(externals)?)?;
    }
    Ok(resolution)
}

fn add_externals(
    alloc: Global,
    resolution: &mut Settings,
    externals: &[Value<'_>],
) -> Result<(), FormError>
    ensures are { OnOk result (AreTexts (Some (array (items_view externals.now)))) }
    ensures refused { IfErr result (RefusesOf
        (¬ AreTexts (Some (array (items_view externals.now))))) }
{
    for external in externals {
        resolution.externals.add(alloc, FOLDER, text_of(external)?)?;
    }
    Ok(())
}

// The last value under a key, where there are settings.
fn under<'v, 'a>(config: Option<&'v Value<'a>>, key: &str) -> Option<&'v Value<'a>>
    ensures { found result ≡ value_under key.now (found config.entry) }
{
    match config {
        Some(config) => config.get(key),
        None => None,
    }
}

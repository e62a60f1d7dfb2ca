//! The settings of a document.

ghost use Rattle.std.specs.Prelude.{map, IfErr, IfOk};
ghost use Rattle.std.specs.List.{AllZip};
ghost use Rattle.bundle_json_form.specs.Plain.{seen};
ghost use Rattle.bundle_json_document.specs.Document.{AreSettings, IsTextList, IsLimit, IsModuleType, IsOrder, IsText, IsTruth};
ghost use Rattle.bundle_json_document.specs.Error.{NoneIs, RefusesFor};
ghost use Rattle.bundle_json_document.specs.Seen.{value_found};

use crate::error::DocumentError;
use crate::values::{items_in, text_in, whole_number};
use bundle_json_form::seen::{as_bool, get};
use bundle_tree_names::config::{Config, ModuleType};
use bundler_call::OrderedConfig;
use json::Value;
use std::alloc::Global;

/// The settings in an object and the order, each of which may be left out, and so may the object. Refused where one is
/// of another form, and for memory.
pub(crate) fn settings(
    alloc: Global,
    value: Option<&Value<'_>>,
) -> Result<OrderedConfig, DocumentError>
    ensures ok { IfOk result (AreSettings (value_found value.entry)) }
    ensures refused { IfErr result (RefusesFor (NoneIs (AreSettings (value_found value.entry)))) }
{
    let Some(value) = value else {
        return Ok(OrderedConfig {
            base: Config::new(alloc),
            in_standard_order: false,
        });
    };
    if !matches!(value, Value::Object(_)) {
        return Err(DocumentError::Form);
    }
    Ok(OrderedConfig {
        base: Config {
            require: truth(get(value, "require"))?,
            disable_hygiene: truth(get(value, "disable_hygiene"))?,
            external_modules: texts(alloc, get(value, "external_modules"))?,
            module: module_type(get(value, "module"))?,
            max_modules: limit(get(value, "max_modules"))?,
        },
        in_standard_order: is_standard(get(value, "order"))?,
    })
}

// A truth value, or false.
fn truth(value: Option<&Value<'_>>) -> Result<bool, DocumentError>
    ensures ok { IfOk result (IsTruth (value_found value.entry)) }
    ensures refused { IfErr result (λ _. NoneIs (IsTruth (value_found value.entry))) }
{
    match value {
        None => Ok(false),
        Some(value) => as_bool(value).ok_or(DocumentError::Form),
    }
}

// A list of texts, or an empty one.
fn texts(alloc: Global, value: Option<&Value<'_>>) -> Result<Vec<String>, DocumentError>
    ensures ok { IfOk result (λ texts. IsTextList (value_found value.entry) texts.items) }
    ensures refused { IfErr result (RefusesFor (NoneIs (IsTextList (value_found value.entry)))) }
{
    match value {
        None => Ok(Vec::new(alloc)),
        Some(value) => texts_in(alloc, items_in(value)?),
    }
}

// The texts that these values are.
fn texts_in(alloc: Global, values: &[Value<'_>]) -> Result<Vec<String>, DocumentError>
    ensures ok { IfOk result (λ texts. AllZip IsText (map seen values.now) texts.items) }
    ensures refused { IfErr result
        (RefusesFor (NoneIs (AllZip IsText (map seen values.now)))) }
{
    let mut texts = Vec::new(alloc);
    for value in values {
        let text = text_in(alloc, value)?;
        texts.push(text)?;
    }
    Ok(texts)
}

// What a bundle is written as, an ES module where nothing is said.
fn module_type(value: Option<&Value<'_>>) -> Result<ModuleType, DocumentError>
    ensures ok { IfOk result (IsModuleType (value_found value.entry)) }
    ensures refused { IfErr result (λ _. NoneIs (IsModuleType (value_found value.entry))) }
{
    match value {
        None => Ok(ModuleType::Es),
        Some(Value::String(word)) => match *word {
            "Es" => Ok(ModuleType::Es),
            "Iife" => Ok(ModuleType::Iife),
            _ => Err(DocumentError::Form),
        },
        Some(_) => Err(DocumentError::Form),
    }
}

// Whether modules of a cycle too stand in the standard's order: by what they need where nothing is said.
fn is_standard(value: Option<&Value<'_>>) -> Result<bool, DocumentError>
    ensures ok { IfOk result (IsOrder (value_found value.entry)) }
    ensures refused { IfErr result (λ _. NoneIs (IsOrder (value_found value.entry))) }
{
    match value {
        None => Ok(false),
        Some(Value::String(word)) => match *word {
            "Needs" => Ok(false),
            "Standard" => Ok(true),
            _ => Err(DocumentError::Form),
        },
        Some(_) => Err(DocumentError::Form),
    }
}

// How many modules a bundle may have, as many as there can be where nothing is said.
fn limit(value: Option<&Value<'_>>) -> Result<u32, DocumentError>
    ensures ok { IfOk result (IsLimit (value_found value.entry)) }
    ensures refused { IfErr result (λ _. NoneIs (IsLimit (value_found value.entry))) }
{
    let Some(value) = value else {
        return Ok(u32::MAX);
    };
    let number = whole_number(value).ok_or(DocumentError::Form)?;
    u32::try_from(number).map_err(|_| DocumentError::Form)
}

//! What stands in a JSON value.

ghost use Rattle.std.specs.Prelude.{◌≡◌, ◌<◌, ◌==◌, length, map, slice_index, true, false, option_and_then, None, Some, IfErr, IfOk, IsTrue};
ghost use Rattle.json.specs.Value.{value_view, items_view, members_view};
ghost use Rattle.serde_json.specs.Data.{array, object, no_members};
ghost use Rattle.serde_json.specs.Find.{as_array, as_number, as_object, as_str as as_str_of, as_u64};
ghost use Rattle.serde_json.specs.Read.{number_from, number_of};
ghost use Rattle.serde_json.specs.View.{items_of};
ghost use Rattle.bundle_json_form.specs.Plain.{items_seen, plain_members, seen};
ghost use Rattle.bundle_json_document.specs.Document.{IsText};
ghost use Rattle.bundle_json_document.specs.Error.{RefusesFor};
ghost use Rattle.bundle_json_document.specs.Numbers as numbers;
ghost use Rattle.bundle_json_document.specs.Numbers.{is_whole_number};
ghost use Rattle.bundle_json_document.specs.Seen.{last_members};
ghost use Rattle.bundle_json_document.specs.declared.error.DocumentError.TheVariants.{OutOfMemory};

use crate::error::DocumentError;
use bundle_json_form::seen::items;
use fast_float::Numeral;
use json::Value;
use std::alloc::Global;
use std::collections::BTreeMap;

/// The last value of each key in an object.
pub(crate) type Members<'v, 'a> = BTreeMap<&'a str, &'v Value<'a>>;

/// Whether each number in the value is whole, also one that another member of the same key takes the place
/// of.
#[cycle(whole)]
pub(crate) fn is_whole(value: &Value<'_>) -> bool
    ensures { result ≡ numbers.is_whole (value_view value.now) }
{
    match value {
        Value::Number(digits) => is_integer(digits),
        Value::Array(items) => items_are_whole(items.as_slice()),
        Value::Object(members) => members_are_whole(members.as_slice()),
        _ => true,
    }
}

// Whether each number in the values is whole.
#[cycle(whole)]
fn items_are_whole(items: &[Value<'_>]) -> bool
    ensures { result ≡ numbers.items_are_whole (items_view items.now) }
{
    for item in items {
        if !is_whole(item) {
            return false;
        }
    }
    true
}

// Whether each number in the members is whole.
#[cycle(whole)]
fn members_are_whole(members: &[(&str, Value<'_>)]) -> bool
    ensures { result ≡ numbers.members_are_whole (members_view members.now) }
{
    for (_, member) in members {
        if !is_whole(member) {
            return false;
        }
    }
    true
}

// Whether the digits are those of a whole number of 64 bits, but for `-0`.
fn is_integer(digits: &str) -> bool
    ensures { result ≡ is_whole_number (number_of digits.now) }
{
    let bytes = digits.as_bytes();
    if has_minus(bytes) {
        is_negative(&Numeral::scan(&bytes[1..]))
    } else {
        is_unsigned(&Numeral::scan(bytes))
    }
}

fn has_minus(bytes: &[u8]) -> bool
    ensures value { result ≡ (slice_index bytes.now 0 == 45) }
    ensures some { IsTrue result → 0 < length bytes.now }
{
    !bytes.is_empty() && bytes[0] == b'-'
}

fn is_unsigned(numeral: &Numeral<'_>) -> bool
    ensures { result ≡ is_whole_number (number_from false numeral.now) }
{
    numeral.to_u64().is_some()
}

fn is_negative(numeral: &Numeral<'_>) -> bool
    ensures { result ≡ is_whole_number (number_from true numeral.now) }
{
    match numeral.to_i64(true) {
        Some(number) => number < 0,
        None => false,
    }
}

/// The whole number of 64 bits that the value is, without a sign.
pub(crate) fn whole_number(value: &Value<'_>) -> Option<u64>
    ensures { result ≡ option_and_then as_u64 (as_number (seen value.now)) }
{
    match value.as_number() {
        Some(digits) => number_in(digits),
        None => None,
    }
}

// The whole number of 64 bits that the digits are, without a sign.
fn number_in(digits: &str) -> Option<u64>
    ensures { result ≡ option_and_then as_u64 (number_of digits.now) }
{
    let bytes = digits.as_bytes();
    if has_minus(bytes) {
        None
    } else {
        unsigned_in(&Numeral::scan(bytes))
    }
}

fn unsigned_in(numeral: &Numeral<'_>) -> Option<u64>
    ensures { result ≡ option_and_then as_u64 (number_from false numeral.now) }
{
    numeral.to_u64()
}

/// The items of an array. Refused for any other value.
pub(crate) fn items_in<'v, 'a>(value: &'v Value<'a>) -> Result<&'v [Value<'a>], DocumentError>
    ensures ok { IfOk result (λ items. seen value.now ≡ array (items_of (map seen items.now))) }
    ensures refused { IfErr result (λ _. as_array (seen value.now) ≡ None) }
{
    match items(value) {
        Some(items) => Ok(items),
        None => Err(DocumentError::Form),
    }
}

/// The last member of each key in an object. Refused for any other value, and for memory.
pub(crate) fn members_in<'v, 'a>(
    alloc: Global,
    value: &'v Value<'a>,
) -> Result<Members<'v, 'a>, DocumentError>
    ensures ok { IfOk result (λ members.
        seen value.now ≡ object (last_members members.entries)) }
    ensures refused { IfErr result (RefusesFor (as_object (seen value.now) ≡ None)) }
{
    match value {
        Value::Object(all) => last_of_each(alloc, all.as_slice()),
        _ => Err(DocumentError::Form),
    }
}

// The last of these members under each key.
fn last_of_each<'v, 'a>(
    alloc: Global,
    all: &'v [(&'a str, Value<'a>)],
) -> Result<Members<'v, 'a>, DocumentError>
    ensures ok { IfOk result (λ members.
        last_members members.entries ≡ plain_members (members_view all.now) no_members) }
    ensures refused { IfErr result (λ refusal. refusal ≡ OutOfMemory) }
{
    let mut members = BTreeMap::new(alloc);
    for member in all {
        let (key, value) = member;
        members.insert(*key, value)?;
    }
    Ok(members)
}

/// A text. Refused for any other value, and for memory.
pub(crate) fn text_in(alloc: Global, value: &Value<'_>) -> Result<String, DocumentError>
    ensures ok { IfOk result (IsText (seen value.now)) }
    ensures refused { IfErr result (RefusesFor (as_str_of (seen value.now) ≡ None)) }
{
    match value {
        Value::String(text) => Ok(String::from_str(alloc, text)?),
        _ => Err(DocumentError::Form),
    }
}

/// Whether the value is this text.
pub(crate) fn is_text(value: &Value<'_>, text: &str) -> bool
    ensures { IsTrue result → as_str_of (seen value.now) ≡ Some text.now }
{
    match value {
        Value::String(it) => *it == text,
        _ => false,
    }
}

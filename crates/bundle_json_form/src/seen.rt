//! What stands in a value of a text.

ghost use Rattle.std.specs.Prelude.{◌≡◌, option_map};
ghost use Rattle.std.specs.Str.{bytes_eq};
ghost use Rattle.json.specs.Find.{get_member};
ghost use Rattle.json.specs.Value.{members_view, value_view};
ghost use Rattle.serde_json.specs.Find.{as_array, as_bool as as_bool_of, as_str as as_str_of, get as get_of};
ghost use Rattle.bundle_json_form.specs.Form as form;
ghost use Rattle.bundle_json_form.specs.Plain.{items_seen, seen};

use json::Value;

/// The last value under `key`.
pub fn get<'v, 'a>(value: &'v Value<'a>, key: &str) -> Option<&'v Value<'a>>
    ensures { option_map (λ it. seen it.now) result ≡ get_of key.now (seen value.now) }
{
    match value {
        Value::Object(members) => last_under(members.as_slice(), key),
        _ => None,
    }
}

// The last value under `key` in these members.
fn last_under<'v, 'a>(members: &'v [(&'a str, Value<'a>)], key: &str) -> Option<&'v Value<'a>>
    ensures { option_map (λ it. value_view it.now) result
        ≡ get_member key.now (members_view members.now) }
{
    let mut left = members.len();
    while left > 0 {
        left -= 1;
        let member = &members[left];
        if is_same(member.0, key) {
            return Some(&member.1);
        }
    }
    None
}

/// Whether two texts are the same. The words of a form are short: they are compared at once, byte by byte.
pub(crate) fn is_same(text: &str, word: &str) -> bool
    ensures { result ≡ bytes_eq text.now word.now }
{
    let (bytes, others) = (text.as_bytes(), word.as_bytes());
    if bytes.len() != others.len() {
        return false;
    }
    for (place, byte) in bytes.iter().enumerate() {
        if *byte != others[place] {
            return false;
        }
    }
    true
}

/// The text that the value is.
pub(crate) fn as_str<'v, 'a>(value: &'v Value<'a>) -> Option<&'a str>
    ensures { option_map (λ it. it.now) result ≡ as_str_of (seen value.now) }
{
    value.as_str()
}

/// The truth value that the value is.
pub fn as_bool<'v, 'a>(value: &'v Value<'a>) -> Option<bool>
    ensures { result ≡ as_bool_of (seen value.now) }
{
    value.as_bool()
}

/// Whether the value is `null`.
pub(crate) fn is_null<'v, 'a>(value: &'v Value<'a>) -> bool
    ensures { result ≡ form.is_null (seen value.now) }
{
    value.is_null()
}

/// The items of an array.
pub fn items<'v, 'a>(value: &'v Value<'a>) -> Option<&'v [Value<'a>]>
    ensures { option_map (λ list. items_seen list.now) result ≡ as_array (seen value.now) }
{
    match value {
        Value::Array(list) => Some(list.as_slice()),
        _ => None,
    }
}

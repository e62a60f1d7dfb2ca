//! The map `browser` of a package.json.
ghost use Rattle.std.specs.Prelude.{◌≡◌, [], IfOk, option_map, slice_get};
ghost use Rattle.json.specs.Value.{members_view, value_view};
ghost use Rattle.gutsirava_package.specs.Browser.{IsPlaceIn, said, replacing, with_members};

use crate::keys::{KeyTable, put};
use json::Value;
use std::alloc::{AllocError, Global};
use std::marker::Model;

/// What takes the place of the files of a package, and of packages, for browsers.
///
/// Clauses see the list of its keys, in order, each with what it says.
#[derive(Drop)]
pub struct BrowserMap {
    keys: KeyTable,
    /// What stands at each of the keys.
    replacements: Vec<BrowserReplacement>,
}

impl Model for BrowserMap {
    ghost use Rattle.std.specs.Prelude.{◌≡◌, List, length, map, vec_len};
    ghost use Rattle.std.specs.List.{zip};
    ghost use Rattle.gutsirava_package.specs.Browser.{Entry, replacing};

    ghost Value = { List Entry };

    ghost view = { λ its. zip its.keys (map replacing its.replacements.items) };

    ghost invariant = { λ its. vec_len its.replacements ≡ length its.keys };
}

/// What a key of the map `browser` says.
#[derive(Drop)]
pub enum BrowserReplacement {
    /// `false`: an empty module takes its place.
    Empty,
    /// What a text names.
    Text(String),
    /// A value that says nothing.
    Unknown,
}

impl BrowserMap {
    /// The map of an object. Of a key that comes twice the last value counts.
    pub(crate) fn of(alloc: Global, members: &[(&str, Value<'_>)]) -> Result<BrowserMap, AllocError>
        ensures { IfOk result (λ it. it ≡ with_members (members_view members.now) []) }
    {
        let mut keys = KeyTable::new(alloc);
        let mut replacements = Vec::new(alloc);
        for (key, value) in members {
            let replacement = replacement_of(alloc, value)?;
            let place = keys.add(alloc, key)?;
            put(&mut replacements, place, replacement)?;
        }
        Ok(BrowserMap { keys, replacements })
    }

    /// The place of a key that says something.
    pub fn place(&self, key: &str) -> Option<usize>
        ensures { IsPlaceIn self.now key.now result }
    {
        let place = self.keys.place(key.as_bytes())?;
        match self.replacement(place)? {
            BrowserReplacement::Empty => Some(place),
            BrowserReplacement::Text(_) => Some(place),
            BrowserReplacement::Unknown => None,
        }
    }

    /// What the key at a place says.
    pub fn replacement(&self, place: usize) -> Option<&BrowserReplacement>
        ensures { option_map (λ it. replacing it.now) result
            ≡ option_map (λ entry. entry.1) (slice_get self.now place) }
    {
        self.replacements.get(place)
    }
}

fn replacement_of(alloc: Global, value: &Value<'_>) -> Result<BrowserReplacement, AllocError>
    ensures { IfOk result (λ it. replacing it ≡ said (value_view value.now)) }
{
    match value {
        Value::String(text) => Ok(BrowserReplacement::Text(String::from_str(alloc, text)?)),
        Value::Bool(false) => Ok(BrowserReplacement::Empty),
        Value::Null | Value::Bool(true) | Value::Number(_) | Value::Array(_) | Value::Object(_) =>
            Ok(BrowserReplacement::Unknown),
    }
}

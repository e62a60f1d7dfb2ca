//! The keys of an object of a package.json, and where each stands.
ghost use Rattle.std.specs.Prelude.{◌≡◌, ◌≢◌, ℕ, [], IfOk, OnOk, Some, option_map, slice_get};
ghost use Rattle.gutsirava_package.specs.Keys.{IsExtended, IsPlaceOf, put_at};

use std::alloc::{AllocError, Global};
use std::collections::BTreeMap;
use std::marker::Model;

/// Keys that strangers choose, each once, in the order in which they came.
///
/// Clauses see the list of their texts. A key is found by its order among the keys and never by its hash, so that no choice of keys makes a search long.
#[derive(Drop)]
pub(crate) struct KeyTable {
    keys: Vec<String>,
    /// Where each of the keys stands among them, by its bytes.
    places: BTreeMap<Vec<u8>, usize>,
}

impl Model for KeyTable {
    ghost use Rattle.std.specs.Prelude.{ℕ, List, map, string_bytes};

    ghost Value = { List (List ℕ) };

    ghost use Rattle.gutsirava_package.specs.Keys.{ArePlaces};

    ghost view = { λ table. map string_bytes table.keys.items };

    ghost invariant = { λ table. ArePlaces (map string_bytes table.keys.items) table.places };
}

impl KeyTable {
    /// No keys. It takes no memory.
    pub(crate) fn new(alloc: Global) -> KeyTable
        ensures { result ≡ [] }
    {
        KeyTable {
            keys: Vec::new(alloc),
            places: BTreeMap::new(alloc),
        }
    }

    /// The key at a place.
    pub(crate) fn key(&self, place: usize) -> Option<&str>
        ensures { option_map (λ key. key.now) result ≡ slice_get self.now place }
    {
        match self.keys.get(place) {
            Some(key) => Some(key.as_str()),
            None => None,
        }
    }

    /// The place of the key with these bytes.
    pub(crate) fn place(&self, key: &[u8]) -> Option<usize>
        ensures { IsPlaceOf self.now key.now result }
    {
        self.places.get(key).copied()
    }

    /// The place of a key, which goes last where it is not there. Where memory runs out the keys stay.
    pub(crate) fn add(&mut self, alloc: Global, key: &str) -> Result<usize, AllocError>
        ensures place { IfOk result (λ at. IsPlaceOf self.new key.now (Some at)) }
        ensures keys { IsExtended self.old key.now self.new }
    {
        match self.place(key.as_bytes()) {
            Some(place) => Ok(place),
            None => self.push(alloc, key),
        }
    }

    /// Puts a key last that is not there, and gives its place. Where memory runs out the keys stay.
    fn push(&mut self, alloc: Global, key: &str) -> Result<usize, AllocError>
        requires { (at : ℕ) → slice_get self.old at ≢ Some key.now }
        ensures place { IfOk result (λ at. IsPlaceOf self.new key.now (Some at)) }
        ensures keys { IsExtended self.old key.now self.new }
    {
        let place = self.keys.len();
        let text = String::from_str(alloc, key)?;
        let bytes = Vec::from_slice(alloc, key.as_bytes())?;
        self.keys.reserve(1)?;
        self.places.insert(bytes, place)?;
        self.keys.push(text)?;
        Ok(place)
    }
}

/// Puts an item at a place, or last where the place is behind all.
pub(crate) fn put<T: Drop>(items: &mut Vec<T>, place: usize, item: T) -> Result<(), AllocError>
    ensures { OnOk result (items.new.items ≡ put_at place item items.old.items) }
{
    if place < items.len() {
        items[place] = item;
        return Ok(());
    }
    items.push(item)?;
    Ok(())
}

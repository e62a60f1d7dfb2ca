//! A map of keys that strangers choose.

ghost use Rattle.std.specs.Prelude.{◌≡◌, ◌++◌, ◌∷◌, [], is_some, if◌then◌else◌, IfSome, OnOk, OnErr, Some};
ghost use Rattle.std.specs.List.{IsAmong};
ghost use Rattle.std.specs.Option.{option_copied};
ghost use Rattle.std.specs.Str.{bytes_eq};
ghost use Rattle.indexmap.specs.IndexMap.{get, get_by, values, index_map_len, insert_entry, IsEmpty, IsUnchanged, IsUnique, Updates};
ghost use Rattle.bundle_scope_denote.specs.texts.Seen.{list_of};

use crate::texts::set::TextSet;
use std::alloc::{AllocError, Global};
use std::marker::Model;

/// A map of keys that strangers choose, in the order in which they came. Clauses see what they see of an `IndexMap`.
#[derive(Drop)]
pub struct TextMap<K: Ord + Copy + Drop, V> {
    keys: TextSet<K>,
    values: Vec<V>,
}

impl<K: Ord + Copy + Drop, V> Model for TextMap<K, V> {
    ghost use Rattle.std.specs.Prelude.{◌≡◌, ℕ, length};
    ghost use Rattle.std.specs.Coded.{coded_ℕ};
    ghost use Rattle.indexmap.specs.IndexMap.{IndexMap};
    ghost use Rattle.indexmap.specs.Layout.{hash_map_code};

    ghost Value = { IndexMap K V ℕ };

    ghost coded = { hash_map_code K.code V.code coded_ℕ };

    ghost use Rattle.bundle_scope_denote.specs.texts.Seen.{map_of};

    ghost view = { λ map. map_of map.keys.keys map.values.items };

    ghost invariant = { λ map. length map.values.items ≡ length map.keys.keys };
}

impl<K: Ord + Copy + Drop, V: Drop> TextMap<K, V> {
    /// An empty map. It takes no memory.
    pub fn new(alloc: Global) -> TextMap<K, V>
        ensures empty { IsEmpty result }
        ensures len { index_map_len result ≡ 0 }
        ensures unique { IsUnique K.eq result }
    {
        TextMap {
            keys: TextSet::new(alloc),
            values: Vec::new(alloc),
        }
    }

    /// The value at a key.
    pub fn get(&self, key: &K) -> Option<&V>
        ensures value { option_copied result ≡ get_by (K.eq key.now) self.now }
        ensures member { IfSome result (λ x. IsAmong (values self.now) x.now) }
    {
        match self.keys.get_index_of(key) {
            Some(place) => self.values.get(place),
            None => None,
        }
    }

    /// Whether a key is there.
    pub fn contains_key(&self, key: &K) -> bool
        ensures { result ≡ is_some (get_by (K.eq key.now) self.now) }
    {
        self.keys.contains(key)
    }

    /// Puts a value at a key, which goes last unless it is there. Where memory runs out the entries stay.
    pub fn insert(&mut self, key: K, value: V) -> Result<(), AllocError>
        ensures updates { OnOk result (Updates K.eq self.old self.new key (Some value)) }
        ensures entries { OnOk result
            (self.new.entries ≡ insert_entry K.eq self.old.entries key value) }
        ensures err { OnErr result (IsUnchanged self.old self.new) }
        ensures unique { IsUnique K.eq self.new }
    {
        match self.keys.get_index_of(&key) {
            Some(place) => {
                self.values[place] = value;
                Ok(())
            }
            None => {
                self.values.reserve(1)?;
                self.keys.insert(key)?;
                self.values.push(value)?;
                Ok(())
            }
        }
    }
}

impl<'a, V: Drop> TextMap<&'a str, V> {
    /// The value at the key with a text.
    pub fn get_text(&self, text: &str) -> Option<&V>
        ensures value { option_copied result
            ≡ get_by (λ key. bytes_eq text.now key.now) self.now }
        ensures member { IfSome result (λ x. IsAmong (values self.now) x.now) }
    {
        match self.keys.place_of(text) {
            Some(place) => self.values.get(place),
            None => None,
        }
    }

    /// Whether a key has this text.
    pub fn has_text(&self, text: &str) -> bool
        ensures { result ≡ is_some (get_by (λ key. bytes_eq text.now key.now) self.now) }
    {
        self.keys.has_text(text)
    }
}

impl<K: Ord + Copy + Drop, T: Drop> TextMap<K, Vec<T>> {
    /// Puts an item last in the list at a key, which begins with it unless the key is there.
    pub fn push(&mut self, alloc: Global, key: K, item: T) -> Result<(), AllocError>
        ensures { OnOk result
            ((other : K) →
            list_of (get K.eq self.new other)
            ≡ list_of (get K.eq self.old other) ++ (if K.eq key other then item ∷ [] else [])) }
    {
        match self.keys.get_index_of(&key) {
            Some(place) => {
                self.values[place].push(item)?;
                Ok(())
            }
            None => {
                let mut list = Vec::new(alloc);
                list.push(item)?;
                self.insert(key, list)
            }
        }
    }
}

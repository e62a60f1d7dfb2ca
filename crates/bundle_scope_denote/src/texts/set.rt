//! A set of keys that strangers choose.

ghost use Rattle.std.specs.Prelude.{◌≡◌, ◌↔◌, ◌+◌, ◌<◌, ◌++◌, ◌∷◌, [], ℕ, true, false, not, is_some, length, slice_get, if◌then◌else◌, IfOk, IfSome, IsSome, OnOk, OnErr, Some};
ghost use Rattle.std.specs.Option.{option_copied};
ghost use Rattle.std.specs.Str.{bytes_eq};
ghost use Rattle.std.specs.BTreeMap.{get};
ghost use Rattle.bundle_scope_denote.specs.texts.Placed.{IsKeyPut};
ghost use Rattle.indexmap.specs.IndexSet.{contains, contains_by, index_of_by, index_set_len, insert_index, insert_key, IsEmpty, IsUnchanged, IsUnique, Updates};

use std::alloc::{AllocError, Global};
use std::collections::BTreeMap;
use std::marker::Model;
use std::ops::Index;

/// A set of keys that strangers choose, in the order in which they came. Clauses see what they see of an `IndexSet`.
///
/// A key is found by its order among the keys and never by its hash, so that no choice of keys makes a search long.
#[derive(Drop)]
pub struct TextSet<K: Ord + Copy + Drop> {
    keys: Vec<K>,
    // Where each of the keys stands among them.
    places: BTreeMap<K, usize>,
}

impl<K: Ord + Copy + Drop> Model for TextSet<K> {
    ghost use Rattle.std.specs.Prelude.{ℕ};
    ghost use Rattle.std.specs.Coded.{coded_ℕ};
    ghost use Rattle.indexmap.specs.IndexSet.{IndexSet};
    ghost use Rattle.indexmap.specs.Layout.{hash_set_code};

    ghost Value = { IndexSet K ℕ };

    ghost coded = { hash_set_code K.code coded_ℕ };

    ghost use Rattle.bundle_scope_denote.specs.texts.Seen.{set_of};

    ghost view = { λ set. set_of set.keys.items };

    ghost use Rattle.bundle_scope_denote.specs.texts.Placed.{ArePlaced};

    ghost invariant = { λ set. ArePlaced K.cmp K.eq set.keys.items set.places };
}

impl<K: Ord + Copy + Drop> TextSet<K> {
    /// An empty set. It takes no memory.
    pub fn new(alloc: Global) -> TextSet<K>
        ensures empty { IsEmpty result }
        ensures len { index_set_len result ≡ 0 }
        ensures unique { IsUnique K.eq result }
    {
        TextSet {
            keys: Vec::new(alloc),
            places: BTreeMap::new(alloc),
        }
    }

    /// How many keys there are.
    pub fn len(&self) -> usize
        ensures len { result ≡ index_set_len self.now }
        ensures unique { IsUnique K.eq self.now }
    {
        self.keys.len()
    }

    /// The keys, in the order in which they came.
    pub fn as_slice(&self) -> &[K]
        ensures keys { result.now ≡ self.now.keys }
        ensures unique { IsUnique K.eq self.now }
    {
        self.keys.as_slice()
    }

    /// Whether a key is there.
    pub fn contains(&self, key: &K) -> bool
        ensures { result ≡ contains_by (K.eq key.now) self.now }
    {
        self.get_index_of(key).is_some()
    }

    /// The place of a key.
    pub fn get_index_of(&self, key: &K) -> Option<usize>
        ensures index { result ≡ index_of_by (K.eq key.now) self.now }
        ensures found { is_some result ≡ contains_by (K.eq key.now) self.now }
        ensures within { IfSome result (λ i. i < index_set_len self.now) }
        ensures unique { IsUnique K.eq self.now }
    {
        self.places.get(key).copied()
    }

    /// The key at a place.
    pub fn get_index(&self, index: usize) -> Option<&K>
        ensures key { option_copied result ≡ slice_get self.now.keys index }
        ensures found { IsSome result ↔ (index < index_set_len self.now) }
    {
        self.as_slice().get(index)
    }

    /// Puts a key last, unless it is there. True where it was not. Where memory runs out the keys stay.
    pub fn insert(&mut self, key: K) -> Result<bool, AllocError>
        ensures added { IfOk result (λ r. r ≡ not (contains K.eq self.old key)) }
        ensures updates { OnOk result (Updates K.eq self.old self.new key true) }
        ensures keys { IfOk result (λ r. self.new.keys ≡ insert_key K.eq self.old.keys key) }
        ensures len { IfOk result (λ r.
            index_set_len self.new ≡ index_set_len self.old + (if r then 1 else 0)) }
        ensures err { OnErr result (IsUnchanged self.old self.new) }
        ensures unique { IsUnique K.eq self.new }
    {
        let (_, is_new) = self.insert_full(key)?;
        Ok(is_new)
    }

    /// The same, with the place of the key.
    pub fn insert_full(&mut self, key: K) -> Result<(usize, bool), AllocError>
        ensures added { IfOk result (λ r. r.1 ≡ not (contains K.eq self.old key)) }
        ensures updates { OnOk result (Updates K.eq self.old self.new key true) }
        ensures keys { IfOk result (λ r. self.new.keys ≡ insert_key K.eq self.old.keys key) }
        ensures len { IfOk result (λ r.
            index_set_len self.new ≡ index_set_len self.old + (if r.1 then 1 else 0)) }
        ensures index { IfOk result (λ r. r.0 ≡ insert_index K.eq self.old key) }
        ensures within { IfOk result (λ r. r.0 < index_set_len self.new) }
        ensures stored { IfOk result (λ r.
            (k : K) × (slice_get self.new.keys r.0 ≡ Some k) × (K.eq key k ≡ true)) }
        ensures err { OnErr result (IsUnchanged self.old self.new) }
        ensures unique { IsUnique K.eq self.new }
    {
        self.keys.reserve(1)?;
        let place = self.keys.len();
        match put(&mut self.places, key, place)? {
            Some(own) => Ok((own, false)),
            None => {
                self.keys.push(key)?;
                Ok((place, true))
            }
        }
    }
}

// Puts a key at its place, unless it has one, which is answered then. Most keys are new, so it is put there first and
// looked for by that.
fn put<K: Ord + Copy + Drop>(
    places: &mut BTreeMap<K, usize>,
    key: K,
    place: usize,
) -> Result<Option<usize>, AllocError>
    ensures own { IfOk result (λ own. own ≡ get K.cmp places.old key) }
    ensures places { IfOk result (λ own. IsKeyPut K.cmp places.old places.new key place own) }
    ensures err { OnErr result
        ((other : K) → get K.cmp places.new other ≡ get K.cmp places.old other) }
{
    let own = places.insert(key, place)?;
    if let Some(own) = own {
        places.insert(key, own)?;
    }
    Ok(own)
}

impl<'a> TextSet<&'a str> {
    /// Whether a key has this text.
    pub fn has_text(&self, text: &str) -> bool
        ensures { result ≡ contains_by (λ key. bytes_eq text.now key.now) self.now }
    {
        self.place_of(text).is_some()
    }

    /// The place of the key with a text.
    pub fn place_of(&self, text: &str) -> Option<usize>
        ensures index { result ≡ index_of_by (λ key. bytes_eq text.now key.now) self.now }
        ensures found { is_some result
            ≡ contains_by (λ key. bytes_eq text.now key.now) self.now }
        ensures within { IfSome result (λ i. i < index_set_len self.now) }
    {
        self.places.get(text).copied()
    }
}

impl<K: Ord + Copy + Drop> Index<usize> for TextSet<K> {
    type Output = K;

    ghost can_index = { λ set index. index < index_set_len set };

    ghost index_gives = { λ set index key. slice_get set.keys index ≡ Some key };

    fn index(&self, index: usize) -> &K {
        &self.as_slice()[index]
    }
}

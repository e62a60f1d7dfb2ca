//! Keys that strangers choose, in the order in which they came.

ghost use Rattle.std.specs.Prelude.{◌≡◌, ◌++◌, ◌∷◌, [], length, position, None, OnOk, OnErr};
ghost use Rattle.bundler_call.specs.Placed.{StandOnce};

use std::alloc::{AllocError, Global};
use std::collections::BTreeMap;
use std::marker::Model;

/// Keys in the order in which they came. Clauses see their list.
///
/// A key is found by its order among the keys and never by its hash, so that no choice of keys makes a search long.
#[derive(Drop)]
pub struct Places<K: Ord + Copy + Drop> {
    keys: Vec<K>,
    // Where each of the keys stands among them.
    places: BTreeMap<K, usize>,
}

impl<K: Ord + Copy + Drop> Model for Places<K> {
    ghost use Rattle.std.specs.Prelude.{List};

    ghost Value = { List K };

    ghost use Rattle.bundler_call.specs.Placed.{HavePlaces};

    ghost view = { λ set. set.keys.items };

    ghost invariant = { λ set. HavePlaces K.cmp K.eq set.keys.items set.places };
}

impl<K: Ord + Copy + Drop> Places<K> {
    /// No keys. It takes no memory.
    pub fn new(alloc: Global) -> Places<K>
        ensures { result ≡ [] }
    {
        Places {
            keys: Vec::new(alloc),
            places: BTreeMap::new(alloc),
        }
    }

    /// How many keys there are.
    pub fn len(&self) -> usize
        ensures len { result ≡ length self.now }
        ensures once { StandOnce K.eq self.now }
    {
        self.keys.len()
    }

    /// The place of a key, if it is there.
    pub fn get(&self, key: &K) -> Option<usize>
        ensures place { result ≡ position (K.eq key.now) self.now }
        ensures once { StandOnce K.eq self.now }
    {
        self.places.get(key).copied()
    }

    /// Puts a key that is not there last. Where memory runs out the keys stay.
    pub fn add(&mut self, key: K) -> Result<(), AllocError>
        requires { position (K.eq key) self.old ≡ None }
        ensures added { OnOk result (self.new ≡ self.old ++ key ∷ []) }
        ensures err { OnErr result (self.new ≡ self.old) }
    {
        let place = self.keys.len();
        self.keys.reserve(1)?;
        self.places.insert(key, place)?;
        self.keys.push(key)?;
        Ok(())
    }
}

//! Texts that strangers choose, in the order in which they came.

ghost use Rattle.std.specs.Prelude.{◌≡◌, ◌++◌, ◌∷◌, [], length, position, string_bytes, None, OnOk, OnErr, String};
ghost use Rattle.std.specs.Ordering.{nat_cmp};
ghost use Rattle.std.specs.BTreeMap.{get};
ghost use Rattle.std.specs.declared.alloc.Global.{Global};
ghost use Rattle.bundler_call.specs.Hashed.{first_at, hash_of, same_text};
ghost use Rattle.bundler_call.specs.Placed.{StandOnce};

use std::alloc::{AllocError, Global};
use std::collections::BTreeMap;
use std::hash::{FoldHasher, Hasher};
use std::marker::Model;

/// Texts in the order in which they came. Clauses see their list.
///
/// A text is found by its hash, or else by its order among those whose hash an earlier one has; and hashes are found by
/// their order. So no choice of texts makes a search long.
#[derive(Drop)]
pub struct Texts {
    texts: Vec<String>,
    // Where the first text of each hash stands.
    firsts: BTreeMap<u64, usize>,
    // Where the others stand.
    others: BTreeMap<String, usize>,
}

impl Model for Texts {
    ghost use Rattle.std.specs.Prelude.{List, String};
    ghost use Rattle.std.specs.declared.alloc.Global.{Global};
    ghost use Rattle.bundler_call.specs.Hashed.{AreTexts};

    ghost Value = { List (String Global) };

    ghost view = { λ its. its.texts.items };

    ghost invariant = { λ its. AreTexts its.texts.items its.firsts its.others };
}

impl Texts {
    /// No texts. It takes no memory.
    pub fn new(alloc: Global) -> Texts
        ensures { result ≡ [] }
    {
        Texts {
            texts: Vec::new(alloc),
            firsts: BTreeMap::new(alloc),
            others: BTreeMap::new(alloc),
        }
    }

    /// How many texts there are.
    pub fn len(&self) -> usize
        ensures { result ≡ length self.now }
    {
        self.texts.len()
    }

    /// The place of a text, if it is there.
    pub fn get(&self, text: &String) -> Option<usize>
        ensures place { result ≡ position (same_text text.now) self.now }
        ensures once { StandOnce same_text self.now }
    {
        match first_in(self.texts.as_slice(), &self.firsts, text) {
            Some(place) => Some(place),
            None => self.others.get(text).copied(),
        }
    }

    /// Puts a text that is not there last. Where memory runs out the texts stay.
    pub fn add(&mut self, text: &String) -> Result<(), AllocError>
        requires { position (same_text text.now) self.old ≡ None }
        ensures added { OnOk result
            ((own : String Global) × (string_bytes own ≡ string_bytes text.now)
            × (self.new ≡ self.old ++ own ∷ [])) }
        ensures err { OnErr result (self.new ≡ self.old) }
    {
        let place = self.texts.len();
        let own = text.clone()?;
        self.texts.reserve(1)?;
        let hash = hash_of(text);
        if self.firsts.contains_key(&hash) {
            let copy = text.clone()?;
            self.others.insert(copy, place)?;
            self.texts.push(own)?;
            Ok(())
        } else {
            self.firsts.insert(hash, place)?;
            self.texts.push(own)?;
            Ok(())
        }
    }
}

// The place of the first text of a hash, if it is this text.
fn first_in(texts: &[String], firsts: &BTreeMap<u64, usize>, text: &String) -> Option<usize>
    ensures { result
        ≡ first_at same_text text.now texts.now
        (get nat_cmp firsts.now (hash_of (string_bytes text.now))) }
{
    let hash = hash_of(text);
    match firsts.get(&hash) {
        Some(place) => match texts.get(*place) {
            Some(own) => { if text == own { Some(*place) } else { None } }
            None => None,
        },
        None => None,
    }
}

// The hash of a text.
fn hash_of(text: &String) -> u64
    ensures { result ≡ hash_of (string_bytes text.now) }
{
    let mut hasher = FoldHasher::default();
    hasher.write(text.as_bytes());
    hasher.finish()
}

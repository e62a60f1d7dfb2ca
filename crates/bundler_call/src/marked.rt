//! Texts that strangers choose, each with a mark, in the order in which they came.

ghost use Rattle.std.specs.Prelude.{◌≡◌, ◌++◌, ◌∷◌, [], ℕ, length, position, slice_get, string_bytes, None, Some, String, OnOk, IfOk, OnErr, OnSome};
ghost use Rattle.std.specs.declared.alloc.Global.{Global};
ghost use Rattle.bundler_call.specs.Placed.{StandOnce};
ghost use Rattle.bundler_call.specs.Marks.{is_same_mark};

use crate::places::Places;
use crate::texts::Texts;
use std::alloc::{AllocError, Global};
use std::marker::Model;

/// Texts, each with a mark, in the order in which they came. Clauses see the list of the marks with their texts.
#[derive(Drop)]
pub struct Marked<T: Ord + Copy + Drop> {
    texts: Texts,
    // Each mark with the place of its text.
    marks: Places<(T, usize)>,
}

impl<T: Ord + Copy + Drop> Model for Marked<T> {
    ghost use Rattle.std.specs.Prelude.{List};
    ghost use Rattle.bundle_rules.specs.Nodes.{Text};
    ghost use Rattle.bundler_call.specs.Marks.{marked_in, AreMarksWithin};

    ghost Value = { List (T × Text) };

    ghost view = { λ its. marked_in its.texts its.marks };

    ghost invariant = { λ its. AreMarksWithin its.texts its.marks };
}

impl<T: Ord + Copy + Drop> Marked<T> {
    /// No texts. It takes no memory.
    pub fn new(alloc: Global) -> Marked<T>
        ensures { result ≡ [] }
    {
        Marked {
            texts: Texts::new(alloc),
            marks: Places::new(alloc),
        }
    }

    /// How many marked texts there are.
    pub fn len(&self) -> usize
        ensures { result ≡ length self.now }
    {
        self.marks.len()
    }

    /// The place of a text with this mark, if it is there.
    pub fn get(&self, mark: T, text: &String) -> Option<usize>
        ensures place { result ≡ position (is_same_mark T.eq (mark, string_bytes text.now)) self.now }
        ensures once { OnSome result (StandOnce (is_same_mark T.eq) self.now) }
    {
        match self.texts.get(text) {
            Some(place) => self.marks.get(&(mark, place)),
            None => None,
        }
    }

    /// Puts a text with a mark that is not there last. Where memory runs out all stays as it was.
    pub fn add(&mut self, mark: T, text: &String) -> Result<(), AllocError>
        requires { position (is_same_mark T.eq (mark, string_bytes text.now)) self.old ≡ None }
        ensures added { OnOk result (self.new ≡ self.old ++ (mark, string_bytes text.now) ∷ []) }
        ensures err { OnErr result (self.new ≡ self.old) }
    {
        let place = place_of(&mut self.texts, text)?;
        self.marks.add((mark, place))?;
        Ok(())
    }
}

// The place of a text among these, where it goes last unless it is there.
fn place_of(texts: &mut Texts, text: &String) -> Result<usize, AllocError>
    ensures there { IfOk result (λ place.
        (own : String Global) × (slice_get texts.new place ≡ Some own)
        × (string_bytes own ≡ string_bytes text.now)) }
    ensures stays { (place : ℕ) (own : String Global) →
        slice_get texts.old place ≡ Some own →
        slice_get texts.new place ≡ Some own }
{
    match texts.get(text) {
        Some(place) => Ok(place),
        None => {
            let place = texts.len();
            texts.add(text)?;
            Ok(place)
        }
    }
}

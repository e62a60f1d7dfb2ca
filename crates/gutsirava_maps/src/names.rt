//! The names that a map tells.

ghost use Rattle.std.specs.Prelude.{◌≡◌, ◌≢◌, false, IsSomeAnd, IsTrue, Some, slice_get, string_bytes};
ghost use Rattle.gutsirava_maps.specs.Names.{name_at, AreNumbered};

use std::alloc::{AllocError, Global};
use std::collections::BTreeMap;

/// Names, by their numbers from 0 on.
#[derive(Drop)]
pub struct NameList {
    alloc: Global,
    numbers: BTreeMap<String, u32>,
    pub names: Vec<String>,
    ghost numbered: { AreNumbered numbers names.items },
}

impl NameList {
    ghost use Rattle.std.specs.Prelude.{◌≡◌, ◌++◌, [], List, String, IfNone, IfOk, IfSome, IsSomeAnd, slice_get, string_bytes};
    ghost use Rattle.std.specs.declared.alloc.Global.{Global};
    ghost use Rattle.gutsirava_maps.specs.Names.{AreDistinct, IsNew, IsPutDown};

    /// No names.
    pub fn new(alloc: Global) -> NameList
        ensures { result.names.items ≡ [] }
    {
        NameList {
            alloc,
            numbers: BTreeMap::new(alloc),
            names: Vec::new(alloc),
        }
    }

    /// The number of a name, its place among the names. It is put down where it is new, and no name stands twice. Refused
    /// only for memory, and where 32 bits cannot number it.
    pub fn number_of(&mut self, name: &str) -> Result<u32, AllocError>
        ensures named { IfOk result (λ number. IsSomeAnd
            (slice_get self.new.names.items number) (λ it. string_bytes it ≡ name.now)) }
        ensures kept { (more : List (String Global)) ×
            (self.new.names.items ≡ self.old.names.items ++ more) }
        ensures put { IsPutDown name.now self.old.names.items self.new.names.items }
        ensures distinct { AreDistinct self.new.names.items }
    {
        match self.known_number(name) {
            Some(number) => Ok(number),
            None => self.add(name),
        }
    }

    // The number of a name that was put down.
    fn known_number(&self, name: &str) -> Option<u32>
        ensures named { IfSome result (λ number. IsSomeAnd
            (slice_get self.now.names.items number) (λ it. string_bytes it ≡ name.now)) }
        ensures new { IfNone result (IsNew name.now self.now.names.items) }
    {
        let number = *self.numbers.get(name)?;
        if is_called(self.names.as_slice(), number, name) {
            Some(number)
        } else {
            None
        }
    }

    // Puts down a new name, and gives its number.
    fn add(&mut self, name: &str) -> Result<u32, AllocError>
        requires { IsNew name.now self.old.names.items }
        ensures named { IfOk result (λ number. IsSomeAnd
            (slice_get self.new.names.items number) (λ it. string_bytes it ≡ name.now)) }
        ensures kept { (more : List (String Global)) ×
            (self.new.names.items ≡ self.old.names.items ++ more) }
        ensures put { IsPutDown name.now self.old.names.items self.new.names.items }
    {
        let Ok(number) = u32::try_from(self.names.len()) else {
            return Err(AllocError);
        };
        let key = String::from_str(self.alloc, name)?;
        self.numbers.insert(key, number)?;
        let name = String::from_str(self.alloc, name)?;
        self.names.push(name)?;
        Ok(number)
    }
}

// Whether the name of this number is that one.
fn is_called(names: &[String], number: u32, name: &str) -> bool
    ensures called { IsTrue result
        → IsSomeAnd (slice_get names.now number) (λ it. string_bytes it ≡ name.now) }
    ensures other { result ≡ false → name_at names.now number ≢ Some name.now }
{
    match names.get(number as usize) {
        Some(known) => is_text(known, name),
        None => false,
    }
}

// Whether a text is that one.
fn is_text(text: &String, other: &str) -> bool
    ensures same { IsTrue result → string_bytes text.now ≡ other.now }
    ensures differs { result ≡ false → string_bytes text.now ≢ other.now }
{
    text.as_str() == other
}

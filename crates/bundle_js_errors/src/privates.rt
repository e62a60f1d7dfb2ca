//! The private names of classes (ECMA-262, 15.7.1).

use crate::numbers::NameNumbers;
use std::alloc::{AllocError, Global};

/// What a private name is in its class.
#[derive(Clone, Copy, PartialEq, Eq)]
pub enum PrivateKind {
    Getter { is_static: bool },
    Setter { is_static: bool },
    /// Any other member, or a getter and its setter.
    Whole,
}

// A private name that a class declares which is gone through.
#[derive(Clone, Copy)]
struct Declared<'a> {
    name: &'a str,
    // The number of the one of this name in a class around it, 0 where there is none.
    hidden: u32,
    kind: PrivateKind,
    // The place in the source.
    from: u32,
}

/// The private names of the classes around a place, from those of the outermost on, numbered from 1 on.
#[derive(Drop)]
pub struct Privates<'a> {
    list: Vec<Declared<'a>>,
    numbers: NameNumbers<'a>,
}

// Whether these two may be of one name in a class.
fn is_pair(one: PrivateKind, other: PrivateKind) -> bool {
    match (one, other) {
        (PrivateKind::Getter { is_static }, PrivateKind::Setter { is_static: other }) => is_static
            == other,
        (PrivateKind::Setter { is_static }, PrivateKind::Getter { is_static: other }) => is_static
            == other,
        _ => false,
    }
}

impl<'a> Privates<'a> {
    /// No names.
    pub fn new(alloc: Global) -> Privates<'a> {
        Privates {
            list: Vec::new(alloc),
            numbers: NameNumbers::new(alloc),
        }
    }

    /// How many there are.
    pub fn len(&self) -> u32 {
        u32::try_from(self.list.len()).unwrap_or(u32::MAX)
    }

    /// The number of the innermost of this name, 0 where there is none.
    pub fn find(&self, name: &'a str) -> u32 {
        self.numbers.find(name)
    }

    /// Puts a name into the class whose names are those behind the first `outer`. Where it may not be of this
    /// class with one that is, the place of the later of both.
    pub fn declare(
        &mut self,
        outer: u32,
        name: &'a str,
        kind: PrivateKind,
        from: u32,
    ) -> Result<Option<u32>, AllocError> {
        let hidden = self.find(name);
        if hidden > outer {
            return Ok(self.join(hidden, kind, from));
        }
        self.list.push(Declared {
            name,
            hidden,
            kind,
            from,
        })?;
        let number = self.len();
        self.numbers.set(name, number)?;
        Ok(None)
    }

    // Makes a getter and its setter one. Where they are no such pair, the place of the later of both.
    fn join(&mut self, number: u32, kind: PrivateKind, from: u32) -> Option<u32> {
        let place = (number as usize).saturating_sub(1);
        let declared = self.list.as_mut_slice().get_mut(place)?;
        let later = declared.from.max(from);
        let paired = is_pair(declared.kind, kind);
        declared.kind = PrivateKind::Whole;
        if paired { None } else { Some(later) }
    }

    /// Takes the names behind the first `outer` away.
    pub fn forget(&mut self, outer: u32) -> Result<(), AllocError> {
        for _ in outer as usize..self.list.len() {
            if let Some(declared) = self.list.pop() {
                self.numbers.set(declared.name, declared.hidden)?;
            }
        }
        Ok(())
    }
}

//! The numbers of names of which an inner one hides those around it.

use std::alloc::{AllocError, Global};
use std::collections::BTreeMap;

/// The number of the innermost of each name, from 1 on. Names are found by their order and never by a hash, so
/// that no choice of names makes a search long.
#[derive(Drop)]
pub struct NameNumbers<'a> {
    innermost: BTreeMap<&'a str, u32>,
}

impl<'a> NameNumbers<'a> {
    /// No names.
    pub fn new(alloc: Global) -> NameNumbers<'a> {
        NameNumbers {
            innermost: BTreeMap::new(alloc),
        }
    }

    /// The number of the innermost of this name, 0 where there is none.
    pub fn find(&self, name: &'a str) -> u32 {
        match self.innermost.get(&name) {
            Some(number) => *number,
            None => 0,
        }
    }

    /// Makes this the number of the innermost of the name; 0 where there is none any more.
    pub fn set(&mut self, name: &'a str, number: u32) -> Result<(), AllocError> {
        if number == 0 {
            let _ = self.innermost.remove(&name);
        } else {
            self.innermost.insert(name, number)?;
        }
        Ok(())
    }
}

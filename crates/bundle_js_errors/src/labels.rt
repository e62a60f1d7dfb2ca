//! Labels (ECMA-262, 14.13).

use crate::numbers::NameNumbers;
use std::alloc::{AllocError, Global};

// A label whose statement is gone through.
#[derive(Clone, Copy)]
struct LabelEntry<'a> {
    name: &'a str,
    // The number of the label of this name around it, 0 where there is none.
    hidden: u32,
    is_loop: bool,
}

/// The labels around a place, from the outermost on, numbered from 1 on.
#[derive(Drop)]
pub struct Labels<'a> {
    list: Vec<LabelEntry<'a>>,
    numbers: NameNumbers<'a>,
}

impl<'a> Labels<'a> {
    /// No labels.
    pub fn new(alloc: Global) -> Labels<'a> {
        Labels {
            list: Vec::new(alloc),
            numbers: NameNumbers::new(alloc),
        }
    }

    /// How many there are.
    pub fn len(&self) -> u32 {
        u32::try_from(self.list.len()).unwrap_or(u32::MAX)
    }

    /// The number of the innermost label of this name, 0 where there is none.
    pub fn find(&self, name: &'a str) -> u32 {
        self.numbers.find(name)
    }

    /// Whether the label of this number is a loop's.
    pub fn is_loop(&self, number: u32) -> bool {
        match self
            .list
            .as_slice()
            .get((number as usize).saturating_sub(1))
        {
            Some(label) => label.is_loop,
            None => false,
        }
    }

    /// Puts a label inside all others.
    pub fn push(&mut self, name: &'a str) -> Result<(), AllocError> {
        let hidden = self.find(name);
        self.list.push(LabelEntry {
            name,
            hidden,
            is_loop: false,
        })?;
        let number = self.len();
        self.numbers.set(name, number)
    }

    /// Takes the innermost label away.
    pub fn pop(&mut self) -> Result<(), AllocError> {
        if let Some(label) = self.list.pop() {
            self.numbers.set(label.name, label.hidden)?;
        }
        Ok(())
    }

    /// Says that the label which so many others are inside of is a loop's.
    pub fn mark_loop(&mut self, inside: usize) {
        let number = self.list.len().saturating_sub(inside);
        if let Some(label) = self.list.as_mut_slice().get_mut(number.saturating_sub(1)) {
            label.is_loop = true;
        }
    }
}

//! Numbers for names and for what is given.

ghost use Rattle.std.specs.Prelude.{◌≡◌, IfOk, OnOk, slice_get};
ghost use Rattle.bundle_link_index.specs.Said.{IsSaidNumber};
ghost use Rattle.bundle_link_index.specs.Numbered.{Inserts, IsEmpty, IsNameSpot, HasMoreNumbers, index_names, values_of};
ghost use Rattle.bundle_link_index.specs.Says.{answer_says, double, own_says, answer_of_values, value_of};

use crate::index::Answer;
use crate::own::{GivenTarget, OwnTarget};
use crate::{Candidates, OwnLink};
use bundle_scope_denote::texts::TextSet;
use std::alloc::{AllocError, Global};

/// Names, and what own entries give, each once: its number is its place.
#[derive(Drop)]
pub(crate) struct LinkNumbers<'a> {
    pub(crate) names: TextSet<&'a str>,
    pub(crate) given: TextSet<GivenTarget<'a>>,
}

impl<'a> LinkNumbers<'a> {
    // No name, and nothing that is given.
    pub(crate) fn new(alloc: Global) -> LinkNumbers<'a>
        ensures { IsEmpty result }
    {
        LinkNumbers {
            names: TextSet::new(alloc),
            given: TextSet::new(alloc),
        }
    }

    // The number of a name.
    pub(crate) fn of_name(&mut self, name: &'a str) -> Result<usize, AllocError>
        ensures names { IfOk result (λ n.
            Inserts (index_names self.old) (index_names self.new) name.now n) }
        ensures values { OnOk result (values_of self.new ≡ values_of self.old) }
    {
        let (number, _) = self.names.insert_full(name)?;
        Ok(number)
    }

    // The number of what is given.
    pub(crate) fn of_given(&mut self, given: GivenTarget<'a>) -> Result<usize, AllocError>
        ensures values { IfOk result (λ n.
            Inserts (values_of self.old) (values_of self.new) (value_of given.entry) n) }
        ensures names { OnOk result (index_names self.new ≡ index_names self.old) }
    {
        let (number, _) = self.given.insert_full(given)?;
        Ok(number)
    }

    // What an own entry says, by numbers.
    pub(crate) fn of_own(&mut self, own: OwnTarget<'a>) -> Result<OwnLink, AllocError>
        ensures number { IfOk result (λ its.
            IsSaidNumber (index_names self.new) (values_of self.new) (own_says own.entry) its) }
        ensures more { OnOk result (HasMoreNumbers self.old self.new) }
    {
        match own {
            OwnTarget::Gives(given) => {
                let number = self.of_given(given)?;
                Ok(OwnLink::Gives(number))
            }
            OwnTarget::Leads(asked) => {
                let number = self.of_name(asked.name)?;
                Ok(OwnLink::Leads((asked.which, number)))
            }
            OwnTarget::Nothing => Ok(OwnLink::Nothing),
        }
    }

    // The number of a name of a module, where it has one.
    pub(crate) fn spot(&self, number: usize, name: &str) -> Option<(usize, usize)>
        ensures { IsNameSpot (index_names self.now) number name.now result }
    {
        match self.names.place_of(name) {
            Some(place) => Some((number, place)),
            None => None,
        }
    }

    // What was found by numbers.
    pub(crate) fn answer(&self, found: Candidates) -> Answer<'a>
        ensures { answer_says result ≡ answer_of_values (values_of self.now) found }
    {
        match found {
            Candidates::Missing => Answer::None,
            Candidates::One(value) => match self.given.get_index(value) {
                Some(given) => Answer::One(*given),
                None => Answer::None,
            },
            Candidates::Two(first, second) => self.two(first, second),
        }
    }

    // Two that were found.
    fn two(&self, first: usize, second: usize) -> Answer<'a>
        ensures { answer_says result
            ≡ double (slice_get (values_of self.now) first)
            (slice_get (values_of self.now) second) }
    {
        match (self.given.get_index(first), self.given.get_index(second)) {
            (Some(first), Some(second)) => Answer::Two(*first, *second),
            _ => Answer::None,
        }
    }
}

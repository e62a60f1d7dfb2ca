//! The walk over the names to which a name leads, along entries and stars.

ghost use Rattle.std.specs.Prelude.{◌≡◌, ◌<◌, Some, OnOk, IfOk, length, slice_get, Contains};
ghost use Rattle.bundle_link_index.specs.Given.{IsCandidates, AreAnswersRight, SearchSteps, AddsMissing};

use crate::answer::Candidates;
use crate::by_name::LinksByName;
use crate::links::OwnLink;
use indexmap::{IndexMap, IndexSet};
use std::alloc::{AllocError, Global};

/// The answer for a name, by a walk over the names to which it leads. It stops at two.
pub(crate) fn answer_by_walk(
    alloc: Global,
    index: &LinksByName,
    answers: &IndexMap<(usize, usize), Candidates>,
    at: (usize, usize),
) -> Result<Candidates, AllocError>
    requires { AreAnswersRight index.now answers.now.entries }
    ensures { IfOk result (λ answer. IsCandidates index.now at answer) }
{
    let mut met = IndexSet::new(alloc);
    put(&mut met, at)?;
    let mut answer = Candidates::Missing;
    let mut done = 0;
    while done < met.len() {
        let next = spot_at(&met, done);
        answer = step(index, answers, next, &mut met, answer)?;
        if answer.is_two() {
            return Ok(answer);
        }
        done += 1;
    }
    Ok(answer)
}

// The name at a place of those met.
fn spot_at(met: &IndexSet<(usize, usize)>, place: usize) -> (usize, usize)
    requires { place < length met.now.keys }
    ensures { slice_get met.now.keys place ≡ Some result }
{
    met.as_slice()[place]
}

// Adds what a name gives to the answer, and the names to which it leads to those met.
fn step(
    index: &LinksByName,
    answers: &IndexMap<(usize, usize), Candidates>,
    at: (usize, usize),
    met: &mut IndexSet<(usize, usize)>,
    answer: Candidates,
) -> Result<Candidates, AllocError>
    requires { AreAnswersRight index.now answers.now.entries }
    ensures { IfOk result (λ now. SearchSteps index.now at met.old.keys answer met.new.keys now) }
{
    if let Some(known) = answers.get(&at) {
        return Ok(answer.with_all(*known));
    }
    match index.own(at) {
        Some(OwnLink::Gives(value)) => Ok(answer.with(value)),
        Some(OwnLink::Leads(next)) => {
            put(met, next)?;
            Ok(answer)
        }
        Some(OwnLink::Nothing) => Ok(answer),
        None => {
            let (module, name) = at;
            if name != index.default() {
                put_stars(index.stars(module), name, met)?;
            }
            Ok(answer)
        }
    }
}

// Notes that a name of each of these modules is met.
fn put_stars(
    stars: &[usize],
    name: usize,
    met: &mut IndexSet<(usize, usize)>,
) -> Result<(), AllocError>
    ensures { OnOk result
        (AddsMissing met.old.keys (λ at. Contains stars.now at.0 × (at.1 ≡ name)) met.new.keys) }
{
    for star in stars {
        put(met, (*star, name))?;
    }
    Ok(())
}

/// Notes that a name is met, and tells whether it is for the first time.
pub(crate) fn put(
    met: &mut IndexSet<(usize, usize)>,
    at: (usize, usize),
) -> Result<bool, AllocError>
    ensures { OnOk result (AddsMissing met.old.keys (λ other. other ≡ at) met.new.keys) }
{
    let (_, is_new) = met.insert_full(at)?;
    Ok(is_new)
}

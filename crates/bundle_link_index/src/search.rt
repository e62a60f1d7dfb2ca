//! The search for what is given for a name.

ghost use Rattle.std.specs.Prelude.{◌≡◌, IfOk, IfSome};
ghost use Rattle.bundle_link_index.specs.Graph.{graph_of};
ghost use Rattle.bundle_link_index.specs.Given.{AreAnswersRight, IsCandidates, NotesAnswer};
ghost use Rattle.bundle_link_index.specs.Reached.{IsReachNoted, IsReach};

use crate::answer::Candidates;
use crate::by_name::LinksByName;
use crate::line::{NotedReach, answer_in_line};
use crate::links::{Links, OwnLink};
use indexmap::{IndexMap, IndexSet};
use std::alloc::{AllocError, Global};
use std::marker::Model;

/// Links, with the answers that were found.
#[derive(Drop)]
pub struct Search {
    index: LinksByName,
    answers: IndexMap<(usize, usize), Candidates>,
    reach: NotedReach,
}

impl Model for Search {
    ghost use Rattle.bundle_link_index.specs.Graph.{Graph};
    ghost use Rattle.bundle_link_index.specs.Reached.{IsReady};

    ghost Value = { Graph };

    ghost view = { λ s. s.index };

    ghost invariant = { λ s. IsReady s.index s.answers.entries s.reach };
}

impl Search {
    /// A search over links.
    pub fn new(alloc: Global, links: Links) -> Result<Search, AllocError>
        ensures { IfOk result (λ search. search ≡ graph_of links) }
    {
        Ok(Search {
            index: LinksByName::new(alloc, links)?,
            answers: IndexMap::new(alloc),
            reach: NotedReach::new(alloc),
        })
    }

    /// The answer for a name of a module. It is not noted.
    pub fn found(&self, alloc: Global, at: (usize, usize)) -> Result<Candidates, AllocError>
        ensures { IfOk result (λ answer. IsCandidates self.now at answer) }
    {
        if let Some(answer) = own_answer(&self.index, at) {
            return Ok(answer);
        }
        let mut reach = NotedReach::new(alloc);
        let mut line = IndexSet::new(alloc);
        answer_in_line(alloc, &self.index, &self.answers, &mut reach, at, &mut line)
    }

    /// The answer for a name of a module, which is noted for it and for the names to which it leads alone. Where its own
    /// entry gives a value, that is the answer, and nothing is noted.
    pub fn answer(&mut self, alloc: Global, at: (usize, usize)) -> Result<Candidates, AllocError>
        ensures right { IfOk result (λ answer. IsCandidates self.old at answer) }
        ensures same { self.new ≡ self.old }
    {
        if let Some(answer) = own_answer(&self.index, at) {
            return Ok(answer);
        }
        if let Some(answer) = self.answers.get(&at).copied() {
            return Ok(answer);
        }
        answer_anew(alloc, &self.index, &mut self.answers, &mut self.reach, at)
    }

    /// The modules to which stars lead from one, each once, itself first.
    pub fn reach(&self, alloc: Global, start: usize) -> Result<IndexSet<usize>, AllocError>
        ensures { IfOk result (λ reach. IsReach self.now start reach.keys) }
    {
        self.index.reach(alloc, start)
    }
}

// The answer for a name whose own entry gives a value.
fn own_answer(index: &LinksByName, at: (usize, usize)) -> Option<Candidates>
    ensures { IfSome result (IsCandidates index.now at) }
{
    match index.own(at) {
        Some(OwnLink::Gives(value)) => Some(Candidates::One(value)),
        Some(OwnLink::Leads(_)) | Some(OwnLink::Nothing) | None => None,
    }
}

// The answer for a name, looked for and then noted.
fn answer_anew(
    alloc: Global,
    index: &LinksByName,
    answers: &mut IndexMap<(usize, usize), Candidates>,
    reach: &mut NotedReach,
    at: (usize, usize),
) -> Result<Candidates, AllocError>
    requires right { AreAnswersRight index.now answers.old.entries }
    requires noted { IsReachNoted index.now reach.old }
    ensures answer { IfOk result (λ answer. IsCandidates index.now at answer) }
    ensures right { AreAnswersRight index.now answers.new.entries }
    ensures noted { IsReachNoted index.now reach.new }
{
    let mut line = IndexSet::new(alloc);
    let answer = answer_in_line(alloc, index, &*answers, reach, at, &mut line)?;
    note(answers, line.as_slice(), answer)?;
    Ok(answer)
}

// Notes an answer for names.
fn note(
    answers: &mut IndexMap<(usize, usize), Candidates>,
    line: &[(usize, usize)],
    answer: Candidates,
) -> Result<(), AllocError>
    ensures { NotesAnswer answers.old.entries line.now answer answers.new.entries }
{
    for at in line {
        answers.insert(*at, answer)?;
    }
    Ok(())
}

//! Names that lead to one other name alone, so that the same is given for both.

ghost use Rattle.std.specs.Prelude.{◌≡◌, ℕ, None, Some, IfOk, IfSome, IsTrue, OnOk, [], ◌∷◌};
ghost use Rattle.bundle_link_index.specs.Graph.{own_of, stars_of};
ghost use Rattle.bundle_link_index.specs.Given.{AddsMissing, AreAnswersRight};
ghost use Rattle.bundle_link_index.specs.Reached.{AnswersAll, HasReach, IsReachNoted, LeadsAlone, Starring, TellsStep};

use crate::answer::Candidates;
use crate::by_name::LinksByName;
use crate::links::OwnLink;
use crate::walk::{answer_by_walk, put};
use indexmap::{IndexMap, IndexSet};
use std::alloc::{AllocError, Global};

/// Where a name leads.
#[derive(Clone, Copy)]
pub(crate) enum Onward {
    /// To this name alone.
    To((usize, usize)),
    /// To nothing that is given.
    Nothing,
    /// It is not known that it leads to one alone.
    Apart,
}

/// A step along a line: on to the next name, or the answer.
#[derive(Clone, Copy)]
pub(crate) enum LineStep {
    To((usize, usize)),
    Done(Candidates),
}

/// The modules to which stars lead from one, if that is noted.
#[derive(Drop)]
pub(crate) struct NotedReach {
    start: Option<usize>,
    modules: IndexSet<usize>,
}

impl NotedReach {
    /// Nothing noted. It takes no memory.
    pub(crate) fn new(alloc: Global) -> NotedReach
        ensures { result.start ≡ None }
    {
        NotedReach {
            start: None,
            modules: IndexSet::new(alloc),
        }
    }
}

/// The answer for a name. The names that lead to one another alone on the way to it are put on the line.
pub(crate) fn answer_in_line(
    alloc: Global,
    index: &LinksByName,
    answers: &IndexMap<(usize, usize), Candidates>,
    reach: &mut NotedReach,
    at: (usize, usize),
    line: &mut IndexSet<(usize, usize)>,
) -> Result<Candidates, AllocError>
    requires right { AreAnswersRight index.now answers.now.entries }
    requires noted { IsReachNoted index.now reach.old }
    requires empty { line.old.keys ≡ [] }
    ensures all { IfOk result (AnswersAll index.now at line.new.keys) }
    ensures noted { IsReachNoted index.now reach.new }
{
    let mut end = at;
    for _ in 0..usize::MAX {
        match step_from(alloc, index, answers, reach, end, line)? {
            LineStep::To(next) => end = next,
            LineStep::Done(answer) => return Ok(answer),
        }
    }
    let answer = answer_by_walk(alloc, index, answers, end)?;
    Ok(answer)
}

// One step from a name, which is put on the line. Where it stood there already, the line is a ring.
fn step_from(
    alloc: Global,
    index: &LinksByName,
    answers: &IndexMap<(usize, usize), Candidates>,
    reach: &mut NotedReach,
    at: (usize, usize),
    line: &mut IndexSet<(usize, usize)>,
) -> Result<LineStep, AllocError>
    requires right { AreAnswersRight index.now answers.now.entries }
    requires noted { IsReachNoted index.now reach.old }
    ensures right { IfOk result (TellsStep index.now at) }
    ensures put { OnOk result (AddsMissing line.old.keys (λ other. other ≡ at) line.new.keys) }
    ensures noted { IsReachNoted index.now reach.new }
{
    if !put(line, at)? {
        return Ok(LineStep::Done(answer_by_walk(alloc, index, answers, at)?));
    }
    if let Some(known) = answers.get(&at).copied() {
        return Ok(LineStep::Done(known));
    }
    match next_of(alloc, index, answers, reach, at)? {
        Onward::To(next) => Ok(LineStep::To(next)),
        Onward::Nothing => Ok(LineStep::Done(Candidates::Missing)),
        Onward::Apart => Ok(LineStep::Done(answer_by_walk(alloc, index, answers, at)?)),
    }
}

// Where a name leads.
fn next_of(
    alloc: Global,
    index: &LinksByName,
    answers: &IndexMap<(usize, usize), Candidates>,
    reach: &mut NotedReach,
    at: (usize, usize),
) -> Result<Onward, AllocError>
    requires noted { IsReachNoted index.now reach.old }
    ensures right { IfOk result (LeadsAlone index.now at) }
    ensures noted { IsReachNoted index.now reach.new }
{
    match index.own(at) {
        Some(OwnLink::Leads(next)) => Ok(Onward::To(next)),
        Some(OwnLink::Gives(_)) => Ok(Onward::Apart),
        Some(OwnLink::Nothing) => Ok(Onward::Nothing),
        None => next_by_stars(alloc, index, answers, reach, at),
    }
}

// Where a name leads that has no entry.
fn next_by_stars(
    alloc: Global,
    index: &LinksByName,
    answers: &IndexMap<(usize, usize), Candidates>,
    reach: &mut NotedReach,
    at: (usize, usize),
) -> Result<Onward, AllocError>
    requires none { own_of index.now at ≡ None }
    requires noted { IsReachNoted index.now reach.old }
    ensures right { IfOk result (LeadsAlone index.now at) }
    ensures noted { IsReachNoted index.now reach.new }
{
    let (module, name) = at;
    if name == index.default() {
        return Ok(Onward::Nothing);
    }
    if let Some(star) = only_star(index, module) {
        if answers.contains_key(&(star, name)) || index.own((star, name)).is_some() {
            return Ok(Onward::To((star, name)));
        }
    }
    note_reach(alloc, index, reach, module)?;
    Ok(match index.holder(&reach.modules, name) {
        Candidates::Missing => Onward::Nothing,
        Candidates::One(holder) => Onward::To((holder, name)),
        Candidates::Two(_, _) => Onward::Apart,
    })
}

// The module that a module stars, where it is one alone.
fn only_star(index: &LinksByName, number: usize) -> Option<usize>
    ensures { IfSome result (λ star. stars_of index.now number ≡ star ∷ []) }
{
    match index.stars(number) {
        [star] => Some(*star),
        _ => None,
    }
}

// Notes the modules to which stars lead from one.
fn note_reach(
    alloc: Global,
    index: &LinksByName,
    reach: &mut NotedReach,
    start: usize,
) -> Result<(), AllocError>
    requires { IsReachNoted index.now reach.old }
    ensures right { OnOk result (HasReach index.now start reach.new.modules.keys) }
    ensures noted { IsReachNoted index.now reach.new }
{
    let known = reach.start;
    if known == Some(start) {
        return Ok(());
    }
    reach.start = None;
    lead_from(alloc, index, &mut reach.modules, known, start)?;
    reach.start = Some(start);
    Ok(())
}

// Makes those to which stars lead from a module of those to which they lead from the one that is known: where it stars
// that one, only those are looked for that are missing.
fn lead_from(
    alloc: Global,
    index: &LinksByName,
    modules: &mut IndexSet<usize>,
    known: Option<usize>,
    start: usize,
) -> Result<(), AllocError>
    requires { (k : ℕ) → known ≡ Some k → HasReach index.now k modules.old.keys }
    ensures { OnOk result (HasReach index.now start modules.new.keys) }
{
    if stars_known(index, start, known) {
        index.extend_reach(modules, start)?;
        return Ok(());
    }
    *modules = index.reach(alloc, start)?;
    Ok(())
}

// Whether a module stars the one that is known.
fn stars_known(index: &LinksByName, number: usize, known: Option<usize>) -> bool
    ensures { IsTrue result → (k : ℕ) × (known ≡ Some k) × Starring index.now number k }
{
    match known {
        Some(known) => index.stars(number).contains(&known),
        None => false,
    }
}

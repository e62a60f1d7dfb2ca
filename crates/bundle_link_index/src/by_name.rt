//! Links, with the modules that have an entry of each name, and the modules to which stars lead.

ghost use Rattle.std.specs.Prelude.{◌≡◌, ◌<◌, IfOk, OnOk, Some, Contains, length, slice_get};
ghost use Rattle.bundle_link_index.specs.Graph.{graph_of, own_of, stars_of};
ghost use Rattle.bundle_link_index.specs.Given.{AddsMissing};
ghost use Rattle.bundle_link_index.specs.Reached.{AreAllHeld, AreStarsWithin, ExtendsReach, IsReach, TellsAmong, TellsHolder, names_held, put_name};

use crate::answer::Candidates;
use crate::links::{Links, OwnLink};
use indexmap::{IndexMap, IndexSet};
use std::alloc::{AllocError, Global};
use std::marker::Model;

/// Links, with the modules that have an entry of each name.
#[derive(Drop)]
pub(crate) struct LinksByName {
    links: Links,
    holders: IndexMap<usize, Vec<usize>>,
}

impl Model for LinksByName {
    ghost use Rattle.bundle_link_index.specs.Graph.{Graph, graph_of};
    ghost use Rattle.bundle_link_index.specs.Reached.{AreAllHeld, names_held};

    ghost Value = { Graph };

    ghost view = { λ i. graph_of i.links };

    ghost invariant = { λ i. AreAllHeld (graph_of i.links) (names_held i.holders) };
}

impl LinksByName {
    /// These links, with the modules that have an entry of each name.
    pub(crate) fn new(alloc: Global, links: Links) -> Result<LinksByName, AllocError>
        ensures { IfOk result (λ index. index ≡ graph_of links) }
    {
        let holders = holders_in(alloc, &links)?;
        Ok(LinksByName { links, holders })
    }

    /// What the own entry of a name says, if there is one.
    pub(crate) fn own(&self, at: (usize, usize)) -> Option<OwnLink>
        ensures { result ≡ own_of self.now at }
    {
        self.links.own(at)
    }

    /// The modules that a module stars.
    pub(crate) fn stars(&self, number: usize) -> &[usize]
        ensures { result.now ≡ stars_of self.now number }
    {
        self.links.stars(number)
    }

    /// The name that no star gives.
    pub(crate) fn default(&self) -> usize
        ensures { result ≡ self.now.default }
    {
        self.links.default
    }

    /// The modules to which stars lead from one, which stands first.
    pub(crate) fn reach(&self, alloc: Global, start: usize) -> Result<IndexSet<usize>, AllocError>
        ensures { IfOk result (λ reach. IsReach self.now start reach.keys) }
    {
        let mut reach = IndexSet::new(alloc);
        self.extend_reach(&mut reach, start)?;
        Ok(reach)
    }

    /// Adds the modules to which stars lead from one, itself among them, to modules with all that they star.
    pub(crate) fn extend_reach(
        &self,
        reach: &mut IndexSet<usize>,
        start: usize,
    ) -> Result<(), AllocError>
        requires { AreStarsWithin self.now reach.old.keys }
        ensures { OnOk result (ExtendsReach self.now start reach.old.keys reach.new.keys) }
    {
        let mut done = reach.len();
        put_module(reach, start)?;
        while done < reach.len() {
            let next = number_at(&*reach, done);
            put_modules(self.stars(next), reach)?;
            done += 1;
        }
        Ok(())
    }

    /// Which of the modules that are reached have an entry of a name: none, one, or more, of which two are
    /// told.
    pub(crate) fn holder(&self, reach: &IndexSet<usize>, name: usize) -> Candidates
        ensures { TellsHolder self.now reach.now.keys name result }
    {
        match self.holders.get(&name) {
            Some(holders) => reached_among(holders.as_slice(), reach),
            None => Candidates::Missing,
        }
    }
}

// The modules that have an own entry of each name.
fn holders_in(alloc: Global, links: &Links) -> Result<IndexMap<usize, Vec<usize>>, AllocError>
    ensures { IfOk result (λ holders. AreAllHeld (graph_of links.now) (names_held holders)) }
{
    let mut holders = IndexMap::new(alloc);
    for at in links.spots() {
        add_holder(alloc, &mut holders, at.1, at.0)?;
    }
    Ok(holders)
}

// Notes that a module has an own entry of a name.
fn add_holder(
    alloc: Global,
    holders: &mut IndexMap<usize, Vec<usize>>,
    name: usize,
    number: usize,
) -> Result<(), AllocError>
    ensures { OnOk result (names_held holders.new ≡ put_name (names_held holders.old) name number) }
{
    if let Some(modules) = holders.get_mut(&name) {
        modules.push(number)?;
        return Ok(());
    }
    let mut modules = Vec::new(alloc);
    modules.push(number)?;
    holders.insert(name, modules)?;
    Ok(())
}

// Which of these modules are reached: none, one, or more, of which two are told.
fn reached_among(modules: &[usize], reach: &IndexSet<usize>) -> Candidates
    ensures { TellsAmong modules.now reach.now.keys result }
{
    let mut answer = Candidates::Missing;
    for number in modules {
        if reach.contains(number) {
            answer = answer.with(*number);
            if answer.is_two() {
                return answer;
            }
        }
    }
    answer
}

// The module at a place of those reached.
fn number_at(reach: &IndexSet<usize>, place: usize) -> usize
    requires { place < length reach.now.keys }
    ensures { slice_get reach.now.keys place ≡ Some result }
{
    reach.as_slice()[place]
}

// Notes that these modules are reached.
fn put_modules(modules: &[usize], reach: &mut IndexSet<usize>) -> Result<(), AllocError>
    ensures { OnOk result (AddsMissing reach.old.keys (Contains modules.now) reach.new.keys) }
{
    for number in modules {
        put_module(reach, *number)?;
    }
    Ok(())
}

// Notes that a module is reached.
fn put_module(reach: &mut IndexSet<usize>, number: usize) -> Result<(), AllocError>
    ensures { OnOk result (AddsMissing reach.old.keys (λ other. other ≡ number) reach.new.keys) }
{
    reach.insert_full(number)?;
    Ok(())
}

//! What modules give for names: the search over the numbers of what their tables say.

ghost use Rattle.std.specs.Prelude.{◌≡◌, ◌↔◌, ◌++◌, ◌∷◌, [], ℕ, IfOk, IsTrue, OnOk, List, map, option_map};
ghost use Rattle.bundle_rules.specs.Entries.{ImportEntry};
ghost use Rattle.bundle_rules.specs.Program.{Program};
ghost use Rattle.bundle_link_tables.specs.Exported.{Finds};
ghost use Rattle.bundle_rules.specs.Faults.{StarsExternal};
ghost use Rattle.bundle_link_index.specs.Graph.{Graph, NameSpot, graph_of};
ghost use Rattle.bundle_link_index.specs.Given.{Given as IsGiven, IsCandidates, IsIn};
ghost use Rattle.bundle_link_index.specs.Outside.{IsIndexOf};
ghost use Rattle.bundle_link_index.specs.Leads.{lead_of};
ghost use Rattle.bundle_link_index.specs.Numbered.{NotedEntry, HoldsAt, IsEmpty, IsGraphNumbered, index_names, values_of, note, notes_of, starred};
ghost use Rattle.bundle_link_index.specs.Programs.{AreModulesKnown};
ghost use Rattle.bundle_link_index.specs.Linked.{IsLinkGraph, StarReaches};
ghost use Rattle.bundle_link_index.specs.Says.{TellsAnswer, answer_says, linked_of, target_of};

use crate::kinds::Kinds;
use crate::numbers::LinkNumbers;
use crate::own::{Asked, GivenTarget, locals_of, own_entry};
use crate::stars::{outside_links, starred_modules};
use crate::target::TargetRef;
use crate::{Candidates, Links, Search};
use bundle_link_tables::{Export, ImportRef, Tables};
use bundle_scope_denote::texts::TextMap;
use indexmap::IndexSet;
use std::alloc::{AllocError, Global};

/// The name that no star gives.
pub const DEFAULT: &str = "default";

/// What is given for a name: nothing, one, or more, of which two are kept.
#[derive(Clone, Copy)]
pub enum Answer<'a> {
    None,
    One(GivenTarget<'a>),
    Two(GivenTarget<'a>, GivenTarget<'a>),
}

impl<'a> Answer<'a> {
    /// The target to which the name is linked.
    pub fn linked(self) -> Option<TargetRef<'a>>
        ensures { option_map target_of result ≡ linked_of (answer_says self.entry) }
    {
        match self {
            Answer::One(given) => Some(given.target),
            Answer::None | Answer::Two(_, _) => None,
        }
    }
}

/// What own entries give, and what is starred.
#[derive(Drop)]
pub struct Index<'a> {
    numbers: LinkNumbers<'a>,
    search: Search,
    /// The search for the modules that star an external over a chain.
    outside: Search,
}

impl<'a> Index<'a> {
    /// Notes what the entries of modules give.
    pub fn new(alloc: Global, kinds: &Kinds<'_, '_, 'a>) -> Result<Index<'a>, AllocError>
        ensures { IfOk result (λ index.
            (p : Program) → AreModulesKnown p kinds.now → IsIndexOf p index) }
    {
        let named = NamedIndex::new(alloc, kinds)?;
        let outside = outside_of(alloc, kinds)?;
        Ok(joined(named, outside))
    }

    /// What is given for a name, which is noted.
    pub fn answer(&mut self, alloc: Global, asked: Asked<'a>) -> Result<Answer<'a>, AllocError>
        ensures right { IfOk result (λ answer. (p : Program) → IsIndexOf p self.old →
            TellsAnswer p asked.entry.which asked.entry.name.now (answer_says answer)) }
        ensures same { self.new ≡ self.old }
    {
        match self.numbers.spot(asked.which, asked.name) {
            Some(at) => {
                let found = self.search.answer(alloc, at)?;
                Ok(self.numbers.answer(found))
            }
            None => Ok(Answer::None),
        }
    }

    /// The same, which is not noted.
    pub fn found(&self, alloc: Global, number: usize, name: &str) -> Result<Answer<'a>, AllocError>
        ensures { IfOk result (λ answer. (p : Program) → IsIndexOf p self.now →
            TellsAnswer p number name.now (answer_says answer)) }
    {
        match self.numbers.spot(number, name) {
            Some(at) => {
                let found = self.search.found(alloc, at)?;
                Ok(self.numbers.answer(found))
            }
            None => Ok(Answer::None),
        }
    }

    /// The ECMAScript modules that stars lead to from a module, itself first.
    pub fn reach(&self, alloc: Global, number: usize) -> Result<IndexSet<usize>, AllocError>
        ensures { IfOk result (λ reach. (p : Program) → IsIndexOf p self.now →
            (d : ℕ) → IsIn reach.keys d ↔ StarReaches p number d) }
    {
        let reach = self.search.reach(alloc, number)?;
        Ok(reach)
    }

    /// Whether a module stars an external, or a module that does so, over any chain. It is noted.
    pub fn has_external_star(&mut self, alloc: Global, number: usize) -> Result<bool, AllocError>
        ensures right { IfOk result (λ starred. (p : Program) → IsIndexOf p self.old →
            IsTrue starred ↔ StarsExternal p number) }
        ensures same { self.new ≡ self.old }
    {
        let found = self.outside.answer(alloc, (number, 0))?;
        Ok(is_given(found))
    }

    /// The same, which is not noted.
    pub fn finds_external_star(&self, alloc: Global, number: usize) -> Result<bool, AllocError>
        ensures { IfOk result (λ starred. (p : Program) → IsIndexOf p self.now →
            IsTrue starred ↔ StarsExternal p number) }
    {
        let found = self.outside.found(alloc, (number, 0))?;
        Ok(is_given(found))
    }
}

// Numbers of names and of what is given, with the search over them.
#[derive(Drop)]
struct NamedIndex<'a> {
    numbers: LinkNumbers<'a>,
    search: Search,
}

impl<'a> NamedIndex<'a> {
    // What the tables of modules say.
    fn new(alloc: Global, kinds: &Kinds<'_, '_, 'a>) -> Result<NamedIndex<'a>, AllocError>
        ensures { IfOk result (λ named. (p : Program) → AreModulesKnown p kinds.now →
            IsLinkGraph p (index_names named.numbers) (values_of named.numbers) named.search) }
    {
        let mut numbers = LinkNumbers::new(alloc);
        let search = search_of(alloc, kinds, &mut numbers)?;
        Ok(NamedIndex { numbers, search })
    }
}

// The search over the numbers of what the tables of modules say.
fn search_of<'a>(
    alloc: Global,
    kinds: &Kinds<'_, '_, 'a>,
    numbers: &mut LinkNumbers<'a>,
) -> Result<Search, AllocError>
    ensures { IsEmpty numbers.old →
        IfOk result (λ search.
        IsGraphNumbered kinds.now (index_names numbers.new) (values_of numbers.new) search) }
{
    let links = links_of(alloc, kinds, numbers)?;
    Search::new(alloc, links)
}

// The search for the modules that star an external over a chain.
fn outside_of<'a>(alloc: Global, kinds: &Kinds<'_, '_, 'a>) -> Result<Search, AllocError>
    ensures { IfOk result (λ outside. (p : Program) → AreModulesKnown p kinds.now → (m : ℕ) →
        ((v : ℕ) × IsGiven outside (m, 0) v) ↔ StarsExternal p m) }
{
    let links = outside_links(alloc, kinds)?;
    Search::new(alloc, links)
}

// The index of both.
fn joined<'a>(named: NamedIndex<'a>, outside: Search) -> Index<'a>
    ensures numbers { result.numbers ≡ named.entry.numbers }
    ensures search { result.search ≡ named.entry.search }
    ensures outside { result.outside ≡ outside }
{
    Index {
        numbers: named.numbers,
        search: named.search,
        outside,
    }
}

// Whether anything is given.
fn is_given(answer: Candidates) -> bool
    ensures { (g : Graph) (at : NameSpot) →
        IsCandidates g at answer → IsTrue result ↔ ((v : ℕ) × IsGiven g at v) }
{
    match answer {
        Candidates::Missing => false,
        Candidates::One(_) => true,
        Candidates::Two(_, _) => true,
    }
}

// The entries and stars of modules, by numbers.
fn links_of<'a>(
    alloc: Global,
    kinds: &Kinds<'_, '_, 'a>,
    numbers: &mut LinkNumbers<'a>,
) -> Result<Links, AllocError>
    ensures { IsEmpty numbers.old →
        IfOk result (λ links.
        IsGraphNumbered kinds.now (index_names numbers.new) (values_of numbers.new) (graph_of links)) }
{
    let mut links = Links::new(alloc, numbers.of_name(DEFAULT)?);
    for (number, module) in kinds.modules.iter().enumerate() {
        add_module(alloc, kinds, numbers, &mut links, number, module.tables)?;
    }
    Ok(links)
}

// Notes the entries and stars of the next module.
fn add_module<'a>(
    alloc: Global,
    kinds: &Kinds<'_, '_, 'a>,
    numbers: &mut LinkNumbers<'a>,
    links: &mut Links,
    number: usize,
    tables: &Tables<'a>,
) -> Result<(), AllocError>
    ensures { (noted : List NotedEntry) (stars : List (List ℕ)) →
        HoldsAt noted stars numbers.old links.old →
        OnOk result
        (HoldsAt (noted ++ notes_of (lead_of kinds.now number) number tables.now)
        (stars ++ starred (lead_of kinds.now number) tables.now.stars.items ∷ []) numbers.new
        links.new) }
{
    links.add_module(starred_modules(alloc, kinds, number, tables)?)?;
    let locals = locals_of(alloc, tables)?;
    add_entries(kinds, numbers, links, number, &tables.exports, &locals)?;
    Ok(())
}

// Notes the entries of a module.
fn add_entries<'a>(
    kinds: &Kinds<'_, '_, 'a>,
    numbers: &mut LinkNumbers<'a>,
    links: &mut Links,
    number: usize,
    exports: &[Export<'a>],
    locals: &TextMap<&'a str, ImportRef<'a>>,
) -> Result<(), AllocError>
    ensures { (imports : List ImportEntry) →
        Finds locals.now imports →
        (noted : List NotedEntry) (stars : List (List ℕ)) →
        HoldsAt noted stars numbers.old links.old →
        OnOk result
        (HoldsAt (noted ++ map (note (lead_of kinds.now number) number imports) exports.now) stars
        numbers.new links.new) }
{
    for export in exports {
        add_entry(kinds, numbers, links, number, *export, locals)?;
    }
    Ok(())
}

// Notes an entry of a module.
fn add_entry<'a>(
    kinds: &Kinds<'_, '_, 'a>,
    numbers: &mut LinkNumbers<'a>,
    links: &mut Links,
    number: usize,
    export: Export<'a>,
    locals: &TextMap<&'a str, ImportRef<'a>>,
) -> Result<(), AllocError>
    ensures { (imports : List ImportEntry) →
        Finds locals.now imports →
        (noted : List NotedEntry) (stars : List (List ℕ)) →
        HoldsAt noted stars numbers.old links.old →
        OnOk result
        (HoldsAt (noted ++ note (lead_of kinds.now number) number imports export.entry ∷ []) stars
        numbers.new links.new) }
{
    let name = numbers.of_name(export.name)?;
    let own = numbers.of_own(own_entry(kinds, number, locals, export))?;
    links.add_own((number, name), own)?;
    Ok(())
}

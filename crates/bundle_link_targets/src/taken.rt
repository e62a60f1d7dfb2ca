//! What is taken of externals and of CommonJS modules.

ghost use Rattle.std.specs.Prelude.{◌≡◌, ◌++◌, [], Contains, IfOk, List, OnOk, filter, filter_map, map, slice_get, ℕ, Option};
ghost use Rattle.std.specs.List.{All, cons_option, flat_map};
ghost use Rattle.bundle_rules.specs.Bundle.{AreNames};
ghost use Rattle.bundle_rules.specs.Entries.{Named};
ghost use Rattle.bundle_rules.specs.Nodes.{Text, each_once, has_text, numbers_once};
ghost use Rattle.bundle_rules.specs.Linking.{HasExternalStar};
ghost use Rattle.bundle_rules.specs.Program.{Program};
ghost use Rattle.bundle_link_tables.specs.Sources.{HasTexts};
ghost use Rattle.bundle_link_tables.specs.TablesOf.{taken_of};
ghost use Rattle.bundle_link_index.specs.Given.{IsIn};
ghost use Rattle.bundle_link_index.specs.Handed.{external_one};
ghost use Rattle.bundle_link_index.specs.Leads.{lead_of, lead_told};
ghost use Rattle.bundle_link_index.specs.Outside.{IsIndexOf};
ghost use Rattle.bundle_link_index.specs.Programs.{AreModulesKnown};
ghost use Rattle.bundle_link_index.specs.Says.{target_of};
ghost use Rattle.bundle_link_targets.specs.Found.{targets_in};
ghost use Rattle.bundle_link_targets.specs.Lists.{list_in};
ghost use Rattle.bundle_link_targets.specs.Names.{texts_in};
ghost use Rattle.bundle_link_targets.specs.Taken.{AreAllNames, AreLoadsOf, HoldNames, IsExternal, IsLoad, IsNameFrom, PicksThose, given_to_giver, module_loaded_by, loads_in, names_for, outside_in, outside_of, specifier_of, starred_as, starred_in, starred_one, target_from_giver};
ghost use Rattle.bundle_link_targets.specs.declared.taken.Giver.{Giver as GiverType};
ghost use Rattle.bundle_rules.specs.Linking.{Target as TargetTerm};
ghost use Rattle.std.specs.Borrow.{Bor};

use crate::lists::{items_of, no_lists, put_at};
use crate::target::{External, Loaded, TargetRef};
use bundle_link_index::{Index, Kinds, Lead};
use bundle_link_tables::{Source, Taken};
use bundle_scope_denote::texts::{TextMap, TextSet};
use indexmap::IndexSet;
use std::alloc::{AllocError, Global};

/// The externals that listed ECMAScript modules ask for, with what of them is meant.
pub fn externals_of<'a>(
    alloc: Global,
    kinds: &Kinds<'_, '_, 'a>,
    meant: &TextSet<TargetRef<'a>>,
) -> Result<Vec<External<'a>>, AllocError>
    ensures specifiers { IfOk result (λ found.
        map specifier_of found.items
        ≡ each_once (outside_of kinds.now.modules.now kinds.now.list.now)) }
    ensures taken { IfOk result (λ found. All (IsExternal (targets_in meant.now)) found.items) }
{
    let specifiers = specifiers_of(alloc, kinds)?;
    let names = names_by(alloc, meant)?;
    let mut externals = Vec::new(alloc);
    let all = specifiers.as_slice();
    for specifier in all {
        externals.push(external_of(alloc, *specifier, meant, &names)?)?;
    }
    Ok(externals)
}

// The externals that listed modules ask for.
fn specifiers_of<'a>(
    alloc: Global,
    kinds: &Kinds<'_, '_, 'a>,
) -> Result<TextSet<&'a str>, AllocError>
    ensures { IfOk result (λ set.
        texts_in set ≡ each_once (outside_of kinds.now.modules.now kinds.now.list.now)) }
{
    let mut specifiers = TextSet::new(alloc);
    for which in kinds.list {
        add_specifiers_of(kinds, *which, &mut specifiers)?;
    }
    Ok(specifiers)
}

// Adds those that a module asks for, if it is there.
fn add_specifiers_of<'a>(
    kinds: &Kinds<'_, '_, 'a>,
    which: usize,
    specifiers: &mut TextSet<&'a str>,
) -> Result<(), AllocError>
    ensures { (before : List Text) →
        texts_in specifiers.old ≡ each_once before →
        OnOk result
        (texts_in specifiers.new
        ≡ each_once (before ++ outside_in (slice_get kinds.now.modules.now which))) }
{
    match kinds.tables(which) {
        Some(tables) => add_specifiers(&tables.sources, specifiers),
        None => Ok(()),
    }
}

// Adds those of sources.
fn add_specifiers<'a>(
    sources: &[Source<'a>],
    specifiers: &mut TextSet<&'a str>,
) -> Result<(), AllocError>
    ensures { (before : List Text) →
        texts_in specifiers.old ≡ each_once before →
        OnOk result
        (texts_in specifiers.new ≡ each_once (before ++ flat_map external_one sources.now)) }
{
    for source in sources {
        add_specifier(*source, specifiers)?;
    }
    Ok(())
}

// Adds that of a source, if it is external.
fn add_specifier<'a>(
    source: Source<'a>,
    specifiers: &mut TextSet<&'a str>,
) -> Result<(), AllocError>
    ensures { (before : List Text) → texts_in specifiers.old ≡ each_once before →
        OnOk result (texts_in specifiers.new ≡ each_once (before ++ external_one source.entry)) }
{
    if source.is_external {
        specifiers.insert(source.specifier)?;
        return Ok(());
    }
    Ok(())
}

// An external with what of it is meant.
fn external_of<'a>(
    alloc: Global,
    specifier: &'a str,
    meant: &TextSet<TargetRef<'a>>,
    names: &TextMap<Giver<'a>, Vec<&'a str>>,
) -> Result<External<'a>, AllocError>
    ensures specifier { IfOk result (λ external. specifier_of external ≡ specifier.now) }
    ensures taken { AreAllNames (targets_in meant.now) names.now →
        IfOk result (λ external. IsExternal (targets_in meant.now) external) }
{
    let giver = Giver::External { specifier };
    let names = names_from(alloc, giver, names)?;
    let whole = meant.contains(&target_from(giver, Taken::Whole));
    Ok(External {
        specifier,
        names,
        whole,
    })
}

/// From where something is taken: of an external, or by a module of a CommonJS module.
#[derive(Clone, Copy, PartialEq, Eq, Hash, PartialOrd, Ord)]
pub enum Giver<'a> {
    External { specifier: &'a str },
    CommonJs { taker: usize, which: usize },
}

// The target that this of it is.
fn target_from<'a>(giver: Giver<'a>, taken: Taken<'a>) -> TargetRef<'a>
    ensures { target_of result ≡ target_from_giver giver.entry (taken_of taken.entry) }
{
    match giver {
        Giver::External { specifier } => TargetRef::External { specifier, taken },
        Giver::CommonJs { taker, which } => TargetRef::CommonJs {
            taker,
            which,
            taken,
        },
    }
}

// The names that are meant, by what gives them.
fn names_by<'a>(
    alloc: Global,
    meant: &TextSet<TargetRef<'a>>,
) -> Result<TextMap<Giver<'a>, Vec<&'a str>>, AllocError>
    ensures { IfOk result (λ names. AreAllNames (targets_in meant.now) names) }
{
    let mut names = TextMap::new(alloc);
    let all = meant.as_slice();
    for target in all {
        add_target(alloc, &mut names, *target)?;
    }
    Ok(names)
}

// Adds the name that a target is, if it is one.
fn add_target<'a>(
    alloc: Global,
    names: &mut TextMap<Giver<'a>, Vec<&'a str>>,
    target: TargetRef<'a>,
) -> Result<(), AllocError>
    ensures { OnOk result ((g : GiverType) → (found : Option (Bor Text))
        × IsNameFrom g (target_of target.entry) found
        × (names_for names.new g ≡ names_for names.old g ++ cons_option found [])) }
{
    match target {
        TargetRef::External { specifier, taken } => {
            add_taken(alloc, names, Giver::External { specifier }, taken)
        }
        TargetRef::CommonJs {
            taker,
            which,
            taken,
        } => add_taken(alloc, names, Giver::CommonJs { taker, which }, taken),
        TargetRef::Declared { .. } => Ok(()),
        TargetRef::Namespace { .. } => Ok(()),
    }
}
// Adds a name that is taken; the whole is none.
fn add_taken<'a>(
    alloc: Global,
    names: &mut TextMap<Giver<'a>, Vec<&'a str>>,
    giver: Giver<'a>,
    taken: Taken<'a>,
) -> Result<(), AllocError>
    ensures { OnOk result ((g : GiverType) → (found : Option (Bor Text))
        × IsNameFrom g (target_from_giver giver.entry (taken_of taken.entry)) found
        × (names_for names.new g ≡ names_for names.old g ++ cons_option found [])) }
{
    match taken {
        Taken::Named(name) => add_name(alloc, names, giver, name),
        Taken::Whole => Ok(()),
    }
}

// Adds a name to those of what gives it.
fn add_name<'a>(
    alloc: Global,
    names: &mut TextMap<Giver<'a>, Vec<&'a str>>,
    giver: Giver<'a>,
    name: &'a str,
) -> Result<(), AllocError>
    ensures { OnOk result
        ((g : GiverType) →
        names_for names.new g ≡ names_for names.old g ++ given_to_giver giver.entry g name.entry) }
{
    names.push(alloc, giver, name)
}

// The names of what gives them, ascending.
fn names_from<'a>(
    alloc: Global,
    giver: Giver<'a>,
    names: &TextMap<Giver<'a>, Vec<&'a str>>,
) -> Result<Vec<&'a str>, AllocError>
    ensures { (targets : List TargetTerm) →
        HoldNames giver.entry targets (names_for names.now giver.entry) →
        IfOk result (λ sorted.
        AreNames (λ x. IsIn targets (target_from_giver giver.entry (Named x)))
        (map (λ name. name.now) sorted.items)) }
{
    let mut sorted = Vec::new(alloc);
    let own = items_of(names.get(&giver));
    for name in own {
        sorted.push(*name)?;
    }
    sorted.sort_unstable();
    Ok(sorted)
}

/// For each module the CommonJS modules that it imports or re-exports, with what of them is meant there;
/// none for modules that are not listed.
pub fn loads_of<'a>(
    alloc: Global,
    kinds: &Kinds<'_, '_, 'a>,
    meant: &TextSet<TargetRef<'a>>,
) -> Result<Vec<Vec<Loaded<'a>>>, AllocError>
    ensures { IfOk result (λ lists. (m : ℕ) → Contains kinds.now.list.now m →
        AreLoadsOf kinds.now (targets_in meant.now) m (list_in lists.items m)) }
{
    let names = names_by(alloc, meant)?;
    let mut loads = no_lists(alloc, kinds.modules.len())?;
    for taker in kinds.list {
        let own = loads_by(alloc, kinds, *taker, meant, &names)?;
        put_at(&mut loads, *taker, own);
    }
    Ok(loads)
}

// The CommonJS modules that a module imports or re-exports, with what of them is meant there.
fn loads_by<'a>(
    alloc: Global,
    kinds: &Kinds<'_, '_, 'a>,
    taker: usize,
    meant: &TextSet<TargetRef<'a>>,
    names: &TextMap<Giver<'a>, Vec<&'a str>>,
) -> Result<Vec<Loaded<'a>>, AllocError>
    ensures { AreAllNames (targets_in meant.now) names.now →
        IfOk result (λ loads. AreLoadsOf kinds.now (targets_in meant.now) taker loads.items) }
{
    let modules = loaded_by(alloc, kinds, taker)?;
    let mut loads = Vec::new(alloc);
    let all = modules.as_slice();
    for which in all {
        loads.push(loaded_of(alloc, taker, *which, meant, names)?)?;
    }
    Ok(loads)
}

// The CommonJS modules that a module imports or re-exports.
fn loaded_by(alloc: Global, kinds: &Kinds, taker: usize) -> Result<IndexSet<usize>, AllocError>
    ensures { IfOk result (λ set. set.keys ≡ numbers_once (loads_in kinds.now taker)) }
{
    let mut modules = IndexSet::new(alloc);
    match kinds.tables(taker) {
        Some(tables) => add_loads(kinds, taker, &tables.sources, &mut modules)?,
        None => {}
    }
    Ok(modules)
}

// Adds those to which sources lead.
fn add_loads<'a>(
    kinds: &Kinds<'_, '_, 'a>,
    taker: usize,
    sources: &[Source<'a>],
    modules: &mut IndexSet<usize>,
) -> Result<(), AllocError>
    ensures { (before : List ℕ) →
        modules.old.keys ≡ numbers_once before →
        OnOk result
        (modules.new.keys
        ≡ numbers_once (before ++ filter_map (module_loaded_by kinds.now taker) sources.now)) }
{
    for source in sources {
        add_number(load_of(&*kinds, taker, *source), modules)?;
    }
    Ok(())
}

// The CommonJS module to which a source leads.
fn load_of<'a>(kinds: &Kinds<'_, '_, 'a>, taker: usize, source: Source<'a>) -> Option<usize>
    ensures { result ≡ module_loaded_by kinds.now taker source.entry }
{
    if source.is_external {
        return None;
    }
    match kinds.required(taker, source.specifier) {
        Some(module) => {
            if kinds.is_common_js(module) {
                Some(module)
            } else {
                None
            }
        }
        None => None,
    }
}

// Adds a number, if there is one.
fn add_number(number: Option<usize>, numbers: &mut IndexSet<usize>) -> Result<(), AllocError>
    ensures { (before : List ℕ) → numbers.old.keys ≡ numbers_once before →
        OnOk result (numbers.new.keys ≡ numbers_once (before ++ cons_option number [])) }
{
    match number {
        Some(number) => {
            numbers.insert(number)?;
            Ok(())
        }
        None => Ok(()),
    }
}

// A CommonJS module with what of it is meant in a module.
fn loaded_of<'a>(
    alloc: Global,
    taker: usize,
    which: usize,
    meant: &TextSet<TargetRef<'a>>,
    names: &TextMap<Giver<'a>, Vec<&'a str>>,
) -> Result<Loaded<'a>, AllocError>
    ensures number { IfOk result (λ loaded. loaded.which ≡ which) }
    ensures taken { AreAllNames (targets_in meant.now) names.now →
        IfOk result (λ loaded. IsLoad (targets_in meant.now) taker loaded) }
{
    let giver = Giver::CommonJs { taker, which };
    let names = names_from(alloc, giver, names)?;
    let whole = meant.contains(&target_from(giver, Taken::Whole));
    Ok(Loaded {
        which,
        names,
        whole,
    })
}

/// The externals that the entry stars, or that stand at the end of a chain of stars from it, in the order
/// of these.
pub fn external_stars_of<'a>(
    alloc: Global,
    kinds: &Kinds<'_, '_, 'a>,
    index: &Index<'a>,
    externals: &[External<'a>],
) -> Result<Vec<&'a str>, AllocError>
    ensures { IfOk result (λ stars.
        (p : Program) →
        IsIndexOf p index.now →
        AreModulesKnown p kinds.now →
        PicksThose (HasExternalStar p p.entry) (map specifier_of externals.now)
        (map (λ star. star.now) stars.items)) }
{
    let reach = index.reach(alloc, kinds.entry)?;
    let starred = starred_by(alloc, kinds, &reach)?;
    let stars = starred_among(alloc, externals, &starred)?;
    Ok(stars)
}

// The externals that these modules star.
fn starred_by<'a>(
    alloc: Global,
    kinds: &Kinds<'_, '_, 'a>,
    modules: &IndexSet<usize>,
) -> Result<TextSet<&'a str>, AllocError>
    ensures { IfOk result (λ set.
        HasTexts set (flat_map (starred_in kinds.now) modules.now.keys)) }
{
    let mut starred = TextSet::new(alloc);
    let all = modules.as_slice();
    for which in all {
        add_starred_of(kinds, *which, &mut starred)?;
    }
    Ok(starred)
}

// Adds those that a module stars, if it is there.
fn add_starred_of<'a>(
    kinds: &Kinds<'_, '_, 'a>,
    which: usize,
    starred: &mut TextSet<&'a str>,
) -> Result<(), AllocError>
    ensures { (before : List Text) → HasTexts starred.old before →
        OnOk result (HasTexts starred.new (before ++ starred_in kinds.now which)) }
{
    match kinds.tables(which) {
        Some(tables) => add_starred(kinds, which, &tables.stars, starred),
        None => Ok(()),
    }
}

// Adds those of stars.
fn add_starred<'a>(
    kinds: &Kinds<'_, '_, 'a>,
    which: usize,
    stars: &[&'a str],
    starred: &mut TextSet<&'a str>,
) -> Result<(), AllocError>
    ensures { (before : List Text) →
        HasTexts starred.old before →
        OnOk result
        (HasTexts starred.new
        (before ++ flat_map (starred_one (lead_of kinds.now which)) stars.now)) }
{
    for star in stars {
        add_star(kinds.lead(which, *star), *star, starred)?;
    }
    Ok(())
}

// Adds that of a star, if it leads to an external.
fn add_star<'a>(lead: Lead, star: &'a str, starred: &mut TextSet<&'a str>) -> Result<(), AllocError>
    ensures { (before : List Text) → HasTexts starred.old before →
        OnOk result (HasTexts starred.new (before ++ starred_as (lead_told lead) star.now)) }
{
    match lead {
        Lead::External => {
            starred.insert(star)?;
            Ok(())
        }
        Lead::Module(_) => Ok(()),
        Lead::CommonJs(_) => Ok(()),
        Lead::Nowhere => Ok(()),
    }
}

// Of these externals those that are starred.
fn starred_among<'a>(
    alloc: Global,
    externals: &[External<'a>],
    starred: &TextSet<&'a str>,
) -> Result<Vec<&'a str>, AllocError>
    ensures { IfOk result (λ stars.
        (texts : List Text) →
        HasTexts starred.now texts →
        map (λ star. star.now) stars.items
        ≡ filter (λ s. has_text s texts) (map specifier_of externals.now)) }
{
    let mut ordered = Vec::new(alloc);
    for external in externals {
        let specifier = external.specifier;
        if starred.contains(&specifier) {
            ordered.push(specifier)?;
        }
    }
    Ok(ordered)
}

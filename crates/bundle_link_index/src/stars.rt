//! What modules star.

ghost use Rattle.std.specs.Prelude.{◌≡◌, ◌++◌, ◌∷◌, [], IfOk, List, OnOk, ℕ, Bool, length};
ghost use Rattle.std.specs.List.{cons_option};
ghost use Rattle.bundle_link_index.specs.Graph.{graph_of};
ghost use Rattle.bundle_link_index.specs.Leads.{lead_of, lead_told};
ghost use Rattle.bundle_link_index.specs.Numbered.{module_in, starred};
ghost use Rattle.bundle_link_index.specs.Outside as outside;
ghost use Rattle.bundle_link_index.specs.Outside.{IsOutsideGraph, IsOutsideOf};

use crate::kinds::{Kinds, Lead};
use crate::{Links, OwnLink};
use bundle_link_tables::Tables;
use std::alloc::{AllocError, Global};

/// The ECMAScript modules that a module stars.
pub(crate) fn starred_modules<'a>(
    alloc: Global,
    kinds: &Kinds<'_, '_, 'a>,
    number: usize,
    tables: &Tables<'a>,
) -> Result<Vec<usize>, AllocError>
    ensures { IfOk result (λ modules.
        modules.items ≡ starred (lead_of kinds.now number) tables.now.stars.items) }
{
    let mut modules = Vec::new(alloc);
    for star in &tables.stars {
        add_star(kinds, number, *star, &mut modules)?;
    }
    Ok(modules)
}

// Adds the ECMAScript module that a star is of.
fn add_star(
    kinds: &Kinds,
    number: usize,
    star: &str,
    modules: &mut Vec<usize>,
) -> Result<(), AllocError>
    ensures { OnOk result
        (modules.new.items
        ≡ modules.old.items ++ cons_option (module_in (lead_of kinds.now number star.now)) []) }
{
    match module_of(kinds.lead(number, star)) {
        Some(other) => {
            modules.push(other)?;
            Ok(())
        }
        None => Ok(()),
    }
}

// The ECMAScript module to which a specifier leads.
fn module_of(lead: Lead) -> Option<usize>
    ensures { result ≡ module_in (lead_told lead) }
{
    match lead {
        Lead::Module(number) => Some(number),
        Lead::External => None,
        Lead::CommonJs(_) => None,
        Lead::Nowhere => None,
    }
}

// Whether a specifier leads to an external.
fn is_outside(lead: Lead) -> bool
    ensures { result ≡ outside.is_outside (lead_told lead) }
{
    match lead {
        Lead::External => true,
        Lead::Module(_) => false,
        Lead::CommonJs(_) => false,
        Lead::Nowhere => false,
    }
}

// Whether one of these stars of a module is of an external.
fn stars_outside<'a>(kinds: &Kinds<'_, '_, 'a>, number: usize, stars: &[&'a str]) -> bool
    ensures { result ≡ outside.stars_outside (lead_of kinds.now number) stars.now }
{
    for star in stars {
        if is_outside(kinds.lead(number, *star)) {
            return true;
        }
    }
    false
}

/// Links in which the one name 0 has an entry in each module that stars an external, so that it is given for a
/// module exactly where a chain of stars ends at an external.
pub(crate) fn outside_links<'a>(
    alloc: Global,
    kinds: &Kinds<'_, '_, 'a>,
) -> Result<Links, AllocError>
    ensures { IfOk result (IsOutsideOf (lead_of kinds.now) kinds.now.modules.now) }
{
    let mut links = Links::new(alloc, 1);
    for (number, module) in kinds.modules.iter().enumerate() {
        add_outside(alloc, kinds, &mut links, number, module.tables)?;
    }
    Ok(links)
}

// Notes the next module.
fn add_outside<'a>(
    alloc: Global,
    kinds: &Kinds<'_, '_, 'a>,
    links: &mut Links,
    number: usize,
    tables: &Tables<'a>,
) -> Result<(), AllocError>
    ensures { (flags : List Bool) (lists : List (List ℕ)) →
        length flags ≡ number →
        IsOutsideGraph flags lists (graph_of links.old) →
        OnOk result
        (IsOutsideGraph
        (flags ++ outside.stars_outside (lead_of kinds.now number) tables.now.stars.items ∷ [])
        (lists ++ starred (lead_of kinds.now number) tables.now.stars.items ∷ [])
        (graph_of links.new)) }
{
    links.add_module(starred_modules(alloc, kinds, number, tables)?)?;
    if stars_outside(kinds, number, &tables.stars) {
        links.add_own((number, 0), OwnLink::Gives(0))?;
        return Ok(());
    }
    Ok(())
}

//! The modules that an entry reaches.

ghost use Rattle.std.specs.Prelude.{◌≡◌, Contains, IfOk, slice_get, option_map, unwrap_or, []};
ghost use Rattle.std.specs.List.{AllZip};
ghost use Rattle.std.specs.BTreeMap.{get_by_text};
ghost use Rattle.bundle_rules.specs.Nodes.{Text, numbers_once};
ghost use Rattle.bundle_rules.specs.Program.{Program};
ghost use Rattle.bundle_order_graph.specs.Order.{IsOrder};
ghost use Rattle.bundle_link.specs.Leads.{module_place, last_told};
ghost use Rattle.bundle_link.specs.Files.{AreNotedOf};
ghost use Rattle.bundle_link.specs.Reached.{IsReachedOf, deps_at, LeadsBy};

use crate::files::Files;
use crate::linked::places_of;
use crate::module::leads_of;
use bundle_order_graph::graph::order;
use bundle_tree_names::ModuleId;
use indexmap::IndexSet;
use std::alloc::{AllocError, Global};
use std::collections::BTreeMap;

/// The modules that an entry reaches, in post-order of their requests, the entry last: their numbers, their places among
/// the files, and the places in this list to which the requests of each lead.
#[derive(Drop)]
pub struct Reached {
    pub list: Vec<ModuleId>,
    pub places: Vec<usize>,
    pub leads: Vec<BTreeMap<String, usize>>,
}

/// The modules that an entry reaches.
pub fn reached_from(alloc: Global, files: &Files, entry: ModuleId) -> Result<Reached, AllocError>
    ensures list { IfOk result (λ reached. IsOrder files.now.graph entry reached.list.items) }
    ensures reached { IfOk result (λ reached.
        (p : Program) →
        AreNotedOf p files.now →
        p.entry ≡ entry →
        Contains files.now.ids.keys entry →
        IsReachedOf p files.now.ids.keys reached) }
{
    let list = order(alloc, &files.graph, entry)?;
    let places = places_of(alloc, &files.ids, &list)?;
    let ids = ids_in(alloc, &list)?;
    let leads = leads_at(alloc, files, &places, &ids)?;
    Ok(Reached {
        list,
        places,
        leads,
    })
}

// The numbers of a list.
fn ids_in(alloc: Global, list: &[ModuleId]) -> Result<IndexSet<ModuleId>, AllocError>
    ensures { IfOk result (λ ids. ids.keys ≡ numbers_once list.now) }
{
    let mut ids = IndexSet::new(alloc);
    for id in list {
        ids.insert(*id)?;
    }
    Ok(ids)
}

// The places among these numbers to which the requests of the files at these places lead.
fn leads_at(
    alloc: Global,
    files: &Files,
    places: &[usize],
    ids: &IndexSet<ModuleId>,
) -> Result<Vec<BTreeMap<String, usize>>, AllocError>
    ensures { IfOk result (λ leads.
        AllZip (LeadsBy files.now.deps.now ids.now.keys) places.now leads.items) }
{
    let mut leads = Vec::new(alloc);
    for place in places {
        leads.push(leads_from(alloc, files, *place, ids)?)?;
    }
    Ok(leads)
}

// The same of one file.
fn leads_from(
    alloc: Global,
    files: &Files,
    place: usize,
    ids: &IndexSet<ModuleId>,
) -> Result<BTreeMap<String, usize>, AllocError>
    ensures { IfOk result (LeadsBy files.now.deps.now ids.now.keys place) }
{
    match files.deps.get(place) {
        Some(deps) => leads_of(alloc, deps, ids),
        None => Ok(BTreeMap::new(alloc)),
    }
}

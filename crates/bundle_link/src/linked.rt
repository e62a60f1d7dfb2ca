//! What the names of modules stand for, by the numbers of the modules.

ghost use Rattle.std.specs.Prelude.{◌≡◌, ◌≢◌, ℕ, [], IfOk, OnOk, false, filter_map, length, map, nat_eq, unwrap_or};
ghost use Rattle.indexmap.specs.IndexSet.{contains};
ghost use Rattle.bundle_order_graph.specs.Modules.{deps};
ghost use Rattle.bundle_link_index.specs.Numbered.{HasNoDoubles};
ghost use Rattle.bundle_link_index.specs.Programs.{IsLinkProgram};
ghost use Rattle.bundle_link_targets.specs.Linked.{HandsOver, IsJudgedBy, IsLinkingOf};
ghost use Rattle.bundle_link_targets.specs.Meant.{AreModules};
ghost use Rattle.bundle_rules.specs.Nodes.{numbers_once};
ghost use Rattle.bundle_rules.specs.Program.{Program};
ghost use Rattle.bundle_rules.specs.Tables.{IsResolution, TellsCommonJs, TellsMeant};
ghost use Rattle.bundle_link.specs.Graph.{asked_modules, asked_for, IsRequestGraph};
ghost use Rattle.bundle_link.specs.Leads.{module_place};
ghost use Rattle.bundle_link.specs.Linked.{IsLinkedOf};
ghost use Rattle.bundle_link.specs.Numbered.{AreNumberedOf, numbers};
ghost use Rattle.bundle_link.specs.Resolutions.{resolution_read};
ghost use Rattle.bundle_link.specs.Told.{IsFaultTold};

use crate::module::{NumberedModule, ids_of, leads_of_all};
use bundle_link_targets::{LinkFault, LinkModule, Linking, ResolvedTo, Setting};
use bundle_order_graph::graph::{ModuleGraph, order};
use bundle_tree_names::ModuleId;
use indexmap::IndexSet;
use std::alloc::{AllocError, Global};
use std::collections::BTreeMap;

/// The modules of the bundle of an entry, linked.
#[derive(Drop)]
pub struct LinkedModules<'a> {
    /// The numbers of the modules, in their order.
    pub ids: IndexSet<ModuleId>,
    /// Which of them requests which.
    pub graph: ModuleGraph,
    /// The numbers of those that the entry reaches, in post-order of their requests.
    pub list: Vec<ModuleId>,
    linking: Linking<'a>,
}

impl<'a> LinkedModules<'a> {
    /// Links modules. The caller sees to it that their numbers differ.
    pub fn new<'t>(
        alloc: Global,
        entry: ModuleId,
        modules: &[NumberedModule<'t, 'a>],
        setting: Setting,
    ) -> Result<LinkedModules<'a>, AllocError>
        ensures ids { IfOk result (λ linked.
            linked.ids.keys ≡ numbers_once (numbers modules.now)) }
        ensures linked { IfOk result (λ linked.
            (p : Program) →
            AreNumberedOf p modules.now entry setting.require →
            p.settings.iife ≡ setting.iife →
            IsLinkedOf p linked) }
    {
        let ids = ids_of(alloc, modules)?;
        let leads = leads_of_all(alloc, modules, &ids)?;
        let linked = link_modules(alloc, modules, &leads)?;
        let graph = graph_of(alloc, &ids, &linked)?;
        let list = order(alloc, &graph, entry)?;
        let linking = linking_of(alloc, entry, &ids, &linked, &list, setting)?;
        Ok(LinkedModules {
            ids,
            graph,
            list,
            linking,
        })
    }

    /// What a module gives for a name (ECMA-262, 16.2.1.6.3 ResolveExport), where modules stand by their places among
    /// `ids`. Nothing is given for the name of a module that is not there.
    pub fn resolve(&self, id: ModuleId, name: &str) -> Result<ResolvedTo<'a>, AllocError>
        ensures found { IfOk result (λ found. (p : Program) → IsLinkedOf p self.now →
            IsResolution p id name.now (resolution_read self.now.ids.keys found)) }
        ensures absent { contains nat_eq self.now.ids id ≡ false →
            IfOk result (λ found. found ≡ ResolvedTo.None) }
    {
        match self.ids.get_index_of(&id) {
            Some(place) => self.linking.resolve(place, name),
            None => Ok(ResolvedTo::None),
        }
    }

    /// Whether a module is CommonJS in this bundle.
    pub fn is_common_js(&self, id: ModuleId) -> bool
        ensures told { (p : Program) → IsLinkedOf p self.now → TellsCommonJs p id result }
        ensures absent { contains nat_eq self.now.ids id ≡ false → result ≡ false }
    {
        match self.ids.get_index_of(&id) {
            Some(place) => self.linking.is_common_js(place),
            None => false,
        }
    }

    /// Whether the object of a module's namespace is meant.
    pub fn is_object_meant(&self, id: ModuleId) -> bool
        ensures told { (p : Program) → IsLinkedOf p self.now → AreModules p →
            TellsMeant p id result }
        ensures absent { contains nat_eq self.now.ids id ≡ false → result ≡ false }
    {
        match self.ids.get_index_of(&id) {
            Some(place) => self.linking.is_object_meant(place),
            None => false,
        }
    }

    /// The first fault of the modules, in the order in which they are judged, of a module by its place among `ids`.
    pub fn fault(&self) -> Option<LinkFault<'a>>
        ensures { (p : Program) → IsLinkedOf p self.now → AreModules p →
            IsFaultTold p self.now.ids.keys self.now.list.items result }
    {
        match self.linking.call_fault() {
            Some(fault) => Some(fault),
            None => self.linking.link_fault(),
        }
    }
}

// Which module requests which, where they stand at the places of these numbers.
fn graph_of<'t, 'a>(
    alloc: Global,
    ids: &IndexSet<ModuleId>,
    modules: &[LinkModule<'t, 'a>],
) -> Result<ModuleGraph, AllocError>
    ensures { IfOk result (λ graph. HasNoDoubles ids.now.keys →
        IsRequestGraph ids.now.keys modules.now (length modules.now) graph) }
{
    let mut graph = ModuleGraph::new(alloc);
    for (place, module) in modules.iter().enumerate() {
        if let Some(id) = ids.get_index(place) {
            add_module(&mut graph, ids, *id, module)?;
        }
    }
    Ok(graph)
}

// Notes what a module requests, of which nothing is noted.
fn add_module<'t, 'a>(
    graph: &mut ModuleGraph,
    ids: &IndexSet<ModuleId>,
    id: ModuleId,
    link_module: &LinkModule<'t, 'a>,
) -> Result<(), AllocError>
    ensures own { OnOk result
        (deps graph.old id ≡ [] →
        deps graph.new id
        ≡ numbers_once
        (asked_modules ids.now.keys link_module.now.leads.now link_module.now.tables.now.requests.items)) }
    ensures others { OnOk result
        ((m : ℕ) → m ≢ id → deps graph.new m ≡ deps graph.old m) }
{
    graph.add_node(id)?;
    add_requests(
        graph,
        ids,
        id,
        &link_module.tables.requests,
        link_module.leads,
    )
}

// Notes the requests of a module that lead to one of these.
fn add_requests(
    graph: &mut ModuleGraph,
    ids: &IndexSet<ModuleId>,
    id: ModuleId,
    requests: &[&str],
    leads: &BTreeMap<String, usize>,
) -> Result<(), AllocError>
    ensures own { OnOk result (deps graph.old id ≡ [] →
        deps graph.new id ≡ numbers_once (asked_modules ids.now.keys leads.now requests.now)) }
    ensures others { OnOk result
        ((m : ℕ) → m ≢ id → deps graph.new m ≡ deps graph.old m) }
{
    for request in requests {
        if let Some(requested) = requested_by(ids, request, leads) {
            graph.add_edge(id, requested)?;
        }
    }
    Ok(())
}

// The module to which a request leads.
fn requested_by(
    ids: &IndexSet<ModuleId>,
    request: &str,
    leads: &BTreeMap<String, usize>,
) -> Option<ModuleId>
    ensures { result ≡ asked_for ids.now.keys leads.now request.now }
{
    ids.get_index(*leads.get(request)?).copied()
}

// The modules as they are linked by places.
fn link_modules<'l, 't: 'l, 'a>(
    alloc: Global,
    modules: &'l [NumberedModule<'t, 'a>],
    leads: &'l [BTreeMap<String, usize>],
) -> Result<Vec<LinkModule<'l, 'a>>, AllocError>
    ensures tables { length leads.now ≡ length modules.now → IfOk result (λ linked.
        map (λ it. it.tables.now) linked.items ≡ map (λ its. its.tables.now) modules.now) }
    ensures leads { length leads.now ≡ length modules.now → IfOk result (λ linked.
        map (λ it. it.leads.now) linked.items ≡ leads.now) }
{
    let mut linked = Vec::new(alloc);
    for (module, leads) in modules.iter().zip(leads) {
        let tables = module.tables;
        linked.push(LinkModule { tables, leads })?;
    }
    Ok(linked)
}

// What the names of modules stand for, by places.
fn linking_of<'l, 'a>(
    alloc: Global,
    entry: ModuleId,
    ids: &IndexSet<ModuleId>,
    modules: &[LinkModule<'l, 'a>],
    list: &[ModuleId],
    setting: Setting,
) -> Result<Linking<'a>, AllocError>
    ensures linked { IfOk result (λ linking. (p : Program) →
        IsLinkProgram p modules.now (filter_map (module_place ids.now.keys) list.now)
        (unwrap_or (module_place ids.now.keys entry) (length ids.now.keys)) setting.require
        → IsLinkingOf p linking) }
    ensures judged { IfOk result (λ linking. (p : Program) →
        IsLinkProgram p modules.now (filter_map (module_place ids.now.keys) list.now)
        (unwrap_or (module_place ids.now.keys entry) (length ids.now.keys)) setting.require
        → p.settings.iife ≡ setting.iife
        → IsJudgedBy p (filter_map (module_place ids.now.keys) list.now) linking) }
    ensures handed { IfOk result (λ linking. (p : Program) →
        IsLinkProgram p modules.now (filter_map (module_place ids.now.keys) list.now)
        (unwrap_or (module_place ids.now.keys entry) (length ids.now.keys)) setting.require
        → HandsOver p (filter_map (module_place ids.now.keys) list.now) linking) }
{
    let places = places_of(alloc, ids, list)?;
    let place = ids.get_index_of(&entry).unwrap_or(ids.len());
    Linking::new(alloc, modules, &places, place, setting)
}

/// The places of modules among these numbers.
pub fn places_of(
    alloc: Global,
    ids: &IndexSet<ModuleId>,
    list: &[ModuleId],
) -> Result<Vec<usize>, AllocError>
    ensures { IfOk result (λ places.
        places.items ≡ filter_map (module_place ids.now.keys) list.now) }
{
    let mut places = Vec::new(alloc);
    for id in list {
        if let Some(place) = ids.get_index_of(id) {
            places.push(place)?;
        }
    }
    Ok(places)
}

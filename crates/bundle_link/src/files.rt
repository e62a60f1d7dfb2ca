//! Files with their numbers, and which of their modules requests which.

ghost use Rattle.std.specs.Prelude.{◌≡◌, ◌≢◌, ℕ, IfOk, OnOk, [], length, map};
ghost use Rattle.bundle_order_graph.specs.Modules.{deps as noted};
ghost use Rattle.bundle_link_index.specs.Numbered.{HasNoDoubles};
ghost use Rattle.bundle_rules.specs.Nodes.{numbers_once};
ghost use Rattle.bundle_rules.specs.Program.{Program};
ghost use Rattle.bundle_link.specs.Files.{AreFilesOf, AreNotedOf, IsFileGraph, module_led_to, numbers_of};

use bundle_order_graph::graph::ModuleGraph;
use bundle_tree_names::ModuleId;
use bundle_tree_names::file_name::FileName;
use indexmap::IndexSet;
use std::alloc::{AllocError, Global};

/// Files with their numbers; the requests of each, with the numbers of the files to which they lead; the numbers in the
/// order of the files; and which module requests which.
#[derive(Drop)]
pub struct Files<'x> {
    pub files: &'x [(FileName, ModuleId)],
    pub deps: &'x [Vec<(String, ModuleId)>],
    pub ids: IndexSet<ModuleId>,
    pub graph: ModuleGraph,
}

impl<'x> Files<'x> {
    /// Notes which module requests which. The caller sees to it that the numbers of the files differ.
    pub fn new(
        alloc: Global,
        files: &'x [(FileName, ModuleId)],
        deps: &'x [Vec<(String, ModuleId)>],
    ) -> Result<Files<'x>, AllocError>
        ensures noted { IfOk result (λ made.
            (p : Program) → AreFilesOf p files.now deps.now → AreNotedOf p made) }
        ensures files { IfOk result (λ made. made.files ≡ files.entry) }
    {
        let ids = ids_of(alloc, files)?;
        let graph = graph_of(alloc, &ids, deps)?;
        Ok(Files {
            files,
            deps,
            ids,
            graph,
        })
    }
}

// The numbers of files, in the order of the files.
fn ids_of(alloc: Global, files: &[(FileName, ModuleId)]) -> Result<IndexSet<ModuleId>, AllocError>
    ensures { IfOk result (λ ids. ids.keys ≡ numbers_once (numbers_of files.now)) }
{
    let mut ids = IndexSet::new(alloc);
    for (_, id) in files {
        ids.insert(*id)?;
    }
    Ok(ids)
}

// Which module requests which, where these are their numbers, and these their requests in turn.
fn graph_of(
    alloc: Global,
    ids: &IndexSet<ModuleId>,
    deps: &[Vec<(String, ModuleId)>],
) -> Result<ModuleGraph, AllocError>
    ensures { IfOk result (λ graph. HasNoDoubles ids.now.keys →
        IsFileGraph ids.now.keys deps.now (length deps.now) graph) }
{
    let mut graph = ModuleGraph::new(alloc);
    for (place, its) in deps.iter().enumerate() {
        if let Some(id) = ids.get_index(place) {
            add_module(&mut graph, *id, its)?;
        }
    }
    Ok(graph)
}

// Notes what a module requests, of which nothing is noted.
fn add_module(
    graph: &mut ModuleGraph,
    id: ModuleId,
    deps: &[(String, ModuleId)],
) -> Result<(), AllocError>
    ensures own { OnOk result
        (noted graph.old id ≡ [] → noted graph.new id ≡ numbers_once (map module_led_to deps.now)) }
    ensures others { OnOk result
        ((m : ℕ) → m ≢ id → noted graph.new m ≡ noted graph.old m) }
{
    graph.add_node(id)?;
    add_requests(graph, id, deps)
}

// Notes the requests of a module.
fn add_requests(
    graph: &mut ModuleGraph,
    id: ModuleId,
    deps: &[(String, ModuleId)],
) -> Result<(), AllocError>
    ensures own { OnOk result
        (noted graph.old id ≡ [] → noted graph.new id ≡ numbers_once (map module_led_to deps.now)) }
    ensures others { OnOk result
        ((m : ℕ) → m ≢ id → noted graph.new m ≡ noted graph.old m) }
{
    for (_, requested) in deps {
        graph.add_edge(id, *requested)?;
    }
    Ok(())
}

//! Which module requests which.

ghost use Rattle.std.specs.Prelude.{◌≡◌, [], ℕ, ◌<◌, ◌↔◌, nat_eq, All, Contains, IfOk, OnOk, OnErr, MatchBool, map, slice_index, slice_index_or, length};
ghost use Rattle.bundle_order_graph.specs.Bits.{IsEdge, IsEdgeAt, IsWithin};
ghost use Rattle.bundle_order_graph.specs.Blocks.{AreBlocks, BlocksOf, Members};
ghost use Rattle.bundle_order_graph.specs.Classes.{AreRanks, AreWithin, Leads};
ghost use Rattle.bundle_order_graph.specs.Ranked.{AreAlike, AreLasts, AreSmall, EndsBlock, EndsNone, HasRank};
ghost use Rattle.std.specs.List.{IsDistinct};
ghost use Rattle.std.specs.List.Sorted.{IsStrictlyIncreasing};
ghost use Rattle.bundle_order_graph.specs.Order.{IsOrder};
ghost use Rattle.bundle_order_graph.specs.Modules.{Requests};
ghost use Rattle.bundle_order_graph.specs.Walks.{Reaches};

use crate::classes::ranks_of;
use bundle_tree_names::ModuleId;
use indexmap::IndexSet;
use std::alloc::{AllocError, Global};
use std::marker::Model;

/// Modules, each with the modules that it requests.
#[derive(Drop)]
pub struct ModuleGraph {
    nodes: IndexSet<ModuleId>,
    dependencies: Vec<IndexSet<ModuleId>>,
}

impl Model for ModuleGraph {
    ghost use Rattle.bundle_order_graph.specs.Modules.{Modules, IsWhole};
    ghost use Rattle.std.specs.Prelude.{map};

    ghost Value = { Modules };

    ghost view = { λ g.
        record { nodes = g.nodes.keys; requests = map (λ d. d.keys) g.dependencies.items } };

    ghost invariant = { λ g.
        IsWhole
        (record { nodes = g.nodes.keys; requests = map (λ d. d.keys) g.dependencies.items }) };
}

impl ModuleGraph {
    ghost use Rattle.bundle_order_graph.specs.Modules.{no_modules, deps, Requests, AddsNode, AddsEdge};

    /// A graph with no module.
    pub fn new(alloc: Global) -> ModuleGraph
        ensures { result ≡ no_modules }
    {
        ModuleGraph {
            nodes: IndexSet::new(alloc),
            dependencies: Vec::new(alloc),
        }
    }

    /// Adds a module that requests nothing yet. One that is there stays as it is.
    pub fn add_node(&mut self, id: ModuleId) -> Result<(), AllocError>
        ensures ok { OnOk result (AddsNode self.old self.new id) }
        ensures err { OnErr result (self.new ≡ self.old) }
    {
        if self.nodes.contains(&id) {
            return Ok(());
        }
        let alloc = *self.nodes.allocator();
        self.nodes.reserve(1)?;
        self.dependencies.push(IndexSet::new(alloc))?;
        self.nodes.insert(id).unwrap();
        Ok(())
    }

    /// Notes that one module requests another, once. Both become nodes.
    pub fn add_edge(&mut self, from: ModuleId, to: ModuleId) -> Result<(), AllocError>
        ensures ok { OnOk result (AddsEdge self.old self.new from to) }
        ensures err { OnErr result (self.new ≡ self.old) }
    {
        let alloc = *self.nodes.allocator();
        self.nodes.reserve(2)?;
        self.dependencies.reserve(2)?;
        match self.nodes.get_index_of(&from) {
            Some(place) => {
                let requested = &mut self.dependencies[place];
                requested.insert(to)?;
            }
            None => {
                let mut requested = IndexSet::new(alloc);
                requested.insert(to)?;
                self.dependencies.push(requested).unwrap();
                self.nodes.insert(from).unwrap();
            }
        }
        if !self.nodes.contains(&to) {
            self.dependencies.push(IndexSet::new(alloc)).unwrap();
            self.nodes.insert(to).unwrap();
        }
        Ok(())
    }

    /// The modules that a module requests, each once, in the order of adding. A module that is not
    /// there requests none.
    pub fn deps_of(&self, id: ModuleId) -> &[ModuleId]
        ensures value { result.now ≡ deps self.now id }
        ensures nodes { (n m : ℕ) → Requests self.now n m → Contains self.now.nodes m }
        ensures once { IsDistinct nat_eq result.now }
    {
        match self.nodes.get_index_of(&id) {
            Some(place) => {
                let requested = &self.dependencies[place];
                requested.as_slice()
            }
            None => &[],
        }
    }
}

/// All modules that are reached from the entry, itself among them, ascending.
pub fn closure(
    alloc: Global,
    graph: &ModuleGraph,
    entry: ModuleId,
) -> Result<Vec<ModuleId>, AllocError>
    ensures reached { IfOk result (λ all.
        (n : ℕ) → Contains all.items n ↔ Reaches (Requests graph.now) entry n) }
    ensures ascending { IfOk result (λ all. IsStrictlyIncreasing all.items) }
{
    let mut reached = order(alloc, graph, entry)?;
    reached.sort_unstable();
    Ok(reached)
}

/// A module that is begun: its dependencies before `next` are done.
#[derive(Drop)]
struct Visit {
    id: ModuleId,
    next: usize,
}

/// The list: all modules that are reached from the entry, each once, in the post-order of a
/// depth-first walk that takes dependencies in the order of adding.
pub fn order(
    alloc: Global,
    graph: &ModuleGraph,
    entry: ModuleId,
) -> Result<Vec<ModuleId>, AllocError>
    ensures { IfOk result (λ list. IsOrder graph.now entry list.items) }
{
    let mut listed = Vec::new(alloc);
    let mut seen = IndexSet::new(alloc);
    let mut begun = Vec::new(alloc);
    list_reached(graph, entry, &mut listed, &mut seen, &mut begun)?;
    Ok(listed)
}

/// Lists what is reached from the entry. `seen` has what is met, and `begun` what is begun, the last on top.
fn list_reached(
    graph: &ModuleGraph,
    entry: ModuleId,
    listed: &mut Vec<ModuleId>,
    seen: &mut IndexSet<ModuleId>,
    begun: &mut Vec<Visit>,
) -> Result<(), AllocError>
    requires listed { listed.old.items ≡ [] }
    requires seen { seen.old.keys ≡ [] }
    requires begun { begun.old.items ≡ [] }
    ensures { OnOk result (IsOrder graph.now entry listed.new.items) }
{
    seen.insert(entry)?;
    begun.push(Visit { id: entry, next: 0 })?;
    while let Some(visit) = begun.pop() {
        match graph.deps_of(visit.id).get(visit.next) {
            None => listed.push(visit.id)?,
            Some(dependency) => {
                let dependency = *dependency;
                begun.push(Visit {
                    id: visit.id,
                    next: visit.next + 1,
                })?;
                if seen.insert(dependency)? {
                    begun.push(Visit {
                        id: dependency,
                        next: 0,
                    })?;
                }
            }
        }
    }
    Ok(())
}

/// The blocks of several modules, or of one that requests itself, among all that the entry
/// reaches: in the order of their last members in the list, with the members in list order.
pub fn cycles(
    alloc: Global,
    graph: &ModuleGraph,
    entry: ModuleId,
) -> Result<Vec<Vec<ModuleId>>, AllocError>
    ensures { IfOk result (λ blocks.
        AreBlocks graph.now entry (map (λ b. b.items) blocks.items)) }
{
    let list = order(alloc, graph, entry)?;
    cycles_on(alloc, graph, &list)
}

/// The same of the list that `order` gives.
pub fn cycles_on(
    alloc: Global,
    graph: &ModuleGraph,
    list: &[ModuleId],
) -> Result<Vec<Vec<ModuleId>>, AllocError>
    requires { IsDistinct nat_eq list.now }
    ensures { IfOk result (λ blocks. (entry : ℕ) →
        IsOrder graph.now entry list.now →
        AreBlocks graph.now entry (map (λ b. b.items) blocks.items)) }
{
    let pairs = edges_between(alloc, graph, list)?;
    let edges = ends_of(alloc, list.len(), &pairs)?;
    let ranks = ranks_of(alloc, &edges)?;
    blocks_of(alloc, &edges, &ranks, list)
}

/// The edges among the modules of a list, by their places.
fn edges_between(
    alloc: Global,
    graph: &ModuleGraph,
    list: &[ModuleId],
) -> Result<Vec<(usize, usize)>, AllocError>
    requires { IsDistinct nat_eq list.now }
    ensures { IfOk result (λ edges.
        (i j : ℕ) → IsEdge edges.items i j ↔ IsEdgeAt graph.now list.now i j) }
{
    let mut places = IndexSet::new(alloc);
    for module in list {
        places.insert(*module)?;
    }
    let mut edges = Vec::new(alloc);
    for (from, module) in list.iter().enumerate() {
        let requested = graph.deps_of(*module);
        for dependency in requested {
            if let Some(to) = places.get_index_of(dependency) {
                edges.push((from, to))?;
            }
        }
    }
    Ok(edges)
}

/// For each of so many places the ends of the edges that leave it.
fn ends_of(
    alloc: Global,
    count: usize,
    pairs: &[(usize, usize)],
) -> Result<Vec<Vec<usize>>, AllocError>
    requires { All (IsWithin count) pairs.now }
    ensures len { IfOk result (λ edges. length edges.items ≡ count) }
    ensures exact { IfOk result (λ edges.
        (i j : ℕ) → Leads (map (λ v. v.items) edges.items) i j ↔ IsEdge pairs.now i j) }
{
    let mut edges: Vec<Vec<usize>> = Vec::new(alloc);
    for _ in 0..count {
        edges.push(Vec::new(alloc))?;
    }
    for pair in pairs {
        edges[pair.0].push(pair.1)?;
    }
    Ok(edges)
}

/// The blocks of a list, by the ranks of its places: those of one rank lead to each other.
fn blocks_of(
    alloc: Global,
    edges: &[Vec<usize>],
    ranks: &[usize],
    list: &[ModuleId],
) -> Result<Vec<Vec<ModuleId>>, AllocError>
    requires len { length ranks.now ≡ length list.now }
    requires within { AreWithin (map (λ v. v.items) edges.now) }
    requires ranks { AreRanks (map (λ v. v.items) edges.now) ranks.now }
    requires once { IsDistinct nat_eq list.now }
    ensures { IfOk result (λ blocks.
        BlocksOf (AreAlike (map (λ v. v.items) edges.now) ranks.now list.now) list.now list.now
        (map (λ b. b.items) blocks.items)) }
{
    let classes = classes_of(alloc, ranks, list)?;
    let lasts = lasts_of(alloc, ranks)?;
    let mut blocks = Vec::new(alloc);
    for last in 0..list.len() {
        if ends_block(edges, ranks, &lasts, last) {
            let class = &classes[ranks[last]];
            let mut block = Vec::new(alloc);
            block.extend_from_slice(class)?;
            blocks.push(block)?;
        }
    }
    Ok(blocks)
}

/// The modules of each rank, in the order of the list.
fn classes_of(
    alloc: Global,
    ranks: &[usize],
    list: &[ModuleId],
) -> Result<Vec<Vec<ModuleId>>, AllocError>
    requires len { length ranks.now ≡ length list.now }
    requires small { AreSmall ranks.now }
    requires once { IsDistinct nat_eq list.now }
    ensures len { IfOk result (λ classes. length classes.items ≡ length list.now) }
    ensures each { IfOk result (λ classes.
        (rank : ℕ) →
        rank < length list.now →
        Members (HasRank ranks.now list.now rank) list.now
        (slice_index_or (map (λ b. b.items) classes.items) rank [])) }
{
    let mut classes: Vec<Vec<ModuleId>> = Vec::new(alloc);
    for _ in 0..list.len() {
        classes.push(Vec::new(alloc))?;
    }
    for (at, module) in list.iter().enumerate() {
        classes[ranks[at]].push(*module)?;
    }
    Ok(classes)
}

/// The last place of each rank.
fn lasts_of(alloc: Global, ranks: &[usize]) -> Result<Vec<usize>, AllocError>
    requires { AreSmall ranks.now }
    ensures len { IfOk result (λ lasts. length lasts.items ≡ length ranks.now) }
    ensures each { IfOk result (λ lasts. AreLasts ranks.now lasts.items) }
{
    let mut lasts = vec![in alloc; 0usize; ranks.len()]?;
    for (at, rank) in ranks.iter().enumerate() {
        lasts[*rank] = at;
    }
    Ok(lasts)
}

/// Whether a place is on a cycle and no later one shares its block.
fn ends_block(edges: &[Vec<usize>], ranks: &[usize], lasts: &[usize], at: usize) -> bool
    requires edges_len { length edges.now ≡ length ranks.now }
    requires lasts_len { length lasts.now ≡ length ranks.now }
    requires within { AreWithin (map (λ v. v.items) edges.now) }
    requires small { AreSmall ranks.now }
    requires lasts { AreLasts ranks.now lasts.now }
    requires at_in { at < length ranks.now }
    ensures { MatchBool result (EndsBlock (map (λ v. v.items) edges.now) ranks.now at)
        (EndsNone (map (λ v. v.items) edges.now) ranks.now at) }
{
    lasts[ranks[at]] == at && has_rank(&edges[at], ranks, ranks[at])
}

/// Whether one of these places has a rank.
fn has_rank(places: &[usize], ranks: &[usize], rank: usize) -> bool
    requires { (t : ℕ) → Contains places.now t → t < length ranks.now }
    ensures { MatchBool result
        ((t : ℕ) × Contains places.now t × (slice_index ranks.now t ≡ rank))
        (((t : ℕ) × Contains places.now t × (slice_index ranks.now t ≡ rank)) → ⊥) }
{
    for place in places {
        if ranks[*place] == rank {
            return true;
        }
    }
    false
}

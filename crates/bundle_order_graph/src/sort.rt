//! Which statement depends on which.

ghost use Rattle.std.specs.Prelude.{◌≡◌, ℕ, ◌<◌, ◌↔◌, nat_eq, Contains, IsTrue, IfOk, OnOk, OnErr, length};
ghost use Rattle.std.specs.List.Sorted.{IsStrictlyIncreasing};
ghost use Rattle.indexmap.specs.IndexMap.{insert_entry};
ghost use Rattle.bundle_order_graph.specs.Bits.{HasBit, IsTransitive, Joins, SameRows};
ghost use Rattle.bundle_order_graph.specs.Nodes.{added, place};
ghost use Rattle.bundle_order_graph.specs.Walks.{Path};
ghost use Rattle.bundle_order_graph.specs.Statements as spec;

use crate::rows::Rows;
use indexmap::{IndexMap, IndexSet};
use std::alloc::{AllocError, Global};
use std::marker::Model;

/// How much a dependency is needed.
#[derive(Clone, Copy, PartialEq, Eq, Debug)]
pub enum Required {
    /// It always is.
    Always,
    /// It may be.
    Maybe,
}

/// Which way edges are followed.
#[derive(Clone, Copy, PartialEq, Eq, Debug)]
pub enum EdgeDirection {
    /// From a node to what it depends on.
    Outgoing,
    /// From a node to what depends on it.
    Incoming,
}

/// Statements, and how much each requires which others.
#[derive(Drop)]
pub struct StmtDepGraph {
    nodes: IndexSet<usize>,
    edges: Vec<IndexMap<usize, Required>>,
    rows: Rows,
}

impl Model for StmtDepGraph {
    ghost use Rattle.bundle_order_graph.specs.Statements.{Statements};
    ghost use Rattle.bundle_order_graph.specs.Reached.{IsExact};
    ghost use Rattle.std.specs.Prelude.{map};

    ghost Value = { Statements };

    ghost view = { λ g.
        record { nodes = g.nodes.keys; edges = map (λ e. e.entries) g.edges.items } };

    ghost invariant = { λ g.
        IsExact (record { nodes = g.nodes.keys; edges = map (λ e. e.entries) g.edges.items })
        g.rows };
}

impl StmtDepGraph {
    ghost use Rattle.bundle_order_graph.specs.Statements.{no_statements, weight, IsDependency, AddsStatement, AddsDependency, IsNeighbor};

    /// A graph with no node.
    pub fn new(alloc: Global) -> StmtDepGraph
        ensures { result ≡ no_statements }
    {
        StmtDepGraph {
            nodes: IndexSet::new(alloc),
            edges: Vec::new(alloc),
            rows: Rows::new(alloc),
        }
    }

    /// How many nodes there are.
    pub fn node_count(&self) -> usize
        ensures { result ≡ length self.now.nodes }
    {
        self.nodes.len()
    }

    /// Adds a node with no edge. One that is there stays as it is.
    pub fn add_node(&mut self, node: usize) -> Result<(), AllocError>
        ensures ok { OnOk result (AddsStatement self.old self.new node) }
        ensures err { OnErr result (self.new ≡ self.old) }
    {
        if self.nodes.contains(&node) {
            return Ok(());
        }
        let alloc = *self.nodes.allocator();
        let count = self.nodes.len();
        self.rows.extend_to(count + 1)?;
        self.nodes.reserve(1)?;
        self.edges.push(IndexMap::new(alloc))?;
        self.nodes.insert(node).unwrap();
        Ok(())
    }

    /// Adds an edge, and its ends as nodes. An edge that is `Always` stays so.
    pub fn add_edge(&mut self, a: usize, b: usize, required: Required) -> Result<(), AllocError>
        ensures ok { OnOk result (AddsDependency self.old self.new a b required) }
        ensures err { OnErr result (self.new ≡ self.old) }
    {
        let required = strongest(self.edge_weight(a, b), required);
        let alloc = *self.nodes.allocator();
        let count = self.nodes.len();
        self.rows.extend_to(count + 2)?;
        self.nodes.reserve(2)?;
        self.edges.reserve(2)?;
        let to = place_after(&self.nodes, a, b);
        match self.nodes.get_index_of(&a) {
            Some(from) => {
                let edges = &mut self.edges[from];
                add_end(edges, &mut self.rows, (from, to), b, required)?;
            }
            None => {
                let mut edges = IndexMap::new(alloc);
                add_end(&mut edges, &mut self.rows, (count, to), b, required)?;
                self.edges.push(edges).unwrap();
                self.nodes.insert(a).unwrap();
            }
        }
        if !self.nodes.contains(&b) {
            self.edges.push(IndexMap::new(alloc)).unwrap();
            self.nodes.insert(b).unwrap();
        }
        Ok(())
    }

    /// How much `a` requires `b`, if there is an edge.
    pub fn edge_weight(&self, a: usize, b: usize) -> Option<Required>
        ensures { result ≡ weight self.now a b }
    {
        let place = self.nodes.get_index_of(&a)?;
        let edges = &self.edges[place];
        edges.get(&b).copied()
    }

    /// The nodes at the other ends of the edges that leave a node, or that come to it, ascending.
    pub fn neighbors_directed(
        &self,
        start: usize,
        direction: EdgeDirection,
    ) -> Result<Vec<usize>, AllocError>
        ensures neighbors { IfOk result (λ all.
            (n : ℕ) → Contains all.items n ↔ IsNeighbor self.now start direction n) }
        ensures ascending { IfOk result (λ all. IsStrictlyIncreasing all.items) }
    {
        match direction {
            EdgeDirection::Outgoing => self.ends_from(start),
            EdgeDirection::Incoming => self.starts_to(start),
        }
    }

    /// The ends of the edges that leave a node, ascending.
    fn ends_from(&self, start: usize) -> Result<Vec<usize>, AllocError>
        ensures neighbors { IfOk result (λ all.
            (n : ℕ) → Contains all.items n ↔ IsDependency self.now start n) }
        ensures ascending { IfOk result (λ all. IsStrictlyIncreasing all.items) }
    {
        let alloc = *self.nodes.allocator();
        match self.nodes.get_index_of(&start) {
            None => Ok(Vec::new(alloc)),
            Some(place) => {
                let edges = &self.edges[place];
                let mut ends: Vec<usize> = edges.keys().copied().collect(alloc)?;
                ends.sort_unstable();
                Ok(ends)
            }
        }
    }

    /// The starts of the edges that come to a node, ascending.
    fn starts_to(&self, end: usize) -> Result<Vec<usize>, AllocError>
        ensures neighbors { IfOk result (λ all.
            (n : ℕ) → Contains all.items n ↔ IsDependency self.now n end) }
        ensures ascending { IfOk result (λ all. IsStrictlyIncreasing all.items) }
    {
        let nodes = self.nodes.as_slice();
        let mut starts = Vec::new(*self.nodes.allocator());
        for (place, start) in nodes.iter().enumerate() {
            let edges = &self.edges[place];
            if edges.contains_key(&end) {
                starts.push(*start)?;
            }
        }
        starts.sort_unstable();
        Ok(starts)
    }

    /// Whether a walk of at least one edge leads from one node to another.
    pub fn has_a_path(&self, from: usize, to: usize) -> bool
        ensures { IsTrue result ↔ Path (IsDependency self.now) from to }
    {
        match (self.nodes.get_index_of(&from), self.nodes.get_index_of(&to)) {
            (Some(from), Some(to)) => self.rows.has(from, to),
            _ => false,
        }
    }
}

/// Adds an end to the edges of a node, and the edge between their two places to the rows. All stays as it was
/// where memory runs out.
fn add_end(
    edges: &mut IndexMap<usize, Required>,
    rows: &mut Rows,
    places: (usize, usize),
    end: usize,
    required: Required,
) -> Result<(), AllocError>
    requires from_in { places.0 < length rows.old }
    requires to_in { places.1 < length rows.old }
    requires closed { IsTransitive rows.old }
    ensures len { length rows.new ≡ length rows.old }
    ensures edges { OnOk result
        (edges.new.entries ≡ insert_entry nat_eq edges.old.entries end required) }
    ensures rows { OnOk result
        ((i j : ℕ) → HasBit rows.new i j ↔ Joins rows.old places.0 places.1 i j) }
    ensures same_edges { OnErr result (edges.new.entries ≡ edges.old.entries) }
    ensures same_rows { OnErr result (SameRows rows.old rows.new) }
{
    edges.reserve(1)?;
    rows.connect(places.0, places.1)?;
    edges.insert(end, required).unwrap();
    Ok(())
}

/// What an edge weighs, once it is added again.
fn strongest(was: Option<Required>, required: Required) -> Required
    ensures { result ≡ spec.strongest was required }
{
    match was {
        Some(Required::Always) => Required::Always,
        Some(Required::Maybe) | None => required,
    }
}

/// The place that `b` has, or gets once `a` is a node and it is the next that is added.
fn place_after(nodes: &IndexSet<usize>, a: usize, b: usize) -> usize
    ensures { result ≡ place (added (added nodes.now.keys a) b) b }
{
    match nodes.get_index_of(&b) {
        Some(place) => place,
        None if a == b || nodes.contains(&a) => nodes.len(),
        None => nodes.len() + 1,
    }
}

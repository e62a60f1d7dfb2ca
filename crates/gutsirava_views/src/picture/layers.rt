//! In which column a block stands.

ghost use Rattle.std.specs.Prelude.{◌≡◌, ◌+◌, ◌^◌, ◌<◌, ◌≤◌, All, IfOk, length, slice_index, vec_len};
ghost use Rattle.gutsirava_views.specs.Layers.{AreBehind};

use crate::picture::blocks::{NodeBlocks, empty_lists, push_at};
use crate::picture::nodes::{BoxKind, DrawnGraph};
use std::alloc::{AllocError, Global};

/// The column of each block: behind all that ask for it, and what is external behind all others.
pub(crate) fn layers_of_blocks(
    alloc: Global,
    graph: &DrawnGraph,
    blocks: &NodeBlocks,
) -> Result<Vec<usize>, AllocError> {
    let sizes = sizes_of(alloc, graph, blocks)?;
    let mut layers = first_layers(alloc, graph, blocks, sizes.as_slice())?;
    move_externals(layers.as_mut_slice(), sizes.as_slice());
    Ok(layers)
}

// The column of each block, where what is external stands among the others.
fn first_layers(
    alloc: Global,
    graph: &DrawnGraph,
    blocks: &NodeBlocks,
    sizes: &[usize],
) -> Result<Vec<usize>, AllocError> {
    let askers = askers_of(alloc, graph, blocks)?;
    layers_of(alloc, askers.as_slice(), sizes, most_rows(sizes))
}

// Lets what is external stand behind all others.
fn move_externals(layers: &mut [usize], sizes: &[usize]) {
    let last = last_layer(layers, sizes).saturating_add(1);
    for (layer, size) in layers.iter_mut().zip(sizes) {
        if *size == 0 {
            *layer = last;
        }
    }
}

// For each block those before it that ask for it.
fn askers_of(
    alloc: Global,
    graph: &DrawnGraph,
    blocks: &NodeBlocks,
) -> Result<Vec<Vec<usize>>, AllocError> {
    let mut askers = empty_lists(alloc, blocks.members.len())?;
    for link in &graph.links {
        let (from, to) = (blocks.of(link.from), blocks.of(link.to));
        if from < to {
            push_at(askers.as_mut_slice(), to, from)?;
        }
    }
    Ok(askers)
}

// How many rows each block takes; none, where it is external.
fn sizes_of(
    alloc: Global,
    graph: &DrawnGraph,
    blocks: &NodeBlocks,
) -> Result<Vec<usize>, AllocError> {
    let mut sizes = Vec::new(alloc);
    for members in &blocks.members {
        sizes.push(rows_of(graph, members.as_slice()))?;
    }
    Ok(sizes)
}

fn rows_of(graph: &DrawnGraph, members: &[usize]) -> usize {
    let Some(node) = members.first() else {
        return 0;
    };
    match graph.nodes.get(*node) {
        Some(node) if node.kind == BoxKind::External => 0,
        _ => members.len(),
    }
}

// So many rows a column may have: with that, a picture is about twice as wide as it is high.
fn most_rows(sizes: &[usize]) -> usize {
    let mut rows: usize = 0;
    for size in sizes {
        rows = rows.saturating_add(*size);
    }
    let mut most: usize = 6;
    for side in 6..1000 {
        if usize::saturating_mul(side, side) < rows.saturating_mul(4) {
            most = side;
        }
    }
    most
}

// The column of each block, where each has those before it that ask for it.
#[tactic(auto, using(std::proofs::lemmas::Grind::common_steps, crate::proofs::LayerLemmas::behind_push))]
fn layers_of(
    alloc: Global,
    askers: &[Vec<usize>],
    sizes: &[usize],
    most: usize,
) -> Result<Vec<usize>, AllocError>
    ensures each { IfOk result (λ layers. vec_len layers ≡ length askers.now) }
    ensures behind { IfOk result (λ layers. AreBehind askers.now layers.items) }
{
    let mut layers = Vec::new(alloc);
    let mut filled = Vec::new(alloc);
    for (block, before) in askers.iter().enumerate() {
        let least = layer_behind(layers.as_slice(), before.as_slice());
        let size = sizes.get(block).copied().unwrap_or(0);
        let layer = layer_with_room(&mut filled, least, size, most)?;
        layers.push(layer)?;
    }
    Ok(layers)
}

// The first column behind those of these blocks.
fn layer_behind(layers: &[usize], blocks: &[usize]) -> usize
    requires { All (λ layer. layer < 2 ^ 63) layers.now }
    ensures { All (λ block. block < length layers.now
        → slice_index layers.now block < result) blocks.now }
{
    let mut behind = 0;
    for block in blocks {
        behind = behind_block(layers, *block, behind);
    }
    behind
}

// The first column from this one on that is behind that of a block.
fn behind_block(layers: &[usize], block: usize, least: usize) -> usize
    requires { All (λ layer. layer < 2 ^ 63) layers.now }
    ensures least { least ≤ result }
    ensures behind { block < length layers.now → slice_index layers.now block < result }
{
    match layers.get(block) {
        Some(layer) => least.max(*layer + 1),
        None => least,
    }
}

// The first column from this one on in which so many rows have room, which they then take.
fn layer_with_room(
    filled: &mut Vec<usize>,
    least: usize,
    size: usize,
    most: usize,
) -> Result<usize, AllocError>
    ensures behind { IfOk result (λ layer. least ≤ layer) }
    ensures within { IfOk result (λ layer. layer < vec_len filled.new) }
    ensures grows { vec_len filled.old ≤ vec_len filled.new }
{
    let layer = first_with_room(filled.as_slice(), least, size, most);
    if layer >= filled.len() {
        filled.resize(layer.saturating_add(1), 0)?;
    }
    if let Some(rows) = filled.get_mut(layer) {
        *rows = rows.saturating_add(size);
    }
    Ok(layer)
}

// The first column from this one on in which so many rows have room; where there is none, the one behind all.
fn first_with_room(filled: &[usize], least: usize, size: usize, most: usize) -> usize
    ensures { least ≤ result }
{
    for layer in least..filled.len() {
        if has_room(filled, layer, size, most) {
            return layer;
        }
    }
    least.max(filled.len())
}

// Whether so many rows have room in a column; in one that is empty all have.
fn has_room(filled: &[usize], layer: usize, size: usize, most: usize) -> bool {
    match filled.get(layer) {
        Some(0) | None => true,
        Some(rows) => rows.saturating_add(size) <= most,
    }
}

fn last_layer(layers: &[usize], sizes: &[usize]) -> usize {
    let mut last = 0;
    for (layer, size) in layers.iter().zip(sizes) {
        if *size > 0 {
            last = last.max(*layer);
        }
    }
    last
}

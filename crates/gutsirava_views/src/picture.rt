//! The modules of bundles as a picture (SVG 1.1): from the left to the right, each behind those that ask for it.

mod blocks;
mod boxes;
mod drawing;
mod layers;
mod marking;
mod nodes;
mod paths;
mod points;
mod rows;
mod sheet;

use crate::Overview;
use crate::picture::blocks::{NodeBlocks, blocks_of};
use crate::picture::drawing::draw;
use crate::picture::layers::layers_of_blocks;
use crate::picture::nodes::{DrawnGraph, graph_of};
use crate::picture::points::points_of;
use crate::picture::rows::settle;
use std::alloc::{AllocError, Global};

/// A picture of the modules, and of what they leave to whoever runs the bundles. Each stands behind all that ask for it; those
/// that reach each other stand in one box, and what is external apart. Where there are more than 200 modules, each box is
/// a folder.
pub fn picture_text(alloc: Global, overview: &Overview) -> Result<String, AllocError> {
    let mut graph = graph_of(alloc, overview)?;
    let blocks = blocks_of(alloc, graph.nodes.len(), graph.links.as_slice())?;
    graph.mark_asked(&blocks);
    text_of(alloc, &graph, &blocks)
}

fn text_of(alloc: Global, graph: &DrawnGraph, blocks: &NodeBlocks) -> Result<String, AllocError> {
    let layers = layers_of_blocks(alloc, graph, blocks)?;
    let mut plan = points_of(alloc, graph, blocks, layers.as_slice())?;
    settle(alloc, &mut plan)?;
    draw(alloc, graph, blocks, &plan)
}

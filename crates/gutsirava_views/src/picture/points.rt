//! What stands in columns, and the lines between neighbouring columns.

use crate::picture::blocks::{NodeBlocks, push_at};
use crate::picture::nodes::{DrawnGraph, DrawnLink};
use std::alloc::{AllocError, Global};
use std::collections::BTreeMap;

/// How high a box is, and how far the boxes of a block stand apart.
pub(crate) const BOX_HEIGHT: usize = 34;

pub(crate) const MEMBER_STEP: usize = 40;

/// What a frame has above its boxes, and below them.
pub(crate) const FRAME_HEAD: usize = 24;

const FRAME_FOOT: usize = 4;

/// How high a place is where lines pass a column.
const PASS_HEIGHT: usize = 2;

/// In a block of more boxes lines lead to the block alone.
pub(crate) const MOST_MEMBERS: usize = 30;

/// What stands in a column: a block, or lines that pass.
#[derive(Drop)]
pub(crate) struct ColumnPoint {
    pub(crate) layer: usize,
    pub(crate) height: usize,
    pub(crate) is_pass: bool,
    /// Where it begins, from above.
    pub(crate) top: usize,
}

/// A line from a point to one of the next column.
#[derive(Drop)]
pub(crate) struct PointLink {
    pub(crate) from: usize,
    /// How far below the top of the point it begins.
    pub(crate) from_below: usize,
    pub(crate) to: usize,
    pub(crate) to_below: usize,
    pub(crate) is_lazy: bool,
    /// The box whose lines run together in it.
    pub(crate) trunk: usize,
}

/// Columns with what stands in them.
#[derive(Drop)]
pub(crate) struct ColumnPlan {
    /// The blocks, in their order, and then where lines pass.
    pub(crate) points: Vec<ColumnPoint>,
    /// In the order of the boxes whose lines run together in them.
    pub(crate) links: Vec<PointLink>,
    /// The points of each column, from above.
    pub(crate) columns: Vec<Vec<usize>>,
}

/// The columns of blocks that stand in these.
pub(crate) fn points_of(
    alloc: Global,
    graph: &DrawnGraph,
    blocks: &NodeBlocks,
    layers: &[usize],
) -> Result<ColumnPlan, AllocError> {
    let mut drafted = PlanDraft {
        alloc,
        points: block_points(alloc, blocks, layers)?,
        links: Vec::new(alloc),
        passes: BTreeMap::new(alloc),
        known: BTreeMap::new(alloc),
    };
    let degrees = BoxDegrees::of(alloc, graph, blocks)?;
    for link in &graph.links {
        if blocks.of(link.from) != blocks.of(link.to) {
            drafted.add_link(blocks, *link, degrees.joins_at_target(*link))?;
        }
    }
    drafted.finish()
}

/// How high a block of so many boxes is.
pub(crate) fn block_height(members: usize) -> usize {
    if members < 2 {
        return BOX_HEIGHT;
    }
    grid_rows(members)
        .saturating_mul(MEMBER_STEP)
        .saturating_add(FRAME_HEAD + FRAME_FOOT)
}

/// In how many columns the boxes of a block stand.
pub(crate) fn grid_columns(members: usize) -> usize {
    if members > MOST_MEMBERS {
        (members / 20).saturating_add(1)
    } else {
        1
    }
}

/// How many boxes of a block stand below each other.
pub(crate) fn grid_rows(members: usize) -> usize {
    let columns = grid_columns(members);
    members
        .saturating_add(columns)
        .saturating_sub(1)
        .checked_div(columns)
        .unwrap_or(members)
}

/// How far below the top of a block the middle is of its box of this number.
pub(crate) fn member_middle(members: usize, number: usize) -> usize {
    if members < 2 {
        return BOX_HEIGHT / 2;
    }
    if members > MOST_MEMBERS {
        return block_height(members) / 2;
    }
    row_middle(number)
}

/// The same where a block has several.
pub(crate) fn row_middle(number: usize) -> usize {
    number
        .saturating_mul(MEMBER_STEP)
        .saturating_add(FRAME_HEAD + BOX_HEIGHT / 2)
}

fn block_points(
    alloc: Global,
    blocks: &NodeBlocks,
    layers: &[usize],
) -> Result<Vec<ColumnPoint>, AllocError> {
    let mut points = Vec::new(alloc);
    for (members, layer) in blocks.members.iter().zip(layers) {
        points.push(ColumnPoint {
            layer: *layer,
            height: block_height(members.len()),
            is_pass: false,
            top: 0,
        })?;
    }
    Ok(points)
}

// How many lines begin and end at each box.
#[derive(Drop)]
struct BoxDegrees {
    begin: Vec<usize>,
    end: Vec<usize>,
}

impl BoxDegrees {
    fn of(
        alloc: Global,
        graph: &DrawnGraph,
        blocks: &NodeBlocks,
    ) -> Result<BoxDegrees, AllocError> {
        let count = graph.nodes.len();
        let mut degrees = BoxDegrees {
            begin: vec![in alloc; 0; count]?,
            end: vec![in alloc; 0; count]?,
        };
        for link in &graph.links {
            if blocks.of(link.from) != blocks.of(link.to) {
                count_up(degrees.begin.as_mut_slice(), link.from);
                count_up(degrees.end.as_mut_slice(), link.to);
            }
        }
        Ok(degrees)
    }

    // Whether a line runs together with the others to its end, and not with those from where it begins.
    fn joins_at_target(&self, link: DrawnLink) -> bool {
        self.end.get(link.to).copied().unwrap_or(0)
            >= self.begin.get(link.from).copied().unwrap_or(0)
    }
}

fn count_up(counts: &mut [usize], at: usize) {
    if let Some(count) = counts.get_mut(at) {
        *count = count.saturating_add(1);
    }
}

// An end of a line: a point, and how far below its top.
#[derive(Clone, Copy)]
struct LineEnd {
    point: usize,
    below: usize,
}

// Points and lines, as far as they are found.
#[derive(Drop)]
struct PlanDraft {
    alloc: Global,
    points: Vec<ColumnPoint>,
    links: Vec<PointLink>,
    // Where the lines to a box, or from it, pass a column.
    passes: BTreeMap<(usize, bool, usize), usize>,
    // The lines by their ends.
    known: BTreeMap<(usize, usize, usize, usize), usize>,
}

impl PlanDraft {
    // Adds a line from a box to another one, over the columns between them.
    fn add_link(
        &mut self,
        blocks: &NodeBlocks,
        link: DrawnLink,
        joins_at_target: bool,
    ) -> Result<(), AllocError> {
        let trunk = if joins_at_target { link.to } else { link.from };
        let mut from = end_at(blocks, link.from);
        let to = end_at(blocks, link.to);
        let first = self.layer_of(from.point).saturating_add(1);
        for layer in first..self.layer_of(to.point) {
            let pass = LineEnd {
                point: self.pass(trunk, joins_at_target, layer)?,
                below: PASS_HEIGHT / 2,
            };
            self.join(from, pass, trunk, link.is_lazy)?;
            from = pass;
        }
        self.join(from, to, trunk, link.is_lazy)
    }

    fn layer_of(&self, point: usize) -> usize {
        self.points.get(point).map_or(0, |point| point.layer)
    }

    // Where the lines to a box, or from it, pass a column.
    fn pass(&mut self, trunk: usize, is_target: bool, layer: usize) -> Result<usize, AllocError> {
        let next = self.points.len();
        let point = *self
            .passes
            .entry((trunk, is_target, layer))?
            .or_insert(next);
        if point == next {
            self.points.push(ColumnPoint {
                layer,
                height: PASS_HEIGHT,
                is_pass: true,
                top: 0,
            })?;
        }
        Ok(point)
    }

    // Adds a line between neighbouring columns, if it is not there.
    fn join(
        &mut self,
        from: LineEnd,
        to: LineEnd,
        trunk: usize,
        is_lazy: bool,
    ) -> Result<(), AllocError> {
        let next = self.links.len();
        let key = (from.point, from.below, to.point, to.below);
        let at = *self.known.entry(key)?.or_insert(next);
        if let Some(link) = self.links.get_mut(at) {
            link.is_lazy = link.is_lazy && is_lazy;
            return Ok(());
        }
        self.links.push(PointLink {
            from: from.point,
            from_below: from.below,
            to: to.point,
            to_below: to.below,
            is_lazy,
            trunk,
        })?;
        Ok(())
    }

    fn finish(self) -> Result<ColumnPlan, AllocError> {
        let PlanDraft {
            alloc,
            points,
            mut links,
            passes: _passes,
            known: _known,
        } = self;
        links.sort_by_key(|link| link.trunk)?;
        let mut columns = Vec::new(alloc);
        for (number, point) in points.iter().enumerate() {
            for _ in columns.len()..point.layer.saturating_add(1) {
                columns.push(Vec::new(alloc))?;
            }
            push_at(columns.as_mut_slice(), point.layer, number)?;
        }
        Ok(ColumnPlan {
            points,
            links,
            columns,
        })
    }
}

// Where lines begin and end at a box.
fn end_at(blocks: &NodeBlocks, node: usize) -> LineEnd {
    let point = blocks.of(node);
    let below = match blocks.members.get(point) {
        None => 0,
        Some(members) => {
            let number = members.iter().position(|member| *member == node);
            member_middle(members.len(), number.unwrap_or(0))
        }
    };
    LineEnd { point, below }
}

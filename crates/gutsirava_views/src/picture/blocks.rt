//! The boxes that reach each other, by Kosaraju's way: in the order in which they are left, backwards.

use crate::picture::nodes::DrawnLink;
use std::alloc::{AllocError, Global};

/// The block of what is in none yet.
const NOWHERE: usize = usize::MAX;

/// Blocks: boxes that reach each other, each block behind all those that ask for it.
#[derive(Drop)]
pub(crate) struct NodeBlocks {
    /// The block of each box.
    pub(crate) of_node: Vec<usize>,
    /// The boxes of each block, in their order.
    pub(crate) members: Vec<Vec<usize>>,
}

/// The blocks of so many boxes.
pub(crate) fn blocks_of(
    alloc: Global,
    count: usize,
    links: &[DrawnLink],
) -> Result<NodeBlocks, AllocError> {
    let order = left_order(alloc, count, links)?;
    let backward = lists_of(alloc, count, links, LinkSide::Backward)?;
    let mut blocks = NodeBlocks::new(alloc, count)?;
    for node in order.iter().rev() {
        blocks.add(alloc, backward.as_slice(), *node)?;
    }
    Ok(blocks)
}

// All boxes, in the order in which a walk leaves them.
fn left_order(alloc: Global, count: usize, links: &[DrawnLink]) -> Result<Vec<usize>, AllocError> {
    let onward = lists_of(alloc, count, links, LinkSide::Onward)?;
    let mut walk = DepthFirst::new(alloc, onward.as_slice(), count)?;
    for node in (0..count).rev() {
        walk.run_from(node)?;
    }
    let DepthFirst { left, .. } = walk;
    Ok(left)
}

// Which way links lead.
#[derive(Clone, Copy)]
enum LinkSide {
    Onward,
    Backward,
}

impl DrawnLink {
    fn ends(self, side: LinkSide) -> (usize, usize) {
        match side {
            LinkSide::Onward => (self.from, self.to),
            LinkSide::Backward => (self.to, self.from),
        }
    }
}

// For each box those that links lead to, the last first.
fn lists_of(
    alloc: Global,
    count: usize,
    links: &[DrawnLink],
    side: LinkSide,
) -> Result<Vec<Vec<usize>>, AllocError> {
    let mut lists = empty_lists(alloc, count)?;
    for link in links.iter().rev() {
        let (from, to) = link.ends(side);
        push_at(lists.as_mut_slice(), from, to)?;
    }
    Ok(lists)
}

/// Appends to the list of this number, if there is one.
pub(crate) fn push_at(
    lists: &mut [Vec<usize>],
    at: usize,
    number: usize,
) -> Result<(), AllocError> {
    if let Some(list) = lists.get_mut(at) {
        list.push(number)?;
    }
    Ok(())
}

/// So many lists with nothing in them.
pub(crate) fn empty_lists(alloc: Global, count: usize) -> Result<Vec<Vec<usize>>, AllocError> {
    let mut lists = Vec::new(alloc);
    for _ in 0..count {
        lists.push(Vec::new(alloc))?;
    }
    Ok(lists)
}

// A walk that goes on from each box to those behind it before it leaves that box.
#[derive(Drop)]
struct DepthFirst<'g> {
    lists: &'g [Vec<usize>],
    met: Vec<bool>,
    // The boxes that are not left, each with how many of those behind it were looked at.
    stack: Vec<(usize, usize)>,
    left: Vec<usize>,
}

impl<'g> DepthFirst<'g> {
    fn new(
        alloc: Global,
        lists: &'g [Vec<usize>],
        count: usize,
    ) -> Result<DepthFirst<'g>, AllocError> {
        Ok(DepthFirst {
            lists,
            met: vec![in alloc; false; count]?,
            stack: Vec::new(alloc),
            left: Vec::new(alloc),
        })
    }

    fn run_from(&mut self, node: usize) -> Result<(), AllocError> {
        self.enter(node)?;
        for _ in 0..usize::MAX {
            let Some((node, at)) = self.stack.pop() else {
                break;
            };
            self.step(node, at)?;
        }
        Ok(())
    }

    // Looks at what stands behind a box at this place.
    fn step(&mut self, node: usize, at: usize) -> Result<(), AllocError> {
        match next_of(self.lists, node, at) {
            Some(next) => {
                self.stack.push((node, at.saturating_add(1)))?;
                self.enter(next)
            }
            None => {
                self.left.push(node)?;
                Ok(())
            }
        }
    }

    fn enter(&mut self, node: usize) -> Result<(), AllocError> {
        if let Some(met) = self.met.get_mut(node)
            && !*met
        {
            *met = true;
            self.stack.push((node, 0))?;
        }
        Ok(())
    }
}

fn next_of(lists: &[Vec<usize>], node: usize, at: usize) -> Option<usize> {
    lists.get(node)?.get(at).copied()
}

impl NodeBlocks {
    fn new(alloc: Global, count: usize) -> Result<NodeBlocks, AllocError> {
        Ok(NodeBlocks {
            of_node: vec![in alloc; NOWHERE; count]?,
            members: Vec::new(alloc),
        })
    }

    // Adds the block of a box that is in none: all that lead to it and are in none.
    fn add(
        &mut self,
        alloc: Global,
        backward: &[Vec<usize>],
        node: usize,
    ) -> Result<(), AllocError> {
        let members = self.block_from(alloc, backward, node)?;
        if !members.is_empty() {
            self.members.push(members)?;
        }
        Ok(())
    }

    // The boxes of the next block, in their order.
    fn block_from(
        &mut self,
        alloc: Global,
        backward: &[Vec<usize>],
        node: usize,
    ) -> Result<Vec<usize>, AllocError> {
        let mut members = Vec::new(alloc);
        self.take(node, &mut members)?;
        for at in 0..usize::MAX {
            let Some(member) = members.get(at).copied() else {
                break;
            };
            self.take_all(backward.get(member), &mut members)?;
        }
        members.sort()?;
        Ok(members)
    }

    fn take_all(
        &mut self,
        nodes: Option<&Vec<usize>>,
        members: &mut Vec<usize>,
    ) -> Result<(), AllocError> {
        if let Some(nodes) = nodes {
            for node in nodes {
                self.take(*node, members)?;
            }
        }
        Ok(())
    }

    // Takes a box into the next block, if it is in none.
    fn take(&mut self, node: usize, members: &mut Vec<usize>) -> Result<(), AllocError> {
        let number = self.members.len();
        if let Some(block) = self.of_node.get_mut(node)
            && *block == NOWHERE
        {
            *block = number;
            members.push(node)?;
        }
        Ok(())
    }

    /// The block of a box.
    pub(crate) fn of(&self, node: usize) -> usize {
        self.of_node.get(node).copied().unwrap_or(0)
    }
}

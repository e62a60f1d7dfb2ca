//! How far from above the points of each column stand: near those that they have lines to, in an order with few crossings.

use crate::picture::points::{ColumnPlan, ColumnPoint, PointLink};
use std::alloc::{AllocError, Global};

/// Where the middle of a picture is while it is arranged: far from 0, so that nothing is cut off there.
const MIDDLE: usize = 1_000_000_000;

/// So often each column is arranged after its neighbours.
const SWEEPS: usize = 24;

/// The gaps between points: boxes, a box and lines that pass, and lines alone.
const BOX_GAP: usize = 10;

const MIXED_GAP: usize = 9;

const PASS_GAP: usize = 5;

/// After which neighbours a column is arranged.
#[derive(Clone, Copy, PartialEq, Eq)]
enum Side {
    Before,
    Behind,
    Both,
}

/// The end of a line at a neighbour.
#[derive(Clone, Copy)]
struct Neighbour {
    point: usize,
    // How far below the top of the neighbour the line ends, and below that of the point itself.
    below: usize,
    own: usize,
}

/// Lets each point stand where it is to stand; the first at 0.
pub(crate) fn settle(alloc: Global, plan: &mut ColumnPlan) -> Result<(), AllocError> {
    let mut rows = Arrangement::new(alloc, plan)?;
    stack(plan);
    for sweep in 0..SWEEPS {
        if sweep % 2 == 0 {
            rows.arrange_all(plan, Side::Before)?;
        } else {
            rows.arrange_back(plan, Side::Behind)?;
        }
    }
    for _ in 0..SWEEPS {
        rows.arrange_all(plan, Side::Both)?;
        rows.arrange_back(plan, Side::Both)?;
    }
    lower(plan.points.as_mut_slice());
    Ok(())
}

// Lets the points of each column stand below each other, around the middle.
fn stack(plan: &mut ColumnPlan) {
    let ColumnPlan {
        points,
        columns,
        ..
    } = plan;
    for column in columns.iter() {
        stack_column(points.as_mut_slice(), column.as_slice());
    }
}

fn stack_column(points: &mut [ColumnPoint], column: &[usize]) {
    let height = column_height(points, column);
    let mut top = MIDDLE.saturating_sub(height / 2);
    let mut last = None;
    for number in column {
        if let Some(point) = points.get_mut(*number) {
            top = top.saturating_add(gap_between(last, point.is_pass));
            last = Some(point.is_pass);
            point.top = top;
            top = top.saturating_add(point.height);
        }
    }
}

// Lets the first point stand at 0, and all others as far below it as they did.
fn lower(points: &mut [ColumnPoint]) {
    let mut least = usize::MAX;
    for point in points.iter() {
        least = least.min(point.top);
    }
    for point in points.iter_mut() {
        point.top = point.top.saturating_sub(least);
    }
}

// The neighbours of each point.
#[derive(Drop)]
struct Arrangement {
    alloc: Global,
    before: Vec<Vec<Neighbour>>,
    behind: Vec<Vec<Neighbour>>,
}

fn no_neighbours(alloc: Global, count: usize) -> Result<Vec<Vec<Neighbour>>, AllocError> {
    let mut lists = Vec::new(alloc);
    for _ in 0..count {
        lists.push(Vec::new(alloc))?;
    }
    Ok(lists)
}

impl Arrangement {
    fn new(alloc: Global, plan: &ColumnPlan) -> Result<Arrangement, AllocError> {
        let mut rows = Arrangement {
            alloc,
            before: no_neighbours(alloc, plan.points.len())?,
            behind: no_neighbours(alloc, plan.points.len())?,
        };
        for link in &plan.links {
            rows.add(link)?;
        }
        Ok(rows)
    }

    fn add(&mut self, link: &PointLink) -> Result<(), AllocError> {
        if let Some(list) = self.behind.get_mut(link.from) {
            list.push(Neighbour {
                point: link.to,
                below: link.to_below,
                own: link.from_below,
            })?;
        }
        if let Some(list) = self.before.get_mut(link.to) {
            list.push(Neighbour {
                point: link.from,
                below: link.from_below,
                own: link.to_below,
            })?;
        }
        Ok(())
    }

    // Arranges the columns from the first to the last.
    fn arrange_all(&self, plan: &mut ColumnPlan, side: Side) -> Result<(), AllocError> {
        let ColumnPlan {
            points,
            columns,
            ..
        } = plan;
        for column in columns.iter_mut() {
            self.arrange(points.as_mut_slice(), column, side)?;
        }
        Ok(())
    }

    // Arranges the columns from the last to the first.
    fn arrange_back(&self, plan: &mut ColumnPlan, side: Side) -> Result<(), AllocError> {
        let ColumnPlan {
            points,
            columns,
            ..
        } = plan;
        for column in columns.iter_mut().rev() {
            self.arrange(points.as_mut_slice(), column, side)?;
        }
        Ok(())
    }

    // Arranges a column: its points come as near as they can to where their neighbours wish them; their order changes only
    // where neighbours of one side are asked.
    fn arrange(
        &self,
        points: &mut [ColumnPoint],
        column: &mut Vec<usize>,
        side: Side,
    ) -> Result<(), AllocError> {
        let wishes = self.wishes(points, column.as_slice(), side)?;
        if side != Side::Both {
            reorder(column.as_mut_slice(), wishes.as_slice());
        }
        let tops = self.tops(points, column.as_slice(), wishes.as_slice())?;
        place_at(points, column.as_slice(), tops.as_slice());
        Ok(())
    }

    // Where the points of a column are wished; in the order of that, where neighbours of one side are asked.
    fn wishes(
        &self,
        points: &[ColumnPoint],
        column: &[usize],
        side: Side,
    ) -> Result<Vec<ColumnWish>, AllocError> {
        let mut wishes = Vec::new(self.alloc);
        for (place, number) in column.iter().enumerate() {
            wishes.push(self.wish(points, *number, place, side))?;
        }
        if side != Side::Both {
            wishes.sort()?;
        }
        Ok(wishes)
    }

    // Where the neighbours of a point wish its top.
    fn wish(&self, points: &[ColumnPoint], number: usize, place: usize, side: Side) -> ColumnWish {
        let mut wish = WishTally { sum: 0, count: 0 };
        if side != Side::Behind {
            wish.add_all(points, neighbours(&self.before, number));
        }
        if side != Side::Before {
            wish.add_all(points, neighbours(&self.behind, number));
        }
        let (top, is_pass, height) = match points.get(number) {
            Some(point) => (point.top, point.is_pass, point.height),
            None => (MIDDLE, false, 0),
        };
        let wished = wish.mean().unwrap_or(top);
        let weight = if is_pass { 4 } else { 1 };
        ColumnWish {
            middle: wished.saturating_add(height / 2),
            place,
            number,
            top: wished,
            weight: wish.count.max(1).saturating_mul(weight),
        }
    }

    // The tops of the points of a column in this order, each as near to its wish as the others let it.
    fn tops(
        &self,
        points: &[ColumnPoint],
        column: &[usize],
        wishes: &[ColumnWish],
    ) -> Result<Vec<usize>, AllocError> {
        let offsets = offsets_of(self.alloc, points, column)?;
        let pools = pools_of(self.alloc, wishes, offsets.as_slice())?;
        tops_of(self.alloc, pools.as_slice(), offsets.as_slice())
    }
}

// How far below the first point of a column each point is to stand.
fn offsets_of(
    alloc: Global,
    points: &[ColumnPoint],
    column: &[usize],
) -> Result<Vec<usize>, AllocError> {
    let mut below: usize = 0;
    let mut last = None;
    let mut offsets = Vec::new(alloc);
    for number in column {
        if let Some(point) = points.get(*number) {
            below = below.saturating_add(gap_between(last, point.is_pass));
            last = Some(point.is_pass);
            offsets.push(below)?;
            below = below.saturating_add(point.height);
        }
    }
    Ok(offsets)
}

// The points that stand close together, where each is wished at so much below the first.
fn pools_of(
    alloc: Global,
    wishes: &[ColumnWish],
    offsets: &[usize],
) -> Result<Vec<WishPool>, AllocError> {
    let mut pools = Vec::new(alloc);
    for (wish, offset) in wishes.iter().zip(offsets) {
        pools.push(WishPool::of(wish.top.saturating_sub(*offset), wish.weight))?;
        merge_last(&mut pools)?;
    }
    Ok(pools)
}

// Where a point is wished, before the others of its column.
#[derive(Clone, Copy, PartialEq, Eq, PartialOrd, Ord)]
struct ColumnWish {
    middle: usize,
    place: usize,
    number: usize,
    top: usize,
    weight: usize,
}

// The wishes of the neighbours of a point.
#[derive(Clone, Copy)]
struct WishTally {
    sum: usize,
    count: usize,
}

impl WishTally {
    fn add_all(&mut self, points: &[ColumnPoint], neighbours: &[Neighbour]) {
        for neighbour in neighbours {
            if let Some(point) = points.get(neighbour.point) {
                let at = point.top.saturating_add(neighbour.below);
                self.sum = self.sum.saturating_add(at.saturating_sub(neighbour.own));
                self.count = self.count.saturating_add(1);
            }
        }
    }

    fn mean(self) -> Option<usize> {
        self.sum.checked_div(self.count)
    }
}

fn neighbours(lists: &Vec<Vec<Neighbour>>, number: usize) -> &[Neighbour] {
    match lists.get(number) {
        Some(list) => list.as_slice(),
        None => &[],
    }
}

fn place_at(points: &mut [ColumnPoint], column: &[usize], tops: &[usize]) {
    for (number, top) in column.iter().zip(tops) {
        if let Some(point) = points.get_mut(*number) {
            point.top = *top;
        }
    }
}

fn reorder(column: &mut [usize], wishes: &[ColumnWish]) {
    for (number, wish) in column.iter_mut().zip(wishes) {
        *number = wish.number;
    }
}

fn column_height(points: &[ColumnPoint], column: &[usize]) -> usize {
    let mut height: usize = 0;
    let mut last = None;
    for number in column {
        if let Some(point) = points.get(*number) {
            let gap = gap_between(last, point.is_pass);
            last = Some(point.is_pass);
            height = height.saturating_add(gap).saturating_add(point.height);
        }
    }
    height
}

// The gap before a point, where this one stands above it.
fn gap_between(last: Option<bool>, is_pass: bool) -> usize {
    match last {
        None => 0,
        Some(was_pass) if was_pass && is_pass => PASS_GAP,
        Some(was_pass) if was_pass || is_pass => MIXED_GAP,
        Some(_) => BOX_GAP,
    }
}

// Points that stand close together, and where they wish to stand.
#[derive(Clone, Copy)]
struct WishPool {
    sum: usize,
    weight: usize,
    count: usize,
}

impl WishPool {
    fn of(wish: usize, weight: usize) -> WishPool {
        WishPool {
            sum: wish.saturating_mul(weight),
            weight,
            count: 1,
        }
    }

    fn mean(self) -> usize {
        self.sum.checked_div(self.weight).unwrap_or(MIDDLE)
    }

    fn with(self, other: WishPool) -> WishPool {
        WishPool {
            sum: self.sum.saturating_add(other.sum),
            weight: self.weight.saturating_add(other.weight),
            count: self.count.saturating_add(other.count),
        }
    }
}

// Joins the last pools as long as one is wished above the one before it (the method of adjacent violators).
fn merge_last(pools: &mut Vec<WishPool>) -> Result<(), AllocError> {
    for _ in 0..usize::MAX {
        let Some(last) = pools.pop() else {
            break;
        };
        match pools.pop() {
            Some(before) if before.mean() > last.mean() => pools.push(before.with(last))?,
            Some(before) => {
                pools.push(before)?;
                pools.push(last)?;
                break;
            }
            None => {
                pools.push(last)?;
                break;
            }
        }
    }
    Ok(())
}

// The top of each point: that of its pool, and as far below it as it is to stand.
fn tops_of(alloc: Global, pools: &[WishPool], offsets: &[usize]) -> Result<Vec<usize>, AllocError> {
    let mut tops = Vec::new(alloc);
    for pool in pools {
        for _ in 0..pool.count {
            let offset = offsets.get(tops.len()).copied().unwrap_or(0);
            tops.push(pool.mean().saturating_add(offset))?;
        }
    }
    Ok(tops)
}

//! A picture of what stands in columns.

ghost use Rattle.std.specs.Prelude.{◌≡◌, IfOk, OnOk, string_bytes};
ghost use Rattle.gutsirava_views.specs.Boxes.{AddsBoxes, Grows};
ghost use Rattle.gutsirava_views.specs.Lines.{AddsLine, AddsLines, IsDrawn, Leaves, Meets, height_of, left_of, right_of, width_of};

use crate::picture::blocks::NodeBlocks;
use crate::picture::boxes::{box_width, draw_box, text_length, tint};
use crate::picture::nodes::{DrawnBox, DrawnGraph, DrawnLink};
use crate::picture::points::{
    BOX_HEIGHT, ColumnPlan, MOST_MEMBERS, PointLink, grid_columns, grid_rows, row_middle,
};
use crate::picture::sheet::{BoxFrame, SheetSpot, SvgSheet};
use std::alloc::{AllocError, Global};

const STYLE: &str = "\
.p{fill:#fff}\
text{font:11px ui-monospace,SFMono-Regular,Menlo,Consolas,\"DejaVu Sans Mono\",\"Liberation Mono\",monospace;fill:#0f172a}\
.t{font-size:17px;font-weight:700}.u{font-size:12px;fill:#64748b}.d{fill:#94a3b8}.q{font-size:9px;fill:#64748b}\
.w{font-size:10px;fill:#b45309}.x{font-size:10px;fill:#94a3b8}\
.b{fill:#fff;stroke:#cbd5e1}.h{fill:#f8fafc;stroke:#cbd5e1}.e{stroke:#0f172a;stroke-width:1.8}.z{fill:#f8fafc;stroke:#94a3b8;stroke-dasharray:3 2}\
.f{fill:#fffbeb;stroke:#f59e0b;stroke-dasharray:5 3}\
.l{fill:none;stroke-width:1.25;stroke-opacity:.5}.y{stroke-dasharray:5 4}\
.a{fill:#64748b}.r{fill:none;stroke:#f59e0b;stroke-width:1.1}.n{fill:none;stroke:#94a3b8;stroke-width:1.1}\
g:hover>.l{stroke-opacity:1;stroke-width:2.2}";

/// What the lines stand for.
const KEY: &str =
    "lines lead from a module to what it imports \u{b7} dashed: import() alone \u{b7} framed: modules that import each other";

/// The edges of a picture.
const MARGIN: usize = 28;

/// Where columns begin, from above.
const HEAD: usize = 84;

/// What a frame has at each side of its boxes.
const FRAME_SIDE: usize = 34;

/// How wide a frame is at least.
const FRAME_LEAST: usize = 176;

/// How far the columns of a frame stand apart.
const GRID_GAP: usize = 10;

/// Draws columns: first what is behind the lines, then each line between the points that it joins, then each box.
pub(crate) fn draw(
    alloc: Global,
    graph: &DrawnGraph,
    blocks: &NodeBlocks,
    plan: &ColumnPlan,
) -> Result<String, AllocError>
    ensures { IfOk result (λ text. IsDrawn graph.now plan.now (string_bytes text)) }
{
    let columns = Columns::of(alloc, graph, blocks, plan)?;
    draw_all(
        alloc,
        DrawingBoard {
            graph,
            blocks,
            plan,
            columns: &columns,
        },
    )
}

fn draw_all(alloc: Global, board: DrawingBoard) -> Result<String, AllocError>
    ensures { IfOk result (λ text.
        IsDrawn board.entry.graph.now board.entry.plan.now (string_bytes text)) }
{
    let mut legend = SvgSheet::new(alloc);
    board.draw_legend(&mut legend)?;
    let mut sheet = SvgSheet::new(alloc);
    board.draw_ground(&mut sheet)?;
    board.draw_lines(&mut sheet)?;
    draw_boxes(&mut sheet, board)?;
    sheet.push(legend.text.as_str())?;
    sheet.push("</svg>\n")?;
    let SvgSheet { text, .. } = sheet;
    Ok(text)
}

// Where each column begins, and how wide it is.
#[derive(Drop)]
struct Columns {
    lefts: Vec<usize>,
    widths: Vec<usize>,
    right: usize,
    bottom: usize,
}

impl Columns {
    fn of(
        alloc: Global,
        graph: &DrawnGraph,
        blocks: &NodeBlocks,
        plan: &ColumnPlan,
    ) -> Result<Columns, AllocError> {
        let mut columns = Columns {
            lefts: Vec::new(alloc),
            widths: Vec::new(alloc),
            right: MARGIN,
            bottom: 0,
        };
        for (layer, column) in plan.columns.iter().enumerate() {
            let width = column_width(graph, blocks, column.as_slice());
            let gap = if layer == 0 {
                0
            } else {
                gap_before(plan, layer)
            };
            let left = columns.right.saturating_add(gap);
            columns.lefts.push(left)?;
            columns.widths.push(width)?;
            columns.right = left.saturating_add(width);
        }
        for point in &plan.points {
            columns.bottom = columns.bottom.max(point.top.saturating_add(point.height));
        }
        columns.right = columns.right.max(760);
        columns.bottom = columns.bottom.saturating_add(HEAD);
        Ok(columns)
    }

    fn left(&self, layer: usize) -> usize
        ensures { result ≡ left_of self.now layer }
    {
        self.lefts.get(layer).copied().unwrap_or(MARGIN)
    }

    fn width(&self, layer: usize) -> usize
        ensures { result ≡ width_of self.now layer }
    {
        self.widths.get(layer).copied().unwrap_or(0)
    }

    fn right(&self, layer: usize) -> usize
        ensures { result ≡ right_of self.now layer }
    {
        self.left(layer).saturating_add(self.width(layer))
    }
}

// How wide a column is: as its widest block.
fn column_width(graph: &DrawnGraph, blocks: &NodeBlocks, column: &[usize]) -> usize {
    let mut widest = 0;
    for point in column {
        if let Some(members) = blocks.members.get(*point) {
            widest = widest.max(block_width(graph, members.as_slice()));
        }
    }
    widest
}

// How wide a block is.
fn block_width(graph: &DrawnGraph, members: &[usize]) -> usize {
    let mut widest: usize = 0;
    for member in members {
        if let Some(node) = graph.nodes.get(*member) {
            widest = widest.max(box_width(node));
        }
    }
    if members.len() < 2 {
        return widest;
    }
    let columns = grid_columns(members.len());
    widest
        .saturating_add(GRID_GAP)
        .saturating_mul(columns)
        .saturating_add(2 * FRAME_SIDE)
        .saturating_sub(GRID_GAP)
        .max(FRAME_LEAST)
}

// How far a column stands from the one before it: the farther, the more lines there are.
fn gap_before(plan: &ColumnPlan, layer: usize) -> usize {
    let mut lines: usize = 0;
    for link in &plan.links {
        if plan.points.get(link.to).is_some_and(|to| to.layer == layer) {
            lines = lines.saturating_add(1);
        }
    }
    lines.min(70).saturating_add(48)
}

// What is drawn.
#[derive(Clone, Copy)]
struct DrawingBoard<'g> {
    graph: &'g DrawnGraph,
    blocks: &'g NodeBlocks,
    plan: &'g ColumnPlan,
    columns: &'g Columns,
}

impl DrawingBoard<'_> {
    // Draws what is behind lines and boxes.
    fn draw_ground(self, sheet: &mut SvgSheet) -> Result<(), AllocError> {
        self.begin(sheet)?;
        self.draw_cycles(sheet)
    }

    // Begins the picture: its size, its style and its title.
    fn begin(self, sheet: &mut SvgSheet) -> Result<(), AllocError> {
        let whole = BoxFrame {
            left: 0,
            top: 0,
            width: self.columns.right.saturating_add(MARGIN),
            height: self.columns.bottom.saturating_add(90),
        };
        begin_svg(sheet, whole)?;
        sheet.label("t", spot(MARGIN, 36), self.graph.title.as_str())?;
        let subtitle = subtitle_of(sheet.alloc, self.graph.subtitle.as_str(), self.cycles())?;
        sheet.label("u", spot(MARGIN, 56), subtitle.as_str())?;
        sheet.push("\n")
    }

    fn cycles(self) -> usize {
        let mut cycles: usize = 0;
        for members in &self.blocks.members {
            if members.len() > 1 {
                cycles = cycles.saturating_add(1);
            }
        }
        cycles
    }

    // Draws the lines: those that run together in one group.
    fn draw_lines(self, sheet: &mut SvgSheet) -> Result<(), AllocError>
        ensures { OnOk result (AddsLines self.entry.plan.now self.entry.columns.now
            self.entry.plan.now.links.items
            (string_bytes sheet.old.text) (string_bytes sheet.new.text)) }
    {
        let mut crossed = vec![in sheet.alloc; false; self.plan.points.len()]?;
        self.draw_each(sheet, crossed.as_mut_slice())
    }

    // Draws lines in their order; some places where others pass a column were crossed already.
    #[tactic(auto, using(std::proofs::lemmas::Grind::common_steps, crate::proofs::BoxLemmas::no_lines, crate::proofs::BoxLemmas::lines_step, crate::proofs::BoxLemmas::lines_all))]
    fn draw_each(self, sheet: &mut SvgSheet, crossed: &mut [bool]) -> Result<(), AllocError>
        ensures { OnOk result (AddsLines self.entry.plan.now self.entry.columns.now
            self.entry.plan.now.links.items
            (string_bytes sheet.old.text) (string_bytes sheet.new.text)) }
    {
        let mut last = None;
        for link in &self.plan.links {
            turn_to(sheet, self.graph, link.trunk, last)?;
            last = Some(link.trunk);
            let was_crossed = self.was_crossed(crossed, link.to);
            self.draw_line(sheet, link, was_crossed)?;
        }
        end_trunk(sheet, last)
    }

    // Draws a line; not through its last column where another one was drawn there.
    fn draw_line(
        self,
        sheet: &mut SvgSheet,
        link: &PointLink,
        was_crossed: bool,
    ) -> Result<(), AllocError>
        ensures { OnOk result (AddsLine self.entry.plan.now self.entry.columns.now link.now
            (string_bytes sheet.old.text) (string_bytes sheet.new.text)) }
    {
        let begin = self.line_begin(link);
        let end = self.line_end(link);
        let bend = begin.outer.saturating_add(end.outer) / 2;
        let class = if link.is_lazy { "l y" } else { "l" };
        let far = if was_crossed { end.outer } else { end.inner };
        let way = [
            ("M", begin.inner),
            (" ", begin.top),
            ("H", begin.outer),
            ("C", bend),
            (" ", begin.top),
            (" ", bend),
            (" ", end.top),
            (" ", end.outer),
            (" ", end.top),
            ("H", far),
        ];
        sheet.path(class, &way, "")
    }

    // Whether a line was drawn already where others pass a column; one is from now on.
    fn was_crossed(self, crossed: &mut [bool], point: usize) -> bool {
        let is_pass = self.plan.points.get(point).is_some_and(|it| it.is_pass);
        match crossed.get_mut(point) {
            Some(crossed) if is_pass => std::mem::replace(crossed, true),
            _ => false,
        }
    }

    // Where a line begins: at the right of its point.
    fn line_begin(self, link: &PointLink) -> LineTip
        ensures { Leaves self.entry.plan.now self.entry.columns.now link.now result }
    {
        let Some(point) = self.plan.points.get(link.from) else {
            return LineTip::NONE;
        };
        let outer = self.columns.right(point.layer);
        LineTip {
            outer,
            inner: outer.saturating_sub(self.side_of(link.from)),
            top: top_of(point.top, link.from_below),
        }
    }

    // Where a line ends: at the left of its point, or at its right where it passes a column.
    fn line_end(self, link: &PointLink) -> LineTip
        ensures { Meets self.entry.plan.now self.entry.columns.now link.now result }
    {
        let Some(point) = self.plan.points.get(link.to) else {
            return LineTip::NONE;
        };
        let outer = self.columns.left(point.layer);
        let inner = if point.is_pass {
            self.columns.right(point.layer)
        } else {
            outer.saturating_add(self.side_of(link.to))
        };
        LineTip {
            outer,
            inner,
            top: top_of(point.top, link.to_below),
        }
    }

    // How far the boxes of a block are from its edge.
    fn side_of(self, block: usize) -> usize {
        match self.blocks.members.get(block) {
            Some(members) if members.len() > 1 && members.len() <= MOST_MEMBERS => FRAME_SIDE,
            _ => 0,
        }
    }

    // Draws the frames of cycles.
    fn draw_cycles(self, sheet: &mut SvgSheet) -> Result<(), AllocError> {
        for (block, members) in self.blocks.members.iter().enumerate() {
            if members.len() > 1 {
                self.draw_cycle(sheet, members.as_slice(), self.block_frame(block))?;
            }
        }
        Ok(())
    }

    // Where a block stands.
    fn block_frame(self, block: usize) -> BoxFrame {
        match self.plan.points.get(block) {
            Some(point) => BoxFrame {
                left: self.columns.left(point.layer),
                top: top_of(point.top, 0),
                width: self.columns.width(point.layer),
                height: point.height,
            },
            None => BoxFrame {
                left: 0,
                top: 0,
                width: 0,
                height: 0,
            },
        }
    }

    // Where a box stands: in its column alone, or in the frame of its cycle.
    fn box_frame(self, node: usize) -> BoxFrame {
        let block = self.blocks.of(node);
        let outer = self.block_frame(block);
        match self.blocks.members.get(block) {
            Some(members) if members.len() > 1 => {
                let place = place_in(members.as_slice(), node).unwrap_or(0);
                member_frame(outer, place, members.len())
            }
            _ => outer,
        }
    }

    fn draw_cycle(
        self,
        sheet: &mut SvgSheet,
        members: &[usize],
        outer: BoxFrame,
    ) -> Result<(), AllocError> {
        sheet.rect("f", outer, 8)?;
        let name = cycle_name(sheet.alloc, members.len(), self.links_among(members))?;
        let at = spot(outer.left.saturating_add(12), outer.top.saturating_add(15));
        sheet.label("w", at, name.as_str())?;
        if members.len() <= MOST_MEMBERS {
            self.draw_arcs(sheet, members, outer)?;
        }
        sheet.push("\n")
    }

    // How many lines there are among boxes.
    fn links_among(self, members: &[usize]) -> usize {
        let mut among: usize = 0;
        for link in &self.graph.links {
            if members.contains(&link.from) && members.contains(&link.to) {
                among = among.saturating_add(1);
            }
        }
        among
    }

    // Draws the lines within a cycle: those that lead down at the right, those that lead up at the left.
    fn draw_arcs(
        self,
        sheet: &mut SvgSheet,
        members: &[usize],
        outer: BoxFrame,
    ) -> Result<(), AllocError> {
        for link in &self.graph.links {
            if let (Some(from), Some(to)) = (
                place_in(members, link.from),
                place_in(members, link.to),
            ) {
                draw_arc(sheet, *link, from, to, outer)?;
            }
        }
        Ok(())
    }

    // Draws what the colours stand for, and the lines.
    fn draw_legend(self, sheet: &mut SvgSheet) -> Result<(), AllocError> {
        let mut left = MARGIN;
        let mut base = self.columns.bottom.saturating_add(30);
        for (colour, name) in self.graph.colours.iter().enumerate() {
            let shown = if name.is_empty() { "./" } else { name.as_str() };
            let wide = text_length(shown).saturating_mul(67) / 10;
            if left.saturating_add(wide) > self.columns.right {
                left = MARGIN;
                base = base.saturating_add(18);
            }
            draw_colour(sheet, tint(colour), spot(left, base), shown)?;
            left = left.saturating_add(wide).saturating_add(40);
        }
        let note = spot(MARGIN, base.saturating_add(20));
        sheet.label("x", note, KEY)?;
        sheet.push("\n")
    }
}

// Begins a picture of this size: its style, and a ground.
fn begin_svg(sheet: &mut SvgSheet, whole: BoxFrame) -> Result<(), AllocError> {
    sheet.push("<svg xmlns=\"http://www.w3.org/2000/svg\" viewBox=\"0 0")?;
    sheet.put(&[
        (" ", whole.width),
        (" ", whole.height),
        ("\" width=\"", whole.width),
        ("\" height=\"", whole.height),
    ])?;
    sheet.push("\">\n<style>")?;
    sheet.push(STYLE)?;
    sheet.push("</style>\n")?;
    sheet.rect("p", whole, 0)
}

// What stands below the title, with the number of cycles.
fn subtitle_of(alloc: Global, subtitle: &str, cycles: usize) -> Result<String, AllocError> {
    match cycles {
        0 => String::from_str(alloc, subtitle),
        1 => format!(in alloc; "{subtitle} \u{b7} 1 cycle"),
        _ => format!(in alloc; "{subtitle} \u{b7} {cycles} cycles"),
    }
}

fn cycle_name(alloc: Global, boxes: usize, imports: usize) -> Result<String, AllocError> {
    format!(in alloc; "cycle of {boxes} \u{b7} {imports} imports")
}

// Begins the group of the lines of a box, if the last line is of another one, and ends that one's.
#[tactic(auto, using(std::proofs::lemmas::Grind::common_steps, crate::proofs::BoxLemmas::grows_by, crate::proofs::BoxLemmas::grows_again, crate::proofs::BoxLemmas::grows_same))]
fn turn_to(
    sheet: &mut SvgSheet,
    graph: &DrawnGraph,
    trunk: usize,
    last: Option<usize>,
) -> Result<(), AllocError>
    ensures { OnOk result (Grows (string_bytes sheet.old.text) (string_bytes sheet.new.text)) }
{
    if last == Some(trunk) {
        return Ok(());
    }
    end_trunk(sheet, last)?;
    begin_trunk(sheet, graph.nodes.get(trunk))
}

#[tactic(auto, using(std::proofs::lemmas::Grind::common_steps, crate::proofs::BoxLemmas::grows_by, crate::proofs::BoxLemmas::grows_again, crate::proofs::BoxLemmas::grows_same))]
fn end_trunk(sheet: &mut SvgSheet, last: Option<usize>) -> Result<(), AllocError>
    ensures { OnOk result (Grows (string_bytes sheet.old.text) (string_bytes sheet.new.text)) }
{
    if last.is_none() {
        return Ok(());
    }
    sheet.push("</g>\n")
}

#[tactic(auto, using(std::proofs::lemmas::Grind::common_steps, crate::proofs::BoxLemmas::grows_by, crate::proofs::BoxLemmas::grows_again, crate::proofs::BoxLemmas::grows_same))]
fn begin_trunk(sheet: &mut SvgSheet, node: Option<&DrawnBox>) -> Result<(), AllocError>
    ensures { OnOk result (Grows (string_bytes sheet.old.text) (string_bytes sheet.new.text)) }
{
    let Some(node) = node else {
        return begin_group(sheet, tint(9));
    };
    begin_group(sheet, tint(node.colour))?;
    push_whole_name(sheet, node)
}

#[tactic(auto, using(std::proofs::lemmas::Grind::common_steps, crate::proofs::BoxLemmas::grows_by, crate::proofs::BoxLemmas::grows_again, crate::proofs::BoxLemmas::grows_same))]
fn begin_group(sheet: &mut SvgSheet, stroke: &str) -> Result<(), AllocError>
    ensures { OnOk result (Grows (string_bytes sheet.old.text) (string_bytes sheet.new.text)) }
{
    sheet.push("<g stroke=\"")?;
    sheet.push(stroke)?;
    sheet.push("\">")
}

#[tactic(auto, using(std::proofs::lemmas::Grind::common_steps, crate::proofs::BoxLemmas::grows_by, crate::proofs::BoxLemmas::grows_again, crate::proofs::BoxLemmas::grows_same))]
fn push_whole_name(sheet: &mut SvgSheet, node: &DrawnBox) -> Result<(), AllocError>
    ensures { OnOk result (Grows (string_bytes sheet.old.text) (string_bytes sheet.new.text)) }
{
    let name = format!(in sheet.alloc; "{}{}", node.folder, node.name)?;
    sheet.tip(name.as_str())
}

// Draws all boxes, each once.
#[tactic(auto, using(std::proofs::lemmas::Grind::common_steps, crate::proofs::BoxLemmas::boxes_step))]
fn draw_boxes(sheet: &mut SvgSheet, board: DrawingBoard) -> Result<(), AllocError>
    ensures { OnOk result (AddsBoxes board.entry.graph.now.nodes.items
        (string_bytes sheet.old.text) (string_bytes sheet.new.text)) }
{
    for (number, node) in board.graph.nodes.iter().enumerate() {
        draw_box(sheet, node, board.box_frame(number))?;
    }
    Ok(())
}

// Draws a line within a frame, between the boxes of these places.
fn draw_arc(
    sheet: &mut SvgSheet,
    link: DrawnLink,
    from: usize,
    to: usize,
    outer: BoxFrame,
) -> Result<(), AllocError> {
    let leads_down = from < to;
    let class = match (leads_down, link.is_lazy) {
        (true, true) => "n y",
        (true, false) => "n",
        (false, true) => "r y",
        (false, false) => "r",
    };
    let arc = arc_between(from, to, outer);
    let way = [
        ("M", arc.edge),
        (" ", arc.begin),
        ("C", arc.out),
        (" ", arc.begin),
        (" ", arc.out),
        (" ", arc.end),
        (" ", arc.edge),
        (" ", arc.end),
        ("M", arc.tip),
        (" ", arc.end.saturating_sub(3)),
        ("L", arc.edge),
        (" ", arc.end),
        ("L", arc.tip),
        (" ", arc.end.saturating_add(3)),
    ];
    sheet.path(class, &way, "")
}

// A line within a frame: where it begins and ends, at which edge of the boxes, how far out it leads, and where its tip ends.
#[derive(Clone, Copy)]
struct FrameArc {
    begin: usize,
    end: usize,
    edge: usize,
    out: usize,
    tip: usize,
}

fn arc_between(from: usize, to: usize, outer: BoxFrame) -> FrameArc {
    let inner = member_frame(outer, 0, 1);
    let far = from.abs_diff(to).min(6).saturating_mul(4).saturating_add(8);
    let begin = outer.top.saturating_add(row_middle(from));
    let end = outer.top.saturating_add(row_middle(to));
    if from < to {
        FrameArc {
            begin: begin.saturating_add(4),
            end: end.saturating_sub(4),
            edge: inner.right(),
            out: inner.right().saturating_add(far),
            tip: inner.right().saturating_add(5),
        }
    } else {
        FrameArc {
            begin: begin.saturating_sub(4),
            end: end.saturating_add(4),
            edge: inner.left,
            out: inner.left.saturating_sub(far),
            tip: inner.left.saturating_sub(5),
        }
    }
}

// Draws a colour with what it stands for.
fn draw_colour(
    sheet: &mut SvgSheet,
    fill: &str,
    at: SheetSpot,
    name: &str,
) -> Result<(), AllocError> {
    sheet.put(&[
        ("<rect x=\"", at.left),
        ("\" y=\"", at.top.saturating_sub(8)),
    ])?;
    sheet.push("\" width=\"9\" height=\"9\" rx=\"2\" fill=\"")?;
    sheet.push(fill)?;
    sheet.push("\"/>")?;
    sheet.label("u", spot(at.left.saturating_add(14), at.top), name)
}

// An end of a line: where it leaves the column or meets it, and where it stands at a box.
#[derive(Clone, Copy)]
struct LineTip {
    outer: usize,
    inner: usize,
    top: usize,
}

impl LineTip {
    const NONE: LineTip = LineTip {
        outer: 0,
        inner: 0,
        top: 0,
    };
}

fn spot(left: usize, top: usize) -> SheetSpot {
    SheetSpot { left, top }
}

// How far from above something is that stands below the top of a point.
fn top_of(top: usize, below: usize) -> usize
    ensures { result ≡ height_of top below }
{
    top.saturating_add(below).saturating_add(HEAD)
}

// The box of this number in the frame of a cycle of so many.
fn member_frame(outer: BoxFrame, number: usize, count: usize) -> BoxFrame {
    let columns = grid_columns(count);
    let rows = grid_rows(count);
    let room = outer
        .width
        .saturating_sub(2 * FRAME_SIDE)
        .saturating_add(GRID_GAP);
    let step = room.checked_div(columns).unwrap_or(room);
    let column = number.checked_div(rows).unwrap_or(0);
    let row = number.saturating_sub(column.saturating_mul(rows));
    BoxFrame {
        left: outer
            .left
            .saturating_add(FRAME_SIDE)
            .saturating_add(column.saturating_mul(step)),
        top: outer
            .top
            .saturating_add(row_middle(row))
            .saturating_sub(BOX_HEIGHT / 2),
        width: step.saturating_sub(GRID_GAP),
        height: BOX_HEIGHT,
    }
}

fn place_in(members: &[usize], node: usize) -> Option<usize> {
    members.iter().position(|member| *member == node)
}

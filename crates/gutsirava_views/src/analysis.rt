//! A table of what takes which part of a bundle.

use crate::{OutputView, Overview, shares_of, size_text};
use gutsirava_report::{Sheet, Shown, Style};
use std::alloc::{AllocError, Global};

/// A bar of a whole bundle has so many columns.
const WIDE: usize = 30;

/// Of so many inputs each has a line; the others have one together.
const MOST: usize = 40;

/// A line of the table.
#[derive(Drop)]
struct AnalysisLine {
    name: String,
    bytes: usize,
}

/// A table of what takes which part of each bundle, the largest first, with bars.
pub fn analysis_text(
    alloc: Global,
    overview: &Overview,
    colors: bool,
) -> Result<String, AllocError> {
    let mut sheet = Sheet::new(alloc);
    for output in &overview.outputs {
        push_output(&mut sheet, overview, output)?;
    }
    sheet.text(colors)
}

// Appends the table of a bundle.
fn push_output(
    sheet: &mut Sheet,
    overview: &Overview,
    output: &OutputView,
) -> Result<(), AllocError> {
    let lines = lines_of(sheet.allocator(), overview, output)?;
    push_lines(sheet, output.path.as_str(), lines.as_slice(), output.bytes)
}

// Appends the line of a bundle of so many bytes, and those below it.
fn push_lines(
    sheet: &mut Sheet,
    path: &str,
    lines: &[AnalysisLine],
    bytes: usize,
) -> Result<(), AllocError> {
    let columns = widest(sheet.allocator(), path, lines)?;
    sheet.end_line()?;
    push_line(sheet, path, bytes, bytes, columns, Style::Strong)?;
    for line in lines {
        let name = line.name.as_str();
        push_line(sheet, name, line.bytes, bytes, columns, Style::Plain)?;
    }
    Ok(())
}

// The lines below that of a bundle.
fn lines_of(
    alloc: Global,
    overview: &Overview,
    output: &OutputView,
) -> Result<Vec<AnalysisLine>, AllocError> {
    let parts = output.parts.as_slice();
    let shares = shares_of(alloc, parts, overview.inputs.len(), output.bytes)?;
    let order = by_size(alloc, shares.as_slice())?;
    let mut lines = Vec::new(alloc);
    push_inputs(&mut lines, alloc, overview, order.as_slice())?;
    push_rest(&mut lines, alloc, order.as_slice(), output.bytes)?;
    Ok(lines)
}

// Appends a line for each of the largest shares; they stand last.
fn push_inputs(
    lines: &mut Vec<AnalysisLine>,
    alloc: Global,
    overview: &Overview,
    order: &[(usize, usize)],
) -> Result<(), AllocError> {
    for (bytes, input) in order.iter().rev().take(MOST) {
        let name = format!(in alloc; "  {}", overview.path_of(*input))?;
        push_entry(lines, name, *bytes)?;
    }
    Ok(())
}

// Appends the lines of what has none of its own: the other shares, and what no input has.
fn push_rest(
    lines: &mut Vec<AnalysisLine>,
    alloc: Global,
    order: &[(usize, usize)],
    bytes: usize,
) -> Result<(), AllocError> {
    let others = order.len().saturating_sub(MOST);
    let left = bytes_of(order.get(..others).unwrap_or(&[]));
    if left > 0 {
        push_entry(lines, format!(in alloc; "  {others} more")?, left)?;
    }
    let rest = bytes.saturating_sub(bytes_of(order));
    if rest > 0 {
        let name = String::from_str(alloc, "  (what joins them)")?;
        push_entry(lines, name, rest)?;
    }
    Ok(())
}

fn push_entry(lines: &mut Vec<AnalysisLine>, name: String, bytes: usize) -> Result<(), AllocError> {
    lines.push(AnalysisLine { name, bytes })?;
    Ok(())
}

fn bytes_of(shares: &[(usize, usize)]) -> usize {
    let mut sum: usize = 0;
    for (bytes, _) in shares {
        sum = sum.saturating_add(*bytes);
    }
    sum
}

// The shares that are not empty, each with its input, the smallest first.
fn by_size(alloc: Global, shares: &[usize]) -> Result<Vec<(usize, usize)>, AllocError> {
    let mut order = Vec::new(alloc);
    for (input, bytes) in shares.iter().enumerate() {
        if *bytes > 0 {
            order.push((*bytes, input))?;
        }
    }
    order.sort()?;
    Ok(order)
}

// How many columns the widest name takes.
fn widest(alloc: Global, path: &str, lines: &[AnalysisLine]) -> Result<usize, AllocError> {
    let mut most = columns_of(alloc, path)?;
    for line in lines {
        most = most.max(columns_of(alloc, line.name.as_str())?);
    }
    Ok(most)
}

fn columns_of(alloc: Global, text: &str) -> Result<usize, AllocError> {
    let mut shown = Shown::new(alloc);
    shown.push_str(text)?;
    Ok(shown.columns())
}

// Appends a line: name, size, part of the whole, and a bar.
fn push_line(
    sheet: &mut Sheet,
    name: &str,
    bytes: usize,
    whole: usize,
    columns: usize,
    style: Style,
) -> Result<(), AllocError> {
    let alloc = sheet.allocator();
    sheet.push(Style::Plain, "  ")?;
    sheet.push_shown(style, padded(alloc, name, columns)?)?;
    push_figures(sheet, bytes, whole, style)?;
    let bar = bar_of(alloc, part_of(bytes, whole, WIDE * 8))?;
    sheet.push(Style::Note, bar.as_str())?;
    sheet.end_line()
}

// Appends a size, and which part of the whole it is.
fn push_figures(
    sheet: &mut Sheet,
    bytes: usize,
    whole: usize,
    style: Style,
) -> Result<(), AllocError> {
    let alloc = sheet.allocator();
    let size = size_text(alloc, bytes)?;
    let percent = percent_text(alloc, part_of(bytes, whole, 1000))?;
    let figures = format!(in alloc; "{size:>11}{percent:>8}  ")?;
    sheet.push(style, figures.as_str())
}

// So many thousandths, as `12.3%`.
fn percent_text(alloc: Global, thousandths: usize) -> Result<String, AllocError> {
    let percent = thousandths / 10;
    let tenth = thousandths % 10;
    format!(in alloc; "{percent}.{tenth}%")
}

// So many parts of a whole, of which the whole has so many.
fn part_of(bytes: usize, whole: usize, parts: usize) -> usize {
    let half = whole / 2;
    bytes
        .saturating_mul(parts)
        .saturating_add(half)
        .checked_div(whole)
        .unwrap_or(0)
}

// A name with blanks behind it, up to so many columns.
fn padded(alloc: Global, name: &str, columns: usize) -> Result<Shown, AllocError> {
    let mut shown = Shown::new(alloc);
    shown.push_str(name)?;
    let wide = shown.columns();
    shown.pad(' ', columns.saturating_sub(wide))?;
    Ok(shown)
}

// A bar of so many eighths of a column.
fn bar_of(alloc: Global, eighths: usize) -> Result<String, AllocError> {
    let mut bar = "\u{2588}".repeat(alloc, eighths / 8)?;
    bar.push_str(last_eighths(eighths % 8))?;
    Ok(bar)
}

fn last_eighths(eighths: usize) -> &'static str {
    match eighths {
        0 => "",
        1 => "\u{258f}",
        2 => "\u{258e}",
        3 => "\u{258d}",
        4 => "\u{258c}",
        5 => "\u{258b}",
        6 => "\u{258a}",
        _ => "\u{2589}",
    }
}

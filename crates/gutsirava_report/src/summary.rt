//! What is told where all went well.

ghost use Rattle.std.specs.Prelude.{◌≡◌, false, chars, IsTrue, IfOk};
ghost use Rattle.std.specs.List.{list_all};
ghost use Rattle.std.specs.String.{string_bytes};
ghost use Rattle.gutsirava_report.specs.Quiet.{is_sent_char};
ghost use Rattle.gutsirava_report.specs.Sheet.{IsReport};

use crate::units::{Size, time_text};
use crate::{Sheet, Shown, Style};
use std::alloc::{AllocError, Global};

/// What a run made.
#[derive(Drop)]
pub struct Summary {
    /// How many modules are in the bundles.
    pub modules: usize,
    /// The files that were written, in their order.
    pub written: Vec<Written>,
    /// How long it took.
    pub milliseconds: u64,
}

/// A file that was written.
#[derive(Drop)]
pub struct Written {
    pub path: String,
    pub bytes: u64,
}

/// What is written of a run: a line for each file with its size, and one with the modules, the files and the time.
pub fn summary_text(alloc: Global, summary: &Summary, colors: bool) -> Result<String, AllocError>
    ensures report { IfOk result (λ t. IsReport colors (string_bytes t)) }
    ensures quiet { colors ≡ false → IfOk result
        (λ t. IsTrue (list_all is_sent_char (chars (string_bytes t)))) }
{
    let mut sheet = Sheet::new(alloc);
    push_summary(&mut sheet, summary)?;
    sheet.text(colors)
}

fn push_summary(sheet: &mut Sheet, summary: &Summary) -> Result<(), AllocError> {
    push_files(sheet, summary.written.as_slice())?;
    let text = total_text(sheet.allocator(), summary)?;
    sheet.push(Style::Strong, text.as_str())?;
    sheet.end_line()
}

// How many modules, how many files, and how long.
fn total_text(alloc: Global, summary: &Summary) -> Result<String, AllocError> {
    let modules = counted(alloc, summary.modules, "module")?;
    let files = counted(alloc, summary.written.len(), "file")?;
    let time = time_text(alloc, summary.milliseconds)?;
    format!(in alloc; "{modules}, {files}, {time}")
}

// A line for each file.
fn push_files(sheet: &mut Sheet, files: &[Written]) -> Result<(), AllocError> {
    let most = widest(sheet.allocator(), files)?;
    for written in files {
        push_written(sheet, written, most)?;
    }
    Ok(())
}

// How many columns the widest path takes.
fn widest(alloc: Global, files: &[Written]) -> Result<usize, AllocError> {
    let mut most: usize = 0;
    for written in files {
        most = most.max(columns_of(alloc, written.path.as_str())?);
    }
    Ok(most)
}

fn columns_of(alloc: Global, path: &str) -> Result<usize, AllocError> {
    let mut shown = Shown::new(alloc);
    shown.push_str(path)?;
    Ok(shown.columns())
}

// The line of a file: its path, in so many columns, and its size.
fn push_written(sheet: &mut Sheet, written: &Written, columns: usize) -> Result<(), AllocError> {
    let path = padded_path(sheet.allocator(), written.path.as_str(), columns)?;
    sheet.push_shown(Style::Plain, path)?;
    let size = Size::of(written.bytes).text(sheet.allocator())?;
    sheet.push(Style::Note, size.as_str())?;
    sheet.end_line()
}

// A path with blanks before it, and behind it up to so many columns and two.
fn padded_path(alloc: Global, path: &str, columns: usize) -> Result<Shown, AllocError> {
    let mut shown = Shown::new(alloc);
    shown.push_str("  ")?;
    shown.push_str(path)?;
    let wide = shown.columns();
    shown.pad(' ', columns.saturating_add(4).saturating_sub(wide))?;
    Ok(shown)
}

// A count and its word, as `2 files`.
fn counted(alloc: Global, count: usize, word: &str) -> Result<String, AllocError> {
    let plural = if count == 1 { "" } else { "s" };
    format!(in alloc; "{count} {word}{plural}")
}

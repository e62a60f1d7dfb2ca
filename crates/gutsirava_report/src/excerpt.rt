//! A line of a file with a mark under a stretch of it.

ghost use Rattle.std.specs.Prelude.{◌≡◌, ◌-◌, ◌++◌, ◌∷◌, [], ℕ, List, true, chars, codes, max, replicate, string_bytes, OnOk, IfOk, IfSome};
ghost use Rattle.std.specs.Fmt.{decimal};
ghost use Rattle.gutsirava_report.specs.Shown.{chars_of};
ghost use Rattle.gutsirava_report.specs.Excerpt.{at_text, dots, is_quiet, AddsExcerpt, AddsPlace};
ghost use Rattle.gutsirava_report.specs.Gains.{Gains, Shows};
ghost use Rattle.gutsirava_report.specs.Gains.Gain.{Words, Ended};

use crate::{FilePlace, Sheet, Shown, Stretch, Style};
use std::alloc::{AllocError, Global};

/// Appends where something is: the file with line and column, and the line with a mark of this style.
pub fn push_place(sheet: &mut Sheet, place: &FilePlace, style: Style) -> Result<(), AllocError>
    ensures { OnOk result (AddsPlace place.now style sheet.old sheet.new) }
{
    match &place.stretch {
        None => push_file(sheet, place.path.as_str()),
        Some(stretch) => {
            let margin = margin_of(sheet.allocator(), stretch)?;
            push_arrow(sheet, &margin)?;
            push_name(sheet, place.path.as_str(), stretch)?;
            push_bar(sheet, &margin)?;
            push_stretch(sheet, margin, stretch, style)
        }
    }
}

// Appends the line of a file.
#[tactic(auto, using(std::proofs::lemmas::Grind::common_steps, crate::proofs::GainLemmas::gains_text, crate::proofs::GainLemmas::gains_end))]
fn push_file(sheet: &mut Sheet, path: &str) -> Result<(), AllocError>
    ensures { OnOk result (Gains sheet.old sheet.new
        (Words Style.Margin (codes " --> ") ∷ Words Style.Plain path.now ∷ Ended ∷ [])) }
{
    sheet.push(Style::Margin, " --> ")?;
    sheet.push(Style::Plain, path)?;
    sheet.end_line()
}

// Appends an arrow that ends in the last column of a margin.
#[tactic(auto, using(std::proofs::lemmas::Grind::common_steps, crate::proofs::GainLemmas::gains_shown))]
fn push_arrow(sheet: &mut Sheet, margin: &Shown) -> Result<(), AllocError>
    ensures { OnOk result ((arrow : List ℕ) × Gains sheet.old sheet.new
        (Words Style.Margin arrow ∷ [])) }
{
    let mut arrow = Shown::new(sheet.allocator());
    arrow.pad(' ', margin.columns().saturating_sub(3))?;
    arrow.push_str("--> ")?;
    sheet.push_shown(Style::Margin, arrow)
}

// Appends the file with line and column.
#[tactic(auto, using(std::proofs::lemmas::Grind::common_steps, crate::proofs::GainLemmas::gains_text, crate::proofs::GainLemmas::gains_end))]
fn push_name(sheet: &mut Sheet, path: &str, stretch: &Stretch) -> Result<(), AllocError>
    ensures { OnOk result (Gains sheet.old sheet.new
        (Words Style.Plain path.now ∷ Words Style.Plain (at_text stretch.now) ∷ Ended ∷ [])) }
{
    sheet.push(Style::Plain, path)?;
    let (line, column) = (stretch.line, stretch.column);
    let at = format!(in sheet.allocator(); ":{line}:{column}")?;
    sheet.push(Style::Plain, at.as_str())?;
    sheet.end_line()
}

// Appends a line without number or text.
fn push_bar(sheet: &mut Sheet, margin: &Shown) -> Result<(), AllocError>
    ensures { OnOk result ((bar : List ℕ) × Gains sheet.old sheet.new
        (Words Style.Margin bar ∷ Ended ∷ [])) }
{
    let bar = bar_in(sheet.allocator(), margin.columns())?;
    sheet.push_shown(Style::Margin, bar)?;
    sheet.end_line()
}

// Appends the line and, under it, the line of marks.
fn push_stretch(
    sheet: &mut Sheet,
    margin: Shown,
    stretch: &Stretch,
    style: Style,
) -> Result<(), AllocError>
    requires { Shows (decimal stretch.now.line ++ codes " | ") margin }
    ensures { OnOk result (AddsExcerpt sheet.old sheet.new style stretch.now) }
{
    let alloc = sheet.allocator();
    let room = margin.columns();
    sheet.push_shown(Style::Margin, margin)?;
    let before = text_before(alloc, stretch)?;
    let indent = before.columns();
    sheet.push_shown(Style::Plain, before)?;
    let marked = text_marked(alloc, stretch)?;
    let width = marked.columns();
    sheet.push_shown(Style::Plain, marked)?;
    let after = text_after(alloc, stretch)?;
    sheet.push_shown(Style::Plain, after)?;
    sheet.end_line()?;
    let bar = bar_in(alloc, room)?;
    sheet.push_shown(Style::Margin, bar)?;
    let marks = marks_under(alloc, indent, width)?;
    sheet.push_shown(style, marks)?;
    sheet.end_line()
}

// What stands left of a line: its number and a bar.
fn margin_of(alloc: Global, stretch: &Stretch) -> Result<Shown, AllocError>
    ensures { IfOk result (Shows (decimal stretch.now.line ++ codes " | ")) }
{
    let line = stretch.line;
    let number = format!(in alloc; "{line} | ")?;
    let mut margin = Shown::new(alloc);
    margin.push_str(number.as_str())?;
    Ok(margin)
}

// What stands left of a line without number, below a margin of so many columns.
fn bar_in(alloc: Global, room: usize) -> Result<Shown, AllocError>
    ensures { IfOk result (λ bar. chars_of bar ≡ replicate (room - 2) 32 ++ (124 ∷ 32 ∷ [])) }
{
    let mut bar = Shown::new(alloc);
    bar.pad(' ', room.saturating_sub(2))?;
    bar.push('|')?;
    bar.push(' ')?;
    Ok(bar)
}

// The marks under a stretch of so many columns that has so many before it on its line: from its first column to its last,
// one at least.
fn marks_under(alloc: Global, indent: usize, width: usize) -> Result<Shown, AllocError>
    ensures { IfOk result (λ marks. chars_of marks
        ≡ replicate indent 32 ++ replicate (max 1 width) 94) }
{
    let mut marks = Shown::new(alloc);
    marks.pad(' ', indent)?;
    marks.pad('^', width.max(1))?;
    Ok(marks)
}

fn text_marked(alloc: Global, stretch: &Stretch) -> Result<Shown, AllocError>
    ensures { IfOk result (Shows (string_bytes stretch.now.marked)) }
{
    let mut marked = Shown::new(alloc);
    marked.push_str(stretch.marked.as_str())?;
    Ok(marked)
}

fn text_before(alloc: Global, stretch: &Stretch) -> Result<Shown, AllocError>
    ensures { is_quiet stretch.now.before ≡ true → IfOk result (λ before. chars_of before
        ≡ dots stretch.now.has_more_before ++ chars (string_bytes stretch.now.before)) }
{
    let mut before = Shown::new(alloc);
    push_dots(&mut before, stretch.has_more_before)?;
    before.push_str(stretch.before.as_str())?;
    Ok(before)
}

fn text_after(alloc: Global, stretch: &Stretch) -> Result<Shown, AllocError>
    ensures { is_quiet stretch.now.after ≡ true → IfOk result (λ after. chars_of after
        ≡ chars (string_bytes stretch.now.after) ++ dots stretch.now.has_more_after) }
{
    let mut after = Shown::new(alloc);
    after.push_str(stretch.after.as_str())?;
    push_dots(&mut after, stretch.has_more_after)?;
    Ok(after)
}

// Appends three dots, where more of a line is not shown.
fn push_dots(shown: &mut Shown, has_more: bool) -> Result<(), AllocError>
    ensures { OnOk result (chars_of shown.new ≡ chars_of shown.old ++ dots has_more) }
{
    if has_more { shown.pad('.', 3) } else { Ok(()) }
}

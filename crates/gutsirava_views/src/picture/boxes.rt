//! The boxes of a picture.

ghost use Rattle.std.specs.Prelude.{◌≡◌, ◌++◌, OnOk, string_bytes};
ghost use Rattle.gutsirava_views.specs.Boxes.{AddsBox, Grows, tip_of, title_text};

use crate::picture::nodes::{BoxKind, COLOURS, DrawnBox};
use crate::picture::points::BOX_HEIGHT;
use crate::picture::sheet::{BoxFrame, SheetSpot, SvgSheet};
use std::alloc::{AllocError, Global};

/// The colours, the last for what has none of its own.
const TINTS: [&str; 10] = [
    "#2563eb", "#059669", "#d97706", "#7c3aed", "#db2777", "#0891b2", "#65a30d", "#dc2626",
    "#4f46e5", "#94a3b8",
];

/// Names are cut to so many characters, and what stands below them.
const NAME_MOST: usize = 30;

const NOTE_MOST: usize = 34;

/// A colour by its number.
pub(crate) fn tint(colour: usize) -> &'static str {
    TINTS.get(colour.min(COLOURS)).copied().unwrap_or("#94a3b8")
}

/// How wide a box is.
pub(crate) fn box_width(node: &DrawnBox) -> usize {
    let name = text_length(node.name.as_str())
        .min(NAME_MOST)
        .saturating_mul(68)
        / 10;
    let note = note_length(node).min(NOTE_MOST).saturating_mul(56) / 10;
    name.max(note).saturating_add(24).max(84)
}

// How many characters stand below the name of a box.
fn note_length(node: &DrawnBox) -> usize {
    text_length(node.folder.as_str())
        .saturating_add(text_length(node.note.as_str()))
        .saturating_add(3)
}

/// How many characters a text has.
pub(crate) fn text_length(text: &str) -> usize {
    text.chars().count()
}

/// Draws a box with its label.
#[tactic(auto, using(std::proofs::lemmas::Grind::common_steps, crate::proofs::BoxLemmas::box_of))]
pub(crate) fn draw_box(
    sheet: &mut SvgSheet,
    node: &DrawnBox,
    frame: BoxFrame,
) -> Result<(), AllocError>
    ensures { OnOk result (AddsBox node.now
        (string_bytes sheet.old.text) (string_bytes sheet.new.text)) }
{
    sheet.push("<g>")?;
    push_tip(sheet, node)?;
    draw_inside(sheet, node, frame)?;
    sheet.push("</g>\n")
}

// What is shown of a box where a pointer rests on it.
fn push_tip(sheet: &mut SvgSheet, node: &DrawnBox) -> Result<(), AllocError>
    ensures { OnOk result (string_bytes sheet.new.text
        ≡ string_bytes sheet.old.text ++ title_text (tip_of node.now)) }
{
    let tip = format!(in sheet.alloc; "{}{} {}", node.folder, node.name, node.note)?;
    sheet.tip(tip.as_str())
}

// Draws a box, the tip of the lines that end at it, and its label.
#[tactic(auto, using(std::proofs::lemmas::Grind::common_steps, crate::proofs::BoxLemmas::grows_by, crate::proofs::BoxLemmas::grows_again, crate::proofs::BoxLemmas::grows_same))]
fn draw_inside(sheet: &mut SvgSheet, node: &DrawnBox, frame: BoxFrame) -> Result<(), AllocError>
    ensures { OnOk result (Grows
        (string_bytes sheet.old.text) (string_bytes sheet.new.text)) }
{
    draw_outline(sheet, node, frame)?;
    if node.is_asked {
        draw_tip(sheet, frame)?;
    }
    draw_label(sheet, node, frame)
}

// Draws the name of a box, and below it where it lies and how large it is.
#[tactic(auto, using(std::proofs::lemmas::Grind::common_steps, crate::proofs::BoxLemmas::grows_by, crate::proofs::BoxLemmas::grows_again, crate::proofs::BoxLemmas::grows_same))]
fn draw_label(sheet: &mut SvgSheet, node: &DrawnBox, frame: BoxFrame) -> Result<(), AllocError>
    ensures { OnOk result (Grows
        (string_bytes sheet.old.text) (string_bytes sheet.new.text)) }
{
    let left = frame.left.saturating_add(12);
    if node.note.is_empty() {
        let at = SheetSpot {
            left,
            top: frame.middle().saturating_add(4),
        };
        return draw_name(sheet, node, at);
    }
    let at = SheetSpot {
        left,
        top: frame.top.saturating_add(15),
    };
    draw_name(sheet, node, at)?;
    let note = note_of(sheet.alloc, node)?;
    let low = SheetSpot {
        left,
        top: frame.top.saturating_add(27),
    };
    sheet.label("q", low, note.as_str())
}

#[tactic(auto, using(std::proofs::lemmas::Grind::common_steps, crate::proofs::BoxLemmas::grows_by, crate::proofs::BoxLemmas::grows_again, crate::proofs::BoxLemmas::grows_same))]
fn draw_name(sheet: &mut SvgSheet, node: &DrawnBox, at: SheetSpot) -> Result<(), AllocError>
    ensures { OnOk result (Grows
        (string_bytes sheet.old.text) (string_bytes sheet.new.text)) }
{
    let name = cut(sheet.alloc, node.name.as_str(), NAME_MOST)?;
    sheet.label("m", at, name.as_str())
}

// Draws the tip of the lines that end at a box.
#[tactic(auto, using(std::proofs::lemmas::Grind::common_steps, crate::proofs::BoxLemmas::grows_by, crate::proofs::BoxLemmas::grows_again, crate::proofs::BoxLemmas::grows_same))]
fn draw_tip(sheet: &mut SvgSheet, frame: BoxFrame) -> Result<(), AllocError>
    ensures { OnOk result (Grows
        (string_bytes sheet.old.text) (string_bytes sheet.new.text)) }
{
    let left = frame.left.saturating_sub(6);
    let top = frame.middle().saturating_sub(3);
    sheet.path("a", &[("M", left), (" ", top)], "l6 3l-6 3z")
}

#[tactic(auto, using(std::proofs::lemmas::Grind::common_steps, crate::proofs::BoxLemmas::grows_by, crate::proofs::BoxLemmas::grows_again, crate::proofs::BoxLemmas::grows_same))]
fn draw_outline(sheet: &mut SvgSheet, node: &DrawnBox, frame: BoxFrame) -> Result<(), AllocError>
    ensures { OnOk result (Grows
        (string_bytes sheet.old.text) (string_bytes sheet.new.text)) }
{
    match node.kind {
        BoxKind::External => return sheet.rect("z", frame, BOX_HEIGHT / 2),
        BoxKind::Folder => {
            let behind = BoxFrame {
                left: frame.left.saturating_add(3),
                top: frame.top.saturating_add(3),
                ..frame
            };
            sheet.rect("h", behind, 4)?;
        }
        BoxKind::Module => {}
    }
    let class = if node.is_entry { "b e" } else { "b" };
    sheet.rect(class, frame, 4)?;
    draw_stripe(sheet, tint(node.colour), frame)
}

// Draws the stripe of this colour at the left of a box.
#[tactic(auto, using(std::proofs::lemmas::Grind::common_steps, crate::proofs::BoxLemmas::grows_by, crate::proofs::BoxLemmas::grows_again, crate::proofs::BoxLemmas::grows_same))]
fn draw_stripe(sheet: &mut SvgSheet, fill: &str, frame: BoxFrame) -> Result<(), AllocError>
    ensures { OnOk result (Grows
        (string_bytes sheet.old.text) (string_bytes sheet.new.text)) }
{
    sheet.push("<path fill=\"")?;
    sheet.push(fill)?;
    sheet.put(&[
        ("\" d=\"M", frame.left.saturating_add(5)),
        (" ", frame.top),
        ("h-1a4 4 0 0 0 -4 4v", frame.height.saturating_sub(8)),
    ])?;
    sheet.push("a4 4 0 0 0 4 4h1z\"/>")
}

// What stands below the name of a box: where it lies, and how large it is. A folder that is too long loses its front.
fn note_of(alloc: Global, node: &DrawnBox) -> Result<String, AllocError> {
    let note = &node.note;
    if node.folder.is_empty() {
        return note.clone();
    }
    let room = NOTE_MOST.saturating_sub(text_length(note.as_str()).saturating_add(3));
    let folder = cut(alloc, node.folder.as_str(), room)?;
    format!(in alloc; "{folder} \u{b7} {note}")
}

// The last characters of a text, behind three dots where there are more than so many.
fn cut(alloc: Global, text: &str, most: usize) -> Result<String, AllocError> {
    let surplus = text_length(text).saturating_sub(most);
    if surplus == 0 {
        return String::from_str(alloc, text);
    }
    let mut shown = String::new(alloc);
    shown.push('\u{2026}')?;
    for c in text.chars().skip(surplus.saturating_add(1)) {
        shown.push(c)?;
    }
    Ok(shown)
}

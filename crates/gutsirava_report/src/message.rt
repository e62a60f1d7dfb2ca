//! What is told: errors, warnings and their notes.

ghost use Rattle.std.specs.Prelude.{◌≡◌, OnOk};
ghost use Rattle.std.specs.Option.{option_copied};
ghost use Rattle.gutsirava_report.specs.Gains.{head_of, Gains};
ghost use Rattle.gutsirava_report.specs.Messages.{AddsHeaded, AddsNotes};

use crate::excerpt::push_place;
use crate::{FilePlace, Sheet, Style};
use std::alloc::AllocError;

/// How grave a message is.
#[derive(Clone, Copy)]
pub enum Severity {
    /// There is no bundle.
    Error,
    /// There is a bundle, and it may do what was not meant.
    Warning,
}

/// An error or a warning.
pub struct Message {
    pub severity: Severity,
    /// What is wrong, in a sentence without a full stop.
    pub text: String,
    /// Where.
    pub place: Option<FilePlace>,
    /// What else belongs to it, as the other place of an ambiguous export.
    pub notes: Vec<Note>,
}

/// What belongs to a message.
pub struct Note {
    pub text: String,
    /// Where.
    pub place: Option<FilePlace>,
}

impl Drop for Message {
    fn drop(self) {
        let Message {
            severity: _severity,
            text: _text,
            place: _place,
            notes: _notes,
        } = self;
    }
}

impl Drop for Note {
    fn drop(self) {
        let Note {
            text: _text,
            place: _place,
        } = self;
    }
}

impl Severity {
    ghost use Rattle.std.specs.Prelude.{◌≡◌};
    ghost use Rattle.gutsirava_report.specs.Severity.{style_of, word_of};

    /// Its word.
    pub fn word(self) -> &'static str
        ensures { result.now ≡ word_of self }
    {
        match self {
            Severity::Error => "error",
            Severity::Warning => "warning",
        }
    }

    /// The colour of its word and of its mark.
    pub fn style(self) -> Style
        ensures { result ≡ style_of self }
    {
        match self {
            Severity::Error => Style::Error,
            Severity::Warning => Style::Warning,
        }
    }
}

impl Message {
    ghost use Rattle.std.specs.Prelude.{OnOk};
    ghost use Rattle.gutsirava_report.specs.Messages.{AddsMessage};

    /// Appends the message, with its place and its notes.
    pub fn push_onto(&self, sheet: &mut Sheet) -> Result<(), AllocError>
        ensures { OnOk result (AddsMessage self.now sheet.old sheet.new) }
    {
        let severity = self.severity;
        let (style, word) = (severity.style(), severity.word());
        push_headed(sheet, style, word, self.text.as_str(), self.place.as_ref())?;
        push_notes(sheet, self.notes.as_slice())
    }
}

// Appends notes.
fn push_notes(sheet: &mut Sheet, notes: &[Note]) -> Result<(), AllocError>
    ensures { OnOk result (AddsNotes sheet.old notes.now sheet.new) }
{
    for note in notes {
        push_headed(
            sheet,
            Style::Note,
            "note",
            note.text.as_str(),
            note.place.as_ref(),
        )?;
    }
    Ok(())
}

// Appends a line with a word and a text, and under it the place.
fn push_headed(
    sheet: &mut Sheet,
    style: Style,
    word: &str,
    text: &str,
    place: Option<&FilePlace>,
) -> Result<(), AllocError>
    ensures { OnOk result (AddsHeaded style word.now text.now (option_copied place.entry)
        sheet.old sheet.new) }
{
    push_head(sheet, style, word, text)?;
    match place {
        Some(place) => push_place(sheet, place, style),
        None => Ok(()),
    }
}

#[tactic(auto, using(std::proofs::lemmas::Grind::common_steps, crate::proofs::GainLemmas::gains_text, crate::proofs::GainLemmas::gains_end))]
fn push_head(sheet: &mut Sheet, style: Style, word: &str, text: &str) -> Result<(), AllocError>
    ensures { OnOk result (Gains sheet.old sheet.new (head_of style word.now text.now)) }
{
    sheet.push(style, word)?;
    sheet.push(Style::Strong, ": ")?;
    sheet.push(Style::Strong, text)?;
    sheet.end_line()
}

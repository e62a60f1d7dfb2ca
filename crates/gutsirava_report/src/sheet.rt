//! A report in pieces, and the text that is written of it.

ghost use Rattle.std.specs.Prelude.{◌≡◌, [], ◌∷◌, ◌++◌, false, chars, IsTrue, OnOk, IfOk};
ghost use Rattle.std.specs.List.{list_all, flat_map};
ghost use Rattle.std.specs.String.{string_bytes};
ghost use Rattle.gutsirava_report.specs.Quiet.{is_sent_char};
ghost use Rattle.gutsirava_report.specs.Sheet.{painted};

use crate::{Shown, Style};
use std::alloc::{AllocError, Global};

/// A piece of a report.
#[derive(Drop)]
pub enum SheetPiece {
    /// Text of one style, within a line.
    Text(Style, Shown),
    /// The end of a line.
    LineEnd,
}

impl SheetPiece {
    // Appends what is written of the piece.
    fn paint(&self, text: &mut String, colors: bool) -> Result<(), AllocError>
        ensures { OnOk result (string_bytes text.new ≡ string_bytes text.old
            ++ painted colors self.now) }
    {
        match self {
            SheetPiece::Text(style, shown) => {
                if colors {
                    text.push_str(style.opening())?;
                    text.push_str(shown.as_str())?;
                    text.push_str(style.closing())
                } else {
                    text.push_str(shown.as_str())
                }
            }
            SheetPiece::LineEnd => text.push_str("\n"),
        }
    }
}

/// A report, line by line.
#[derive(Drop)]
pub struct Sheet {
    alloc: Global,
    /// Its pieces, in their order.
    pub pieces: Vec<SheetPiece>,
}

impl Sheet {
    ghost use Rattle.gutsirava_report.specs.Text.{AddsText};

    /// A report that says nothing.
    pub fn new(alloc: Global) -> Sheet
        ensures { result.pieces.items ≡ [] }
    {
        Sheet {
            alloc,
            pieces: Vec::new(alloc),
        }
    }

    /// The allocator of the report.
    pub fn allocator(&self) -> Global
        ensures { result ≡ self.now.alloc }
    {
        self.alloc
    }

    /// Appends a text to the line, as it may be shown.
    pub fn push(&mut self, style: Style, text: &str) -> Result<(), AllocError>
        ensures { OnOk result (AddsText self.old self.new style text.now) }
    {
        let mut shown = Shown::new(self.alloc);
        shown.push_str(text)?;
        self.push_shown(style, shown)
    }

    /// Appends a shown text to the line.
    pub fn push_shown(&mut self, style: Style, shown: Shown) -> Result<(), AllocError>
        ensures { OnOk result (self.new.pieces.items ≡ self.old.pieces.items
            ++ SheetPiece.Text style shown ∷ []) }
    {
        self.pieces.push(SheetPiece::Text(style, shown))?;
        Ok(())
    }

    /// Ends the line.
    pub fn end_line(&mut self) -> Result<(), AllocError>
        ensures { OnOk result (self.new.pieces.items ≡ self.old.pieces.items
            ++ SheetPiece.LineEnd ∷ []) }
    {
        self.pieces.push(SheetPiece::LineEnd)?;
        Ok(())
    }

    /// What is written of the report, with colours or without: each piece in its turn.
    #[tactic(auto, using(std::proofs::lemmas::Grind::common_steps, crate::proofs::SheetLemmas::flat_map_taken, crate::proofs::SheetLemmas::bare_sent))]
    pub fn text(&self, colors: bool) -> Result<String, AllocError>
        ensures whole { IfOk result (λ t. string_bytes t
            ≡ flat_map (painted colors) self.now.pieces.items) }
        ensures quiet { colors ≡ false → IfOk result
            (λ t. IsTrue (list_all is_sent_char (chars (string_bytes t)))) }
    {
        let mut text = String::new(self.alloc);
        for piece in &self.pieces {
            piece.paint(&mut text, colors)?;
        }
        Ok(text)
    }
}

//! The elements of a picture.

ghost use Rattle.std.specs.Prelude.{◌≡◌, ◌++◌, OnOk, chars, decimal, flat_map, string_bytes};
ghost use Rattle.gutsirava_views.specs.Boxes.{label_text, number_behind, path_text, rect_text, title_text};
ghost use Rattle.gutsirava_views.specs.Xml.{xml_char};

use crate::picture::marking::xml_text;
use std::alloc::{AllocError, Global};

/// A text of SVG that is being written.
#[derive(Drop)]
pub(crate) struct SvgSheet {
    pub(crate) alloc: Global,
    pub(crate) text: String,
}

/// A rectangle.
#[derive(Clone, Copy)]
pub(crate) struct BoxFrame {
    pub(crate) left: usize,
    pub(crate) top: usize,
    pub(crate) width: usize,
    pub(crate) height: usize,
}

/// A point of a picture, from the left and from above.
#[derive(Clone, Copy)]
pub(crate) struct SheetSpot {
    pub(crate) left: usize,
    pub(crate) top: usize,
}

impl BoxFrame {
    pub(crate) fn right(self) -> usize {
        self.left.saturating_add(self.width)
    }

    pub(crate) fn bottom(self) -> usize {
        self.top.saturating_add(self.height)
    }

    pub(crate) fn middle(self) -> usize {
        self.top.saturating_add(self.height / 2)
    }
}

impl SvgSheet {
    pub(crate) fn new(alloc: Global) -> SvgSheet {
        SvgSheet {
            alloc,
            text: String::new(alloc),
        }
    }

    pub(crate) fn push(&mut self, text: &str) -> Result<(), AllocError>
        ensures { OnOk result (string_bytes self.new.text
            ≡ string_bytes self.old.text ++ text.now) }
    {
        self.text.push_str(text)
    }

    /// Numbers, each behind a text of its own.
    pub(crate) fn put(&mut self, pieces: &[(&str, usize)]) -> Result<(), AllocError>
        ensures { OnOk result (string_bytes self.new.text
            ≡ string_bytes self.old.text ++ flat_map number_behind pieces.now) }
    {
        for (before, number) in pieces {
            self.put_one(before, *number)?;
        }
        Ok(())
    }

    fn put_one(&mut self, before: &str, number: usize) -> Result<(), AllocError>
        ensures { OnOk result (string_bytes self.new.text
            ≡ string_bytes self.old.text ++ (before.now ++ decimal number)) }
    {
        let digits = format!(in self.alloc; "{number}")?;
        self.text.push_str(before)?;
        self.text.push_str(digits.as_str())
    }

    /// A rectangle of this class, with round corners.
    pub(crate) fn rect(
        &mut self,
        class: &str,
        frame: BoxFrame,
        round: usize,
    ) -> Result<(), AllocError>
        ensures { OnOk result (string_bytes self.new.text
            ≡ string_bytes self.old.text ++ rect_text class.now frame round) }
    {
        self.push("<rect class=\"")?;
        self.push(class)?;
        self.put(&[
            ("\" x=\"", frame.left),
            ("\" y=\"", frame.top),
            ("\" width=\"", frame.width),
            ("\" height=\"", frame.height),
            ("\" rx=\"", round),
        ])?;
        self.push("\"/>")
    }

    /// A text of this class, whose base line begins there.
    pub(crate) fn label(&mut self, class: &str, at: SheetSpot, text: &str) -> Result<(), AllocError>
        ensures { OnOk result (string_bytes self.new.text
            ≡ string_bytes self.old.text ++ label_text class.now at text.now) }
    {
        self.push("<text class=\"")?;
        self.push(class)?;
        self.put(&[("\" x=\"", at.left), ("\" y=\"", at.top)])?;
        self.push("\">")?;
        self.push_marked(text)?;
        self.push("</text>")
    }

    /// A path of this class: numbers, each behind what stands before it, and an end.
    pub(crate) fn path(
        &mut self,
        class: &str,
        way: &[(&str, usize)],
        end: &str,
    ) -> Result<(), AllocError>
        ensures { OnOk result (string_bytes self.new.text
            ≡ string_bytes self.old.text ++ path_text class.now way.now end.now) }
    {
        self.push("<path class=\"")?;
        self.push(class)?;
        self.push("\" d=\"")?;
        self.put(way)?;
        self.push(end)?;
        self.push("\"/>")
    }

    // A text as the content of an element.
    fn push_marked(&mut self, text: &str) -> Result<(), AllocError>
        ensures { OnOk result (string_bytes self.new.text
            ≡ string_bytes self.old.text ++ flat_map xml_char (chars text.now)) }
    {
        let marked = xml_text(self.alloc, text)?;
        self.push(marked.as_str())
    }

    /// The text that is shown where a pointer rests on the group.
    pub(crate) fn tip(&mut self, text: &str) -> Result<(), AllocError>
        ensures { OnOk result (string_bytes self.new.text
            ≡ string_bytes self.old.text ++ title_text text.now) }
    {
        self.push("<title>")?;
        self.push_marked(text)?;
        self.push("</title>")
    }
}

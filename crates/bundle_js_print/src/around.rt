//! What is written where a node begins and where it ends.

ghost use Rattle.std.specs.Prelude.{◌≤◌, OnOk, string_bytes, string_len};
ghost use Rattle.bundle_js_print.specs.Openings.{PutsOpening};

use crate::context::is_for_head;
use crate::frame::{Last, PrintFrame, Wrap};
use crate::printer::Printer;
use crate::punctuation::{Ending, Opening, ending_of};
use crate::text::push_string;
use bundle_syntax::{MethodKind, Node, Piece};
use std::alloc::AllocError;

impl<'p, 'a> Printer<'p, 'a> {
    /// Writes the begin of the node at this place.
    pub(crate) fn write_opening(
        &mut self,
        at: usize,
        opening: Opening<'a>,
    ) -> Result<(), AllocError>
        ensures grows { string_len self.old.text ≤ string_len self.new.text }
        ensures puts { OnOk result (PutsOpening self.old.charset opening.entry
            (string_bytes self.old.text) (string_bytes self.new.text)) }
    {
        match opening {
            Opening::Text(text) => self.text.push_str(text),
            Opening::Raw(text) => self.text.push_str(text),
            Opening::Private(name) => {
                self.text.push('#')?;
                self.text.push_str(name)
            }
            Opening::String { value, raw } => push_string(&mut self.text, value, raw, self.charset),
            Opening::Quasi(raw) => self.push_rest(at, raw),
            Opening::Word(word) => {
                self.text.push_str(word)?;
                self.text.push(' ')
            }
            Opening::Function => self.write_function(at),
            Opening::Method { kind, is_static } => self.write_method(at, kind, is_static),
        }
    }

    // Writes the text of a template that no expression has behind it.
    fn push_rest(&mut self, at: usize, raw: &'a str) -> Result<(), AllocError>
        ensures grows { string_len self.old.text ≤ string_len self.new.text }
    {
        match self.frames.last() {
            Some(frame) if at < frame.quasi => Ok(()),
            _ => self.text.push_str(raw),
        }
    }

    fn write_function(&mut self, at: usize) -> Result<(), AllocError>
        ensures grows { string_len self.old.text ≤ string_len self.new.text }
    {
        let child = at.saturating_add(1);
        let (is_async, is_generator) = match self.pieces.get(child) {
            Some(Piece::Ident { .. }) => self.kind_of_function(child.saturating_add(1)),
            _ => self.kind_of_function(child),
        };
        self.text.push_str(if is_async {
            "async function"
        } else {
            "function"
        })?;
        if is_generator {
            self.text.push('*')
        } else {
            Ok(())
        }
    }

    fn write_method(
        &mut self,
        at: usize,
        kind: MethodKind,
        is_static: bool,
    ) -> Result<(), AllocError>
        ensures grows { string_len self.old.text ≤ string_len self.new.text }
    {
        let (is_async, is_generator) = self.kind_of_function(self.behind(at.saturating_add(1)));
        if is_static {
            self.text.push_str("static ")?;
        }
        self.text.push_str(match kind {
            MethodKind::Method => "",
            MethodKind::Getter => "get ",
            MethodKind::Setter => "set ",
        })?;
        if is_async {
            self.text.push_str("async ")?;
        }
        if is_generator {
            self.text.push('*')
        } else {
            Ok(())
        }
    }

    // Whether the function at this place is asynchronous, and whether it is a generator.
    fn kind_of_function(&self, at: usize) -> (bool, bool) {
        match self.node_at(at) {
            Some(
                Node::Function {
                    is_generator,
                    is_async,
                },
            ) => (*is_async, *is_generator),
            _ => (false, false),
        }
    }

    /// Writes the end of the node `frame`, which ends at this place.
    pub(crate) fn write_ending(
        &mut self,
        at: usize,
        frame: PrintFrame<'p, 'a>,
    ) -> Result<(), AllocError>
        ensures grows { string_len self.old.text ≤ string_len self.new.text }
    {
        if frame.has_lines {
            if !matches!(frame.node, Node::ObjectLit) {
                self.tell(at)?;
            }
            self.depth = self.depth.saturating_sub(1);
        }
        match ending_of(frame.node, frame.behind) {
            Ending::Text(text) => self.text.push_str(text)?,
            Ending::Lines(last, only) => if frame.has_lines {
                self.line()?;
                self.text.push_str(last)?;
            } else {
                self.text.push_str(only)?;
            },
            Ending::Array => self
                .text
                .push_str(if frame.last == Last::Hole { ",]" } else { "]" })?,
            Ending::Object => self.end_object(frame)?,
            Ending::Names => self.end_names(frame)?,
            Ending::Link(text) => {
                self.push_link(frame.context.link)?;
                self.text.push_str(text)?;
            }
            Ending::Declaration => if !is_for_head(frame.context.start) {
                self.text.push(';')?;
            },
        }
        self.end_wrap(frame.wrap)
    }

    fn end_object(&mut self, frame: PrintFrame<'p, 'a>) -> Result<(), AllocError>
        ensures grows { string_len self.old.text ≤ string_len self.new.text }
    {
        if frame.has_lines {
            self.line()?;
        } else if frame.behind != 0 {
            self.text.push(' ')?;
        }
        self.text.push('}')
    }

    fn end_names(&mut self, frame: PrintFrame<'p, 'a>) -> Result<(), AllocError>
        ensures grows { string_len self.old.text ≤ string_len self.new.text }
    {
        self.text.push_str(match frame.behind {
            0 => "{};",
            1 if frame.last == Last::Braced => " };",
            _ => ";",
        })
    }

    fn end_wrap(&mut self, wrap: Wrap) -> Result<(), AllocError>
        ensures grows { string_len self.old.text ≤ string_len self.new.text }
    {
        match wrap {
            Wrap::Bare => Ok(()),
            Wrap::Parens => self.text.push(')'),
            Wrap::Braces => {
                self.depth = self.depth.saturating_sub(1);
                self.line()?;
                self.text.push('}')
            }
        }
    }
}

//! What is written before a child.

ghost use Rattle.std.specs.Prelude.{◌≡◌, ◌≤◌, false, string_len, IfSome};
ghost use Rattle.bundle_syntax.specs.Item.{head_of};
ghost use Rattle.bundle_js_print.specs.Printed.{IsApart, is_sign};
ghost use Rattle.bundle_js_print.specs.Tokens.{is_whole};

use crate::context::{Link, PrintContext};
use crate::frame::{Arrival, Last, PrintFrame, Wrap};
use crate::printer::Printer;
use crate::punctuation::Separator;
use crate::text::push_string;
use bundle_syntax::{Node, Piece, UnaryOp, UpdateOp};
use std::alloc::AllocError;

// An object of more pieces has each property on a line of its own.
const MOST_ON_A_LINE: usize = 32;

// Deeper lines are not indented further, so that a text is longer than its list by no more than a factor.
const MOST_INDENTED: usize = 64;

impl<'p, 'a> Printer<'p, 'a> {
    /// Writes what stands before the child that begins at this place, in the node `frame`.
    pub(crate) fn write_separator(
        &mut self,
        separator: Separator,
        frame: PrintFrame<'p, 'a>,
        at: usize,
        child: Option<&'p Node<'a>>,
        context: PrintContext,
    ) -> Result<Arrival, AllocError>
        ensures grows { string_len self.old.text ≤ string_len self.new.text }
    {
        let mut arrival = Arrival::plain(context);
        match separator {
            Separator::Text(text) => self.text.push_str(text)?,
            Separator::Spaced(text) => self.push_spaced(text)?,
            Separator::Line(text) => {
                self.text.push_str(text)?;
                self.begin_lines();
                self.line_for(at)?;
            }
            Separator::Item => self.line_for(at)?,
            Separator::Body(text) => {
                self.text.push_str(text)?;
                return self.write_body(at, child, arrival);
            }
            Separator::Else => return self.write_else(frame, at, child, arrival),
            Separator::Behind(text) => self.push_behind(frame.last, text)?,
            Separator::Property => self.write_property(frame, at)?,
            Separator::Specifier => arrival.last = self.write_specifier(frame, child)?,
            Separator::Source => self.push_source(frame)?,
            Separator::Sign(op) => if is_kept_from(op, child) {
                self.text.push(' ')?;
            },
            Separator::Dot => self.push_dot(frame, child)?,
            Separator::Link(text) => {
                self.push_link(frame.context.link)?;
                self.text.push_str(text)?;
            }
            Separator::Quasi => self.write_quasi(frame)?,
            Separator::Renamed => self.push_imported(at)?,
            Separator::Rest => if frame.behind == 1 {
                self.text.push('}')?;
            },
            Separator::Written => arrival.is_written = true,
        }
        Ok(arrival)
    }

    fn push_spaced(&mut self, text: &'static str) -> Result<(), AllocError>
        ensures grows { string_len self.old.text ≤ string_len self.new.text }
    {
        self.text.push(' ')?;
        self.text.push_str(text)?;
        self.text.push(' ')
    }

    // Begins a line, indented by the depth.
    pub(crate) fn line(&mut self) -> Result<(), AllocError>
        ensures grows { string_len self.old.text ≤ string_len self.new.text }
    {
        if !self.text.is_empty() {
            self.text.push('\n')?;
        }
        for _ in 0..self.depth.min(MOST_INDENTED) {
            self.text.push_str("  ")?;
        }
        Ok(())
    }

    // Begins a line for what stands at this place of the list, behind lines for the comments in front of it.
    fn line_for(&mut self, at: usize) -> Result<(), AllocError>
        ensures grows { string_len self.old.text ≤ string_len self.new.text }
    {
        self.tell(at)?;
        self.line()
    }

    // Writes the comments that stand in front of this place of the list, each on a line.
    pub(crate) fn tell(&mut self, at: usize) -> Result<(), AllocError>
        ensures grows { string_len self.old.text ≤ string_len self.new.text }
    {
        for _ in self.told..self.comments.len() {
            match self.comments.get(self.told) {
                Some(comment) if comment.piece as usize <= at => {
                    self.line()?;
                    self.text.push_str(comment.text)?;
                }
                _ => return Ok(()),
            }
            self.told = self.told.saturating_add(1);
        }
        Ok(())
    }

    // The children of the innermost node stand on lines of their own from here on.
    fn begin_lines(&mut self)
        ensures grows { string_len self.old.text ≤ string_len self.new.text }
    {
        if let Some(frame) = self.frames.last_mut()
            && !frame.has_lines
        {
            frame.has_lines = true;
            self.depth = self.depth.saturating_add(1);
        }
    }

    // Begins a statement that is a body: a block on the same line, any other on the next.
    fn write_body(
        &mut self,
        at: usize,
        child: Option<&'p Node<'a>>,
        arrival: Arrival,
    ) -> Result<Arrival, AllocError>
        ensures grows { string_len self.old.text ≤ string_len self.new.text }
    {
        let mut arrival = arrival;
        if arrival.context.no_else && self.takes_else(at) {
            self.text.push_str(" {")?;
            arrival.context.no_else = false;
            arrival.wrap = Wrap::Braces;
            arrival.last = Last::Braced;
            self.depth = self.depth.saturating_add(1);
            self.line()?;
            return Ok(arrival);
        } else if matches!(child, Some(Node::BlockStmt)) {
            arrival.last = Last::Braced;
            self.text.push(' ')?;
            return Ok(arrival);
        } else if matches!(child, Some(Node::EmptyStmt)) {
            self.text.push(' ')?;
            return Ok(arrival);
        }
        self.depth = self.depth.saturating_add(1);
        arrival.is_deeper = true;
        self.line()?;
        Ok(arrival)
    }

    // Whether an `if` without `else` begins at this place.
    fn takes_else(&self, at: usize) -> bool {
        if !matches!(self.node_at(at), Some(Node::IfStmt)) {
            return false;
        }
        let cons = self.behind(at.saturating_add(1));
        self.is_last(cons)
    }

    // Begins the second branch of an `if`.
    fn write_else(
        &mut self,
        frame: PrintFrame<'p, 'a>,
        at: usize,
        child: Option<&'p Node<'a>>,
        arrival: Arrival,
    ) -> Result<Arrival, AllocError>
        ensures grows { string_len self.old.text ≤ string_len self.new.text }
    {
        self.push_behind(frame.last, "else")?;
        if !matches!(child, Some(Node::IfStmt))
            || (arrival.context.no_else && self.takes_else(at))
        {
            return self.write_body(at, child, arrival);
        }
        self.text.push(' ')?;
        Ok(arrival)
    }

    // Puts a word behind a body: on the line of its closing brace, or else on a new one.
    fn push_behind(&mut self, last: Last, text: &'static str) -> Result<(), AllocError>
        ensures grows { string_len self.old.text ≤ string_len self.new.text }
    {
        if last == Last::Braced {
            self.text.push(' ')?;
        } else {
            self.line()?;
        }
        self.text.push_str(text)
    }

    fn write_property(&mut self, frame: PrintFrame<'p, 'a>, at: usize) -> Result<(), AllocError>
        ensures grows { string_len self.old.text ≤ string_len self.new.text }
    {
        let is_first = frame.behind == 0;
        if self.has_lines(frame) {
            if !is_first {
                self.text.push(',')?;
            }
            self.begin_lines();
            return self.line_for(at);
        }
        self.text.push_str(if is_first { " " } else { ", " })
    }

    // Whether each property of an object stands on a line of its own.
    fn has_lines(&self, frame: PrintFrame<'p, 'a>) -> bool {
        let pieces = self.closes.end_of(frame.at).saturating_sub(frame.at);
        matches!(frame.node, Node::ObjectLit) && pieces > MOST_ON_A_LINE
    }

    // Writes what separates the names of an import or an export, of which some stand in braces.
    fn write_specifier(
        &mut self,
        frame: PrintFrame<'p, 'a>,
        child: Option<&'p Node<'a>>,
    ) -> Result<Last, AllocError>
        ensures grows { string_len self.old.text ≤ string_len self.new.text }
    {
        if frame.behind != 0 {
            self.text.push_str(", ")?;
        }
        let is_named = matches!(
            child,
            Some(Node::ImportNamedSpecifier | Node::ExportNamedSpecifier)
        );
        if is_named && frame.last != Last::Braced {
            self.text.push_str("{ ")?;
        }
        Ok(if is_named { Last::Braced } else { Last::Plain })
    }

    fn push_source(&mut self, frame: PrintFrame<'p, 'a>) -> Result<(), AllocError>
        ensures grows { string_len self.old.text ≤ string_len self.new.text }
    {
        let is_export = matches!(frame.node, Node::NamedExport { .. });
        if frame.behind != 0 {
            self.text.push_str(if frame.last == Last::Braced {
                " } from "
            } else {
                " from "
            })
        } else if is_export {
            self.text.push_str("{} from ")
        } else {
            Ok(())
        }
    }

    pub(crate) fn push_link(&mut self, link: Link) -> Result<(), AllocError>
        ensures grows { string_len self.old.text ≤ string_len self.new.text }
    {
        if link == Link::Optional {
            self.text.push_str("?.")
        } else {
            Ok(())
        }
    }

    fn push_dot(
        &mut self,
        frame: PrintFrame<'p, 'a>,
        child: Option<&'p Node<'a>>,
    ) -> Result<(), AllocError>
        ensures grows { string_len self.old.text ≤ string_len self.new.text }
    {
        if frame.context.link == Link::Optional {
            self.text.push_str("?.")
        } else if matches!(child, Some(Node::ComputedPropName)) {
            Ok(())
        } else if self.is_of_digits(frame.at.saturating_add(1)) {
            self.text.push_str(" .")
        } else {
            self.text.push('.')
        }
    }

    // Whether a number stands at this place to which a dot would belong.
    fn is_of_digits(&self, at: usize) -> bool {
        match self.node_at(at) {
            Some(Node::Number { raw }) => is_whole(raw),
            _ => false,
        }
    }

    // Writes the text of a template before an expression.
    fn write_quasi(&mut self, frame: PrintFrame<'p, 'a>) -> Result<(), AllocError>
        ensures grows { string_len self.old.text ≤ string_len self.new.text }
    {
        if frame.behind != 0 {
            self.text.push('}')?;
        }
        if let Some(Node::TplElement { raw }) = self.node_at(frame.quasi) {
            self.text.push_str(raw)?;
        }
        if let Some(frame) = self.frames.last_mut() {
            frame.quasi = frame.quasi.saturating_add(2);
        }
        self.text.push_str("${")
    }

    // Writes the name that an import renames to the one at this place, if it does.
    fn push_imported(&mut self, at: usize) -> Result<(), AllocError>
        ensures grows { string_len self.old.text ≤ string_len self.new.text }
    {
        match self.next(at) {
            Some(Piece::Ident { sym, .. }) => self.text.push_str(sym)?,
            Some(
                Piece::Open {
                    node: Node::Str { value, raw },
                    ..
                },
            ) => push_string(&mut self.text, value, *raw, self.charset)?,
            _ => return Ok(()),
        }
        self.text.push_str(" as ")
    }
}

// Whether a dot behind a number would belong to it.
fn is_whole(raw: &str) -> bool
    ensures { result ≡ is_whole raw.now }
{
    raw.as_bytes()
        .iter()
        .all(|byte| byte.is_ascii_digit() || *byte == b'_')
}

// Whether an operand would grow together with the operator before it.
fn is_kept_from(op: UnaryOp, child: Option<&Node>) -> bool
    ensures { result ≡ false → IfSome child.entry (λ it. IsApart op (head_of it.now)) }
{
    match child {
        Some(node) => is_kept_apart(op, node),
        None => matches!(op, UnaryOp::TypeOf | UnaryOp::Void | UnaryOp::Delete),
    }
}

fn is_kept_apart(op: UnaryOp, operand: &Node) -> bool
    ensures { result ≡ false → IsApart op (head_of operand.now) }
{
    match op {
        UnaryOp::TypeOf | UnaryOp::Void | UnaryOp::Delete => true,
        UnaryOp::Minus => is_sign(operand, true),
        UnaryOp::Plus => is_sign(operand, false),
        UnaryOp::Bang | UnaryOp::Tilde => false,
    }
}

// Whether a node begins with a minus or two, or else with a plus or two.
fn is_sign(node: &Node, is_minus: bool) -> bool
    ensures { result ≡ is_sign (head_of node.now) is_minus }
{
    match node {
        Node::UnaryExpr { op: UnaryOp::Minus } => is_minus,
        Node::UnaryExpr { op: UnaryOp::Plus } => !is_minus,
        Node::UpdateExpr { op, prefix: true } => { matches!(op, UpdateOp::MinusMinus) == is_minus }
        _ => false,
    }
}

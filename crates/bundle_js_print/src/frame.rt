//! A node that is being written.

use crate::context::PrintContext;
use bundle_syntax::Node;

/// A node that has begun and not ended.
#[derive(Clone, Copy)]
pub struct PrintFrame<'p, 'a> {
    pub node: &'p Node<'a>,
    /// Where it begins in the list.
    pub at: usize,
    /// Where it begins in the text.
    pub offset: u32,
    /// What is asked of it, or nothing where it is in parentheses.
    pub context: PrintContext,
    /// What is around it.
    pub wrap: Wrap,
    /// 0 where it has no child yet, and else one more than the field of the last.
    pub behind: u8,
    /// How its last child ended.
    pub last: Last,
    /// Whether its children stand on lines of their own, one deeper.
    pub has_lines: bool,
    /// Whether it stands one deeper itself.
    pub is_deeper: bool,
    /// Where in the list the next text of a template stands.
    pub quasi: usize,
}

/// What is put around a node.
#[derive(Clone, Copy, PartialEq, Eq, Debug)]
pub enum Wrap {
    Bare,
    Parens,
    /// Braces, which make a statement a block.
    Braces,
}

/// How a child has ended.
#[derive(Clone, Copy, PartialEq, Eq, Debug)]
pub enum Last {
    Plain,
    /// With a brace, or it is one of a list in braces that has not ended.
    Braced,
    /// It is a place without an element.
    Hole,
}

/// How a child begins.
#[derive(Clone, Copy)]
pub struct Arrival {
    /// What is asked of it.
    pub context: PrintContext,
    pub wrap: Wrap,
    pub last: Last,
    pub is_deeper: bool,
    /// Whether it has been written before.
    pub is_written: bool,
}

impl<'p, 'a> PrintFrame<'p, 'a> {
    /// A node that begins here.
    pub fn new(
        node: &'p Node<'a>,
        at: usize,
        offset: u32,
        context: PrintContext,
    ) -> PrintFrame<'p, 'a> {
        PrintFrame {
            node,
            at,
            offset,
            context,
            wrap: Wrap::Bare,
            behind: 0,
            last: Last::Plain,
            has_lines: false,
            is_deeper: false,
            quasi: 0,
        }
    }
}

impl Arrival {
    /// A child of which this is asked, with nothing else to say of it.
    pub fn plain(context: PrintContext) -> Arrival {
        Arrival {
            context,
            wrap: Wrap::Bare,
            last: Last::Plain,
            is_deeper: false,
            is_written: false,
        }
    }
}

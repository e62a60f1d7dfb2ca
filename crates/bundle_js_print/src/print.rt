//! A list printed.

ghost use Rattle.std.specs.Prelude.{◌≡◌, ◌≤◌, IfOk, length, string_len, vec_len};
ghost use Rattle.std.specs.List.{All};

use crate::printer::{LeadingComment, Printer};
use crate::text::Charset;
use bundle_syntax::{Node, Piece};
use std::alloc::{AllocError, Global};

/// A text, and for each piece of its list the place where it begins there, in bytes. A `Close` begins where
/// its node ends. A place that 32 bits cannot number is the greatest that they can.
#[derive(Drop, Debug)]
pub struct Printed {
    pub text: String,
    pub offsets: Vec<u32>,
}

/// The source text of a module, by its pieces, or of some items. It is read again as the same list, but for
/// parentheses that the list lacks, and braces that keep an `else` from an `if`. `comments` stand in the order of
/// their pieces; each has a line before the first statement that begins there or behind. Refused only for memory.
/// Of pieces of no tree some text is made.
pub fn print_pieces(
    alloc: Global,
    pieces: &[Piece<'_>],
    comments: &[LeadingComment<'_>],
    charset: Charset,
) -> Result<Printed, AllocError>
    ensures places { IfOk result (λ it. vec_len it.offsets ≡ length pieces.now) }
    ensures within { IfOk result (λ it. All (λ place. place ≤ string_len it.text) it.offsets.items) }
{
    let root = Node::Module;
    let mut printer = Printer::new(alloc, &root, pieces, comments, charset)?;
    let mut offsets = Vec::with_capacity(alloc, pieces.len())?;
    for (at, piece) in pieces.iter().enumerate() {
        let offset = printer.write(at, piece)?;
        offsets.push(offset)?;
    }
    printer.finish()?;
    let Printer { text, .. } = printer;
    Ok(Printed { text, offsets })
}

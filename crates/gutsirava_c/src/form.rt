//! JavaScript to the JSON form of its tree.

ghost use Rattle.std.specs.Prelude.{ℕ, List, string_bytes, IfOk};
ghost use Rattle.gutsirava_c.specs.Answer.{IsHandedOver};
ghost use Rattle.gutsirava_c.specs.Form.{IsErrorLine, IsFormReply};

use crate::reply::Reply;
use crate::room::{NO_MEMORY, hand_over};
use bundle_js_read::{Goal, Position, ReadError, ReadErrorKind, SourceModule, position_at};
use bundle_json_form::push_tree;
use std::alloc::{AllocError, Global};

// How many nodes may lie in each other. A document takes fewer, whatever they are.
const MOST_DEPTH: usize = 127;

/// Reads the text of an ECMAScript module, or of a CommonJS module, and answers with the status 0 and the JSON form of its
/// tree; or with 1 and a line `error LINE:COLUMN: what is wrong`, of which lines count from 1, and columns from 1 in UTF-16
/// code units.
#[unsafe(no_mangle)]
pub extern "C" fn gutsirava_form(
    alloc: Global,
    source: &[u8],
    is_common_js: bool,
    output: &mut [u8],
    written: &mut usize,
) -> u32
    ensures { (status : ℕ) × (answer : List ℕ)
        × IsFormReply source.now status answer
        × IsHandedOver status answer result written.new output.old output.new }
{
    let goal = if is_common_js {
        Goal::CommonJs
    } else {
        Goal::Module
    };
    match reply_to(alloc, source, goal) {
        Ok(reply) => hand_over(reply.status, reply.text.as_str(), output, written),
        Err(_) => hand_over(1, NO_MEMORY, output, written),
    }
}

// The reply to a source. Refused only for memory.
fn reply_to(alloc: Global, source: &[u8], goal: Goal) -> Result<Reply, AllocError>
    ensures { IfOk result (λ reply.
        IsFormReply source.now reply.status (string_bytes reply.text)) }
{
    let Ok(source) = str::from_utf8(source) else {
        let text = String::from_str(alloc, "error 1:1: the text is not UTF-8\n")?;
        return Ok(Reply { status: 1, text });
    };
    match form_of(alloc, source, goal) {
        Ok(text) => Ok(Reply { status: 0, text }),
        Err(error) if matches!(error.kind, ReadErrorKind::OutOfMemory) => Err(AllocError),
        Err(error) => {
            let text = line_of(alloc, source, error)?;
            Ok(Reply { status: 1, text })
        }
    }
}

// The form of a text.
fn form_of(alloc: Global, text: &str, goal: Goal) -> Result<String, ReadError> {
    let source = SourceModule::read(alloc, text, goal)?;
    let placed = source.pieces(alloc, MOST_DEPTH)?;
    let mut form = String::new(alloc);
    match push_tree(alloc, &mut form, placed.pieces.as_slice()) {
        Ok(()) => Ok(form),
        Err(_) => Err(ReadError {
            kind: ReadErrorKind::OutOfMemory,
            at: 0,
        }),
    }
}

// The line that tells what is wrong in a text, and where in it.
fn line_of(alloc: Global, text: &str, error: ReadError) -> Result<String, AllocError>
    ensures { IfOk result (λ line. IsErrorLine text.now (string_bytes line)) }
{
    let at = text.len().min(error.at as usize);
    let Position { line, column } = position_at(text, at);
    let column = column.saturating_add(1);
    let kind = error.kind;
    let why = format!(in alloc; "{kind}")?;
    format!(in alloc; "error {line}:{column}: {why}\n")
}

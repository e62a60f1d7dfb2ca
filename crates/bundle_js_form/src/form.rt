//! The form of a text, or why it has none.

use bundle_js_read::{Goal, Position, SourceModule, position_at};
use bundle_json_form::push_tree;
use std::alloc::{AllocError, Global};
use std::env;
use std::fmt::Display;
use std::rt::Env;

/// How the program is called.
pub const USAGE: &str = "usage: bundle_js_form [module | commonjs]\n";

// How many nodes may lie in each other: the form is written by recursion, which a stack of 8 MB has room for.
const MOST_DEPTH: usize = 4000;

/// What is told of a text, as one line.
#[derive(Drop)]
pub enum Outcome {
    /// Its form.
    Form(String),
    /// Why it has none.
    Refused(String),
}

/// The goal that the program's arguments name; none where they are not understood.
pub fn goal_of<R: Env + AllocGlobal>(rt: &R) -> Option<Goal> {
    let mut goal = Goal::Module;
    let mut count: usize = 0;
    let Ok(words) = env::args(rt) else {
        return None;
    };
    for word in words.skip(1) {
        goal = match word.as_str() {
            "module" => Goal::Module,
            "commonjs" => Goal::CommonJs,
            _ => return None,
        };
        if count == 1 {
            return None;
        }
        count = 1;
    }
    Some(goal)
}

/// What is told of a text. Refused only for memory.
pub fn outcome_of(alloc: Global, bytes: &[u8], goal: Goal) -> Result<Outcome, AllocError> {
    let text = match str::from_utf8(bytes) {
        Ok(text) => text,
        Err(error) => return refused_bytes(alloc, bytes, error.valid_up_to()),
    };
    let source = match SourceModule::read(alloc, text, goal) {
        Ok(source) => source,
        Err(error) => {
            return Ok(Outcome::Refused(line_of(alloc, text, error.at as usize, error.kind)?));
        }
    };
    match source.pieces(alloc, MOST_DEPTH) {
        Ok(placed) => {
            let mut form = String::new(alloc);
            push_tree(alloc, &mut form, placed.pieces.as_slice())?;
            form.push('\n')?;
            Ok(Outcome::Form(form))
        }
        Err(error) => Ok(Outcome::Refused(line_of(alloc, text, error.at as usize, error.kind)?)),
    }
}

// The line that tells what is wrong at a byte of a text.
fn line_of<W: Display + Drop>(
    alloc: Global,
    text: &str,
    at: usize,
    why: W,
) -> Result<String, AllocError> {
    let Position { line, column } = position_at(text, at);
    let column = column.saturating_add(1);
    format!(in alloc; "error {line}:{column}: {why}\n")
}

// What is told of bytes that are no text from this place on.
fn refused_bytes(alloc: Global, bytes: &[u8], at: usize) -> Result<Outcome, AllocError> {
    let before = match bytes.get(..at) {
        Some(front) => str::from_utf8(front).unwrap_or(""),
        None => "",
    };
    let is_half = match (bytes.get(at), bytes.get(at.saturating_add(1))) {
        (Some(first), Some(second)) => *first == 0xed && *second >= 0xa0,
        _ => false,
    };
    let why = if is_half {
        "half of a surrogate pair has no form"
    } else {
        "the text is not UTF-8"
    };
    Ok(Outcome::Refused(line_of(alloc, before, at, why)?))
}

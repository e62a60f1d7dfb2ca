//! Answering a document.

ghost use Rattle.std.specs.Prelude.{◌≡◌, ◌≢◌, ◌⊎◌, ℕ, List, ◌++◌, codes, string_bytes, IfOk, IfErr};
ghost use Rattle.std.specs.Io.KnownBytes.{Appends};
ghost use Rattle.bundle_tree_names.specs.declared.error.Error.{Error};
ghost use Rattle.bundle_json_document.specs.Answer.{line_of as line_in, IsDocumentAnswer, IsDocumentRefusal};
ghost use Rattle.bundle_json_document.specs.Writing.{AppendsFront, AppendsOrFails};

use crate::document::Document;
use crate::output::{Output, refuse};
use crate::parties::{DocumentLoader, DocumentResolver};
use crate::text::bundles_text;
use bundle_tree::hook::Hook;
use bundle_tree_names::error::Error;
use bundler_call::Bundler;
use std::alloc::{AllocError, Global};

/// Bundles what a document asks for and writes the text of the bundles, with a line feed behind it.
///
/// The status is 0 where all of it is written, and then nothing is said on `errors`; 1 for a refusal,
/// of which one line is written on `errors`, its number and its name, and nothing on `output`; and 3 where
/// `output` fails, without a word. Of a text that an output does not take whole a front is written.
pub fn answer<W: Output, E: Output>(
    alloc: Global,
    document: Document,
    hook: Box<dyn Hook>,
    output: &mut W,
    errors: &mut E,
) -> u8
    ensures status { (result ≡ 0) ⊎ (result ≡ 1) ⊎ (result ≡ 3) }
    ensures written { result ≡ 0 →
        (text : List ℕ)
        × IsDocumentAnswer (may_give hook) (may_fail_hook hook) document text
        × Appends (W.contents output.old) (W.contents output.new) (text ++ codes "\n") }
    ensures fails { result ≡ 3 → W.may_fail_write output.old }
    ensures cut_off { result ≡ 3 →
        (text : List ℕ)
        × IsDocumentAnswer (may_give hook) (may_fail_hook hook) document text
        × AppendsFront (W.contents output.old) (W.contents output.new) (text ++ codes "\n") }
    ensures refused { result ≡ 1 →
        (refusal : Error)
        × IsDocumentRefusal (may_give hook) (may_fail_hook hook) document refusal
        × AppendsOrFails (E.may_fail_write errors.old) (E.contents errors.old)
        (E.contents errors.new) (line_in refusal) }
    ensures no_output { result ≡ 1 → output.new ≡ output.old }
    ensures no_error { result ≢ 1 → errors.new ≡ errors.old }
{
    match answer_text(alloc, document, hook) {
        Ok(text) => {
            if output.write_line(text.as_bytes()) {
                0
            } else {
                3
            }
        }
        Err(refusal) => report(alloc, &refusal, errors),
    }
}

// Writes the line of a refusal, or of the want of memory for that line. The status is 1.
fn report<E: Output>(alloc: Global, refusal: &Error, errors: &mut E) -> u8
    ensures status { result ≡ 1 }
    ensures line { (AppendsOrFails (E.may_fail_write errors.old) (E.contents errors.old)
        (E.contents errors.new) (line_in refusal.now))
        ⊎
        (AppendsOrFails (E.may_fail_write errors.old) (E.contents errors.old)
        (E.contents errors.new) (line_in Error.OutOfMemory)) }
{
    match line_of(alloc, refusal) {
        Ok(line) => refuse(errors, line.as_bytes(), 1),
        Err(_) => refuse(errors, b"error 22: OutOfMemory\n", 1),
    }
}

// The line of a refusal.
#[tactic(auto, unfolding(crate::specs::Answer::line_of))]
fn line_of(alloc: Global, refusal: &Error) -> Result<String, AllocError>
    ensures { IfOk result (λ line. string_bytes line ≡ line_in refusal.now) }
{
    let number = refusal.number();
    let name = refusal.name();
    format!(in alloc; "error {number}: {name}\n")
}

/// The text of the bundles that a document asks for, or why there are none.
pub fn answer_text(alloc: Global, document: Document, hook: Box<dyn Hook>) -> Result<String, Error>
    ensures made { IfOk result (λ text.
        IsDocumentAnswer (may_give hook) (may_fail_hook hook) document (string_bytes text)) }
    ensures refused { IfErr result (IsDocumentRefusal (may_give hook) (may_fail_hook hook) document) }
{
    let Document {
        config,
        files,
        entries,
    } = document;
    let loader = DocumentLoader { files };
    let bundler = Bundler::with_order(alloc, loader, DocumentResolver, config, hook);
    let bundles = bundler.into_bundles(alloc, entries)?;
    bundles_text(alloc, bundles.as_slice())
}

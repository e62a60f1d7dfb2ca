//! The program, over the streams that it is handed.

ghost use Rattle.std.specs.Prelude.{◌≡◌, ◌⊎◌, ℕ, List, ◌++◌, codes};
ghost use Rattle.std.specs.Io.KnownBytes.{Appends};
ghost use Rattle.bundle_tree_names.specs.declared.error.Error.{Error};
ghost use Rattle.bundle_json_document.specs.Answer.{line_of as line_in};
ghost use Rattle.bundle_json_document.specs.Document.{HasNoDocument, IsRefusalLine};
ghost use Rattle.bundle_json_document.specs.Program.{AnswersInput, RefusesInput};
ghost use Rattle.bundle_json_document.specs.Writing.{AppendsFront, AppendsOrFails};

use crate::answering::answer;
use crate::input::Input;
use crate::output::{Output, refuse};
use crate::read::read_document;
use std::alloc::Global;

/// Reads the document in `input`, bundles what it asks for and writes the text of the bundles to `output`, with a line
/// feed behind it. It gives the exit status of the program.
///
/// The status is 0 where all of it is written, and then nothing is said on `errors`; 1 for a refusal of the bundles and
/// for want of memory, and 2 for an input that cannot be read or is no document, each with its line on `errors` and
/// nothing on `output`; and 3 where `output` fails, without a word. Of a text that an output does not take whole a front
/// is written.
pub fn run<R: Input, W: Output, E: Output>(
    alloc: Global,
    input: &mut R,
    output: &mut W,
    errors: &mut E,
) -> u8
    ensures status { (result ≡ 0) ⊎ (result ≡ 1) ⊎ (result ≡ 2) ⊎ (result ≡ 3) }

    // What is written to the output.
    ensures written { result ≡ 0 →
        (text : List ℕ)
        × AnswersInput (R.remaining input.old) (R.remaining input.new) text
        × Appends (W.contents output.old) (W.contents output.new) (text ++ codes "\n") }
    ensures cut_off { result ≡ 3 →
        (text : List ℕ)
        × AnswersInput (R.remaining input.old) (R.remaining input.new) text
        × AppendsFront (W.contents output.old) (W.contents output.new) (text ++ codes "\n") }
    ensures fails { result ≡ 3 → W.may_fail_write output.old }
    ensures no_output { (result ≡ 1) ⊎ (result ≡ 2) → output.new ≡ output.old }

    // What is written to the errors.
    ensures refused { result ≡ 1 →
        (refusal : Error)
        × ((refusal ≡ Error.OutOfMemory)
        ⊎ RefusesInput (R.remaining input.old) (R.remaining input.new) refusal)
        × AppendsOrFails (E.may_fail_write errors.old) (E.contents errors.old)
        (E.contents errors.new) (line_in refusal) }
    ensures no_document { result ≡ 2 →
        (line : List ℕ)
        × IsRefusalLine (R.may_fail_read input.old)
        (HasNoDocument (R.remaining input.old) (R.remaining input.new)) result line
        × AppendsOrFails (E.may_fail_write errors.old) (E.contents errors.old)
        (E.contents errors.new) line }
    ensures no_error { (result ≡ 0) ⊎ (result ≡ 3) → errors.new ≡ errors.old }
{
    match read_document(alloc, input, errors) {
        Ok((document, hook)) => match Box::new(alloc, hook) {
            Ok(hook) => answer(alloc, document, hook, output, errors),
            Err(_) => refuse(errors, b"error 22: OutOfMemory\n", 1),
        },
        Err(status) => status,
    }
}

//! The JSON form of a tree to JavaScript.

ghost use Rattle.std.specs.Prelude.{◌≡◌, ℕ, List, IfErr, OnOk};
ghost use Rattle.gutsirava_c.specs.Answer.{IsHandedOver};
ghost use Rattle.gutsirava_c.specs.Form.{HasList, HasNoList, IsTextReply};

use crate::room::{NO_MEMORY, hand_over};
use crate::value::value_of;
use bundle_js_print::{Charset, Printed, print_pieces};
use bundle_json_form::{FormError, read_module};
use bundle_syntax::ExportMetadata;
use json::Scratch;
use std::alloc::Global;

/// Answers with the status 0 and the source text of the module whose JSON form `form` is; with 1 and a line for want of
/// memory, and with 2 and a line where it is no form of a module.
#[unsafe(no_mangle)]
pub extern "C" fn gutsirava_text(
    alloc: Global,
    form: &[u8],
    output: &mut [u8],
    written: &mut usize,
) -> u32
    ensures { (status : ℕ) × (answer : List ℕ)
        × IsTextReply form.now status answer
        × IsHandedOver status answer result written.new output.old output.new }
{
    match printed(alloc, form) {
        Ok(text) => hand_over(0, text.as_str(), output, written),
        Err(FormError::Form) => hand_over(2, "error: document\n", output, written),
        Err(FormError::OutOfMemory) => hand_over(1, NO_MEMORY, output, written),
    }
}

// The source text of the module of this form.
fn printed(alloc: Global, form: &[u8]) -> Result<String, FormError>
    ensures read { OnOk result (HasList form.now) }
    ensures refused { IfErr result (λ error. error ≡ FormError.Form → HasNoList form.now) }
{
    let Ok(form) = str::from_utf8(form) else {
        return Err(FormError::Form);
    };
    let notes = ExportMetadata::default();
    let mut scratch = Scratch::new(alloc);
    let value = value_of(alloc, form, &mut scratch)?;
    let pieces = read_module(alloc, &value, &notes)?;
    let Printed { text, .. } = print_pieces(alloc, pieces.as_slice(), &[], Charset::Utf8)?;
    Ok(text)
}

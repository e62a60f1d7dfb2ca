//! The value of a JSON text.

ghost use Rattle.std.specs.Prelude.{◌≡◌, None, Some, IfErr, IfOk};
ghost use Rattle.json.specs.Json.{document};
ghost use Rattle.json.specs.Value.{value_view};

use bundle_json_form::FormError;
use json::{Error, Scratch, Value};
use std::alloc::Global;

/// The value of a text. Refused where it is no JSON, and for memory.
pub(crate) fn value_of<'a>(
    alloc: Global,
    text: &'a str,
    scratch: &'a mut Scratch,
) -> Result<Value<'a>, FormError>
    ensures read { IfOk result (λ value. document text.now ≡ Some (value_view value)) }
    ensures refused { IfErr result (λ error. error ≡ FormError.Form → document text.now ≡ None) }
{
    match Value::parse(alloc, text, scratch) {
        Ok(value) => Ok(value),
        Err(Error::OutOfMemory) => Err(FormError::OutOfMemory),
        Err(_) => Err(FormError::Form),
    }
}

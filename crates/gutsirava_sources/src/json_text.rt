//! JSON as a CommonJS module (RFC 8259).

ghost use Rattle.std.specs.Prelude.{◌≡◌, IfErr, IfOk, OnOk, string_bytes};
ghost use Rattle.gutsirava_sources.specs.JsonText.{IsJson, IsRefusedFor, module_text};

use json::{Reader, Scratch};
use std::alloc::{AllocError, Global};

/// So many values may lie in each other.
const MOST_DEPTH: usize = 128;

/// Why a text is no JSON.
#[derive(Clone, Copy)]
pub enum JsonError {
    /// It is none from about this byte on, or nests deeper than 128 levels.
    Form { at: usize },
    Memory(AllocError),
}

/// The text of the CommonJS module whose exports are the value of a JSON text. Refused where it is none, and for memory.
pub fn json_module(alloc: Global, text: &str) -> Result<String, JsonError>
    ensures json { OnOk result (IsJson text.now) }
    ensures value { IfOk result (λ it. string_bytes it ≡ module_text text.now) }
    ensures refused { IfErr result (λ error. IsRefusedFor error text.now) }
{
    let mut scratch = Scratch::new(alloc);
    let mut reader = match Reader::new(text, &mut scratch) {
        Ok(reader) => reader,
        Err(error) => return Err(JsonError::Memory(error)),
    };
    let is_value = reader.skip_value(MOST_DEPTH).is_ok();
    let at = reader.offset();
    if !is_value || reader.next().is_some() {
        return Err(JsonError::Form { at });
    }
    match format!(in alloc; "module.exports = {text};") {
        Ok(it) => Ok(it),
        Err(error) => Err(JsonError::Memory(error)),
    }
}

//! The source text of the module whose JSON form standard input is (`docs/DOCUMENT.md`, "The form of trees"), on
//! standard output. The status is 0; 1 where memory is refused, 2 where the input is no such form or cannot be
//! read, 3 where the output cannot be written.
#![tactic(auto)]

use bundle_js_print::{Charset, Printed, print_pieces};
use bundle_json_form::{FormError, read_module};
use bundle_syntax::ExportMetadata;
use json::{Error, Scratch, Value};
use std::alloc::Global;
use std::io::{Read, Write};
use std::process::ExitCode;

fn main(rt: HostRuntime) -> ExitCode {
    let alloc = rt.alloc();
    let mut input = String::new(alloc);
    if rt.stdin().read_to_string(&mut input).is_err() {
        let _ = rt.stderr().write_all(b"error: input\n");
        return ExitCode::from(2);
    }
    match text_of(alloc, input.as_str()) {
        Ok(text) => match rt.stdout().write_all(text.as_bytes()) {
            Ok(()) => ExitCode::from(0),
            Err(_) => ExitCode::from(3),
        },
        Err(FormError::Form) => {
            let _ = rt.stderr().write_all(b"error: document\n");
            ExitCode::from(2)
        }
        Err(FormError::OutOfMemory) => {
            let _ = rt.stderr().write_all(b"error: out of memory\n");
            ExitCode::from(1)
        }
    }
}

// The source text of the module of this form.
fn text_of(alloc: Global, form: &str) -> Result<String, FormError> {
    let notes = ExportMetadata::default();
    let mut scratch = Scratch::new(alloc);
    let value = match Value::parse(alloc, form, &mut scratch) {
        Ok(value) => value,
        Err(Error::OutOfMemory) => return Err(FormError::OutOfMemory),
        Err(_) => return Err(FormError::Form),
    };
    let pieces = read_module(alloc, &value, &notes)?;
    let Printed { text, .. } = print_pieces(alloc, pieces.as_slice(), &[], Charset::Utf8)?;
    Ok(text)
}

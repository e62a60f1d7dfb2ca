//! Writing a text so that what came through is known where the writer fails too.

ghost use Rattle.std.specs.Prelude.{◌≡◌, [], ◌∷◌, ◌++◌, IsTrue};
ghost use Rattle.std.specs.Io.KnownBytes.{Appends};
ghost use Rattle.bundle_json_document.specs.Writing.{AppendsFront};

use std::io::{ErrorKind, Write};

/// Writes the text and a line feed, and sees to it that they reach their place. False where the writer
/// fails.
pub(crate) fn write_line<W: Write>(output: &mut W, text: &[u8]) -> bool
    ensures whole { IsTrue result →
        Appends (W.contents output.old) (W.contents output.new) (text.now ++ 10 ∷ []) }
    ensures front { AppendsFront (W.contents output.old) (W.contents output.new)
        (text.now ++ 10 ∷ []) }
{
    if !write_text(output, text) {
        return false;
    }
    let is_written = write_text(output, b"\n");
    output.flush().is_ok() && is_written
}

/// Writes the text. False where the writer fails.
pub(crate) fn write_text<W: Write>(writer: &mut W, text: &[u8]) -> bool
    ensures whole { IsTrue result →
        Appends (W.contents writer.old) (W.contents writer.new) text.now }
    ensures front { AppendsFront (W.contents writer.old) (W.contents writer.new) text.now }
{
    let mut rest = text;
    for _ in 0..u64::MAX {
        if rest.is_empty() {
            return true;
        }
        match writer.write(rest) {
            Ok(0) => return false,
            Ok(count) => rest = &rest[count..],
            Err(error) => {
                if error.kind() != ErrorKind::Interrupted {
                    return false;
                }
            }
        }
    }
    false
}

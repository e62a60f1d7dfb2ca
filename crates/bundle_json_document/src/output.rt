//! What texts are written to.

ghost use Rattle.std.specs.Prelude.{◌≡◌};
ghost use Rattle.bundle_json_document.specs.Writing.{AppendsOrFails};

use crate::writing::{write_line, write_text};
use std::io::Write;

/// An output that takes texts. Each implementation says where writing may fail.
pub trait Output {
    ghost use Rattle.std.specs.Prelude.{◌≡◌, ℕ, [], ◌∷◌, ◌++◌, false, List, Option, IsTrue};
    ghost use Rattle.std.specs.Io.KnownBytes.{Appends};
    ghost use Rattle.bundle_json_document.specs.Writing.{AppendsFront};

    /// The bytes that it holds, where they are known.
    ghost contents: { Self → Option (List ℕ) };

    /// That writing may fail.
    ghost may_fail_write: { Self → Type 0 };

    /// Writes the text. False where writing fails; a front of the text is written then.
    fn write_text(&mut self, text: &[u8]) -> bool
        ensures whole { IsTrue result → Appends (contents self.old) (contents self.new) text.now }
        ensures front { AppendsFront (contents self.old) (contents self.new) text.now }
        ensures failure { result ≡ false → may_fail_write self.old };

    /// Writes the text and a line feed, and sees to it that they reach their place. False where writing
    /// fails; a front of them is written then.
    fn write_line(&mut self, text: &[u8]) -> bool
        ensures whole { IsTrue result →
            Appends (contents self.old) (contents self.new) (text.now ++ 10 ∷ []) }
        ensures front { AppendsFront (contents self.old) (contents self.new) (text.now ++ 10 ∷ []) }
        ensures failure { result ≡ false → may_fail_write self.old };
}

/// Of a writer nothing is known of where it fails.
impl<W: Write> Output for W {
    ghost use Rattle.std.specs.Prelude.{⊤};

    ghost contents = { W.contents };

    ghost may_fail_write = { λ _. ⊤ };

    fn write_text(&mut self, text: &[u8]) -> bool {
        write_text(self, text)
    }

    fn write_line(&mut self, text: &[u8]) -> bool {
        write_line(self, text)
    }
}

/// Writes the line of a refusal and gives its status, which a failed write does not change.
pub(crate) fn refuse<E: Output>(errors: &mut E, line: &[u8], status: u8) -> u8
    ensures status { result ≡ status }
    ensures line { AppendsOrFails (E.may_fail_write errors.old) (E.contents errors.old)
        (E.contents errors.new) line.now }
{
    let _is_written = errors.write_text(line);
    status
}

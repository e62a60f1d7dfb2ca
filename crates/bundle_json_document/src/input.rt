//! What a document is read from.

ghost use Rattle.std.specs.Prelude.{IfOk, OnOk};
ghost use Rattle.std.specs.Io.KnownBytes.{Consumes, IsAtEnd};

use std::alloc::Global;
use std::io::{ErrorKind, Read};

/// Why an input was not read to its end.
#[derive(Clone, Copy, PartialEq, Eq, Debug)]
pub enum InputError {
    /// It cannot be read.
    Failed,
    /// A growth was refused.
    OutOfMemory,
}

/// An input that is read to its end. Each implementation says where reading may fail.
pub trait Input {
    ghost use Rattle.std.specs.Prelude.{◌≡◌, ℕ, List, Option, Err, IfOk, OnOk};
    ghost use Rattle.std.specs.Io.KnownBytes.{Consumes, IsAtEnd};

    /// The bytes that are left, where they are known.
    ghost remaining: { Self → Option (List ℕ) };

    /// That reading may fail.
    ghost may_fail_read: { Self → Type 0 };

    /// Reads all that is left. Refused where reading fails, and for memory.
    fn read_whole(&mut self, alloc: Global) -> Result<Vec<u8>, InputError>
        ensures text { IfOk result (λ text.
            Consumes (remaining self.old) (remaining self.new) text.items) }
        ensures whole { OnOk result (IsAtEnd (remaining self.new)) }
        ensures failure { result ≡ Err InputError.Failed → may_fail_read self.old };
}

/// Of a reader nothing is known of where it fails.
impl<R: Read + Drop> Input for R {
    ghost use Rattle.std.specs.Prelude.{⊤};

    ghost remaining = { R.remaining };

    ghost may_fail_read = { λ _. ⊤ };

    fn read_whole(&mut self, alloc: Global) -> Result<Vec<u8>, InputError> {
        read_to_end(alloc, self)
    }
}

// Reads all that is left, by way of a room of its own: to grow a list for each read would fill its new part first.
fn read_to_end<R: Read>(alloc: Global, reader: &mut R) -> Result<Vec<u8>, InputError>
    ensures text { IfOk result (λ text.
        Consumes (R.remaining reader.old) (R.remaining reader.new) text.items) }
    ensures whole { OnOk result (IsAtEnd (R.remaining reader.new)) }
{
    let mut text = Vec::new(alloc);
    let mut room = [0u8; 65536];
    for _ in 0..u64::MAX {
        match reader.read(&mut room) {
            Ok(0) => return Ok(text),
            Ok(count) => {
                if text.extend_from_slice(&room[..count]).is_err() {
                    return Err(InputError::OutOfMemory);
                }
            }
            Err(error) => match error.kind() {
                ErrorKind::Interrupted => {}
                ErrorKind::OutOfMemory => return Err(InputError::OutOfMemory),
                _ => return Err(InputError::Failed),
            },
        }
    }
    Err(InputError::Failed)
}

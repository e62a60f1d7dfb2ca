//! Where bundles are kept.
ghost use Rattle.std.specs.Prelude.{List, Option, None, OnOk, OnErr, IfErr};
ghost use Rattle.gutsirava_run.specs.Delivery.{Delivery, Delivers, KeepsAll, IsRefusal, delivery_of};

use gutsirava_files::{FileOutput, MachineFiles, OutputError, write_outputs};
use std::alloc::Global;
use std::rt::Files as System;

/// A file that is to be written.
#[derive(Drop)]
pub struct OutputFile {
    /// A path from the folder on that the process works in, or one that begins with `/`.
    pub path: String,
    pub text: String,
}

/// Where bundles are kept: files, which are written all together or not at all.
pub trait BundleStore {
    /// What was written so far, where the type says it.
    ghost stored: { Self → Option (List Delivery) };

    /// That it may refuse files, for other reasons than memory.
    ghost may_refuse: { Self → Type 0 };

    /// Writes files, all of them or none. None takes the place of an input.
    fn store(
        &mut self,
        alloc: Global,
        inputs: &[String],
        files: &[OutputFile],
    ) -> Result<(), OutputError>
        ensures all { OnOk result (Delivers (stored self.old) (stored self.new)
            (delivery_of inputs.now files.now)) }
        ensures none { OnErr result (KeepsAll (stored self.old) (stored self.new)) }
        ensures refused { IfErr result (IsRefusal (may_refuse self.old)) };
}

/// The files of the machine, of which no type can say what they hold.
impl<R: System + AllocGlobal> BundleStore for MachineFiles<'_, R> {
    ghost stored = { λ _. None };

    ghost may_refuse = { λ _. Unit {0} };

    fn store(
        &mut self,
        alloc: Global,
        inputs: &[String],
        files: &[OutputFile],
    ) -> Result<(), OutputError> {
        let mut outputs = Vec::new(alloc);
        for file in files {
            outputs.push(FileOutput {
                path: file.path.as_str(),
                bytes: file.text.as_bytes(),
            })?;
        }
        write_outputs(alloc, &*self, inputs, outputs.as_slice())
    }
}

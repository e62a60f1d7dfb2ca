//! Outputs are written whole or not at all.
ghost use Rattle.std.specs.Prelude.{◌≡◌, ◌++◌, [], ◌∷◌, All, true, map, string_bytes, IfOk, OnOk};
ghost use Rattle.std.specs.List.{list_any};
ghost use Rattle.std.specs.Str.{bytes_eq};
ghost use Rattle.gutsirava_files.specs.Outputs.{folder_at, place_in, AreInputs, IsWrittenTo};
ghost use Rattle.gutsirava_files.specs.Stages.{wanted_by, wanted_of, IsSent};

use crate::device::DeviceOutput;
use crate::disk::{Disk, DiskKind};
use crate::error::{OutputError, disk_error};
use crate::made::MadePath;
use crate::places::OutputPlace;
use crate::stage::OutputStage;
use crate::staged::Staged;
use gutsirava_path::{file_name, folder_of, is_folder_form, join};
use std::alloc::{AllocError, Global};
use std::io;
use std::io::ErrorKind;

/// So many names are tried for a temporary file.
const MOST_NAMES: u32 = 1000;

/// What is to be written, and where.
#[derive(Clone, Copy)]
pub struct FileOutput<'a> {
    /// A path from the folder on that the process works in, or one that begins with `/`.
    pub path: &'a str,
    pub bytes: &'a [u8],
}

/// Writes outputs, all of them or none. Each is written to a file beside its place, and those are moved to their places
/// once all are written. The folders of new files are made. Links are followed; what is neither a file nor a folder is
/// written to as it is, before any file is moved.
///
/// `inputs` are the paths of all files that were read, without links: an output that would replace one of them is an
/// error, as is a second output for the same place.
///
/// After an error no output is at its place, and no file or folder that was made on the way is left, as far as the file
/// system lets it be undone: an earlier file that was replaced before a later one failed comes back where the file
/// system has links, by a second name that is removed at the end.
pub fn write_outputs<D: Disk + Drop>(
    alloc: Global,
    disk: &D,
    inputs: &[String],
    outputs: &[FileOutput<'_>],
) -> Result<(), OutputError>
    requires { AreInputs D.is_input inputs.now }
    ensures { OnOk result (All (IsWrittenTo D.leads D.has_device D.is_written)
        (map wanted_of outputs.now)) }
{
    let mut writer = Writer {
        alloc,
        disk,
        folders: Vec::new(alloc),
        stages: Vec::new(alloc),
        names: 0,
    };
    let written = writer.write(inputs, outputs);
    match &written {
        Ok(()) => writer.forget_old(),
        Err(_) => writer.undo(),
    }
    written
}

/// Outputs on their way.
#[derive(Drop)]
struct Writer<'d, 'o, D: Disk> {
    alloc: Global,
    disk: &'d D,
    /// The folders that were made, each behind the one that holds it.
    folders: Vec<MadePath<D>>,
    /// What becomes of outputs, in their order.
    stages: Vec<OutputStage<'o, D>>,
    /// How many names were given to temporary files.
    names: u32,
}

impl<'d, 'o, D: Disk + Drop> Writer<'d, 'o, D> {
    fn write(&mut self, inputs: &[String], outputs: &[FileOutput<'o>]) -> Result<(), OutputError>
        requires spares { AreInputs D.is_input inputs.now }
        requires fresh { self.old.stages.items ≡ [] }
        ensures { OnOk result (All (IsWrittenTo D.leads D.has_device D.is_written)
            (map wanted_of outputs.now)) }
    {
        self.stage_all(inputs, outputs)?;
        self.send_all()?;
        self.put_all()
    }

    /// Writes all outputs to files beside their places.
    fn stage_all(
        &mut self,
        inputs: &[String],
        outputs: &[FileOutput<'o>],
    ) -> Result<(), OutputError>
        requires spares { AreInputs D.is_input inputs.now }
        requires fresh { self.old.stages.items ≡ [] }
        ensures { OnOk result (map wanted_by self.new.stages.items ≡ map wanted_of outputs.now) }
    {
        for output in outputs {
            self.stage(inputs, *output)?;
        }
        Ok(())
    }

    /// Writes the bytes of all devices.
    fn send_all(&self) -> Result<(), OutputError>
        ensures { OnOk result (All (IsSent D.is_written) self.now.stages.items) }
    {
        for stage in &self.stages {
            if let Err(cause) = stage.send(self.disk) {
                return Err(disk_error(self.alloc, stage.path(), cause));
            }
        }
        Ok(())
    }

    /// Moves all files to their places. The last one needs no way back.
    fn put_all(&mut self) -> Result<(), OutputError>
        requires { All (IsSent D.is_written) self.old.stages.items }
        ensures { OnOk result (All (IsWrittenTo D.leads D.has_device D.is_written)
            (map wanted_by self.old.stages.items)) }
    {
        let last = self.stages.iter().rposition(|stage| stage.is_file());
        for (at, stage) in self.stages.iter_mut().enumerate() {
            if let Err(cause) = stage.put(self.alloc, self.disk, last != Some(at)) {
                return Err(disk_error(self.alloc, stage.path(), cause));
            }
        }
        Ok(())
    }

    /// Writes an output to a file beside its place.
    fn stage(&mut self, inputs: &[String], output: FileOutput<'o>) -> Result<(), OutputError>
        requires { AreInputs D.is_input inputs.now }
        ensures { OnOk result (map wanted_by self.new.stages.items
            ≡ map wanted_by self.old.stages.items ++ wanted_of output.entry ∷ []) }
    {
        let path = output.path;
        let kind = match self.disk.standing(path) {
            Ok(kind) => kind,
            Err(cause) => return Err(disk_error(self.alloc, path, cause)),
        };
        match kind {
            DiskKind::Folder => Err(self.folder_error(path)),
            DiskKind::Device => {
                self.stages
                    .push(OutputStage::Device(DeviceOutput::new(output)))?;
                Ok(())
            }
            DiskKind::File => {
                let real = self.real_path(path, path)?;
                self.stage_at(inputs, real, true, output)
            }
            DiskKind::Missing => {
                let real = self.new_path(path)?;
                self.stage_at(inputs, real, false, output)
            }
        }
    }

    /// Writes an output to a file beside the path, without links, that it goes to.
    fn stage_at(
        &mut self,
        inputs: &[String],
        real: String,
        is_taken: bool,
        output: FileOutput<'o>,
    ) -> Result<(), OutputError>
        requires spares { AreInputs D.is_input inputs.now }
        requires fits { D.leads output.path.now (string_bytes real) ≡ true }
        ensures { OnOk result (map wanted_by self.new.stages.items
            ≡ map wanted_by self.old.stages.items ++ wanted_of output.entry ∷ []) }
    {
        let place = self.place(inputs, output.path, real, is_taken)?;
        let temporary = self.write_beside(&place, output)?;
        self.keep(Staged::new(output, place, temporary))
    }

    /// Remembers a file that is written.
    fn keep(&mut self, staged: Staged<'o, D>) -> Result<(), OutputError>
        ensures { OnOk result (map wanted_by self.new.stages.items
            ≡ map wanted_by self.old.stages.items ++ wanted_of staged.entry.output ∷ []) }
    {
        match self.stages.push(OutputStage::File(staged)) {
            Ok(()) => Ok(()),
            Err(failed) => {
                failed.value.undo(self.alloc, self.disk);
                Err(OutputError::Memory(AllocError))
            }
        }
    }

    /// The place of an output, which is no input's and no other output's.
    fn place(
        &self,
        inputs: &[String],
        path: &str,
        real: String,
        is_taken: bool,
    ) -> Result<OutputPlace<D>, OutputError>
        requires { AreInputs D.is_input inputs.now }
        ensures { IfOk result (λ place. place ≡ string_bytes real) }
    {
        if has_path(inputs, real.as_str()) {
            return Err(OutputError::Input {
                path: String::from_str(self.alloc, path)?,
            });
        }
        if self.stages.iter().any(|it| it.is_at(real.as_str())) {
            return Err(OutputError::Duplicate {
                path: String::from_str(self.alloc, path)?,
            });
        }
        Ok(OutputPlace::new(real, is_taken))
    }

    /// The path of a new file, without links. Its folder is made where it is missing.
    fn new_path(&mut self, path: &str) -> Result<String, OutputError>
        ensures same { self.new.stages ≡ self.old.stages }
        ensures fits { IfOk result (λ it. D.leads path.now (string_bytes it) ≡ true) }
    {
        if is_folder_form(path) {
            return Err(self.folder_error(path));
        }
        let folder = folder_at(path);
        self.make_folders(path, folder)?;
        let real = self.real_path(path, folder)?;
        Ok(place_in(self.alloc, real.as_str(), path)?)
    }

    /// Makes a folder of an output, and those that hold it, where they are missing.
    fn make_folders(&mut self, path: &str, folder: &str) -> Result<(), OutputError>
        ensures { self.new.stages ≡ self.old.stages }
    {
        let mut here = String::new(self.alloc);
        for part in folder.split('/') {
            self.make_part(path, &mut here, part)?;
        }
        Ok(())
    }

    /// Goes one folder further, which is made where it is missing.
    fn make_part(&mut self, path: &str, here: &mut String, part: &str) -> Result<(), OutputError>
        ensures { self.new.stages ≡ self.old.stages }
    {
        here.push_str(part)?;
        if !part.is_empty() {
            if let Err(cause) = self.make_folder(here.as_str()) {
                return Err(disk_error(self.alloc, path, cause));
            }
        }
        here.push('/')?;
        Ok(())
    }

    /// Makes a folder where nothing stands.
    fn make_folder(&mut self, folder: &str) -> io::Result<()>
        ensures { self.new.stages ≡ self.old.stages }
    {
        if self.disk.standing(folder)? != DiskKind::Missing {
            return Ok(());
        }
        let made = MadePath::folder(self.disk, String::from_str(self.alloc, folder)?)?;
        if let Err(failed) = self.folders.push(made) {
            let _ = self.disk.remove_folder(failed.value.path());
            return Err(io::Error::from(AllocError));
        }
        Ok(())
    }

    /// Writes an output to a new file in the folder of its place.
    fn write_beside(
        &mut self,
        place: &OutputPlace<D>,
        output: FileOutput<'o>,
    ) -> Result<MadePath<D>, OutputError>
        ensures same { self.new.stages ≡ self.old.stages }
        ensures whole { IfOk result (λ it. D.is_written it output.entry.bytes.now ≡ true) }
    {
        let folder = folder_of(place.path());
        for _ in 0..MOST_NAMES {
            let path = self.temporary_path(folder)?;
            match MadePath::file(self.disk, path, output.bytes) {
                Ok(made) => return Ok(made),
                Err(cause) if cause.kind() == ErrorKind::AlreadyExists => {}
                Err(cause) => return Err(disk_error(self.alloc, output.path, cause)),
            }
        }
        let cause = io::Error::from(ErrorKind::AlreadyExists);
        Err(disk_error(self.alloc, output.path, cause))
    }

    /// A path in a folder, which no other temporary file of this writer has.
    fn temporary_path(&mut self, folder: &str) -> Result<String, AllocError>
        ensures { self.new.stages ≡ self.old.stages }
    {
        let number = self.names;
        self.names = number.wrapping_add(1);
        let name = format!(in self.alloc; ".gutsirava-{number}")?;
        join(self.alloc, folder, name.as_str())
    }

    /// The path of what stands at `folder`, without links; `path` is what an error tells.
    fn real_path(&self, path: &str, folder: &str) -> Result<String, OutputError>
        ensures { IfOk result (λ it. D.leads folder.now (string_bytes it) ≡ true) }
    {
        match self.disk.real_path(self.alloc, folder) {
            Ok(real) => Ok(real),
            Err(cause) => Err(disk_error(self.alloc, path, cause)),
        }
    }

    fn folder_error(&self, path: &str) -> OutputError {
        match String::from_str(self.alloc, path) {
            Ok(path) => OutputError::Folder { path },
            Err(error) => OutputError::Memory(error),
        }
    }

    /// Removes what replaced files were kept by.
    fn forget_old(&self) {
        for stage in &self.stages {
            stage.forget_old(self.disk);
        }
    }

    /// Takes back what was done, the last first.
    fn undo(&self) {
        for stage in self.stages.iter().rev() {
            stage.undo(self.alloc, self.disk);
        }
        for folder in self.folders.iter().rev() {
            let _ = self.disk.remove_folder(folder.path());
        }
    }
}

/// The folder of a file: where its path has none, the one that is worked in.
fn folder_at(path: &str) -> &str
    ensures { result.now ≡ folder_at path.now }
{
    let folder = folder_of(path);
    if folder.is_empty() { "." } else { folder }
}

/// A place in a folder, under the name of a file.
fn place_in(alloc: Global, folder: &str, path: &str) -> Result<String, AllocError>
    ensures { IfOk result (λ place. string_bytes place ≡ place_in folder.now path.now) }
{
    join(alloc, folder, file_name(path))
}

/// Whether a path is one of these.
fn has_path(paths: &[String], path: &str) -> bool
    ensures { result ≡ list_any (λ it. bytes_eq (string_bytes it) path.now) paths.now }
{
    paths.iter().any(|it| it.as_str() == path)
}

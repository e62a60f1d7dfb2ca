//! Outputs on their way.
ghost use Rattle.std.specs.Prelude.{OnOk};
ghost use Rattle.gutsirava_files.specs.Outputs.{IsWrittenTo};
ghost use Rattle.gutsirava_files.specs.Stages.{wanted_by, IsSent};

use crate::device::DeviceOutput;
use crate::disk::Disk;
use crate::staged::Staged;
use std::alloc::Global;
use std::io;

/// What becomes of an output.
#[derive(Drop)]
pub(crate) enum OutputStage<'o, D: Disk> {
    File(Staged<'o, D>),
    Device(DeviceOutput<'o, D>),
}

impl<'o, D: Disk + Drop> OutputStage<'o, D> {
    pub(crate) fn is_file(&self) -> bool {
        matches!(self, OutputStage::File(_))
    }

    /// Whether it is a file for a path.
    pub(crate) fn is_at(&self, path: &str) -> bool {
        match self {
            OutputStage::File(staged) => staged.is_at(path),
            OutputStage::Device(_) => false,
        }
    }

    /// The path that was asked for.
    pub(crate) fn path(&self) -> &str {
        match self {
            OutputStage::File(staged) => staged.output.path,
            OutputStage::Device(device) => device.output.path,
        }
    }

    /// Writes the bytes of a device.
    pub(crate) fn send(&self, disk: &D) -> io::Result<()>
        ensures { OnOk result (IsSent D.is_written self.now) }
    {
        match self {
            OutputStage::File(_) => Ok(()),
            OutputStage::Device(device) => {
                disk.write_device(device.output.path, device.output.bytes)
            }
        }
    }

    /// Moves a file to its place. With `keeps_old` it can be taken back from there, if the file system has links.
    pub(crate) fn put(&mut self, alloc: Global, disk: &D, keeps_old: bool) -> io::Result<()>
        ensures { OnOk result (IsSent D.is_written self.old →
            IsWrittenTo D.leads D.has_device D.is_written (wanted_by self.old)) }
    {
        match self {
            OutputStage::File(staged) => staged.put(alloc, disk, keeps_old),
            OutputStage::Device(_) => Ok(()),
        }
    }

    /// Removes what a replaced file was kept by.
    pub(crate) fn forget_old(&self, disk: &D) {
        if let OutputStage::File(staged) = self {
            staged.forget_old(disk);
        }
    }

    /// Takes a file back.
    pub(crate) fn undo(&self, alloc: Global, disk: &D) {
        if let OutputStage::File(staged) = self {
            staged.undo(alloc, disk);
        }
    }
}

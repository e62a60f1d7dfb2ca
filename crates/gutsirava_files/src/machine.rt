//! The files of the machine.
ghost use Rattle.std.specs.Prelude.{true, false, refl};

use crate::disk::{Disk, DiskKind};
use gutsirava_resolve::{FileSystem, PathKind};
use std::alloc::Global;
use std::fs::OpenOptions;
use std::io::{ErrorKind, Write};
use std::rt::Files as System;
use std::{fs, io};

/// The files of the machine, as the runtime has them.
#[derive(Drop)]
pub struct MachineFiles<'r, R>(&'r R);

impl<'r, R> MachineFiles<'r, R> {
    /// The files that the runtime has.
    pub fn new(rt: &'r R) -> MachineFiles<'r, R> {
        MachineFiles(rt)
    }
}

impl<R: System + AllocGlobal> FileSystem for MachineFiles<'_, R> {
    ghost has_file = { λ _. Unit {0} };

    ghost is_real = { λ _ _. Unit {0} };

    /// What may not be looked at, is no path, or leads through links without end is `Missing`, as in Node.
    fn kind(&self, path: &str) -> io::Result<PathKind> {
        Ok(match self.standing(path)? {
            DiskKind::File => PathKind::File,
            DiskKind::Folder => PathKind::Folder,
            DiskKind::Device | DiskKind::Missing => PathKind::Missing,
        })
    }

    fn read(&self, _alloc: Global, path: &str) -> io::Result<String> {
        fs::read_to_string(self.0, path)
    }

    fn real_path(&self, alloc: Global, path: &str) -> io::Result<String> {
        Ok(self.0.canonicalize(alloc, path)?.into_string())
    }
}

impl<R: System + AllocGlobal> Disk for MachineFiles<'_, R> {
    ghost has_made = { λ _. true };

    ghost is_input = { λ _. false };

    ghost has_device = { λ _. true };

    ghost is_written = { λ _ _. true };

    ghost leads = { λ _ _. true };

    ghost leads_below = { λ _ _ _. refl };

    fn standing(&self, path: &str) -> io::Result<DiskKind> {
        match fs::metadata(self.0, path) {
            Ok(metadata) if metadata.is_file() => Ok(DiskKind::File),
            Ok(metadata) if metadata.is_dir() => Ok(DiskKind::Folder),
            Ok(_) => Ok(DiskKind::Device),
            Err(error) if is_missing(error.kind()) => Ok(DiskKind::Missing),
            Err(error) => Err(error),
        }
    }

    fn real_path(&self, alloc: Global, path: &str) -> io::Result<String> {
        Ok(self.0.canonicalize(alloc, path)?.into_string())
    }

    fn make_folder(&self, path: &str) -> io::Result<()> {
        fs::create_dir(self.0, path)
    }

    fn make_file(&self, path: &str, bytes: &[u8]) -> io::Result<()> {
        let file = OpenOptions::new()
            .write(true)
            .create_new(true)
            .open(self.0, path)?;
        let written = write_whole(file, bytes);
        if written.is_err() {
            let _ = fs::remove_file(self.0, path);
        }
        written
    }

    fn link(&self, path: &str, new_path: &str) -> io::Result<()> {
        fs::hard_link(self.0, path, new_path)
    }

    fn copy_permissions(&self, from: &str, to: &str) -> io::Result<()> {
        let permissions = fs::metadata(self.0, from)?.permissions();
        fs::set_permissions(self.0, to, permissions)
    }

    fn rename(&self, from: &str, to: &str) -> io::Result<()> {
        fs::rename(self.0, from, to)
    }

    fn write_device(&self, path: &str, bytes: &[u8]) -> io::Result<()> {
        let mut device = OpenOptions::new().write(true).open(self.0, path)?;
        device.write_all(bytes)
    }

    fn remove_file(&self, path: &str) -> io::Result<()> {
        fs::remove_file(self.0, path)
    }

    fn remove_folder(&self, path: &str) -> io::Result<()> {
        fs::remove_dir(self.0, path)
    }
}

/// Writes all bytes, and sees to it that the disk has them: some file systems tell only then that they are full.
fn write_whole<F: Write + fs::OpenFile + Drop>(mut file: F, bytes: &[u8]) -> io::Result<()> {
    file.write_all(bytes)?;
    file.sync_data()
}

/// Whether an error says that nothing stands at a path that may be looked at.
fn is_missing(kind: ErrorKind) -> bool {
    matches!(
        kind,
        ErrorKind::NotFound
            | ErrorKind::NotADirectory
            | ErrorKind::PermissionDenied
            | ErrorKind::FilesystemLoop
            | ErrorKind::InvalidFilename
            | ErrorKind::InvalidInput
    )
}

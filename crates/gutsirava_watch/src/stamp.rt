//! What tells one state of a path from another one.

ghost use Rattle.std.specs.Prelude.{List, ℕ};
ghost use Rattle.gutsirava_watch.specs.declared.stamp.PathStamp.{PathStamp};

use gutsirava_files::MachineFiles;
use gutsirava_resolve::{FileSystem, PathKind};
use std::alloc::Global;
use std::fs::Metadata;
use std::os::unix::fs::MetadataExt;
use std::rt::Files as System;
use std::time::{Duration, SystemTime};
use std::{fs, io};

/// What tells one state of a path from another one.
#[derive(Clone, Copy, Debug, PartialEq, Eq)]
pub enum PathStamp {
    /// Nothing stands there that may be looked at.
    Missing,
    /// A folder, whatever is in it, or what is neither a file nor a folder.
    Folder,
    /// A file, by the time since 1970 at which it was changed, how many bytes it has, and which one it is: of two files
    /// to which a link leads in turn, time and size may be the same.
    File {
        seconds: u64,
        nanoseconds: u32,
        bytes: u64,
        device: u64,
        inode: u64,
    },
}

/// The states of paths.
pub trait PathStamps {
    /// That a path may be in a state.
    ghost may_be: { Self → List ℕ → PathStamp → Type 0 };

    /// The state of a path.
    fn stamp(&self, path: &str) -> PathStamp
        ensures { may_be self.now path.now result };
}

/// The files of the machine, with their states, of which no type can say what they are.
#[derive(Drop)]
pub struct MachineView<'r, R>(&'r R);

impl<'r, R> MachineView<'r, R> {
    /// The files that the runtime has.
    pub fn new(rt: &'r R) -> MachineView<'r, R> {
        MachineView(rt)
    }
}

impl<R: System> PathStamps for MachineView<'_, R> {
    ghost may_be = { λ _ _ _. Unit {0} };

    fn stamp(&self, path: &str) -> PathStamp {
        match fs::metadata(self.0, path) {
            Ok(metadata) => stamp_of(&metadata),
            Err(_) => PathStamp::Missing,
        }
    }
}

impl<R: System + AllocGlobal> FileSystem for MachineView<'_, R> {
    ghost has_file = { λ _. Unit {0} };

    ghost is_real = { λ _ _. Unit {0} };

    fn kind(&self, path: &str) -> io::Result<PathKind> {
        MachineFiles::new(self.0).kind(path)
    }

    fn read(&self, alloc: Global, path: &str) -> io::Result<String> {
        MachineFiles::new(self.0).read(alloc, path)
    }

    fn real_path(&self, alloc: Global, path: &str) -> io::Result<String> {
        FileSystem::real_path(&MachineFiles::new(self.0), alloc, path)
    }
}

fn stamp_of(metadata: &Metadata) -> PathStamp {
    if !metadata.is_file() {
        return PathStamp::Folder;
    }
    let since = age_of(metadata.modified()).unwrap_or(Duration::ZERO);
    PathStamp::File {
        seconds: since.as_secs(),
        nanoseconds: since.subsec_nanos(),
        bytes: metadata.len(),
        device: metadata.dev(),
        inode: metadata.ino(),
    }
}

// The time since 1970, where it is told and not before.
fn age_of(time: io::Result<SystemTime>) -> Option<Duration> {
    time.ok()?.duration_since(SystemTime::UNIX_EPOCH).ok()
}

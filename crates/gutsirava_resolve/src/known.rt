//! What is known of the file system, of which nothing is asked twice.
ghost use Rattle.std.specs.Prelude.{IfOk, IfSome, string_bytes};
ghost use Rattle.gutsirava_resolve.specs.Told.{IsTold};

use crate::error::{PathFault, ResolutionError};
use crate::files::{FileSystem, PathKind};
use std::alloc::Global;
use std::collections::BTreeMap;
use std::io;
use std::marker::Model;

/// What stands at a path.
#[derive(Drop)]
pub(crate) enum KnownPath {
    /// A file, by its path without links.
    File(String),
    Folder,
    Missing,
}

/// The file system, and what it has told.
#[derive(Drop)]
pub(crate) struct Known<F: FileSystem> {
    files: F,
    standings: BTreeMap<String, KnownPath>,
}

/// Each file that is known was told.
impl<F: FileSystem> Model for Known<F> {
    ghost use Rattle.gutsirava_resolve.specs.Told.{AreTold};

    ghost Value = { Unit {0} };

    ghost view = { λ _. tt };

    ghost invariant = { λ a. AreTold F.has_file a.standings };
}

impl<F: FileSystem + Drop> Known<F> {
    pub(crate) fn new(alloc: Global, files: F) -> Known<F> {
        Known {
            files,
            standings: BTreeMap::new(alloc),
        }
    }

    /// The path without links of the file at a path.
    pub(crate) fn file(
        &mut self,
        alloc: Global,
        path: &str,
    ) -> Result<Option<String>, ResolutionError>
        ensures { IfOk result (λ found. IfSome found (λ real. F.has_file (string_bytes real))) }
    {
        self.look(alloc, path)?;
        match self.standings.get(path) {
            Some(KnownPath::File(real)) => Ok(Some(real.clone()?)),
            _ => Ok(None),
        }
    }

    /// Whether a folder is at a path.
    pub(crate) fn is_folder(&mut self, alloc: Global, path: &str) -> Result<bool, ResolutionError> {
        self.look(alloc, path)?;
        Ok(matches!(self.standings.get(path), Some(KnownPath::Folder)))
    }

    /// The text of a file.
    pub(crate) fn read(&self, alloc: Global, path: &str) -> io::Result<String> {
        self.files.read(alloc, path)
    }

    /// Sees to it that the path is known.
    fn look(&mut self, alloc: Global, path: &str) -> Result<(), ResolutionError> {
        if self.standings.contains_key(path) {
            return Ok(());
        }
        let standing = ask(alloc, &self.files, path)?;
        self.standings
            .insert(String::from_str(alloc, path)?, standing)?;
        Ok(())
    }
}

/// What the file system tells of a path.
fn ask<F: FileSystem>(alloc: Global, files: &F, path: &str) -> Result<KnownPath, ResolutionError>
    ensures { IfOk result (IsTold F.has_file) }
{
    let kind = match files.kind(path) {
        Ok(kind) => kind,
        Err(cause) => return Err(files_error(alloc, path, cause)),
    };
    match kind {
        PathKind::Folder => Ok(KnownPath::Folder),
        PathKind::Missing => Ok(KnownPath::Missing),
        PathKind::File => match files.real_path(alloc, path) {
            Ok(real) => Ok(KnownPath::File(real)),
            Err(cause) => Err(files_error(alloc, path, cause)),
        },
    }
}

/// The file system fails at a path.
pub(crate) fn files_error(alloc: Global, path: &str, cause: io::Error) -> ResolutionError {
    match String::from_str(alloc, path) {
        Ok(path) => ResolutionError::File {
            path,
            fault: PathFault::System(cause),
        },
        Err(error) => ResolutionError::Memory(error),
    }
}

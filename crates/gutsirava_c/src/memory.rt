//! Files that are held in memory.

use gutsirava_resolve::{FileSystem, PathKind};
use std::alloc::{AllocError, Global};
use std::collections::BTreeMap;
use std::io;

/// Texts of files by their paths, which begin with `/` and are normal. Folders are those in which files lie.
#[derive(Clone, Copy)]
pub(crate) struct MemoryFiles<'t> {
    pub(crate) alloc: Global,
    pub(crate) texts: &'t BTreeMap<String, String>,
}

impl MemoryFiles<'_> {
    // Whether files lie in a folder.
    fn has_folder(&self, path: &str) -> Result<bool, AllocError> {
        let mut folder = String::from_str(self.alloc, path)?;
        if !path.ends_with('/') {
            folder.push('/')?;
        }
        let first = self.texts.range(folder.clone()?..).next();
        Ok(first.is_some_and(|(path, _)| path.starts_with(folder.as_str())))
    }
}

impl FileSystem for MemoryFiles<'_> {
    ghost has_file = { λ _. Unit {0} };

    ghost is_real = { λ _ _. Unit {0} };

    fn kind(&self, path: &str) -> io::Result<PathKind> {
        if self.texts.contains_key(path) {
            return Ok(PathKind::File);
        }
        Ok(if self.has_folder(path)? {
            PathKind::Folder
        } else {
            PathKind::Missing
        })
    }

    fn read(&self, alloc: Global, path: &str) -> io::Result<String> {
        match self.texts.get(path) {
            Some(text) => Ok(String::from_str(alloc, text.as_str())?),
            None => Err(io::Error::from(io::ErrorKind::NotFound)),
        }
    }

    fn real_path(&self, alloc: Global, path: &str) -> io::Result<String> {
        Ok(String::from_str(alloc, path)?)
    }
}

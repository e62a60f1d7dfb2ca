//! Files of which it is noted what was looked at.

use crate::stamp::{PathStamp, PathStamps};
use gutsirava_resolve::{FileSystem, PathKind};
use std::alloc::{AllocError, Global};
use std::cell::RefCell;
use std::collections::BTreeMap;
use std::io;
use std::io::ErrorKind;

/// Files of which it is noted at which paths was looked, and in which state these were before that for the first time.
#[derive(Drop)]
pub struct NotedFiles<F> {
    alloc: Global,
    files: F,
    noted: RefCell<BTreeMap<String, PathStamp>>,
}

impl<F: FileSystem + PathStamps + Drop> NotedFiles<F> {
    /// Files of which nothing was looked at.
    pub fn new(alloc: Global, files: F) -> NotedFiles<F> {
        NotedFiles {
            alloc,
            files,
            noted: RefCell::new(BTreeMap::new(alloc)),
        }
    }

    /// The paths at which was looked, with their states.
    pub fn into_noted(self) -> BTreeMap<String, PathStamp> {
        let NotedFiles {
            alloc: _alloc,
            files: _files,
            noted,
        } = self;
        noted.into_inner()
    }

    // Notes a path, where it is new.
    fn note(&self, path: &str) -> io::Result<()> {
        match self.put(path) {
            Ok(()) => Ok(()),
            Err(_) => Err(io::Error::from(ErrorKind::OutOfMemory)),
        }
    }

    fn put(&self, path: &str) -> Result<(), AllocError> {
        let Ok(mut noted) = self.noted.try_borrow_mut() else {
            return Ok(());
        };
        if !noted.contains_key(path) {
            let stamp = self.files.stamp(path);
            noted.insert(String::from_str(self.alloc, path)?, stamp)?;
        }
        Ok(())
    }
}

impl<F: FileSystem + PathStamps + Drop> FileSystem for NotedFiles<F> {
    ghost has_file = { F.has_file };

    ghost is_real = { F.is_real };

    fn kind(&self, path: &str) -> io::Result<PathKind> {
        self.note(path)?;
        self.files.kind(path)
    }

    fn read(&self, alloc: Global, path: &str) -> io::Result<String> {
        self.note(path)?;
        self.files.read(alloc, path)
    }

    fn real_path(&self, alloc: Global, path: &str) -> io::Result<String> {
        self.note(path)?;
        self.files.real_path(alloc, path)
    }
}

//! The modules that entries need, as far as they are found.

ghost use Rattle.std.specs.Prelude.{◌≡◌, ◌≤◌};

use crate::settings::BundleSettings;
use crate::teller::Teller;
use crate::unit_table::UnitTable;
use gutsirava_resolve::{FileSystem, ResolutionError, Resolver};
use gutsirava_sources::SourceKind;
use std::alloc::{AllocError, Global};

/// So many nodes may lie in each other: trees are gone over by recursion, which a stack of 8 MB has room for.
pub(crate) const MOST_DEPTH: usize = 800;

/// The modules that entries need, and where more of them are looked for. What needs no files takes the parts.
pub(crate) struct Graph<'s, F: FileSystem> {
    pub(crate) files: F,
    pub(crate) resolver: Resolver<F>,
    pub(crate) settings: &'s BundleSettings,
    pub(crate) teller: Teller<'s>,
    pub(crate) table: UnitTable,
}

/// Lets go of it. Written by hand, so that who lets one go calls this function.
impl<'s, F: FileSystem + Drop> Drop for Graph<'s, F> {
    fn drop(self) {
        let Graph {
            files: _files,
            resolver: _resolver,
            settings: _settings,
            teller: _teller,
            table: _table,
        } = self;
    }
}

/// What comes of a path.
#[derive(Drop)]
pub(crate) enum FoundUnit {
    Unit(usize),
    /// It cannot be read: why.
    Unread(String),
}

/// A module that is being read.
#[derive(Clone, Copy)]
pub(crate) struct Asker<'x> {
    /// Its number.
    pub(crate) unit: usize,
    pub(crate) path: &'x str,
    pub(crate) text: &'x str,
    pub(crate) kind: SourceKind,
    pub(crate) is_node: bool,
    pub(crate) is_main: bool,
}

impl<'s, F: FileSystem + Drop> Graph<'s, F> {
    pub(crate) fn new(
        alloc: Global,
        files: F,
        resolver: Resolver<F>,
        settings: &'s BundleSettings,
    ) -> Graph<'s, F>
        ensures { result.teller.messages.errors ≡ 0 }
    {
        Graph {
            files,
            resolver,
            settings,
            teller: Teller::new(alloc, settings.folder.as_str()),
            table: UnitTable::new(alloc),
        }
    }

    /// What is told and what was found, alone.
    pub(crate) fn into_parts(self) -> (Teller<'s>, UnitTable)
        ensures { result.0 ≡ self.entry.teller }
    {
        let Graph {
            files: _files,
            resolver: _resolver,
            settings: _settings,
            teller,
            table,
        } = self;
        (teller, table)
    }

    /// The module of the file at a path, with what stands behind it in a specifier; its text is read where it is new.
    pub(crate) fn discover(&mut self, path: &str, suffix: &str) -> Result<FoundUnit, AllocError>
        ensures { self.old.teller.messages.errors ≤ self.new.teller.messages.errors }
    {
        let key = format!(in self.table.alloc; "{path}{suffix}")?;
        match self.table.known(key.as_str()) {
            Some(unit) => Ok(FoundUnit::Unit(unit)),
            None => self.read_new(path, key.as_str()),
        }
    }

    // The module of a file that was not met, by its key.
    fn read_new(&mut self, path: &str, key: &str) -> Result<FoundUnit, AllocError>
        ensures { self.old.teller.messages.errors ≤ self.new.teller.messages.errors }
    {
        if !is_inside(self.settings, path) {
            return Ok(FoundUnit::Unread(self.teller.outside_text(path)?));
        }
        let alloc = self.table.alloc;
        match self.files.read(alloc, path) {
            Ok(text) => self.add_file(path, key, text),
            Err(cause) => Ok(FoundUnit::Unread(self.teller.unread_text(path, &cause)?)),
        }
    }

    /// The module of a file with this text.
    pub(crate) fn add_file(
        &mut self,
        path: &str,
        key: &str,
        text: String,
    ) -> Result<FoundUnit, AllocError>
        ensures { self.old.teller.messages.errors ≤ self.new.teller.messages.errors }
    {
        match self.resolver.format(path) {
            Ok(format) => {
                let unit = self.teller.unit_of_text(path, text, format)?;
                Ok(FoundUnit::Unit(self.table.keep(key, unit)?))
            }
            Err(error) => Ok(FoundUnit::Unread(refusal_text(self.table.alloc, &error)?)),
        }
    }
}

// Whether a file may be taken in.
fn is_inside(settings: &BundleSettings, path: &str) -> bool {
    match &settings.root {
        Some(root) => path
            .strip_prefix(root.as_str())
            .is_some_and(|rest| rest.starts_with('/') || root.as_str() == "/"),
        None => true,
    }
}

// Why resolution refuses, unless that is memory.
fn refusal_text(alloc: Global, error: &ResolutionError) -> Result<String, AllocError> {
    match error {
        ResolutionError::Memory(_) => Err(AllocError),
        error => format!(in alloc; "{error}"),
    }
}

//! The modules of a bundle: files, and what stands between them.

use crate::facade::Facade;
use gutsirava_sources::{RequestForm, SourceKind, SourceRecords};
use gutsirava_traces::SourceTrace;
use std::alloc::{AllocError, Global};
use std::collections::BTreeSet;

/// The file of a module.
pub(crate) struct UnitFile {
    pub(crate) path: String,
    /// The text that was read: of JSON, that of the module that stands for it.
    pub(crate) text: String,
    pub(crate) is_data: bool,
    /// What was read of the text where it told what the module is, until the module is read.
    pub(crate) records: Option<SourceRecords>,
}

/// Lets go of it. Written by hand, as for the other parts of a module, so that who lets one go calls this function.
impl Drop for UnitFile {
    fn drop(self) {
        let UnitFile {
            path: _path,
            text: _text,
            is_data: _is_data,
            records: _records,
        } = self;
    }
}

/// Where a module comes from.
pub(crate) enum UnitOrigin {
    File(UnitFile),
    /// It stands between a module and those that ask for it.
    Facade { facade: Facade, target: usize },
    /// It stands for a specifier that is left, in a script: its text.
    Text(String),
}

/// Lets go of it.
impl Drop for UnitOrigin {
    fn drop(self) {
        match self {
            UnitOrigin::File(_file) => {}
            UnitOrigin::Facade {
                facade: _facade,
                target: _target,
            } => {}
            UnitOrigin::Text(_text) => {}
        }
    }
}

impl UnitOrigin {
    /// The file, where it is one.
    pub(crate) fn into_file(self) -> Option<UnitFile> {
        match self {
            UnitOrigin::File(file) => Some(file),
            UnitOrigin::Facade {
                facade: _facade,
                target: _target,
            } => None,
            UnitOrigin::Text(_text) => None,
        }
    }
}

/// A module that another one asks for.
#[derive(Clone, Copy)]
pub(crate) struct UnitLink {
    pub(crate) asking: RequestForm,
    /// Where its specifier stands in the text of the file.
    pub(crate) at: usize,
    pub(crate) length: usize,
    pub(crate) target: Option<usize>,
}

/// The names that a module exports.
pub(crate) struct ExportTable {
    /// By itself: of a CommonJS module, those that its text shows.
    pub(crate) names: BTreeSet<String>,
    /// The modules all of whose names it exports, but `default`.
    pub(crate) stars: Vec<usize>,
    /// The texts of those that are left, of which nothing is known.
    pub(crate) outer: Vec<String>,
}

/// Lets go of it.
impl Drop for ExportTable {
    fn drop(self) {
        let ExportTable {
            names: _names,
            stars: _stars,
            outer: _outer,
        } = self;
    }
}

impl ExportTable {
    pub(crate) fn new(alloc: Global) -> ExportTable {
        ExportTable {
            names: BTreeSet::new(alloc),
            stars: Vec::new(alloc),
            outer: Vec::new(alloc),
        }
    }

    pub(crate) fn add_name(&mut self, alloc: Global, name: &str) -> Result<(), AllocError> {
        self.names.insert(String::from_str(alloc, name)?)?;
        Ok(())
    }
}

/// A module.
pub struct BundleUnit {
    pub(crate) origin: UnitOrigin,
    pub(crate) kind: SourceKind,
    /// How many bytes its file has.
    pub(crate) bytes: usize,
    /// Whether it is declared an ECMAScript module, for which a CommonJS module's default is all of its exports.
    pub(crate) is_node: bool,
    /// Whether it is the one module with which bundles begin.
    pub(crate) is_main: bool,
    /// Whether it is not to be read: it was, or it cannot be.
    pub(crate) is_done: bool,
    /// What is kept of its list, for a source map.
    pub trace: Option<SourceTrace>,
    pub(crate) links: Vec<UnitLink>,
    pub(crate) table: ExportTable,
}

/// Lets go of it.
impl Drop for BundleUnit {
    fn drop(self) {
        let BundleUnit {
            origin: _origin,
            kind: _kind,
            bytes: _bytes,
            is_node: _is_node,
            is_main: _is_main,
            is_done: _is_done,
            trace: _trace,
            links: _links,
            table: _table,
        } = self;
    }
}

impl BundleUnit {
    /// A module of which nothing is read yet.
    pub(crate) fn new(alloc: Global, origin: UnitOrigin, kind: SourceKind) -> BundleUnit {
        BundleUnit {
            origin,
            kind,
            bytes: 0,
            is_node: false,
            is_main: false,
            is_done: false,
            trace: None,
            links: Vec::new(alloc),
            table: ExportTable::new(alloc),
        }
    }

    /// The path of its file; none of a module that is no file's.
    pub fn path(&self) -> Option<&str> {
        match &self.origin {
            UnitOrigin::File(file) => Some(file.path.as_str()),
            UnitOrigin::Facade { .. } | UnitOrigin::Text(_) => None,
        }
    }

    /// The text of its file; empty of a module that is no file's.
    pub fn text(&self) -> &str {
        match &self.origin {
            UnitOrigin::File(file) => file.text.as_str(),
            UnitOrigin::Facade { .. } | UnitOrigin::Text(_) => "",
        }
    }
}

/// The path of the file of a module, if it has one.
pub(crate) fn path_in(units: &[BundleUnit], unit: usize) -> Option<&str> {
    units.get(unit)?.path()
}

/// The module to which a link of a module leads.
pub(crate) fn target_of(links: &[UnitLink], number: usize) -> Option<usize> {
    links.get(number)?.target
}

//! package.json as far as resolution reads it.

use crate::browser::BrowserMap;
use crate::entries::EntryTable;
use std::alloc::AllocError;
use std::fmt;

/// What kind of module a package's `.js` files are, by its `type`.
#[derive(Clone, Copy)]
pub enum PackageType {
    EcmaScript,
    CommonJs,
    /// No `type`, or another text.
    Undeclared,
}

/// The field `browser`: what takes another's place for browsers.
#[derive(Drop)]
pub enum Browser {
    Absent,
    /// A text: the main file.
    Main(String),
    /// A map from a file of the package, or a package, to what takes its place.
    Map(BrowserMap),
}

/// What a package.json says.
pub struct Package {
    pub name: Option<String>,
    pub module_type: PackageType,
    pub main: Option<String>,
    pub module: Option<String>,
    pub browser: Browser,
    /// `None` where there is none, or it is `null`.
    pub exports: Option<EntryTable>,
    pub imports: Option<EntryTable>,
}

impl Drop for Package {
    fn drop(self) {
        let Package {
            name: _name,
            module_type: _module_type,
            main: _main,
            module: _module,
            browser: _browser,
            exports: _exports,
            imports: _imports,
        } = self;
    }
}

/// Why a package.json is none.
#[derive(Clone, Copy)]
pub enum PackageError {
    /// It is no JSON, or nests deeper than 128 levels.
    Json,
    Memory(AllocError),
}

/// Writes what the file is.
impl fmt::Display for PackageError {
    fn fmt<W: fmt::Write>(&self, f: &mut fmt::Formatter<W>) -> fmt::Result {
        let cause = match self {
            PackageError::Json => "it is no JSON, or nests deeper than 128 levels",
            PackageError::Memory(_) => "memory allocation failed",
        };
        write!(f, "{cause}")
    }
}

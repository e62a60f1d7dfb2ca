//! The file system with its packages.
ghost use Rattle.std.specs.Prelude.{IfOk, IfSome, string_bytes};

use crate::error::{PathFault, ResolutionError};
use crate::files::FileSystem;
use crate::known::{Known, files_error};
use crate::settings::Settings;
use gutsirava_package::{LoaderConditions, Package, PackageError};
use gutsirava_path::{Loader, file_name, join, parent};
use std::alloc::{AllocError, Global};
use std::collections::BTreeMap;

/// So many paths are told where none of them is a file.
const MOST_TRIED: usize = 32;

/// The file system with its packages.
#[derive(Drop)]
pub(crate) struct Tree<F: FileSystem> {
    pub(crate) alloc: Global,
    known: Known<F>,
    /// Folders, and the place in `packages` of what their package.json says; `None` where they have none.
    places: BTreeMap<String, Option<usize>>,
    packages: Vec<Package>,
    /// What was no file since the last request began.
    tried: Vec<String>,
}

impl<F: FileSystem + Drop> Tree<F> {
    pub(crate) fn new(alloc: Global, files: F) -> Tree<F> {
        Tree {
            alloc,
            known: Known::new(alloc, files),
            places: BTreeMap::new(alloc),
            packages: Vec::new(alloc),
            tried: Vec::new(alloc),
        }
    }

    /// Forgets what was tried.
    pub(crate) fn begin(&mut self) {
        self.tried.clear();
    }

    /// No file is found: what was tried is told.
    pub(crate) fn not_found(&mut self, specifier: &str) -> ResolutionError {
        let tried = std::mem::replace(&mut self.tried, Vec::new(self.alloc));
        match String::from_str(self.alloc, specifier) {
            Ok(specifier) => ResolutionError::NotFound { specifier, tried },
            Err(error) => ResolutionError::Memory(error),
        }
    }

    pub(crate) fn is_folder(&mut self, path: &str) -> Result<bool, ResolutionError> {
        self.known.is_folder(self.alloc, path)
    }

    /// The file at the path, by its path without links; where none is, the path was tried.
    pub(crate) fn file(&mut self, path: &str) -> Result<Option<String>, ResolutionError>
        ensures { IfOk result (λ found. IfSome found (λ real. F.has_file (string_bytes real))) }
    {
        match self.known.file(self.alloc, path)? {
            Some(real) => Ok(Some(real)),
            None => {
                self.add_tried(path)?;
                Ok(None)
            }
        }
    }

    /// Notes that no file is at a path.
    fn add_tried(&mut self, path: &str) -> Result<(), AllocError> {
        if self.tried.len() < MOST_TRIED {
            let path = String::from_str(self.alloc, path)?;
            self.tried.push(path)?;
        }
        Ok(())
    }

    /// What the package.json of a folder says, if it has one.
    pub(crate) fn package(
        &mut self,
        folder: &str,
        settings: &Settings,
    ) -> Result<Option<&Package>, ResolutionError> {
        let place = match self.places.get(folder).copied() {
            Some(place) => place,
            None => self.read_package(folder, settings)?,
        };
        match place {
            Some(at) => Ok(self.packages.get(at)),
            None => Ok(None),
        }
    }

    /// Reads the package.json of a folder, and keeps what it says.
    fn read_package(
        &mut self,
        folder: &str,
        settings: &Settings,
    ) -> Result<Option<usize>, ResolutionError> {
        let path = join(self.alloc, folder, "package.json")?;
        let place = self.read_file(path.as_str(), settings)?;
        self.add_place(folder, place)?;
        Ok(place)
    }

    /// Reads the package.json at a path, if one is there, and keeps what it says.
    fn read_file(
        &mut self,
        path: &str,
        settings: &Settings,
    ) -> Result<Option<usize>, ResolutionError> {
        if self.known.file(self.alloc, path)?.is_none() {
            return Ok(None);
        }
        let package = self.parse_package(path, settings)?;
        let at = self.packages.len();
        match self.packages.push(package) {
            Ok(()) => Ok(Some(at)),
            Err(refused) => Err(ResolutionError::from(refused)),
        }
    }

    /// Keeps where what the package.json of a folder says stands.
    fn add_place(&mut self, folder: &str, place: Option<usize>) -> Result<(), AllocError> {
        let folder = String::from_str(self.alloc, folder)?;
        self.places.insert(folder, place)?;
        Ok(())
    }

    fn parse_package(
        &mut self,
        path: &str,
        settings: &Settings,
    ) -> Result<Package, ResolutionError> {
        let text = match self.known.read(self.alloc, path) {
            Ok(text) => text,
            Err(cause) => return Err(files_error(self.alloc, path, cause)),
        };
        let conditions = LoaderConditions {
            import: settings.conditions(Loader::EcmaScript),
            require: settings.conditions(Loader::CommonJs),
        };
        match Package::parse(self.alloc, text.as_str(), conditions) {
            Ok(package) => Ok(package),
            Err(cause) => Err(package_error(self.alloc, path, cause)),
        }
    }

    /// The folder of the package that a folder belongs to: the next one upwards with a package.json, below any
    /// `node_modules`.
    pub(crate) fn scope<'p>(
        &mut self,
        folder: &'p str,
        settings: &Settings,
    ) -> Result<Option<&'p str>, ResolutionError> {
        let mut here = folder;
        while file_name(here) != "node_modules" {
            if self.package(here, settings)?.is_some() {
                return Ok(Some(here));
            }
            let Some(above) = parent(here) else {
                break;
            };
            here = above;
        }
        Ok(None)
    }
}

/// What is wrong with the package.json at a path.
fn package_error(alloc: Global, path: &str, cause: PackageError) -> ResolutionError {
    if let PackageError::Memory(refused) = cause {
        return ResolutionError::Memory(refused);
    }
    match String::from_str(alloc, path) {
        Ok(path) => ResolutionError::File {
            path,
            fault: PathFault::Package(cause),
        },
        Err(refused) => ResolutionError::Memory(refused),
    }
}

/// The text of a path with more behind it.
pub(crate) fn with_ending(alloc: Global, path: &str, ending: &str) -> Result<String, AllocError> {
    format!(in alloc; "{path}{ending}")
}

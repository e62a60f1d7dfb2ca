//! What kind of module a file is.

ghost use Rattle.std.specs.Prelude.{◌≢◌, IfOk};
ghost use Rattle.gutsirava_resolve.specs.Formats.{IsFormatOf};

use crate::error::ResolutionError;
use crate::files::FileSystem;
use crate::settings::Settings;
use crate::tree::Tree;
use gutsirava_package::PackageType;
use gutsirava_path::{extension, folder_of};

/// What kind of module a file is, by its name and the package that it lies in.
#[derive(Clone, Copy, PartialEq, Eq)]
pub enum FileFormat {
    EcmaScript,
    CommonJs,
    Json,
    /// A native library (`.node`), which no bundle takes in.
    Addon,
    /// Neither its name nor its package tells: its text does.
    Undeclared,
}

impl<F: FileSystem + Drop> Tree<F> {
    /// What kind of module the file at a path is.
    pub(crate) fn format(
        &mut self,
        path: &str,
        settings: &Settings,
    ) -> Result<FileFormat, ResolutionError>
        ensures { IfOk result (IsFormatOf path.now) }
    {
        match extension(path) {
            ".mjs" => Ok(FileFormat::EcmaScript),
            ".cjs" => Ok(FileFormat::CommonJs),
            ".json" => Ok(FileFormat::Json),
            ".node" => Ok(FileFormat::Addon),
            _ => self.package_format(path, settings),
        }
    }

    // The same by the package that the file lies in.
    fn package_format(
        &mut self,
        path: &str,
        settings: &Settings,
    ) -> Result<FileFormat, ResolutionError>
        ensures { IfOk result (λ it. (it ≢ FileFormat.Json) × (it ≢ FileFormat.Addon)) }
    {
        let Some(folder) = self.scope(folder_of(path), settings)? else {
            return Ok(FileFormat::Undeclared);
        };
        let module_type = self
            .package(folder, settings)?
            .map(|package| package.module_type);
        Ok(match module_type {
            Some(PackageType::EcmaScript) => FileFormat::EcmaScript,
            Some(PackageType::CommonJs) => FileFormat::CommonJs,
            Some(PackageType::Undeclared) | None => FileFormat::Undeclared,
        })
    }
}

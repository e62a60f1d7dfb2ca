//! Packages: the one that asks, those in `node_modules` upwards, and what their `exports` and `imports` name.
ghost use Rattle.std.specs.Prelude.{◌≡◌, IfOk, IfSome, MatchOption, string_bytes};
ghost use Rattle.gutsirava_resolve.specs.Found.{IsInternalFile};

use crate::error::{PathFault, ResolutionError, SpecifierFault};
use crate::files::FileSystem;
use crate::search::NamedPlace;
use crate::settings::Settings;
use crate::tree::Tree;
use gutsirava_package::{Located, TargetError};
use gutsirava_path::{Loader, file_name, join, parent, split_package};
use std::alloc::{AllocError, Global};

/// What is asked for, and how.
#[derive(Drop)]
pub(crate) struct Wanted<'a, 's> {
    /// The specifier of a package, or of a path in one.
    pub(crate) specifier: &'a str,
    /// The folder of the file that asks.
    pub(crate) folder: &'a str,
    pub(crate) loader: Loader,
    pub(crate) settings: &'s Settings,
}

/// A file, and from `?` or `#` on what stands behind it.
#[derive(Drop)]
pub(crate) struct Found {
    pub(crate) path: String,
    pub(crate) suffix: String,
}

impl Wanted<'_, '_> {
    /// The place that a text names in a folder, as the loader reads it.
    fn place(
        &self,
        alloc: Global,
        folder: &str,
        text: &str,
    ) -> Result<NamedPlace, ResolutionError> {
        match self.loader {
            Loader::EcmaScript => address_place(alloc, folder, text, self.specifier),
            Loader::CommonJs => Ok(NamedPlace::of_path(alloc, folder, text)?),
        }
    }
}

/// The place that an address names in a folder.
pub(crate) fn address_place(
    alloc: Global,
    folder: &str,
    text: &str,
    specifier: &str,
) -> Result<NamedPlace, ResolutionError> {
    match NamedPlace::of_address(alloc, folder, text) {
        Ok(place) => Ok(place),
        Err(cause) => Err(ResolutionError::address(alloc, specifier, cause)),
    }
}

impl<F: FileSystem + Drop> Tree<F> {
    /// The file at a place: for a loader that completes, what the place is completed to.
    pub(crate) fn file_at(
        &mut self,
        place: NamedPlace,
        wanted: &Wanted<'_, '_>,
    ) -> Result<Option<Found>, ResolutionError>
        ensures { IfOk result (λ found. IfSome found
            (λ file. F.has_file (string_bytes file.path))) }
    {
        let file = self.path_at(&place, wanted)?;
        Ok(with_suffix(file, place.suffix))
    }

    /// The path of the file at a place.
    fn path_at(
        &mut self,
        place: &NamedPlace,
        wanted: &Wanted<'_, '_>,
    ) -> Result<Option<String>, ResolutionError>
        ensures { IfOk result (λ found. IfSome found (λ real. F.has_file (string_bytes real))) }
    {
        if wanted.settings.completes(wanted.loader) {
            self.complete(place, wanted.settings, wanted.loader)
        } else {
            self.exact_path(place, wanted)
        }
    }

    /// The path of the file at a place, which is not completed. `import` takes no folder.
    fn exact_path(
        &mut self,
        place: &NamedPlace,
        wanted: &Wanted<'_, '_>,
    ) -> Result<Option<String>, ResolutionError>
        ensures { IfOk result (λ found. IfSome found (λ real. F.has_file (string_bytes real))) }
    {
        if !place.is_folder {
            let file = self.file(place.path.as_str())?;
            if file.is_some() {
                return Ok(file);
            }
        }
        if wanted.loader == Loader::EcmaScript && self.is_folder_at(place)? {
            let path = place.path.as_str();
            return Err(ResolutionError::folder(self.alloc, wanted.specifier, path));
        }
        Ok(None)
    }

    /// Whether a place names a folder by its form, or one is there.
    fn is_folder_at(&mut self, place: &NamedPlace) -> Result<bool, ResolutionError> {
        if place.is_folder {
            return Ok(true);
        }
        self.is_folder(place.path.as_str())
    }

    /// The file of a package.
    pub(crate) fn package_file(
        &mut self,
        wanted: &Wanted<'_, '_>,
    ) -> Result<Option<Found>, ResolutionError>
        ensures { IfOk result (λ found. IfSome found
            (λ file. F.has_file (string_bytes file.path))) }
    {
        let split = split_package(wanted.specifier);
        match split {
            Some((name, rest)) => {
                if let Some(scope) = self.own_package(wanted, name)? {
                    return self.exported_file(wanted, scope, rest);
                }
            }
            None => {
                if wanted.loader == Loader::EcmaScript {
                    let fault = SpecifierFault::PackageName;
                    return Err(ResolutionError::of(self.alloc, fault, wanted.specifier));
                }
            }
        }
        self.found_upwards(wanted, split)
    }

    /// The file of a package in a folder `node_modules` from the folder that asks upwards.
    fn found_upwards(
        &mut self,
        wanted: &Wanted<'_, '_>,
        split: Option<(&str, &str)>,
    ) -> Result<Option<Found>, ResolutionError>
        ensures { IfOk result (λ found. IfSome found
            (λ file. F.has_file (string_bytes file.path))) }
    {
        let mut here = wanted.folder;
        loop {
            let found = self.found_below(wanted, here, split)?;
            if found.is_some() {
                return Ok(found);
            }
            let Some(above) = parent(here) else {
                return Ok(None);
            };
            here = above;
        }
    }

    /// The file of a package in the folder `node_modules` of a folder.
    fn found_below(
        &mut self,
        wanted: &Wanted<'_, '_>,
        folder: &str,
        split: Option<(&str, &str)>,
    ) -> Result<Option<Found>, ResolutionError>
        ensures { IfOk result (λ found. IfSome found
            (λ file. F.has_file (string_bytes file.path))) }
    {
        if file_name(folder) == "node_modules" {
            return Ok(None);
        }
        let modules = join(self.alloc, folder, "node_modules")?;
        self.installed_file(wanted, modules.as_str(), split)
    }

    /// The folder of the package that asks, where it has the name and exports.
    fn own_package<'p>(
        &mut self,
        wanted: &Wanted<'p, '_>,
        name: &str,
    ) -> Result<Option<&'p str>, ResolutionError> {
        let Some(scope) = self.scope(wanted.folder, wanted.settings)? else {
            return Ok(None);
        };
        let is_own = match self.package(scope, wanted.settings)? {
            None => false,
            Some(package) => {
                package.exports.is_some()
                    && package
                        .name
                        .as_ref()
                        .is_some_and(|own| own.as_str() == name)
            }
        };
        Ok(if is_own { Some(scope) } else { None })
    }

    /// The file of a package in one folder `node_modules`.
    fn installed_file(
        &mut self,
        wanted: &Wanted<'_, '_>,
        modules: &str,
        split: Option<(&str, &str)>,
    ) -> Result<Option<Found>, ResolutionError>
        ensures { IfOk result (λ found. IfSome found
            (λ file. F.has_file (string_bytes file.path))) }
    {
        if !self.is_folder(modules)? {
            return Ok(None);
        }
        match split {
            Some((name, rest)) => {
                let folder = join(self.alloc, modules, name)?;
                self.installed_package(wanted, modules, folder.as_str(), rest)
            }
            None => self.file_in(wanted, modules),
        }
    }

    /// The file of the package in a folder of a folder `node_modules`.
    fn installed_package(
        &mut self,
        wanted: &Wanted<'_, '_>,
        modules: &str,
        folder: &str,
        rest: &str,
    ) -> Result<Option<Found>, ResolutionError>
        ensures { IfOk result (λ found. IfSome found
            (λ file. F.has_file (string_bytes file.path))) }
    {
        let is_installed = self.is_folder(folder)?;
        if is_installed && self.has_exports(folder, wanted.settings)? {
            return self.exported_file(wanted, folder, rest);
        }
        if wanted.loader == Loader::CommonJs {
            return self.file_in(wanted, modules);
        }
        if !is_installed {
            return Ok(None);
        }
        match self.unexported_file(wanted, folder, rest)? {
            Some(found) => Ok(Some(found)),
            None => Err(self.not_found(wanted.specifier)),
        }
    }

    /// The path that a specifier names in the nearest installed package of its name, where that has no exports.
    pub(crate) fn inner_path(
        &mut self,
        specifier: &str,
        folder: &str,
        settings: &Settings,
    ) -> Result<Option<String>, ResolutionError> {
        let Some((name, rest)) = split_package(specifier) else {
            return Ok(None);
        };
        if rest.is_empty() {
            return Ok(None);
        }
        let Some(package) = self.installed_folder(name, folder)? else {
            return Ok(None);
        };
        if self.has_exports(package.as_str(), settings)? {
            return Ok(None);
        }
        let text = inner_text(self.alloc, rest)?;
        let path = join(self.alloc, package.as_str(), text.as_str())?;
        Ok(Some(path))
    }

    /// The folder of the nearest installed package of a name, from a folder upwards.
    fn installed_folder(
        &mut self,
        name: &str,
        folder: &str,
    ) -> Result<Option<String>, ResolutionError> {
        let mut here = folder;
        loop {
            let modules = join(self.alloc, here, "node_modules")?;
            let package = join(self.alloc, modules.as_str(), name)?;
            if file_name(here) != "node_modules" && self.is_folder(package.as_str())? {
                return Ok(Some(package));
            }
            let Some(above) = parent(here) else {
                return Ok(None);
            };
            here = above;
        }
    }

    /// Whether the package in a folder has exports.
    fn has_exports(&mut self, folder: &str, settings: &Settings) -> Result<bool, ResolutionError> {
        match self.package(folder, settings)? {
            Some(package) => Ok(package.exports.is_some()),
            None => Ok(false),
        }
    }

    /// The file that the specifier names in a folder.
    fn file_in(
        &mut self,
        wanted: &Wanted<'_, '_>,
        folder: &str,
    ) -> Result<Option<Found>, ResolutionError>
        ensures { IfOk result (λ found. IfSome found
            (λ file. F.has_file (string_bytes file.path))) }
    {
        let place = wanted.place(self.alloc, folder, wanted.specifier)?;
        self.file_at(place, wanted)
    }

    /// The file of a package without exports, for `import`: its main file, or the one at a path.
    fn unexported_file(
        &mut self,
        wanted: &Wanted<'_, '_>,
        folder: &str,
        rest: &str,
    ) -> Result<Option<Found>, ResolutionError>
        ensures { IfOk result (λ found. IfSome found
            (λ file. F.has_file (string_bytes file.path))) }
    {
        if rest.is_empty() {
            let file = self.main_file(folder, wanted.settings, wanted.loader)?;
            return Ok(with_suffix(file, String::new(self.alloc)));
        }
        let text = inner_text(self.alloc, rest)?;
        let place = address_place(self.alloc, folder, text.as_str(), wanted.specifier)?;
        self.file_at(place, wanted)
    }

    /// The file that `exports` of the package in a folder names; `rest` is empty, or begins with `/`.
    fn exported_file(
        &mut self,
        wanted: &Wanted<'_, '_>,
        folder: &str,
        rest: &str,
    ) -> Result<Option<Found>, ResolutionError>
        ensures { IfOk result (λ found. IfSome found
            (λ file. F.has_file (string_bytes file.path))) }
    {
        match self.exported_text(wanted, folder, rest)? {
            Some(text) => Ok(Some(self.target_file(wanted, folder, text.as_str())?)),
            None => Ok(None),
        }
    }

    /// The target that `exports` of the package in a folder names.
    fn exported_text(
        &mut self,
        wanted: &Wanted<'_, '_>,
        folder: &str,
        rest: &str,
    ) -> Result<Option<String>, ResolutionError> {
        let alloc = self.alloc;
        let Some(package) = self.package(folder, wanted.settings)? else {
            return Ok(None);
        };
        let subpath = inner_text(alloc, rest)?;
        match package.resolve_export(alloc, subpath.as_str(), wanted.loader) {
            Ok(Located::Inside(text) | Located::Bare(text)) => Ok(Some(text)),
            Err(cause) => Err(target_error(alloc, folder, cause)),
        }
    }

    /// The file that a target names in the folder of its package. It is never completed, and for `require` what stands
    /// behind its path counts for nothing.
    fn target_file(
        &mut self,
        wanted: &Wanted<'_, '_>,
        folder: &str,
        text: &str,
    ) -> Result<Found, ResolutionError>
        ensures { IfOk result (λ file. F.has_file (string_bytes file.path)) }
    {
        let place = address_place(self.alloc, folder, text, wanted.specifier)?;
        match self.exact_path(&place, wanted)? {
            Some(path) => Ok(Found {
                path,
                suffix: kept_suffix(self.alloc, wanted.loader, place.suffix),
            }),
            None => Err(self.not_found(wanted.specifier)),
        }
    }

    /// What `imports` of the package that asks has at a specifier that begins with `#`.
    pub(crate) fn internal_target(
        &mut self,
        wanted: &Wanted<'_, '_>,
    ) -> Result<Internal, ResolutionError>
        ensures { IfOk result (IsInternalFile F.has_file) }
    {
        let Some(scope) = self.scope(wanted.folder, wanted.settings)? else {
            return Ok(Internal::Undefined);
        };
        match self.internal_entry(wanted, scope)? {
            None => Ok(Internal::Undefined),
            Some(Located::Inside(text)) => {
                let found = self.target_file(wanted, scope, text.as_str())?;
                Ok(Internal::Inside(found))
            }
            Some(Located::Bare(text)) => self.internal_package(scope, text),
        }
    }

    /// What `imports` of the package in a folder has, if it has any.
    fn internal_entry(
        &mut self,
        wanted: &Wanted<'_, '_>,
        folder: &str,
    ) -> Result<Option<Located>, ResolutionError> {
        let alloc = self.alloc;
        let Some(package) = self.package(folder, wanted.settings)? else {
            return Ok(None);
        };
        if package.imports.is_none() {
            return Ok(None);
        }
        match package.resolve_import(alloc, wanted.specifier, wanted.loader) {
            Ok(located) => Ok(Some(located)),
            Err(cause) => Err(target_error(alloc, folder, cause)),
        }
    }

    /// The package that an entry of `imports` names, asked for from a folder.
    fn internal_package(&self, folder: &str, specifier: String) -> Result<Internal, ResolutionError>
        ensures { IfOk result (IsInternalFile F.has_file) }
    {
        if split_package(specifier.as_str()).is_none() {
            let fault = SpecifierFault::PackageName;
            return Err(ResolutionError::Specifier { specifier, fault });
        }
        let folder = String::from_str(self.alloc, folder)?;
        Ok(Internal::Package { folder, specifier })
    }
}

/// What is kept of what stands behind a path: for `require` nothing.
fn kept_suffix(alloc: Global, loader: Loader, suffix: String) -> String {
    match loader {
        Loader::EcmaScript => suffix,
        Loader::CommonJs => String::new(alloc),
    }
}

/// A file with what stands behind it.
fn with_suffix(file: Option<String>, suffix: String) -> Option<Found>
    ensures { MatchOption result (file ≡ None) (λ found. file ≡ Some found.path) }
{
    match file {
        Some(path) => Some(Found { path, suffix }),
        None => None,
    }
}

/// What an entry of `imports` names.
#[derive(Drop)]
pub(crate) enum Internal {
    /// The package that asks has no `imports`.
    Undefined,
    /// A file of the package itself.
    Inside(Found),
    /// A package, asked for from a folder.
    Package { folder: String, specifier: String },
}

/// A path in a package as `exports` has it: `.`, or with `./` in front.
fn inner_text(alloc: Global, rest: &str) -> Result<String, AllocError> {
    format!(in alloc; ".{rest}")
}

/// What is wrong with the package.json of a folder.
fn target_error(alloc: Global, folder: &str, cause: TargetError) -> ResolutionError {
    if let TargetError::Memory(refused) = &cause {
        return ResolutionError::Memory(*refused);
    }
    match join(alloc, folder, "package.json") {
        Ok(path) => ResolutionError::File {
            path,
            fault: PathFault::Target(cause),
        },
        Err(refused) => ResolutionError::Memory(refused),
    }
}

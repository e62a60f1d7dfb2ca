//! The resolver: which file a specifier names.
ghost use Rattle.std.specs.Prelude.{◌≡◌, IfOk, IfSome, string_bytes};
ghost use Rattle.gutsirava_resolve.specs.Formats.{IsFormatOf};
ghost use Rattle.gutsirava_resolve.specs.Found.{IsFileOf};
ghost use Rattle.gutsirava_resolve.specs.declared.resolver.Resolved.TheVariants.{File};

use crate::browser::Replacement;
use crate::error::{ResolutionError, SpecifierFault};
use crate::files::FileSystem;
use crate::format::FileFormat;
use crate::packages::{Found, Internal, Wanted, address_place};
use crate::search::NamedPlace;
use crate::settings::Settings;
use crate::tree::Tree;
use gutsirava_path::{Loader, Specifier, folder_of};
use std::alloc::{AllocError, Global};

/// A specifier may be this long, in bytes: more than any file's path.
const MOST_SPECIFIER: usize = 65_535;

/// What is asked for.
#[derive(Clone, Copy)]
pub struct ResolveRequest<'a> {
    pub specifier: &'a str,
    /// The file that asks: a normal path that begins with `/`.
    pub importer: &'a str,
    pub loader: Loader,
}

/// What a specifier names.
pub enum Resolved {
    /// A file, by its path without links, and what stands behind it in the specifier, from `?` or `#` on.
    File { path: String, suffix: String },
    /// One of Node's own modules, by its name without `node:`.
    Builtin(String),
    /// What is left as it is, by its specifier: it was asked for, or it is an address elsewhere.
    External(String),
    /// A file that is left as it is, by its path.
    ExternalFile(String),
    /// An empty module, which the map `browser` puts in the place of what was asked for.
    Empty(String),
}

impl Drop for Resolved {
    fn drop(self) {
        match self {
            Resolved::File {
                path: _path,
                suffix: _suffix,
            } => {}
            Resolved::Builtin(_name) => {}
            Resolved::External(_specifier) => {}
            Resolved::ExternalFile(_path) => {}
            Resolved::Empty(_path) => {}
        }
    }
}

/// Resolves specifiers over a file system, of which it asks nothing twice.
#[derive(Drop)]
pub struct Resolver<F: FileSystem> {
    alloc: Global,
    settings: Settings,
    tree: Tree<F>,
}

impl<F: FileSystem + Drop> Resolver<F> {
    /// A resolver that has asked for nothing yet.
    pub fn new(alloc: Global, files: F, settings: Settings) -> Resolver<F>
        ensures { result.settings ≡ settings }
    {
        Resolver {
            alloc,
            settings,
            tree: Tree::new(alloc, files),
        }
    }

    /// What kind of module the file at a path is.
    pub fn format(&mut self, path: &str) -> Result<FileFormat, ResolutionError>
        ensures { IfOk result (IsFormatOf path.now) }
    {
        self.tree.format(path, &self.settings)
    }

    /// What a specifier names for the file that asks.
    pub fn resolve(&mut self, request: ResolveRequest<'_>) -> Result<Resolved, ResolutionError>
        ensures { IfOk result (IsFileOf F.has_file) }
    {
        let alloc = self.alloc;
        let specifier = request.specifier;
        if specifier.len() > MOST_SPECIFIER {
            return Err(ResolutionError::TooLong);
        }
        if self.settings.externals.has_name(specifier) {
            return Ok(Resolved::External(String::from_str(alloc, specifier)?));
        }
        self.tree.begin();
        if specifier.contains('\0') {
            return Err(ResolutionError::of(alloc, SpecifierFault::Invalid, specifier));
        }
        match Specifier::of(specifier, request.loader) {
            Specifier::Empty => Err(ResolutionError::of(alloc, SpecifierFault::Invalid, specifier)),
            Specifier::Remote(_) => Err(ResolutionError::of(
                alloc,
                SpecifierFault::Host,
                specifier,
            )),
            Specifier::UnknownBuiltin(_) => {
                Err(ResolutionError::of(alloc, SpecifierFault::UnknownBuiltin, specifier))
            }
            Specifier::Url(_) => Ok(Resolved::External(String::from_str(alloc, specifier)?)),
            Specifier::Builtin(_) | Specifier::Bare(_) => self.resolve_name(request),
            Specifier::Internal(_) => self.resolve_internal(request),
            Specifier::Relative(text) | Specifier::Absolute(text) => {
                self.resolve_path(request, text, request.loader)
            }
            Specifier::File(text) => self.resolve_path(request, text, Loader::EcmaScript),
        }
    }

    /// What a path names; `reading` is the loader in whose way the text is read.
    fn resolve_path(
        &mut self,
        request: ResolveRequest<'_>,
        text: &str,
        reading: Loader,
    ) -> Result<Resolved, ResolutionError>
        ensures { IfOk result (IsFileOf F.has_file) }
    {
        let folder = folder_of(request.importer);
        let place = match reading {
            Loader::EcmaScript => address_place(self.alloc, folder, text, request.specifier)?,
            Loader::CommonJs => NamedPlace::of_path(self.alloc, folder, text)?,
        };
        if self.settings.externals.has_path(place.path.as_str()) {
            return Ok(Resolved::ExternalFile(place.path));
        }
        if let Some(resolved) = self.mapped(place.path.as_str(), request.loader)? {
            return Ok(resolved);
        }
        let wanted = Wanted {
            specifier: request.specifier,
            folder,
            loader: request.loader,
            settings: &self.settings,
        };
        match self.tree.file_at(place, &wanted)? {
            Some(found) => self.finish(found, request.loader),
            None => Err(self.tree.not_found(request.specifier)),
        }
    }

    /// What an entry of `imports` names.
    fn resolve_internal(&mut self, request: ResolveRequest<'_>) -> Result<Resolved, ResolutionError>
        ensures { IfOk result (IsFileOf F.has_file) }
    {
        let wanted = Wanted {
            specifier: request.specifier,
            folder: folder_of(request.importer),
            loader: request.loader,
            settings: &self.settings,
        };
        match self.tree.internal_target(&wanted)? {
            Internal::Inside(found) => self.finish(found, request.loader),
            Internal::Package { folder, specifier } => {
                self.resolve_package(specifier.as_str(), folder.as_str(), request.loader)
            }
            Internal::Undefined if request.loader == Loader::EcmaScript => {
                let fault = SpecifierFault::NoImports;
                Err(ResolutionError::of(self.alloc, fault, request.specifier))
            }
            Internal::Undefined => {
                let folder = folder_of(request.importer);
                self.resolve_package(request.specifier, folder, request.loader)
            }
        }
    }

    /// What the name of a package, or of one of Node's modules, stands for; the map `browser` comes first.
    fn resolve_name(&mut self, request: ResolveRequest<'_>) -> Result<Resolved, ResolutionError>
        ensures { IfOk result (IsFileOf F.has_file) }
    {
        let folder = folder_of(request.importer);
        if self.settings.uses_browser_map {
            let specifier = request.specifier;
            match self.tree.replaced_name(folder, specifier, &self.settings)? {
                None => {}
                Some(Replacement::Empty) => {
                    let name = String::from_str(self.alloc, specifier)?;
                    return Ok(Resolved::Empty(name));
                }
                Some(Replacement::Text { folder, text }) => {
                    return self.resolve_replacement(&folder, &text, request.loader);
                }
            }
        }
        self.resolve_package(request.specifier, folder, request.loader)
    }

    /// What a text of the map `browser` names in the folder of its package.
    fn resolve_replacement(
        &mut self,
        folder: &str,
        text: &str,
        loader: Loader,
    ) -> Result<Resolved, ResolutionError>
        ensures { IfOk result (IsFileOf F.has_file) }
    {
        if !text.starts_with('.') {
            return self.resolve_package(text, folder, loader);
        }
        let place = NamedPlace::of_path(self.alloc, folder, text)?;
        match self.tree.complete(&place, &self.settings, loader)? {
            Some(path) => Ok(Resolved::File {
                path,
                suffix: String::new(self.alloc),
            }),
            None => Err(self.tree.not_found(text)),
        }
    }

    /// One of Node's modules, or the file of a package.
    fn resolve_package(
        &mut self,
        specifier: &str,
        folder: &str,
        loader: Loader,
    ) -> Result<Resolved, ResolutionError>
        ensures { IfOk result (IsFileOf F.has_file) }
    {
        if let Specifier::Builtin(name) = Specifier::of(specifier, loader) {
            return self.resolve_builtin(name, specifier, folder, loader);
        }
        if let Some(resolved) = self.mapped_inner(specifier, folder, loader)? {
            return Ok(resolved);
        }
        match self.find_package(specifier, folder, loader)? {
            Some(found) => self.finish(found, loader),
            None => Err(self.tree.not_found(specifier)),
        }
    }

    /// One of Node's modules, or an installed package of its name where packages come first.
    fn resolve_builtin(
        &mut self,
        name: &str,
        specifier: &str,
        folder: &str,
        loader: Loader,
    ) -> Result<Resolved, ResolutionError>
        ensures { IfOk result (IsFileOf F.has_file) }
    {
        if self.settings.prefers_packages && !specifier.starts_with("node:") {
            if let Some(found) = self.find_package(specifier, folder, loader)? {
                return self.finish(found, loader);
            }
        }
        Ok(Resolved::Builtin(String::from_str(self.alloc, name)?))
    }

    /// The file of a package.
    fn find_package<'a>(
        &mut self,
        specifier: &'a str,
        folder: &'a str,
        loader: Loader,
    ) -> Result<Option<Found>, ResolutionError>
        ensures { IfOk result (λ found. IfSome found
            (λ file. F.has_file (string_bytes file.path))) }
    {
        let wanted = Wanted {
            specifier,
            folder,
            loader,
            settings: &self.settings,
        };
        self.tree.package_file(&wanted)
    }

    /// What the map `browser` has for a path, where that is found.
    fn mapped(&mut self, path: &str, loader: Loader) -> Result<Option<Resolved>, ResolutionError>
        ensures { IfOk result (λ it. IfSome it (IsFileOf F.has_file)) }
    {
        if !self.settings.uses_browser_map {
            return Ok(None);
        }
        match self.tree.replaced_place(path, &self.settings)? {
            None => Ok(None),
            Some(Replacement::Empty) => {
                let path = String::from_str(self.alloc, path)?;
                Ok(Some(Resolved::Empty(path)))
            }
            Some(Replacement::Text { folder, text }) => {
                self.replacing_file(&folder, &text, loader)
            }
        }
    }

    /// The same for a path in an installed package without `exports`.
    fn mapped_inner(
        &mut self,
        specifier: &str,
        folder: &str,
        loader: Loader,
    ) -> Result<Option<Resolved>, ResolutionError>
        ensures { IfOk result (λ it. IfSome it (IsFileOf F.has_file)) }
    {
        if !self.settings.uses_browser_map {
            return Ok(None);
        }
        match self.tree.inner_path(specifier, folder, &self.settings)? {
            Some(path) => self.mapped(path.as_str(), loader),
            None => Ok(None),
        }
    }

    /// The file that a text of the map `browser` names in the folder of its package: the package of that name where one
    /// is installed, else a path. It is not replaced in its turn.
    fn replacing_file(
        &mut self,
        folder: &str,
        text: &str,
        loader: Loader,
    ) -> Result<Option<Resolved>, ResolutionError>
        ensures { IfOk result (λ it. IfSome it (IsFileOf F.has_file)) }
    {
        if !text.starts_with('.') {
            if let Some(found) = self.find_package(text, folder, loader)? {
                return Ok(Some(file_of(found)));
            }
        }
        let place = NamedPlace::of_path(self.alloc, folder, text)?;
        match self.tree.complete(&place, &self.settings, loader)? {
            Some(path) => Ok(Some(Resolved::File {
                path,
                suffix: String::new(self.alloc),
            })),
            None => Ok(None),
        }
    }

    /// A file, or what takes its place, where that is found.
    fn finish(&mut self, found: Found, loader: Loader) -> Result<Resolved, ResolutionError>
        requires { F.has_file (string_bytes found.path) }
        ensures { IfOk result (IsFileOf F.has_file) }
    {
        if self.settings.externals.has_path(found.path.as_str()) {
            return Ok(Resolved::ExternalFile(found.path));
        }
        match self.replacement(found.path.as_str())? {
            None => Ok(file_of(found)),
            Some(Replacement::Empty) => Ok(Resolved::Empty(found.path)),
            Some(Replacement::Text { folder, text }) => {
                match self.replacing_file(&folder, &text, loader)? {
                    Some(resolved) => Ok(resolved),
                    None => Ok(file_of(found)),
                }
            }
        }
    }

    /// What takes the place of the file at a path.
    fn replacement(&mut self, path: &str) -> Result<Option<Replacement>, ResolutionError> {
        if !self.settings.uses_browser_map {
            return Ok(None);
        }
        self.tree.replaced_file(path, &self.settings)
    }
}

/// A file that was found.
fn file_of(found: Found) -> Resolved
    ensures { result ≡ File found.path found.suffix }
{
    let Found { path, suffix } = found;
    Resolved::File { path, suffix }
}

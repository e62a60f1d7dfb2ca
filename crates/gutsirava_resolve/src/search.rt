//! A file at a path, by the endings, or the main file of a folder.
ghost use Rattle.std.specs.Prelude.{IfOk, IfSome, string_bytes};

use crate::browser::Replacement;
use crate::error::ResolutionError;
use crate::files::FileSystem;
use crate::settings::{MainField, Settings};
use crate::tree::{Tree, with_ending};
use gutsirava_package::{Browser, Package};
use gutsirava_path::{AddressError, Loader, decode, is_folder_form, join};
use std::alloc::{AllocError, Global};

/// The place that a specifier names.
#[derive(Drop)]
pub(crate) struct NamedPlace {
    /// A normal path.
    pub(crate) path: String,
    /// From `?` or `#` on.
    pub(crate) suffix: String,
    /// Whether it names a folder by its form.
    pub(crate) is_folder: bool,
}

impl NamedPlace {
    /// What a text names in a folder, where the text is an address: the loader of ECMAScript modules, and the targets
    /// of package.json.
    pub(crate) fn of_address(
        alloc: Global,
        folder: &str,
        text: &str,
    ) -> Result<NamedPlace, AddressError> {
        let address = decode(alloc, text)?;
        let path = join(alloc, folder, address.path.as_str())?;
        Ok(NamedPlace {
            path,
            is_folder: is_folder_form(address.path.as_str()),
            suffix: address.suffix,
        })
    }

    /// What a text names in a folder, where it is a path: `require`.
    pub(crate) fn of_path(
        alloc: Global,
        folder: &str,
        text: &str,
    ) -> Result<NamedPlace, AllocError> {
        Ok(NamedPlace {
            path: join(alloc, folder, text)?,
            suffix: String::new(alloc),
            is_folder: is_folder_form(text),
        })
    }
}

impl<F: FileSystem + Drop> Tree<F> {
    /// The file that a place is completed to, by its path without links: the one there, the one there with an ending,
    /// or the main file of the folder.
    pub(crate) fn complete(
        &mut self,
        place: &NamedPlace,
        settings: &Settings,
        loader: Loader,
    ) -> Result<Option<String>, ResolutionError>
        ensures { IfOk result (λ found. IfSome found (λ real. F.has_file (string_bytes real))) }
    {
        let path = place.path.as_str();
        if !place.is_folder {
            let file = self.file_or_ending(path, settings)?;
            if file.is_some() {
                return Ok(file);
            }
        }
        if self.is_folder(path)? {
            return self.main_file(path, settings, loader);
        }
        Ok(None)
    }

    /// The file at a path, or at the path with an ending.
    fn file_or_ending(
        &mut self,
        path: &str,
        settings: &Settings,
    ) -> Result<Option<String>, ResolutionError>
        ensures { IfOk result (λ found. IfSome found (λ real. F.has_file (string_bytes real))) }
    {
        let file = self.file(path)?;
        if file.is_some() {
            return Ok(file);
        }
        self.file_by_ending(path, settings)
    }

    /// The file at a path with an ending.
    fn file_by_ending(
        &mut self,
        path: &str,
        settings: &Settings,
    ) -> Result<Option<String>, ResolutionError>
        ensures { IfOk result (λ found. IfSome found (λ real. F.has_file (string_bytes real))) }
    {
        for extension in &settings.extensions {
            let path = with_ending(self.alloc, path, extension.as_str())?;
            let file = self.file(path.as_str())?;
            if file.is_some() {
                return Ok(file);
            }
        }
        Ok(None)
    }

    /// The file `index` of a folder.
    fn index_file(
        &mut self,
        folder: &str,
        settings: &Settings,
    ) -> Result<Option<String>, ResolutionError>
        ensures { IfOk result (λ found. IfSome found (λ real. F.has_file (string_bytes real))) }
    {
        let index = join(self.alloc, folder, "index")?;
        self.file_by_ending(index.as_str(), settings)
    }

    /// The main file of a folder: the one that a field of its package.json names, or its index. For `require` the
    /// field `module` comes last, since what it names is seldom meant for it.
    pub(crate) fn main_file(
        &mut self,
        folder: &str,
        settings: &Settings,
        loader: Loader,
    ) -> Result<Option<String>, ResolutionError>
        ensures { IfOk result (λ found. IfSome found (λ real. F.has_file (string_bytes real))) }
    {
        let is_module_last = loader == Loader::CommonJs;
        let file = self.field_file(folder, settings, !is_module_last)?;
        if file.is_some() {
            return Ok(file);
        }
        let index = self.index_file(folder, settings)?;
        if index.is_some() || !is_module_last {
            return Ok(index);
        }
        self.field_file(folder, settings, true)
    }

    /// The file that a field of a folder's package.json names: the first whose file is there. Behind `main` no other is
    /// tried, as in Node.
    fn field_file(
        &mut self,
        folder: &str,
        settings: &Settings,
        takes_module: bool,
    ) -> Result<Option<String>, ResolutionError>
        ensures { IfOk result (λ found. IfSome found (λ real. F.has_file (string_bytes real))) }
    {
        for field in &settings.main_fields {
            if !takes_module && *field == MainField::Module {
                continue;
            }
            let Some(main) = self.field_path(folder, *field, settings)? else {
                continue;
            };
            let file = self.main_at(main.as_str(), settings)?;
            if file.is_some() || *field == MainField::Main {
                return Ok(file);
            }
        }
        Ok(None)
    }

    /// The path that a field of a folder's package.json names, if it has that field and that is not empty.
    fn field_path(
        &mut self,
        folder: &str,
        field: MainField,
        settings: &Settings,
    ) -> Result<Option<String>, ResolutionError> {
        let alloc = self.alloc;
        let Some(package) = self.package(folder, settings)? else {
            return Ok(None);
        };
        match field_text(package, field) {
            Some(text) if !text.is_empty() => Ok(Some(join_below(alloc, folder, text)?)),
            _ => Ok(None),
        }
    }

    /// The file or the index at the path of a main file, or where neither is, what the map `browser` has for that path.
    fn main_at(
        &mut self,
        path: &str,
        settings: &Settings,
    ) -> Result<Option<String>, ResolutionError>
        ensures { IfOk result (λ found. IfSome found (λ real. F.has_file (string_bytes real))) }
    {
        let file = self.file_or_index(path, settings)?;
        if file.is_some() || !settings.uses_browser_map {
            return Ok(file);
        }
        match self.replaced_place(path, settings)? {
            Some(Replacement::Text { folder, text }) => {
                let path = join(self.alloc, folder.as_str(), text.as_str())?;
                self.file_or_index(path.as_str(), settings)
            }
            Some(Replacement::Empty) | None => Ok(None),
        }
    }

    /// The file at a path, at the path with an ending, or the index of the folder there.
    fn file_or_index(
        &mut self,
        path: &str,
        settings: &Settings,
    ) -> Result<Option<String>, ResolutionError>
        ensures { IfOk result (λ found. IfSome found (λ real. F.has_file (string_bytes real))) }
    {
        let file = self.file_or_ending(path, settings)?;
        if file.is_some() {
            return Ok(file);
        }
        self.index_file(path, settings)
    }
}

/// A path below a folder, even where it begins with `/`.
fn join_below(alloc: Global, folder: &str, text: &str) -> Result<String, AllocError> {
    join(alloc, folder, text.trim_start_matches('/'))
}

/// What a field says of a package's main file.
fn field_text(package: &Package, field: MainField) -> Option<&str> {
    match field {
        MainField::Main => text_of(&package.main),
        MainField::Module => text_of(&package.module),
        MainField::Browser => match &package.browser {
            Browser::Main(text) => Some(text.as_str()),
            Browser::Absent | Browser::Map(_) => None,
        },
    }
}

fn text_of(field: &Option<String>) -> Option<&str> {
    match field {
        Some(text) => Some(text.as_str()),
        None => None,
    }
}

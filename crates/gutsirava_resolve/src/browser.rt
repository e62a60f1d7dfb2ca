//! The map `browser` of a package: what takes another's place for browsers.

use crate::error::ResolutionError;
use crate::files::FileSystem;
use crate::settings::Settings;
use crate::tree::Tree;
use gutsirava_package::{Browser, BrowserMap, BrowserReplacement, Package};
use gutsirava_path::folder_of;
use std::alloc::{AllocError, Global};

/// What takes another's place.
#[derive(Drop)]
pub(crate) enum Replacement {
    /// Nothing does: the module is empty.
    Empty,
    /// What a text names in the folder of the package.
    Text { folder: String, text: String },
}

impl<F: FileSystem + Drop> Tree<F> {
    /// What takes the place of a specifier for what lies in a folder.
    pub(crate) fn replaced_name(
        &mut self,
        folder: &str,
        specifier: &str,
        settings: &Settings,
    ) -> Result<Option<Replacement>, ResolutionError> {
        let alloc = self.alloc;
        let Some(scope) = self.scope(folder, settings)? else {
            return Ok(None);
        };
        let Some(map) = self.package(scope, settings)?.and_then(browser_map) else {
            return Ok(None);
        };
        match map.place(specifier) {
            Some(place) => Ok(replacement_at(alloc, scope, map, place)?),
            None => Ok(None),
        }
    }

    /// What takes the place of the file at a path.
    pub(crate) fn replaced_file(
        &mut self,
        path: &str,
        settings: &Settings,
    ) -> Result<Option<Replacement>, ResolutionError> {
        self.replaced(path, MapSubject::File, settings)
    }

    /// What takes the place of what is asked for by a path, whether a file is there or not.
    pub(crate) fn replaced_place(
        &mut self,
        path: &str,
        settings: &Settings,
    ) -> Result<Option<Replacement>, ResolutionError> {
        self.replaced(path, MapSubject::Place, settings)
    }

    fn replaced(
        &mut self,
        path: &str,
        subject: MapSubject,
        settings: &Settings,
    ) -> Result<Option<Replacement>, ResolutionError> {
        let alloc = self.alloc;
        let Some(scope) = self.scope(folder_of(path), settings)? else {
            return Ok(None);
        };
        let Some(map) = self.package(scope, settings)?.and_then(browser_map) else {
            return Ok(None);
        };
        let inner = path
            .strip_prefix(scope)
            .unwrap_or(path)
            .trim_start_matches('/');
        match subject.place(alloc, map, inner, settings)? {
            Some(place) => Ok(replacement_at(alloc, scope, map, place)?),
            None => Ok(None),
        }
    }
}

/// What a path stands for where the map is asked.
#[derive(Clone, Copy)]
enum MapSubject {
    /// The file at the path.
    File,
    /// What a specifier names, before a file is sought.
    Place,
}

impl MapSubject {
    /// The place of the first key of the map that is that of a path in the package. A key may leave out the ending of a
    /// file, or `/index` and an ending, and so may the path of a place.
    fn place(
        self,
        alloc: Global,
        map: &BrowserMap,
        inner: &str,
        settings: &Settings,
    ) -> Result<Option<usize>, AllocError> {
        let mut first = place_of(alloc, map, inner)?;
        for extension in &settings.extensions {
            let ending = extension.as_str();
            let place = match self {
                MapSubject::File => place_without(alloc, map, inner, ending)?,
                MapSubject::Place => place_with(alloc, map, inner, ending)?,
            };
            first = earlier(first, place);
        }
        Ok(first)
    }
}

/// The first place of a path's key, which may have `./` in front.
fn place_of(alloc: Global, map: &BrowserMap, inner: &str) -> Result<Option<usize>, AllocError> {
    let below = format!(in alloc; "./{inner}")?;
    let place = map.place(below.as_str());
    if inner.starts_with("./") {
        return Ok(place);
    }
    Ok(earlier(map.place(inner), place))
}

/// The first place of the key of a path without an ending, or without `/index` and an ending.
fn place_without(
    alloc: Global,
    map: &BrowserMap,
    inner: &str,
    ending: &str,
) -> Result<Option<usize>, AllocError> {
    let Some(stem) = inner.strip_suffix(ending) else {
        return Ok(None);
    };
    let place = place_of(alloc, map, stem)?;
    match stem.strip_suffix("/index") {
        Some(folder) => Ok(earlier(place, place_of(alloc, map, folder)?)),
        None => Ok(place),
    }
}

/// The first place of the key of a path with an ending, or with `/index` and an ending.
fn place_with(
    alloc: Global,
    map: &BrowserMap,
    inner: &str,
    ending: &str,
) -> Result<Option<usize>, AllocError> {
    let file = format!(in alloc; "{inner}{ending}")?;
    let index = format!(in alloc; "{inner}/index{ending}")?;
    let place = place_of(alloc, map, file.as_str())?;
    Ok(earlier(place, place_of(alloc, map, index.as_str())?))
}

/// The earlier of two places.
fn earlier(one: Option<usize>, other: Option<usize>) -> Option<usize> {
    match (one, other) {
        (Some(one), Some(other)) => Some(one.min(other)),
        (one, None) => one,
        (None, other) => other,
    }
}

/// The map `browser` of a package, if it has one.
fn browser_map(package: &Package) -> Option<&BrowserMap> {
    match &package.browser {
        Browser::Map(map) => Some(map),
        Browser::Absent | Browser::Main(_) => None,
    }
}

/// What the key at a place of the map says.
fn replacement_at(
    alloc: Global,
    scope: &str,
    map: &BrowserMap,
    place: usize,
) -> Result<Option<Replacement>, AllocError> {
    match map.replacement(place) {
        Some(BrowserReplacement::Empty) => Ok(Some(Replacement::Empty)),
        Some(BrowserReplacement::Text(text)) => Ok(Some(Replacement::Text {
            folder: String::from_str(alloc, scope)?,
            text: text.clone()?,
        })),
        Some(BrowserReplacement::Unknown) | None => Ok(None),
    }
}

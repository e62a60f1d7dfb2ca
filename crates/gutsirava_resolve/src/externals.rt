//! What is left as it is: `--external`.
ghost use Rattle.std.specs.Prelude.{◌≡◌, ◌||◌, ℕ, List, [], ◌∷◌, ◌++◌, false, true, OnOk, nat_eq, string_bytes};
ghost use Rattle.std.specs.List.{ends_with, list_any};
ghost use Rattle.std.specs.Str.{bytes_eq};
ghost use Rattle.gutsirava_path.specs.Normal.{joined_text, normal_text};
ghost use Rattle.gutsirava_resolve.specs.Externals as ext;

use gutsirava_path::{join, split_package};
use std::alloc::{AllocError, Global};

/// What is left as it is: specifiers, and files.
pub struct Externals {
    /// Specifiers; one `*` in a specifier stands for any text. The name of a package stands for its paths too.
    names: Vec<String>,
    /// Paths of files, which begin with `/`; `*` as in names.
    paths: Vec<String>,
}

impl Drop for Externals {
    fn drop(self) {
        let Externals {
            names: _names,
            paths: _paths,
        } = self;
    }
}

impl Externals {
    /// Nothing is left.
    pub fn new(alloc: Global) -> Externals
        ensures names { ext.names_of result ≡ [] }
        ensures paths { ext.paths_of result ≡ [] }
    {
        Externals {
            names: Vec::new(alloc),
            paths: Vec::new(alloc),
        }
    }

    /// Adds one: what begins with `./`, `../` or `/` is a path, from `folder` on; any other text is a specifier.
    pub fn add(&mut self, alloc: Global, folder: &str, text: &str) -> Result<(), AllocError>
        ensures name { ext.is_path text.now ≡ false
            → OnOk result (ext.names_of self.new ≡ ext.names_of self.old ++ text.now ∷ []) }
        ensures path { ext.is_path text.now ≡ true
            → OnOk result (ext.paths_of self.new
            ≡ ext.paths_of self.old ++ normal_text (joined_text folder.now text.now) ∷ []) }
        ensures same_paths { ext.is_path text.now ≡ false
            → ext.paths_of self.new ≡ ext.paths_of self.old }
        ensures same_names { ext.is_path text.now ≡ true
            → ext.names_of self.new ≡ ext.names_of self.old }
    {
        if is_path(text) {
            let path = join(alloc, folder, text)?;
            self.paths.push(path)?;
        } else {
            let name = String::from_str(alloc, text)?;
            self.names.push(name)?;
        }
        Ok(())
    }

    /// Whether a specifier is left.
    pub fn has_name(&self, specifier: &str) -> bool
        ensures { (name : List ℕ) × ext.IsPackageOf specifier.now name
            × (result ≡ (ext.fit_any self.now.names.items specifier.now
            || ext.have self.now.names.items name)) }
    {
        let package = package_of(specifier);
        if fit_any(self.names.as_slice(), specifier) {
            return true;
        }
        have(self.names.as_slice(), package)
    }

    /// Whether the file at a path is left.
    pub fn has_path(&self, path: &str) -> bool
        ensures { result ≡ ext.fit_any self.now.paths.items path.now }
    {
        fit_any(self.paths.as_slice(), path)
    }
}

/// Whether a text is a path, and no specifier of a package.
fn is_path(text: &str) -> bool
    ensures { result ≡ ext.is_path text.now }
{
    text.starts_with("./") || text.starts_with("../") || text.starts_with("/")
}

/// The name of the package that a specifier names, or the specifier.
fn package_of(specifier: &str) -> &str
    ensures { ext.IsPackageOf specifier.now result.now }
{
    match split_package(specifier) {
        Some((name, _)) => name,
        None => specifier,
    }
}

/// Whether a text fits one of these patterns.
fn fit_any(patterns: &[String], text: &str) -> bool
    ensures { result ≡ ext.fit_any patterns.now text.now }
{
    patterns.iter().any(|pattern| fits(pattern.as_str(), text))
}

/// Whether a name is among these.
pub(crate) fn have(names: &[String], name: &str) -> bool
    ensures { result ≡ ext.have names.now name.now }
{
    names.iter().any(|it| it.as_str() == name)
}

/// Whether a text is the pattern's, where the first `*` of the pattern stands for any text.
fn fits(pattern: &str, text: &str) -> bool
    ensures { result ≡ ext.fits pattern.now text.now }
{
    match pattern.split_once('*') {
        None => pattern == text,
        Some((front, back)) => fits_round(front, back, text),
    }
}

/// Whether a text begins with one and ends with another behind that.
fn fits_round(front: &str, back: &str, text: &str) -> bool
    ensures { result ≡ ext.fits_round front.now back.now text.now }
{
    match text.strip_prefix(front) {
        Some(rest) => ends_in(rest, back),
        None => false,
    }
}

/// Whether a text ends with another.
fn ends_in(text: &str, back: &str) -> bool
    ensures { result ≡ ends_with nat_eq text.now back.now }
{
    text.ends_with(back)
}

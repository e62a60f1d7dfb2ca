//! What stands in the place of the specifiers of a module for the linker.

use crate::kind::SourceKind;
use bundle_syntax::ExportMetadata;

/// The texts that stand for a request by an ECMAScript module, part by part. Each is the key of a module: of the one that
/// is asked for, or of one between, which gives what the linker would not give by itself.
#[derive(Clone, Copy)]
pub struct PartKeys<'k> {
    /// Of the module itself: its properties by their names.
    pub names: &'k str,
    /// Of one that has its names for `export *`.
    pub star: &'k str,
    /// Of one that runs it.
    pub run: &'k str,
    /// Of one that has its default export.
    pub default: &'k str,
    /// Of one that has its namespace, as the export `namespace`.
    pub namespace: &'k str,
}

/// What stands in the place of a specifier.
#[derive(Clone, Copy)]
pub enum Stand<'k> {
    /// This text, of what is left to whoever runs the bundle.
    Left(&'k str),
    /// The key of a module that is asked for as it is.
    Module(&'k str),
    /// The keys of a module whose parts are asked for one by one.
    Parts(PartKeys<'k>),
    /// In the place of `import()`: the key of a module that exports `load`, a function that gives its promise, and a name
    /// for it that no program has.
    Load(&'k str, &'k str),
    /// The same in a CommonJS module: the key of one that is such a function.
    Loader(&'k str),
}

/// What a module is, and what it keeps.
#[derive(Clone, Copy)]
pub struct Seat<'k> {
    pub kind: SourceKind,
    /// Whether `import.meta` is that of the bundle.
    pub keeps_meta: bool,
    /// What `import.meta.url` is, where that is given.
    pub meta_url: Option<&'k str>,
    /// Whether it is the module that runs first, as `require.main` tells.
    pub is_main: bool,
    /// Whether it is JSON, in which no key means more than itself.
    pub is_data: bool,
    /// Whether it is told where in the text each piece stands.
    pub keeps_origins: bool,
    /// What is noted on a declaration that is made.
    pub notes: &'k ExportMetadata,
}

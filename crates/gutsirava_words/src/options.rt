//! What a bundle is made of, and how.

ghost use Rattle.std.specs.Prelude.{◌<◌, ◌||◌, nat_le, vec_len, IsTrue};
ghost use Rattle.gutsirava_words.specs.Output.{is_folder, knows_parts};

use crate::{
    CharsetSetting, Color, LegalComments, LogLevel, Order, Platform, SourceMap, SourcesContent,
    Switch,
};

/// A module that a bundle begins with.
#[derive(Drop)]
pub enum EntryPoint {
    /// The text of the standard input.
    Stdin,
    /// A file, by its path as it was written.
    File(String),
}

/// Where bundles go.
#[derive(Drop)]
pub enum Destination {
    /// The one bundle to the standard output.
    Stdout,
    /// The one bundle to this file.
    File(String),
    /// The bundle of each entry into this folder.
    Folder(String),
}

/// What a bundle is written as.
#[derive(Drop)]
pub enum FormatSetting {
    /// An ECMAScript module.
    Esm,
    /// A script whose whole text is one function expression that is called at once.
    Iife(Iife),
}

/// What a script takes from variables outside, and gives to them.
#[derive(Drop)]
pub struct Iife {
    /// What holds the exports of the entry: a variable, or a property of one, as `App.core`. Its parts are names of
    /// JavaScript, and the first is none of its reserved words.
    pub name: Option<String>,
    /// What holds the exports of external modules.
    pub globals: Vec<ExternalGlobal>,
}

/// The variable that holds the exports of an external module.
#[derive(Drop)]
pub struct ExternalGlobal {
    /// The module, as imports write it.
    pub specifier: String,
    /// A variable, or a property of one.
    pub name: String,
}

/// What people look at beside bundles, and whether they are made again. Texts are not empty.
#[derive(Drop)]
pub struct ViewChoices {
    /// The file of the metafile.
    pub metafile: Option<String>,
    /// The file of the picture of the modules.
    pub graph: Option<String>,
    /// Whether it is told what takes which part of a bundle.
    pub analyze: Switch,
    /// Whether bundles are made again when a file changes.
    pub watch: Switch,
}

/// What is bundled, and how. Texts are not empty. What the parts of bundles are made for is told only where they stand in
/// the order of ECMA-262.
#[derive(Drop)]
pub struct Options {
    /// The modules that bundles begin with, in their order: one at least, and the standard input at most once.
    pub entries: Vec<EntryPoint>,
    /// Where bundles go. Several go into a folder.
    pub output: Destination,
    pub format: FormatSetting,
    /// What is left to the loader of the bundle: packages, paths, or patterns with one `*`.
    pub externals: Vec<String>,
    pub platform: Platform,
    /// Conditions of `exports` and `imports` in package.json, beside those of the platform.
    pub conditions: Vec<String>,
    /// The fields of package.json that name a package's file, the first first, if not those of the platform.
    pub main_fields: Option<Vec<String>>,
    pub order: Order,
    /// The folder that imports may not leave.
    pub root: Option<String>,
    pub charset: CharsetSetting,
    pub legal_comments: LegalComments,
    /// What `import.meta.url` becomes.
    pub meta_url: Option<String>,
    /// What source map is written of each bundle. One that goes to the standard output has none beside it.
    pub source_map: SourceMap,
    pub sources_content: SourcesContent,
    /// What people look at. Bundles that go to the standard output have no files beside them.
    pub views: ViewChoices,
    pub log_level: LogLevel,
    pub color: Color,
    pub ghost some: { 0 < vec_len entries },
    pub ghost one_unless_folder: { IsTrue (nat_le (vec_len entries) 1 || is_folder output) },
    pub ghost parts_known: { IsTrue (knows_parts order source_map views) },
}

//! What a bundle is to be.

pub use bundle_js_print::Charset;
use gutsirava_resolve::TargetPlatform;

/// What a bundle is written as.
#[derive(Clone, Copy, Debug, PartialEq, Eq)]
pub enum OutputFormat {
    /// An ECMAScript module.
    Module,
    /// A script: one function that is called at once.
    Iife,
}

/// What source map is made of a bundle.
#[derive(Clone, Copy, Debug, PartialEq, Eq)]
pub enum MapSetting {
    /// None.
    Off,
    /// One that names the sources.
    Paths,
    /// One that holds the texts of the sources too.
    Contents,
}

/// What a bundle is to be.
pub struct BundleSettings {
    pub format: OutputFormat,
    /// Whether the modules of a cycle run in the order of ECMA-262, and not each statement behind what it needs.
    pub in_standard_order: bool,
    pub platform: TargetPlatform,
    /// The name, words with dots between, under which a script leaves what its entry exports.
    pub global_name: Option<String>,
    /// For specifiers that are left, what stands for them in a script.
    pub globals: Vec<(String, String)>,
    /// What `import.meta.url` is, where it is not to stay.
    pub meta_url: Option<String>,
    pub charset: Charset,
    /// Whether comments that hold a licence stay.
    pub keeps_comments: bool,
    pub source_map: MapSetting,
    /// Whether it is told what bundles are made of.
    pub has_insight: bool,
    /// The folder that no module may lie outside of.
    pub root: Option<String>,
    /// The folder that paths are told from, and the one in which the bundles lie.
    pub folder: String,
    pub output_folder: String,
}

/// Lets go of it. Written by hand, so that who lets one go from another crate calls this function, where a derived one
/// would be proved anew in that crate.
impl Drop for BundleSettings {
    fn drop(self) {
        let BundleSettings {
            format: _format,
            in_standard_order: _in_standard_order,
            platform: _platform,
            global_name: _global_name,
            globals: _globals,
            meta_url: _meta_url,
            charset: _charset,
            keeps_comments: _keeps_comments,
            source_map: _source_map,
            has_insight: _has_insight,
            root: _root,
            folder: _folder,
            output_folder: _output_folder,
        } = self;
    }
}

/// What a bundle is made of.
#[derive(Drop)]
pub struct BundleEntry {
    /// What the bundle is called.
    pub name: String,
    /// A normal path that begins with `/`, without links.
    pub path: String,
    /// Its text, where it is not that of the file.
    pub text: Option<String>,
}

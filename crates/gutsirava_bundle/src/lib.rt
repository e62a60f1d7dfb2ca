//! Files to bundles: hands the modules that entries need to the linker, and writes what it gives.
#![tactic(auto)]

mod bundling;
mod insight;
mod mapped;
mod output;
mod parties;
mod trees;

pub use bundling::{BundleText, Bundled, bundle_entries};
pub use gutsirava_graph::{
    BundleEntry, BundleSettings, BundledLink, BundledModule, Charset, MapSetting, Messages,
    ModuleForm, OutputFormat, ProgressListener, RequestForm,
};
pub use insight::{BundleInsight, BundlePart};

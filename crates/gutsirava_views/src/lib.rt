//! What people look at beside a bundle: a metafile for viewers, a table of what takes which part of it, and a picture of its
//! modules. Plain data in, text out.
#![tactic(auto)]

mod analysis;
mod json;
mod metafile;
mod overview;
mod picture;
mod shares;
mod sizes;

pub use analysis::analysis_text;
pub use metafile::metafile_text;
pub use overview::{
    ImportKind, ImportTarget, ImportView, InputFormat, InputView, OutputPart, OutputView, Overview,
};
pub use picture::picture_text;
pub use shares::shares_of;
pub use sizes::size_text;

//! The program's document: modules, entries and settings in JSON, and the answer to it.
#![tactic(auto)]

mod answering;
mod document;
mod error;
mod forms;
mod input;
mod output;
mod parties;
mod read;
mod running;
mod settings;
mod stream;
mod text;
mod values;
mod writing;

pub use answering::{answer, answer_text};
pub use document::Document;
pub use error::DocumentError;
pub use input::{Input, InputError};
pub use output::Output;
pub use parties::MetaHook;
pub use read::{parse_document, read_document};
pub use running::run;
pub use text::bundles_text;

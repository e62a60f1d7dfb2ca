//! The words of the command line, and what they ask for.
#![tactic(auto)]

mod choice;
mod command;
mod draft;
mod error;
mod help;
mod key;
mod name;
mod nearest;
mod options;
mod word;

pub use choice::{
    CharsetSetting, Color, FormatKind, LegalComments, LogLevel, Order, Platform, SourceMap,
    SourcesContent, Switch,
};
pub use command::Command;
pub use error::WordsError;
pub use help::{HELP, VERSION};
pub use key::Key;
pub use options::{
    Destination, EntryPoint, ExternalGlobal, FormatSetting, Iife, Options, ViewChoices,
};

//! The modules that entries need, found and read. What is wrong with them is told.
#![tactic(auto)]

mod between;
mod bond;
mod cycles;
mod entries;
mod facade;
mod faults;
mod file_unit;
mod graph;
mod inputs;
mod lead;
mod link;
mod message;
mod missing;
mod numbers;
mod own;
mod progress;
mod reading;
mod settings;
mod spot;
mod tables;
mod teller;
mod trees;
mod unit;
mod unit_table;

pub use entries::{EntryGraph, Root, read_entries};
pub use gutsirava_sources::RequestForm;
pub use inputs::{BundledLink, BundledModule, InputNumbers, ModuleForm, modules_of};
pub use message::Messages;
pub use numbers::{file_of, unit_in, unit_of};
pub use progress::ProgressListener;
pub use settings::{BundleEntry, BundleSettings, Charset, MapSetting, OutputFormat};
pub use tables::exports_of;
pub use teller::Teller;
pub use trees::TreeMaker;
pub use unit::BundleUnit;
pub use unit_table::UnitTable;

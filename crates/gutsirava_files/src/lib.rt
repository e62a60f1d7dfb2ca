//! The files of the machine: what resolution reads, and outputs, which are written whole or not at all.
#![tactic(auto)]

mod device;
mod disk;
mod error;
mod machine;
mod made;
mod outputs;
mod places;
mod stage;
mod staged;

pub use disk::{Disk, DiskKind};
pub use error::OutputError;
pub use machine::MachineFiles;
pub use outputs::{FileOutput, write_outputs};

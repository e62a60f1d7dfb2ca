//! The tables of one module, from its list and from what its names denote: requests, imports, exports,
//! literal calls of `require`, uses of imported names, and what is wrong with the module by itself.
#![tactic(auto)]

mod asked;
mod calls;
mod entries;
mod exports;
mod faults;
mod free;
mod imports;
mod listed;
mod outline;
pub mod requests;
mod sources;
mod stated;
pub mod table;
pub mod tables;
mod walk;

pub use requests::requests_in;
pub use table::{
    AskedName, Export, FileFault, ImportRef, MemberRead, Origin, RequireCall, Source, Tables,
    Taken, Use,
};
pub use tables::{external_texts, tables_of};

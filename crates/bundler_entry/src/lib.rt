//! The module of an entry, made of files that were read: which modules it reaches, which fault is first, what the hook
//! answers, and the module that stands for all of them.
#![tactic(auto)]

mod call;
mod causes;
mod entry;
mod fault;
mod finish;
mod linked;
mod made;
mod meta;
mod source;
mod unlinked;

pub use call::{EntryCall, OrderedConfig};
pub use causes::causes_in;
pub use entry::{MetaAnswer, ask_all, module_of};
pub use finish::finished;
pub use linked::{LinkedEntry, linked_entry};
pub use source::{ReadFile, ReadFiles, program_of, source_of};
pub use unlinked::EntryError;

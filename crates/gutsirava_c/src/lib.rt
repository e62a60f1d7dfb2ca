//! The linker, and the reader and the printer of JavaScript beside it, as a static library: four calls over memory, for C
//! and for what calls C.
//!
//! Each call writes its answer, which is UTF-8, to the front of `output`, gives its status, and says in `written` how many
//! bytes the answer has. Where `output` has no room for so many the status is 3, and `output` stays as it was.
#![tactic(auto)]

mod bundle;
mod bundled;
mod form;
mod memory;
mod refusal;
mod reply;
mod request;
mod room;
mod sources;
mod text;
mod value;

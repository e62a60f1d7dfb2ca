//! The text of a file to the list of a module, with what it asks for: ECMAScript modules, CommonJS modules and JSON;
//! and the list as the linker is handed it, with a key in the place of each specifier that is followed.
#![tactic(auto)]

mod common_js;
mod exports;
mod forms;
mod json_text;
mod kind;
mod made;
mod outline;
mod parts;
mod pieces;
mod rewrite;
mod rewriter;
mod stand;
mod text;
mod writing;

pub use bundle_js_read::{
    KeptComment, Placed, ReadError, ReadErrorKind, SourceModule, SourceRecords,
};
pub use common_js::{CommonJsExports, common_js_exports};
pub use exports::{Exported, TakenName, exports_of, taken_of};
pub use json_text::{JsonError, json_module};
pub use kind::{DeclaredKind, KnownKind, SourceKind, kind_of, read_as, read_known};
pub use made::{COMMENT, NO_ORIGIN};
pub use outline::{RequestForm, SourceOutline, SourceRequest, outline_of};
pub use parts::{RequestParts, parts_of};
pub use rewrite::{RewrittenList, rewritten};
pub use stand::{PartKeys, Seat, Stand};
pub use text::{hashbang_of, plain_text};

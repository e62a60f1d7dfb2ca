//! JavaScript: the text of an ECMAScript module, or of a CommonJS module, to the list of its tree, with the place
//! of each piece in the text (ECMA-262, 13th edition).
#![tactic(auto)]

mod doubts;
mod error;
mod foreign;
mod source;

pub use bundle_js_pieces::Placed;
pub use bundle_js_scan::gap::Goal;
pub use bundle_js_scan::place::{Position, position_at};
pub use error::{ReadError, ReadErrorKind};
pub use source::{KeptComment, SourceModule, SourceRecords};

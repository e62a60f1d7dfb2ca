//! What a bundler tells a person: errors and warnings with the line that they speak of and a mark under it, and at the
//! end what was written. A terminal obeys nothing of the texts that come from outside: of a report, each character is
//! shown as such, but for newlines and, where colours are asked for, the sequences of `Style`.
#![tactic(auto)]

mod excerpt;
mod message;
mod messages;
mod place;
mod sheet;
mod shown;
mod style;
mod summary;
mod units;

pub use message::{Message, Note, Severity};
pub use messages::messages_text;
pub use place::{FilePlace, Stretch};
pub use sheet::{Sheet, SheetPiece};
pub use shown::{Shown, is_quiet, quiet_text};
pub use style::Style;
pub use summary::{Summary, Written, summary_text};

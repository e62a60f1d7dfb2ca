//! What is told of a bundle.

ghost use Rattle.std.specs.Prelude.{◌≡◌, ◌<◌, ◌≤◌, ◌↔◌, IsTrue, OnOk};

use gutsirava_report::{FilePlace, Message, Note, Severity};
use std::alloc::{AllocError, Global};

/// So many errors are told.
pub(crate) const MOST_ERRORS: usize = 10;

/// So many warnings are shown.
const MOST_WARNINGS: usize = 10;

/// What is told of a bundle, in the order in which it was found.
#[derive(Drop)]
pub struct Messages {
    pub list: Vec<Message>,
    /// How many of them are errors.
    pub errors: usize,
}

impl Messages {
    pub(crate) fn new(alloc: Global) -> Messages
        ensures { result.errors ≡ 0 }
    {
        Messages {
            list: Vec::new(alloc),
            errors: 0,
        }
    }

    /// Whether as many errors are told as may be.
    pub(crate) fn is_full(&self) -> bool
        ensures { IsTrue result ↔ (MOST_ERRORS ≤ self.now.errors) }
    {
        self.errors >= MOST_ERRORS
    }

    /// Whether as many warnings are told as are shown.
    pub(crate) fn has_all_shown(&self) -> bool {
        self.list.len().saturating_sub(self.errors) >= MOST_WARNINGS
    }

    /// Adds an error. Of more than ten the first ones are kept.
    pub(crate) fn error(
        &mut self,
        text: String,
        place: Option<FilePlace>,
        notes: Vec<Note>,
    ) -> Result<(), AllocError>
        ensures grows { self.old.errors ≤ self.new.errors }
        ensures told { OnOk result (0 < self.new.errors) }
    {
        if self.is_full() {
            return Ok(());
        }
        self.errors = self.errors.saturating_add(1);
        push_message(&mut self.list, Severity::Error, text, place, notes)
    }

    pub(crate) fn warning(
        &mut self,
        alloc: Global,
        text: String,
        place: Option<FilePlace>,
    ) -> Result<(), AllocError>
        ensures { self.new.errors ≡ self.old.errors }
    {
        push_message(
            &mut self.list,
            Severity::Warning,
            text,
            place,
            Vec::new(alloc),
        )
    }
}

fn push_message(
    list: &mut Vec<Message>,
    severity: Severity,
    text: String,
    place: Option<FilePlace>,
    notes: Vec<Note>,
) -> Result<(), AllocError> {
    list.push(Message {
        severity,
        text,
        place,
        notes,
    })?;
    Ok(())
}

//! What is told of files, with its place.

ghost use Rattle.std.specs.Prelude.{◌≡◌, ◌<◌, ◌≤◌, OnOk};

use crate::message::Messages;
use gutsirava_path::{extension, relative};
use gutsirava_report::{FilePlace, Note};
use gutsirava_sources::{ReadError, ReadErrorKind};
use std::alloc::{AllocError, Global};
use std::collections::BTreeSet;
use std::io;

/// Tells of files.
pub struct Teller<'s> {
    /// What is told is made in it.
    pub alloc: Global,
    /// The folder that paths are told from.
    folder: &'s str,
    /// The specifiers that are told as left.
    left: BTreeSet<String>,
    /// What is told so far.
    pub messages: Messages,
}

/// Lets go of it. Written by hand, so that who lets one go calls this function.
impl Drop for Teller<'_> {
    fn drop(self) {
        let Teller {
            alloc: _alloc,
            folder: _folder,
            left: _left,
            messages: _messages,
        } = self;
    }
}

/// Some bytes of the text of a file.
#[derive(Clone, Copy)]
pub(crate) struct TextPlace<'x> {
    pub(crate) path: &'x str,
    pub(crate) text: &'x str,
    pub(crate) at: usize,
    pub(crate) length: usize,
}

impl<'s> Teller<'s> {
    pub(crate) fn new(alloc: Global, folder: &'s str) -> Teller<'s>
        ensures { result.messages.errors ≡ 0 }
    {
        Teller {
            alloc,
            folder,
            left: BTreeSet::new(alloc),
            messages: Messages::new(alloc),
        }
    }

    /// What is told, alone.
    pub fn into_messages(self) -> Messages
        ensures { result ≡ self.entry.messages }
    {
        let Teller {
            alloc: _alloc,
            folder: _folder,
            left: _left,
            messages,
        } = self;
        messages
    }

    /// A path as it is told: from the folder where it lies in that, else whole.
    pub(crate) fn shown(&self, path: &str) -> Result<String, AllocError> {
        let near = relative(self.alloc, self.folder, path)?;
        match near.as_str().strip_prefix("./") {
            Some(inner) => String::from_str(self.alloc, inner),
            None => String::from_str(self.alloc, path),
        }
    }

    /// Some bytes of a file, as they are told.
    pub(crate) fn place(&self, place: TextPlace<'_>) -> Result<FilePlace, AllocError> {
        let shown = self.shown(place.path)?;
        let end = place.at.saturating_add(place.length);
        FilePlace::in_text(self.alloc, shown.as_str(), place.text, place.at, end)
    }

    /// Tells of an error that stands in no file.
    pub(crate) fn error(&mut self, why: String) -> Result<(), AllocError>
        ensures grows { self.old.messages.errors ≤ self.new.messages.errors }
        ensures told { OnOk result (0 < self.new.messages.errors) }
    {
        self.messages.error(why, None, Vec::new(self.alloc))
    }

    /// Tells of an error in a file, with what is noted of it.
    pub(crate) fn fault(
        &mut self,
        at: TextPlace<'_>,
        why: String,
        notes: Vec<Note>,
    ) -> Result<(), AllocError>
        ensures grows { self.old.messages.errors ≤ self.new.messages.errors }
        ensures told { OnOk result (0 < self.new.messages.errors) }
    {
        if self.messages.is_full() {
            return Ok(());
        }
        let place = self.place(at)?;
        self.messages.error(why, Some(place), notes)
    }

    /// Warns of something in a file.
    pub(crate) fn warn(&mut self, at: TextPlace<'_>, why: String) -> Result<(), AllocError>
        ensures same { self.new.messages.errors ≡ self.old.messages.errors }
    {
        let place = self.warned_place(at)?;
        self.messages.warning(self.alloc, why, Some(place))
    }

    // The place of a warning: of one that is not shown the file alone, since a text is gone through for each place in it.
    fn warned_place(&self, at: TextPlace<'_>) -> Result<FilePlace, AllocError> {
        if self.messages.has_all_shown() {
            let shown = self.shown(at.path)?;
            return FilePlace::of_file(self.alloc, shown.as_str());
        }
        self.place(at)
    }

    /// Tells what is wrong with a text.
    pub(crate) fn tell_unread(
        &mut self,
        path: &str,
        text: &str,
        error: ReadError,
    ) -> Result<(), AllocError>
        ensures grows { self.old.messages.errors ≤ self.new.messages.errors }
        ensures told { OnOk result (0 < self.new.messages.errors) }
    {
        if error.kind == ReadErrorKind::OutOfMemory {
            return Err(AllocError);
        }
        let ReadError { kind, at } = error;
        let notes = ending_notes(self.alloc, path)?;
        let why = format!(in self.alloc; "{kind}")?;
        let place = TextPlace {
            path,
            text,
            at: at as usize,
            length: 1,
        };
        self.fault(place, why, notes)
    }

    /// Tells that of a module, or of a text of the command's own, no tree comes.
    pub(crate) fn tell_internal(&mut self, text: &str) -> Result<(), AllocError>
        ensures { self.old.messages.errors ≤ self.new.messages.errors }
    {
        let why = format!(in self.alloc;
            "a fault of the command's own: no module comes of {text}"
        )?;
        self.error(why)
    }

    /// Tells once of a specifier that it is left.
    pub(crate) fn tell_left(&mut self, specifier: &str, at: TextPlace<'_>) -> Result<(), AllocError>
        ensures same { self.new.messages.errors ≡ self.old.messages.errors }
    {
        if !self.left.insert(String::from_str(self.alloc, specifier)?)? {
            return Ok(());
        }
        let why = format!(in self.alloc; "{specifier:?} is left as it is")?;
        self.warn(at, why)
    }

    /// That a file cannot be read.
    pub(crate) fn unread_text(&self, path: &str, cause: &io::Error) -> Result<String, AllocError> {
        let shown = self.shown(path)?;
        format!(in self.alloc; "{shown} cannot be read: {cause}")
    }

    /// That a file may not be taken in.
    pub(crate) fn outside_text(&self, path: &str) -> Result<String, AllocError> {
        let shown = self.shown(path)?;
        format!(in self.alloc; "{shown} lies outside of the root")
    }
}

// What is noted of a file whose text is no JavaScript, by its ending.
fn ending_notes(alloc: Global, path: &str) -> Result<Vec<Note>, AllocError> {
    let mut notes = Vec::new(alloc);
    if let Some(hint) = ending_hint(extension(path)) {
        notes.push(Note {
            text: String::from_str(alloc, hint)?,
            place: None,
        })?;
    }
    Ok(notes)
}

// What is told of a file with this ending that is no JavaScript.
fn ending_hint(ending: &str) -> Option<&'static str> {
    match ending {
        "" | ".js" | ".mjs" | ".cjs" | ".json" => None,
        ".ts" | ".mts" | ".cts" | ".tsx" => Some("TypeScript is not read: compile it first"),
        ".jsx" => Some("JSX is not read: compile it first"),
        _ => Some("files of other endings than .json are read as JavaScript"),
    }
}

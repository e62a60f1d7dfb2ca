//! The modules of files, as far as their texts tell.

ghost use Rattle.std.specs.Prelude.{◌≤◌};

use crate::teller::{Teller, TextPlace};
use crate::unit::{BundleUnit, UnitFile, UnitOrigin};
use gutsirava_resolve::FileFormat;
use gutsirava_sources::{
    DeclaredKind, JsonError, KnownKind, SourceKind, json_module, kind_of, plain_text,
};
use std::alloc::{AllocError, Global};

// What the module of a file is.
#[derive(Drop)]
struct FileForm {
    known: KnownKind,
    is_data: bool,
    is_node: bool,
    is_done: bool,
}

impl FileForm {
    // That of a JSON text, or of what should be one.
    fn of_data(is_read: bool) -> FileForm {
        FileForm {
            known: KnownKind {
                kind: SourceKind::CommonJs,
                records: None,
            },
            is_data: true,
            is_node: false,
            is_done: !is_read,
        }
    }

    // That of a text of which it is known what it is.
    fn of_text(known: KnownKind, is_node: bool) -> FileForm {
        FileForm {
            known,
            is_data: false,
            is_node,
            is_done: false,
        }
    }

    // The module of this form.
    fn unit(self, alloc: Global, path: String, text: String) -> BundleUnit {
        let FileForm {
            known: KnownKind { kind, records },
            is_data,
            is_node,
            is_done,
        } = self;
        let file = UnitFile {
            path,
            text,
            is_data,
            records,
        };
        let mut unit = BundleUnit::new(alloc, UnitOrigin::File(file), kind);
        unit.is_node = is_node;
        unit.is_done = is_done;
        unit
    }

    // That of a text that is not read.
    fn unread(is_node: bool) -> FileForm {
        FileForm {
            known: KnownKind {
                kind: SourceKind::EcmaScript,
                records: None,
            },
            is_data: false,
            is_node,
            is_done: true,
        }
    }
}

impl Teller<'_> {
    /// The module of a file with this text, of this format. What is wrong with the text is told.
    pub(crate) fn unit_of_text(
        &mut self,
        path: &str,
        text: String,
        format: FileFormat,
    ) -> Result<BundleUnit, AllocError>
        ensures { self.old.messages.errors ≤ self.new.messages.errors }
    {
        let text = plain_text(self.alloc, text)?;
        let bytes = text.len();
        let mut unit = if format == FileFormat::Json {
            self.data_unit(path, text)?
        } else {
            let form = self.text_form(path, text.as_str(), format)?;
            file_unit(self.alloc, path, text, form)?
        };
        unit.bytes = bytes;
        Ok(unit)
    }

    // The module of a JSON text.
    fn data_unit(&mut self, path: &str, text: String) -> Result<BundleUnit, AllocError>
        ensures { self.old.messages.errors ≤ self.new.messages.errors }
    {
        match self.data_text(path, text.as_str())? {
            Some(made) => file_unit(self.alloc, path, made, FileForm::of_data(true)),
            None => file_unit(self.alloc, path, text, FileForm::of_data(false)),
        }
    }

    // The text of the module that stands for a JSON text; none where that is told to be none.
    fn data_text(&mut self, path: &str, text: &str) -> Result<Option<String>, AllocError>
        ensures { self.old.messages.errors ≤ self.new.messages.errors }
    {
        let alloc = self.alloc;
        match json_module(alloc, text) {
            Ok(made) => Ok(Some(made)),
            Err(JsonError::Memory(error)) => Err(error),
            Err(JsonError::Form { at }) => {
                let why = format!(in alloc; "this is no JSON, or nests deeper than 128 levels")?;
                let place = TextPlace {
                    path,
                    text,
                    at,
                    length: 1,
                };
                self.fault(place, why, Vec::new(alloc))?;
                Ok(None)
            }
        }
    }

    // What a JavaScript text is read as.
    fn text_form(
        &mut self,
        path: &str,
        text: &str,
        format: FileFormat,
    ) -> Result<FileForm, AllocError>
        ensures { self.old.messages.errors ≤ self.new.messages.errors }
    {
        let is_node = format == FileFormat::EcmaScript;
        match kind_of(self.alloc, text, declared_kind(format)) {
            Ok(known) => Ok(FileForm::of_text(known, is_node)),
            Err(error) => {
                self.tell_unread(path, text, error)?;
                Ok(FileForm::unread(is_node))
            }
        }
    }
}

// The module of a file.
fn file_unit(
    alloc: Global,
    path: &str,
    text: String,
    form: FileForm,
) -> Result<BundleUnit, AllocError> {
    let path = String::from_str(alloc, path)?;
    Ok(form.unit(alloc, path, text))
}

fn declared_kind(format: FileFormat) -> DeclaredKind {
    match format {
        FileFormat::EcmaScript => DeclaredKind::EcmaScript,
        FileFormat::CommonJs | FileFormat::Json | FileFormat::Addon => DeclaredKind::CommonJs,
        FileFormat::Undeclared => DeclaredKind::Nothing,
    }
}

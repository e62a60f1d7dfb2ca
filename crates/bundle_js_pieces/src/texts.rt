//! The texts that records stand for.

use bundle_js_record::kind::Kind;
use bundle_js_record::record::Rec;
use bundle_js_scan::store::Store;
use bundle_syntax::ExportMetadata;
use std::alloc::{AllocError, AllocFailed};

/// Why a list of records gave no list of pieces.
#[derive(Clone, Copy, PartialEq, Eq, Debug)]
pub enum PieceError {
    /// A record has no text in the source or in the store: the records are those of another text.
    Text,
    /// A growth was refused.
    OutOfMemory,
}

impl From<AllocError> for PieceError {
    fn from(_refused: AllocError) -> PieceError {
        PieceError::OutOfMemory
    }
}

impl<T: Drop> From<AllocFailed<T>> for PieceError {
    fn from(_refused: AllocFailed<T>) -> PieceError {
        PieceError::OutOfMemory
    }
}

/// What a list borrows from: the source, the store of the texts that are not the source's, and what the linker
/// notes on each declaration at first.
#[derive(Clone, Copy)]
pub struct RecordTexts<'a> {
    pub source: &'a str,
    pub store: &'a Store,
    pub notes: &'a ExportMetadata,
}

impl<'a> RecordTexts<'a> {
    /// The text that a record stands for: a name with no escape in it and no `#`, the value of a string, the
    /// raw text of a part of a template.
    pub fn value(&self, rec: Rec) -> Result<&'a str, PieceError> {
        if rec.escaped {
            let store: &'a Store = self.store;
            return store.text(rec.from).ok_or(PieceError::Text);
        }
        let before = match rec.kind {
            Kind::Str | Kind::PrivateName => 1,
            _ => 0,
        };
        let behind = if rec.kind == Kind::Str { 1 } else { 0 };
        self.between(
            (rec.from as usize).saturating_add(before),
            (rec.to as usize).saturating_sub(behind),
        )
    }

    /// The text of a record as it stands in the source.
    pub fn raw(&self, rec: Rec) -> Result<&'a str, PieceError> {
        self.between(rec.from as usize, rec.to as usize)
    }

    fn between(&self, from: usize, to: usize) -> Result<&'a str, PieceError> {
        let source: &'a str = self.source;
        if from <= to {
            source.get(from..to).ok_or(PieceError::Text)
        } else {
            Err(PieceError::Text)
        }
    }
}

//! What a run tells on the standard error. Where that does not take it, the status still tells how the run ended.

use crate::store::OutputFile;
use gutsirava_report::{Message, Severity, Summary, Written, messages_text, summary_text};
use gutsirava_words::LogLevel;
use std::alloc::{AllocError, Global};
use std::io::Write;

/// An error without a place.
pub(crate) fn plain_error(alloc: Global, text: String) -> Message {
    Message {
        severity: Severity::Error,
        text,
        place: None,
        notes: Vec::new(alloc),
    }
}

/// How a run tells what it found.
#[derive(Clone, Copy)]
pub(crate) struct Report {
    pub(crate) level: LogLevel,
    pub(crate) has_colors: bool,
}

impl Report {
    /// Tells messages, as far as they are asked for.
    pub(crate) fn tell<E: Write>(
        self,
        alloc: Global,
        messages: Vec<Message>,
        errors: &mut E,
    ) -> Result<(), AllocError> {
        let mut told = Vec::new(alloc);
        for message in messages {
            if is_told(self.level, message.severity) {
                told.push(message)?;
            }
        }
        let text = messages_text(alloc, told.as_slice(), self.has_colors)?;
        let _ = errors.write_all(text.as_bytes());
        Ok(())
    }

    /// Tells which files were written, where that is asked for.
    pub(crate) fn sum_up<E: Write>(
        self,
        alloc: Global,
        modules: usize,
        files: &[OutputFile],
        milliseconds: u64,
        errors: &mut E,
    ) -> Result<(), AllocError> {
        if !matches!(self.level, LogLevel::Info) || files.is_empty() {
            return Ok(());
        }
        let mut written = Vec::new(alloc);
        for file in files {
            let path = file.path.clone()?;
            let bytes = file.text.len() as u64;
            written.push(Written { path, bytes })?;
        }
        let summary = Summary {
            modules,
            written,
            milliseconds,
        };
        let text = summary_text(alloc, &summary, self.has_colors)?;
        let _ = errors.write_all(text.as_bytes());
        Ok(())
    }
}

fn is_told(level: LogLevel, severity: Severity) -> bool {
    match level {
        LogLevel::Info | LogLevel::Warning => true,
        LogLevel::Error => matches!(severity, Severity::Error),
        LogLevel::Silent => false,
    }
}

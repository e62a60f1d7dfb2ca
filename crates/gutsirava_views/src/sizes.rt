//! Sizes as people read them.

use std::alloc::{AllocError, Global};

/// So many bytes, as `36 B`, `1.5 kB` and `2.0 MB`.
pub fn size_text(alloc: Global, bytes: usize) -> Result<String, AllocError> {
    if bytes < 1_000 {
        return format!(in alloc; "{bytes} B");
    }
    let (unit, tenths) = if bytes < 1_000_000 {
        ("kB", bytes / 100)
    } else {
        ("MB", bytes / 100_000)
    };
    let whole = tenths / 10;
    let tenth = tenths % 10;
    format!(in alloc; "{whole}.{tenth} {unit}")
}

/// A count and its word, as `2 modules`.
pub(crate) fn counted(alloc: Global, count: usize, word: &str) -> Result<String, AllocError> {
    let plural = if count == 1 { "" } else { "s" };
    format!(in alloc; "{count} {word}{plural}")
}

//! What a run of the command reaches.

use std::io;

/// What a run of the command reaches: files to read, a store to write to, the three streams, and a clock.
#[derive(Drop)]
pub struct Host<F, S, I, O, E, C> {
    pub files: F,
    pub store: S,
    pub input: I,
    pub output: O,
    pub errors: E,
    pub clock: C,
}

/// What a run of the command finds around it.
#[derive(Drop)]
pub struct Surroundings {
    /// The folder from which paths are meant: a normal path that begins with `/`, without links.
    pub folder: io::Result<String>,
    /// `NO_COLOR` of the environment.
    pub no_color: Option<String>,
    /// Whether the standard error is a terminal.
    pub has_terminal: bool,
}

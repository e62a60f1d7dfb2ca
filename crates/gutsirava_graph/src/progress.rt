//! How far a command is.

/// Is told how far a command is.
pub trait ProgressListener {
    /// So many modules are found so far.
    fn has_found(&mut self, modules: usize);

    /// All modules are read, and are linked now.
    fn begins_to_link(&mut self);
}

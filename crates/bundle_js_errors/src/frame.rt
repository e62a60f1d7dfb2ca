//! What is around a record.

/// What a statement may leave, or go on with, where it stands.
#[derive(Clone, Copy)]
pub struct JumpContext {
    /// Whether a loop is around it in its function.
    pub in_loop: bool,
    /// Whether a loop or a `switch` is.
    pub in_breakable: bool,
    /// How many of the labels around it are outside its function.
    pub labels: u32,
}

/// What is to be undone where a node has been gone through.
#[derive(Clone, Copy)]
pub enum Undo {
    Nothing,
    /// The innermost label.
    Label,
    /// The private names behind these many.
    Privates(u32),
}

/// A node that is gone through.
#[derive(Clone, Copy)]
pub struct CheckFrame {
    /// The place of its record.
    pub at: u32,
    /// The place of the first record of which it is around.
    pub start: u32,
    pub context: JumpContext,
    pub undo: Undo,
}

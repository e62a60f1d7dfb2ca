//! The numbers by which names of one symbol are kept apart.

ghost use Rattle.std.specs.Prelude.{◌≡◌, ◌≤◌};
ghost use Rattle.bundle_tree_names.specs.FileName.{name_of};

use bundle_tree_names::{FileName, SyntaxContext};
use std::marker::Model;

/// The contexts of a file: that of the names of its top, and those from the next number on, for all else.
#[derive(Drop)]
pub struct Contexts {
    file: FileName,
    local: SyntaxContext,
    next: u32,
}

impl Model for Contexts {
    ghost use Rattle.bundle_tree_names.specs.FileName.{name_of};
    ghost use Rattle.bundle_scope.specs.Contexts.{HeldContexts};

    ghost Value = { HeldContexts };

    ghost view = { λ it. record { file = name_of it.file; local = it.local; next = it.next } };
}

impl Contexts {
    /// The contexts of this file. It takes no memory.
    pub fn new(file: FileName, local: SyntaxContext, next: u32) -> Contexts
        ensures { result ≡ record { file = name_of file; local = local; next = next } }
    {
        Contexts { file, local, next }
    }

    /// The next number, which no name has yet.
    pub fn next(&self) -> u32
        ensures { result ≡ self.now.next }
    {
        self.next
    }

    /// The file that these are the contexts of.
    pub fn file(&self) -> &FileName
        ensures { name_of result.now ≡ self.now.file }
    {
        &self.file
    }

    /// The context of the names of the top.
    pub(crate) fn local(&self) -> SyntaxContext
        ensures { result ≡ self.now.local }
    {
        self.local
    }

    /// The numbers below this one are given.
    pub fn go_to(&mut self, next: u32)
        requires { self.old.next ≤ next }
        ensures { self.new ≡ record self.old { next = next } }
    {
        self.next = next;
    }
}

//! What becomes of a part of a module that stands in a bundle.

use bundle_tree_places::Name;

/// How much of what is around an occurrence its new name stands for.
#[derive(Clone, Copy, PartialEq, Eq, Debug)]
pub enum Whole {
    /// The identifier alone.
    Alone,
    /// The identifier with so many static reads around it, at least one: `ns.a.b` with 2. The name stands for the
    /// whole member expression.
    Reads(usize),
    /// The literal call `require('..')` around it, which becomes a call of the name without arguments.
    Call,
}

/// What becomes of an occurrence: the name that stands there in the bundle, and how much of what is around it
/// that name stands for.
#[derive(Clone, Copy, PartialEq, Eq, Debug)]
pub struct Rewrite<'c> {
    pub name: Name<'c>,
    pub whole: Whole,
}

/// What becomes of a part of a module: of its occurrences in turn, and of each `import.meta`, which becomes a
/// reference to this name, or stays where there is none.
#[derive(Clone, Copy, Debug)]
pub struct Rewriting<'r, 'c> {
    pub rewrites: &'r [Rewrite<'c>],
    pub meta: Option<Name<'c>>,
}

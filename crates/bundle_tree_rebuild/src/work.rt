//! What is asked of a walk over a list, in turn.

ghost use Rattle.std.specs.Prelude.{◌≡◌, drop, option_map, slice_get};
ghost use Rattle.bundle_tree_rebuild.specs.Work.{change_step, is_spelled_out_by, rewrite_step, step_of, steps_of};

use crate::rewrite::{Rewrite, Whole};
use bundle_tree_places::{Change, Name};

/// What becomes of an occurrence.
#[derive(Clone, Copy)]
pub(crate) struct Step<'c> {
    pub(crate) name: Name<'c>,
    pub(crate) spelling: Spelling,
    pub(crate) whole: Whole,
}

/// When what is short is spelled out.
#[derive(Clone, Copy)]
pub(crate) enum Spelling {
    /// Always, or never.
    Fixed(bool),
    /// Where the symbol changes.
    BySymbol,
}

/// What becomes of occurrences in turn.
#[derive(Clone, Copy)]
pub(crate) enum Steps<'r, 'c> {
    Changes(&'r [Change<'c>]),
    Rewrites(&'r [Rewrite<'c>]),
}

impl<'c> Step<'c> {
    fn of_change(change: Change<'c>) -> Step<'c>
        ensures { step_of result ≡ change_step change.entry }
    {
        Step {
            name: change.ident,
            spelling: Spelling::Fixed(change.is_spelled_out),
            whole: Whole::Alone,
        }
    }

    /// Whether what is short is spelled out where this becomes of an identifier of such a symbol.
    pub(crate) fn spells_out(&self, sym: &str) -> bool
        ensures { result ≡ is_spelled_out_by self.now.spelling self.now.name.sym.now sym.now }
    {
        match self.spelling {
            Spelling::Fixed(is_spelled_out) => is_spelled_out,
            Spelling::BySymbol => self.name.sym != sym,
        }
    }

    fn of_rewrite(rewrite: Rewrite<'c>) -> Step<'c>
        ensures { step_of result ≡ rewrite_step rewrite.entry }
    {
        Step {
            name: rewrite.name,
            spelling: Spelling::BySymbol,
            whole: rewrite.whole,
        }
    }
}

impl<'r, 'c> Steps<'r, 'c> {
    /// What becomes of the first occurrence, if anything is asked of it.
    pub(crate) fn first(self) -> Option<Step<'c>>
        ensures { option_map step_of result ≡ slice_get (steps_of self.entry) 0 }
    {
        match self {
            Steps::Changes(changes) => match changes.first().copied() {
                Some(change) => Some(Step::of_change(change)),
                None => None,
            },
            Steps::Rewrites(rewrites) => match rewrites.first().copied() {
                Some(rewrite) => Some(Step::of_rewrite(rewrite)),
                None => None,
            },
        }
    }

    /// What becomes of the others.
    pub(crate) fn behind_first(self) -> Steps<'r, 'c>
        ensures { steps_of result ≡ drop 1 (steps_of self.entry) }
    {
        match self {
            Steps::Changes(changes) => match changes.split_first() {
                Some((_, rest)) => Steps::Changes(rest),
                None => self,
            },
            Steps::Rewrites(rewrites) => match rewrites.split_first() {
                Some((_, rest)) => Steps::Rewrites(rest),
                None => self,
            },
        }
    }
}

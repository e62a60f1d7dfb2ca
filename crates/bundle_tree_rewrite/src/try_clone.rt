//! Copies of trees and of their parts: a copy is made of the list of what it is a copy of.

ghost use Rattle.std.specs.Prelude.{◌≡◌, ◌++◌, IfOk, OnOk};

pub mod classes;
pub mod decls;
pub mod exprs;
pub mod modules;
pub mod names;
pub mod pats;
pub mod props;
pub mod stmts;

use bundle_tree_list::Walk;
use bundle_tree_parse::{FromList, make_node};
use std::alloc::{AllocError, Global};

/// A part of a tree that can be copied.
pub trait TryClone: FromList {
    ghost use Rattle.bundle_tree_parse.specs.Standing.{IsIn};

    // Whether the second is a copy of the first.
    ghost is_copy: { Self → Self → Type 0 };

    /// Adds the list of this part, which stands in field 0. Refused only where memory runs out.
    fn list<'a>(&'a self, walk: &mut Walk<'a>) -> Result<(), AllocError>
        ensures { OnOk result (walk.new ≡ walk.old ++ Self.items 0 self.now) };

    /// A copy. Refused only where memory runs out.
    final fn try_clone(&self, alloc: Global) -> Result<Self, AllocError>
        ensures { IfOk result (λ made. is_copy self.now made) }
    {
        let mut walk = Walk::new(alloc);
        self.list(&mut walk)?;
        make_node(alloc, &walk.into_pieces())
    }

    // The list of each part is of its kind, and what has the same list is a copy.
    ghost stands: { (it : Self) → IsIn Self.sort 0 (Self.items 0 it) };

    ghost same: { (it made : Self) → Self.items 0 made ≡ Self.items 0 it → is_copy it made };
}

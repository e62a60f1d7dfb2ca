//! The walk over a tree that changes its identifiers.

ghost use Rattle.std.specs.Prelude.{◌≡◌, drop, map, option_map, slice_get, string_bytes};
ghost use Rattle.bundle_rules.specs.Rebuilds as rebuilds;
ghost use Rattle.bundle_tree_rename.specs.Naming.{naming_of, next};

pub mod classes;
pub mod decls;
pub mod exprs;
pub mod modules;
pub mod names;
pub mod pats;
pub mod props;
pub mod stmts;

use crate::new_name::NewName;
use bundle_tree_ast::Ident;
use std::alloc::Global;
use std::marker::Model;

/// What becomes of the occurrences that are left. Each method changes one part of a tree where it stands.
#[derive(Drop)]
pub struct Rename<'r, 'n> {
    pub(crate) alloc: Global,
    left: &'r [NewName<'n>],
}

impl<'r, 'n> Model for Rename<'r, 'n> {
    ghost use Rattle.std.specs.Prelude.{List, map};
    ghost use Rattle.bundle_tree_rename.specs.Naming.{Naming, naming_of};

    ghost Value = { List Naming };

    ghost view = { λ it. map naming_of it.left.now };
}

impl<'r, 'n> Rename<'r, 'n> {
    /// A walk in which this becomes of the occurrences in turn; those that are left at its end stay.
    pub fn new(alloc: Global, names: &'r [NewName<'n>]) -> Rename<'r, 'n>
        ensures { result ≡ map naming_of names.now }
    {
        Rename { alloc, left: names }
    }

    /// What becomes of the next occurrence, which is met.
    pub(crate) fn take(&mut self) -> Option<NewName<'n>>
        ensures name { option_map naming_of result ≡ slice_get self.old 0 }
        ensures rest { self.new ≡ drop 1 self.old }
    {
        let name = self.left.first().copied();
        self.left = behind_first(self.left);
        name
    }

    /// Whether what is short is spelled out at the next occurrence, which is this identifier.
    pub(crate) fn spells_out(&self, ident: &Ident) -> bool
        ensures { result
            ≡ rebuilds.spells_out (next self.now (string_bytes ident.now.sym) ident.now.ctxt) }
    {
        match self.left.first() {
            Some(name) => name.is_other(ident.sym.as_str()),
            None => false,
        }
    }
}

// What becomes of the others.
fn behind_first<'r, 'n>(names: &'r [NewName<'n>]) -> &'r [NewName<'n>]
    ensures { map naming_of result.now ≡ drop 1 (map naming_of names.now) }
{
    if let Some((_, rest)) = names.split_first() {
        return rest;
    }
    names
}

//! The trees of modules.

ghost use Rattle.std.specs.Prelude.{◌≡◌};

use bundle_syntax::Piece;
use bundle_tree_ast::Module;
use bundle_tree_parse::{BuildError, build_module};
use gutsirava_graph::TreeMaker;
use std::alloc::{AllocError, Global};

/// The trees of modules, by the numbers of these.
pub(crate) struct UnitTrees {
    alloc: Global,
    pub(crate) list: Vec<Option<Module>>,
}

/// Lets go of it. Written by hand, so that who lets one go calls this function.
impl Drop for UnitTrees {
    fn drop(self) {
        let UnitTrees {
            alloc: _alloc,
            list: _list,
        } = self;
    }
}

impl UnitTrees {
    pub(crate) fn new(alloc: Global) -> UnitTrees {
        UnitTrees {
            alloc,
            list: Vec::new(alloc),
        }
    }

    /// All trees, which are taken.
    pub(crate) fn take(&mut self) -> Vec<Option<Module>>
        ensures { result ≡ self.old.list }
    {
        std::mem::replace(&mut self.list, Vec::new(self.alloc))
    }

    // Puts down the tree of a module.
    fn put(&mut self, unit: usize, tree: Module) -> Result<(), AllocError> {
        self.make_room(unit)?;
        if let Some(place) = self.list.get_mut(unit) {
            *place = Some(tree);
        }
        Ok(())
    }

    // Makes a place for the tree of a module.
    fn make_room(&mut self, unit: usize) -> Result<(), AllocError> {
        for _ in self.list.len()..unit.saturating_add(1) {
            self.list.push(None)?;
        }
        Ok(())
    }
}

impl TreeMaker for UnitTrees {
    fn make(&mut self, unit: usize, pieces: &[Piece<'_>]) -> Result<bool, AllocError> {
        match build_module(self.alloc, pieces) {
            Ok(tree) => {
                self.put(unit, tree)?;
                Ok(true)
            }
            Err(BuildError::Form) => Ok(false),
            Err(BuildError::OutOfMemory) => Err(AllocError),
        }
    }
}

//! What the own entries of modules say, and which modules each stars.

ghost use Rattle.std.specs.Prelude.{◌≡◌, ◌++◌, ◌∷◌, OnOk, []};
ghost use Rattle.indexmap.specs.IndexMap.{keys};
ghost use Rattle.bundle_link_index.specs.Graph.{graph_of, own_of, stars_of, PutsOwn};

use indexmap::IndexMap;
use std::alloc::{AllocError, Global};

/// What an own entry of a name says. A name of a module is a pair of numbers: that of the module, and that
/// of the name.
#[derive(Clone, Copy, PartialEq, Eq, Debug)]
pub enum OwnLink {
    /// It gives this value.
    Gives(usize),
    /// It gives what this name of a module gives.
    Leads((usize, usize)),
    /// It gives nothing.
    Nothing,
}

/// Own entries and stars of modules. The star of a module gives what the other module gives, but for one
/// name, `default`, and for names of which the module has an entry.
#[derive(Drop)]
pub struct Links {
    pub(crate) own: IndexMap<(usize, usize), OwnLink>,
    pub(crate) stars: Vec<Vec<usize>>,
    pub(crate) default: usize,
}

impl Links {
    /// No module yet. `default` is the number of the name that no star gives.
    pub fn new(alloc: Global, default: usize) -> Links
        ensures { graph_of result ≡ record { entries = []; lists = []; default = default } }
    {
        Links {
            own: IndexMap::new(alloc),
            stars: Vec::new(alloc),
            default,
        }
    }

    /// The next module, with the modules that it stars.
    pub fn add_module(&mut self, stars: Vec<usize>) -> Result<(), AllocError>
        ensures stars { OnOk result
            ((graph_of self.new).lists ≡ (graph_of self.old).lists ++ stars.items ∷ []) }
        ensures entries { OnOk result
            ((graph_of self.new).entries ≡ (graph_of self.old).entries) }
        ensures default { OnOk result
            ((graph_of self.new).default ≡ (graph_of self.old).default) }
    {
        self.stars.push(stars)?;
        Ok(())
    }

    /// An own entry of a module. Of two of one name the first stands.
    pub fn add_own(&mut self, at: (usize, usize), own: OwnLink) -> Result<(), AllocError>
        ensures own { OnOk result (PutsOwn (graph_of self.old) at own (graph_of self.new)) }
        ensures stars { OnOk result ((graph_of self.new).lists ≡ (graph_of self.old).lists) }
        ensures default { OnOk result
            ((graph_of self.new).default ≡ (graph_of self.old).default) }
    {
        if self.own(at).is_none() {
            self.own.insert(at, own)?;
        }
        Ok(())
    }

    // What the own entry of a name says, if there is one.
    pub(crate) fn own(&self, at: (usize, usize)) -> Option<OwnLink>
        ensures { result ≡ own_of (graph_of self.now) at }
    {
        self.own.get(&at).copied()
    }

    // The names that have an own entry.
    pub(crate) fn spots(&self) -> &[(usize, usize)]
        ensures { result.now ≡ keys self.now.own }
    {
        self.own.keys().as_slice()
    }

    // The modules that a module stars.
    pub(crate) fn stars(&self, number: usize) -> &[usize]
        ensures { result.now ≡ stars_of (graph_of self.now) number }
    {
        match self.stars.get(number) {
            Some(stars) => stars.as_slice(),
            None => &[],
        }
    }
}

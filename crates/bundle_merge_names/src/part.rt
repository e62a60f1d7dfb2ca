//! What comes in: the modules of a bundle as they were read, what linking tells of them, and what the hook answered.

ghost use Rattle.std.specs.Prelude.{◌≡◌, ◌<◌, ◌↔◌, ℕ, IsTrue, None, drop, is_some, length, slice_get, take, unwrap_or, if◌then◌else◌};
ghost use Rattle.bundle_rules.specs.Linking.{IsCommonJs};
ghost use Rattle.bundle_rules.specs.Program.{Program};
ghost use Rattle.bundle_link_targets.specs.Linked.{IsLinkingOf};

use crate::context::FreshContexts;
use bundle_link_tables::Tables;
use bundle_link_targets::Linking;
use bundle_order_sort::Block;
use bundle_scope_denote::Denotations;
use bundle_syntax::Piece;
use bundle_tree_ast::{KeyValueProp, ModuleItem};
use bundle_tree_places::Name;
use std::collections::BTreeMap;

/// A module of a bundle, as it was read. The modules of a bundle are numbered by their places in its list, the entry
/// last.
#[derive(Clone, Copy)]
pub struct BundleModule<'t, 'a> {
    /// Its items; in front of its own may be the statement that holds its `import.meta`.
    pub items: &'a [ModuleItem],
    /// What each occurrence in the list of its own items denotes by its symbol, read as the kind of module that it is.
    pub denotations: &'t Denotations<'a>,
    pub tables: &'t Tables<'a>,
    /// The modules to which its requests lead, by their texts.
    pub leads: &'t BTreeMap<String, usize>,
    /// The context of the names of its top.
    pub local: u32,
    /// The name that the first of its items declares, where that is a statement which holds its `import.meta` already
    /// and stands in no list.
    pub written: Option<Name<'a>>,
}

impl<'t, 'a> BundleModule<'t, 'a> {
    /// The statement that holds its `import.meta`, if it is there already.
    pub fn written_items(&self) -> &'a [ModuleItem]
        ensures { result.now
            ≡ take (if is_some self.now.written then 1 else 0) self.now.items.now }
    {
        match self.written {
            Some(_) => self.items.get(..1).unwrap_or(&[]),
            None => &[],
        }
    }

    /// The items that are its own.
    pub fn own_items(&self) -> &'a [ModuleItem]
        ensures { result.now
            ≡ drop (if is_some self.now.written then 1 else 0) self.now.items.now }
    {
        match self.written {
            Some(_) => self.items.get(1..).unwrap_or(&[]),
            None => self.items,
        }
    }
}

/// The properties of an `import.meta`, with the list of a module of one statement, an object that has them, and what
/// its occurrences denote.
#[derive(Clone, Copy)]
pub struct Answered<'t, 'h> {
    pub properties: &'h [KeyValueProp],
    pub pieces: &'t [Piece<'h>],
    pub denotations: &'t Denotations<'h>,
}

/// What a bundle is made of: its modules in the order of its list, the entry last; what the hook answered for them, if
/// something, by their numbers; what their names are linked to; the blocks in their order, whose places are numbers of
/// modules; and the contexts that are free.
#[derive(Clone, Copy)]
pub struct BundleInput<'t, 'a, 'h> {
    pub parts: &'t [BundleModule<'t, 'a>],
    pub answers: &'t [Option<Answered<'t, 'h>>],
    pub linking: &'t Linking<'a>,
    pub blocks: &'t [Block],
    pub contexts: FreshContexts,
}

impl<'t, 'a, 'h> BundleInput<'t, 'a, 'h> {
    /// Whether some module is CommonJS.
    pub fn has_common_js(&self) -> bool
        ensures { (p : Program) →
            IsLinkingOf p self.now.linking.now →
            IsTrue result ↔ ((m : ℕ) × (m < length self.now.parts.now) × IsCommonJs p m) }
    {
        for which in 0..self.parts.len() {
            if self.linking.is_common_js(which) {
                return true;
            }
        }
        false
    }

    /// What the hook answered for a module, if something.
    pub fn answer(&self, which: usize) -> Option<Answered<'t, 'h>>
        ensures { result ≡ unwrap_or (slice_get self.now.answers.now which) None }
    {
        self.answers.get(which).copied().unwrap_or(None)
    }
}

//! What a linker holds while it makes one module of several.

ghost use Rattle.std.specs.Prelude.{◌≡◌, ◌⊎◌, alloc_error, map, IfErr, IfOk, OnOk, OnErr};
ghost use Rattle.bundle_merge_modules.specs.Held.{AnswersItems, AsksItem, MapsSome, PicksItem, RefusesItem, RefusesList, RefusesPick, Replies, lists_in_order, trees_of};
ghost use Rattle.bundle_tree_listed.specs.Tree.{module_item_items, module_items};
ghost use Rattle.bundle_rules.specs.Parts.{MapsItems, MapsLists, Retains, body_of, in_order, joined, no_parts, parts_of, with_all_appended, with_appended, with_prepended};

use crate::Parts;
pub use crate::iter::Iter;
use bundle_tree_ast::{Module, ModuleItem};
use bundle_tree_names::{Error, ModuleId};
use std::alloc::{AllocError, Global};
use std::marker::Model;

/// Items of modules, in three parts: those in front, the bodies, and those behind. Each part holds its items by
/// modules, as these first came into it. Each call that is refused leaves them as they were.
#[derive(Drop)]
pub struct Modules {
    pub(crate) parts: Parts<ModuleItem>,
}

impl Model for Modules {
    ghost use Rattle.bundle_rules.specs.Parts.{Parts};
    ghost use Rattle.bundle_merge_modules.specs.Held.{parts_held};

    ghost Value = { Parts };

    ghost view = { λ modules. parts_held modules.parts };
}

impl Modules {
    /// No items. It takes no memory.
    pub fn empty(alloc: Global) -> Modules
        ensures { result ≡ no_parts }
    {
        Modules {
            parts: Parts::empty(alloc),
        }
    }

    /// The items of one module, as its body.
    pub fn from(alloc: Global, id: ModuleId, tree: Module) -> Result<Modules, AllocError>
        ensures { IfOk result (λ modules.
            modules ≡ parts_of id (map (module_item_items 0) tree.body.items)) }
    {
        let parts = Parts::from(alloc, id, tree.into_body())?;
        Ok(Modules { parts })
    }

    /// Adds each part of what a module depends on behind the same part.
    pub fn add_dep(&mut self, dep: Modules) -> Result<(), AllocError>
        ensures added { OnOk result (self.new ≡ joined self.old dep) }
        ensures refused { OnErr result (self.new ≡ self.old) }
    {
        self.push_all(dep)
    }

    /// Adds each part of others behind the same part.
    pub fn push_all(&mut self, other: Modules) -> Result<(), AllocError>
        ensures added { OnOk result (self.new ≡ joined self.old other) }
        ensures refused { OnErr result (self.new ≡ self.old) }
    {
        self.parts.push_all(other.parts)
    }

    /// All items, each with the number of its module: the parts in turn. It takes no memory.
    pub fn iter(&self) -> Iter<'_, ModuleItem>
        ensures { trees_of result ≡ in_order self.now }
    {
        self.parts.iter()
    }

    /// Puts what `f` answers in the place of each module's items, part by part. Refused only where `f` refuses and where
    /// memory runs out.
    pub fn map_any_items<F>(&mut self, f: &F) -> Result<(), Error>
    where
        F: Fn(ModuleId, &[ModuleItem]) -> Result<Vec<ModuleItem>, Error>,
        requires { F.IsAlwaysCallable f.now }
        ensures answered { OnOk result (MapsLists (AnswersItems (F.post f.now)) self.old self.new) }
        ensures refused { OnErr result (self.new ≡ self.old) }
        ensures why { IfErr result (λ refusal. (refusal ≡ Error.OutOfMemory)
            ⊎ RefusesList (F.post f.now) refusal (lists_in_order self.old)) }
    {
        self.parts.map_any_items(f)
    }

    /// Puts what `f` answers in the place of each item. Refused only where `f` refuses and where memory runs out.
    pub fn map_items_mut<F>(&mut self, f: &F) -> Result<(), Error>
    where
        F: Fn(ModuleId, &ModuleItem) -> Result<ModuleItem, Error>,
        requires { F.IsAlwaysCallable f.now }
        ensures answered { OnOk result (MapsItems (Replies (F.post f.now)) self.old self.new) }
        ensures refused { OnErr result (self.new ≡ self.old) }
        ensures why { IfErr result (λ refusal. (refusal ≡ Error.OutOfMemory)
            ⊎ RefusesItem (F.post f.now) refusal (in_order self.old)) }
    {
        self.parts.map_items_mut(f)
    }

    /// Puts what `f` answers in the place of each item; where it answers none the item goes. Refused only where `f`
    /// refuses and where memory runs out.
    pub fn map_some_items<F, E: From<AllocError> + Drop>(&mut self, f: &F) -> Result<(), E>
    where
        F: Fn(ModuleId, &ModuleItem) -> Result<Option<ModuleItem>, E>,
        requires { F.IsAlwaysCallable f.now }
        ensures answered { OnOk result (MapsSome (PicksItem (F.post f.now)) self.old self.new) }
        ensures refused { OnErr result (self.new ≡ self.old) }
        ensures why { IfErr result (λ refusal. E.from_gives alloc_error refusal
            ⊎ RefusesPick (F.post f.now) refusal (in_order self.old)) }
    {
        self.parts.map_some_items(f)
    }

    /// Adds an item behind.
    pub fn append(&mut self, id: ModuleId, item: ModuleItem) -> Result<(), AllocError>
        ensures added { OnOk result
            (self.new ≡ with_appended self.old (id, module_item_items 0 item)) }
        ensures refused { OnErr result (self.new ≡ self.old) }
    {
        self.parts.append(id, item)
    }

    /// Adds items behind, each in turn.
    pub fn append_all(&mut self, items: Vec<(ModuleId, ModuleItem)>) -> Result<(), AllocError>
        ensures added { OnOk result
            (self.new ≡ with_all_appended self.old (trees_of items.items)) }
        ensures refused { OnErr result (self.new ≡ self.old) }
    {
        self.parts.append_all(items)
    }

    /// Adds an item in front, behind those that are there.
    pub fn prepend(&mut self, id: ModuleId, item: ModuleItem) -> Result<(), AllocError>
        ensures added { OnOk result
            (self.new ≡ with_prepended self.old (id, module_item_items 0 item)) }
        ensures refused { OnErr result (self.new ≡ self.old) }
    {
        self.parts.prepend(id, item)
    }

    /// Keeps the items for which `f` answers true.
    pub fn retain_mut<F>(&mut self, f: &F)
    where
        F: Fn(ModuleId, &ModuleItem) -> bool,
        requires { F.IsAlwaysCallable f.now }
        ensures { Retains (AsksItem (F.post f.now)) self.old self.new }
    {
        self.parts.retain_mut(f);
    }

    /// The items as one module.
    pub fn into_module(self) -> Result<Module, AllocError>
        ensures { IfOk result (λ whole. module_items 0 whole ≡ body_of self) }
    {
        let body = self.parts.into_items()?;
        Ok(Module { body })
    }
}

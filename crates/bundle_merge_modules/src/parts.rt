//! What a linker holds while it makes one module of several.

ghost use Rattle.std.specs.Prelude.{◌≡◌, ◌≢◌, ◌↔◌, ◌+◌, ◌^◌, ◌<◌, ◌≤◌, ◌++◌, ◌⊎◌, alloc_error, IsTrue, length, vec_len, vec_capacity, IfErr, IfOk, OnOk, OnErr, SomeIff, []};
ghost use Rattle.indexmap.specs.IndexMap.{spare};
ghost use Rattle.bundle_merge_modules.specs.Groups.{put_all};
ghost use Rattle.bundle_merge_modules.specs.Calls.{AnswersOf, AsksOf, PicksOf, RefusesItemOf, RefusesListOf, RefusesPickOf, RepliesOf, groups_of};
ghost use Rattle.bundle_merge_modules.specs.Parts.{IsArrangedAs, MapsItemsOf, MapsListsOf, MapsSomeOf, RetainsOf, body_held, all_in_order, items_held, held_joined, lists_in_order_of, nothing, put_in_turn, put_last};

use crate::iter::Iter;
use crate::part::ModuleItems;
use bundle_order_sort::Shuffle;
use bundle_tree_names::ModuleId;
use std::alloc::{AllocError, Global};
use std::marker::Model;
use std::mem;

/// Items of modules, in three parts: those in front, the bodies, and those behind. Each part holds its items by
/// modules, as these first came into it.
#[derive(Drop)]
pub struct Parts<T> {
    prepended: ModuleItems<T>,
    bodies: ModuleItems<T>,
    appended: ModuleItems<T>,
}

impl<T> Model for Parts<T> {
    ghost use Rattle.bundle_merge_modules.specs.Groups.{AreGroupsTidy, owned};
    ghost use Rattle.bundle_merge_modules.specs.Parts.{HeldOf};
    ghost use Rattle.bundle_merge_modules.specs.Calls.{groups_of};

    ghost Value = { HeldOf T };

    ghost view = { λ parts. record { prepended = owned (groups_of parts.prepended); bodies = owned (groups_of parts.bodies); appended = owned (groups_of parts.appended) } };

    ghost invariant = { λ parts. AreGroupsTidy (groups_of parts.prepended) × AreGroupsTidy (groups_of parts.bodies) × AreGroupsTidy (groups_of parts.appended) };
}

impl<T: Drop> Parts<T> {
    /// No items. It takes no memory.
    pub fn empty(alloc: Global) -> Parts<T>
        ensures { result ≡ nothing }
    {
        Parts {
            prepended: ModuleItems::new(alloc),
            bodies: ModuleItems::new(alloc),
            appended: ModuleItems::new(alloc),
        }
    }

    /// The items of one module, as its body.
    pub fn from(alloc: Global, id: ModuleId, items: Vec<T>) -> Result<Parts<T>, AllocError>
        ensures { IfOk result (λ parts. parts ≡ body_held id items.items) }
    {
        let mut parts = Parts::empty(alloc);
        parts.bodies.extend(id, items)?;
        Ok(parts)
    }

    /// Adds an item in front, behind those that are there. Refused only where memory runs out, and then nothing is
    /// added.
    pub fn prepend(&mut self, id: ModuleId, item: T) -> Result<(), AllocError>
        ensures put { OnOk result
            (self.new ≡ record self.old { prepended = put_last self.old.prepended (id, item) }) }
        ensures refused { OnErr result (self.new ≡ self.old) }
    {
        self.prepended.push(id, item)
    }

    /// Adds an item behind. Refused only where memory runs out, and then nothing is added.
    pub fn append(&mut self, id: ModuleId, item: T) -> Result<(), AllocError>
        ensures put { OnOk result
            (self.new ≡ record self.old { appended = put_last self.old.appended (id, item) }) }
        ensures refused { OnErr result (self.new ≡ self.old) }
    {
        self.appended.push(id, item)
    }

    /// Adds items behind, each in turn. Refused only where memory runs out, and then nothing is added.
    pub fn append_all(&mut self, items: Vec<(ModuleId, T)>) -> Result<(), AllocError>
        ensures put { OnOk result
            (self.new
            ≡ record self.old { appended = put_in_turn self.old.appended items.items }) }
        ensures refused { OnErr result (self.new ≡ self.old) }
    {
        let more = ModuleItems::collected(*self.appended.modules.allocator(), items)?;
        self.appended.append(more)?;
        Ok(())
    }

    /// Adds each part of others behind the same part. Refused only where memory runs out, and then nothing is added.
    pub fn push_all(&mut self, other: Parts<T>) -> Result<(), AllocError>
        ensures put { OnOk result (self.new ≡ held_joined self.old other) }
        ensures refused { OnErr result (self.new ≡ self.old) }
    {
        let Parts {
            prepended,
            bodies,
            appended,
        } = other;
        let first = self.prepended.append(prepended)?;
        match append_both(&mut self.bodies, bodies, &mut self.appended, appended) {
            Ok(()) => Ok(()),
            Err(refusal) => {
                self.prepended.take_back(first);
                Err(refusal)
            }
        }
    }

    /// All items, each with the number of its module: the parts in turn.
    pub fn iter(&self) -> Iter<'_, T>
        ensures { result ≡ all_in_order self.now }
    {
        Iter::new(&self.prepended, &self.bodies, &self.appended)
    }

    /// Puts what `f` answers in the place of each module's items, part by part. Refused only where `f` refuses and where
    /// memory runs out, and then nothing changes.
    pub fn map_any_items<F, E: From<AllocError> + Drop>(&mut self, f: &F) -> Result<(), E>
    where
        F: Fn(ModuleId, &[T]) -> Result<Vec<T>, E>,
        requires { F.IsAlwaysCallable f.now }
        ensures answered { OnOk result (MapsListsOf (AnswersOf (F.post f.now)) self.old self.new) }
        ensures refused { OnErr result (self.new ≡ self.old) }
        ensures why { IfErr result (λ refusal. E.from_gives alloc_error refusal
            ⊎ RefusesListOf (F.post f.now) refusal (lists_in_order_of self.old)) }
    {
        let prepended = self.prepended.mapped(f)?;
        let bodies = self.bodies.mapped(f)?;
        let appended = self.appended.mapped(f)?;
        *self = Parts {
            prepended,
            bodies,
            appended,
        };
        Ok(())
    }

    /// Puts what `f` answers in the place of each item. Refused only where `f` refuses and where memory runs out, and
    /// then nothing changes.
    pub fn map_items_mut<F, E: From<AllocError> + Drop>(&mut self, f: &F) -> Result<(), E>
    where
        F: Fn(ModuleId, &T) -> Result<T, E>,
        requires { F.IsAlwaysCallable f.now }
        ensures answered { OnOk result (MapsItemsOf (RepliesOf (F.post f.now)) self.old self.new) }
        ensures refused { OnErr result (self.new ≡ self.old) }
        ensures why { IfErr result (λ refusal. E.from_gives alloc_error refusal
            ⊎ RefusesItemOf (F.post f.now) refusal (all_in_order self.old)) }
    {
        let prepended = self.prepended.mapped_items(f)?;
        let bodies = self.bodies.mapped_items(f)?;
        let appended = self.appended.mapped_items(f)?;
        *self = Parts {
            prepended,
            bodies,
            appended,
        };
        Ok(())
    }

    /// Puts what `f` answers in the place of each item; where it answers none the item goes. Refused only where `f`
    /// refuses and where memory runs out, and then nothing changes.
    pub fn map_some_items<F, E: From<AllocError> + Drop>(&mut self, f: &F) -> Result<(), E>
    where
        F: Fn(ModuleId, &T) -> Result<Option<T>, E>,
        requires { F.IsAlwaysCallable f.now }
        ensures answered { OnOk result (MapsSomeOf (PicksOf (F.post f.now)) self.old self.new) }
        ensures refused { OnErr result (self.new ≡ self.old) }
        ensures why { IfErr result (λ refusal. E.from_gives alloc_error refusal
            ⊎ RefusesPickOf (F.post f.now) refusal (all_in_order self.old)) }
    {
        let prepended = self.prepended.picked(f)?;
        let bodies = self.bodies.picked(f)?;
        let appended = self.appended.picked(f)?;
        *self = Parts {
            prepended,
            bodies,
            appended,
        };
        Ok(())
    }

    /// Keeps the items for which `f` answers true.
    pub fn retain_mut<F>(&mut self, f: &F)
    where
        F: Fn(ModuleId, &T) -> bool,
        requires { F.IsAlwaysCallable f.now }
        ensures { RetainsOf (AsksOf (F.post f.now)) self.old self.new }
    {
        self.prepended.retain(f);
        self.bodies.retain(f);
        self.appended.retain(f);
    }

    /// Puts all items into this order of their places in turn, as the body of one module. An order that has not as
    /// many places as there are items changes nothing. Refused only where memory runs out, and then nothing changes.
    pub fn arrange(&mut self, id: ModuleId, order: &[usize]) -> Result<(), AllocError>
        ensures arranged { OnOk result
            (length order.now ≡ length (items_held self.old) →
            IsArrangedAs id order.now self.old self.new) }
        ensures other { OnOk result
            (length order.now ≢ length (items_held self.old) → self.new ≡ self.old) }
        ensures refused { OnErr result (self.new ≡ self.old) }
    {
        if self.is_count(order.len()) {
            return self.put_in_order(id, order);
        }
        Ok(())
    }

    // Whether there are so many items.
    fn is_count(&self, count: usize) -> bool
        ensures { IsTrue result ↔ (count ≡ length (items_held self.now)) }
    {
        match self.count() {
            Some(items) => items == count,
            None => false,
        }
    }

    // How many items there are, if a number holds it.
    fn count(&self) -> Option<usize>
        ensures { SomeIff result (length (items_held self.now) < 2 ^ 64)
            (length (items_held self.now)) }
    {
        let prepended = self.prepended.count(0)?;
        let count = self.bodies.count(prepended)?;
        self.appended.count(count)
    }

    // Puts all items into an order of as many places.
    fn put_in_order(&mut self, id: ModuleId, order: &[usize]) -> Result<(), AllocError>
        requires { length order.now ≡ length (items_held self.old) }
        ensures arranged { OnOk result (IsArrangedAs id order.now self.old self.new) }
        ensures refused { OnErr result (self.new ≡ self.old) }
    {
        let alloc = *self.bodies.modules.allocator();
        let shuffle = Shuffle::new(alloc, order.len())?;
        let mut items = Vec::with_capacity(alloc, order.len())?;
        let body = ModuleItems::with_room(alloc)?;
        self.pour(&mut items);
        shuffle.arrange(&mut items, order);
        self.fill(body, id, items);
        Ok(())
    }

    // Moves all items behind these, where there is room.
    fn pour(&mut self, all: &mut Vec<T>)
        requires { vec_len all.old + length (items_held self.old) ≤ vec_capacity all.old }
        ensures items { all.new.items ≡ all.old.items ++ items_held self.old }
        ensures none { self.new ≡ nothing }
    {
        let empty = Parts::empty(*self.bodies.modules.allocator());
        let Parts {
            prepended,
            bodies,
            appended,
        } = mem::replace(self, empty);
        prepended.pour(all);
        bodies.pour(all);
        appended.pour(all);
    }

    // Puts these items of one module, where none are, into a part without items that has room for one module.
    fn fill(&mut self, body: ModuleItems<T>, id: ModuleId, items: Vec<T>)
        requires none { self.old ≡ nothing }
        requires empty { groups_of body ≡ [] }
        requires room { 0 < spare body.modules }
        ensures { self.new ≡ body_held id items.items }
    {
        let mut bodies = body;
        bodies.fill(id, items);
        self.bodies = bodies;
    }

    /// The items in turn, without their modules.
    pub fn into_items(self) -> Result<Vec<T>, AllocError>
        ensures { IfOk result (λ items. items.items ≡ items_held self) }
    {
        let mut items = Vec::new(*self.bodies.modules.allocator());
        let Parts {
            prepended,
            bodies,
            appended,
        } = self;
        prepended.move_into(&mut items)?;
        bodies.move_into(&mut items)?;
        appended.move_into(&mut items)?;
        Ok(items)
    }
}

// Adds items behind those of two parts; where it is refused, nothing is added.
fn append_both<T: Drop>(
    a: &mut ModuleItems<T>,
    more_of_a: ModuleItems<T>,
    b: &mut ModuleItems<T>,
    more_of_b: ModuleItems<T>,
) -> Result<(), AllocError>
    ensures first { OnOk result
        (groups_of a.new ≡ put_all (groups_of a.old) (groups_of more_of_a)) }
    ensures second { OnOk result
        (groups_of b.new ≡ put_all (groups_of b.old) (groups_of more_of_b)) }
    ensures same { OnErr result (groups_of a.new ≡ groups_of a.old) }
    ensures unchanged { OnErr result (groups_of b.new ≡ groups_of b.old) }
{
    let noted = a.append(more_of_a)?;
    match b.append(more_of_b) {
        Ok(_) => Ok(()),
        Err(refusal) => {
            a.take_back(noted);
            Err(refusal)
        }
    }
}

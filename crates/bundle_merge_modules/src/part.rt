//! One part of what a linker holds.

ghost use Rattle.std.specs.Prelude.{◌≡◌, ◌+◌, ◌^◌, ◌<◌, ◌≤◌, [], ◌∷◌, ◌++◌, ◌⊎◌, alloc_error, map, length, vec_len, vec_capacity, IfErr, IfOk, OnOk, OnErr, SomeIff};
ghost use Rattle.bundle_merge_modules.specs.Calls.{AnswersOf, AsksOf, PicksOf, RefusesItemOf, RefusesListOf, RefusesPickOf, RepliesOf, groups_of};
ghost use Rattle.bundle_merge_modules.specs.Parts.{owned_by_module};
ghost use Rattle.bundle_merge_modules.specs.Groups.{AreItemsKept, IsMapped, IsSifted, ItemsAnswered, ItemsPicked, PickedOf, count_of, cut, is_any, owned, put_items, put_any, put_all, put_each, undone};
ghost use Rattle.std.specs.List.{AllZip};
ghost use Rattle.indexmap.specs.IndexMap.{spare};

use bundle_tree_names::ModuleId;
use indexmap::IndexMap;
use std::alloc::{AllocError, Global};

// A module, and how many items it had before it got more, if it had a place.
pub(crate) type Noted = (ModuleId, Option<usize>);

/// Items by module, as the modules first came. No module stands there without an item.
#[derive(Drop)]
pub(crate) struct ModuleItems<T> {
    pub(crate) modules: IndexMap<ModuleId, Vec<T>>,
}

impl<T: Drop> ModuleItems<T> {
    /// No items.
    pub(crate) fn new(alloc: Global) -> ModuleItems<T>
        ensures { groups_of result ≡ [] }
    {
        ModuleItems {
            modules: IndexMap::new(alloc),
        }
    }

    /// No items, with room for those of one module.
    pub(crate) fn with_room(alloc: Global) -> Result<ModuleItems<T>, AllocError>
        ensures empty { IfOk result (λ part. groups_of part ≡ []) }
        ensures room { IfOk result (λ part. 0 < spare part.modules) }
    {
        Ok(ModuleItems {
            modules: IndexMap::with_capacity(alloc, 1)?,
        })
    }

    /// These items, each behind the last one of its module.
    pub(crate) fn collected(
        alloc: Global,
        items: Vec<(ModuleId, T)>,
    ) -> Result<ModuleItems<T>, AllocError>
        ensures { IfOk result (λ part. groups_of part ≡ put_each [] items.items) }
    {
        let mut part = ModuleItems::new(alloc);
        for pair in items {
            let (id, item) = pair;
            part.push(id, item)?;
        }
        Ok(part)
    }

    /// Adds an item behind the last one of its module.
    pub(crate) fn push(&mut self, id: ModuleId, item: T) -> Result<(), AllocError>
        ensures put { OnOk result
            (groups_of self.new ≡ put_items (groups_of self.old) id (item ∷ [])) }
        ensures refused { OnErr result (groups_of self.new ≡ groups_of self.old) }
    {
        if let Some(items) = self.modules.get_mut(&id) {
            items.push(item)?;
            return Ok(());
        }
        let mut items = Vec::new(*self.modules.allocator());
        items.push(item)?;
        self.modules.insert(id, items)?;
        Ok(())
    }

    /// Adds items behind the last one of their module.
    pub(crate) fn extend(&mut self, id: ModuleId, items: Vec<T>) -> Result<(), AllocError>
        ensures put { OnOk result
            (groups_of self.new ≡ put_any (groups_of self.old) id items.items) }
        ensures refused { OnErr result (groups_of self.new ≡ groups_of self.old) }
    {
        if items.is_empty() {
            return Ok(());
        }
        let mut more = items;
        if let Some(items) = self.modules.get_mut(&id) {
            items.append(&mut more)?;
            return Ok(());
        }
        self.modules.insert(id, more)?;
        Ok(())
    }

    // How many items a module has, if it has a place.
    fn count_of(&self, id: ModuleId) -> Option<usize>
        ensures { result ≡ count_of (groups_of self.now) id }
    {
        match self.modules.get(&id) {
            Some(items) => Some(items.len()),
            None => None,
        }
    }

    // Leaves that many items of a module; where it had no place, it has none again.
    fn cut(&mut self, id: ModuleId, count: Option<usize>)
        ensures { groups_of self.new ≡ cut (groups_of self.old) id count }
    {
        match count {
            Some(count) => {
                if let Some(items) = self.modules.get_mut(&id) {
                    items.truncate(count);
                }
            }
            None => {
                self.modules.shift_remove(&id);
            }
        }
    }

    // Adds items behind the last one of their module, and notes how many it had.
    fn extend_noted(
        &mut self,
        id: ModuleId,
        items: Vec<T>,
        log: &mut Vec<Noted>,
    ) -> Result<(), AllocError>
        ensures put { OnOk result
            (groups_of self.new ≡ put_any (groups_of self.old) id items.items) }
        ensures undone { undone log.new.items (groups_of self.new)
            ≡ undone log.old.items (groups_of self.old) }
    {
        log.push((id, self.count_of(id)))?;
        self.extend(id, items)
    }

    // Adds the items of another part behind those that are here, and notes what was there.
    fn append_noted(
        &mut self,
        other: ModuleItems<T>,
        log: &mut Vec<Noted>,
    ) -> Result<(), AllocError>
        ensures put { OnOk result
            (groups_of self.new ≡ put_all (groups_of self.old) (groups_of other)) }
        ensures undone { undone log.new.items (groups_of self.new)
            ≡ undone log.old.items (groups_of self.old) }
    {
        for (id, items) in other.modules {
            self.extend_noted(id, items, log)?;
        }
        Ok(())
    }

    /// Adds the items of another part behind those that are here, and gives what takes them back.
    pub(crate) fn append(&mut self, other: ModuleItems<T>) -> Result<Vec<Noted>, AllocError>
        ensures put { OnOk result
            (groups_of self.new ≡ put_all (groups_of self.old) (groups_of other)) }
        ensures undone { IfOk result (λ log.
            undone log.items (groups_of self.new) ≡ groups_of self.old) }
        ensures refused { OnErr result (groups_of self.new ≡ groups_of self.old) }
    {
        let mut log = Vec::new(*self.modules.allocator());
        match self.append_noted(other, &mut log) {
            Ok(()) => Ok(log),
            Err(refusal) => {
                self.take_back(log);
                Err(refusal)
            }
        }
    }

    /// Takes back what was added, the last first.
    pub(crate) fn take_back(&mut self, log: Vec<Noted>)
        ensures { groups_of self.new ≡ undone log.items (groups_of self.old) }
    {
        let mut rest = log;
        while let Some(noted) = rest.pop() {
            self.cut(noted.0, noted.1);
        }
    }

    /// The part in which what `f` answers stands in the place of each module's items.
    pub(crate) fn mapped<F, E: From<AllocError> + Drop>(&self, f: &F) -> Result<ModuleItems<T>, E>
    where
        F: Fn(ModuleId, &[T]) -> Result<Vec<T>, E>,
        requires { F.IsAlwaysCallable f.now }
        ensures mapped { IfOk result (λ mapped.
            IsMapped (AnswersOf (F.post f.now)) [] (groups_of self.now) (groups_of mapped)) }
        ensures why { IfErr result (λ refusal. E.from_gives alloc_error refusal
            ⊎ RefusesListOf (F.post f.now) refusal (groups_of self.now)) }
    {
        let mut mapped = ModuleItems::new(*self.modules.allocator());
        for (id, items) in &self.modules {
            let answer = f(*id, items.as_slice())?;
            mapped.extend(*id, answer)?;
        }
        Ok(mapped)
    }

    /// The part in which what `f` answers stands in the place of each item.
    pub(crate) fn mapped_items<F, E: From<AllocError> + Drop>(
        &self,
        f: &F,
    ) -> Result<ModuleItems<T>, E>
    where
        F: Fn(ModuleId, &T) -> Result<T, E>,
        requires { F.IsAlwaysCallable f.now }
        ensures mapped { IfOk result (λ mapped.
            IsMapped (ItemsAnswered (RepliesOf (F.post f.now))) [] (groups_of self.now)
            (groups_of mapped)) }
        ensures why { IfErr result (λ refusal. E.from_gives alloc_error refusal
            ⊎ RefusesItemOf (F.post f.now) refusal (owned (groups_of self.now))) }
    {
        let alloc = *self.modules.allocator();
        let mut mapped = ModuleItems::new(alloc);
        for (id, items) in &self.modules {
            let answer = replies(alloc, f, *id, items.as_slice())?;
            mapped.extend(*id, answer)?;
        }
        Ok(mapped)
    }

    /// The part in which what `f` answers stands in the place of each item; where it answers none the item is left out.
    pub(crate) fn picked<F, E: From<AllocError> + Drop>(&self, f: &F) -> Result<ModuleItems<T>, E>
    where
        F: Fn(ModuleId, &T) -> Result<Option<T>, E>,
        requires { F.IsAlwaysCallable f.now }
        ensures mapped { IfOk result (λ picked.
            IsMapped (ItemsPicked (PicksOf (F.post f.now))) [] (groups_of self.now)
            (groups_of picked)) }
        ensures why { IfErr result (λ refusal. E.from_gives alloc_error refusal
            ⊎ RefusesPickOf (F.post f.now) refusal (owned (groups_of self.now))) }
    {
        let alloc = *self.modules.allocator();
        let mut mapped = ModuleItems::new(alloc);
        for (id, items) in &self.modules {
            let answer = picks(alloc, f, *id, items.as_slice())?;
            mapped.extend(*id, answer)?;
        }
        Ok(mapped)
    }

    /// Keeps the items for which `f` answers true.
    pub(crate) fn retain<F>(&mut self, f: &F)
    where
        F: Fn(ModuleId, &T) -> bool,
        requires { F.IsAlwaysCallable f.now }
        ensures { AreItemsKept (AsksOf (F.post f.now)) (groups_of self.old) (groups_of self.new) }
    {
        self.modules.retain(|id, items| sift(f, *id, items));
    }

    /// How many items there are besides so many, if a number holds it.
    pub(crate) fn count(&self, besides: usize) -> Option<usize>
        ensures { SomeIff result (besides + length (owned (groups_of self.now)) < 2 ^ 64)
            (besides + length (owned (groups_of self.now))) }
    {
        let mut count = besides;
        for (_, items) in &self.modules {
            match count.checked_add(items.len()) {
                Some(sum) => count = sum,
                None => return None,
            }
        }
        Some(count)
    }

    /// Puts these items of one module where none are, and there is room for one module. It takes no memory.
    pub(crate) fn fill(&mut self, id: ModuleId, items: Vec<T>)
        requires empty { groups_of self.old ≡ [] }
        requires room { 0 < spare self.old.modules }
        ensures { groups_of self.new ≡ put_any [] id items.items }
    {
        if !items.is_empty() {
            let _room = self.modules.insert(id, items);
        }
    }

    /// Puts the items behind these, module by module, where there is room. It takes no memory.
    pub(crate) fn pour(self, all: &mut Vec<T>)
        requires { vec_len all.old + length (owned (groups_of self)) ≤ vec_capacity all.old }
        ensures items { all.new.items
            ≡ all.old.items ++ map (λ o. o.1) (owned (groups_of self)) }
        ensures room { vec_capacity all.old ≤ vec_capacity all.new }
    {
        for (_, items) in self.modules {
            let mut items = items;
            let _room = all.append(&mut items);
        }
    }

    /// Puts the items behind these, module by module.
    pub(crate) fn move_into(self, all: &mut Vec<T>) -> Result<(), AllocError>
        ensures { OnOk result
            (all.new.items ≡ all.old.items ++ map (λ o. o.1) (owned (groups_of self))) }
    {
        for (_, items) in self.modules {
            let mut items = items;
            all.append(&mut items)?;
        }
        Ok(())
    }
}

// What `f` answers for each item of a module.
fn replies<T: Drop, F, E: From<AllocError> + Drop>(
    alloc: Global,
    f: &F,
    id: ModuleId,
    items: &[T],
) -> Result<Vec<T>, E>
where
    F: Fn(ModuleId, &T) -> Result<T, E>,
    requires { F.IsAlwaysCallable f.now }
    ensures replies { IfOk result (λ replies.
        AllZip (RepliesOf (F.post f.now) id) items.now replies.items) }
    ensures why { IfErr result (λ refusal. E.from_gives alloc_error refusal
        ⊎ RefusesItemOf (F.post f.now) refusal (owned_by_module id items.now)) }
{
    let mut replies = Vec::new(alloc);
    for item in items {
        let reply = f(id, item)?;
        if let Err(refusal) = replies.push(reply) {
            return Err(AllocError::from(refusal).into());
        }
    }
    Ok(replies)
}

// What `f` answers for the items of a module, where it answers one.
fn picks<T: Drop, F, E: From<AllocError> + Drop>(
    alloc: Global,
    f: &F,
    id: ModuleId,
    items: &[T],
) -> Result<Vec<T>, E>
where
    F: Fn(ModuleId, &T) -> Result<Option<T>, E>,
    requires { F.IsAlwaysCallable f.now }
    ensures picks { IfOk result (λ picks. PickedOf (PicksOf (F.post f.now) id) items.now picks.items) }
    ensures why { IfErr result (λ refusal. E.from_gives alloc_error refusal
        ⊎ RefusesPickOf (F.post f.now) refusal (owned_by_module id items.now)) }
{
    let mut picks = Vec::new(alloc);
    for item in items {
        let Some(reply) = f(id, item)? else {
            continue;
        };
        if let Err(refusal) = picks.push(reply) {
            return Err(AllocError::from(refusal).into());
        }
    }
    Ok(picks)
}

// Keeps the items of a module for which `f` answers true, and tells whether there are any.
fn sift<T: Drop, F>(f: &F, id: ModuleId, items: &mut Vec<T>) -> bool
where
    F: Fn(ModuleId, &T) -> bool,
    requires { F.IsAlwaysCallable f.now }
    ensures sifted { IsSifted (AsksOf (F.post f.now) id) items.old.items items.new.items }
    ensures any { result ≡ is_any items.new.items }
{
    items.retain(|item| f(id, item));
    !items.is_empty()
}

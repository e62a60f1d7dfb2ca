//! The items of modules in turn.

ghost use Rattle.std.specs.Prelude.{◌≡◌, [], ◌++◌, length};
ghost use Rattle.std.specs.Iterator.{at_most};
ghost use Rattle.std.specs.Map.Iter.{TakesFirst};
ghost use Rattle.bundle_merge_modules.specs.Calls.{groups_of};
ghost use Rattle.bundle_merge_modules.specs.Groups.{owned};
ghost use Rattle.bundle_merge_modules.specs.Rest.{deref_owned, rest_behind, rest_of_part};

use crate::part::ModuleItems;
use bundle_tree_names::ModuleId;
use indexmap::map;
use std::marker::Model;

/// All items, each with the number of its module: those in front, the bodies, and those behind. It is seen as the list
/// of what is left.
#[derive(Drop)]
pub struct Iter<'a, T> {
    /// The part that is gone through, and those behind it.
    part: PartIter<'a, T>,
    bodies: Option<&'a ModuleItems<T>>,
    appended: Option<&'a ModuleItems<T>>,
}

impl<'a, T> Model for Iter<'a, T> {
    ghost use Rattle.std.specs.Prelude.{List, ◌++◌};
    ghost use Rattle.bundle_merge_modules.specs.Parts.{OwnedOf};
    ghost use Rattle.bundle_merge_modules.specs.Rest.{rest_behind, rest_of_part};

    ghost Value = { List (OwnedOf T) };

    ghost view = { λ i. rest_of_part i.part ++ (rest_behind i.bodies ++ rest_behind i.appended) };
}

impl<'a, T: Drop> Iter<'a, T> {
    pub(crate) fn new(
        prepended: &'a ModuleItems<T>,
        bodies: &'a ModuleItems<T>,
        appended: &'a ModuleItems<T>,
    ) -> Iter<'a, T>
        ensures { result
            ≡ owned (groups_of prepended.now)
            ++ (owned (groups_of bodies.now) ++ owned (groups_of appended.now)) }
    {
        Iter {
            part: PartIter::new(prepended),
            bodies: Some(bodies),
            appended: Some(appended),
        }
    }
}

impl<'a, T: Drop> Iterator for Iter<'a, T> {
    type Item = (ModuleId, &'a T);

    ghost next_gives = { TakesFirst deref_owned };

    ghost remaining = { λ s. at_most (length s) };

    fn next(&mut self) -> Option<(ModuleId, &'a T)> {
        if let Some(pair) = self.part.next_item() {
            return Some(pair);
        }
        self.part.begin(self.bodies.take());
        if let Some(pair) = self.part.next_item() {
            return Some(pair);
        }
        self.part.begin(self.appended.take());
        self.part.next_item()
    }
}

/// The items of one part.
#[derive(Drop)]
pub(crate) struct PartIter<'a, T> {
    /// The module that is gone through, and its items that are left.
    id: ModuleId,
    items: &'a [T],
    /// The modules behind it.
    groups: map::Iter<'a, ModuleId, Vec<T>>,
}

impl<'a, T: Drop> PartIter<'a, T> {
    fn new(part: &'a ModuleItems<T>) -> PartIter<'a, T>
        ensures { rest_of_part result ≡ owned (groups_of part.now) }
    {
        PartIter {
            id: ModuleId::from_u32(0),
            items: &[],
            groups: part.modules.iter(),
        }
    }

    // Goes on to another part, if there is one, where nothing is left.
    fn begin(&mut self, part: Option<&'a ModuleItems<T>>)
        requires { rest_of_part self.old ≡ [] }
        ensures { rest_of_part self.new ≡ rest_behind part.entry }
    {
        if let Some(part) = part {
            *self = PartIter::new(part);
        }
    }

    // Goes on to the next item.
    fn next_item(&mut self) -> Option<(ModuleId, &'a T)>
        ensures { TakesFirst deref_owned (rest_of_part self.old) result (rest_of_part self.new) }
    {
        self.settle();
        let items = self.items;
        match items.split_first() {
            Some((item, rest)) => {
                self.items = rest;
                Some((self.id, item))
            }
            None => None,
        }
    }

    // Goes on to a module of which items are left.
    fn settle(&mut self)
        ensures same { rest_of_part self.new ≡ rest_of_part self.old }
        ensures settled { self.new.items.now ≡ [] → self.new.groups ≡ [] }
    {
        while self.items.is_empty() {
            match self.groups.next() {
                Some((id, items)) => {
                    self.id = *id;
                    self.items = items.as_slice();
                }
                None => return,
            }
        }
    }
}

//! Where the items of each module stand, and which modules are among some.

ghost use Rattle.std.specs.Prelude.{◌≡◌, ℕ, ◌||◌, ◌∷◌, ◌++◌, [], nat_eq, IfOk, List, OnOk, length, map};
ghost use Rattle.std.specs.List.{list_any};
ghost use Rattle.bundle_order_sort.specs.Places.{is_in_some, places_of};
ghost use Rattle.bundle_order_sort.specs.Rows.{AreRows, row};

use bundle_tree_names::ModuleId;
use indexmap::IndexSet;
use std::alloc::{AllocError, Global};

/// Modules, each with the places of its items.
#[derive(Drop)]
pub(crate) struct Table {
    pub(crate) modules: IndexSet<ModuleId>,
    pub(crate) rows: Vec<Vec<usize>>,
}

impl Table {
    // No modules.
    fn new(alloc: Global) -> Table
        ensures { AreRows result [] }
    {
        Table {
            modules: IndexSet::new(alloc),
            rows: Vec::new(alloc),
        }
    }

    // Adds the place of one more item of a module.
    fn add(&mut self, alloc: Global, id: ModuleId, place: usize) -> Result<(), AllocError>
        ensures { OnOk result
            ((owners : List ℕ) →
            AreRows self.old owners →
            place ≡ length owners →
            AreRows self.new (owners ++ id ∷ [])) }
    {
        match self.modules.get_index_of(&id) {
            Some(at) => {
                if at < self.rows.len() {
                    let row = &mut self.rows[at];
                    row.push(place)?;
                }
            }
            None => {
                let mut row = Vec::new(alloc);
                row.push(place)?;
                self.rows.push(row)?;
                self.modules.insert(id)?;
            }
        }
        Ok(())
    }

    /// The places of the items of a module.
    pub(crate) fn row(&self, id: ModuleId) -> &[usize]
        ensures { (owners : List ℕ) →
            AreRows self.now owners → result.now ≡ row self.now id }
    {
        match self.modules.get_index_of(&id) {
            Some(at) => match self.rows.get(at) {
                Some(row) => row.as_slice(),
                None => &[],
            },
            None => &[],
        }
    }
}

/// The places of the items of each module, where these are the modules of all items.
pub(crate) fn table_of(alloc: Global, owners: &[ModuleId]) -> Result<Table, AllocError>
    ensures { IfOk result (λ table. AreRows table owners.now) }
{
    let mut table = Table::new(alloc);
    for (place, owner) in owners.iter().enumerate() {
        table.add(alloc, *owner, place)?;
    }
    Ok(table)
}

/// Adds modules to a set.
pub(crate) fn add_all(set: &mut IndexSet<ModuleId>, modules: &[ModuleId]) -> Result<(), AllocError>
    ensures { OnOk result
        ((m : ℕ) →
        list_any (nat_eq m) set.new.keys
        ≡ (list_any (nat_eq m) set.old.keys || list_any (nat_eq m) modules.now)) }
{
    for id in modules {
        set.insert(*id)?;
    }
    Ok(())
}

/// The modules that are in some of these lists.
pub(crate) fn all_of(
    alloc: Global,
    lists: &[Vec<ModuleId>],
) -> Result<IndexSet<ModuleId>, AllocError>
    ensures { IfOk result (λ set.
        (m : ℕ) →
        list_any (nat_eq m) set.keys ≡ is_in_some m (map (λ v. v.items) lists.now)) }
{
    let mut set = IndexSet::new(alloc);
    for list in lists {
        add_all(&mut set, list)?;
    }
    Ok(set)
}

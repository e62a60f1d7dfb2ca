//! The sort of statements.

ghost use Rattle.std.specs.Prelude.{◌≡◌, ℕ, ◌++◌, ◌∷◌, [], IfErr, IfOk, IsPermutation, List, OnErr, OnOk, length, map};
ghost use Rattle.std.specs.List.{flat_map};
ghost use Rattle.bundle_syntax.specs.Item.{Item};
ghost use Rattle.bundle_tree_listed.specs.Tree.{module_item_items};
ghost use Rattle.bundle_rules.specs.Sorting.{IsSorted, numbered_items};
ghost use Rattle.bundle_order.specs.Numbering.{IsOwnOrder, IsSortedBy, owners_of};

use crate::block::{own_places, sorted_places};
use crate::group::lists_of;
use bundle_order_sort::arrange;
use bundle_tree_ast::{Module, ModuleItem};
use bundle_tree_names::Error;
use std::alloc::{AllocError, Global};

/// The items of all modules in one order, each once: after what they need, and in the order of their module. An
/// item that the linker noted as its own is free: its module's order does not bind it. Refused only where memory
/// runs out.
pub fn sort_stmts(alloc: Global, modules: Vec<Vec<ModuleItem>>) -> Result<Vec<ModuleItem>, Error>
    ensures sorted { IfOk result (λ sorted.
        IsSorted (map (λ items. map (module_item_items 0) items.items) modules.items)
        (map (module_item_items 0) sorted.items)) }
    ensures moved { IfOk result (λ sorted.
        IsPermutation (flat_map (λ items. items.items) modules.items) sorted.items) }
    ensures refused { IfErr result (λ refusal. refusal ≡ Error.OutOfMemory) }
{
    let owners = owners_in(alloc, &modules);
    let joined = joined(alloc, modules);
    let owners = owners?;
    let mut joined = joined?;
    let order = order_of(alloc, joined.body.as_slice(), &owners)?;
    arrange(alloc, &mut joined.body, &order)?;
    Ok(joined.into_body())
}

/// The items of one module in their order, and then those that the linker noted as its own. Refused only where
/// memory runs out.
pub fn in_own_order(alloc: Global, items: Vec<ModuleItem>) -> Result<Vec<ModuleItem>, Error>
    ensures listed { IfOk result (λ listed.
        map (module_item_items 0) listed.items
        ≡ map (λ one. one.0) (numbered_items (map (module_item_items 0) items.items ∷ []))) }
    ensures moved { IfOk result (λ listed. IsPermutation items.items listed.items) }
    ensures refused { IfErr result (λ refusal. refusal ≡ Error.OutOfMemory) }
{
    let mut all = Module { body: items };
    let order = own_order_of(alloc, all.body.as_slice())?;
    arrange(alloc, &mut all.body, &order)?;
    Ok(all.into_body())
}

// The places of the items of one module, the free ones last.
fn own_order_of(alloc: Global, items: &[ModuleItem]) -> Result<Vec<usize>, AllocError>
    ensures { IfOk result (λ order. IsOwnOrder (map (module_item_items 0) items.now) order.items) }
{
    let lists = lists_of(alloc, items)?;
    own_places(alloc, &lists)
}

// The numbers of the modules of the items.
fn owners_in(alloc: Global, modules: &[Vec<ModuleItem>]) -> Result<Vec<usize>, AllocError>
    ensures { IfOk result (λ owners.
        owners.items ≡ owners_of 0 (map (λ v. v.items) modules.now)) }
{
    let mut owners = Vec::new(alloc);
    for (number, items) in modules.iter().enumerate() {
        add_owner(&mut owners, number, items)?;
    }
    Ok(owners)
}

// Adds the number of a module for each of its items.
fn add_owner(owners: &mut Vec<usize>, number: usize, items: &[ModuleItem]) -> Result<(), AllocError>
    ensures { OnOk result
        (owners.new.items ≡ owners.old.items ++ map (λ item. number) items.now) }
{
    for _ in 0..items.len() {
        owners.push(number)?;
    }
    Ok(())
}

// All items, as they stand. They are let go of as modules, which a call does.
fn joined(alloc: Global, modules: Vec<Vec<ModuleItem>>) -> Result<Module, AllocError>
    ensures { IfOk result (λ all.
        all.body.items ≡ flat_map (λ items. items.items) modules.items) }
{
    let mut rest = modules;
    let mut all = Module {
        body: Vec::new(alloc),
    };
    let mut is_refused = false;
    rest.reverse();
    while let Some(items) = rest.pop() {
        let mut part = Module { body: items };
        is_refused = is_refused || all.body.append(&mut part.body).is_err();
    }
    rest.destroy_empty();
    if is_refused {
        return Err(AllocError);
    }
    Ok(all)
}

// The places of the items in the order in which they are to stand, where these are the numbers of their modules.
fn order_of(alloc: Global, items: &[ModuleItem], owners: &[usize]) -> Result<Vec<usize>, AllocError>
    requires { length owners.now ≡ length items.now }
    ensures { IfOk result (λ order.
        (modules : List (List (List Item))) →
        map (module_item_items 0) items.now ≡ flat_map (λ items. items) modules →
        owners.now ≡ owners_of 0 modules →
        IsSortedBy modules (map (module_item_items 0) items.now) order.items) }
{
    let lists = lists_of(alloc, items)?;
    let order = sorted_places(alloc, &lists, owners)?;
    Ok(order)
}

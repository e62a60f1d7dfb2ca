//! Items of modules made anew, with other identifiers at their occurrences, what an item states in a bundle, and
//! copies. What is short is spelled out where a change asks for it, so that keys and exported names stay.
#![tactic(auto)]

pub mod stated;
pub mod try_clone;

ghost use Rattle.std.specs.Prelude.{◌≡◌, IfOk, map};
ghost use Rattle.std.specs.List.{flat_map};
ghost use Rattle.bundle_tree_listed.specs.Tree.{module_item_items};
ghost use Rattle.bundle_rules.specs.Rebuilds.{rebuilt};
ghost use Rattle.bundle_tree_places.specs.Changes.{change_of};

use bundle_tree_ast::ModuleItem;
use bundle_tree_list::pieces;
use bundle_tree_parse::{make_node, make_nodes};
use bundle_tree_places::Change;
use bundle_tree_rebuild::changed_pieces;
pub use bundle_tree_rebuild::{Rewrite, Rewriting, Whole};
pub use stated::{rewritten_object, stated_item};
use std::alloc::{AllocError, Global};
use std::slice::from_ref;

/// The items made anew, with these changes of their occurrences in turn; an occurrence for which no change is
/// left stays, so without changes this is a copy. Refused only where memory runs out.
#[tactic(auto, using(crate::proofs::Making::making))]
pub fn rebuild_items(
    alloc: Global,
    items: &[ModuleItem],
    changes: &[Change],
) -> Result<Vec<ModuleItem>, AllocError>
    ensures { IfOk result (λ made.
        flat_map (module_item_items 0) made.items
        ≡ rebuilt (flat_map (module_item_items 0) items.now) (map change_of changes.now)) }
{
    let list = pieces(alloc, items)?;
    let made = changed_pieces(alloc, &list, changes)?;
    make_nodes(alloc, &made)
}

/// One item made anew, with these changes of its occurrences in turn. Refused only where memory runs out.
#[tactic(auto, using(crate::proofs::Making::making))]
pub fn rebuild_item(
    alloc: Global,
    item: &ModuleItem,
    changes: &[Change],
) -> Result<ModuleItem, AllocError>
    ensures { IfOk result (λ made.
        module_item_items 0 made
        ≡ rebuilt (module_item_items 0 item.now) (map change_of changes.now)) }
{
    let list = pieces(alloc, from_ref(item))?;
    let made = changed_pieces(alloc, &list, changes)?;
    make_node(alloc, &made)
}

pub use try_clone::TryClone;

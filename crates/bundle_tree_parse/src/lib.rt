//! The tree of a list (ECMA-262, 13 to 16): given where the list is one of a tree, and refused, but for memory, only
//! where it is the list of none.
#![tactic(auto)]

pub mod build;
pub mod classes;
pub mod decls;
pub mod exprs;
pub mod from_list;
pub mod modules;
pub mod names;
pub mod operators;
pub mod pats;
pub mod props;
pub mod stmts;

ghost use Rattle.std.specs.Prelude.{◌≡◌, IfErr, IfOk, map};
ghost use Rattle.std.specs.List.{flat_map};
ghost use Rattle.bundle_syntax.specs.Item.{item_of};
ghost use Rattle.bundle_tree_listed.specs.Tree.{key_value_prop_items, module_items};
ghost use Rattle.bundle_tree_parse.specs.declared.build.BuildError.TheVariants.{Form};
ghost use Rattle.bundle_tree_parse.specs.Refused.{IsListOfNoModule, IsListOfNoProperties};

pub use build::BuildError;
use bundle_syntax::Piece;
use bundle_tree_ast::{KeyValueProp, Module};
pub use from_list::{FromList, build_node, build_nodes, make_node, make_nodes};
use std::alloc::Global;

/// The module whose list this is: its list is just the one that is given. Refused where it is the list of no
/// module, and for memory.
pub fn build_module<'a>(alloc: Global, pieces: &[Piece<'a>]) -> Result<Module, BuildError>
    ensures made { IfOk result (λ it. module_items 0 it ≡ map item_of pieces.now) }
    ensures refused { IfErr result (λ why.
        why ≡ Form → IsListOfNoModule (map item_of pieces.now)) }
{
    build_node(alloc, pieces)
}

/// The properties whose lists stand here one after the other, each in field 0. Refused where it is not so,
/// and for memory.
pub fn build_properties<'a>(
    alloc: Global,
    pieces: &[Piece<'a>],
) -> Result<Vec<KeyValueProp>, BuildError>
    ensures made { IfOk result (λ list.
        flat_map (key_value_prop_items 0) list.items ≡ map item_of pieces.now) }
    ensures refused { IfErr result (λ why.
        why ≡ Form → IsListOfNoProperties (map item_of pieces.now)) }
{
    build_nodes(alloc, pieces)
}

//! Objects that are returned, and the object of a namespace.

ghost use Rattle.std.specs.Prelude.{◌≡◌, IfOk, map};
ghost use Rattle.bundle_tree_listed.specs.Tree.{stmt_items};
ghost use Rattle.bundle_rules.specs.Forms.{returned_object};
ghost use Rattle.bundle_tree_places.specs.Marks.{ident_of};
ghost use Rattle.bundle_merge_injected.specs.Listed as listed;
ghost use Rattle.bundle_merge_injected.specs.Listed.{pair_of};

use crate::list::PieceWriter;
use crate::name::Pair;
use bundle_tree_ast::{ExportMetadata, Stmt};
use bundle_tree_parse::make_node;
use bundle_tree_places::Name;
use std::alloc::{AllocError, Global};

/// `return { k: l, .. };`
pub(crate) fn return_object<'a>(alloc: Global, pairs: &[Pair<'a>]) -> Result<Stmt, AllocError>
    ensures { IfOk result (λ made. stmt_items 0 made ≡ returned_object (map pair_of pairs.now)) }
{
    let mut writer = PieceWriter::new(alloc);
    writer.returned_object(pairs)?;
    make_node(alloc, writer.as_slice())
}

/// `const object = function () { return { k: l, .. }; }();`, with these notes on the declaration. Its properties
/// are those of a namespace (ECMA-262, 10.4.6), in the order that is handed in. Refused only where memory runs
/// out.
pub fn namespace_object<'a, 'b>(
    alloc: Global,
    object: Name<'a>,
    pairs: &[Pair<'b>],
    notes: ExportMetadata,
) -> Result<Stmt, AllocError>
    ensures { IfOk result (λ made. stmt_items 0 made
        ≡ listed.namespace_object notes (ident_of object.entry) (map pair_of pairs.now)) }
{
    let mut writer = PieceWriter::new(alloc);
    writer.namespace_object(object, pairs, &notes)?;
    make_node(alloc, writer.as_slice())
}

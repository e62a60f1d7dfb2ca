//! The marks and the occurrences of the items of a module.

ghost use Rattle.std.specs.Prelude.{◌≡◌, IfOk, map};
ghost use Rattle.std.specs.List.{flat_map};
ghost use Rattle.bundle_tree_listed.specs.Tree.{module_item_items};
ghost use Rattle.bundle_rules.specs.Rebuilds as rebuilds;
ghost use Rattle.bundle_rules.specs.Rebuilds.{listed};
ghost use Rattle.bundle_tree_places.specs.Marks.{listed_of as lent_as, mark_of as lent_mark};
ghost use Rattle.bundle_marks.specs.Owned.{occurrence_listed, tree_mark_of};

use bundle_tree::Id;
use bundle_tree_ast::ModuleItem;
use bundle_tree_list::pieces;
use bundle_tree_names::SyntaxContext;
use bundle_tree_places as lent;
use bundle_tree_places::{Node, marks_of, occurrences_of};
use std::alloc::{AllocError, Global};

/// An identifier that binds a name or refers to one.
#[derive(Drop, PartialEq, Eq, Debug)]
pub struct Occurrence {
    pub id: Id,
    pub binding: bool,
}

/// One mark of a tree. `field` is the number of the field, from 0 on, in which a node lies in the node
/// around it.
#[derive(Drop, PartialEq, Eq, Debug)]
pub enum Mark<'a> {
    /// A node begins.
    Open { field: u8, node: Node<'a> },
    /// The innermost open node ends.
    Close,
    /// An identifier that binds or refers.
    Ident(Occurrence),
}

/// The marks of the items of a module, in their order: where each node begins and ends, and the identifiers
/// that bind or refer. The items stand in field 0, as in a `Module`. Refused only where memory runs out.
pub fn marks<'a>(alloc: Global, items: &'a [ModuleItem]) -> Result<Vec<Mark<'a>>, AllocError>
    ensures { IfOk result (λ marks.
        map tree_mark_of marks.items ≡ rebuilds.marks_of (flat_map (module_item_items 0) items.now)) }
{
    let marks = lent_marks(alloc, items)?;
    own_marks(alloc, &marks)
}

/// The identifiers that bind or refer in the items of a module, in their order (ECMA-262, 8.2). Refused only
/// where memory runs out.
pub fn occurrences(alloc: Global, items: &[ModuleItem]) -> Result<Vec<Occurrence>, AllocError>
    ensures { IfOk result (λ occurrences.
        map occurrence_listed occurrences.items ≡ listed (flat_map (module_item_items 0) items.now)) }
{
    let occurrences = lent_occurrences(alloc, items)?;
    own_occurrences(alloc, &occurrences)
}

// The marks of the items, with texts that are lent from them.
fn lent_marks<'a>(
    alloc: Global,
    items: &'a [ModuleItem],
) -> Result<Vec<lent::MarkRef<'a>>, AllocError>
    ensures { IfOk result (λ marks.
        map lent_mark marks.items
        ≡ rebuilds.marks_of (flat_map (module_item_items 0) items.now)) }
{
    let list = pieces(alloc, items)?;
    marks_of(alloc, list.as_slice())
}

// The occurrences in the items, with texts that are lent from them.
pub(crate) fn lent_occurrences<'a>(
    alloc: Global,
    items: &'a [ModuleItem],
) -> Result<Vec<lent::OccurrenceRef<'a>>, AllocError>
    ensures { IfOk result (λ occurrences.
        map lent_as occurrences.items ≡ listed (flat_map (module_item_items 0) items.now)) }
{
    let list = pieces(alloc, items)?;
    occurrences_of(alloc, list.as_slice())
}

// The marks with texts of their own at the occurrences.
fn own_marks<'a>(alloc: Global, marks: &[lent::MarkRef<'a>]) -> Result<Vec<Mark<'a>>, AllocError>
    ensures { IfOk result (λ own. map tree_mark_of own.items ≡ map lent_mark marks.now) }
{
    let mut own = Vec::new(alloc);
    for mark in marks {
        own.push(own_mark(alloc, *mark)?)?;
    }
    Ok(own)
}

// The occurrences with texts of their own.
fn own_occurrences<'a>(
    alloc: Global,
    occurrences: &[lent::OccurrenceRef<'a>],
) -> Result<Vec<Occurrence>, AllocError>
    ensures { IfOk result (λ own. map occurrence_listed own.items ≡ map lent_as occurrences.now) }
{
    let mut own = Vec::new(alloc);
    for occurrence in occurrences {
        own.push(own_occurrence(alloc, *occurrence)?)?;
    }
    Ok(own)
}

fn own_mark<'a>(alloc: Global, mark: lent::MarkRef<'a>) -> Result<Mark<'a>, AllocError>
    ensures { IfOk result (λ own. tree_mark_of own ≡ lent_mark mark.entry) }
{
    match mark {
        lent::MarkRef::Open { field, node } => Ok(Mark::Open { field, node }),
        lent::MarkRef::Close => Ok(Mark::Close),
        lent::MarkRef::Ident(occurrence) => Ok(Mark::Ident(own_occurrence(alloc, occurrence)?)),
    }
}

fn own_occurrence<'a>(
    alloc: Global,
    occurrence: lent::OccurrenceRef<'a>,
) -> Result<Occurrence, AllocError>
    ensures { IfOk result (λ own. occurrence_listed own ≡ lent_as occurrence.entry) }
{
    let sym = String::from_str(alloc, occurrence.id.sym)?;
    Ok(Occurrence {
        id: Id::new(sym, SyntaxContext::from_u32(occurrence.id.ctxt)),
        binding: occurrence.binding,
    })
}

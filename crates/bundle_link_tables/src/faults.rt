//! What is wrong with a module by itself.

ghost use Rattle.std.specs.Prelude.{◌≡◌, [], None, map, option_map, bytes_eq, IfOk};
ghost use Rattle.bundle_tree_names.specs.FileName.{Name};
ghost use Rattle.bundle_syntax.specs.Item.{item_of};
ghost use Rattle.bundle_rules.specs.Bundle.{is_with};
ghost use Rattle.bundle_rules.specs.Nodes.{has_head, has_text};
ghost use Rattle.bundle_link_tables.specs.Free.{told_top_names};
ghost use Rattle.bundle_link_tables.specs.Judged as judged;
ghost use Rattle.bundle_link_tables.specs.Listed.{export_listed_as};
ghost use Rattle.bundle_link_tables.specs.TablesOf.{export_entry_of, fault_in};
ghost use Rattle.indexmap.specs.IndexSet.{contains_by};

use crate::free::top_names;
use crate::listed::ExportListName;
use crate::table::{Export, FileFault};
use bundle_scope_denote::Denotations;
use bundle_scope_denote::texts::TextSet;
use bundle_syntax::Piece;
use bundle_tree_places::nodes::has_with;
use std::alloc::{AllocError, Global};

/// The first fault of a module by itself: a name that is exported twice, one in an export list without `from` that
/// the top does not bind, or a `with` statement, if one stands in it.
#[tactic(auto, using(std::proofs::lemmas::Grind::common_steps, crate::proofs::ToldLemmas::told_doubled, crate::proofs::ToldLemmas::told_undeclared, crate::proofs::ToldLemmas::told_with, crate::proofs::ToldLemmas::told_none))]
pub fn first_fault<'a>(
    alloc: Global,
    pieces: &[Piece<'a>],
    denotations: &Denotations<'a>,
    exports: &[Export<'a>],
    listed: &[ExportListName<'a>],
    has_with: bool,
) -> Result<Option<FileFault<'a>>, AllocError>
    ensures { (file : Name) →
        IfOk result (λ fault.
        option_map (fault_in file) fault
        ≡ judged.first_fault file
        (judged.doubled_entry_name [] (map export_entry_of exports.now))
        (judged.undeclared_name
        (λ x. has_text x (told_top_names denotations.now (map item_of pieces.now)))
        (map export_listed_as listed.now))
        has_with) }
{
    if let Some(name) = doubled_name(alloc, exports)? {
        return Ok(Some(FileFault::DoubledExport { name }));
    }
    if let Some(name) = unbound_name(alloc, pieces, denotations, listed)? {
        return Ok(Some(FileFault::UndeclaredExport { name }));
    }
    if has_with {
        return Ok(Some(FileFault::With));
    }
    Ok(None)
}

/// The same of a module in which no list of exports without `from` stands: what its names denote decides nothing.
#[tactic(auto, using(std::proofs::lemmas::Grind::common_steps, crate::proofs::ToldLemmas::told_doubled, crate::proofs::ToldLemmas::told_with, crate::proofs::ToldLemmas::told_none))]
pub fn first_unlisted_fault<'a>(
    alloc: Global,
    pieces: &[Piece<'a>],
    exports: &[Export<'a>],
) -> Result<Option<FileFault<'a>>, AllocError>
    ensures { (file : Name) →
        IfOk result (λ fault.
        option_map (fault_in file) fault
        ≡ judged.first_fault file
        (judged.doubled_entry_name [] (map export_entry_of exports.now)) None
        (has_head is_with (map item_of pieces.now))) }
{
    if let Some(name) = doubled_name(alloc, exports)? {
        return Ok(Some(FileFault::DoubledExport { name }));
    }
    if has_with(pieces) {
        return Ok(Some(FileFault::With));
    }
    Ok(None)
}

// The first name that an earlier export has.
#[tactic(auto, using(std::proofs::lemmas::Grind::common_steps, crate::proofs::DoubledLemmas::few_undoubled))]
fn doubled_name<'a>(alloc: Global, exports: &[Export<'a>]) -> Result<Option<&'a str>, AllocError>
    ensures { IfOk result (λ found.
        option_map (λ name. name.now) found
        ≡ judged.doubled_entry_name [] (map export_entry_of exports.now)) }
{
    if exports.len() < 2 {
        return Ok(None);
    }
    let mut met = TextSet::new(alloc);
    for export in exports {
        if (&met).contains(&export.name) {
            return Ok(Some(export.name));
        }
        met.insert(export.name)?;
    }
    Ok(None)
}

// The first name in an export list without `from` that is a string, or that the top does not bind. Where there is
// no such list, the names that the top binds are not gathered.
#[tactic(auto, using(std::proofs::lemmas::Grind::common_steps, crate::proofs::FaultLemmas::undeclared_empty, crate::proofs::FaultLemmas::undeclared_alike))]
fn unbound_name<'a>(
    alloc: Global,
    pieces: &[Piece<'a>],
    denotations: &Denotations<'a>,
    listed: &[ExportListName<'a>],
) -> Result<Option<&'a str>, AllocError>
    ensures { IfOk result (λ found.
        option_map (λ name. name.now) found
        ≡ judged.undeclared_name
        (λ x. has_text x (told_top_names denotations.now (map item_of pieces.now)))
        (map export_listed_as listed.now)) }
{
    if listed.is_empty() {
        return Ok(None);
    }
    let declared = top_names(alloc, pieces, denotations)?;
    Ok(undeclared_name(listed, &declared))
}

// The first name in an export list without `from` that is a string, or that is not declared.
fn undeclared_name<'a>(listed: &[ExportListName<'a>], declared: &TextSet<&str>) -> Option<&'a str>
    ensures { option_map (λ name. name.now) result
        ≡ judged.undeclared_name (λ x. contains_by (λ k. bytes_eq x k.now) declared.now)
        (map export_listed_as listed.now) }
{
    for name in listed {
        if is_undeclared(*name, declared) {
            return Some(name.name);
        }
    }
    None
}

// Whether a listed name is a string, or not declared.
fn is_undeclared(listed: ExportListName, declared: &TextSet<&str>) -> bool
    ensures { result
        ≡ judged.is_undeclared (λ x. contains_by (λ k. bytes_eq x k.now) declared.now)
        (export_listed_as listed.entry) }
{
    listed.is_string || !declared.has_text(listed.name)
}

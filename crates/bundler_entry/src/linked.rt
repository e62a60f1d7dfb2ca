//! The modules that an entry reaches, and what their names are linked to, or the first fault of theirs.

ghost use Rattle.std.specs.Prelude.{◌≡◌, ℕ, suc, Some, IfOk, IfErr, IfSome, IsSome, length};
ghost use Rattle.bundle_tree_names.specs.FileName.{name_of};
ghost use Rattle.bundle_rules.specs.Faults.{IsFirstProgramFault, fault_of};
ghost use Rattle.bundle_rules.specs.Program as program;
ghost use Rattle.bundle_link.specs.Judged.{says};
ghost use Rattle.bundler_entry.specs.Linked.{AreEntryLinks, AreNotes, AreLinkModules, HasPlaces, IsCallOf, IsLinkedEntry, IsPartAt, IsReachedIn, TellsFileAt, ids_of};
ghost use Rattle.bundler_entry.specs.Unlinked.{error_of};

use crate::call::{EntryCall, file_at};
use crate::fault::{doubled_refusal, link_refusal};
use crate::source::ReadFile;
use crate::unlinked::EntryError;
use bundle_link::link::setting_of;
use bundle_link::{DoubledNames, ModuleFault, Reached, judged, reached_from};
use bundle_link_targets::{LinkModule, Linking};
use bundle_order_sort::{Plan, plan_asked};
use bundle_tree_names::ModuleId;
use bundle_tree_names::file_name::FileName;
use std::alloc::{AllocError, Global};

/// The modules that an entry reaches, what their names are linked to, and the blocks in which they stand, whose places
/// are those of the modules on the list.
pub struct LinkedEntry<'x> {
    pub(crate) reached: Reached,
    pub(crate) linking: Linking<'x>,
    pub(crate) plan: Plan,
}

// By hand, so that who lets go of one only calls this.
impl<'x> Drop for LinkedEntry<'x> {
    fn drop(self) {
        let LinkedEntry {
            reached: _reached,
            linking: _linking,
            plan: _plan,
        } = self;
    }
}

/// Links the modules that an entry reaches. Refused by the first fault, or where memory runs out.
pub fn linked_entry<'p, 'x>(
    alloc: Global,
    call: &EntryCall<'p, 'x>,
    entry: ModuleId,
) -> Result<LinkedEntry<'x>, EntryError>
    ensures linked { IfOk result (λ linked. (p : program.Program) → IsCallOf p entry call.now →
        IsLinkedEntry p call.now linked) }
    ensures refused { IfErr result (λ unlinked.
        (p : program.Program) →
        IsCallOf p entry call.now →
        IfSome (fault_of (error_of unlinked)) (IsFirstProgramFault p)) }
{
    let files = &call.program.files;
    let reached = reached_from(alloc, files, entry)?;
    let linking = linking_of(alloc, call, &reached)?;
    let in_standard_order = call.config.in_standard_order;
    let plan = plan_asked(alloc, &files.graph, &reached.list, in_standard_order)?;
    Ok(LinkedEntry {
        reached,
        linking,
        plan,
    })
}

// What the names of the modules are linked to. Refused by the first fault.
fn linking_of<'p, 'x>(
    alloc: Global,
    call: &EntryCall<'p, 'x>,
    reached: &Reached,
) -> Result<Linking<'x>, EntryError>
    ensures linked { IfOk result (λ linking.
        (p : program.Program) (entry : ℕ) →
        IsCallOf p entry call.now →
        IsReachedIn p call.now reached.now →
        AreEntryLinks p call.now reached.now linking) }
    ensures refused { IfErr result (λ unlinked.
        (p : program.Program) (entry : ℕ) →
        IsCallOf p entry call.now →
        IsReachedIn p call.now reached.now →
        IfSome (fault_of (error_of unlinked)) (IsFirstProgramFault p)) }
{
    let sources = call.program.sources.as_slice();
    let modules = modules_of(alloc, sources, reached)?;
    let notes = notes_of(alloc, sources, reached)?;
    let found = judged(alloc, &modules, &notes, setting_of(&call.config.base))?;
    match found {
        Ok(linking) => Ok(linking),
        Err(told) => Err(refusal_of(alloc, call, reached, told)?),
    }
}

// The tables of the modules, and where their requests lead.
fn modules_of<'t, 'x>(
    alloc: Global,
    sources: &'t [ReadFile<'x>],
    reached: &'t Reached,
) -> Result<Vec<LinkModule<'t, 'x>>, AllocError>
    ensures { IfOk result (λ modules.
        HasPlaces sources.entry.now reached.entry.now (length reached.entry.now.places.items) →
        AreLinkModules sources.entry.now reached.entry.now (length reached.entry.now.places.items)
        modules.items) }
{
    let mut modules = Vec::new(alloc);
    for which in 0..reached.places.len() {
        if let Some(part) = part_at(sources, reached, which) {
            modules.push(part)?;
        }
    }
    Ok(modules)
}

// The tables of a module, and where its requests lead.
fn part_at<'t, 'x>(
    sources: &'t [ReadFile<'x>],
    reached: &'t Reached,
    which: usize,
) -> Option<LinkModule<'t, 'x>>
    ensures part { IfSome result (IsPartAt sources.entry.now reached.entry.now which) }
    ensures there { HasPlaces sources.entry.now reached.entry.now (suc which) →
        IsSome result }
{
    let source = sources.get(*reached.places.get(which)?)?;
    let leads = reached.leads.get(which)?;
    let tables = &source.tables;
    Some(LinkModule { tables, leads })
}

// What is noted of each of the modules.
fn notes_of<'x>(
    alloc: Global,
    sources: &[ReadFile<'x>],
    reached: &Reached,
) -> Result<Vec<DoubledNames<'x>>, AllocError>
    ensures { IfOk result (λ notes.
        HasPlaces sources.now reached.now (length reached.now.places.items) →
        AreNotes sources.now reached.now (length reached.now.places.items) notes.items) }
{
    let mut notes = Vec::new(alloc);
    for place in &reached.places {
        if let Some(source) = sources.get(*place) {
            notes.push(source.noted)?;
        }
    }
    Ok(notes)
}

// The refusal for a fault of modules.
fn refusal_of<'p, 'x>(
    alloc: Global,
    call: &EntryCall<'p, 'x>,
    reached: &Reached,
    told: ModuleFault<'x>,
) -> Result<EntryError, AllocError>
    ensures { IfOk result (λ refusal. TellsFileAt call.now reached.now told.entry refusal) }
{
    match file_at(call, reached, told.module()) {
        Some((file, _)) => told_refusal(alloc, file, told),
        None => told_refusal(alloc, call.entry, told),
    }
}

// The same, of this file.
fn told_refusal<'x>(
    alloc: Global,
    file: &FileName,
    told: ModuleFault<'x>,
) -> Result<EntryError, AllocError>
    ensures { IfOk result (λ refusal.
        fault_of (error_of refusal) ≡ Some (says told.entry (name_of file.now))) }
{
    match told {
        ModuleFault::Link(fault) => link_refusal(alloc, file, fault),
        ModuleFault::Doubled(_, doubled) => doubled_refusal(alloc, file, doubled),
    }
}

//! The module of an entry that has no fault, and what the hook answers for its modules.

ghost use Rattle.std.specs.Prelude.{◌≡◌, ◌<◌, ℕ, false, Contains, IfErr, IfNone, IfOk, IfSome, IsSome, List, None, Option, Some, length, option_map, replicate, slice_get, slice_set};
ghost use Rattle.bundle_tree_names.specs.FileName.{name_of};
ghost use Rattle.bundle_syntax.specs.Item.{Item};
ghost use Rattle.bundle_rules.specs.Entries.{has_import_meta};
ghost use Rattle.bundle_rules.specs.Faults.{fault_of};
ghost use Rattle.bundle_rules.specs.Program as program;
ghost use Rattle.bundle_rules.specs.Program.{tree_of};
ghost use Rattle.bundler_entry.specs.Asked.{AreAnswersBefore, AreAskedAnswers, IsHookAnswer, IsAskedModule, IsRefusedAt, IsRefusedFor};
ghost use Rattle.bundler_entry.specs.Hook.{AreRead};
ghost use Rattle.bundler_entry.specs.Made.{AreOfAnswers, IsRefusedMaking, answers_in};
ghost use Rattle.bundler_entry.specs.Merged.{IsMergedIn};
ghost use Rattle.bundler_entry.specs.declared.entry.MetaAnswer as answer;
ghost use Rattle.bundler_entry.specs.Linked.{IsCallOf, IsLinkedEntry, IsReachedIn};
ghost use Rattle.bundler_entry.specs.Unlinked.{error_of};

use crate::call::{EntryCall, file_at, source_at};
use crate::linked::LinkedEntry;
use crate::made::made;
use crate::meta::{ReadMeta, ask, read_meta};
use crate::unlinked::EntryError;
use bundle_link::Reached;
use bundle_link::link::setting_of;
use bundle_tree::hook::Hook;
use bundle_tree_ast::{KeyValueProp, Module};
use bundle_tree_names::file_name::FileName;
use std::alloc::{AllocError, Global};

/// What the hook answered for a module, by its number.
#[derive(Drop)]
pub struct MetaAnswer {
    which: usize,
    properties: Vec<KeyValueProp>,
}

/// The module of an entry that has no fault, before it is finished, where this is what the hook answered.
pub fn module_of<'p, 'x>(
    alloc: Global,
    call: &EntryCall<'p, 'x>,
    linked: &LinkedEntry<'x>,
    answers: &[MetaAnswer],
) -> Result<Module, EntryError>
    ensures made { IfOk result (λ made. (p : program.Program) (entry : ℕ) →
        IsCallOf p entry call.now → (its : IsLinkedEntry p call.now linked.now) →
        AreAskedAnswers its.links.places answers.now →
        (given : ℕ → Option (List Item)) × AreOfAnswers answers.now given
        × IsMergedIn its.links.places linked.now given made) }
    ensures refused { IfErr result (λ unlinked. (p : program.Program) (entry : ℕ) →
        IsCallOf p entry call.now → (its : IsLinkedEntry p call.now linked.now) →
        AreAskedAnswers its.links.places answers.now →
        (given : ℕ → Option (List Item)) × AreOfAnswers answers.now given
        × IsRefusedMaking its.links.places call.now linked.now given unlinked) }
{
    let metas = read_answers(alloc, linked.reached.places.len(), answers)?;
    made(alloc, call, linked, metas.as_slice())
}

// The answers as they were read, by the numbers of their modules, of which there are so many.
fn read_answers<'y>(
    alloc: Global,
    count: usize,
    answers: &'y [MetaAnswer],
) -> Result<Vec<Option<ReadMeta<'y>>>, AllocError>
    ensures read { IfOk result (λ metas. AreRead metas.items) }
    ensures of { IfOk result (λ metas. AreOfAnswers answers.entry.now (answers_in metas.items)) }
    ensures all { IfOk result (λ metas. (answer : answer.MetaAnswer) →
        Contains answers.entry.now answer → answer.which < count →
        IsSome (answers_in metas.items answer.which)) }
{
    let mut metas = unread(alloc, count)?;
    for answer in answers {
        let read = read_meta(alloc, answer.properties.as_slice())?;
        put_meta(&mut metas, answer.which, read);
    }
    Ok(metas)
}

// So many places that hold no answer.
fn unread<'y>(alloc: Global, count: usize) -> Result<Vec<Option<ReadMeta<'y>>>, AllocError>
    ensures { IfOk result (λ metas. metas.items ≡ replicate count None) }
{
    let mut metas = Vec::new(alloc);
    for _ in 0..count {
        metas.push(None)?;
    }
    Ok(metas)
}

// Puts what was read at the place of its module, if that is there.
fn put_meta<'y>(metas: &mut Vec<Option<ReadMeta<'y>>>, which: usize, read: ReadMeta<'y>)
    ensures { metas.new.items ≡ slice_set metas.old.items which (Some read.entry) }
{
    if let Some(meta) = metas.get_mut(which) {
        *meta = Some(read);
    }
}

/// What the hook answers for each module that has `import.meta`, in the order of the list. Refused
/// where the hook fails or its answer has a fault, by the first of these, or where memory runs out.
pub fn ask_all<'p, 'x>(
    alloc: Global,
    call: &EntryCall<'p, 'x>,
    hook: &dyn Hook,
    linked: &LinkedEntry<'x>,
) -> Result<Vec<MetaAnswer>, EntryError>
    ensures answered { IfOk result (λ answers. (p : program.Program) (entry : ℕ) →
        IsCallOf p entry call.now → IsLinkedEntry p call.now linked.now →
        AreAnswersBefore (may_give hook.now) p linked.now.reached.list.items
        (length linked.now.reached.list.items) answers.items) }
    ensures refused { IfErr result (λ unlinked.
        (p : program.Program) (entry : ℕ) →
        IsCallOf p entry call.now →
        IsLinkedEntry p call.now linked.now →
        IfSome (fault_of (error_of unlinked))
        (IsRefusedAt (may_give hook.now) (may_fail_hook hook.now) p
        linked.now.reached.list.items)) }
{
    let reached = &linked.reached;
    let mut answers = Vec::new(alloc);
    for which in 0..reached.places.len() {
        if let Some(properties) = ask_at(alloc, call, hook, reached, which)? {
            answers.push(MetaAnswer { which, properties })?;
        }
    }
    Ok(answers)
}

// What the hook answers for a module, if that has `import.meta`.
fn ask_at<'p, 'x>(
    alloc: Global,
    call: &EntryCall<'p, 'x>,
    hook: &dyn Hook,
    reached: &Reached,
    which: usize,
) -> Result<Option<Vec<KeyValueProp>>, EntryError>
    ensures answered { IfOk result (λ answer. (p : program.Program) (entry m : ℕ) →
        IsCallOf p entry call.now → IsReachedIn p call.now reached.now →
        slice_get reached.now.list.items which ≡ Some m →
        IsHookAnswer (may_give hook.now) p m (option_map (λ given. given.items) answer)) }
    ensures refused { IfErr result (λ unlinked. (p : program.Program) (entry m : ℕ) →
        IsCallOf p entry call.now → IsReachedIn p call.now reached.now →
        slice_get reached.now.list.items which ≡ Some m →
        IfSome (fault_of (error_of unlinked))
        (IsRefusedFor (may_give hook.now) (may_fail_hook hook.now) p m)) }
{
    match asked_at(call, reached, which) {
        Some((file, given)) => {
            let is_entry = which == reached.places.len().saturating_sub(1);
            let is_iife = setting_of(&call.config.base).iife;
            let properties = ask(alloc, hook, file, given, is_entry, is_iife)?;
            Ok(Some(properties))
        }
        None => Ok(None),
    }
}

// The file of a module that has `import.meta`, and the name that its loader gave it.
fn asked_at<'p, 'x>(
    call: &EntryCall<'p, 'x>,
    reached: &Reached,
    which: usize,
) -> Option<(&'x FileName, &'x FileName)>
    ensures asked { IfSome result (λ names. (p : program.Program) (entry m : ℕ) →
        IsCallOf p entry call.now → IsReachedIn p call.now reached.now →
        slice_get reached.now.list.items which ≡ Some m →
        IsAskedModule p m (name_of names.0.now) (name_of names.1.now)) }
    ensures unasked { IfNone result ((p : program.Program) (entry m : ℕ) →
        IsCallOf p entry call.now → IsReachedIn p call.now reached.now →
        slice_get reached.now.list.items which ≡ Some m →
        has_import_meta (tree_of p m) ≡ false) }
{
    let source = source_at(call, reached, which)?;
    let (file, _) = file_at(call, reached, which)?;
    match source.tables.has_import_meta {
        true => Some((file, source.given)),
        false => None,
    }
}

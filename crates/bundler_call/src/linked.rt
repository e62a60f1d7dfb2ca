//! The module of an entry, before it is finished.

ghost use Rattle.std.specs.Prelude.{IfErr, IfOk};
ghost use Rattle.bundle_tree_names.specs.FileName.{name_of};
ghost use Rattle.bundle_rules.specs.Kept.{Kept, program_of};
ghost use Rattle.bundle_merge_causes.specs.Standing.{AreCausesTold};
ghost use Rattle.bundler_call.specs.Kept.{settings_of};
ghost use Rattle.bundler_call.specs.Linking.{answered_by, IsFileOn, IsMergedFor, IsReadListOf, IsRefusalOfProgram};
ghost use Rattle.bundler_call.specs.declared.load.LoadList.{LoadList};

use bundle_merge_causes::BundleCauses;
use bundle_tree::hook::Hook;
use bundle_tree_ast::Module;
use bundle_tree_names::ModuleId;
use bundler_entry::{EntryCall, EntryError, ask_all, causes_in, linked_entry, module_of};
use std::alloc::Global;

/// The module of an entry, which has the number of its file, before it is finished.
pub fn module_on<'p, 'x>(
    alloc: Global,
    call: &EntryCall<'p, 'x>,
    hook: &dyn Hook,
    entry: ModuleId,
) -> Result<Module, EntryError>
    ensures made { IfOk result (λ made. (kept : Kept) (list : LoadList) →
        IsReadListOf (settings_of call.now.config.now) kept list call.now.program.now →
        IsFileOn kept list (name_of call.now.entry.now) entry → IsMergedFor
        (answered_by (may_give hook.now) (may_fail_hook hook.now)) call.now.config.now
        (program_of kept (settings_of call.now.config.now) entry) made) }
    ensures refused { IfErr result (λ unlinked. (kept : Kept) (list : LoadList) →
        IsReadListOf (settings_of call.now.config.now) kept list call.now.program.now →
        IsFileOn kept list (name_of call.now.entry.now) entry → IsRefusalOfProgram
        (answered_by (may_give hook.now) (may_fail_hook hook.now))
        (program_of kept (settings_of call.now.config.now) entry) unlinked) }
{
    let linked = linked_entry(alloc, call, entry)?;
    let answers = ask_all(alloc, call, hook, &linked)?;
    module_of(alloc, call, &linked, &answers)
}

/// The same, and beside it what the items of the bundle are made for.
pub fn caused_on<'p, 'x>(
    alloc: Global,
    call: &EntryCall<'p, 'x>,
    hook: &dyn Hook,
    entry: ModuleId,
) -> Result<(Module, BundleCauses), EntryError>
    ensures made { IfOk result (λ made. (kept : Kept) (list : LoadList) →
        IsReadListOf (settings_of call.now.config.now) kept list call.now.program.now →
        IsFileOn kept list (name_of call.now.entry.now) entry → IsMergedFor
        (answered_by (may_give hook.now) (may_fail_hook hook.now)) call.now.config.now
        (program_of kept (settings_of call.now.config.now) entry) made.0) }
    ensures told { IfOk result (λ made. (kept : Kept) (list : LoadList) →
        IsReadListOf (settings_of call.now.config.now) kept list call.now.program.now →
        IsFileOn kept list (name_of call.now.entry.now) entry →
        AreCausesTold (program_of kept (settings_of call.now.config.now) entry) made.1) }
    ensures refused { IfErr result (λ unlinked. (kept : Kept) (list : LoadList) →
        IsReadListOf (settings_of call.now.config.now) kept list call.now.program.now →
        IsFileOn kept list (name_of call.now.entry.now) entry → IsRefusalOfProgram
        (answered_by (may_give hook.now) (may_fail_hook hook.now))
        (program_of kept (settings_of call.now.config.now) entry) unlinked) }
{
    let links = linked_entry(alloc, call, entry)?;
    let answers = ask_all(alloc, call, hook, &links)?;
    let module = module_of(alloc, call, &links, &answers)?;
    let causes = causes_in(alloc, call, &links)?;
    Ok((module, causes))
}

//! The names of a bundle, given in one pass: a context for each scope of a module or of what the hook answered for it
//! that binds something, and an identifier for each label. This alone may be refused for contexts.

ghost use Rattle.std.specs.Prelude.{◌≡◌, ◌<◌, ◌⊎◌, ℕ, Bool, true, is_some, IfErr, IfOk, OnOk, List, Option, Some, None, length, map, slice_get, unwrap_or};
ghost use Rattle.bundle_rules.specs.Entries as entries;
ghost use Rattle.bundle_rules.specs.Entries.{has_import_meta};
ghost use Rattle.bundle_rules.specs.Linking as links;
ghost use Rattle.bundle_rules.specs.Linking.{IsCommonJs};
ghost use Rattle.bundle_rules.specs.Meaning as meaning;
ghost use Rattle.bundle_rules.specs.Program.{IsReached, Program, tree_of};
ghost use Rattle.bundle_link_index.specs.Says.{target_of};
ghost use Rattle.bundle_link_tables.specs.TablesOf.{taken_of};
ghost use Rattle.bundle_link_targets.specs.Linked.{HandsOver, IsLinkingOf};
ghost use Rattle.bundle_link_targets.specs.Meant.{AreModules};
ghost use Rattle.bundle_link_targets.specs.Symbols.{IsTakable};
ghost use Rattle.bundle_merge_names.specs.Added.{GivesNames, IsNamedOf, IsOfExternals, IsOfHelper, IsOfHelpers, IsOfLabels, IsOfLoads, IsOfModule, IsOfModules, IsTakenOf, IsWhere, IsWholeOf, RefusesLabels, with_taken};
ghost use Rattle.bundle_merge_names.specs.Bundle.{AreBundleParts, AreNamesOf, IsPartOf};
ghost use Rattle.bundle_merge_theory.specs.made.Given.{HookAnswer, BundleContexts, NameOf, stands_written};
ghost use Rattle.bundle_merge_theory.specs.made.Alone.{IsHolder};
ghost use Rattle.bundle_merge_names.specs.Inside.{AreScopesNamed, AddsModule, HoldsNothing, RefusesModule, answer_of};
ghost use Rattle.bundle_merge_names.specs.Named.{IsGiven};
ghost use Rattle.bundle_merge_names.specs.Numbers as numbers;
ghost use Rattle.bundle_merge_names.specs.Ranges.{GivesAnswered, GivesScopeContexts, RefusesAnswered, RefusesContexts};
ghost use Rattle.bundle_merge_names.specs.Refused.{RefusesContextsIn, RefusesNames, TakesFew};
ghost use Rattle.bundle_merge_names.specs.Scoped.{AreMarks, GivesScope, RefusesScope, flag_in, scope_number};

use crate::error::MergeError;
use crate::names::{BundleNames, Label};
use crate::part::{BundleInput, BundleModule};
use bundle_link_tables::Taken;
use bundle_link_targets::{External, Linking, Loaded, TargetRef};
use bundle_scope_denote::{Denotations, Scope, ScopeKind};
use std::alloc::{AllocError, Global};

/// Gives a bundle its names. Refused for contexts, with the module whose scopes get them or none for labels, and for
/// memory.
pub fn names_of<'a>(
    alloc: Global,
    bundle: &BundleInput<'_, 'a, '_>,
) -> Result<BundleNames<'a>, MergeError>
    ensures named { IfOk result (λ names.
        (p : Program) (list : List ℕ) (answers : ℕ → Option HookAnswer) →
        AreBundleParts p list answers bundle.now →
        (context : BundleContexts) × AreNamesOf p list answers context bundle.now names) }
    ensures few { IfOk result (λ names.
        (p : Program) (list : List ℕ) (answers : ℕ → Option HookAnswer) →
        AreBundleParts p list answers bundle.now →
        TakesFew p list answers (numbers.position bundle.now.contexts)
        (numbers.position names.contexts)) }
    ensures refused { IfErr result (λ refusal.
        (p : Program) (list : List ℕ) (answers : ℕ → Option HookAnswer) →
        AreBundleParts p list answers bundle.now →
        RefusesNames p list answers (numbers.position bundle.now.contexts) refusal) }
{
    let mut names = BundleNames::new(alloc, bundle.contexts);
    give_names(alloc, &mut names, bundle)?;
    Ok(names)
}

// Gives all names: first those of scopes, module by module, and then those of labels.
fn give_names<'a>(
    alloc: Global,
    names: &mut BundleNames<'a>,
    bundle: &BundleInput<'_, 'a, '_>,
) -> Result<(), MergeError>
    ensures given { OnOk result (HoldsNothing bundle.now names.old →
        (p : Program) (list : List ℕ) (answers : ℕ → Option HookAnswer) →
        AreBundleParts p list answers bundle.now →
        (context : BundleContexts) × AreNamesOf p list answers context bundle.now names.new) }
    ensures few { OnOk result (HoldsNothing bundle.now names.old →
        (p : Program) (list : List ℕ) (answers : ℕ → Option HookAnswer) →
        AreBundleParts p list answers bundle.now →
        TakesFew p list answers (numbers.position bundle.now.contexts)
        (numbers.position names.new.contexts)) }
    ensures refused { IfErr result (λ refusal.
        HoldsNothing bundle.now names.old →
        (p : Program) (list : List ℕ) (answers : ℕ → Option HookAnswer) →
        AreBundleParts p list answers bundle.now →
        RefusesNames p list answers (numbers.position bundle.now.contexts) refusal) }
{
    give_contexts(alloc, names, bundle)?;
    give_labels(names, bundle)
}

// Gives contexts to the scopes of the modules and of what the hook answered for them, module by module.
fn give_contexts<'a>(
    alloc: Global,
    names: &mut BundleNames<'a>,
    bundle: &BundleInput<'_, 'a, '_>,
) -> Result<(), MergeError>
    ensures scopes { OnOk result (HoldsNothing bundle.now names.old →
        AreScopesNamed bundle.now names.new (length bundle.now.parts.now)) }
    ensures labels { OnOk result (names.new.labels ≡ names.old.labels) }
    ensures refused { IfErr result (λ refusal.
        HoldsNothing bundle.now names.old →
        (p : Program) (list : List ℕ) (answers : ℕ → Option HookAnswer) →
        AreBundleParts p list answers bundle.now →
        RefusesContextsIn p list answers (numbers.position bundle.now.contexts) refusal) }
{
    for (module, part) in bundle.parts.iter().enumerate() {
        give_scopes(alloc, names, bundle, module, part)?;
    }
    Ok(())
}

// Gives contexts to the scopes of a module and of what the hook answered for it.
fn give_scopes<'a>(
    alloc: Global,
    names: &mut BundleNames<'a>,
    bundle: &BundleInput<'_, 'a, '_>,
    which: usize,
    part: &BundleModule<'_, 'a>,
) -> Result<(), MergeError>
    ensures given { OnOk result
        (AddsModule part.now.denotations.now (answer_of bundle.now which) part.now.local
        names.old names.new) }
    ensures refused { IfErr result (λ refusal.
        RefusesModule part.now.denotations.now (answer_of bundle.now which)
        (numbers.position names.old.contexts) which refusal) }
{
    let scopes = scope_contexts(alloc, names, which, part.denotations, part.local)?;
    let answered = answer_contexts(alloc, names, bundle, which, part.local)?;
    names.add_module(part.local, scopes, answered)?;
    Ok(())
}

// Contexts for the scopes of what the hook answered for a module.
fn answer_contexts<'a>(
    alloc: Global,
    names: &mut BundleNames<'a>,
    bundle: &BundleInput<'_, 'a, '_>,
    which: usize,
    local: u32,
) -> Result<Vec<Option<u32>>, MergeError>
    ensures given { IfOk result (λ contexts.
        GivesAnswered (answer_of bundle.now which) local
        names.old names.new contexts.items) }
    ensures refused { IfErr result (λ refusal.
        RefusesAnswered (answer_of bundle.now which) (numbers.position names.old.contexts)
        which refusal) }
{
    match bundle.answer(which) {
        Some(answer) => scope_contexts(alloc, names, which, answer.denotations, local),
        None => Ok(Vec::new(alloc)),
    }
}

// Contexts for the scopes of a list that bind what occurs: that of the module at the top, and one that nothing has yet
// for each other.
fn scope_contexts(
    alloc: Global,
    names: &mut BundleNames<'_>,
    which: usize,
    denotations: &Denotations<'_>,
    local: u32,
) -> Result<Vec<Option<u32>>, MergeError>
    ensures given { IfOk result (λ contexts.
        GivesScopeContexts denotations.now local names.old names.new contexts.items) }
    ensures refused { IfErr result (λ refusal.
        RefusesContexts denotations.now (numbers.position names.old.contexts) which refusal) }
{
    let marks = marks_of(alloc, denotations)?;
    let mut contexts = Vec::new(alloc);
    for scope in &denotations.scopes {
        let binds = flag_at(&marks, contexts.len());
        contexts.push(context_of(names, which, *scope, binds, local)?)?;
    }
    Ok(contexts)
}

// Whether each scope of a list binds what occurs.
fn marks_of(alloc: Global, denotations: &Denotations<'_>) -> Result<Vec<bool>, AllocError>
    ensures { IfOk result (λ marks.
        AreMarks denotations.now.bindings.items denotations.now.occurrences.items
        (length denotations.now.scopes.items) marks.items) }
{
    let mut marks = vec![in alloc; false; denotations.scopes.len()]?;
    for occurrence in &denotations.occurrences {
        let scope = scope_of(denotations, occurrence.binding);
        mark(&mut marks, scope);
    }
    Ok(marks)
}

// The scope of a binding.
fn scope_of(denotations: &Denotations<'_>, binding: Option<usize>) -> Option<usize>
    ensures { result ≡ scope_number denotations.now.bindings.items binding }
{
    let binding = denotations.bindings.get(binding?)?;
    Some(binding.scope)
}

// Marks a scope, if it is there.
fn mark(marks: &mut Vec<bool>, scope: Option<usize>)
    ensures long { length marks.new.items ≡ length marks.old.items }
    ensures there { (n : ℕ) →
        scope ≡ Some n → n < length marks.old.items → slice_get marks.new.items n ≡ Some true }
    ensures kept { (n : ℕ) →
        slice_get marks.old.items n ≡ Some true → slice_get marks.new.items n ≡ Some true }
    ensures only { (n : ℕ) →
        slice_get marks.new.items n ≡ Some true →
        (slice_get marks.old.items n ≡ Some true) ⊎ (scope ≡ Some n) }
{
    if let Some(scope) = scope {
        mark_at(marks, scope);
    }
}

// Marks the scope with this number, if it is there.
fn mark_at(marks: &mut Vec<bool>, scope: usize)
    ensures long { length marks.new.items ≡ length marks.old.items }
    ensures there { scope < length marks.old.items → slice_get marks.new.items scope ≡ Some true }
    ensures kept { (n : ℕ) →
        slice_get marks.old.items n ≡ Some true → slice_get marks.new.items n ≡ Some true }
    ensures only { (n : ℕ) →
        slice_get marks.new.items n ≡ Some true →
        (slice_get marks.old.items n ≡ Some true) ⊎ (scope ≡ n) }
{
    if let Some(place) = marks.get_mut(scope) {
        *place = true;
    }
}

// The flag at a place. There is none past the last.
fn flag_at(flags: &[bool], place: usize) -> bool
    ensures { result ≡ flag_in flags.now place }
{
    flags.get(place).copied().unwrap_or(false)
}

// The context of a scope, if it binds something.
fn context_of(
    names: &mut BundleNames<'_>,
    which: usize,
    scope: Scope,
    binds: bool,
    local: u32,
) -> Result<Option<u32>, MergeError>
    ensures given { IfOk result (λ context.
        GivesScope (numbers.is_at_top scope.kind) binds local names.old names.new context) }
    ensures refused { IfErr result (λ refusal.
        RefusesScope (numbers.is_at_top scope.kind) binds which names.old refusal) }
{
    if is_at_top(scope) {
        return Ok(Some(local));
    }
    if !binds {
        return Ok(None);
    }
    Ok(Some(names.take(which)?))
}

// Whether a scope is the top of a module, or the function as which a CommonJS module is read.
fn is_at_top(scope: Scope) -> bool
    ensures { result ≡ numbers.is_at_top scope.kind }
{
    match scope.kind {
        ScopeKind::Top | ScopeKind::Wrapper => true,
        _ => false,
    }
}

// Gives names to what is imported of externals, to the helper, and to what the modules need.
fn give_labels<'a>(
    names: &mut BundleNames<'a>,
    bundle: &BundleInput<'_, 'a, '_>,
) -> Result<(), MergeError>
    ensures given { OnOk result ((p : Program) (list : List ℕ) (answers : ℕ → Option HookAnswer) →
        AreBundleParts p list answers bundle.now →
        GivesNames p list (IsGiven (λ m. stands_written (answers m)) (IsHolder p answers))
        names.old names.new) }
    ensures refused { IfErr result (λ refusal.
        (p : Program) (list : List ℕ) (answers : ℕ → Option HookAnswer) →
        AreBundleParts p list answers bundle.now →
        RefusesLabels (IsGiven (λ m. stands_written (answers m)) (IsOfLabels p list))
        names.old refusal) }
{
    give_externals(names, bundle.linking)?;
    give_helpers(names, bundle)?;
    give_modules(names, bundle)
}

// Gives names to what is meant of externals.
fn give_externals<'a>(names: &mut BundleNames<'a>, linking: &Linking<'a>) -> Result<(), MergeError>
    ensures given { OnOk result ((p : Program) (list : List ℕ) →
        HandsOver p list linking.now →
        AreModules p →
        GivesNames p list (IsOfExternals p list) names.old names.new) }
    ensures refused { IfErr result (λ refusal. (p : Program) (list : List ℕ) →
        HandsOver p list linking.now →
        AreModules p →
        RefusesLabels (IsOfExternals p list) names.old refusal) }
{
    for external in linking.externals() {
        give_external(names, linking, external)?;
    }
    Ok(())
}

// Gives names to what is meant of an external.
fn give_external<'a>(
    names: &mut BundleNames<'a>,
    linking: &Linking<'a>,
    external: &External<'a>,
) -> Result<(), MergeError>
    ensures given { OnOk result ((p : Program) (list : List ℕ) →
        HandsOver p list linking.now →
        IsTakable p (links.External external.now.specifier.now entries.Whole) →
        GivesNames p list
        (IsTakenOf (links.External external.now.specifier.now entries.Whole)
        (map (λ name. name.now) external.now.names.items) external.now.whole)
        names.old names.new) }
    ensures refused { IfErr result (λ refusal. (p : Program) (list : List ℕ) →
        HandsOver p list linking.now →
        IsTakable p (links.External external.now.specifier.now entries.Whole) →
        RefusesLabels
        (IsTakenOf (links.External external.now.specifier.now entries.Whole)
        (map (λ name. name.now) external.now.names.items) external.now.whole)
        names.old refusal) }
{
    let base = TargetRef::External {
        specifier: external.specifier,
        taken: Taken::Whole,
    };
    give_taken(names, linking, base, &external.names, external.whole)
}

// Gives names to these names and to the whole, if it is taken, of what a target is taken of.
fn give_taken<'a>(
    names: &mut BundleNames<'a>,
    linking: &Linking<'a>,
    base: TargetRef<'a>,
    its: &[&'a str],
    whole: bool,
) -> Result<(), MergeError>
    ensures given { OnOk result ((p : Program) (list : List ℕ) →
        HandsOver p list linking.now →
        IsTakable p (target_of base.entry) →
        GivesNames p list
        (IsTakenOf (target_of base.entry) (map (λ name. name.now) its.now) whole)
        names.old names.new) }
    ensures refused { IfErr result (λ refusal. (p : Program) (list : List ℕ) →
        HandsOver p list linking.now →
        IsTakable p (target_of base.entry) →
        RefusesLabels
        (IsTakenOf (target_of base.entry) (map (λ name. name.now) its.now) whole)
        names.old refusal) }
{
    give_named(names, linking, base, its)?;
    give_whole(names, linking, base, whole)?;
    Ok(())
}

// Gives names to these names of what a target is taken of.
fn give_named<'a>(
    names: &mut BundleNames<'a>,
    linking: &Linking<'a>,
    base: TargetRef<'a>,
    its: &[&'a str],
) -> Result<(), MergeError>
    ensures given { OnOk result ((p : Program) (list : List ℕ) →
        HandsOver p list linking.now →
        IsTakable p (target_of base.entry) →
        GivesNames p list (IsNamedOf (target_of base.entry) its.now) names.old names.new) }
    ensures refused { IfErr result (λ refusal. (p : Program) (list : List ℕ) →
        HandsOver p list linking.now →
        IsTakable p (target_of base.entry) →
        RefusesLabels (IsNamedOf (target_of base.entry) its.now) names.old refusal) }
{
    for name in its {
        give_target(names, linking, taking(base, Taken::Named(*name)))?;
    }
    Ok(())
}

// Gives a name to the whole of what a target is taken of, if it is taken.
fn give_whole<'a>(
    names: &mut BundleNames<'a>,
    linking: &Linking<'a>,
    base: TargetRef<'a>,
    whole: bool,
) -> Result<(), MergeError>
    ensures given { OnOk result ((p : Program) (list : List ℕ) →
        HandsOver p list linking.now →
        IsTakable p (target_of base.entry) →
        GivesNames p list (IsWholeOf (target_of base.entry) whole) names.old names.new) }
    ensures refused { IfErr result
        (RefusesLabels (IsWholeOf (target_of base.entry) whole) names.old) }
{
    if !whole {
        return Ok(());
    }
    give_target(names, linking, taking(base, Taken::Whole))
}

// The target that is taken so of what another is taken of.
fn taking<'a>(base: TargetRef<'a>, taken: Taken<'a>) -> TargetRef<'a>
    ensures { target_of result ≡ with_taken (target_of base.entry) (taken_of taken.entry) }
{
    match base {
        TargetRef::External { specifier, .. } => TargetRef::External { specifier, taken },
        TargetRef::CommonJs { taker, which, .. } => TargetRef::CommonJs {
            taker,
            which,
            taken,
        },
        TargetRef::Declared { .. } => base,
        TargetRef::Namespace { .. } => base,
    }
}

// Gives a name to a target, called as its modules call it.
fn give_target<'a>(
    names: &mut BundleNames<'a>,
    linking: &Linking<'a>,
    target: TargetRef<'a>,
) -> Result<(), MergeError>
    ensures given { OnOk result ((p : Program) (list : List ℕ) →
        HandsOver p list linking.now →
        IsTakable p (target_of target.entry) →
        GivesNames p list (λ holder. holder ≡ NameOf (meaning.Of (target_of target.entry)))
        names.old names.new) }
    ensures refused { IfErr result
        (RefusesLabels (λ holder. holder ≡ NameOf (meaning.Of (target_of target.entry)))
        names.old) }
{
    names.give(Label::Of(target), linking.symbol_of(target))
}

// Gives names to the helper, its parameter and its variable, if some module is CommonJS.
fn give_helpers(
    names: &mut BundleNames<'_>,
    bundle: &BundleInput<'_, '_, '_>,
) -> Result<(), MergeError>
    ensures given { OnOk result ((p : Program) (list : List ℕ) (answers : ℕ → Option HookAnswer) →
        AreBundleParts p list answers bundle.now →
        GivesNames p list (IsOfHelpers p) names.old names.new) }
    ensures refused { IfErr result (λ refusal.
        (p : Program) (list : List ℕ) (answers : ℕ → Option HookAnswer) →
        AreBundleParts p list answers bundle.now →
        RefusesLabels (IsOfHelpers p) names.old refusal) }
{
    if !bundle.has_common_js() {
        return Ok(());
    }
    give_helper(names)
}

// Gives names to the helper, its parameter and its variable.
fn give_helper(names: &mut BundleNames<'_>) -> Result<(), MergeError>
    ensures given { OnOk result ((p : Program) (list : List ℕ) →
        GivesNames p list IsOfHelper names.old names.new) }
    ensures refused { IfErr result (RefusesLabels IsOfHelper names.old) }
{
    names.give(Label::Helper, "__swcpack_require__")?;
    names.give(Label::HelperParameter, "fn")?;
    names.give(Label::HelperVariable, "module")?;
    Ok(())
}

// Gives names to what the modules need.
fn give_modules<'a>(
    names: &mut BundleNames<'a>,
    bundle: &BundleInput<'_, 'a, '_>,
) -> Result<(), MergeError>
    ensures given { OnOk result ((p : Program) (list : List ℕ) (answers : ℕ → Option HookAnswer) →
        AreBundleParts p list answers bundle.now →
        GivesNames p list (IsGiven (λ m. stands_written (answers m)) (IsOfModules p))
        names.old names.new) }
    ensures refused { IfErr result (λ refusal.
        (p : Program) (list : List ℕ) (answers : ℕ → Option HookAnswer) →
        AreBundleParts p list answers bundle.now →
        RefusesLabels (IsGiven (λ m. stands_written (answers m)) (IsOfModules p))
        names.old refusal) }
{
    for (module, part) in bundle.parts.iter().enumerate() {
        give_module(names, bundle.linking, module, part)?;
    }
    Ok(())
}

// Gives names to what a module needs: its load function, the object for its `import.meta`, what is taken of the CommonJS
// modules that it loads, and the object of its namespace.
fn give_module<'a>(
    names: &mut BundleNames<'a>,
    linking: &Linking<'a>,
    which: usize,
    part: &BundleModule<'_, 'a>,
) -> Result<(), MergeError>
    ensures given { OnOk result ((p : Program) (list : List ℕ) (written : ℕ → Bool) →
        IsLinkingOf p linking.now →
        HandsOver p list linking.now →
        AreModules p →
        IsReached p which →
        IsPartOf p which part.now →
        is_some part.now.written ≡ written which →
        GivesNames p list (IsGiven written (IsOfModule p which)) names.old names.new) }
    ensures refused { IfErr result (λ refusal.
        (p : Program) (list : List ℕ) (written : ℕ → Bool) →
        IsLinkingOf p linking.now →
        HandsOver p list linking.now →
        AreModules p →
        IsReached p which →
        IsPartOf p which part.now →
        is_some part.now.written ≡ written which →
        RefusesLabels (IsGiven written (IsOfModule p which)) names.old refusal) }
{
    give_load(names, linking, which)?;
    give_meta(names, which, part)?;
    give_loads(names, linking, which)?;
    give_namespace(names, linking, which)
}

// Gives a name to the load function of a module, if it is CommonJS.
fn give_load(
    names: &mut BundleNames<'_>,
    linking: &Linking<'_>,
    which: usize,
) -> Result<(), MergeError>
    ensures given { OnOk result ((p : Program) (list : List ℕ) →
        IsLinkingOf p linking.now →
        GivesNames p list (IsWhere (IsCommonJs p which) (NameOf (meaning.Load which)))
        names.old names.new) }
    ensures refused { IfErr result (λ refusal. (p : Program) →
        IsLinkingOf p linking.now →
        RefusesLabels (IsWhere (IsCommonJs p which) (NameOf (meaning.Load which)))
        names.old refusal) }
{
    if !linking.is_common_js(which) {
        return Ok(());
    }
    names.give(Label::Load { which }, "load")
}

// Gives a name to the object for the `import.meta` of a module, if it has that, and no statement holds it already.
fn give_meta(
    names: &mut BundleNames<'_>,
    which: usize,
    part: &BundleModule<'_, '_>,
) -> Result<(), MergeError>
    ensures given { OnOk result ((p : Program) (list : List ℕ) (written : ℕ → Bool) →
        IsPartOf p which part.now →
        is_some part.now.written ≡ written which →
        GivesNames p list (IsGiven written
        (IsWhere (has_import_meta (tree_of p which) ≡ true) (NameOf (meaning.Meta which))))
        names.old names.new) }
    ensures refused { IfErr result (λ refusal. (p : Program) (written : ℕ → Bool) →
        IsPartOf p which part.now →
        is_some part.now.written ≡ written which →
        RefusesLabels (IsGiven written
        (IsWhere (has_import_meta (tree_of p which) ≡ true) (NameOf (meaning.Meta which))))
        names.old refusal) }
{
    if !part.tables.has_import_meta {
        return Ok(());
    }
    if part.written.is_some() {
        return Ok(());
    }
    names.give(Label::Meta { which }, "importMeta")
}

// Gives names to what a module takes of the CommonJS modules that it loads.
fn give_loads<'a>(
    names: &mut BundleNames<'a>,
    linking: &Linking<'a>,
    which: usize,
) -> Result<(), MergeError>
    ensures given { OnOk result ((p : Program) (list : List ℕ) →
        HandsOver p list linking.now →
        AreModules p →
        IsReached p which →
        GivesNames p list (IsOfLoads p which) names.old names.new) }
    ensures refused { IfErr result (λ refusal. (p : Program) (list : List ℕ) →
        HandsOver p list linking.now →
        AreModules p →
        IsReached p which →
        RefusesLabels (IsOfLoads p which) names.old refusal) }
{
    for loaded in linking.loads(which) {
        give_loaded(names, linking, which, loaded)?;
    }
    Ok(())
}

// Gives a name to the object of a module's namespace, if that is meant.
fn give_namespace<'a>(
    names: &mut BundleNames<'a>,
    linking: &Linking<'a>,
    which: usize,
) -> Result<(), MergeError>
    ensures given { OnOk result ((p : Program) (list : List ℕ) →
        IsLinkingOf p linking.now →
        HandsOver p list linking.now →
        AreModules p →
        GivesNames p list
        (IsWhere (meaning.IsMeant p (meaning.Of (links.Namespace which)))
        (NameOf (meaning.Of (links.Namespace which))))
        names.old names.new) }
    ensures refused { IfErr result (λ refusal. (p : Program) →
        IsLinkingOf p linking.now →
        AreModules p →
        RefusesLabels
        (IsWhere (meaning.IsMeant p (meaning.Of (links.Namespace which)))
        (NameOf (meaning.Of (links.Namespace which))))
        names.old refusal) }
{
    if !linking.is_object_meant(which) {
        return Ok(());
    }
    give_target(names, linking, TargetRef::Namespace { which })
}

// Gives names to what a module takes of a CommonJS module.
fn give_loaded<'a>(
    names: &mut BundleNames<'a>,
    linking: &Linking<'a>,
    taker: usize,
    loaded: &Loaded<'a>,
) -> Result<(), MergeError>
    ensures given { OnOk result ((p : Program) (list : List ℕ) →
        HandsOver p list linking.now →
        IsTakable p (links.CommonJs taker loaded.now.which entries.Whole) →
        GivesNames p list
        (IsTakenOf (links.CommonJs taker loaded.now.which entries.Whole)
        (map (λ name. name.now) loaded.now.names.items) loaded.now.whole)
        names.old names.new) }
    ensures refused { IfErr result (λ refusal. (p : Program) (list : List ℕ) →
        HandsOver p list linking.now →
        IsTakable p (links.CommonJs taker loaded.now.which entries.Whole) →
        RefusesLabels
        (IsTakenOf (links.CommonJs taker loaded.now.which entries.Whole)
        (map (λ name. name.now) loaded.now.names.items) loaded.now.whole)
        names.old refusal) }
{
    let base = TargetRef::CommonJs {
        taker,
        which: loaded.which,
        taken: Taken::Whole,
    };
    give_taken(names, linking, base, &loaded.names, loaded.whole)
}

//! The names that modules link.

ghost use Rattle.std.specs.Prelude.{◌≡◌, ◌∷◌, [], Contains, IfOk, OnOk, map, option_map};
ghost use Rattle.bundle_rules.specs.Bundle.{IsAscending};
ghost use Rattle.bundle_rules.specs.Nodes.{Text};
ghost use Rattle.bundle_rules.specs.Program.{Program};
ghost use Rattle.bundle_link_index.specs.Outside.{IsIndexOf};
ghost use Rattle.bundle_link_index.specs.Programs.{AreModulesKnown};
ghost use Rattle.bundle_link_index.specs.Says.{target_of};
ghost use Rattle.bundle_link_targets.specs.Names.{AreLinkedOf, GainsNames, HasNamesOf, IsLinkedTo, IsNameIn, IsNamedBy, LinksAmong, NotesTarget, target_pair, texts_in};

use bundle_link_index::index::DEFAULT;
use bundle_link_index::{Asked, Index, Kinds, TargetRef};
use bundle_link_tables::Export;
use bundle_scope_denote::texts::TextSet;
use std::alloc::{AllocError, Global};

/// The names that a module links, ascending, with their targets.
pub fn linked_names<'a>(
    alloc: Global,
    kinds: &Kinds<'_, '_, 'a>,
    index: &mut Index<'a>,
    which: usize,
) -> Result<Vec<(&'a str, TargetRef<'a>)>, AllocError>
    ensures right { IfOk result (λ pairs.
        (p : Program) →
        IsIndexOf p index.old →
        AreModulesKnown p kinds.now →
        AreLinkedOf p which (map target_pair pairs.items)) }
    ensures ascending { IfOk result (λ pairs.
        IsAscending (map (λ pair. pair.0) (map target_pair pairs.items))) }
    ensures same { OnOk result (index.new ≡ index.old) }
{
    let names = names(alloc, kinds, index, which)?;
    let linked = linked_among(alloc, index, which, &names)?;
    Ok(linked)
}

// Of these names those that a module links, with their targets.
fn linked_among<'a>(
    alloc: Global,
    index: &mut Index<'a>,
    which: usize,
    names: &[&'a str],
) -> Result<Vec<(&'a str, TargetRef<'a>)>, AllocError>
    ensures right { IfOk result (λ pairs. (p : Program) → IsIndexOf p index.old →
        LinksAmong p which (map (λ name. name.now) names.now) (map target_pair pairs.items)) }
    ensures ascending { IsAscending (map (λ name. name.now) names.now) →
        IfOk result (λ pairs. IsAscending (map (λ pair. pair.0) (map target_pair pairs.items))) }
    ensures same { OnOk result (index.new ≡ index.old) }
{
    let mut linked = Vec::new(alloc);
    for name in names {
        let target = target_of(alloc, index, which, *name)?;
        add_linked(&mut linked, *name, target)?;
    }
    Ok(linked)
}

// The target to which a module links a name.
fn target_of<'a>(
    alloc: Global,
    index: &mut Index<'a>,
    which: usize,
    name: &'a str,
) -> Result<Option<TargetRef<'a>>, AllocError>
    ensures right { IfOk result (λ target. (p : Program) → IsIndexOf p index.old →
        IsLinkedTo p which name.now (option_map target_of target)) }
    ensures same { OnOk result (index.new ≡ index.old) }
{
    let answer = index.answer(alloc, Asked { which, name })?;
    Ok(answer.linked())
}

// Notes the target of a name, where there is one.
fn add_linked<'a>(
    linked: &mut Vec<(&'a str, TargetRef<'a>)>,
    name: &'a str,
    target: Option<TargetRef<'a>>,
) -> Result<(), AllocError>
    ensures { OnOk result
        (NotesTarget (map target_pair linked.old.items) name.now (option_map target_of target.entry)
        (map target_pair linked.new.items)) }
{
    match target {
        Some(target) => {
            linked.push((name, target))?;
            Ok(())
        }
        None => Ok(()),
    }
}

// The names of the entries that a module has or that stars lead to, ascending.
fn names<'a>(
    alloc: Global,
    kinds: &Kinds<'_, '_, 'a>,
    index: &Index<'a>,
    which: usize,
) -> Result<Vec<&'a str>, AllocError>
    ensures there { IfOk result (λ names.
        (p : Program) →
        IsIndexOf p index.now →
        AreModulesKnown p kinds.now →
        HasNamesOf p which (map (λ name. name.now) names.items)) }
    ensures ascending { IfOk result (λ names. IsAscending (map (λ name. name.now) names.items)) }
{
    let names = entry_names(alloc, kinds, index, which)?;
    let sorted = sorted(alloc, &names)?;
    Ok(sorted)
}

// These names, ascending.
fn sorted<'a>(alloc: Global, names: &TextSet<&'a str>) -> Result<Vec<&'a str>, AllocError>
    ensures there { IfOk result (λ sorted. (x : Text) → Contains (texts_in names.now) x →
        Contains (map (λ name. name.now) sorted.items) x) }
    ensures ascending { IfOk result (λ sorted.
        IsAscending (map (λ name. name.now) sorted.items)) }
{
    let mut sorted = Vec::new(alloc);
    let all = names.as_slice();
    for name in all {
        sorted.push(*name)?;
    }
    sorted.sort_unstable();
    Ok(sorted)
}

// The names of the entries that a module has or that stars lead to.
fn entry_names<'a>(
    alloc: Global,
    kinds: &Kinds<'_, '_, 'a>,
    index: &Index<'a>,
    which: usize,
) -> Result<TextSet<&'a str>, AllocError>
    ensures { IfOk result (λ names.
        (p : Program) →
        IsIndexOf p index.now →
        AreModulesKnown p kinds.now →
        HasNamesOf p which (texts_in names)) }
{
    let mut names = TextSet::new(alloc);
    let reach = index.reach(alloc, which)?;
    let others = reach.as_slice();
    for other in others {
        add_names_of(kinds, *other, *other == which, &mut names)?;
    }
    Ok(names)
}

// Adds the names of the entries of a module, but for `default` of another.
fn add_names_of<'a>(
    kinds: &Kinds<'_, '_, 'a>,
    which: usize,
    is_own: bool,
    names: &mut TextSet<&'a str>,
) -> Result<(), AllocError>
    ensures { OnOk result
        (GainsNames (texts_in names.old) (IsNameIn kinds.now which is_own) (texts_in names.new)) }
{
    match kinds.tables(which) {
        Some(tables) => add_names(&tables.exports, is_own, names),
        None => Ok(()),
    }
}

// Adds the names of exports, but for `default` of another module.
fn add_names<'a>(
    exports: &[Export<'a>],
    is_own: bool,
    names: &mut TextSet<&'a str>,
) -> Result<(), AllocError>
    ensures { OnOk result
        (GainsNames (texts_in names.old) (IsNamedBy exports.now is_own) (texts_in names.new)) }
{
    for export in exports {
        add_name(*export, is_own, names)?;
    }
    Ok(())
}

// Adds the name of an export, but for `default` of another module.
fn add_name<'a>(
    export: Export<'a>,
    is_own: bool,
    names: &mut TextSet<&'a str>,
) -> Result<(), AllocError>
    ensures { OnOk result
        (GainsNames (texts_in names.old) (IsNamedBy (export.entry ∷ []) is_own) (texts_in names.new)) }
{
    if is_own || export.name != DEFAULT {
        names.insert(export.name)?;
        return Ok(());
    }
    Ok(())
}

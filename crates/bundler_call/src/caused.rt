//! The bundles of entries, before they are finished, and beside each what its items are made for.

ghost use Rattle.std.specs.Prelude.{IfErr, IfOk, map};
ghost use Rattle.std.specs.List.{AllZip};
ghost use Rattle.bundle_rules.specs.Kept.{Kept};
ghost use Rattle.bundler_call.specs.Caused.{AreCausesToldFor};
ghost use Rattle.bundler_call.specs.Judged.{IsMergedBundle};
ghost use Rattle.bundler_call.specs.Kept.{entry_of, kept_of, settings_of};
ghost use Rattle.bundler_call.specs.Linking.{answered_by, IsListLoaded, IsNumberedOn, IsReadListOf, IsRefusalOfEntries};
ghost use Rattle.bundler_call.specs.Loading.{files_on, AreFilesSound};
ghost use Rattle.bundler_call.specs.declared.load.LoadList.{LoadList};

use crate::Kept as Keeping;
use crate::bundle::{Bundle, BundleKind};
use crate::linked::caused_on;
use crate::load::LoadList;
use crate::program::program_on;
use bundle_merge_causes::BundleCauses;
use bundle_tree::hook::Hook;
use bundle_tree::load::ModuleData;
use bundle_tree_names::ModuleId;
use bundle_tree_names::file_name::FileName;
use bundler_entry::{EntryCall, EntryError, OrderedConfig, ReadFiles};
use std::alloc::Global;

/// A bundle for each entry, before it is finished, and what its items are made for, where these are the numbers of the
/// entries' files, and all that they need is on the list.
pub(crate) fn caused_bundles(
    alloc: Global,
    kept: &Keeping<ModuleData>,
    list: &LoadList,
    config: &OrderedConfig,
    hook: &dyn Hook,
    entries: Vec<(String, FileName)>,
    ids: Vec<ModuleId>,
) -> Result<(Vec<Bundle>, Vec<BundleCauses>), EntryError>
    requires { AreFilesSound (kept_of kept.now) (files_on list.now) }
    ensures bundles { IfOk result (λ made.
        IsListLoaded (settings_of config.now) (kept_of kept.now) list.now →
        AllZip (IsNumberedOn (kept_of kept.now) list.now) entries.items ids.items →
        AllZip
        (IsMergedBundle (answered_by (may_give hook.now) (may_fail_hook hook.now)) config.now
        (kept_of kept.now))
        entries.items made.0.items) }
    ensures causes { IfOk result (λ made.
        IsListLoaded (settings_of config.now) (kept_of kept.now) list.now →
        AllZip (IsNumberedOn (kept_of kept.now) list.now) entries.items ids.items →
        AllZip (AreCausesToldFor (settings_of config.now) (kept_of kept.now)) entries.items
        made.1.items) }
    ensures refused { IfErr result (λ unlinked.
        IsListLoaded (settings_of config.now) (kept_of kept.now) list.now →
        AllZip (IsNumberedOn (kept_of kept.now) list.now) entries.items ids.items →
        IsRefusalOfEntries (answered_by (may_give hook.now) (may_fail_hook hook.now))
        (settings_of config.now) (kept_of kept.now) (map entry_of entries.items) unlinked) }
{
    let program = program_on(kept, alloc, list, config)?;
    caused_of(alloc, &program, config, hook, entries, ids)
}

// The same, given what the files say.
fn caused_of<'x>(
    alloc: Global,
    program: &ReadFiles<'x>,
    config: &OrderedConfig,
    hook: &dyn Hook,
    entries: Vec<(String, FileName)>,
    ids: Vec<ModuleId>,
) -> Result<(Vec<Bundle>, Vec<BundleCauses>), EntryError>
    ensures bundles { IfOk result (λ made. (kept : Kept) (list : LoadList) →
        IsReadListOf (settings_of config.now) kept list program.now →
        AllZip (IsNumberedOn kept list) entries.items ids.items →
        AllZip (IsMergedBundle (answered_by (may_give hook.now) (may_fail_hook hook.now)) config.now
        kept) entries.items made.0.items) }
    ensures causes { IfOk result (λ made. (kept : Kept) (list : LoadList) →
        IsReadListOf (settings_of config.now) kept list program.now →
        AllZip (IsNumberedOn kept list) entries.items ids.items →
        AllZip (AreCausesToldFor (settings_of config.now) kept) entries.items made.1.items) }
    ensures refused { IfErr result (λ unlinked. (kept : Kept) (list : LoadList) →
        IsReadListOf (settings_of config.now) kept list program.now →
        AllZip (IsNumberedOn kept list) entries.items ids.items →
        IsRefusalOfEntries (answered_by (may_give hook.now) (may_fail_hook hook.now))
        (settings_of config.now) kept (map entry_of entries.items) unlinked) }
{
    let mut bundles = Vec::new(alloc);
    let mut all = Vec::new(alloc);
    for (entry, id) in entries.into_iter().zip(ids) {
        let (name, file) = entry;
        let call = EntryCall {
            program,
            config,
            entry: &file,
        };
        let (module, causes) = caused_on(alloc, &call, hook, id)?;
        let kind = BundleKind::Named { name };
        bundles.push(Bundle { kind, id, module })?;
        all.push(causes)?;
    }
    Ok((bundles, all))
}

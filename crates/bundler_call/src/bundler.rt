//! The bundler.

ghost use Rattle.std.specs.Prelude.{◌≡◌, ◌<◌, false, true, List, [], Some, IfOk, IfErr, IfSome, OnOk, length, map, string_bytes};
ghost use Rattle.std.specs.List.{AllZip};
ghost use Rattle.bundle_tree_names.specs.FileName.{name_of};
ghost use Rattle.bundle_rules.specs.Faults.{DoubledEntry, fault_of};
ghost use Rattle.bundle_rules.specs.Entries.{Settings};
ghost use Rattle.bundle_rules.specs.Headline.{AnswersNothing, IsHeadline};
ghost use Rattle.bundle_rules.specs.Judging.{Completes, NumbersEach};
ghost use Rattle.bundle_rules.specs.Kept.{nothing_kept, Kept};
ghost use Rattle.bundler_call.specs.Answer.{answer_told};
ghost use Rattle.bundler_call.specs.Caused.{answer_beside, AreExplained};
ghost use Rattle.bundler_call.specs.Bundler.{config_of, entry_files, hook_of, kept_by, loader_of, parties_held, resolver_of, settings_held, HasFileNumber};
ghost use Rattle.bundler_call.specs.Judged.{EndsJudging, AreEntriesApart, IsFaultOfList, IsFinishedBundle, IsMergedBundle, IsRefusalTold, parties_asked};
ghost use Rattle.bundler_call.specs.Kept.{entry_of, kept_of, settings_of, IsBounded};
ghost use Rattle.bundler_call.specs.Library.{GoesFurther, MovesOn};
ghost use Rattle.bundler_call.specs.Linking.{answered_by, IsListLoaded, IsNumberedOn, IsReadListOf, IsRefusalOfEntries};
ghost use Rattle.bundler_call.specs.Many.{AnsweredCall, AreAnswered, IsHeadlineOfCalls, and_call};
ghost use Rattle.bundler_call.specs.Loading.{files_on, AreMet, AreFilesNumbered, AreFilesSound};
ghost use Rattle.bundler_call.specs.declared.load.LoadList.{LoadList};

use crate::Kept as Keeping;
use crate::bundle::{Bundle, BundleKind};
use crate::caused::caused_bundles;
use crate::kept::note_file;
use crate::library::{Asking, Library};
use crate::linked::module_on;
use crate::load::{LoadList, load_all};
use crate::marked::Marked;
use crate::program::program_on;
use bundle_merge_causes::BundleCauses;
use bundle_scope_denote::texts::TextSet;
use bundle_tree::hook::Hook;
use bundle_tree::load::{Load, ModuleData};
use bundle_tree::resolve::Resolve;
use bundle_tree_names::ModuleId;
use bundle_tree_names::config::Config;
use bundle_tree_names::error::Error;
use bundle_tree_names::file_name::FileName;
use bundler_entry::{EntryCall, EntryError, OrderedConfig, ReadFiles, finished};
use std::alloc::{AllocError, Global};

/// Makes bundles. It keeps the numbers of files, the modules that were loaded and the files that their
/// specifiers lead to, so that no module is loaded twice.
#[derive(Drop)]
pub struct Bundler<L: Load, R: Resolve> {
    library: Library<L, R>,
    config: OrderedConfig,
    hook: Box<dyn Hook>,
}

impl<L: Load + Drop, R: Resolve + Drop> Bundler<L, R> {
    /// A bundler that keeps nothing yet. It takes no memory.
    pub fn new(alloc: Global, loader: L, resolver: R, config: Config, hook: Box<dyn Hook>) -> Self
        ensures empty { kept_by result ≡ nothing_kept }
        ensures loader { loader_of result ≡ loader }
        ensures resolver { resolver_of result ≡ resolver }
        ensures config { config_of result ≡ record { base = config; in_standard_order = false } }
        ensures hook { hook_of result ≡ hook }
    {
        Bundler {
            library: Library::new(alloc, loader, resolver),
            config: OrderedConfig {
                base: config,
                in_standard_order: false,
            },
            hook,
        }
    }

    /// The same of a configuration with the order that is asked for.
    pub fn with_order(
        alloc: Global,
        loader: L,
        resolver: R,
        config: OrderedConfig,
        hook: Box<dyn Hook>,
    ) -> Self
        ensures empty { kept_by result ≡ nothing_kept }
        ensures loader { loader_of result ≡ loader }
        ensures resolver { resolver_of result ≡ resolver }
        ensures config { config_of result ≡ config }
        ensures hook { hook_of result ≡ hook }
    {
        Bundler {
            library: Library::new(alloc, loader, resolver),
            config,
            hook,
        }
    }

    /// The same bundler, whose bundles have the modules in the order in which ECMA-262 evaluates them (16.2.1.5.2:
    /// post-order of requests), each by itself, those of a cycle too.
    pub fn in_standard_order(self) -> Self
        ensures config { config_of result ≡ record (config_of self) { in_standard_order = true } }
        ensures kept { kept_by result ≡ kept_by self }
        ensures loader { loader_of result ≡ loader_of self }
        ensures resolver { resolver_of result ≡ resolver_of self }
        ensures hook { hook_of result ≡ hook_of self }
    {
        let mut bundler = self;
        bundler.config.in_standard_order = true;
        bundler
    }

    /// A bundle for each entry, a name and a file, in their order. Nobody is asked where there is no entry.
    ///
    /// What a bundle of an entry holds stands in `docs/DEFINITIONS.md`, and so does why there may be none, and
    /// which refusal comes first.
    ///
    /// What was kept stays kept, after a refusal too, and what comes to it are answers of the loader and
    /// the resolver to what the call has to ask. A module is asked for only where it is not kept. Over many calls,
    /// refused ones among them, each answer is right for what was kept before it, and what is kept only grows.
    pub fn bundle(
        &mut self,
        alloc: Global,
        entries: Vec<(String, FileName)>,
    ) -> Result<Vec<Bundle>, Error>
        ensures headline { IsHeadline
            (parties_held L.Load R.Resolve ⟦<dyn Hook as Hook>⟧ self.old)
            (settings_held self.old) (map entry_of entries.items)
            (kept_by self.old) (answer_told result) (kept_by self.new) }
        ensures calls { (first : Kept) (calls : List AnsweredCall) →
            AreAnswered (parties_held L.Load R.Resolve ⟦<dyn Hook as Hook>⟧ self.old)
            (settings_held self.old) first calls (kept_by self.old) →
            IsHeadlineOfCalls (parties_held L.Load R.Resolve ⟦<dyn Hook as Hook>⟧ self.old)
            (settings_held self.old) first
            (and_call calls (map entry_of entries.items) (answer_told result)) (kept_by self.new) }
        ensures loader { loader_of self.new ≡ loader_of self.old }
        ensures resolver { resolver_of self.new ≡ resolver_of self.old }
        ensures config { config_of self.new ≡ config_of self.old }
        ensures hook { hook_of self.new ≡ hook_of self.old }
        ensures no_entry { entries.items ≡ [] →
            AnswersNothing (kept_by self.old) (answer_told result) (kept_by self.new)
            × (self.new ≡ self.old) }
    {
        if entries.is_empty() {
            return Ok(Vec::new(alloc));
        }
        let (list, ids) = loaded(
            &mut self.library,
            alloc,
            entries.as_slice(),
            &self.config,
            Asking::Lent,
        )?;
        let kept = &self.library.kept;
        let merged = merged_bundles(alloc, kept, &list, &self.config, &*self.hook, entries, ids)?;
        Ok(finished_bundles(alloc, merged, &self.config)?)
    }

    /// What `bundle` gives, refused as that is, of a bundler that is called for the last time: the loader and the resolver
    /// are let go of when all modules are loaded, and the modules when they are merged, so that it takes less memory.
    pub fn into_bundles(
        self,
        alloc: Global,
        entries: Vec<(String, FileName)>,
    ) -> Result<Vec<Bundle>, Error>
        ensures headline { (kept : Kept) × IsHeadline
            (parties_held L.Load R.Resolve ⟦<dyn Hook as Hook>⟧ self)
            (settings_held self) (map entry_of entries.items)
            (kept_by self) (answer_told result) kept }
        ensures no_entry { entries.items ≡ [] →
            AnswersNothing (kept_by self) (answer_told result) (kept_by self) }
    {
        if entries.is_empty() {
            return Ok(Vec::new(alloc));
        }
        let Bundler {
            library,
            config,
            hook,
        } = self;
        let mut library = library;
        let (list, ids) = loaded(
            &mut library,
            alloc,
            entries.as_slice(),
            &config,
            Asking::Owned,
        )?;
        let kept = library.into_kept();
        let merged = merged_bundles(alloc, &kept, &list, &config, &*hook, entries, ids)?;
        drop(kept);
        Ok(finished_bundles(alloc, merged, &config)?)
    }

    /// What `bundle` gives, and beside each bundle what each of its items is made for, which costs no second merge.
    pub fn bundle_with_causes(
        &mut self,
        alloc: Global,
        entries: Vec<(String, FileName)>,
    ) -> Result<(Vec<Bundle>, Vec<BundleCauses>), Error>
        ensures headline { IsHeadline
            (parties_held L.Load R.Resolve ⟦<dyn Hook as Hook>⟧ self.old)
            (settings_held self.old) (map entry_of entries.items)
            (kept_by self.old) (answer_beside result) (kept_by self.new) }
        ensures calls { (first : Kept) (calls : List AnsweredCall) →
            AreAnswered (parties_held L.Load R.Resolve ⟦<dyn Hook as Hook>⟧ self.old)
            (settings_held self.old) first calls (kept_by self.old) →
            IsHeadlineOfCalls (parties_held L.Load R.Resolve ⟦<dyn Hook as Hook>⟧ self.old)
            (settings_held self.old) first
            (and_call calls (map entry_of entries.items) (answer_beside result))
            (kept_by self.new) }
        ensures causes { IfOk result (λ made. AreExplained
            (parties_held L.Load R.Resolve ⟦<dyn Hook as Hook>⟧ self.old)
            (settings_held self.old) (kept_by self.new) (map entry_of entries.items)
            made.0.items made.1.items) }
        ensures loader { loader_of self.new ≡ loader_of self.old }
        ensures resolver { resolver_of self.new ≡ resolver_of self.old }
        ensures config { config_of self.new ≡ config_of self.old }
        ensures hook { hook_of self.new ≡ hook_of self.old }
        ensures no_entry { entries.items ≡ [] →
            AnswersNothing (kept_by self.old) (answer_beside result) (kept_by self.new)
            × (self.new ≡ self.old) }
    {
        if entries.is_empty() {
            return Ok((Vec::new(alloc), Vec::new(alloc)));
        }
        let config = &self.config;
        let asking = Asking::Lent;
        let (list, ids) = loaded(&mut self.library, alloc, entries.as_slice(), config, asking)?;
        let (kept, hook) = (&self.library.kept, &*self.hook);
        let (merged, causes) = caused_bundles(alloc, kept, &list, config, hook, entries, ids)?;
        let bundles = finished_bundles(alloc, merged, config)?;
        Ok((bundles, causes))
    }

    /// What `into_bundles` gives, and beside each bundle what each of its items is made for, which costs no second merge.
    pub fn into_bundles_with_causes(
        self,
        alloc: Global,
        entries: Vec<(String, FileName)>,
    ) -> Result<(Vec<Bundle>, Vec<BundleCauses>), Error>
        ensures headline { (kept : Kept) × IsHeadline
            (parties_held L.Load R.Resolve ⟦<dyn Hook as Hook>⟧ self)
            (settings_held self) (map entry_of entries.items)
            (kept_by self) (answer_beside result) kept
            × IfOk result (λ made. AreExplained
            (parties_held L.Load R.Resolve ⟦<dyn Hook as Hook>⟧ self)
            (settings_held self) kept (map entry_of entries.items) made.0.items made.1.items) }
        ensures no_entry { entries.items ≡ [] →
            AnswersNothing (kept_by self) (answer_beside result) (kept_by self) }
    {
        if entries.is_empty() {
            return Ok((Vec::new(alloc), Vec::new(alloc)));
        }
        let Bundler {
            library,
            config,
            hook,
        } = self;
        let mut library = library;
        let (list, ids) = loaded(
            &mut library,
            alloc,
            entries.as_slice(),
            &config,
            Asking::Owned,
        )?;
        let kept = library.into_kept();
        let (merged, causes) = caused_bundles(alloc, &kept, &list, &config, &*hook, entries, ids)?;
        drop(kept);
        let bundles = finished_bundles(alloc, merged, &config)?;
        Ok((bundles, causes))
    }
}

// Loads all that the entries need. Gives the load list, and the numbers of the entries' files in their order.
fn loaded<L: Load + Drop, R: Resolve + Drop>(
    library: &mut Library<L, R>,
    alloc: Global,
    entries: &[(String, FileName)],
    config: &OrderedConfig,
    asking: Asking,
) -> Result<(LoadList, Vec<ModuleId>), Error>
    requires { 0 < length entries.now }
    ensures grows { GoesFurther L.may_load R.may_resolve (settings_of config.now)
        (entry_files entries.now) library.old library.new }
    ensures lent { asking ≡ Asking.Lent → library.new.loader ≡ library.old.loader }
    ensures loaded { IfOk result (λ made.
        IsListLoaded (settings_of config.now) (kept_of library.new.kept) made.0) }
    ensures sound { IfOk result (λ made. AreFilesSound (kept_of library.new.kept) (files_on made.0)) }
    ensures numbered { IfOk result (λ made.
        AllZip (IsNumberedOn (kept_of library.new.kept) made.0) entries.now made.1.items) }
    ensures completes { IfOk result (λ made.
        Completes
        (parties_asked L.may_load L.may_fail_load R.may_resolve R.may_fail_resolve library.old.loader
        library.old.resolver)
        (settings_of config.now) (map entry_of entries.now) (kept_of library.old.kept)
        (kept_of library.new.kept)) }
    ensures refused { IfErr result (IsRefusalTold
        (parties_asked L.may_load L.may_fail_load R.may_resolve R.may_fail_resolve library.old.loader
        library.old.resolver)
        (settings_of config.now) (map entry_of entries.now) (kept_of library.old.kept)
        (kept_of library.new.kept)) }
{
    refuse_doubled_entry(alloc, entries)?;
    let (list, ids) = numbered(library, alloc, entries)?;
    let list = load_all(library, alloc, list, config, asking)?;
    Ok((list, ids))
}

// Refuses two entries of one name or one file.
fn refuse_doubled_entry(alloc: Global, entries: &[(String, FileName)]) -> Result<(), Error>
    ensures apart { OnOk result (AreEntriesApart (map entry_of entries.now)) }
    ensures doubled { IfErr result (λ refusal.
        IfSome (fault_of refusal) (IsFaultOfList (map entry_of entries.now))) }
{
    let mut names = TextSet::new(alloc);
    let mut files = Marked::new(alloc);
    for (name, file) in entries {
        let is_new_name = names.insert(name.as_str())?;
        let is_new_file = note_file(&mut files, file)?;
        if !(is_new_name && is_new_file) {
            return Err(doubled_entry(name, file)?);
        }
    }
    Ok(())
}

// The refusal of an entry.
fn doubled_entry(name: &String, file: &FileName) -> Result<Error, AllocError>
    ensures { IfOk result (λ refusal.
        fault_of refusal ≡ Some (DoubledEntry (name_of file.now) (string_bytes name.now))) }
{
    Ok(Error::DoubledEntry {
        file: file.clone()?,
        name: name.clone()?,
    })
}

// The list of the entries' files, and their numbers in the order of the entries.
fn numbered<L: Load + Drop, R: Resolve + Drop>(
    library: &mut Library<L, R>,
    alloc: Global,
    entries: &[(String, FileName)],
) -> Result<(LoadList, Vec<ModuleId>), Error>
    ensures numbered { IfOk result (λ made.
        AllZip (HasFileNumber (kept_of library.new.kept)) entries.now made.1.items) }
    ensures bounded { IfOk result (λ made.
        0 < length entries.now → IsBounded (kept_of library.new.kept)) }
    ensures listed { IfOk result (λ made. AreFilesNumbered (kept_of library.new.kept) made.0) }
    ensures unasked { IfOk result (λ made. made.0.deps.items ≡ []) }
    ensures met { IfOk result (λ made. AreMet (kept_of library.new.kept) (files_on made.0)) }
    ensures grows { (settings : Settings) →
        MovesOn L.may_load R.may_resolve settings (entry_files entries.now) library.old library.new }
    ensures judged { EndsJudging result (λ outcome.
        NumbersEach (kept_of library.old.kept) (entry_files entries.now) outcome
        (kept_of library.new.kept)) }
    ensures all { IfOk result (λ made.
        AreEntriesApart (map entry_of entries.now) → files_on made.0 ≡ entry_files entries.now) }
{
    let mut list = LoadList::new(alloc);
    let mut ids = Vec::new(alloc);
    for (_, file) in entries {
        let id = library.id(file)?;
        list.place(file, id)?;
        ids.push(id)?;
    }
    Ok((list, ids))
}

// The bundles, finished.
fn finished_bundles(
    alloc: Global,
    merged: Vec<Bundle>,
    config: &OrderedConfig,
) -> Result<Vec<Bundle>, AllocError>
    ensures { IfOk result (λ bundles.
        AllZip (IsFinishedBundle config.now) merged.items bundles.items) }
{
    let mut bundles = Vec::new(alloc);
    for bundle in merged {
        bundles.push(finished_bundle(alloc, bundle, config)?)?;
    }
    Ok(bundles)
}

// A bundle, finished.
fn finished_bundle(
    alloc: Global,
    merged: Bundle,
    config: &OrderedConfig,
) -> Result<Bundle, AllocError>
    ensures { IfOk result (IsFinishedBundle config.now merged) }
{
    let Bundle { kind, id, module } = merged;
    let module = finished(alloc, module, &config.base)?;
    Ok(Bundle { kind, id, module })
}

// A bundle for each entry, before it is finished, where these are the numbers of their files, and all that they need is
// on the list.
fn merged_bundles(
    alloc: Global,
    kept: &Keeping<ModuleData>,
    list: &LoadList,
    config: &OrderedConfig,
    hook: &dyn Hook,
    entries: Vec<(String, FileName)>,
    ids: Vec<ModuleId>,
) -> Result<Vec<Bundle>, EntryError>
    requires { AreFilesSound (kept_of kept.now) (files_on list.now) }
    ensures bundles { IfOk result (λ bundles.
        IsListLoaded (settings_of config.now) (kept_of kept.now) list.now →
        AllZip (IsNumberedOn (kept_of kept.now) list.now) entries.items ids.items →
        AllZip
        (IsMergedBundle (answered_by (may_give hook.now) (may_fail_hook hook.now)) config.now
        (kept_of kept.now))
        entries.items bundles.items) }
    ensures refused { IfErr result (λ unlinked.
        IsListLoaded (settings_of config.now) (kept_of kept.now) list.now →
        AllZip (IsNumberedOn (kept_of kept.now) list.now) entries.items ids.items →
        IsRefusalOfEntries (answered_by (may_give hook.now) (may_fail_hook hook.now))
        (settings_of config.now) (kept_of kept.now) (map entry_of entries.items) unlinked) }
{
    let program = program_on(kept, alloc, list, config)?;
    bundles_of(alloc, &program, config, hook, entries, ids)
}

// The same, given what the files say.
fn bundles_of<'x>(
    alloc: Global,
    program: &ReadFiles<'x>,
    config: &OrderedConfig,
    hook: &dyn Hook,
    entries: Vec<(String, FileName)>,
    ids: Vec<ModuleId>,
) -> Result<Vec<Bundle>, EntryError>
    ensures bundles { IfOk result (λ bundles. (kept : Kept) (list : LoadList) →
        IsReadListOf (settings_of config.now) kept list program.now →
        AllZip (IsNumberedOn kept list) entries.items ids.items →
        AllZip (IsMergedBundle (answered_by (may_give hook.now) (may_fail_hook hook.now)) config.now
        kept) entries.items bundles.items) }
    ensures refused { IfErr result (λ unlinked. (kept : Kept) (list : LoadList) →
        IsReadListOf (settings_of config.now) kept list program.now →
        AllZip (IsNumberedOn kept list) entries.items ids.items →
        IsRefusalOfEntries (answered_by (may_give hook.now) (may_fail_hook hook.now))
        (settings_of config.now) kept (map entry_of entries.items) unlinked) }
{
    let mut bundles = Vec::new(alloc);
    for (entry, id) in entries.into_iter().zip(ids) {
        let (name, file) = entry;
        let call = EntryCall {
            program,
            config,
            entry: &file,
        };
        let module = module_on(alloc, &call, hook, id)?;
        let kind = BundleKind::Named { name };
        bundles.push(Bundle { kind, id, module })?;
    }
    Ok(bundles)
}

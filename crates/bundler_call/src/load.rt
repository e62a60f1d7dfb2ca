//! The load list: the files that an entry needs, in the order in which they are met.

ghost use Rattle.std.specs.Prelude.{◌≡◌, ◌++◌, ◌∷◌, ℕ, suc, length, map, slice_get, string_bytes, [], List, Some, Contains, IsSome, IfOk, IfErr, IfSome, OnOk, OnErr};
ghost use Rattle.std.specs.Option.{option_map};
ghost use Rattle.bundle_tree_names.specs.FileName.{Name, name_of};
ghost use Rattle.bundle_tree_names.specs.ModuleIdGenerator.{IsDistinct};
ghost use Rattle.bundle_rules.specs.Entries.{Settings};
ghost use Rattle.bundle_rules.specs.Faults.{IsFaultless, IsFirstTreeFault, fault_of};
ghost use Rattle.bundle_rules.specs.Judging.{Asks, LoadsAll, requests_in};
ghost use Rattle.bundle_rules.specs.Kept.{Kept, kept_file, kept_module, number_in};
ghost use Rattle.bundle_rules.specs.Program.{Loaded};
ghost use Rattle.bundle_link.specs.Refusals.{HasExternals};
ghost use Rattle.bundler_call.specs.KeptFiles.{asked_of};
ghost use Rattle.bundler_call.specs.Judged.{EndsJudging, LeadsOn, parties_asked};
ghost use Rattle.bundler_call.specs.Kept.{kept_of, settings_of, AreRequested, IsKept, IsFileMet, IsRequested, LoadsAlike};
ghost use Rattle.bundler_call.specs.Library.{GoesFurther, KeepsLibrary, MovesOn};
ghost use Rattle.bundler_call.specs.Loading.{files_on, ids_on, AllLead, AreAsked, AreMet, AreFilesNumbered, AreFilesSound, BeginsList, AreRequestsNoted, GoesLast, IsFileSound, RequestLeads};

use crate::Request;
use crate::library::{Asking, Library};
use crate::listed::NumberedFiles;
use bundle_link::tables::{externals_of, requests_by};
use bundle_scope_denote::texts::TextSet;
use bundle_tree::load::Load;
use bundle_tree::resolve::Resolve;
use bundle_tree_names::ModuleId;
use bundle_tree_names::error::Error;
use bundle_tree_names::file_name::FileName;
use bundler_entry::OrderedConfig;
use std::alloc::{AllocError, Global};

/// Files with their numbers, in the order in which they were met, and for each that was worked on its requests, in their
/// order, each with the number of the file to which it leads.
#[derive(Debug, Drop)]
pub struct LoadList {
    pub files: NumberedFiles,
    pub deps: Vec<Vec<(String, ModuleId)>>,
}

impl LoadList {
    /// A list without files. It takes no memory.
    pub(crate) fn new(alloc: Global) -> LoadList
        ensures files { files_on result ≡ [] }
        ensures deps { result.deps.items ≡ [] }
    {
        LoadList {
            files: NumberedFiles::new(alloc),
            deps: Vec::new(alloc),
        }
    }

    /// Puts a file with its number on the list, where it goes last unless it is there.
    pub(crate) fn place(&mut self, file: &FileName, id: ModuleId) -> Result<(), AllocError>
        requires { (kept : Kept) × (number_in kept (name_of file.now) ≡ Some id)
            × AreFilesNumbered kept self.old }
        ensures placed { OnOk result
            (GoesLast (files_on self.old) (name_of file.now) (files_on self.new)) }
        ensures numbered { (kept : Kept) →
            number_in kept (name_of file.now) ≡ Some id →
            AreFilesNumbered kept self.old →
            OnOk result (AreFilesNumbered kept self.new) }
        ensures unchanged { OnErr result (files_on self.new ≡ files_on self.old) }
        ensures absent { OnErr result (¬ Contains (files_on self.old) (name_of file.now)) }
        ensures deps { self.new.deps ≡ self.old.deps }
    {
        if self.files.has(id) {
            return Ok(());
        }
        self.files.push(file.clone()?, id)?;
        Ok(())
    }

    // The file at a place. No file has two.
    fn file_at(&self, place: usize) -> Result<Option<FileName>, AllocError>
        ensures file { IfOk result (λ file.
            option_map name_of file ≡ slice_get (files_on self.now) place) }
        ensures once { (kept : Kept) → AreFilesNumbered kept self.now → IsDistinct (files_on self.now) }
    {
        // `len` says that no number stands twice.
        let _count = self.files.len();
        match self.files.as_slice().get(place) {
            Some((file, _)) => Ok(Some(file.clone()?)),
            None => Ok(None),
        }
    }

    // Notes the requests of the next file.
    fn add_deps(&mut self, its: Vec<(String, ModuleId)>) -> Result<(), AllocError>
        ensures files { self.new.files ≡ self.old.files }
        ensures deps { OnOk result (self.new.deps.items ≡ self.old.deps.items ++ its ∷ []) }
    {
        self.deps.push(its)?;
        Ok(())
    }
}

/// Loads the files on a list and all files that they need, first in first out, and gives the list of all. Each file on it
/// is kept, and none is at fault by itself; each has its number, and its requests are noted.
pub(crate) fn load_all<L: Load + Drop, R: Resolve + Drop>(
    library: &mut Library<L, R>,
    alloc: Global,
    list: LoadList,
    config: &OrderedConfig,
    asking: Asking,
) -> Result<LoadList, Error>
    requires met { AreMet (kept_of library.old.kept) (files_on list) }
    requires numbered { AreFilesNumbered (kept_of library.old.kept) list }
    ensures grows { (entries : List Name) →
        GoesFurther L.may_load R.may_resolve (settings_of config.now) entries library.old
        library.new }
    ensures lent { asking ≡ Asking.Lent → library.new.loader ≡ library.old.loader }
    ensures loaded { IfOk result (λ list. AreFilesSound (kept_of library.new.kept) (files_on list)) }
    ensures begins { IfOk result (λ made. BeginsList (files_on list) (files_on made)) }
    ensures once { IfOk result (λ made. IsDistinct (files_on made)) }
    ensures numbered { IfOk result (λ made.
        AreFilesNumbered (kept_of library.old.kept) list →
        AreFilesNumbered (kept_of library.new.kept) made) }
    ensures asked { IfOk result (λ made.
        list.deps.items ≡ [] →
        AreFilesNumbered (kept_of library.old.kept) list →
        AreAsked (settings_of config.now) (kept_of library.new.kept) made
        × (length made.deps.items ≡ length (files_on made))) }
    ensures judged { EndsJudging result (λ outcome.
        LoadsAll
        (parties_asked L.may_load L.may_fail_load R.may_resolve R.may_fail_resolve library.old.loader
        library.old.resolver)
        (settings_of config.now) (files_on list) 0 (kept_of library.old.kept) outcome
        (kept_of library.new.kept)) }
{
    let external = externals_of(alloc, &config.base)?;
    let mut list = list;
    // A list of files is shorter than that.
    for place in 0..usize::MAX {
        let Some(file) = list.file_at(place)? else {
            return Ok(list);
        };
        work_on(library, alloc, &mut list, &file, config, &external, asking)?;
    }
    let _count = list.files.len();
    Ok(list)
}

// Loads a file, and puts those that it requests on the list. What is judged from the next place on is judged from its
// place on.
fn work_on<L: Load + Drop, R: Resolve + Drop>(
    library: &mut Library<L, R>,
    alloc: Global,
    list: &mut LoadList,
    file: &FileName,
    config: &OrderedConfig,
    external: &TextSet<&str>,
    asking: Asking,
) -> Result<(), Error>
    requires external { HasExternals external.now config.now.base }
    requires met { AreMet (kept_of library.old.kept) (files_on list.old) }
    requires numbered { AreFilesNumbered (kept_of library.old.kept) list.old }
    requires listed { IsFileMet (kept_of library.old.kept) (name_of file.now) }
    ensures grows { (entries : List Name) →
        GoesFurther L.may_load R.may_resolve (settings_of config.now) entries library.old
        library.new }
    ensures lent { asking ≡ Asking.Lent → library.new.loader ≡ library.old.loader }
    ensures stands { OnOk result
        (LoadsAlike L.may_load L.may_fail_load library.old.loader library.new.loader
        (kept_of library.new.kept)) }
    ensures loaded { OnOk result (IsFileSound (kept_of library.new.kept) (name_of file.now)) }
    ensures met { OnOk result (AreMet (kept_of library.new.kept) (files_on list.new)) }
    ensures begins { OnOk result (BeginsList (files_on list.old) (files_on list.new)) }
    ensures numbered { OnOk result
        (AreFilesNumbered (kept_of library.old.kept) list.old →
        AreFilesNumbered (kept_of library.new.kept) list.new) }
    ensures asked { OnOk result
        (AreFilesNumbered (kept_of library.old.kept) list.old →
        AreRequestsNoted (settings_of config.now) (kept_of library.new.kept) (name_of file.now) list.old
        list.new) }
    ensures judged { (first : L) (place : ℕ) →
        LoadsAlike L.may_load L.may_fail_load first library.old.loader (kept_of library.old.kept) →
        slice_get (files_on list.old) place ≡ Some (name_of file.now) →
        let parties = parties_asked L.may_load L.may_fail_load R.may_resolve R.may_fail_resolve first library.old.resolver in
        LeadsOn result
        (LoadsAll parties (settings_of config.now) (files_on list.old) place
        (kept_of library.old.kept))
        (LoadsAll parties (settings_of config.now) (files_on list.new) (suc place)
        (kept_of library.new.kept))
        (kept_of library.new.kept) }
{
    library.load(alloc, file, config, asking)?;
    let specifiers = kept_requests(library, alloc, file, config, external)?;
    let deps = ask_each(library, alloc, list, file, specifiers)?;
    list.add_deps(deps)?;
    Ok(())
}

// These specifiers of `file`, each with the number of the file that it means, which gets one and goes on the list where it
// is new there.
fn ask_each<L: Load + Drop, R: Resolve + Drop>(
    library: &mut Library<L, R>,
    alloc: Global,
    list: &mut LoadList,
    file: &FileName,
    specifiers: Vec<String>,
) -> Result<Vec<(String, ModuleId)>, Error>
    requires met { AreMet (kept_of library.old.kept) (files_on list.old) }
    requires numbered { AreFilesNumbered (kept_of library.old.kept) list.old }
    requires loaded { IsKept (kept_of library.old.kept) (name_of file.now) }
    ensures keeps { KeepsLibrary library.old library.new }
    ensures grows { (settings : Settings) (entries : List Name) →
        AreRequested settings (kept_of library.old.kept) (name_of file.now)
        (map string_bytes specifiers.items) →
        MovesOn L.may_load R.may_resolve settings entries library.old library.new }
    ensures met { OnOk result (AreMet (kept_of library.new.kept) (files_on list.new)) }
    ensures begins { OnOk result (BeginsList (files_on list.old) (files_on list.new)) }
    ensures numbered { OnOk result
        (AreFilesNumbered (kept_of library.old.kept) list.old →
        AreFilesNumbered (kept_of library.new.kept) list.new) }
    ensures asked { IfOk result (λ deps.
        map (λ dep. string_bytes dep.0) deps.items ≡ map string_bytes specifiers.items) }
    ensures leads { IfOk result (λ deps. AreFilesNumbered (kept_of library.old.kept) list.old →
        AllLead (kept_of library.new.kept) (ids_on list.new) (name_of file.now) deps.items) }
    ensures deps { list.new.deps ≡ list.old.deps }
    ensures judged { EndsJudging result (λ outcome.
        Asks
        (parties_asked L.may_load L.may_fail_load R.may_resolve R.may_fail_resolve library.old.loader
        library.old.resolver)
        (name_of file.now) (map string_bytes specifiers.items) (kept_of library.old.kept)
        (files_on list.old) outcome (kept_of library.new.kept) (files_on list.new)) }
{
    let mut deps = Vec::new(alloc);
    for specifier in specifiers {
        let id = id_of(library, alloc, list, file, &specifier)?;
        deps.push((specifier, id))?;
    }
    Ok(deps)
}

// The number of the file that `file` means by a specifier, which gets one and goes on the list where it is new there.
fn id_of<L: Load + Drop, R: Resolve + Drop>(
    library: &mut Library<L, R>,
    alloc: Global,
    list: &mut LoadList,
    file: &FileName,
    specifier: &String,
) -> Result<ModuleId, Error>
    requires met { AreMet (kept_of library.old.kept) (files_on list.old) }
    requires numbered { AreFilesNumbered (kept_of library.old.kept) list.old }
    requires loaded { IsKept (kept_of library.old.kept) (name_of file.now) }
    ensures keeps { KeepsLibrary library.old library.new }
    ensures grows { (settings : Settings) (entries : List Name) →
        IsRequested settings (kept_of library.old.kept)
        (record { file = name_of file.now; specifier = string_bytes specifier.now }) →
        MovesOn L.may_load R.may_resolve settings entries library.old library.new }
    ensures met { OnOk result (AreMet (kept_of library.new.kept) (files_on list.new)) }
    ensures begins { OnOk result (BeginsList (files_on list.old) (files_on list.new)) }
    ensures numbered { OnOk result
        (AreFilesNumbered (kept_of library.old.kept) list.old →
        AreFilesNumbered (kept_of library.new.kept) list.new) }
    ensures leads { IfOk result (λ id.
        AreFilesNumbered (kept_of library.old.kept) list.old →
        RequestLeads (kept_of library.new.kept) (ids_on list.new) (name_of file.now)
        (specifier.now, id)) }
    ensures deps { list.new.deps ≡ list.old.deps }
    ensures judged { EndsJudging result (λ outcome.
        Asks
        (parties_asked L.may_load L.may_fail_load R.may_resolve R.may_fail_resolve library.old.loader
        library.old.resolver)
        (name_of file.now) (string_bytes specifier.now ∷ []) (kept_of library.old.kept)
        (files_on list.old) outcome (kept_of library.new.kept) (files_on list.new)) }
{
    let request = request_of(file, specifier)?;
    library.resolve(alloc, &request)?;
    let target = target_of(library, &request)?;
    let id = library.id(&target)?;
    list.place(&target, id)?;
    Ok(id)
}

fn request_of(file: &FileName, specifier: &String) -> Result<Request, AllocError>
    ensures file { IfOk result (λ request. name_of request.file ≡ name_of file.now) }
    ensures specifier { IfOk result (λ request.
        string_bytes request.specifier ≡ string_bytes specifier.now) }
{
    Ok(Request {
        file: file.clone()?,
        specifier: specifier.clone()?,
    })
}

// The file that a request leads to, which is kept.
fn target_of<L: Load + Drop, R: Resolve + Drop>(
    library: &Library<L, R>,
    request: &Request,
) -> Result<FileName, AllocError>
    requires { IsSome (kept_file (kept_of library.now.kept) (asked_of request.now)) }
    ensures { IfOk result (λ file.
        kept_file (kept_of library.now.kept) (asked_of request.now) ≡ Some (name_of file)) }
{
    let target = library.target(request).unwrap();
    Ok(target.clone()?)
}

// The texts of a kept module's requests, once it is seen to have no fault of its own.
fn kept_requests<L: Load + Drop, R: Resolve + Drop>(
    library: &Library<L, R>,
    alloc: Global,
    file: &FileName,
    config: &OrderedConfig,
    external: &TextSet<&str>,
) -> Result<Vec<String>, Error>
    requires external { HasExternals external.now config.now.base }
    requires kept { IsKept (kept_of library.now.kept) (name_of file.now) }
    ensures faulty { IfErr result (λ refusal.
        (loaded : Loaded) →
        kept_module (kept_of library.now.kept) (name_of file.now) ≡ Some loaded →
        IfSome (fault_of refusal) (IsFirstTreeFault (name_of file.now) loaded.items)) }
    ensures faultless { IfOk result (λ texts.
        (loaded : Loaded) →
        kept_module (kept_of library.now.kept) (name_of file.now) ≡ Some loaded →
        IsFaultless (name_of file.now) loaded.items
        × (map string_bytes texts.items ≡ requests_in (settings_of config.now) loaded.items)) }
{
    let loaded = library.module(file).unwrap();
    requests_by(alloc, file, &loaded.module, &config.base, external)
}

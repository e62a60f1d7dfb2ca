//! The modules that a bundler knows, and the parties that it asks for those that it lacks.

ghost use Rattle.std.specs.Prelude.{◌≡◌, ◌≢◌, ◌<◌, ◌++◌, ◌∷◌, [], false, Some, None, Err, Contains, IsOk, IsSome, IsTrue, IfOk, IfErr, IfSome, OnOk, OnErr, List};
ghost use Rattle.std.specs.Map.{lookup};
ghost use Rattle.std.specs.Option.{option_map};
ghost use Rattle.std.specs.String.{string_bytes};
ghost use Rattle.bundle_tree_names.specs.FileName.{Name, name_of, name_eq};
ghost use Rattle.bundle_rules.specs.Entries.{Settings};
ghost use Rattle.bundle_rules.specs.Faults.{ResolveFails, fault_of};
ghost use Rattle.bundle_rules.specs.Judging.{Loads, Numbers, Resolves};
ghost use Rattle.bundle_rules.specs.Kept.{asked_eq, kept_file, kept_module, nothing_kept, number_in};
ghost use Rattle.bundler_call.specs.KeptFiles.{asked_of, names_in, resolved_in, tree_room, trees_in, HasRoomFor, LoadedAreMet};
ghost use Rattle.bundler_call.specs.Kept.{kept_as, kept_of, settings_of, IsBounded, IsKept, IsFileMet, IsRequested, MayBeMet, LoadsAlike};
ghost use Rattle.bundler_call.specs.Judged.{Tells, parties_asked};
ghost use Rattle.bundler_call.specs.Library.{GoesFurther, KeepsLibrary, MovesOn};
ghost use Rattle.bundler_call.specs.Refusal.{load_refusal, resolve_refusal};

use crate::{Kept, Request};
use bundle_tree::load::{Load, LoadError, ModuleData};
use bundle_tree::resolve::{Resolve, ResolveError};
use bundle_tree_names::ModuleId;
use bundle_tree_names::error::Error;
use bundle_tree_names::file_name::FileName;
use bundler_entry::OrderedConfig;
use std::alloc::{AllocError, Global};

/// How a loader is asked for the module of a file.
#[derive(Clone, Copy)]
pub enum Asking {
    /// It is lent, and stays what it is.
    Lent,
    /// It is not asked for that file again, so it may hand over what it has.
    Owned,
}

/// The loader, the resolver and what their answers were.
#[derive(Drop)]
pub struct Library<L: Load, R: Resolve> {
    pub loader: L,
    pub resolver: R,
    pub kept: Kept<ModuleData>,
}

impl<L: Load + Drop, R: Resolve + Drop> Library<L, R> {
    /// A library that keeps nothing yet. It takes no memory.
    pub(crate) fn new(alloc: Global, loader: L, resolver: R) -> Self
        ensures empty { kept_of result.kept ≡ nothing_kept }
        ensures loader { result.loader ≡ loader }
        ensures resolver { result.resolver ≡ resolver }
    {
        Library {
            loader,
            resolver,
            kept: Kept::new(alloc),
        }
    }

    /// The number of a file, a new one where it has none.
    pub(crate) fn id(&mut self, file: &FileName) -> Result<ModuleId, Error>
        ensures numbered { IfOk result (λ id.
            number_in (kept_of self.new.kept) (name_of file.now) ≡ Some id) }
        ensures met { OnOk result (IsFileMet (kept_of self.new.kept) (name_of file.now)) }
        ensures bounded { IsBounded (kept_of self.new.kept) }
        ensures keeps { KeepsLibrary self.old self.new }
        ensures grows { (settings : Settings) (entries : List Name) →
            MayBeMet (kept_of self.old.kept) (name_of file.now) entries →
            MovesOn L.may_load R.may_resolve settings entries self.old self.new }
        ensures judged { Tells result (λ outcome.
            Numbers (kept_of self.old.kept) (name_of file.now) outcome (kept_of self.new.kept)) }
        ensures unchanged { OnErr result (kept_of self.new.kept ≡ kept_of self.old.kept) }
        ensures known { IsFileMet (kept_of self.old.kept) (name_of file.now) →
            kept_of self.new.kept ≡ kept_of self.old.kept }
        ensures absent { OnErr result (¬ IsFileMet (kept_of self.old.kept) (name_of file.now)) }
    {
        self.kept.id(file)
    }

    /// What is kept. The loader and the resolver are let go of.
    pub(crate) fn into_kept(self) -> Kept<ModuleData>
        ensures { result ≡ self.kept }
    {
        let Library {
            loader,
            resolver,
            kept,
        } = self;
        drop(loader);
        drop(resolver);
        kept
    }

    /// The module of a file, if it is kept.
    pub(crate) fn module(&self, file: &FileName) -> Option<&ModuleData>
        ensures { option_map (λ loaded. kept_as loaded.now) result
            ≡ kept_module (kept_of self.now.kept) (name_of file.now) }
    {
        module_in(&self.kept, file)
    }

    // Whether the module of a file is kept.
    fn has(&self, file: &FileName) -> bool
        ensures kept { IsTrue result → IsKept (kept_of self.now.kept) (name_of file.now) }
        ensures none { result ≡ false →
            kept_module (kept_of self.now.kept) (name_of file.now) ≡ None }
        ensures absent { result ≡ false →
            lookup (name_eq (name_of file.now)) (trees_in self.now.kept) ≡ None }
    {
        self.kept.tree(file).is_some()
    }

    /// Sees to it that the module of a file is kept. The loader is asked only where it is not.
    pub(crate) fn load(
        &mut self,
        alloc: Global,
        file: &FileName,
        config: &OrderedConfig,
        asking: Asking,
    ) -> Result<(), Error>
        requires { IsFileMet (kept_of self.old.kept) (name_of file.now) }
        ensures there { OnOk result (IsKept (kept_of self.new.kept) (name_of file.now)) }
        ensures grows { (entries : List Name) →
            GoesFurther L.may_load R.may_resolve (settings_of config.now) entries self.old
            self.new }
        ensures lent { asking ≡ Asking.Lent → self.new.loader ≡ self.old.loader }
        ensures stands { OnOk result
            (LoadsAlike L.may_load L.may_fail_load self.old.loader self.new.loader
            (kept_of self.new.kept)) }
        ensures judged { Tells result (λ outcome.
            Loads
            (parties_asked L.may_load L.may_fail_load R.may_resolve R.may_fail_resolve self.old.loader
            self.old.resolver)
            (settings_of config.now) (kept_of self.old.kept) (name_of file.now) outcome
            (kept_of self.new.kept)) }
        ensures unchanged { OnErr result (kept_of self.new.kept ≡ kept_of self.old.kept) }
    {
        if self.has(file) {
            return Ok(());
        }
        let name = file.clone()?;
        if self.kept.count() >= config.base.max_modules as usize {
            return Err(Error::TooManyModules { file: name });
        }
        reserve_tree(&mut self.kept)?;
        let loaded = asked(&mut self.loader, alloc, file, asking);
        keep_loaded(&mut self.kept, name, loaded)
    }

    /// The file that a request leads to, if it is kept.
    pub(crate) fn target(&self, request: &Request) -> Option<&FileName>
        ensures { option_map (λ file. name_of file.now) result
            ≡ kept_file (kept_of self.now.kept) (asked_of request.now) }
    {
        self.kept.target(request)
    }

    // Whether the file that a request leads to is kept.
    fn leads(&self, request: &Request) -> bool
        ensures kept { IsTrue result →
            IsSome (kept_file (kept_of self.now.kept) (asked_of request.now)) }
        ensures none { result ≡ false →
            kept_file (kept_of self.now.kept) (asked_of request.now) ≡ None }
        ensures met { LoadedAreMet self.now.kept }
    {
        self.kept.target(request).is_some()
    }

    /// Sees to it that the file that a request leads to is kept. The resolver is asked only where it is
    /// not.
    pub(crate) fn resolve(&mut self, alloc: Global, request: &Request) -> Result<(), Error>
        requires { IsKept (kept_of self.old.kept) (name_of request.now.file) }
        ensures there { OnOk result
            (IsSome (kept_file (kept_of self.new.kept) (asked_of request.now))) }
        ensures keeps { KeepsLibrary self.old self.new }
        ensures grows { (settings : Settings) (entries : List Name) →
            IsRequested settings (kept_of self.old.kept) (asked_of request.now) →
            MovesOn L.may_load R.may_resolve settings entries self.old self.new }
        ensures resolved { OnOk result
            ((found : Name) →
            kept_file (kept_of self.new.kept) (asked_of request.now) ≡ Some found →
            Resolves
            (parties_asked L.may_load L.may_fail_load R.may_resolve R.may_fail_resolve self.old.loader
            self.old.resolver)
            (kept_of self.old.kept) (asked_of request.now) (Some found) (kept_of self.new.kept)) }
        ensures failed { IfErr result (λ refusal.
            IfSome (fault_of refusal) (λ fault.
            (fault ≡ ResolveFails (name_of request.now.file) (string_bytes request.now.specifier))
            × Resolves
            (parties_asked L.may_load L.may_fail_load R.may_resolve R.may_fail_resolve self.old.loader
            self.old.resolver)
            (kept_of self.old.kept) (asked_of request.now) None (kept_of self.new.kept))) }
        ensures unchanged { OnErr result (kept_of self.new.kept ≡ kept_of self.old.kept) }
    {
        if self.leads(request) {
            return Ok(());
        }
        let own = Request {
            file: request.file.clone()?,
            specifier: request.specifier.clone()?,
        };
        reserve_target(&mut self.kept, request)?;
        let resolved = self
            .resolver
            .resolve(alloc, &request.file, request.specifier.as_str());
        keep_resolved(&mut self.kept, own, resolved)
    }
}

// The module of a file, of a loader that is asked in this way.
fn asked<L: Load + Drop>(
    loader: &mut L,
    alloc: Global,
    file: &FileName,
    asking: Asking,
) -> Result<ModuleData, LoadError>
    ensures answer { IfOk result (λ loaded. L.may_load loader.old (name_of file.now) loaded) }
    ensures failure { result ≡ Err LoadError.Failed →
        L.may_fail_load loader.old (name_of file.now) }
    ensures lent { asking ≡ Asking.Lent → loader.new ≡ loader.old }
    ensures others { (other : Name) (given : ModuleData) →
        other ≢ name_of file.now →
        L.may_load loader.new other given →
        L.may_load loader.old other given }
    ensures other_failures { (other : Name) →
        other ≢ name_of file.now →
        L.may_fail_load loader.new other →
        L.may_fail_load loader.old other }
{
    match asking {
        Asking::Lent => loader.load(alloc, file),
        Asking::Owned => loader.hand_over(alloc, file),
    }
}

/// The module of a file, if it is kept.
pub(crate) fn module_in<'x>(kept: &'x Kept<ModuleData>, file: &FileName) -> Option<&'x ModuleData>
    ensures { option_map (λ loaded. kept_as loaded.now) result
        ≡ kept_module (kept_of kept.entry.now) (name_of file.now) }
{
    kept.tree(file)
}

// Makes room for one more tree.
fn reserve_tree(kept: &mut Kept<ModuleData>) -> Result<(), AllocError>
    ensures room { OnOk result (0 < tree_room kept.new) }
    ensures same { kept_of kept.new ≡ kept_of kept.old }
    ensures trees { trees_in kept.new ≡ trees_in kept.old }
    ensures names { names_in kept.new ≡ names_in kept.old }
{
    kept.reserve_tree()
}

// Makes room for the file that a request leads to.
fn reserve_target(kept: &mut Kept<ModuleData>, request: &Request) -> Result<(), AllocError>
    requires { Contains (names_in kept.old) (name_of request.now.file) }
    ensures room { OnOk result (HasRoomFor kept.new (asked_of request.now)) }
    ensures same { kept_of kept.new ≡ kept_of kept.old }
    ensures resolved { resolved_in kept.new ≡ resolved_in kept.old }
{
    kept.reserve_target(request)
}

// Keeps the tree of a file that has none, where its loader gave one. There is room for it.
fn keep_loaded(
    kept: &mut Kept<ModuleData>,
    file: FileName,
    loaded: Result<ModuleData, LoadError>,
) -> Result<(), Error>
    requires room { 0 < tree_room kept.old }
    requires met { Contains (names_in kept.old) (name_of file) }
    requires absent { lookup (name_eq (name_of file)) (trees_in kept.old) ≡ None }
    ensures given { IfOk loaded (λ tree.
        IsOk result
        × (kept_of kept.new
        ≡ record (kept_of kept.old)
        { trees = (kept_of kept.old).trees ++ (name_of file, kept_as tree) ∷ [] })) }
    ensures refused { IfErr loaded (λ e.
        (result ≡ Err (load_refusal file e)) × (kept_of kept.new ≡ kept_of kept.old)) }
{
    match loaded {
        Ok(tree) => {
            kept.keep_tree(file, tree);
            Ok(())
        }
        Err(LoadError::Failed) => Err(Error::Load { file }),
        Err(LoadError::OutOfMemory) => Err(Error::OutOfMemory),
    }
}

// Keeps the file that a request leads to, which has none, where its resolver gave one. There is room
// for it.
fn keep_resolved(
    kept: &mut Kept<ModuleData>,
    request: Request,
    resolved: Result<FileName, ResolveError>,
) -> Result<(), Error>
    requires room { HasRoomFor kept.old (asked_of request) }
    requires absent { lookup (asked_eq (asked_of request)) (resolved_in kept.old) ≡ None }
    ensures given { IfOk resolved (λ file.
        IsOk result
        × (kept_of kept.new
        ≡ record (kept_of kept.old)
        { resolved = (kept_of kept.old).resolved ++ (asked_of request, name_of file) ∷ [] })) }
    ensures refused { IfErr resolved (λ e.
        (result ≡ Err (resolve_refusal request e)) × (kept_of kept.new ≡ kept_of kept.old)) }
{
    match resolved {
        Ok(file) => {
            kept.keep_target(request, file);
            Ok(())
        }
        Err(ResolveError::Failed) => {
            let Request { file, specifier } = request;
            Err(Error::Resolve { file, specifier })
        }
        Err(ResolveError::OutOfMemory) => Err(Error::OutOfMemory),
    }
}

//! The modules of one bundle, linked.

ghost use Rattle.std.specs.Prelude.{◌≡◌, IfErr, IfOk, MatchResult, None, false, length, map, string_bytes};
ghost use Rattle.std.specs.List.{AllZip};
ghost use Rattle.bundle_link.specs.Linked.{IsLinkedOf};
ghost use Rattle.bundle_rules.specs.Program.{Program};
ghost use Rattle.bundle_rules.specs.Tables.{IsChecked, IsResolution, TellsCommonJs, TellsMeant};
ghost use Rattle.bundle_link_targets.specs.Meant.{DeclaresDefaultOnce};
ghost use Rattle.bundle_link.specs.Held.{LacksNumber, entry_of, modules_of};
ghost use Rattle.bundle_link.specs.Checked.{TellsLinkFault};
ghost use Rattle.bundle_link.specs.Programs.{AreModulesFaultless, AreTransformedOf, HasTables, IsLinkerOf, IsRefusalOfFirst, IsSoundLinkerOf, is_one_call, module_numbers};
ghost use Rattle.bundle_rules.specs.Nodes.{numbers_once};
ghost use Rattle.bundle_link.specs.Resolved.{resolution_says};
ghost use Rattle.bundle_link.specs.Refusals.{IsLinkRefusal, module_files};

use crate::fault::link_refusal;
use crate::tables::{externals_of, read};
use crate::target::resolution_of;
pub use crate::target::{Resolution, Target};
pub use crate::transformed::TransformedModule;
use crate::{LinkedModules, NumberedModule};
use bundle_link_tables::Tables;
use bundle_link_targets::Setting;
use bundle_tree_names::{Config, Error, ModuleId, ModuleType};
use std::alloc::{AllocError, Global};

/// Tells what each name of the modules of a bundle stands for, which of the modules are CommonJS, and what is wrong
/// with them.
#[derive(Drop)]
pub struct Linker<'a> {
    pub(crate) alloc: Global,
    pub(crate) modules: Vec<TransformedModule<'a>>,
    pub(crate) config: Config,
    pub(crate) entry: ModuleId,
    pub(crate) linked: LinkedModules<'a>,
}

impl<'a> Linker<'a> {
    /// Links the modules of the bundle of an entry.
    ///
    /// The caller sees to it that the numbers of the modules differ, and that the entry and all that the modules
    /// request are among them; for `check` and `should_be_wrapped_with_a_fn` also that none has a default without a name
    /// beside an import that binds `default`, which no source text has. Refused where a tree has a fault of its own, by
    /// that of the first such module, and where memory runs out.
    pub fn new(
        alloc: Global,
        entry: ModuleId,
        modules: Vec<TransformedModule<'a>>,
        config: &Config,
    ) -> Result<Linker<'a>, Error>
        ensures modules { IfOk result (λ linker. modules_of linker ≡ modules.entry.items) }
        ensures entry { IfOk result (λ linker. entry_of linker ≡ entry) }
        ensures linked { IfOk result (λ linker. (p : Program) →
            AreTransformedOf p modules.entry.items config.now entry → IsLinkerOf p linker) }
        ensures sound { IfOk result (λ linker. (p : Program) →
            AreTransformedOf p modules.entry.items config.now entry →
            DeclaresDefaultOnce p →
            IsSoundLinkerOf p linker) }
        ensures refused { IfErr result (IsRefusalOfFirst modules.entry.items) }
    {
        let linked = linked_modules(alloc, entry, &modules, config)?;
        let config = copied(alloc, config)?;
        Ok(Linker {
            alloc,
            modules,
            config,
            entry,
            linked,
        })
    }

    /// What a module gives for a name (ECMA-262, 16.2.1.6.3 ResolveExport). Nothing is given for the name of a module
    /// that is not there.
    pub fn resolve_export(&self, id: ModuleId, name: &str) -> Result<Resolution, AllocError>
        ensures found { IfOk result (λ resolution. (p : Program) → IsLinkerOf p self.now →
            IsResolution p id name.now (resolution_says resolution)) }
        ensures absent { LacksNumber self.now id →
            IfOk result (λ resolution. resolution ≡ Resolution.None) }
    {
        let found = self.linked.resolve(id, name)?;
        resolution_of(self.alloc, &self.linked.ids, found)
    }

    /// Whether a module is CommonJS in this bundle. It takes no memory.
    pub fn is_cjs(&self, id: ModuleId) -> bool
        ensures told { (p : Program) → IsLinkerOf p self.now → TellsCommonJs p id result }
        ensures absent { LacksNumber self.now id → result ≡ false }
    {
        self.linked.is_common_js(id)
    }

    /// Whether the object of a module's namespace is meant. It takes no memory.
    pub fn should_be_wrapped_with_a_fn(&self, id: ModuleId) -> bool
        ensures told { (p : Program) → IsSoundLinkerOf p self.now → TellsMeant p id result }
        ensures absent { LacksNumber self.now id → result ≡ false }
    {
        self.linked.is_object_meant(id)
    }

    /// Refuses modules that cannot be linked, by the first fault: a literal call of `require` that is of the entry,
    /// and one of an ECMAScript module; an `await` in a CommonJS module; a star of one; a name that is asked for and
    /// not given once; a namespace object whose names are not known; where the bundle is one function's call,
    /// an external, and an `arguments` that nothing binds. Each is judged of all modules before the next, and in a
    /// module the first of a kind in the order of the source. Whose objects are meant is as
    /// `should_be_wrapped_with_a_fn` tells.
    pub fn check(&self) -> Result<(), Error>
        ensures refused { IfErr result (IsLinkRefusal (module_files (modules_of self.now))) }
        ensures told { (p : Program) → IsSoundLinkerOf p self.now →
            MatchResult result (λ done. IsChecked p None) (TellsLinkFault p) }
    {
        let Some(fault) = self.linked.fault() else {
            return Ok(());
        };
        match self.modules.get(fault.which) {
            Some(module) => Err(link_refusal(self.alloc, &module.file_name, fault)?),
            None => Ok(()),
        }
    }
}

/// How modules are linked, by a configuration.
pub fn setting_of(config: &Config) -> Setting
    ensures require { result.require ≡ config.now.require }
    ensures iife { result.iife ≡ is_one_call config.now.module }
{
    let iife = match config.module {
        ModuleType::Es => false,
        ModuleType::Iife => true,
    };
    Setting {
        require: config.require,
        iife,
    }
}

// What is known of modules once they are linked.
fn linked_modules<'a>(
    alloc: Global,
    entry: ModuleId,
    modules: &[TransformedModule<'a>],
    config: &Config,
) -> Result<LinkedModules<'a>, Error>
    ensures linked { IfOk result (λ linked. (p : Program) →
        AreTransformedOf p modules.now config.now entry → IsLinkedOf p linked) }
    ensures ids { IfOk result (λ linked. linked.ids.keys ≡ numbers_once (module_numbers modules.now)) }
    ensures faultless { IfOk result (λ linked. AreModulesFaultless modules.now) }
    ensures refused { IfErr result (IsRefusalOfFirst modules.now) }
{
    let tables = tables_of_all(alloc, modules, config)?;
    let numbered = numbered_modules(alloc, modules, &tables)?;
    Ok(LinkedModules::new(alloc, entry, &numbered, setting_of(config))?)
}

// The modules as they are linked by their numbers.
fn numbered_modules<'t, 'a>(
    alloc: Global,
    modules: &'t [TransformedModule<'a>],
    tables: &'t [Tables<'a>],
) -> Result<Vec<NumberedModule<'t, 'a>>, AllocError>
    ensures ids { length tables.now ≡ length modules.now → IfOk result (λ numbered.
        map (λ its. its.id) numbered.items ≡ map (λ its. its.id) modules.now) }
    ensures deps { length tables.now ≡ length modules.now → IfOk result (λ numbered.
        map (λ its. its.deps.now) numbered.items ≡ map (λ its. its.deps.items) modules.now) }
    ensures tables { length tables.now ≡ length modules.now → IfOk result (λ numbered.
        map (λ its. its.tables.now) numbered.items ≡ tables.now) }
{
    let mut numbered = Vec::new(alloc);
    for (module, tables) in modules.iter().zip(tables) {
        numbered.push(NumberedModule {
            id: module.id.as_u32(),
            tables,
            deps: &module.deps,
        })?;
    }
    Ok(numbered)
}

// The tables of modules.
fn tables_of_all<'a>(
    alloc: Global,
    modules: &[TransformedModule<'a>],
    config: &Config,
) -> Result<Vec<Tables<'a>>, Error>
    ensures given { IfOk result (λ tables.
        AllZip (HasTables config.now) modules.now tables.items) }
    ensures refused { IfErr result (IsRefusalOfFirst modules.now) }
{
    let external = externals_of(alloc, config)?;
    let mut tables = Vec::new(alloc);
    for module in modules {
        tables.push(read(alloc, &module.file_name, module.tree, config, &external)?)?;
    }
    Ok(tables)
}

// The settings, once more.
fn copied(alloc: Global, config: &Config) -> Result<Config, AllocError>
    ensures require { IfOk result (λ copy. copy.require ≡ config.now.require) }
    ensures which { IfOk result (λ copy. copy.module ≡ config.now.module) }
    ensures external { IfOk result (λ copy.
        map (λ text. string_bytes text) copy.external_modules.items
        ≡ map (λ text. string_bytes text) config.now.external_modules.items) }
{
    let mut external_modules = Vec::new(alloc);
    for specifier in &config.external_modules {
        external_modules.push(specifier.clone()?)?;
    }
    Ok(Config {
        module: config.module,
        require: config.require,
        disable_hygiene: config.disable_hygiene,
        external_modules,
        max_modules: config.max_modules,
    })
}

//! The linker's loader, resolver and hook: trees by the numbers of modules, keys in the place of specifiers.

ghost use Rattle.std.specs.Prelude.{◌≡◌, ℕ, IfSome, slice_get};
ghost use Rattle.bundle_tree_ast.specs.declared.module.Module.{Module};

use bundle_tree::hook::{Hook, HookError, ModuleRecord};
use bundle_tree::load::{Load, LoadError, ModuleData};
use bundle_tree::resolve::{Resolve, ResolveError};
use bundle_tree_ast::{KeyValueProp, Module};
use bundle_tree_names::file_name::FileName;
use gutsirava_graph::{file_of, unit_in, unit_of};
use std::alloc::Global;

/// Hands over the trees of modules, each once.
#[derive(Drop)]
pub(crate) struct UnitLoader {
    pub(crate) trees: Vec<Option<Module>>,
}

impl Load for UnitLoader {
    ghost use Rattle.gutsirava_bundle.specs.Parties.{HandsOver, may_fail_to_load};

    ghost may_load = { λ loader. HandsOver loader.trees.items };

    ghost may_fail_load = { λ _. may_fail_to_load };

    // Trees are handed over alone.
    fn load(&self, _alloc: Global, _file: &FileName) -> Result<ModuleData, LoadError> {
        Err(LoadError::Failed)
    }

    fn hand_over(&mut self, alloc: Global, file: &FileName) -> Result<ModuleData, LoadError> {
        let Some(unit) = unit_in(file) else {
            return Err(LoadError::Failed);
        };
        let Some(module) = taken(&mut self.trees, unit) else {
            return Err(LoadError::Failed);
        };
        match file_of(alloc, unit) {
            Ok(file_name) => Ok(ModuleData { file_name, module }),
            Err(_) => Err(LoadError::OutOfMemory),
        }
    }
}

// The tree of a module, which is taken from where it stands.
fn taken(trees: &mut Vec<Option<Module>>, unit: usize) -> Option<Module>
    ensures there { IfSome result (λ tree. slice_get trees.old.items unit ≡ Some (Some tree)) }
    ensures fewer { (other : ℕ) (tree : Module) →
        slice_get trees.new.items other ≡ Some (Some tree) →
        slice_get trees.old.items other ≡ Some (Some tree) }
{
    trees.get_mut(unit)?.take()
}

/// Leads from a key to the module that it names.
#[derive(Drop)]
pub(crate) struct KeyResolver;

impl Resolve for KeyResolver {
    ghost use Rattle.gutsirava_bundle.specs.Parties.{LeadsTo, may_fail_to_resolve};

    ghost may_resolve = { λ _ _. LeadsTo };

    ghost may_fail_resolve = { λ _. may_fail_to_resolve };

    fn resolve(
        &self,
        alloc: Global,
        _base: &FileName,
        specifier: &str,
    ) -> Result<FileName, ResolveError> {
        let Some(unit) = unit_of(specifier) else {
            return Err(ResolveError::Failed);
        };
        match file_of(alloc, unit) {
            Ok(file) => Ok(file),
            Err(_) => Err(ResolveError::OutOfMemory),
        }
    }
}

/// Gives `import.meta` of a script no properties: that of a module stays as it is.
#[derive(Drop)]
pub(crate) struct NoMeta;

impl Hook for NoMeta {
    ghost use Rattle.gutsirava_bundle.specs.Parties.{gives_nothing, fails_nowhere};

    ghost may_give = { λ _. gives_nothing };

    ghost may_fail_hook = { λ _. fails_nowhere };

    fn get_import_meta_props(
        &self,
        alloc: Global,
        _module_record: &ModuleRecord,
    ) -> Result<Vec<KeyValueProp>, HookError> {
        Ok(Vec::new(alloc))
    }
}

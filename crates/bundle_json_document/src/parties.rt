//! The program's loader, resolver and hook.

ghost use Rattle.std.specs.Prelude.{◌≡◌, string_bytes, IfOk};
ghost use Rattle.std.specs.List.{flat_map};
ghost use Rattle.bundle_tree_names.specs.FileName.{name_of, real};
ghost use Rattle.bundle_tree_listed.specs.Tree.{key_value_prop_items, module_items};
ghost use Rattle.bundle_json_document.specs.Parties.{hook_lists, script_path};

use bundle_tree::hook::{Hook, HookError, ModuleRecord};
use bundle_tree::load::{Load, LoadError, ModuleData};
use bundle_tree::resolve::{Resolve, ResolveError};
use bundle_tree_ast::{KeyValueProp, Module};
use bundle_tree_names::file_name::FileName;
use bundle_tree_rewrite::TryClone;
use std::alloc::{AllocError, Global};
use std::collections::BTreeMap;

/// Gives the module of each file of a document, another tree with the same list each time, or the document's own where
/// it is not asked for that file again.
#[derive(Drop)]
pub(crate) struct DocumentLoader {
    pub(crate) files: BTreeMap<String, Module>,
}

/// It fails only where the document has no module for the file.
impl Load for DocumentLoader {
    ghost use Rattle.bundle_json_document.specs.Parties.{GivesModule, LacksModule};

    ghost may_load = { λ loader. GivesModule loader.files };

    ghost may_fail_load = { λ loader. LacksModule loader.files };

    fn load(&self, alloc: Global, file: &FileName) -> Result<ModuleData, LoadError> {
        let FileName::Real(name) = file else {
            return Err(LoadError::Failed);
        };
        let Some(module) = self.files.get(name.as_str()) else {
            return Err(LoadError::Failed);
        };
        match named_copy(alloc, name, module) {
            Ok(loaded) => Ok(loaded),
            Err(_) => Err(LoadError::OutOfMemory),
        }
    }

    fn hand_over(&mut self, _alloc: Global, file: &FileName) -> Result<ModuleData, LoadError> {
        let FileName::Real(name) = file else {
            return Err(LoadError::Failed);
        };
        let Some((name, module)) = self.files.remove_entry(name.as_str()) else {
            return Err(LoadError::Failed);
        };
        let file_name = FileName::Real(name);
        Ok(ModuleData { file_name, module })
    }
}

// A copy of a module, under the name of its file.
fn named_copy(alloc: Global, name: &String, tree: &Module) -> Result<ModuleData, AllocError>
    ensures file { IfOk result (λ made. name_of made.file_name ≡ real (string_bytes name.now)) }
    ensures tree { IfOk result (λ made.
        module_items 0 made.module ≡ module_items 0 tree.now) }
{
    let file_name = FileName::Real(name.clone()?);
    let tree = tree.try_clone(alloc)?;
    Ok(ModuleData {
        module: tree,
        file_name,
    })
}

/// Resolves `./r` to `r`, with `.js` behind it where it does not end so.
#[derive(Drop)]
pub(crate) struct DocumentResolver;

impl Resolve for DocumentResolver {
    ghost use Rattle.bundle_tree_names.specs.FileName.{Name};
    ghost use Rattle.bundle_json_document.specs.Parties.{SpecifierLeads};

    ghost may_resolve = { λ _ _. SpecifierLeads };

    ghost may_fail_resolve = { λ _ _ specifier. (file : Name) → ¬ SpecifierLeads specifier file };

    fn resolve(
        &self,
        alloc: Global,
        _base: &FileName,
        specifier: &str,
    ) -> Result<FileName, ResolveError> {
        let Some(path) = specifier.strip_prefix("./") else {
            return Err(ResolveError::Failed);
        };
        if path.is_empty() {
            return Err(ResolveError::Failed);
        }
        match script_name(alloc, path) {
            Ok(name) => Ok(FileName::Real(name)),
            Err(_) => Err(ResolveError::OutOfMemory),
        }
    }
}

// A path, with `.js` behind it where it does not end so.
fn script_name(alloc: Global, path: &str) -> Result<String, AllocError>
    ensures { IfOk result (λ name. string_bytes name ≡ script_path path.now) }
{
    let mut name = String::from_str(alloc, path)?;
    if !path.ends_with(".js") {
        name.push_str(".js")?;
    }
    Ok(name)
}

/// Gives the properties of `import.meta` that a document lists for a file, and none for any other file.
#[derive(Drop)]
pub struct MetaHook {
    lists: BTreeMap<String, Vec<KeyValueProp>>,
}

impl MetaHook {
    /// A hook that gives these lists, each for the real file of its name.
    pub fn new(lists: BTreeMap<String, Vec<KeyValueProp>>) -> MetaHook
        ensures { hook_lists result ≡ lists.entries }
    {
        MetaHook { lists }
    }
}

/// A list is given anew each time, as another list with the same trees. It never fails.
impl Hook for MetaHook {
    ghost use Rattle.bundle_json_document.specs.Parties.{GivesList};

    ghost may_give = { λ hook file _. GivesList hook file };

    ghost may_fail_hook = { λ _ _ _. ⊥ };

    fn get_import_meta_props(
        &self,
        alloc: Global,
        module_record: &ModuleRecord,
    ) -> Result<Vec<KeyValueProp>, HookError> {
        let FileName::Real(name) = &module_record.file_name else {
            return Ok(Vec::new(alloc));
        };
        let Some(properties) = self.lists.get(name.as_str()) else {
            return Ok(Vec::new(alloc));
        };
        match copied(alloc, properties.as_slice()) {
            Ok(copy) => Ok(copy),
            Err(_) => Err(HookError::OutOfMemory),
        }
    }
}

// Another list of properties with the same trees.
fn copied(alloc: Global, properties: &[KeyValueProp]) -> Result<Vec<KeyValueProp>, AllocError>
    ensures { IfOk result (λ copy.
        flat_map (key_value_prop_items 0) copy.items
        ≡ flat_map (key_value_prop_items 0) properties.now) }
{
    let mut copy = Vec::new(alloc);
    for property in properties {
        let made = property.try_clone(alloc)?;
        copy.push(made)?;
    }
    Ok(copy)
}

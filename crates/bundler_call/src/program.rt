//! What the files of a load list say.

ghost use Rattle.std.specs.Prelude.{◌≡◌, ℕ, Some, IfOk};
ghost use Rattle.bundle_tree_names.specs.FileName.{name_of};
ghost use Rattle.bundle_rules.specs.Kept as rules;
ghost use Rattle.bundle_rules.specs.Kept.{number_in};
ghost use Rattle.bundle_link.specs.Refusals.{HasExternals};
ghost use Rattle.bundler_entry.specs.Source.{AreSourcesOf, IsSourceOf};
ghost use Rattle.bundler_call.specs.Kept.{kept_of, settings_of};
ghost use Rattle.bundler_call.specs.Linking.{IsListLoaded, IsReadListOf};
ghost use Rattle.bundler_call.specs.Loading.{files_on, ids_on, AreFilesNumbered, AreFilesSound, IsFileSound};

use crate::Kept;
use crate::library::module_in;
use crate::load::LoadList;
use bundle_link::tables::externals_of;
use bundle_scope_denote::texts::TextSet;
use bundle_tree::load::ModuleData;
use bundle_tree_names::file_name::FileName;
use bundler_entry::{OrderedConfig, ReadFile, ReadFiles, program_of, source_of};
use std::alloc::{AllocError, Global};

/// Reads the files of a load list, which are kept and not at fault by themselves.
pub fn program_on<'x>(
    kept: &'x Kept<ModuleData>,
    alloc: Global,
    list: &'x LoadList,
    config: &OrderedConfig,
) -> Result<ReadFiles<'x>, AllocError>
    requires { AreFilesSound (kept_of kept.now) (files_on list.now) }
    ensures { IfOk result (λ program.
        IsListLoaded (settings_of config.now) (kept_of kept.entry.now) list.entry.now →
        IsReadListOf (settings_of config.now) (kept_of kept.entry.now) list.entry.now program) }
{
    let external = externals_of(alloc, &config.base)?;
    let sources = sources_on(kept, alloc, list, config, &external)?;
    program_of(alloc, list.files.as_slice(), list.deps.as_slice(), sources)
}

// What was read of each file.
fn sources_on<'x>(
    kept: &'x Kept<ModuleData>,
    alloc: Global,
    list: &'x LoadList,
    config: &OrderedConfig,
    external: &TextSet<&str>,
) -> Result<Vec<ReadFile<'x>>, AllocError>
    requires external { HasExternals external.now config.now.base }
    requires sound { AreFilesSound (kept_of kept.now) (files_on list.now) }
    ensures { IfOk result (λ sources.
        (entry : ℕ) →
        AreFilesNumbered (kept_of kept.entry.now) list.entry.now →
        AreSourcesOf
        (rules.program_of (kept_of kept.entry.now) (settings_of config.now) entry)
        (ids_on list.entry.now) sources.items) }
{
    let mut sources = Vec::new(alloc);
    for (file, _) in list.files.as_slice() {
        sources.push(kept_source(kept, alloc, file, config, external)?)?;
    }
    Ok(sources)
}

// Reads a file, which is kept and not at fault by itself.
fn kept_source<'x>(
    kept: &'x Kept<ModuleData>,
    alloc: Global,
    file: &'x FileName,
    config: &OrderedConfig,
    external: &TextSet<&str>,
) -> Result<ReadFile<'x>, AllocError>
    requires external { HasExternals external.now config.now.base }
    requires sound { IsFileSound (kept_of kept.now) (name_of file.now) }
    ensures { IfOk result (λ source.
        (entry m : ℕ) →
        number_in (kept_of kept.entry.now) (name_of file.entry.now) ≡ Some m →
        IsSourceOf (rules.program_of (kept_of kept.entry.now) (settings_of config.now) entry)
        m source) }
{
    let loaded = module_in(kept, file).unwrap();
    source_of(alloc, loaded, &config.base, external)
}

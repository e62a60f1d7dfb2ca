//! What the modules of a call say: of each file what its names denote, what it declares twice, and its tables.

ghost use Rattle.std.specs.Prelude.{◌≡◌, ◌&&◌, ℕ, ◌<◌, ◌≤◌, Contains, Some, IfOk, IsTrue, map};
ghost use Rattle.std.specs.Option.{option_map};
ghost use Rattle.bundle_scope_denote.specs.Listed.{IsDenotationTable, place_and_symbol, doubled_told};
ghost use Rattle.bundle_tree_names.specs.FileName.{Name};
ghost use Rattle.bundle_syntax.specs.Item.{item_of};
ghost use Rattle.bundle_tree_listed.specs.Tree.{module_items};
ghost use Rattle.bundle_rules.specs.Declarations.{BySymbol};
ghost use Rattle.bundle_rules.specs.Doubled as doubled;
ghost use Rattle.bundle_rules.specs.Scopes.{Cjs, Es};
ghost use Rattle.bundle_rules.specs.Entries.{has_import_meta};
ghost use Rattle.bundle_rules.specs.Faults.{IsFaultless};
ghost use Rattle.bundle_rules.specs.Program as the_program;
ghost use Rattle.bundle_rules.specs.Program.{module_of};
ghost use Rattle.bundle_link.specs.Read.{AreTablesOf};
ghost use Rattle.bundle_link.specs.Refusals.{HasExternals, Links};
ghost use Rattle.bundle_link.specs.Files.{AreFilesOf, numbers_of};
ghost use Rattle.bundler_entry.specs.Source.{AreSourcesOf, IsReadProgram, IsSourceOf, kept_as};

use bundle_link::{DoubledNames, Files};
use bundle_link_tables::{Tables, tables_of};
use bundle_scope_denote::texts::TextSet;
use bundle_scope_denote::{Denotations, Doubled, ModuleKind, first_doubled, names_and_doubled};
use bundle_syntax::Piece;
use bundle_tree::load::ModuleData;
use bundle_tree_ast::Module;
use bundle_tree_list::pieces_of_module;
use bundle_tree_names::ModuleId;
use bundle_tree_names::config::Config;
use bundle_tree_names::file_name::FileName;
use std::alloc::{AllocError, Global};

/// A file as it was read: the name that its loader gave it, its tree, what its names denote in an ES module, the first of
/// them that it declares twice there and, where it may be one, in a CommonJS module, and its tables. Its list is not kept:
/// it is longer than the tree, and is soon made again.
#[derive(Drop)]
pub struct ReadFile<'x> {
    pub given: &'x FileName,
    pub tree: &'x Module,
    pub names: Denotations<'x>,
    pub noted: DoubledNames<'x>,
    pub tables: Tables<'x>,
}

/// The files of a call with their numbers and where their requests lead, what was read of each, and how many numbers
/// there are up to the last of theirs.
#[derive(Drop)]
pub struct ReadFiles<'x> {
    pub files: Files<'x>,
    pub sources: Vec<ReadFile<'x>>,
    pub count: usize,
}

/// Reads a module that has no fault of its own, where these are the texts that are external. Refused only where memory
/// runs out.
pub fn source_of<'x>(
    alloc: Global,
    loaded: &'x ModuleData,
    config: &Config,
    external: &TextSet<&str>,
) -> Result<ReadFile<'x>, AllocError>
    requires faultless { (file : Name) × IsFaultless file (module_items 0 loaded.now.module) }
    requires external { HasExternals external.now config.now }
    ensures { IfOk result (λ source.
        (p : the_program.Program) (m : ℕ) →
        Links config.now p.settings →
        module_of p m ≡ Some (kept_as loaded.now) →
        IsSourceOf p m source) }
{
    let pieces = pieces_of_module(alloc, &loaded.module)?;
    let named = names_and_doubled(alloc, pieces.as_slice(), ModuleKind::Es)?;
    let tables = tables_in(alloc, pieces.as_slice(), &named.names, config, external)?;
    let is_asked = may_be_common_js(config, &tables);
    let common_js = doubled_in_function(alloc, pieces.as_slice(), is_asked)?;
    Ok(ReadFile {
        given: &loaded.file_name,
        tree: &loaded.module,
        names: named.names,
        noted: DoubledNames {
            es: named.doubled,
            common_js,
        },
        tables,
    })
}

// Whether a file may be a CommonJS module of a bundle, where these are its tables.
fn may_be_common_js(config: &Config, tables: &Tables) -> bool
    ensures { result ≡ (config.now.require && tables.now.is_script) }
{
    config.require && tables.is_script
}

// The first name that a list declares twice as the body of a function, if that is asked for.
fn doubled_in_function<'x>(
    alloc: Global,
    pieces: &[Piece<'x>],
    is_asked: bool,
) -> Result<Option<Doubled<'x>>, AllocError>
    ensures { IsTrue is_asked → IfOk result (λ found. option_map doubled_told found
        ≡ option_map place_and_symbol (doubled.first_doubled Cjs (map item_of pieces.now))) }
{
    match is_asked {
        true => first_doubled(alloc, pieces, ModuleKind::Cjs),
        false => Ok(None),
    }
}

// The tables of a list that has no fault, where these are its names.
fn tables_in<'x>(
    alloc: Global,
    pieces: &[Piece<'x>],
    names: &Denotations<'x>,
    config: &Config,
    external: &TextSet<&str>,
) -> Result<Tables<'x>, AllocError>
    requires table { IsDenotationTable BySymbol Es (map item_of pieces.now) names.now }
    requires faultless { (file : Name) × IsFaultless file (map item_of pieces.now) }
    requires external { HasExternals external.now config.now }
    ensures given { IfOk result (λ tables.
        (file : Name) → AreTablesOf config.now file (map item_of pieces.now) tables) }
    ensures meta { IfOk result (λ tables.
        tables.has_import_meta ≡ has_import_meta (map item_of pieces.now)) }
{
    match tables_of(alloc, pieces, names, config.require, external)? {
        Ok(tables) => Ok(tables),
        Err(_) => unreachable!(),
    }
}

/// The files of a call, with what was read of each.
pub fn program_of<'x>(
    alloc: Global,
    files: &'x [(FileName, ModuleId)],
    deps: &'x [Vec<(String, ModuleId)>],
    sources: Vec<ReadFile<'x>>,
) -> Result<ReadFiles<'x>, AllocError>
    ensures program { IfOk result (λ made.
        (p : the_program.Program) →
        AreFilesOf p files.entry.now deps.entry.now →
        AreSourcesOf p (numbers_of files.entry.now) sources.entry.items →
        IsReadProgram p made) }
    ensures files { IfOk result (λ made. made.files.files ≡ files.entry) }
{
    let count = count_of_files(files);
    let files = Files::new(alloc, files, deps)?;
    Ok(ReadFiles {
        files,
        sources,
        count,
    })
}

// How many numbers there are up to the last one of a file.
fn count_of_files(files: &[(FileName, ModuleId)]) -> usize
    ensures above { (m : ℕ) → Contains (numbers_of files.now) m → m < result }
    ensures least { (n : ℕ) → ((m : ℕ) → Contains (numbers_of files.now) m → m < n) →
        result ≤ n }
{
    let mut count: usize = 0;
    for (_, id) in files {
        count = count.max((id.as_u32() as usize).saturating_add(1));
    }
    count
}

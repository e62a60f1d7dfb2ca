//! The entries of bundles, and the modules that they need.

ghost use Rattle.std.specs.Prelude.{◌≡◌, ◌<◌, ◌≤◌, ◌++◌, ◌∷◌, [], IfOk, MatchOption, OnOk};
ghost use Rattle.std.specs.List.{AllZip};
ghost use Rattle.gutsirava_graph.specs.declared.entries.Root.{Root};
ghost use Rattle.gutsirava_graph.specs.Graph.{IsRootOf};

use crate::facade::Facade;
use crate::graph::{FoundUnit, Graph};
use crate::own::read_own;
use crate::progress::ProgressListener;
use crate::settings::{BundleEntry, BundleSettings};
use crate::teller::Teller;
use crate::trees::TreeMaker;
use crate::unit_table::UnitTable;
use gutsirava_resolve::{FileSystem, Resolver};
use gutsirava_sources::{SourceKind, hashbang_of};
use std::alloc::{AllocError, Global};

/// An entry that was found.
pub struct Root {
    /// What its bundle is called.
    pub name: String,
    /// The module with which the bundle begins.
    pub unit: usize,
    /// The module of the file.
    pub file: usize,
    /// The first line of the file, where that names a program.
    pub hashbang: Option<String>,
}

/// Lets go of it. Written by hand, so that who lets one go calls this function.
impl Drop for Root {
    fn drop(self) {
        let Root {
            name: _name,
            unit: _unit,
            file: _file,
            hashbang: _hashbang,
        } = self;
    }
}

/// The modules that entries need, and what is told of them.
#[derive(Drop)]
pub struct EntryGraph<'s> {
    pub teller: Teller<'s>,
    pub table: UnitTable,
    /// The entries, in their order, where no error is told.
    pub roots: Vec<Root>,
}

/// Finds the modules that entries need, tells how far it is, and has trees made of them as long as no error is told; the
/// circles of imports are told then. Refused only for memory: all else that is wrong is told.
pub fn read_entries<'s, F: FileSystem + Drop, T: TreeMaker, P: ProgressListener>(
    alloc: Global,
    files: F,
    resolver: Resolver<F>,
    entries: Vec<BundleEntry>,
    settings: &'s BundleSettings,
    trees: &mut T,
    progress: &mut P,
) -> Result<EntryGraph<'s>, AllocError>
    ensures { IfOk result (λ it. it.teller.messages.errors ≡ 0 →
        AllZip IsRootOf entries.items it.roots.items) }
{
    let mut graph = Graph::new(alloc, files, resolver, settings);
    let roots = roots_of(&mut graph, entries)?;
    graph.read_files(trees, progress)?;
    let (teller, table) = graph.into_parts();
    completed(teller, table, trees, roots)
}

// The modules whose files were read, with all trees where no error is told; the circles of imports are told then.
fn completed<'s, T: TreeMaker>(
    teller: Teller<'s>,
    table: UnitTable,
    trees: &mut T,
    roots: Vec<Root>,
) -> Result<EntryGraph<'s>, AllocError>
    ensures grows { IfOk result (λ it. teller.entry.messages.errors ≤ it.teller.messages.errors) }
    ensures roots { IfOk result (λ it. it.roots ≡ roots) }
{
    let mut teller = teller;
    let mut table = table;
    complete(&mut teller, &mut table, trees, roots.as_slice())?;
    Ok(EntryGraph {
        teller,
        table,
        roots,
    })
}

// Makes trees of the command's own modules, and tells the circles of imports, as long as no error is told.
fn complete<T: TreeMaker>(
    teller: &mut Teller<'_>,
    table: &mut UnitTable,
    trees: &mut T,
    roots: &[Root],
) -> Result<(), AllocError>
    ensures { teller.old.messages.errors ≤ teller.new.messages.errors }
{
    if teller.messages.errors > 0 {
        return Ok(());
    }
    read_own(teller, table, trees)?;
    if teller.messages.errors > 0 {
        return Ok(());
    }
    let begins = files_of(teller.alloc, roots)?;
    teller.tell_circles(table.units.as_slice(), begins.as_slice())
}

// The modules of the files of entries.
fn files_of(alloc: Global, roots: &[Root]) -> Result<Vec<usize>, AllocError> {
    let mut files = Vec::with_capacity(alloc, roots.len())?;
    for root in roots {
        files.push(root.file)?;
    }
    Ok(files)
}

// Finds the files of entries, each of which may be given once.
fn roots_of<F: FileSystem + Drop>(
    graph: &mut Graph<'_, F>,
    entries: Vec<BundleEntry>,
) -> Result<Vec<Root>, AllocError>
    ensures { IfOk result (λ roots. graph.new.teller.messages.errors ≡ 0 →
        AllZip IsRootOf entries.items roots.items) }
{
    let mut roots = Vec::new(graph.table.alloc);
    for entry in entries {
        add_root(graph, &mut roots, entry)?;
    }
    mark_main(&mut graph.table, roots.as_slice());
    Ok(roots)
}

// Finds the file of an entry, which may be given once.
fn add_root<F: FileSystem + Drop>(
    graph: &mut Graph<'_, F>,
    roots: &mut Vec<Root>,
    entry: BundleEntry,
) -> Result<(), AllocError>
    ensures grows { graph.old.teller.messages.errors ≤ graph.new.teller.messages.errors }
    ensures added { OnOk result (graph.new.teller.messages.errors ≡ 0 →
        (root : Root) × (roots.new.items ≡ roots.old.items ++ root ∷ []) × IsRootOf entry root) }
{
    let BundleEntry { name, path, text } = entry;
    let Some(it) = found(graph, path.as_str(), text)? else {
        return Ok(());
    };
    let root = root_of(&mut graph.table, name, it)?;
    push_root(&mut graph.teller, roots, root)?;
    Ok(())
}

// Adds what was found of an entry, which may be given once.
fn push_root(teller: &mut Teller<'_>, roots: &mut Vec<Root>, root: Root) -> Result<(), AllocError>
    ensures grows { teller.old.messages.errors ≤ teller.new.messages.errors }
    ensures added { OnOk result (teller.new.messages.errors ≡ 0 →
        roots.new.items ≡ roots.old.items ++ root ∷ []) }
{
    if roots.iter().any(|other: &Root| other.unit == root.unit) {
        let name = &root.name;
        let why = format!(in teller.alloc; "the entry {name:?} is given twice")?;
        return teller.error(why);
    }
    roots.push(root)?;
    Ok(())
}

// Marks the module of the file with which the one bundle begins.
fn mark_main(table: &mut UnitTable, roots: &[Root]) {
    if roots.len() == 1
        && let Some(root) = roots.first()
        && let Some(unit) = table.units.get_mut(root.file)
    {
        unit.is_main = true;
    }
}

// What was found of an entry.
#[derive(Drop)]
struct FoundEntry {
    file: usize,
    hashbang: Option<String>,
}

// The module with which the bundle of a file begins. A CommonJS module has one in front that exports what it exports.
fn root_of(table: &mut UnitTable, name: String, found: FoundEntry) -> Result<Root, AllocError>
    ensures { IfOk result (λ root. root.name ≡ name) }
{
    let FoundEntry { file, hashbang } = found;
    let unit = match table.kind_of(file) {
        SourceKind::EcmaScript => file,
        SourceKind::CommonJs => table.facade(file, Facade::NodeDefault)?,
    };
    Ok(Root {
        name,
        unit,
        file,
        hashbang,
    })
}

// Finds the file at the path of an entry, whose text may be given.
fn found<F: FileSystem + Drop>(
    graph: &mut Graph<'_, F>,
    path: &str,
    given: Option<String>,
) -> Result<Option<FoundEntry>, AllocError>
    ensures grows { graph.old.teller.messages.errors ≤ graph.new.teller.messages.errors }
    ensures told { IfOk result (λ found.
        MatchOption found (0 < graph.new.teller.messages.errors) (λ _. Unit {0})) }
{
    let Some(text) = entry_text(graph, path, given)? else {
        return Ok(None);
    };
    let hashbang = first_line(graph.table.alloc, text.as_str())?;
    match entry_file(graph, path, text)? {
        Some(file) => Ok(Some(FoundEntry { file, hashbang })),
        None => Ok(None),
    }
}

// The first line of a text, where it names a program.
fn first_line(alloc: Global, text: &str) -> Result<Option<String>, AllocError> {
    match hashbang_of(text) {
        Some(line) => Ok(Some(String::from_str(alloc, line)?)),
        None => Ok(None),
    }
}

// The module of the file of an entry.
fn entry_file<F: FileSystem + Drop>(
    graph: &mut Graph<'_, F>,
    path: &str,
    text: String,
) -> Result<Option<usize>, AllocError>
    ensures grows { graph.old.teller.messages.errors ≤ graph.new.teller.messages.errors }
    ensures told { IfOk result (λ found.
        MatchOption found (0 < graph.new.teller.messages.errors) (λ _. Unit {0})) }
{
    if let Some(unit) = graph.table.known(path) {
        return Ok(Some(unit));
    }
    match graph.add_file(path, path, text)? {
        FoundUnit::Unit(file) => Ok(Some(file)),
        FoundUnit::Unread(why) => {
            graph.teller.error(why)?;
            Ok(None)
        }
    }
}

// The text of an entry: the one that is given, or that of the file.
fn entry_text<F: FileSystem + Drop>(
    graph: &mut Graph<'_, F>,
    path: &str,
    given: Option<String>,
) -> Result<Option<String>, AllocError>
    ensures grows { graph.old.teller.messages.errors ≤ graph.new.teller.messages.errors }
    ensures told { IfOk result (λ text.
        MatchOption text (0 < graph.new.teller.messages.errors) (λ _. Unit {0})) }
{
    match given {
        Some(text) => Ok(Some(text)),
        None => read_text(&graph.files, &mut graph.teller, path),
    }
}

// The text of the file of an entry.
fn read_text<F: FileSystem + Drop>(
    files: &F,
    teller: &mut Teller<'_>,
    path: &str,
) -> Result<Option<String>, AllocError>
    ensures grows { teller.old.messages.errors ≤ teller.new.messages.errors }
    ensures told { IfOk result (λ text.
        MatchOption text (0 < teller.new.messages.errors) (λ _. Unit {0})) }
{
    match files.read(teller.alloc, path) {
        Ok(text) => Ok(Some(text)),
        Err(cause) => {
            let why = teller.unread_text(path, &cause)?;
            teller.error(why)?;
            Ok(None)
        }
    }
}

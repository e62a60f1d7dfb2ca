//! What a bundler keeps from one call to the next.

ghost use Rattle.std.specs.Prelude.{◌≡◌, ◌+◌, ◌<◌, ◌≤◌, ◌++◌, ◌∷◌, [], length, map, not, position, Some, None, IfOk, IfErr, IfSome, IsTrue, OnOk, OnErr, OnSome, option_copied, Contains};
ghost use Rattle.std.specs.List.{list_any};
ghost use Rattle.std.specs.Map.{lookup};
ghost use Rattle.std.specs.Option.{option_map};
ghost use Rattle.bundle_tree_names.specs.FileName.{name_of, name_eq};
ghost use Rattle.bundle_tree_names.specs.ModuleIdGenerator.{IsRefusal};
ghost use Rattle.bundle_rules.specs.Kept.{asked_eq};
ghost use Rattle.bundler_call.specs.Held.{file_named};
ghost use Rattle.bundler_call.specs.KeptFiles.{asked_in, asked_of, names_in, trees_in, resolved_in, tree_room, HasRoomFor, LoadedAreMet};
ghost use Rattle.bundler_call.specs.Placed.{StandOnce};

use crate::marked::Marked;
use bundle_tree_names::{Error, FileName, ModuleId};
use indexmap::IndexMap;
use std::alloc::{AllocError, Global};
use std::marker::Model;

/// How many modules have their two contexts below 2^32.
const MAX_MODULES: usize = 2147483647;

/// A specifier, as a file writes it.
#[derive(PartialEq, Eq, Hash, Debug, Drop)]
pub struct Request {
    pub file: FileName,
    pub specifier: String,
}

/// The numbers of files, the trees of those that were loaded, and the files that requests lead to.
///
/// What strangers choose, the names of files and the specifiers, is found by its order. The trees go by the numbers of
/// their files, and where requests lead by the numbers of the requests.
#[derive(Drop)]
pub struct Kept<M> {
    // Each file, by whether it is one of the file system. Its place is its number.
    files: Marked<bool>,
    trees: IndexMap<usize, M>,
    // Each request that was to be kept, by the number of the file that asks. Its place is its number.
    requests: Marked<usize>,
    targets: IndexMap<usize, FileName>,
}

impl<M> Model for Kept<M> {
    ghost use Rattle.std.specs.Prelude.{map};
    ghost use Rattle.indexmap.specs.IndexMap.{spare};
    ghost use Rattle.bundler_call.specs.Held.{asked_by, file_named, resolved_by, trees_by, AreNumbered, HeldFiles};

    ghost Value = { HeldFiles M };

    ghost view = { λ kept.
        let names = map file_named kept.files in
        let asked = map (asked_by names) kept.requests in
        record {
          names = names;
          trees = trees_by names kept.trees.entries;
          asked = asked;
          resolved = resolved_by asked kept.targets.entries;
          tree_room = spare kept.trees;
          target_room = spare kept.targets;
        } };

    ghost invariant = { λ kept. AreNumbered kept.files kept.trees.entries kept.requests kept.targets.entries };
}

impl<M: Drop> Kept<M> {
    /// Nothing kept. It takes no memory.
    pub fn new(alloc: Global) -> Self
        ensures names { names_in result ≡ [] }
        ensures trees { trees_in result ≡ [] }
        ensures resolved { resolved_in result ≡ [] }
    {
        Kept {
            files: Marked::new(alloc),
            trees: IndexMap::new(alloc),
            requests: Marked::new(alloc),
            targets: IndexMap::new(alloc),
        }
    }

    /// The number of a file, a new one where it has none.
    pub fn id(&mut self, file: &FileName) -> Result<ModuleId, Error>
        ensures numbered { IfOk result (λ id.
            position (name_eq (name_of file.now)) (names_in self.new) ≡ Some id) }
        ensures known { Contains (names_in self.old) (name_of file.now) →
            names_in self.new ≡ names_in self.old }
        ensures added { OnOk result
            (¬ Contains (names_in self.old) (name_of file.now) →
            names_in self.new ≡ names_in self.old ++ name_of file.now ∷ []) }
        ensures unchanged { OnErr result (names_in self.new ≡ names_in self.old) }
        ensures bounded { length (names_in self.new) ≤ 2147483647 }
        ensures trees { trees_in self.new ≡ trees_in self.old }
        ensures resolved { resolved_in self.new ≡ resolved_in self.old }
        ensures refused { IfErr result (IsRefusal (names_in self.new) (name_of file.now)) }
        ensures absent { OnErr result (¬ Contains (names_in self.new) (name_of file.now)) }
    {
        match number_in(&self.files, file) {
            Some(number) => Ok(ModuleId::from_u32(number as u32)),
            None => {
                let number = add_file(&mut self.files, file)?;
                Ok(ModuleId::from_u32(number as u32))
            }
        }
    }

    /// How many trees are kept.
    pub fn count(&self) -> usize
        ensures { result ≡ length (trees_in self.now) }
    {
        self.trees.len()
    }

    /// The tree of a file, if it is kept.
    pub fn tree(&self, file: &FileName) -> Option<&M>
        ensures { option_copied result ≡ lookup (name_eq (name_of file.now)) (trees_in self.now) }
    {
        match number_in(&self.files, file) {
            Some(number) => self.trees.get(&number),
            None => None,
        }
    }

    /// Makes room for one more tree.
    pub fn reserve_tree(&mut self) -> Result<(), AllocError>
        ensures room { OnOk result (0 < tree_room self.new) }
        ensures names { names_in self.new ≡ names_in self.old }
        ensures trees { trees_in self.new ≡ trees_in self.old }
        ensures resolved { resolved_in self.new ≡ resolved_in self.old }
    {
        self.trees.reserve(1)
    }

    /// Keeps the tree of a file that was met and has none. There is room for it, so that it is never refused.
    pub fn keep_tree(&mut self, file: FileName, tree: M)
        requires room { 0 < tree_room self.old }
        requires met { Contains (names_in self.old) (name_of file) }
        requires absent { lookup (name_eq (name_of file)) (trees_in self.old) ≡ None }
        ensures names { names_in self.new ≡ names_in self.old }
        ensures trees { trees_in self.new ≡ trees_in self.old ++ (name_of file, tree) ∷ [] }
        ensures resolved { resolved_in self.new ≡ resolved_in self.old }
    {
        let number = number_in(&self.files, &file).unwrap();
        let _ = self.trees.insert(number, tree);
    }

    /// The file that a request leads to, if it is kept.
    pub fn target(&self, request: &Request) -> Option<&FileName>
        ensures target { option_map (λ file. name_of file.now) result
            ≡ lookup (asked_eq (asked_of request.now)) (resolved_in self.now) }
        ensures met { LoadedAreMet self.now }
    {
        match self.request(request) {
            Some(number) => self.targets.get(&number),
            None => None,
        }
    }

    // The number of a request, if it has one.
    fn request(&self, request: &Request) -> Option<usize>
        ensures number { result ≡ position (asked_eq (asked_of request.now)) (asked_in self.now) }
        ensures once { OnSome result (StandOnce asked_eq (asked_in self.now)) }
    {
        match number_in(&self.files, &request.file) {
            Some(file) => self.requests.get(file, &request.specifier),
            None => None,
        }
    }

    /// Makes room for the file that a request leads to, whose own file was met.
    pub fn reserve_target(&mut self, request: &Request) -> Result<(), AllocError>
        requires { Contains (names_in self.old) (name_of request.now.file) }
        ensures room { OnOk result (HasRoomFor self.new (asked_of request.now)) }
        ensures names { names_in self.new ≡ names_in self.old }
        ensures trees { trees_in self.new ≡ trees_in self.old }
        ensures resolved { resolved_in self.new ≡ resolved_in self.old }
    {
        self.targets.reserve(1)?;
        let file = number_in(&self.files, &request.file).unwrap();
        match self.requests.get(file, &request.specifier) {
            Some(_number) => Ok(()),
            None => {
                self.requests.add(file, &request.specifier)?;
                Ok(())
            }
        }
    }

    /// Keeps the file that a request leads to, which has none. There is room for it, so that it is never
    /// refused.
    pub fn keep_target(&mut self, request: Request, file: FileName)
        requires room { HasRoomFor self.old (asked_of request) }
        requires absent { lookup (asked_eq (asked_of request)) (resolved_in self.old) ≡ None }
        ensures names { names_in self.new ≡ names_in self.old }
        ensures trees { trees_in self.new ≡ trees_in self.old }
        ensures resolved { resolved_in self.new
            ≡ resolved_in self.old ++ (asked_of request, name_of file) ∷ [] }
    {
        let number = self.request(&request).unwrap();
        let _ = self.targets.insert(number, file);
    }
}

// The number of a file among these, if it has one.
fn number_in(files: &Marked<bool>, file: &FileName) -> Option<usize>
    ensures number { result ≡ position (name_eq (name_of file.now)) (map file_named files.now) }
    ensures within { IfSome result (λ number. number < length files.now) }
    ensures once { OnSome result (StandOnce name_eq (map file_named files.now)) }
{
    match file {
        FileName::Real(path) => files.get(true, path),
        FileName::Custom(name) => files.get(false, name),
    }
}

// Gives the next number to a file that has none.
fn add_file(files: &mut Marked<bool>, file: &FileName) -> Result<usize, Error>
    requires absent { position (name_eq (name_of file.now)) (map file_named files.old) ≡ None }
    requires bounded { length files.old ≤ 2147483647 }
    ensures last { IfOk result (λ number. number ≡ length files.old) }
    ensures added { OnOk result
        (map file_named files.new ≡ map file_named files.old ++ name_of file.now ∷ []) }
    ensures bounded { length files.new ≤ 2147483647 }
    ensures unchanged { OnErr result (files.new ≡ files.old) }
    ensures refused { IfErr result (IsRefusal (map file_named files.old) (name_of file.now)) }
{
    let number = files.len();
    if number == MAX_MODULES {
        return Err(Error::ContextsUsedUp {
            file: file.clone()?,
        });
    }
    put_file(files, file)?;
    Ok(number)
}

// Puts a file that is not among these last.
fn put_file(files: &mut Marked<bool>, file: &FileName) -> Result<(), AllocError>
    requires { position (name_eq (name_of file.now)) (map file_named files.old) ≡ None }
    ensures added { OnOk result
        (map file_named files.new ≡ map file_named files.old ++ name_of file.now ∷ []) }
    ensures longer { OnOk result (length files.new ≡ length files.old + 1) }
    ensures unchanged { OnErr result (files.new ≡ files.old) }
{
    match file {
        FileName::Real(path) => files.add(true, path)?,
        FileName::Custom(name) => files.add(false, name)?,
    }
    Ok(())
}

/// Puts a file last, unless it is among these. True where it was not.
pub(crate) fn note_file(files: &mut Marked<bool>, file: &FileName) -> Result<bool, AllocError>
    ensures added { IfOk result (λ is_new.
        is_new ≡ not (list_any (λ its. name_eq (name_of file.now) (file_named its)) files.old)) }
    ensures put { IfOk result (λ is_new.
        IsTrue is_new →
        map file_named files.new ≡ map file_named files.old ++ name_of file.now ∷ []) }
{
    match number_in(&*files, file) {
        Some(_number) => Ok(false),
        None => {
            put_file(files, file)?;
            Ok(true)
        }
    }
}

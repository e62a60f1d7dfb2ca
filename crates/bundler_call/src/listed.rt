//! Files with their numbers.

ghost use Rattle.std.specs.Prelude.{◌≡◌, ◌<◌, ◌^◌, ◌++◌, ◌∷◌, [], false, length, nat_eq, OnOk, OnErr};
ghost use Rattle.std.specs.List.{list_any};
ghost use Rattle.bundle_link_index.specs.Numbered.{HasNoDoubles};
ghost use Rattle.bundle_link.specs.Files.{numbers_of};

use bundle_tree_names::ModuleId;
use bundle_tree_names::file_name::FileName;
use indexmap::IndexSet;
use std::alloc::{AllocError, Global};
use std::marker::Model;

/// Files with their numbers, in the order in which they came, each number once. Clauses see their list.
///
/// A file is found by its number, since strangers who choose the names of files can choose such that have one hash.
#[derive(Debug, Drop)]
pub struct NumberedFiles {
    files: Vec<(FileName, ModuleId)>,
    ids: IndexSet<ModuleId>,
}

impl Model for NumberedFiles {
    ghost use Rattle.std.specs.Prelude.{◌≡◌, ℕ, List};
    ghost use Rattle.bundle_tree_names.specs.declared.file_name.FileName.{FileName};
    ghost use Rattle.bundle_link.specs.Files.{numbers_of};

    ghost Value = { List (FileName × ℕ) };

    ghost view = { λ listed. listed.files.items };

    ghost invariant = { λ listed. listed.ids.keys ≡ numbers_of listed.files.items };
}

impl NumberedFiles {
    /// No files. It takes no memory.
    pub(crate) fn new(alloc: Global) -> NumberedFiles
        ensures { result ≡ [] }
    {
        NumberedFiles {
            files: Vec::new(alloc),
            ids: IndexSet::new(alloc),
        }
    }

    /// How many files there are.
    pub(crate) fn len(&self) -> usize
        ensures len { result ≡ length self.now }
        ensures small { result < 2 ^ 63 }
        ensures once { HasNoDoubles (numbers_of self.now) }
    {
        self.ids.len()
    }

    /// The files, in the order in which they came.
    pub(crate) fn as_slice(&self) -> &[(FileName, ModuleId)]
        ensures { result.now ≡ self.now }
    {
        self.files.as_slice()
    }

    /// Whether there is a file with this number.
    pub(crate) fn has(&self, id: ModuleId) -> bool
        ensures { result ≡ list_any (nat_eq id) (numbers_of self.now) }
    {
        self.ids.contains(&id)
    }

    /// Puts a file last, whose number no other has.
    pub(crate) fn push(&mut self, file: FileName, id: ModuleId) -> Result<(), AllocError>
        requires { list_any (nat_eq id) (numbers_of self.old) ≡ false }
        ensures added { OnOk result (self.new ≡ self.old ++ (file, id) ∷ []) }
        ensures unchanged { OnErr result (self.new ≡ self.old) }
    {
        self.files.reserve(1)?;
        self.ids.insert(id)?;
        self.files.push((file, id))?;
        Ok(())
    }
}

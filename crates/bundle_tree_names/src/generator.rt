//! The numbers and the contexts of modules.

ghost use Rattle.std.specs.Prelude.{◌≡◌, ◌<◌, ◌≤◌, ◌+◌, ◌*◌, ◌↔◌, [], ◌∷◌, ◌++◌, length, slice_get, Some, Contains, IsOk, IsSome, IfOk, IfErr, IfSome, OnOk, OnErr};
ghost use Rattle.std.specs.Option.{option_map};
ghost use Rattle.bundle_tree_names.specs.FileName.{name_of};
ghost use Rattle.bundle_tree_names.specs.ModuleIdGenerator.{IsDistinct, IsRefusal};

use crate::{Error, FileName, ModuleId, SyntaxContext};
use indexmap::IndexSet;
use std::alloc::Global;
use std::marker::Model;

/// How many modules have their two contexts below 2^32.
const MAX_MODULES: usize = 2147483647;

/// Numbers files by their names, from 0 on in the order in which it meets them. Clauses see the
/// list of the names that have a number, each at its number.
#[derive(Debug, Drop)]
pub struct ModuleIdGenerator {
    files: IndexSet<FileName>,
}

impl Model for ModuleIdGenerator {
    ghost use Rattle.std.specs.Prelude.{List, ◌≤◌, length};
    ghost use Rattle.bundle_tree_names.specs.FileName.{Name};
    ghost use Rattle.bundle_tree_names.specs.ModuleIdGenerator.{IsDistinct, names_of};

    ghost Value = { List Name };

    ghost view = { λ generator. names_of generator.files.keys };

    ghost invariant = { λ generator.
        IsDistinct (names_of generator.files.keys) × (length generator.files.keys ≤ 2147483647) };
}

impl ModuleIdGenerator {
    /// A generator that knows no name. It takes no memory.
    pub fn new(alloc: Global) -> Self
        ensures { result ≡ [] }
    {
        ModuleIdGenerator {
            files: IndexSet::new(alloc),
        }
    }

    /// The number of the module in `file`, and the two contexts of its identifiers: that of its own
    /// ones, and that of its exports.
    ///
    /// A name that has a number keeps it, which never fails. Another name gets the next number. It is
    /// refused with `ContextsUsedUp` where a context would be above 4294967295, and with `OutOfMemory`
    /// for want of memory. After a refusal the generator is as it was.
    pub fn generate(
        &mut self,
        file: &FileName,
    ) -> Result<(ModuleId, SyntaxContext, SyntaxContext), Error>
        ensures numbered { IfOk result (λ r. slice_get self.new r.0 ≡ Some (name_of file.now)) }
        ensures own_context { IfOk result (λ r. r.1 ≡ 2 * r.0 + 2) }
        ensures export_context { IfOk result (λ r. r.2 ≡ 2 * r.0 + 3) }

        // A known name has its number already, and another one goes last.
        ensures known { Contains self.old (name_of file.now) → IsOk result }
        ensures unchanged { Contains self.old (name_of file.now) → self.new ≡ self.old }
        ensures added { OnOk result
            (¬ Contains self.old (name_of file.now) →
            self.new ≡ self.old ++ name_of file.now ∷ []) }
        ensures distinct { IsDistinct self.new }
        ensures bounded { length self.new ≤ 2147483647 }

        ensures used_up { length self.old ≡ 2147483647 →
            IsOk result →
            Contains self.old (name_of file.now) }
        ensures refused { IfErr result (IsRefusal self.old (name_of file.now)) }
        ensures err { OnErr result (self.new ≡ self.old) }
    {
        let id = match self.id_of(file) {
            Some(id) => id,
            None => self.add(file)?,
        };
        let first = 2 * id.as_u32();
        Ok((
            id,
            SyntaxContext::from_u32(first + 2),
            SyntaxContext::from_u32(first + 3),
        ))
    }

    /// The number of the module in `file`, if the name has one.
    pub fn id_of(&self, file: &FileName) -> Option<ModuleId>
        ensures numbered { IfSome result (λ id.
            slice_get self.now id ≡ Some (name_of file.now)) }
        ensures known { IsSome result ↔ Contains self.now (name_of file.now) }
        ensures bounded { length self.now ≤ 2147483647 }
        ensures distinct { IsDistinct self.now }
    {
        let place = self.files.get_index_of(file)?;
        Some(ModuleId::from_u32(place as u32))
    }

    /// The name of the file that has this number.
    pub fn file_of(&self, id: ModuleId) -> Option<&FileName>
        ensures { option_map (λ file. name_of file.now) result ≡ slice_get self.now id }
    {
        self.files.get_index(id.as_u32() as usize)
    }

    // Gives the next number to a name that has none.
    fn add(&mut self, file: &FileName) -> Result<ModuleId, Error>
        requires { ¬ Contains self.old (name_of file.now) }
        ensures last { IfOk result (λ id. id ≡ length self.old) }
        ensures added { OnOk result (self.new ≡ self.old ++ name_of file.now ∷ []) }
        ensures distinct { IsDistinct self.new }
        ensures bounded { length self.new ≤ 2147483647 }
        ensures used_up { length self.old ≡ 2147483647 → ¬ IsOk result }
        ensures refused { IfErr result (IsRefusal self.old (name_of file.now)) }
        ensures err { OnErr result (self.new ≡ self.old) }
    {
        let place = self.files.len();
        let file = file.clone()?;
        if place == MAX_MODULES {
            return Err(Error::ContextsUsedUp { file });
        }
        self.files.insert(file)?;
        Ok(ModuleId::from_u32(place as u32))
    }
}

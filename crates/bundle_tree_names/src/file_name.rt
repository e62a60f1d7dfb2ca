//! The names of files.

use std::alloc::AllocError;
use std::fmt;
use std::hash::{Hash, Hasher};

/// The name of a file. Two names are equal if they are of one kind and have the same text.
#[derive(Debug, Drop)]
pub enum FileName {
    /// A file of the file system, by its path.
    Real(String),
    /// Any other source of text, by a name of its own.
    Custom(String),
}

impl PartialEq for FileName {
    ghost use Rattle.std.specs.Prelude.{◌≡◌, ◌↔◌, IsTrue};
    ghost use Rattle.bundle_tree_names.specs.FileName.{name_of, name_eq};
    ghost use Rattle.bundle_tree_names.specs.FileNameLaws.{file_name_eq_per};

    ghost eq = { λ a b. name_eq (name_of a) (name_of b) };

    ghost laws = { file_name_eq_per };

    fn eq(&self, other: &FileName) -> bool
        ensures value { result ≡ name_eq (name_of self.now) (name_of other.now) }
        ensures same { IsTrue result ↔ (name_of self.now ≡ name_of other.now) }
    {
        match (self, other) {
            (FileName::Real(a), FileName::Real(b)) => a == b,
            (FileName::Custom(a), FileName::Custom(b)) => a == b,
            _ => false,
        }
    }
}

impl Eq for FileName {
    ghost use Rattle.bundle_tree_names.specs.FileNameLaws.{file_name_eq_equiv};

    ghost laws = { file_name_eq_equiv };
}

impl Hash for FileName {
    ghost use Rattle.bundle_tree_names.specs.FileName.{name_of, hash_input_of};
    ghost use Rattle.bundle_tree_names.specs.FileNameLaws.{file_name_hash_alike};

    ghost hash_input = { λ file. hash_input_of (name_of file) };

    ghost respects_eq = { file_name_hash_alike };

    fn hash<H: Hasher>(&self, state: &mut H) {
        match self {
            FileName::Real(path) => {
                state.write_u8(0);
                path.hash(state);
            }
            FileName::Custom(name) => {
                state.write_u8(1);
                name.hash(state);
            }
        }
    }
}

/// The clone names the same file. Only memory can refuse it.
impl Clone for FileName {
    ghost use Rattle.std.specs.Prelude.{◌≡◌};
    ghost use Rattle.bundle_tree_names.specs.FileName.{name_of};

    ghost is_clone = { λ file copy. name_of copy ≡ name_of file };

    fn clone(&self) -> Result<FileName, AllocError> {
        Ok(match self {
            FileName::Real(path) => FileName::Real(path.clone()?),
            FileName::Custom(name) => FileName::Custom(name.clone()?),
        })
    }
}

/// Writes the text of the name.
impl fmt::Display for FileName {
    ghost use Rattle.std.specs.Prelude.{Some};
    ghost use Rattle.bundle_tree_names.specs.FileName.{name_of, text_of};

    ghost output = { λ file. Some (text_of (name_of file)) };

    fn fmt<W: fmt::Write>(&self, f: &mut fmt::Formatter<W>) -> fmt::Result {
        match self {
            FileName::Real(path) => write!(f, "{path}"),
            FileName::Custom(name) => write!(f, "{name}"),
        }
    }
}

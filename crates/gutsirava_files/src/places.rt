//! Where an output goes.
ghost use Rattle.std.specs.Prelude.{◌≡◌, ℕ, List, false, string_bytes};

use crate::disk::Disk;
use std::marker::{Model, PhantomData};

/// A place for a file, by its path without links. It is no input's.
#[derive(Drop)]
pub(crate) struct OutputPlace<D: Disk> {
    path: String,
    /// Whether a file stands there.
    is_taken: bool,
    disk: PhantomData<D>,
}

/// Its path.
impl<D: Disk> Model for OutputPlace<D> {
    ghost Value = { List ℕ };

    ghost view = { λ place. string_bytes place.path };

    ghost invariant = { λ place. D.is_input (string_bytes place.path) ≡ false };
}

impl<D: Disk + Drop> OutputPlace<D> {
    pub(crate) fn new(path: String, is_taken: bool) -> OutputPlace<D>
        requires { D.is_input (string_bytes path) ≡ false }
        ensures { result ≡ string_bytes path }
    {
        OutputPlace {
            path,
            is_taken,
            disk: PhantomData,
        }
    }

    pub(crate) fn path(&self) -> &str
        ensures spared { D.is_input result.now ≡ false }
        ensures path { result.now ≡ self.now }
    {
        self.path.as_str()
    }

    pub(crate) fn is_taken(&self) -> bool {
        self.is_taken
    }
}

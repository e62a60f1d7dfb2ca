//! What resolution asks of a file system.
ghost use Rattle.std.specs.Prelude.{◌≡◌, ℕ, List, IfOk, string_bytes};

use std::alloc::Global;
use std::io;

/// What stands at a path, links followed.
#[derive(Clone, Copy)]
pub enum PathKind {
    File,
    Folder,
    /// Nothing, or neither a file nor a folder.
    Missing,
}

/// A file system. Paths begin with `/` and are normal.
pub trait FileSystem {
    /// That a file is at a path.
    ghost has_file: { List ℕ → Type 0 };

    /// That the second path is the first one without links.
    ghost is_real: { List ℕ → List ℕ → Type 0 };

    /// What stands at the path. What may not be looked at is an error, what is not there is `Missing`.
    fn kind(&self, path: &str) -> io::Result<PathKind>
        ensures { result ≡ Ok PathKind.File → has_file path.now };

    /// The text of a file.
    fn read(&self, alloc: Global, path: &str) -> io::Result<String>;

    /// The path of a file without links.
    fn real_path(&self, alloc: Global, path: &str) -> io::Result<String>
        ensures files { IfOk result (λ real. has_file path.now → has_file (string_bytes real)) }
        ensures real { IfOk result (λ real. is_real path.now (string_bytes real)) };
}

/// Files that are lent.
impl<F: FileSystem> FileSystem for &F {
    ghost has_file = { F.has_file };

    ghost is_real = { F.is_real };

    fn kind(&self, path: &str) -> io::Result<PathKind> {
        (**self).kind(path)
    }

    fn read(&self, alloc: Global, path: &str) -> io::Result<String> {
        (**self).read(alloc, path)
    }

    fn real_path(&self, alloc: Global, path: &str) -> io::Result<String> {
        (**self).real_path(alloc, path)
    }
}

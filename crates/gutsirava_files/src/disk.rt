//! What writing asks of a file system.
ghost use Rattle.std.specs.Prelude.{◌≡◌, ℕ, List, Bool, true, false, IfOk, OnOk, string_bytes};
ghost use Rattle.gutsirava_files.specs.Outputs.{folder_at, place_in};

use std::alloc::Global;
use std::io;

/// What stands at a path, links followed.
#[derive(Clone, Copy, PartialEq, Eq)]
pub enum DiskKind {
    File,
    Folder,
    /// Neither a file nor a folder: a terminal, a pipe, a device.
    Device,
    Missing,
}

/// A file system. Only what was made here is renamed or removed, and no input is replaced: each method that changes
/// what stands at a path requires it.
pub trait Disk {
    /// Whether a file, or a folder, was made at a path, or was moved there.
    ghost has_made: { List ℕ → Bool };

    /// Whether the file at a path is an input.
    ghost is_input: { List ℕ → Bool };

    /// Whether a device is at a path.
    ghost has_device: { List ℕ → Bool };

    /// Whether these bytes were written whole to a path: to a file that was made or moved there, or to a device.
    ghost is_written: { List ℕ → List ℕ → Bool };

    /// Whether a file that is put at the second path, without links, stands at the first one.
    ghost leads: { List ℕ → List ℕ → Bool };

    /// So it is for a path in what the folder of a file is without links, under the name of the file.
    ghost leads_below: { (path folder : List ℕ) → leads (folder_at path) folder ≡ true →
        leads path (place_in folder path) ≡ true };

    /// What stands at the path.
    fn standing(&self, path: &str) -> io::Result<DiskKind>
        ensures { result ≡ Ok DiskKind.Device → has_device path.now ≡ true };

    /// The path of what stands at a path, without links.
    fn real_path(&self, alloc: Global, path: &str) -> io::Result<String>
        ensures { IfOk result (λ real. leads path.now (string_bytes real) ≡ true) };

    /// Makes a folder where nothing stands, in a folder.
    fn make_folder(&self, path: &str) -> io::Result<()>
        ensures { OnOk result (has_made path.now ≡ true) };

    /// Makes a file with these bytes where nothing stands. Where it cannot be written whole, it is gone again.
    fn make_file(&self, path: &str, bytes: &[u8]) -> io::Result<()>
        ensures made { OnOk result (has_made path.now ≡ true) }
        ensures written { OnOk result (is_written path.now bytes.now ≡ true) };

    /// Gives a file one name more, where nothing stands.
    fn link(&self, path: &str, new_path: &str) -> io::Result<()>
        ensures { OnOk result (has_made new_path.now ≡ true) };

    /// Gives a file the permissions of another.
    fn copy_permissions(&self, from: &str, to: &str) -> io::Result<()>
        requires { has_made to.now ≡ true };

    /// Puts a file in the place of another, or where nothing stands, in one step.
    fn rename(&self, from: &str, to: &str) -> io::Result<()>
        requires made { has_made from.now ≡ true }
        requires spares_inputs { is_input to.now ≡ false }
        ensures made { OnOk result (has_made to.now ≡ true) }
        ensures moved { OnOk result ((bytes : List ℕ) →
            is_written from.now bytes ≡ true → is_written to.now bytes ≡ true) };

    /// Writes bytes to a device.
    fn write_device(&self, path: &str, bytes: &[u8]) -> io::Result<()>
        requires { has_device path.now ≡ true }
        ensures { OnOk result (is_written path.now bytes.now ≡ true) };

    /// Removes a file.
    fn remove_file(&self, path: &str) -> io::Result<()>
        requires { has_made path.now ≡ true };

    /// Removes a folder in which nothing is.
    fn remove_folder(&self, path: &str) -> io::Result<()>
        requires { has_made path.now ≡ true };
}

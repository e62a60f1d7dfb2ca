//! Files and folders that were made here.
ghost use Rattle.std.specs.Prelude.{◌≡◌, ℕ, List, true, IfOk, OnOk, string_bytes};

use crate::disk::Disk;
use crate::places::OutputPlace;
use std::alloc::Global;
use std::io;
use std::marker::{Model, PhantomData};

/// The path of a file or a folder that was made here, so that it may be removed.
#[derive(Drop)]
pub(crate) struct MadePath<D: Disk> {
    path: String,
    disk: PhantomData<D>,
}

/// Its path.
impl<D: Disk> Model for MadePath<D> {
    ghost Value = { List ℕ };

    ghost view = { λ made. string_bytes made.path };

    ghost invariant = { λ made. D.has_made (string_bytes made.path) ≡ true };
}

impl<D: Disk + Drop> MadePath<D> {
    fn at(path: String) -> MadePath<D>
        requires { D.has_made (string_bytes path) ≡ true }
        ensures { result ≡ string_bytes path }
    {
        MadePath {
            path,
            disk: PhantomData,
        }
    }

    /// Makes a folder.
    pub(crate) fn folder(disk: &D, path: String) -> io::Result<MadePath<D>> {
        disk.make_folder(path.as_str())?;
        Ok(MadePath::at(path))
    }

    /// Makes a file with these bytes.
    pub(crate) fn file(disk: &D, path: String, bytes: &[u8]) -> io::Result<MadePath<D>>
        ensures { IfOk result (λ made. D.is_written made bytes.now ≡ true) }
    {
        disk.make_file(path.as_str(), bytes)?;
        Ok(MadePath::at(path))
    }

    /// Gives the file at a place a name more.
    pub(crate) fn link(disk: &D, place: &OutputPlace<D>, path: String) -> io::Result<MadePath<D>> {
        disk.link(place.path(), path.as_str())?;
        Ok(MadePath::at(path))
    }

    /// Moves the file to a place. The file that stands there is gone.
    pub(crate) fn move_to(
        &self,
        alloc: Global,
        disk: &D,
        place: &OutputPlace<D>,
    ) -> io::Result<MadePath<D>>
        ensures { OnOk result ((bytes : List ℕ) →
            D.is_written self.now bytes ≡ true → D.is_written place.now bytes ≡ true) }
    {
        let path = String::from_str(alloc, place.path())?;
        disk.rename(self.path(), path.as_str())?;
        Ok(MadePath::at(path))
    }

    pub(crate) fn path(&self) -> &str
        ensures made { D.has_made result.now ≡ true }
        ensures path { result.now ≡ self.now }
    {
        self.path.as_str()
    }
}

//! Outputs that are written beside their places.
ghost use Rattle.std.specs.Prelude.{◌≡◌, true, OnOk};
ghost use Rattle.gutsirava_files.specs.Outputs.{IsFileAt};

use crate::disk::Disk;
use crate::made::MadePath;
use crate::outputs::FileOutput;
use crate::places::OutputPlace;
use std::alloc::Global;
use std::io;

/// An output that is written to a file beside its place.
#[derive(Drop)]
pub(crate) struct Staged<'o, D: Disk> {
    pub(crate) output: FileOutput<'o>,
    place: OutputPlace<D>,
    temporary: MadePath<D>,
    /// What stood at the place, by another name.
    aside: Option<MadePath<D>>,
    /// The output at its place, once it is there.
    placed: Option<MadePath<D>>,
    ghost fits: { D.leads output.path.now place ≡ true },
    ghost whole: { D.is_written temporary output.bytes.now ≡ true },
}

impl<'o, D: Disk + Drop> Staged<'o, D> {
    pub(crate) fn new(
        output: FileOutput<'o>,
        place: OutputPlace<D>,
        temporary: MadePath<D>,
    ) -> Staged<'o, D>
        requires fits { D.leads output.path.now place ≡ true }
        requires whole { D.is_written temporary output.bytes.now ≡ true }
        ensures { result.output ≡ output.entry }
    {
        Staged {
            output,
            place,
            temporary,
            aside: None,
            placed: None,
        }
    }

    /// Whether its place is at a path.
    pub(crate) fn is_at(&self, path: &str) -> bool {
        self.place.path() == path
    }

    /// Moves the output to its place. With `keeps_old` it can be taken back from there, if the file system has links.
    pub(crate) fn put(&mut self, alloc: Global, disk: &D, keeps_old: bool) -> io::Result<()>
        ensures same { self.new.output ≡ self.old.output }
        ensures there { OnOk result (IsFileAt D.leads D.is_written
            self.old.output.path.now self.old.output.bytes.now) }
    {
        if self.place.is_taken() {
            let _ = disk.copy_permissions(self.place.path(), self.temporary.path());
            if keeps_old {
                self.keep_old(alloc, disk)?;
            }
        }
        self.placed = Some(self.temporary.move_to(alloc, disk, &self.place)?);
        Ok(())
    }

    /// Keeps what stands at the place.
    fn keep_old(&mut self, alloc: Global, disk: &D) -> io::Result<()>
        ensures output { self.new.output ≡ self.old.output }
        ensures place { self.new.place ≡ self.old.place }
        ensures temporary { self.new.temporary ≡ self.old.temporary }
    {
        let temporary = self.temporary.path();
        let path = format!(in alloc; "{temporary}-old")?;
        if let Ok(aside) = MadePath::link(disk, &self.place, path) {
            self.aside = Some(aside);
        }
        Ok(())
    }

    /// Takes the output away, and brings back what stood at its place.
    pub(crate) fn undo(&self, alloc: Global, disk: &D) {
        match (&self.placed, &self.aside) {
            (Some(_), Some(aside)) => {
                let _ = aside.move_to(alloc, disk, &self.place);
            }
            (Some(placed), None) if !self.place.is_taken() => {
                let _ = disk.remove_file(placed.path());
            }
            (Some(_), None) => {}
            (None, _) => {
                let _ = disk.remove_file(self.temporary.path());
                self.forget_old(disk);
            }
        }
    }

    /// Removes what stood at the place.
    pub(crate) fn forget_old(&self, disk: &D) {
        if let Some(aside) = &self.aside {
            let _ = disk.remove_file(aside.path());
        }
    }
}

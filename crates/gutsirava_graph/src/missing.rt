//! Names that are taken of a module that does not give them, or of two that do.

ghost use Rattle.std.specs.Prelude.{◌≤◌, ◌<◌, OnOk};

use crate::graph::MOST_DEPTH;
use crate::message::MOST_ERRORS;
use crate::numbers::unit_in;
use crate::spot::{TextSpot, bounds, spot_in};
use crate::tables::givers;
use crate::teller::Teller;
use crate::unit::{BundleUnit, path_in, target_of};
use crate::unit_table::kind_in;
use bundle_tree_names::file_name::FileName;
use gutsirava_report::{FilePlace, Note};
use gutsirava_sources::{Placed, SourceKind, TakenName, outline_of, read_as, taken_of};
use std::alloc::{AllocError, Global};

/// In so many modules names are sought, all together.
const MOST_SOUGHT: usize = 200_000;

/// A name that is taken where it is not given.
#[derive(Drop)]
struct Missing {
    name: String,
    unit: usize,
    target: usize,
    at: usize,
    end: usize,
}

impl Teller<'_> {
    /// Tells of each name that is taken where it is not given, as far as they are told.
    pub(crate) fn tell_missing(
        &mut self,
        units: &[BundleUnit],
        file: &FileName,
        name: &str,
    ) -> Result<(), AllocError>
        ensures grows { self.old.messages.errors ≤ self.new.messages.errors }
        ensures told { OnOk result (0 < self.new.messages.errors) }
    {
        let found = missing_of(self.alloc, units)?;
        let told = self.messages.errors;
        self.tell_all_lost(units, found.all.as_slice())?;
        if self.messages.errors > told {
            return Ok(());
        }
        let why = format!(in self.alloc; "{name:?} is not exported")?;
        self.tell_spot(units, file, TextSpot::Import(name), why)
    }

    fn tell_all_lost(&mut self, units: &[BundleUnit], all: &[Missing]) -> Result<(), AllocError>
        ensures grows { self.old.messages.errors ≤ self.new.messages.errors }
    {
        for missing in all {
            self.tell_lost(units, missing)?;
        }
        Ok(())
    }

    fn tell_lost(&mut self, units: &[BundleUnit], missing: &Missing) -> Result<(), AllocError>
        ensures grows { self.old.messages.errors ≤ self.new.messages.errors }
        ensures told { OnOk result (0 < self.new.messages.errors) }
    {
        if self.messages.is_full() {
            return Ok(());
        }
        let place = self.place_in(units, missing.unit, missing.at, missing.end)?;
        let target = self.told_path(units, missing.target)?;
        let notes = lacking_notes(self.alloc, target.as_str())?;
        let name = &missing.name;
        let why = format!(in self.alloc; "{target} has no export {name:?}")?;
        self.messages.error(why, Some(place), notes)
    }

    /// Tells of a name that two modules give.
    pub(crate) fn tell_ambiguous(
        &mut self,
        units: &[BundleUnit],
        file: &FileName,
        name: &str,
    ) -> Result<(), AllocError>
        ensures grows { self.old.messages.errors ≤ self.new.messages.errors }
        ensures told { OnOk result (0 < self.new.messages.errors) }
    {
        match unit_in(file) {
            Some(number) if number < units.len() => self.tell_two_givers(units, number, name),
            _ => {
                let why = two_givers_text(self.alloc, name)?;
                self.tell_file(units, file, why)
            }
        }
    }

    // The same of a name that this module takes.
    fn tell_two_givers(
        &mut self,
        units: &[BundleUnit],
        number: usize,
        name: &str,
    ) -> Result<(), AllocError>
        ensures grows { self.old.messages.errors ≤ self.new.messages.errors }
        ensures told { OnOk result (0 < self.new.messages.errors) }
    {
        let place = self.spot_place(units, number, TextSpot::Import(name))?;
        let notes = self.givers_notes(units, number, name)?;
        let why = two_givers_text(self.alloc, name)?;
        self.messages.error(why, place, notes)
    }

    // Where something stands in a module, if it does.
    fn spot_place(
        &self,
        units: &[BundleUnit],
        number: usize,
        spot: TextSpot<'_>,
    ) -> Result<Option<FilePlace>, AllocError> {
        let Some(unit) = units.get(number) else {
            return Ok(None);
        };
        match spot_in(self.alloc, unit.text(), unit.kind, spot)? {
            Some((at, end)) => Ok(Some(self.place_in(units, number, at, end)?)),
            None => Ok(None),
        }
    }

    // Where two modules give a name that a module takes.
    fn givers_notes(
        &self,
        units: &[BundleUnit],
        number: usize,
        name: &str,
    ) -> Result<Vec<Note>, AllocError> {
        let mut notes = Vec::new(self.alloc);
        let Some(unit) = units.get(number) else {
            return Ok(notes);
        };
        for link in &unit.links {
            if let Some(target) = link.target
                && notes.is_empty()
            {
                self.note_givers(units, target, name, &mut notes)?;
            }
        }
        Ok(notes)
    }

    // Notes the first two modules that give a name for another one, where there are two.
    fn note_givers(
        &self,
        units: &[BundleUnit],
        target: usize,
        name: &str,
        notes: &mut Vec<Note>,
    ) -> Result<(), AllocError> {
        let found = givers(self.alloc, units, target, name)?;
        if found.units.len() > 1 {
            for giver in found.units.iter().take(2) {
                push_note(notes, self.giver_note(units, *giver, name)?)?;
            }
        }
        Ok(())
    }

    // Where a module exports a name.
    fn giver_note(
        &self,
        units: &[BundleUnit],
        giver: usize,
        name: &str,
    ) -> Result<Note, AllocError> {
        let place = match self.spot_place(units, giver, TextSpot::Export(name, 0))? {
            Some(place) => place,
            None => self.file_place(units, giver)?,
        };
        noted(self.alloc, "it is exported here", place)
    }
}

// The names that modules take where they are not given, as far as they were sought.
#[derive(Drop)]
struct MissingNames {
    all: Vec<Missing>,
    // In how many modules names were sought.
    sought: usize,
}

impl MissingNames {
    // Whether no more are sought: as many are found as are told, or too much was sought.
    fn is_full(&self) -> bool {
        self.all.len() >= MOST_ERRORS || self.sought >= MOST_SOUGHT
    }

    // Adds the names that a module takes where they are not given.
    fn add_unit(
        &mut self,
        alloc: Global,
        units: &[BundleUnit],
        number: usize,
    ) -> Result<(), AllocError> {
        let Some(unit) = units.get(number) else {
            return Ok(());
        };
        if unit.path().is_none() || unit.kind != SourceKind::EcmaScript {
            return Ok(());
        }
        let Ok(source) = read_as(alloc, unit.text(), unit.kind) else {
            return Ok(());
        };
        let Ok(placed) = source.pieces(alloc, MOST_DEPTH) else {
            return Ok(());
        };
        self.add_list(alloc, units, number, &placed)
    }

    // The same of its list.
    fn add_list(
        &mut self,
        alloc: Global,
        units: &[BundleUnit],
        number: usize,
        placed: &Placed<'_>,
    ) -> Result<(), AllocError> {
        let outline = outline_of(alloc, placed.pieces.as_slice())?;
        let names = taken_of(alloc, placed.pieces.as_slice(), &outline)?;
        for taken in &names {
            if self.is_full() {
                break;
            }
            self.add_taken(alloc, units, number, placed, taken)?;
        }
        Ok(())
    }

    // Adds a name that a module takes, where it is not given.
    fn add_taken(
        &mut self,
        alloc: Global,
        units: &[BundleUnit],
        number: usize,
        placed: &Placed<'_>,
        taken: &TakenName<'_>,
    ) -> Result<(), AllocError> {
        if let Some(unit) = units.get(number)
            && let Some(target) = target_of(unit.links.as_slice(), taken.request)
            && self.lacks(alloc, units, target, taken.name)?
        {
            let (at, end) = bounds(unit.text(), placed, taken.piece);
            let name = String::from_str(alloc, taken.name)?;
            push_missing(
                &mut self.all,
                Missing {
                    name,
                    unit: number,
                    target,
                    at,
                    end,
                },
            )?;
        }
        Ok(())
    }

    // Whether a module is an ECMAScript module of a file that does not give a name.
    fn lacks(
        &mut self,
        alloc: Global,
        units: &[BundleUnit],
        unit: usize,
        name: &str,
    ) -> Result<bool, AllocError> {
        if path_in(units, unit).is_none() || kind_in(units, unit) != SourceKind::EcmaScript {
            return Ok(false);
        }
        let found = givers(alloc, units, unit, name)?;
        self.sought = self.sought.saturating_add(found.met);
        Ok(found.units.is_empty() && !found.is_open)
    }
}

// The names that modules take where they are not given.
fn missing_of(alloc: Global, units: &[BundleUnit]) -> Result<MissingNames, AllocError> {
    let mut names = MissingNames {
        all: Vec::new(alloc),
        sought: 0,
    };
    for number in 0..units.len() {
        if names.is_full() {
            break;
        }
        names.add_unit(alloc, units, number)?;
    }
    Ok(names)
}

fn two_givers_text(alloc: Global, name: &str) -> Result<String, AllocError> {
    format!(in alloc; "two modules give {name:?}, by export *")
}

// What is noted of a file that lacks a name.
fn lacking_notes(alloc: Global, path: &str) -> Result<Vec<Note>, AllocError> {
    let mut notes = Vec::new(alloc);
    let place = FilePlace::of_file(alloc, path)?;
    push_note(&mut notes, noted(alloc, "this file lacks it", place)?)?;
    Ok(notes)
}

fn noted(alloc: Global, text: &str, place: FilePlace) -> Result<Note, AllocError> {
    Ok(Note {
        text: String::from_str(alloc, text)?,
        place: Some(place),
    })
}

fn push_note(notes: &mut Vec<Note>, note: Note) -> Result<(), AllocError> {
    notes.push(note)?;
    Ok(())
}

fn push_missing(all: &mut Vec<Missing>, missing: Missing) -> Result<(), AllocError> {
    all.push(missing)?;
    Ok(())
}

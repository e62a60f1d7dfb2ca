//! What the linker refuses, told with its place.

ghost use Rattle.std.specs.Prelude.{◌≤◌, ◌<◌, OnOk};

use crate::numbers::{unit_in, unit_of};
use crate::spot::{TextSpot, spot_in};
use crate::teller::Teller;
use crate::unit::{BundleUnit, UnitOrigin, path_in};
use bundle_tree_names::error::Error;
use bundle_tree_names::file_name::FileName;
use gutsirava_report::FilePlace;
use std::alloc::{AllocError, Global};

impl Teller<'_> {
    /// Tells why the linker gives no bundle of these modules. Refused only for memory.
    pub fn tell_refusal(&mut self, units: &[BundleUnit], error: &Error) -> Result<(), AllocError>
        ensures grows { self.old.messages.errors ≤ self.new.messages.errors }
        ensures told { OnOk result (0 < self.new.messages.errors) }
    {
        match error {
            Error::OutOfMemory => Err(AllocError),
            Error::MissingExport { file, name } => self.tell_missing(units, file, name.as_str()),
            Error::AmbiguousExport { file, name } => self.tell_ambiguous(
                units,
                file,
                name.as_str(),
            ),
            Error::DoubledDeclaration { file, .. }
            | Error::DoubledExport { file, .. }
            | Error::UndeclaredExport { file, .. }
            | Error::ExternalStarOnly { file, .. }
            | Error::With { file }
            | Error::AwaitInCommonJs { file }
            | Error::ArgumentsUnderIife { file } => {
                let why = sentence_of(self.alloc, error)?;
                match spot_of(error) {
                    Some(spot) => self.tell_spot(units, file, spot, why),
                    None => self.tell_file(units, file, why),
                }
            }
            Error::StarOfCommonJs { file, specifier }
            | Error::RequiredEsModule { file, specifier }
            | Error::RequiredEntry { file, specifier }
            | Error::ExternalUnderIife { file, specifier }
            | Error::Resolve { file, specifier } => {
                let why = sentence_of(self.alloc, error)?;
                self.tell_link(units, file, specifier.as_str(), why)
            }
            Error::NamespaceOverExternalStar { file }
            | Error::Load { file }
            | Error::Hook { file }
            | Error::TooManyModules { file }
            | Error::ContextsUsedUp { file }
            | Error::DoubledEntry { file, .. } => {
                let why = sentence_of(self.alloc, error)?;
                self.tell_file(units, file, why)
            }
        }
    }

    // The path of a module's file as it is told; empty where it has none.
    pub(crate) fn told_path(
        &self,
        units: &[BundleUnit],
        unit: usize,
    ) -> Result<String, AllocError> {
        match path_in(units, unit) {
            Some(path) => self.shown(path),
            None => Ok(String::new(self.alloc)),
        }
    }

    pub(crate) fn place_in(
        &self,
        units: &[BundleUnit],
        unit: usize,
        at: usize,
        end: usize,
    ) -> Result<FilePlace, AllocError> {
        let path = self.told_path(units, unit)?;
        let text = match units.get(unit) {
            Some(unit) => unit.text(),
            None => "",
        };
        FilePlace::in_text(self.alloc, path.as_str(), text, at, end)
    }

    // Tells an error of a file.
    pub(crate) fn tell_file(
        &mut self,
        units: &[BundleUnit],
        file: &FileName,
        why: String,
    ) -> Result<(), AllocError>
        ensures grows { self.old.messages.errors ≤ self.new.messages.errors }
        ensures told { OnOk result (0 < self.new.messages.errors) }
    {
        let place = match unit_in(file) {
            Some(unit) => Some(self.file_place(units, file_behind(units, unit))?),
            None => None,
        };
        self.messages.error(why, place, Vec::new(self.alloc))
    }

    // Tells an error of what stands in a file.
    pub(crate) fn tell_spot(
        &mut self,
        units: &[BundleUnit],
        file: &FileName,
        spot: TextSpot<'_>,
        why: String,
    ) -> Result<(), AllocError>
        ensures grows { self.old.messages.errors ≤ self.new.messages.errors }
        ensures told { OnOk result (0 < self.new.messages.errors) }
    {
        let Some(number) = unit_in(file) else {
            return self.tell_file(units, file, why);
        };
        let found = match units.get(number) {
            Some(unit) => spot_in(self.alloc, unit.text(), unit.kind, spot)?,
            None => None,
        };
        match found {
            Some((at, end)) => {
                let place = self.place_in(units, number, at, end)?;
                self.messages.error(why, Some(place), Vec::new(self.alloc))
            }
            None => self.tell_file(units, file, why),
        }
    }

    // Tells an error of the request of a file that leads to the module of this key.
    fn tell_link(
        &mut self,
        units: &[BundleUnit],
        file: &FileName,
        key: &str,
        why: String,
    ) -> Result<(), AllocError>
        ensures grows { self.old.messages.errors ≤ self.new.messages.errors }
        ensures told { OnOk result (0 < self.new.messages.errors) }
    {
        let target = match unit_of(key) {
            Some(unit) => Some(file_behind(units, unit)),
            None => None,
        };
        let Some(number) = unit_in(file) else {
            return self.tell_file(units, file, why);
        };
        let found = match units.get(number) {
            Some(unit) => link_to(unit, target),
            None => None,
        };
        match found {
            Some((at, end)) => {
                let place = self.place_in(units, number, at, end)?;
                self.messages.error(why, Some(place), Vec::new(self.alloc))
            }
            None => self.tell_file(units, file, why),
        }
    }

    /// The file of a module, as a place.
    pub(crate) fn file_place(
        &self,
        units: &[BundleUnit],
        unit: usize,
    ) -> Result<FilePlace, AllocError> {
        let path = self.told_path(units, unit)?;
        FilePlace::of_file(self.alloc, path.as_str())
    }
}

// The module of the file for which a module stands.
fn file_behind(units: &[BundleUnit], unit: usize) -> usize {
    match units.get(unit) {
        Some(
            BundleUnit {
                origin: UnitOrigin::Facade { target, .. },
                ..
            },
        ) => *target,
        _ => unit,
    }
}

// The bytes of a module's text in which the specifier of its first request of another one stands.
fn link_to(unit: &BundleUnit, target: Option<usize>) -> Option<(usize, usize)> {
    for link in &unit.links {
        if link.target.is_some() && link.target == target {
            return Some((link.at, link.at.saturating_add(link.length)));
        }
    }
    None
}

// What is looked for in the file of an error.
fn spot_of(error: &Error) -> Option<TextSpot<'_>> {
    Some(match error {
        Error::DoubledDeclaration { .. } => TextSpot::Doubled,
        Error::DoubledExport { name, .. } => TextSpot::Export(name.as_str(), 1),
        Error::UndeclaredExport { name, .. } => TextSpot::Undeclared(name.as_str()),
        Error::ExternalStarOnly { name, .. } => TextSpot::Import(name.as_str()),
        Error::With { .. } => TextSpot::With,
        Error::AwaitInCommonJs { .. } => TextSpot::Await,
        Error::ArgumentsUnderIife { .. } => TextSpot::Arguments,
        _ => return None,
    })
}

// What is wrong.
fn sentence_of(alloc: Global, error: &Error) -> Result<String, AllocError> {
    match error {
        Error::DoubledDeclaration { name, .. } => {
            format!(in alloc; "{name:?} is declared twice")
        }
        Error::DoubledExport { name, .. } => format!(in alloc; "{name:?} is exported twice"),
        Error::UndeclaredExport { name, .. } => {
            format!(in alloc; "{name:?} is exported and not declared")
        }
        Error::ExternalStarOnly { name, .. } => format!(in alloc;
            "{name:?} may only come from a module that is left, by export *"
        ),
        _ => String::from_str(alloc, plain_sentence_of(error)),
    }
}

fn plain_sentence_of(error: &Error) -> &'static str {
    match error {
        Error::With { .. } => "with is not of strict code, as which all is bundled",
        Error::AwaitInCommonJs { .. } => "await outside of functions in a CommonJS module",
        Error::ArgumentsUnderIife { .. } => {
            "arguments outside of functions means another thing in a script"
        }
        Error::StarOfCommonJs { .. } => {
            "export * of a CommonJS module, whose names are not known before it runs"
        }
        Error::RequiredEsModule { .. } => "require() of an ECMAScript module",
        Error::RequiredEntry { .. } => "require() of a module with which a bundle begins",
        Error::ExternalUnderIife { .. } => {
            "a script imports nothing: --globals names the variable that holds this module"
        }
        Error::Resolve { .. } => "this leads to no module",
        Error::NamespaceOverExternalStar { .. } => {
            "the namespace of this module is asked for, and export * of a module that is left adds names that are not known"
        }
        Error::Load { .. } => "this module was not read",
        Error::Hook { .. } => "import.meta of this module has no properties",
        Error::TooManyModules { .. } => "there are more modules than can be numbered",
        Error::ContextsUsedUp { .. } => "there are more scopes than can be numbered",
        Error::DoubledEntry { .. } => "two bundles begin with this module",
        _ => "the linker refuses this module",
    }
}

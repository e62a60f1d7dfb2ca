//! The modules that were found, and by what each is found again.

use crate::facade::Facade;
use crate::unit::{BundleUnit, UnitOrigin};
use gutsirava_sources::SourceKind;
use std::alloc::{AllocError, Global};
use std::collections::{BTreeMap, BTreeSet};

/// The modules that were found.
pub struct UnitTable {
    /// What its parts are made in.
    pub alloc: Global,
    /// The modules, by their numbers.
    pub units: Vec<BundleUnit>,
    /// The modules of files, by path and what stands behind it in a specifier.
    paths: BTreeMap<String, usize>,
    /// The modules between others, by what they do and for which.
    facades: BTreeMap<(usize, Facade), usize>,
    /// The modules that stand for specifiers that are left, in a script.
    texts: BTreeMap<String, usize>,
    /// The texts that are left to whoever runs the bundle.
    pub externals: BTreeSet<String>,
    /// Whether a CommonJS module asks for an ECMAScript module.
    pub(crate) asks_modules: bool,
}

/// Lets go of it. Written by hand, so that who lets one go calls this function.
impl Drop for UnitTable {
    fn drop(self) {
        let UnitTable {
            alloc: _alloc,
            units: _units,
            paths: _paths,
            facades: _facades,
            texts: _texts,
            externals: _externals,
            asks_modules: _asks_modules,
        } = self;
    }
}

impl UnitTable {
    pub(crate) fn new(alloc: Global) -> UnitTable {
        UnitTable {
            alloc,
            units: Vec::new(alloc),
            paths: BTreeMap::new(alloc),
            facades: BTreeMap::new(alloc),
            texts: BTreeMap::new(alloc),
            externals: BTreeSet::new(alloc),
            asks_modules: false,
        }
    }

    /// The module of a file that was met, by its key.
    pub(crate) fn known(&self, key: &str) -> Option<usize> {
        self.paths.get(key).copied()
    }

    /// What a module is.
    pub(crate) fn kind_of(&self, unit: usize) -> SourceKind {
        kind_in(self.units.as_slice(), unit)
    }

    /// Whether a module is JSON.
    pub(crate) fn is_data(&self, unit: usize) -> bool {
        match self.units.get(unit) {
            Some(unit) => match &unit.origin {
                UnitOrigin::File(file) => file.is_data,
                UnitOrigin::Facade { .. } | UnitOrigin::Text(_) => false,
            },
            None => false,
        }
    }

    /// Keeps the module of a file by its key.
    pub(crate) fn keep(&mut self, key: &str, unit: BundleUnit) -> Result<usize, AllocError> {
        let at = push_unit(&mut self.units, unit)?;
        self.paths.insert(String::from_str(self.alloc, key)?, at)?;
        Ok(at)
    }

    /// The module that does this for another one.
    pub(crate) fn facade(&mut self, target: usize, facade: Facade) -> Result<usize, AllocError> {
        let key = (target, facade);
        if let Some(unit) = self.facades.get(&key) {
            return Ok(*unit);
        }
        let origin = UnitOrigin::Facade { facade, target };
        let unit = BundleUnit::new(self.alloc, origin, facade.kind());
        let at = push_unit(&mut self.units, unit)?;
        self.facades.insert(key, at)?;
        Ok(at)
    }

    /// The module that stands for a specifier that is left, in a script: what it exports is this expression.
    pub(crate) fn outer_unit(
        &mut self,
        specifier: &str,
        expression: &str,
    ) -> Result<usize, AllocError> {
        if let Some(unit) = self.texts.get(specifier) {
            return Ok(*unit);
        }
        let unit = expression_unit(self.alloc, expression)?;
        let at = push_unit(&mut self.units, unit)?;
        self.texts
            .insert(String::from_str(self.alloc, specifier)?, at)?;
        Ok(at)
    }

    /// Notes a text that is left.
    pub(crate) fn leave(&mut self, text: &str) -> Result<(), AllocError> {
        self.externals.insert(String::from_str(self.alloc, text)?)?;
        Ok(())
    }
}

/// What a module is.
pub(crate) fn kind_in(units: &[BundleUnit], unit: usize) -> SourceKind {
    match units.get(unit) {
        Some(unit) => unit.kind,
        None => SourceKind::EcmaScript,
    }
}

// Puts down a module, and gives its number.
fn push_unit(units: &mut Vec<BundleUnit>, unit: BundleUnit) -> Result<usize, AllocError> {
    let at = units.len();
    units.push(unit)?;
    Ok(at)
}

// The module that exports the value of an expression.
fn expression_unit(alloc: Global, expression: &str) -> Result<BundleUnit, AllocError> {
    let text = format!(in alloc; "module.exports = {expression};")?;
    Ok(BundleUnit::new(alloc, UnitOrigin::Text(text), SourceKind::CommonJs))
}

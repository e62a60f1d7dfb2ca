//! What each part of a bundle was made for.

use crate::mapped::first_item;
use crate::output::BundleBody;
use bundle_tree_names::file_name::FileName;
use bundler_call::{BundleCauses, ItemCause};
use gutsirava_graph::{BundleSettings, BundleUnit, InputNumbers, exports_of, unit_in};
use gutsirava_traces::PrintedList;
use std::alloc::{AllocError, Global};

/// Some bytes of a bundle: from `begin` on, before `end`.
#[derive(Clone, Copy)]
pub struct BundlePart {
    pub begin: usize,
    pub end: usize,
    /// The file for which they were made, by its number among the inputs.
    pub input: usize,
}

/// What a bundle is made of.
#[derive(Drop)]
pub struct BundleInsight {
    /// The file with which it begins, by its number among the inputs.
    pub entry: usize,
    /// The files that are in it.
    pub inputs: Vec<usize>,
    /// The names that it exports.
    pub exports: Vec<String>,
    /// What was made for which file, in the order of the text.
    pub parts: Vec<BundlePart>,
}

/// Where a bundle begins: the module, and that of the file.
#[derive(Clone, Copy)]
pub(crate) struct BundleBegin {
    pub(crate) unit: usize,
    pub(crate) file: usize,
}

/// What a bundle with this body is made of, whose items are made for these causes.
pub(crate) fn insight_of(
    alloc: Global,
    units: &[BundleUnit],
    settings: &BundleSettings,
    begin: BundleBegin,
    causes: &BundleCauses,
    body: &BundleBody<'_>,
) -> Result<BundleInsight, AllocError> {
    let numbers = InputNumbers::of(alloc, units)?;
    let parts = parts_of(alloc, settings, &numbers, causes, body)?;
    let inputs = inputs_in(alloc, &numbers, causes.modules.as_slice())?;
    let exports = exports_of(alloc, units, begin.unit)?;
    Ok(BundleInsight {
        entry: numbers.get(begin.file).unwrap_or(0),
        inputs,
        exports,
        parts,
    })
}

// The parts of a bundle, for which files they were made.
fn parts_of(
    alloc: Global,
    settings: &BundleSettings,
    numbers: &InputNumbers,
    causes: &BundleCauses,
    body: &BundleBody<'_>,
) -> Result<Vec<BundlePart>, AllocError> {
    let list = body.list();
    let mut parts = PartList {
        parts: Vec::new(alloc),
        modules: causes.modules.as_slice(),
        numbers,
        base: body.base,
        at: first_item(&list, settings.format),
        begin: body.base,
    };
    if let Some(items) = &causes.items {
        for cause in items {
            parts.add(&list, cause)?;
        }
    }
    let PartList { parts, .. } = parts;
    Ok(parts)
}

// The parts of a bundle, as far as its items were gone over.
#[derive(Drop)]
struct PartList<'x> {
    parts: Vec<BundlePart>,
    modules: &'x [FileName],
    numbers: &'x InputNumbers,
    base: usize,
    // Where the next item begins in the list, and where the one before it ended in the text.
    at: usize,
    begin: usize,
}

impl PartList<'_> {
    // Adds an item, and what stands before it.
    fn add(&mut self, list: &PrintedList<'_, '_>, cause: &ItemCause) -> Result<(), AllocError> {
        let behind = list.behind(self.at);
        let last = list.offsets.get(behind.saturating_sub(1)).copied();
        let end = match last {
            Some(offset) => self.base.saturating_add(offset as usize),
            None => self.begin,
        };
        if let Some(input) = self.input_of(cause) {
            self.parts.push(BundlePart {
                begin: self.begin,
                end,
                input,
            })?;
        }
        self.at = behind;
        self.begin = end;
        Ok(())
    }

    // The file for which an item was made.
    fn input_of(&self, cause: &ItemCause) -> Option<usize> {
        let module = module_of(cause)?;
        self.numbers.get(unit_in(self.modules.get(module)?)?)
    }
}

// The module for which an item was made, by its place among those of the bundle.
fn module_of(cause: &ItemCause) -> Option<usize> {
    match cause {
        ItemCause::OwnStatement { module, .. }
        | ItemCause::LoadFunction { module }
        | ItemCause::LoadStatement { module, .. }
        | ItemCause::MetaObject { module }
        | ItemCause::NamespaceObject { module } => Some(*module),
        _ => None,
    }
}

// The files of a bundle's modules, each once.
fn inputs_in(
    alloc: Global,
    numbers: &InputNumbers,
    modules: &[FileName],
) -> Result<Vec<usize>, AllocError> {
    let mut inputs = Vec::new(alloc);
    for module in modules {
        if let Some(input) = unit_in(module).and_then(|unit| numbers.get(unit)) {
            inputs.push(input)?;
        }
    }
    inputs.sort()?;
    inputs.dedup();
    Ok(inputs)
}

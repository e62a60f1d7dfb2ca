//! The files among modules, and what they ask for.

use crate::facade::Facade;
use crate::unit::{BundleUnit, UnitLink, UnitOrigin};
use gutsirava_sources::{RequestForm, SourceKind};
use std::alloc::{AllocError, Global};

/// What a file is read as.
#[derive(Clone, Copy, Debug, PartialEq, Eq)]
pub enum ModuleForm {
    EcmaScript,
    CommonJs,
    Json,
}

/// A file that was read.
#[derive(Drop)]
pub struct BundledModule {
    /// How many bytes it has.
    pub bytes: usize,
    pub form: ModuleForm,
    /// What it asks for, in the order of its text.
    pub links: Vec<BundledLink>,
}

/// That a file asks for a module.
#[derive(Drop)]
pub struct BundledLink {
    pub asking: RequestForm,
    /// The specifier, as it stands in the text.
    pub specifier: String,
    /// The file, by its number among the inputs; none where the specifier is left.
    pub target: Option<usize>,
}

/// The numbers of files among the inputs, by the numbers of modules. What stands between modules counts for the module that
/// it leads to.
pub struct InputNumbers {
    numbers: Vec<Option<usize>>,
}

/// Lets go of it. Written by hand, so that who lets one go calls this function.
impl Drop for InputNumbers {
    fn drop(self) {
        let InputNumbers { numbers: _numbers } = self;
    }
}

impl InputNumbers {
    /// Those of these modules. Refused only for memory.
    pub fn of(alloc: Global, units: &[BundleUnit]) -> Result<InputNumbers, AllocError> {
        let files = files_of(alloc, units)?;
        let mut numbers = Vec::with_capacity(alloc, units.len())?;
        for (unit, file) in units.iter().zip(&files) {
            let number = match &unit.origin {
                UnitOrigin::Facade { facade, target } if *facade != Facade::Empty => {
                    number_in(files.as_slice(), *target)
                }
                _ => *file,
            };
            numbers.push(number)?;
        }
        Ok(InputNumbers { numbers })
    }

    /// The number of a module's file; none where it stands for no file.
    pub fn get(&self, unit: usize) -> Option<usize> {
        number_in(self.numbers.as_slice(), unit)
    }
}

fn number_in(numbers: &[Option<usize>], unit: usize) -> Option<usize> {
    numbers.get(unit).copied().flatten()
}

// The numbers of the modules that are files.
fn files_of(alloc: Global, units: &[BundleUnit]) -> Result<Vec<Option<usize>>, AllocError> {
    let mut files = Vec::with_capacity(alloc, units.len())?;
    let mut next: usize = 0;
    for unit in units {
        if unit.path().is_some() {
            files.push(Some(next))?;
            next = next.saturating_add(1);
        } else {
            files.push(None)?;
        }
    }
    Ok(files)
}

/// The files among modules, in their order. Refused only for memory.
pub fn modules_of(alloc: Global, units: &[BundleUnit]) -> Result<Vec<BundledModule>, AllocError> {
    let numbers = InputNumbers::of(alloc, units)?;
    let mut modules = Vec::new(alloc);
    for unit in units {
        if let UnitOrigin::File(file) = &unit.origin {
            modules.push(BundledModule {
                bytes: unit.bytes,
                form: form_of(unit.kind, file.is_data),
                links: links_of(alloc, units, &numbers, unit)?,
            })?;
        }
    }
    Ok(modules)
}

fn form_of(kind: SourceKind, is_data: bool) -> ModuleForm {
    match kind {
        SourceKind::EcmaScript => ModuleForm::EcmaScript,
        SourceKind::CommonJs if is_data => ModuleForm::Json,
        SourceKind::CommonJs => ModuleForm::CommonJs,
    }
}

fn links_of(
    alloc: Global,
    units: &[BundleUnit],
    numbers: &InputNumbers,
    unit: &BundleUnit,
) -> Result<Vec<BundledLink>, AllocError> {
    let mut links = Vec::new(alloc);
    for link in &unit.links {
        let target = link.target.and_then(|target| numbers.get(target));
        if target.is_some() || is_left(units, link) {
            links.push(BundledLink {
                asking: link.asking,
                specifier: String::from_str(alloc, specifier_of(unit.text(), link))?,
                target,
            })?;
        }
    }
    Ok(links)
}

// Whether a request leads out of the bundle.
fn is_left(units: &[BundleUnit], link: &UnitLink) -> bool {
    match link.target {
        None => true,
        Some(target) => units
            .get(target)
            .is_some_and(|unit| matches!(unit.origin, UnitOrigin::Text(_))),
    }
}

// The specifier of a request, which stands between quotes.
fn specifier_of<'t>(text: &'t str, link: &UnitLink) -> &'t str {
    let begin = link.at.saturating_add(1);
    let length = link.length.saturating_sub(2);
    let behind = match text.split_at_checked(begin) {
        Some((_, behind)) => behind,
        None => return "",
    };
    match behind.split_at_checked(length) {
        Some((specifier, _)) => specifier,
        None => behind,
    }
}

//! The names that modules give, over all `export *`.

ghost use Rattle.std.specs.Prelude.{◌≡◌, [], ◌∷◌, IfOk, OnOk, option_map, slice_get};
ghost use Rattle.gutsirava_graph.specs.Stars.{AreGivers, AreMet, followed, gives, stars_of, with_unit, with_units};
ghost use Rattle.gutsirava_graph.specs.Met.{IsSetOf};

use crate::unit::{BundleUnit, ExportTable};
use gutsirava_sources::{RequestForm, SourceKind};
use std::alloc::{AllocError, Global};
use std::collections::BTreeSet;

/// Where a name comes from.
#[derive(Drop)]
pub(crate) struct NameGivers {
    /// The modules that give it by themselves.
    pub(crate) units: Vec<usize>,
    /// Whether a module that is left may give it.
    pub(crate) is_open: bool,
    /// In how many modules it was sought.
    pub(crate) met: usize,
}

/// The modules that give a name for a module: the module itself, or those of its `export *`, each once.
#[tactic(auto, using(std::proofs::lemmas::Grind::common_steps, crate::proofs::StarLemmas::givers_of))]
pub(crate) fn givers(
    alloc: Global,
    units: &[BundleUnit],
    unit: usize,
    name: &str,
) -> Result<NameGivers, AllocError>
    ensures { IfOk result (λ found. AreGivers name.now units.now unit found.units.items) }
{
    let met = met_units(alloc, units, unit, Some(name))?;
    let mut found = Vec::new(alloc);
    for giver in &met {
        if gives(units, *giver, name) {
            found.push(*giver)?;
        }
    }
    let is_open = met.iter().any(|met| is_open(units, *met, name));
    Ok(NameGivers {
        units: found,
        is_open,
        met: met.len(),
    })
}

// Whether a module gives a name by itself.
fn gives(units: &[BundleUnit], unit: usize, name: &str) -> bool
    ensures { result ≡ gives units.now name.now unit }
{
    match units.get(unit) {
        Some(unit) => unit.table.names.contains(name),
        None => false,
    }
}

// Whether a module that is left may give a module a name.
fn is_open(units: &[BundleUnit], unit: usize, name: &str) -> bool {
    match units.get(unit) {
        Some(unit) => {
            name != "default" && !unit.table.outer.is_empty() && !unit.table.names.contains(name)
        }
        None => false,
    }
}

// The modules in which a name is sought behind a module; of no name, all names are.
fn followed<'u>(units: &'u [BundleUnit], unit: usize, sought: Option<&str>) -> &'u [usize]
    ensures { result.now ≡ followed (option_map (λ name. name.now) sought.entry) units.now unit }
{
    match sought {
        Some(name) if name == "default" || gives(units, unit, name) => &[],
        _ => stars_of(units, unit),
    }
}

fn stars_of(units: &[BundleUnit], unit: usize) -> &[usize]
    ensures { result.now ≡ stars_of (slice_get units.now unit) }
{
    match units.get(unit) {
        Some(unit) => unit.table.stars.as_slice(),
        None => &[],
    }
}

// The modules in which a name is sought for one, each once, in the order in which they are met.
fn met_units(
    alloc: Global,
    units: &[BundleUnit],
    unit: usize,
    sought: Option<&str>,
) -> Result<Vec<usize>, AllocError>
    ensures { IfOk result (λ met.
        AreMet (option_map (λ name. name.now) sought.entry) units.now unit met.items) }
{
    let mut met = MetUnits::new(alloc, unit)?;
    for at in 0..usize::MAX {
        let Some(next) = met.at(at) else {
            break;
        };
        met.add_all(followed(units, next, sought))?;
    }
    Ok(met.list)
}

/// All names that a module gives.
#[derive(Drop)]
pub(crate) struct GivenNames {
    pub(crate) names: BTreeSet<String>,
    /// The texts of modules that are left, and may give more.
    pub(crate) outer: BTreeSet<String>,
}

/// All names that a module gives, itself or by `export *`.
pub(crate) fn names_of(
    alloc: Global,
    units: &[BundleUnit],
    unit: usize,
) -> Result<GivenNames, AllocError> {
    let mut all = GivenNames {
        names: BTreeSet::new(alloc),
        outer: BTreeSet::new(alloc),
    };
    let met = met_units(alloc, units, unit, None)?;
    for next in &met {
        if let Some(given) = units.get(*next) {
            all.add(&given.table, *next == unit)?;
        }
    }
    Ok(all)
}

/// The names that a module exports, itself or by `export *`, in their order. Refused only for memory.
pub fn exports_of(
    alloc: Global,
    units: &[BundleUnit],
    unit: usize,
) -> Result<Vec<String>, AllocError> {
    let mut exports = Vec::new(alloc);
    let given = names_of(alloc, units, unit)?;
    for name in &given.names {
        exports.push(name.clone()?)?;
    }
    Ok(exports)
}

impl GivenNames {
    // Adds the names of a module; those that it gives to others are without `default`.
    fn add(&mut self, table: &ExportTable, has_default: bool) -> Result<(), AllocError> {
        for name in &table.names {
            if has_default || name.as_str() != "default" {
                self.names.insert(name.clone()?)?;
            }
        }
        for text in &table.outer {
            self.outer.insert(text.clone()?)?;
        }
        Ok(())
    }
}

/// Whether each of these names of a module comes from one module alone.
pub(crate) fn are_plain(
    alloc: Global,
    units: &[BundleUnit],
    unit: usize,
    names: &GivenNames,
) -> Result<bool, AllocError> {
    for name in &names.names {
        if givers(alloc, units, unit, name.as_str())?.units.len() != 1 {
            return Ok(false);
        }
    }
    Ok(true)
}

/// The ECMAScript modules that a CommonJS module asks for, itself or by other CommonJS modules.
pub(crate) fn asked_modules(
    alloc: Global,
    units: &[BundleUnit],
    unit: usize,
) -> Result<BTreeSet<usize>, AllocError> {
    let mut asked = BTreeSet::new(alloc);
    let mut met = MetUnits::new(alloc, unit)?;
    for at in 0..usize::MAX {
        let Some(next) = met.at(at) else {
            break;
        };
        let Some(unit) = units.get(next) else {
            continue;
        };
        if unit.kind == SourceKind::EcmaScript {
            asked.insert(next)?;
            continue;
        }
        for link in &unit.links {
            if link.asking != RequestForm::Import
                && let Some(target) = link.target
            {
                met.add(target)?;
            }
        }
    }
    Ok(asked)
}

// Modules that were met, in the order in which they were.
#[derive(Drop)]
struct MetUnits {
    list: Vec<usize>,
    all: BTreeSet<usize>,
}

impl MetUnits {
    fn new(alloc: Global, unit: usize) -> Result<MetUnits, AllocError>
        ensures list { IfOk result (λ met. met.list.items ≡ unit ∷ []) }
        ensures met { IfOk result (λ met. IsSetOf met.list.items met.all) }
    {
        let mut met = MetUnits {
            list: Vec::new(alloc),
            all: BTreeSet::new(alloc),
        };
        met.add(unit)?;
        Ok(met)
    }

    // The module that was met as the one of this number, from 0.
    fn at(&self, number: usize) -> Option<usize>
        ensures { result ≡ slice_get self.now.list.items number }
    {
        self.list.get(number).copied()
    }

    fn add(&mut self, unit: usize) -> Result<(), AllocError>
        requires { IsSetOf self.old.list.items self.old.all }
        ensures list { OnOk result (self.new.list.items ≡ with_unit self.old.list.items unit) }
        ensures met { OnOk result (IsSetOf self.new.list.items self.new.all) }
    {
        if self.all.insert(unit)? {
            self.list.push(unit)?;
        }
        Ok(())
    }

    #[tactic(auto, using(std::proofs::lemmas::Grind::common_steps, crate::proofs::StarLemmas::with_turn, crate::proofs::StarLemmas::with_done))]
    fn add_all(&mut self, units: &[usize]) -> Result<(), AllocError>
        requires { IsSetOf self.old.list.items self.old.all }
        ensures list { OnOk result (self.new.list.items
            ≡ with_units self.old.list.items units.now) }
        ensures met { OnOk result (IsSetOf self.new.list.items self.new.all) }
    {
        for unit in units {
            self.add(*unit)?;
        }
        Ok(())
    }
}

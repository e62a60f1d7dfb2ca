//! What is wrong with the modules of a bundle, in the order in which it is judged.

ghost use Rattle.std.specs.Prelude.{◌≡◌, ◌↔◌, IfOk, IsTrue, OnOk, Some, suc};
ghost use Rattle.bundle_tree_names.specs.FileName.{Name};
ghost use Rattle.bundle_rules.specs.Faults.{NameFault};
ghost use Rattle.bundle_rules.specs.Linking.{IsMissing};
ghost use Rattle.bundle_rules.specs.Program.{Program};
ghost use Rattle.bundle_link_index.specs.Leads.{required_of};
ghost use Rattle.bundle_link_index.specs.Outside.{IsIndexOf};
ghost use Rattle.bundle_link_index.specs.Programs.{AreModulesKnown, AsksFor};
ghost use Rattle.bundle_link_targets.specs.Judged.{IsFoundIn, IsStageJudged, fault_by};
ghost use Rattle.bundle_link_targets.specs.Found.{HoldsMeant, targets_in};
ghost use Rattle.bundle_link_targets.specs.Stages.{AreKindsOf, IsWrongBy, IsWrongIn, LeadsToEs, stage_of};

use crate::target::{FaultKind, LinkFault, TargetRef};
use bundle_link_index::index::DEFAULT;
use bundle_link_index::{Answer, Asked, Index, Kinds, Lead, OwnTarget, taking};
use bundle_link_tables::{AskedName, Taken};
use bundle_scope_denote::texts::TextSet;
use std::alloc::{AllocError, Global};

/// The first fault of the literal calls of `require`: of the entry, and then of a module that is no script.
pub fn call_fault_of<'a>(kinds: &Kinds<'_, '_, 'a>) -> Option<LinkFault<'a>>
    ensures { (p : Program) → AreKindsOf p kinds.now →
        IsStageJudged p kinds.now.list.now 0 2 result }
{
    first_of_two(kinds, Stage::Entries, Stage::Modules)
}

// The first literal call of a module that is of the entry.
fn entry_fault<'a>(kinds: &Kinds<'_, '_, 'a>, which: usize) -> Option<LinkFault<'a>>
    ensures { (p : Program) → AreKindsOf p kinds.now →
        IsFoundIn p 0 which result }
{
    let tables = kinds.tables(which)?;
    for call in &tables.calls {
        if is_of_entry(kinds, which, call.specifier) {
            return Some(LinkFault {
                kind: FaultKind::RequiredEntry,
                which,
                name: call.specifier,
            });
        }
    }
    None
}

// Whether a specifier leads to the entry.
fn is_of_entry(kinds: &Kinds, which: usize, specifier: &str) -> bool
    ensures { IsTrue result
        ↔ (required_of kinds.now.modules.now which specifier.now ≡ Some kinds.now.entry) }
{
    match kinds.required(which, specifier) {
        Some(number) => number == kinds.entry,
        None => false,
    }
}

// The first literal call of a module that is of a module which is no script.
fn es_fault<'a>(kinds: &Kinds<'_, '_, 'a>, which: usize) -> Option<LinkFault<'a>>
    ensures { (p : Program) → AreKindsOf p kinds.now →
        IsFoundIn p 1 which result }
{
    let tables = kinds.tables(which)?;
    for call in &tables.calls {
        if is_of_module(kinds, which, call.specifier) {
            return Some(LinkFault {
                kind: FaultKind::RequiredEsModule,
                which,
                name: call.specifier,
            });
        }
    }
    None
}

// Whether a specifier leads to a module that is no script.
fn is_of_module(kinds: &Kinds, which: usize, specifier: &str) -> bool
    ensures { (p : Program) → AreModulesKnown p kinds.now →
        IsTrue result ↔ LeadsToEs p which specifier.now }
{
    match kinds.required(which, specifier) {
        Some(number) => match kinds.tables(number) {
            Some(tables) => !tables.is_script,
            None => false,
        },
        None => false,
    }
}

/// The first fault of the linking. `meant` are the targets that are meant.
pub fn link_fault_of<'a>(
    alloc: Global,
    kinds: &Kinds<'_, '_, 'a>,
    index: &mut Index<'a>,
    meant: &TextSet<TargetRef<'a>>,
) -> Result<Option<LinkFault<'a>>, AllocError>
    ensures right { IfOk result (λ found. (p : Program) →
        AreKindsOf p kinds.now → IsIndexOf p index.old →
        HoldsMeant p (targets_in meant.now) → IsStageJudged p kinds.now.list.now 3 9 found) }
    ensures same { OnOk result (index.new ≡ index.old) }
{
    if let Some(fault) = first_of_two(kinds, Stage::Awaits, Stage::Stars) {
        return Ok(Some(fault));
    }
    let name = names_fault(alloc, kinds, index)?;
    if let Some(fault) = name {
        return Ok(Some(fault));
    }
    let object = objects_fault(alloc, kinds, index, meant)?;
    if let Some(fault) = object {
        return Ok(Some(fault));
    }
    Ok(first_of_two(kinds, Stage::Externals, Stage::Arguments))
}

// The first name among the listed modules that is asked for and not given once.
fn names_fault<'a>(
    alloc: Global,
    kinds: &Kinds<'_, '_, 'a>,
    index: &mut Index<'a>,
) -> Result<Option<LinkFault<'a>>, AllocError>
    ensures right { IfOk result (λ found. (p : Program) →
        AreKindsOf p kinds.now → IsIndexOf p index.old →
        IsStageJudged p kinds.now.list.now 5 6 found) }
    ensures same { OnOk result (index.new ≡ index.old) }
{
    for which in kinds.list {
        let found = name_fault(alloc, kinds, index, *which)?;
        if let Some(fault) = found {
            return Ok(Some(fault));
        }
    }
    Ok(None)
}

// The first listed module whose object is meant, and whose names are not all known.
fn objects_fault<'a>(
    alloc: Global,
    kinds: &Kinds<'_, '_, 'a>,
    index: &mut Index<'a>,
    meant: &TextSet<TargetRef<'a>>,
) -> Result<Option<LinkFault<'a>>, AllocError>
    ensures right { IfOk result (λ found. (p : Program) → IsIndexOf p index.old →
        HoldsMeant p (targets_in meant.now) → IsStageJudged p kinds.now.list.now 6 7 found) }
    ensures same { OnOk result (index.new ≡ index.old) }
{
    for which in kinds.list {
        let found = object_fault(alloc, index, meant, *which)?;
        if let Some(fault) = found {
            return Ok(Some(fault));
        }
    }
    Ok(None)
}

// Whether the object of a module's namespace is meant, whose names are not all known.
fn object_fault<'a>(
    alloc: Global,
    index: &mut Index<'a>,
    meant: &TextSet<TargetRef<'a>>,
    which: usize,
) -> Result<Option<LinkFault<'a>>, AllocError>
    ensures right { IfOk result (λ found. (p : Program) → IsIndexOf p index.old →
        HoldsMeant p (targets_in meant.now) → IsFoundIn p 6 which found) }
    ensures same { OnOk result (index.new ≡ index.old) }
{
    if !meant.contains(&TargetRef::Namespace { which }) {
        return Ok(None);
    }
    let is_starred = index.has_external_star(alloc, which)?;
    if is_starred {
        return Ok(Some(LinkFault {
            kind: FaultKind::NamespaceOverExternalStar,
            which,
            name: "",
        }));
    }
    Ok(None)
}

/// What is judged of all modules before the next.
#[derive(Clone, Copy)]
enum Stage {
    Entries,
    Modules,
    Awaits,
    Stars,
    Externals,
    Arguments,
}

// The first fault of a stage, and then of the next, among the listed modules.
fn first_of_two<'a>(kinds: &Kinds<'_, '_, 'a>, stage: Stage, next: Stage) -> Option<LinkFault<'a>>
    ensures { (p : Program) → AreKindsOf p kinds.now →
        stage_of next ≡ suc (stage_of stage) →
        IsStageJudged p kinds.now.list.now (stage_of stage) (suc (stage_of next)) result }
{
    match first_of(kinds, stage) {
        Some(fault) => Some(fault),
        None => first_of(kinds, next),
    }
}

// The first fault of a stage among the listed modules.
fn first_of<'a>(kinds: &Kinds<'_, '_, 'a>, stage: Stage) -> Option<LinkFault<'a>>
    ensures { (p : Program) → AreKindsOf p kinds.now →
        IsStageJudged p kinds.now.list.now (stage_of stage) (suc (stage_of stage)) result }
{
    for which in kinds.list {
        if let Some(fault) = fault_in(kinds, stage, *which) {
            return Some(fault);
        }
    }
    None
}

// The first fault of a stage in a module.
fn fault_in<'a>(kinds: &Kinds<'_, '_, 'a>, stage: Stage, which: usize) -> Option<LinkFault<'a>>
    ensures { (p : Program) → AreKindsOf p kinds.now →
        IsFoundIn p (stage_of stage) which result }
{
    match stage {
        Stage::Entries => entry_fault(kinds, which),
        Stage::Modules => es_fault(kinds, which),
        Stage::Awaits => await_fault(kinds, which),
        Stage::Stars => star_fault(kinds, which),
        Stage::Externals => external_fault(kinds, which),
        Stage::Arguments => arguments_fault(kinds, which),
    }
}

// Whether an `await` stands outside functions in a CommonJS module.
fn await_fault<'a>(kinds: &Kinds<'_, '_, 'a>, which: usize) -> Option<LinkFault<'a>>
    ensures { (p : Program) → AreKindsOf p kinds.now →
        IsFoundIn p 3 which result }
{
    let tables = kinds.tables(which)?;
    if tables.awaits && kinds.is_common_js(which) {
        return Some(LinkFault {
            kind: FaultKind::AwaitInCommonJs,
            which,
            name: "",
        });
    }
    None
}

// The first star of a CommonJS module.
fn star_fault<'a>(kinds: &Kinds<'_, '_, 'a>, which: usize) -> Option<LinkFault<'a>>
    ensures { (p : Program) → AreKindsOf p kinds.now →
        IsFoundIn p 4 which result }
{
    let tables = kinds.tables(which)?;
    for star in &tables.stars {
        if let Lead::CommonJs(_) = kinds.lead(which, *star) {
            return Some(LinkFault {
                kind: FaultKind::StarOfCommonJs,
                which,
                name: *star,
            });
        }
    }
    None
}

// The first import or re-export of an external, where the bundle is one function's call.
fn external_fault<'a>(kinds: &Kinds<'_, '_, 'a>, which: usize) -> Option<LinkFault<'a>>
    ensures { (p : Program) → AreKindsOf p kinds.now →
        IsFoundIn p 7 which result }
{
    if !kinds.setting.iife {
        return None;
    }
    let tables = kinds.tables(which)?;
    for source in &tables.sources {
        if source.is_external {
            return Some(LinkFault {
                kind: FaultKind::ExternalUnderIife,
                which,
                name: source.specifier,
            });
        }
    }
    None
}

// Whether an `arguments` that nothing binds stands in an ECMAScript module, where the bundle is one
// function's call.
fn arguments_fault<'a>(kinds: &Kinds<'_, '_, 'a>, which: usize) -> Option<LinkFault<'a>>
    ensures { (p : Program) → AreKindsOf p kinds.now →
        IsFoundIn p 8 which result }
{
    if !kinds.setting.iife {
        return None;
    }
    let tables = kinds.tables(which)?;
    if tables.has_free_arguments && !kinds.is_common_js(which) {
        return Some(LinkFault {
            kind: FaultKind::ArgumentsUnderIife,
            which,
            name: "",
        });
    }
    None
}

// The first name, in the order of the source, that a module asks for and that is not given once.
fn name_fault<'a>(
    alloc: Global,
    kinds: &Kinds<'_, '_, 'a>,
    index: &mut Index<'a>,
    which: usize,
) -> Result<Option<LinkFault<'a>>, AllocError>
    ensures right { IfOk result (λ found. (p : Program) →
        AreKindsOf p kinds.now → IsIndexOf p index.old →
        IsFoundIn p 5 which found) }
    ensures same { OnOk result (index.new ≡ index.old) }
{
    let Some(tables) = kinds.tables(which) else {
        return Ok(None);
    };
    for asked in &tables.asked {
        let found = taken_fault(alloc, kinds, index, which, *asked)?;
        if let Some(fault) = found {
            return Ok(Some(fault));
        }
    }
    Ok(None)
}

// What is wrong with a name that a module asks for.
fn taken_fault<'a>(
    alloc: Global,
    kinds: &Kinds<'_, '_, 'a>,
    index: &mut Index<'a>,
    which: usize,
    asked: AskedName<'a>,
) -> Result<Option<LinkFault<'a>>, AllocError>
    ensures right { IfOk result (λ found. (p : Program) →
        AreModulesKnown p kinds.now → IsIndexOf p index.old →
        AsksFor p which asked.entry.specifier.now →
        IsWrongBy p which asked.entry.specifier.now asked.entry.name.now found) }
    ensures same { OnOk result (index.new ≡ index.old) }
{
    let taken = Taken::Named(asked.name);
    match taking(kinds, which, asked.specifier, taken, None) {
        OwnTarget::Leads(asked) => asked_fault(alloc, index, which, asked),
        OwnTarget::Gives(_) => Ok(None),
        OwnTarget::Nothing => Ok(None),
    }
}

// What is wrong with a name of an ECMAScript module that a module asks for.
fn asked_fault<'a>(
    alloc: Global,
    index: &mut Index<'a>,
    which: usize,
    asked: Asked<'a>,
) -> Result<Option<LinkFault<'a>>, AllocError>
    ensures right { IfOk result (λ found. (p : Program) → IsIndexOf p index.old →
        IsWrongIn p which asked.entry.which asked.entry.name.now found) }
    ensures same { OnOk result (index.new ≡ index.old) }
{
    let answer = index.answer(alloc, asked)?;
    let kind = match answer {
        Answer::One(_) => return Ok(None),
        Answer::Two(_, _) => FaultKind::AmbiguousExport,
        Answer::None => missing_kind(alloc, index, asked)?,
    };
    Ok(Some(LinkFault {
        kind,
        which,
        name: asked.name,
    }))
}

// What is wrong with a name that is not given: an external that is starred may hold it, or not.
fn missing_kind<'a>(
    alloc: Global,
    index: &mut Index<'a>,
    asked: Asked<'a>,
) -> Result<FaultKind, AllocError>
    ensures right { IfOk result (λ kind. (p : Program) → IsIndexOf p index.old →
        IsMissing p asked.entry.which asked.entry.name.now → (file : Name) →
        NameFault p asked.entry.which asked.entry.name.now file
        (fault_by kind file asked.entry.name.now)) }
    ensures same { OnOk result (index.new ≡ index.old) }
{
    if asked.name == DEFAULT {
        return Ok(FaultKind::MissingExport);
    }
    let is_starred = index.has_external_star(alloc, asked.which)?;
    if is_starred {
        return Ok(FaultKind::ExternalStarOnly);
    }
    Ok(FaultKind::MissingExport)
}

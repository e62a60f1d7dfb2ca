//! The first fault of modules that are to be linked.

ghost use Rattle.std.specs.Prelude.{◌≡◌, IfOk, length};
ghost use Rattle.bundle_scope_denote.specs.Kinds.{kind_as};
ghost use Rattle.bundle_link_targets.specs.Linked.{IsJudgedBy, IsLinkingOf};
ghost use Rattle.bundle_rules.specs.Meaning.{HasKind};
ghost use Rattle.bundle_rules.specs.Program.{Program};
ghost use Rattle.bundle_link.specs.Judged.{AreNotesOf, AreReadOf, IsJudgedAs, AreTreesReadable, TellsDoubled, TellsFirstFault, fault_place, noted_as, numbers_below};

use bundle_link_targets::{LinkFault, LinkModule, Linking, Setting};
use bundle_scope_denote::{Doubled, ModuleKind};
use std::alloc::{AllocError, Global};

/// What is noted of a module: the first name that it declares twice as an ES module, and as a CommonJS module.
#[derive(Clone, Copy)]
pub struct DoubledNames<'a> {
    pub es: Option<Doubled<'a>>,
    pub common_js: Option<Doubled<'a>>,
}

/// A fault of modules, which stand at places.
#[derive(Clone, Copy, PartialEq, Eq, Debug)]
pub enum ModuleFault<'a> {
    /// One of linking.
    Link(LinkFault<'a>),
    /// The module at this place declares a name twice.
    Doubled(usize, Doubled<'a>),
}

impl<'a> ModuleFault<'a> {
    /// The place of the module.
    pub fn module(&self) -> usize
        ensures { result ≡ fault_place self.now }
    {
        match self {
            ModuleFault::Link(fault) => fault.which,
            ModuleFault::Doubled(module, _) => *module,
        }
    }
}

/// What the names of modules are linked to, where this is noted of them in turn and the last is the entry's; or their
/// first fault: of all modules a literal call of `require` that is not allowed, a name that is declared twice
/// (ECMA-262, 16.2.1.1), and what linking finds, in this order.
pub fn judged<'l, 'a>(
    alloc: Global,
    modules: &[LinkModule<'l, 'a>],
    notes: &[DoubledNames<'a>],
    setting: Setting,
) -> Result<Result<Linking<'a>, ModuleFault<'a>>, AllocError>
    ensures { IfOk result (λ found. (q : Program) → AreReadOf q modules.now notes.now setting →
        IsJudgedAs q (length modules.now) found) }
{
    let list = numbers_to(alloc, modules.len())?;
    let entry = modules.len().saturating_sub(1);
    let linking = Linking::new(alloc, modules, &list, entry, setting)?;
    let fault = first_fault(&linking, notes);
    Ok(match fault {
        Some(told) => Err(told),
        None => Ok(linking),
    })
}

// The numbers below one.
fn numbers_to(alloc: Global, end: usize) -> Result<Vec<usize>, AllocError>
    ensures { IfOk result (λ numbers. numbers.items ≡ numbers_below end) }
{
    let mut numbers = Vec::new(alloc);
    for number in 0..end {
        numbers.push(number)?;
    }
    Ok(numbers)
}

// The first fault of linked modules, where this is noted of them in turn.
fn first_fault<'a>(linking: &Linking<'a>, notes: &[DoubledNames<'a>]) -> Option<ModuleFault<'a>>
    ensures { (q : Program) →
        AreTreesReadable q (length notes.now) →
        AreNotesOf q notes.now →
        IsLinkingOf q linking.now →
        IsJudgedBy q (numbers_below (length notes.now)) linking.now →
        TellsFirstFault q (length notes.now) result }
{
    if let Some(fault) = linking.call_fault() {
        return Some(ModuleFault::Link(fault));
    }
    if let Some(told) = doubled_in(linking, notes) {
        return Some(told);
    }
    match linking.link_fault() {
        Some(fault) => Some(ModuleFault::Link(fault)),
        None => None,
    }
}

// The first name that a module declares twice.
fn doubled_in<'a>(linking: &Linking<'a>, notes: &[DoubledNames<'a>]) -> Option<ModuleFault<'a>>
    ensures { (q : Program) →
        AreNotesOf q notes.now →
        IsLinkingOf q linking.now →
        TellsDoubled q (length notes.now) result }
{
    for (module, noted) in notes.iter().enumerate() {
        if let Some(doubled) = doubled_as(noted, kind_of(linking, module)) {
            return Some(ModuleFault::Doubled(module, doubled));
        }
    }
    None
}

// The first name that a module declares twice, as a module of this kind.
fn doubled_as<'a>(noted: &DoubledNames<'a>, kind: ModuleKind) -> Option<Doubled<'a>>
    ensures { result ≡ noted_as (kind_as kind) noted.now }
{
    match kind {
        ModuleKind::Es => noted.es,
        ModuleKind::Cjs => noted.common_js,
    }
}

// As what a module is read.
fn kind_of(linking: &Linking, which: usize) -> ModuleKind
    ensures { (q : Program) →
        IsLinkingOf q linking.now → HasKind q which (kind_as result) }
{
    match linking.is_common_js(which) {
        true => ModuleKind::Cjs,
        false => ModuleKind::Es,
    }
}

//! Contexts for the occurrences of a list: one number for each binding.

ghost use Rattle.std.specs.Prelude.{◌≡◌, ◌≤◌, ◌<◌, IfOk, IfSome, length, map};
ghost use Rattle.bundle_syntax.specs.Item.{item_of};
ghost use Rattle.bundle_scope_denote.specs.Kinds.{kind_as};
ghost use Rattle.bundle_scope_names.specs.Numbering as numbering;
ghost use Rattle.bundle_scope_names.specs.Numbering.{AnswersNumbers, AreBindingsWithin, GivesContext, GivesNumber, HasNoNumbers};
ghost use Rattle.bundle_scope_names.specs.Resolution.{ResolvesFit};

use bundle_scope_denote::{Denotations, ModuleKind, Reading, ScopeKind, denotations};
use bundle_syntax::Piece;
use std::alloc::{AllocError, Global};

/// Contexts for the occurrences of a list, in turn, and the number after the last that was given.
#[derive(Drop)]
pub struct ContextsGiven {
    pub contexts: Vec<u32>,
    pub next: u32,
}

/// Contexts for the occurrences of a list, so that two have one symbol and context exactly where they denote
/// one binding or one global (ECMA-262, 9.1). A name of the top has the local one, a global 1, and any other
/// binding a number of its own, from the next one on. The caller sees to it that the local one is not 1 and
/// that the next one is above both.
///
/// `None` where the numbers do not suffice; refused only where memory runs out.
pub fn contexts_of<'a>(
    alloc: Global,
    pieces: &[Piece<'a>],
    kind: ModuleKind,
    local: u32,
    next: u32,
) -> Result<Option<ContextsGiven>, AllocError>
    ensures resolves { IfOk result
        (ResolvesFit (kind_as kind) (map item_of pieces.now) local next) }
    ensures rises { IfOk result (λ answer.
        IfSome answer (λ resolution. next ≤ resolution.next)) }
{
    let table = denotations(alloc, pieces, kind, Reading::BySymbol)?;
    numbered(alloc, &table, local, next)
}

// The contexts of a list with this table.
fn numbered<'a>(
    alloc: Global,
    table: &Denotations<'a>,
    local: u32,
    next: u32,
) -> Result<Option<ContextsGiven>, AllocError>
    requires { AreBindingsWithin table.now }
    ensures { IfOk result (AnswersNumbers table.now local next) }
{
    let mut numbers = ContextNumbers::new(alloc, table.bindings.len(), next)?;
    let mut contexts = Vec::new(alloc);
    for occurrence in &table.occurrences {
        let Some(context) = numbers.context_of(table, local, occurrence.binding) else {
            return Ok(None);
        };
        contexts.push(context)?;
    }
    Ok(Some(ContextsGiven {
        contexts,
        next: numbers.next,
    }))
}

// The numbers that bindings have so far, and the next one.
#[derive(Drop)]
struct ContextNumbers {
    next: u32,
    of: Vec<Option<u32>>,
}

impl ContextNumbers {
    // None of so many bindings has one.
    fn new(alloc: Global, count: usize, next: u32) -> Result<ContextNumbers, AllocError>
        ensures { IfOk result (HasNoNumbers next count) }
    {
        Ok(ContextNumbers {
            next,
            of: vec![in alloc; None; count]?,
        })
    }

    // The context of what has this binding or none, or `None` where no number is left.
    fn context_of<'a>(
        &mut self,
        table: &Denotations<'a>,
        local: u32,
        binding: Option<usize>,
    ) -> Option<u32>
        requires { IfSome binding (λ number. number < length self.old.of.items) }
        ensures { GivesContext table.now local binding self.old self.new result }
    {
        match binding {
            None => Some(1),
            Some(number) if is_of_top(table, number) => Some(local),
            Some(number) => self.number_of(number),
        }
    }

    // The number of a binding, or `None` where no number is left.
    fn number_of(&mut self, binding: usize) -> Option<u32>
        requires { binding < length self.old.of.items }
        ensures { GivesNumber binding self.old self.new result }
    {
        if let Some(number) = self.of[binding] {
            return Some(number);
        }
        let number = self.next;
        self.next = number.checked_add(1)?;
        self.of[binding] = Some(number);
        Some(number)
    }
}

// Whether a binding is one of the top.
fn is_of_top<'a>(table: &Denotations<'a>, binding: usize) -> bool
    ensures { result ≡ numbering.is_of_top table.now binding }
{
    let Some(binding) = table.bindings.get(binding) else {
        return false;
    };
    match table.scopes.get(binding.scope) {
        Some(scope) => scope.kind == ScopeKind::Top,
        None => false,
    }
}

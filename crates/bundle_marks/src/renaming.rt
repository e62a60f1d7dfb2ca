//! What identifiers become, in one step or in several.

ghost use Rattle.std.specs.Prelude.{◌≡◌, [], option_map, IfOk, OnErr, OnOk};
ghost use Rattle.std.specs.Map.{lookup};
ghost use Rattle.bundle_rules.specs.Rebuilds.{change_then, followed_by, found, ident_eq, with_pair};
ghost use Rattle.bundle_marks.specs.Idents.{ident_named};
ghost use Rattle.bundle_marks.specs.Renamings.{SaySame, change_of_step};
ghost use Rattle.bundle_marks.specs.Composed.{Compose};

use bundle_tree::Id;
use std::alloc::{AllocError, Global};
use std::collections::BTreeMap;
use std::marker::Model;

/// What an identifier becomes, and whether some step on the way changed its symbol.
#[derive(Drop)]
pub struct RenamingStep {
    pub to: Id,
    pub is_spelled_out: bool,
}

/// What identifiers become. It remembers of each whether some step changed its symbol, so that one renaming
/// after the other is one renaming, also in what is spelled out.
#[derive(Drop)]
pub struct Renaming {
    alloc: Global,
    steps: BTreeMap<Id, RenamingStep>,
}

impl Model for Renaming {
    ghost use Rattle.std.specs.Prelude.{map};
    ghost use Rattle.bundle_rules.specs.Rebuilds as r;
    ghost use Rattle.bundle_rules.specs.Rebuilds.{change_by};
    ghost use Rattle.bundle_marks.specs.Renamings.{KeepsSymbols, renaming_pair};

    ghost Value = { r.Renaming };

    ghost view = { λ it. map renaming_pair it.steps.entries };

    // What is not spelled out keeps its symbol.
    ghost invariant = { λ it. KeepsSymbols (change_by (map renaming_pair it.steps.entries)) };
}

impl Renaming {
    /// The renaming by which each identifier stays. It takes no memory.
    pub fn empty(alloc: Global) -> Renaming
        ensures { result ≡ [] }
    {
        Renaming {
            alloc,
            steps: BTreeMap::new(alloc),
        }
    }

    /// What an identifier becomes, or `None` where it stays.
    pub fn get(&self, id: &Id) -> Option<&Id>
        ensures { option_map (λ to. ident_named to.now) result
            ≡ found self.now (ident_named id.now) }
    {
        match self.step(id) {
            Some(step) => Some(&step.to),
            None => None,
        }
    }

    /// What an identifier becomes, and whether what is short is spelled out, or `None` where it stays.
    pub fn step(&self, id: &Id) -> Option<&RenamingStep>
        ensures { option_map (λ step. change_of_step step.now) result
            ≡ lookup (ident_eq (ident_named id.now)) self.now }
    {
        self.steps.get(id)
    }

    /// From now on this identifier becomes that one, whatever it became before. Refused only where memory runs
    /// out, and then nothing changes.
    pub fn insert(&mut self, from: Id, to: Id) -> Result<(), AllocError>
        ensures ok { OnOk result
            (SaySame self.new (with_pair self.old (ident_named from) (ident_named to))) }
        ensures err { OnErr result (self.new ≡ self.old) }
    {
        let is_spelled_out = from.sym() != to.sym();
        self.steps
            .insert(from, RenamingStep { to, is_spelled_out })?;
        Ok(())
    }

    /// This renaming and then the next one. To rename by it is to rename by the one and then by the other.
    /// Refused only where memory runs out.
    pub fn then(&self, next: &Renaming) -> Result<Renaming, AllocError>
        ensures says { IfOk result (λ both. SaySame both (followed_by self.now next.now)) }
        ensures law { IfOk result (Compose self.now next.now) }
    {
        let mut steps = next.steps.clone()?;
        for (from, step) in self.steps.iter().rev() {
            steps.insert(from.clone()?, step.then(next)?)?;
        }
        Ok(Renaming {
            alloc: self.alloc,
            steps,
        })
    }
}

impl RenamingStep {
    // This step and then what the renaming makes of it.
    fn then(&self, next: &Renaming) -> Result<RenamingStep, AllocError>
        ensures { IfOk result
            (λ made. change_of_step made ≡ change_then next.now (change_of_step self.now)) }
    {
        match next.step(&self.to) {
            Some(step) => Ok(RenamingStep {
                to: step.to.clone()?,
                is_spelled_out: self.is_spelled_out || step.is_spelled_out,
            }),
            None => self.clone(),
        }
    }
}

impl Clone for RenamingStep {
    ghost use Rattle.std.specs.Prelude.{◌≡◌};
    ghost use Rattle.bundle_marks.specs.Renamings.{change_of_step};

    ghost is_clone = { λ step copy. change_of_step copy ≡ change_of_step step };

    fn clone(&self) -> Result<RenamingStep, AllocError> {
        Ok(RenamingStep {
            to: self.to.clone()?,
            is_spelled_out: self.is_spelled_out,
        })
    }
}

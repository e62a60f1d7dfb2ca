//! The occurrences of each binding.

ghost use Rattle.std.specs.Prelude.{◌≡◌, ◌<◌, ℕ, None, Some, IfOk, cond, length};
ghost use Rattle.bundle_scope_names.specs.Called.{at};
ghost use Rattle.bundle_scope_names.specs.Turns.{is_this_number};
ghost use Rattle.bundle_scope_names.specs.Uses.{AreUses};

use bundle_scope_denote::Denoted;
use std::alloc::{AllocError, Global};

/// The occurrences of each binding, the last one first, by their numbers.
#[derive(Drop)]
pub(crate) struct Uses {
    // For each binding its last occurrence.
    pub(crate) last: Vec<Option<usize>>,
    // For each occurrence the one before it that denotes the same binding.
    pub(crate) before: Vec<Option<usize>>,
}

impl Uses {
    /// Those of so many bindings.
    pub(crate) fn of(
        alloc: Global,
        count: usize,
        occurrences: &[Denoted],
    ) -> Result<Uses, AllocError>
        ensures uses { IfOk result (AreUses occurrences.now) }
        ensures count { IfOk result (λ uses. length uses.last.items ≡ count) }
    {
        let mut last = none_of(alloc, count)?;
        let mut before = Vec::with_capacity(alloc, occurrences.len())?;
        for (number, occurrence) in occurrences.iter().enumerate() {
            before.push(linked(&mut last, occurrence.binding, number))?;
        }
        Ok(Uses { last, before })
    }

    /// The last occurrence of a binding.
    pub(crate) fn last_of(&self, binding: usize) -> Option<usize>
        ensures { result ≡ at self.now.last.items binding }
    {
        match self.last.get(binding) {
            Some(last) => *last,
            None => None,
        }
    }

    /// The occurrence of the same binding before this one.
    pub(crate) fn before(&self, number: usize) -> Option<usize>
        ensures { result ≡ at self.now.before.items number }
    {
        match self.before.get(number) {
            Some(before) => *before,
            None => None,
        }
    }
}

// So many times nothing.
fn none_of(alloc: Global, count: usize) -> Result<Vec<Option<usize>>, AllocError>
    ensures len { IfOk result (λ list. length list.items ≡ count) }
    ensures none { IfOk result (λ list. (number : ℕ) → at list.items number ≡ None) }
{
    let list = vec![in alloc; None; count]?;
    Ok(list)
}

// The occurrence before this one that denotes its binding, of which this one is the last now.
fn linked(last: &mut Vec<Option<usize>>, binding: Option<usize>, number: usize) -> Option<usize>
    ensures before { (its : ℕ) → binding ≡ Some its → result ≡ at last.old.items its }
    ensures last { (other : ℕ) →
        other < length last.old.items →
        at last.new.items other
        ≡ cond (is_this_number other binding) (Some number) (at last.old.items other) }
    ensures count { length last.new.items ≡ length last.old.items }
{
    let Some(binding) = binding else {
        return None;
    };
    match last.get_mut(binding) {
        None => None,
        Some(its) => its.replace(number),
    }
}

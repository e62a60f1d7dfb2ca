//! Chains of numbers: each number leads to another or to none, and where the chain from each of them ends.

ghost use Rattle.std.specs.Prelude.{◌≡◌, ◌+◌, ◌<◌, ◌≤◌, ℕ, IfNone, IfOk, IfSome, IsTrue, IsFalse, length, map, slice_get, slice_index};
ghost use Rattle.bundle_merge_modules.specs.Chains.{AreEnds, AreFar, AreJumps, AreLast, AreNumbersBelow, HasOpen, HasRing, LeadsWithin, is_last_at, chain_step};

use std::alloc::{AllocError, Global};

/// Where the chain from each number ends, or `None` where some chain leads back to where it began. `next` tells of
/// each number the one that it leads to. Refused only where memory runs out.
pub(crate) fn chain_ends(
    alloc: Global,
    next: &[Option<usize>],
) -> Result<Option<Vec<usize>>, AllocError>
    requires { LeadsWithin next.now }
    ensures ends { IfOk result (λ found. IfSome found (λ ends. AreEnds next.now ends.items)) }
    ensures ring { IfOk result (λ found. IfNone found (HasRing next.now)) }
{
    let ends = far_jumps(alloc, next)?;
    if are_last(next, &ends) {
        return Ok(Some(ends));
    }
    Ok(None)
}

// Where each number gets in as many steps as there are numbers, or more.
fn far_jumps(alloc: Global, next: &[Option<usize>]) -> Result<Vec<usize>, AllocError>
    requires { LeadsWithin next.now }
    ensures { IfOk result (λ jumps. AreFar next.now jumps.items) }
{
    let mut jumps = first_jumps(alloc, next)?;
    let mut reach = 1usize;
    while reach < next.len() {
        jumps = doubled(alloc, &jumps)?;
        reach += reach;
    }
    Ok(jumps)
}

// Where each number gets in one step.
fn first_jumps(alloc: Global, next: &[Option<usize>]) -> Result<Vec<usize>, AllocError>
    ensures { IfOk result (λ jumps. AreJumps next.now 1 jumps.items) }
{
    let mut jumps = Vec::new(alloc);
    for i in 0..next.len() {
        jumps.push(step(next, i))?;
    }
    Ok(jumps)
}

// Where a number gets in one step; where it leads to none, it stays.
fn step(next: &[Option<usize>], i: usize) -> usize
    requires { i < length next.now }
    ensures { result ≡ chain_step next.now i }
{
    match next[i] {
        Some(other) => other,
        None => i,
    }
}

// Where each number gets in twice as many steps.
fn doubled(alloc: Global, jumps: &[usize]) -> Result<Vec<usize>, AllocError>
    requires { AreNumbersBelow jumps.now (length jumps.now) }
    ensures { IfOk result
        (λ twice. twice.items ≡ map (λ j. slice_index jumps.now j) jumps.now) }
{
    let mut twice = Vec::new(alloc);
    for jump in jumps {
        twice.push(jumps[*jump])?;
    }
    Ok(twice)
}

// Whether each of these numbers leads to none.
fn are_last(next: &[Option<usize>], ends: &[usize]) -> bool
    requires { AreNumbersBelow ends.now (length next.now) }
    ensures all { IsTrue result → AreLast next.now ends.now }
    ensures leads { IsFalse result → HasOpen next.now ends.now }
{
    for end in ends {
        if !is_last(next, *end) {
            return false;
        }
    }
    true
}

// Whether a number leads to none.
fn is_last(next: &[Option<usize>], i: usize) -> bool
    requires { i < length next.now }
    ensures { result ≡ is_last_at next.now i }
{
    match next[i] {
        Some(_) => false,
        None => true,
    }
}

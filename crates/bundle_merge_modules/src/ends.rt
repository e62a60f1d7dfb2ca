//! Where the chains of aliases end, as a renaming.

ghost use Rattle.std.specs.Prelude.{◌≡◌, IfNone, IfOk, IfSome, length, map, slice_index};
ghost use Rattle.std.specs.BTreeMap.{get};
ghost use Rattle.bundle_rules.specs.Aliases.{HasCycle};
ghost use Rattle.bundle_tree.specs.IdName.{name_cmp};
ghost use Rattle.bundle_merge_modules.specs.Chains.{AreNumbersBelow};
ghost use Rattle.bundle_merge_modules.specs.Pairs.{AreAliasNumbers, AreOnceAliased, AreRenamingSteps, IsPair, LeadsToEnds, next_by};

use crate::chains::chain_ends;
use bundle_marks::Renaming;
use bundle_tree::Id;
use std::alloc::{AllocError, Global};
use std::collections::BTreeMap;

/// The renaming by which each identifier becomes the end of its chain of these aliases, or `None` where some chain
/// leads back to where it began. A pair is what is an alias, and of what. Refused only where memory runs out.
pub(crate) fn renaming_to_ends(
    alloc: Global,
    pairs: &[(Id, Id)],
) -> Result<Option<Renaming>, AllocError>
    ensures ends { IfOk result
        (λ found. IfSome found (λ renaming. LeadsToEnds (IsPair pairs.now) renaming)) }
    ensures none { IfOk result (λ found. IfSome found
        (λ renaming. AreOnceAliased pairs.now → HasCycle (IsPair pairs.now) → ⊥)) }
    ensures cycle { IfOk result (λ found. IfNone found (HasCycle (IsPair pairs.now))) }
{
    let numbers = numbers_of(alloc, pairs)?;
    let next = next_of(alloc, pairs, &numbers)?;
    match chain_ends(alloc, &next)? {
        Some(ends) => Ok(Some(renaming_by(alloc, pairs, &ends)?)),
        None => Ok(None),
    }
}

// The number of a pair by what is an alias there.
fn numbers_of(alloc: Global, pairs: &[(Id, Id)]) -> Result<BTreeMap<Id, usize>, AllocError>
    ensures { IfOk result (λ numbers. AreAliasNumbers pairs.now (length pairs.now) numbers) }
{
    let mut numbers = BTreeMap::new(alloc);
    for (number, pair) in pairs.iter().enumerate() {
        numbers.insert(pair.0.clone()?, number)?;
    }
    Ok(numbers)
}

// For each pair the number of that in which what it stands for is an alias.
fn next_of(
    alloc: Global,
    pairs: &[(Id, Id)],
    numbers: &BTreeMap<Id, usize>,
) -> Result<Vec<Option<usize>>, AllocError>
    ensures { IfOk result (λ next. next.items ≡ next_by numbers.now pairs.now) }
{
    let mut next = Vec::new(alloc);
    for pair in pairs {
        next.push(number_in(numbers, &pair.1))?;
    }
    Ok(next)
}

fn number_in(numbers: &BTreeMap<Id, usize>, id: &Id) -> Option<usize>
    ensures { result ≡ get name_cmp numbers.now id.now }
{
    numbers.get(id).copied()
}

// The renaming of what is an alias in each pair to what the pair at its end stands for.
fn renaming_by(alloc: Global, pairs: &[(Id, Id)], ends: &[usize]) -> Result<Renaming, AllocError>
    requires len { length ends.now ≡ length pairs.now }
    requires within { AreNumbersBelow ends.now (length pairs.now) }
    ensures { IfOk result (λ renaming. AreRenamingSteps pairs.now ends.now (length pairs.now) renaming) }
{
    let mut renaming = Renaming::empty(alloc);
    for (number, pair) in pairs.iter().enumerate() {
        let end = pairs[ends[number]].1.clone()?;
        renaming.insert(pair.0.clone()?, end)?;
    }
    Ok(renaming)
}

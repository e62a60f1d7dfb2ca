//! Lists of numbers.

ghost use Rattle.std.specs.Prelude.{◌≡◌, ℕ, ◌<◌, ◌↔◌, IfOk, IsTrue, Contains, length, map};
ghost use Rattle.std.specs.List.Sorted.{IsStrictlyIncreasing};
ghost use Rattle.bundle_order_graph.specs.Classes.{Leads};

use std::alloc::{AllocError, Global};

/// For each of so many numbers the seconds of the pairs of which it is the first.
pub(crate) fn rows_of(
    alloc: Global,
    count: usize,
    pairs: &[(usize, usize)],
) -> Result<Vec<Vec<usize>>, AllocError>
    ensures len { IfOk result (λ rows. length rows.items ≡ count) }
    ensures each { IfOk result (λ rows.
        (s t : ℕ) →
        Leads (map (λ v. v.items) rows.items) s t ↔ ((s < count) × Contains pairs.now (s, t))) }
{
    let mut rows = Vec::new(alloc);
    for _ in 0..count {
        rows.push(Vec::new(alloc))?;
    }
    for (first, second) in pairs.iter() {
        if *first < rows.len() {
            rows[*first].push(*second)?;
        }
    }
    Ok(rows)
}

/// These numbers, ascending and each once.
pub(crate) fn once(numbers: Vec<usize>) -> Vec<usize>
    ensures ascending { IsStrictlyIncreasing result.items }
    ensures same { (t : ℕ) → Contains result.items t ↔ Contains numbers.items t }
{
    let mut numbers = numbers;
    numbers.sort_unstable();
    numbers.dedup();
    numbers
}

/// Whether a number is among these, which ascend.
pub(crate) fn is_among(numbers: &[usize], number: usize) -> bool
    requires { IsStrictlyIncreasing numbers.now }
    ensures { IsTrue result ↔ Contains numbers.now number }
{
    numbers.binary_search(&number).is_ok()
}

//! The stack that puts numbered items in order.
//!
//! An item stays at its place on the stack until it is out: it is looked at there, and what has to
//! come before it goes above it. So all above it is there on its account, and two notes on the item
//! stand for the pairs that were used: that its needs were put above it once, and up to which item
//! of its module the earlier ones were.
//!
//! Looked at again, an item that still waits for needs of its puts the first of them above it. That
//! one is on the stack already, so it does no more than the same, and so on down a chain of needs
//! that rank lower and lower, to an item that is not begun or waits for none. Only that end of the
//! chain acts, and no other of the chain goes out before it does. So the end is noted for all of
//! them, and is put on top at once until it is out.
//!
//! Nothing below an entry is looked at before its item is out. So only the topmost entry of an item
//! counts, and where the stack grows long the others are taken away.

ghost use Rattle.std.specs.Prelude.{◌≡◌, ℕ, ◌+◌, ◌-◌, ◌<◌, ◌≤◌, ◌++◌, ◌↔◌, ◌⊎◌, IsTrue, true, false, IfOk, OnOk, IfSome, IfNone, Contains, map, length, reverse, slice_index};
ghost use Rattle.std.specs.List.{filter};
ghost use Rattle.std.specs.List.Sorted.{IsStrictlyIncreasing};
ghost use Rattle.bundle_order_sort.specs.Items.{AddsNeeds, AreSoles, IsNeeded, NeedsByRank};
ghost use Rattle.bundle_order_sort.specs.Left.{IsNeedLeft, KeepsLeft, is_left};
ghost use Rattle.bundle_order_sort.specs.Numbers.{fresh, progress_of, NeedsNumber, IsInOrder, IsOut, is_awaited, AreSkips};
ghost use Rattle.bundle_order_sort.specs.Chains.{Falls, WaitsForNone, AddsChain, AreChains};
ghost use Rattle.bundle_order_sort.specs.Topmost.{IsTopmost};

use crate::needs::{is_need, is_own};
use crate::{Reference, SharedItem};
use std::alloc::{AllocError, Global};

/// What is known of an item.
#[derive(Clone, Copy)]
struct Progress {
    /// It is out.
    out: bool,
    /// It was put back for what it needs, so that what ranks with it counted once.
    begun: bool,
    /// Each earlier item of its module below this one is out, or was put above it once.
    next: usize,
}

/// The items in the order in which they are put out. They share the lists of what they depend on; a
/// path leads back from what an item needs exactly where that does not rank below the item. `soles`
/// has for each list the module of all of its items, if they are of one, and `firsts` the first item
/// of each item's module, and for a free item that item itself. What is out is taken off the lists.
///
/// The top of the stack is dropped if it is out. What it waits for of its needs goes above it, the
/// lowest on top, or the chain that this comes to; else the first earlier item of its module that
/// is not out, if that one was not above it before; else it is out next.
pub(crate) fn sort_numbers(
    alloc: Global,
    items: &[SharedItem],
    lists: &mut [Vec<usize>],
    soles: &[Option<usize>],
    ranks: &[usize],
    firsts: &[usize],
) -> Result<Vec<usize>, AllocError>
    requires ranks_len { length ranks.now ≡ length items.now }
    requires firsts_len { length firsts.now ≡ length items.now }
    requires soles { AreSoles items.now (map (λ v. v.items) lists.old) soles.now }
    ensures { IfOk result (λ order.
        let needs = NeedsByRank items.now (map (λ v. v.items) lists.old) ranks.now in
        IsInOrder needs (length items.now) ranks.now firsts.now order.items) }
{
    let mut skips = vec![in alloc; 0; items.len()]?;
    let mut cursors = vec![in alloc; 0; items.len()]?;
    let mut ends = numbers_below(alloc, items.len())?;
    let mut needs = empty_lists(alloc, items.len())?;
    put_out(
        alloc,
        items,
        lists,
        soles,
        ranks,
        firsts,
        &mut needs,
        &mut skips,
        &mut cursors,
        &mut ends,
    )
}

/// The items in the order in which they are put out. What an item needs is not known before it is
/// begun (`needs`), no item is to be passed over yet (`skips`), no need is known to be awaited no
/// more (`cursors`), and each chain ends where it begins (`ends`).
fn put_out(
    alloc: Global,
    items: &[SharedItem],
    lists: &mut [Vec<usize>],
    soles: &[Option<usize>],
    ranks: &[usize],
    firsts: &[usize],
    needs: &mut [Vec<usize>],
    skips: &mut [usize],
    cursors: &mut [usize],
    ends: &mut [usize],
) -> Result<Vec<usize>, AllocError>
    requires ranks_len { length ranks.now ≡ length items.now }
    requires firsts_len { length firsts.now ≡ length items.now }
    requires soles { AreSoles items.now (map (λ v. v.items) lists.old) soles.now }
    requires needs_len { length needs.old ≡ length items.now }
    requires needs { (s t : ℕ) → NeedsNumber (map (λ v. v.items) needs.old) s t → ⊥ }
    requires skips_len { length skips.old ≡ length items.now }
    requires skips { (t : ℕ) → slice_index skips.old t ≡ 0 }
    requires cursors_len { length cursors.old ≡ length items.now }
    requires cursors { (t : ℕ) → slice_index cursors.old t ≡ 0 }
    requires ends_len { length ends.old ≡ length items.now }
    requires ends { (t : ℕ) → t < length items.now → slice_index ends.old t ≡ t }
    ensures { IfOk result (λ order.
        let needs = NeedsByRank items.now (map (λ v. v.items) lists.old) ranks.now in
        IsInOrder needs (length items.now) ranks.now firsts.now order.items) }
{
    let mut stack = all_items(alloc, items.len())?;
    let mut progress = begin(alloc, firsts)?;
    let mut order = Vec::new(alloc);
    while let Some(top) = stack.last() {
        let item = *top;
        let known = progress[item];
        if known.out {
            stack.pop();
            continue;
        }
        let shorter = shorten(alloc, &mut stack, &progress)?;
        if shorter {
            continue;
        }
        if !known.begun {
            let needed = needs_left(alloc, items, lists, soles, ranks, &progress, item)?;
            push_needs(&mut stack, &needed)?;
            needs[item] = needed;
            cursors[item] = 0;
            progress[item] = Progress {
                begun: true,
                ..known
            };
            continue;
        }
        let awaited = push_chain(&mut stack, ends, cursors, needs, ranks, &progress, item)?;
        if awaited {
            continue;
        }
        let left = first_left(&progress, skips, known.next, item);
        if left < item {
            progress[item] = Progress {
                next: left + 1,
                ..known
            };
            stack.push(left)?;
            continue;
        }
        progress[item] = Progress { out: true, ..known };
        order.push(item)?;
        stack.pop();
    }
    Ok(order)
}

/// So many empty lists.
fn empty_lists(alloc: Global, count: usize) -> Result<Vec<Vec<usize>>, AllocError>
    ensures len { IfOk result (λ lists. length lists.items ≡ count) }
    ensures none { IfOk result (λ lists.
        (s t : ℕ) → NeedsNumber (map (λ v. v.items) lists.items) s t → ⊥) }
{
    let mut lists: Vec<Vec<usize>> = Vec::new(alloc);
    for _ in 0..count {
        lists.push(Vec::new(alloc))?;
    }
    Ok(lists)
}

/// What an item needs and is not out, ascending. What is out is taken off the lists on which the
/// item depends.
fn needs_left(
    alloc: Global,
    items: &[SharedItem],
    lists: &mut [Vec<usize>],
    soles: &[Option<usize>],
    ranks: &[usize],
    progress: &[Progress],
    item: usize,
) -> Result<Vec<usize>, AllocError>
    requires item_in { item < length items.now }
    requires ranks_len { length ranks.now ≡ length items.now }
    requires soles { AreSoles items.now (map (λ v. v.items) lists.old) soles.now }
    ensures len { length lists.new ≡ length lists.old }
    ensures ascending { IfOk result (λ needed. IsStrictlyIncreasing needed.items) }
    ensures each { IfOk result (λ needed.
        (t : ℕ) →
        Contains needed.items t
        ↔ ((IsOut progress.now t → ⊥)
        × NeedsByRank items.now (map (λ v. v.items) lists.old) ranks.now item t)) }
    ensures left { OnOk result
        (KeepsLeft progress.now (map (λ v. v.items) lists.old) (map (λ v. v.items) lists.new)) }
{
    let mut needed = Vec::new(alloc);
    let references = items[item].references.as_slice();
    for reference in references {
        add_left(
            alloc,
            items,
            lists,
            soles,
            ranks,
            progress,
            item,
            *reference,
            &mut needed,
        )?;
    }
    Ok(once(needed))
}

/// Adds what an item needs of one list and is not out. What is out is taken off the list.
fn add_left(
    alloc: Global,
    items: &[SharedItem],
    lists: &mut [Vec<usize>],
    soles: &[Option<usize>],
    ranks: &[usize],
    progress: &[Progress],
    item: usize,
    reference: Reference,
    needed: &mut Vec<usize>,
) -> Result<(), AllocError>
    requires item_in { item < length items.now }
    requires ranks_len { length ranks.now ≡ length items.now }
    requires soles { AreSoles items.now (map (λ v. v.items) lists.old) soles.now }
    ensures len { length lists.new ≡ length lists.old }
    ensures added { OnOk result
        ((t : ℕ) →
        Contains needed.new.items t
        ↔ (Contains needed.old.items t
        ⊎ IsNeedLeft items.now (map (λ v. v.items) lists.old) ranks.now progress.now item
        reference t)) }
    ensures left { OnOk result
        (KeepsLeft progress.now (map (λ v. v.items) lists.old) (map (λ v. v.items) lists.new)) }
{
    let list = reference.list;
    if list >= lists.len() {
        return Ok(());
    }
    if is_own(items, soles[list], item) {
        return Ok(());
    }
    let left = left_of(alloc, &lists[list], progress)?;
    add_needs(needed, &left, items, ranks, item, reference.is_weak)?;
    lists[list] = left;
    Ok(())
}

/// Those that are not out.
fn left_of(alloc: Global, list: &[usize], progress: &[Progress]) -> Result<Vec<usize>, AllocError>
    ensures { IfOk result (λ left. left.items ≡ filter (is_left progress.now) list.now) }
{
    let mut left = Vec::new(alloc);
    for item in list {
        if !is_out(progress, *item) {
            left.push(*item)?;
        }
    }
    Ok(left)
}

/// Whether an item is out.
fn is_out(progress: &[Progress], item: usize) -> bool
    ensures { result ≡ (progress_of progress.now item).out }
{
    if item < progress.len() {
        progress[item].out
    } else {
        false
    }
}

/// Adds those of a list that an item needs, which depends on the list.
fn add_needs(
    needed: &mut Vec<usize>,
    list: &[usize],
    items: &[SharedItem],
    ranks: &[usize],
    item: usize,
    is_weak: bool,
) -> Result<(), AllocError>
    requires item_in { item < length items.now }
    requires ranks_len { length ranks.now ≡ length items.now }
    ensures { OnOk result
        (AddsNeeds (λ t. IsNeeded items.now ranks.now item t is_weak) list.now needed.old.items
        needed.new.items) }
{
    for end in list {
        if is_need(items, ranks, item, *end, is_weak) {
            needed.push(*end)?;
        }
    }
    Ok(())
}

/// These numbers, ascending and each once.
fn once(numbers: Vec<usize>) -> Vec<usize>
    ensures ascending { IsStrictlyIncreasing result.items }
    ensures same { (t : ℕ) → Contains result.items t ↔ Contains numbers.items t }
{
    let mut numbers = numbers;
    numbers.sort_unstable();
    numbers.dedup();
    numbers
}

/// The numbers below `count`, the lowest last.
fn all_items(alloc: Global, count: usize) -> Result<Vec<usize>, AllocError>
    ensures len { IfOk result (λ items. length items.items ≡ count) }
    ensures each { IfOk result (λ items.
        (k : ℕ) → k < count → slice_index items.items k ≡ count - 1 - k) }
{
    let mut items = Vec::new(alloc);
    for done in 0..count {
        items.push(count - 1 - done)?;
    }
    Ok(items)
}

/// The numbers below `count`, ascending.
fn numbers_below(alloc: Global, count: usize) -> Result<Vec<usize>, AllocError>
    ensures len { IfOk result (λ numbers. length numbers.items ≡ count) }
    ensures each { IfOk result
        (λ numbers. (k : ℕ) → k < count → slice_index numbers.items k ≡ k) }
{
    let mut numbers = Vec::new(alloc);
    for number in 0..count {
        numbers.push(number)?;
    }
    Ok(numbers)
}

/// What is known of the items at first.
fn begin(alloc: Global, firsts: &[usize]) -> Result<Vec<Progress>, AllocError>
    ensures { IfOk result (λ progress. progress.items ≡ map fresh firsts.now) }
{
    firsts
        .iter()
        .map(|first| Progress {
            out: false,
            begun: false,
            next: *first,
        })
        .collect(alloc)
}

/// Where the stack has grown to more than four times the number of items, keeps only the topmost
/// entry of each item that is not out, and tells whether that made it shorter.
fn shorten(alloc: Global, stack: &mut Vec<usize>, progress: &[Progress]) -> Result<bool, AllocError>
    requires { (k : ℕ) → k < length stack.old.items
        → slice_index stack.old.items k < length progress.now }
    ensures same { IfOk result (λ shorter.
        shorter ≡ false → stack.new.items ≡ stack.old.items) }
    ensures less { IfOk result
        (λ shorter. shorter ≡ true → length stack.new.items < length stack.old.items) }
    ensures topmost { IfOk result
        (λ shorter. shorter ≡ true
        → IsTopmost (λ t. IsOut progress.now t → ⊥) stack.old.items stack.new.items) }
{
    if stack.len() / 4 <= progress.len() {
        return Ok(false);
    }
    let kept = topmost(alloc, stack, progress)?;
    if kept.len() >= stack.len() {
        return Ok(false);
    }
    *stack = kept;
    Ok(true)
}

/// The topmost entry of each item that is not out, in the order of the stack.
fn topmost(alloc: Global, stack: &[usize], progress: &[Progress]) -> Result<Vec<usize>, AllocError>
    requires { (k : ℕ) →
        k < length stack.now → slice_index stack.now k < length progress.now }
    ensures { IfOk result (λ kept.
        IsTopmost (λ t. IsOut progress.now t → ⊥) stack.now kept.items) }
{
    let mut met = vec![in alloc; false; progress.len()]?;
    let mut kept = Vec::new(alloc);
    for done in 0..stack.len() {
        let item = stack[stack.len() - 1 - done];
        if !met[item] && !progress[item].out {
            met[item] = true;
            kept.push(item)?;
        }
    }
    kept.reverse();
    Ok(kept)
}

/// Puts on the stack what an item needs, the first on top.
fn push_needs(stack: &mut Vec<usize>, needed: &[usize]) -> Result<(), AllocError>
    ensures { OnOk result (stack.new.items ≡ stack.old.items ++ reverse needed.now) }
{
    for done in 0..needed.len() {
        stack.push(needed[needed.len() - 1 - done])?;
    }
    Ok(())
}

/// Puts on the stack the chain of a begun item: the first need that it waits for, the first that
/// this one waits for, and so on, down to an item that is not begun or waits for none. Tells
/// whether there is any. The end is noted for all of the chain.
fn push_chain(
    stack: &mut Vec<usize>,
    ends: &mut [usize],
    cursors: &mut [usize],
    needs: &[Vec<usize>],
    ranks: &[usize],
    progress: &[Progress],
    item: usize,
) -> Result<bool, AllocError>
    requires item_in { item < length needs.now }
    requires begun { (progress_of progress.now item).begun ≡ true }
    requires chains { let rows = map (λ v. v.items) needs.now in
        AreChains rows ranks.now progress.now ends.old cursors.old }
    ensures added { let rows = map (λ v. v.items) needs.now in OnOk result
        (AddsChain rows ranks.now progress.now item stack.old.items stack.new.items) }
    ensures any { IfOk result
        (λ any. IsTrue any ↔ (length stack.old.items < length stack.new.items)) }
    ensures none { let rows = map (λ v. v.items) needs.now in IfOk result
        (λ any. any ≡ false → WaitsForNone rows ranks.now progress.now item) }
    ensures chains { let rows = map (λ v. v.items) needs.now in OnOk result
        (AreChains rows ranks.now progress.now ends.new cursors.new) }
{
    let before = stack.len();
    let mut at = item;
    while let Some(next) = next_in_chain(ends, cursors, needs, ranks, progress, at) {
        stack.push(next)?;
        at = next;
    }
    ends[item] = at;
    note_end(ends, &stack[before..], at);
    Ok(stack.len() > before)
}

/// The next item of a chain: the end that was noted for this item, if that one is not out, else the
/// first need that this item waits for, if it is begun.
fn next_in_chain(
    ends: &[usize],
    cursors: &mut [usize],
    needs: &[Vec<usize>],
    ranks: &[usize],
    progress: &[Progress],
    item: usize,
) -> Option<usize>
    requires item_in { item < length needs.now }
    requires chains { let rows = map (λ v. v.items) needs.now in
        AreChains rows ranks.now progress.now ends.now cursors.old }
    ensures falls { IfSome result (Falls (map (λ v. v.items) needs.now) ranks.now item) }
    ensures left { IfSome result (λ next. IsOut progress.now next → ⊥) }
    ensures none { let rows = map (λ v. v.items) needs.now in
        (progress_of progress.now item).begun ≡ true
        → IfNone result (WaitsForNone rows ranks.now progress.now item) }
    ensures chains { let rows = map (λ v. v.items) needs.now in
        AreChains rows ranks.now progress.now ends.now cursors.new }
{
    if !progress[item].begun {
        return None;
    }
    let end = ends[item];
    if end != item && !progress[end].out {
        return Some(end);
    }
    let needed = needs[item].as_slice();
    let place = first_awaited(needed, ranks, progress, item, cursors[item]);
    cursors[item] = place;
    needed.get(place).copied()
}

/// The place of the first need from `from` on that an item waits for, or one past the last.
fn first_awaited(
    needs: &[usize],
    ranks: &[usize],
    progress: &[Progress],
    item: usize,
    from: usize,
) -> usize
    requires item_in { item < length ranks.now }
    requires len { length progress.now ≡ length ranks.now }
    requires within { (t : ℕ) → Contains needs.now t → t < length ranks.now }
    ensures passed { (k : ℕ) → from ≤ k → k < result → k < length needs.now
        → is_awaited ranks.now progress.now item (slice_index needs.now k) ≡ false }
    ensures found { result < length needs.now
        → is_awaited ranks.now progress.now item (slice_index needs.now result) ≡ true }
{
    let mut at = from;
    while at < needs.len() && !awaits(ranks, progress, item, needs[at]) {
        at += 1;
    }
    at
}

/// Notes the end of a chain for all of the chain.
fn note_end(ends: &mut [usize], chain: &[usize], end: usize)
    requires { (t : ℕ) → Contains chain.now t → t < length ends.old }
    ensures { (s : ℕ) → (slice_index ends.new s ≡ slice_index ends.old s)
        ⊎ (Contains chain.now s × (slice_index ends.new s ≡ end)) }
{
    for item in chain {
        ends[*item] = end;
    }
}

/// Whether an item waits for one that it needs: that one is not out, and it ranks below the item,
/// or the item was not begun.
fn awaits(ranks: &[usize], progress: &[Progress], item: usize, need: usize) -> bool
    requires item_in { item < length ranks.now }
    requires need_in { need < length ranks.now }
    requires len { length progress.now ≡ length ranks.now }
    ensures { result ≡ is_awaited ranks.now progress.now item need }
{
    !progress[need].out && (ranks[need] < ranks[item] || !progress[item].begun)
}

/// The first item from `from` on that is not out, or one from `to` on if there is none below `to`.
fn first_left(progress: &[Progress], skips: &mut [usize], from: usize, to: usize) -> usize
    requires to_in { to < length progress.now }
    requires len { length skips.old ≡ length progress.now }
    requires skips { AreSkips progress.now skips.old }
    ensures out { (t : ℕ) → from ≤ t → t < result → IsOut progress.now t }
    ensures found { result < to → IsOut progress.now result → ⊥ }
    ensures at { from ≤ result }
    ensures skips { AreSkips progress.now skips.new }
    ensures len { length skips.new ≡ length skips.old }
{
    let mut at = from;
    while at < to && progress[at].out {
        at = skips[at].max(at + 1);
    }
    if from < to {
        skips[from] = at;
    }
    at
}

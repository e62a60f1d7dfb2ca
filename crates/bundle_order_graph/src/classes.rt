//! The classes of numbered items that lead to each other. `edges` has for each item those that an
//! edge leads to from it.

ghost use Rattle.std.specs.Prelude.{◌≡◌, ℕ, ◌<◌, [], IfOk, OnOk, Contains, map, unwrap_or, length, slice_index};
ghost use Rattle.bundle_order_graph.specs.Classes.{AddsUser, AreRanks, AreReversed, AreWithin, IsBegun, IsPostOrder, IsRanked, RanksClass, RanksUsers, Walking};

use std::alloc::{AllocError, Global};

/// An item that is begun: its edges before `next` are looked at.
#[derive(Clone, Copy)]
struct Visit {
    item: usize,
    next: usize,
}

/// A rank for each item. An edge leads to an item that does not rank above the one that it leaves,
/// and a path leads back exactly where both rank alike.
///
/// The items that lead to each other are found by two searches. The last item of the post-order is
/// the last of its class: those from which a path leads to it. With them left out, so is the last
/// of what remains. A class has the place of its last item as its rank.
pub fn ranks_of(alloc: Global, edges: &[Vec<usize>]) -> Result<Vec<usize>, AllocError>
    requires within { AreWithin (map (λ v. v.items) edges.now) }
    ensures { IfOk result (λ ranks. AreRanks (map (λ v. v.items) edges.now) ranks.items) }
{
    let listed = post_order(alloc, edges)?;
    let users = reversed(alloc, edges)?;
    let mut ranks: Vec<Option<usize>> = vec![in alloc; None; edges.len()]?;
    for done in 0..listed.len() {
        let place = listed.len() - 1 - done;
        if ranks[listed[place]].is_none() {
            rank_class(alloc, &users, &listed, &mut ranks, place)?;
        }
    }
    numbers_of(alloc, &ranks)
}

/// The ranks as numbers, once each item has one.
fn numbers_of(alloc: Global, ranks: &[Option<usize>]) -> Result<Vec<usize>, AllocError>
    ensures { IfOk result (λ numbers.
        numbers.items ≡ map (λ rank. unwrap_or rank 0) ranks.now) }
{
    ranks.iter().map(|rank| rank.unwrap_or(0)).collect(alloc)
}

/// All items in the post-order of a depth-first walk.
fn post_order(alloc: Global, edges: &[Vec<usize>]) -> Result<Vec<usize>, AllocError>
    requires within { AreWithin (map (λ v. v.items) edges.now) }
    ensures { IfOk result (λ listed. IsPostOrder (map (λ v. v.items) edges.now) listed.items) }
{
    let mut begun = vec![in alloc; false; edges.len()]?;
    let mut visits = Vec::new(alloc);
    let mut listed = Vec::new(alloc);
    for start in 0..edges.len() {
        if !begun[start] {
            begun[start] = true;
            visits.push(Visit {
                item: start,
                next: 0,
            })?;
            walk(edges, &mut begun, &mut visits, &mut listed)?;
        }
    }
    Ok(listed)
}

/// Walks on from what is begun, and lists each item when all that it leads to is begun.
fn walk(
    edges: &[Vec<usize>],
    begun: &mut [bool],
    visits: &mut Vec<Visit>,
    listed: &mut Vec<usize>,
) -> Result<(), AllocError>
    requires within { AreWithin (map (λ v. v.items) edges.now) }
    requires walking { Walking (map (λ v. v.items) edges.now) begun.old visits.old.items
        listed.old.items }
    ensures walking { OnOk result
        (Walking (map (λ v. v.items) edges.now) begun.new [] listed.new.items) }
    ensures over { OnOk result (visits.new.items ≡ []) }
    ensures kept { OnOk result ((t : ℕ) → IsBegun begun.old t → IsBegun begun.new t) }
{
    while let Some(visit) = visits.pop() {
        let ends = &edges[visit.item];
        match ends.get(visit.next) {
            None => listed.push(visit.item)?,
            Some(end) => {
                let end = *end;
                visits.push(Visit {
                    item: visit.item,
                    next: visit.next + 1,
                })?;
                if !begun[end] {
                    begun[end] = true;
                    visits.push(Visit { item: end, next: 0 })?;
                }
            }
        }
    }
    Ok(())
}

/// The edges turned round: for each item those from which an edge leads to it.
fn reversed(alloc: Global, edges: &[Vec<usize>]) -> Result<Vec<Vec<usize>>, AllocError>
    requires within { AreWithin (map (λ v. v.items) edges.now) }
    ensures len { IfOk result (λ users. length users.items ≡ length edges.now) }
    ensures each { IfOk result (λ users.
        AreReversed (map (λ v. v.items) edges.now) (map (λ v. v.items) users.items)) }
{
    let mut users: Vec<Vec<usize>> = Vec::new(alloc);
    for _ in 0..edges.len() {
        users.push(Vec::new(alloc))?;
    }
    for (user, ends) in edges.iter().enumerate() {
        add_user(&mut users, ends, user)?;
    }
    Ok(users)
}

/// Adds an item to the users of all that an edge leads to from it.
fn add_user(users: &mut [Vec<usize>], ends: &[usize], user: usize) -> Result<(), AllocError>
    requires within { (t : ℕ) → Contains ends.now t → t < length users.old }
    ensures len { length users.new ≡ length users.old }
    ensures added { OnOk result
        (AddsUser ends.now user (map (λ v. v.items) users.old) (map (λ v. v.items) users.new)) }
{
    for end in ends {
        users[*end].push(user)?;
    }
    Ok(())
}

/// Gives a place as its rank to the item that is listed there, and to all others without a rank
/// from which a path leads to it.
fn rank_class(
    alloc: Global,
    users: &[Vec<usize>],
    listed: &[usize],
    ranks: &mut [Option<usize>],
    place: usize,
) -> Result<(), AllocError>
    requires len { length ranks.old ≡ length users.now }
    requires within { AreWithin (map (λ v. v.items) users.now) }
    requires place_in { place < length listed.now }
    requires last_in { slice_index listed.now place < length users.now }
    ensures { OnOk result
        (RanksClass (map (λ v. v.items) users.now) listed.now place ranks.old ranks.new) }
{
    let mut waiting = Vec::new(alloc);
    let last = listed[place];
    ranks[last] = Some(place);
    waiting.push(last)?;
    while let Some(item) = waiting.pop() {
        rank_users(&users[item], ranks, &mut waiting, place)?;
    }
    Ok(())
}

/// Gives a rank to those of a list that have none, and notes them as waiting.
fn rank_users(
    users: &[usize],
    ranks: &mut [Option<usize>],
    waiting: &mut Vec<usize>,
    rank: usize,
) -> Result<(), AllocError>
    requires { (x : ℕ) → Contains users.now x → x < length ranks.old }
    ensures ranks { OnOk result
        (RanksUsers users.now rank ranks.old waiting.old.items ranks.new waiting.new.items) }
    ensures all { OnOk result ((x : ℕ) → Contains users.now x → IsRanked ranks.new x) }
{
    for user in users {
        if ranks[*user].is_none() {
            ranks[*user] = Some(rank);
            waiting.push(*user)?;
        }
    }
    Ok(())
}

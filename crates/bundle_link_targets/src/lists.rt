//! Lists by the numbers of modules.

ghost use Rattle.std.specs.Prelude.{◌≡◌, [], IfOk, length, slice_set, ℕ};
ghost use Rattle.bundle_link_targets.specs.Lists.{items_lent, list_in};

use std::alloc::{AllocError, Global};

/// So many empty lists.
pub fn no_lists<T: Drop>(alloc: Global, count: usize) -> Result<Vec<Vec<T>>, AllocError>
    ensures none { IfOk result (λ lists. (n : ℕ) → list_in lists.items n ≡ []) }
    ensures count { IfOk result (λ lists. length lists.items ≡ count) }
{
    let mut lists = Vec::new(alloc);
    for _ in 0..count {
        lists.push(Vec::new(alloc))?;
    }
    Ok(lists)
}

/// Puts a list in its place, where there is one.
pub fn put_at<T: Drop>(lists: &mut Vec<Vec<T>>, place: usize, list: Vec<T>)
    ensures { lists.new.items ≡ slice_set lists.old.items place list }
{
    if let Some(old) = lists.get_mut(place) {
        *old = list;
    }
}

/// The list at a place; the empty one where there is none.
pub fn list_at<T>(lists: &Vec<Vec<T>>, place: usize) -> &[T]
    ensures { result.now ≡ list_in lists.now.items place }
{
    match lists.get(place) {
        Some(list) => list.as_slice(),
        None => &[],
    }
}

/// The items of a list; none where there is none.
pub fn items_of<T>(list: Option<&Vec<T>>) -> &[T]
    ensures { result.now ≡ items_lent list.entry }
{
    match list {
        Some(list) => list.as_slice(),
        None => &[],
    }
}

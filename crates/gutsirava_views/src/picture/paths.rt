//! Paths as a picture shows them.

use std::alloc::{AllocError, Global};

const PACKAGES: &str = "node_modules/";

/// A path without the folders up to the last `node_modules`.
pub(crate) fn short_path(path: &str) -> &str {
    let plain = path.strip_prefix("./").unwrap_or(path);
    match plain.rsplit_once(PACKAGES) {
        Some((_, inner)) => inner,
        None => plain,
    }
}

/// A path in two: its folder, with the `/` behind it, and its name.
pub(crate) fn parted(path: &str) -> (&str, &str) {
    let at = match path.rfind('/') {
        Some(at) => at.saturating_add(1),
        None => 0,
    };
    path.split_at_checked(at).unwrap_or(("", path))
}

/// The folder of a path, as far as so many of its names.
pub(crate) fn folder_in(path: &str, depth: usize) -> &str {
    let (folder, _) = parted(path);
    let mut names: usize = 0;
    for (at, byte) in folder.bytes().enumerate() {
        if byte == b'/' {
            names = names.saturating_add(1);
            if names == depth {
                return front(folder, at.saturating_add(1));
            }
        }
    }
    folder
}

fn front(text: &str, end: usize) -> &str {
    match text.split_at_checked(end) {
        Some((front, _)) => front,
        None => text,
    }
}

/// How long the folder is that all paths lie in.
pub(crate) fn shared_folder(paths: &[&str]) -> usize {
    let Some(first) = paths.first() else {
        return 0;
    };
    let mut shared = parted(first).0.len();
    for path in paths {
        shared = shared.min(same_bytes(first, path));
    }
    parted(front(first, shared)).0.len()
}

// How many bytes two texts begin with alike.
fn same_bytes(one: &str, other: &str) -> usize {
    one.bytes()
        .zip(other.bytes())
        .take_while(|(a, b)| a == b)
        .count()
}

/// So many names of folders, as tell most of the paths apart with at most so many folders; one at least.
pub(crate) fn depth_for(alloc: Global, paths: &[&str], most: usize) -> Result<usize, AllocError> {
    let mut depth = 1;
    for deeper in 2..12 {
        if folder_count(alloc, paths, deeper)? <= most {
            depth = deeper;
        }
    }
    Ok(depth)
}

/// How many folders there are, as far as so many of their names.
pub(crate) fn folder_count(
    alloc: Global,
    paths: &[&str],
    depth: usize,
) -> Result<usize, AllocError> {
    let folders = sorted_folders(alloc, paths, depth)?;
    let mut count: usize = 0;
    let mut last = None;
    for folder in &folders {
        if last != Some(*folder) {
            count = count.saturating_add(1);
            last = Some(*folder);
        }
    }
    Ok(count)
}

/// The folder of each path, as far as so many of its names, in their order.
pub(crate) fn sorted_folders<'p>(
    alloc: Global,
    paths: &[&'p str],
    depth: usize,
) -> Result<Vec<&'p str>, AllocError> {
    let mut folders = Vec::new(alloc);
    for path in paths {
        folders.push(folder_in(path, depth))?;
    }
    folders.sort()?;
    Ok(folders)
}

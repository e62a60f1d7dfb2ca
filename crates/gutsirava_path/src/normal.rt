//! Normal paths: no `.`, no empty part, and `..` only in front.
ghost use Rattle.std.specs.Prelude.{◌≡◌, ◌-◌, ◌≤◌, [], true, IfOk, OnOk, fold, length, map, string_bytes, take};
ghost use Rattle.std.specs.List.{join_with_byte};
ghost use Rattle.gutsirava_path.specs.Normal.{IsNormalPath, ends_in_name, first_parts, is_rooted, joined_text, normal_text, parts_of, path_text, step, way_parts};

use std::alloc::{AllocError, Global};

/// The path with no part `.`, no empty part, and `..` only in front of all others; a path that begins with `/` has no
/// `..` at all. The folder that a relative path starts from is the empty text. No link is followed.
pub fn normalize(alloc: Global, path: &str) -> Result<String, AllocError>
    ensures leads_there { IfOk result (λ s. string_bytes s ≡ normal_text path.now) }
    ensures normal { IfOk result (λ s. IsNormalPath (is_rooted path.now) (string_bytes s)) }
    ensures same { IsNormalPath (is_rooted path.now) path.now
        → IfOk result (λ s. string_bytes s ≡ path.now) }
{
    let rooted = is_rooted(path);
    let parts = normal_parts(alloc, rooted, path)?;
    let text = write_path(alloc, rooted, parts.as_slice())?;
    Ok(text)
}

/// The normal path of `path` as it is meant in `folder`: a path that begins with `/` stands for itself.
pub fn join(alloc: Global, folder: &str, path: &str) -> Result<String, AllocError>
    ensures { IfOk result (λ s. string_bytes s ≡ normal_text (joined_text folder.now path.now)) }
{
    if is_rooted(path) || folder.is_empty() {
        return normalize(alloc, path);
    }
    let both = format!(in alloc; "{folder}/{path}")?;
    normalize(alloc, both.as_str())
}

/// The file `path` as a file in `folder` names it: `./x.js` or `../x.js`. Both begin with `/`, or neither.
pub fn relative(alloc: Global, folder: &str, path: &str) -> Result<String, AllocError>
    ensures { is_rooted folder.now ≡ true → is_rooted path.now ≡ true
        → IfOk result (λ s. normal_text (joined_text folder.now (string_bytes s)) ≡ normal_text path.now) }
{
    let from = normal_parts(alloc, is_rooted(folder), folder)?;
    let to = normal_parts(alloc, is_rooted(path), path)?;
    let shared = shared_parts(from.as_slice(), to.as_slice());
    let way = way_parts(alloc, from.len(), shared, to.as_slice())?;
    let text = write_path(alloc, false, way.as_slice())?;
    Ok(text)
}

/// Whether a path begins with `/`.
fn is_rooted(path: &str) -> bool
    ensures { result ≡ is_rooted path.now }
{
    path.starts_with('/')
}

/// How many parts the two have in common, from the front.
fn shared_parts(a: &[&str], b: &[&str]) -> usize
    ensures in_a { result ≤ length a.now }
    ensures in_b { result ≤ length b.now }
    ensures same { take result (map (λ p. p.now) a.now) ≡ take result (map (λ p. p.now) b.now) }
{
    let most = a.len().min(b.len());
    for i in 0..most {
        if a[i] != b[i] {
            return i;
        }
    }
    most
}

/// The parts of the way from a folder of `from` parts to a file, of whose parts the first `shared` are the folder's.
fn way_parts<'a>(
    alloc: Global,
    from: usize,
    shared: usize,
    to: &[&'a str],
) -> Result<Vec<&'a str>, AllocError>
    requires in_from { shared ≤ from }
    requires in_to { shared ≤ length to.now }
    ensures { IfOk result (λ way. map (λ p. p.now) way.items
        ≡ way_parts from shared (map (λ p. p.now) to.now)) }
{
    let mut way = first_parts(alloc, from - shared)?;
    way.extend_from_slice(&to[shared..])?;
    Ok(way)
}

/// `..` for each folder that is left, or `.` where none is.
fn first_parts<'a>(alloc: Global, count: usize) -> Result<Vec<&'a str>, AllocError>
    ensures { IfOk result (λ parts. map (λ p. p.now) parts.items ≡ first_parts count) }
{
    if count == 0 {
        return Ok(vec![in alloc; "."]?);
    }
    let ups = vec![in alloc; ".."; count]?;
    Ok(ups)
}

/// The parts of a path that are left, in order.
fn normal_parts<'a>(alloc: Global, rooted: bool, path: &'a str) -> Result<Vec<&'a str>, AllocError>
    ensures { IfOk result (λ kept. map (λ p. p.now) kept.items
        ≡ fold (step rooted) [] (parts_of path.now)) }
{
    let mut kept = Vec::new(alloc);
    for part in path.split('/') {
        take_part(&mut kept, rooted, part)?;
    }
    Ok(kept)
}

/// Goes one part further.
fn take_part<'a>(kept: &mut Vec<&'a str>, rooted: bool, part: &'a str) -> Result<(), AllocError>
    ensures { OnOk result
        (map (λ p. p.now) kept.new.items ≡ step rooted (map (λ p. p.now) kept.old.items) part.now) }
{
    if part.is_empty() || part == "." {
        return Ok(());
    }
    if part != ".." {
        kept.push(part)?;
        return Ok(());
    }
    if ends_in_name(kept.as_slice()) {
        kept.pop();
        return Ok(());
    }
    if !rooted {
        kept.push(part)?;
    }
    Ok(())
}

/// Whether parts end in a name: there are some, and `..` is not the last.
fn ends_in_name(parts: &[&str]) -> bool
    ensures { result ≡ ends_in_name (map (λ p. p.now) parts.now) }
{
    !parts.is_empty() && parts[parts.len() - 1] != ".."
}

/// The text of parts.
fn write_path(alloc: Global, rooted: bool, parts: &[&str]) -> Result<String, AllocError>
    ensures { IfOk result (λ s. string_bytes s ≡ path_text rooted (map (λ p. p.now) parts.now)) }
{
    let mut text = String::new(alloc);
    if rooted {
        text.push('/')?;
    }
    for (i, part) in parts.iter().enumerate() {
        if i > 0 {
            text.push('/')?;
        }
        text.push_str(part)?;
    }
    Ok(text)
}

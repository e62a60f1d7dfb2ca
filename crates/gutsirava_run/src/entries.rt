//! The files with which bundles begin.
ghost use Rattle.std.specs.Prelude.{◌≡◌, None, IfOk, IsSome, codes, string_bytes};
ghost use Rattle.std.specs.List.{AllZip};
ghost use Rattle.gutsirava_run.specs.Making.{path_from, IsAt, IsNamed};

use crate::error::RunError;
use gutsirava_bundle::BundleEntry;
use gutsirava_path::{extension, file_name, join};
use gutsirava_resolve::FileSystem;
use gutsirava_words::EntryPoint;
use std::alloc::{AllocError, Global};
use std::io;
use std::io::{ErrorKind, Read};

/// The files with which bundles begin, in their order. The standard input is read where it is one of them.
#[tactic(auto, using(crate::proofs::EntryLemmas::named_more))]
pub(crate) fn entries_of<F: FileSystem, I: Read>(
    alloc: Global,
    begins: &[EntryPoint],
    folder: &str,
    files: &F,
    input: &mut I,
) -> Result<Vec<BundleEntry>, RunError>
    ensures { IfOk result (λ entries.
        AllZip (IsNamed F.is_real folder.now) begins.now entries.items) }
{
    let mut entries = Vec::new(alloc);
    for begin in begins {
        let entry = entry_of(alloc, begin, folder, files, input)?;
        entries.push(entry)?;
    }
    Ok(entries)
}

fn entry_of<F: FileSystem, I: Read>(
    alloc: Global,
    begin: &EntryPoint,
    folder: &str,
    files: &F,
    input: &mut I,
) -> Result<BundleEntry, RunError>
    ensures { IfOk result (IsNamed F.is_real folder.now begin.now) }
{
    match begin {
        EntryPoint::Stdin => stdin_entry(alloc, folder, input),
        EntryPoint::File(path) => file_entry(alloc, folder, path.as_str(), files),
    }
}

/// The text of the standard input, as if it lay in the folder.
fn stdin_entry<I: Read>(alloc: Global, folder: &str, input: &mut I) -> Result<BundleEntry, RunError>
    ensures text { IfOk result (λ entry. IsSome entry.text) }
    ensures path { IfOk result (λ entry.
        string_bytes entry.path ≡ path_from folder.now (codes "<stdin>")) }
{
    let mut text = String::new(alloc);
    if let Err(cause) = input.read_to_string(&mut text) {
        return Err(RunError::of_input(cause));
    }
    let name = String::from_str(alloc, "stdin")?;
    let path = join(alloc, folder, "<stdin>")?;
    Ok(BundleEntry {
        name,
        path,
        text: Some(text),
    })
}

/// A file, by its path without links where it has one.
fn file_entry<F: FileSystem>(
    alloc: Global,
    folder: &str,
    path: &str,
    files: &F,
) -> Result<BundleEntry, RunError>
    ensures text { IfOk result (λ entry. entry.text ≡ None) }
    ensures path { IfOk result (λ entry.
        IsAt F.is_real (path_from folder.now path.now) (string_bytes entry.path)) }
{
    let path = join(alloc, folder, path)?;
    let name = String::from_str(alloc, stem_of(path.as_str()))?;
    let path = real_path(alloc, path, files)?;
    Ok(BundleEntry {
        name,
        path,
        text: None,
    })
}

/// A path without links, or the path where that cannot be told.
fn real_path<F: FileSystem>(alloc: Global, path: String, files: &F) -> Result<String, RunError>
    ensures { IfOk result (λ it. IsAt F.is_real (string_bytes path) (string_bytes it)) }
{
    match files.real_path(alloc, path.as_str()) {
        Ok(real) => Ok(real),
        Err(cause) if cause.kind() == ErrorKind::OutOfMemory => Err(RunError::Memory(AllocError)),
        Err(_) => Ok(path),
    }
}

/// The name of a path's file, without its ending.
fn stem_of(path: &str) -> &str {
    let name = file_name(path);
    name.strip_suffix(extension(path)).unwrap_or(name)
}

//! Bundles, written to where they go.
ghost use Rattle.std.specs.Prelude.{◌≡◌, ◌-◌, ◌++◌, flat_map, length, slice_get, map, IfOk, OnOk, OnErr, MatchOption, string_bytes};
ghost use Rattle.std.specs.Io.KnownBytes.{Appends};
ghost use Rattle.gutsirava_maps.specs.Comment.{data_url_of, link_text};
ghost use Rattle.gutsirava_path.specs.Places.{file_name};
ghost use Rattle.gutsirava_run.specs.Delivery.{KeepsAll, delivery_of, ending_of, files_beside, files_for, is_slash, map_path, mapped_files, path_in, path_of, stored_file};
ghost use Rattle.gutsirava_run.specs.Ending.{IsDelivered, IsUnwritten, known, texts_of};

use crate::error::RunError;
use crate::report::plain_error;
use crate::store::{BundleStore, OutputFile};
use gutsirava_bundle::{BundleText, OutputFormat};
use gutsirava_files::OutputError;
use gutsirava_maps::{data_url, linked_comment};
use gutsirava_path::file_name;
use gutsirava_report::Message;
use gutsirava_words::{Destination, SourceMap};
use std::alloc::{AllocError, Global};
use std::io::Write;

/// The files of bundles, in their order, each with that of its source map behind it.
pub(crate) fn files_of(
    alloc: Global,
    output: &Destination,
    format: OutputFormat,
    source_map: SourceMap,
    bundles: Vec<BundleText>,
) -> Result<Vec<OutputFile>, AllocError>
    ensures { IfOk result (λ files. map stored_file files.items
        ≡ flat_map (files_for output.now format source_map) bundles.items) }
{
    let mut files = Vec::new(alloc);
    for bundle in bundles {
        let BundleText {
            name,
            text,
            map,
            ..
        } = bundle;
        let path = path_of(alloc, output, format, name.as_str())?;
        match map {
            None => files.push(OutputFile { path, text })?,
            Some(map) => push_mapped(alloc, &mut files, source_map, path, text, map)?,
        }
    }
    Ok(files)
}

/// Adds the file of a bundle and, where that is another, the one of its map.
fn push_mapped(
    alloc: Global,
    files: &mut Vec<OutputFile>,
    source_map: SourceMap,
    path: String,
    text: String,
    map_text: String,
) -> Result<(), AllocError>
    ensures { OnOk result (map stored_file files.new.items ≡ map stored_file files.old.items
        ++ mapped_files source_map (string_bytes path) (string_bytes text) (string_bytes map_text)) }
{
    match source_map {
        SourceMap::None => files.push(OutputFile { path, text })?,
        SourceMap::Inline => {
            let text = with_map(alloc, text, map_text.as_str())?;
            files.push(OutputFile { path, text })?;
        }
        SourceMap::Linked => {
            let text = with_map_beside(alloc, text, path.as_str())?;
            push_beside(alloc, files, path, text, map_text)?;
        }
        SourceMap::External => push_beside(alloc, files, path, text, map_text)?,
    }
    Ok(())
}

/// Adds the file of a bundle and that of its map.
fn push_beside(
    alloc: Global,
    files: &mut Vec<OutputFile>,
    path: String,
    text: String,
    map_text: String,
) -> Result<(), AllocError>
    ensures { OnOk result (map stored_file files.new.items ≡ map stored_file files.old.items
        ++ files_beside (string_bytes path) (string_bytes text) (string_bytes map_text)) }
{
    let beside = map_path(alloc, path.as_str())?;
    files.push(OutputFile { path, text })?;
    files.push(OutputFile {
        path: beside,
        text: map_text,
    })?;
    Ok(())
}

/// Where the map of a bundle lies.
fn map_path(alloc: Global, path: &str) -> Result<String, AllocError>
    ensures { IfOk result (λ it. string_bytes it ≡ map_path path.now) }
{
    format!(in alloc; "{path}.map")
}

/// A text with its map in a comment behind it.
fn with_map(alloc: Global, text: String, map_text: &str) -> Result<String, AllocError>
    ensures { IfOk result (λ it. string_bytes it
        ≡ string_bytes text ++ link_text (data_url_of map_text.now)) }
{
    let url = data_url(alloc, map_text)?;
    with_link(alloc, text, url.as_str())
}

/// The text of the file at this path, with a comment behind it that leads to the map beside that.
fn with_map_beside(alloc: Global, text: String, path: &str) -> Result<String, AllocError>
    ensures { IfOk result (λ it. string_bytes it
        ≡ string_bytes text ++ link_text (map_path (file_name path.now))) }
{
    let url = map_path(alloc, file_name(path))?;
    with_link(alloc, text, url.as_str())
}

/// A text with the comment that leads to its map behind it.
fn with_link(alloc: Global, text: String, url: &str) -> Result<String, AllocError>
    ensures { IfOk result (λ it. string_bytes it ≡ string_bytes text ++ link_text url.now) }
{
    let mut text = text;
    let comment = linked_comment(alloc, url)?;
    text.push_str(comment.as_str())?;
    Ok(text)
}

/// Where a bundle of this name goes; the empty text where it goes to the standard output.
pub(crate) fn path_of(
    alloc: Global,
    output: &Destination,
    format: OutputFormat,
    name: &str,
) -> Result<String, AllocError>
    ensures { IfOk result (λ path. string_bytes path ≡ path_of output.now format name.now) }
{
    match output {
        Destination::Stdout => Ok(String::new(alloc)),
        Destination::File(path) => path.clone(),
        Destination::Folder(folder) => path_in(alloc, folder.as_str(), name, ending_of(format)),
    }
}

fn ending_of(format: OutputFormat) -> &'static str
    ensures { result.now ≡ ending_of format }
{
    match format {
        OutputFormat::Module => ".mjs",
        OutputFormat::Iife => ".js",
    }
}

/// The path of a file in a folder.
fn path_in(alloc: Global, folder: &str, name: &str, ending: &str) -> Result<String, AllocError>
    ensures { IfOk result (λ path. string_bytes path
        ≡ path_in folder.now (name.now ++ ending.now)) }
{
    if ends_with_slash(folder) {
        return format!(in alloc; "{folder}{name}{ending}");
    }
    format!(in alloc; "{folder}/{name}{ending}")
}

fn ends_with_slash(path: &str) -> bool
    ensures { result ≡ is_slash (slice_get path.now (length path.now - 1)) }
{
    match path.as_bytes().last() {
        None => false,
        Some(byte) => *byte == b'/',
    }
}

/// Writes bundles to where they go. Gives what is to be told where the store refuses them.
#[tactic(auto, using(crate::proofs::KnownLemmas::keeps_all_same, crate::proofs::KnownLemmas::unwritten_kept, crate::proofs::KnownLemmas::prints_of, crate::proofs::KnownLemmas::stores_of, crate::proofs::KnownLemmas::delivered_out, crate::proofs::KnownLemmas::delivered_file, crate::proofs::KnownLemmas::delivered_folder))]
pub(crate) fn deliver<S: BundleStore, O: Write>(
    alloc: Global,
    output: &Destination,
    inputs: &[String],
    files: &[OutputFile],
    store: &mut S,
    printed: &mut O,
) -> Result<Option<Message>, RunError>
    ensures ends { let before = known (O.contents printed.old) (S.stored store.old) in
        let after = known (O.contents printed.new) (S.stored store.new) in
        IfOk result (λ told. MatchOption told
        (IsDelivered output.now (delivery_of inputs.now files.now) before after)
        (λ _. S.may_refuse store.old × IsUnwritten before after)) }
    ensures failed { OnErr result (KeepsAll (S.stored store.old) (S.stored store.new)) }
{
    match output {
        Destination::Stdout => {
            print_files(files, printed)?;
            Ok(None)
        }
        Destination::File(_) | Destination::Folder(_) => match store.store(alloc, inputs, files) {
            Ok(()) => Ok(None),
            Err(OutputError::Memory(error)) => Err(RunError::Memory(error)),
            Err(error) => {
                let text = format!(in alloc; "{error}")?;
                Ok(Some(plain_error(alloc, text)))
            }
        },
    }
}

/// Prints the texts of files, one behind the other.
#[tactic(auto, using(crate::proofs::KnownLemmas::appends_nil, crate::proofs::KnownLemmas::printed_more))]
fn print_files<O: Write>(files: &[OutputFile], printed: &mut O) -> Result<(), RunError>
    ensures { OnOk result (Appends (O.contents printed.old) (O.contents printed.new)
        (texts_of (map stored_file files.now))) }
{
    for file in files {
        print(file.text.as_str(), printed)?;
    }
    Ok(())
}

/// Prints a text.
#[tactic(auto, using(crate::proofs::KnownLemmas::appends_kept))]
pub(crate) fn print<O: Write>(text: &str, printed: &mut O) -> Result<(), RunError>
    ensures { OnOk result (Appends (O.contents printed.old) (O.contents printed.new) text.now) }
{
    if let Err(cause) = printed.write_all(text.as_bytes()) {
        return Err(RunError::Output(cause));
    }
    match printed.flush() {
        Ok(()) => Ok(()),
        Err(cause) => Err(RunError::Output(cause)),
    }
}

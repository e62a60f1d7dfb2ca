//! Bundles, made of what options ask for.
ghost use Rattle.std.specs.Prelude.{IfOk};
ghost use Rattle.gutsirava_run.specs.Making.{IsMade};

use crate::entries::entries_of;
use crate::error::RunError;
use crate::options::{resolution_of, settings_of};
use crate::progress::ProgressLine;
use gutsirava_bundle::{Bundled, bundle_entries};
use gutsirava_resolve::{FileSystem, Resolver};
use gutsirava_words::Options;
use std::alloc::Global;
use std::io::{Read, Write};
use std::rt::Clock;

/// The bundles that the options ask for, or what is wrong.
pub(crate) fn make<F: FileSystem, I: Read, E: Write, C: Clock>(
    alloc: Global,
    options: &Options,
    folder: &str,
    files: &F,
    input: &mut I,
    line: &mut ProgressLine<'_, E, C>,
) -> Result<Bundled, RunError>
    ensures { IfOk result (IsMade F.is_real folder.now options.now) }
{
    let settings = settings_of(alloc, options, folder)?;
    let resolution = resolution_of(alloc, options, folder)?;
    let entries = entries_of(alloc, options.entries.as_slice(), folder, files, input)?;
    let resolver = Resolver::new(alloc, files, resolution);
    let made = bundle_entries(alloc, files, resolver, entries, &settings, line);
    line.clear();
    Ok(made?)
}

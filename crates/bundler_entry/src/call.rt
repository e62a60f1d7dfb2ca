//! What the bundle of an entry is made of.

ghost use Rattle.std.specs.Prelude.{◌≡◌, option_copied, option_map, slice_get};
ghost use Rattle.std.specs.Map.Iter.{deref_pair};
ghost use Rattle.std.specs.Option.{option_and_then};
ghost use Rattle.bundler_entry.specs.Linked.{source_in};

use crate::source::{ReadFile, ReadFiles};
use bundle_link::Reached;
use bundle_tree_names::ModuleId;
use bundle_tree_names::config::Config;
use bundle_tree_names::file_name::FileName;

/// The settings of a bundle, and the order of modules that is asked for beside them.
#[derive(Drop)]
pub struct OrderedConfig {
    pub base: Config,
    /// Whether modules that reach each other too stand in the order in which they are evaluated (ECMA-262,
    /// 16.2.1.5.2), each by itself.
    pub in_standard_order: bool,
}

/// What the bundle of an entry is made of: the files that were read, the settings, and the entry's file.
#[derive(Clone, Copy)]
pub struct EntryCall<'p, 'x> {
    pub program: &'p ReadFiles<'x>,
    pub config: &'p OrderedConfig,
    pub entry: &'p FileName,
}

/// The source of a module, by its number.
pub fn source_at<'t, 'p: 't, 'x>(
    call: &EntryCall<'p, 'x>,
    reached: &Reached,
    which: usize,
) -> Option<&'t ReadFile<'x>>
    ensures { option_copied result ≡ source_in call.now reached.now which }
{
    call.program.sources.get(*reached.places.get(which)?)
}

/// The file of a module, by its number, and that file's number.
pub fn file_at<'p, 'x>(
    call: &EntryCall<'p, 'x>,
    reached: &Reached,
    which: usize,
) -> Option<(&'x FileName, &'x ModuleId)>
    ensures { option_map deref_pair result
        ≡ option_and_then (slice_get call.now.program.now.files.files.now)
        (slice_get reached.now.places.items which) }
{
    let program = call.program;
    let files = program.files.files;
    let (file, id) = files.get(*reached.places.get(which)?)?;
    Some((file, id))
}

//! The option that someone may have meant.

ghost use Rattle.std.specs.Prelude.{◌≡◌, ◌<◌, ◌≤◌, ◌/◌, ◌^◌, IfOk, length, map};
ghost use Rattle.std.specs.Bool.{OnFalse, OnTrue};
ghost use Rattle.std.specs.Option.{option_map};
ghost use Rattle.gutsirava_words.specs.Nearest.{edits, IsAnswer, IsNearestOf};

use std::alloc::{AllocError, Global};
use strsim::osa_distance;

/// All options.
const NAMES: [&str; 25] = [
    "--outfile",
    "--outdir",
    "--format",
    "--global-name",
    "--globals",
    "--external",
    "--platform",
    "--conditions",
    "--main-fields",
    "--order",
    "--root",
    "--charset",
    "--legal-comments",
    "--define-meta",
    "--sourcemap",
    "--sources-content",
    "--metafile",
    "--analyze",
    "--graph",
    "--watch",
    "--log-level",
    "--color",
    "--help",
    "--version",
    "-o",
];

/// The longest word, in bytes, that is compared: longer ones are near to none.
const LONGEST: usize = 40;

/// The option that is the fewest edits away from the name (insertions, deletions, replacements, neighbours that are
/// exchanged), if that are at most a third of its length.
pub fn nearest(alloc: Global, name: &str) -> Result<Option<&'static str>, AllocError>
    ensures { IfOk result (λ it. IsNearestOf name.now (option_map (λ text. text.now) it)) }
{
    if name.len() > LONGEST {
        return Ok(None);
    }
    nearest_of(alloc, name, &NAMES)
}

// The nearest of some options.
fn nearest_of(
    alloc: Global,
    name: &str,
    options: &[&'static str],
) -> Result<Option<&'static str>, AllocError>
    ensures { IfOk result (λ it. IsAnswer name.now (map (λ option. option.now) options.now)
        (option_map (λ option. option.now) it)) }
{
    let mut nearest = None;
    let mut fewest = usize::MAX;
    for option in options {
        let edits = edits_between(alloc, name, option)?;
        if is_closer(edits, fewest, option) {
            nearest = Some(*option);
            fewest = edits;
        }
    }
    Ok(nearest)
}

// Whether so many edits are fewer than those, and at most a third of the option's length.
fn is_closer(edits: usize, fewest: usize, option: &str) -> bool
    ensures closer { OnTrue result ((edits < fewest) × (edits ≤ length option.now / 3)) }
    ensures short { length option.now < 2 ^ 64 }
    ensures farther { OnFalse result (edits ≤ length option.now / 3 → fewest ≤ edits) }
{
    let most = option.len() / 3;
    edits < fewest && edits <= most
}

// How many edits lead from a name to an option.
#[tactic(auto, unfolding(crate::specs::Nearest::edits))]
fn edits_between(alloc: Global, name: &str, option: &str) -> Result<usize, AllocError>
    ensures { IfOk result (λ count. count ≡ edits name.now option.now) }
{
    osa_distance(alloc, name, option)
}

//! The JSON text of a map.

ghost use Rattle.std.specs.Prelude.{◌≡◌, ◌∷◌, [], IfOk, OnOk, codes, decimal, map, string_bytes};
ghost use Rattle.json.specs.Print.{print};
ghost use Rattle.json.specs.Token.{begin_array, begin_object, end_array, end_object, key, number, string};
ghost use Rattle.gutsirava_maps.specs.Text.{array_tokens, content_tokens, map_tokens, Tells};

use crate::mappings::Mappings;
use crate::names::NameList;
use json::Writer;
use std::alloc::{AllocError, Global};

/// A source of a map.
#[derive(Clone, Copy)]
pub struct MapSource<'x> {
    /// Where it lies, from the map on.
    pub path: &'x str,
    pub content: &'x str,
}

/// The JSON text of a map over these sources, with their contents or without (ECMA-426, 9). Refused only for memory.
pub fn map_text(
    alloc: Global,
    sources: &[MapSource<'_>],
    has_contents: bool,
    names: &NameList,
    mappings: &Mappings,
) -> Result<String, AllocError>
    ensures { IfOk result (λ text. string_bytes text ≡ print (map_tokens sources.now has_contents
        (map string_bytes names.now.names.items) (string_bytes mappings.now.text))) }
{
    let mut writer = Writer::new(Vec::new(alloc));
    write_map(&mut writer, sources, has_contents, names, mappings)?;
    match String::from_utf8(writer.into_inner()) {
        Ok(text) => Ok(text),
        Err(_) => Err(AllocError),
    }
}

// Writes a map.
#[tactic(auto, using(std::proofs::lemmas::Grind::common_steps, crate::proofs::TextLemmas::tells_then))]
fn write_map(
    writer: &mut Writer,
    sources: &[MapSource<'_>],
    has_contents: bool,
    names: &NameList,
    mappings: &Mappings,
) -> Result<(), AllocError>
    ensures { OnOk result (Tells writer.old writer.new (map_tokens sources.now has_contents
        (map string_bytes names.now.names.items) (string_bytes mappings.now.text))) }
{
    write_version(writer)?;
    write_paths(writer, sources)?;
    write_contents(writer, sources, has_contents)?;
    write_mappings(writer, mappings.text.as_str())?;
    write_names(writer, names.names.as_slice())?;
    write_end(writer)
}

// Writes what a map begins with.
#[tactic(auto, using(std::proofs::lemmas::Grind::common_steps, crate::proofs::TextLemmas::tells_one, crate::proofs::TextLemmas::tells_more))]
fn write_version(writer: &mut Writer) -> Result<(), AllocError>
    ensures { OnOk result (Tells writer.old writer.new
        (begin_object ∷ key (codes "version") ∷ number (decimal 3) ∷ [])) }
{
    writer.begin_object()?;
    writer.key("version")?;
    writer.u64(3)
}

// Writes the segments.
#[tactic(auto, using(std::proofs::lemmas::Grind::common_steps, crate::proofs::TextLemmas::tells_one, crate::proofs::TextLemmas::tells_more))]
fn write_mappings(writer: &mut Writer, mappings: &str) -> Result<(), AllocError>
    ensures { OnOk result (Tells writer.old writer.new
        (key (codes "mappings") ∷ string mappings.now ∷ [])) }
{
    writer.key("mappings")?;
    writer.string(mappings)
}

// Writes what a map ends with.
#[tactic(auto, using(std::proofs::lemmas::Grind::common_steps, crate::proofs::TextLemmas::tells_one))]
fn write_end(writer: &mut Writer) -> Result<(), AllocError>
    ensures { OnOk result (Tells writer.old writer.new (end_object ∷ [])) }
{
    writer.end_object()
}

// Begins an array under a key.
#[tactic(auto, using(std::proofs::lemmas::Grind::common_steps, crate::proofs::TextLemmas::tells_one, crate::proofs::TextLemmas::tells_more))]
fn begin_array(writer: &mut Writer, name: &str) -> Result<(), AllocError>
    ensures { OnOk result (Tells writer.old writer.new (key name.now ∷ begin_array ∷ [])) }
{
    writer.key(name)?;
    writer.begin_array()
}

// Ends an array.
#[tactic(auto, using(std::proofs::lemmas::Grind::common_steps, crate::proofs::TextLemmas::tells_one))]
fn end_array(writer: &mut Writer) -> Result<(), AllocError>
    ensures { OnOk result (Tells writer.old writer.new (end_array ∷ [])) }
{
    writer.end_array()
}

// Writes a text.
#[tactic(auto, using(std::proofs::lemmas::Grind::common_steps, crate::proofs::TextLemmas::tells_one))]
fn write_text(writer: &mut Writer, text: &str) -> Result<(), AllocError>
    ensures { OnOk result (Tells writer.old writer.new (string text.now ∷ [])) }
{
    writer.string(text)
}

// Writes where the sources lie.
#[tactic(auto, using(std::proofs::lemmas::Grind::common_steps, crate::proofs::TextLemmas::tells_then))]
fn write_paths(writer: &mut Writer, sources: &[MapSource<'_>]) -> Result<(), AllocError>
    ensures { OnOk result (Tells writer.old writer.new
        (array_tokens (codes "sources") (map (λ source. source.path.now) sources.now))) }
{
    begin_array(writer, "sources")?;
    push_paths(writer, sources)?;
    end_array(writer)
}

#[tactic(auto, using(std::proofs::lemmas::Grind::common_steps, crate::proofs::TextLemmas::tells_none, crate::proofs::TextLemmas::tells_then))]
fn push_paths(writer: &mut Writer, sources: &[MapSource<'_>]) -> Result<(), AllocError>
    ensures { OnOk result (Tells writer.old writer.new
        (map string (map (λ source. source.path.now) sources.now))) }
{
    for source in sources {
        write_text(writer, source.path)?;
    }
    Ok(())
}

// Writes the sources, where that is asked for.
#[tactic(auto, using(std::proofs::lemmas::Grind::common_steps, crate::proofs::TextLemmas::tells_none, crate::proofs::TextLemmas::tells_then))]
fn write_contents(
    writer: &mut Writer,
    sources: &[MapSource<'_>],
    has_contents: bool,
) -> Result<(), AllocError>
    ensures { OnOk result (Tells writer.old writer.new
        (content_tokens has_contents sources.now)) }
{
    if !has_contents {
        return Ok(());
    }
    begin_array(writer, "sourcesContent")?;
    push_contents(writer, sources)?;
    end_array(writer)
}

#[tactic(auto, using(std::proofs::lemmas::Grind::common_steps, crate::proofs::TextLemmas::tells_none, crate::proofs::TextLemmas::tells_then))]
fn push_contents(writer: &mut Writer, sources: &[MapSource<'_>]) -> Result<(), AllocError>
    ensures { OnOk result (Tells writer.old writer.new
        (map string (map (λ source. source.content.now) sources.now))) }
{
    for source in sources {
        write_text(writer, source.content)?;
    }
    Ok(())
}

// Writes names.
#[tactic(auto, using(std::proofs::lemmas::Grind::common_steps, crate::proofs::TextLemmas::tells_then))]
fn write_names(writer: &mut Writer, names: &[String]) -> Result<(), AllocError>
    ensures { OnOk result (Tells writer.old writer.new
        (array_tokens (codes "names") (map string_bytes names.now))) }
{
    begin_array(writer, "names")?;
    push_names(writer, names)?;
    end_array(writer)
}

#[tactic(auto, using(std::proofs::lemmas::Grind::common_steps, crate::proofs::TextLemmas::tells_none, crate::proofs::TextLemmas::tells_then))]
fn push_names(writer: &mut Writer, names: &[String]) -> Result<(), AllocError>
    ensures { OnOk result (Tells writer.old writer.new (map string (map string_bytes names.now))) }
{
    for name in names {
        write_text(writer, name.as_str())?;
    }
    Ok(())
}

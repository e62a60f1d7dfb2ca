//! The text in which a map says what comes from where.

ghost use Rattle.std.specs.Prelude.{◌≡◌, ◌++◌, ◌∷◌, [], Some, OnOk, replicate, string_bytes};
ghost use Rattle.gutsirava_maps.specs.Mapping.{base_column, is_before, last_behind, name_behind, name_fields, origin_fields, place_fields, separators};
ghost use Rattle.gutsirava_maps.specs.Vlq.{difference, Writes};

use crate::place::LineColumn;
use crate::vlq::{difference_of, push_number};
use std::alloc::{AllocError, Global};

/// A place of a source: the number of the source among those of the map, the place in its text, and the number of the
/// name that stands there, where it is not the one that stands in the generated text.
#[derive(Clone, Copy)]
pub struct MapOrigin {
    pub source: u32,
    pub place: LineColumn,
    pub name: Option<u32>,
}

/// What the segments so far end with.
#[derive(Clone, Copy)]
pub struct LastSegment {
    /// The place in the generated text.
    pub place: LineColumn,
    /// Whether a segment stands for its line.
    pub has_segment: bool,
    /// The last source, the last place of one, and the last name.
    pub source: u32,
    pub from: LineColumn,
    pub name: u32,
}

/// Segments, which ascend by their places in the generated text.
#[derive(Drop)]
pub struct Mappings {
    pub text: String,
    pub last: LastSegment,
}

impl Mappings {
    ghost use Rattle.std.specs.Prelude.{◌≡◌, false, true, [], OnOk, string_bytes};
    ghost use Rattle.gutsirava_maps.specs.Mapping.{first_segment, is_before, IsAdded};

    /// No segments.
    pub fn new(alloc: Global) -> Mappings
        ensures text { string_bytes result.text ≡ [] }
        ensures last { result.last ≡ first_segment }
    {
        let begin = LineColumn { line: 0, column: 0 };
        Mappings {
            text: String::new(alloc),
            last: LastSegment {
                place: begin,
                has_segment: false,
                source: 0,
                from: begin,
                name: 0,
            },
        }
    }

    /// Adds that what stands from a place of the generated text on comes from there, or from no source. One that is
    /// before the last place is passed over. Refused only for memory.
    pub fn add(&mut self, place: LineColumn, origin: Option<MapOrigin>) -> Result<(), AllocError>
        ensures passed { is_before place self.old.last.place ≡ true → self.new ≡ self.old }
        ensures added { is_before place self.old.last.place ≡ false
            → OnOk result (IsAdded self.old self.new place origin) }
    {
        if is_before(place, self.last.place) {
            return Ok(());
        }
        let last = self.last;
        push_separators(&mut self.text, last, place.line)?;
        push_segment(&mut self.text, last, place, origin)?;
        self.last = last_behind(last, place, origin);
        Ok(())
    }
}

// Whether a place is before another.
fn is_before(one: LineColumn, other: LineColumn) -> bool
    ensures { result ≡ is_before one other }
{
    one.line < other.line || one.line == other.line && one.column < other.column
}

// Puts down what stands before a segment of a line.
fn push_separators(text: &mut String, last: LastSegment, line: u32) -> Result<(), AllocError>
    ensures { OnOk result (string_bytes text.new ≡ string_bytes text.old ++ separators last line) }
{
    if last.place.line < line {
        push_ends(text, line - last.place.line)
    } else if last.has_segment {
        text.push(',')
    } else {
        Ok(())
    }
}

// Puts down the ends of so many lines.
fn push_ends(text: &mut String, count: u32) -> Result<(), AllocError>
    ensures { OnOk result (string_bytes text.new ≡ string_bytes text.old ++ replicate count 59) }
{
    let mut ended = 0;
    while ended < count {
        text.push(';')?;
        ended += 1;
    }
    Ok(())
}

// Puts down the numbers of a segment.
#[tactic(auto, using(std::proofs::lemmas::Grind::common_steps, crate::proofs::MappingLemmas::writes_then, crate::proofs::MappingLemmas::writes_fields))]
fn push_segment(
    text: &mut String,
    last: LastSegment,
    place: LineColumn,
    origin: Option<MapOrigin>,
) -> Result<(), AllocError>
    ensures { OnOk result (Writes (string_bytes text.old) (string_bytes text.new)
        (difference (base_column last place.line) place.column ∷ origin_fields last origin)) }
{
    let column = base_column(last, place.line);
    push_number(text, difference_of(column, place.column))?;
    push_origin(text, last, origin)
}

// The column that the next segment of a line is counted from.
fn base_column(last: LastSegment, line: u32) -> u32
    ensures { result ≡ base_column last line }
{
    if last.place.line < line {
        0
    } else {
        last.place.column
    }
}

// Puts down the numbers for a place of a source.
#[tactic(auto, using(std::proofs::lemmas::Grind::common_steps, crate::proofs::MappingLemmas::writes_none))]
fn push_origin(
    text: &mut String,
    last: LastSegment,
    origin: Option<MapOrigin>,
) -> Result<(), AllocError>
    ensures { OnOk result (Writes (string_bytes text.old) (string_bytes text.new)
        (origin_fields last origin)) }
{
    match origin {
        Some(origin) => push_source(text, last, origin),
        None => Ok(()),
    }
}

// Puts down the numbers for a place of this source.
#[tactic(auto, using(std::proofs::lemmas::Grind::common_steps, crate::proofs::MappingLemmas::writes_fields))]
fn push_source(text: &mut String, last: LastSegment, origin: MapOrigin) -> Result<(), AllocError>
    ensures { OnOk result (Writes (string_bytes text.old) (string_bytes text.new)
        (origin_fields last (Some origin))) }
{
    push_number(text, difference_of(last.source, origin.source))?;
    push_named_place(text, last, origin)
}

// Puts down the numbers for a line, a column and a name.
#[tactic(auto, using(std::proofs::lemmas::Grind::common_steps, crate::proofs::MappingLemmas::writes_then))]
fn push_named_place(
    text: &mut String,
    last: LastSegment,
    origin: MapOrigin,
) -> Result<(), AllocError>
    ensures { OnOk result (Writes (string_bytes text.old) (string_bytes text.new)
        (place_fields last.from origin.place ++ name_fields last.name origin.name)) }
{
    push_place(text, last.from, origin.place)?;
    push_name(text, last.name, origin.name)
}

// Puts down the numbers for a line and a column.
#[tactic(auto, using(std::proofs::lemmas::Grind::common_steps, crate::proofs::MappingLemmas::writes_fields))]
fn push_place(text: &mut String, from: LineColumn, to: LineColumn) -> Result<(), AllocError>
    ensures { OnOk result (Writes (string_bytes text.old) (string_bytes text.new)
        (place_fields from to)) }
{
    push_number(text, difference_of(from.line, to.line))?;
    push_number(text, difference_of(from.column, to.column))
}

// Puts down the number for a name.
#[tactic(auto, using(std::proofs::lemmas::Grind::common_steps, crate::proofs::MappingLemmas::writes_none))]
fn push_name(text: &mut String, last: u32, name: Option<u32>) -> Result<(), AllocError>
    ensures { OnOk result (Writes (string_bytes text.old) (string_bytes text.new)
        (name_fields last name)) }
{
    match name {
        Some(name) => push_number(text, difference_of(last, name)),
        None => Ok(()),
    }
}

// What the segments end with behind one more.
fn last_behind(last: LastSegment, place: LineColumn, origin: Option<MapOrigin>) -> LastSegment
    ensures { result ≡ last_behind last place origin }
{
    let Some(origin) = origin else {
        return LastSegment {
            place,
            has_segment: true,
            ..last
        };
    };
    LastSegment {
        place,
        has_segment: true,
        source: origin.source,
        from: origin.place,
        name: name_behind(last.name, origin.name),
    }
}

// The name that the next one is counted from.
fn name_behind(last: u32, name: Option<u32>) -> u32
    ensures { result ≡ name_behind last name }
{
    match name {
        Some(name) => name,
        None => last,
    }
}

//! Keys with `*`.
ghost use Rattle.std.specs.Prelude.{◌≡◌, ◌≤◌, ◌<◌, ℕ, Bool, Contains, List, [], None, IfOk, IfSome, MatchOption, OnOk, Some, length, option_map, slice_get, true};
ghost use Rattle.gutsirava_package.specs.Keys.{IsExtended, IsPlaceOf};
ghost use Rattle.gutsirava_package.specs.Lengths.{AllStay, HasAt, HasLengths, IsNoted, Stays};
ghost use Rattle.gutsirava_package.specs.Patterns.{Fits, FitsNowhere, IsAt, IsBest, IsHitBy, IsLongest, NoneBy, NoneFits, longer, parts, starred};

use crate::keys::KeyTable;
use std::alloc::{AllocError, Global};
use std::marker::Model;

/// The keys of `exports` or `imports`. Clauses see the list of their texts.
///
/// A key with one `*` is a pattern. A text is looked up at the lengths that stand before a `*`, from the longest on, and
/// there at the lengths that stand behind it: not pattern by pattern.
#[derive(Drop)]
pub(crate) struct EntryKeys {
    keys: KeyTable,
    patterns: PatternLengths,
}

impl Model for EntryKeys {
    ghost use Rattle.std.specs.Prelude.{ℕ, List};

    ghost Value = { List (List ℕ) };

    ghost use Rattle.gutsirava_package.specs.Lengths.{AreNoted};

    ghost view = { λ entries. entries.keys };

    ghost invariant = { λ entries. AreNoted entries.keys entries.patterns };
}

/// How long the parts of patterns are.
#[derive(Drop)]
struct PatternLengths {
    /// Whether a pattern has so many bytes before its `*`.
    marks: Vec<bool>,
    /// What stands before the `*` of a pattern.
    bases: KeyTable,
    /// For each of these, how many bytes its patterns have behind their `*`, in order.
    trailers: Vec<Vec<usize>>,
}

/// A key that fits, by its place and its length, and the text that its `*` stands for.
#[derive(Clone, Copy)]
pub(crate) struct PatternMatch<'s> {
    pub(crate) place: usize,
    size: usize,
    pub(crate) star: &'s str,
}

impl EntryKeys {
    /// No keys. It takes no memory.
    pub(crate) fn new(alloc: Global) -> EntryKeys
        ensures { result ≡ [] }
    {
        EntryKeys {
            keys: KeyTable::new(alloc),
            patterns: PatternLengths {
                marks: Vec::new(alloc),
                bases: KeyTable::new(alloc),
                trailers: Vec::new(alloc),
            },
        }
    }

    /// The place of a key.
    pub(crate) fn place(&self, key: &str) -> Option<usize>
        ensures { IsPlaceOf self.now key.now result }
    {
        self.keys.place(key.as_bytes())
    }

    /// The key at a place.
    pub(crate) fn key(&self, place: usize) -> Option<&str>
        ensures { option_map (λ key. key.now) result
            ≡ slice_get self.now place }
    {
        self.keys.key(place)
    }

    /// The place of a key, which goes last where it is not there.
    pub(crate) fn add(&mut self, alloc: Global, key: &str) -> Result<usize, AllocError>
        ensures place { IfOk result (λ at. IsPlaceOf self.new key.now (Some at)) }
        ensures keys { IsExtended self.old key.now self.new }
    {
        self.patterns.note(alloc, key)?;
        self.keys.add(alloc, key)
    }

    /// The key that fits a text best: the one with the longest text before its `*`, and of those the longest.
    pub(crate) fn best_pattern<'s>(
        &self,
        alloc: Global,
        text: &'s str,
    ) -> Result<Option<PatternMatch<'s>>, AllocError>
        ensures { IfOk result (λ best. MatchOption best
            (NoneFits self.now text.now)
            (λ found. IsBest self.now text.now found)) }
    {
        let count = self.patterns.marks.len().min(text.len());
        for tried in 0..count {
            let base = count - tried - 1;
            if self.patterns.marks[base] {
                let found = self.longest_pattern(alloc, text, base)?;
                if found.is_some() {
                    return Ok(found);
                }
            }
        }
        Ok(None)
    }

    /// The longest key that fits a text with so many bytes before its `*`.
    fn longest_pattern<'s>(
        &self,
        alloc: Global,
        text: &'s str,
        base: usize,
    ) -> Result<Option<PatternMatch<'s>>, AllocError>
        requires { base ≤ length text.now }
        ensures { IfOk result (λ longest. MatchOption longest
            ((trailer : ℕ) → NoneBy self.now text.now base trailer)
            (λ found. IsLongest self.now text.now base found)) }
    {
        let mut longest: Option<PatternMatch<'s>> = None;
        for trailer in self.patterns.trailers_of(&text.as_bytes()[..base]) {
            let found = self.pattern_of(alloc, text, base, *trailer)?;
            longest = longer(longest, found);
        }
        Ok(longest)
    }

    /// The key that fits a text with so many bytes before and behind its `*`.
    fn pattern_of<'s>(
        &self,
        alloc: Global,
        text: &'s str,
        base: usize,
        trailer: usize,
    ) -> Result<Option<PatternMatch<'s>>, AllocError>
        requires { base ≤ length text.now }
        ensures { IfOk result (λ it. MatchOption it
            (NoneBy self.now text.now base trailer)
            (λ found. IsHitBy self.now text.now base trailer found)) }
    {
        let key = starred(alloc, text.as_bytes(), base, trailer)?;
        match self.keys.place(key.as_slice()) {
            Some(place) => Ok(self.match_at(text, place)),
            None => Ok(None),
        }
    }

    /// The key at a place, where it fits a text.
    fn match_at<'s>(&self, text: &'s str, place: usize) -> Option<PatternMatch<'s>>
        ensures { (key : List ℕ) → slice_get self.now place ≡ Some key
            → MatchOption result (FitsNowhere key text.now) (IsAt key text.now place) }
    {
        let key = self.keys.key(place)?;
        match star_text(key, text) {
            Some(star) => Some(PatternMatch {
                place,
                size: key.len(),
                star,
            }),
            None => None,
        }
    }
}

impl PatternLengths {
    /// Notes how long the parts of a key are, if it is a pattern.
    fn note(&mut self, alloc: Global, key: &str) -> Result<(), AllocError>
        ensures noted { OnOk result (IsNoted key.now self.new) }
        ensures stay { Stays self.old self.new }
    {
        match pattern_parts(key) {
            Some((base, trailer)) => {
                self.add(alloc, base, trailer.len())?;
                Ok(())
            }
            None => Ok(()),
        }
    }

    /// Notes that a pattern has this before its `*`, and so many bytes behind it.
    fn add(&mut self, alloc: Global, base: &str, trailer: usize) -> Result<(), AllocError>
        ensures noted { OnOk result (HasLengths self.new base.now trailer) }
        ensures stay { Stays self.old self.new }
    {
        mark(&mut self.marks, base.len())?;
        let place = self.bases.add(alloc, base)?;
        make_lists(alloc, &mut self.trailers, place)?;
        add_length_at(&mut self.trailers, place, trailer)?;
        Ok(())
    }

    /// How many bytes patterns have behind their `*` where this stands before it.
    fn trailers_of(&self, base: &[u8]) -> &[usize]
        ensures { (its : ℕ) → HasLengths self.now base.now its → Contains result.now its }
    {
        let Some(place) = self.bases.place(base) else {
            return &[];
        };
        match self.trailers.get(place) {
            Some(lengths) => lengths.as_slice(),
            None => &[],
        }
    }
}

/// Marks a place, of as many as it takes.
fn mark(marks: &mut Vec<bool>, place: usize) -> Result<(), AllocError>
    ensures marked { OnOk result (slice_get marks.new.items place ≡ Some true) }
    ensures stay { (at : ℕ) → slice_get marks.old.items at ≡ Some true
        → slice_get marks.new.items at ≡ Some true }
{
    make_marks(marks, place)?;
    marks[place] = true;
    Ok(())
}

/// Puts marks last until there is one at a place.
fn make_marks(marks: &mut Vec<bool>, place: usize) -> Result<(), AllocError>
    ensures there { OnOk result (place < length marks.new.items) }
    ensures stay { (at : ℕ) (mark : Bool) → slice_get marks.old.items at ≡ Some mark
        → slice_get marks.new.items at ≡ Some mark }
{
    let missing = place.saturating_add(1).saturating_sub(marks.len());
    for _ in 0..missing {
        marks.push(false)?;
    }
    Ok(())
}

/// Puts empty lists last until there is one at a place.
fn make_lists(alloc: Global, lists: &mut Vec<Vec<usize>>, place: usize) -> Result<(), AllocError>
    ensures there { OnOk result (place < length lists.new.items) }
    ensures stay { AllStay lists.old.items lists.new.items }
{
    let missing = place.saturating_add(1).saturating_sub(lists.len());
    for _ in 0..missing {
        lists.push(Vec::new(alloc))?;
    }
    Ok(())
}

/// Puts a length among those at a place, unless it is there.
fn add_length_at(lists: &mut Vec<Vec<usize>>, place: usize, size: usize) -> Result<(), AllocError>
    requires { place < length lists.old.items }
    ensures has { OnOk result (HasAt lists.new.items place size) }
    ensures stay { AllStay lists.old.items lists.new.items }
{
    add_length(&mut lists[place], size)?;
    Ok(())
}

/// Puts a length among lengths in order, unless it is there.
fn add_length(lengths: &mut Vec<usize>, length: usize) -> Result<(), AllocError>
    ensures has { OnOk result (Contains lengths.new.items length) }
    ensures stay { (own : ℕ) → Contains lengths.old.items own → Contains lengths.new.items own }
{
    match lengths.binary_search(&length) {
        Ok(_) => {}
        Err(place) => lengths.insert(place, length)?,
    }
    Ok(())
}

/// The longer of two keys that fit.
fn longer<'s>(
    first: Option<PatternMatch<'s>>,
    second: Option<PatternMatch<'s>>,
) -> Option<PatternMatch<'s>>
    ensures { result ≡ longer first.entry second.entry }
{
    match (first, second) {
        (Some(one), Some(other)) if one.size > other.size => first,
        (_, Some(_)) => second,
        (_, None) => first,
    }
}

/// A text with `*` in place of what lies behind so many bytes and before so many.
fn starred(alloc: Global, text: &[u8], base: usize, trailer: usize) -> Result<Vec<u8>, AllocError>
    requires { base ≤ length text.now }
    ensures { IfOk result (λ key. key.items ≡ starred text.now base trailer) }
{
    let behind = text.len().saturating_sub(trailer);
    let mut key = Vec::new(alloc);
    key.extend_from_slice(&text[..base])?;
    key.push(b'*')?;
    key.extend_from_slice(&text[behind..])?;
    Ok(key)
}

/// What stands before and behind the one `*` of a key that has one.
fn pattern_parts(key: &str) -> Option<(&str, &str)>
    ensures { option_map (λ its. (its.0.now, its.1.now)) result ≡ parts key.now }
{
    match key.split_once('*') {
        Some((base, trailer)) => {
            let is_pattern = !trailer.as_bytes().contains(&b'*');
            is_pattern.then_some((base, trailer))
        }
        None => None,
    }
}

/// What the one `*` of a key stands for, where the key fits: at least one byte.
fn star_text<'s>(key: &str, text: &'s str) -> Option<&'s str>
    ensures fits { IfSome result (λ star. Fits key.now star.now text.now) }
    ensures only { result ≡ None → FitsNowhere key.now text.now }
{
    let (base, trailer) = pattern_parts(key)?;
    let rest = text.strip_prefix(base)?;
    let star = rest.strip_suffix(trailer)?;
    if star.is_empty() { None } else { Some(star) }
}

//! Modules that import each other in a circle.

ghost use Rattle.std.specs.Prelude.{◌≡◌, ◌<◌, ◌++◌, ◌⊎◌, [], ◌∷◌, length, slice_index, IfOk, IfSome, OnOk};
ghost use Rattle.std.specs.List.{All};
ghost use Rattle.gutsirava_graph.specs.Circle.{ClosesPath, IsCircleOf, IsImportAt, IsWalk};

use crate::teller::Teller;
use crate::unit::BundleUnit;
use gutsirava_sources::{RequestForm, SourceKind};
use std::alloc::{AllocError, Global};
use std::collections::BTreeSet;

/// So many circles are told.
const MOST_CIRCLES: usize = 10;

/// How far a module has been gone through.
#[derive(Clone, Copy, PartialEq, Eq)]
enum SearchState {
    New,
    /// It is one of those that lead to the module at hand.
    Open,
    Done,
}

/// Goes through modules, a module behind all that it imports.
#[derive(Drop)]
struct CycleSearch {
    states: Vec<SearchState>,
    /// For each module the number of its next link.
    next: Vec<usize>,
    /// The modules from an entry to the one at hand.
    path: Vec<usize>,
    circles: Vec<Vec<usize>>,
    /// The modules at which a circle was found, each with the one that leads back to it.
    found: BTreeSet<(usize, usize)>,
}

impl Teller<'_> {
    /// Tells each circle of imports once: of each link that leads back, the modules between.
    pub(crate) fn tell_circles(
        &mut self,
        units: &[BundleUnit],
        entries: &[usize],
    ) -> Result<(), AllocError>
        ensures same { self.new.messages.errors ≡ self.old.messages.errors }
    {
        let circles = circles_of(self.alloc, units, entries)?;
        for circle in circles.iter().take(MOST_CIRCLES) {
            self.tell_circle(units, circle.as_slice())?;
        }
        if circles.len() > MOST_CIRCLES {
            let more = circles.len().saturating_sub(MOST_CIRCLES);
            let told = format!(in self.alloc; "{more} more circular imports")?;
            self.messages.warning(self.alloc, told, None)?;
        }
        Ok(())
    }

    fn tell_circle(&mut self, units: &[BundleUnit], circle: &[usize]) -> Result<(), AllocError>
        ensures same { self.new.messages.errors ≡ self.old.messages.errors }
    {
        let text = self.circle_text(units, circle)?;
        self.messages.warning(self.alloc, text, None)
    }

    // A circle as it is told.
    fn circle_text(&self, units: &[BundleUnit], circle: &[usize]) -> Result<String, AllocError> {
        let mut text = String::from_str(self.alloc, "circular: ")?;
        for (number, unit) in circle.iter().enumerate() {
            if number > 0 {
                text.push_str(" -> ")?;
            }
            text.push_str(self.told_path(units, *unit)?.as_str())?;
        }
        Ok(text)
    }
}

// The circles that are met on the way from the entries, each but once. Each begins and ends with the same module.
#[tactic(auto, using(std::proofs::lemmas::Grind::common_steps, crate::proofs::CircleLemmas::walk_begun, crate::proofs::CircleLemmas::circles_kept))]
fn circles_of(
    alloc: Global,
    units: &[BundleUnit],
    entries: &[usize],
) -> Result<Vec<Vec<usize>>, AllocError>
    ensures { IfOk result (λ circles. All (IsCircleOf units.now) circles.items) }
{
    let mut search = CycleSearch::new(alloc, units.len())?;
    for entry in entries {
        search.begin(*entry)?;
        search.go_through(alloc, units)?;
    }
    Ok(search.circles)
}

impl CycleSearch {
    // A search that has met none of so many modules.
    fn new(alloc: Global, count: usize) -> Result<CycleSearch, AllocError>
        ensures { IfOk result (λ search. search.circles.items ≡ []) }
    {
        let mut states = Vec::with_capacity(alloc, count)?;
        let mut next = Vec::with_capacity(alloc, count)?;
        for _ in 0..count {
            states.push(SearchState::New)?;
            next.push(0)?;
        }
        Ok(CycleSearch {
            states,
            next,
            path: Vec::new(alloc),
            circles: Vec::new(alloc),
            found: BTreeSet::new(alloc),
        })
    }

    // Begins with an entry, where it was not met.
    fn begin(&mut self, entry: usize) -> Result<(), AllocError>
        ensures path { (self.new.path.items ≡ []) ⊎ (self.new.path.items ≡ entry ∷ []) }
        ensures circles { self.new.circles.items ≡ self.old.circles.items }
    {
        self.path.clear();
        if self.states.get(entry).copied() == Some(SearchState::New) {
            self.path.push(entry)?;
            mark(self.states.as_mut_slice(), entry, SearchState::Open);
        }
        Ok(())
    }

    // Follows all links of the module at hand, and of those behind it. Each link is followed once.
    #[tactic(auto, using(std::proofs::lemmas::Grind::common_steps, crate::proofs::CircleLemmas::walk_popped, crate::proofs::CircleLemmas::circles_kept))]
    fn go_through(&mut self, alloc: Global, units: &[BundleUnit]) -> Result<(), AllocError>
        requires walk { IsWalk units.now self.old.path.items }
        requires circles { All (IsCircleOf units.now) self.old.circles.items }
        ensures { OnOk result (All (IsCircleOf units.now) self.new.circles.items) }
    {
        for _ in 0..usize::MAX {
            let Some(unit) = self.path.pop() else {
                break;
            };
            self.go_on(alloc, units, unit)?;
        }
        Ok(())
    }

    // Follows the next link of the module behind the path, or leaves it where it has no more.
    #[tactic(auto, using(std::proofs::lemmas::Grind::common_steps, crate::proofs::CircleLemmas::walk_left, crate::proofs::CircleLemmas::walk_kept, crate::proofs::CircleLemmas::walk_on, crate::proofs::CircleLemmas::circles_kept))]
    fn go_on(&mut self, alloc: Global, units: &[BundleUnit], unit: usize) -> Result<(), AllocError>
        requires walk { IsWalk units.now (self.old.path.items ++ unit ∷ []) }
        requires circles { All (IsCircleOf units.now) self.old.circles.items }
        ensures walk { OnOk result (IsWalk units.now self.new.path.items) }
        ensures circles { OnOk result (All (IsCircleOf units.now) self.new.circles.items) }
    {
        let number = self.next.get(unit).copied().unwrap_or(usize::MAX);
        let Some(import) = import_at(units, unit, number) else {
            mark(self.states.as_mut_slice(), unit, SearchState::Done);
            return Ok(());
        };
        advance(self.next.as_mut_slice(), unit);
        self.path.push(unit)?;
        let Some(target) = import else {
            return Ok(());
        };
        match self.states.get(target).copied() {
            Some(SearchState::New) => {
                mark(self.states.as_mut_slice(), target, SearchState::Open);
                self.path.push(target)?;
            }
            Some(SearchState::Open) => {
                if self.found.insert((unit, target))?
                    && let Some(circle) = circle_at(alloc, self.path.as_slice(), target)?
                {
                    self.circles.push(circle)?;
                }
            }
            Some(SearchState::Done) | None => {}
        }
        Ok(())
    }
}

fn mark(states: &mut [SearchState], unit: usize, state: SearchState) {
    if let Some(slot) = states.get_mut(unit) {
        *slot = state;
    }
}

fn advance(next: &mut [usize], unit: usize) {
    if let Some(number) = next.get_mut(unit) {
        *number = number.saturating_add(1);
    }
}

// The ECMAScript module that a module imports by the link of this number; no link, or none that imports one, is told apart.
fn import_at(units: &[BundleUnit], unit: usize, number: usize) -> Option<Option<usize>>
    ensures { IfSome result (λ import. IfSome import (IsImportAt units.now unit number)) }
{
    let link = units.get(unit)?.links.get(number)?;
    match link.asking {
        RequestForm::Import => match link.target {
            Some(target) if is_module(units, target) => Some(Some(target)),
            _ => Some(None),
        },
        RequestForm::Require | RequestForm::Dynamic => Some(None),
    }
}

fn is_module(units: &[BundleUnit], unit: usize) -> bool {
    match units.get(unit) {
        Some(unit) => unit.kind == SourceKind::EcmaScript,
        None => false,
    }
}

// What of a path lies behind a module of it, from that on, and the module again.
fn circle_at(alloc: Global, path: &[usize], target: usize) -> Result<Option<Vec<usize>>, AllocError>
    ensures { IfOk result (λ found. IfSome found
        (λ circle. ClosesPath path.now target circle.items)) }
{
    let Some(at) = place_of(path, target) else {
        return Ok(None);
    };
    let mut circle = Vec::new(alloc);
    circle.extend_from_slice(&path[at..])?;
    circle.push(target)?;
    Ok(Some(circle))
}

// The first place of a module in a path.
fn place_of(path: &[usize], unit: usize) -> Option<usize>
    ensures { IfSome result (λ at. (at < length path.now) × (slice_index path.now at ≡ unit)) }
{
    for (at, met) in path.iter().enumerate() {
        if *met == unit {
            return Some(at);
        }
    }
    None
}

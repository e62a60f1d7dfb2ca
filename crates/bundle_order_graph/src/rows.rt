//! Which positions each position reaches, one bit for each pair.

ghost use Rattle.std.specs.Prelude.{◌≡◌, ◌≢◌, ℕ, ◌+◌, ◌/◌, ◌<◌, ◌≤◌, ◌⊎◌, ◌↔◌, max, [], ◌∷◌, ◌++◌, length, IsTrue, MatchBool, OnOk, OnErr};
ghost use Rattle.bundle_order_graph.specs.Bits.{Has, SameRow, row_room, row_at, HasBit, SameRows, room, Gains, IsWideFor, Absorbs, Joins, IsTransitive};

use std::alloc::{AllocError, Global};
use std::marker::Model;
use std::mem;

/// A set of positions: position `p` is bit `p % 64` of word `p / 64`, and words that are missing
/// are 0.
#[derive(Drop)]
pub(crate) struct Row {
    words: Vec<u64>,
}

impl Model for Row {
    ghost use Rattle.std.specs.Prelude.{ℕ, List};

    ghost Value = { List ℕ };

    ghost view = { λ r. r.words.items };
}

impl Row {
    /// The empty set.
    pub(crate) fn new(alloc: Global) -> Row
        ensures { result ≡ [] }
    {
        Row {
            words: Vec::new(alloc),
        }
    }

    /// Whether a position is in the set.
    pub(crate) fn has(&self, position: usize) -> bool
        ensures { IsTrue result ↔ Has self.now position }
    {
        match self.words.get(position / 64) {
            Some(word) => (*word >> (position % 64)) & 1 == 1,
            None => false,
        }
    }

    /// The number of words.
    pub(crate) fn width(&self) -> usize
        ensures { result ≡ length self.now }
    {
        self.words.len()
    }

    /// Makes the row at least as many words long, and leaves the set as it is.
    pub(crate) fn widen(&mut self, width: usize) -> Result<(), AllocError>
        ensures same { SameRow self.old self.new }
        ensures ok { OnOk result (length self.new ≡ max (length self.old) width) }
        ensures err { OnErr result (self.new ≡ self.old) }
    {
        if self.words.len() < width {
            self.words.resize(width, 0)?;
        }
        Ok(())
    }

    /// Adds a position, and tells whether it is new.
    pub(crate) fn insert(&mut self, position: usize) -> bool
        requires { position / 64 < length self.old }
        ensures len { length self.new ≡ length self.old }
        ensures added { (p : ℕ) → Has self.new p ↔ (Has self.old p ⊎ (p ≡ position)) }
        ensures grown { MatchBool result (row_room self.new < row_room self.old)
            (self.new ≡ self.old) }
    {
        let at = position / 64;
        let word = self.words[at];
        let merged = word | (1 << (position % 64));
        self.words[at] = merged;
        merged != word
    }

    /// Adds the positions of another set, and tells whether one of them is new.
    pub(crate) fn union(&mut self, others: &Row) -> bool
        requires { length others.now ≤ length self.old }
        ensures len { length self.new ≡ length self.old }
        ensures added { (p : ℕ) → Has self.new p ↔ (Has self.old p ⊎ Has others.now p) }
        ensures grown { MatchBool result (row_room self.new < row_room self.old)
            (self.new ≡ self.old) }
    {
        let mut grown = false;
        for (at, other) in others.words.iter().enumerate() {
            let word = self.words[at];
            let merged = word | *other;
            if merged != word {
                grown = true;
            }
            self.words[at] = merged;
        }
        grown
    }
}

/// A row for each position: the positions that it reaches by at least one edge.
#[derive(Drop)]
pub(crate) struct Rows {
    rows: Vec<Row>,
}

impl Model for Rows {
    ghost use Rattle.std.specs.Prelude.{ℕ, List};

    ghost Value = { List (List ℕ) };

    ghost view = { λ r. r.rows.items };
}

impl Rows {
    /// No rows.
    pub(crate) fn new(alloc: Global) -> Rows
        ensures { result ≡ [] }
    {
        Rows {
            rows: Vec::new(alloc),
        }
    }

    /// Whether the row of a position has another.
    pub(crate) fn has(&self, from: usize, to: usize) -> bool
        requires { from < length self.now }
        ensures { IsTrue result ↔ HasBit self.now from to }
    {
        let row = &self.rows[from];
        row.has(to)
    }

    /// Adds an empty row.
    pub(crate) fn push(&mut self) -> Result<(), AllocError>
        ensures ok { OnOk result (self.new ≡ self.old ++ [] ∷ []) }
        ensures err { OnErr result (self.new ≡ self.old) }
    {
        let alloc = *self.rows.allocator();
        self.rows.push(Row::new(alloc))?;
        Ok(())
    }

    /// Adds empty rows until there are so many.
    pub(crate) fn extend_to(&mut self, count: usize) -> Result<(), AllocError>
        ensures same { SameRows self.old self.new }
        ensures longer { length self.old ≤ length self.new }
        ensures ok { OnOk result (count ≤ length self.new) }
    {
        while self.rows.len() < count {
            self.push()?;
        }
        Ok(())
    }

    /// Whether an edge to `to` that starts at `from` adds to the row of `at`.
    fn gains(&self, at: usize, from: usize, to: usize) -> bool
        requires { at < length self.now }
        ensures { IsTrue result ↔ Gains self.now from to at }
    {
        (at == from || self.has(at, from)) && !self.has(at, to)
    }

    /// Adds to the row of `at` all that `to` reaches, and `to`. Tells whether something is new.
    fn absorb(&mut self, at: usize, to: usize) -> bool
        requires at_in { at < length self.old }
        requires to_in { to < length self.old }
        requires wide { IsWideFor self.old to at }
        ensures absorbed { Absorbs self.old at to self.new }
        ensures grown { MatchBool result (room self.new < room self.old) (self.new ≡ self.old) }
    {
        if at == to {
            let row = &mut self.rows[at];
            return row.insert(to);
        }
        let alloc = *self.rows.allocator();
        let reached = mem::replace(&mut self.rows[to], Row::new(alloc));
        let row = &mut self.rows[at];
        let grown = row.union(&reached);
        let new = row.insert(to);
        self.rows[to] = reached;
        grown || new
    }

    /// Widens each row that an edge adds to, and leaves all rows as they are.
    fn widen(&mut self, from: usize, to: usize) -> Result<(), AllocError>
        requires from_in { from < length self.old }
        requires to_in { to < length self.old }
        ensures len { length self.new ≡ length self.old }
        ensures same { SameRows self.old self.new }
        ensures ok { OnOk result
            ((i : ℕ) →
            i < length self.old → Gains self.old from to i → IsWideFor self.new to i) }
    {
        let width = self.rows[to].width().max(to / 64 + 1);
        for at in 0..self.rows.len() {
            if self.gains(at, from, to) {
                let row = &mut self.rows[at];
                row.widen(width)?;
            }
        }
        Ok(())
    }

    /// Brings the rows up to date with an edge. All memory is taken before the first bit is set.
    pub(crate) fn connect(&mut self, from: usize, to: usize) -> Result<(), AllocError>
        requires from_in { from < length self.old }
        requires to_in { to < length self.old }
        requires closed { IsTransitive self.old }
        ensures len { length self.new ≡ length self.old }
        ensures ok { OnOk result
            ((i j : ℕ) → HasBit self.new i j ↔ Joins self.old from to i j) }
        ensures err { OnErr result (SameRows self.old self.new) }
    {
        if self.has(from, to) {
            return Ok(());
        }
        self.widen(from, to)?;
        for at in 0..self.rows.len() {
            if self.gains(at, from, to) {
                self.absorb(at, to);
            }
        }
        Ok(())
    }
}

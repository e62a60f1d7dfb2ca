//! Names by which each identifier denotes by its symbol alone what it denoted by symbol and context
//! (ECMA-262, 9.1: an inner binding hides an outer one of its name), where no binding changes its symbol
//! without need.

ghost use Rattle.std.specs.Prelude.{◌≡◌, ◌<◌, ◌==◌, ◌++◌, ◌∷◌, [], ℕ, true, cond, None, Some, List, IfOk, OnOk, length, map, string_bytes, slice_get, unwrap_or};
ghost use Rattle.std.specs.List.{list_any};
ghost use Rattle.std.specs.Option.{option_map};
ghost use Rattle.bundle_syntax.specs.Item.{item_of};
ghost use Rattle.bundle_rules.specs.Homes as homes;
ghost use Rattle.bundle_rules.specs.Renaming as renaming;
ghost use Rattle.bundle_rules.specs.Nodes.{Text};
ghost use Rattle.bundle_scope_denote.specs.Numbers.{numbered_scope};
ghost use Rattle.bundle_scope_denote.specs.Chains as chains;
ghost use Rattle.bundle_scope_denote.specs.Chains.{AreInOrder};
ghost use Rattle.bundle_scope_denote.specs.Bound as bound;
ghost use Rattle.bundle_scope_denote.specs.Kinds.{scope_as};
ghost use Rattle.bundle_scope_names.specs.Called.{at};
ghost use Rattle.bundle_scope_names.specs.Turns as turns;
ghost use Rattle.bundle_scope_names.specs.Turns.{AreInTurn, AreBindingsNamed, Facts, first_after, first_of, text_given, group_number, home_number, is_before, is_this_number, is_right, symbol_by, binding_symbol, symbols_from};
ghost use Rattle.bundle_scope_names.specs.Marks as the_marks;
ghost use Rattle.bundle_scope_names.specs.Symbols.{AddsSymbol, HaveSymbolNumbers};
ghost use Rattle.bundle_scope_names.specs.Uses.{AreUses};
ghost use Rattle.bundle_scope_names.specs.Marks.{AddsNeed, AddsGlobal, GivesText, IsClosed, KeepsItsSymbol, Knows, Marks, Symbol, has_symbol, has_taken, is_among, is_called_in, last_by, marked, may_keep_by, symbol_number, binding_scopes};

use crate::names::Names;
use crate::uses::Uses;
use bundle_scope_denote::{Binding, Denotations, Denoted, Mixed, Salt, Scope, ScopeKind};
use bundle_syntax::Piece;
use indexmap::IndexSet;
use std::alloc::{AllocError, Global};
use std::collections::HashSet;

// A binding by its scope, its first place and its number.
type Place = (usize, usize, usize);

// Numbers of scopes, each with that of a symbol.
type MarkedSymbols = HashSet<(usize, usize), Mixed>;

// What is known of the bindings before one.
#[derive(Drop)]
struct Hygiene<'s> {
    // The symbols of the bindings and of the globals, which have their places as numbers.
    symbols: IndexSet<&'s str, Salt>,
    // The scopes in which, or in a scope inside which, a symbol denotes a global or a binding that keeps it.
    needed: MarkedSymbols,
    // The groups of scopes in which a binding keeps a symbol.
    kept: MarkedSymbols,
    // The texts that were given.
    given: HashSet<String, Salt>,
    // For each symbol, by its number, the last number that was tried, or zero.
    last: Vec<usize>,
}

// The symbols before any binding is named, and for each binding that is declared the number of its own.
#[derive(Drop)]
struct Before<'s> {
    symbols: IndexSet<&'s str, Salt>,
    numbers: Vec<Option<usize>>,
}

// A binding whose turn it is: the scope to which it belongs, its symbol, and the number of that.
#[derive(Clone, Copy)]
struct Next<'s> {
    number: usize,
    home: usize,
    sym: &'s str,
    symbol: Option<usize>,
}

/// What the bindings of a list, which is read by symbol and context, are called once contexts are gone. The
/// symbols before are those by which `keywords` calls the bindings, and the answer includes these.
///
/// Bindings come in the order of their scopes, and in a scope by their first place. A binding keeps its
/// symbol unless it is a declared `arguments`, or a binding before it in its group of scopes keeps it, or
/// inside its scope that symbol denotes a global or a binding of an outer scope that keeps it. Any other
/// takes its symbol with the least number from 1 on that makes neither a symbol before nor one that was
/// given. Refused only where memory runs out.
pub fn hygienic_names<'a>(
    alloc: Global,
    pieces: &[Piece<'a>],
    denotations: &Denotations<'a>,
    keywords: &Names,
) -> Result<Names, AllocError>
    requires { AreInOrder (map numbered_scope denotations.now.scopes.items) }
    ensures named { IfOk result
        (AreBindingsNamed denotations.now (map item_of pieces.now) keywords.now) }
    ensures texts { IfOk result (λ names.
        length names.texts.items ≡ length denotations.now.bindings.items) }
    ensures contexts { IfOk result (λ names.
        length names.contexts.items ≡ length denotations.now.bindings.items) }
{
    let symbols = symbols_of(alloc, &denotations.bindings, keywords)?;
    let uses = Uses::of(alloc, denotations.bindings.len(), &denotations.occurrences)?;
    let places = places_of(alloc, &denotations.bindings, &denotations.occurrences)?;
    let Before {
        symbols: before,
        numbers,
    } = symbols_before(alloc, pieces, denotations, &symbols)?;
    let mut hygiene = Hygiene::of(alloc, pieces, denotations, before)?;
    let mut names = keywords.copied(alloc, denotations.bindings.len())?;
    for place in places.iter() {
        let (home, _, number) = *place;
        let next = Next {
            number,
            home,
            sym: symbol_at(&symbols, number),
            symbol: number_at(&numbers, number),
        };
        let text = hygiene.settle(alloc, denotations, &uses, next)?;
        if let Some(text) = text {
            names.set_text(number, text);
        }
    }
    Ok(names)
}

// The symbols by which the names call the bindings.
fn symbols_of<'s, 'a: 's>(
    alloc: Global,
    bindings: &[Binding<'a>],
    names: &'s Names,
) -> Result<Vec<&'s str>, AllocError>
    ensures { IfOk result (λ symbols.
        map (λ sym. sym.now) symbols.items ≡ symbols_from names.now 0 bindings.now) }
{
    let mut symbols = Vec::with_capacity(alloc, bindings.len())?;
    for (number, binding) in bindings.iter().enumerate() {
        symbols.push(names.text_of(number).unwrap_or(binding.sym))?;
    }
    Ok(symbols)
}

// The symbol of a binding.
fn symbol_at<'s>(symbols: &[&'s str], number: usize) -> &'s str
    ensures { result.now ≡ unwrap_or (slice_get (map (λ sym. sym.now) symbols.now) number) [] }
{
    match symbols.get(number) {
        Some(sym) => *sym,
        None => "",
    }
}

// The same, where there is such a binding.
fn symbol_if<'s>(symbols: &[&'s str], number: usize) -> Option<&'s str>
    ensures { option_map (λ sym. sym.now) result
        ≡ slice_get (map (λ sym. sym.now) symbols.now) number }
{
    match symbols.get(number) {
        Some(sym) => Some(*sym),
        None => None,
    }
}

// The bindings that occurrences declare, in their order.
fn places_of<'a>(
    alloc: Global,
    bindings: &[Binding<'a>],
    occurrences: &[Denoted],
) -> Result<Vec<Place>, AllocError>
    ensures { IfOk result (λ places.
        AreInTurn (turns.homes_of bindings.now) occurrences.now places.items) }
{
    let firsts = firsts_of(alloc, bindings.len(), occurrences)?;
    let mut places = Vec::with_capacity(alloc, bindings.len())?;
    for (number, binding) in bindings.iter().enumerate() {
        if let Some(first) = number_at(&firsts, number) {
            places.push((binding.scope, first, number))?;
        }
    }
    places.sort_unstable();
    Ok(places)
}

// For each binding the place of the first occurrence that declares it.
fn firsts_of(
    alloc: Global,
    count: usize,
    occurrences: &[Denoted],
) -> Result<Vec<Option<usize>>, AllocError>
    ensures { IfOk result (λ firsts.
        (number : ℕ) →
        number < count →
        slice_get firsts.items number ≡ Some (first_of occurrences.now number)) }
{
    let mut firsts = vec![in alloc; None; count]?;
    for occurrence in occurrences {
        add_first(&mut firsts, *occurrence);
    }
    Ok(firsts)
}

// Adds an occurrence, if it is the first one that declares its binding.
fn add_first(firsts: &mut Vec<Option<usize>>, occurrence: Denoted)
    ensures { (number : ℕ) →
        slice_get firsts.new.items number
        ≡ option_map (first_after occurrence number) (slice_get firsts.old.items number) }
{
    if !occurrence.declares {
        return;
    }
    let Some(binding) = occurrence.binding else {
        return;
    };
    if let Some(first) = firsts.get_mut(binding) {
        if first.is_none() {
            *first = Some(occurrence.place);
        }
    }
}

// What a list has for a binding.
fn number_at(numbers: &[Option<usize>], binding: usize) -> Option<usize>
    ensures { result ≡ at numbers.now binding }
{
    match numbers.get(binding) {
        Some(number) => *number,
        None => None,
    }
}

// The symbol of the identifier at a place.
fn symbol_in<'a>(pieces: &[Piece<'a>], place: usize) -> Option<&'a str>
    ensures { option_map (λ sym. sym.now) result
        ≡ symbol_by (slice_get (map item_of pieces.now) place) }
{
    match pieces.get(place) {
        Some(Piece::Ident { sym, .. }) => Some(*sym),
        _ => None,
    }
}

// The number of the scope around one.
fn outer_at(scopes: &[Scope], number: usize) -> Option<usize>
    ensures { result ≡ chains.outer_at (map numbered_scope scopes.now) number }
{
    match scopes.get(number) {
        None => None,
        Some(scope) => scope.outer,
    }
}

// The number of the scope whose names keep apart with those of a scope: the parameters for a body, the wrapper for
// the top of a CommonJS module, the catch for its block, and else itself.
fn group_at(scopes: &[Scope], number: usize) -> usize
    ensures { result ≡ group_number (map numbered_scope scopes.now) number }
{
    match scopes.get(number) {
        None => number,
        Some(scope) => if joins_outer(scope.kind) {
            scope.outer.unwrap_or(number)
        } else {
            number
        },
    }
}

// Whether a scope keeps its names apart from those of the scope around it.
fn joins_outer(kind: ScopeKind) -> bool
    ensures { (begins : ℕ) → result ≡ bound.joins_outer (scope_as kind begins) }
{
    match kind {
        ScopeKind::Top => true,
        ScopeKind::FunctionBody => true,
        ScopeKind::CatchBlock => true,
        _ => false,
    }
}

// The symbols before, those of the globals and of the bindings that are declared, and the numbers that they have.
fn symbols_before<'s, 'a: 's>(
    alloc: Global,
    pieces: &[Piece<'a>],
    denotations: &Denotations<'a>,
    symbols: &[&'s str],
) -> Result<Before<'s>, AllocError>
    ensures symbols { IfOk result (λ before.
        (text : Text) →
        is_among text before.symbols.keys
        ≡ list_any (is_called_in (map item_of pieces.now) (map (λ sym. sym.now) symbols.now) text)
        denotations.now.occurrences.items) }
    ensures numbers { IfOk result (λ before.
        HaveSymbolNumbers (map (λ sym. sym.now) symbols.now) denotations.now.occurrences.items
        before.symbols.keys before.numbers.items) }
{
    let mut before = Before {
        symbols: IndexSet::with_hasher(alloc, denotations.salt),
        numbers: vec![in alloc; None; symbols.len()]?,
    };
    for occurrence in &denotations.occurrences {
        before.add(pieces, symbols, *occurrence)?;
    }
    Ok(before)
}

impl<'s> Before<'s> {
    // Adds the symbol of an occurrence, if it is a global or declares a binding.
    fn add<'a: 's>(
        &mut self,
        pieces: &[Piece<'a>],
        symbols: &[&'s str],
        occurrence: Denoted,
    ) -> Result<(), AllocError>
        requires { length self.old.numbers.items ≡ length symbols.now }
        ensures { OnOk result
            (AddsSymbol (map item_of pieces.now) (map (λ sym. sym.now) symbols.now) occurrence
            self.old self.new) }
    {
        let Some(sym) = symbol_called(pieces, symbols, occurrence) else {
            return Ok(());
        };
        let (number, _) = self.symbols.insert_full(sym)?;
        self.set_number(occurrence.binding, number);
        Ok(())
    }

    // The symbol of a binding has this number.
    fn set_number(&mut self, binding: Option<usize>, number: usize)
        ensures symbols { self.new.symbols ≡ self.old.symbols }
        ensures count { length self.new.numbers.items ≡ length self.old.numbers.items }
        ensures numbers { (other : ℕ) →
            other < length self.old.numbers.items →
            at self.new.numbers.items other
            ≡ cond (is_this_number other binding) (Some number) (at self.old.numbers.items other) }
    {
        let Some(binding) = binding else {
            return;
        };
        if let Some(its) = self.numbers.get_mut(binding) {
            *its = Some(number);
        }
    }
}

// The symbol of an occurrence that is a global or declares a binding.
fn symbol_called<'s, 'a: 's>(
    pieces: &[Piece<'a>],
    symbols: &[&'s str],
    occurrence: Denoted,
) -> Option<&'s str>
    ensures { option_map (λ sym. sym.now) result
        ≡ the_marks.symbol_called (map (λ sym. sym.now) symbols.now)
        (symbol_by (slice_get (map item_of pieces.now) occurrence.place)) occurrence.declares
        occurrence.binding }
{
    match occurrence.binding {
        None => symbol_in(pieces, occurrence.place),
        Some(binding) => symbol_declared(symbols, binding, occurrence.declares),
    }
}

// The symbol of a binding, where an occurrence declares it.
fn symbol_declared<'s>(symbols: &[&'s str], binding: usize, declares: bool) -> Option<&'s str>
    ensures { option_map (λ sym. sym.now) result
        ≡ cond declares (slice_get (map (λ sym. sym.now) symbols.now) binding) None }
{
    if declares {
        symbol_if(symbols, binding)
    } else {
        None
    }
}

// Marks the symbol with a number in a scope and in those around it.
fn mark(
    marks: &mut MarkedSymbols,
    scopes: &[Scope],
    from: usize,
    symbol: usize,
) -> Result<(), AllocError>
    requires { AreInOrder (map numbered_scope scopes.now) }
    ensures { OnOk result
        ((symbols : List Symbol) (text : Text) →
        symbol_number symbols text ≡ Some symbol →
        IsClosed (map numbered_scope scopes.now) (marked symbols marks.old.keys) →
        Marks (map numbered_scope scopes.now) (from ∷ []) text (marked symbols marks.old.keys)
        (marked symbols marks.new.keys)) }
{
    let mut at = Some(from);
    for _ in 0..scopes.len() {
        let Some(number) = at else {
            return Ok(());
        };
        if !marks.insert((number, symbol))? {
            return Ok(());
        }
        at = outer_at(scopes, number);
    }
    Ok(())
}

// Marks it in the scopes of a binding's occurrences and in those around them.
fn mark_all(
    marks: &mut MarkedSymbols,
    scopes: &[Scope],
    occurrences: &[Denoted],
    uses: &Uses,
    binding: usize,
    symbol: usize,
) -> Result<(), AllocError>
    requires in_order { AreInOrder (map numbered_scope scopes.now) }
    requires uses { AreUses occurrences.now uses.now }
    requires within { binding < length uses.now.last.items }
    ensures { OnOk result
        ((symbols : List Symbol) (text : Text) →
        symbol_number symbols text ≡ Some symbol →
        IsClosed (map numbered_scope scopes.now) (marked symbols marks.old.keys) →
        Marks (map numbered_scope scopes.now) (binding_scopes occurrences.now binding) text
        (marked symbols marks.old.keys) (marked symbols marks.new.keys)) }
{
    let mut at = uses.last_of(binding);
    for _ in 0..occurrences.len() {
        let Some(number) = at else {
            return Ok(());
        };
        mark(marks, scopes, scope_at(occurrences, number), symbol)?;
        at = uses.before(number);
    }
    Ok(())
}

// The scope of an occurrence.
fn scope_at(occurrences: &[Denoted], number: usize) -> usize
    ensures { result
        ≡ unwrap_or (option_map (λ occurrence. occurrence.scope)
        (slice_get occurrences.now number)) 0 }
{
    match occurrences.get(number) {
        Some(occurrence) => occurrence.scope,
        None => 0,
    }
}

// So many times zero.
fn zeros(alloc: Global, count: usize) -> Result<Vec<usize>, AllocError>
    ensures { IfOk result (λ last. (symbol : ℕ) → unwrap_or (slice_get last.items symbol) 0 ≡ 0) }
{
    let last = vec![in alloc; 0; count]?;
    Ok(last)
}

// The last number that was tried for a symbol.
fn tried_last(last: &[usize], symbol: usize) -> usize
    ensures { result ≡ last_by last.now (Some symbol) }
{
    match last.get(symbol) {
        Some(number) => *number,
        None => 0,
    }
}

// This one was tried last.
fn set_last(last: &mut Vec<usize>, symbol: usize, number: usize)
    ensures { (other : ℕ) →
        slice_get last.new.items other
        ≡ option_map (cond (symbol == other) number) (slice_get last.old.items other) }
{
    if let Some(its) = last.get_mut(symbol) {
        *its = number;
    }
}

impl<'s> Hygiene<'s> {
    // Nothing was named so far: the symbols of the globals are needed where they stand. These are the symbols before.
    fn of<'a: 's>(
        alloc: Global,
        pieces: &[Piece<'a>],
        denotations: &Denotations<'a>,
        symbols: IndexSet<&'s str, Salt>,
    ) -> Result<Hygiene<'s>, AllocError>
        requires { AreInOrder (map numbered_scope denotations.now.scopes.items) }
        ensures knows { IfOk result (λ hygiene.
            (facts : Facts) →
            facts.scopes ≡ map numbered_scope denotations.now.scopes.items →
            facts.occurrences ≡ denotations.now.occurrences.items →
            facts.items ≡ map item_of pieces.now →
            ((text : Text) → is_among text symbols.entry.keys ≡ is_before facts text) →
            Knows facts [] hygiene) }
        ensures symbols { IfOk result (λ hygiene. hygiene.symbols.keys ≡ symbols.entry.keys) }
    {
        let salt = denotations.salt;
        let mixed = Mixed::of(&salt);
        let count = symbols.len();
        let mut hygiene = Hygiene {
            symbols,
            needed: HashSet::with_capacity_and_hasher(alloc, denotations.occurrences.len(), mixed)?,
            kept: HashSet::with_capacity_and_hasher(alloc, denotations.bindings.len(), mixed)?,
            given: HashSet::with_hasher(alloc, salt),
            last: zeros(alloc, count)?,
        };
        for occurrence in &denotations.occurrences {
            hygiene.add(pieces, &denotations.scopes, *occurrence)?;
        }
        Ok(hygiene)
    }

    // Adds what an occurrence needs: its symbol, if it is a global.
    fn add<'a>(
        &mut self,
        pieces: &[Piece<'a>],
        scopes: &[Scope],
        occurrence: Denoted,
    ) -> Result<(), AllocError>
        requires { AreInOrder (map numbered_scope scopes.now) }
        ensures { OnOk result
            (AddsNeed (map numbered_scope scopes.now) (map item_of pieces.now) occurrence self.old
            self.new) }
    {
        match occurrence.binding {
            None => self.add_global(pieces, scopes, occurrence),
            Some(_) => Ok(()),
        }
    }

    // The symbol of a global, which has a number, is needed where it stands.
    fn add_global<'a>(
        &mut self,
        pieces: &[Piece<'a>],
        scopes: &[Scope],
        occurrence: Denoted,
    ) -> Result<(), AllocError>
        requires { AreInOrder (map numbered_scope scopes.now) }
        ensures { OnOk result
            (AddsGlobal (map numbered_scope scopes.now) occurrence.scope
            (symbol_by (slice_get (map item_of pieces.now) occurrence.place)) self.old self.new) }
    {
        let Some(sym) = symbol_in(pieces, occurrence.place) else {
            return Ok(());
        };
        let Some(symbol) = self.symbols.get_index_of(&sym) else {
            return Ok(());
        };
        mark(&mut self.needed, scopes, occurrence.scope, symbol)?;
        Ok(())
    }

    // The new text of the next binding, or `None` where it keeps its symbol.
    fn settle<'a>(
        &mut self,
        alloc: Global,
        denotations: &Denotations<'a>,
        uses: &Uses,
        next: Next<'s>,
    ) -> Result<Option<String>, AllocError>
        requires in_order { AreInOrder (map numbered_scope denotations.now.scopes.items) }
        requires uses { AreUses denotations.now.occurrences.items uses.now }
        requires within { next.number < length uses.now.last.items }
        ensures text { IfOk result (λ text.
            (facts : Facts) (done : List turns.Turn) →
            facts.scopes ≡ map numbered_scope denotations.now.scopes.items →
            facts.occurrences ≡ denotations.now.occurrences.items →
            home_number facts next.entry.number ≡ next.entry.home →
            binding_symbol facts next.entry.number ≡ next.entry.sym.now →
            next.entry.symbol ≡ symbol_number self.old.symbols.keys next.entry.sym.now →
            is_before facts (binding_symbol facts next.entry.number) ≡ true →
            Knows facts done self.old →
            (turn : turns.Turn)
            × (turn.binding ≡ next.entry.number)
            × (is_right facts done turn ≡ true)
            × Knows facts (done ++ turn ∷ []) self.new
            × (option_map string_bytes text ≡ text_given facts turn)) }
        ensures symbols { OnOk result (self.new.symbols.keys ≡ self.old.symbols.keys) }
    {
        let Some(symbol) = next.symbol else {
            return Ok(None);
        };
        let group = group_at(&denotations.scopes, next.home);
        if self.may_keep(next.home, group, next.sym, symbol) {
            self.keep(denotations, uses, next.number, group, symbol)?;
            return Ok(None);
        }
        let text = self.free_text(alloc, next.sym, symbol)?;
        Ok(Some(text))
    }

    // Whether a binding that belongs to this scope and group may keep its symbol, which has a number.
    fn may_keep(&self, home: usize, group: usize, sym: &'s str, symbol: usize) -> bool
        ensures { symbol_number self.now.symbols.keys sym.now ≡ Some symbol →
            result ≡ may_keep_by self.now home group sym.now }
    {
        if is_arguments(sym) {
            return false;
        }
        if self.kept.contains(&(group, symbol)) {
            return false;
        }
        !self.needed.contains(&(home, symbol))
    }

    // A binding in this group of scopes keeps the symbol with a number, which is needed at its occurrences.
    fn keep<'a>(
        &mut self,
        denotations: &Denotations<'a>,
        uses: &Uses,
        binding: usize,
        group: usize,
        symbol: usize,
    ) -> Result<(), AllocError>
        requires in_order { AreInOrder (map numbered_scope denotations.now.scopes.items) }
        requires uses { AreUses denotations.now.occurrences.items uses.now }
        requires within { binding < length uses.now.last.items }
        ensures symbols { self.new.symbols.keys ≡ self.old.symbols.keys }
        ensures keeps { OnOk result
            ((text : Text) →
            symbol_number self.old.symbols.keys text ≡ Some symbol →
            KeepsItsSymbol (map numbered_scope denotations.now.scopes.items) group text
            (binding_scopes denotations.now.occurrences.items binding) self.old self.new) }
    {
        self.kept.insert((group, symbol))?;
        mark_all(
            &mut self.needed,
            &denotations.scopes,
            &denotations.occurrences,
            uses,
            binding,
            symbol,
        )?;
        Ok(())
    }

    // A symbol with the least number from one on that makes a text which is free. It is given.
    fn free_text(
        &mut self,
        alloc: Global,
        sym: &'s str,
        symbol: usize,
    ) -> Result<String, AllocError>
        ensures gives { IfOk result (λ text.
            symbol_number self.old.symbols.keys sym.now ≡ Some symbol →
            (number : ℕ)
            × (string_bytes text ≡ renaming.numbered sym.now number)
            × GivesText sym.now number self.old self.new) }
        ensures symbols { OnOk result (self.new.symbols.keys ≡ self.old.symbols.keys) }
    {
        let first = tried_last(&self.last, symbol);
        for tried in first..usize::MAX {
            let number = tried + 1;
            let text = format!(in alloc; "{sym}{number}")?;
            if !self.is_taken(text.as_str()) {
                set_last(&mut self.last, symbol, number);
                self.given.insert(text.clone()?)?;
                return Ok(text);
            }
        }
        Err(AllocError)
    }

    // Whether a text is a symbol before, or was given.
    fn is_taken(&self, text: &str) -> bool
        ensures { result ≡ has_taken self.now text.now }
    {
        self.symbols.contains(&text) || self.given.contains(text)
    }
}

// Whether a symbol is `arguments`.
fn is_arguments(sym: &str) -> bool
    ensures { result ≡ homes.is_arguments sym.now }
{
    sym == "arguments"
}

//! What each occurrence of a list denotes.

ghost use Rattle.std.specs.Prelude.{◌≡◌, ◌<◌, ◌||◌, ◌&&◌, IfOk, List, OnOk, Some, false, length, map, slice_get};
ghost use Rattle.std.specs.List.{list_any};
ghost use Rattle.bundle_syntax.specs.Item.{Item, item_of};
ghost use Rattle.bundle_rules.specs.Scopes as Scopes;
ghost use Rattle.bundle_rules.specs.Declarations.{ByContext, BySymbol};
ghost use Rattle.bundle_rules.specs.Denotes as denotes;
ghost use Rattle.bundle_rules.specs.Homes as Homes;
ghost use Rattle.bundle_scope_denote.specs.Kinds.{kind_as, reading_as};
ghost use Rattle.bundle_scope_denote.specs.Numbers.{name_as, numbered_scope};
ghost use Rattle.bundle_scope_denote.specs.Chains.{nearest_at, passes};
ghost use Rattle.bundle_scope_denote.specs.Bound as bound;
ghost use Rattle.bundle_scope_denote.specs.Bound.{ScopeKey, same_key};
ghost use Rattle.bundle_scope_denote.specs.Ready.{AreDeclarationsNumbered, AreSeenNamed, HasArguments, HoldsImplied, is_implied_key};
ghost use Rattle.bundle_scope_denote.specs.Searched.{Denotes, DenotesSeen, MakesTable, Puts, Searches};
ghost use Rattle.bundle_scope_denote.specs.Listed.{IsDenotationTable};
ghost use Rattle.bundle_scope_denote.specs.Steps.{IsBlank, IsWholeWalk, StaysInWalk};

use crate::homes::{Bindings, Keys, alone_of, homes_of, outer_at, scope_at};
use crate::kinds::is_function;
use crate::mixed::Mixed;
use crate::salt::salt_of;
use crate::table::{Binding, Denotations, Denoted, ModuleKind, Reading, Scope};
use crate::walk::{NameKey, NameOccurrence, ScopeWalk, number_of};
use bundle_syntax::Piece;
use indexmap::IndexSet;
use std::alloc::{AllocError, Global};

/// What each occurrence of a list denotes: the binding of the nearest scope around it that binds its name, or
/// else a global. Refused only where memory runs out.
pub fn denotations<'a>(
    alloc: Global,
    pieces: &[Piece<'a>],
    kind: ModuleKind,
    reading: Reading,
) -> Result<Denotations<'a>, AllocError>
    ensures { IfOk result
        (IsDenotationTable (reading_as reading) (kind_as kind) (map item_of pieces.now)) }
{
    let mut walk = ScopeWalk::new(alloc, kind, reading, salt_of(pieces));
    let found = found_along(alloc, &mut walk, pieces)?;
    Ok(table_of(walk, found))
}

/// The bindings of a list, and what each of its occurrences denotes.
#[derive(Drop)]
pub(crate) struct BindingsFound<'a> {
    bindings: Vec<Binding<'a>>,
    occurrences: Vec<Denoted>,
}

/// The table of a list, by what was met and what was found along it.
pub(crate) fn table_of<'a>(walk: ScopeWalk<'a>, found: BindingsFound<'a>) -> Denotations<'a>
    ensures scopes { result.scopes.items ≡ walk.entry.scopes.items }
    ensures bindings { result.bindings.items ≡ found.entry.bindings.items }
    ensures occurrences { result.occurrences.items ≡ found.entry.occurrences.items }
{
    Denotations {
        scopes: walk.scopes,
        bindings: found.bindings,
        occurrences: found.occurrences,
        salt: walk.salt,
    }
}

// Goes over a list, and finds the bindings and what each occurrence denotes.
fn found_along<'a>(
    alloc: Global,
    walk: &mut ScopeWalk<'a>,
    pieces: &[Piece<'a>],
) -> Result<BindingsFound<'a>, AllocError>
    requires { IsBlank walk.old }
    ensures { IfOk result
        (MakesTable (reading_as walk.old.reading) (kind_as walk.old.kind) (map item_of pieces.now)
        walk.new) }
{
    go_over_with_arguments(walk, pieces)?;
    searched(alloc, walk)
}

/// Goes over a list, where the name `arguments` without a context gets a number too.
pub(crate) fn go_over_with_arguments<'a>(
    walk: &mut ScopeWalk<'a>,
    pieces: &[Piece<'a>],
) -> Result<(), AllocError>
    requires { IsBlank walk.old }
    ensures whole { OnOk result
        (IsWholeWalk walk.new (reading_as walk.old.reading) (kind_as walk.old.kind)
        (map item_of pieces.now)) }
    ensures arguments { OnOk result (HasArguments walk.new) }
    ensures stays { OnOk result (StaysInWalk walk.old walk.new) }
{
    walk.go_over(pieces)?;
    let arguments = NameKey {
        sym: "arguments",
        ctxt: None,
    };
    number_of(&mut walk.names, arguments)?;
    Ok(())
}

/// What is found by what was met in one pass over a list.
pub(crate) fn searched<'a>(
    alloc: Global,
    walk: &ScopeWalk<'a>,
) -> Result<BindingsFound<'a>, AllocError>
    requires named { AreDeclarationsNumbered walk.now }
    requires seen { AreSeenNamed walk.now }
    ensures { IfOk result (λ found.
        (kind : Scopes.ModuleKind) (items : List Item) →
        IsWholeWalk walk.now (reading_as walk.now.reading) kind items →
        HasArguments walk.now →
        MakesTable (reading_as walk.now.reading) kind items walk.now found) }
{
    let homes = homes_of(alloc, walk)?;
    let implied = implied_in(alloc, &walk.names, &homes.bindings.keys, walk.reading)?;
    let mut search = BindingSearch {
        bindings: homes.bindings,
        implied,
    };
    let occurrences = search.entries(alloc, walk, &homes.of, walk.reading)?;
    Ok(BindingsFound {
        bindings: search.bindings.items,
        occurrences,
    })
}

// The search for bindings along the occurrences: the bindings, to which the `arguments` of a function is added
// where an occurrence denotes it, and the keys of those that are implied by symbol and context.
#[derive(Drop)]
struct BindingSearch<'a> {
    bindings: Bindings<'a>,
    implied: Keys,
}

impl<'a> BindingSearch<'a> {
    // The entry of each occurrence that was met; `of` has the bindings of the declarations.
    fn entries(
        &mut self,
        alloc: Global,
        walk: &ScopeWalk<'a>,
        of: &[usize],
        reading: Reading,
    ) -> Result<Vec<Denoted>, AllocError>
        requires { AreSeenNamed walk.now }
        ensures { IfOk result (λ table.
            Searches (reading_as reading) walk.now of.now self.old self.new table.items
            walk.now.occurrences.items) }
    {
        let mut occurrences = Vec::with_capacity(alloc, walk.occurrences.len())?;
        for occurrence in &walk.occurrences {
            let binding = self.binding_of(walk, of, *occurrence, reading)?;
            occurrences.push(Denoted {
                place: occurrence.place,
                scope: occurrence.scope,
                binding,
                declares: occurrence.declaration.is_some(),
            })?;
        }
        Ok(occurrences)
    }

    // The binding that an occurrence denotes; `of` has those of the declarations.
    fn binding_of(
        &mut self,
        walk: &ScopeWalk<'a>,
        of: &[usize],
        occurrence: NameOccurrence,
        reading: Reading,
    ) -> Result<Option<usize>, AllocError>
        requires { occurrence.name < length walk.now.names.keys }
        ensures { IfOk result
            (DenotesSeen (reading_as reading) walk.now of.now self.old self.new occurrence) }
    {
        if let Some(declaration) = occurrence.declaration {
            return Ok(number_at(of, declaration));
        }
        let name = walk.names[occurrence.name];
        match reading {
            Reading::BySymbol => {
                let binding = self.by_symbol(walk, name, occurrence.name, occurrence.scope)?;
                Ok(binding)
            }
            Reading::ByContext => {
                let binding = self.by_context(walk, name, occurrence.name, occurrence.scope)?;
                Ok(binding)
            }
        }
    }

    // What a name with a number denotes by its symbol.
    fn by_symbol(
        &mut self,
        walk: &ScopeWalk<'a>,
        name: NameKey<'a>,
        number: usize,
        from: usize,
    ) -> Result<Option<usize>, AllocError>
        requires { slice_get walk.now.names.keys number ≡ Some name }
        ensures { IfOk result
            (Denotes BySymbol walk.now self.old self.new (name_as name.entry) number from) }
    {
        if !is_arguments(name.sym) {
            return Ok(nearest_key(&walk.scopes, &self.bindings.keys, number, from));
        }
        let found = nearest(&walk.scopes, &self.bindings.keys, true, number, from);
        let binding = self.put(found, name, number)?;
        Ok(binding)
    }

    // What it denotes by symbol and context.
    fn by_context(
        &mut self,
        walk: &ScopeWalk<'a>,
        name: NameKey<'a>,
        number: usize,
        from: usize,
    ) -> Result<Option<usize>, AllocError>
        requires { slice_get walk.now.names.keys number ≡ Some name }
        ensures { IfOk result
            (Denotes ByContext walk.now self.old self.new (name_as name.entry) number from) }
    {
        let found = nearest_key(&walk.scopes, &self.bindings.keys, number, from);
        if found.is_some() {
            return Ok(found);
        }
        if is_unresolved(name.ctxt) {
            return Ok(None);
        }
        let Some(alone) = alone_of(&walk.names, name, number) else {
            return Ok(None);
        };
        let adds = is_arguments(name.sym);
        let implied = nearest(&walk.scopes, &self.implied, adds, alone, from);
        let plain = NameKey {
            sym: name.sym,
            ctxt: None,
        };
        let binding = self.put(implied, plain, alone)?;
        Ok(binding)
    }

    // The number of the binding of a name in the scope that was found.
    fn put(
        &mut self,
        found: Option<usize>,
        name: NameKey<'a>,
        number: usize,
    ) -> Result<Option<usize>, AllocError>
        ensures { IfOk result (Puts self.old self.new found (name_as name.entry) number) }
    {
        let Some(scope) = found else {
            return Ok(None);
        };
        let binding = Binding {
            scope,
            sym: name.sym,
            ctxt: name.ctxt,
        };
        let number = self.bindings.number_of((scope, number), binding)?;
        Ok(Some(number))
    }
}

// The number at a place of a list of numbers.
fn number_at(numbers: &[usize], place: usize) -> Option<usize>
    ensures { result ≡ slice_get numbers.now place }
{
    numbers.get(place).copied()
}

// The number of the key of a name in the nearest scope, from one on outwards, that has it among these keys.
fn nearest_key(scopes: &[Scope], keys: &Keys, name: usize, from: usize) -> Option<usize>
    ensures { bound.NumberOf keys.now.keys name
        (nearest_at (map numbered_scope scopes.now)
        (bound.binds_at (map numbered_scope scopes.now) keys.now.keys false name) from)
        result }
{
    let mut at = Some(from);
    for _ in 0..scopes.len() {
        let Some(scope) = at else {
            return None;
        };
        let found = keys.get_index_of(&(scope, name));
        if found.is_some() {
            return found;
        }
        at = outer_at(scopes, scope);
    }
    None
}

// The number of the nearest scope, from one on outwards, that has the name with a number among these keys, or
// is that of a function where `adds` says that functions bind the name.
fn nearest(scopes: &[Scope], keys: &Keys, adds: bool, name: usize, from: usize) -> Option<usize>
    ensures { result
        ≡ nearest_at (map numbered_scope scopes.now)
        (bound.binds_at (map numbered_scope scopes.now) keys.now.keys adds name) from }
{
    let mut at = Some(from);
    for _ in 0..scopes.len() {
        let Some(number) = at else {
            return None;
        };
        if binds_at(scopes, keys, adds, name, number) {
            return Some(number);
        }
        at = outer_at(scopes, number);
    }
    None
}

// Whether a scope has the name with a number among these keys, or is that of a function which binds it.
fn binds_at(scopes: &[Scope], keys: &Keys, adds: bool, name: usize, scope: usize) -> bool
    ensures { result
        ≡ bound.binds_at (map numbered_scope scopes.now) keys.now.keys adds name scope }
{
    if keys.contains(&(scope, name)) {
        return true;
    }
    if adds {
        is_function_at(scopes, scope)
    } else {
        false
    }
}

// Whether the scope with a number is that of a function that is no arrow.
fn is_function_at(scopes: &[Scope], number: usize) -> bool
    ensures { result ≡ passes Homes.is_function (map numbered_scope scopes.now) number }
{
    match scope_at(scopes, number) {
        None => false,
        Some(scope) => is_function(scope.kind),
    }
}

// Whether a symbol is `arguments`.
fn is_arguments(sym: &str) -> bool
    ensures { result ≡ Homes.is_arguments sym.now }
{
    sym == "arguments"
}

// Whether a context is that of the names that nothing binds.
fn is_unresolved(ctxt: Option<u32>) -> bool
    ensures { result ≡ denotes.is_unresolved ctxt }
{
    match ctxt {
        None => false,
        Some(ctxt) => ctxt == 1,
    }
}

// The keys of the bindings that no identifier declares, by symbol and context: not those beside which an
// identifier declares the symbol in the same scope.
fn implied_in<'a>(
    alloc: Global,
    names: &IndexSet<NameKey<'a>, Mixed>,
    keys: &Keys,
    reading: Reading,
) -> Result<Keys, AllocError>
    ensures { IfOk result (λ implied.
        HoldsImplied (reading_as reading) (map name_as names.now.keys) keys.now.keys implied.keys) }
{
    match reading {
        Reading::BySymbol => Ok(IndexSet::with_hasher(alloc, *names.hasher())),
        Reading::ByContext => implied_by_context(alloc, names, keys),
    }
}

// The same by symbol and context.
fn implied_by_context<'a>(
    alloc: Global,
    names: &IndexSet<NameKey<'a>, Mixed>,
    keys: &Keys,
) -> Result<Keys, AllocError>
    ensures { IfOk result (λ implied.
        HoldsImplied ByContext (map name_as names.now.keys) keys.now.keys implied.keys) }
{
    let mut implied = IndexSet::with_hasher(alloc, *names.hasher());
    for key in keys.as_slice() {
        put_implied(&mut implied, names, keys, *key)?;
    }
    Ok(implied)
}

// Adds a key, if it is that of a name that no identifier declares.
fn put_implied<'a>(
    implied: &mut Keys,
    names: &IndexSet<NameKey<'a>, Mixed>,
    keys: &Keys,
    key: (usize, usize),
) -> Result<(), AllocError>
    ensures { OnOk result
        ((other : ScopeKey) →
        list_any (same_key other) implied.new.keys
        ≡ (list_any (same_key other) implied.old.keys
        || (is_implied_key (map name_as names.now.keys) keys.now.keys key && same_key other key))) }
{
    if !is_implied(names, keys, key) {
        return Ok(());
    }
    implied.insert_full(key)?;
    Ok(())
}

// Whether a key has no context, and no identifier declares its symbol in the scope.
fn is_implied<'a>(names: &IndexSet<NameKey<'a>, Mixed>, keys: &Keys, key: (usize, usize)) -> bool
    ensures { result ≡ is_implied_key (map name_as names.now.keys) keys.now.keys key }
{
    let Some(name) = names.get_index(key.1) else {
        return false;
    };
    match name.ctxt {
        None => !is_written(names, keys, key.0, name.sym),
        Some(_) => false,
    }
}

// Whether a key of the scope is of an identifier's name with this symbol.
fn is_written<'a>(
    names: &IndexSet<NameKey<'a>, Mixed>,
    keys: &Keys,
    scope: usize,
    sym: &str,
) -> bool
    ensures { result
        ≡ list_any (bound.is_written_key (map name_as names.now.keys) scope sym.now)
        keys.now.keys }
{
    for key in keys.as_slice() {
        if is_written_key(names, *key, scope, sym) {
            return true;
        }
    }
    false
}

// Whether a key is of the scope and of an identifier's name with this symbol.
fn is_written_key<'a>(
    names: &IndexSet<NameKey<'a>, Mixed>,
    key: (usize, usize),
    scope: usize,
    sym: &str,
) -> bool
    ensures { result ≡ bound.is_written_key (map name_as names.now.keys) scope sym.now key }
{
    if scope == key.0 {
        is_written_name(names, key.1, sym)
    } else {
        false
    }
}

// Whether the name with a number is that of an identifier with this symbol, whose context is read.
fn is_written_name<'a>(names: &IndexSet<NameKey<'a>, Mixed>, number: usize, sym: &str) -> bool
    ensures { result
        ≡ bound.is_written_name sym.now (slice_get (map name_as names.now.keys) number) }
{
    match names.get_index(number) {
        None => false,
        Some(name) => match name.ctxt {
            None => false,
            Some(_) => name.sym == sym,
        },
    }
}

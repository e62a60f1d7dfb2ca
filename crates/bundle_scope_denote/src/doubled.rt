//! The first name that is declared where it may not be declared again.

ghost use Rattle.std.specs.Prelude.{◌≡◌, ◌<◌, ◌==◌, ◌||◌, ℕ, [], IfOk, List, OnOk, Some, length, map, slice_get};
ghost use Rattle.std.specs.List.{list_any};
ghost use Rattle.std.specs.Option.{option_map};
ghost use Rattle.bundle_syntax.specs.Item.{item_of};
ghost use Rattle.bundle_rules.specs.Scopes as Scopes;
ghost use Rattle.bundle_rules.specs.Scopes.{outermost};
ghost use Rattle.bundle_rules.specs.Declarations as declarations;
ghost use Rattle.bundle_rules.specs.Homes as homes;
ghost use Rattle.bundle_rules.specs.Doubled as doubled;
ghost use Rattle.bundle_scope_denote.specs.Kinds.{kind_as, way_named};
ghost use Rattle.bundle_scope_denote.specs.Numbers.{AreAround, numbered_scope};
ghost use Rattle.bundle_scope_denote.specs.Chains as chains;
ghost use Rattle.bundle_scope_denote.specs.Bound.{ScopeKey, same_key};
ghost use Rattle.bundle_scope_denote.specs.Ready.{AreDeclarationsNumbered};
ghost use Rattle.bundle_scope_denote.specs.Steps.{IsBlank};
ghost use Rattle.bundle_scope_denote.specs.Barred as barred;
ghost use Rattle.bundle_scope_denote.specs.Barred.{AreCounted, HoldsNumbered, IsDoubledTold, ReachesSoFar, TellsFirstDoubled, begins_wrapped, times_counted, has_any, is_key_in, passed_at};
ghost use Rattle.bundle_scope_denote.specs.Listed.{place_and_symbol, doubled_told};

use crate::homes::{Keys, outer_at, scope_at, taker_of, takes_at};
use crate::kinds::{is_var, is_wrapper, joins_outer};
use crate::mixed::Mixed;
use crate::salt::salt_of;
use crate::table::{Doubled, ModuleKind, Reading, Scope, ScopeKind, Way};
use crate::walk::{Declaration, ScopeWalk};
use bundle_syntax::Piece;
use indexmap::IndexSet;
use std::alloc::{AllocError, Global};

/// The first place at which a name is declared that may not be declared there again, by its symbol (ECMA-262,
/// the early errors of 14.2.1, 14.7.4.1, 14.7.5.1, 14.12.1, 14.15.1, 15.2.1, 15.7.1 and 16.2.1.1).
/// Refused only where memory runs out.
pub fn first_doubled<'a>(
    alloc: Global,
    pieces: &[Piece<'a>],
    kind: ModuleKind,
) -> Result<Option<Doubled<'a>>, AllocError>
    ensures { IfOk result (λ found.
        option_map doubled_told found
        ≡ option_map place_and_symbol
        (doubled.first_doubled (kind_as kind) (map item_of pieces.now))) }
{
    let mut walk = ScopeWalk::new(alloc, kind, Reading::BySymbol, salt_of(pieces));
    doubled_along(alloc, &mut walk, pieces)
}

// The same, by a walk that goes over the list.
fn doubled_along<'a>(
    alloc: Global,
    walk: &mut ScopeWalk<'a>,
    pieces: &[Piece<'a>],
) -> Result<Option<Doubled<'a>>, AllocError>
    requires blank { IsBlank walk.old }
    requires reading { walk.old.reading ≡ Reading.BySymbol }
    ensures { IfOk result (λ found.
        option_map doubled_told found
        ≡ option_map place_and_symbol
        (doubled.first_doubled (kind_as walk.old.kind) (map item_of pieces.now))) }
{
    walk.go_over(pieces)?;
    first_met(alloc, walk)
}

/// The first declaration of a walk that may not stand beside those before it.
pub(crate) fn first_met<'a>(
    alloc: Global,
    walk: &ScopeWalk<'a>,
) -> Result<Option<Doubled<'a>>, AllocError>
    requires { AreDeclarationsNumbered walk.now }
    ensures { IfOk result (TellsFirstDoubled walk.now) }
{
    let times = times_of(alloc, walk)?;
    let mut met = Met::new(alloc, *walk.names.hasher());
    met.first_excluded(alloc, walk, &times)
}

// How often a name is declared.
#[derive(Clone, Copy)]
enum Times {
    Never,
    Once,
    Often,
}

// For each name how often it is declared.
fn times_of<'a>(alloc: Global, walk: &ScopeWalk<'a>) -> Result<Vec<Times>, AllocError>
    ensures { IfOk result (λ times. AreCounted walk.now.declarations.items times.items) }
{
    let mut times = vec![in alloc; Times::Never; walk.names.len()]?;
    for declared in &walk.declarations {
        count(&mut times, declared.name);
    }
    Ok(times)
}

// A name is declared once more.
fn count(times: &mut Vec<Times>, name: usize)
    ensures { (number : ℕ) →
        slice_get times.new.items number
        ≡ option_map (times_counted (name == number)) (slice_get times.old.items number) }
{
    if let Some(its) = times.get_mut(name) {
        *its = once_more(*its);
    }
}

// One time more.
fn once_more(times: Times) -> Times
    ensures { result ≡ barred.once_more times }
{
    match times {
        Times::Never => Times::Once,
        _ => Times::Often,
    }
}

// Whether a name is declared more than once.
fn is_often(times: &[Times], name: usize) -> bool
    ensures { result ≡ barred.is_often times.now name }
{
    match times.get(name) {
        None => true,
        Some(Times::Often) => true,
        Some(_) => false,
    }
}

// What is told of a declaration that is doubled.
fn doubled_at<'a>(walk: &ScopeWalk<'a>, declaration: Declaration) -> Doubled<'a>
    requires { declaration.name < length walk.now.names.keys }
    ensures { IsDoubledTold walk.now declaration result }
{
    let name = walk.names[declaration.name];
    Doubled {
        place: declaration.place,
        name: name.sym,
    }
}

// The number of the scope that takes a declared name, and those of the scopes in which no other declaration may
// have it.
#[derive(Drop)]
struct Reach {
    taker: usize,
    barred: Vec<usize>,
}

fn reach_of<'a>(
    alloc: Global,
    walk: &ScopeWalk<'a>,
    declaration: Declaration,
) -> Result<Reach, AllocError>
    ensures { IfOk result (ReachesSoFar walk.now declaration) }
{
    let taker = taker_of(&walk.scopes, declaration.way, declaration.scope);
    let barred = if is_var(declaration.way) {
        passed_by(alloc, &walk.scopes, declaration.way, declaration.scope)?
    } else {
        held_by(alloc, &walk.scopes, walk.top, declaration.way, taker)?
    };
    Ok(Reach {
        taker: taker.unwrap_or(walk.top),
        barred,
    })
}

// The scopes from one on outwards that a name declared in this way passes, up to the one that takes it.
fn passed_by(
    alloc: Global,
    scopes: &[Scope],
    way: Way,
    from: usize,
) -> Result<Vec<usize>, AllocError>
    ensures { IfOk result (λ passed.
        passed.items ≡ passed_at (map numbered_scope scopes.now) way from) }
{
    let mut passed = Vec::new(alloc);
    let mut at = Some(from);
    for _ in 0..scopes.len() {
        let Some(number) = at else {
            return Ok(passed);
        };
        if takes_at(scopes, way, number) {
            return Ok(passed);
        }
        passed.push(number)?;
        at = outer_at(scopes, number);
    }
    Ok(passed)
}

// The scope of a name that stands there once, and the one beside it; none for a name that may stand twice.
fn held_by(
    alloc: Global,
    scopes: &[Scope],
    top: usize,
    way: Way,
    taker: Option<usize>,
) -> Result<Vec<usize>, AllocError>
    ensures { IfOk result (λ held.
        HoldsNumbered (map numbered_scope scopes.now) top way taker held.items) }
{
    let mut held = Vec::new(alloc);
    if !stands_once(scopes, way, taker) {
        return Ok(held);
    }
    held.push(taker.unwrap_or(top))?;
    held.push(group_of(scopes, top, taker))?;
    Ok(held)
}

// Whether a name that is declared in this way may stand only once in the scope that takes it.
fn stands_once(scopes: &[Scope], way: Way, taker: Option<usize>) -> bool
    ensures { (by : declarations.Way) (around : List Scopes.Scope) →
        way ≡ way_named by →
        AreAround (map numbered_scope scopes.now) taker around →
        result ≡ doubled.stands_once by around }
{
    match way {
        Way::Import | Way::Let | Way::Const | Way::Class | Way::Default | Way::Loop => true,
        Way::Function => !may_double_functions(scopes, taker),
        _ => false,
    }
}

// Whether functions may be doubled in a scope, as a `var` may: at the top of a body, and not in a block or at
// the top of a module.
fn may_double_functions(scopes: &[Scope], taker: Option<usize>) -> bool
    ensures { (around : List Scopes.Scope) →
        AreAround (map numbered_scope scopes.now) taker around →
        result ≡ doubled.may_double_functions around }
{
    let Some(number) = taker else {
        return false;
    };
    let Some(scope) = scope_at(scopes, number) else {
        return false;
    };
    match scope.kind {
        ScopeKind::Top => is_wrapper_at(scopes, scope.outer),
        ScopeKind::FunctionBody | ScopeKind::StaticBody => true,
        _ => false,
    }
}

// Whether a scope is that of the parameters of a CommonJS module.
fn is_wrapper_at(scopes: &[Scope], number: Option<usize>) -> bool
    ensures { (around : List Scopes.Scope) →
        AreAround (map numbered_scope scopes.now) number around → result ≡ begins_wrapped around }
{
    let Some(number) = number else {
        return false;
    };
    match scope_at(scopes, number) {
        None => false,
        Some(scope) => is_wrapper(scope.kind),
    }
}

// The number of the scope whose names keep apart from those of the taker.
fn group_of(scopes: &[Scope], top: usize, taker: Option<usize>) -> usize
    ensures { (around : List Scopes.Scope) (kind : Scopes.ModuleKind) →
        AreAround (map numbered_scope scopes.now) (Some top) (outermost kind) →
        AreAround (map numbered_scope scopes.now) taker around →
        chains.numbered_scope_at (map numbered_scope scopes.now) result
        ≡ Some (homes.group_of around) }
{
    match taker {
        None => top,
        Some(number) => group_at(scopes, number),
    }
}

// The same of the scope with a number.
fn group_at(scopes: &[Scope], number: usize) -> usize
    ensures { (around : List Scopes.Scope) →
        AreAround (map numbered_scope scopes.now) (Some number) around →
        chains.numbered_scope_at (map numbered_scope scopes.now) result
        ≡ Some (homes.group_of around) }
{
    match scope_at(scopes, number) {
        Some(scope) if joins_outer(scope.kind) => scope.outer.unwrap_or(number),
        _ => number,
    }
}

// The declarations that were met: the number of the scope that takes each and that of its name, and those of the
// scopes in which no other declaration may have the name.
#[derive(Drop)]
struct Met {
    taken: Keys,
    barred: Keys,
}

impl Met {
    fn new(alloc: Global, mixed: Mixed) -> Met
        ensures taken { result.taken.keys ≡ [] }
        ensures barred { result.barred.keys ≡ [] }
    {
        Met {
            taken: IndexSet::with_hasher(alloc, mixed),
            barred: IndexSet::with_hasher(alloc, mixed),
        }
    }

    // The first declaration of a walk that may not stand beside those before it, which are added. What is declared
    // once is passed over.
    fn first_excluded<'a>(
        &mut self,
        alloc: Global,
        walk: &ScopeWalk<'a>,
        times: &[Times],
    ) -> Result<Option<Doubled<'a>>, AllocError>
        requires named { AreDeclarationsNumbered walk.now }
        requires counted { AreCounted walk.now.declarations.items times.now }
        requires taken { self.old.taken.keys ≡ [] }
        requires barred { self.old.barred.keys ≡ [] }
        ensures { IfOk result (TellsFirstDoubled walk.now) }
    {
        for declaration in &walk.declarations {
            if !is_often(times, declaration.name) {
                continue;
            }
            let reach = reach_of(alloc, walk, *declaration)?;
            if self.excludes(declaration.name, &reach) {
                return Ok(Some(doubled_at(walk, *declaration)));
            }
            self.add(declaration.name, &reach)?;
        }
        Ok(None)
    }

    // Whether one that was met may not have a name beside a declaration that reaches so far.
    fn excludes(&self, name: usize, reach: &Reach) -> bool
        ensures { result
            ≡ (list_any (same_key (reach.now.taker, name)) self.now.barred.keys
            || has_any self.now.taken.keys name reach.now.barred.items) }
    {
        if self.barred.contains(&(reach.taker, name)) {
            return true;
        }
        is_taken(&self.taken, name, &reach.barred)
    }

    // Adds a declaration.
    fn add(&mut self, name: usize, reach: &Reach) -> Result<(), AllocError>
        ensures taken { OnOk result
            ((key : ScopeKey) →
            list_any (same_key key) self.new.taken.keys
            ≡ (list_any (same_key key) self.old.taken.keys
            || same_key key (reach.now.taker, name))) }
        ensures barred { OnOk result
            ((key : ScopeKey) →
            list_any (same_key key) self.new.barred.keys
            ≡ (list_any (same_key key) self.old.barred.keys
            || is_key_in key name reach.now.barred.items)) }
    {
        put_key(&mut self.taken, (reach.taker, name))?;
        put_keys(&mut self.barred, name, &reach.barred)?;
        Ok(())
    }
}

// Whether one of these scopes takes a name that was met.
fn is_taken(taken: &Keys, name: usize, scopes: &[usize]) -> bool
    ensures { result ≡ has_any taken.now.keys name scopes.now }
{
    for scope in scopes {
        if taken.contains(&(*scope, name)) {
            return true;
        }
    }
    false
}

// Adds a key.
fn put_key(keys: &mut Keys, key: (usize, usize)) -> Result<(), AllocError>
    ensures { OnOk result
        ((other : ScopeKey) →
        list_any (same_key other) keys.new.keys
        ≡ (list_any (same_key other) keys.old.keys || same_key other key)) }
{
    keys.insert_full(key)?;
    Ok(())
}

// Adds a name in each of these scopes.
fn put_keys(keys: &mut Keys, name: usize, scopes: &[usize]) -> Result<(), AllocError>
    ensures { OnOk result
        ((other : ScopeKey) →
        list_any (same_key other) keys.new.keys
        ≡ (list_any (same_key other) keys.old.keys || is_key_in other name scopes.now)) }
{
    for scope in scopes {
        put_key(keys, (*scope, name))?;
    }
    Ok(())
}

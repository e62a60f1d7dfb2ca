//! To which scope each declared name belongs, and the bindings that follow.

ghost use Rattle.std.specs.Prelude.{◌≡◌, ◌<◌, ◌||◌, IfOk, List, OnOk, Some, length, map, slice_get};
ghost use Rattle.std.specs.List.{list_any};
ghost use Rattle.std.specs.Option.{option_map};
ghost use Rattle.bundle_rules.specs.Declarations as declarations;
ghost use Rattle.bundle_scope_denote.specs.Kinds.{joins_by, takes_by};
ghost use Rattle.bundle_scope_denote.specs.Numbers.{name_as, numbered_scope};
ghost use Rattle.bundle_scope_denote.specs.Chains as chains;
ghost use Rattle.bundle_scope_denote.specs.Chains.{nearest_at, passes};
ghost use Rattle.bundle_scope_denote.specs.Bound as bound;
ghost use Rattle.bundle_scope_denote.specs.Bound.{ScopeKey, home_from, is_parameter_key, put_key, same_key};
ghost use Rattle.bundle_scope_denote.specs.Ready.{AddsHome, AreHomes, AreHomesOf, AreDeclarationsNumbered, FindsAlone, Matches, binding_name, has_parameter, taken_key};

use crate::kinds::{has_parameters, holds_parameters, joins_parameter, takes};
use crate::mixed::Mixed;
use crate::table::{Binding, Scope, Way};
use crate::walk::{Declaration, NameKey, ScopeWalk};
use indexmap::IndexSet;
use std::alloc::{AllocError, Global};

/// Numbers of scopes, each with that of a name.
pub(crate) type Keys = IndexSet<(usize, usize), Mixed>;

/// The bindings, with the number of the scope and that of the name of each.
#[derive(Drop)]
pub(crate) struct Bindings<'a> {
    pub(crate) keys: Keys,
    pub(crate) items: Vec<Binding<'a>>,
}

impl<'a> Bindings<'a> {
    /// The number of the binding with a key, which it gets if it has none.
    pub(crate) fn number_of(
        &mut self,
        key: (usize, usize),
        binding: Binding<'a>,
    ) -> Result<usize, AllocError>
        ensures keys { OnOk result (self.new.keys.keys ≡ put_key self.old.keys.keys key) }
        ensures number { IfOk result (λ number. slice_get self.new.keys.keys number ≡ Some key) }
        ensures items { OnOk result
            ((names : List declarations.Name) →
            slice_get names key.1 ≡ Some (binding_name binding.entry) →
            binding.entry.scope ≡ key.0 →
            Matches names self.old.items.items self.old.keys.keys →
            Matches names self.new.items.items self.new.keys.keys) }
    {
        let (number, is_new) = self.keys.insert_full(key)?;
        if !is_new {
            return Ok(number);
        }
        self.items.push(binding)?;
        Ok(number)
    }
}

/// The bindings of the declarations that were met, and the number of that of each declaration.
#[derive(Drop)]
pub(crate) struct Homes<'a> {
    pub(crate) bindings: Bindings<'a>,
    pub(crate) of: Vec<usize>,
}

/// The homes of the declarations that were met, in their order.
pub(crate) fn homes_of<'a>(alloc: Global, walk: &ScopeWalk<'a>) -> Result<Homes<'a>, AllocError>
    requires { AreDeclarationsNumbered walk.now }
    ensures { IfOk result (AreHomes walk.now walk.now.declarations.items) }
{
    let parameters = parameters_of(alloc, walk)?;
    let homes = homes_by(alloc, walk, &parameters)?;
    Ok(homes)
}

// The same by the names of the parameters.
fn homes_by<'a>(
    alloc: Global,
    walk: &ScopeWalk<'a>,
    parameters: &Keys,
) -> Result<Homes<'a>, AllocError>
    requires { AreDeclarationsNumbered walk.now }
    ensures { IfOk result (AreHomesOf walk.now parameters.now.keys walk.now.declarations.items) }
{
    let count = walk.declarations.len();
    let keys = IndexSet::with_capacity_and_hasher(alloc, count, *walk.names.hasher())?;
    let items = Vec::with_capacity(alloc, count)?;
    let of = Vec::with_capacity(alloc, count)?;
    let mut homes = Homes {
        bindings: Bindings { keys, items },
        of,
    };
    for declaration in &walk.declarations {
        homes.add(walk, parameters, *declaration)?;
    }
    Ok(homes)
}

impl<'a> Homes<'a> {
    // Adds the home of a declaration.
    fn add(
        &mut self,
        walk: &ScopeWalk<'a>,
        parameters: &Keys,
        declaration: Declaration,
    ) -> Result<(), AllocError>
        requires { declaration.name < length walk.now.names.keys }
        ensures { OnOk result
            (AddsHome walk.now parameters.now.keys declaration self.old self.new) }
    {
        let name = walk.names[declaration.name];
        let alone = alone_of(&walk.names, name, declaration.name);
        let scope = home_of(walk, parameters, declaration, alone);
        let binding = Binding {
            scope,
            sym: name.sym,
            ctxt: name.ctxt,
        };
        let number = self.bindings.number_of((scope, declaration.name), binding)?;
        self.of.push(number)?;
        Ok(())
    }
}

/// The number of the name without a context that has the symbol of a name with a number.
pub(crate) fn alone_of<'a>(
    names: &IndexSet<NameKey<'a>, Mixed>,
    name: NameKey<'a>,
    number: usize,
) -> Option<usize>
    ensures { slice_get names.now.keys number ≡ Some name.entry →
        FindsAlone (map name_as names.now.keys) name.entry.sym.now result }
{
    match name.ctxt {
        None => Some(number),
        Some(_) => without_context(names, name.sym),
    }
}

// The number of the name without a context that has this symbol.
fn without_context<'a>(names: &IndexSet<NameKey<'a>, Mixed>, sym: &'a str) -> Option<usize>
    ensures { FindsAlone (map name_as names.now.keys) sym.now result }
{
    names.get_index_of(&NameKey { sym, ctxt: None })
}

// Each scope of parameters with the name of each parameter.
fn parameters_of<'a>(alloc: Global, walk: &ScopeWalk<'a>) -> Result<Keys, AllocError>
    ensures { IfOk result (λ parameters.
        (key : ScopeKey) →
        list_any (same_key key) parameters.keys
        ≡ list_any (is_parameter_key (map numbered_scope walk.now.scopes.items) key)
        (map (taken_key (map numbered_scope walk.now.scopes.items) walk.now.top)
        walk.now.declarations.items)) }
{
    let mut parameters = IndexSet::with_hasher(alloc, *walk.names.hasher());
    for declaration in &walk.declarations {
        let taker = taker_of(&walk.scopes, declaration.way, declaration.scope).unwrap_or(walk.top);
        put_parameter(&mut parameters, &walk.scopes, (taker, declaration.name))?;
    }
    Ok(parameters)
}

// Adds a name to the parameters, if the scope is that of parameters.
fn put_parameter(
    parameters: &mut Keys,
    scopes: &[Scope],
    key: (usize, usize),
) -> Result<(), AllocError>
    ensures { OnOk result
        ((other : ScopeKey) →
        list_any (same_key other) parameters.new.keys
        ≡ (list_any (same_key other) parameters.old.keys
        || is_parameter_key (map numbered_scope scopes.now) other key)) }
{
    if !holds_parameters_at(scopes, key.0) {
        return Ok(());
    }
    parameters.insert_full(key)?;
    Ok(())
}

// The scope to which a declared name belongs; `alone` is the number of its symbol without a context.
fn home_of<'a>(
    walk: &ScopeWalk<'a>,
    parameters: &Keys,
    declaration: Declaration,
    alone: Option<usize>,
) -> usize
    ensures { result
        ≡ home_from (map numbered_scope walk.now.scopes.items) walk.now.top
        (joins_by declaration.way)
        (has_parameter parameters.now.keys declaration.name alone)
        (nearest_at (map numbered_scope walk.now.scopes.items)
        (passes (takes_by declaration.way) (map numbered_scope walk.now.scopes.items))
        declaration.scope) }
{
    let Some(taker) = taker_of(&walk.scopes, declaration.way, declaration.scope) else {
        return walk.top;
    };
    if !joins_parameter(declaration.way) {
        return taker;
    }
    let Some(beside) = beside_at(&walk.scopes, taker) else {
        return taker;
    };
    if is_parameter(parameters, beside, declaration.name, alone) {
        beside
    } else {
        taker
    }
}

// Whether a scope has a parameter of this name, or of its symbol without a context.
fn is_parameter(parameters: &Keys, scope: usize, name: usize, alone: Option<usize>) -> bool
    ensures { result ≡ has_parameter parameters.now.keys name alone scope }
{
    if parameters.contains(&(scope, name)) {
        return true;
    }
    match alone {
        None => false,
        Some(alone) => parameters.contains(&(scope, alone)),
    }
}

/// The number of the nearest scope, from one on outwards, that takes a name declared in this way.
pub(crate) fn taker_of(scopes: &[Scope], way: Way, from: usize) -> Option<usize>
    ensures { result
        ≡ nearest_at (map numbered_scope scopes.now)
        (passes (takes_by way) (map numbered_scope scopes.now))
        from }
{
    let mut at = Some(from);
    for _ in 0..scopes.len() {
        let Some(number) = at else {
            return None;
        };
        if takes_at(scopes, way, number) {
            return Some(number);
        }
        at = outer_at(scopes, number);
    }
    None
}

/// Whether the scope with a number takes a name declared in this way, if it is the nearest such one.
pub(crate) fn takes_at(scopes: &[Scope], way: Way, number: usize) -> bool
    ensures { result ≡ passes (takes_by way) (map numbered_scope scopes.now) number }
{
    match scope_at(scopes, number) {
        None => false,
        Some(scope) => takes(way, scope.kind),
    }
}

/// The number of the scope around the one with a number.
pub(crate) fn outer_at(scopes: &[Scope], number: usize) -> Option<usize>
    ensures { result ≡ chains.outer_at (map numbered_scope scopes.now) number }
{
    match scope_at(scopes, number) {
        None => None,
        Some(scope) => scope.outer,
    }
}

/// The scope with a number.
pub(crate) fn scope_at(scopes: &[Scope], number: usize) -> Option<Scope>
    ensures { option_map numbered_scope result ≡ slice_get (map numbered_scope scopes.now) number }
{
    scopes.get(number).copied()
}

// The number of the scope of the parameters of the function of which a scope is the body.
fn beside_at(scopes: &[Scope], body: usize) -> Option<usize>
    ensures { result ≡ bound.beside_at (map numbered_scope scopes.now) body }
{
    if has_parameters_at(scopes, body) {
        outer_at(scopes, body)
    } else {
        None
    }
}

// Whether the scope with a number is a body that has parameters beside it.
fn has_parameters_at(scopes: &[Scope], number: usize) -> bool
    ensures { result ≡ passes bound.has_parameters (map numbered_scope scopes.now) number }
{
    match scope_at(scopes, number) {
        None => false,
        Some(scope) => has_parameters(scope.kind),
    }
}

// Whether the scope with a number is that of parameters.
fn holds_parameters_at(scopes: &[Scope], number: usize) -> bool
    ensures { result ≡ passes bound.holds_parameters (map numbered_scope scopes.now) number }
{
    match scope_at(scopes, number) {
        None => false,
        Some(scope) => holds_parameters(scope.kind),
    }
}

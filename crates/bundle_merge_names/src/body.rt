//! What becomes of the names and nodes of a module: each occurrence gets its name in the bundle, which may replace
//! the static reads or the literal call of `require` around it, and `import.meta` gets one too.

ghost use Rattle.std.specs.Prelude.{◌≡◌, ◌==◌, ℕ, suc, List, Some, None, IfOk, map, option_map, slice_get, if◌then◌else◌};
ghost use Rattle.std.specs.BTreeMap.{get_by_text};
ghost use Rattle.bundle_syntax.specs.Item.{item_of};
ghost use Rattle.bundle_tree_places.specs.Marks.{ident_of};
ghost use Rattle.bundle_tree_rebuild.specs.declared.rewrite.Whole.TheVariants as wholes;
ghost use Rattle.bundle_rules.specs.Program.{Program};
ghost use Rattle.bundle_rules.specs.Declarations.{BySymbol};
ghost use Rattle.bundle_rules.specs.Scopes.{ModuleKind};
ghost use Rattle.bundle_scope_denote.specs.Listed.{IsDenotationTable};
ghost use Rattle.bundle_scope_names.proofs.Numbering.{Numbering};
ghost use Rattle.bundle_merge_names.specs.declared.names.Label.TheVariants as kinds;
ghost use Rattle.bundle_merge_theory.specs.made.Given as given;
ghost use Rattle.bundle_merge_names.specs.Bundle.{list_of_part};
ghost use Rattle.bundle_merge_names.specs.Body.{IsModuleReadAs, IsRewritten, AreOwnSteps, AreModuleRewrites, module_called, is_call_at, is_use_at, past_by};
ghost use Rattle.bundle_merge_names.specs.Idents.{label_ident, object_ident, target_ident};
ghost use Rattle.bundle_merge_names.specs.Numbers.{AreNumbersOf};
ghost use Rattle.bundle_merge_names.specs.Own as own;
ghost use Rattle.bundle_merge_names.specs.Own.{IsOwnName};
ghost use Rattle.bundle_merge_theory.specs.made.Steps.{meta_ident, whole_of};

use crate::context::GLOBAL;
use crate::names::{BundleNames, Label};
use crate::part::BundleModule;
use bundle_link_tables::{RequireCall, Use};
use bundle_link_targets::{Linking, Meaning};
use bundle_scope_denote::{Binding, Denotations, Denoted};
use bundle_syntax::Piece;
use bundle_tree_places::Name;
use bundle_tree_rebuild::{Rewrite, Whole};
use std::alloc::{AllocError, Global};

/// What becomes of the occurrences of a list, in turn, and the name of `import.meta` in it, if it has one.
#[derive(Drop)]
pub struct Body<'a> {
    pub rewrites: Vec<Rewrite<'a>>,
    pub meta: Option<Name<'a>>,
}

/// What becomes of a module, where this is the list of its own items.
pub fn body_of<'a>(
    alloc: Global,
    part: &BundleModule<'_, 'a>,
    pieces: &[Piece<'a>],
    which: usize,
    linking: &Linking<'a>,
    names: &BundleNames<'a>,
) -> Result<Body<'a>, AllocError>
    requires { map item_of pieces.now ≡ list_of_part part.now }
    ensures rewrites { IfOk result (λ body.
        (p : Program) (list : List ℕ) (context : given.BundleContexts) (kind : ModuleKind) →
        IsModuleReadAs p list context which kind part.now linking.now names.now →
        AreModuleRewrites p list context which kind body.rewrites.items) }
    ensures meta { IfOk result (λ body.
        (p : Program) (list : List ℕ) (context : given.BundleContexts) (kind : ModuleKind) →
        IsModuleReadAs p list context which kind part.now linking.now names.now →
        option_map ident_of body.meta ≡ meta_ident p list context which) }
{
    let rewrites = rewrites_of(alloc, part, pieces, which, linking, names)?;
    let meta = meta_of(part, which, names);
    Ok(Body { rewrites, meta })
}

// What becomes of the occurrences of a module, in turn.
fn rewrites_of<'a>(
    alloc: Global,
    part: &BundleModule<'_, 'a>,
    pieces: &[Piece<'a>],
    which: usize,
    linking: &Linking<'a>,
    names: &BundleNames<'a>,
) -> Result<Vec<Rewrite<'a>>, AllocError>
    requires { map item_of pieces.now ≡ list_of_part part.now }
    ensures { IfOk result (λ rewrites.
        (p : Program) (list : List ℕ) (context : given.BundleContexts) (kind : ModuleKind) →
        IsModuleReadAs p list context which kind part.now linking.now names.now →
        AreModuleRewrites p list context which kind rewrites.items) }
{
    let scopes = names.scopes(which);
    let mut rewrites = Vec::new(alloc);
    let mut uses = 0;
    let mut calls = 0;
    for occurrence in &part.denotations.occurrences {
        let place = occurrence.place;
        let own = own_of(pieces, part.denotations, scopes, occurrence);
        rewrites.push(rewrite_of(part, which, linking, names, uses, calls, place, own))?;
        uses = uses_past(&part.tables.uses, uses, place);
        calls = calls_past(&part.tables.calls, calls, place);
    }
    Ok(rewrites)
}

// What becomes of the occurrence at a place, behind so many uses and calls, whose own name is told: a use that means
// something becomes that, and the name of a literal call that leads to a module becomes its load function.
fn rewrite_of<'a>(
    part: &BundleModule<'_, 'a>,
    which: usize,
    linking: &Linking<'a>,
    names: &BundleNames<'a>,
    uses: usize,
    calls: usize,
    place: usize,
    own: Rewrite<'a>,
) -> Rewrite<'a>
    ensures { IsRewritten part.now which linking.now names.now uses calls place own.entry result }
{
    if is_use(&part.tables.uses, uses, place) {
        if let Some(meaning) = linking.meaning(which, uses) {
            return meant(names, meaning);
        }
    }
    match called(part, calls, place) {
        Some(which) => load(names, which),
        None => own,
    }
}

// Whether the use with this number stands at a place.
fn is_use(uses: &[Use<'_>], number: usize, place: usize) -> bool
    ensures { result ≡ is_use_at place (slice_get uses.now number) }
{
    match uses.get(number) {
        Some(used) => used.place == place,
        None => false,
    }
}

// How many uses stand before what is behind a place, where so many stand before the place.
fn uses_past(uses: &[Use<'_>], number: usize, place: usize) -> usize
    ensures { result ≡ past_by (is_use_at place (slice_get uses.now number)) number }
{
    match uses.get(number) {
        Some(used) if used.place == place => number + 1,
        _ => number,
    }
}

// How many calls have names before what is behind a place, where so many have names before the place.
fn calls_past(calls: &[RequireCall<'_>], number: usize, place: usize) -> usize
    ensures { result ≡ past_by (is_call_at place (slice_get calls.now number)) number }
{
    match calls.get(number) {
        Some(call) if is_next(call.place, place) => number + 1,
        _ => number,
    }
}

// The module to which the call with this number leads, if its name stands at a place.
fn called(part: &BundleModule<'_, '_>, number: usize, place: usize) -> Option<usize>
    ensures { result ≡ module_called (get_by_text part.now.leads.now) place
        (slice_get part.now.tables.now.calls.items number) }
{
    match part.tables.calls.get(number) {
        Some(call) if is_next(call.place, place) => part.leads.get(call.specifier).copied(),
        _ => None,
    }
}

// Whether a place is the next behind another.
fn is_next(place: usize, other: usize) -> bool
    ensures { result ≡ (suc place == other) }
{
    place < other && other - place == 1
}

// The name of the object for `import.meta` in a module, if it has one: that of the statement which holds it already, or
// the one that it was given.
fn meta_of<'a>(
    part: &BundleModule<'_, 'a>,
    which: usize,
    names: &BundleNames<'a>,
) -> Option<Name<'a>>
    ensures { option_map ident_of result
        ≡ (if part.now.tables.now.has_import_meta
        then Some (object_ident names.now part.now.written which)
        else None) }
{
    if !part.tables.has_import_meta {
        return None;
    }
    match part.written {
        Some(name) => Some(name),
        None => Some(names.of(Label::Meta { which })),
    }
}

/// The names that a list's occurrences have where no other module is asked: a global has the context of the globals,
/// and any other name that of the scope which binds it.
pub fn own_names<'h>(
    alloc: Global,
    pieces: &[Piece<'h>],
    denotations: &Denotations<'h>,
    scopes: &[Option<u32>],
) -> Result<Vec<Rewrite<'h>>, AllocError>
    ensures { IfOk result (λ rewrites.
        (kind : ModuleKind) (g : Numbering) →
        IsDenotationTable BySymbol kind (map item_of pieces.now) denotations.now →
        AreNumbersOf kind (map item_of pieces.now) denotations.now g scopes.now →
        AreOwnSteps kind (map item_of pieces.now) g rewrites.items) }
{
    own_rewrites(alloc, pieces, denotations, scopes)
}

// The same, as the table tells them.
fn own_rewrites<'h>(
    alloc: Global,
    pieces: &[Piece<'h>],
    denotations: &Denotations<'h>,
    scopes: &[Option<u32>],
) -> Result<Vec<Rewrite<'h>>, AllocError>
    ensures { IfOk result (λ rewrites. map own.rewrite_told rewrites.items
        ≡ map (own.own_told (map item_of pieces.now) denotations.now scopes.now)
        denotations.now.occurrences.items) }
{
    let mut rewrites = Vec::new(alloc);
    for occurrence in &denotations.occurrences {
        rewrites.push(own_name(pieces, denotations, scopes, occurrence))?;
    }
    Ok(rewrites)
}

// The same of one occurrence.
fn own_of<'h>(
    pieces: &[Piece<'h>],
    denotations: &Denotations<'h>,
    scopes: &[Option<u32>],
    occurrence: &Denoted,
) -> Rewrite<'h>
    ensures { IsOwnName (map item_of pieces.now) denotations.now scopes.now occurrence.now result }
{
    own_name(pieces, denotations, scopes, occurrence)
}

// The name that an occurrence has where no other module is asked.
fn own_name<'h>(
    pieces: &[Piece<'h>],
    denotations: &Denotations<'h>,
    scopes: &[Option<u32>],
    occurrence: &Denoted,
) -> Rewrite<'h>
    ensures { own.rewrite_told result
        ≡ own.own_told (map item_of pieces.now) denotations.now scopes.now occurrence.now }
{
    let sym = symbol_at(pieces, occurrence.place);
    let ctxt = context_for(scopes, binding_of(denotations, occurrence));
    alone(Name { sym, ctxt })
}

// An occurrence becomes this name, which stands for no more.
fn alone<'a>(name: Name<'a>) -> Rewrite<'a>
    ensures { own.rewrite_told result ≡ (ident_of name.entry, wholes.Alone) }
{
    let whole = Whole::Alone;
    Rewrite { name, whole }
}

// The binding that an occurrence denotes.
fn binding_of<'a>(denotations: &Denotations<'a>, occurrence: &Denoted) -> Option<Binding<'a>>
    ensures { result ≡ own.binding_in denotations.now.bindings.items occurrence.now.binding }
{
    denotations.bindings.get(occurrence.binding?).copied()
}

// The context of what is denoted, a binding or a global.
fn context_for(scopes: &[Option<u32>], binding: Option<Binding<'_>>) -> u32
    ensures { result ≡ own.context_by scopes.now binding.entry }
{
    match binding {
        Some(binding) => context_at(scopes, binding.scope),
        None => GLOBAL,
    }
}

// The context of a scope. One that binds what occurs has one.
fn context_at(scopes: &[Option<u32>], scope: usize) -> u32
    ensures { result ≡ own.context_in scopes.now scope }
{
    match scopes.get(scope) {
        Some(Some(context)) => *context,
        _ => GLOBAL,
    }
}

// The symbol of the identifier at a place.
fn symbol_at<'a>(pieces: &[Piece<'a>], place: usize) -> &'a str
    ensures { result.now ≡ own.ident_symbol (slice_get (map item_of pieces.now) place) }
{
    match pieces.get(place) {
        Some(Piece::Ident { sym, .. }) => *sym,
        _ => "",
    }
}

// A use becomes the name of what it means, in place of the reads around it by which it means that.
fn meant<'a>(names: &BundleNames<'a>, meaning: Meaning<'a>) -> Rewrite<'a>
    ensures { own.rewrite_told result
        ≡ (target_ident names.now meaning.entry.target, whole_of meaning.entry.steps) }
{
    let name = names.target(meaning.target);
    let whole = whole_by(meaning.steps);
    Rewrite { name, whole }
}

// How much a name stands for that stands for so many reads.
fn whole_by(steps: usize) -> Whole
    ensures { result ≡ whole_of steps }
{
    match steps {
        0 => Whole::Alone,
        steps => Whole::Reads(steps),
    }
}

// The name of a literal call of `require` becomes that of the module's load function, and the call one of it.
fn load<'a>(names: &BundleNames<'a>, which: usize) -> Rewrite<'a>
    ensures { own.rewrite_told result ≡ (label_ident names.now (kinds.Load which), wholes.Call) }
{
    let name = names.of(Label::Load { which });
    let whole = Whole::Call;
    Rewrite { name, whole }
}

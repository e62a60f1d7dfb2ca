//! The module of what was merged: no binding has a keyword's name, no two names clash, and it is one function's call
//! where the settings say so.

ghost use Rattle.std.specs.Prelude.{◌≡◌, IfOk, map, if◌then◌else◌};
ghost use Rattle.bundle_scope_names.specs.declared.names.ContextRule.TheVariants.{Clear, Keep};
ghost use Rattle.bundle_syntax.specs.Item.{item_of};
ghost use Rattle.bundle_rules.specs.Forms.{wrapped};
ghost use Rattle.bundle_merge_forms.specs.Wrapped.{CanBeWrapped};
ghost use Rattle.bundle_scope_denote.specs.Chains.{AreInOrder};
ghost use Rattle.bundle_scope_denote.specs.Numbers.{numbered_scope};
ghost use Rattle.bundle_tree_listed.specs.Tree.{module_items};
ghost use Rattle.bundle_merge_theory.specs.finished.Ended.{AreEndNames, IsNamedAtOnce};
ghost use Rattle.bundle_tree_rename.specs.Naming.{naming_of};
ghost use Rattle.bundler_entry.specs.Finished.{IsEnded, IsFinished, NamesInTurn, context_kept, is_renaming, naming_for};

use bundle_merge_forms::wrap_with_iife;
use bundle_scope_denote::{Denotations, Denoted, ModuleKind, Reading, denotations};
use bundle_scope_names::{ContextRule, Names, hygienic_names, keyword_names};
use bundle_syntax::Piece;
use bundle_tree_ast::Module;
use bundle_tree_list::pieces_of_module;
use bundle_tree_names::config::{Config, ModuleType};
use bundle_tree_rename::{NewName, Rename};
use std::alloc::{AllocError, Global};

/// The module of what was merged. Both keywords and names are renamed in one go, where they stand.
pub fn finished(alloc: Global, mut merged: Module, config: &Config) -> Result<Module, AllocError>
    ensures { IfOk result (λ made.
        IsFinished config.now (module_items 0 merged) (module_items 0 made)) }
{
    give_names(alloc, &mut merged, config)?;
    match config.module {
        ModuleType::Es => Ok(merged),
        ModuleType::Iife => called(alloc, &merged),
    }
}

// A module as the call of one function.
fn called(alloc: Global, tree: &Module) -> Result<Module, AllocError>
    ensures { CanBeWrapped tree.now.body.items → IfOk result
        (λ made. module_items 0 made ≡ wrapped (module_items 0 tree.now)) }
{
    match wrap_with_iife(alloc, tree) {
        Ok(call) => Ok(call),
        Err(_) => Err(AllocError),
    }
}

// What was merged gets the names that its bindings have in the end.
fn give_names(alloc: Global, merged: &mut Module, config: &Config) -> Result<(), AllocError>
    ensures at_once { IfOk result (λ done. IsNamedAtOnce (is_renaming config.now)
        (module_items 0 merged.old) (module_items 0 merged.new)) }
    ensures in_turn { IfOk result (λ done. NamesInTurn (is_renaming config.now)
        (module_items 0 merged.old) (module_items 0 merged.new)) }
{
    let ended = end_names(alloc, merged, config)?;
    let names = new_names(alloc, &ended.names, &ended.bindings, contexts_of(config))?;
    let mut rename = Rename::new(alloc, &names);
    rename.module(merged)
}

// What the bindings of a module are called in the end, and which of them its occurrences denote in turn.
#[derive(Drop)]
struct EndNames {
    names: Names,
    bindings: Vec<Option<usize>>,
}

// The same of what was merged.
fn end_names(alloc: Global, merged: &Module, config: &Config) -> Result<EndNames, AllocError>
    ensures { IfOk result (λ ended. IsEnded (is_renaming config.now) (module_items 0 merged.now)
        ended.names ended.bindings.items) }
{
    let list = list_of(alloc, merged)?;
    let denoted = denotations(alloc, &list, ModuleKind::Es, Reading::ByContext)?;
    let names = names_of(alloc, &list, &denoted, config)?;
    let bindings = bindings_of(alloc, &denoted.occurrences)?;
    Ok(EndNames { names, bindings })
}

// The list of a module, without room for more.
fn list_of<'x>(alloc: Global, tree: &'x Module) -> Result<Vec<Piece<'x>>, AllocError>
    ensures { IfOk result (λ list. map item_of list.items ≡ module_items 0 tree.now) }
{
    let mut list = pieces_of_module(alloc, tree)?;
    list.shrink_to_fit();
    Ok(list)
}

// Which bindings are denoted in turn.
fn bindings_of(alloc: Global, denoted: &[Denoted]) -> Result<Vec<Option<usize>>, AllocError>
    ensures { IfOk result (λ bindings.
        bindings.items ≡ map (λ denoted. denoted.binding) denoted.now) }
{
    let mut bindings = Vec::with_capacity(alloc, denoted.len())?;
    for its in denoted {
        bindings.push(its.binding)?;
    }
    Ok(bindings)
}

// What becomes of identifiers that denote these bindings in turn, where contexts stay or are 0.
fn new_names<'n>(
    alloc: Global,
    names: &'n Names,
    bindings: &[Option<usize>],
    contexts: ContextRule,
) -> Result<Vec<NewName<'n>>, AllocError>
    ensures { IfOk result (λ new.
        map naming_of new.items ≡ map (naming_for names.now contexts) bindings.now) }
{
    let mut new = Vec::with_capacity(alloc, bindings.len())?;
    for binding in bindings {
        new.push(new_name(names, *binding, contexts))?;
    }
    Ok(new)
}

// What becomes of an identifier that denotes this binding, or a global.
fn new_name<'n>(names: &'n Names, binding: Option<usize>, contexts: ContextRule) -> NewName<'n>
    ensures { naming_of result ≡ naming_for names.now contexts binding }
{
    match binding {
        None => NewName {
            sym: None,
            ctxt: new_context(contexts, None),
        },
        Some(number) => NewName {
            sym: names.text_of(number),
            ctxt: new_context(contexts, names.context_of(number)),
        },
    }
}

// The context that an identifier gets, which is 0 where contexts do not stay.
fn new_context(contexts: ContextRule, ctxt: Option<u32>) -> Option<u32>
    ensures { result ≡ context_kept contexts ctxt }
{
    match contexts {
        ContextRule::Keep => ctxt,
        ContextRule::Clear => Some(0),
    }
}

// Whether contexts stay: they do where bindings are not renamed.
fn contexts_of(config: &Config) -> ContextRule
    ensures { result ≡ (if is_renaming config.now then Clear else Keep) }
{
    match config.disable_hygiene {
        true => ContextRule::Keep,
        false => ContextRule::Clear,
    }
}

// What the bindings of a list are called.
fn names_of<'c>(
    alloc: Global,
    list: &[Piece<'c>],
    denoted: &Denotations<'c>,
    config: &Config,
) -> Result<Names, AllocError>
    requires { AreInOrder (map numbered_scope denoted.now.scopes.items) }
    ensures { IfOk result (λ names.
        AreEndNames (is_renaming config.now) (map item_of list.now) denoted.now names) }
{
    let keywords = keyword_names(alloc, list, denoted)?;
    if config.disable_hygiene {
        return Ok(keywords);
    }
    hygienic_names(alloc, list, denoted, &keywords)
}

//! The names of a bundle: without keywords, and without clashes once contexts are gone.

ghost use Rattle.std.specs.Prelude.{◌≡◌, IfErr, IfOk};
ghost use Rattle.bundle_marks.specs.Composed.{items_list};
ghost use Rattle.bundle_scope.specs.Named.{FreesOfKeywords, RenamesBindings, RenamesKeywords, StaysNamed, StaysUndoubled, TellsByNames};

use crate::words::clear_words;
use bundle_scope_denote::{ModuleKind, Reading, denotations};
use bundle_scope_names::{ContextRule, Names, changes_of, hygienic_names, keyword_names};
use bundle_tree_ast::Module;
use bundle_tree_list::pieces;
use bundle_tree_names::Error;
use bundle_tree_rewrite::rebuild_items;
use std::alloc::Global;

/// The renamer of keywords.
#[derive(Clone, Copy, PartialEq, Eq, Debug)]
pub struct KeywordRenamer;

impl KeywordRenamer {
    /// The module in which each binding with the symbol of a reserved word has `__` before it, wherever it
    /// occurs (ECMA-262, 12.7.2). Globals stay, and all other names. Refused only where memory runs out.
    ///
    /// Of a module that is resolved and has no default export without a name, names denote what they did, and it
    /// is still resolved: a context changes only where another binding would be told by the same.
    pub fn run(alloc: Global, tree: &Module) -> Result<Module, Error>
        ensures renamed { IfOk result (λ made.
            RenamesKeywords (items_list tree.now.body.items) (items_list made.body.items)) }
        ensures rid { IfOk result (λ made.
            FreesOfKeywords (items_list tree.now.body.items) (items_list made.body.items)) }
        ensures named { IfOk result (λ made.
            StaysNamed (items_list tree.now.body.items) (items_list made.body.items)) }
        ensures refused { IfErr result (λ refusal. refusal ≡ Error.OutOfMemory) }
    {
        let items = tree.body.as_slice();
        let list = pieces(alloc, items)?;
        let table = denotations(alloc, &list, ModuleKind::Es, Reading::ByContext)?;
        let names = keyword_names(alloc, &list, &table)?;
        let changes = changes_of(alloc, &list, &table, &names, ContextRule::Keep)?;
        let body = rebuild_items(alloc, items, &changes)?;
        Ok(Module { body })
    }
}

/// The module in which each name denotes by its symbol what it denoted by symbol and context, and each context
/// is 0. No binding is renamed without need, and globals keep their names. Refused only where memory runs out.
///
/// This is so of a module that is resolved and has no default export without a name. Where no name of it was
/// declared beside another that excludes it, none is afterwards.
pub fn hygiene(alloc: Global, tree: &Module) -> Result<Module, Error>
    ensures renamed { IfOk result (λ made.
        RenamesBindings (items_list tree.now.body.items) (items_list made.body.items)) }
    ensures named { IfOk result (λ made.
        TellsByNames (items_list tree.now.body.items) (items_list made.body.items)) }
    ensures undoubled { IfOk result (λ made.
        StaysUndoubled (items_list tree.now.body.items) (items_list made.body.items)) }
    ensures refused { IfErr result (λ refusal. refusal ≡ Error.OutOfMemory) }
{
    let items = tree.body.as_slice();
    let list = pieces(alloc, items)?;
    let table = denotations(alloc, &list, ModuleKind::Es, Reading::ByContext)?;
    let kept = Names::kept(alloc, table.bindings.len())?;
    let names = hygienic_names(alloc, &list, &table, &kept)?;
    let changes = changes_of(alloc, &list, &table, &names, ContextRule::Clear)?;
    let mut body = rebuild_items(alloc, items, &changes)?;
    clear_words(&mut body);
    Ok(Module { body })
}

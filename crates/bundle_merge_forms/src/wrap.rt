//! A module as the call of one function.

ghost use Rattle.std.specs.Prelude.{◌≡◌, ◌++◌, IfErr, IfOk, flat_map};
ghost use Rattle.bundle_tree_names.specs.declared.error.Error.TheVariants.{OutOfMemory};
ghost use Rattle.bundle_syntax.specs.Item.{ExprStmt, Module as ModuleHead};
ghost use Rattle.bundle_tree_listed.specs.Tree.{module_item_items, module_items, node, stmt_items};
ghost use Rattle.bundle_rules.specs.Awaits as Awaits;
ghost use Rattle.bundle_rules.specs.Forms.{by_names, returned_object, wrapped};
ghost use Rattle.bundle_merge_injected.specs.Listed.{called};
ghost use Rattle.bundle_merge_forms.specs.Wrapped.{CanBeWrapped, exported_in, statement_items};

use crate::exports::exported;
use crate::statements::statements;
use bundle_merge_injected::function_call;
use bundle_tree_ast::{Module, ModuleItem, Stmt};
use bundle_tree_list::pieces;
use bundle_tree_names::Error;
use bundle_tree_places::awaits_outside;
use std::alloc::{AllocError, Global};

/// The module as the one statement `(function () { items; return { k: l, .. }; })();`: the keys are the names that
/// its list of exports gives, ascending, and the function is async where an `await` or `for await` stands outside
/// functions (ECMA-262, 13.2.5 and 15.8). The caller sees to it that no import or export stands in the module but
/// perhaps a list of exports of its own names, as the last item. Refused only where memory runs out.
pub fn wrap_with_iife(alloc: Global, tree: &Module) -> Result<Module, Error>
    ensures wrapped { CanBeWrapped tree.now.body.items → IfOk result
        (λ made. module_items 0 made ≡ wrapped (module_items 0 tree.now)) }
    ensures refused { IfErr result (λ refusal. refusal ≡ OutOfMemory) }
{
    let call = call_of(alloc, tree.body.as_slice())?;
    let made = module_of(alloc, call)?;
    Ok(made)
}

// The call of one function with the statements of these items and what their list of exports gives.
fn call_of(alloc: Global, items: &[ModuleItem]) -> Result<Stmt, AllocError>
    ensures { IfOk result (λ made.
        stmt_items 0 made
        ≡ node 0 ExprStmt
        (called (Awaits.awaits_outside (flat_map (module_item_items 0) items.now))
        (flat_map statement_items items.now
        ++ returned_object (by_names (flat_map exported_in items.now))))) }
{
    let is_async = awaits(alloc, items)?;
    let pairs = exported(alloc, items)?;
    let stmts = statements(alloc, items)?;
    function_call(alloc, stmts, pairs.as_slice(), is_async)
}

// Whether an `await` or `for await` stands outside functions in these items.
fn awaits(alloc: Global, items: &[ModuleItem]) -> Result<bool, AllocError>
    ensures { IfOk result
        (λ is. is ≡ Awaits.awaits_outside (flat_map (module_item_items 0) items.now)) }
{
    let list = pieces(alloc, items)?;
    awaits_outside(alloc, list.as_slice())
}

// The module of one statement.
fn module_of(alloc: Global, stmt: Stmt) -> Result<Module, AllocError>
    ensures { IfOk result (λ made. module_items 0 made ≡ node 0 ModuleHead (stmt_items 0 stmt)) }
{
    let body = vec![in alloc; ModuleItem::Stmt(stmt)]?;
    Ok(Module { body })
}

//! CommonJS modules: the helper that runs one at its first call, the function of one, and the statement that loads
//! one.

ghost use Rattle.std.specs.Prelude.{◌≡◌, ℕ, IfOk, map};
ghost use Rattle.std.specs.Option.{option_map};
ghost use Rattle.bundle_syntax.specs.declared.piece.Role.TheVariants.{Reference};
ghost use Rattle.bundle_tree_listed.specs.Tree.{each_expr_or_spread_items, each_stmt_items, expr_items, stmt_items};
ghost use Rattle.bundle_tree_places.specs.Marks.{ident_of};
ghost use Rattle.bundle_merge_injected.specs.Listed as listed;
ghost use Rattle.bundle_merge_injected.specs.Listed.{call_in, named, pair_of};

use crate::declaration::{declarator, variable};
use crate::function::{call, function, parameters};
use crate::list::{NO_NOTES, PieceWriter};
use crate::name::{Pair, pattern, reference};
use crate::row::one_argument;
use bundle_tree_ast::{Expr, ExprOrSpread, Stmt};
use bundle_tree_parse::make_node;
use bundle_tree_places::Name;
use std::alloc::{AllocError, Global};

/// The statement by which a module loads a CommonJS module: `load();`, `var { n: l, .. } = load();`,
/// `var whole = load();` or `var whole = load(), { n: l, .. } = whole;`. Refused only where memory runs out.
pub fn load_statement<'a>(
    alloc: Global,
    load: Name<'a>,
    whole: Option<Name<'a>>,
    names: &[Pair<'a>],
) -> Result<Stmt, AllocError>
    ensures { IfOk result (λ made.
        stmt_items 0 made
        ≡ listed.load_statement (ident_of load.entry) (option_map ident_of whole.entry)
        (map pair_of names.now)) }
{
    let mut writer = PieceWriter::new(alloc);
    writer.load_statement(load, whole, names, &NO_NOTES)?;
    make_node(alloc, writer.as_slice())
}

/// The names of a load function: its own, that of the helper, and its two parameters.
#[derive(Clone, Copy)]
pub struct LoadNames<'a> {
    pub load: Name<'a>,
    pub helper: Name<'a>,
    pub module_object: Name<'a>,
    pub exports: Name<'a>,
}

/// `var load = helper(function (module, exports) { .. });`, with these statements. Refused only where memory runs
/// out.
pub fn load_function<'a>(
    alloc: Global,
    names: LoadNames<'a>,
    stmts: Vec<Stmt>,
) -> Result<Stmt, AllocError>
    ensures { IfOk result (λ made.
        stmt_items 0 made
        ≡ listed.load_function (ident_of names.entry.load) (ident_of names.entry.helper)
        (ident_of names.entry.module_object) (ident_of names.entry.exports)
        (each_stmt_items 0 stmts)) }
{
    let value = load_value(alloc, names, stmts)?;
    let name = pattern(alloc, names.load)?;
    variable(alloc, declarator(name, value))
}

// `helper(function (module, exports) { .. })`
fn load_value<'a>(alloc: Global, names: LoadNames<'a>, stmts: Vec<Stmt>) -> Result<Expr, AllocError>
    ensures { IfOk result (λ made. (field : ℕ) → expr_items field made
        ≡ call_in field (named 0 Reference (ident_of names.entry.helper)) (listed.load_argument
        (ident_of names.entry.module_object) (ident_of names.entry.exports)
        (each_stmt_items 0 stmts))) }
{
    let callee = reference(alloc, names.helper)?;
    let args = load_argument(alloc, names, stmts)?;
    call(alloc, callee, args)
}

// `function (module, exports) { .. }`, as the one argument of a call.
fn load_argument<'a>(
    alloc: Global,
    names: LoadNames<'a>,
    stmts: Vec<Stmt>,
) -> Result<Vec<ExprOrSpread>, AllocError>
    ensures { IfOk result (λ made. each_expr_or_spread_items 1 made ≡ listed.load_argument
        (ident_of names.entry.module_object) (ident_of names.entry.exports)
        (each_stmt_items 0 stmts)) }
{
    let params = parameters(alloc, &[names.module_object, names.exports])?;
    one_argument(alloc, function(params, stmts))
}

/// The names of the helper: its own, that of its parameter, and that of its variable.
#[derive(Clone, Copy)]
pub struct HelperNames<'a> {
    pub helper: Name<'a>,
    pub func: Name<'a>,
    pub module_object: Name<'a>,
}

/// `function helper(func) { var module; return function () { if (!module) { module = { exports: {} };
/// func.call(module.exports, module, module.exports); } return module.exports; }; }`. Refused only where memory
/// runs out.
pub fn helper<'a>(alloc: Global, names: HelperNames<'a>) -> Result<Stmt, AllocError>
    ensures { IfOk result (λ made.
        stmt_items 0 made
        ≡ listed.helper_function (ident_of names.entry.helper) (ident_of names.entry.func)
        (ident_of names.entry.module_object)) }
{
    let mut writer = PieceWriter::new(alloc);
    writer.helper(names, &NO_NOTES)?;
    make_node(alloc, writer.as_slice())
}

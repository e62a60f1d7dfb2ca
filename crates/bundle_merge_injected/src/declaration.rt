//! Declarations.

ghost use Rattle.std.specs.Prelude.{◌≡◌, ◌++◌, IfOk};
ghost use Rattle.bundle_syntax.specs.declared.kind.VarDeclKind.TheVariants.{Var as VarKind};
ghost use Rattle.bundle_syntax.specs.Item.{VarDecl as VarDeclHead, VarDeclarator as VarDeclaratorHead};
ghost use Rattle.bundle_syntax.specs.declared.piece.Role.TheVariants.{Binding};
ghost use Rattle.bundle_tree_listed.specs.Tree.{expr_items, node, pat_items, stmt_items, var_declarator_items};
ghost use Rattle.bundle_rules.specs.Statements.{no_notes};
ghost use Rattle.bundle_tree_places.specs.Marks.{ident_of};
ghost use Rattle.bundle_merge_injected.specs.Listed as listed;
ghost use Rattle.bundle_merge_injected.specs.Listed.{pattern_of};

use crate::list::NO_NOTES;
use crate::name::pattern;
use bundle_tree_ast::{Decl, ExportMetadata, Expr, Pat, Stmt, VarDecl, VarDeclKind, VarDeclarator};
use bundle_tree_places::Name;
use std::alloc::{AllocError, Global};

/// `const name = value;`, with these notes. Refused only where memory runs out.
pub fn constant<'a>(
    alloc: Global,
    name: Name<'a>,
    value: Expr,
    notes: ExportMetadata,
) -> Result<Stmt, AllocError>
    ensures { IfOk result (λ made.
        stmt_items 0 made ≡ listed.constant notes (ident_of name.entry) (expr_items 1 value)) }
{
    let name = pattern(alloc, name)?;
    declared(alloc, VarDeclKind::Const, declarator(name, value), notes)
}

/// `name = value`
pub(crate) fn declarator(name: Pat, value: Expr) -> VarDeclarator
    ensures { var_declarator_items 1 result
        ≡ listed.declarator (pat_items Binding 0 name) (expr_items 1 value) }
{
    let init = Some(value);
    VarDeclarator { name, init }
}

/// A declaration with this declarator and these notes.
fn declared(
    alloc: Global,
    kind: VarDeclKind,
    decl: VarDeclarator,
    meta: ExportMetadata,
) -> Result<Stmt, AllocError>
    ensures { IfOk result (λ made.
        stmt_items 0 made ≡ node 0 (VarDeclHead kind meta) (var_declarator_items 1 decl)) }
{
    let decls = vec![in alloc; decl]?;
    Ok(Stmt::Decl(Decl::VarDecl(VarDecl { kind, decls, meta })))
}

/// `var ..;`, with this declarator.
pub(crate) fn variable(alloc: Global, decl: VarDeclarator) -> Result<Stmt, AllocError>
    ensures { IfOk result (λ made.
        stmt_items 0 made ≡ node 0 (VarDeclHead VarKind no_notes) (var_declarator_items 1 decl)) }
{
    declared(alloc, VarDeclKind::Var, decl, NO_NOTES)
}

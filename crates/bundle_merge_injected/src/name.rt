//! Names.

ghost use Rattle.std.specs.Prelude.{◌≡◌, ℕ, IfOk, string_bytes};
ghost use Rattle.bundle_syntax.specs.declared.piece.Role.{Role};
ghost use Rattle.bundle_syntax.specs.declared.piece.Role.TheVariants.{Reference};
ghost use Rattle.bundle_tree_listed.specs.Tree.{expr_items, pat_items};
ghost use Rattle.bundle_tree_places.specs.Marks.{ident_of};
ghost use Rattle.bundle_merge_injected.specs.Listed.{named, pattern_of};

use bundle_tree_ast::{BindingIdent, Expr, Ident, Pat};
use bundle_tree_names::SyntaxContext;
use bundle_tree_places::Name;
use std::alloc::{AllocError, Global};

/// A name of another module, or a key, and what stands for it in the bundle.
#[derive(Clone, Copy)]
pub struct Pair<'a> {
    pub name: &'a str,
    pub local: Name<'a>,
}

/// An identifier.
pub(crate) fn ident<'a>(alloc: Global, name: Name<'a>) -> Result<Ident, AllocError>
    ensures { IfOk result (λ made. (string_bytes made.sym, made.ctxt) ≡ ident_of name.entry) }
{
    let sym = String::from_str(alloc, name.sym)?;
    let ctxt = SyntaxContext::from_u32(name.ctxt);
    Ok(Ident { sym, ctxt })
}

/// A name that is read.
#[tactic(auto, using(crate::proofs::Nodes::nodes), unfolding(bundle_tree_listed::specs::Tree::stmt_items))]
pub(crate) fn reference<'a>(alloc: Global, name: Name<'a>) -> Result<Expr, AllocError>
    ensures { IfOk result (λ made. (field : ℕ) → expr_items field made
        ≡ named field Reference (ident_of name.entry)) }
{
    Ok(Expr::Ident(ident(alloc, name)?))
}

/// A pattern of this one name.
#[tactic(auto, using(crate::proofs::Nodes::nodes), unfolding(bundle_tree_listed::specs::Tree::stmt_items))]
pub(crate) fn pattern<'a>(alloc: Global, name: Name<'a>) -> Result<Pat, AllocError>
    ensures { IfOk result (λ made. (role : Role) (field : ℕ) → pat_items role field made
        ≡ pattern_of field role (ident_of name.entry)) }
{
    let id = ident(alloc, name)?;
    Ok(Pat::BindingIdent(BindingIdent { id }))
}

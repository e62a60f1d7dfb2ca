//! What a module states in a bundle.

ghost use Rattle.std.specs.Prelude.{◌≡◌, ◌⊎◌, ◌++◌, ◌∷◌, List, [], IfOk, OnOk, map};
ghost use Rattle.std.specs.List.{flat_map};
ghost use Rattle.bundle_tree_ast.specs.declared.module.ModuleDecl.TheVariants.{ExportDefaultDecl};
ghost use Rattle.bundle_tree_ast.specs.declared.module.ModuleItem.TheVariants.{ModuleDecl as DeclItem};
ghost use Rattle.bundle_tree_listed.specs.Tree.{default_decl_items, expr_items, key_value_prop_items, module_decl_items, module_item_items, option_items, stmt_items};
ghost use Rattle.bundle_syntax.specs.Item.{Close, Item, Open, head_of, item_of};
ghost use Rattle.bundle_syntax.specs.declared.piece.Role.TheVariants.{Binding};
ghost use Rattle.bundle_tree_parse.specs.Sorts.{AStmt};
ghost use Rattle.bundle_tree_parse.specs.Standing.{IsIn};
ghost use Rattle.bundle_tree_places.specs.Marks as marks;
ghost use Rattle.bundle_tree_rewrite.specs.Stated.{ReworkedObject, States};
ghost use Rattle.bundle_tree_rebuild.specs.Becomes.{named, no_notes};
ghost use Rattle.bundle_tree_rebuild.specs.Walked.{fresh, walked, with_items};
ghost use Rattle.bundle_tree_rewrite.specs.Written.{constant_front, default_name, item_in_field, with_field};
ghost use Rattle.bundle_tree_rebuild.specs.Work.{Work, work_of};

use bundle_syntax::{ExportMetadata, Node, Piece, Role, VarDeclKind};
use bundle_tree_ast::{DefaultDecl, Expr, Ident, KeyValueProp, ModuleDecl, ModuleItem, Stmt};
use bundle_tree_list::{Walk, pieces};
use bundle_tree_parse::make_node;
use bundle_tree_places::Name;
use bundle_tree_rebuild::{Rebuilder, Rewriting, no_notes};
use std::alloc::{AllocError, Global};
use std::slice::from_ref;

/// What an item of a module states in a bundle: itself; the declaration that it exports; `const default = e;` for
/// a default expression, declared by the name `default`; the declaration of a default function or class, which
/// declares `default` where it has no name of its own; nothing for imports, export lists, stars and empty
/// statements (ECMA-262, 16.2.3.7). The rewrites belong to the occurrences of this item in turn; an occurrence
/// for which none is left stays. The notes of declarations are cleared, and a shorthand whose symbol changes is
/// spelled out. Refused only where memory runs out.
pub fn stated_item(
    alloc: Global,
    item: &ModuleItem,
    rewriting: Rewriting,
    default: Name,
) -> Result<Option<Stmt>, AllocError>
    ensures { IfOk result (λ made.
        States (work_of rewriting.entry) (marks.ident_of default.entry) item.now
        (option_items (stmt_items 0) made)) }
{
    let cleared = no_notes();
    let list = pieces(alloc, from_ref(item))?;
    let made = stated_list(alloc, item, &list, rewriting, default, &cleared)?;
    statement_of(alloc, &made)
}

/// An object literal of these properties, rewritten like an item. Refused only where memory runs out.
pub fn rewritten_object(
    alloc: Global,
    properties: &[KeyValueProp],
    rewriting: Rewriting,
) -> Result<Expr, AllocError>
    ensures { IfOk result (λ made.
        ReworkedObject (work_of rewriting.entry) (flat_map (key_value_prop_items 0) properties.now)
        (expr_items 0 made)) }
{
    let cleared = no_notes();
    let mut walk = Walk::new(alloc);
    walk.open(0, Node::ObjectLit)?;
    walk.each_key_value_prop(0, properties)?;
    walk.close()?;
    let made = rewritten_list(alloc, &walk.into_pieces(), rewriting, &cleared)?;
    make_node(alloc, &made)
}

// The list of what an item states, whose own list this is.
fn stated_list<'c: 'a, 'p: 'a, 'a>(
    alloc: Global,
    item: &ModuleItem,
    pieces: &[Piece<'p>],
    rewriting: Rewriting<'_, 'c>,
    default: Name<'a>,
    cleared: &'a ExportMetadata,
) -> Result<Vec<Piece<'a>>, AllocError>
    requires list { map item_of pieces.now ≡ module_item_items 0 item.now }
    requires cleared { cleared.now ≡ no_notes }
    ensures { IfOk result (λ made.
        States (work_of rewriting.entry) (marks.ident_of default.entry) item.now
        (map item_of made.items)) }
{
    let mut rebuilder = Rebuilder::rewriting(alloc, rewriting, cleared);
    state(&mut rebuilder, item, pieces, default, cleared)?;
    Ok(rebuilder.into_pieces())
}

// The list that these pieces become.
fn rewritten_list<'c: 'a, 'p: 'a, 'a>(
    alloc: Global,
    pieces: &[Piece<'p>],
    rewriting: Rewriting<'_, 'c>,
    cleared: &'a ExportMetadata,
) -> Result<Vec<Piece<'a>>, AllocError>
    requires { cleared.now ≡ no_notes }
    ensures { IfOk result (λ made.
        map item_of made.items
        ≡ (walked (fresh (work_of rewriting.entry)) (map item_of pieces.now)).made) }
{
    let mut rebuilder = Rebuilder::rewriting(alloc, rewriting, cleared);
    rebuilder.each(pieces)?;
    Ok(rebuilder.into_pieces())
}

// The statement whose list this is, if there is one.
fn statement_of<'a>(alloc: Global, pieces: &[Piece<'a>]) -> Result<Option<Stmt>, AllocError>
    requires { (map item_of pieces.now ≡ []) ⊎ IsIn AStmt 0 (map item_of pieces.now) }
    ensures { IfOk result (λ made. option_items (stmt_items 0) made ≡ map item_of pieces.now) }
{
    if pieces.is_empty() {
        Ok(None)
    } else {
        Ok(Some(make_node(alloc, pieces)?))
    }
}

// Adds what an item states.
fn state<'c: 'a, 'p: 'a, 'a>(
    rebuilder: &mut Rebuilder<'_, 'c, 'a>,
    item: &ModuleItem,
    pieces: &[Piece<'p>],
    default: Name<'a>,
    cleared: &'a ExportMetadata,
) -> Result<(), AllocError>
    requires list { map item_of pieces.now ≡ module_item_items 0 item.now }
    requires cleared { cleared.now ≡ no_notes }
    ensures { OnOk result ((work : Work) →
        rebuilder.old ≡ fresh work →
        States work (marks.ident_of default.entry) item.now rebuilder.new.made) }
{
    match item {
        ModuleItem::Stmt(stmt) => match stmt {
            Stmt::EmptyStmt => Ok(()),
            _ => rebuilder.each(pieces),
        },
        ModuleItem::ModuleDecl(decl) => state_decl(rebuilder, decl, pieces, default, cleared),
    }
}

// Adds what an import or export declaration states.
fn state_decl<'c: 'a, 'p: 'a, 'a>(
    rebuilder: &mut Rebuilder<'_, 'c, 'a>,
    module_decl: &ModuleDecl,
    pieces: &[Piece<'p>],
    default: Name<'a>,
    cleared: &'a ExportMetadata,
) -> Result<(), AllocError>
    requires list { map item_of pieces.now ≡ module_decl_items 0 module_decl.now }
    requires cleared { cleared.now ≡ no_notes }
    ensures { OnOk result ((work : Work) →
        rebuilder.old ≡ fresh work →
        States work (marks.ident_of default.entry) (DeclItem module_decl.now) rebuilder.new.made) }
{
    match module_decl {
        ModuleDecl::ImportDecl { .. } => Ok(()),
        ModuleDecl::NamedExport { .. } => Ok(()),
        ModuleDecl::ExportAll { .. } => Ok(()),
        ModuleDecl::ExportDecl { .. } => rebuilder.each(inside(pieces)),
        ModuleDecl::ExportDefaultDecl { decl } => {
            state_default(rebuilder, decl, inside(pieces), default)
        }
        ModuleDecl::ExportDefaultExpr { .. } => {
            state_value(rebuilder, inside(pieces), default, cleared)
        }
    }
}

// Adds the declaration that a default function or class is.
fn state_default<'c: 'a, 'p: 'a, 'a>(
    rebuilder: &mut Rebuilder<'_, 'c, 'a>,
    default_decl: &DefaultDecl,
    pieces: &[Piece<'p>],
    default: Name<'a>,
) -> Result<(), AllocError>
    requires { map item_of pieces.now ≡ default_decl_items 0 default_decl.now }
    ensures { OnOk result ((work : Work) →
        rebuilder.old ≡ fresh work →
        States work (marks.ident_of default.entry)
        (DeclItem (ExportDefaultDecl default_decl.now)) rebuilder.new.made) }
{
    match default_decl {
        DefaultDecl::ClassExpr { ident, .. } => {
            state_named(rebuilder, Node::ClassDecl, ident, inside(pieces), default)
        }
        DefaultDecl::FnExpr { ident, .. } => {
            state_named(rebuilder, Node::FnDecl, ident, inside(pieces), default)
        }
    }
}

// Adds a declaration of what is named like this, or else like the default.
fn state_named<'c: 'a, 'p: 'a, 'a>(
    rebuilder: &mut Rebuilder<'_, 'c, 'a>,
    node: Node<'a>,
    own: &Option<Ident>,
    inside: &[Piece<'p>],
    default: Name<'a>,
) -> Result<(), AllocError>
    ensures { OnOk result
        (rebuilder.new
        ≡ with_items (walked (with_items rebuilder.old (Open 0 (head_of node.entry)
        ∷ default_name own.now (marks.ident_of default.entry))) (map item_of inside.now))
        (Close ∷ [])) }
{
    rebuilder.push(Piece::Open { field: 0, node })?;
    match own {
        Some(_) => {}
        None => rebuilder.push(binding(default))?,
    }
    rebuilder.each(inside)?;
    rebuilder.push(Piece::Close)
}

// Adds `const default = value;`.
fn state_value<'c: 'a, 'p: 'a, 'a>(
    rebuilder: &mut Rebuilder<'_, 'c, 'a>,
    value: &[Piece<'p>],
    default: Name<'a>,
    cleared: &'a ExportMetadata,
) -> Result<(), AllocError>
    requires { cleared.now ≡ no_notes }
    ensures { OnOk result
        (rebuilder.new
        ≡ with_items (walked (with_items rebuilder.old
        (constant_front (marks.ident_of default.entry)))
        (with_field 1 (map item_of value.now))) (Close ∷ Close ∷ [])) }
{
    let node = Node::VarDecl {
        kind: VarDeclKind::Const,
        meta: cleared,
    };
    rebuilder.push(Piece::Open { field: 0, node })?;
    let node = Node::VarDeclarator;
    rebuilder.push(Piece::Open { field: 1, node })?;
    let node = Node::BindingIdent;
    rebuilder.push(Piece::Open { field: 0, node })?;
    rebuilder.push(binding(default))?;
    rebuilder.push(Piece::Close)?;
    each_in_field(rebuilder, 1, value)?;
    rebuilder.push(Piece::Close)?;
    rebuilder.push(Piece::Close)
}

// Adds what becomes of these pieces, the first of which is to stand in this field.
fn each_in_field<'c: 'a, 'p: 'a, 'a>(
    rebuilder: &mut Rebuilder<'_, 'c, 'a>,
    field: u8,
    pieces: &[Piece<'p>],
) -> Result<(), AllocError>
    ensures { OnOk result
        (rebuilder.new ≡ walked rebuilder.old (with_field field (map item_of pieces.now))) }
{
    match pieces.split_first() {
        Some((first, rest)) => {
            rebuilder.piece(in_field(*first, field), rest)?;
            rebuilder.each(rest)
        }
        None => Ok(()),
    }
}

// A piece that stands in this field.
fn in_field<'a>(piece: Piece<'a>, field: u8) -> Piece<'a>
    ensures { item_of result ≡ item_in_field field (item_of piece.entry) }
{
    match piece {
        Piece::Open { node, .. } => Piece::Open { field, node },
        Piece::Ident {
            sym,
            ctxt,
            role,
            ..
        } => Piece::Ident {
            field,
            sym,
            ctxt,
            role,
        },
        Piece::Hole { .. } => Piece::Hole { field },
        Piece::Close => Piece::Close,
    }
}

// An identifier that binds this name.
fn binding<'a>(name: Name<'a>) -> Piece<'a>
    ensures { item_of result ∷ [] ≡ named 0 (marks.ident_of name.entry) Binding }
{
    Piece::Ident {
        field: 0,
        sym: name.sym,
        ctxt: name.ctxt,
        role: Role::Binding,
    }
}

// What is in the node whose list this is.
fn inside<'p, 'a>(pieces: &'p [Piece<'a>]) -> &'p [Piece<'a>]
    ensures { (first last : Item) (inner : List Item) →
        map item_of pieces.now ≡ first ∷ (inner ++ last ∷ []) →
        map item_of result.now ≡ inner }
{
    match pieces {
        [_, inside @ .., _] => inside,
        _ => &[],
    }
}

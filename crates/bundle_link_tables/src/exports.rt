//! What the top items of a module export under a name.

ghost use Rattle.std.specs.Prelude.{◌≡◌, ◌++◌, ◌∷◌, [], ◌+◌, ◌-◌, ◌<◌, ◌≤◌, ◌^◌, zero, map, IfOk, OnOk};
ghost use Rattle.std.specs.List.{flat_map};
ghost use Rattle.bundle_syntax.specs.Item.{head_of, item_of};
ghost use Rattle.bundle_rules.specs.Nodes as nodes;
ghost use Rattle.bundle_rules.specs.Nodes.{begins_with, Text};
ghost use Rattle.bundle_rules.specs.Entries as e;
ghost use Rattle.bundle_rules.specs.Entries.{given_on, names_bound};
ghost use Rattle.bundle_link_tables.specs.Exported as exported;
ghost use Rattle.bundle_link_tables.specs.Exported.{depth_in, export_by, import_by, locals_named, exports_named, named_by_head, named_declared, named_here, named_in_list, text_list};
ghost use Rattle.bundle_rules.specs.Faults.{is_named_specifier};
ghost use Rattle.bundle_tree_places.specs.Heads.{is_namespace_specifier, is_variables};
ghost use Rattle.bundle_tree_places.specs.Parted.{part_items};
ghost use Rattle.bundle_link_tables.specs.TablesOf.{entry_by_origin, export_entry_of};

use crate::table::{Export, ImportRef, Origin, Taken};
use bundle_scope_denote::texts::TextMap;
use bundle_syntax::{Node, Piece, Role};
use bundle_tree_places::nodes::is_in_pattern;
use bundle_tree_places::parts::{
    NodeAt, child, child_of, in_field, name_of, node_of, renamed_text, string_of, text_in,
};
use std::alloc::{AllocError, Global};

/// The name that a default export without a name declares.
const DEFAULT: &str = "default";

/// The exports of a module's top items that have a name, in the order of the source. `locals` holds the first import of each
/// name that imports bind.
pub fn exports_of<'a>(
    alloc: Global,
    tops: &[NodeAt<'_, 'a>],
    locals: &TextMap<&'a str, ImportRef<'a>>,
) -> Result<Vec<Export<'a>>, AllocError>
    ensures { IfOk result (λ exports.
        map export_entry_of exports.items
        ≡ flat_map (exports_named (import_by locals.now)) (map part_items tops.now)) }
{
    let mut exports = Vec::new(alloc);
    for top in tops {
        add_exports(alloc, &mut exports, *top, locals)?;
    }
    Ok(exports)
}

/// Adds what a top item exports under a name.
#[tactic(auto, using(std::proofs::lemmas::Grind::common_steps, crate::proofs::ExportLemmas::named_some, crate::proofs::ExportLemmas::named_none))]
pub(crate) fn add_exports<'a>(
    alloc: Global,
    exports: &mut Vec<Export<'a>>,
    item: NodeAt<'_, 'a>,
    locals: &TextMap<&'a str, ImportRef<'a>>,
) -> Result<(), AllocError>
    ensures { OnOk result
        (map export_entry_of exports.new.items
        ≡ map export_entry_of exports.old.items
        ++ exports_named (import_by locals.now) (part_items item.entry)) }
{
    if let Some(node) = node_of(item.pieces) {
        add_by(alloc, exports, node, item, locals)?;
    }
    Ok(())
}

// Adds what a top item with this head exports.
fn add_by<'a>(
    alloc: Global,
    exports: &mut Vec<Export<'a>>,
    node: Node<'a>,
    item: NodeAt<'_, 'a>,
    locals: &TextMap<&'a str, ImportRef<'a>>,
) -> Result<(), AllocError>
    ensures { OnOk result
        (map export_entry_of exports.new.items
        ≡ map export_entry_of exports.old.items
        ++ named_by_head (import_by locals.now) (head_of node.entry) (part_items item.entry)) }
{
    match node {
        Node::ExportDecl => add_declared(alloc, exports, child_of(item, 0)),
        Node::NamedExport { .. } => add_list(alloc, exports, item, locals),
        Node::ExportDefaultDecl => {
            let name = default_declared(child(item.pieces, 0));
            add_local(exports, DEFAULT, name)
        }
        Node::ExportDefaultExpr => add_local(exports, DEFAULT, DEFAULT),
        _ => Ok(()),
    }
}

// Adds an export of a name of the module's own.
fn add_local<'a>(
    exports: &mut Vec<Export<'a>>,
    name: &'a str,
    of: &'a str,
) -> Result<(), AllocError>
    ensures { OnOk result
        (map export_entry_of exports.new.items
        ≡ map export_entry_of exports.old.items ++ e.Local name.now of.now ∷ []) }
{
    let origin = Origin::Local { name: of };
    exports.push(Export { name, origin })?;
    Ok(())
}

// The name that a default declaration declares.
fn default_declared<'a>(declaration: &[Piece<'a>]) -> &'a str
    ensures { result.now ≡ e.default_declared (map item_of declaration.now) }
{
    match name_of(child(declaration, 0)) {
        Some(name) => name,
        None => DEFAULT,
    }
}

// Adds the names of an exported declaration.
#[tactic(auto, using(std::proofs::lemmas::Grind::common_steps, crate::proofs::ExportLemmas::declared_variables, crate::proofs::ExportLemmas::declared_other, crate::proofs::ExportLemmas::declared_none))]
fn add_declared<'a>(
    alloc: Global,
    exports: &mut Vec<Export<'a>>,
    declaration: NodeAt<'_, 'a>,
) -> Result<(), AllocError>
    ensures { OnOk result
        (map export_entry_of exports.new.items
        ≡ map export_entry_of exports.old.items
        ++ named_declared (part_items declaration.entry)) }
{
    if node_of(declaration.pieces).is_none() {
        return Ok(());
    }
    if begins_variables(declaration.pieces) {
        return add_variables(alloc, exports, declaration);
    }
    let name = text_in(declaration.pieces, 0);
    add_local(exports, name, name)
}

// Whether a declaration of variables begins a list.
fn begins_variables(pieces: &[Piece]) -> bool
    ensures { result ≡ begins_with is_variables (map item_of pieces.now) }
{
    match pieces.first() {
        Some(
            Piece::Open {
                node: Node::VarDecl { .. },
                ..
            },
        ) => true,
        _ => false,
    }
}

// Adds the names of a declaration of variables.
fn add_variables<'a>(
    alloc: Global,
    exports: &mut Vec<Export<'a>>,
    declaration: NodeAt<'_, 'a>,
) -> Result<(), AllocError>
    ensures { OnOk result
        (map export_entry_of exports.new.items
        ≡ map export_entry_of exports.old.items
        ++ locals_named
        (flat_map (names_bound zero) (nodes.in_field 1 (part_items declaration.entry)))) }
{
    for declarator in &in_field(alloc, declaration, 1)? {
        add_bound(exports, *declarator)?;
    }
    Ok(())
}

// Adds the names that a declarator binds.
fn add_bound<'a>(
    exports: &mut Vec<Export<'a>>,
    declarator: NodeAt<'_, 'a>,
) -> Result<(), AllocError>
    ensures { OnOk result
        (map export_entry_of exports.new.items
        ≡ map export_entry_of exports.old.items
        ++ locals_named (names_bound zero (part_items declarator.entry))) }
{
    let mut depth = 0usize;
    for place in 0..declarator.pieces.len() {
        let piece = declarator.pieces[place];
        if let Some(name) = bound_at(depth, piece) {
            add_local(exports, name, name)?;
        }
        depth = depth_behind(depth, piece);
    }
    Ok(())
}

// The name that an element binds in a pattern, where so many nodes around it are no part of one.
fn bound_at<'a>(depth: usize, piece: Piece<'a>) -> Option<&'a str>
    ensures { text_list result ≡ exported.bound_at depth (item_of piece.entry) }
{
    match piece {
        Piece::Ident {
            sym,
            role: Role::Binding,
            ..
        } if depth == 0 => Some(sym),
        _ => None,
    }
}

// How many nodes around what follows an element are no part of a pattern, where so many are before it.
fn depth_behind(depth: usize, piece: Piece) -> usize
    requires { depth < 2 ^ 64 - 1 }
    ensures behind { result ≡ depth_in depth (item_of piece.entry) }
    ensures bound { result ≤ depth + 1 }
{
    match piece {
        Piece::Open { node, .. } if depth == 0 && is_in_pattern(node) => 0,
        Piece::Open { .. } => depth + 1,
        Piece::Close if depth == 0 => 0,
        Piece::Close => depth - 1,
        _ => depth,
    }
}

// Adds the names of an export list.
fn add_list<'a>(
    alloc: Global,
    exports: &mut Vec<Export<'a>>,
    item: NodeAt<'_, 'a>,
    locals: &TextMap<&'a str, ImportRef<'a>>,
) -> Result<(), AllocError>
    ensures { OnOk result
        (map export_entry_of exports.new.items
        ≡ map export_entry_of exports.old.items
        ++ named_in_list (import_by locals.now)
        (nodes.string_of (nodes.child 1 (part_items item.entry))) (part_items item.entry)) }
{
    let specifiers = in_field(alloc, item, 0)?;
    match string_of(child(item.pieces, 1)) {
        Some(source) => add_from(exports, specifiers.as_slice(), source),
        None => add_here(exports, specifiers.as_slice(), locals),
    }
}

// Adds the specifiers of an export list with `from`.
fn add_from<'a>(
    exports: &mut Vec<Export<'a>>,
    specifiers: &[NodeAt<'_, 'a>],
    source: &'a str,
) -> Result<(), AllocError>
    ensures { OnOk result
        (map export_entry_of exports.new.items
        ≡ map export_entry_of exports.old.items
        ++ map (e.entry_from source.now) (map part_items specifiers.now)) }
{
    for specifier in specifiers {
        exports.push(export_from(*specifier, source))?;
    }
    Ok(())
}

// The export of a specifier of an export list with `from`.
#[tactic(auto, using(std::proofs::lemmas::Grind::common_steps, crate::proofs::ExportLemmas::from_specifier))]
fn export_from<'a>(specifier: NodeAt<'_, 'a>, source: &'a str) -> Export<'a>
    ensures { export_entry_of result ≡ e.entry_from source.now (part_items specifier.entry) }
{
    let first = text_in(specifier.pieces, 0);
    let (name, taken) = if begins_namespace(specifier.pieces) {
        (first, Taken::Whole)
    } else {
        (renamed_text(specifier.pieces), Taken::Named(first))
    };
    let origin = Origin::Indirect {
        specifier: source,
        taken,
    };
    Export { name, origin }
}

// Whether `* as n` of an export list begins a list.
fn begins_namespace(pieces: &[Piece]) -> bool
    ensures { result ≡ begins_with is_namespace_specifier (map item_of pieces.now) }
{
    match pieces.first() {
        Some(
            Piece::Open {
                node: Node::ExportNamespaceSpecifier,
                ..
            },
        ) => true,
        _ => false,
    }
}

// Adds the specifiers of an export list without `from`; `* as n` says nothing there.
fn add_here<'a>(
    exports: &mut Vec<Export<'a>>,
    specifiers: &[NodeAt<'_, 'a>],
    locals: &TextMap<&'a str, ImportRef<'a>>,
) -> Result<(), AllocError>
    ensures { OnOk result
        (map export_entry_of exports.new.items
        ≡ map export_entry_of exports.old.items
        ++ flat_map (named_here (import_by locals.now)) (map part_items specifiers.now)) }
{
    for specifier in specifiers {
        if begins_named(specifier.pieces) {
            exports.push(export_here(*specifier, locals))?;
        }
    }
    Ok(())
}

/// Whether a specifier `x as y` of an export list begins a list.
pub fn begins_named(pieces: &[Piece]) -> bool
    ensures { result ≡ begins_with is_named_specifier (map item_of pieces.now) }
{
    match pieces.first() {
        Some(
            Piece::Open {
                node: Node::ExportNamedSpecifier,
                ..
            },
        ) => true,
        _ => false,
    }
}

// The export of a specifier of an export list without `from`.
fn export_here<'a>(
    specifier: NodeAt<'_, 'a>,
    locals: &TextMap<&'a str, ImportRef<'a>>,
) -> Export<'a>
    ensures { export_entry_of result
        ≡ export_by (import_by locals.now) (part_items specifier.entry) }
{
    Export {
        name: renamed_text(specifier.pieces),
        origin: origin_of(locals, text_in(specifier.pieces, 0)),
    }
}

// Where a name of the module comes from: what was imported by name is given on, all else is local.
fn origin_of<'a>(locals: &TextMap<&'a str, ImportRef<'a>>, of: &'a str) -> Origin<'a>
    ensures { (name : Text) →
        entry_by_origin name result ≡ given_on name of.now (import_by locals.now of.now) }
{
    match locals.get(&of) {
        Some(
            ImportRef {
                specifier,
                taken: Taken::Named(x),
                ..
            },
        ) => Origin::Indirect {
            specifier: *specifier,
            taken: Taken::Named(*x),
        },
        _ => Origin::Local { name: of },
    }
}

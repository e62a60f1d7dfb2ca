//! What a node does to what stands in it: whether it writes to it, and whether it runs it as a function.
//! And which nodes are declarations of a module, or parts of patterns.

ghost use Rattle.std.specs.Prelude.{◌≡◌, map};
ghost use Rattle.std.specs.List.{list_any};
ghost use Rattle.bundle_syntax.specs.Item.{head_of, item_of};
ghost use Rattle.bundle_tree_places.specs.Heads.{begins_here};
ghost use Rattle.bundle_rules.specs.Entries as entries;
ghost use Rattle.bundle_rules.specs.Entries.{is_import_meta};
ghost use Rattle.bundle_rules.specs.Bundle.{is_with};
ghost use Rattle.bundle_rules.specs.Reads as reads;
ghost use Rattle.bundle_rules.specs.Nodes.{has_head};
ghost use Rattle.bundle_tree_places.specs.Stated as stated;

use bundle_syntax::{MetaPropKind, Node, Piece, UnaryOp};

/// Whether a node writes to what stands in this field of it (ECMA-262, 13.15, 13.4, 13.5.1 and 14.7.5).
pub fn writes(node: Node, field: u8) -> bool
    ensures { result ≡ reads.writes (head_of node.entry) field }
{
    match node {
        Node::AssignExpr { .. } => field == 1,
        Node::UpdateExpr { .. } => true,
        Node::UnaryExpr {
            op: UnaryOp::Delete,
        } => true,
        Node::ForInStmt => field == 0,
        Node::ForOfStmt { .. } => field == 1,
        _ => false,
    }
}

/// Whether what stands in this field of a node is written to where the node is: parentheses and patterns.
pub fn passes_writes(node: Node, field: u8) -> bool
    ensures { result ≡ reads.passes_writes (head_of node.entry) field }
{
    match node {
        Node::ParenExpr | Node::ArrayPat | Node::ObjectPat | Node::RestPat => true,
        Node::AssignPat => field == 0,
        Node::KeyValuePatProp => field == 1,
        _ => false,
    }
}

/// Whether a node is an optional chain.
pub fn is_optional_chain(node: Node) -> bool
    ensures { result ≡ reads.is_optional_chain (head_of node.entry) }
{
    match node {
        Node::OptChainExpr { .. } => true,
        _ => false,
    }
}

/// Whether a top item that begins with a node states nothing: import declarations, export lists and empty
/// statements.
pub fn states_nothing(node: Node) -> bool
    ensures { result ≡ stated.states_nothing (head_of node.entry) }
{
    match node {
        Node::ImportDecl { .. } | Node::NamedExport { .. } | Node::ExportAll { .. } => true,
        Node::EmptyStmt => true,
        _ => false,
    }
}

/// Whether a node is an import or export declaration.
pub fn is_module_declaration(node: Node) -> bool
    ensures { result ≡ entries.is_module_declaration (head_of node.entry) }
{
    match node {
        Node::ImportDecl { .. }
        | Node::ExportDecl
        | Node::NamedExport { .. }
        | Node::ExportDefaultDecl
        | Node::ExportDefaultExpr
        | Node::ExportAll { .. } => true,
        _ => false,
    }
}

/// Whether a node is a pattern or a part of one.
pub fn is_in_pattern(node: Node) -> bool
    ensures { result ≡ entries.is_in_pattern (head_of node.entry) }
{
    match node {
        Node::VarDeclarator
        | Node::BindingIdent
        | Node::ArrayPat
        | Node::ObjectPat
        | Node::RestPat
        | Node::AssignPat
        | Node::KeyValuePatProp
        | Node::AssignPatProp => true,
        _ => false,
    }
}

/// Whether `import.meta` stands in a list.
pub fn has_import_meta(pieces: &[Piece]) -> bool
    ensures { result ≡ entries.has_import_meta (map item_of pieces.now) }
{
    some_import_meta(pieces)
}

// The same, asked of each element.
fn some_import_meta(pieces: &[Piece]) -> bool
    ensures { result ≡ list_any (λ x. begins_here is_import_meta (item_of x)) pieces.now }
{
    pieces.iter().any(|piece| begins_import_meta(*piece))
}

// Whether `import.meta` begins here.
fn begins_import_meta(piece: Piece) -> bool
    ensures { result ≡ begins_here is_import_meta (item_of piece.entry) }
{
    match piece {
        Piece::Open {
            node: Node::MetaPropExpr {
                kind: MetaPropKind::ImportMeta,
            },
            ..
        } => true,
        _ => false,
    }
}

/// Whether a `with` statement stands in a list.
pub fn has_with(pieces: &[Piece]) -> bool
    ensures { result ≡ has_head is_with (map item_of pieces.now) }
{
    some_with(pieces)
}

// The same, asked of each element.
fn some_with(pieces: &[Piece]) -> bool
    ensures { result ≡ list_any (λ x. begins_here is_with (item_of x)) pieces.now }
{
    pieces.iter().any(|piece| begins_with_statement(*piece))
}

// Whether a `with` statement begins here.
fn begins_with_statement(piece: Piece) -> bool
    ensures { result ≡ begins_here is_with (item_of piece.entry) }
{
    match piece {
        Piece::Open {
            node: Node::WithStmt,
            ..
        } => true,
        _ => false,
    }
}

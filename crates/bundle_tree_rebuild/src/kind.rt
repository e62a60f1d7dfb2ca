//! What a node is for the walk, and what is around it.

ghost use Rattle.std.specs.Prelude.{◌≡◌};
ghost use Rattle.bundle_syntax.specs.Item.{head_of};
ghost use Rattle.bundle_tree_rebuild.specs.Walked as walked;
ghost use Rattle.bundle_tree_places.specs.Edits.{InObject};

use bundle_syntax::{MetaPropKind, Node};

/// What a node is for the walk.
#[derive(Clone, Copy)]
pub enum NodeKind {
    /// It stays, and just what is in it is made anew.
    Ordinary,
    /// An object literal, where an identifier is short for a pair.
    Object,
    /// An import or export specifier, where one name may be short for two.
    Specifier,
    /// An assignment or an optional chain: what stands first stays a member expression, if it is one.
    Assignment,
    /// A member expression, for which a name may stand.
    Member,
    /// A call, which may become that of a name.
    Call,
    /// `import.meta`, for which a name may stand.
    ImportMeta,
    /// A shorthand property of a pattern.
    Shorthand,
}

/// What is around a piece.
#[derive(Clone, Copy)]
pub enum Enclosing {
    /// Nothing that matters.
    Plain,
    /// An object literal.
    Object,
    /// An import or export specifier that has but this one name.
    Specifier,
    /// A node whose member expression, which comes next, stays one.
    Target,
    /// A shorthand property of a pattern that was spelled out: its name stands behind a key now.
    Value,
    /// The same with a default value, around which one node more is open.
    Default,
    /// A node for which something else stands.
    Gone,
}

/// What a node is for the walk.
pub(crate) fn kind_of(node: Node) -> NodeKind
    ensures { result ≡ walked.kind_of (head_of node.entry) }
{
    match node {
        Node::ObjectLit => NodeKind::Object,
        Node::ImportNamedSpecifier | Node::ExportNamedSpecifier => NodeKind::Specifier,
        Node::AssignExpr { .. } | Node::OptChainExpr { .. } => NodeKind::Assignment,
        Node::MemberExpr => NodeKind::Member,
        Node::CallExpr => NodeKind::Call,
        Node::MetaPropExpr {
            kind: MetaPropKind::ImportMeta,
        } => NodeKind::ImportMeta,
        Node::AssignPatProp => NodeKind::Shorthand,
        _ => NodeKind::Ordinary,
    }
}

impl Enclosing {
    /// The field in which a node stands that stood in this one.
    pub(crate) fn placed(self, field: u8) -> u8
        ensures { result ≡ walked.placed self field }
    {
        match self {
            Enclosing::Value => 1,
            _ => field,
        }
    }

    /// What is around that which follows a node.
    pub(crate) fn behind(self) -> Enclosing
        ensures { result ≡ walked.behind self }
    {
        match self {
            Enclosing::Target => Enclosing::Plain,
            _ => self,
        }
    }

    pub(crate) fn is_gone(self) -> bool
        ensures { result ≡ walked.is_gone self }
    {
        match self {
            Enclosing::Gone => true,
            _ => false,
        }
    }

    pub(crate) fn is_target(self) -> bool
        ensures { result ≡ walked.is_target self }
    {
        match self {
            Enclosing::Target => true,
            _ => false,
        }
    }
}

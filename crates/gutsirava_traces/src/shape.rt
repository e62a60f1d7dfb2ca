//! What pieces are, as far as two lists are compared.

use bundle_syntax::{Node, Piece};

/// What a piece is, as far as the lists of a module and of a bundle are compared: what a linker puts in the place of
/// another thing has a shape of its own.
#[derive(Clone, Copy, PartialEq, Eq, Debug)]
pub(crate) enum PieceShape {
    End,
    Hole,
    /// An identifier that is bound or refers to something.
    Name,
    /// A name that is no variable: that of a property, or a private one.
    Word,
    Literal,
    Member,
    Call,
    Group,
    /// A property of an object or of a pattern: with its value, or its name alone.
    Property,
    PatternProperty,
    ShortPattern,
    /// A pattern with a default.
    DefaultPattern,
    FunctionNode,
    ClassNode,
    /// Another expression.
    Expression,
    Statement,
    /// What other nodes have inside.
    Inner,
}

/// What a piece is.
pub(crate) fn shape_of(piece: &Piece<'_>) -> PieceShape {
    match piece {
        Piece::Open { node, .. } => shape_of_node(node),
        Piece::Ident { .. } => PieceShape::Name,
        Piece::Hole { .. } => PieceShape::Hole,
        Piece::Close => PieceShape::End,
    }
}

// What a node is.
fn shape_of_node(node: &Node<'_>) -> PieceShape {
    match node {
        Node::IdentName { .. } | Node::PrivateName { .. } => PieceShape::Word,
        Node::MemberExpr => PieceShape::Member,
        Node::CallExpr => PieceShape::Call,
        Node::ParenExpr | Node::SeqExpr => PieceShape::Group,
        Node::KeyValueProp => PieceShape::Property,
        Node::KeyValuePatProp => PieceShape::PatternProperty,
        Node::AssignPatProp => PieceShape::ShortPattern,
        Node::AssignPat => PieceShape::DefaultPattern,
        Node::FnDecl | Node::FnExpr => PieceShape::FunctionNode,
        Node::ClassDecl | Node::ClassExpr => PieceShape::ClassNode,
        _ => shape_of_other(node),
    }
}

// What any other node is.
fn shape_of_other(node: &Node<'_>) -> PieceShape {
    match node {
        Node::Str { .. }
        | Node::Bool { .. }
        | Node::Null
        | Node::Number { .. }
        | Node::BigInt { .. }
        | Node::Regex { .. } => PieceShape::Literal,
        Node::ThisExpr
        | Node::ArrayLit
        | Node::ObjectLit
        | Node::UnaryExpr { .. }
        | Node::UpdateExpr { .. }
        | Node::BinExpr { .. }
        | Node::AssignExpr { .. }
        | Node::SuperPropExpr
        | Node::CondExpr
        | Node::NewExpr { .. }
        | Node::Tpl
        | Node::TaggedTpl
        | Node::ArrowExpr { .. }
        | Node::YieldExpr { .. }
        | Node::MetaPropExpr { .. }
        | Node::AwaitExpr
        | Node::OptChainExpr { .. }
        | Node::Super
        | Node::Import => PieceShape::Expression,
        _ => shape_of_statement(node),
    }
}

// What a node that is no expression is.
fn shape_of_statement(node: &Node<'_>) -> PieceShape {
    match node {
        Node::DebuggerStmt
        | Node::WithStmt
        | Node::ReturnStmt
        | Node::LabeledStmt
        | Node::BreakStmt
        | Node::ContinueStmt
        | Node::IfStmt
        | Node::SwitchStmt
        | Node::SwitchCase
        | Node::ThrowStmt
        | Node::TryStmt
        | Node::CatchClause
        | Node::WhileStmt
        | Node::DoWhileStmt
        | Node::ForStmt
        | Node::ForInStmt
        | Node::ForOfStmt { .. }
        | Node::ExprStmt
        | Node::VarDecl { .. }
        | Node::BlockStmt
        | Node::EmptyStmt
        | Node::GetterProp
        | Node::SetterProp
        | Node::MethodProp
        | Node::Constructor
        | Node::ClassMethod { .. }
        | Node::PrivateMethod { .. }
        | Node::ClassProp { .. }
        | Node::PrivateProp { .. }
        | Node::StaticBlock => PieceShape::Statement,
        _ => PieceShape::Inner,
    }
}

/// Whether a piece opens a node.
pub(crate) fn is_open(shape: PieceShape) -> bool {
    !matches!(shape, PieceShape::End | PieceShape::Hole | PieceShape::Name)
}

/// Whether a map tells where such a piece comes from.
pub(crate) fn is_told(shape: PieceShape) -> bool {
    matches!(
        shape,
        PieceShape::Name
            | PieceShape::Word
            | PieceShape::Literal
            | PieceShape::Call
            | PieceShape::FunctionNode
            | PieceShape::ClassNode
            | PieceShape::Expression
            | PieceShape::Statement
    )
}

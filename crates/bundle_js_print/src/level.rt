//! How tightly the parts of an expression hold together (ECMA-262, 13).

ghost use Rattle.std.specs.Prelude.{◌≡◌};
ghost use Rattle.bundle_syntax.specs.Item.{head_of};
ghost use Rattle.bundle_js_print.specs.Levels.{is_looser, left_operand, level, operator_level, right_operand, tighter};

use bundle_syntax::{BinaryOp, Node};

/// How tightly an expression holds together, the loosest first.
#[derive(Clone, Copy, PartialEq, Eq, Debug)]
pub enum Level {
    Sequence,
    Assignment,
    Conditional,
    Coalesce,
    Or,
    And,
    BitOr,
    BitXor,
    BitAnd,
    Equality,
    Relational,
    Shift,
    Sum,
    Product,
    Power,
    Unary,
    Update,
    /// An optional chain.
    Chain,
    /// A `new` without a list of arguments.
    New,
    Call,
    Member,
}

impl Level {
    /// Whether what is of this level may not stand where `least` is asked for.
    pub fn is_looser(self, least: Level) -> bool
        ensures { result ≡ is_looser self least }
    {
        (self as u8) < (least as u8)
    }
}

/// How tightly a node holds together. What is no expression of operators is never torn apart.
pub fn level_of(node: &Node) -> Level
    ensures { result ≡ level (head_of node.now) }
{
    match node {
        Node::SeqExpr => Level::Sequence,
        Node::AssignExpr { .. } | Node::ArrowExpr { .. } | Node::YieldExpr { .. } =>
            Level::Assignment,
        Node::CondExpr => Level::Conditional,
        Node::BinExpr { op } => binary_level(*op),
        Node::UnaryExpr { .. } | Node::AwaitExpr => Level::Unary,
        Node::UpdateExpr { .. } => Level::Update,
        Node::OptChainExpr { .. } => Level::Chain,
        Node::NewExpr { has_args: false } => Level::New,
        Node::CallExpr => Level::Call,
        _ => Level::Member,
    }
}

/// How tightly a binary operator holds its operands (ECMA-262, 13.6 to 13.13).
pub fn binary_level(op: BinaryOp) -> Level
    ensures { result ≡ operator_level op }
{
    match op {
        BinaryOp::NullishCoalescing => Level::Coalesce,
        BinaryOp::LogicalOr => Level::Or,
        BinaryOp::LogicalAnd => Level::And,
        BinaryOp::BitOr => Level::BitOr,
        BinaryOp::BitXor => Level::BitXor,
        BinaryOp::BitAnd => Level::BitAnd,
        BinaryOp::EqEq | BinaryOp::NotEq | BinaryOp::EqEqEq | BinaryOp::NotEqEq => Level::Equality,
        BinaryOp::Lt
        | BinaryOp::LtEq
        | BinaryOp::Gt
        | BinaryOp::GtEq
        | BinaryOp::In
        | BinaryOp::InstanceOf => Level::Relational,
        BinaryOp::LShift | BinaryOp::RShift | BinaryOp::ZeroFillRShift => Level::Shift,
        BinaryOp::Add | BinaryOp::Sub => Level::Sum,
        BinaryOp::Mul | BinaryOp::Div | BinaryOp::Mod => Level::Product,
        BinaryOp::Exp => Level::Power,
    }
}

/// The loosest that the left operand of a binary operator may be. Of `??` it may be another `??` besides.
pub fn left_level(op: BinaryOp) -> Level
    ensures { result ≡ left_operand op }
{
    match op {
        BinaryOp::Exp => Level::Update,
        BinaryOp::NullishCoalescing => Level::BitOr,
        _ => binary_level(op),
    }
}

/// The loosest that the right operand of a binary operator may be.
pub fn right_level(op: BinaryOp) -> Level
    ensures { result ≡ right_operand op }
{
    match op {
        BinaryOp::Exp => Level::Power,
        BinaryOp::NullishCoalescing => Level::BitOr,
        _ => next_level(binary_level(op)),
    }
}

// The level above that of an operator whose operands stand from the left to the right.
fn next_level(operator: Level) -> Level
    ensures { result ≡ tighter operator }
{
    match operator {
        Level::Or => Level::And,
        Level::And => Level::BitOr,
        Level::BitOr => Level::BitXor,
        Level::BitXor => Level::BitAnd,
        Level::BitAnd => Level::Equality,
        Level::Equality => Level::Relational,
        Level::Relational => Level::Shift,
        Level::Shift => Level::Sum,
        Level::Sum => Level::Product,
        Level::Product => Level::Power,
        _ => Level::Member,
    }
}

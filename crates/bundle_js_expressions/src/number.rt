//! The numbers by which records hold operators.

use bundle_js_scan::token::Tok;
use bundle_syntax::{AssignOp, BinaryOp, UnaryOp};

/// The number of the operator between two operands (ECMA-262, 13.6 to 13.13).
pub fn binary_number(tok: Tok) -> u8 {
    let op = match tok {
        Tok::EqEq => BinaryOp::EqEq,
        Tok::NotEq => BinaryOp::NotEq,
        Tok::EqEqEq => BinaryOp::EqEqEq,
        Tok::NotEqEq => BinaryOp::NotEqEq,
        Tok::Less => BinaryOp::Lt,
        Tok::LessEq => BinaryOp::LtEq,
        Tok::Greater => BinaryOp::Gt,
        Tok::GreaterEq => BinaryOp::GtEq,
        Tok::ShiftLeft => BinaryOp::LShift,
        Tok::ShiftRight => BinaryOp::RShift,
        Tok::ShiftRightZero => BinaryOp::ZeroFillRShift,
        Tok::Plus => BinaryOp::Add,
        Tok::Minus => BinaryOp::Sub,
        Tok::Star => BinaryOp::Mul,
        Tok::Slash => BinaryOp::Div,
        Tok::Percent => BinaryOp::Mod,
        Tok::Or => BinaryOp::BitOr,
        Tok::Xor => BinaryOp::BitXor,
        Tok::And => BinaryOp::BitAnd,
        Tok::OrOr => BinaryOp::LogicalOr,
        Tok::AndAnd => BinaryOp::LogicalAnd,
        Tok::In => BinaryOp::In,
        Tok::InstanceOf => BinaryOp::InstanceOf,
        Tok::StarStar => BinaryOp::Exp,
        _ => BinaryOp::NullishCoalescing,
    };
    op as u8
}

/// The number of the operator before an operand (13.5).
pub fn unary_number(tok: Tok) -> u8 {
    let op = match tok {
        Tok::Minus => UnaryOp::Minus,
        Tok::Plus => UnaryOp::Plus,
        Tok::Not => UnaryOp::Bang,
        Tok::Tilde => UnaryOp::Tilde,
        Tok::TypeOf => UnaryOp::TypeOf,
        Tok::Void => UnaryOp::Void,
        _ => UnaryOp::Delete,
    };
    op as u8
}

/// The number of the operator of an assignment (13.15).
pub fn assign_number(tok: Tok) -> u8 {
    let op = match tok {
        Tok::PlusAssign => AssignOp::AddAssign,
        Tok::MinusAssign => AssignOp::SubAssign,
        Tok::StarAssign => AssignOp::MulAssign,
        Tok::SlashAssign => AssignOp::DivAssign,
        Tok::PercentAssign => AssignOp::ModAssign,
        Tok::ShiftLeftAssign => AssignOp::LShiftAssign,
        Tok::ShiftRightAssign => AssignOp::RShiftAssign,
        Tok::ShiftRightZeroAssign => AssignOp::ZeroFillRShiftAssign,
        Tok::OrAssign => AssignOp::BitOrAssign,
        Tok::XorAssign => AssignOp::BitXorAssign,
        Tok::AndAssign => AssignOp::BitAndAssign,
        Tok::StarStarAssign => AssignOp::ExpAssign,
        Tok::AndAndAssign => AssignOp::AndAssign,
        Tok::OrOrAssign => AssignOp::OrAssign,
        Tok::NullishAssign => AssignOp::NullishAssign,
        _ => AssignOp::Assign,
    };
    op as u8
}

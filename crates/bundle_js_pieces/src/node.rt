//! The node of a record.

use crate::texts::{PieceError, RecordTexts};
use bundle_js_record::kind::Kind;
use bundle_js_record::record::Rec;
use bundle_syntax::{
    AssignOp, BinaryOp, ExportMetadata, MetaPropKind, MethodKind, Node, UnaryOp, UpdateOp,
    VarDeclKind,
};

/// The node of a record that others may lie in.
pub fn node_of<'a>(kind: Kind, op: u8, notes: &'a ExportMetadata) -> Node<'a> {
    match kind {
        Kind::VarDecl => Node::VarDecl {
            kind: declaration_of(op),
            meta: notes,
        },
        Kind::ImportDecl => Node::ImportDecl { meta: notes },
        Kind::NamedExport => Node::NamedExport { meta: notes },
        Kind::ExportAll => Node::ExportAll { meta: notes },
        Kind::ForOfStmt => Node::ForOfStmt { is_await: op != 0 },
        Kind::UnaryExpr => Node::UnaryExpr { op: unary_of(op) },
        Kind::UpdateExpr => Node::UpdateExpr {
            op: if op & 1 == 0 {
                UpdateOp::PlusPlus
            } else {
                UpdateOp::MinusMinus
            },
            prefix: op & 2 != 0,
        },
        Kind::BinExpr => Node::BinExpr { op: binary_of(op) },
        Kind::AssignExpr => Node::AssignExpr { op: assign_of(op) },
        Kind::NewExpr => Node::NewExpr { has_args: op != 0 },
        Kind::ArrowExpr => Node::ArrowExpr { is_async: op != 0 },
        Kind::YieldExpr => Node::YieldExpr { delegate: op != 0 },
        Kind::OptChainExpr => Node::OptChainExpr { optional: op != 0 },
        Kind::ExprOrSpread => Node::ExprOrSpread { spread: op != 0 },
        Kind::Function => Node::Function {
            is_generator: op & 1 != 0,
            is_async: op & 2 != 0,
        },
        Kind::ClassMethod => Node::ClassMethod {
            kind: method_of(op),
            is_static: op & 4 != 0,
        },
        Kind::PrivateMethod => Node::PrivateMethod {
            kind: method_of(op),
            is_static: op & 4 != 0,
        },
        Kind::ClassProp => Node::ClassProp {
            is_static: op & 4 != 0,
        },
        Kind::PrivateProp => Node::PrivateProp {
            is_static: op & 4 != 0,
        },
        _ => plain_node(kind),
    }
}

// The node of a record that holds no value of its own.
fn plain_node<'a>(kind: Kind) -> Node<'a> {
    match kind {
        Kind::Module => Node::Module,
        Kind::ImportNamedSpecifier => Node::ImportNamedSpecifier,
        Kind::ImportDefaultSpecifier => Node::ImportDefaultSpecifier,
        Kind::ImportStarAsSpecifier => Node::ImportStarAsSpecifier,
        Kind::ExportDecl => Node::ExportDecl,
        Kind::ExportNamespaceSpecifier => Node::ExportNamespaceSpecifier,
        Kind::ExportNamedSpecifier => Node::ExportNamedSpecifier,
        Kind::ExportDefaultDecl => Node::ExportDefaultDecl,
        Kind::ExportDefaultExpr => Node::ExportDefaultExpr,
        Kind::BlockStmt => Node::BlockStmt,
        Kind::EmptyStmt => Node::EmptyStmt,
        Kind::DebuggerStmt => Node::DebuggerStmt,
        Kind::WithStmt => Node::WithStmt,
        Kind::ReturnStmt => Node::ReturnStmt,
        Kind::LabeledStmt => Node::LabeledStmt,
        Kind::BreakStmt => Node::BreakStmt,
        Kind::ContinueStmt => Node::ContinueStmt,
        Kind::IfStmt => Node::IfStmt,
        Kind::SwitchStmt => Node::SwitchStmt,
        Kind::SwitchCase => Node::SwitchCase,
        Kind::ThrowStmt => Node::ThrowStmt,
        Kind::TryStmt => Node::TryStmt,
        Kind::CatchClause => Node::CatchClause,
        Kind::WhileStmt => Node::WhileStmt,
        Kind::DoWhileStmt => Node::DoWhileStmt,
        Kind::ForStmt => Node::ForStmt,
        Kind::ForInStmt => Node::ForInStmt,
        Kind::ExprStmt => Node::ExprStmt,
        Kind::ClassDecl => Node::ClassDecl,
        Kind::FnDecl => Node::FnDecl,
        Kind::VarDeclarator => Node::VarDeclarator,
        _ => plain_expression(kind),
    }
}

// The same of expressions, properties, patterns, functions and classes.
fn plain_expression<'a>(kind: Kind) -> Node<'a> {
    match kind {
        Kind::ArrayLit => Node::ArrayLit,
        Kind::ObjectLit => Node::ObjectLit,
        Kind::FnExpr => Node::FnExpr,
        Kind::MemberExpr => Node::MemberExpr,
        Kind::SuperPropExpr => Node::SuperPropExpr,
        Kind::CondExpr => Node::CondExpr,
        Kind::CallExpr => Node::CallExpr,
        Kind::SeqExpr => Node::SeqExpr,
        Kind::Tpl => Node::Tpl,
        Kind::TaggedTpl => Node::TaggedTpl,
        Kind::ClassExpr => Node::ClassExpr,
        Kind::AwaitExpr => Node::AwaitExpr,
        Kind::ParenExpr => Node::ParenExpr,
        Kind::OptCall => Node::OptCall,
        Kind::SpreadElement => Node::SpreadElement,
        Kind::KeyValueProp => Node::KeyValueProp,
        Kind::GetterProp => Node::GetterProp,
        Kind::SetterProp => Node::SetterProp,
        Kind::MethodProp => Node::MethodProp,
        Kind::ComputedPropName => Node::ComputedPropName,
        Kind::ArrayPat => Node::ArrayPat,
        Kind::ObjectPat => Node::ObjectPat,
        Kind::RestPat => Node::RestPat,
        Kind::AssignPat => Node::AssignPat,
        Kind::KeyValuePatProp => Node::KeyValuePatProp,
        Kind::AssignPatProp => Node::AssignPatProp,
        Kind::Param => Node::Param,
        Kind::Class => Node::Class,
        Kind::Constructor => Node::Constructor,
        Kind::StaticBlock => Node::StaticBlock,
        _ => Node::EmptyStmt,
    }
}

/// The node of a record that no other lies in.
pub fn leaf_of<'a>(texts: RecordTexts<'a>, rec: Rec) -> Result<Node<'a>, PieceError> {
    match rec.kind {
        Kind::IdentName => Ok(Node::IdentName {
            sym: texts.value(rec)?,
        }),
        Kind::PrivateName => Ok(Node::PrivateName {
            sym: texts.value(rec)?,
        }),
        Kind::TplElement => Ok(Node::TplElement {
            raw: texts.value(rec)?,
        }),
        Kind::Number => Ok(Node::Number {
            raw: texts.raw(rec)?,
        }),
        Kind::BigInt => Ok(Node::BigInt {
            raw: texts.raw(rec)?,
        }),
        Kind::Regex => Ok(Node::Regex {
            raw: texts.raw(rec)?,
        }),
        Kind::Str => {
            let value = texts.value(rec)?;
            let raw = texts.raw(rec)?;
            Ok(Node::Str {
                value,
                raw: Some(raw),
            })
        }
        Kind::Bool => Ok(Node::Bool { value: rec.op != 0 }),
        Kind::Null => Ok(Node::Null),
        Kind::ThisExpr => Ok(Node::ThisExpr),
        Kind::Super => Ok(Node::Super),
        Kind::Import => Ok(Node::Import),
        Kind::MetaPropExpr => Ok(Node::MetaPropExpr {
            kind: if rec.op == MetaPropKind::NewTarget as u8 {
                MetaPropKind::NewTarget
            } else {
                MetaPropKind::ImportMeta
            },
        }),
        Kind::DebuggerStmt => Ok(Node::DebuggerStmt),
        _ => Ok(Node::EmptyStmt),
    }
}

fn declaration_of(op: u8) -> VarDeclKind {
    match op {
        0 => VarDeclKind::Var,
        1 => VarDeclKind::Let,
        _ => VarDeclKind::Const,
    }
}

fn method_of(op: u8) -> MethodKind {
    match op & 3 {
        0 => MethodKind::Method,
        1 => MethodKind::Getter,
        _ => MethodKind::Setter,
    }
}

fn unary_of(op: u8) -> UnaryOp {
    match op {
        0 => UnaryOp::Minus,
        1 => UnaryOp::Plus,
        2 => UnaryOp::Bang,
        3 => UnaryOp::Tilde,
        4 => UnaryOp::TypeOf,
        5 => UnaryOp::Void,
        _ => UnaryOp::Delete,
    }
}

fn binary_of(op: u8) -> BinaryOp {
    match op {
        0 => BinaryOp::EqEq,
        1 => BinaryOp::NotEq,
        2 => BinaryOp::EqEqEq,
        3 => BinaryOp::NotEqEq,
        4 => BinaryOp::Lt,
        5 => BinaryOp::LtEq,
        6 => BinaryOp::Gt,
        7 => BinaryOp::GtEq,
        8 => BinaryOp::LShift,
        9 => BinaryOp::RShift,
        10 => BinaryOp::ZeroFillRShift,
        11 => BinaryOp::Add,
        12 => BinaryOp::Sub,
        13 => BinaryOp::Mul,
        14 => BinaryOp::Div,
        15 => BinaryOp::Mod,
        16 => BinaryOp::BitOr,
        17 => BinaryOp::BitXor,
        18 => BinaryOp::BitAnd,
        19 => BinaryOp::LogicalOr,
        20 => BinaryOp::LogicalAnd,
        21 => BinaryOp::In,
        22 => BinaryOp::InstanceOf,
        23 => BinaryOp::Exp,
        _ => BinaryOp::NullishCoalescing,
    }
}

fn assign_of(op: u8) -> AssignOp {
    match op {
        0 => AssignOp::Assign,
        1 => AssignOp::AddAssign,
        2 => AssignOp::SubAssign,
        3 => AssignOp::MulAssign,
        4 => AssignOp::DivAssign,
        5 => AssignOp::ModAssign,
        6 => AssignOp::LShiftAssign,
        7 => AssignOp::RShiftAssign,
        8 => AssignOp::ZeroFillRShiftAssign,
        9 => AssignOp::BitOrAssign,
        10 => AssignOp::BitXorAssign,
        11 => AssignOp::BitAndAssign,
        12 => AssignOp::ExpAssign,
        13 => AssignOp::AndAssign,
        14 => AssignOp::OrAssign,
        _ => AssignOp::NullishAssign,
    }
}

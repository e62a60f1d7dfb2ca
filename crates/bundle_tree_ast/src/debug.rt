//! What `{:?}` writes of a node that leads to other nodes: its name.
//!
//! The text of a tree has no promise, and one that goes down the tree costs the proof of another walk.

use crate::class::{Class, ClassMember, Function};
use crate::decl::{Decl, VarDeclarator};
use crate::expr::{ArrowBody, Expr};
use crate::pat::{AssignTarget, ObjectPatProp, Pat};
use crate::prop::{Prop, PropOrSpread};
use crate::stmt::{CatchClause, ForHead, ForInit, Stmt, SwitchCase};
use std::fmt;

impl fmt::Debug for Function {
    fn fmt<W: fmt::Write>(&self, f: &mut fmt::Formatter<W>) -> fmt::Result {
        f.write_str("Function { .. }")
    }
}

impl fmt::Debug for Class {
    fn fmt<W: fmt::Write>(&self, f: &mut fmt::Formatter<W>) -> fmt::Result {
        f.write_str("Class { .. }")
    }
}

impl fmt::Debug for ClassMember {
    fn fmt<W: fmt::Write>(&self, f: &mut fmt::Formatter<W>) -> fmt::Result {
        f.write_str(match self {
            ClassMember::Constructor { .. } => "Constructor { .. }",
            ClassMember::ClassMethod { .. } => "ClassMethod { .. }",
            ClassMember::PrivateMethod { .. } => "PrivateMethod { .. }",
            ClassMember::ClassProp { .. } => "ClassProp { .. }",
            ClassMember::PrivateProp { .. } => "PrivateProp { .. }",
            ClassMember::StaticBlock { .. } => "StaticBlock { .. }",
            ClassMember::EmptyStmt => "EmptyStmt",
        })
    }
}

impl fmt::Debug for Decl {
    fn fmt<W: fmt::Write>(&self, f: &mut fmt::Formatter<W>) -> fmt::Result {
        f.write_str(match self {
            Decl::ClassDecl { .. } => "ClassDecl { .. }",
            Decl::FnDecl { .. } => "FnDecl { .. }",
            Decl::VarDecl(..) => "VarDecl(..)",
        })
    }
}

impl fmt::Debug for VarDeclarator {
    fn fmt<W: fmt::Write>(&self, f: &mut fmt::Formatter<W>) -> fmt::Result {
        f.write_str("VarDeclarator { .. }")
    }
}

impl fmt::Debug for Expr {
    fn fmt<W: fmt::Write>(&self, f: &mut fmt::Formatter<W>) -> fmt::Result {
        f.write_str(match self {
            Expr::ThisExpr => "ThisExpr",
            Expr::ArrayLit { .. } => "ArrayLit { .. }",
            Expr::ObjectLit { .. } => "ObjectLit { .. }",
            Expr::FnExpr { .. } => "FnExpr { .. }",
            Expr::UnaryExpr { .. } => "UnaryExpr { .. }",
            Expr::UpdateExpr { .. } => "UpdateExpr { .. }",
            Expr::BinExpr { .. } => "BinExpr { .. }",
            Expr::AssignExpr { .. } => "AssignExpr { .. }",
            Expr::MemberExpr(..) => "MemberExpr(..)",
            Expr::SuperPropExpr(..) => "SuperPropExpr(..)",
            Expr::CondExpr { .. } => "CondExpr { .. }",
            Expr::CallExpr { .. } => "CallExpr { .. }",
            Expr::NewExpr { .. } => "NewExpr { .. }",
            Expr::SeqExpr { .. } => "SeqExpr { .. }",
            Expr::Ident(..) => "Ident(..)",
            Expr::Lit(..) => "Lit(..)",
            Expr::Tpl(..) => "Tpl(..)",
            Expr::TaggedTpl { .. } => "TaggedTpl { .. }",
            Expr::ArrowExpr { .. } => "ArrowExpr { .. }",
            Expr::ClassExpr { .. } => "ClassExpr { .. }",
            Expr::YieldExpr { .. } => "YieldExpr { .. }",
            Expr::MetaPropExpr { .. } => "MetaPropExpr { .. }",
            Expr::AwaitExpr { .. } => "AwaitExpr { .. }",
            Expr::ParenExpr(..) => "ParenExpr(..)",
            Expr::PrivateName(..) => "PrivateName(..)",
            Expr::OptChainExpr { .. } => "OptChainExpr { .. }",
        })
    }
}

impl fmt::Debug for ArrowBody {
    fn fmt<W: fmt::Write>(&self, f: &mut fmt::Formatter<W>) -> fmt::Result {
        f.write_str(match self {
            ArrowBody::BlockStmt(..) => "BlockStmt(..)",
            ArrowBody::Expr(..) => "Expr(..)",
        })
    }
}

impl fmt::Debug for Pat {
    fn fmt<W: fmt::Write>(&self, f: &mut fmt::Formatter<W>) -> fmt::Result {
        f.write_str(match self {
            Pat::BindingIdent(..) => "BindingIdent(..)",
            Pat::ArrayPat(..) => "ArrayPat(..)",
            Pat::RestPat(..) => "RestPat(..)",
            Pat::ObjectPat(..) => "ObjectPat(..)",
            Pat::AssignPat { .. } => "AssignPat { .. }",
            Pat::Expr(..) => "Expr(..)",
        })
    }
}

impl fmt::Debug for ObjectPatProp {
    fn fmt<W: fmt::Write>(&self, f: &mut fmt::Formatter<W>) -> fmt::Result {
        f.write_str(match self {
            ObjectPatProp::KeyValuePatProp { .. } => "KeyValuePatProp { .. }",
            ObjectPatProp::AssignPatProp { .. } => "AssignPatProp { .. }",
            ObjectPatProp::RestPat(..) => "RestPat(..)",
        })
    }
}

impl fmt::Debug for AssignTarget {
    fn fmt<W: fmt::Write>(&self, f: &mut fmt::Formatter<W>) -> fmt::Result {
        f.write_str(match self {
            AssignTarget::BindingIdent(..) => "BindingIdent(..)",
            AssignTarget::MemberExpr(..) => "MemberExpr(..)",
            AssignTarget::SuperPropExpr(..) => "SuperPropExpr(..)",
            AssignTarget::ParenExpr(..) => "ParenExpr(..)",
            AssignTarget::ArrayPat(..) => "ArrayPat(..)",
            AssignTarget::ObjectPat(..) => "ObjectPat(..)",
        })
    }
}

impl fmt::Debug for PropOrSpread {
    fn fmt<W: fmt::Write>(&self, f: &mut fmt::Formatter<W>) -> fmt::Result {
        f.write_str(match self {
            PropOrSpread::SpreadElement { .. } => "SpreadElement { .. }",
            PropOrSpread::Prop(..) => "Prop(..)",
        })
    }
}

impl fmt::Debug for Prop {
    fn fmt<W: fmt::Write>(&self, f: &mut fmt::Formatter<W>) -> fmt::Result {
        f.write_str(match self {
            Prop::Shorthand(..) => "Shorthand(..)",
            Prop::KeyValueProp(..) => "KeyValueProp(..)",
            Prop::GetterProp { .. } => "GetterProp { .. }",
            Prop::SetterProp { .. } => "SetterProp { .. }",
            Prop::MethodProp { .. } => "MethodProp { .. }",
        })
    }
}

impl fmt::Debug for Stmt {
    fn fmt<W: fmt::Write>(&self, f: &mut fmt::Formatter<W>) -> fmt::Result {
        f.write_str(match self {
            Stmt::BlockStmt(..) => "BlockStmt(..)",
            Stmt::EmptyStmt => "EmptyStmt",
            Stmt::DebuggerStmt => "DebuggerStmt",
            Stmt::WithStmt { .. } => "WithStmt { .. }",
            Stmt::ReturnStmt { .. } => "ReturnStmt { .. }",
            Stmt::LabeledStmt { .. } => "LabeledStmt { .. }",
            Stmt::BreakStmt { .. } => "BreakStmt { .. }",
            Stmt::ContinueStmt { .. } => "ContinueStmt { .. }",
            Stmt::IfStmt { .. } => "IfStmt { .. }",
            Stmt::SwitchStmt { .. } => "SwitchStmt { .. }",
            Stmt::ThrowStmt { .. } => "ThrowStmt { .. }",
            Stmt::TryStmt { .. } => "TryStmt { .. }",
            Stmt::WhileStmt { .. } => "WhileStmt { .. }",
            Stmt::DoWhileStmt { .. } => "DoWhileStmt { .. }",
            Stmt::ForStmt { .. } => "ForStmt { .. }",
            Stmt::ForInStmt { .. } => "ForInStmt { .. }",
            Stmt::ForOfStmt { .. } => "ForOfStmt { .. }",
            Stmt::Decl(..) => "Decl(..)",
            Stmt::ExprStmt { .. } => "ExprStmt { .. }",
        })
    }
}

impl fmt::Debug for SwitchCase {
    fn fmt<W: fmt::Write>(&self, f: &mut fmt::Formatter<W>) -> fmt::Result {
        f.write_str("SwitchCase { .. }")
    }
}

impl fmt::Debug for CatchClause {
    fn fmt<W: fmt::Write>(&self, f: &mut fmt::Formatter<W>) -> fmt::Result {
        f.write_str("CatchClause { .. }")
    }
}

impl fmt::Debug for ForInit {
    fn fmt<W: fmt::Write>(&self, f: &mut fmt::Formatter<W>) -> fmt::Result {
        f.write_str(match self {
            ForInit::VarDecl(..) => "VarDecl(..)",
            ForInit::Expr(..) => "Expr(..)",
        })
    }
}

impl fmt::Debug for ForHead {
    fn fmt<W: fmt::Write>(&self, f: &mut fmt::Formatter<W>) -> fmt::Result {
        f.write_str(match self {
            ForHead::VarDecl(..) => "VarDecl(..)",
            ForHead::Pat(..) => "Pat(..)",
        })
    }
}

//! What is written between the parts of a node, and before and behind them.

ghost use Rattle.bundle_syntax.specs.Item.{head_of};
ghost use Rattle.bundle_js_print.specs.Openings.{Opens, head_text, opening_text};

use bundle_syntax::{MethodKind, Node, UnaryOp};

/// What is written where a node begins.
#[derive(Clone, Copy)]
pub enum Opening<'a> {
    Text(&'static str),
    /// A name, or a literal by its source text.
    Raw(&'a str),
    /// A name of a class's own.
    Private(&'a str),
    String {
        value: &'a str,
        raw: Option<&'a str>,
    },
    /// A part of a template.
    Quasi(&'a str),
    /// A word and a space.
    Word(&'static str),
    /// A function, with its name if it has one.
    Function,
    /// A method, with `static` and what else stands in front of its name.
    Method {
        kind: MethodKind,
        is_static: bool,
    },
}

/// What is written before a child.
#[derive(Clone, Copy)]
pub enum Separator {
    Text(&'static str),
    /// An operator with spaces around.
    Spaced(&'static str),
    /// A text, and then a line for one of the list of the node's lines.
    Line(&'static str),
    /// A line of a module.
    Item,
    /// A text, and then a statement that is a body.
    Body(&'static str),
    /// The second branch of an `if`.
    Else,
    /// A text behind a body.
    Behind(&'static str),
    /// What separates properties of an object.
    Property,
    /// What separates the names of an import or an export.
    Specifier,
    /// What leads to the module of an import or an export.
    Source,
    /// What keeps an operand from the operator before it.
    Sign(UnaryOp),
    /// A dot, where the property is a name.
    Dot,
    /// The text behind `?.`, if this part of a chain begins by it.
    Link(&'static str),
    /// The text of a template before an expression.
    Quasi,
    /// The end of the last expression in a template.
    Rest,
    /// The name that an import renames, if it does.
    Renamed,
    /// Nothing, since the child has been written.
    Written,
}

/// What is written where a node ends.
#[derive(Clone, Copy)]
pub enum Ending {
    Text(&'static str),
    /// A text on a line of its own, if the node has lines, and else the other text.
    Lines(&'static str, &'static str),
    /// The end of an array, where a place without an element needs a comma.
    Array,
    /// The end of an object.
    Object,
    /// The end of an export of names.
    Names,
    /// The text behind `?.`, if this part of a chain begins by it.
    Link(&'static str),
    /// The end of a declaration, which has a semicolon if it is a statement.
    Declaration,
}

/// What is written where a node begins.
pub fn opening_of<'a>(node: &Node<'a>) -> Opening<'a>
    ensures { Opens (head_text (head_of node.now)) (opening_text result) }
{
    match node {
        Node::ImportDecl { .. } => Opening::Text("import "),
        Node::ImportStarAsSpecifier | Node::ExportNamespaceSpecifier => Opening::Text("* as "),
        Node::ExportDecl | Node::NamedExport { .. } => Opening::Text("export "),
        Node::ExportDefaultDecl | Node::ExportDefaultExpr => Opening::Text("export default "),
        Node::ExportAll { .. } => Opening::Text("export * from "),
        Node::VarDecl { kind, .. } => Opening::Word(kind.as_str()),
        Node::FnDecl | Node::FnExpr => Opening::Function,
        Node::ClassDecl | Node::ClassExpr => Opening::Text("class"),
        Node::Constructor => Opening::Text("constructor("),
        Node::MethodProp => Opening::Method {
            kind: MethodKind::Method,
            is_static: false,
        },
        Node::ClassMethod { kind, is_static } => Opening::Method {
            kind: *kind,
            is_static: *is_static,
        },
        Node::PrivateMethod { kind, is_static } => Opening::Method {
            kind: *kind,
            is_static: *is_static,
        },
        Node::ClassProp { is_static: true } | Node::PrivateProp { is_static: true } =>
            Opening::Text("static "),
        Node::StaticBlock => Opening::Text("static "),
        Node::GetterProp => Opening::Text("get "),
        Node::SetterProp => Opening::Text("set "),
        Node::Function { .. } => Opening::Text("("),
        Node::SpreadElement | Node::RestPat => Opening::Text("..."),
        Node::ComputedPropName => Opening::Text("["),
        Node::ArrayPat => Opening::Text("["),
        Node::ObjectPat => Opening::Text("{"),
        _ => expression_opening(node),
    }
}

// The same of expressions, literals and names.
fn expression_opening<'a>(node: &Node<'a>) -> Opening<'a>
    ensures { Opens (head_text (head_of node.now)) (opening_text result) }
{
    match node {
        Node::IdentName { sym } => Opening::Raw(sym),
        Node::PrivateName { sym } => Opening::Private(sym),
        Node::Str { value, raw } => Opening::String { value, raw: *raw },
        Node::Bool { value } => Opening::Text(if *value { "true" } else { "false" }),
        Node::Null => Opening::Text("null"),
        Node::Number { raw } => Opening::Raw(raw),
        Node::BigInt { raw } => Opening::Raw(raw),
        Node::Regex { raw } => Opening::Raw(raw),
        Node::Tpl => Opening::Text("`"),
        Node::TplElement { raw } => Opening::Quasi(raw),
        Node::ThisExpr => Opening::Text("this"),
        Node::ArrayLit => Opening::Text("["),
        Node::ObjectLit => Opening::Text("{"),
        Node::UnaryExpr { op } => Opening::Text(op.as_str()),
        Node::UpdateExpr { op, prefix } => Opening::Text(if *prefix { op.as_str() } else { "" }),
        Node::SuperPropExpr | Node::Super => Opening::Text("super"),
        Node::Import => Opening::Text("import"),
        Node::NewExpr { .. } => Opening::Text("new "),
        Node::ArrowExpr { is_async } => Opening::Text(if *is_async { "async (" } else { "(" }),
        Node::YieldExpr { delegate } => Opening::Text(if *delegate { "yield*" } else { "yield" }),
        Node::AwaitExpr => Opening::Text("await "),
        Node::MetaPropExpr { kind } => Opening::Text(kind.as_str()),
        Node::ParenExpr => Opening::Text("("),
        Node::ExprOrSpread { spread } => Opening::Text(if *spread { "..." } else { "" }),
        _ => statement_opening(node),
    }
}

// The same of statements.
fn statement_opening<'a>(node: &Node<'a>) -> Opening<'a> {
    match node {
        Node::BlockStmt => Opening::Text("{"),
        Node::EmptyStmt => Opening::Text(";"),
        Node::DebuggerStmt => Opening::Text("debugger;"),
        Node::WithStmt => Opening::Text("with ("),
        Node::ReturnStmt => Opening::Text("return"),
        Node::BreakStmt => Opening::Text("break"),
        Node::ContinueStmt => Opening::Text("continue"),
        Node::IfStmt => Opening::Text("if ("),
        Node::SwitchStmt => Opening::Text("switch ("),
        Node::ThrowStmt => Opening::Text("throw "),
        Node::TryStmt => Opening::Text("try "),
        Node::CatchClause => Opening::Text("catch "),
        Node::WhileStmt => Opening::Text("while ("),
        Node::DoWhileStmt => Opening::Text("do"),
        Node::ForStmt | Node::ForInStmt | Node::ForOfStmt { is_await: false } => Opening::Text(
            "for (",
        ),
        Node::ForOfStmt { .. } => Opening::Text("for await ("),
        _ => Opening::Text(""),
    }
}

/// What is written before a child of `node` in the field of this number. `behind` is 0 where no child
/// stands before it, and else one more than the field of the child before it.
pub fn separator_before(node: &Node, behind: u8, field: u8) -> Separator {
    match node {
        Node::Module => Separator::Item,
        Node::BlockStmt => Separator::Line(""),
        Node::ImportDecl { .. } | Node::NamedExport { .. } => if field == 0 {
            Separator::Specifier
        } else {
            Separator::Source
        },
        Node::ImportNamedSpecifier => if field == 0 {
            Separator::Renamed
        } else {
            Separator::Written
        },
        Node::ExportNamedSpecifier => Separator::Text(if field == 0 { "" } else { " as " }),
        Node::VarDecl { .. } | Node::SeqExpr | Node::ArrayLit | Node::ArrayPat => Separator::Text(
            if behind == 0 { "" } else { ", " },
        ),
        Node::VarDeclarator
        | Node::ClassProp { .. }
        | Node::PrivateProp { .. }
        | Node::AssignPat
        | Node::AssignPatProp => Separator::Text(if field == 0 { "" } else { " = " }),
        Node::KeyValueProp | Node::KeyValuePatProp => Separator::Text(if field == 0 {
            ""
        } else {
            ": "
        }),
        Node::ObjectLit | Node::ObjectPat => Separator::Property,
        Node::FnDecl | Node::FnExpr | Node::ClassDecl | Node::ClassExpr => Separator::Text(if field
            == 0
        {
            " "
        } else {
            ""
        }),
        Node::Function { .. } | Node::Constructor | Node::ArrowExpr { .. } => function_separator(
            node, behind, field,
        ),
        Node::GetterProp => Separator::Text(if field == 0 { "" } else { "() " }),
        Node::SetterProp => match field {
            0 => Separator::Text(""),
            1 => Separator::Text("("),
            _ => Separator::Text(") "),
        },
        Node::Class => match (behind, field) {
            (0, 0) => Separator::Text(" extends "),
            (2, _) => Separator::Line(""),
            _ => Separator::Line(" {"),
        },
        _ => statement_separator(node, behind, field),
    }
}

// The same of parameters and the body behind them.
fn function_separator(node: &Node, behind: u8, field: u8) -> Separator {
    if field == 0 {
        Separator::Text(if behind == 0 { "" } else { ", " })
    } else if matches!(node, Node::ArrowExpr { .. }) {
        Separator::Text(") => ")
    } else {
        Separator::Text(") ")
    }
}

// The same of statements.
fn statement_separator(node: &Node, behind: u8, field: u8) -> Separator {
    match node {
        Node::WithStmt | Node::WhileStmt => if field == 0 {
            Separator::Text("")
        } else {
            Separator::Body(")")
        },
        Node::ReturnStmt | Node::BreakStmt | Node::ContinueStmt => Separator::Text(" "),
        Node::LabeledStmt => if field == 0 {
            Separator::Text("")
        } else {
            Separator::Body(":")
        },
        Node::IfStmt => match field {
            0 => Separator::Text(""),
            1 => Separator::Body(")"),
            _ => Separator::Else,
        },
        Node::SwitchStmt => match (behind, field) {
            (_, 0) => Separator::Text(""),
            (2, _) => Separator::Line(""),
            _ => Separator::Line(") {"),
        },
        Node::SwitchCase => match (behind, field) {
            (_, 0) => Separator::Text("case "),
            (0, _) => Separator::Line("default:"),
            (1, _) => Separator::Line(":"),
            _ => Separator::Line(""),
        },
        Node::TryStmt => match field {
            0 => Separator::Text(""),
            1 => Separator::Text(" "),
            _ => Separator::Text(" finally "),
        },
        Node::CatchClause => match (behind, field) {
            (_, 0) => Separator::Text("("),
            (0, _) => Separator::Text(""),
            _ => Separator::Text(") "),
        },
        Node::DoWhileStmt => if field == 0 {
            Separator::Body("")
        } else {
            Separator::Behind("while (")
        },
        Node::ForStmt => for_separator(behind, field),
        Node::ForInStmt => match field {
            0 => Separator::Text(""),
            1 => Separator::Text(" in "),
            _ => Separator::Body(")"),
        },
        Node::ForOfStmt { .. } => match field {
            1 => Separator::Text(""),
            2 => Separator::Text(" of "),
            _ => Separator::Body(")"),
        },
        _ => expression_separator(node, behind, field),
    }
}

// The same of a `for` with three parts, each of which may be left out.
fn for_separator(behind: u8, field: u8) -> Separator {
    match (behind, field) {
        (_, 0) => Separator::Text(""),
        (0, 1) | (1, 1) => Separator::Text("; "),
        (0, 2) | (1, 2) => Separator::Text("; ; "),
        (_, 2) => Separator::Text("; "),
        (0, _) | (1, _) => Separator::Body("; ; )"),
        (2, _) => Separator::Body("; )"),
        _ => Separator::Body(")"),
    }
}

// The same of expressions.
fn expression_separator(node: &Node, behind: u8, field: u8) -> Separator {
    match node {
        Node::UnaryExpr { op } => Separator::Sign(*op),
        Node::BinExpr { op } => if field == 1 {
            Separator::Text("")
        } else {
            Separator::Spaced(op.as_str())
        },
        Node::AssignExpr { op } => if field == 1 {
            Separator::Text("")
        } else {
            Separator::Spaced(op.as_str())
        },
        Node::MemberExpr => if field == 0 {
            Separator::Text("")
        } else {
            Separator::Dot
        },
        Node::SuperPropExpr => Separator::Dot,
        Node::CondExpr => match field {
            0 => Separator::Text(""),
            1 => Separator::Text(" ? "),
            _ => Separator::Text(" : "),
        },
        Node::CallExpr | Node::NewExpr { .. } | Node::OptCall => match (behind, field) {
            (_, 0) => Separator::Text(""),
            (2, _) => Separator::Text(", "),
            _ => Separator::Link("("),
        },
        Node::Tpl => if field == 0 {
            Separator::Quasi
        } else {
            Separator::Rest
        },
        Node::YieldExpr { .. } => Separator::Text(" "),
        _ => Separator::Text(""),
    }
}

/// What is written where a node ends. `behind` is 0 where it has no child, and else one more than the field
/// of the last.
pub fn ending_of(node: &Node, behind: u8) -> Ending {
    match node {
        Node::ImportDecl { .. }
        | Node::ExportDefaultExpr
        | Node::ExportAll { .. }
        | Node::ReturnStmt
        | Node::BreakStmt
        | Node::ContinueStmt
        | Node::ThrowStmt
        | Node::ExprStmt
        | Node::ClassProp { .. }
        | Node::PrivateProp { .. } => Ending::Text(";"),
        Node::NamedExport { .. } => Ending::Names,
        Node::VarDecl { .. } => Ending::Declaration,
        Node::BlockStmt => Ending::Lines("}", "}"),
        Node::Class => Ending::Lines("}", " {}"),
        Node::SwitchStmt => Ending::Lines("}", ") {}"),
        Node::SwitchCase => match behind {
            0 => Ending::Text("default:"),
            1 => Ending::Text(":"),
            _ => Ending::Text(""),
        },
        Node::DoWhileStmt => Ending::Text(");"),
        Node::ComputedPropName => Ending::Text("]"),
        Node::ArrayLit | Node::ArrayPat => Ending::Array,
        Node::ObjectLit | Node::ObjectPat => Ending::Object,
        Node::ParenExpr => Ending::Text(")"),
        Node::Tpl => Ending::Text("`"),
        Node::UpdateExpr { op, prefix: false } => Ending::Text(op.as_str()),
        Node::NewExpr { has_args: false } => Ending::Text(""),
        Node::CallExpr | Node::NewExpr { .. } | Node::OptCall => if behind == 2 {
            Ending::Text(")")
        } else {
            Ending::Link("()")
        },
        _ => Ending::Text(""),
    }
}

//! How each node is written: its name, and the keys of the fields that hold nodes.

ghost use Rattle.std.specs.Prelude.{◌≡◌};
ghost use Rattle.bundle_syntax.specs.Item.{head_of};
ghost use Rattle.bundle_json_form.specs.Form.{name, node_fields};
ghost use Rattle.bundle_json_form.specs.Entries.{entry_field, laid_out};
ghost use Rattle.bundle_json_form.specs.Layout.{layout_field, present_fields};

use bundle_syntax::Node;

/// What stands under a key.
#[derive(Clone, Copy)]
pub enum Shape {
    /// One node.
    One,
    /// One node, or `null`.
    Optional,
    /// A list of nodes.
    List,
    /// A list of nodes and `null`s.
    Places,
}

/// A field that holds nodes: its number in the node, its key, and what stands there.
#[derive(Clone, Copy)]
pub struct Field {
    pub number: u8,
    pub key: &'static str,
    pub shape: Shape,
}

// A field that holds nodes: what stands there, the field's number, and its key.
enum Entry {
    One(u8, &'static str),
    Optional(u8, &'static str),
    List(u8, &'static str),
    Places(u8, &'static str),
}

// The fields of a node that hold nodes, in the order of their numbers.
enum Layout {
    Nothing,
    Single(Entry),
    Pair(Entry, Entry),
    Triple(Entry, Entry, Entry),
    Four(Entry, Entry, Entry, Entry),
}

// The field of an entry.
fn as_field(entry: Entry) -> Field
    ensures { layout_field result ≡ entry_field entry }
{
    match entry {
        Entry::One(number, key) => Field {
            number,
            key,
            shape: Shape::One,
        },
        Entry::Optional(number, key) => Field {
            number,
            key,
            shape: Shape::Optional,
        },
        Entry::List(number, key) => Field {
            number,
            key,
            shape: Shape::List,
        },
        Entry::Places(number, key) => Field {
            number,
            key,
            shape: Shape::Places,
        },
    }
}

/// The name of a node, which stands under `type`.
pub fn name_of(node: &Node) -> &'static str
    ensures { result.now ≡ name (head_of node.now) }
{
    match node {
        // Modules (ECMA-262, 16.2).
        Node::Module => "Module",
        Node::ImportDecl { .. } => "ImportDecl",
        Node::ImportNamedSpecifier => "ImportNamedSpecifier",
        Node::ImportDefaultSpecifier => "ImportDefaultSpecifier",
        Node::ImportStarAsSpecifier => "ImportStarAsSpecifier",
        Node::ExportDecl => "ExportDecl",
        Node::NamedExport { .. } => "NamedExport",
        Node::ExportNamespaceSpecifier => "ExportNamespaceSpecifier",
        Node::ExportNamedSpecifier => "ExportNamedSpecifier",
        Node::ExportDefaultDecl => "ExportDefaultDecl",
        Node::ExportDefaultExpr => "ExportDefaultExpr",
        Node::ExportAll { .. } => "ExportAll",
        // Statements (ECMA-262, 14).
        Node::BlockStmt => "BlockStmt",
        Node::EmptyStmt => "EmptyStmt",
        Node::DebuggerStmt => "DebuggerStmt",
        Node::WithStmt => "WithStmt",
        Node::ReturnStmt => "ReturnStmt",
        Node::LabeledStmt => "LabeledStmt",
        Node::BreakStmt => "BreakStmt",
        Node::ContinueStmt => "ContinueStmt",
        Node::IfStmt => "IfStmt",
        Node::SwitchStmt => "SwitchStmt",
        Node::SwitchCase => "SwitchCase",
        Node::ThrowStmt => "ThrowStmt",
        Node::TryStmt => "TryStmt",
        Node::CatchClause => "CatchClause",
        Node::WhileStmt => "WhileStmt",
        Node::DoWhileStmt => "DoWhileStmt",
        Node::ForStmt => "ForStmt",
        Node::ForInStmt => "ForInStmt",
        Node::ForOfStmt { .. } => "ForOfStmt",
        Node::ExprStmt => "ExprStmt",
        // Declarations (ECMA-262, 14.3, 15.2 and 15.7).
        Node::ClassDecl => "ClassDecl",
        Node::FnDecl => "FnDecl",
        Node::VarDecl { .. } => "VarDecl",
        Node::VarDeclarator => "VarDeclarator",
        // Expressions (ECMA-262, 13).
        Node::ThisExpr => "ThisExpr",
        Node::ArrayLit => "ArrayLit",
        Node::ObjectLit => "ObjectLit",
        Node::FnExpr => "FnExpr",
        Node::UnaryExpr { .. } => "UnaryExpr",
        Node::UpdateExpr { .. } => "UpdateExpr",
        Node::BinExpr { .. } => "BinExpr",
        Node::AssignExpr { .. } => "AssignExpr",
        Node::MemberExpr => "MemberExpr",
        Node::SuperPropExpr => "SuperPropExpr",
        Node::CondExpr => "CondExpr",
        Node::CallExpr => "CallExpr",
        Node::NewExpr { .. } => "NewExpr",
        Node::SeqExpr => "SeqExpr",
        Node::Tpl => "Tpl",
        Node::TplElement { .. } => "TplElement",
        Node::TaggedTpl => "TaggedTpl",
        Node::ArrowExpr { .. } => "ArrowExpr",
        Node::ClassExpr => "ClassExpr",
        Node::YieldExpr { .. } => "YieldExpr",
        Node::MetaPropExpr { .. } => "MetaPropExpr",
        Node::AwaitExpr => "AwaitExpr",
        Node::ParenExpr => "ParenExpr",
        Node::OptChainExpr { .. } => "OptChainExpr",
        Node::OptCall => "OptCall",
        Node::ExprOrSpread { .. } => "ExprOrSpread",
        Node::Super => "Super",
        Node::Import => "Import",
        // Functions and classes (ECMA-262, 15).
        Node::Function { .. } => "Function",
        Node::Param => "Param",
        Node::Class => "Class",
        Node::Constructor => "Constructor",
        Node::ClassMethod { .. } => "ClassMethod",
        Node::PrivateMethod { .. } => "PrivateMethod",
        Node::ClassProp { .. } => "ClassProp",
        Node::PrivateProp { .. } => "PrivateProp",
        Node::StaticBlock => "StaticBlock",
        // Names and literals (ECMA-262, 12.7 and 13.2.3).
        Node::IdentName { .. } => "IdentName",
        Node::PrivateName { .. } => "PrivateName",
        Node::Str { .. } => "Str",
        Node::Bool { .. } => "Bool",
        Node::Null => "Null",
        Node::Number { .. } => "Number",
        Node::BigInt { .. } => "BigInt",
        Node::Regex { .. } => "Regex",
        // Properties of object literals (ECMA-262, 13.2.5).
        Node::SpreadElement => "SpreadElement",
        Node::KeyValueProp => "KeyValueProp",
        Node::GetterProp => "GetterProp",
        Node::SetterProp => "SetterProp",
        Node::MethodProp => "MethodProp",
        Node::ComputedPropName => "ComputedPropName",
        // Patterns (ECMA-262, 14.3.3).
        Node::BindingIdent => "BindingIdent",
        Node::ArrayPat => "ArrayPat",
        Node::ObjectPat => "ObjectPat",
        Node::RestPat => "RestPat",
        Node::AssignPat => "AssignPat",
        Node::KeyValuePatProp => "KeyValuePatProp",
        Node::AssignPatProp => "AssignPatProp",
    }
}

/// The fields of a node that hold nodes, in the order of their numbers.
pub fn fields_of(node: &Node) -> [Option<Field>; 4]
    ensures { present_fields result ≡ node_fields (head_of node.now) }
{
    match layout_of(node) {
        Layout::Nothing => [None, None, None, None],
        Layout::Single(first) => [Some(as_field(first)), None, None, None],
        Layout::Pair(first, second) => [Some(as_field(first)), Some(as_field(second)), None, None],
        Layout::Triple(first, second, third) => [
            Some(as_field(first)),
            Some(as_field(second)),
            Some(as_field(third)),
            None,
        ],
        Layout::Four(first, second, third, fourth) => [
            Some(as_field(first)),
            Some(as_field(second)),
            Some(as_field(third)),
            Some(as_field(fourth)),
        ],
    }
}

// The same as data: calls in so many arms make the check dear.
fn layout_of(node: &Node) -> Layout
    ensures { laid_out result ≡ node_fields (head_of node.now) }
{
    match node {
        // Modules (ECMA-262, 16.2).
        Node::Module => Layout::Single(Entry::List(0, "body")),
        Node::ImportDecl { .. } => Layout::Pair(Entry::List(0, "specifiers"), Entry::One(1, "src")),
        Node::ImportNamedSpecifier => Layout::Pair(
            Entry::One(0, "local"),
            Entry::Optional(1, "imported"),
        ),
        Node::ImportDefaultSpecifier => Layout::Single(Entry::One(0, "local")),
        Node::ImportStarAsSpecifier => Layout::Single(Entry::One(0, "local")),
        Node::ExportDecl => Layout::Single(Entry::One(0, "decl")),
        Node::NamedExport { .. } => Layout::Pair(
            Entry::List(0, "specifiers"),
            Entry::Optional(1, "src"),
        ),
        Node::ExportNamespaceSpecifier => Layout::Single(Entry::One(0, "name")),
        Node::ExportNamedSpecifier => Layout::Pair(
            Entry::One(0, "orig"),
            Entry::Optional(1, "exported"),
        ),
        Node::ExportDefaultDecl => Layout::Single(Entry::One(0, "decl")),
        Node::ExportDefaultExpr => Layout::Single(Entry::One(0, "expr")),
        Node::ExportAll { .. } => Layout::Single(Entry::One(0, "src")),
        // Statements (ECMA-262, 14).
        Node::BlockStmt => Layout::Single(Entry::List(0, "stmts")),
        Node::WithStmt => Layout::Pair(Entry::One(0, "obj"), Entry::One(1, "body")),
        Node::ReturnStmt => Layout::Single(Entry::Optional(0, "arg")),
        Node::LabeledStmt => Layout::Pair(Entry::One(0, "label"), Entry::One(1, "body")),
        Node::BreakStmt => Layout::Single(Entry::Optional(0, "label")),
        Node::ContinueStmt => Layout::Single(Entry::Optional(0, "label")),
        Node::IfStmt => Layout::Triple(
            Entry::One(0, "test"),
            Entry::One(1, "cons"),
            Entry::Optional(2, "alt"),
        ),
        Node::SwitchStmt => Layout::Pair(Entry::One(0, "discriminant"), Entry::List(1, "cases")),
        Node::SwitchCase => Layout::Pair(Entry::Optional(0, "test"), Entry::List(1, "cons")),
        Node::ThrowStmt => Layout::Single(Entry::One(0, "arg")),
        Node::TryStmt => Layout::Triple(
            Entry::One(0, "block"),
            Entry::Optional(1, "handler"),
            Entry::Optional(2, "finalizer"),
        ),
        Node::CatchClause => Layout::Pair(Entry::Optional(0, "param"), Entry::One(1, "body")),
        Node::WhileStmt => Layout::Pair(Entry::One(0, "test"), Entry::One(1, "body")),
        Node::DoWhileStmt => Layout::Pair(Entry::One(0, "body"), Entry::One(1, "test")),
        Node::ForStmt => Layout::Four(
            Entry::Optional(0, "init"),
            Entry::Optional(1, "test"),
            Entry::Optional(2, "update"),
            Entry::One(3, "body"),
        ),
        Node::ForInStmt => Layout::Triple(
            Entry::One(0, "left"),
            Entry::One(1, "right"),
            Entry::One(2, "body"),
        ),
        Node::ForOfStmt { .. } => Layout::Triple(
            Entry::One(1, "left"),
            Entry::One(2, "right"),
            Entry::One(3, "body"),
        ),
        Node::ExprStmt => Layout::Single(Entry::One(0, "expr")),
        // Declarations (ECMA-262, 14.3, 15.2 and 15.7).
        Node::ClassDecl => Layout::Pair(Entry::One(0, "ident"), Entry::One(1, "class")),
        Node::FnDecl => Layout::Pair(Entry::One(0, "ident"), Entry::One(1, "function")),
        Node::VarDecl { .. } => Layout::Single(Entry::List(1, "decls")),
        Node::VarDeclarator => Layout::Pair(Entry::One(0, "name"), Entry::Optional(1, "init")),
        // Expressions (ECMA-262, 13).
        Node::ArrayLit => Layout::Single(Entry::Places(0, "elems")),
        Node::ObjectLit => Layout::Single(Entry::List(0, "props")),
        Node::FnExpr => Layout::Pair(Entry::Optional(0, "ident"), Entry::One(1, "function")),
        Node::UnaryExpr { .. } => Layout::Single(Entry::One(1, "arg")),
        Node::UpdateExpr { .. } => Layout::Single(Entry::One(2, "arg")),
        Node::BinExpr { .. } => Layout::Pair(Entry::One(1, "left"), Entry::One(2, "right")),
        Node::AssignExpr { .. } => Layout::Pair(Entry::One(1, "left"), Entry::One(2, "right")),
        Node::MemberExpr => Layout::Pair(Entry::One(0, "obj"), Entry::One(1, "prop")),
        Node::SuperPropExpr => Layout::Single(Entry::One(0, "prop")),
        Node::CondExpr => Layout::Triple(
            Entry::One(0, "test"),
            Entry::One(1, "cons"),
            Entry::One(2, "alt"),
        ),
        Node::CallExpr => Layout::Pair(Entry::One(0, "callee"), Entry::List(1, "args")),
        Node::NewExpr { has_args: true } => Layout::Pair(
            Entry::One(0, "callee"),
            Entry::List(1, "args"),
        ),
        Node::NewExpr { .. } => Layout::Pair(Entry::One(0, "callee"), Entry::Optional(1, "args")),
        Node::SeqExpr => Layout::Single(Entry::List(0, "exprs")),
        Node::Tpl => Layout::Pair(Entry::List(0, "exprs"), Entry::List(1, "quasis")),
        Node::TaggedTpl => Layout::Pair(Entry::One(0, "tag"), Entry::One(1, "tpl")),
        Node::ArrowExpr { .. } => Layout::Pair(Entry::List(0, "params"), Entry::One(1, "body")),
        Node::ClassExpr => Layout::Pair(Entry::Optional(0, "ident"), Entry::One(1, "class")),
        Node::YieldExpr { .. } => Layout::Single(Entry::Optional(0, "arg")),
        Node::AwaitExpr => Layout::Single(Entry::One(0, "arg")),
        Node::ParenExpr => Layout::Single(Entry::One(0, "expr")),
        Node::OptChainExpr { .. } => Layout::Single(Entry::One(1, "base")),
        Node::OptCall => Layout::Pair(Entry::One(0, "callee"), Entry::List(1, "args")),
        Node::ExprOrSpread { .. } => Layout::Single(Entry::One(1, "expr")),
        // Functions and classes (ECMA-262, 15).
        Node::Function { .. } => Layout::Pair(Entry::List(0, "params"), Entry::One(1, "body")),
        Node::Param => Layout::Single(Entry::One(0, "pat")),
        Node::Class => Layout::Pair(Entry::Optional(0, "super_class"), Entry::List(1, "body")),
        Node::Constructor => Layout::Pair(Entry::List(0, "params"), Entry::One(1, "body")),
        Node::ClassMethod { .. } => Layout::Pair(Entry::One(0, "key"), Entry::One(1, "function")),
        Node::PrivateMethod { .. } => Layout::Pair(Entry::One(0, "key"), Entry::One(1, "function")),
        Node::ClassProp { .. } => Layout::Pair(Entry::One(0, "key"), Entry::Optional(1, "value")),
        Node::PrivateProp { .. } => Layout::Pair(Entry::One(0, "key"), Entry::Optional(1, "value")),
        Node::StaticBlock => Layout::Single(Entry::One(0, "body")),
        // Names and literals (ECMA-262, 12.7 and 13.2.3).
        // Properties of object literals (ECMA-262, 13.2.5).
        Node::SpreadElement => Layout::Single(Entry::One(0, "expr")),
        Node::KeyValueProp => Layout::Pair(Entry::One(0, "key"), Entry::One(1, "value")),
        Node::GetterProp => Layout::Pair(Entry::One(0, "key"), Entry::One(1, "body")),
        Node::SetterProp => Layout::Triple(
            Entry::One(0, "key"),
            Entry::One(1, "param"),
            Entry::One(2, "body"),
        ),
        Node::MethodProp => Layout::Pair(Entry::One(0, "key"), Entry::One(1, "function")),
        Node::ComputedPropName => Layout::Single(Entry::One(0, "expr")),
        // Patterns (ECMA-262, 14.3.3).
        Node::BindingIdent => Layout::Single(Entry::One(0, "id")),
        Node::ArrayPat => Layout::Single(Entry::Places(0, "elems")),
        Node::ObjectPat => Layout::Single(Entry::List(0, "props")),
        Node::RestPat => Layout::Single(Entry::One(0, "arg")),
        Node::AssignPat => Layout::Pair(Entry::One(0, "left"), Entry::One(1, "right")),
        Node::KeyValuePatProp => Layout::Pair(Entry::One(0, "key"), Entry::One(1, "value")),
        Node::AssignPatProp => Layout::Pair(Entry::One(0, "key"), Entry::Optional(1, "value")),
        _ => Layout::Nothing,
    }
}

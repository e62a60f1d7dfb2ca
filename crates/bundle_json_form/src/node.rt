//! A node by its name, read with what stands in it and is no node.

ghost use Rattle.std.specs.Prelude.{◌≡◌, ◌≢◌, ℕ, Bool, List, Option, Some, IfOk, IfErr, option_map, codes};
ghost use Rattle.bundle_syntax.specs.Text.{unary_text, update_text, binary_text, assign_text, declaration_word, method_word, meta_prop_text};
ghost use Rattle.bundle_syntax.specs.Item.{head_of, Head};
ghost use Rattle.bundle_json_form.specs.Form as form;
ghost use Rattle.bundle_json_form.specs.Form.{text_at, optional_text_at, truth_at, is_value_given, IsHeadOf};
ghost use Rattle.bundle_json_form.specs.Kinds as kinds;
ghost use Rattle.bundle_json_form.specs.Plain.{seen};
ghost use Rattle.bundle_json_form.specs.Reading.{HasScalars, IsFilled};

use crate::error::FormError;
use crate::layout::name_of;
use crate::seen::{as_bool, as_str, get, is_null, is_same};
use bundle_syntax::Node;
use bundle_syntax::kind::{ExportMetadata, MetaPropKind, MethodKind, VarDeclKind};
use bundle_syntax::operator::{AssignOp, BinaryOp, UnaryOp, UpdateOp};
use json::Value;

// Where names have three to six letters: the kind that this letter leaves.
fn of_three<'a>(first: u8) -> Option<Node<'a>>
    ensures { option_map (λ it. form.name (head_of it)) result
        ≡ option_map form.name (kinds.of_three first) }
{
    match first {
        b'T' => Some(Node::Tpl),
        b'S' => Some(Node::Str {
            value: "",
            raw: None,
        }),
        _ => None,
    }
}

fn of_four<'a>(first: u8) -> Option<Node<'a>>
    ensures { option_map (λ it. form.name (head_of it)) result
        ≡ option_map form.name (kinds.of_four first) }
{
    match first {
        b'B' => Some(Node::Bool { value: false }),
        b'N' => Some(Node::Null),
        _ => None,
    }
}

fn of_five<'a>(first: u8) -> Option<Node<'a>>
    ensures { option_map (λ it. form.name (head_of it)) result
        ≡ option_map form.name (kinds.of_five first) }
{
    match first {
        b'S' => Some(Node::Super),
        b'P' => Some(Node::Param),
        b'C' => Some(Node::Class),
        b'R' => Some(Node::Regex { raw: "" }),
        _ => None,
    }
}

fn of_six<'a>(third: u8) -> Option<Node<'a>>
    ensures { option_map (λ it. form.name (head_of it)) result
        ≡ option_map form.name (kinds.of_six third) }
{
    match third {
        b'd' => Some(Node::Module),
        b'S' => Some(Node::IfStmt),
        b'D' => Some(Node::FnDecl),
        b'E' => Some(Node::FnExpr),
        b'p' => Some(Node::Import),
        b'm' => Some(Node::Number { raw: "" }),
        b'g' => Some(Node::BigInt { raw: "" }),
        _ => None,
    }
}

// Where names have seven to nine letters.
fn of_seven<'a>(first: u8, meta: &'a ExportMetadata) -> Option<Node<'a>>
    ensures { option_map (λ it. form.name (head_of it)) result
        ≡ option_map form.name (kinds.of_seven first) }
{
    match first {
        b'T' => Some(Node::TryStmt),
        b'F' => Some(Node::ForStmt),
        b'V' => Some(Node::VarDecl {
            kind: VarDeclKind::Var,
            meta,
        }),
        b'B' => Some(Node::BinExpr { op: BinaryOp::EqEq }),
        b'N' => Some(Node::NewExpr { has_args: false }),
        b'S' => Some(Node::SeqExpr),
        b'O' => Some(Node::OptCall),
        b'R' => Some(Node::RestPat),
        _ => None,
    }
}

fn of_eight<'a>(second: u8, sixth: u8) -> Option<Node<'a>>
    ensures { option_map (λ it. form.name (head_of it)) result
        ≡ option_map form.name (kinds.of_eight second sixth) }
{
    match (second, sixth) {
        (b'i', b't') => Some(Node::WithStmt),
        (b'x', b't') => Some(Node::ExprStmt),
        (b'h', b'x') => Some(Node::ThisExpr),
        (b'r', b'L') => Some(Node::ArrayLit),
        (b'o', b'x') => Some(Node::CondExpr),
        (b'a', b'x') => Some(Node::CallExpr),
        (b'u', b'i') => Some(Node::Function {
            is_generator: false,
            is_async: false,
        }),
        (b'r', b'P') => Some(Node::ArrayPat),
        _ => None,
    }
}

fn of_nine<'a>(fourth: u8, seventh: u8, meta: &'a ExportMetadata) -> Option<Node<'a>>
    ensures { option_map (λ it. form.name (head_of it)) result
        ≡ option_map form.name (kinds.of_nine fourth seventh) }
{
    match (fourth, seventh) {
        (b'o', b'A') => Some(Node::ExportAll { meta }),
        (b'c', b't') => Some(Node::BlockStmt),
        (b't', b't') => Some(Node::EmptyStmt),
        (b'a', b't') => Some(Node::BreakStmt),
        (b'o', b't') => Some(Node::ThrowStmt),
        (b'l', b't') => Some(Node::WhileStmt),
        (b'I', b't') => Some(Node::ForInStmt),
        (b'O', b't') => Some(Node::ForOfStmt { is_await: false }),
        (b's', b'e') => Some(Node::ClassDecl),
        (b's', b'r') => Some(Node::ClassProp { is_static: false }),
        (b'n', b'a') => Some(Node::IdentName { sym: "" }),
        (b'e', b'P') => Some(Node::ObjectPat),
        (b'i', b'P') => Some(Node::AssignPat),
        _ => expression_of_nine(fourth, seventh),
    }
}

fn expression_of_nine<'a>(fourth: u8, seventh: u8) -> Option<Node<'a>>
    ensures { option_map (λ it. form.name (head_of it)) result
        ≡ option_map form.name (kinds.expression_of_nine fourth seventh) }
{
    match (fourth, seventh) {
        (b'e', b'L') => Some(Node::ObjectLit),
        (b'r', b'x') => Some(Node::UnaryExpr { op: UnaryOp::Minus }),
        (b'g', b'T') => Some(Node::TaggedTpl),
        (b'o', b'x') => Some(Node::ArrowExpr { is_async: false }),
        (b's', b'x') => Some(Node::ClassExpr),
        (b'l', b'x') => Some(Node::YieldExpr { delegate: false }),
        (b'i', b'x') => Some(Node::AwaitExpr),
        (b'e', b'x') => Some(Node::ParenExpr),
        _ => None,
    }
}

// Where names have ten to thirteen letters.
fn of_ten<'a>(first: u8, seventh: u8, meta: &'a ExportMetadata) -> Option<Node<'a>>
    ensures { option_map (λ it. form.name (head_of it)) result
        ≡ option_map form.name (kinds.of_ten first seventh) }
{
    match (first, seventh) {
        (b'I', b'D') => Some(Node::ImportDecl { meta }),
        (b'E', b'D') => Some(Node::ExportDecl),
        (b'R', b'S') => Some(Node::ReturnStmt),
        (b'S', b'S') => Some(Node::SwitchStmt),
        (b'S', b'C') => Some(Node::SwitchCase),
        (b'U', b'E') => Some(Node::UpdateExpr {
            op: UpdateOp::PlusPlus,
            prefix: false,
        }),
        (b'A', b'E') => Some(Node::AssignExpr {
            op: AssignOp::Assign,
        }),
        (b'M', b'E') => Some(Node::MemberExpr),
        (b'T', b'm') => Some(Node::TplElement { raw: "" }),
        (b'G', b'P') => Some(Node::GetterProp),
        (b'S', b'P') => Some(Node::SetterProp),
        (b'M', b'P') => Some(Node::MethodProp),
        _ => None,
    }
}

fn of_eleven<'a>(first: u8, eighth: u8, meta: &'a ExportMetadata) -> Option<Node<'a>>
    ensures { option_map (λ it. form.name (head_of it)) result
        ≡ option_map form.name (kinds.of_eleven first eighth) }
{
    match (first, eighth) {
        (b'N', b'p') => Some(Node::NamedExport { meta }),
        (b'L', b'S') => Some(Node::LabeledStmt),
        (b'C', b'a') => Some(Node::CatchClause),
        (b'D', b'S') => Some(Node::DoWhileStmt),
        (b'C', b'c') => Some(Node::Constructor),
        (b'C', b't') => Some(Node::ClassMethod {
            kind: MethodKind::Method,
            is_static: false,
        }),
        (b'P', b'P') => Some(Node::PrivateProp { is_static: false }),
        (b'S', b'l') => Some(Node::StaticBlock),
        (b'P', b'N') => Some(Node::PrivateName { sym: "" }),
        _ => None,
    }
}

fn of_twelve<'a>(first: u8) -> Option<Node<'a>>
    ensures { option_map (λ it. form.name (head_of it)) result
        ≡ option_map form.name (kinds.of_twelve first) }
{
    match first {
        b'D' => Some(Node::DebuggerStmt),
        b'C' => Some(Node::ContinueStmt),
        b'M' => Some(Node::MetaPropExpr {
            kind: MetaPropKind::NewTarget,
        }),
        b'O' => Some(Node::OptChainExpr { optional: false }),
        b'E' => Some(Node::ExprOrSpread { spread: false }),
        b'K' => Some(Node::KeyValueProp),
        b'B' => Some(Node::BindingIdent),
        _ => None,
    }
}

fn of_thirteen<'a>(second: u8) -> Option<Node<'a>>
    ensures { option_map (λ it. form.name (head_of it)) result
        ≡ option_map form.name (kinds.of_thirteen second) }
{
    match second {
        b'a' => Some(Node::VarDeclarator),
        b'u' => Some(Node::SuperPropExpr),
        b'r' => Some(Node::PrivateMethod {
            kind: MethodKind::Method,
            is_static: false,
        }),
        b'p' => Some(Node::SpreadElement),
        b's' => Some(Node::AssignPatProp),
        _ => None,
    }
}

// Where names are longer.
fn of_many<'a>(name: &[u8]) -> Option<Node<'a>>
    ensures { option_map (λ it. form.name (head_of it)) result
        ≡ option_map form.name (kinds.of_many name.now) }
{
    match (name.len(), name.get(13)) {
        (15, _) => Some(Node::KeyValuePatProp),
        (16, _) => Some(Node::ComputedPropName),
        (17, Some(b'D')) => Some(Node::ExportDefaultDecl),
        (17, _) => Some(Node::ExportDefaultExpr),
        (20, _) => match name.first() {
            Some(b'I') => Some(Node::ImportNamedSpecifier),
            _ => Some(Node::ExportNamedSpecifier),
        },
        (21, _) => Some(Node::ImportStarAsSpecifier),
        (22, _) => Some(Node::ImportDefaultSpecifier),
        (24, _) => Some(Node::ExportNamespaceSpecifier),
        _ => None,
    }
}

// The one kind that may have this name, by its length and a letter or two of it.
#[tactic(auto, unfolding(crate::specs::Kinds::kind_of))]
fn guess<'a>(name: &[u8], meta: &'a ExportMetadata) -> Option<Node<'a>>
    ensures { option_map (λ it. form.name (head_of it)) result
        ≡ option_map form.name (kinds.kind_of name.now) }
{
    match name.len() {
        3 => of_three(name[0]),
        4 => of_four(name[0]),
        5 => of_five(name[0]),
        6 => of_six(name[2]),
        7 => of_seven(name[0], meta),
        8 => of_eight(name[1], name[5]),
        9 => of_nine(name[3], name[6], meta),
        10 => of_ten(name[0], name[6], meta),
        11 => of_eleven(name[0], name[7], meta),
        12 => of_twelve(name[0]),
        13 => of_thirteen(name[1]),
        _ => of_many(name),
    }
}

/// A node of this name, with stand-ins for what stands in it and is no node.
pub fn kind_named<'a>(name: &str, meta: &'a ExportMetadata) -> Result<Node<'a>, FormError>
    ensures named { IfOk result (λ it. form.name (head_of it) ≡ name.now) }
    ensures refused { IfErr result (λ _. (kind : Head) → form.name kind ≢ name.now) }
{
    match guess(name.as_bytes(), meta) {
        Some(kind) if is_same(name_of(&kind), name) => Ok(kind),
        _ => Err(FormError::Form),
    }
}

/// A value that may stand for a node.
#[derive(Clone, Copy)]
pub struct NodeValue<'v, 'a> {
    pub value: &'v Value<'a>,
    pub meta: &'a ExportMetadata,
}

impl<'v, 'a> NodeValue<'v, 'a> {
    /// The text under `key`.
    pub fn text(&self, key: &str) -> Result<&'a str, FormError>
        ensures read { IfOk result (λ it.
            text_at key.now (seen self.now.value.now) ≡ Some it.now) }
        ensures refused { IfErr result (λ _.
            (it : List ℕ) → text_at key.now (seen self.now.value.now) ≢ Some it) }
    {
        get(self.value, key).and_then(as_str).ok_or(FormError::Form)
    }

    fn optional_text(&self, key: &str) -> Result<Option<&'a str>, FormError>
        ensures read { IfOk result (λ it.
            optional_text_at key.now (seen self.now.value.now)
            ≡ Some (option_map (λ text. text.now) it)) }
        ensures refused { IfErr result (λ _.
            (it : Option (List ℕ)) → optional_text_at key.now (seen self.now.value.now) ≢ Some it) }
    {
        match get(self.value, key) {
            None => Ok(None),
            Some(value) if is_null(value) => Ok(None),
            Some(value) => match as_str(value) {
                Some(text) => Ok(Some(text)),
                None => Err(FormError::Form),
            },
        }
    }

    fn truth(&self, key: &str) -> Result<bool, FormError>
        ensures read { IfOk result (λ it. truth_at key.now (seen self.now.value.now) ≡ Some it) }
        ensures refused { IfErr result (λ _.
            (it : Bool) → truth_at key.now (seen self.now.value.now) ≢ Some it) }
    {
        match get(self.value, key) {
            None => Ok(false),
            Some(value) => as_bool(value).ok_or(FormError::Form),
        }
    }

    /// Whether there is a value under `key`, and it is not `null`.
    pub fn has(&self, key: &str) -> bool
        ensures { result ≡ is_value_given key.now (seen self.now.value.now) }
    {
        match get(self.value, key) {
            None => false,
            Some(value) => !is_null(value),
        }
    }

    /// The node that the value stands for, whose name is `name`.
    pub fn node(&self, name: &str) -> Result<Node<'a>, FormError>
        requires { text_at (codes "type") (seen self.now.value.now) ≡ Some name.now }
        ensures read { IfOk result (λ it.
            IsHeadOf self.now.meta.now (seen self.now.value.now) (head_of it)) }
        ensures refused { IfErr result (λ _.
            (head : Head) → ¬ IsHeadOf self.now.meta.now (seen self.now.value.now) head) }
    {
        let kind = kind_named(name, self.meta)?;
        self.filled(kind)
    }

    fn declaration(&self) -> Result<VarDeclKind, FormError>
        ensures read { IfOk result (λ it.
            text_at (codes "kind") (seen self.now.value.now) ≡ Some (declaration_word it)) }
        ensures refused { IfErr result (λ _. (it : VarDeclKind) →
            text_at (codes "kind") (seen self.now.value.now) ≢ Some (declaration_word it)) }
    {
        VarDeclKind::from_text(self.text("kind")?).ok_or(FormError::Form)
    }

    fn method(&self) -> Result<MethodKind, FormError>
        ensures read { IfOk result (λ it.
            text_at (codes "kind") (seen self.now.value.now) ≡ Some (method_word it)) }
        ensures refused { IfErr result (λ _. (it : MethodKind) →
            text_at (codes "kind") (seen self.now.value.now) ≢ Some (method_word it)) }
    {
        MethodKind::from_text(self.text("kind")?).ok_or(FormError::Form)
    }

    fn meta_prop(&self) -> Result<MetaPropKind, FormError>
        ensures read { IfOk result (λ it.
            text_at (codes "kind") (seen self.now.value.now) ≡ Some (meta_prop_text it)) }
        ensures refused { IfErr result (λ _. (it : MetaPropKind) →
            text_at (codes "kind") (seen self.now.value.now) ≢ Some (meta_prop_text it)) }
    {
        MetaPropKind::from_text(self.text("kind")?).ok_or(FormError::Form)
    }

    fn unary(&self) -> Result<UnaryOp, FormError>
        ensures read { IfOk result (λ it.
            text_at (codes "op") (seen self.now.value.now) ≡ Some (unary_text it)) }
        ensures refused { IfErr result (λ _. (it : UnaryOp) →
            text_at (codes "op") (seen self.now.value.now) ≢ Some (unary_text it)) }
    {
        UnaryOp::from_text(self.text("op")?).ok_or(FormError::Form)
    }

    fn update(&self) -> Result<UpdateOp, FormError>
        ensures read { IfOk result (λ it.
            text_at (codes "op") (seen self.now.value.now) ≡ Some (update_text it)) }
        ensures refused { IfErr result (λ _. (it : UpdateOp) →
            text_at (codes "op") (seen self.now.value.now) ≢ Some (update_text it)) }
    {
        UpdateOp::from_text(self.text("op")?).ok_or(FormError::Form)
    }

    fn binary(&self) -> Result<BinaryOp, FormError>
        ensures read { IfOk result (λ it.
            text_at (codes "op") (seen self.now.value.now) ≡ Some (binary_text it)) }
        ensures refused { IfErr result (λ _. (it : BinaryOp) →
            text_at (codes "op") (seen self.now.value.now) ≢ Some (binary_text it)) }
    {
        BinaryOp::from_text(self.text("op")?).ok_or(FormError::Form)
    }

    fn assign(&self) -> Result<AssignOp, FormError>
        ensures read { IfOk result (λ it.
            text_at (codes "op") (seen self.now.value.now) ≡ Some (assign_text it)) }
        ensures refused { IfErr result (λ _. (it : AssignOp) →
            text_at (codes "op") (seen self.now.value.now) ≢ Some (assign_text it)) }
    {
        AssignOp::from_text(self.text("op")?).ok_or(FormError::Form)
    }

    // A node of this kind, with what stands in the value.
    fn filled(&self, kind: Node<'a>) -> Result<Node<'a>, FormError>
        ensures read { IfOk result (λ it.
            IsFilled self.now.meta.now (seen self.now.value.now) (head_of kind.entry)
            (head_of it)) }
        ensures refused { IfErr result (λ _.
            ¬ HasScalars (seen self.now.value.now) (head_of kind.entry)) }
    {
        match kind {
            Node::ImportDecl { .. } => Ok(Node::ImportDecl { meta: self.meta }),
            Node::NamedExport { .. } => Ok(Node::NamedExport { meta: self.meta }),
            Node::ExportAll { .. } => Ok(Node::ExportAll { meta: self.meta }),
            Node::ForOfStmt { .. } => Ok(Node::ForOfStmt {
                is_await: self.truth("is_await")?,
            }),
            Node::VarDecl { .. } => Ok(Node::VarDecl {
                kind: self.declaration()?,
                meta: self.meta,
            }),
            Node::UnaryExpr { .. } => Ok(Node::UnaryExpr { op: self.unary()? }),
            Node::UpdateExpr { .. } => Ok(Node::UpdateExpr {
                op: self.update()?,
                prefix: self.truth("prefix")?,
            }),
            Node::BinExpr { .. } => Ok(Node::BinExpr { op: self.binary()? }),
            Node::AssignExpr { .. } => Ok(Node::AssignExpr { op: self.assign()? }),
            Node::NewExpr { .. } => Ok(Node::NewExpr {
                has_args: self.has("args"),
            }),
            Node::TplElement { .. } => Ok(Node::TplElement {
                raw: self.text("raw")?,
            }),
            Node::ArrowExpr { .. } => Ok(Node::ArrowExpr {
                is_async: self.truth("is_async")?,
            }),
            Node::YieldExpr { .. } => Ok(Node::YieldExpr {
                delegate: self.truth("delegate")?,
            }),
            Node::MetaPropExpr { .. } => Ok(Node::MetaPropExpr {
                kind: self.meta_prop()?,
            }),
            Node::OptChainExpr { .. } => Ok(Node::OptChainExpr {
                optional: self.truth("optional")?,
            }),
            Node::ExprOrSpread { .. } => Ok(Node::ExprOrSpread {
                spread: self.truth("spread")?,
            }),
            Node::IdentName { .. } => Ok(Node::IdentName {
                sym: self.text("sym")?,
            }),
            Node::PrivateName { .. } => Ok(Node::PrivateName {
                sym: self.text("sym")?,
            }),
            Node::Str { .. } => Ok(Node::Str {
                value: self.text("value")?,
                raw: self.optional_text("raw")?,
            }),
            Node::Bool { .. } => Ok(Node::Bool {
                value: self.truth("value")?,
            }),
            Node::Number { .. } => Ok(Node::Number {
                raw: self.text("raw")?,
            }),
            Node::BigInt { .. } => Ok(Node::BigInt {
                raw: self.text("raw")?,
            }),
            Node::Regex { .. } => Ok(Node::Regex {
                raw: self.text("raw")?,
            }),
            Node::Function { .. } => Ok(Node::Function {
                is_generator: self.truth("is_generator")?,
                is_async: self.truth("is_async")?,
            }),
            Node::ClassMethod { .. } => Ok(Node::ClassMethod {
                kind: self.method()?,
                is_static: self.truth("is_static")?,
            }),
            Node::PrivateMethod { .. } => Ok(Node::PrivateMethod {
                kind: self.method()?,
                is_static: self.truth("is_static")?,
            }),
            Node::ClassProp { .. } => Ok(Node::ClassProp {
                is_static: self.truth("is_static")?,
            }),
            Node::PrivateProp { .. } => Ok(Node::PrivateProp {
                is_static: self.truth("is_static")?,
            }),
            _ => Ok(kind),
        }
    }
}

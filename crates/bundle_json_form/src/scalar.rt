//! What stands in a node and is no node, written: flags, operators, kinds and texts.

ghost use Rattle.std.specs.Prelude.{◌≡◌, Option, option_map, OnOk};
ghost use Rattle.serde_json.specs.Data.{null, boolean, string, object, no_members, put as with_member};
ghost use Rattle.serde_json.specs.View.{view};
ghost use Rattle.bundle_syntax.specs.Item.{head_of};
ghost use Rattle.bundle_json_form.specs.Form.{scalars, with_scalar, with_scalars, optional_text};
ghost use Rattle.bundle_json_form.specs.Scalars.{scalar_of, scalars_in};
ghost use Rattle.bundle_json_form.specs.Writing.{members_in};

use bundle_syntax::Node;
use serde_json::{Map, Value};
use std::alloc::{AllocError, Global};

/// What stands in a node under a key and is no node.
#[derive(Clone, Copy)]
pub enum Scalar<'a> {
    Text(&'static str, &'a str),
    OptionalText(&'static str, Option<&'a str>),
    Truth(&'static str, bool),
    /// Whether there is a list of nodes under the key, which is a field of its own.
    Given(&'static str, bool),
}

/// The scalars of a node, in their order.
#[derive(Clone, Copy)]
pub enum Scalars<'a> {
    Nothing,
    Single(Scalar<'a>),
    Pair(Scalar<'a>, Scalar<'a>),
}

/// What stands in a node and is no node.
pub fn scalars_of<'a>(node: &Node<'a>) -> Scalars<'a>
    ensures { scalars_in result ≡ scalars (head_of node.now) }
{
    match node {
        Node::IdentName { sym } => Scalars::Single(Scalar::Text("sym", sym)),
        Node::PrivateName { sym } => Scalars::Single(Scalar::Text("sym", sym)),
        Node::Number { raw } => Scalars::Single(Scalar::Text("raw", raw)),
        Node::BigInt { raw } => Scalars::Single(Scalar::Text("raw", raw)),
        Node::Regex { raw } => Scalars::Single(Scalar::Text("raw", raw)),
        Node::TplElement { raw } => Scalars::Single(Scalar::Text("raw", raw)),
        Node::Bool { value } => Scalars::Single(Scalar::Truth("value", *value)),
        Node::Str { value, raw } => Scalars::Pair(
            Scalar::Text("value", value),
            Scalar::OptionalText("raw", *raw),
        ),
        Node::ForOfStmt { is_await } => Scalars::Single(Scalar::Truth("is_await", *is_await)),
        Node::ArrowExpr { is_async } => Scalars::Single(Scalar::Truth("is_async", *is_async)),
        Node::YieldExpr { delegate } => Scalars::Single(Scalar::Truth("delegate", *delegate)),
        Node::OptChainExpr { optional } => Scalars::Single(Scalar::Truth("optional", *optional)),
        Node::ExprOrSpread { spread } => Scalars::Single(Scalar::Truth("spread", *spread)),
        Node::NewExpr { has_args } => Scalars::Single(Scalar::Given("args", *has_args)),
        Node::ClassProp { is_static } => Scalars::Single(Scalar::Truth("is_static", *is_static)),
        Node::PrivateProp { is_static } => Scalars::Single(Scalar::Truth("is_static", *is_static)),
        Node::Function {
            is_generator,
            is_async,
        } => Scalars::Pair(
            Scalar::Truth("is_generator", *is_generator),
            Scalar::Truth("is_async", *is_async),
        ),
        Node::VarDecl { kind, .. } => Scalars::Single(Scalar::Text("kind", kind.as_str())),
        Node::UnaryExpr { op } => Scalars::Single(Scalar::Text("op", op.as_str())),
        Node::BinExpr { op } => Scalars::Single(Scalar::Text("op", op.as_str())),
        Node::AssignExpr { op } => Scalars::Single(Scalar::Text("op", op.as_str())),
        Node::MetaPropExpr { kind } => Scalars::Single(Scalar::Text("kind", kind.as_str())),
        Node::UpdateExpr { op, prefix } => Scalars::Pair(
            Scalar::Text("op", op.as_str()),
            Scalar::Truth("prefix", *prefix),
        ),
        Node::ClassMethod { kind, is_static } => Scalars::Pair(
            Scalar::Text("kind", kind.as_str()),
            Scalar::Truth("is_static", *is_static),
        ),
        Node::PrivateMethod { kind, is_static } => Scalars::Pair(
            Scalar::Text("kind", kind.as_str()),
            Scalar::Truth("is_static", *is_static),
        ),
        _ => Scalars::Nothing,
    }
}

/// An object under construction.
#[derive(Drop)]
pub struct Object {
    alloc: Global,
    members: Map<String, Value>,
}

impl Object {
    pub fn new(alloc: Global) -> Object
        ensures { members_in result ≡ no_members }
    {
        Object {
            alloc,
            members: Map::new(alloc),
        }
    }

    pub fn put(&mut self, key: &str, value: Value) -> Result<(), AllocError>
        ensures { OnOk result
            (members_in self.new ≡ with_member key.now (view value) (members_in self.old)) }
    {
        let name = String::from_str(self.alloc, key)?;
        self.members.insert(name, value)?;
        Ok(())
    }

    pub fn put_text(&mut self, key: &str, text: &str) -> Result<(), AllocError>
        ensures { OnOk result
            (members_in self.new ≡ with_member key.now (string text.now) (members_in self.old)) }
    {
        let text = String::from_str(self.alloc, text)?;
        self.put(key, Value::String(text))
    }

    fn put_truth(&mut self, key: &str, truth: bool) -> Result<(), AllocError>
        ensures { OnOk result
            (members_in self.new ≡ with_member key.now (boolean truth) (members_in self.old)) }
    {
        self.put(key, Value::Bool(truth))
    }

    fn put_optional_text(&mut self, key: &str, text: Option<&str>) -> Result<(), AllocError>
        ensures { OnOk result
            (members_in self.new
            ≡ with_scalar (optional_text key.now (option_map (λ it. it.now) text.entry))
            (members_in self.old)) }
    {
        match text {
            Some(text) => self.put_text(key, text),
            None => self.put(key, Value::Null),
        }
    }

    pub fn into_value(self) -> Value
        ensures { view result ≡ object (members_in self) }
    {
        let Object { members, .. } = self;
        Value::Object(members)
    }

    fn put_scalar(&mut self, scalar: Scalar<'_>) -> Result<(), AllocError>
        ensures { OnOk result
            (members_in self.new ≡ with_scalar (scalar_of scalar.entry) (members_in self.old)) }
    {
        match scalar {
            Scalar::Text(key, text) => self.put_text(key, text),
            Scalar::OptionalText(key, text) => self.put_optional_text(key, text),
            Scalar::Truth(key, truth) => self.put_truth(key, truth),
            Scalar::Given(_, _) => Ok(()),
        }
    }

    /// Puts in what stands in `node` and is no node.
    pub fn put_scalars(&mut self, node: &Node) -> Result<(), AllocError>
        ensures { OnOk result
            (members_in self.new
            ≡ with_scalars (scalars (head_of node.now)) (members_in self.old)) }
    {
        match scalars_of(node) {
            Scalars::Nothing => Ok(()),
            Scalars::Single(only) => self.put_scalar(only),
            Scalars::Pair(first, second) => {
                self.put_scalar(first)?;
                self.put_scalar(second)
            }
        }
    }
}

//! What the place where an expression stands asks of it.

ghost use Rattle.std.specs.Prelude.{◌≡◌, false, option_map, unwrap_or};
ghost use Rattle.bundle_syntax.specs.Item.{head_of, item_of};
ghost use Rattle.bundle_js_print.specs.Levels.{begins_brace, begins_declaration, begins_pattern, binary_place, for_place, is_computed, is_computed_name, is_excused, is_head, is_misread, is_object_pattern, is_taken, is_torn, name_needs_parens, needs_parens, operand_place, place_level, property_place, slot_level, slot_no_in, statement_place};

use crate::level::{Level, left_level, level_of, right_level};
use bundle_syntax::{BinaryOp, Node, Piece};

/// What an expression begins whose first words would there be read as something else.
#[derive(Clone, Copy, PartialEq, Eq, Debug)]
pub enum Start {
    /// Nothing of that kind.
    Free,
    /// An expression statement: not `{`, `function`, `class`, `let [` (ECMA-262, 14.5).
    Statement,
    /// The body of an arrow function: not `{` (ECMA-262, 15.3).
    ArrowBody,
    /// What a module exports as its default: not `function`, `class` (ECMA-262, 16.2.3).
    Default,
    /// The head of a `for` or `for in`: not `let [` (ECMA-262, 14.7).
    ForHead,
    /// The left side of a `for of`: neither `let` nor `async` alone (ECMA-262, 14.7.5).
    ForOf,
    /// The begin of the left side of a `for of`, or the left side of a `for await`: not `let`.
    ForLet,
}

/// How an expression stands in an optional chain (ECMA-262, 13.3).
#[derive(Clone, Copy, PartialEq, Eq, Debug)]
pub enum Link {
    /// Not in one.
    Alone,
    /// As what a part of it is of, which may be a chain too.
    Object,
    /// As a part that a `?.` does not begin.
    Plain,
    /// As a part that a `?.` begins.
    Optional,
}

/// What the place where an expression stands asks of it.
#[derive(Clone, Copy)]
pub struct PrintContext {
    /// The loosest that it may be.
    pub least: Level,
    /// Whether it may be a `??`, however loose that is.
    pub takes_coalesce: bool,
    /// What it begins.
    pub start: Start,
    /// Whether `in` would end the head of a `for`.
    pub no_in: bool,
    /// Whether a call would be taken for the arguments of a `new`.
    pub no_call: bool,
    /// Whether a statement ends before an `else`, which an `if` of its own would take.
    pub no_else: bool,
    pub link: Link,
}

/// What a node asks of a child.
#[derive(Clone, Copy)]
pub enum Slot {
    /// It stands between brackets, or is begun and ended by words of its own.
    Inside(Level),
    /// It stands behind something of the node's.
    Right(Level),
    /// The node begins with it.
    Left(Level),
    /// The node begins with it, and is a `??`.
    LeftOfCoalesce,
    /// The node is a property, a call or a template of it.
    Object,
    /// It is what a `new` calls.
    Callee(Level),
    /// It begins what `Start` says.
    Begin(Level, Start),
    /// It is the body of an arrow function.
    ArrowBody,
    /// It is the property or the call of a part of an optional chain.
    Part(bool),
    /// It is all that the node is.
    Whole,
    /// It is a statement with which the node ends.
    Body,
}

impl PrintContext {
    /// What is asked of what stands between brackets.
    pub fn inside(least: Level) -> PrintContext
        ensures level { result.least ≡ least }
        ensures in_head { result.no_in ≡ false }
    {
        PrintContext {
            least,
            takes_coalesce: false,
            start: Start::Free,
            no_in: false,
            no_call: false,
            no_else: false,
            link: Link::Alone,
        }
    }

    /// What is asked of a child, where this is asked of its node.
    pub fn of_child(self, slot: Slot) -> PrintContext
        ensures level { result.least ≡ unwrap_or (slot_level slot) self.least }
        ensures in_head { result.no_in ≡ slot_no_in self.no_in slot }
    {
        match slot {
            Slot::Inside(least) => PrintContext::inside(least),
            Slot::Right(least) => self.right(least),
            Slot::Left(least) => self.left(least),
            Slot::LeftOfCoalesce => PrintContext {
                takes_coalesce: true,
                ..self.left(Level::BitOr)
            },
            Slot::Object => PrintContext {
                no_call: self.no_call,
                link: object_of(self.link),
                ..self.left(Level::Call)
            },
            Slot::Callee(least) => PrintContext {
                no_call: true,
                ..PrintContext::inside(least)
            },
            Slot::Begin(least, start) => PrintContext {
                start,
                no_in: is_for_head(start),
                ..PrintContext::inside(least)
            },
            Slot::ArrowBody => PrintContext {
                start: Start::ArrowBody,
                ..self.right(Level::Assignment)
            },
            Slot::Part(is_optional) => PrintContext {
                no_call: self.no_call,
                link: if is_optional {
                    Link::Optional
                } else {
                    Link::Plain
                },
                ..self.left(Level::Sequence)
            },
            Slot::Whole => self,
            Slot::Body => PrintContext {
                no_else: self.no_else,
                ..PrintContext::inside(Level::Sequence)
            },
        }
    }

    fn right(self, least: Level) -> PrintContext
        ensures level { result.least ≡ least }
        ensures in_head { result.no_in ≡ self.no_in }
    {
        PrintContext {
            no_in: self.no_in,
            ..PrintContext::inside(least)
        }
    }

    fn left(self, least: Level) -> PrintContext
        ensures level { result.least ≡ least }
        ensures in_head { result.no_in ≡ self.no_in }
    {
        PrintContext {
            start: begin_of(self.start),
            ..self.right(least)
        }
    }
}

// What a part begins with which something begins.
fn begin_of(start: Start) -> Start {
    match start {
        Start::ForOf => Start::ForLet,
        other => other,
    }
}

// How that stands in a chain of which something that stands so is a property or a call.
fn object_of(link: Link) -> Link {
    match link {
        Link::Alone | Link::Object => Link::Alone,
        Link::Plain | Link::Optional => Link::Object,
    }
}

/// Whether it is the head of a `for` that is begun.
pub fn is_for_head(start: Start) -> bool
    ensures { result ≡ is_head start }
{
    matches!(start, Start::ForHead | Start::ForOf | Start::ForLet)
}

/// What a node asks of the expression in its field of this number, which is its first child or not.
pub fn slot_of(node: &Node, field: u8, is_first: bool) -> Slot
    ensures { slot_level result ≡ place_level (head_of node.now) field }
{
    match statement_slot(node, field, is_first) {
        Some(slot) => slot,
        None => operand_slot(node, field),
    }
}

// The same of what is no operator.
fn statement_slot(node: &Node, field: u8, is_first: bool) -> Option<Slot>
    ensures { option_map slot_level result ≡ statement_place (head_of node.now) field }
{
    Some(match node {
        Node::SeqExpr => if is_first {
            Slot::Left(Level::Assignment)
        } else {
            Slot::Right(Level::Assignment)
        },
        Node::ExprStmt => Slot::Begin(Level::Sequence, Start::Statement),
        Node::ExportDefaultExpr => Slot::Begin(Level::Assignment, Start::Default),
        Node::ForStmt | Node::ForInStmt | Node::ForOfStmt { .. } => for_slot(node, field),
        Node::IfStmt | Node::WithStmt | Node::WhileStmt => if field == 0 {
            Slot::Inside(Level::Sequence)
        } else {
            Slot::Body
        },
        Node::LabeledStmt => if field == 0 {
            Slot::Inside(Level::Assignment)
        } else {
            Slot::Body
        },
        Node::VarDecl { .. } => Slot::Right(Level::Sequence),
        Node::VarDeclarator => if field == 1 {
            Slot::Right(Level::Assignment)
        } else {
            Slot::Inside(Level::Assignment)
        },
        Node::BindingIdent => Slot::Whole,
        Node::RestPat | Node::ArrayPat | Node::AssignPat | Node::Class => Slot::Inside(if field
            == 0
        {
            Level::Chain
        } else {
            Level::Assignment
        }),
        Node::KeyValuePatProp => Slot::Inside(if field == 1 {
            Level::Chain
        } else {
            Level::Assignment
        }),
        Node::MemberExpr | Node::SuperPropExpr | Node::ComputedPropName => property_slot(
            node, field,
        ),
        Node::ParenExpr
        | Node::ReturnStmt
        | Node::ThrowStmt
        | Node::SwitchStmt
        | Node::SwitchCase
        | Node::DoWhileStmt
        | Node::Tpl => Slot::Inside(Level::Sequence),
        _ => return None,
    })
}

// The same of a `for`.
fn for_slot(node: &Node, field: u8) -> Slot
    ensures { slot_level result ≡ for_place (head_of node.now) field }
{
    match node {
        Node::ForStmt => match field {
            0 => Slot::Begin(Level::Sequence, Start::ForHead),
            3 => Slot::Body,
            _ => Slot::Inside(Level::Sequence),
        },
        Node::ForInStmt => match field {
            0 => Slot::Begin(Level::Chain, Start::ForHead),
            2 => Slot::Body,
            _ => Slot::Inside(Level::Sequence),
        },
        Node::ForOfStmt { is_await } => match field {
            1 => Slot::Begin(
                Level::Chain,
                if *is_await {
                    Start::ForLet
                } else {
                    Start::ForOf
                },
            ),
            3 => Slot::Body,
            _ => Slot::Inside(Level::Assignment),
        },
        _ => Slot::Inside(Level::Assignment),
    }
}

// The same of what has a property.
fn property_slot(node: &Node, field: u8) -> Slot
    ensures { slot_level result ≡ property_place (head_of node.now) field }
{
    match node {
        Node::MemberExpr if field == 0 => Slot::Object,
        Node::ComputedPropName => Slot::Whole,
        _ => Slot::Inside(Level::Sequence),
    }
}

// The same of operators.
fn operand_slot(node: &Node, field: u8) -> Slot
    ensures { slot_level result ≡ operand_place (head_of node.now) field }
{
    match node {
        Node::UnaryExpr { .. } | Node::AwaitExpr => Slot::Right(Level::Unary),
        Node::UpdateExpr { prefix: true, .. } => Slot::Right(Level::Chain),
        Node::UpdateExpr { .. } => Slot::Left(Level::Chain),
        Node::BinExpr { op } => binary_slot(*op, field),
        Node::AssignExpr { .. } => if field == 1 {
            Slot::Left(Level::Chain)
        } else {
            Slot::Right(Level::Assignment)
        },
        Node::CondExpr => match field {
            0 => Slot::Left(Level::Coalesce),
            1 => Slot::Inside(Level::Assignment),
            _ => Slot::Right(Level::Assignment),
        },
        Node::CallExpr if field == 0 => Slot::Left(Level::Call),
        Node::OptCall | Node::TaggedTpl if field == 0 => Slot::Object,
        Node::NewExpr { has_args } if field == 0 => Slot::Callee(if *has_args {
            Level::Call
        } else {
            Level::New
        }),
        Node::OptChainExpr { optional } => Slot::Part(*optional),
        Node::ArrowExpr { .. } if field == 1 => Slot::ArrowBody,
        Node::YieldExpr { .. } => Slot::Right(Level::Assignment),
        _ => Slot::Inside(Level::Assignment),
    }
}

fn binary_slot(op: BinaryOp, field: u8) -> Slot
    ensures { slot_level result ≡ binary_place op field }
{
    if field != 1 {
        Slot::Right(right_level(op))
    } else if op == BinaryOp::NullishCoalescing {
        Slot::LeftOfCoalesce
    } else {
        Slot::Left(left_level(op))
    }
}

/// Whether a node needs parentheses where this is asked of it. `next` is the piece behind its begin.
pub fn needs_parens(node: &Node, context: PrintContext, next: Option<&Piece>) -> bool
    ensures { result ≡ needs_parens (head_of node.now) context
        (option_map (λ it. item_of it.now) next.entry) }
{
    is_torn(node, context) || is_misread(node, context.start, next)
}

// Whether a node would be torn apart, or end what it stands in.
fn is_torn(node: &Node, context: PrintContext) -> bool
    ensures { result ≡ is_torn (head_of node.now) context }
{
    is_taken(node, context)
        || (level_of(node).is_looser(context.least) && !is_excused(node, context))
}

// Whether what stands around a node would take a part of it: the head of a `for` its `in`, a `new` its arguments.
fn is_taken(node: &Node, context: PrintContext) -> bool
    ensures { result ≡ is_taken (head_of node.now) context }
{
    match node {
        Node::BinExpr { op } => matches!(op, BinaryOp::In) && context.no_in,
        Node::CallExpr => context.no_call,
        _ => false,
    }
}

// Whether a node may stand where it does however loose it is: a `??` on the left of another, a chain in a chain.
fn is_excused(node: &Node, context: PrintContext) -> bool
    ensures { result ≡ is_excused (head_of node.now) context }
{
    match node {
        Node::BinExpr { op } => {
            matches!(op, BinaryOp::NullishCoalescing) && context.takes_coalesce
        }
        Node::OptChainExpr { .. } => context.link == Link::Object,
        _ => false,
    }
}

// Whether the first word of a node would be read as something else.
fn is_misread(node: &Node, start: Start, next: Option<&Piece>) -> bool
    ensures { result ≡ is_misread start (head_of node.now)
        (option_map (λ it. item_of it.now) next.entry) }
{
    match start {
        Start::Statement => begins_brace(node, next) || begins_declaration(node),
        Start::ArrowBody => begins_brace(node, next),
        Start::Default => begins_declaration(node),
        _ => false,
    }
}

fn begins_declaration(node: &Node) -> bool
    ensures { result ≡ begins_declaration (head_of node.now) }
{
    matches!(node, Node::FnExpr | Node::ClassExpr)
}

// Whether a node begins with a brace that parentheses around what is in it would make another.
fn begins_brace(node: &Node, next: Option<&Piece>) -> bool
    ensures { result ≡ begins_brace (head_of node.now)
        (option_map (λ it. item_of it.now) next.entry) }
{
    match node {
        Node::ObjectLit => true,
        Node::AssignExpr { .. } => begins_pattern(next),
        _ => false,
    }
}

// Whether a pattern of an object begins with this piece.
fn begins_pattern(piece: Option<&Piece>) -> bool
    ensures { result ≡ begins_pattern (option_map (λ it. item_of it.now) piece.entry) }
{
    match piece {
        Some(Piece::Open { node, .. }) => is_object_pattern(node),
        _ => false,
    }
}

fn is_object_pattern(node: &Node) -> bool
    ensures { result ≡ is_object_pattern (head_of node.now) }
{
    matches!(node, Node::ObjectPat)
}

/// Whether an identifier needs parentheses where it begins that. `next` is the piece behind it.
pub fn name_needs_parens(name: &str, start: Start, next: Option<&Piece>) -> bool
    ensures { result ≡ name_needs_parens name.now start
        (option_map (λ it. item_of it.now) next.entry) }
{
    match start {
        Start::Statement | Start::ForHead => name == "let" && is_computed(next),
        Start::ForOf => name == "let" || name == "async",
        Start::ForLet => name == "let",
        _ => false,
    }
}

fn is_computed(piece: Option<&Piece>) -> bool
    ensures { result ≡ is_computed (option_map (λ it. item_of it.now) piece.entry) }
{
    match piece {
        Some(Piece::Open { node, .. }) => is_computed_name(node),
        _ => false,
    }
}

fn is_computed_name(node: &Node) -> bool
    ensures { result ≡ is_computed_name (head_of node.now) }
{
    matches!(node, Node::ComputedPropName)
}

//! What is still to be read.

use crate::context::Context;
use bundle_js_record::kind::Kind;
use bundle_js_record::record::NodeStart;

/// Where a statement stands, for what may stand there.
#[derive(Clone, Copy, PartialEq, Eq)]
pub enum StatementPosition {
    /// At the top of a module, where imports and exports stand.
    Top,
    /// In a list of statements.
    List,
    /// As the one statement of another, where no declaration stands.
    Single,
}

/// What a function with parameters in parentheses is.
#[derive(Clone, Copy, PartialEq, Eq)]
pub enum FunctionKind {
    /// A function, or a method.
    Function,
    /// A getter of an object, which has no node of a function.
    Getter,
    /// A setter of an object, which has none either.
    Setter,
    /// A getter of a class.
    ClassGetter,
    /// A setter of a class.
    ClassSetter,
    /// A constructor, which has no node of a function either.
    Constructor,
}

/// What is known of a function before its body.
#[derive(Clone, Copy)]
pub struct Signature {
    pub is_generator: bool,
    pub is_async: bool,
    pub kind: FunctionKind,
    /// Whether its parameters are plain names.
    pub is_simple: bool,
}

/// Whether an arrow function may begin where an operand does.
#[derive(Clone, Copy, PartialEq, Eq)]
pub enum Arrows {
    /// None may.
    Never,
    /// One may, and `in` is an operator in it.
    WithIn,
    /// One may, and `in` is no operator in it.
    NoIn,
}

/// What is to be read next: what a function that reads by calls would still have to do, with its variables.
/// `no_in` says that `in` is no operator there.
#[derive(Clone, Copy)]
pub enum State {
    /// The last record is of this field.
    Field(u8),
    /// A node of this kind ends, which began at the place; its last child is of the field.
    Node {
        kind: Kind,
        op: u8,
        field: u8,
        place: NodeStart,
    },
    /// A node of this kind ends behind a semicolon, which may be left out.
    Ends {
        kind: Kind,
        op: u8,
        place: NodeStart,
    },
    /// This context holds again.
    Leave(Context),

    // Statements.
    Statement(StatementPosition),
    Statements {
        kind: Kind,
        directives: bool,
        place: NodeStart,
    },
    ExpressionEnd(NodeStart),
    IfThen(NodeStart),
    IfElse(NodeStart),
    Body {
        kind: Kind,
        op: u8,
        field: u8,
        place: NodeStart,
    },
    DoTest(NodeStart),
    DoEnd(NodeStart),
    ForHead {
        awaits: bool,
        place: NodeStart,
    },
    ForTest(NodeStart),
    ForUpdate(NodeStart),
    Switch(NodeStart),
    Cases {
        has_default: bool,
        place: NodeStart,
    },
    CaseTest(NodeStart),
    Consequent(NodeStart),
    Try(NodeStart),
    Catch {
        clause: NodeStart,
        place: NodeStart,
    },
    CatchBody {
        clause: NodeStart,
        place: NodeStart,
    },
    Finally(NodeStart),
    Declarators {
        is_const: bool,
        no_in: bool,
    },
    Declarator {
        is_const: bool,
        no_in: bool,
        place: NodeStart,
    },
    DeclaratorNext {
        is_const: bool,
        no_in: bool,
    },

    // Modules.
    ImportNames(NodeStart),
    ExportNames(NodeStart),

    // Functions and classes.
    Function {
        kind: Kind,
        place: NodeStart,
    },
    Params {
        signature: Signature,
        place: NodeStart,
    },
    ParamNext {
        signature: Signature,
        is_rest: bool,
        param: NodeStart,
        place: NodeStart,
    },
    Class {
        kind: Kind,
        place: NodeStart,
    },
    Heritage(NodeStart),
    Members {
        is_derived: bool,
        place: NodeStart,
    },
    MemberNext {
        is_derived: bool,
        place: NodeStart,
    },
    MemberKey {
        signature: Signature,
        is_static: bool,
        is_derived: bool,
        place: NodeStart,
    },

    // Expressions.
    Expression {
        no_in: bool,
    },
    Comma {
        no_in: bool,
        many: bool,
        place: NodeStart,
    },
    Assignment {
        no_in: bool,
    },
    Else {
        no_in: bool,
        place: NodeStart,
    },
    Infix {
        no_in: bool,
        least: u8,
        place: NodeStart,
    },
    Unary,
    Deleted(NodeStart),
    Counted {
        op: u8,
        place: NodeStart,
    },
    Postfix(NodeStart),
    Operand,
    Suffix {
        calls: bool,
        in_chain: bool,
        place: NodeStart,
    },
    Index {
        kind: Kind,
        calls: bool,
        in_chain: bool,
        optional: bool,
        index: NodeStart,
        place: NodeStart,
    },
    Callee(NodeStart),
    Arguments {
        kind: Kind,
        optional: bool,
        place: NodeStart,
    },
    ArgumentNext {
        kind: Kind,
        optional: bool,
        spread: bool,
        argument: NodeStart,
        place: NodeStart,
    },
    ImportEnd {
        argument: NodeStart,
        place: NodeStart,
    },
    Paren {
        many: bool,
        arrows: Arrows,
        place: NodeStart,
    },
    ParenNext {
        many: bool,
        arrows: Arrows,
        place: NodeStart,
    },
    ParenRest {
        arrows: Arrows,
        rest: NodeStart,
        place: NodeStart,
    },
    Array(NodeStart),
    ArrayNext {
        spread: bool,
        element: NodeStart,
        place: NodeStart,
    },
    Object(NodeStart),
    ObjectNext(NodeStart),
    KeyEnd(NodeStart),
    PropertyKey {
        signature: Signature,
        place: NodeStart,
    },
    Template {
        is_tagged: bool,
        quasis: u32,
        place: NodeStart,
    },
}

impl Arrows {
    /// Where an assignment begins.
    pub fn of(no_in: bool) -> Arrows {
        if no_in { Arrows::NoIn } else { Arrows::WithIn }
    }
}

impl FunctionKind {
    /// Whether the parameters and the body stand in the node around them, and in no node of a function.
    pub fn is_bare(self) -> bool {
        matches!(
            self,
            FunctionKind::Getter | FunctionKind::Setter | FunctionKind::Constructor
        )
    }

    /// Whether there are no parameters.
    pub fn is_getter(self) -> bool {
        matches!(self, FunctionKind::Getter | FunctionKind::ClassGetter)
    }

    /// Whether there is one parameter, and no rest.
    pub fn is_setter(self) -> bool {
        matches!(self, FunctionKind::Setter | FunctionKind::ClassSetter)
    }
}

impl Signature {
    /// A function that is neither a generator nor `async`, as far as its parameters were read: none.
    pub fn plain() -> Signature {
        Signature {
            is_generator: false,
            is_async: false,
            kind: FunctionKind::Function,
            is_simple: true,
        }
    }

    /// Whether it may be no function at all: no word or star stands before its key.
    pub fn is_plain(self) -> bool {
        !self.is_generator && !self.is_async && self.kind == FunctionKind::Function
    }

    /// What stands in the record of the function.
    pub fn op(self) -> u8 {
        match (self.is_generator, self.is_async) {
            (false, false) => 0,
            (true, false) => 1,
            (false, true) => 2,
            (true, true) => 3,
        }
    }
}

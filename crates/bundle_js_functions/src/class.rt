//! Classes (ECMA-262, 15.7).

use bundle_js_machine::context::{Context, Home};
use bundle_js_machine::machine::Machine;
use bundle_js_machine::state::{FunctionKind, Signature, State};
use bundle_js_record::kind::Kind;
use bundle_js_record::reader::Stop;
use bundle_js_record::record::{NodeStart, Rec};
use bundle_js_scan::token::Tok;
use bundle_syntax::MethodKind;

// What is added to the number of a member that is static.
const STATIC: u8 = 4;

/// A class of this kind, a declaration or an expression, at its word.
pub fn class(machine: &mut Machine<'_>, kind: Kind, place: NodeStart) -> Result<(), Stop> {
    machine.reader.advance();
    let is_named = !matches!(machine.reader.tok(), Tok::OpenBrace | Tok::Extends);
    if kind == Kind::ClassDecl || is_named {
        machine.binding(Kind::Ident)?;
    }
    machine.then(State::Node {
        kind,
        op: 0,
        field: 1,
        place,
    })?;
    let begin = machine.reader.place();
    if !machine.reader.eat(Tok::Extends) {
        machine.reader.expect(Tok::OpenBrace)?;
        return machine.then(State::Members {
            is_derived: false,
            place: begin,
        });
    }
    let operand = machine.reader.place();
    machine.three(
        State::Operand,
        State::Suffix {
            calls: true,
            in_chain: false,
            place: operand,
        },
        State::Heritage(begin),
    )
}

/// Behind the class that a class extends.
pub fn heritage(machine: &mut Machine<'_>, place: NodeStart) -> Result<(), Stop> {
    machine.reader.field(0);
    machine.reader.expect(Tok::OpenBrace)?;
    machine.then(State::Members {
        is_derived: true,
        place,
    })
}

/// The next member of a class, or its end.
pub fn members(machine: &mut Machine<'_>, is_derived: bool, place: NodeStart) -> Result<(), Stop> {
    match machine.reader.tok() {
        Tok::Semicolon => machine.behind(State::Members { is_derived, place }),
        Tok::CloseBrace => {
            machine.reader.advance();
            machine.reader.node(Kind::Class, 0, place)
        }
        _ => {
            machine.then(State::MemberNext { is_derived, place })?;
            member(machine, is_derived)
        }
    }
}

/// Behind a member of a class.
pub fn member_next(
    machine: &mut Machine<'_>,
    is_derived: bool,
    place: NodeStart,
) -> Result<(), Stop> {
    machine.reader.field(1);
    machine.then(State::Members { is_derived, place })
}

// Whether the word that is looked at is a key itself, and says nothing of the member behind it.
fn is_key(machine: &Machine<'_>) -> bool {
    matches!(
        machine.reader.peek().kind,
        Tok::OpenParen | Tok::Assign | Tok::Semicolon | Tok::CloseBrace | Tok::End
    )
}

// A member, with the words before its key.
fn member(machine: &mut Machine<'_>, is_derived: bool) -> Result<(), Stop> {
    let place = machine.reader.place();
    let is_static = machine.reader.tok() == Tok::Static && !is_key(machine);
    if is_static {
        machine.reader.advance();
        if machine.reader.tok() == Tok::OpenBrace {
            return static_block(machine, place);
        }
    }
    let signature = modifiers(machine);
    let end = State::MemberKey {
        signature,
        is_static,
        is_derived,
        place,
    };
    key(machine, end)
}

// The words and the star before a key.
fn modifiers(machine: &mut Machine<'_>) -> Signature {
    let mut signature = Signature::plain();
    let word = machine.reader.tok();
    match word {
        Tok::Star => {
            machine.reader.advance();
            signature.is_generator = true;
        }
        Tok::Async if !is_key(machine) && !machine.reader.peek().newline => {
            machine.reader.advance();
            signature.is_async = true;
            signature.is_generator = machine.reader.eat(Tok::Star);
        }
        Tok::Get | Tok::Set if !is_key(machine) && machine.reader.peek().kind != Tok::Star => {
            machine.reader.advance();
            signature.kind = if word == Tok::Get {
                FunctionKind::ClassGetter
            } else {
                FunctionKind::ClassSetter
            };
        }
        _ => {}
    }
    signature
}

fn static_block(machine: &mut Machine<'_>, place: NodeStart) -> Result<(), Stop> {
    let block = machine.reader.place();
    machine.reader.advance();
    machine.enter(Context::static_block())?;
    machine.both(
        State::Statements {
            kind: Kind::BlockStmt,
            directives: false,
            place: block,
        },
        State::Node {
            kind: Kind::StaticBlock,
            op: 0,
            field: 0,
            place,
        },
    )
}

// The key of a member, and what is to be read behind it.
fn key(machine: &mut Machine<'_>, end: State) -> Result<(), Stop> {
    match machine.reader.tok() {
        Tok::OpenBracket => {
            let begin = machine.reader.place();
            machine.reader.advance();
            return machine.three(
                State::Assignment { no_in: false },
                State::KeyEnd(begin),
                end,
            );
        }
        Tok::Str => machine.reader.leaf(Kind::Str, 1)?,
        Tok::Num => machine.reader.leaf(Kind::Number, 1)?,
        Tok::BigInt => machine.reader.leaf(Kind::BigInt, 1)?,
        Tok::PrivateName => machine.reader.leaf(Kind::PrivateName, 0)?,
        _ => machine.reader.word(Kind::IdentName)?,
    }
    machine.then(end)
}

// Whether the key is this name, and not computed.
fn is_named(machine: &Machine<'_>, key: Rec, name: &str) -> bool {
    matches!(key.kind, Kind::IdentName | Kind::Str | Kind::PrivateName)
        && machine.reader.is_text(key, name)
}

/// Behind the key of a member.
pub fn member_key(
    machine: &mut Machine<'_>,
    signature: Signature,
    is_static: bool,
    is_derived: bool,
    place: NodeStart,
) -> Result<(), Stop> {
    let key = machine.reader.last();
    let is_private = key.kind == Kind::PrivateName;
    let constructs = is_named(machine, key, "constructor");
    let is_prototype = is_static && !is_private && is_named(machine, key, "prototype");
    if is_prototype || (is_private && constructs) {
        return Err(machine.reader.refuse(key.from, Stop::MemberName));
    }
    let is_method = machine.reader.tok() == Tok::OpenParen || !signature.is_plain();
    if !is_method {
        return field(machine, constructs, is_static, place);
    }
    if constructs && !is_static {
        return constructor(machine, signature, is_derived, place);
    }
    let kind = if is_private {
        Kind::PrivateMethod
    } else {
        Kind::ClassMethod
    };
    let end = State::Node {
        kind,
        op: method_op(signature, is_static),
        field: 1,
        place,
    };
    machine.function(signature, Home::Method, end)
}

// What stands in the record of a method.
fn method_op(signature: Signature, is_static: bool) -> u8 {
    let kind = match signature.kind {
        FunctionKind::ClassGetter => MethodKind::Getter,
        FunctionKind::ClassSetter => MethodKind::Setter,
        _ => MethodKind::Method,
    };
    if is_static {
        kind as u8 | STATIC
    } else {
        kind as u8
    }
}

// A constructor, whose key is no node.
fn constructor(
    machine: &mut Machine<'_>,
    signature: Signature,
    is_derived: bool,
    place: NodeStart,
) -> Result<(), Stop> {
    if !signature.is_plain() {
        let key = machine.reader.last();
        return Err(machine.reader.refuse(key.from, Stop::MemberName));
    }
    machine.reader.rename(Kind::Gone);
    let signature = Signature {
        kind: FunctionKind::Constructor,
        ..signature
    };
    let home = if is_derived {
        Home::Derived
    } else {
        Home::Method
    };
    let end = State::Node {
        kind: Kind::Constructor,
        op: 0,
        field: 1,
        place,
    };
    machine.function(signature, home, end)
}

// A field, and its value where it has one.
fn field(
    machine: &mut Machine<'_>,
    constructs: bool,
    is_static: bool,
    place: NodeStart,
) -> Result<(), Stop> {
    let key = machine.reader.last();
    if constructs {
        return Err(machine.reader.refuse(key.from, Stop::MemberName));
    }
    let kind = if key.kind == Kind::PrivateName {
        Kind::PrivateProp
    } else {
        Kind::ClassProp
    };
    let end = State::Ends {
        kind,
        op: if is_static { STATIC } else { 0 },
        place,
    };
    machine.then(end)?;
    if !machine.reader.eat(Tok::Assign) {
        return Ok(());
    }
    let context = Context::initializer(machine.goal);
    machine.enter(context)?;
    machine.both(State::Assignment { no_in: false }, State::Field(1))
}

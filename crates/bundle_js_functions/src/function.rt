//! Functions, their parameters and bodies (ECMA-262, 15.1, 15.2, 15.5, 15.6 and 15.8).

use bundle_js_machine::context::{Context, Home};
use bundle_js_machine::machine::Machine;
use bundle_js_machine::state::{FunctionKind, Signature, State};
use bundle_js_record::kind::Kind;
use bundle_js_record::pattern::PatternUse;
use bundle_js_record::reader::Stop;
use bundle_js_record::record::NodeStart;
use bundle_js_scan::token::Tok;

/// A function of this kind, a declaration or an expression, at its first word.
pub fn function(machine: &mut Machine<'_>, kind: Kind, place: NodeStart) -> Result<(), Stop> {
    let is_async = machine.reader.eat(Tok::Async);
    machine.reader.expect(Tok::Function)?;
    let is_generator = machine.reader.eat(Tok::Star);
    let signature = Signature {
        is_generator,
        is_async,
        ..Signature::plain()
    };
    if kind == Kind::FnDecl || machine.reader.tok() != Tok::OpenParen {
        name(machine, kind, is_async)?;
    }
    let end = State::Node {
        kind,
        op: 0,
        field: 1,
        place,
    };
    machine.function(signature, Home::Plain, end)
}

// The name of a function. In an expression it is the function's own, and reserved as in it.
fn name(machine: &mut Machine<'_>, kind: Kind, is_async: bool) -> Result<(), Stop> {
    if kind == Kind::FnExpr {
        let outer = machine.context;
        machine.context.reserves_await = Context::await_in_function(machine.goal, is_async);
        machine.binding(Kind::Ident)?;
        machine.context = outer;
        Ok(())
    } else {
        machine.binding(Kind::Ident)
    }
}

/// The next parameter of a function, or their end and the body.
pub fn parameters(
    machine: &mut Machine<'_>,
    signature: Signature,
    place: NodeStart,
) -> Result<(), Stop> {
    let param = machine.reader.place();
    if machine.reader.eat(Tok::CloseParen) {
        if signature.kind.is_setter() {
            return Err(refuse_accessor(machine));
        }
        return body(machine, signature, place);
    }
    let is_rest = machine.reader.eat(Tok::Dots);
    if signature.kind.is_getter() || (is_rest && signature.kind.is_setter()) {
        return Err(refuse_accessor(machine));
    }
    machine.both(
        State::Assignment { no_in: false },
        State::ParamNext {
            signature,
            is_rest,
            param,
            place,
        },
    )
}

// A getter or a setter with these parameters is refused, whose end is the next to be read.
fn refuse_accessor(machine: &mut Machine<'_>) -> Stop {
    match machine.states.as_slice().last() {
        Some(State::Node { place, .. }) => {
            let from = place.from;
            machine.reader.refuse(from, Stop::Accessor)
        }
        _ => Stop::Accessor,
    }
}

/// Behind a parameter.
pub fn parameter_next(
    machine: &mut Machine<'_>,
    signature: Signature,
    is_rest: bool,
    param: NodeStart,
    place: NodeStart,
) -> Result<(), Stop> {
    if is_rest {
        machine.reader.node(Kind::ExprOrSpread, 1, param)?;
    }
    machine.reader.pattern(param.start, PatternUse::Binds)?;
    let is_name = machine.reader.last_kind() == Kind::BindingIdent;
    let signature = Signature {
        is_simple: signature.is_simple && is_name,
        ..signature
    };
    if signature.kind == FunctionKind::Setter {
        machine.reader.field(1);
    } else {
        machine.reader.node(Kind::Param, 0, param)?;
    }
    let is_last = is_rest || machine.reader.tok() == Tok::CloseParen;
    if !is_last {
        machine.reader.expect(Tok::Comma)?;
    }
    if is_last || signature.kind.is_setter() {
        end_parameters(machine, signature, place)
    } else {
        machine.then(State::Params { signature, place })
    }
}

// The end of the parameters, of which there is one at least, and the body.
fn end_parameters(
    machine: &mut Machine<'_>,
    signature: Signature,
    place: NodeStart,
) -> Result<(), Stop> {
    if machine.reader.eat(Tok::CloseParen) {
        body(machine, signature, place)
    } else if signature.kind.is_setter() {
        Err(refuse_accessor(machine))
    } else {
        Err(machine.reader.unexpected())
    }
}

// The body of a function whose parameters have ended.
fn body(machine: &mut Machine<'_>, signature: Signature, place: NodeStart) -> Result<(), Stop> {
    let begin = machine.reader.place();
    machine.reader.expect(Tok::OpenBrace)?;
    machine.context = machine
        .context
        .body(signature.is_generator, signature.is_async);
    let statements = State::Statements {
        kind: Kind::BlockStmt,
        directives: !signature.is_simple,
        place: begin,
    };
    if signature.kind.is_bare() {
        machine.then(statements)
    } else {
        machine.both(
            statements,
            State::Node {
                kind: Kind::Function,
                op: signature.op(),
                field: 1,
                place,
            },
        )
    }
}

//! Arrow functions (ECMA-262, 15.3 and 15.9).

use bundle_js_machine::machine::Machine;
use bundle_js_machine::state::{Arrows, State};
use bundle_js_record::kind::Kind;
use bundle_js_record::pattern::PatternUse;
use bundle_js_record::reader::Stop;
use bundle_js_record::record::NodeStart;
use bundle_js_scan::token::{Tok, Token};

/// `async` where an operand stands: a name, a function, an arrow function, or a call that may turn out to be one.
pub fn async_operand(
    machine: &mut Machine<'_>,
    arrows: Arrows,
    place: NodeStart,
) -> Result<(), Stop> {
    let word = machine.reader.lexer.token();
    let next = machine.reader.peek();
    if next.kind == Tok::Function && !next.newline {
        return machine.then(State::Function {
            kind: Kind::FnExpr,
            place,
        });
    }
    machine.reader.advance();
    if arrows != Arrows::Never && !machine.reader.newline() {
        if machine.is_name(machine.reader.tok()) && !begins_values(machine) {
            return async_name(machine, arrows, place);
        }
        if machine.reader.tok() == Tok::OpenParen {
            return async_paren(machine, word, arrows, place);
        }
    }
    machine.reader.leaf_of(Kind::Ident, 0, word)?;
    if machine.reader.tok() == Tok::Arrow && arrows != Arrows::Never {
        arrow(machine, false, arrows, place)
    } else {
        Ok(())
    }
}

// Whether the `of` that is looked at is no parameter, but stands before the values of a `for await`.
fn begins_values(machine: &Machine<'_>) -> bool {
    machine.reader.tok() == Tok::Of && machine.reader.peek().kind != Tok::Arrow
}

// The one parameter of an `async` arrow function.
fn async_name(machine: &mut Machine<'_>, arrows: Arrows, place: NodeStart) -> Result<(), Stop> {
    if machine.reader.tok() == Tok::Await {
        return Err(Stop::Await);
    }
    machine.binding(Kind::BindingIdent)?;
    if machine.reader.tok() == Tok::Arrow {
        arrow(machine, true, arrows, place)
    } else {
        Err(machine.reader.unexpected())
    }
}

// Parentheses behind `async`.
fn async_paren(
    machine: &mut Machine<'_>,
    word: Token,
    arrows: Arrows,
    place: NodeStart,
) -> Result<(), Stop> {
    machine.reader.leaf_of(Kind::Ident, 0, word)?;
    machine.behind(State::Arguments {
        kind: Kind::ArrowExpr,
        optional: arrows == Arrows::NoIn,
        place,
    })
}

/// Behind the parameters of an arrow function, which were read as expressions, at its arrow.
pub fn arrow(
    machine: &mut Machine<'_>,
    is_async: bool,
    arrows: Arrows,
    place: NodeStart,
) -> Result<(), Stop> {
    if machine.reader.newline() {
        return Err(Stop::Newline);
    }
    let context = machine.context;
    let paused = if is_async {
        context.paused.max(context.await_name)
    } else {
        context.paused
    };
    if paused > place.from {
        return Err(machine.reader.refuse(paused - 1, Stop::Await));
    }
    machine.reader.pattern(place.start, PatternUse::Binds)?;
    machine.reader.advance();
    let body = context.arrow(machine.goal, is_async);
    machine.enter(body)?;
    let end = State::Node {
        kind: Kind::ArrowExpr,
        op: if is_async { 1 } else { 0 },
        field: 1,
        place,
    };
    if machine.reader.tok() != Tok::OpenBrace {
        return machine.both(
            State::Assignment {
                no_in: arrows == Arrows::NoIn,
            },
            end,
        );
    }
    let begin = machine.reader.place();
    machine.reader.advance();
    machine.both(
        State::Statements {
            kind: Kind::BlockStmt,
            directives: !has_names(machine, place),
            place: begin,
        },
        end,
    )
}

// Whether all parameters, from this place of the list on, are names. It ends at the last one that is not.
fn has_names(machine: &Machine<'_>, place: NodeStart) -> bool {
    match machine
        .reader
        .records
        .as_slice()
        .get(place.start as usize..)
    {
        Some(params) => {
            for rec in params.iter().rev() {
                if !matches!(rec.kind, Kind::BindingIdent | Kind::Gone) {
                    return false;
                }
            }
            true
        }
        None => true,
    }
}

//! Loops (ECMA-262, 14.7).

use crate::choice::condition;
use crate::declaration::declared_kind;
use bundle_js_machine::machine::Machine;
use bundle_js_machine::state::{State, StatementPosition};
use bundle_js_record::kind::Kind;
use bundle_js_record::pattern::PatternUse;
use bundle_js_record::reader::Stop;
use bundle_js_record::record::{NodeStart, Rec};
use bundle_js_scan::token::Tok;
use bundle_syntax::VarDeclKind;

/// `while`.
pub fn while_statement(machine: &mut Machine<'_>, place: NodeStart) -> Result<(), Stop> {
    condition(
        machine,
        State::Body {
            kind: Kind::WhileStmt,
            op: 0,
            field: 1,
            place,
        },
    )
}

/// At the parenthesis behind which the body of a loop stands, in this field.
pub fn body(
    machine: &mut Machine<'_>,
    kind: Kind,
    op: u8,
    field: u8,
    place: NodeStart,
) -> Result<(), Stop> {
    machine.reader.expect(Tok::CloseParen)?;
    if kind != Kind::ForStmt {
        machine.reader.field(field.saturating_sub(1));
    }
    machine.both(
        State::Statement(StatementPosition::Single),
        State::Node {
            kind,
            op,
            field,
            place,
        },
    )
}

/// `do`.
pub fn do_statement(machine: &mut Machine<'_>, place: NodeStart) -> Result<(), Stop> {
    machine.reader.advance();
    machine.both(
        State::Statement(StatementPosition::Single),
        State::DoTest(place),
    )
}

/// Behind the body of a `do`.
pub fn do_test(machine: &mut Machine<'_>, place: NodeStart) -> Result<(), Stop> {
    machine.reader.field(0);
    if machine.reader.tok() != Tok::While {
        return Err(machine.reader.unexpected());
    }
    condition(machine, State::DoEnd(place))
}

/// Behind the condition of a `do`. The semicolon may always be left out (12.10.1).
pub fn do_end(machine: &mut Machine<'_>, place: NodeStart) -> Result<(), Stop> {
    machine.reader.expect(Tok::CloseParen)?;
    machine.reader.field(1);
    let _ = machine.reader.eat(Tok::Semicolon);
    machine.reader.node(Kind::DoWhileStmt, 0, place)
}

/// `for`.
pub fn for_statement(machine: &mut Machine<'_>, place: NodeStart) -> Result<(), Stop> {
    machine.reader.advance();
    let awaits = machine.reader.tok() == Tok::Await;
    if awaits {
        if !machine.context.awaits || machine.reader.lexer.token().escaped {
            return Err(Stop::Await);
        }
        machine.reader.advance();
    }
    machine.reader.expect(Tok::OpenParen)?;
    let head = machine.reader.place();
    let end = State::ForHead { awaits, place };
    match machine.reader.tok() {
        Tok::Semicolon => return machine.then(end),
        Tok::Var | Tok::Let | Tok::Const => {}
        _ => return machine.both(State::Expression { no_in: true }, end),
    }
    let kind = declared_kind(machine)?;
    machine.three(
        State::Declarators {
            is_const: kind == VarDeclKind::Const,
            no_in: true,
        },
        State::Node {
            kind: Kind::VarDecl,
            op: kind as u8,
            field: 1,
            place: head,
        },
        end,
    )
}

/// Behind the first part of the head of a `for`.
pub fn for_head(machine: &mut Machine<'_>, awaits: bool, place: NodeStart) -> Result<(), Stop> {
    match machine.reader.tok() {
        Tok::Of => {
            left(machine, place)?;
            if !awaits && is_async(machine, place) {
                return Err(refuse_head(machine));
            }
            machine.reader.field(1);
            machine.reader.advance();
            machine.both(
                State::Assignment { no_in: false },
                State::Body {
                    kind: Kind::ForOfStmt,
                    op: if awaits { 1 } else { 0 },
                    field: 3,
                    place,
                },
            )
        }
        _ if awaits => Err(machine.reader.unexpected()),
        Tok::In => {
            left(machine, place)?;
            machine.reader.field(0);
            machine.reader.advance();
            machine.both(
                State::Expression { no_in: false },
                State::Body {
                    kind: Kind::ForInStmt,
                    op: 0,
                    field: 2,
                    place,
                },
            )
        }
        _ => for_first(machine, place),
    }
}

// What a `for` over values or keys assigns to or declares: one name or pattern, with no value.
fn left(machine: &mut Machine<'_>, place: NodeStart) -> Result<(), Stop> {
    let last = machine.reader.last();
    if last.kind == Kind::VarDecl {
        let declarator = before(machine, 2);
        return if declarator.start == last.start && declarator.op == 0 {
            Ok(())
        } else {
            Err(refuse_head(machine))
        };
    }
    if last.kind == Kind::AssignExpr {
        return Err(refuse_head(machine));
    }
    machine.reader.pattern(place.start, PatternUse::Assigns)
}

// What stands at the head is refused.
fn refuse_head(machine: &mut Machine<'_>) -> Stop {
    let head = machine.reader.last();
    machine.reader.refuse(head.from, Stop::ForHead)
}

// The record so many places before the end of the list.
fn before(machine: &Machine<'_>, count: usize) -> Rec {
    let end = machine.reader.records.len();
    machine.reader.at(end.saturating_sub(count))
}

// Whether all that stands at the head is the word `async`, with no escape.
fn is_async(machine: &Machine<'_>, place: NodeStart) -> bool {
    let last = machine.reader.last();
    last.kind == Kind::BindingIdent
        && place.start.saturating_add(1) == machine.reader.end()
        && !last.escaped
        && machine.reader.is_text(last, "async")
}

// Behind the first part of the head of a `for` of three.
fn for_first(machine: &mut Machine<'_>, place: NodeStart) -> Result<(), Stop> {
    machine.reader.expect(Tok::Semicolon)?;
    if machine.reader.tok() == Tok::Semicolon {
        machine.then(State::ForTest(place))
    } else {
        machine.three(
            State::Expression { no_in: false },
            State::Field(1),
            State::ForTest(place),
        )
    }
}

/// Behind the second part of the head of a `for`.
pub fn for_test(machine: &mut Machine<'_>, place: NodeStart) -> Result<(), Stop> {
    machine.reader.expect(Tok::Semicolon)?;
    if machine.reader.tok() == Tok::CloseParen {
        for_body(machine, place)
    } else {
        machine.both(State::Expression { no_in: false }, State::ForUpdate(place))
    }
}

/// Behind the third part of the head of a `for`.
pub fn for_update(machine: &mut Machine<'_>, place: NodeStart) -> Result<(), Stop> {
    machine.reader.field(2);
    for_body(machine, place)
}

fn for_body(machine: &mut Machine<'_>, place: NodeStart) -> Result<(), Stop> {
    machine.then(State::Body {
        kind: Kind::ForStmt,
        op: 0,
        field: 3,
        place,
    })
}

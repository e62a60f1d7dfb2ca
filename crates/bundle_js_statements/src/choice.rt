//! `if`, `switch` and `try` (ECMA-262, 14.6, 14.12 and 14.15).

use bundle_js_machine::machine::Machine;
use bundle_js_machine::state::{State, StatementPosition};
use bundle_js_record::kind::Kind;
use bundle_js_record::pattern::PatternUse;
use bundle_js_record::reader::Stop;
use bundle_js_record::record::NodeStart;
use bundle_js_scan::token::Tok;

/// A word and an expression in parentheses, whose end the state reads.
pub fn condition(machine: &mut Machine<'_>, end: State) -> Result<(), Stop> {
    machine.reader.advance();
    machine.reader.expect(Tok::OpenParen)?;
    machine.both(State::Expression { no_in: false }, end)
}

/// `if`.
pub fn if_statement(machine: &mut Machine<'_>, place: NodeStart) -> Result<(), Stop> {
    condition(machine, State::IfThen(place))
}

/// Behind the condition of an `if`.
pub fn if_then(machine: &mut Machine<'_>, place: NodeStart) -> Result<(), Stop> {
    machine.reader.expect(Tok::CloseParen)?;
    machine.both(
        State::Statement(StatementPosition::Single),
        State::IfElse(place),
    )
}

/// Behind the first statement of an `if`.
pub fn if_else(machine: &mut Machine<'_>, place: NodeStart) -> Result<(), Stop> {
    machine.reader.field(1);
    if machine.reader.eat(Tok::Else) {
        machine.both(
            State::Statement(StatementPosition::Single),
            State::Node {
                kind: Kind::IfStmt,
                op: 0,
                field: 2,
                place,
            },
        )
    } else {
        machine.reader.node(Kind::IfStmt, 0, place)
    }
}

/// `switch`.
pub fn switch_statement(machine: &mut Machine<'_>, place: NodeStart) -> Result<(), Stop> {
    condition(machine, State::Switch(place))
}

/// Behind what a `switch` looks at.
pub fn switch(machine: &mut Machine<'_>, place: NodeStart) -> Result<(), Stop> {
    machine.reader.expect(Tok::CloseParen)?;
    machine.reader.expect(Tok::OpenBrace)?;
    machine.then(State::Cases {
        has_default: false,
        place,
    })
}

/// The next case of a `switch`, or its end.
pub fn cases(machine: &mut Machine<'_>, has_default: bool, place: NodeStart) -> Result<(), Stop> {
    if machine.reader.last_kind() == Kind::SwitchCase {
        machine.reader.field(1);
    }
    let case = machine.reader.place();
    match machine.reader.tok() {
        Tok::CloseBrace => {
            machine.reader.advance();
            machine.reader.node(Kind::SwitchStmt, 0, place)
        }
        Tok::Case => {
            machine.reader.advance();
            machine.three(
                State::Expression { no_in: false },
                State::CaseTest(case),
                State::Cases { has_default, place },
            )
        }
        Tok::Default if !has_default => {
            machine.reader.advance();
            machine.both(
                State::CaseTest(case),
                State::Cases {
                    has_default: true,
                    place,
                },
            )
        }
        _ => Err(machine.reader.unexpected()),
    }
}

/// Behind the test of a case, or behind `default`.
pub fn case_test(machine: &mut Machine<'_>, case: NodeStart) -> Result<(), Stop> {
    machine.reader.expect(Tok::Colon)?;
    next_consequent(machine, case)
}

/// Behind a statement of a case.
pub fn consequent(machine: &mut Machine<'_>, case: NodeStart) -> Result<(), Stop> {
    machine.reader.field(1);
    next_consequent(machine, case)
}

// The next statement of a case, or its end.
fn next_consequent(machine: &mut Machine<'_>, case: NodeStart) -> Result<(), Stop> {
    machine.reader.note()?;
    if matches!(
        machine.reader.tok(),
        Tok::Case | Tok::Default | Tok::CloseBrace
    ) {
        machine.reader.node(Kind::SwitchCase, 0, case)
    } else {
        machine.both(
            State::Statement(StatementPosition::List),
            State::Consequent(case),
        )
    }
}

// A block, with what is to be read behind it.
fn block(machine: &mut Machine<'_>, end: State) -> Result<(), Stop> {
    let place = machine.reader.place();
    machine.reader.expect(Tok::OpenBrace)?;
    machine.both(
        State::Statements {
            kind: Kind::BlockStmt,
            directives: false,
            place,
        },
        end,
    )
}

/// `try`.
pub fn try_statement(machine: &mut Machine<'_>) -> Result<(), Stop> {
    let place = machine.reader.place();
    machine.reader.advance();
    block(machine, State::Try(place))
}

/// Behind the block of a `try`.
pub fn try_end(machine: &mut Machine<'_>, place: NodeStart) -> Result<(), Stop> {
    let clause = machine.reader.place();
    if !machine.reader.eat(Tok::Catch) {
        machine.reader.expect(Tok::Finally)?;
        return block(machine, State::Finally(place));
    }
    if !machine.reader.eat(Tok::OpenParen) {
        return block(machine, State::CatchBody { clause, place });
    }
    let end = State::Catch { clause, place };
    match machine.reader.tok() {
        Tok::OpenBracket | Tok::OpenBrace => machine.both(State::Operand, end),
        _ => {
            machine.binding(Kind::BindingIdent)?;
            machine.then(end)
        }
    }
}

/// Behind the name or the pattern that a `catch` binds.
pub fn catch(machine: &mut Machine<'_>, clause: NodeStart, place: NodeStart) -> Result<(), Stop> {
    machine.reader.pattern(clause.start, PatternUse::Binds)?;
    machine.reader.expect(Tok::CloseParen)?;
    block(machine, State::CatchBody { clause, place })
}

/// Behind the block of a `catch`.
pub fn catch_body(
    machine: &mut Machine<'_>,
    clause: NodeStart,
    place: NodeStart,
) -> Result<(), Stop> {
    machine.reader.field(1);
    machine.reader.node(Kind::CatchClause, 0, clause)?;
    machine.reader.field(1);
    if machine.reader.eat(Tok::Finally) {
        block(machine, State::Finally(place))
    } else {
        machine.reader.node(Kind::TryStmt, 0, place)
    }
}

/// Behind the block of a `finally`.
pub fn finally(machine: &mut Machine<'_>, place: NodeStart) -> Result<(), Stop> {
    machine.reader.field(2);
    machine.reader.node(Kind::TryStmt, 0, place)
}

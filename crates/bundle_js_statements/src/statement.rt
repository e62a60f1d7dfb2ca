//! Statements and their lists (ECMA-262, 14.2 and 14.4 to 14.16).

use crate::choice::{condition, if_statement, switch_statement, try_statement};
use crate::declaration::declaration;
use crate::export::export_item;
use crate::import::import_item;
use crate::iteration::{do_statement, for_statement, while_statement};
use bundle_js_machine::machine::Machine;
use bundle_js_machine::state::{State, StatementPosition};
use bundle_js_record::kind::Kind;
use bundle_js_record::reader::Stop;
use bundle_js_record::record::NodeStart;
use bundle_js_scan::lexer::Goal;
use bundle_js_scan::token::Tok;

/// The next statement of a list, or its end. `directives` says that no statement before is anything but a
/// directive, and that `"use strict"` may be none of them.
pub fn statements(
    machine: &mut Machine<'_>,
    kind: Kind,
    directives: bool,
    place: NodeStart,
) -> Result<(), Stop> {
    machine.reader.note()?;
    let directives = directives && still_directs(machine, place)?;
    let tok = machine.reader.tok();
    let is_module = kind == Kind::Module;
    if tok == (if is_module { Tok::End } else { Tok::CloseBrace }) {
        machine.reader.advance();
        return machine.reader.node(kind, 0, place);
    }
    let position = if is_module && machine.goal == Goal::Module {
        StatementPosition::Top
    } else {
        StatementPosition::List
    };
    machine.then(State::Statements {
        kind,
        directives,
        place,
    })?;
    statement(machine, position)
}

// Whether the list, which begins at the place, holds nothing but directives; refused where the last of them is
// `"use strict"` (15.2.1).
fn still_directs(machine: &mut Machine<'_>, place: NodeStart) -> Result<bool, Stop> {
    let end = machine.reader.end();
    if end == place.start {
        return Ok(true);
    }
    let last = machine.reader.last();
    let text = machine.reader.at(last.start as usize);
    let is_directive = last.kind == Kind::ExprStmt
        && text.kind == Kind::Str
        && last.start.saturating_add(2) == end;
    if is_directive && !text.escaped && machine.reader.is_text(text, "use strict") {
        return Err(machine.reader.refuse(text.from, Stop::UseStrict));
    }
    Ok(is_directive)
}

/// A statement.
pub fn statement(machine: &mut Machine<'_>, position: StatementPosition) -> Result<(), Stop> {
    let place = machine.reader.place();
    match machine.reader.tok() {
        Tok::OpenBrace => {
            machine.behind(State::Statements {
                kind: Kind::BlockStmt,
                directives: false,
                place,
            })
        }
        Tok::Semicolon => machine.reader.leaf(Kind::EmptyStmt, 0),
        Tok::Debugger => {
            machine.behind(State::Ends {
                kind: Kind::DebuggerStmt,
                op: 0,
                place,
            })
        }
        Tok::If => if_statement(machine, place),
        Tok::Switch => switch_statement(machine, place),
        Tok::Try => try_statement(machine),
        Tok::For => for_statement(machine, place),
        Tok::While => while_statement(machine, place),
        Tok::Do => do_statement(machine, place),
        Tok::Return => return_statement(machine, place),
        Tok::Throw => throw_statement(machine, place),
        Tok::Break => jump(machine, Kind::BreakStmt, place),
        Tok::Continue => jump(machine, Kind::ContinueStmt, place),
        Tok::With => with_statement(machine, place),
        Tok::Var => declaration(machine, place),
        _ => declaration_or_expression(machine, position, place),
    }
}

// A declaration, which stands in a list alone, or an expression.
fn declaration_or_expression(
    machine: &mut Machine<'_>,
    position: StatementPosition,
    place: NodeStart,
) -> Result<(), Stop> {
    let tok = machine.reader.tok();
    let declares = match tok {
        Tok::Let | Tok::Const | Tok::Function | Tok::Class => true,
        Tok::Async => begins_function(machine),
        _ => false,
    };
    if declares && position == StatementPosition::Single {
        return Err(Stop::Declaration);
    }
    match tok {
        Tok::Let | Tok::Const => declaration(machine, place),
        Tok::Class => {
            machine.then(State::Class {
                kind: Kind::ClassDecl,
                place,
            })
        }
        Tok::Import if position == StatementPosition::Top => import_item(machine, place),
        Tok::Export if position == StatementPosition::Top => export_item(machine, place),
        _ if declares => {
            machine.then(State::Function {
                kind: Kind::FnDecl,
                place,
            })
        }
        _ => expression_statement(machine, place),
    }
}

/// Whether the `async` that is looked at begins a function.
pub fn begins_function(machine: &Machine<'_>) -> bool {
    let next = machine.reader.peek();
    next.kind == Tok::Function && !next.newline
}

/// An expression that is a statement, or a label.
pub fn expression_statement(machine: &mut Machine<'_>, place: NodeStart) -> Result<(), Stop> {
    machine.both(
        State::Expression { no_in: false },
        State::ExpressionEnd(place),
    )
}

/// Behind an expression that is a statement, or behind the name of a label (14.13).
pub fn expression_end(machine: &mut Machine<'_>, place: NodeStart) -> Result<(), Stop> {
    let is_name = machine.reader.last_kind() == Kind::Ident
        && place.start.saturating_add(1) == machine.reader.end();
    if is_name && machine.reader.tok() == Tok::Colon {
        machine.reader.rename(Kind::IdentName);
        machine.reader.mark(0);
        machine.reader.advance();
        return machine.both(
            State::Statement(StatementPosition::Single),
            State::Node {
                kind: Kind::LabeledStmt,
                op: 0,
                field: 1,
                place,
            },
        );
    }
    machine.ends(Kind::ExprStmt, 0, place)
}

// `return`, and what it returns, which begins on the same line (14.10).
fn return_statement(machine: &mut Machine<'_>, place: NodeStart) -> Result<(), Stop> {
    if !machine.context.returns {
        return Err(Stop::Return);
    }
    machine.reader.advance();
    let end = State::Ends {
        kind: Kind::ReturnStmt,
        op: 0,
        place,
    };
    if machine.reader.may_end() {
        machine.then(end)
    } else {
        machine.both(State::Expression { no_in: false }, end)
    }
}

// `throw` and its expression, which begins on the same line (14.14).
fn throw_statement(machine: &mut Machine<'_>, place: NodeStart) -> Result<(), Stop> {
    machine.reader.advance();
    if machine.reader.newline() {
        return Err(Stop::Newline);
    }
    machine.both(
        State::Expression { no_in: false },
        State::Ends {
            kind: Kind::ThrowStmt,
            op: 0,
            place,
        },
    )
}

// `with`, which the linker refuses (14.11).
fn with_statement(machine: &mut Machine<'_>, place: NodeStart) -> Result<(), Stop> {
    condition(
        machine,
        State::Body {
            kind: Kind::WithStmt,
            op: 0,
            field: 1,
            place,
        },
    )
}

// `break` or `continue`, and a label on the same line (14.8 and 14.9).
fn jump(machine: &mut Machine<'_>, kind: Kind, place: NodeStart) -> Result<(), Stop> {
    machine.reader.advance();
    if !machine.reader.may_end() {
        let tok = machine.reader.tok();
        if !machine.is_name(tok) {
            return Err(machine.no_name());
        }
        machine.reader.leaf(Kind::IdentName, 0)?;
    }
    machine.ends(kind, 0, place)
}

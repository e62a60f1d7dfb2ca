//! Operators (ECMA-262, 13.4 to 13.16).

use crate::arrow::arrow;
use crate::call::suffix;
use crate::number::{assign_number, binary_number, unary_number};
use bundle_js_machine::machine::Machine;
use bundle_js_machine::state::{Arrows, State};
use bundle_js_record::kind::Kind;
use bundle_js_record::pattern::PatternUse;
use bundle_js_record::reader::Stop;
use bundle_js_record::record::{NodeStart, Rec};
use bundle_js_scan::token::{Tok, is_assign, is_prefix, power};
use bundle_syntax::BinaryOp;

/// An expression.
pub fn expression(machine: &mut Machine<'_>, no_in: bool) -> Result<(), Stop> {
    let place = machine.reader.place();
    machine.then(State::Comma {
        no_in,
        many: false,
        place,
    })?;
    assignment(machine, no_in)
}

/// Behind a part of an expression that commas may follow.
pub fn comma(
    machine: &mut Machine<'_>,
    no_in: bool,
    many: bool,
    place: NodeStart,
) -> Result<(), Stop> {
    if machine.reader.eat(Tok::Comma) {
        machine.both(
            State::Assignment { no_in },
            State::Comma {
                no_in,
                many: true,
                place,
            },
        )
    } else if many {
        machine.reader.node(Kind::SeqExpr, 0, place)
    } else {
        Ok(())
    }
}

/// An assignment, or what is none.
pub fn assignment(machine: &mut Machine<'_>, no_in: bool) -> Result<(), Stop> {
    let place = machine.reader.place();
    if machine.reader.tok() == Tok::Yield && machine.context.yields {
        return yield_operator(machine, no_in, place);
    }
    machine.assignment = place.from;
    machine.no_in = no_in;
    let rest = State::Infix {
        no_in,
        least: 0,
        place,
    };
    if !short_operand(machine)? {
        return machine.both(State::Unary, rest);
    }
    if ends_operand(machine) {
        return Ok(());
    }
    if machine.reader.tok() == Tok::Arrow && machine.reader.last_kind() == Kind::Ident {
        return arrow(machine, false, Arrows::of(no_in), place);
    }
    machine.then(rest)?;
    suffix(machine, true, false, place)
}

// An operand of one token, if one stands here.
fn short_operand(machine: &mut Machine<'_>) -> Result<bool, Stop> {
    match machine.reader.tok() {
        Tok::Ident => machine.reader.leaf(Kind::Ident, 0)?,
        Tok::Num => machine.reader.leaf(Kind::Number, 0)?,
        Tok::Str => machine.reader.leaf(Kind::Str, 0)?,
        Tok::This => machine.reader.leaf(Kind::ThisExpr, 0)?,
        Tok::True => machine.reader.leaf(Kind::Bool, 1)?,
        Tok::False => machine.reader.leaf(Kind::Bool, 0)?,
        Tok::Null => machine.reader.leaf(Kind::Null, 0)?,
        _ => return Ok(false),
    }
    Ok(true)
}

// Whether nothing that belongs to an operand or to an operator follows.
fn ends_operand(machine: &Machine<'_>) -> bool {
    matches!(
        machine.reader.tok(),
        Tok::Comma
            | Tok::CloseParen
            | Tok::Semicolon
            | Tok::CloseBracket
            | Tok::CloseBrace
            | Tok::Colon
            | Tok::End
    )
}

// `yield`, and what it yields, which begins on the same line (15.5).
fn yield_operator(machine: &mut Machine<'_>, no_in: bool, place: NodeStart) -> Result<(), Stop> {
    machine.context.paused = place.from.saturating_add(1);
    machine.reader.advance();
    let delegates = !machine.reader.newline() && machine.reader.eat(Tok::Star);
    if !delegates && ends_yield(machine) {
        return machine.reader.node(Kind::YieldExpr, 0, place);
    }
    machine.both(
        State::Assignment { no_in },
        State::Node {
            kind: Kind::YieldExpr,
            op: if delegates { 1 } else { 0 },
            field: 0,
            place,
        },
    )
}

// Whether nothing is yielded.
fn ends_yield(machine: &Machine<'_>) -> bool {
    machine.reader.newline()
        || matches!(
            machine.reader.tok(),
            Tok::End
                | Tok::Semicolon
                | Tok::CloseBrace
                | Tok::CloseBracket
                | Tok::CloseParen
                | Tok::Colon
                | Tok::Comma
                | Tok::In
        )
}

// Whether an operator of an assignment may assign to this record.
fn is_simple(rec: Rec) -> bool {
    match rec.kind {
        Kind::Ident => rec.op == 0,
        Kind::ParenExpr => rec.op == 1,
        Kind::MemberExpr | Kind::SuperPropExpr => true,
        _ => false,
    }
}

// Refuses the last record where an operator may not assign to it.
fn simple(machine: &mut Machine<'_>) -> Result<(), Stop> {
    let last = machine.reader.last();
    if is_simple(last) {
        Ok(())
    } else {
        Err(machine.reader.refuse(last.from, Stop::Target))
    }
}

// Behind what may be a condition, or what is assigned to.
fn assignment_rest(machine: &mut Machine<'_>, no_in: bool, place: NodeStart) -> Result<(), Stop> {
    let tok = machine.reader.tok();
    let last = machine.reader.last();
    if last.kind == Kind::ArrowExpr {
        return Ok(());
    }
    if tok == Tok::Question {
        machine.reader.field(0);
        machine.reader.advance();
        return machine.both(
            State::Assignment { no_in: false },
            State::Else { no_in, place },
        );
    }
    if !is_assign(tok) {
        return Ok(());
    }
    match last.kind {
        Kind::ArrayLit | Kind::ObjectLit if tok == Tok::Assign => {
            machine.reader.pattern(place.start, PatternUse::Assigns)?;
        }
        _ => {
            simple(machine)?;
            if last.kind == Kind::Ident {
                machine.reader.rename(Kind::BindingIdent);
            }
        }
    }
    machine.reader.field(1);
    machine.reader.advance();
    machine.both(
        State::Assignment { no_in },
        State::Node {
            kind: Kind::AssignExpr,
            op: assign_number(tok),
            field: 2,
            place,
        },
    )
}

/// Behind the second part of a conditional.
pub fn otherwise(machine: &mut Machine<'_>, no_in: bool, place: NodeStart) -> Result<(), Stop> {
    machine.reader.field(1);
    machine.reader.expect(Tok::Colon)?;
    machine.both(
        State::Assignment { no_in },
        State::Node {
            kind: Kind::CondExpr,
            op: 0,
            field: 2,
            place,
        },
    )
}

/// Behind an operand that binary operators may follow which bind more tightly than `least`. Where that is 0, the
/// operand is what may be a condition, or be assigned to.
pub fn infix(
    machine: &mut Machine<'_>,
    no_in: bool,
    least: u8,
    place: NodeStart,
) -> Result<(), Stop> {
    let tok = machine.reader.tok();
    if power(tok) > least && !(no_in && tok == Tok::In) {
        return binary(machine, no_in, least, place);
    }
    match tok {
        Tok::PlusPlus | Tok::MinusMinus if !machine.reader.newline() => {
            machine.then(State::Infix {
                no_in,
                least,
                place,
            })?;
            postfix(machine, place)
        }
        _ if least == 0 => assignment_rest(machine, no_in, place),
        _ => Ok(()),
    }
}

// At a binary operator behind its left operand.
fn binary(machine: &mut Machine<'_>, no_in: bool, least: u8, place: NodeStart) -> Result<(), Stop> {
    let tok = machine.reader.tok();
    let left = machine.reader.last();
    if left.kind == Kind::ArrowExpr {
        return Ok(());
    }
    if tok == Tok::StarStar && matches!(left.kind, Kind::UnaryExpr | Kind::AwaitExpr) {
        let end = machine.reader.records.len();
        let operand = machine.reader.at(end.saturating_sub(2));
        return Err(machine.reader.refuse(operand.from, Stop::Power));
    }
    if mixes(left, tok, least) {
        return Err(Stop::Nullish);
    }
    machine.reader.field(1);
    machine.reader.advance();
    machine.both(
        State::Node {
            kind: Kind::BinExpr,
            op: binary_number(tok),
            field: 2,
            place,
        },
        State::Infix {
            no_in,
            least,
            place,
        },
    )?;
    let operand = machine.reader.place();
    let right = if tok == Tok::StarStar {
        power(tok).saturating_sub(1)
    } else {
        power(tok)
    };
    let rest = State::Infix {
        no_in,
        least: right,
        place: operand,
    };
    if !short_operand(machine)? {
        return machine.both(State::Unary, rest);
    }
    if ends_operand(machine) {
        return Ok(());
    }
    machine.then(rest)?;
    suffix(machine, true, false, operand)
}

// Whether `??` stands beside `||` or `&&` with no parentheses around one of them: `tok` behind the operand `left`
// of an operator that binds as tightly as `least` (13.13).
fn mixes(left: Rec, tok: Tok, least: u8) -> bool {
    let (or, and) = (BinaryOp::LogicalOr as u8, BinaryOp::LogicalAnd as u8);
    match tok {
        Tok::Nullish => left.kind == Kind::BinExpr && (left.op == or || left.op == and),
        Tok::OrOr | Tok::AndAnd => least == power(Tok::Nullish),
        _ => false,
    }
}

/// An operand with what stands before and behind it.
pub fn unary(machine: &mut Machine<'_>) -> Result<(), Stop> {
    let place = machine.reader.place();
    let tok = machine.reader.tok();
    if is_prefix(tok) {
        return prefix(machine, tok, place);
    }
    match tok {
        Tok::PlusPlus | Tok::MinusMinus => {
            let op = if tok == Tok::PlusPlus { 2 } else { 3 };
            machine.reader.advance();
            machine.both(State::Unary, State::Counted { op, place })
        }
        Tok::Await if machine.context.awaits => await_operator(machine, place),
        Tok::PrivateName => private_name(machine, place),
        _ => {
            machine.then(State::Postfix(place))?;
            machine.both(
                State::Operand,
                State::Suffix {
                    calls: true,
                    in_chain: false,
                    place,
                },
            )
        }
    }
}

// An operator before its operand.
fn prefix(machine: &mut Machine<'_>, tok: Tok, place: NodeStart) -> Result<(), Stop> {
    machine.reader.advance();
    let end = if tok == Tok::Delete {
        State::Deleted(place)
    } else {
        State::Node {
            kind: Kind::UnaryExpr,
            op: unary_number(tok),
            field: 1,
            place,
        }
    };
    machine.both(State::Unary, end)
}

// `await` and what it waits for (15.8).
fn await_operator(machine: &mut Machine<'_>, place: NodeStart) -> Result<(), Stop> {
    if machine.reader.lexer.token().escaped {
        return Err(Stop::Await);
    }
    machine.context.paused = place.from.saturating_add(1);
    machine.reader.advance();
    machine.both(
        State::Unary,
        State::Node {
            kind: Kind::AwaitExpr,
            op: 0,
            field: 0,
            place,
        },
    )
}

// A private name before `in`, the left operand of nothing that binds more tightly (13.10).
fn private_name(machine: &mut Machine<'_>, place: NodeStart) -> Result<(), Stop> {
    let may_stand = match machine.states.as_slice().last() {
        Some(
            State::Infix {
                no_in,
                least,
                place: operand,
            },
        ) => !*no_in && *least < power(Tok::In) && operand.from == place.from,
        _ => false,
    };
    if !may_stand || machine.reader.peek().kind != Tok::In {
        return Err(Stop::Unexpected);
    }
    machine.reader.leaf(Kind::PrivateName, 0)
}

/// Behind the operand of `delete`, which is neither a name nor a private member (13.5.1.1).
pub fn deleted(machine: &mut Machine<'_>, place: NodeStart) -> Result<(), Stop> {
    if is_kept(machine, machine.reader.records.len()) {
        return Err(machine.reader.refuse(place.from, Stop::Delete));
    }
    machine.reader.field(1);
    machine
        .reader
        .node(Kind::UnaryExpr, unary_number(Tok::Delete), place)
}

// Whether the operand that ends before this place of the list may not be deleted.
fn is_kept(machine: &Machine<'_>, end: usize) -> bool {
    let mut at = end.saturating_sub(1);
    for _ in 0..end {
        let child = at.saturating_sub(1);
        match machine.reader.at(at).kind {
            Kind::Ident => return true,
            Kind::MemberExpr => return machine.reader.at(child).kind == Kind::PrivateName,
            Kind::ParenExpr | Kind::OptChainExpr => at = child,
            _ => return false,
        }
    }
    false
}

/// Behind the operand of `++` or `--` before it.
pub fn counted(machine: &mut Machine<'_>, op: u8, place: NodeStart) -> Result<(), Stop> {
    simple(machine)?;
    machine.reader.field(2);
    machine.reader.node(Kind::UpdateExpr, op, place)
}

/// Behind an operand that may be counted up or down.
pub fn postfix(machine: &mut Machine<'_>, place: NodeStart) -> Result<(), Stop> {
    let op = match machine.reader.tok() {
        Tok::PlusPlus => 0,
        Tok::MinusMinus => 1,
        _ => return Ok(()),
    };
    if machine.reader.newline() {
        return Ok(());
    }
    machine.reader.advance();
    counted(machine, op, place)
}

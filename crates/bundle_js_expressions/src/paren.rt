//! Parentheses where an operand stands: expressions, or the parameters of an arrow function (ECMA-262, 13.2.9).

use crate::arrow::arrow;
use bundle_js_machine::machine::Machine;
use bundle_js_machine::state::{Arrows, State};
use bundle_js_record::kind::Kind;
use bundle_js_record::reader::Stop;
use bundle_js_record::record::NodeStart;
use bundle_js_scan::token::Tok;

/// What stands in parentheses, from here on.
pub fn paren(
    machine: &mut Machine<'_>,
    many: bool,
    arrows: Arrows,
    place: NodeStart,
) -> Result<(), Stop> {
    if arrows != Arrows::Never && machine.reader.tok() == Tok::CloseParen {
        machine.reader.advance();
        return parameters(machine, arrows, place);
    }
    let rest = machine.reader.place();
    let next = if arrows != Arrows::Never && machine.reader.eat(Tok::Dots) {
        State::ParenRest {
            arrows,
            rest,
            place,
        }
    } else {
        State::ParenNext {
            many,
            arrows,
            place,
        }
    };
    machine.both(State::Assignment { no_in: false }, next)
}

// Behind what can only be the parameters of an arrow function.
fn parameters(machine: &mut Machine<'_>, arrows: Arrows, place: NodeStart) -> Result<(), Stop> {
    if machine.reader.tok() == Tok::Arrow {
        arrow(machine, false, arrows, place)
    } else {
        Err(machine.reader.unexpected())
    }
}

/// Behind the rest parameter of an arrow function.
pub fn paren_rest(
    machine: &mut Machine<'_>,
    arrows: Arrows,
    rest: NodeStart,
    place: NodeStart,
) -> Result<(), Stop> {
    machine.reader.node(Kind::ExprOrSpread, 1, rest)?;
    machine.reader.expect(Tok::CloseParen)?;
    parameters(machine, arrows, place)
}

/// Behind one of what stands in parentheses.
pub fn paren_next(
    machine: &mut Machine<'_>,
    many: bool,
    arrows: Arrows,
    place: NodeStart,
) -> Result<(), Stop> {
    if machine.reader.eat(Tok::Comma) {
        return machine.then(State::Paren {
            many: true,
            arrows,
            place,
        });
    }
    machine.reader.expect(Tok::CloseParen)?;
    if machine.reader.tok() == Tok::Arrow && arrows != Arrows::Never {
        return arrow(machine, false, arrows, place);
    }
    if many {
        machine.reader.node(Kind::SeqExpr, 0, place)?;
    }
    let last = machine.reader.last();
    let op = match last.kind {
        Kind::Ident if last.op == 0 => 1,
        Kind::MemberExpr | Kind::SuperPropExpr => 1,
        Kind::ParenExpr => last.op,
        _ => 0,
    };
    machine.reader.node(Kind::ParenExpr, op, place)
}

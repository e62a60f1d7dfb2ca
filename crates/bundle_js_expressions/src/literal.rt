//! Arrays and templates (ECMA-262, 13.2.4 and 13.2.8).

use crate::call::element;
use crate::operator::assignment;
use bundle_js_machine::machine::Machine;
use bundle_js_machine::state::State;
use bundle_js_record::kind::Kind;
use bundle_js_record::reader::Stop;
use bundle_js_record::record::{NodeStart, Rec};
use bundle_js_scan::token::Tok;

/// The next element of an array, or its end.
pub fn array(machine: &mut Machine<'_>, place: NodeStart) -> Result<(), Stop> {
    match machine.reader.tok() {
        Tok::CloseBracket => {
            machine.reader.advance();
            machine.reader.node(Kind::ArrayLit, 0, place)
        }
        Tok::Comma => {
            machine.reader.hole()?;
            machine.behind(State::Array(place))
        }
        _ => {
            let begin = machine.reader.place();
            let spread = machine.reader.eat(Tok::Dots);
            machine.then(State::ArrayNext {
                spread,
                element: begin,
                place,
            })?;
            assignment(machine, false)
        }
    }
}

/// Behind an element of an array.
pub fn array_next(
    machine: &mut Machine<'_>,
    spread: bool,
    begin: NodeStart,
    place: NodeStart,
) -> Result<(), Stop> {
    let goes_on = machine.reader.tok() == Tok::Comma;
    element(machine, spread, goes_on, begin)?;
    if machine.reader.tok() != Tok::CloseBracket {
        machine.reader.expect(Tok::Comma)?;
    }
    array(machine, place)
}

/// A part of a template, behind its back quote or the brace that ends an expression. The parts wait from the
/// number `quasis` on, since they stand behind all expressions.
pub fn template(
    machine: &mut Machine<'_>,
    is_tagged: bool,
    quasis: u32,
    place: NodeStart,
) -> Result<(), Stop> {
    machine.reader.lexer.chunk();
    let token = machine.reader.lexer.token();
    if !matches!(token.kind, Tok::TplPart | Tok::TplLast) {
        return Err(machine.reader.unexpected());
    }
    if let Some(fault) = token.fault {
        if !is_tagged {
            return Err(Stop::Scan(fault));
        }
    }
    let quasi = machine.reader.quasi(token)?;
    wait(machine, quasi)?;
    machine.reader.advance();
    if token.kind == Tok::TplPart {
        return machine.both(
            State::Expression { no_in: false },
            State::Template {
                is_tagged,
                quasis,
                place,
            },
        );
    }
    write_quasis(machine, quasis as usize)?;
    machine.reader.node(Kind::Tpl, 0, place)
}

// Writes the parts of a template that has ended.
fn write_quasis(machine: &mut Machine<'_>, from: usize) -> Result<(), Stop> {
    for at in from..machine.quasis.len() {
        let quasi = match machine.quasis.as_slice().get(at) {
            Some(quasi) => *quasi,
            None => return Ok(()),
        };
        machine.reader.leaf_again(quasi)?;
    }
    machine.quasis.truncate(from);
    Ok(())
}

// Has a part of a template wait for the end of the template.
fn wait(machine: &mut Machine<'_>, quasi: Rec) -> Result<(), Stop> {
    match machine.quasis.push(quasi) {
        Ok(()) => Ok(()),
        Err(_) => Err(Stop::OutOfMemory),
    }
}

/// Behind an expression in a template.
pub fn template_next(
    machine: &mut Machine<'_>,
    is_tagged: bool,
    quasis: u32,
    place: NodeStart,
) -> Result<(), Stop> {
    if machine.reader.tok() == Tok::CloseBrace {
        template(machine, is_tagged, quasis, place)
    } else {
        Err(machine.reader.unexpected())
    }
}

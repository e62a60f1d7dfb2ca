//! Operands (ECMA-262, 13.2, 13.3.5, 13.3.7, 13.3.10 and 13.3.12).

use crate::arrow::{arrow, async_operand};
use crate::literal::template;
use bundle_js_machine::machine::Machine;
use bundle_js_machine::state::{Arrows, State};
use bundle_js_record::kind::Kind;
use bundle_js_record::reader::Stop;
use bundle_js_record::record::NodeStart;
use bundle_js_scan::lexer::Goal;
use bundle_js_scan::token::Tok;

/// An operand without what follows it.
pub fn operand(machine: &mut Machine<'_>) -> Result<(), Stop> {
    let place = machine.reader.place();
    match machine.reader.tok() {
        Tok::Num => machine.reader.leaf(Kind::Number, 0),
        Tok::BigInt => machine.reader.leaf(Kind::BigInt, 0),
        Tok::Str => machine.reader.leaf(Kind::Str, 0),
        Tok::True => machine.reader.leaf(Kind::Bool, 1),
        Tok::False => machine.reader.leaf(Kind::Bool, 0),
        Tok::Null => machine.reader.leaf(Kind::Null, 0),
        Tok::This => machine.reader.leaf(Kind::ThisExpr, 0),
        Tok::Slash | Tok::SlashAssign => regex(machine),
        Tok::OpenBracket => machine.behind(State::Array(place)),
        Tok::OpenBrace => machine.behind(State::Object(place)),
        Tok::OpenParen => {
            let arrows = arrows(machine, place);
            machine.behind(State::Paren {
                many: false,
                arrows,
                place,
            })
        }
        Tok::Back => {
            let quasis = u32::try_from(machine.quasis.len()).unwrap_or(u32::MAX);
            template(machine, false, quasis, place)
        }
        _ => word_operand(machine, place),
    }
}

// An operand that is a name or begins with a word.
fn word_operand(machine: &mut Machine<'_>, place: NodeStart) -> Result<(), Stop> {
    match machine.reader.tok() {
        Tok::Function => {
            machine.then(State::Function {
                kind: Kind::FnExpr,
                place,
            })
        }
        Tok::Class => {
            machine.then(State::Class {
                kind: Kind::ClassExpr,
                place,
            })
        }
        Tok::New => new_operand(machine, place),
        Tok::Super => super_operand(machine, place),
        Tok::Import => import_operand(machine, place),
        Tok::Async => {
            let arrows = arrows(machine, place);
            async_operand(machine, arrows, place)
        }
        _ => name(machine, place),
    }
}

// A name, or the one parameter of an arrow function.
fn name(machine: &mut Machine<'_>, place: NodeStart) -> Result<(), Stop> {
    machine.reference(Kind::Ident)?;
    let arrows = arrows(machine, place);
    if machine.reader.tok() == Tok::Arrow && arrows != Arrows::Never {
        arrow(machine, false, arrows, place)
    } else {
        Ok(())
    }
}

// Whether an arrow function may begin at the place: where an assignment does.
fn arrows(machine: &Machine<'_>, place: NodeStart) -> Arrows {
    if place.from != machine.assignment {
        Arrows::Never
    } else {
        Arrows::of(machine.no_in)
    }
}

fn regex(machine: &mut Machine<'_>) -> Result<(), Stop> {
    machine.reader.lexer.regex();
    if machine.reader.tok() == Tok::Regex {
        machine.reader.leaf(Kind::Regex, 0)
    } else {
        Err(machine.reader.unexpected())
    }
}

// `new` and its callee, or `new.target`.
fn new_operand(machine: &mut Machine<'_>, place: NodeStart) -> Result<(), Stop> {
    machine.reader.advance();
    if machine.reader.eat(Tok::Dot) {
        machine.reader.expect(Tok::Target)?;
        if !machine.context.has_target {
            return Err(machine.reader.refuse(place.from, Stop::NewTarget));
        }
        return machine.reader.node(Kind::MetaPropExpr, 0, place);
    }
    let callee = machine.reader.place();
    machine.three(
        State::Operand,
        State::Suffix {
            calls: false,
            in_chain: false,
            place: callee,
        },
        State::Callee(place),
    )
}

// `super` in a call, or a property of it.
fn super_operand(machine: &mut Machine<'_>, place: NodeStart) -> Result<(), Stop> {
    machine.reader.advance();
    let index = machine.reader.place();
    match machine.reader.tok() {
        Tok::OpenParen if machine.context.calls_super => machine.reader.node(Kind::Super, 0, place),
        Tok::Dot if machine.context.has_super => {
            machine.reader.advance();
            machine.reader.word(Kind::IdentName)?;
            machine.reader.node(Kind::SuperPropExpr, 0, place)
        }
        Tok::OpenBracket if machine.context.has_super => {
            machine.reader.advance();
            machine.both(
                State::Expression { no_in: false },
                State::Index {
                    kind: Kind::SuperPropExpr,
                    calls: false,
                    in_chain: false,
                    optional: false,
                    index,
                    place,
                },
            )
        }
        _ => Err(machine.reader.refuse(place.from, Stop::Super)),
    }
}

// `import` in a call, or `import.meta`.
fn import_operand(machine: &mut Machine<'_>, place: NodeStart) -> Result<(), Stop> {
    machine.reader.advance();
    match machine.reader.tok() {
        Tok::OpenParen => machine.reader.node(Kind::Import, 0, place),
        Tok::Dot => {
            machine.reader.advance();
            machine.reader.expect(Tok::Meta)?;
            if machine.goal != Goal::Module {
                return Err(machine.reader.refuse(place.from, Stop::ImportMeta));
            }
            machine.reader.node(Kind::MetaPropExpr, 1, place)
        }
        _ => Err(machine.reader.refuse(place.from, Stop::NotTop)),
    }
}

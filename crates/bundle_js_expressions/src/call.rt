//! What follows an operand: members, calls, tagged templates and optional chains (ECMA-262, 13.3).

use crate::arrow::arrow;
use crate::literal::template;
use crate::operator::assignment;
use bundle_js_machine::machine::Machine;
use bundle_js_machine::state::{Arrows, State};
use bundle_js_record::kind::Kind;
use bundle_js_record::reader::Stop;
use bundle_js_record::record::NodeStart;
use bundle_js_scan::token::Tok;

/// What follows an operand. `calls` says whether calls do, `in_chain` whether `?.` stands before.
pub fn suffix(
    machine: &mut Machine<'_>,
    calls: bool,
    in_chain: bool,
    place: NodeStart,
) -> Result<(), Stop> {
    members(machine, in_chain, place)?;
    let tok = machine.reader.tok();
    if !matches!(
        tok,
        Tok::OptionalDot | Tok::OpenBracket | Tok::OpenParen | Tok::Back
    ) {
        return Ok(());
    }
    let last = machine.reader.last_kind();
    if last == Kind::ArrowExpr || (tok == Tok::OpenParen && !calls) {
        return Ok(());
    }
    machine.reader.field(0);
    match tok {
        Tok::OpenBracket => index(machine, calls, in_chain, false, place),
        Tok::Back => tagged(machine, calls, in_chain, place),
        Tok::OptionalDot => {
            if !calls {
                return Err(Stop::Chain);
            }
            machine.reader.advance();
            optional(machine, place)
        }
        _ => call(machine, last, in_chain, place),
    }
}

// The members behind an operand that are names, each behind its dot.
fn members(machine: &mut Machine<'_>, in_chain: bool, place: NodeStart) -> Result<(), Stop> {
    for _ in 0..machine.reader.lexer.len() {
        if machine.reader.tok() != Tok::Dot || machine.reader.last_kind() == Kind::ArrowExpr {
            return Ok(());
        }
        machine.reader.field(0);
        machine.reader.advance();
        member(machine, in_chain, false, place)?;
    }
    Ok(())
}

// A call, at its parenthesis.
fn call(
    machine: &mut Machine<'_>,
    callee: Kind,
    in_chain: bool,
    place: NodeStart,
) -> Result<(), Stop> {
    machine.reader.advance();
    if callee == Kind::Import {
        let argument = machine.reader.place();
        return machine.both(
            State::Assignment { no_in: false },
            State::ImportEnd { argument, place },
        );
    }
    machine.then(State::Arguments {
        kind: if in_chain {
            Kind::OptCall
        } else {
            Kind::CallExpr
        },
        optional: false,
        place,
    })
}

// Behind `?.`.
fn optional(machine: &mut Machine<'_>, place: NodeStart) -> Result<(), Stop> {
    match machine.reader.tok() {
        Tok::OpenParen => {
            machine.behind(State::Arguments {
                kind: Kind::OptCall,
                optional: true,
                place,
            })
        }
        Tok::OpenBracket => index(machine, true, true, true, place),
        Tok::Back => Err(Stop::Chain),
        _ => {
            member(machine, true, true, place)?;
            machine.then(State::Suffix {
                calls: true,
                in_chain: true,
                place,
            })
        }
    }
}

// The name of a member, behind its dot.
fn member(
    machine: &mut Machine<'_>,
    in_chain: bool,
    optional: bool,
    place: NodeStart,
) -> Result<(), Stop> {
    if machine.reader.tok() == Tok::PrivateName {
        machine.reader.leaf(Kind::PrivateName, 0)?;
    } else {
        machine.reader.word(Kind::IdentName)?;
    }
    end_member(machine, in_chain, optional, place)
}

// An expression in brackets.
fn index(
    machine: &mut Machine<'_>,
    calls: bool,
    in_chain: bool,
    optional: bool,
    place: NodeStart,
) -> Result<(), Stop> {
    let index = machine.reader.place();
    machine.reader.advance();
    machine.both(
        State::Expression { no_in: false },
        State::Index {
            kind: Kind::MemberExpr,
            calls,
            in_chain,
            optional,
            index,
            place,
        },
    )
}

/// Behind the expression in brackets of a member of this kind.
pub fn index_end(
    machine: &mut Machine<'_>,
    kind: Kind,
    calls: bool,
    in_chain: bool,
    optional: bool,
    index: NodeStart,
    place: NodeStart,
) -> Result<(), Stop> {
    machine.reader.expect(Tok::CloseBracket)?;
    machine.reader.node(Kind::ComputedPropName, 0, index)?;
    if kind == Kind::SuperPropExpr {
        return machine.reader.node(kind, 0, place);
    }
    end_member(machine, in_chain, optional, place)?;
    suffix(machine, calls, in_chain, place)
}

// A member ends.
fn end_member(
    machine: &mut Machine<'_>,
    in_chain: bool,
    optional: bool,
    place: NodeStart,
) -> Result<(), Stop> {
    machine.reader.field(1);
    machine.reader.node(Kind::MemberExpr, 0, place)?;
    if in_chain {
        end_link(machine, optional, place)
    } else {
        Ok(())
    }
}

// A member or a call of an optional chain ends.
fn end_link(machine: &mut Machine<'_>, optional: bool, place: NodeStart) -> Result<(), Stop> {
    machine.reader.field(1);
    machine
        .reader
        .node(Kind::OptChainExpr, if optional { 1 } else { 0 }, place)
}

// A template behind its tag (13.3.11).
fn tagged(
    machine: &mut Machine<'_>,
    calls: bool,
    in_chain: bool,
    place: NodeStart,
) -> Result<(), Stop> {
    if in_chain {
        return Err(Stop::Chain);
    }
    machine.both(
        State::Node {
            kind: Kind::TaggedTpl,
            op: 0,
            field: 1,
            place,
        },
        State::Suffix {
            calls,
            in_chain,
            place,
        },
    )?;
    let quasis = u32::try_from(machine.quasis.len()).unwrap_or(u32::MAX);
    let begin = machine.reader.place();
    template(machine, true, quasis, begin)
}

/// Behind the callee of a `new`.
pub fn callee(machine: &mut Machine<'_>, place: NodeStart) -> Result<(), Stop> {
    let last = machine.reader.last();
    match last.kind {
        Kind::Super => return Err(machine.reader.refuse(last.from, Stop::Super)),
        Kind::Import => return Err(machine.reader.refuse(last.from, Stop::Unexpected)),
        _ => {}
    }
    machine.reader.field(0);
    if machine.reader.eat(Tok::OpenParen) {
        machine.then(State::Arguments {
            kind: Kind::NewExpr,
            optional: false,
            place,
        })
    } else {
        machine.reader.node(Kind::NewExpr, 0, place)
    }
}

/// The next argument of a call, or its end. A call of `async` that may turn out to be an arrow function is of
/// the kind `ArrowExpr`.
pub fn arguments(
    machine: &mut Machine<'_>,
    kind: Kind,
    optional: bool,
    place: NodeStart,
) -> Result<(), Stop> {
    if machine.reader.eat(Tok::CloseParen) {
        return end_call(machine, kind, optional, place);
    }
    let argument = machine.reader.place();
    let spread = machine.reader.eat(Tok::Dots);
    machine.then(State::ArgumentNext {
        kind,
        optional,
        spread,
        argument,
        place,
    })?;
    assignment(machine, false)
}

/// Behind an argument.
pub fn argument_next(
    machine: &mut Machine<'_>,
    kind: Kind,
    optional: bool,
    spread: bool,
    argument: NodeStart,
    place: NodeStart,
) -> Result<(), Stop> {
    let goes_on = machine.reader.tok() == Tok::Comma;
    element(machine, spread, goes_on, argument)?;
    machine.reader.field(1);
    if machine.reader.tok() != Tok::CloseParen {
        machine.reader.expect(Tok::Comma)?;
    }
    arguments(machine, kind, optional, place)
}

/// An argument or an element of an array ends. `goes_on` says whether a comma stands behind it.
pub fn element(
    machine: &mut Machine<'_>,
    spread: bool,
    goes_on: bool,
    place: NodeStart,
) -> Result<(), Stop> {
    machine.reader.field(1);
    let op = match (spread, goes_on) {
        (false, _) => 0,
        (true, false) => 1,
        (true, true) => 2,
    };
    machine.reader.node(Kind::ExprOrSpread, op, place)
}

// The arguments of a call have ended.
fn end_call(
    machine: &mut Machine<'_>,
    kind: Kind,
    optional: bool,
    place: NodeStart,
) -> Result<(), Stop> {
    match kind {
        Kind::NewExpr => machine.reader.node(kind, 1, place),
        Kind::ArrowExpr => end_async(machine, optional, place),
        _ => {
            machine.reader.node(kind, 0, place)?;
            let in_chain = kind == Kind::OptCall;
            if in_chain {
                end_link(machine, optional, place)?;
            }
            suffix(machine, true, in_chain, place)
        }
    }
}

// The arguments of `async` have ended, or its parameters. The word is no node then.
fn end_async(machine: &mut Machine<'_>, no_in: bool, place: NodeStart) -> Result<(), Stop> {
    if machine.reader.tok() != Tok::Arrow {
        return machine.reader.node(Kind::CallExpr, 0, place);
    }
    machine.reader.rename_at(place.start as usize, Kind::Gone);
    arrow(machine, true, Arrows::of(no_in), place)
}

/// Behind the one argument of an `import`.
pub fn import_end(
    machine: &mut Machine<'_>,
    argument: NodeStart,
    place: NodeStart,
) -> Result<(), Stop> {
    element(machine, false, false, argument)?;
    machine.reader.field(1);
    if machine.reader.tok() == Tok::Comma {
        return Err(Stop::Attributes);
    }
    machine.reader.expect(Tok::CloseParen)?;
    machine.reader.node(Kind::CallExpr, 0, place)?;
    suffix(machine, true, false, place)
}

//! Objects (ECMA-262, 13.2.5).

use crate::operator::assignment;
use bundle_js_machine::context::Home;
use bundle_js_machine::machine::Machine;
use bundle_js_machine::state::{FunctionKind, Signature, State};
use bundle_js_record::kind::Kind;
use bundle_js_record::reader::Stop;
use bundle_js_record::record::NodeStart;
use bundle_js_scan::token::Tok;

/// The next property of an object, or its end.
pub fn object(machine: &mut Machine<'_>, place: NodeStart) -> Result<(), Stop> {
    if machine.reader.eat(Tok::CloseBrace) {
        return machine.reader.node(Kind::ObjectLit, 0, place);
    }
    machine.then(State::ObjectNext(place))?;
    property(machine)
}

/// Behind a property of an object.
pub fn object_next(machine: &mut Machine<'_>, place: NodeStart) -> Result<(), Stop> {
    if machine.reader.tok() != Tok::CloseBrace {
        if machine.reader.tok() == Tok::Comma && machine.reader.last_kind() == Kind::SpreadElement {
            machine.reader.mark(2);
        }
        machine.reader.expect(Tok::Comma)?;
    }
    object(machine, place)
}

// A property.
fn property(machine: &mut Machine<'_>) -> Result<(), Stop> {
    let place = machine.reader.place();
    let mut signature = Signature::plain();
    let tok = machine.reader.tok();
    match tok {
        Tok::Dots => return spread(machine, place),
        Tok::Star => {
            machine.reader.advance();
            signature.is_generator = true;
        }
        Tok::Async | Tok::Get | Tok::Set => {
            if !is_key(machine) {
                machine.reader.advance();
                modified(machine, tok, &mut signature)?;
            }
        }
        _ => {}
    }
    key(machine, signature, place)
}

fn spread(machine: &mut Machine<'_>, place: NodeStart) -> Result<(), Stop> {
    machine.reader.advance();
    machine.both(
        State::Assignment { no_in: false },
        State::Node {
            kind: Kind::SpreadElement,
            op: 1,
            field: 0,
            place,
        },
    )
}

// Whether the word that is looked at is a key itself, and says nothing of the property behind it.
fn is_key(machine: &Machine<'_>) -> bool {
    matches!(
        machine.reader.peek().kind,
        Tok::OpenParen | Tok::Comma | Tok::Colon | Tok::CloseBrace | Tok::Assign
    )
}

// Behind `async`, `get` or `set`.
fn modified(machine: &mut Machine<'_>, word: Tok, signature: &mut Signature) -> Result<(), Stop> {
    match word {
        Tok::Async => {
            if machine.reader.newline() {
                return Err(Stop::Newline);
            }
            signature.is_async = true;
            signature.is_generator = machine.reader.eat(Tok::Star);
        }
        Tok::Get => signature.kind = FunctionKind::Getter,
        _ => signature.kind = FunctionKind::Setter,
    }
    Ok(())
}

// The key of a property.
fn key(machine: &mut Machine<'_>, signature: Signature, place: NodeStart) -> Result<(), Stop> {
    match machine.reader.tok() {
        Tok::OpenBracket => {
            let begin = machine.reader.place();
            machine.reader.advance();
            return machine.three(
                State::Assignment { no_in: false },
                State::KeyEnd(begin),
                State::PropertyKey { signature, place },
            );
        }
        Tok::Str => machine.reader.leaf(Kind::Str, 1)?,
        Tok::Num => machine.reader.leaf(Kind::Number, 1)?,
        Tok::BigInt => machine.reader.leaf(Kind::BigInt, 1)?,
        _ => if signature.is_plain() {
            return named(machine, place);
        } else {
            machine.reader.word(Kind::IdentName)?
        },
    }
    property_key(machine, signature, place)
}

// A property whose key is a name, and which may be no more than the name.
fn named(machine: &mut Machine<'_>, place: NodeStart) -> Result<(), Stop> {
    let tok = machine.reader.tok();
    if !machine.is_name(tok) {
        let is_alone = matches!(
            machine.reader.peek().kind,
            Tok::Comma | Tok::CloseBrace | Tok::Assign
        );
        if is_alone {
            return Err(machine.no_name());
        }
    }
    machine.reader.word(Kind::IdentName)?;
    match machine.reader.tok() {
        Tok::Assign => {
            let op = machine.reference_op(tok, place)?;
            machine.reader.rename(Kind::Ident);
            machine.reader.mark(op);
            machine.reader.advance();
            machine.both(
                State::Assignment { no_in: false },
                State::Node {
                    kind: Kind::Cover,
                    op: 0,
                    field: 1,
                    place,
                },
            )
        }
        Tok::Comma | Tok::CloseBrace => {
            let op = machine.reference_op(tok, place)?;
            machine.reader.rename(Kind::Shorthand);
            machine.reader.mark(op);
            Ok(())
        }
        _ => property_key(machine, Signature::plain(), place),
    }
}

/// Behind the expression of a computed key.
pub fn key_end(machine: &mut Machine<'_>, place: NodeStart) -> Result<(), Stop> {
    machine.reader.expect(Tok::CloseBracket)?;
    machine.reader.node(Kind::ComputedPropName, 0, place)
}

/// Behind the key of a property.
pub fn property_key(
    machine: &mut Machine<'_>,
    signature: Signature,
    place: NodeStart,
) -> Result<(), Stop> {
    if machine.reader.tok() == Tok::Colon && signature.is_plain() {
        machine.reader.advance();
        machine.then(State::Node {
            kind: Kind::KeyValueProp,
            op: 0,
            field: 1,
            place,
        })?;
        return assignment(machine, false);
    }
    let (kind, field) = match signature.kind {
        FunctionKind::Getter => (Kind::GetterProp, 1),
        FunctionKind::Setter => (Kind::SetterProp, 2),
        _ => (Kind::MethodProp, 1),
    };
    let end = State::Node {
        kind,
        op: 0,
        field,
        place,
    };
    machine.function(signature, Home::Method, end)
}

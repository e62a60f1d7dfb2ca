//! Declarations of variables (ECMA-262, 14.3).

use bundle_js_machine::machine::Machine;
use bundle_js_machine::state::State;
use bundle_js_record::kind::Kind;
use bundle_js_record::pattern::PatternUse;
use bundle_js_record::reader::Stop;
use bundle_js_record::record::NodeStart;
use bundle_js_scan::token::{Tok, is_word};
use bundle_syntax::VarDeclKind;

/// A declaration, at its word.
pub fn declaration(machine: &mut Machine<'_>, place: NodeStart) -> Result<(), Stop> {
    let kind = declared_kind(machine)?;
    machine.both(
        State::Declarators {
            is_const: kind == VarDeclKind::Const,
            no_in: false,
        },
        State::Ends {
            kind: Kind::VarDecl,
            op: kind as u8,
            place,
        },
    )
}

/// The word of a declaration, which is gone over. A `let` before what cannot be bound is refused as a name.
pub fn declared_kind(machine: &mut Machine<'_>) -> Result<VarDeclKind, Stop> {
    let word = machine.reader.place();
    let kind = match machine.reader.tok() {
        Tok::Let => VarDeclKind::Let,
        Tok::Const => VarDeclKind::Const,
        _ => VarDeclKind::Var,
    };
    machine.reader.advance();
    let tok = machine.reader.tok();
    let may_bind = match tok {
        Tok::In | Tok::InstanceOf => false,
        Tok::OpenBracket | Tok::OpenBrace | Tok::Bad => true,
        _ => is_word(tok),
    };
    if kind == VarDeclKind::Let && !may_bind {
        return Err(machine.reader.refuse(word.from, Stop::Reserved));
    }
    Ok(kind)
}

/// A declarator, and those behind it.
pub fn declarators(machine: &mut Machine<'_>, is_const: bool, no_in: bool) -> Result<(), Stop> {
    let place = machine.reader.place();
    let end = State::Declarator {
        is_const,
        no_in,
        place,
    };
    match machine.reader.tok() {
        Tok::OpenBracket | Tok::OpenBrace => machine.both(State::Operand, end),
        _ => {
            machine.binding(Kind::BindingIdent)?;
            machine.then(end)
        }
    }
}

/// Behind the name or the pattern of a declarator.
pub fn declarator(
    machine: &mut Machine<'_>,
    is_const: bool,
    no_in: bool,
    place: NodeStart,
) -> Result<(), Stop> {
    machine.reader.pattern(place.start, PatternUse::Binds)?;
    let next = State::DeclaratorNext { is_const, no_in };
    if machine.reader.eat(Tok::Assign) {
        return machine.three(
            State::Assignment { no_in },
            State::Node {
                kind: Kind::VarDeclarator,
                op: 1,
                field: 1,
                place,
            },
            next,
        );
    }
    let is_bare = no_in && matches!(machine.reader.tok(), Tok::Of | Tok::In);
    if !is_bare && (is_const || machine.reader.last_kind() != Kind::BindingIdent) {
        return Err(Stop::NoInitializer);
    }
    machine.reader.node(Kind::VarDeclarator, 0, place)?;
    machine.then(next)
}

/// Behind a declarator.
pub fn declarator_next(machine: &mut Machine<'_>, is_const: bool, no_in: bool) -> Result<(), Stop> {
    machine.reader.field(1);
    if machine.reader.eat(Tok::Comma) {
        machine.then(State::Declarators { is_const, no_in })
    } else {
        Ok(())
    }
}

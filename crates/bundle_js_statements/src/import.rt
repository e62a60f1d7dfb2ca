//! Imports (ECMA-262, 16.2.2).

use crate::source::{export_name, source, write_name};
use crate::statement::expression_statement;
use bundle_js_machine::machine::Machine;
use bundle_js_machine::state::State;
use bundle_js_record::kind::Kind;
use bundle_js_record::reader::Stop;
use bundle_js_record::record::NodeStart;
use bundle_js_scan::token::Tok;

/// What begins with `import` at the top of a module: an import, or an expression.
pub fn import_item(machine: &mut Machine<'_>, place: NodeStart) -> Result<(), Stop> {
    if matches!(machine.reader.peek().kind, Tok::OpenParen | Tok::Dot) {
        return expression_statement(machine, place);
    }
    machine.reader.advance();
    match machine.reader.tok() {
        Tok::Str => source(machine, Kind::ImportDecl, 1, place),
        Tok::Star => star(machine, place),
        Tok::OpenBrace => machine.behind(State::ImportNames(place)),
        _ => {
            let default = machine.reader.place();
            machine.binding(Kind::Ident)?;
            machine
                .reader
                .node(Kind::ImportDefaultSpecifier, 0, default)?;
            behind_default(machine, place)
        }
    }
}

// Behind the name of the default.
fn behind_default(machine: &mut Machine<'_>, place: NodeStart) -> Result<(), Stop> {
    if !machine.reader.eat(Tok::Comma) {
        return from(machine, place);
    }
    match machine.reader.tok() {
        Tok::Star => star(machine, place),
        Tok::OpenBrace => machine.behind(State::ImportNames(place)),
        _ => Err(machine.reader.unexpected()),
    }
}

// `from` and the module.
fn from(machine: &mut Machine<'_>, place: NodeStart) -> Result<(), Stop> {
    machine.reader.expect(Tok::From)?;
    source(machine, Kind::ImportDecl, 1, place)
}

// `* as` and a name.
fn star(machine: &mut Machine<'_>, place: NodeStart) -> Result<(), Stop> {
    let begin = machine.reader.place();
    machine.reader.advance();
    machine.reader.expect(Tok::As)?;
    machine.binding(Kind::Ident)?;
    machine.reader.node(Kind::ImportStarAsSpecifier, 0, begin)?;
    from(machine, place)
}

/// The next name in the braces of an import, or their end.
pub fn import_names(machine: &mut Machine<'_>, place: NodeStart) -> Result<(), Stop> {
    if machine.reader.eat(Tok::CloseBrace) {
        return from(machine, place);
    }
    import_name(machine)?;
    if machine.reader.tok() != Tok::CloseBrace {
        machine.reader.expect(Tok::Comma)?;
    }
    machine.then(State::ImportNames(place))
}

// A name in the braces of an import.
fn import_name(machine: &mut Machine<'_>) -> Result<(), Stop> {
    let place = machine.reader.place();
    if machine.reader.peek().kind == Tok::As {
        let imported = export_name(machine)?;
        machine.reader.advance();
        machine.binding(Kind::Ident)?;
        write_name(machine, imported, 1)?;
    } else {
        machine.binding(Kind::Ident)?;
    }
    machine.reader.node(Kind::ImportNamedSpecifier, 0, place)
}

//! Exports (ECMA-262, 16.2.3).

use crate::declaration::declaration;
use crate::source::{export_name, source, write_name};
use crate::statement::begins_function;
use bundle_js_machine::machine::Machine;
use bundle_js_machine::state::State;
use bundle_js_record::kind::Kind;
use bundle_js_record::reader::{Reader, Stop};
use bundle_js_record::record::NodeStart;
use bundle_js_scan::token::Tok;

/// An export, at its word.
pub fn export_item(machine: &mut Machine<'_>, place: NodeStart) -> Result<(), Stop> {
    machine.reader.advance();
    let begin = machine.reader.place();
    let end = State::Node {
        kind: Kind::ExportDecl,
        op: 0,
        field: 0,
        place,
    };
    match machine.reader.tok() {
        Tok::Star => star(machine, place),
        Tok::OpenBrace => machine.behind(State::ExportNames(place)),
        Tok::Default => {
            machine.reader.advance();
            default(machine, place)
        }
        Tok::Var | Tok::Let | Tok::Const => {
            machine.then(end)?;
            declaration(machine, begin)
        }
        Tok::Class => {
            machine.both(
                State::Class {
                    kind: Kind::ClassDecl,
                    place: begin,
                },
                end,
            )
        }
        tok => if tok == Tok::Function || (tok == Tok::Async && begins_function(machine)) {
            machine.both(
                State::Function {
                    kind: Kind::FnDecl,
                    place: begin,
                },
                end,
            )
        } else {
            Err(machine.reader.unexpected())
        },
    }
}

// Behind `export default`.
fn default(machine: &mut Machine<'_>, place: NodeStart) -> Result<(), Stop> {
    let begin = machine.reader.place();
    let end = State::Node {
        kind: Kind::ExportDefaultDecl,
        op: 0,
        field: 0,
        place,
    };
    match machine.reader.tok() {
        Tok::Class => {
            machine.both(
                State::Class {
                    kind: Kind::ClassExpr,
                    place: begin,
                },
                end,
            )
        }
        tok => if tok == Tok::Function || (tok == Tok::Async && begins_function(machine)) {
            machine.both(
                State::Function {
                    kind: Kind::FnExpr,
                    place: begin,
                },
                end,
            )
        } else {
            machine.both(
                State::Assignment { no_in: false },
                State::Ends {
                    kind: Kind::ExportDefaultExpr,
                    op: 0,
                    place,
                },
            )
        },
    }
}

// `*`, and maybe the name of the namespace.
fn star(machine: &mut Machine<'_>, place: NodeStart) -> Result<(), Stop> {
    let begin = machine.reader.place();
    machine.reader.advance();
    if !machine.reader.eat(Tok::As) {
        machine.reader.expect(Tok::From)?;
        return source(machine, Kind::ExportAll, 0, place);
    }
    let name = export_name(machine)?;
    write_name(machine, name, 0)?;
    machine
        .reader
        .node(Kind::ExportNamespaceSpecifier, 0, begin)?;
    machine.reader.expect(Tok::From)?;
    source(machine, Kind::NamedExport, 1, place)
}

/// The next name in the braces of an export, or their end.
pub fn export_names(machine: &mut Machine<'_>, place: NodeStart) -> Result<(), Stop> {
    if machine.reader.eat(Tok::CloseBrace) {
        return end_names(machine, place);
    }
    let begin = machine.reader.place();
    let orig = export_name(machine)?;
    write_name(machine, orig, 0)?;
    let is_name = orig.kind != Tok::Str && machine.is_name(orig.kind);
    machine.reader.mark(if is_name { 0 } else { 2 });
    if machine.reader.eat(Tok::As) {
        let exported = export_name(machine)?;
        write_name(machine, exported, 1)?;
    }
    machine.reader.node(Kind::ExportNamedSpecifier, 0, begin)?;
    if machine.reader.tok() != Tok::CloseBrace {
        machine.reader.expect(Tok::Comma)?;
    }
    machine.then(State::ExportNames(place))
}

// Behind the braces of an export. Its names are those of another module, or of this one, where no string and no
// reserved word is a name.
fn end_names(machine: &mut Machine<'_>, place: NodeStart) -> Result<(), Stop> {
    if machine.reader.eat(Tok::From) {
        return source(machine, Kind::NamedExport, 1, place);
    }
    if let Some(from) = other_name(&machine.reader, place) {
        return Err(machine.reader.refuse(from, Stop::Reserved));
    }
    machine.ends(Kind::NamedExport, 0, place)
}

// Where, in the braces that begin at the place, a name stands that can only be another module's.
fn other_name(reader: &Reader<'_>, place: NodeStart) -> Option<u32> {
    let names = reader.records.as_slice().get(place.start as usize..)?;
    for rec in names {
        if rec.op == 2 {
            return Some(rec.from);
        }
    }
    None
}

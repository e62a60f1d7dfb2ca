//! The module that an import or an export names (ECMA-262, 16.2).

use bundle_js_machine::machine::Machine;
use bundle_js_record::kind::Kind;
use bundle_js_record::reader::Stop;
use bundle_js_record::record::NodeStart;
use bundle_js_scan::token::{Tok, Token, is_word};

/// The string that names a module, and the end of the import or the export, where it stands in this field.
pub fn source(
    machine: &mut Machine<'_>,
    kind: Kind,
    field: u8,
    place: NodeStart,
) -> Result<(), Stop> {
    if machine.reader.tok() != Tok::Str {
        return Err(machine.reader.unexpected());
    }
    machine.reader.leaf(Kind::Str, 0)?;
    machine.reader.field(field);
    if has_attributes(machine) {
        return Err(Stop::Attributes);
    }
    machine.ends(kind, 0, place)
}

// Whether import attributes stand here.
fn has_attributes(machine: &Machine<'_>) -> bool {
    let token = machine.reader.lexer.token();
    match token.kind {
        Tok::With => machine.reader.peek().kind == Tok::OpenBrace,
        Tok::Ident => {
            let word = machine
                .reader
                .lexer
                .source()
                .get(token.from as usize..token.to as usize);
            !token.newline && word == Some("assert")
        }
        _ => false,
    }
}

/// A name under which a module exports: a word or a string. It is gone over, and not written.
pub fn export_name(machine: &mut Machine<'_>) -> Result<Token, Stop> {
    let tok = machine.reader.tok();
    if tok != Tok::Str && !is_word(tok) {
        return Err(machine.reader.unexpected());
    }
    let token = machine.reader.lexer.token();
    machine.reader.advance();
    Ok(token)
}

/// Writes a name under which a module exports.
pub fn write_name(machine: &mut Machine<'_>, name: Token, field: u8) -> Result<(), Stop> {
    let kind = if name.kind == Tok::Str {
        Kind::Str
    } else {
        Kind::Ident
    };
    machine.reader.leaf_of(kind, 0, name)?;
    machine.reader.field(field);
    Ok(())
}

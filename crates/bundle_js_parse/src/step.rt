//! What each state reads.

use bundle_js_expressions::{call, literal, operand, operator, paren, property};
use bundle_js_functions::{class, function};
use bundle_js_machine::machine::Machine;
use bundle_js_machine::state::State;
use bundle_js_record::reader::Stop;
use bundle_js_statements::{choice, declaration, export, import, iteration, statement};

/// Reads what the state says.
pub fn step(machine: &mut Machine<'_>, state: State) -> Result<(), Stop> {
    match state {
        State::Field(field) => {
            machine.reader.field(field);
            Ok(())
        }
        State::Node {
            kind,
            op,
            field,
            place,
        } => {
            machine.reader.field(field);
            machine.reader.node(kind, op, place)
        }
        State::Ends { kind, op, place } => machine.ends(kind, op, place),
        State::Leave(outer) => {
            machine.leave(outer);
            Ok(())
        }
        State::Expression { no_in } => operator::expression(machine, no_in),
        State::Comma { no_in, many, place } => operator::comma(machine, no_in, many, place),
        State::Assignment { no_in } => operator::assignment(machine, no_in),
        State::Else { no_in, place } => operator::otherwise(machine, no_in, place),
        State::Infix {
            no_in,
            least,
            place,
        } => operator::infix(machine, no_in, least, place),
        State::Unary => operator::unary(machine),
        State::Deleted(place) => operator::deleted(machine, place),
        State::Counted { op, place } => operator::counted(machine, op, place),
        State::Postfix(place) => operator::postfix(machine, place),
        _ => step_operand(machine, state),
    }
}

// Reads what the state says of operands and what follows them.
fn step_operand(machine: &mut Machine<'_>, state: State) -> Result<(), Stop> {
    match state {
        State::Operand => operand::operand(machine),
        State::Suffix {
            calls,
            in_chain,
            place,
        } => call::suffix(machine, calls, in_chain, place),
        State::Index {
            kind,
            calls,
            in_chain,
            optional,
            index,
            place,
        } => { call::index_end(machine, kind, calls, in_chain, optional, index, place) }
        State::Callee(place) => call::callee(machine, place),
        State::Arguments {
            kind,
            optional,
            place,
        } => call::arguments(machine, kind, optional, place),
        State::ArgumentNext {
            kind,
            optional,
            spread,
            argument,
            place,
        } => { call::argument_next(machine, kind, optional, spread, argument, place) }
        State::ImportEnd { argument, place } => call::import_end(machine, argument, place),
        State::Paren {
            many,
            arrows,
            place,
        } => paren::paren(machine, many, arrows, place),
        State::ParenNext {
            many,
            arrows,
            place,
        } => paren::paren_next(machine, many, arrows, place),
        State::ParenRest {
            arrows,
            rest,
            place,
        } => paren::paren_rest(machine, arrows, rest, place),
        _ => step_literal(machine, state),
    }
}

// Reads what the state says of arrays, objects and templates.
fn step_literal(machine: &mut Machine<'_>, state: State) -> Result<(), Stop> {
    match state {
        State::Array(place) => literal::array(machine, place),
        State::ArrayNext {
            spread,
            element,
            place,
        } => literal::array_next(machine, spread, element, place),
        State::Object(place) => property::object(machine, place),
        State::ObjectNext(place) => property::object_next(machine, place),
        State::KeyEnd(place) => property::key_end(machine, place),
        State::PropertyKey { signature, place } => property::property_key(
            machine, signature, place,
        ),
        State::Template {
            is_tagged,
            quasis,
            place,
        } => literal::template_next(machine, is_tagged, quasis, place),
        _ => step_statement(machine, state),
    }
}

// Reads what the state says of statements.
fn step_statement(machine: &mut Machine<'_>, state: State) -> Result<(), Stop> {
    match state {
        State::Statement(position) => statement::statement(machine, position),
        State::Statements {
            kind,
            directives,
            place,
        } => statement::statements(machine, kind, directives, place),
        State::ExpressionEnd(place) => statement::expression_end(machine, place),
        State::IfThen(place) => choice::if_then(machine, place),
        State::IfElse(place) => choice::if_else(machine, place),
        State::Declarators { is_const, no_in } => declaration::declarators(
            machine, is_const, no_in,
        ),
        State::Declarator {
            is_const,
            no_in,
            place,
        } => declaration::declarator(machine, is_const, no_in, place),
        State::DeclaratorNext { is_const, no_in } => declaration::declarator_next(
            machine, is_const, no_in,
        ),
        State::Switch(place) => choice::switch(machine, place),
        State::Cases { has_default, place } => choice::cases(machine, has_default, place),
        State::CaseTest(place) => choice::case_test(machine, place),
        State::Consequent(place) => choice::consequent(machine, place),
        State::Try(place) => choice::try_end(machine, place),
        State::Catch { clause, place } => choice::catch(machine, clause, place),
        State::CatchBody { clause, place } => choice::catch_body(machine, clause, place),
        State::Finally(place) => choice::finally(machine, place),
        _ => step_loop(machine, state),
    }
}

// Reads what the state says of loops and modules.
fn step_loop(machine: &mut Machine<'_>, state: State) -> Result<(), Stop> {
    match state {
        State::Body {
            kind,
            op,
            field,
            place,
        } => iteration::body(machine, kind, op, field, place),
        State::DoTest(place) => iteration::do_test(machine, place),
        State::DoEnd(place) => iteration::do_end(machine, place),
        State::ForHead { awaits, place } => iteration::for_head(machine, awaits, place),
        State::ForTest(place) => iteration::for_test(machine, place),
        State::ForUpdate(place) => iteration::for_update(machine, place),
        State::ImportNames(place) => import::import_names(machine, place),
        State::ExportNames(place) => export::export_names(machine, place),
        _ => step_function(machine, state),
    }
}

// Reads what the state says of functions and classes.
fn step_function(machine: &mut Machine<'_>, state: State) -> Result<(), Stop> {
    match state {
        State::Function { kind, place } => function::function(machine, kind, place),
        State::Params { signature, place } => function::parameters(machine, signature, place),
        State::ParamNext {
            signature,
            is_rest,
            param,
            place,
        } => function::parameter_next(machine, signature, is_rest, param, place),
        State::Class { kind, place } => class::class(machine, kind, place),
        State::Heritage(place) => class::heritage(machine, place),
        State::Members { is_derived, place } => class::members(machine, is_derived, place),
        State::MemberNext { is_derived, place } => class::member_next(machine, is_derived, place),
        State::MemberKey {
            signature,
            is_static,
            is_derived,
            place,
        } => class::member_key(machine, signature, is_static, is_derived, place),
        _ => Ok(()),
    }
}

//! Expressions that turn out to be patterns (ECMA-262, 13.15.5 and 14.3.3). What was read as an expression is
//! turned where it stands; a pattern has no reader of its own.

use crate::kind::Kind;
use crate::record::Rec;

/// What a pattern does with its names.
#[derive(Clone, Copy, PartialEq, Eq, Debug)]
pub enum PatternUse {
    /// It binds them, and holds nothing but names.
    Binds,
    /// It assigns to them, and to members.
    Assigns,
}

// What becomes of a record where an expression turns out to be a pattern.
#[derive(Clone, Copy)]
enum Refinement {
    // It is of this kind now, and what lies in it is looked at.
    Inside(Kind),
    // The same, and it and its last child are of field 0.
    Only(Kind),
    // It is of this kind now, and its last child stays an expression.
    Left(Kind),
    // The same, and the numbers of its fields are one less.
    Fewer(Kind),
    // It and what lies in it stay.
    Stays,
    // It is no pattern.
    Refused,
}

// What becomes of a record of an expression.
fn refinement_of(rec: Rec, purpose: PatternUse) -> Refinement {
    match rec.kind {
        Kind::Ident if rec.op == 0 => Refinement::Inside(Kind::BindingIdent),
        Kind::Shorthand if rec.op == 0 => Refinement::Inside(Kind::ShorthandPat),
        Kind::ArrayLit => Refinement::Inside(Kind::ArrayPat),
        Kind::ObjectLit => Refinement::Inside(Kind::ObjectPat),
        Kind::KeyValueProp => Refinement::Inside(Kind::KeyValuePatProp),
        Kind::Cover => Refinement::Left(Kind::AssignPatProp),
        Kind::AssignExpr if rec.op == 0 => Refinement::Fewer(Kind::AssignPat),
        Kind::ExprOrSpread if rec.op == 0 => Refinement::Only(Kind::Gone),
        Kind::ExprOrSpread | Kind::SpreadElement => Refinement::Only(Kind::RestPat),
        Kind::MemberExpr | Kind::SuperPropExpr if purpose == PatternUse::Assigns =>
            Refinement::Stays,
        Kind::ParenExpr if purpose == PatternUse::Assigns && rec.op == 1 => Refinement::Stays,
        // Keys, which are no expressions.
        Kind::Str | Kind::Number | Kind::BigInt if rec.op == 1 => Refinement::Stays,
        Kind::Hole | Kind::IdentName | Kind::ComputedPropName => Refinement::Stays,
        _ => refinement_again(rec.kind, purpose),
    }
}

// What becomes of a record that was turned before: what was turned to be assigned to may hold members, which
// nothing binds.
fn refinement_again(kind: Kind, purpose: PatternUse) -> Refinement {
    match kind {
        Kind::BindingIdent | Kind::ShorthandPat => Refinement::Stays,
        Kind::ArrayPat | Kind::ObjectPat | Kind::KeyValuePatProp | Kind::RestPat | Kind::Gone => {
            if purpose == PatternUse::Binds {
                Refinement::Inside(kind)
            } else {
                Refinement::Stays
            }
        }
        Kind::AssignPat | Kind::AssignPatProp => if purpose == PatternUse::Binds {
            Refinement::Left(kind)
        } else {
            Refinement::Stays
        },
        _ => Refinement::Refused,
    }
}

// Whether this may be a rest, behind `...`: no comma stands behind it, there is no default for it, and in an object
// it is no pattern.
fn may_rest(rec: Rec, child: Kind) -> bool {
    match child {
        _ if rec.op > 1 => false,
        Kind::AssignExpr | Kind::AssignPat => false,
        Kind::ArrayLit | Kind::ObjectLit | Kind::ArrayPat | Kind::ObjectPat => {
            rec.kind != Kind::SpreadElement
        }
        _ => true,
    }
}

// Gives the record at this place another field.
fn set_field(records: &mut [Rec], at: usize, field: u8) {
    if let Some(rec) = records.get_mut(at) {
        rec.field = field;
    }
}

// Gives the record at this place another kind.
fn set_kind(records: &mut [Rec], at: usize, kind: Kind) {
    if let Some(rec) = records.get_mut(at) {
        rec.kind = kind;
    }
}

// What is known of a record that is turned: itself, its place in the list, and its last child.
#[derive(Clone, Copy)]
struct Turned {
    rec: Rec,
    at: usize,
    child: Rec,
}

// Where in the text that is refused begins which is no rest of a pattern: a comma behind it, or what it is.
fn refused_rest(turned: Turned) -> u32 {
    if turned.rec.op > 1 {
        turned.rec.to
    } else {
        turned.child.from
    }
}

// Turns the record, and says where the next one to be turned ends. Where it is no pattern it is the byte of the
// text at which that begins.
fn turn_one(records: &mut [Rec], turned: Turned, purpose: PatternUse) -> Result<usize, u32> {
    let Turned { rec, at, child } = turned;
    let before = at.saturating_sub(1);
    match refinement_of(rec, purpose) {
        Refinement::Inside(kind) => {
            set_kind(records, at, kind);
            Ok(at)
        }
        Refinement::Only(kind) => {
            if kind == Kind::RestPat && !may_rest(rec, child.kind) {
                return Err(refused_rest(turned));
            }
            set_kind(records, at, kind);
            set_field(records, at, 0);
            set_field(records, before, 0);
            Ok(at)
        }
        Refinement::Left(kind) => {
            set_kind(records, at, kind);
            Ok(child.start as usize)
        }
        Refinement::Fewer(kind) => {
            set_kind(records, at, kind);
            set_field(records, before, 1);
            let left = child.start as usize;
            set_field(records, left.saturating_sub(1), 0);
            Ok(left)
        }
        Refinement::Stays => Ok(rec.start as usize),
        Refinement::Refused => Err(rec.from),
    }
}

/// Turns the records from `start` on from expressions into patterns, where they stand. Where one of them is no
/// pattern it is the byte of the text at which that begins. Each record is looked at once: what stays is stepped
/// over by its own start.
pub fn turn(records: &mut [Rec], start: usize, purpose: PatternUse) -> Result<(), u32> {
    let mut end = records.len();
    for _ in start..records.len() {
        if end <= start {
            return Ok(());
        }
        let at = end - 1;
        let turned = match (records.get(at), records.get(at.saturating_sub(1))) {
            (Some(rec), Some(child)) => Turned {
                rec: *rec,
                at,
                child: *child,
            },
            _ => return Ok(()),
        };
        end = turn_one(records, turned, purpose)?;
    }
    Ok(())
}

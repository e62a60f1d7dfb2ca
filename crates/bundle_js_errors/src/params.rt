//! The names that parameters bind (ECMA-262, 15.1).

use bundle_js_record::kind::Kind;
use bundle_js_record::record::{Rec, record_at};

/// What a record is to the names of the patterns that it may stand in.
#[derive(Clone, Copy, PartialEq, Eq)]
pub enum Bound {
    /// It binds its name.
    Name,
    /// Names may lie in it.
    Around,
    /// Names may lie in all of it but its last child.
    Left,
    /// No name lies in it.
    Nothing,
}

/// What a record of this kind is to the names of the patterns that it may stand in.
pub fn bound_of(kind: Kind) -> Bound {
    match kind {
        Kind::BindingIdent | Kind::ShorthandPat => Bound::Name,
        Kind::Param
        | Kind::ArrayPat
        | Kind::ObjectPat
        | Kind::RestPat
        | Kind::KeyValuePatProp
        | Kind::Gone => Bound::Around,
        Kind::AssignPat | Kind::AssignPatProp => Bound::Left,
        _ => Bound::Nothing,
    }
}

/// Where the records end that are before this child or its last one, and may bind names too.
pub fn before(records: &[Rec], at: usize) -> usize {
    let rec = record_at(records, at);
    match bound_of(rec.kind) {
        Bound::Name | Bound::Around => at,
        Bound::Left => record_at(records, at.saturating_sub(1)).start as usize,
        Bound::Nothing => rec.start as usize,
    }
}

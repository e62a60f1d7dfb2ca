//! What stands in classes and objects.

use crate::privates::PrivateKind;
use bundle_js_record::kind::Kind;
use bundle_js_record::record::{Rec, record_at};
use bundle_syntax::MethodKind;

/// The private name that is the key of the member at this place, the first in it.
pub fn private_key(records: &[Rec], member: Rec, at: usize) -> Rec {
    for place in member.start as usize..at {
        let rec = record_at(records, place);
        if rec.kind == Kind::PrivateName {
            return rec;
        }
    }
    member
}

/// The key of the property at this place that has a value, which stands right before the value.
pub fn key_of(records: &[Rec], at: usize) -> Rec {
    let value = record_at(records, at.saturating_sub(1));
    record_at(records, (value.start as usize).saturating_sub(1))
}

/// What a member with a private name is in its class; none where its name is not private.
pub fn kind_of(member: Rec) -> Option<PrivateKind> {
    let is_static = member.op & 4 != 0;
    match member.kind {
        Kind::PrivateProp => Some(PrivateKind::Whole),
        Kind::PrivateMethod => {
            let kind = member.op & 3;
            if kind == MethodKind::Getter as u8 {
                Some(PrivateKind::Getter { is_static })
            } else if kind == MethodKind::Setter as u8 {
                Some(PrivateKind::Setter { is_static })
            } else {
                Some(PrivateKind::Whole)
            }
        }
        _ => None,
    }
}
